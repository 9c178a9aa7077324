// Conditions of equations and rules.
ghost use Rattle.std.specs.Prelude.{◌≡◌, ◌<◌, length, option_map, IfSome, IfOk};
ghost use Rattle.mw_module.specs.Words.{seen_halves};
ghost use Rattle.mw_module.specs.Conditions.{seen_fragment, seen_fragments, seen_condition};
ghost use Rattle.mw_module.specs.Conditions as conditions;

use crate::machine::{Part, divided_at, part_tokens, read};
use crate::table::{Place, Read, Role, Want};
use crate::words::{is_word, tokens_from};
use mw_lex::Token;
use std::alloc::{AllocError, Global};

/// A fragment of a condition. Each text may be empty.
#[derive(Clone, Copy)]
pub enum WrittenFragment<'s> {
    /// A pattern, `:=`, and a term that is to match it.
    Match {
        pattern: &'s [Token],
        term: &'s [Token],
    },
    /// Two sides round `=`.
    Equal {
        left: &'s [Token],
        right: &'s [Token],
    },
    /// Any other text: a sort test or a Boolean term. Which of them it is depends on the sorts.
    Other(&'s [Token]),
}

// How many tokens come before the one `if` that no `fi` closes.
fn open_if(tokens: &[Token]) -> Option<usize>
    ensures place { result ≡ conditions.open_if tokens.now }
    ensures within { IfSome result (λ n. n < length tokens.now) }
{
    let mut rest = tokens;
    let mut closing = 0usize;
    let mut unclosed = 0usize;
    let mut at = tokens.len();
    while let [before @ .., token] = rest {
        if is_word(token, b"if") {
            if closing == 0 {
                unclosed += 1;
                at = before.len();
            } else {
                closing -= 1;
            }
        } else if is_word(token, b"fi") {
            closing += 1;
        }
        rest = before;
    }
    if unclosed == 1 { Some(at) } else { None }
}

// What stands in front of the one `if` that no `fi` closes, and what stands behind it.
pub fn cut_at_if(tokens: &[Token]) -> Option<(&[Token], &[Token])>
    ensures { option_map seen_halves result ≡ conditions.cut_at_if tokens.now }
{
    match open_if(tokens) {
        Some(at) => Some((&tokens[..at], tokens_from(tokens, at + 1))),
        None => None,
    }
}

// A fragment by its tokens: a match, or else an equation, or else any other text.
fn fragment_of<'s>(alloc: Global, tokens: &'s [Token]) -> Result<WrittenFragment<'s>, AllocError>
    ensures { IfOk result (λ f. seen_fragment f ≡ conditions.fragment_of tokens.now) }
{
    if let Some((pattern, term)) = divided_at(alloc, Place::Pattern, tokens)? {
        return Ok(WrittenFragment::Match { pattern, term });
    }
    match divided_at(alloc, Place::Left, tokens)? {
        Some((left, right)) => Ok(WrittenFragment::Equal { left, right }),
        None => Ok(WrittenFragment::Other(tokens)),
    }
}

// The fragments that parts are.
fn fragments_of<'s>(
    alloc: Global,
    tokens: &'s [Token],
    parts: &[Part],
) -> Result<Vec<WrittenFragment<'s>>, AllocError>
    ensures { IfOk result (λ v. seen_fragments v.items ≡ conditions.fragments_of tokens.now parts.now) }
{
    let mut fragments = Vec::new(alloc);
    let mut rest = parts;
    while let [part, after @ ..] = rest {
        fragments.push(fragment_of(alloc, part_tokens(tokens, *part))?)?;
        rest = after;
    }
    Ok(fragments)
}

// The fragments of a condition, one at least.
pub fn condition_form<'s>(alloc: Global, tokens: &'s [Token]) -> Read<Vec<WrittenFragment<'s>>>
    ensures { IfOk result (λ r. seen_condition r ≡ conditions.condition_form tokens.now) }
{
    match read(alloc, Place::Condition, Role::Words, Want::Nothing, tokens)? {
        Ok(parts) => Ok(Ok(fragments_of(alloc, tokens, parts.as_slice())?)),
        Err(wrong) => Ok(Err(wrong)),
    }
}
