// Equations and rules.
ghost use Rattle.std.specs.Prelude.{◌≡◌, ◌<◌, ◌≤◌, ◌+◌, ◌-◌, length, reverse, option_map, IfSome, IfOk};
ghost use Rattle.std.specs.List.{list_any};
ghost use Rattle.mw_module.specs.Conditions.{seen_condition};
ghost use Rattle.mw_module.specs.Statements as statements;
ghost use Rattle.mw_module.specs.Forms as forms;

use crate::conditions::{WrittenFragment, condition_form, cut_at_if};
use crate::forms::Form;
use crate::machine::{Part, divided_at, read};
use crate::table::{Place, Read, Role, Want, Wrong};
use crate::words::{is_word, tokens_from};
use mw_lex::Token;
use std::alloc::Global;

// Whether a label stands in front.
fn has_label(tokens: &[Token]) -> bool
    ensures { result ≡ statements.has_label tokens.now }
{
    match tokens {
        [open, _, close, colon, ..] => {
            is_word(open, b"[") && is_word(close, b"]") && is_word(colon, b":")
        }
        _ => false,
    }
}

// What stands behind the label, or all where there is none.
fn unlabelled(tokens: &[Token]) -> &[Token]
    ensures { result.now ≡ statements.unlabelled tokens.now }
{
    if has_label(tokens) {
        tokens_from(tokens, 4)
    } else {
        tokens
    }
}

// How many tokens the group has that a bracket at the end closes.
fn bracket_len(tokens: &[Token]) -> Option<usize>
    ensures len { result ≡ statements.bracket_len 0 (reverse tokens.now) }
    ensures within { IfSome result (λ n. n ≤ length tokens.now) }
{
    let mut rest = tokens;
    let mut depth = 0usize;
    let mut len = 0;
    while let [before @ .., token] = rest {
        len += 1;
        if is_word(token, b"]") {
            depth += 1;
        } else if depth == 0 {
            return None;
        } else if is_word(token, b"[") {
            if depth == 1 {
                return Some(len);
            }
            depth -= 1;
        }
        rest = before;
    }
    None
}

// Whether a group begins with a word of attributes.
fn begins_attributes(group: &[Token]) -> bool
    ensures { result ≡ statements.begins_attributes group.now }
{
    match group {
        [_, word, ..] => {
            is_word(word, b"label")
                || is_word(word, b"metadata")
                || is_word(word, b"nonexec")
                || is_word(word, b"owise")
        }
        _ => false,
    }
}

// How many tokens the attributes at the end have.
fn attributes_len(tokens: &[Token]) -> usize
    ensures len { result ≡ statements.attributes_len tokens.now }
    ensures within { result ≤ length tokens.now }
{
    match bracket_len(tokens) {
        Some(len) if begins_attributes(tokens_from(tokens, tokens.len() - len)) => len,
        _ => 0,
    }
}

// The tokens of a group of this length at the end, without its brackets.
fn group_at_end(len: usize, tokens: &[Token]) -> &[Token]
    requires { len ≤ length tokens.now }
    ensures { result.now ≡ statements.group_at_end len tokens.now }
{
    if len < 2 {
        return &tokens[..0];
    }
    let group = tokens_from(tokens, tokens.len() - len);
    &group[1..len - 1]
}

// The fragments of a condition, where there is one.
fn fragments_form<'s>(
    alloc: Global,
    condition: Option<&'s [Token]>,
) -> Read<Vec<WrittenFragment<'s>>>
    ensures { IfOk result (λ r. seen_condition r ≡ forms.fragments_form (option_map (λ ts. ts.now) condition.entry)) }
{
    match condition {
        Some(tokens) => condition_form(alloc, tokens),
        None => Ok(Ok(Vec::new(alloc))),
    }
}

// The place where the left side begins.
fn left_place(rule: bool) -> Place
    ensures { result ≡ forms.left_place rule }
{
    if rule { Place::RuleLeft } else { Place::Left }
}

// Whether one of the parts is the word `owise`.
fn is_late(parts: &[Part]) -> bool
    ensures { result ≡ list_any forms.is_owise parts.now }
{
    parts.iter().any(is_owise)
}

fn is_owise(part: &Part) -> bool
    ensures { result ≡ forms.is_owise part.now }
{
    matches!(part.role, Role::Owise)
}

// Whether a statement with these attributes is executable. Equations with `owise` aren't read yet, and rules have none.
fn executable_by(alloc: Global, rule: bool, said: &[Token]) -> Read<bool>
    ensures { IfOk result (λ r. r ≡ forms.executable_by rule said.now) }
{
    let parts = match read(alloc, Place::Statement, Role::Silent, Want::Nothing, said)? {
        Ok(parts) => parts,
        Err(wrong) => return Ok(Err(wrong)),
    };
    if is_late(parts.as_slice()) {
        return Ok(Err(if rule { Wrong::Bad } else { Wrong::Unread }));
    }
    Ok(Ok(parts.is_empty()))
}

// Two sides, a condition, if there is one, and attributes.
fn sides_form<'s>(
    alloc: Global,
    rule: bool,
    sides: &'s [Token],
    condition: Option<&'s [Token]>,
    said: &[Token],
) -> Read<Form<'s>>
    ensures { IfOk result (λ r.
        forms.seen_shaped r ≡ forms.sides_form rule sides.now (option_map (λ ts. ts.now) condition.entry) said.now) }
{
    let Some((left, right)) = divided_at(alloc, left_place(rule), sides)? else {
        return Ok(Err(Wrong::Bad));
    };
    let fragments = match fragments_form(alloc, condition)? {
        Ok(fragments) => fragments,
        Err(wrong) => return Ok(Err(wrong)),
    };
    match executable_by(alloc, rule, said)? {
        Ok(executable) => Ok(Ok(Form::Statement {
            rule,
            left,
            right,
            fragments,
            executable,
        })),
        Err(wrong) => Ok(Err(wrong)),
    }
}

// What an equation or a rule, with a condition or without, states in front of these attributes.
fn stated<'s>(
    alloc: Global,
    rule: bool,
    conditional: bool,
    tokens: &'s [Token],
    said: &[Token],
) -> Read<Form<'s>>
    ensures { IfOk result (λ r. forms.seen_shaped r ≡ forms.stated rule conditional tokens.now said.now) }
{
    if !conditional {
        return sides_form(alloc, rule, tokens, None, said);
    }
    match cut_at_if(tokens) {
        Some((sides, condition)) => sides_form(alloc, rule, sides, Some(condition), said),
        None => Ok(Err(Wrong::Bad)),
    }
}

// A label, two sides, a condition where one is asked for, and attributes.
pub fn statement_form<'s>(
    alloc: Global,
    rule: bool,
    conditional: bool,
    tokens: &'s [Token],
) -> Read<Form<'s>>
    ensures { IfOk result (λ r. forms.seen_shaped r ≡ forms.statement_form rule conditional tokens.now) }
{
    let behind = unlabelled(tokens);
    let len = attributes_len(behind);
    let said = group_at_end(len, behind);
    stated(
        alloc,
        rule,
        conditional,
        &behind[..behind.len() - len],
        said,
    )
}
