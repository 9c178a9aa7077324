// What stands between a command's word and its term.
ghost use Rattle.std.specs.Prelude.{◌≡◌, ◌≤◌, length, option_map};
ghost use Rattle.mw_module.specs.Words.{begins};
ghost use Rattle.mw_command.specs.Bounds as bounds;
ghost use Rattle.mw_command.specs.Commands as commands;

use mw_lex::Token;
use mw_module::{count_before, is_word, tokens_from};
use mw_text::number;

/// Whether the first token has this text.
pub fn begins_with(tokens: &[Token], word: &[u8]) -> bool
    ensures { result ≡ begins word.now tokens.now }
{
    match tokens {
        [token, ..] => is_word(token, word),
        [] => false,
    }
}

// A number that may be a bound.
fn in_range(number: u128) -> Option<u64>
    ensures { result ≡ bounds.in_range number }
{
    if number <= u64::MAX as u128 {
        Some(number as u64)
    } else {
        None
    }
}

// The bound that a text is: a number in digits, the first of which isn't 0.
fn bound_of(text: &[u8]) -> Option<u64>
    ensures { result ≡ bounds.bound_of text.now }
{
    match text {
        [b'0', ..] => None,
        _ => in_range(number(text)?),
    }
}

/// The bound that stands in front in brackets, and what stands behind it.
pub fn bound_in_front(tokens: &[Token]) -> Option<(u64, &[Token])>
    ensures { option_map bounds.seen_bounded result ≡ bounds.bound_in_front tokens.now }
{
    match tokens {
        [open, text, close, behind @ ..] if is_word(open, b"[") && is_word(close, b"]") => {
            let bound = bound_of(text.text.as_slice())?;
            Some((bound, behind))
        }
        _ => None,
    }
}

// What stands behind a bound, if there is one.
fn behind_bound(tokens: &[Token]) -> &[Token]
    ensures { result.now ≡ commands.behind_bound tokens.now }
{
    if !begins_with(tokens, b"[") {
        return tokens;
    }
    let end = count_before(tokens, b"]");
    if end < tokens.len() {
        tokens_from(tokens, end + 1)
    } else {
        tokens_from(tokens, tokens.len())
    }
}

// Whether the brace that is open is closed, and a colon follows directly.
fn closes_before_colon(tokens: &[Token]) -> bool
    ensures { result ≡ commands.closes_before_colon 1 tokens.now }
{
    let mut rest = tokens;
    let mut depth = 1usize;
    while let [token, after @ ..] = rest {
        if is_word(token, b"}") {
            if depth == 1 {
                return begins_with(after, b":");
            }
            depth -= 1;
        } else if is_word(token, b"{") {
            depth += 1;
        }
        rest = after;
    }
    false
}

// Whether a brace stands here that is closed, and a colon follows directly.
fn has_braces_before_colon(tokens: &[Token]) -> bool
    ensures { result ≡ commands.has_braces_before_colon tokens.now }
{
    match tokens {
        [open, rest @ ..] => is_word(open, b"{") && closes_before_colon(rest),
        [] => false,
    }
}

// Whether a module is named here whose name has braces.
fn names_with_braces(tokens: &[Token]) -> bool
    ensures { result ≡ commands.names_with_braces tokens.now }
{
    match tokens {
        [word, name, rest @ ..] if is_word(word, b"in") => {
            if is_word(name, b"{") && begins_with(rest, b":") {
                return true;
            }
            has_braces_before_colon(rest)
        }
        _ => false,
    }
}

/// Whether the command names a module whose name has braces, behind a bound if there is one.
pub fn has_braced_name(tokens: &[Token]) -> bool
    ensures { result ≡ commands.names_with_braces (commands.behind_bound tokens.now) }
{
    names_with_braces(behind_bound(tokens))
}
