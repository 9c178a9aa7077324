// The two sides of a match.
ghost use Rattle.std.specs.Prelude.{◌≡◌, ◌≤◌, length, option_map};
ghost use Rattle.mw_command.specs.Dividing as dividing;

use mw_lex::Token;
use mw_module::{is_word, tokens_from};

// Whether a token opens a level: a bracket, or `if`.
fn opens(token: &Token) -> bool
    ensures { result ≡ dividing.opens token.now }
{
    is_word(token, b"(") || is_word(token, b"[") || is_word(token, b"{") || is_word(token, b"if")
}

// Whether a token closes a level: a bracket, or `fi`.
fn closes(token: &Token) -> bool
    ensures { result ≡ dividing.closes token.now }
{
    is_word(token, b")") || is_word(token, b"]") || is_word(token, b"}") || is_word(token, b"fi")
}

// How many tokens stand before the first arrow outside of all levels; all, where there is none.
fn before_arrow(tokens: &[Token]) -> usize
    ensures count { result ≡ dividing.before_arrow 0 tokens.now }
    ensures within { result ≤ length tokens.now }
{
    let mut rest = tokens;
    let mut depth = 0usize;
    let mut count = 0;
    while let [token, after @ ..] = rest {
        if depth == 0 && is_word(token, b"<=?") {
            return count;
        }
        if opens(token) {
            depth += 1;
        } else if closes(token) {
            depth = depth.saturating_sub(1);
        }
        count += 1;
        rest = after;
    }
    count
}

/// A pattern and what it is matched against, if `<=?` divides the two.
pub fn divided(tokens: &[Token]) -> (&[Token], Option<&[Token]>)
    ensures pattern { result.0.now ≡ dividing.pattern_of tokens.now }
    ensures subject { option_map (λ ts. ts.now) result.1 ≡ dividing.subject_of tokens.now }
{
    let arrow = before_arrow(tokens);
    if arrow == tokens.len() {
        return (tokens, None);
    }
    (&tokens[..arrow], Some(tokens_from(tokens, arrow + 1)))
}
