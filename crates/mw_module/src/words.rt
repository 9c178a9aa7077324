// What single tokens say.
ghost use Rattle.std.specs.Prelude.{◌≡◌, ◌≤◌, ◌+◌, length, drop, ℕ, List, ◌∷◌, []};
ghost use Rattle.std.specs.Char.{is_ascii_digit};
ghost use Rattle.std.specs.List.{list_all};
ghost use Rattle.std.specs.Str.{bytes_eq};
ghost use Rattle.mw_text.specs.Numerals.{are_digits as are_digits_of};
ghost use Rattle.mw_module.specs.Words as words;

use mw_lex::Token;

pub fn same(text: &[u8], word: &[u8]) -> bool
    ensures { result ≡ bytes_eq text.now word.now }
{
    text == word
}

/// Whether the token has this text.
pub fn is_word(token: &Token, word: &[u8]) -> bool
    ensures { result ≡ words.is word.now token.now }
{
    same(token.text.as_slice(), word)
}

/// How many tokens come before the first that has this text: all where none has it.
pub fn count_before(tokens: &[Token], word: &[u8]) -> usize
    ensures count { result ≡ words.count_before word.now tokens.now }
    ensures within { result ≤ length tokens.now }
{
    let mut rest = tokens;
    let mut count = 0;
    while let [token, after @ ..] = rest {
        if is_word(token, word) {
            return count;
        }
        count += 1;
        rest = after;
    }
    count
}

// The tokens from this one on.
pub fn tokens_from(tokens: &[Token], at: usize) -> &[Token]
    requires { at ≤ length tokens.now }
    ensures seen { result.now ≡ drop at tokens.now }
    ensures len { length result.now + at ≡ length tokens.now }
{
    let (_, behind) = tokens.split_at(at);
    behind
}

// A parenthesis, bracket, brace or comma.
pub fn is_punctuation(text: &[u8]) -> bool
    ensures { result ≡ words.is_punctuation_word text.now }
{
    match text {
        [b] => matches!(*b, b'(' | b')' | b'[' | b']' | b'{' | b'}' | b','),
        _ => false,
    }
}

// Whether the text begins with a quotation mark.
pub fn is_quoted(text: &[u8]) -> bool
    ensures { result ≡ words.is_quoted text.now }
{
    match text {
        [b'"', ..] => true,
        _ => false,
    }
}

// Whether an operator's name may have no piece like this.
pub fn is_no_piece(text: &[u8]) -> bool
    ensures { result ≡ words.is_no_piece text.now }
{
    match text {
        [] => true,
        [b'.'] => true,
        [b'"', ..] => true,
        [b'*', b'*', b'*', ..] => true,
        [b'-', b'-', b'-', ..] => true,
        _ => false,
    }
}

// Whether the text is a string up to its end.
pub fn is_whole_string(text: &[u8]) -> bool
    ensures { result ≡ words.is_whole_string text.now }
{
    let len = text.len();
    len >= 2 && text[0] == b'"' && text[len - 1] == b'"' && text[len - 2] != b'\\'
}

fn is_digit(byte: &u8) -> bool
    ensures { result ≡ is_ascii_digit byte.now }
{
    byte.is_ascii_digit()
}

fn all_digits(text: &[u8]) -> bool
    ensures { result ≡ list_all is_ascii_digit text.now }
{
    text.iter().all(is_digit)
}

// Whether the text is decimal digits, one at least.
#[tactic(auto, using(crate::proofs::Slices::some_digits))]
pub fn are_digits(text: &[u8]) -> bool
    ensures { result ≡ are_digits_of text.now }
{
    match text {
        [] => false,
        _ => all_digits(text),
    }
}
