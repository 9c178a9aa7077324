// Single tokens.
ghost use Rattle.std.specs.Prelude.{◌≡◌, ◌∷◌, [], ◌↔◌, MatchOption, IsTrue};
ghost use Rattle.mw_proofread.specs.TokenTexts.{token_texts};
ghost use Rattle.mw_proofread.specs.Outside.{is_next, IsFollowed};
ghost use Rattle.mw_proofread.specs.Parts as parts;

use mw_lex::Token;

/// The first token, and what stands behind it.
pub fn first<'t>(tokens: &'t [Token]) -> Option<(&'t Token, &'t [Token])>
    ensures { MatchOption result (token_texts tokens.now ≡ [])
        (λ r. token_texts tokens.now ≡ r.0.now.text ∷ token_texts r.1.now) }
{
    match tokens {
        [token, behind @ ..] => Some((token, behind)),
        [] => None,
    }
}

/// What stands behind a word at the front.
pub fn after<'t>(tokens: &'t [Token], word: &[u8]) -> Option<&'t [Token]>
    ensures { MatchOption result (parts.NotFirst word.now (token_texts tokens.now))
        (λ behind. token_texts tokens.now ≡ word.now ∷ token_texts behind.now) }
{
    let (token, behind) = first(tokens)?;
    if token.text.as_slice() == word {
        Some(behind)
    } else {
        None
    }
}

/// Whether a token may stand in a form, or is a number.
pub fn is_low(token: &Token) -> bool
    ensures { result ≡ parts.is_low token.now.text }
{
    match token.text.as_slice() {
        [first, ..] => *first < 58,
        [] => false,
    }
}

fn is_next_word(word: &[u8]) -> bool
    ensures { result ≡ is_next word.now }
{
    word == b"step".as_slice()
        || word == b"owise".as_slice()
        || word == b"par".as_slice()
        || word == b"to".as_slice()
}

fn ends_line_word(word: &[u8]) -> bool
    ensures { result ≡ parts.ends_line word.now }
{
    is_next_word(word) || word == b"where".as_slice() || word == b"}".as_slice()
}

/// Whether an item, or an end, may begin at the front, in some version, or the tokens end.
pub fn is_followed(tokens: &[Token]) -> bool
    ensures { IsTrue result ↔ IsFollowed (token_texts tokens.now) }
{
    match tokens {
        [token, ..] => is_next_word(token.text.as_slice()),
        [] => true,
    }
}

/// Whether a line may end in front of these, which may be none.
pub fn ends_line(tokens: &[Token]) -> bool
    ensures { IsTrue result ↔ parts.EndsLine (token_texts tokens.now) }
{
    match tokens {
        [token, ..] => ends_line_word(token.text.as_slice()),
        [] => true,
    }
}
