// What single tokens are in a form.
ghost use Rattle.std.specs.Prelude.{◌≡◌, ◌≤◌, ◌==◌, length, position, IfOk};
ghost use Rattle.mw_lex.specs.Bytes.{is_visible as is_visible_byte};
ghost use Rattle.mw_lex.specs.Pieces as pieces;
ghost use Rattle.mw_logic.specs.Signature.{at_number};
ghost use Rattle.mw_prefix.specs.Words as spec;

use crate::taking::operator_at;
use mw_canon::Facts;
use mw_lex::is_punctuation;
use mw_term::{Name, OpId, Raw};
use mw_text::number;
use std::alloc::{AllocError, Global};

/// What a token is.
#[derive(Drop)]
pub(crate) enum Word {
    Opening,
    Closing,
    Comma,
    /// A numeral or a quoted identifier.
    Leaf(Raw),
    Operator(OpId),
    /// What stands in no form.
    Other,
}

/// The number that is written in plain decimal.
fn plain_number(text: &[u8]) -> Option<u128>
    ensures { result ≡ spec.plain_number text.now }
{
    match text {
        [b'0', _, ..] => None,
        _ => number(text),
    }
}

fn numeral_word(facts: &Facts, text: &[u8]) -> Word
    ensures { spec.word result ≡ spec.numeral_word facts.now text.now }
{
    if !facts.signature().nat {
        return Word::Other;
    }
    match plain_number(text) {
        Some(number) => Word::Leaf(Raw::Nat(number)),
        None => Word::Other,
    }
}

/// The operator of this number, where it has this spelling.
fn spelled(facts: &Facts, operator: OpId, spelling: &[u8]) -> Word
    ensures { spec.word result ≡ spec.spelled operator spelling.now (at_number facts.now.operators operator) }
{
    let Some(found) = operator_at(facts, operator) else {
        return Word::Other;
    };
    if found.spelling.as_slice() == spelling {
        Word::Operator(operator)
    } else {
        Word::Other
    }
}

/// The number as one of operators. One beyond 32 bits counts as want of memory.
fn operator_id(number: u128) -> Result<OpId, AllocError>
    ensures { IfOk result (λ operator. operator ≡ number) }
{
    if number <= u32::MAX as u128 {
        Ok(number as u32)
    } else {
        Err(AllocError)
    }
}

fn operator_word(facts: &Facts, digits: &[u8], spelling: &[u8]) -> Result<Word, AllocError>
    ensures { IfOk result (λ w. spec.word w ≡ spec.operator_word facts.now digits.now spelling.now) }
{
    let Some(number) = plain_number(digits) else {
        return Ok(Word::Other);
    };
    if number > facts.signature().operators.as_slice().len() as u128 {
        return Ok(Word::Other);
    }
    let operator = operator_id(number)?;
    Ok(spelled(facts, operator, spelling))
}

/// Where the first `@` stands.
fn place_of_mark(text: &[u8]) -> Option<usize>
    ensures { result ≡ position (λ b. b == 64) text.now }
{
    text.iter().position(|byte| *byte == b'@')
}

/// What a token is that is no parenthesis, no comma and no quoted identifier.
fn number_word(facts: &Facts, text: &[u8]) -> Result<Word, AllocError>
    ensures { IfOk result (λ w. spec.word w ≡ spec.number_word facts.now text.now) }
{
    match place_of_mark(text) {
        Some(place) => operator_word(facts, &text[..place], &text[place + 1..]),
        None => Ok(numeral_word(facts, text)),
    }
}

fn is_visible(byte: u8) -> bool
    ensures { result ≡ is_visible_byte byte }
{
    33 <= byte && byte <= 126
}

/// How far a run reaches.
fn run_len(text: &[u8]) -> usize
    ensures len { result ≡ pieces.run_len text.now }
    ensures within { result ≤ length text.now }
{
    let mut rest = text;
    let mut len = 0;
    loop {
        match rest {
            [b'`', next, behind @ ..] if is_punctuation(*next) => {
                len += 2;
                rest = behind;
            }
            [byte, behind @ ..] if is_visible(*byte) && !is_punctuation(*byte) => {
                len += 1;
                rest = behind;
            }
            _ => return len,
        }
    }
}

fn identifier_word(alloc: Global, facts: &Facts, text: &[u8]) -> Result<Word, AllocError>
    ensures { IfOk result (λ w. spec.word w ≡ spec.identifier_word facts.now text.now) }
{
    if facts.signature().qid && run_len(text) == text.len() {
        let name = text.to_vec(alloc)?;
        Ok(Word::Leaf(Raw::Qid(Name::of(name))))
    } else {
        Ok(Word::Other)
    }
}

/// What the token is.
pub(crate) fn word_of(alloc: Global, facts: &Facts, text: &[u8]) -> Result<Word, AllocError>
    ensures { IfOk result (λ w. spec.word w ≡ spec.word_of facts.now text.now) }
{
    match text {
        [] => Ok(Word::Other),
        [b'('] => Ok(Word::Opening),
        [b')'] => Ok(Word::Closing),
        [b','] => Ok(Word::Comma),
        [b'\'', _, ..] => identifier_word(alloc, facts, text),
        _ => number_word(facts, text),
    }
}
