// Numbers, and places.
ghost use Rattle.std.specs.Prelude.{◌≡◌, ◌≢◌, ◌≤◌, ◌<◌, ◌-◌, ◌*◌, ◌+◌, ◌^◌, ◌∷◌, ◌↔◌, ◌++◌};
ghost use Rattle.std.specs.Prelude.{ℕ, List, length, min, MatchOption, IfOk, IfErr, IsTrue};
ghost use Rattle.mw_proofread.specs.Numbers as numbers_of;
ghost use Rattle.mw_proofread.specs.TokenTexts.{token_texts, numbers_tokens};
ghost use Rattle.mw_proofread.specs.Parts.{HasNumbers, HasTake, HasPlace, NoNumber, NoTake, NoPlace};
ghost use Rattle.mw_proofread.specs.Faults.{OnOutside};

use crate::fault::Fault;
use crate::words::{after, first};
use mw_lex::Token;
use mw_redex::Place;
use mw_term::Seq;
use std::alloc::{AllocError, Global};

fn is_digit(byte: u8) -> bool
    ensures { result ≡ numbers_of.is_digit byte }
{
    byte >= b'0' && byte <= b'9'
}

/// The number with one digit more behind it, as far as 64 bits tell it.
fn with_digit(number: u64, digit: u8) -> u64
    requires { 48 ≤ digit }
    ensures { result ≡ numbers_of.saturated (number * 10 + (digit - 48)) }
{
    let number = number as u128 * 10 + (digit - b'0') as u128;
    number.min(u64::MAX as u128) as u64
}

/// What digits write.
#[tactic(auto, using(crate::proofs::Digits::read_digits_laws))]
fn digits(text: &[u8]) -> Option<u64>
    ensures { result ≡ numbers_of.read_after 0 text.now }
{
    let mut number = 0;
    let mut rest = text;
    while let [digit, behind @ ..] = rest {
        if !is_digit(*digit) {
            return None;
        }
        number = with_digit(number, *digit);
        rest = behind;
    }
    Some(number)
}

/// Whether a text may be a number: it doesn't begin with 0, or is that alone.
fn is_leading(text: &[u8]) -> bool
    ensures { IsTrue result ↔ numbers_of.IsLeading text.now }
{
    match text {
        [] => false,
        [_] => true,
        [first, ..] => *first != b'0',
    }
}

/// The number that a token is, as far as 64 bits tell it.
fn number_in(text: &[u8]) -> Option<u64>
    ensures { MatchOption result ((n : ℕ) → text.now ≢ numbers_of.number_text n) (numbers_of.IsNumber text.now) }
{
    if is_leading(text) { digits(text) } else { None }
}

/// The number at the front, and what stands behind it.
pub fn first_number<'t>(tokens: &'t [Token]) -> Option<(u64, &'t [Token])>
    ensures { MatchOption result (NoNumber (token_texts tokens.now)) (λ r. (n : ℕ)
        × (token_texts tokens.now ≡ numbers_of.number_text n ∷ token_texts r.1.now)
        × (r.0 ≡ numbers_of.saturated n)) }
{
    let (token, behind) = first(tokens)?;
    let number = number_in(token.text.as_slice())?;
    Some((number, behind))
}

/// A number as entries have it: no statement and no argument has one of 2^32 or more, as none has 0.
pub fn entry_number(number: u64) -> u32
    ensures { result ≡ numbers_of.entry_number number }
{
    if number < 1 << 32 { number as u32 } else { 0 }
}

/// The numbers at the front.
fn numbers<'t>(alloc: Global, tokens: &'t [Token]) -> Result<(Seq<u32>, &'t [Token]), AllocError>
    ensures { IfOk result (λ r. HasNumbers (token_texts tokens.now) r.0 (token_texts r.1.now)) }
{
    let mut found = Vec::new(alloc);
    let mut rest = tokens;
    while let Some((number, behind)) = first_number(rest) {
        found.push(entry_number(number))?;
        rest = behind;
    }
    Ok((Seq::of(found), rest))
}

/// Whether one number is below another, by their digits.
fn is_below(number: &Token, other: &Token) -> bool
    ensures { (m n : ℕ) → number.now.text ≡ numbers_of.number_text m → other.now.text ≡ numbers_of.number_text n
        → (IsTrue result ↔ (m < n)) }
{
    let number = number.text.as_slice();
    let other = other.text.as_slice();
    if number.len() == other.len() {
        number.cmp(other).is_lt()
    } else {
        number.len() < other.len()
    }
}

/// Whether numbers rise.
fn rises(tokens: &[Token]) -> bool
    ensures { (ns : List ℕ) → token_texts tokens.now ≡ numbers_tokens ns → (IsTrue result ↔ numbers_of.Rises ns) }
{
    let mut rest = tokens;
    while let Some((number, behind)) = first(rest) {
        let Some((other, _)) = first(behind) else {
            return true;
        };
        if !is_below(number, other) {
            return false;
        }
        rest = behind;
    }
    true
}

/// Whether so many numbers at the front may be those of what is taken.
fn is_take(tokens: &[Token], count: usize) -> bool
    requires { count ≤ length tokens.now }
    ensures { (ns : List ℕ) (rest : List (List ℕ)) → token_texts tokens.now ≡ numbers_tokens ns ++ rest
        → length ns ≡ count → (IsTrue result ↔ numbers_of.IsTake (Some ns)) }
{
    count >= 2 && rises(&tokens[..count])
}

/// The numbers of what is taken, if anything is.
fn taken<'t>(alloc: Global, tokens: &'t [Token]) -> Result<(Option<Seq<u32>>, &'t [Token]), Fault>
    ensures ok { IfOk result (λ r. HasTake (token_texts tokens.now) r.0 (token_texts r.1.now)) }
    ensures outside { IfErr result (OnOutside (NoTake (token_texts tokens.now))) }
{
    let Some(behind) = after(tokens, b"take") else {
        return Ok((None, tokens));
    };
    let (found, rest) = numbers(alloc, behind)?;
    if is_take(behind, found.as_slice().len()) {
        Ok((Some(found), rest))
    } else {
        Err(Fault::Outside)
    }
}

/// The place at the front.
pub fn place<'t>(alloc: Global, tokens: &'t [Token]) -> Result<(Place, &'t [Token]), Fault>
    ensures ok { IfOk result (λ r. HasPlace (token_texts tokens.now) r.0 (token_texts r.1.now)) }
    ensures outside { IfErr result (OnOutside (NoPlace (token_texts tokens.now))) }
{
    let Some(behind) = after(tokens, b"at") else {
        return Err(Fault::Outside);
    };
    let (path, rest) = numbers(alloc, behind)?;
    let (take, rest) = taken(alloc, rest)?;
    Ok((Place { path, take }, rest))
}
