// Frozen arguments of operators.
ghost use Rattle.std.specs.Prelude.{◌≡◌, ◌||◌, not, length, IfOk};
ghost use Rattle.mw_logic.specs.Accepted.{agree, is_member};
ghost use Rattle.mw_module.specs.Attributes.{seen_attributes};
ghost use Rattle.mw_declare.specs.Freezing as freezing;

use mw_module::{Attributes, Word};
use mw_term::Seq;
use mw_text::number;
use std::alloc::{AllocError, Global};

/// The number that a text is, where it is that of one of so many arguments, counted from 1.
fn place_in(arity: u32, text: &[u8]) -> Option<u32>
    ensures { result ≡ freezing.place_in arity text.now }
{
    match number(text) {
        Some(found) if 1 <= found && found <= arity as u128 => Some(found as u32),
        _ => None,
    }
}

/// Whether each number that is said is that of one of so many arguments.
pub fn are_in_range(arity: u32, said: &Attributes<'_>) -> bool
    ensures { result ≡ freezing.are_in_range arity (seen_attributes said.now) }
{
    for word in said.frozen.as_slice() {
        if place_in(arity, word.as_slice()).is_none() {
            return false;
        }
    }
    true
}

/// Whether one of these words is the number of this argument, of so many.
fn is_listed(arity: u32, place: u32, words: &[Word<'_>]) -> bool
    ensures { result ≡ is_member place (freezing.places_in arity words.now) }
{
    for word in words {
        if let Some(found) = place_in(arity, word.as_slice())
            && found == place
        {
            return true;
        }
    }
    false
}

/// Whether both hold or neither does.
fn are_alike(first: bool, second: bool) -> bool
    ensures { result ≡ agree first second }
{
    if first { second } else { !second }
}

/// Whether the first two arguments are both frozen or both not, where all of so many are.
#[tactic(auto, using(crate::proofs::Frozen::all_are_alike))]
fn all_are_alike(arity: u32) -> bool
    ensures { let numbers = freezing.counted arity 1 in result ≡ agree (is_member 1 numbers) (is_member 2 numbers) }
{
    arity != 1
}

/// The same where those of so many are whose numbers these words are.
fn listed_are_alike(arity: u32, words: &[Word<'_>]) -> bool
    ensures { let numbers = freezing.places_in arity words.now in
        result ≡ agree (is_member 1 numbers) (is_member 2 numbers) }
{
    are_alike(is_listed(arity, 1, words), is_listed(arity, 2, words))
}

/// Whether the first two arguments are both frozen or both not, where `alike` asks for it.
pub fn freezes_alike(alike: bool, arity: u32, said: &Attributes<'_>) -> bool
    ensures { let numbers = freezing.frozen_arguments arity (seen_attributes said.now) in
        result ≡ (not alike || agree (is_member 1 numbers) (is_member 2 numbers)) }
{
    if !alike {
        return true;
    }
    if said.all_frozen {
        all_are_alike(arity)
    } else {
        listed_are_alike(arity, said.frozen.as_slice())
    }
}

/// The numbers from 1 up to this one.
fn all_numbers(alloc: Global, last: u32) -> Result<Vec<u32>, AllocError>
    ensures { IfOk result (λ v. v.items ≡ freezing.counted last 1) }
{
    let mut numbers = Vec::new(alloc);
    for place in 0..last {
        numbers.push(place + 1)?;
    }
    Ok(numbers)
}

/// The arguments, of so many, whose numbers these words are.
fn listed_numbers(alloc: Global, arity: u32, words: &[Word<'_>]) -> Result<Vec<u32>, AllocError>
    ensures { IfOk result (λ v. v.items ≡ freezing.places_in arity words.now) }
{
    let mut numbers = Vec::new(alloc);
    for word in words {
        if let Some(place) = place_in(arity, word.as_slice()) {
            numbers.push(place)?;
        }
    }
    Ok(numbers)
}

/// The numbers of the frozen ones of so many arguments.
pub fn frozen_arguments(
    alloc: Global,
    arity: u32,
    said: &Attributes<'_>,
) -> Result<Seq<u32>, AllocError>
    ensures { IfOk result (λ numbers. numbers ≡ freezing.frozen_arguments arity (seen_attributes said.now)) }
{
    if said.all_frozen {
        Ok(Seq::of(all_numbers(alloc, arity)?))
    } else {
        Ok(Seq::of(listed_numbers(alloc, arity, said.frozen.as_slice())?))
    }
}

/// How many there are. More than numbers can tell count as want of memory.
pub fn counted<T>(items: &[T]) -> Result<u32, AllocError>
    ensures { IfOk result (λ n. n ≡ length items.now) }
{
    if items.len() <= u32::MAX as usize {
        Ok(items.len() as u32)
    } else {
        Err(AllocError)
    }
}
