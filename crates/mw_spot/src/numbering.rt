// The numbers of arguments under the operator of one or several levels.
ghost use Rattle.std.specs.Prelude.{◌≡◌, ◌+◌, map, reverse, All, IfOk, MatchOption, true, false};
ghost use Rattle.mw_logic.specs.Terms.{terms_of, args_of};
ghost use Rattle.mw_spot.specs.Walks.{IsOrderly};
ghost use Rattle.mw_spot.specs.Spots.{place as place_of_term, places as places_of_term};
ghost use Rattle.mw_spot.specs.Spots.{numbers as numbers_of_terms, number_of, is_spread};

use crate::level::Level;
use mw_canon::{Axioms, Facts};
use mw_term::{Term, View, compare, number_at, numbered};
use std::alloc::{AllocError, Global};

/// How many arguments stand before a term where it comes among the level's: of a commutative operator those that the
/// order of terms puts before it.
fn place(facts: &Facts, level: &Level, term: &Term) -> usize
    ensures { IsOrderly facts.now level.now → result ≡ place_of_term facts.now level.now term.now }
{
    if level.is_commutative(facts) {
        let others = level.others.as_slice();
        others.partition_point(|other| compare(term, other).is_gt())
    } else {
        level.at
    }
}

/// The same of all these levels. More than numbers can tell counts as want of memory.
pub(crate) fn places(facts: &Facts, levels: &[Level], term: &Term) -> Result<usize, AllocError>
    ensures { All (IsOrderly facts.now) levels.now
        → IfOk result (λ n. n ≡ places_of_term facts.now (reverse levels.now) term.now) }
{
    let mut before: usize = 0;
    for level in levels {
        before = before
            .checked_add(place(facts, level, term))
            .ok_or(AllocError)?;
    }
    Ok(before)
}

/// The number of what stands at an index behind so many others, counted from 1.
fn number_behind(before: usize, index: usize) -> Result<u32, AllocError>
    ensures { IfOk result (λ number. number ≡ before + (index + 1)) }
{
    let index = before.checked_add(index).ok_or(AllocError)?;
    number_at(index)
}

/// The number of one of the terms that come among the levels' arguments together: the one that has this number among
/// them. A number that none has stays.
pub(crate) fn number(
    facts: &Facts,
    levels: &[Level],
    terms: &[Term],
    number: u32,
) -> Result<u32, AllocError>
    ensures { All (IsOrderly facts.now) levels.now
        → IfOk result (λ n. n ≡ number_of (places_of_term facts.now (reverse levels.now)) (terms_of terms.now) number) }
{
    match numbered(terms, number) {
        Some(term) => number_behind(places(facts, levels, term)?, number as usize - 1),
        None => Ok(number),
    }
}

/// The numbers of all of them.
pub(crate) fn all_numbers(
    alloc: Global,
    facts: &Facts,
    levels: &[Level],
    terms: &[Term],
) -> Result<Vec<u32>, AllocError>
    ensures { All (IsOrderly facts.now) levels.now → IfOk result
        (λ ns. ns.items ≡ numbers_of_terms (places_of_term facts.now (reverse levels.now)) 1 (terms_of terms.now)) }
{
    let mut found = Vec::with_capacity(alloc, terms.len())?;
    for (i, term) in terms.iter().enumerate() {
        found.push(number_behind(places(facts, levels, term)?, i)?)?;
    }
    Ok(found)
}

/// The numbers of those that have these numbers among them.
pub(crate) fn some_numbers(
    alloc: Global,
    facts: &Facts,
    levels: &[Level],
    terms: &[Term],
    numbers: &[u32],
) -> Result<Vec<u32>, AllocError>
    ensures { All (IsOrderly facts.now) levels.now → IfOk result (λ ns. ns.items
        ≡ map (number_of (places_of_term facts.now (reverse levels.now)) (terms_of terms.now)) numbers.now) }
{
    let mut found = Vec::with_capacity(alloc, numbers.len())?;
    for k in numbers {
        found.push(number(facts, levels, terms, *k)?)?;
    }
    Ok(found)
}

/// The arguments as which a term comes among the level's: its own, where the level's operator is associative and
/// stands on top of it too.
pub(crate) fn spread<'t>(facts: &Facts, level: &Level, term: &'t Term) -> Option<&'t [Term]>
    ensures { MatchOption result (is_spread facts.now level.now term.now ≡ false)
        (λ es. (is_spread facts.now level.now term.now ≡ true) × (terms_of es.now ≡ args_of term.now)) }
{
    match (facts.axioms(level.operator), term.view()) {
        (Axioms::Associative { .. }, View::Op(operator, args))
            if operator == level.operator && !args.is_empty() => { Some(args) }
        _ => None,
    }
}
