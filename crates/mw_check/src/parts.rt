// What stands at a place of a term, and the term with another there.
ghost use Rattle.std.specs.Prelude.{◌≡◌, ◌↔◌, suc, length, option_map, IsTrue, IfOk, MatchOption};
ghost use Rattle.mw_arguments.specs.Places.{chosen, Rise, Follow};
ghost use Rattle.mw_logic.specs.Term.{RawTerm};
ghost use Rattle.mw_logic.specs.Terms.{terms_of};
ghost use Rattle.mw_canon.specs.Canonical.{IsAdmittedTerm};
ghost use Rattle.mw_redex.specs.Paths.{at_path as at_path_of};
ghost use Rattle.mw_redex.specs.Replaced.{replaced_at};
ghost use Rattle.mw_search.specs.Lacking.{IsKnown};
ghost use Rattle.mw_prooftext.specs.Grounds.{spot_of};
ghost use Rattle.mw_check.specs.Parts.{StandsAt, TakesSeveral, MayBeTaken};
ghost use Rattle.mw_check.specs.Answers.{IsNext};

use mw_canon::{Axioms, CanonError, Facts};
use mw_redex::{Place, replace};
use mw_term::{Term, View, copy, numbered};
use std::alloc::{AllocError, Global};

/// What stands at a place of a term, if anything does: at the end of the path, or those of the arguments there that are
/// taken.
pub fn part_at(
    alloc: Global,
    facts: &Facts,
    term: &Term,
    place: &Place,
) -> Result<Option<Term>, AllocError>
    ensures { IfOk result (λ part. MatchOption part
        ((w : RawTerm) → ¬ StandsAt facts.now (spot_of place.now) term.now w)
        (λ w. StandsAt facts.now (spot_of place.now) term.now w)) }
{
    let Some(end) = at_path(term, place.path.as_slice()) else {
        return Ok(None);
    };
    match &place.take {
        None => Ok(Some(copy(end)?)),
        Some(numbers) => taken(alloc, facts, end, numbers.as_slice()),
    }
}

/// The term with another at the place, where it is admitted.
pub fn replaced(
    alloc: Global,
    facts: &Facts,
    term: &Term,
    place: &Place,
    with: Term,
) -> Result<Option<Term>, AllocError>
    requires term { IsAdmittedTerm facts.now term.now }
    requires with { IsAdmittedTerm facts.now with }
    ensures { let whole = replaced_at facts.now place.now.path place.now.take with term.now in
        IfOk result (λ next. IsKnown facts.now whole → IsNext facts.now whole next) }
{
    facts.shows();
    match replace(alloc, facts, term, place, with) {
        Ok(next) => Ok(Some(next)),
        Err(CanonError::Deep) => Ok(None),
        Err(CanonError::Nat) => Ok(None),
        Err(CanonError::Memory) => Err(AllocError),
    }
}

/// What stands at the end of a path.
fn at_path<'t>(term: &'t Term, path: &[u32]) -> Option<&'t Term>
    ensures { option_map (λ t. t.now) result ≡ at_path_of term.now path.now }
{
    let mut here = term;
    let mut rest = path;
    while let [number, after @ ..] = rest {
        let View::Op(_, args) = here.view() else {
            return None;
        };
        here = numbered(args, *number)?;
        rest = after;
    }
    Some(here)
}

/// What stands at the numbers of arguments that are taken: two or more of an associative operator's, but not all, which
/// rise, and are neighbours where it isn't commutative.
fn taken(
    alloc: Global,
    facts: &Facts,
    term: &Term,
    numbers: &[u32],
) -> Result<Option<Term>, AllocError>
    ensures { IfOk result (λ part. MatchOption part
        ((w : RawTerm) → ¬ TakesSeveral facts.now numbers.now term.now w)
        (λ w. TakesSeveral facts.now numbers.now term.now w)) }
{
    facts.shows();
    let View::Op(operator, args) = term.view() else {
        return Ok(None);
    };
    let Axioms::Associative { comm, .. } = facts.axioms(operator) else {
        return Ok(None);
    };
    if !may_be_taken(numbers, args.len(), comm) {
        return Ok(None);
    }
    let part = Term::apply(alloc, operator, copies(alloc, args, numbers)?)?;
    Ok(Some(part))
}

/// Whether these numbers of so many arguments may be taken: two or more that rise, but not all, and neighbours where
/// the operator isn't commutative.
fn may_be_taken(numbers: &[u32], count: usize, comm: bool) -> bool
    ensures { IsTrue result ↔ MayBeTaken comm count numbers.now }
{
    if numbers.len() < 2 || numbers.len() >= count {
        return false;
    }
    rise(numbers, count) && (comm || follow(numbers))
}

/// Whether numbers rise, from 1 on and up to this one.
fn rise(numbers: &[u32], count: usize) -> bool
    ensures { IsTrue result ↔ Rise 1 (suc count) numbers.now }
{
    let mut before = 0;
    let mut rest = numbers;
    while let [number, after @ ..] = rest {
        if *number <= before || *number as usize > count {
            return false;
        }
        before = *number;
        rest = after;
    }
    true
}

/// Whether each number is one more than the one before it.
fn follow(numbers: &[u32]) -> bool
    ensures { IsTrue result ↔ Follow numbers.now }
{
    let mut rest = numbers;
    while let [number, next, ..] = rest {
        if *number as u64 + 1 != *next as u64 {
            return false;
        }
        rest = &rest[1..];
    }
    true
}

/// Copies of the arguments that have these numbers.
fn copies(alloc: Global, args: &[Term], numbers: &[u32]) -> Result<Vec<Term>, AllocError>
    ensures { Rise 1 (suc (length args.now)) numbers.now
        → IfOk result (λ part. terms_of part.items ≡ chosen 1 numbers.now (terms_of args.now)) }
{
    let mut part = Vec::with_capacity(alloc, numbers.len())?;
    for number in numbers {
        if let Some(arg) = numbered(args, *number) {
            part.push(copy(arg)?)?;
        }
    }
    Ok(part)
}
