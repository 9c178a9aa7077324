// The numbers of arguments that are taken.
ghost use Rattle.std.specs.Prelude.{◌≡◌, ◌-◌, suc, true, false, IfOk, MatchOption};
ghost use Rattle.mw_logic.specs.Term.{RawTerm, RawTerms, cons};
ghost use Rattle.mw_logic.specs.Terms.{terms_of};
ghost use Rattle.mw_arguments.specs.Bags.{same};
ghost use Rattle.mw_arguments.specs.Places.{numbers_of as numbers_are};
ghost use Rattle.mw_matching.specs.Found.{numbers_from};
ghost use Rattle.mw_matching.specs.Multisets.{left_behind};
ghost use Rattle.mw_solving.specs.Inside.{left_numbers as left_are};
ghost use Rattle.mw_match.specs.Parts.{left_of};

use mw_canon::{Axioms, Facts, parts};
use mw_term::{Seq, Term, View, compare, copy, number_at};
use std::alloc::{AllocError, Global};

/// The numbers of the arguments from an index on and below another. More than numbers can tell count as want of memory.
pub fn numbers(alloc: Global, from: usize, end: usize) -> Result<Seq<u32>, AllocError>
    ensures { IfOk result (λ ks. ks ≡ numbers_from (suc from) (end - from)) }
{
    let mut made = Vec::new(alloc);
    for i in from..end {
        let number = number_at(i)?;
        made.push(number)?;
    }
    Ok(Seq::of(made))
}

/// What stands behind the first term, where that is this one.
fn behind<'t>(terms: &'t [Term], term: &Term) -> Option<&'t [Term]>
    ensures { MatchOption result ((u : RawTerm) (us : RawTerms) → terms_of terms.now ≡ cons u us → same u term.now ≡ false)
        (λ after. (u : RawTerm) × (terms_of terms.now ≡ cons u (terms_of after.now)) × (same u term.now ≡ true)) }
{
    let [first, after @ ..] = terms else {
        return None;
    };
    if compare(first, term).is_eq() {
        Some(after)
    } else {
        None
    }
}

/// The arguments without these, as far as they stand there. Both stand in order.
fn without(alloc: Global, gone: &[Term], args: &[Term]) -> Result<Vec<Term>, AllocError>
    ensures { IfOk result (λ left. terms_of left.items ≡ left_behind (terms_of gone.now) (terms_of args.now)) }
{
    let mut left = Vec::new(alloc);
    let mut rest = gone;
    for arg in args {
        match behind(rest, arg) {
            Some(after) => rest = after,
            None => left.push(copy(arg)?)?,
        }
    }
    Ok(left)
}

/// The numbers of some of the arguments, of equal ones the first. Both stand in order.
fn numbers_of(alloc: Global, some: &[Term], args: &[Term]) -> Result<Seq<u32>, AllocError>
    ensures { IfOk result (λ ks. ks ≡ numbers_are 1 (terms_of some.now) (terms_of args.now)) }
{
    let mut made = Vec::new(alloc);
    let mut rest = some;
    for (i, arg) in args.iter().enumerate() {
        match behind(rest, arg) {
            Some(after) => {
                made.push(number_at(i)?)?;
                rest = after;
            }
            None => {}
        }
    }
    Ok(Seq::of(made))
}

/// What is taken of arguments from an index on where these elements are left, the last ones among equal ones: nothing
/// unless one is left and two are taken.
fn taken(
    alloc: Global,
    comm: bool,
    args: &[Term],
    from: usize,
    left: &[Term],
) -> Result<Option<Seq<u32>>, AllocError>
    ensures { IfOk result (λ o. o ≡ left_are comm (terms_of args.now) from (terms_of left.now)) }
{
    let count = args.len().saturating_sub(from);
    if left.is_empty() {
        return Ok(None);
    }
    if left.len() + 1 >= count {
        return Ok(None);
    }
    if comm {
        let some = without(alloc, left, args)?;
        let made = numbers_of(alloc, some.as_slice(), args)?;
        return Ok(Some(made));
    }
    let made = numbers(alloc, from, args.len() - left.len())?;
    Ok(Some(made))
}

/// What is taken of a term's arguments from an index on where the elements of a rest are left.
pub fn left_numbers(
    alloc: Global,
    facts: &Facts,
    subject: &Term,
    from: usize,
    rest: &Term,
) -> Result<Option<Seq<u32>>, AllocError>
    ensures { IfOk result (λ o. o ≡ left_of facts.now subject.now from rest.now) }
{
    let View::Op(operator, args) = subject.view() else {
        return Ok(None);
    };
    let Axioms::Associative { comm, .. } = facts.axioms(operator) else {
        return Ok(None);
    };
    facts.shows();
    let left = parts(facts, operator, rest);
    let made = taken(alloc, comm, args, from, left)?;
    Ok(made)
}
