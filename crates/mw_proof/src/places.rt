// The way from an operator on a term and others to the term.
ghost use Rattle.std.specs.Prelude.{◌≡◌, ◌++◌, [], ◌∷◌, suc, true, false, IfOk, OnOk, MatchOption};
ghost use Rattle.mw_logic.specs.Term.{RawTerm, RawTerms, cons};
ghost use Rattle.mw_logic.specs.Terms.{args_of, terms_of};
ghost use Rattle.mw_logic.specs.Module.{Module};
ghost use Rattle.mw_logic.specs.NormalForm.{is_comm};
ghost use Rattle.mw_arguments.specs.Bags.{same};
ghost use Rattle.mw_arguments.specs.Places.{numbers_of};
ghost use Rattle.mw_redex.proofs.Middles.{count_from};
ghost use Rattle.mw_trail.specs.Tracks.{moves};
ghost use Rattle.mw_proof.specs.Ways.{numbers_in, spread, way};

use mw_canon::{Axioms, Facts, parts};
use mw_term::{OpId, Term, compare, number_at};
use mw_trail::Trail;
use std::alloc::{AllocError, Global};

/// The numbers of neighbours, which stand behind so many.
fn neighbours(alloc: Global, before: usize, some: &[Term]) -> Result<Vec<u32>, AllocError>
    ensures { IfOk result (λ ks. ks.items ≡ count_from (suc before) (terms_of some.now)) }
{
    let mut made = Vec::new(alloc);
    let mut index = before;
    let mut rest = some;
    while let [_, after @ ..] = rest {
        let number = number_at(index)?;
        made.push(number)?;
        index = number as usize;
        rest = after;
    }
    Ok(made)
}

/// What stands behind the first term, where that is this one.
fn behind<'t>(terms: &'t [Term], term: &Term) -> Option<&'t [Term]>
    ensures { MatchOption result
        ((u : RawTerm) (us : RawTerms) → terms_of terms.now ≡ cons u us → same u term.now ≡ false)
        (λ after. (u : RawTerm) × (terms_of terms.now ≡ cons u (terms_of after.now)) × (same u term.now ≡ true)) }
{
    let [first, after @ ..] = terms else {
        return None;
    };
    if compare(first, term).is_eq() {
        Some(after)
    } else {
        None
    }
}

/// The numbers of some of the arguments, of equal ones the first. Both stand in order.
fn in_order(alloc: Global, some: &[Term], args: &[Term]) -> Result<Vec<u32>, AllocError>
    ensures { IfOk result (λ ks. ks.items ≡ numbers_of 1 (terms_of some.now) (terms_of args.now)) }
{
    let mut made = Vec::new(alloc);
    let mut index = 0;
    let mut rest = some;
    let mut others = args;
    while let [arg, after @ ..] = others {
        let number = number_at(index)?;
        match behind(rest, arg) {
            Some(more) => {
                made.push(number)?;
                rest = more;
            }
            None => {}
        }
        index = number as usize;
        others = after;
    }
    Ok(made)
}

fn is_commutative(facts: &Facts, operator: OpId) -> bool
    ensures { result ≡ is_comm facts.now operator }
{
    match facts.axioms(operator) {
        Axioms::Plain => false,
        Axioms::Commutative => true,
        Axioms::Successor => false,
        Axioms::Associative { comm, .. } => comm,
    }
}

/// What a term is in an operator's list: its elements, or itself.
fn spread_under<'t>(facts: &Facts, operator: OpId, term: &'t Term) -> &'t [Term]
    ensures { terms_of result.now ≡ spread facts.now operator term.now }
{
    let Axioms::Associative { .. } = facts.axioms(operator) else {
        return std::slice::from_ref(term);
    };
    parts(facts, operator, term)
}

/// The numbers that a term, or its elements, have among the arguments of the operator on it and others, of which so
/// many are given before it.
fn numbers(
    alloc: Global,
    facts: &Facts,
    operator: OpId,
    before: usize,
    part: &Term,
    whole: &Term,
) -> Result<Vec<u32>, AllocError>
    ensures { let some = spread facts.now operator part.now in
        IfOk result (λ ks. ks.items ≡ numbers_in (is_comm facts.now operator) before some (args_of whole.now)) }
{
    let some = spread_under(facts, operator, part);
    if is_commutative(facts, operator) {
        let found = in_order(alloc, some, whole.arguments())?;
        return Ok(found);
    }
    let found = neighbours(alloc, before, some)?;
    Ok(found)
}

/// Into the one argument of these numbers, or into several: the trail's last move is that way (specs/Ways).
pub fn go_in(trail: &mut Trail, numbers: &[u32]) -> Result<(), AllocError>
    ensures { OnOk result ((M : Module) → moves M trail.new ≡ moves M trail.old ++ way numbers.now ∷ []) }
{
    match numbers {
        [number] => trail.enter(*number as usize)?,
        _ => trail.among(numbers)?,
    }
    Ok(())
}

/// A trail that goes from the operator on a term and others, of which so many are given before it, to the term.
pub(crate) fn gone_in(
    alloc: Global,
    facts: &Facts,
    operator: OpId,
    before: usize,
    part: &Term,
    whole: &Term,
) -> Result<Trail, AllocError>
    ensures { let some = spread facts.now operator part.now in
        let numbers = numbers_in (is_comm facts.now operator) before some (args_of whole.now) in
        IfOk result (λ t. (M : Module) → moves M t ≡ way numbers ∷ []) }
{
    let found = numbers(alloc, facts, operator, before, part, whole)?;
    let mut trail = Trail::new(alloc);
    go_in(&mut trail, found.as_slice())?;
    Ok(trail)
}
