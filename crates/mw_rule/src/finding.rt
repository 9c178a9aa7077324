// A rule that applies at a part of a term, but for those that are known to fail there.
ghost use Rattle.std.specs.Prelude.{◌≡◌, ◌↔◌, map, IfOk, IsTrue, MatchOption};
ghost use Rattle.mw_logic.specs.Signature.{Member};
ghost use Rattle.mw_logic.specs.Substitution.{Extends};
ghost use Rattle.mw_canon.specs.Canonical.{IsAdmittedTerm};
ghost use Rattle.mw_canon.specs.Tables.{pair_of};
ghost use Rattle.mw_proof.specs.Failures.{Failure, IsFailure};
ghost use Rattle.mw_index.specs.Index.{IsIndexOf};
ghost use Rattle.mw_rule.specs.Finding.{Keeps, IsFailureOf, IsAmong, IsRedexOf, AreAllKnown};

use mw_canon::Values;
use mw_index::{Choice, Index, Oriented};
use mw_least::Ctx;
use mw_proof::Failing;
use mw_redex::Place;
use mw_redexes::{Found, Redexes, spots_of, substitution, wanted_by, way_to};
use mw_term::{Binding, Subst, Term, VarId, same};
use std::alloc::{AllocError, Global};

/// A rule with a solution of its left side for a part of a term. Its condition isn't asked of.
#[derive(Drop)]
pub struct Redex<'m> {
    pub by: &'m Oriented,
    /// Values of the left side's variables, in the order in which these are met.
    pub subst: Subst,
    /// Where the part stands.
    pub place: Place,
}

/// Whether another substitution has the value of a variable too, where there is one.
fn keeps(values: &Values<'_>, others: &Values<'_>, x: &VarId) -> bool
    ensures { IsTrue result ↔ Keeps values.now others.now x.now }
{
    match values.at(x) {
        Some(value) => match others.at(x) {
            Some(other) => same(value, other),
            None => false,
        },
        None => true,
    }
}

/// The same of all values of a substitution.
fn keeps_all(pairs: &[Binding], values: &Values<'_>, others: &Values<'_>) -> bool
    requires { values.now ≡ map pair_of pairs.now }
    ensures { IsTrue result ↔ Extends values.now others.now }
{
    for pair in pairs {
        if !keeps(values, others, &pair.variable) {
            return false;
        }
    }
    true
}

/// Whether a failure is of a statement, by its number, with these values.
fn is_failure_of(
    alloc: Global,
    failing: &Failing<'_>,
    number: usize,
    subst: &Subst,
    values: &Values<'_>,
) -> Result<bool, AllocError>
    requires { values.now ≡ subst.now }
    ensures yes { IfOk result (λ b. IsTrue b → IsFailureOf failing.now number subst.now) }
    ensures no { IfOk result (λ b. IsFailureOf failing.now number subst.now → IsTrue b) }
{
    if failing.statement() != number {
        return Ok(false);
    }
    let other = failing.subst();
    let others = Values::of(alloc, other)?;
    let all = keeps_all(subst.pairs.as_slice(), values, &others);
    Ok(all && keeps_all(other.pairs.as_slice(), &others, values))
}

/// Whether a statement with these values is among the failures.
fn is_among(
    alloc: Global,
    failures: &[Failing<'_>],
    number: usize,
    subst: &Subst,
) -> Result<bool, AllocError>
    ensures yes { IfOk result (λ b. IsTrue b → (f : Failure) × Member f failures.now × IsFailureOf f number subst.now × IsFailure f) }
    ensures no { IfOk result (λ b. IsAmong failures.now number subst.now → IsTrue b) }
{
    let values = Values::of(alloc, subst)?;
    for failing in failures {
        if is_failure_of(alloc, failing, number, subst, &values)? {
            failing.shows();
            return Ok(true);
        }
    }
    Ok(false)
}

/// The first rule in the order of the module that has a solution for a part that rules may change, outermost first and
/// from the left, but for those that are among the failures with the same solution. None where there is none.
/// Conditions aren't asked of.
pub fn find<'m>(
    alloc: Global,
    context: &'m Ctx,
    index: &'m Index,
    term: &Term,
    failures: &[Failing<'m>],
) -> Result<Option<Redex<'m>>, AllocError>
    requires index { IsIndexOf context.now index.now }
    requires admitted { IsAdmittedTerm context.now.signature term.now }
    requires over { (f : Failure) → Member f failures.now → f.over ≡ context.now }
    ensures { let M = context.now in IfOk result (λ o. MatchOption o (AreAllKnown M failures.now term.now) (IsRedexOf M failures.now term.now)) }
{
    context.shows();
    let rules = index.rules();
    let wanted = wanted_by(rules);
    let spots = spots_of(alloc, context.facts(), wanted, term)?;
    let mut redexes = Redexes::new(alloc);
    let mut rounds = u64::MAX;
    while rounds > 0 {
        rounds -= 1;
        let Some(found) = redexes.next(alloc, context, rules, spots.as_slice())? else {
            return Ok(None);
        };
        let number = found.choice.by.number;
        let subst = substitution(alloc, context, number, found.choice.values.as_slice())?;
        if !is_among(alloc, failures, number, &subst)? {
            let Found { at, choice } = found;
            let path = way_to(alloc, spots.as_slice(), at)?;
            let Choice { by, take, .. } = choice;
            let place = Place { path, take };
            return Ok(Some(Redex { by, subst, place }));
        }
    }
    Err(AllocError)
}
