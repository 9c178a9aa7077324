// Proofs under an operator.
ghost use Rattle.std.specs.Prelude.{◌≡◌, ◌++◌, [], ◌∷◌, length, IfOk};
ghost use Rattle.mw_logic.specs.Terms.{args_of};
ghost use Rattle.mw_logic.specs.Module.{Module};
ghost use Rattle.mw_logic.specs.NormalForm.{is_comm};
ghost use Rattle.mw_logic.specs.WellFormed.{IsWellFormed};
ghost use Rattle.mw_canon.specs.Canonical.{IsAdmittedTerm};
ghost use Rattle.mw_deduction.specs.Replay.{Leaves};
ghost use Rattle.mw_deduction.specs.Standing.{IsClear, filled};
ghost use Rattle.mw_deduction.specs.Under.{AllMayBeUnder, under_dones};
ghost use Rattle.mw_trail.specs.Tracks.{moves};
ghost use Rattle.mw_proof.specs.Ways.{hole, numbers_in, spread, way};

use crate::places::gone_in;
use crate::proved::Proved;
use mw_canon::rebuild;
use mw_least::Ctx;
use mw_term::{OpId, Term, copy};
use mw_trail::Trail;
use std::alloc::{AllocError, Global};

pub(crate) fn copy_all(terms: &mut Vec<Term>, more: &[Term]) -> Result<(), AllocError>
    ensures { IfOk result (λ _. terms.new.items ≡ terms.old.items ++ more.now) }
{
    for term in more {
        terms.push(copy(term)?)?;
    }
    Ok(())
}

/// The terms before, the term, and the terms after.
fn beside(
    alloc: Global,
    before: &[Term],
    term: &Term,
    after: &[Term],
) -> Result<Vec<Term>, AllocError>
    ensures { IfOk result (λ ts. ts.items ≡ before.now ++ term.now ∷ after.now) }
{
    let mut terms = Vec::with_capacity(alloc, 1)?;
    copy_all(&mut terms, before)?;
    terms.push(copy(term)?)?;
    copy_all(&mut terms, after)?;
    Ok(terms)
}

/// The operator on terms before, a term, and terms after.
fn applied_beside(
    alloc: Global,
    context: &Ctx,
    operator: OpId,
    before: &[Term],
    term: &Term,
    after: &[Term],
) -> Result<Term, AllocError>
    ensures { IfOk result
        (λ t. t ≡ filled context.now.signature (hole operator before.now after.now) term.now) }
{
    let args = beside(alloc, before, term, after)?;
    let term = rebuild(alloc, context.facts(), operator, args)?;
    Ok(term)
}

/// Where a proof under an operator begins and ends, and a trail that goes to where the proof within begins.
struct Lifted {
    from: Term,
    to: Term,
    trail: Trail,
}

fn ends_and_way(
    alloc: Global,
    context: &Ctx,
    operator: OpId,
    before: &[Term],
    inner: &Proved<'_>,
    after: &[Term],
) -> Result<Lifted, AllocError>
    ensures from { IfOk result
        (λ l. l.from ≡ filled context.now.signature (hole operator before.now after.now) inner.now.from) }
    ensures to { IfOk result
        (λ l. l.to ≡ filled context.now.signature (hole operator before.now after.now) inner.now.to) }
    ensures way { let sig = context.now.signature in
        let numbers = numbers_in (is_comm sig operator) (length before.now) (spread sig operator inner.now.from) in
        IfOk result (λ l. (M : Module) → moves M l.trail ≡ way (numbers (args_of l.from)) ∷ []) }
{
    let from = applied_beside(alloc, context, operator, before, inner.from(), after)?;
    let to = applied_beside(alloc, context, operator, before, inner.to(), after)?;
    let trail = gone_in(
        alloc,
        context.facts(),
        operator,
        before.len(),
        inner.from(),
        &from,
    )?;
    Ok(Lifted { from, to, trail })
}

/// What one trail does and then another, and out of where the first one went. Where the other does nothing, the first
/// one may take back that it went in.
pub fn left(trail: Trail, next: Trail) -> Result<Trail, AllocError>
    ensures { IfOk result (λ t. (M : Module) → Leaves (moves M trail ++ moves M next) (moves M t)) }
{
    let mut trail = trail.followed_by(next)?;
    trail.leave()?;
    Ok(trail)
}

/// A proof under an operator, beside terms that stay as they are. Each replacement of the proof must be one that may
/// stand there, and the term that it begins with a canonical one that is admitted there. Under a commutative operator
/// the terms beside may be given in any order.
pub fn under<'m>(
    alloc: Global,
    context: &'m Ctx,
    operator: OpId,
    before: Vec<Term>,
    inner: Proved<'m>,
    after: Vec<Term>,
) -> Result<Proved<'m>, AllocError>
    requires well { IsWellFormed context.now }
    requires module { inner.over ≡ context.now }
    requires clear { IsClear context.now.signature (hole operator before.items after.items) }
    requires begins { let sig = context.now.signature in
        IsAdmittedTerm sig (filled sig (hole operator before.items after.items) inner.from) }
    requires liftable { AllMayBeUnder context.now (hole operator before.items after.items ∷ []) inner.run }
    ensures over { IfOk result (λ p. p.over ≡ context.now) }
    ensures rank { IfOk result (λ p. p.rank ≡ inner.entry.rank) }
    ensures from { let sig = context.now.signature in
        IfOk result (λ p. p.from ≡ filled sig (hole operator before.items after.items) inner.entry.from) }
    ensures to { let sig = context.now.signature in
        IfOk result (λ p. p.to ≡ filled sig (hole operator before.items after.items) inner.entry.to) }
    ensures run { let sig = context.now.signature in
        IfOk result (λ p. p.run ≡ under_dones sig (hole operator before.items after.items ∷ []) inner.entry.run) }
{
    inner.shows();
    let rank = inner.rank();
    let Lifted { from, to, trail } = ends_and_way(
        alloc,
        context,
        operator,
        before.as_slice(),
        &inner,
        after.as_slice(),
    )?;
    if inner.steps() == 0 {
        return Ok(Proved::of(context, rank, from, to, Trail::new(alloc)));
    }
    let trail = left(trail, inner.into_trail())?;
    Ok(Proved::of(context, rank, from, to, trail))
}
