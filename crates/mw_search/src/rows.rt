// What becomes of the patterns under an associative operator that isn't commutative: they take the elements from the
// left.
ghost use Rattle.std.specs.Prelude.{◌≡◌, IfOk, option_map};
ghost use Rattle.mw_logic.specs.Terms.{args_of, terms_of, skip};
ghost use Rattle.mw_term.specs.Signatures.{identity_of as identity_named};
ghost use Rattle.mw_arguments.specs.Pieces.{is_backed as backed_is};
ghost use Rattle.mw_matching.specs.Found.{Values};
ghost use Rattle.mw_search.specs.Goals.{IsOutcome, Gives, top_of};
ghost use Rattle.mw_search.specs.Traces.{last_trace, first_trace};
ghost use Rattle.mw_search.specs.declared.goals.Goal.TheVariants.{Row};

use crate::goals::{Goal, Outcome};
use crate::positions::{Positions, identity};
use crate::shares::{Fronts, Shares};
use crate::terms::{rebuilt_of, rebuilt_rest, rest_of, top};
use mw_canon::Facts;
use mw_term::{Identity, OpId, Term, copy};
use std::alloc::{AllocError, Global};

/// Whether elements may stand for a term.
fn is_backed(identity: Option<Identity>, elements: &[Term]) -> bool
    ensures { result ≡ backed_is (option_map identity_named identity) (terms_of elements.now) }
{
    match elements {
        [] => match identity {
            Some(_) => true,
            None => false,
        },
        [_, ..] => true,
    }
}

/// The last pattern meets all elements.
pub fn whole(
    alloc: Global,
    identity: Option<Identity>,
    operator: OpId,
    elements: &[Term],
    pattern: &Term,
) -> Result<Outcome, AllocError>
    ensures { let e = option_map identity_named identity in
        IfOk result (Gives (λ sig single. last_trace sig single e operator pattern.now (terms_of elements.now))) }
{
    if !is_backed(identity, elements) {
        return Ok(Outcome::Fails);
    }
    let term = rebuilt_of(alloc, identity, operator, elements)?;
    let pattern = copy(pattern)?;
    Ok(Outcome::Becomes(Goal::Meet(pattern, term)))
}

/// The last pattern meets all elements of a row from there on.
fn last_met(
    alloc: Global,
    identity: Option<Identity>,
    operator: OpId,
    row: &Term,
    from: usize,
    pattern: &Term,
) -> Result<Outcome, AllocError>
    ensures { let e = option_map identity_named identity in
        IfOk result (Gives (λ sig single. last_trace sig single e operator pattern.now (skip from (args_of row.now)))) }
{
    if !is_backed(identity, rest_of(row.arguments(), from)) {
        return Ok(Outcome::Fails);
    }
    let term = rebuilt_rest(alloc, identity, operator, row, from)?;
    let pattern = copy(pattern)?;
    Ok(Outcome::Becomes(Goal::Meet(pattern, term)))
}

/// The arguments of a pattern from this one on by the elements of a row from that one on.
pub fn row_met(
    alloc: Global,
    facts: &Facts,
    positions: &Positions,
    pattern: &Term,
    at: usize,
    row: &Term,
    from: usize,
) -> Result<Outcome, AllocError>
    ensures { IfOk result (λ o. (vs : Values) →
        IsOutcome facts.now positions.now.single.items (Row pattern.now at row.now from) vs o) }
{
    let patterns = pattern.arguments();
    let rest = rest_of(row.arguments(), from);
    if at >= patterns.len() {
        return Ok(if rest.is_empty() {
            Outcome::Holds
        } else {
            Outcome::Fails
        });
    }
    let first = &patterns[at];
    let identity = identity(facts, top(pattern));
    if positions.is_rigid(facts, top(pattern), first) {
        let met = one_met(pattern, first, at + 1, row, from)?;
        return Ok(met);
    }
    if at + 1 == patterns.len() {
        let met = last_met(alloc, identity, top(pattern), row, from, first)?;
        return Ok(met);
    }
    let next = if identity.is_some() { 0 } else { 1 };
    let end = rest.len() + 1;
    let first = copy(first)?;
    let pattern = copy(pattern)?;
    let row = copy(row)?;
    let then = at + 1;
    let fronts = Fronts {
        pattern,
        then,
        row,
        from,
        identity,
        next,
        end,
    };
    Ok(Outcome::Opens(first, Shares::OfRow(fronts)))
}

/// A rigid pattern meets the first of the elements that are left.
fn one_met(
    pattern: &Term,
    first: &Term,
    then: usize,
    row: &Term,
    from: usize,
) -> Result<Outcome, AllocError>
    ensures { let qs = skip then (args_of pattern.now) in
        let zs = skip from (args_of row.now) in
        IfOk result (Gives (λ sig single. first_trace sig single (top_of pattern.now) first.now qs zs)) }
{
    let elements = row.arguments();
    if from >= elements.len() {
        return Ok(Outcome::Fails);
    }
    let first = copy(first)?;
    let met = copy(&elements[from])?;
    let pattern = copy(pattern)?;
    let row = copy(row)?;
    Ok(Outcome::First(first, met, Goal::Row(pattern, then, row, from + 1)))
}
