// What becomes of the patterns under an associative and commutative operator: each takes a share of the multiset.
ghost use Rattle.std.specs.Prelude.{◌≡◌, ◌<◌, IfOk, IsTrue, option_map};
ghost use Rattle.mw_logic.specs.NormalForm.{identity_of, elements as elements_of};
ghost use Rattle.mw_logic.specs.Terms.{args_of, terms_of, skip};
ghost use Rattle.mw_matching.specs.Found.{value_of};
ghost use Rattle.mw_matching.specs.Multisets.{times as times_is};
ghost use Rattle.mw_search.specs.Goals.{Serves, Gives, IsRepeated, divided_outcome, top_of};
ghost use Rattle.mw_search.specs.Traces.{taken_trace, heads_trace, parts_trace};
ghost use Rattle.mw_search.specs.declared.goals.Goal.TheVariants.{Bag, Left};

use crate::bags::{Parts, divided, taken_away, times, without};
use crate::gathered::Gathered;
use crate::goals::{Goal, Outcome};
use crate::positions::{Positions, identity};
use crate::rows::whole;
use crate::shares::{Pieces, Shares, Singles, is_variable_at};
use crate::terms::{rebuilt_of, rest_of, row_of, top};
use mw_canon::Facts;
use mw_term::{Term, View, copy};
use std::alloc::{AllocError, Global};

/// The arguments of a pattern from this one on by all elements of a multiset.
pub fn bag_met(
    alloc: Global,
    facts: &Facts,
    positions: &Positions,
    pattern: &Term,
    at: usize,
    bag: &Term,
    values: &[Term],
) -> Result<Outcome, AllocError>
    ensures { IfOk result (Serves facts.now positions.now.single.items (Bag pattern.now at bag.now) values.now) }
{
    let patterns = pattern.arguments();
    let elements = bag.arguments();
    if at >= patterns.len() {
        return Ok(if elements.is_empty() {
            Outcome::Holds
        } else {
            Outcome::Fails
        });
    }
    let first = &patterns[at];
    if let Some(value) = value_at(first, values) {
        let met = given_met(alloc, facts, pattern, at + 1, elements, value)?;
        return Ok(met);
    }
    if positions.is_rigid(facts, top(pattern), first) {
        let met = heads_met(pattern, first, at + 1, bag)?;
        return Ok(met);
    }
    if at + 1 == patterns.len() {
        let met = whole(
            alloc,
            identity(facts, top(pattern)),
            top(pattern),
            elements,
            first,
        )?;
        return Ok(met);
    }
    let left = rest_of(patterns, at);
    if !elements.is_empty() && is_repeated(first, left, values.len()) {
        let met = divided_met(alloc, facts, pattern, first, at + 1, left.len(), elements)?;
        return Ok(met);
    }
    let met = parts_met(alloc, facts, pattern, left, first, at + 1, elements)?;
    Ok(met)
}

/// The arguments of a pattern from this one on by the elements of a multiset but the one at that index.
pub fn left_met(
    alloc: Global,
    facts: &Facts,
    positions: &Positions,
    pattern: &Term,
    at: usize,
    bag: &Term,
    gone: usize,
    values: &[Term],
) -> Result<Outcome, AllocError>
    ensures { let single = positions.now.single.items in
        IfOk result (Serves facts.now single (Left pattern.now at bag.now gone) values.now) }
{
    let left = without(alloc, bag.arguments(), gone)?;
    let left = Term::apply(alloc, top(pattern), left)?;
    let met = bag_met(alloc, facts, positions, pattern, at, &left, values)?;
    Ok(met)
}

/// The value of a variable, where it has one.
fn value_at<'v>(pattern: &Term, values: &'v [Term]) -> Option<&'v Term>
    ensures { option_map (λ v. v.now) result ≡ value_of pattern.now values.now }
{
    match pattern.view() {
        View::Var(x) => values.get(x.sort as usize),
        _ => None,
    }
}

/// A variable that has its value takes its elements.
fn given_met(
    alloc: Global,
    facts: &Facts,
    pattern: &Term,
    then: usize,
    elements: &[Term],
    value: &Term,
) -> Result<Outcome, AllocError>
    ensures { let f = top_of pattern.now in
        let us = elements_of (identity_of facts.now f) f value.now in
        let qs = skip then (args_of pattern.now) in
        IfOk result (Gives (λ sig single. taken_trace sig single f us qs (terms_of elements.now))) }
{
    let operator = top(pattern);
    let taken = row_of(alloc, facts, operator, value)?;
    match taken_away(alloc, taken.arguments(), elements)? {
        Some(left) => {
            let left = Term::apply(alloc, operator, left)?;
            let pattern = copy(pattern)?;
            Ok(Outcome::Becomes(Goal::Bag(pattern, then, left)))
        }
        None => Ok(Outcome::Fails),
    }
}

/// A rigid pattern takes one of the different elements.
fn heads_met(pattern: &Term, first: &Term, then: usize, bag: &Term) -> Result<Outcome, AllocError>
    ensures { let qs = skip then (args_of pattern.now) in
        IfOk result (Gives (λ sig single. heads_trace sig single (top_of pattern.now) first.now qs (args_of bag.now))) }
{
    let again = match first.view() {
        View::Var(x) => is_variable_at(pattern, then, x.sort),
        _ => false,
    };
    let first = copy(first)?;
    let pattern = copy(pattern)?;
    let bag = Gathered::of(copy(bag)?, again);
    let singles = Singles {
        pattern,
        then,
        bag,
        next: 0,
    };
    Ok(Outcome::Opens(first, Shares::OfHeads(singles)))
}

/// Whether all patterns that are left are one variable, which gets the value of the next position. So many positions
/// have values.
fn is_repeated(first: &Term, left: &[Term], count: usize) -> bool
    ensures { IsTrue result → IsRepeated first.now (terms_of left.now) count }
{
    let View::Var(x) = first.view() else {
        return false;
    };
    if x.sort as usize != count {
        return false;
    }
    times(first, left) == left.len()
}

/// A variable that is all that is left, so many times, takes the part of which the elements are so many equal ones, where
/// there is one.
fn divided_met(
    alloc: Global,
    facts: &Facts,
    pattern: &Term,
    first: &Term,
    then: usize,
    number: usize,
    elements: &[Term],
) -> Result<Outcome, AllocError>
    requires { 0 < number }
    ensures { let e = identity_of facts.now (top_of pattern.now) in
        IfOk result (λ o. o ≡ divided_outcome e pattern.now first.now then number (terms_of elements.now)) }
{
    let Some((part, rest)) = divided(alloc, elements, number)? else {
        return Ok(Outcome::Fails);
    };
    let operator = top(pattern);
    let term = rebuilt_of(alloc, identity(facts, operator), operator, part.as_slice())?;
    let rest = Term::apply(alloc, operator, rest)?;
    let first = copy(first)?;
    let pattern = copy(pattern)?;
    Ok(Outcome::First(first, term, Goal::Bag(pattern, then, rest)))
}

/// Any other pattern takes a part, of which there are as many equal ones as the pattern stands among those that are
/// left.
fn parts_met(
    alloc: Global,
    facts: &Facts,
    pattern: &Term,
    left: &[Term],
    first: &Term,
    then: usize,
    elements: &[Term],
) -> Result<Outcome, AllocError>
    ensures { let f = top_of pattern.now in
        let e = identity_of facts.now f in
        let qs = skip then (args_of pattern.now) in
        let m = times_is first.now (terms_of left.now) in
        IfOk result (Gives (λ sig single. parts_trace sig single e f first.now qs m (terms_of elements.now))) }
{
    let identity = identity(facts, top(pattern));
    let parts = Parts::new(alloc, identity.is_some(), times(first, left), elements)?;
    let first = copy(first)?;
    let pattern = copy(pattern)?;
    let pieces = Pieces {
        pattern,
        then,
        identity,
        parts,
    };
    Ok(Outcome::Opens(first, Shares::OfParts(pieces)))
}
