// Variables in order.
ghost use Rattle.std.specs.Prelude.{◌≡◌, ◌<◌, ℕ, [], Some, length, map, slice_get, IfOk, IsTrue, MatchOption};
ghost use Rattle.mw_position.specs.Variables.{met, place};
ghost use Rattle.mw_index.specs.Sections.{AreIn};

use mw_pattern::{Places, meet_all};
use mw_term::{Seq, Statement};
use std::alloc::{AllocError, Global};

/// The variables of a statement's left side, in order of first mention.
pub fn left_places(alloc: Global, statement: &Statement) -> Result<Places<'_>, AllocError>
    ensures { IfOk result (λ places. places ≡ met [] statement.now.left) }
{
    let mut places = Places::none(alloc);
    meet_all(&mut places, &statement.left)?;
    Ok(places)
}

/// Of each variable of some its place among others.
pub fn order_of(
    alloc: Global,
    places: &Places<'_>,
    variables: &Places<'_>,
) -> Result<Seq<usize>, AllocError>
    requires { AreIn variables.now places.now }
    ensures { IfOk result (λ ns. ns ≡ map (λ x. place x places.now) variables.now) }
{
    let mut order = Vec::with_capacity(alloc, variables.len())?;
    for i in 0..variables.len() {
        order.push(places.at(variables.variable(i)))?;
    }
    Ok(Seq::of(order))
}

/// Whether numbers are those from 0 on.
fn are_counted(numbers: &[usize]) -> bool
    ensures { IsTrue result → (i : ℕ) → i < length numbers.now → slice_get numbers.now i ≡ Some i }
{
    for i in 0..numbers.len() {
        if numbers[i] != i {
            return false;
        }
    }
    true
}

/// Of each variable of some its place among the same ones in another order; none where the order is the same.
pub fn other_order(
    alloc: Global,
    places: &Places<'_>,
    variables: &Places<'_>,
) -> Result<Option<Seq<usize>>, AllocError>
    requires among { AreIn variables.now places.now }
    requires count { length places.now ≡ length variables.now }
    ensures { IfOk result (λ o. MatchOption o (places.now ≡ variables.now)
        (λ ns. ns ≡ map (λ x. place x places.now) variables.now)) }
{
    let order = order_of(alloc, places, variables)?;
    if are_counted(order.as_slice()) {
        Ok(None)
    } else {
        Ok(Some(order))
    }
}
