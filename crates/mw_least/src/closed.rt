// Sorts that ground terms have since they are made of operators that give the sort on arguments of it.
ghost use Rattle.std.specs.Prelude.{◌≡◌, ◌≤◌, ℕ, map, Some, IfOk, IsFalse, IsTrue};
ghost use Rattle.mw_logic.specs.Signature.{Signature as SignatureOf, SameKind, sort as sort_of, at_number, Member};
ghost use Rattle.mw_logic.specs.Sorts.{AtOrBelow};
ghost use Rattle.mw_poset.specs.SortOrder.{order_of};
ghost use Rattle.mw_term.specs.Signatures.{sorted_of};
ghost use Rattle.mw_least.specs.Closed.{IsAbove, AreAbove, TakesTo, IsClosedFor, AreWithin, AreConstantsWithin, AreClosedFor, IsClosed, IsHome, AreHomes};

use crate::sure::{Partial, greatest, is_named, is_there, is_top, reaches};
use mw_poset::Poset;
use mw_term::{Declaration, Name, Operator, Seq, Signature, SortId, Sorted, number_at};
use std::alloc::{AllocError, Global};

/// How many closed sorts are kept of a module.
const MOST: usize = 16;

/// How many times an operator is tested for a closed sort, in modules of very many operators: so these have fewer.
const TESTS: usize = 200_000;

/// A sort that a ground term of its kind has if no operator outside stands in it: the others give the sort on arguments
/// of it.
#[derive(Clone, Copy, Drop)]
pub struct Closed {
    pub sort: SortId,
    /// The operators of its kind that may take arguments of the sort to a result without it.
    pub outside: Partial,
}

/// What tells the sort of a ground term by the operator on top.
#[derive(Clone, Copy, Drop)]
pub struct Home {
    /// A sort of arguments.
    pub closed: Closed,
    /// What the operator gives on them, or 0 where it has no home.
    pub result: SortId,
}

impl Home {
    fn none() -> Home
        ensures { result.result ≡ 0 }
    {
        let closed = Closed {
            sort: 0,
            outside: Partial::none(),
        };
        Home { closed, result: 0 }
    }
}

fn is_above(order: &Poset, sort: SortId, other: Sorted) -> bool
    ensures { IsTrue result → IsAbove order.now.pairs sort (sorted_of other) }
{
    match other {
        Sorted::Sort(other) => reaches(order, sort, other),
        Sorted::Kind(_) => false,
    }
}

fn are_above(order: &Poset, sort: SortId, sorts: &[Sorted]) -> bool
    ensures { IsTrue result → AreAbove order.now.pairs sort (map sorted_of sorts.now) }
{
    let mut rest = sorts;
    while let [other, after @ ..] = rest {
        if !is_above(order, sort, *other) {
            return false;
        }
        rest = after;
    }
    true
}

/// The sort to which a declaration takes arguments of a sort, or 0 where it doesn't.
fn declared_on(order: &Poset, declaration: &Declaration, sort: SortId) -> SortId
    ensures { 1 ≤ result → (declaration.now.result ≡ sort_of result) × AreAbove order.now.pairs sort declaration.now.args }
{
    match declaration.result {
        Sorted::Sort(result) if are_above(order, sort, declaration.args.as_slice()) => result,
        _ => 0,
    }
}

/// The least sort to which an operator's declarations take arguments of a sort, or 0 where none does.
fn result_on(order: &Poset, operator: &Operator, sort: SortId) -> SortId
    ensures { 1 ≤ result → TakesTo order.now.pairs operator.now sort result }
{
    let mut least = 0;
    let mut rest = operator.declarations.as_slice();
    while let [declaration, after @ ..] = rest {
        let result = declared_on(order, declaration, sort);
        if least == 0 || reaches(order, result, least) {
            least = result;
        }
        rest = after;
    }
    least
}

/// Whether an operator gives a sort on arguments of it.
pub fn is_closed_for(order: &Poset, operator: &Operator, sort: SortId) -> bool
    ensures { IsTrue result → IsClosedFor order.now.pairs operator.now sort }
{
    let result = result_on(order, operator, sort);
    result != 0 && reaches(order, result, sort)
}

/// Whether two sorts are of different kinds.
fn are_apart(order: &Poset, sort: SortId, other: SortId) -> bool
    ensures { IsTrue result → (sig : SignatureOf) → sig.pairs ≡ order.now.pairs → SameKind sig sort other → ⊥ }
{
    is_there(order, sort) && is_there(order, other) && order.kind_of(sort) != order.kind_of(other)
}

/// Whether an operator of a sort's kind may take arguments of the sort to a result without it.
fn is_outside(order: &Poset, operator: &Operator, sort: SortId) -> bool
    ensures { IsFalse result → (sig : SignatureOf) → sig.pairs ≡ order.now.pairs → SameKind sig operator.now.result sort → IsClosedFor order.now.pairs operator.now sort }
{
    !are_apart(order, operator.result, sort) && !is_closed_for(order, operator, sort)
}

/// The operators of a sort's kind that may take arguments of the sort to a result without it.
fn outside(order: &Poset, signature: &Signature, sort: SortId) -> Result<Partial, AllocError>
    requires order { order.now ≡ order_of signature.now }
    ensures { IfOk result (λ s. AreClosedFor signature.now sort s) }
{
    let mut outside = Partial::none();
    for (index, operator) in signature.operators.as_slice().iter().enumerate() {
        if is_outside(order, operator, sort) {
            outside = outside.with(number_at(index)?, operator.built);
        }
    }
    Ok(outside)
}

/// Whether a sort, if it has this name and is of another's kind, is at or below that one.
fn is_within(order: &Poset, sorts: &[Name], lower: SortId, upper: SortId, name: &[u8]) -> bool
    ensures { IsTrue result → at_number sorts.now lower ≡ Some name.now → (sig : SignatureOf) → sig.pairs ≡ order.now.pairs → SameKind sig lower upper → AtOrBelow order.now.pairs lower upper }
{
    reaches(order, lower, upper) || are_apart(order, lower, upper) || !is_named(sorts, lower, name)
}

/// Whether the sorts of this name that are of a sort's kind are at or below it.
fn are_within(order: &Poset, signature: &Signature, sort: SortId, name: &[u8]) -> bool
    requires order { order.now ≡ order_of signature.now }
    ensures { IsTrue result → AreWithin signature.now sort name.now }
{
    let sorts = signature.sorts.as_slice();
    for index in 0..order.sorts() {
        if !is_within(order, sorts, index + 1, sort, name) {
            return false;
        }
    }
    true
}

/// Whether numerals and quoted identifiers, if they are of a sort's kind, have the sort.
fn are_constants_within(order: &Poset, signature: &Signature, sort: SortId) -> bool
    requires order { order.now ≡ order_of signature.now }
    ensures { IsTrue result → AreConstantsWithin signature.now sort }
{
    let numerals = !signature.nat || are_within(order, signature, sort, b"Nat");
    let quotes = !signature.qid || are_within(order, signature, sort, b"Qid");
    numerals && quotes
}

/// Those of these sorts that numerals and quoted identifiers of their kinds have, each with the operators that are
/// outside.
fn closed_sorts(
    alloc: Global,
    signature: &Signature,
    order: &Poset,
    sorts: &[SortId],
) -> Result<Vec<Closed>, AllocError>
    requires order { order.now ≡ order_of signature.now }
    ensures { IfOk result (λ v. (c : Closed) → Member c v.items → IsClosed signature.now c) }
{
    let mut closed = Vec::new(alloc);
    for sort in sorts {
        if are_constants_within(order, signature, *sort) {
            let outside = outside(order, signature, *sort)?;
            closed.push(Closed {
                sort: *sort,
                outside,
            })?;
        }
    }
    Ok(closed)
}

/// Whether a result of an operator on arguments of a sort tells much of terms: the operator isn't outside itself.
fn is_inside(order: &Poset, given: SortId, sort: SortId) -> bool {
    given != 0 && (reaches(order, given, sort) || are_apart(order, given, sort))
}

/// The first of these sorts whose arguments an operator takes to a sort, where it isn't outside itself.
fn home_of(order: &Poset, closed: &[Closed], operator: &Operator) -> Home
    ensures { (sig : SignatureOf) → sig.pairs ≡ order.now.pairs → ((c : Closed) → Member c closed.now → IsClosed sig c) → IsHome sig operator.now result }
{
    let mut rest = closed;
    while let [first, after @ ..] = rest {
        let result = result_on(order, operator, first.sort);
        if is_inside(order, result, first.sort) {
            return Home {
                closed: *first,
                result,
            };
        }
        rest = after;
    }
    Home::none()
}

/// Of each operator its home among these sorts.
fn homes_among(
    alloc: Global,
    signature: &Signature,
    order: &Poset,
    closed: &[Closed],
) -> Result<Seq<Home>, AllocError>
    requires order { order.now ≡ order_of signature.now }
    requires closed { (c : Closed) → Member c closed.now → IsClosed signature.now c }
    ensures { IfOk result (λ homes. AreHomes signature.now signature.now.operators homes) }
{
    let mut homes = Vec::new(alloc);
    let mut rest = signature.operators.as_slice();
    while let [operator, after @ ..] = rest {
        homes.push(home_of(order, closed, operator))?;
        rest = after;
    }
    Ok(Seq::of(homes))
}

/// Whether a closed sort may tell what tops of kinds don't: a declaration gives the sort, which is no top, on arguments
/// of it.
fn is_worth(order: &Poset, tops: &[SortId], declaration: &Declaration, sort: SortId) -> bool {
    let result = declared_on(order, declaration, sort);
    reaches(order, result, sort) && !is_top(order, tops, Sorted::Sort(sort))
}

/// How many sorts are tried where there are so many operators.
fn room(operators: usize) -> usize {
    MOST.min(TESTS / operators.max(1))
}

/// The sorts that are tried: arguments' sorts for which a declaration is closed, as far as there is room.
fn candidates(
    alloc: Global,
    signature: &Signature,
    order: &Poset,
) -> Result<Vec<SortId>, AllocError> {
    let tops = greatest(alloc, order)?;
    let operators = signature.operators.as_slice();
    let room = room(operators.len());
    let mut found = Vec::new(alloc);
    for operator in operators {
        for declaration in operator.declarations.as_slice() {
            for arg in declaration.args.as_slice() {
                if let Sorted::Sort(sort) = arg {
                    if found.len() < room
                        && !found.contains(sort)
                        && is_worth(order, tops.as_slice(), declaration, *sort)
                    {
                        found.push(*sort)?;
                    }
                }
            }
        }
    }
    Ok(found)
}

/// The homes of a signature's operators; none where no sort is closed but tops of kinds.
pub fn homes(alloc: Global, signature: &Signature, order: &Poset) -> Result<Seq<Home>, AllocError>
    requires order { order.now ≡ order_of signature.now }
    ensures { IfOk result (λ homes. AreHomes signature.now signature.now.operators homes) }
{
    let sorts = candidates(alloc, signature, order)?;
    let closed = closed_sorts(alloc, signature, order, sorts.as_slice())?;
    if closed.is_empty() {
        return Ok(Seq::of(Vec::new(alloc)));
    }
    homes_among(alloc, signature, order, closed.as_slice())
}
