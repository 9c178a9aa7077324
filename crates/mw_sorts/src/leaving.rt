// Whether leaving identities out raises no sort.
ghost use Rattle.std.specs.Prelude.{◌≡◌, false, ℕ, List, [], ◌∷◌, Some, IfOk, IsTrue};
ghost use Rattle.mw_logic.specs.Signature.{IsOperator, Identity as IdentityOf, identity_term};
ghost use Rattle.mw_logic.specs.Signature.{Signature as SignatureOf, Operator as OperatorOf};
ghost use Rattle.mw_logic.specs.Accepted.{IsAccepted, number_of_sort};
ghost use Rattle.mw_logic.specs.Preregular.{IsSortOf};
ghost use Rattle.mw_term.specs.Signatures.{sorted_of, identity_of};
ghost use Rattle.mw_sorting.specs.ComputedSorts.{IsResultOn, ComputedSort};
ghost use Rattle.mw_sorting.specs.PreregularModulo.{IsOfKind, HasNaturals};
ghost use Rattle.mw_sorts.specs.Diagrams.{IsDiagram, HaveDiagrams};
ghost use Rattle.mw_sorts.specs.Numbers.{HaveNumbers};
ghost use Rattle.mw_sorts.specs.Groupings.{IsOrderSorted};
ghost use Rattle.mw_sorts.specs.Leaving.{IsIdentitySort, StaysLow, Raises, IsFirstLeftIf, IsIdentityFaultIf};

use crate::diagram::Diagram;
use crate::look_up::{NOTHING, on_two, result_on};
use crate::numbers::Numbers;
use crate::sorting::Sorting;
use mw_term::{Identity, OpId, Operator, Signature, Sorted, number_at, numbered};
use std::alloc::{AllocError, Global};

/// The first operator whose identity raises a sort where it is left out, and the first such sort, if there is one.
pub fn first_identity_fault(
    alloc: Global,
    signature: &Signature,
    sorting: &Sorting<'_>,
    diagrams: &[Diagram],
    numbers: &Option<Numbers>,
) -> Result<Option<(OpId, Sorted)>, AllocError>
    requires same { sorting.now.signature ≡ signature.now }
    requires order_sorted { IsOrderSorted signature.now }
    requires naturals { IsTrue signature.now.nat → HasNaturals signature.now }
    requires diagrams { HaveDiagrams signature.now sorting.now.places diagrams.now }
    requires numbers { HaveNumbers signature.now numbers.now }
    ensures { IfOk result (IsIdentityFaultIf signature.now) }
{
    for (index, operator) in signature.operators.as_slice().iter().enumerate() {
        if let Some(identity) = operator.identity {
            let identity = identity_sort(sorting.places(), diagrams, numbers, identity);
            let found = first_left(alloc, sorting, operator, &diagrams[index], identity)?;
            if let Some(sort) = found {
                return Ok(Some((number_at(index)?, sort)));
            }
        }
    }
    Ok(None)
}

// The first sort to which leaving an operator's identity out raises, if there is one. The identity has this sort.
fn first_left(
    alloc: Global,
    sorting: &Sorting<'_>,
    operator: &Operator,
    diagram: &Diagram,
    identity: Sorted,
) -> Result<Option<Sorted>, AllocError>
    requires order_sorted { IsOrderSorted sorting.now.signature }
    requires naturals { IsTrue sorting.now.signature.nat → HasNaturals sorting.now.signature }
    requires operator { (f : ℕ) × IsOperator sorting.now.signature f operator.now }
    requires diagram { IsDiagram sorting.now.signature sorting.now.places operator.now diagram.now }
    requires identity { IsIdentitySort sorting.now.signature operator.now (sorted_of identity) }
    ensures { IfOk result (IsFirstLeftIf sorting.now.signature operator.now) }
{
    let entries = sorting.entries(alloc, operator.result)?;
    for entry in entries.as_slice() {
        if !stays_low(sorting, operator, diagram, identity, *entry) {
            return Ok(Some(*entry));
        }
    }
    Ok(None)
}

// Whether a sort is at or below what an operator gives on it and its identity's sort, on both sides.
fn stays_low(
    sorting: &Sorting<'_>,
    operator: &Operator,
    diagram: &Diagram,
    identity: Sorted,
    sort: Sorted,
) -> bool
    requires order_sorted { IsOrderSorted sorting.now.signature }
    requires operator { (f : ℕ) × IsOperator sorting.now.signature f operator.now }
    requires diagram { IsDiagram sorting.now.signature sorting.now.places operator.now diagram.now }
    requires identity { IsIdentitySort sorting.now.signature operator.now (sorted_of identity) }
    requires sort { IsOfKind sorting.now.signature operator.now.result (sorted_of sort) }
    ensures low { IsTrue result → StaysLow sorting.now.signature operator.now (sorted_of identity) (sorted_of sort) }
    ensures raised { result ≡ false → Raises sorting.now.signature operator.now (sorted_of identity) (sorted_of sort) }
{
    let before = result_of_two(sorting, operator, diagram, identity, sort);
    let behind = result_of_two(sorting, operator, diagram, sort, identity);
    sorting.is_below(sort, before) && sorting.is_below(sort, behind)
}

// What an operator that has an identity gives on two sorts of its kind.
fn result_of_two(
    sorting: &Sorting<'_>,
    operator: &Operator,
    diagram: &Diagram,
    first: Sorted,
    second: Sorted,
) -> Sorted
    requires order_sorted { IsOrderSorted sorting.now.signature }
    requires operator { (f : ℕ) × IsOperator sorting.now.signature f operator.now }
    requires diagram { IsDiagram sorting.now.signature sorting.now.places operator.now diagram.now }
    requires identity { (i : IdentityOf) × (operator.now.identity ≡ Some i) }
    requires first { IsOfKind sorting.now.signature operator.now.result (sorted_of first) }
    requires second { IsOfKind sorting.now.signature operator.now.result (sorted_of second) }
    ensures result { IsResultOn sorting.now.signature operator.now (sorted_of first ∷ sorted_of second ∷ []) (sorted_of result) }
    ensures kind { IsOfKind sorting.now.signature operator.now.result (sorted_of result) }
    ensures there { IsSortOf sorting.now.signature (number_of_sort (sorted_of result)) }
{
    on_two(sorting.places(), diagram, first, second)
}

// The sort of an identity: of a constant its result, of a numeral its entry.
fn identity_sort(
    places: &[usize],
    diagrams: &[Diagram],
    numbers: &Option<Numbers>,
    identity: Identity,
) -> Sorted
    ensures { (sig : SignatureOf) (f : ℕ) (o : OperatorOf) → IsAccepted sig → HaveDiagrams sig places.now diagrams.now
        → HaveNumbers sig numbers.now
        → IsOperator sig f o → o.identity ≡ Some (identity_of identity)
        → ComputedSort sig (identity_term (identity_of identity)) (sorted_of result) }
{
    match identity {
        Identity::Constant(constant) => match numbered(diagrams, constant) {
            Some(diagram) => result_on(places, diagram, &[]),
            None => NOTHING,
        },
        Identity::Nat(number) => match numbers {
            Some(table) => table.sort(number),
            None => NOTHING,
        },
    }
}
