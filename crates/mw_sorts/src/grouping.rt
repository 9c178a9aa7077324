// Whether the groupings under associative operators agree.
ghost use Rattle.std.specs.Prelude.{◌≡◌, ℕ, IfOk, IsTrue};
ghost use Rattle.mw_logic.specs.Signature.{IsOperator};
ghost use Rattle.mw_sorts.specs.Diagrams.{IsDiagram, HaveDiagrams};
ghost use Rattle.mw_sorts.specs.Groupings.{IsOrderSorted, IsFirstGroupingIf, IsGroupingFaultIf};

mod search;
mod square;

use crate::diagram::Diagram;
use crate::sorting::Sorting;
use mw_term::{OpId, Operator, Signature, Sorted, number_at};
use search::first_triple;
use square::square_of;
use std::alloc::{AllocError, Global};

/// The first associative operator under which groupings differ, and its first three sorts, if there is one.
pub fn first_grouping_fault(
    alloc: Global,
    signature: &Signature,
    sorting: &Sorting<'_>,
    diagrams: &[Diagram],
) -> Result<Option<(OpId, Vec<Sorted>)>, AllocError>
    requires same { sorting.now.signature ≡ signature.now }
    requires order_sorted { IsOrderSorted signature.now }
    requires diagrams { HaveDiagrams signature.now sorting.now.places diagrams.now }
    ensures { IfOk result (IsGroupingFaultIf signature.now) }
{
    for (index, operator) in signature.operators.as_slice().iter().enumerate() {
        if operator.assoc {
            let found = first_grouping(alloc, sorting, operator, &diagrams[index])?;
            if let Some(sorts) = found {
                return Ok(Some((number_at(index)?, sorts)));
            }
        }
    }
    Ok(None)
}

// The first three sorts whose groupings under an operator differ, if there are any.
fn first_grouping(
    alloc: Global,
    sorting: &Sorting<'_>,
    operator: &Operator,
    diagram: &Diagram,
) -> Result<Option<Vec<Sorted>>, AllocError>
    requires order_sorted { IsOrderSorted sorting.now.signature }
    requires operator { (f : ℕ) × IsOperator sorting.now.signature f operator.now }
    requires assoc { IsTrue operator.now.assoc }
    requires diagram { IsDiagram sorting.now.signature sorting.now.places operator.now diagram.now }
    ensures { IfOk result (IsFirstGroupingIf sorting.now.signature operator.now) }
{
    let entries = sorting.entries(alloc, operator.result)?;
    let square = square_of(alloc, sorting, operator, diagram, entries.as_slice())?;
    let Some((first, middle, last)) = first_triple(alloc, &square)? else {
        return Ok(None);
    };
    let sorts = vec![in alloc; entries[first], entries[middle], entries[last]]?;
    Ok(Some(sorts))
}
