// Look-ups in an operator's diagram.
ghost use Rattle.std.specs.Prelude.{◌≡◌, ℕ, [], ◌∷◌, length, map, slice_get, Some};
ghost use Rattle.mw_logic.specs.Signature.{Signature as SignatureOf, Operator as OperatorOf};
ghost use Rattle.mw_term.specs.Signatures.{sorted_of};
ghost use Rattle.mw_term.specs.declared.signature.Sorted.{Sorted as SortedOf};
ghost use Rattle.mw_sorting.specs.ComputedSorts.{IsResultOn};
ghost use Rattle.mw_sorting.specs.PreregularModulo.{IsOfKind};
ghost use Rattle.mw_logic.specs.Preregular.{AreOfKinds};
ghost use Rattle.mw_sorts.specs.Diagrams.{Level as LevelOf, Row as RowOf, IsDiagram};
ghost use Rattle.mw_sorts.specs.Entries.{place_in};

use crate::diagram::{Diagram, Level};
use mw_term::Sorted;

/// The answer where a diagram doesn't have what is looked for.
pub const NOTHING: Sorted = Sorted::Kind(0);

/// The place of a sort, or of a kind, in a row of so many places.
pub fn place(places: &[usize], sort: Sorted, width: usize) -> usize
    ensures { result ≡ place_in places.now width (sorted_of sort) }
{
    match sort {
        Sorted::Sort(sort) => match places.get((sort as usize).saturating_sub(1)) {
            Some(place) => *place,
            None => 0,
        },
        Sorted::Kind(_) => width.saturating_sub(1),
    }
}

/// What stands at a place behind all levels.
pub fn end_at(ends: &[Sorted], place: usize) -> Sorted
    ensures { (R : SortedOf) → slice_get ends.now place ≡ Some R → result ≡ R }
{
    match ends.get(place) {
        Some(end) => *end,
        None => NOTHING,
    }
}

// The row of the next level to which a sort leads.
pub fn next_row(
    places: &[usize],
    levels: &[Level],
    argument: usize,
    row: usize,
    sort: Sorted,
) -> usize
    ensures { (level : LevelOf) (cells : RowOf) (next : ℕ) → slice_get levels.now argument ≡ Some level
        → slice_get level row ≡ Some cells
        → slice_get cells (place_in places.now (length cells) (sorted_of sort)) ≡ Some next → result ≡ next }
{
    let Some(level) = levels.get(argument) else {
        return 0;
    };
    let Some(cells) = level.as_slice().get(row) else {
        return 0;
    };
    let cells = cells.as_slice();
    match cells.get(place(places, sort, cells.len())) {
        Some(next) => *next,
        None => 0,
    }
}

/// The result of an operator on arguments of these sorts, by its diagram.
pub fn result_on(places: &[usize], diagram: &Diagram, sorts: &[Sorted]) -> Sorted
    ensures { (sig : SignatureOf) (o : OperatorOf) → IsDiagram sig places.now o diagram.now
        → AreOfKinds sig (map sorted_of sorts.now) o.args
        → IsResultOn sig o (map sorted_of sorts.now) (sorted_of result) }
{
    let levels = diagram.levels.as_slice();
    let mut row = 0;
    for i in 0..sorts.len() {
        row = next_row(places, levels, i, row, sorts[i]);
    }
    end_at(diagram.ends.as_slice(), row)
}

/// The same of an operator with two arguments.
pub fn on_two(places: &[usize], diagram: &Diagram, first: Sorted, second: Sorted) -> Sorted
    ensures { (sig : SignatureOf) (o : OperatorOf) (K L : ℕ) → IsDiagram sig places.now o diagram.now
        → o.args ≡ K ∷ L ∷ []
        → IsOfKind sig K (sorted_of first) → IsOfKind sig L (sorted_of second)
        → IsResultOn sig o (sorted_of first ∷ sorted_of second ∷ []) (sorted_of result) }
{
    result_on(places, diagram, &[first, second])
}
