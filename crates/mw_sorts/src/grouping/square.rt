// What an operator with two arguments of one kind gives on all sorts of this kind.
ghost use Rattle.std.specs.Prelude.{◌≡◌, ◌<◌, ℕ, length, map, slice_get, Some, IfOk, IsTrue};
ghost use Rattle.mw_logic.specs.Signature.{IsOperator};
ghost use Rattle.mw_term.specs.Signatures.{sorted_of};
ghost use Rattle.mw_sorts.specs.Diagrams.{Level, IsDiagram};
ghost use Rattle.mw_sorts.specs.Sorting.{AreEntriesOf};
ghost use Rattle.mw_sorts.specs.Groupings.{IsOrderSorted};
ghost use Rattle.mw_sorts.specs.Squares.{IsSquare, IsSquareOf, width, product};
ghost use Rattle.mw_sorts.specs.Squares.{AreRowsOf, IsColumnOf, AreTurned, IsTurnedRow};

use crate::diagram::Diagram;
use crate::look_up::{end_at, next_row, place};
use crate::sorting::Sorting;
use crate::states::States;
use mw_term::{Operator, Seq, Sorted};
use std::alloc::{AllocError, Global};

/// The row and the column of each place, and the places of results: for each row one for each column.
#[derive(Drop)]
pub struct Square {
    pub rows: Vec<usize>,
    pub columns: Vec<usize>,
    results: Seq<Seq<usize>>,
}

impl Square {
    /// The place of the result on what stands at two places.
    pub fn product(&self, first: usize, second: usize) -> usize
        requires square { IsSquare self.now }
        requires first { first < width self.now }
        requires second { second < width self.now }
        ensures product { result ≡ product self.now first second }
        ensures within { result < width self.now }
    {
        self.results.as_slice()[self.rows[first]].as_slice()[self.columns[second]]
    }
}

/// The square of an associative operator, by its diagram, and of the entries of its kind.
pub fn square_of(
    alloc: Global,
    sorting: &Sorting<'_>,
    operator: &Operator,
    diagram: &Diagram,
    entries: &[Sorted],
) -> Result<Box<Square>, AllocError>
    requires order_sorted { IsOrderSorted sorting.now.signature }
    requires operator { (f : ℕ) × IsOperator sorting.now.signature f operator.now }
    requires assoc { IsTrue operator.now.assoc }
    requires diagram { IsDiagram sorting.now.signature sorting.now.places operator.now diagram.now }
    requires entries { AreEntriesOf sorting.now operator.now.result (map sorted_of entries.now) }
    ensures { IfOk result (λ q. IsSquareOf sorting.now operator.now (map sorted_of entries.now) q.value) }
{
    let places = sorting.places();
    let rows = all_rows(alloc, places, diagram, entries)?;
    let mut columns = Vec::with_capacity(alloc, entries.len())?;
    let mut lists = States::new(alloc);
    for entry in entries {
        let column = column(alloc, places, diagram, entries.len(), *entry)?;
        columns.push(lists.number(column)?)?;
    }
    let results = turned(alloc, second_height(diagram), &lists)?;
    let square = Square {
        rows,
        columns,
        results,
    };
    Ok(Box::new(alloc, square)?)
}

// The rows of all entries.
fn all_rows(
    alloc: Global,
    places: &[usize],
    diagram: &Diagram,
    entries: &[Sorted],
) -> Result<Vec<usize>, AllocError>
    ensures { IfOk result (λ rows. AreRowsOf places.now diagram.now (map sorted_of entries.now) rows.items) }
{
    let levels = diagram.levels.as_slice();
    let mut rows = Vec::with_capacity(alloc, entries.len())?;
    for entry in entries {
        rows.push(next_row(places, levels, 0, 0, *entry))?;
    }
    Ok(rows)
}

// The places of the results from all rows, with this sort as second argument.
fn column(
    alloc: Global,
    places: &[usize],
    diagram: &Diagram,
    width: usize,
    sort: Sorted,
) -> Result<Vec<usize>, AllocError>
    ensures { IfOk result (λ column. IsColumnOf places.now diagram.now width (sorted_of sort) column.items) }
{
    let levels = diagram.levels.as_slice();
    let height = second_height(diagram);
    let mut column = Vec::with_capacity(alloc, height)?;
    for row in 0..height {
        let end = next_row(places, levels, 1, row, sort);
        let result = end_at(diagram.ends.as_slice(), end);
        column.push(place(places, result, width))?;
    }
    Ok(column)
}

// The first rows of these lists turned round.
fn turned(alloc: Global, height: usize, lists: &States) -> Result<Seq<Seq<usize>>, AllocError>
    ensures { IfOk result (AreTurned height lists.now) }
{
    let mut rows = Vec::with_capacity(alloc, height)?;
    for row in 0..height {
        rows.push(turned_row(alloc, row, lists)?)?;
    }
    Ok(Seq::of(rows))
}

// What stands at a place of each list.
fn turned_row(alloc: Global, row: usize, lists: &States) -> Result<Seq<usize>, AllocError>
    ensures { IfOk result (IsTurnedRow lists.now row) }
{
    let mut cells = Vec::with_capacity(alloc, lists.len())?;
    for number in 0..lists.len() {
        cells.push(number_at_place(lists.get(number), row))?;
    }
    Ok(Seq::of(cells))
}

// What stands at a place, if something does.
fn number_at_place(list: &[usize], place: usize) -> usize
    ensures { (p : ℕ) → slice_get list.now place ≡ Some p → result ≡ p }
{
    match list.get(place) {
        Some(number) => *number,
        None => 0,
    }
}

// How many rows there are for the second argument.
fn second_height(diagram: &Diagram) -> usize
    ensures { (level : Level) → slice_get diagram.now.levels 1 ≡ Some level → result ≡ length level }
{
    match diagram.levels.as_slice() {
        [_, level, ..] => level.as_slice().len(),
        _ => 0,
    }
}
