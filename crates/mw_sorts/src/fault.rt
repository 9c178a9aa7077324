// The first sorts on which an operator lacks a least result.
ghost use Rattle.std.specs.Prelude.{◌≡◌, ◌<◌, ℕ, true, false, List, map, length, is_none, slice_get, slice_index_or, Some, IfOk, option_map};
ghost use Rattle.mw_logic.specs.Signature.{Sorted as SortedOf};
ghost use Rattle.mw_logic.specs.Preregular.{AreOfKinds};
ghost use Rattle.mw_term.specs.Signatures.{sorted_of};
ghost use Rattle.mw_sorts.specs.Results.{LacksLeastResult};
ghost use Rattle.mw_sorts.specs.Marks.{AreLinked, IsDrawn, is_marked, marks_behind, IsFirstMarked, IsFirstStep};
ghost use Rattle.mw_sorts.specs.Faults.{IsFirstLack};

use crate::diagram::{Drawing, Level, Row};
use crate::sorting::Sorting;
use mw_term::{Operator, Seq, Sorted};
use std::alloc::{AllocError, Global};

// Which results lack.
fn missing(alloc: Global, ends: &[Option<Sorted>]) -> Result<Vec<bool>, AllocError>
    ensures { IfOk result (λ marks. marks.items ≡ map is_none ends.now) }
{
    let mut marks = Vec::with_capacity(alloc, ends.len())?;
    for end in ends {
        marks.push(end.is_none())?;
    }
    Ok(marks)
}

// The first place of a row that leads to a mark, if there is one.
fn first_marked(row: &[usize], marks: &[bool]) -> Option<usize>
    requires { (p next : ℕ) → slice_get row.now p ≡ Some next → next < length marks.now }
    ensures { IsFirstMarked row.now marks.now result }
{
    for (place, next) in row.iter().enumerate() {
        if marks[*next] {
            return Some(place);
        }
    }
    None
}

// Which rows of a level lead to a mark.
fn level_marks(alloc: Global, level: &[Row], next: &[bool]) -> Result<Vec<bool>, AllocError>
    requires { (q : ℕ) (row : List ℕ) (p n : ℕ) → slice_get level.now q ≡ Some row → slice_get row p ≡ Some n → n < length next.now }
    ensures { IfOk result (λ marks. marks.items ≡ map (is_marked next.now) level.now) }
{
    let mut marks = Vec::with_capacity(alloc, level.len())?;
    for row in level {
        marks.push(first_marked(row.as_slice(), next).is_some())?;
    }
    Ok(marks)
}

// The marks behind each level, those behind the first one last.
fn all_marks(
    alloc: Global,
    levels: &[Level],
    ends: &[Option<Sorted>],
) -> Result<Vec<Seq<bool>>, AllocError>
    requires { AreLinked levels.now (length ends.now) }
    ensures { IfOk result (λ behind. behind.items ≡ marks_behind levels.now (map is_none ends.now)) }
{
    let mut behind = Vec::with_capacity(alloc, levels.len())?;
    let mut marks = missing(alloc, ends)?;
    let mut rest = levels;
    while let [before @ .., level] = rest {
        let next = marks;
        marks = level_marks(alloc, level.as_slice(), next.as_slice())?;
        behind.push(Seq::of(next))?;
        rest = before;
    }
    Ok(behind)
}

// From row `state` of a level the first entry that leads to a mark, and the row of the next level that it leads to.
fn first_step(level: &[Row], entries: &[Sorted], state: usize, marks: &[bool]) -> (Sorted, usize)
    requires wide { (q : ℕ) (row : List ℕ) → slice_get level.now q ≡ Some row → length row ≡ length entries.now }
    requires linked { (q : ℕ) (row : List ℕ) (p n : ℕ) → slice_get level.now q ≡ Some row → slice_get row p ≡ Some n → n < length marks.now }
    requires marked { slice_index_or (map (is_marked marks.now) level.now) state false ≡ true }
    ensures { IsFirstStep level.now marks.now state (map sorted_of entries.now) (sorted_of result.0) result.1 }
{
    let row = level[state].as_slice();
    match first_marked(row, marks) {
        Some(place) => (entries[place], row[place]),
        None => unreachable!(),
    }
}

/// The first sorts on which an operator lacks a least result.
pub fn first_fault(
    alloc: Global,
    sorting: &Sorting<'_>,
    operator: &Operator,
    drawing: &Drawing,
) -> Result<Vec<Sorted>, AllocError>
    requires drawn { IsDrawn sorting.now operator.now drawing.now.levels (map (map sorted_of) drawing.now.entries) (map (option_map sorted_of) drawing.now.ends) }
    requires lacks { (Ss : List SortedOf) × AreOfKinds sorting.now.signature Ss operator.now.args × LacksLeastResult sorting.now.signature operator.now Ss }
    ensures { IfOk result (λ sorts. IsFirstLack sorting.now.signature operator.now (map sorted_of sorts.items)) }
{
    let levels = drawing.levels.as_slice();
    let lists = drawing.entries.as_slice();
    let behind = all_marks(alloc, levels, drawing.ends.as_slice())?;
    let mut sorts = Vec::with_capacity(alloc, levels.len())?;
    let mut state = 0;
    for i in 0..levels.len() {
        let level = levels[i].as_slice();
        let marks = behind[levels.len() - 1 - i].as_slice();
        let (sort, next) = first_step(level, lists[i].as_slice(), state, marks);
        sorts.push(sort)?;
        state = next;
    }
    Ok(sorts)
}
