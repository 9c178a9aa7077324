// Goes one step on from items: over a token, or over a hole by the constituents of a row, past the ends that need no
// further tree.
ghost use Rattle.std.specs.Prelude.{◌≡◌, ◌≤◌, ◌<◌, ◌+◌, ◌^◌, ℕ, IfOk, length};
ghost use Rattle.mw_chart.specs.Bits.{IsSet};
ghost use Rattle.mw_chart.specs.Chart.{Adds, CellsHold, CompletesBy, Completes, Advances, AdvancesCell};
ghost use Rattle.mw_chart.specs.Row.{IsReady, AreFull, CompletesAt, IsInWord, Grows, Covers};

use crate::bits::{insert, open_of, without_lowest, word_of};
use crate::cell::{is_full, next_of, put_at, stands, takes};
use crate::item::{ChartItem, Constituent};
use crate::numbered::{grow, listed};
use crate::row::{ChartRow, Strip};
use crate::table::{Next, Table};
use crate::terminal::Terminal;
use crate::tree::Tree;
use std::alloc::{AllocError, Global};

/// What lies ahead of a place: the cells of the ends to come, and for each state, up to the largest that has some, ends
/// that need no further tree.
#[derive(Drop)]
pub struct Agenda {
    pub cells: Vec<Vec<ChartItem>>,
    pub full: Vec<Vec<u64>>,
}

/// An item that has come to a hole, the state behind it, and the row of a text of n tokens that has what may fill it.
#[derive(Clone, Copy)]
struct Completion<'a> {
    table: &'a Table,
    row: &'a ChartRow,
    n: usize,
    kind: u32,
    below: u32,
    next: usize,
    tree: &'a Tree,
}

/// Puts the tree with a constituent as its next argument.
fn complete_by(
    alloc: Global,
    over: Completion<'_>,
    constituent: &Constituent,
    cells: &mut Vec<Vec<ChartItem>>,
) -> Result<(), AllocError>
    requires end { constituent.now.end ≤ over.n }
    requires within { over.n < constituent.now.end + length cells.old.items }
    ensures len { length cells.new.items ≡ length cells.old.items }
    ensures ok { IfOk result (λ _. Adds (CellsHold cells.old.items) (CellsHold cells.new.items) (CompletesBy over.entry.table.now constituent.now over.entry.n over.entry.kind over.entry.below over.entry.next over.entry.tree.now)) }
{
    let at = over.n - constituent.end;
    if !is_full(&cells[at], over.next)
        && takes(over.table, constituent.state, over.kind, over.below)
    {
        let whole = over.tree.with(alloc, &constituent.tree)?;
        put_at(cells, at, over.next, whole)?;
    }
    Ok(())
}

/// Marks an end where the state behind the hole has two trees.
fn mark(
    alloc: Global,
    over: Completion<'_>,
    end: usize,
    agenda: &mut Agenda,
) -> Result<(), AllocError>
    requires end { end ≤ over.n }
    requires within { over.n < end + length agenda.old.cells.items }
    requires full { AreFull over.n agenda.old.full.items agenda.old.cells.items }
    ensures cells { agenda.new.cells ≡ agenda.old.cells }
    ensures full { IfOk result (λ _. AreFull over.entry.n agenda.new.full.items agenda.new.cells.items) }
{
    if over.next < over.table.steps.len() && is_full(&agenda.cells[over.n - end], over.next) {
        grow(alloc, &mut agenda.full, over.next + 1)?;
        insert(&mut agenda.full[over.next], end)?;
    }
    Ok(())
}

/// Puts the tree with the constituent at an index.
fn complete_at(
    alloc: Global,
    over: Completion<'_>,
    place: usize,
    agenda: &mut Agenda,
) -> Result<(), AllocError>
    requires { IsReady over.n (length agenda.old.cells.items) over.row.now agenda.old }
    ensures ready { IfOk result (λ _. IsReady over.entry.n (length agenda.old.cells.items) over.entry.row.now agenda.new) }
    ensures ok { IfOk result (λ _. Adds (CellsHold agenda.old.cells.items) (CellsHold agenda.new.cells.items) (CompletesAt over.entry.table.now over.entry.row.now.constituents.items over.entry.n over.entry.kind over.entry.below over.entry.next over.entry.tree.now place)) }
{
    if place < over.row.constituents.len() {
        let constituent = &over.row.constituents[place];
        complete_by(alloc, over, constituent, &mut agenda.cells)?;
        mark(alloc, over, constituent.end, agenda)?;
    }
    Ok(())
}

/// Puts the tree with each constituent that ends at a place.
fn complete_end(
    alloc: Global,
    over: Completion<'_>,
    end: usize,
    agenda: &mut Agenda,
) -> Result<(), AllocError>
    requires { IsReady over.n (length agenda.old.cells.items) over.row.now agenda.old }
    ensures ready { IfOk result (λ _. IsReady over.entry.n (length agenda.old.cells.items) over.entry.row.now agenda.new) }
    ensures grows { IfOk result (λ _. Grows (CellsHold agenda.old.cells.items) (CellsHold agenda.new.cells.items) (Completes over.entry.table.now over.entry.row.now.constituents.items over.entry.n over.entry.kind over.entry.below over.entry.next over.entry.tree.now)) }
    ensures covers { IfOk result (λ _. Covers (CellsHold agenda.new.cells.items) over.entry.table.now over.entry.row.now.constituents.items over.entry.n over.entry.kind over.entry.below over.entry.next over.entry.tree.now (λ r. r.end ≡ end)) }
{
    for place in listed(&over.row.places, end) {
        complete_at(alloc, over, *place, agenda)?;
    }
    Ok(())
}

/// Puts the tree with each constituent that ends at an end of a word.
fn complete_word(
    alloc: Global,
    over: Completion<'_>,
    index: usize,
    word: u64,
    agenda: &mut Agenda,
) -> Result<(), AllocError>
    requires index { index ≤ 2 ^ 32 }
    requires ready { IsReady over.n (length agenda.old.cells.items) over.row.now agenda.old }
    ensures ready { IfOk result (λ _. IsReady over.entry.n (length agenda.old.cells.items) over.entry.row.now agenda.new) }
    ensures grows { IfOk result (λ _. Grows (CellsHold agenda.old.cells.items) (CellsHold agenda.new.cells.items) (Completes over.entry.table.now over.entry.row.now.constituents.items over.entry.n over.entry.kind over.entry.below over.entry.next over.entry.tree.now)) }
    ensures covers { IfOk result (λ _. Covers (CellsHold agenda.new.cells.items) over.entry.table.now over.entry.row.now.constituents.items over.entry.n over.entry.kind over.entry.below over.entry.next over.entry.tree.now (IsInWord index word)) }
{
    let mut left = word;
    while left != 0 {
        let end = index * 64 + left.trailing_zeros() as usize;
        left = without_lowest(left);
        complete_end(alloc, over, end, agenda)?;
    }
    Ok(())
}

/// Puts the tree with each constituent of a strip that the hole takes, past the ends that are full.
fn complete_strip(
    alloc: Global,
    over: Completion<'_>,
    strip: &Strip,
    agenda: &mut Agenda,
) -> Result<(), AllocError>
    requires { IsReady over.n (length agenda.old.cells.items) over.row.now agenda.old }
    ensures ready { IfOk result (λ _. IsReady over.entry.n (length agenda.old.cells.items) over.entry.row.now agenda.new) }
    ensures grows { IfOk result (λ _. Grows (CellsHold agenda.old.cells.items) (CellsHold agenda.new.cells.items) (Completes over.entry.table.now over.entry.row.now.constituents.items over.entry.n over.entry.kind over.entry.below over.entry.next over.entry.tree.now)) }
    ensures covers { IfOk result (λ _. Covers (CellsHold agenda.new.cells.items) over.entry.table.now over.entry.row.now.constituents.items over.entry.n over.entry.kind over.entry.below over.entry.next over.entry.tree.now (λ r. (strip.now.state ≡ r.state) × IsSet strip.now.ends.items r.end)) }
{
    if !takes(over.table, strip.state, over.kind, over.below) {
        return Ok(());
    }
    let first = (over.n - agenda.cells.len()) / 64;
    for index in first..over.n / 64 + 1 {
        let full = word_of(listed(&agenda.full, over.next), index);
        let word = open_of(word_of(strip.ends.as_slice(), index), full);
        complete_word(alloc, over, index, word, agenda)?;
    }
    Ok(())
}

/// Puts the tree with each constituent of the row that the hole takes.
fn complete(alloc: Global, over: Completion<'_>, agenda: &mut Agenda) -> Result<(), AllocError>
    requires { IsReady over.n (length agenda.old.cells.items) over.row.now agenda.old }
    ensures ready { IfOk result (λ _. IsReady over.entry.n (length agenda.old.cells.items) over.entry.row.now agenda.new) }
    ensures ok { IfOk result (λ _. Adds (CellsHold agenda.old.cells.items) (CellsHold agenda.new.cells.items) (Completes over.entry.table.now over.entry.row.now.constituents.items over.entry.n over.entry.kind over.entry.below over.entry.next over.entry.tree.now)) }
{
    for strip in &over.row.strips {
        complete_strip(alloc, over, strip, agenda)?;
    }
    Ok(())
}

/// Goes one step on from a text begun.
fn advance(
    alloc: Global,
    table: &Table,
    text: &[Terminal],
    row: &ChartRow,
    at: usize,
    state: usize,
    tree: &Tree,
    agenda: &mut Agenda,
) -> Result<(), AllocError>
    requires shape { at + length agenda.old.cells.items ≡ length text.now }
    requires ready { IsReady (length text.now) (length agenda.old.cells.items) row.now agenda.old }
    ensures ready { IfOk result (λ _. IsReady (length text.now) (length agenda.old.cells.items) row.now agenda.new) }
    ensures ok { IfOk result (λ _. Adds (CellsHold agenda.old.cells.items) (CellsHold agenda.new.cells.items) (Advances table.now text.now row.now.constituents.items at state tree.now)) }
{
    match next_of(table, state) {
        Some(Next::Token { token, next }) => {
            if stands(text, at, token) {
                put_at(&mut agenda.cells, text.len() - at - 1, next, tree.again()?)?;
            }
            Ok(())
        }
        Some(Next::Hole { kind, below, next }) => {
            let over = Completion {
                table,
                row,
                n: text.len(),
                kind,
                below,
                next,
                tree,
            };
            complete(alloc, over, agenda)
        }
        Some(
            Next::Whole {
                kind: _kind,
                precedence: _precedence,
            },
        ) => Ok(()),
        None => Ok(()),
    }
}

/// Goes one step on from the texts begun of a cell.
pub fn advance_cell(
    alloc: Global,
    table: &Table,
    text: &[Terminal],
    row: &ChartRow,
    at: usize,
    cell: &Vec<ChartItem>,
    agenda: &mut Agenda,
) -> Result<(), AllocError>
    requires shape { at + length agenda.old.cells.items ≡ length text.now }
    requires ready { IsReady (length text.now) (length agenda.old.cells.items) row.now agenda.old }
    ensures ready { IfOk result (λ _. IsReady (length text.now) (length agenda.old.cells.items) row.now agenda.new) }
    ensures ok { IfOk result (λ _. Adds (CellsHold agenda.old.cells.items) (CellsHold agenda.new.cells.items) (AdvancesCell table.now text.now row.now.constituents.items at cell.now.items)) }
{
    for item in cell {
        advance(alloc, table, text, row, at, item.state, &item.tree, agenda)?;
    }
    Ok(())
}
