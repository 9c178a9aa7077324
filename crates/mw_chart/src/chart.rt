// Rows: the constituents that begin at each place.
ghost use Rattle.std.specs.Prelude.{◌≡◌, ◌≤◌, ◌<◌, ◌-◌, ◌+◌, ℕ, IfOk, length};
ghost use Rattle.mw_chart.specs.Chart.{IsRow, IsCell, IsCells, AreFirst};
ghost use Rattle.mw_chart.specs.Row.{IsIndexed, AreFull, AreBare, AreRows, AreBehind};
ghost use Rattle.mw_chart.specs.Spelling.{IsTable};

use crate::cell::stands;
use crate::completing::{Agenda, advance_cell};
use crate::item::{ChartItem, Constituent};
use crate::numbered::grow;
use crate::predicting::predict;
use crate::row::{ChartRow, indexed};
use crate::scanning::{group, keep_cell, scan};
use crate::table::Table;
use crate::terminal::Terminal;
use std::alloc::{AllocError, Global};

/// No ends are full yet.
fn agenda_of(alloc: Global, cells: Vec<Vec<ChartItem>>) -> Agenda
    ensures cells { result.cells ≡ cells }
    ensures full { (n : ℕ) → AreFull n result.full.items result.cells.items }
{
    let full = Vec::new(alloc);
    Agenda { cells, full }
}

/// Rows without constituents.
fn empty_rows(alloc: Global, count: usize) -> Result<Vec<ChartRow>, AllocError>
    ensures { IfOk result (λ rows. AreBare count rows.items) }
{
    let mut rows = Vec::with_capacity(alloc, count)?;
    for i in 0..count {
        rows.push(ChartRow {
            constituents: Vec::new(alloc),
            places: Vec::new(alloc),
            strips: Vec::new(alloc),
        })?;
    }
    Ok(rows)
}

/// The cells of a place with the texts that begin with a token or a parenthesis.
fn first_cells(
    alloc: Global,
    table: &Table,
    text: &[Terminal],
    rows: &Vec<ChartRow>,
    i: usize,
) -> Result<Vec<Vec<ChartItem>>, AllocError>
    requires { AreBehind table.now text.now i rows.now.items }
    ensures { IfOk result (λ cells. AreFirst table.now text.now i cells.items) }
{
    let mut cells = Vec::new(alloc);
    grow(alloc, &mut cells, text.len() - i)?;
    scan(alloc, table, text, i, &mut cells)?;
    if stands(text, i, table.open) {
        group(table, text, i, &rows[i + 1].constituents, &mut cells)?;
    }
    Ok(cells)
}

/// Goes on from the texts that end at a place.
fn turn(
    alloc: Global,
    table: &Table,
    text: &[Terminal],
    next: &ChartRow,
    i: usize,
    at: usize,
    cell: &Vec<ChartItem>,
    agenda: &mut Agenda,
    constituents: &mut Vec<Constituent>,
) -> Result<(), AllocError>
    requires table { IsTable table.now }
    requires short { length text.now ≤ 1024 }
    requires begin { i < at }
    requires shape { at + length agenda.old.cells.items ≡ length text.now }
    requires next { IsRow table.now text.now at (length text.now) next.now.constituents.items }
    requires indexed { IsIndexed next.now }
    requires cell { IsCell table.now text.now i (at - 1) at cell.now.items }
    requires cells { IsCells table.now text.now i (at - 1) agenda.old.cells.items }
    requires full { AreFull (length text.now) agenda.old.full.items agenda.old.cells.items }
    requires constituents { IsRow table.now text.now i (at - 1) constituents.old.items }
    ensures len { IfOk result (λ _. length agenda.new.cells.items ≡ length agenda.old.cells.items) }
    ensures cells { IfOk result (λ _. IsCells table.now text.now i at agenda.new.cells.items) }
    ensures full { IfOk result (λ _. AreFull (length text.now) agenda.new.full.items agenda.new.cells.items) }
    ensures constituents { IfOk result (λ _. IsRow table.now text.now i at constituents.new.items) }
{
    prove!(i < at);
    keep_cell(table, at, cell, constituents)?;
    let predicted = predict(alloc, table, text, at, cell)?;
    advance_cell(alloc, table, text, next, at, cell, agenda)?;
    advance_cell(alloc, table, text, next, at, &predicted, agenda)?;
    Ok(())
}

/// The constituents that begin at a place, from those that begin behind it.
fn constituents_at(
    alloc: Global,
    table: &Table,
    text: &[Terminal],
    rows: &Vec<ChartRow>,
    i: usize,
) -> Result<Vec<Constituent>, AllocError>
    requires { AreBehind table.now text.now i rows.now.items }
    ensures { IfOk result (λ constituents. IsRow table.now text.now i (length text.now) constituents.items) }
{
    let cells = first_cells(alloc, table, text, rows, i)?;
    let mut agenda = agenda_of(alloc, cells);
    let mut constituents = Vec::new(alloc);
    while let Some(cell) = agenda.cells.pop() {
        let at = text.len() - agenda.cells.len();
        turn(
            alloc,
            table,
            text,
            &rows[at],
            i,
            at,
            &cell,
            &mut agenda,
            &mut constituents,
        )?;
    }
    Ok(constituents)
}

/// The row of a place, from those behind it.
fn row_at(
    alloc: Global,
    table: &Table,
    text: &[Terminal],
    rows: &Vec<ChartRow>,
    i: usize,
) -> Result<ChartRow, AllocError>
    requires { AreBehind table.now text.now i rows.now.items }
    ensures row { IfOk result (λ row. IsRow table.now text.now i (length text.now) row.constituents.items) }
    ensures indexed { IfOk result IsIndexed }
{
    let constituents = constituents_at(alloc, table, text, rows, i)?;
    indexed(alloc, constituents)
}

/// The constituents at each place.
pub fn chart_of(
    alloc: Global,
    table: &Table,
    text: &[Terminal],
) -> Result<Vec<ChartRow>, AllocError>
    requires table { IsTable table.now }
    requires short { length text.now ≤ 1024 }
    ensures count { IfOk result (λ rows. length rows.items ≡ length text.now + 1) }
    ensures rows { IfOk result (λ rows. AreRows table.now text.now 0 rows.items) }
{
    let mut rows = empty_rows(alloc, text.len() + 1)?;
    let mut i = text.len();
    while i > 0 {
        i -= 1;
        let row = row_at(alloc, table, text, &rows, i)?;
        rows[i] = row;
    }
    Ok(rows)
}
