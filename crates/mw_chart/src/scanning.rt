// Texts that begin with a token, and the whole ones.
ghost use Rattle.std.specs.Prelude.{◌≡◌, ◌≤◌, ◌<◌, ◌↔◌, ◌⊎◌, ◌-◌, ◌+◌, ℕ, IfOk, IfSome, IfNone, IsTrue, Some, length};
ghost use Rattle.std.specs.List.{slice_get};
ghost use Rattle.mw_chart.specs.declared.table.Next.TheVariants.{Whole};
ghost use Rattle.mw_chart.specs.Spelling.{NextAt, IsTable};
ghost use Rattle.mw_chart.specs.Chart.{Holds, Adds, CellsHold, RowHolds, IsPut, KeepsItem, KeepsCell, ScansProduction, ScansProductions, ScansLeaves, Scans, GroupsBy, GroupsAny, IsWithin};

use crate::cell::{put_at, stands, token_of, whole_of};
use crate::item::{ChartItem, Constituent};
use crate::numbered::listed;
use crate::table::{Next, Production, Table};
use crate::terminal::Terminal;
use crate::tree::Tree;
use std::alloc::{AllocError, Global};

/// Keeps an item as a constituent, where its text is whole.
fn keep_item(
    table: &Table,
    at: usize,
    item: &ChartItem,
    row: &mut Vec<Constituent>,
) -> Result<(), AllocError>
    ensures { IfOk result (λ _. Adds (RowHolds row.old.items) (RowHolds row.new.items) (KeepsItem table.now at item.now)) }
{
    match whole_of(table, item.state) {
        Some(_whole) => {
            let tree = item.tree.again()?;
            row.push(Constituent {
                end: at,
                state: item.state,
                tree,
            })?;
            Ok(())
        }
        None => Ok(()),
    }
}

/// Keeps the whole texts of a cell as constituents.
pub fn keep_cell(
    table: &Table,
    at: usize,
    cell: &Vec<ChartItem>,
    row: &mut Vec<Constituent>,
) -> Result<(), AllocError>
    ensures { IfOk result (λ _. Adds (RowHolds row.old.items) (RowHolds row.new.items) (KeepsCell table.now at cell.now.items)) }
{
    for item in cell {
        keep_item(table, at, item, row)?;
    }
    Ok(())
}

fn scan_production(
    alloc: Global,
    table: &Table,
    text: &[Terminal],
    i: usize,
    production: &Production,
    cells: &mut Vec<Vec<ChartItem>>,
) -> Result<(), AllocError>
    requires below { i < length text.now }
    requires shape { i + length cells.old.items ≡ length text.now }
    ensures len { length cells.new.items ≡ length cells.old.items }
    ensures ok { IfOk result (λ _. Adds (CellsHold cells.old.items) (CellsHold cells.new.items) (ScansProduction table.now text.now i production.now)) }
{
    if let Some((token, next)) = token_of(table, production.state) {
        if stands(text, i, token) {
            let head = Tree::head(alloc, production.operator)?;
            put_at(cells, text.len() - i - 1, next, head)?;
        }
    }
    Ok(())
}

/// Begins the operators' texts whose first token stands at the place.
fn scan_productions(
    alloc: Global,
    table: &Table,
    text: &[Terminal],
    i: usize,
    cells: &mut Vec<Vec<ChartItem>>,
) -> Result<(), AllocError>
    requires table { IsTable table.now }
    requires below { i < length text.now }
    requires shape { i + length cells.old.items ≡ length text.now }
    ensures len { length cells.new.items ≡ length cells.old.items }
    ensures ok { IfOk result (λ _. Adds (CellsHold cells.old.items) (CellsHold cells.new.items) (ScansProductions table.now text.now i)) }
{
    let productions = listed(&table.corners.by_token, text[i].token as usize);
    for production in productions {
        scan_production(alloc, table, text, i, production, cells)?;
    }
    Ok(())
}

/// Puts what a terminal spells by itself.
fn scan_leaves(
    alloc: Global,
    text: &[Terminal],
    i: usize,
    terminal: &Terminal,
    cells: &mut Vec<Vec<ChartItem>>,
) -> Result<(), AllocError>
    requires below { i < length text.now }
    requires shape { i + length cells.old.items ≡ length text.now }
    ensures len { length cells.new.items ≡ length cells.old.items }
    ensures ok { IfOk result (λ _. Adds (CellsHold cells.old.items) (CellsHold cells.new.items) (ScansLeaves text.now i terminal.now)) }
{
    for leaf in &terminal.leaves {
        put_at(
            cells,
            text.len() - i - 1,
            leaf.state,
            Tree::leaf(alloc, leaf.value)?,
        )?;
    }
    Ok(())
}

/// Begins the texts whose first token stands at the place.
pub fn scan(
    alloc: Global,
    table: &Table,
    text: &[Terminal],
    i: usize,
    cells: &mut Vec<Vec<ChartItem>>,
) -> Result<(), AllocError>
    requires table { IsTable table.now }
    requires below { i < length text.now }
    requires shape { i + length cells.old.items ≡ length text.now }
    ensures len { length cells.new.items ≡ length cells.old.items }
    ensures ok { IfOk result (λ _. Adds (CellsHold cells.old.items) (CellsHold cells.new.items) (Scans table.now text.now i)) }
{
    scan_productions(alloc, table, text, i, cells)?;
    scan_leaves(alloc, text, i, &text[i], cells)
}

/// The state of a text in parentheses.
fn group_of(table: &Table, state: usize) -> Option<usize>
    ensures some { IfSome result (λ s. (kind precedence : ℕ) × NextAt table.now state (Whole kind precedence) × (slice_get table.now.groups.items kind ≡ Some s)) }
    ensures none { IfNone result ((kind precedence s : ℕ) → NextAt table.now state (Whole kind precedence) → slice_get table.now.groups.items kind ≡ Some s → ⊥) }
{
    match whole_of(table, state) {
        Some((kind, _precedence)) => {
            let kind = kind as usize;
            if kind < table.groups.len() {
                Some(table.groups[kind])
            } else {
                None
            }
        }
        None => None,
    }
}

fn group_by(
    table: &Table,
    text: &[Terminal],
    i: usize,
    constituent: &Constituent,
    cells: &mut Vec<Vec<ChartItem>>,
) -> Result<(), AllocError>
    requires begin { i < constituent.now.end }
    requires shape { i + length cells.old.items ≡ length text.now }
    ensures len { length cells.new.items ≡ length cells.old.items }
    ensures ok { IfOk result (λ _. Adds (CellsHold cells.old.items) (CellsHold cells.new.items) (GroupsBy table.now text.now constituent.now)) }
{
    if stands(text, constituent.end, table.close) {
        match group_of(table, constituent.state) {
            Some(state) => put_at(
                cells,
                text.len() - constituent.end - 1,
                state,
                constituent.tree.again()?,
            ),
            None => Ok(()),
        }
    } else {
        Ok(())
    }
}

/// Puts the constituents of a row that stand in parentheses.
pub fn group(
    table: &Table,
    text: &[Terminal],
    i: usize,
    row: &Vec<Constituent>,
    cells: &mut Vec<Vec<ChartItem>>,
) -> Result<(), AllocError>
    requires within { IsWithin row.now.items i (length text.now) }
    requires shape { i + length cells.old.items ≡ length text.now }
    ensures len { length cells.new.items ≡ length cells.old.items }
    ensures ok { IfOk result (λ _. Adds (CellsHold cells.old.items) (CellsHold cells.new.items) (GroupsAny table.now text.now row.now.items)) }
{
    for constituent in row {
        group_by(table, text, i, constituent, cells)?;
    }
    Ok(())
}
