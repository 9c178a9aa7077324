// The cells of the chart: the items of a place and an end; and what comes next at a state.
ghost use Rattle.std.specs.Prelude.{◌≡◌, ◌≤◌, ◌<◌, ◌↔◌, ◌⊎◌, ◌-◌, ◌+◌, ℕ, IfOk, IfSome, IfNone, IsTrue, length};
ghost use Rattle.std.specs.List.{slice_get};
ghost use Rattle.mw_chart.specs.declared.item.ChartItem.{ChartItem};
ghost use Rattle.mw_chart.specs.declared.table.Next.TheVariants.{Token, Whole};
ghost use Rattle.mw_chart.specs.Tree.{Tree};
ghost use Rattle.mw_chart.specs.Spelling.{NextAt, TokenAt};
ghost use Rattle.mw_chart.specs.Chart.{Has, HasTwo, Holds, Puts, Adds, CellsHold, IsPut, CompletesBy, Completes, Advances, AdvancesItem, AdvancesCell, IsWithin};

use crate::item::{ChartItem, Constituent};
use crate::table::{Next, Table};
use crate::terminal::Terminal;
use crate::tree::Tree;
use std::alloc::{AllocError, Global};

/// Where the first item at a state is, from a place on.
fn item_from(cell: &Vec<ChartItem>, from: usize, state: usize) -> Option<usize>
    ensures { IfSome result (λ k. (item : ChartItem) × (slice_get cell.now.items k ≡ Some item) × (item.state ≡ state)) }
{
    for k in from..cell.len() {
        if cell[k].state == state {
            return Some(k);
        }
    }
    None
}

/// Whether a cell needs no further tree at a state.
pub fn is_full(cell: &Vec<ChartItem>, state: usize) -> bool
    ensures { IsTrue result → HasTwo (Holds cell.now.items state) }
{
    if let Some(one) = item_from(cell, 0, state) {
        if let Some(other) = item_from(cell, one + 1, state) {
            return !cell[one].tree.same(&cell[other].tree);
        }
    }
    false
}

/// Whether a cell has a tree at a state, or two different ones.
fn has(cell: &Vec<ChartItem>, state: usize, tree: &Tree) -> bool
    ensures { IsTrue result → Has (Holds cell.now.items state) tree.now }
{
    match item_from(cell, 0, state) {
        Some(k) => cell[k].tree.same(tree) || is_full(cell, state),
        None => false,
    }
}

/// Puts a tree into a cell, unless it is there or two are.
pub fn put(cell: &mut Vec<ChartItem>, state: usize, tree: Tree) -> Result<(), AllocError>
    ensures { IfOk result (λ _. Puts (Holds cell.old.items) (Holds cell.new.items) state tree) }
{
    if !has(cell, state, &tree) {
        cell.push(ChartItem { state, tree })?;
    }
    Ok(())
}

pub fn put_at(
    cells: &mut Vec<Vec<ChartItem>>,
    at: usize,
    state: usize,
    tree: Tree,
) -> Result<(), AllocError>
    requires { at < length cells.old.items }
    ensures len { length cells.new.items ≡ length cells.old.items }
    ensures ok { IfOk result (λ _. Adds (CellsHold cells.old.items) (CellsHold cells.new.items) (IsPut at state tree)) }
{
    put(&mut cells[at], state, tree)
}

/// Whether a token stands at a place.
pub fn stands(text: &[Terminal], at: usize, token: u32) -> bool
    ensures { IsTrue result ↔ TokenAt text.now at token }
{
    at < text.len() && text[at].token == token
}

/// What comes next at a state among these.
pub fn next_in(steps: &[Next], state: usize) -> Option<Next>
    ensures { result ≡ slice_get steps.now state }
{
    if state < steps.len() {
        Some(steps[state])
    } else {
        None
    }
}

/// What comes next at a state.
pub fn next_of(table: &Table, state: usize) -> Option<Next>
    ensures { result ≡ slice_get table.now.steps.items state }
{
    next_in(table.steps.as_slice(), state)
}

/// The kind and the precedence of a state of whole texts.
pub fn whole_of(table: &Table, state: usize) -> Option<(u32, u32)>
    ensures some { IfSome result (λ w. NextAt table.now state (Whole w.0 w.1)) }
    ensures none { IfNone result ((kind precedence : ℕ) → NextAt table.now state (Whole kind precedence) → ⊥) }
{
    match next_of(table, state) {
        Some(Next::Whole { kind, precedence }) => Some((kind, precedence)),
        _ => None,
    }
}

/// The token that comes next at a state, and the state behind it.
pub fn token_of(table: &Table, state: usize) -> Option<(u32, usize)>
    ensures some { IfSome result (λ t. NextAt table.now state (Token t.0 t.1)) }
    ensures none { IfNone result ((token next : ℕ) → NextAt table.now state (Token token next) → ⊥) }
{
    match next_of(table, state) {
        Some(Next::Token { token, next }) => Some((token, next)),
        _ => None,
    }
}

/// Whether a hole takes the texts of a state.
pub fn takes(table: &Table, state: usize, kind: u32, below: u32) -> bool
    ensures { IsTrue result ↔ ((precedence : ℕ) × NextAt table.now state (Whole kind precedence) × (precedence < below)) }
{
    match whole_of(table, state) {
        Some((given, precedence)) => given == kind && precedence < below,
        None => false,
    }
}
