// Texts whose first hole is filled.
ghost use Rattle.std.specs.Prelude.{◌≡◌, ◌≤◌, ◌<◌, ◌↔◌, ◌⊎◌, ◌-◌, ◌+◌, ℕ, IfOk, IfSome, IsTrue, length};
ghost use Rattle.mw_chart.specs.Chart.{Holds, Adds, IsLive, PredictsProduction, PredictsBy, PredictsItem, Predicts};
ghost use Rattle.mw_chart.specs.Nothing.{Nothing};
ghost use Rattle.mw_chart.specs.Spelling.{IsTable};

use crate::cell::{is_full, next_of, put, stands, token_of, whole_of};
use crate::item::ChartItem;
use crate::numbered::listed;
use crate::table::{Next, Production, Table};
use crate::terminal::Terminal;
use crate::tree::Tree;
use std::alloc::{AllocError, Global};

/// Whether no other token has to come next at a state.
fn is_live(table: &Table, text: &[Terminal], at: usize, state: usize) -> bool
    ensures { IsTrue result ↔ IsLive table.now text.now at state }
{
    match token_of(table, state) {
        Some((token, _next)) => stands(text, at, token),
        None => true,
    }
}

/// Opens an operator's text with a tree of a kind and precedence.
fn predict_production(
    alloc: Global,
    table: &Table,
    text: &[Terminal],
    at: usize,
    kind: u32,
    precedence: u32,
    tree: &Tree,
    production: &Production,
    predicted: &mut Vec<ChartItem>,
) -> Result<(), AllocError>
    ensures { IfOk result (λ _. Adds (Holds predicted.old.items) (Holds predicted.new.items) (PredictsProduction table.now text.now at kind precedence tree.now production.now)) }
{
    match next_of(table, production.state) {
        Some(
            Next::Hole {
                kind: given,
                below,
                next,
            },
        ) => {
            if given == kind
                && precedence < below
                && is_live(table, text, at, next)
                && !is_full(predicted, next)
            {
                let first = Tree::head(alloc, production.operator)?;
                let whole = first.with(alloc, tree)?;
                put(predicted, next, whole)?;
            }
            Ok(())
        }
        _ => Ok(()),
    }
}

fn predict_by(
    alloc: Global,
    table: &Table,
    text: &[Terminal],
    at: usize,
    kind: u32,
    precedence: u32,
    tree: &Tree,
    predicted: &mut Vec<ChartItem>,
) -> Result<(), AllocError>
    requires { IsTable table.now }
    ensures { IfOk result (λ _. Adds (Holds predicted.old.items) (Holds predicted.new.items) (PredictsBy table.now text.now at kind precedence tree.now)) }
{
    let productions = listed(&table.corners.by_kind, kind as usize);
    for production in productions {
        predict_production(
            alloc, table, text, at, kind, precedence, tree, production, predicted,
        )?;
    }
    Ok(())
}

fn predict_item(
    alloc: Global,
    table: &Table,
    text: &[Terminal],
    at: usize,
    item: &ChartItem,
    predicted: &mut Vec<ChartItem>,
) -> Result<(), AllocError>
    requires { IsTable table.now }
    ensures { IfOk result (λ _. Adds (Holds predicted.old.items) (Holds predicted.new.items) (PredictsItem table.now text.now at item.now)) }
{
    match whole_of(table, item.state) {
        Some((kind, precedence)) => predict_by(
            alloc, table, text, at, kind, precedence, &item.tree, predicted,
        ),
        None => Ok(()),
    }
}

/// The texts whose first hole is filled by what a cell holds.
pub fn predict(
    alloc: Global,
    table: &Table,
    text: &[Terminal],
    at: usize,
    cell: &Vec<ChartItem>,
) -> Result<Vec<ChartItem>, AllocError>
    requires { IsTable table.now }
    ensures { IfOk result (λ predicted. Adds Nothing (Holds predicted.items) (Predicts table.now text.now at cell.now.items)) }
{
    let mut predicted = Vec::new(alloc);
    for item in cell {
        predict_item(alloc, table, text, at, item, &mut predicted)?;
    }
    Ok(predicted)
}
