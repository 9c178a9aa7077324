// What a whole text spells.
ghost use Rattle.std.specs.Prelude.{◌≡◌, ◌≤◌, ℕ, List, IfOk, IfSome, IfNone, length};
ghost use Rattle.mw_chart.specs.Spelling.{IsTable, NextAt};
ghost use Rattle.mw_chart.specs.Chart.{Adds};
ghost use Rattle.mw_chart.specs.Nothing.{Nothing};
ghost use Rattle.mw_chart.specs.Readings.{Lists, ListedBy, ListedAny, AreReadings};
ghost use Rattle.mw_chart.specs.declared.table.Next.TheVariants.{Whole};

use crate::cell::whole_of;
use crate::chart::chart_of;
use crate::item::Constituent;
use crate::table::{Next, Table};
use crate::terminal::Terminal;
use crate::tree::Tree;
use std::alloc::{AllocError, Global};

/// A tree that a whole text spells, as one of a kind.
#[derive(Drop)]
pub struct Reading {
    pub kind: u32,
    pub tree: Tree,
}

/// Lists a constituent that ends with the text, if its kind is one of trees.
fn list(
    table: &Table,
    n: usize,
    constituent: &Constituent,
    listed: &mut Vec<Reading>,
) -> Result<(), AllocError>
    ensures { IfOk result (λ _. Adds (Lists listed.old.items) (Lists listed.new.items) (ListedBy table.now n constituent.now)) }
{
    if let Some((kind, _precedence)) = whole_of(table, constituent.state) {
        if kind <= table.kinds && constituent.end == n {
            let tree = constituent.tree.again()?;
            listed.push(Reading { kind, tree })?;
        }
    }
    Ok(())
}

/// Lists the readings that end with the text.
fn list_all(
    alloc: Global,
    table: &Table,
    n: usize,
    row: &Vec<Constituent>,
) -> Result<Vec<Reading>, AllocError>
    ensures { IfOk result (λ listed. Adds Nothing (Lists listed.items) (ListedAny table.now n row.now.items)) }
{
    let mut listed = Vec::new(alloc);
    for constituent in row {
        list(table, n, constituent, &mut listed)?;
    }
    Ok(listed)
}

/// The trees that a text spells, of each kind one or two different ones at the least where there are as many.
pub fn readings(alloc: Global, table: &Table, text: &[Terminal]) -> Result<Vec<Reading>, AllocError>
    requires table { IsTable table.now }
    requires short { length text.now ≤ 1024 }
    ensures { IfOk result (λ listed. AreReadings table.now text.now listed.items) }
{
    let rows = chart_of(alloc, table, text)?;
    list_all(alloc, table, text.len(), &rows[0].constituents)
}
