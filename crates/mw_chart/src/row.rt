// The constituents that begin at a place, found by state and end.
ghost use Rattle.std.specs.Prelude.{◌≡◌, ◌≤◌, ◌<◌, ℕ, Some, IfOk, IfSome, length};
ghost use Rattle.std.specs.List.{slice_get};
ghost use Rattle.mw_chart.specs.Bits.{IsSet};
ghost use Rattle.mw_chart.specs.Listed.{IsListed};
ghost use Rattle.mw_chart.specs.Row.{IsInStrip, IsIndexed, EndBy};
ghost use Rattle.mw_chart.specs.declared.row.Strip.{Strip};

use crate::bits::insert;
use crate::item::Constituent;
use crate::numbered::join;
use std::alloc::{AllocError, Global};

/// The ends of the texts that have come to a whole state.
#[derive(Drop)]
pub struct Strip {
    pub state: usize,
    pub ends: Vec<u64>,
}

/// The constituents that begin at a place.
#[derive(Drop)]
pub struct ChartRow {
    pub constituents: Vec<Constituent>,
    /// For each end the indexes of its constituents.
    pub places: Vec<Vec<usize>>,
    pub strips: Vec<Strip>,
}

/// Where a state's strip is.
fn strip_of(strips: &Vec<Strip>, state: usize) -> Option<usize>
    ensures { IfSome result (λ p. (strip : Strip) × (slice_get strips.now.items p ≡ Some strip) × (strip.state ≡ state)) }
{
    for (p, strip) in strips.iter().enumerate() {
        if strip.state == state {
            return Some(p);
        }
    }
    None
}

fn add_end(strip: &mut Strip, end: usize) -> Result<(), AllocError>
    ensures state { strip.new.state ≡ strip.old.state }
    ensures kept { IfOk result (λ _. (e : ℕ) → IsSet strip.old.ends.items e → IsSet strip.new.ends.items e) }
    ensures added { IfOk result (λ _. IsSet strip.new.ends.items end) }
{
    insert(&mut strip.ends, end)
}

fn list_end(
    alloc: Global,
    strips: &mut Vec<Strip>,
    state: usize,
    end: usize,
) -> Result<(), AllocError>
    ensures kept { IfOk result (λ _. (w e : ℕ) → IsInStrip strips.old.items w e → IsInStrip strips.new.items w e) }
    ensures listed { IfOk result (λ _. IsInStrip strips.new.items state end) }
{
    match strip_of(strips, state) {
        Some(p) => add_end(&mut strips[p], end),
        None => {
            let mut ends = Vec::new(alloc);
            insert(&mut ends, end)?;
            strips.push(Strip { state, ends })?;
            Ok(())
        }
    }
}

/// The row of these constituents.
pub fn indexed(alloc: Global, constituents: Vec<Constituent>) -> Result<ChartRow, AllocError>
    requires { EndBy 1024 constituents.items }
    ensures constituents { IfOk result (λ row. row.constituents ≡ constituents) }
    ensures indexed { IfOk result IsIndexed }
{
    let mut places = Vec::new(alloc);
    let mut strips = Vec::new(alloc);
    for (k, constituent) in constituents.iter().enumerate() {
        join(alloc, &mut places, constituent.end, k)?;
        list_end(alloc, &mut strips, constituent.state, constituent.end)?;
    }
    Ok(ChartRow {
        constituents,
        places,
        strips,
    })
}
