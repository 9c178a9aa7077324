// Into a part of a normal whole.
ghost use Rattle.std.specs.Prelude.{ℕ, OnOk};
ghost use Rattle.mw_logic.specs.Term.{RawTerm};
ghost use Rattle.mw_frames.specs.State.{Run, IsRun};
ghost use Rattle.mw_frames.specs.Machines.{data_of};
ghost use Rattle.mw_redexes.specs.Spots.{AreWays};
ghost use Rattle.mw_rule.specs.Stepped.{IsAt, IsAtPart};

use mw_canon::Facts;
use mw_frames::{Machine, enter};
use mw_redexes::Spot;
use std::alloc::{AllocError, Global};

/// From the whole, which is in hand and normal, into the part of this number: that is in hand then, and the arguments
/// beside are known to be normal.
pub fn go_to(
    alloc: Global,
    facts: &Facts,
    machine: &mut Machine<'_>,
    spots: &[Spot<'_>],
    at: usize,
) -> Result<(), AllocError>
    ensures { (K : Run) (k : ℕ) (root whole : RawTerm) → IsRun K facts.now → AreWays facts.now root spots.now → IsAt K k (data_of K.over machine.old) root whole
        → OnOk result (IsAtPart K k (data_of K.over machine.new) spots.now at whole) }
{
    let spot = match spots.get(at) {
        Some(spot) => spot,
        None => return Err(AllocError),
    };
    if at == 0 {
        return Ok(());
    }
    if spot.parent >= at {
        return Err(AllocError);
    }
    go_to(alloc, facts, machine, spots, spot.parent)?;
    match enter(alloc, facts, machine, spots[spot.parent].term, spot.number)? {
        Some(_) => Ok(()),
        None => Err(AllocError),
    }
}
