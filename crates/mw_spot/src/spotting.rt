// The place of what stands in the innermost hole, from level to level.
ghost use Rattle.std.specs.Prelude.{◌≡◌, ◌≤◌, [], All, Bool, None, take, length, reverse, OnOk};
ghost use Rattle.mw_logic.specs.Term.{RawTerm};
ghost use Rattle.mw_logic.specs.Terms.{terms_of};
ghost use Rattle.mw_logic.proofs.Canonical.{IsCanonical};
ghost use Rattle.mw_deduction.specs.Replay.{whole};
ghost use Rattle.mw_spot.specs.Walks.{IsOrderly};
ghost use Rattle.mw_spot.specs.Spots.{places as places_of, spread_path, spread_take, is_spread};
ghost use Rattle.mw_spot.specs.Spots.{raised_path, raised_take, StandsIn, ReplacesPart, IsFree, passed};

use crate::gathering::{gathered, outside};
use crate::level::Level;
use crate::numbering::{all_numbers, number, places, some_numbers, spread};
use mw_canon::Facts;
use mw_redex::Place;
use mw_term::{Seq, Term, number_at};
use std::alloc::{AllocError, Global};

/// A place that is known as far as to some level: the numbers of the path from the innermost on, and those of the
/// arguments that are taken at its end.
#[derive(Drop)]
pub(crate) struct Spot {
    path: Vec<u32>,
    take: Option<Seq<u32>>,
}

impl Spot {
    /// All that stands here.
    pub fn new(alloc: Global) -> Spot
        ensures path { result.path.items ≡ [] }
        ensures take { result.take ≡ None }
    {
        Spot {
            path: Vec::new(alloc),
            take: None,
        }
    }

    /// The place.
    pub fn into_place(self) -> Place
        ensures path { result.path ≡ reverse self.path.items }
        ensures take { result.take ≡ self.take }
    {
        let Spot { path, take } = self;
        let mut path = path;
        path.as_mut_slice().reverse();
        Place {
            path: Seq::of(path),
            take,
        }
    }
}

/// A place in what comes as several arguments among those of some levels, as a place beside these.
fn spread_out(
    alloc: Global,
    facts: &Facts,
    levels: &[Level],
    terms: &[Term],
    spot: &mut Spot,
) -> Result<(), AllocError>
    ensures path { All (IsOrderly facts.now) levels.now
        → OnOk result (reverse spot.new.path.items
        ≡ spread_path (places_of facts.now (reverse levels.now)) (terms_of terms.now) (reverse spot.old.path.items)) }
    ensures take { All (IsOrderly facts.now) levels.now
        → OnOk result (spot.new.take ≡ spread_take (places_of facts.now (reverse levels.now)) (terms_of terms.now)
        (reverse spot.old.path.items) spot.old.take) }
{
    if let Some(last) = spot.path.pop() {
        let number = number(facts, levels, terms, last)?;
        spot.path.push(number)?;
        return Ok(());
    }
    let numbers = match &spot.take {
        None => all_numbers(alloc, facts, levels, terms)?,
        Some(taken) => some_numbers(alloc, facts, levels, terms, taken.as_slice())?,
    };
    spot.take = Some(Seq::of(numbers));
    Ok(())
}

/// A place in the term in the hole of the innermost of some levels of one operator, `level`, as a place in what all of
/// them are with it.
fn raise(
    alloc: Global,
    facts: &Facts,
    level: &Level,
    levels: &[Level],
    inner: &Term,
    spot: &mut Spot,
) -> Result<(), AllocError>
    ensures path { All (IsOrderly facts.now) levels.now
        → OnOk result (reverse spot.new.path.items
        ≡ raised_path (places_of facts.now (reverse levels.now)) (is_spread facts.now level.now inner.now) inner.now
        (reverse spot.old.path.items)) }
    ensures take { All (IsOrderly facts.now) levels.now
        → OnOk result (spot.new.take
        ≡ raised_take (places_of facts.now (reverse levels.now)) (is_spread facts.now level.now inner.now) inner.now
        (reverse spot.old.path.items) spot.old.take) }
{
    if let Some(args) = spread(facts, level, inner) {
        return spread_out(alloc, facts, levels, args, spot);
    }
    let number = number_at(places(facts, levels, inner)?)?;
    spot.path.push(number)?;
    Ok(())
}

/// A place in the term in the hole of the last of some levels, as a place in what all of them are with it: a
/// replacement at the one is a replacement at the other, and arguments that are taken are not all of their operator's.
/// Levels of one associative operator, one in the other, are passed at once, and put together only where others stand
/// round them.
pub(crate) fn climb(
    alloc: Global,
    facts: &Facts,
    levels: &[Level],
    inner: Term,
    spot: &mut Spot,
) -> Result<(), AllocError>
    ensures { (by_rule : Bool) (w x y : RawTerm) → StandsIn facts.now by_rule (reverse levels.now) inner
        → IsCanonical facts.now x
        → ReplacesPart facts.now by_rule w x (reverse spot.old.path.items) spot.old.take inner y
        → OnOk result (ReplacesPart facts.now by_rule w x (reverse spot.new.path.items) spot.new.take
        (whole facts.now (reverse levels.now) inner) (whole facts.now (reverse levels.now) y)) }
{
    facts.shows();
    let [before @ .., level] = levels else {
        return Ok(());
    };
    let outside = outside(facts, level.operator, before);
    let same = &levels[outside..];
    raise(alloc, facts, level, same, &inner, spot)?;
    if outside == 0 {
        return Ok(());
    }
    let outer = gathered(alloc, facts, level.operator, same, inner)?;
    climb(alloc, facts, &before[..outside], outer, spot)
}

/// The same where the levels are free: nothing is built.
pub(crate) fn pass(levels: &[Level], spot: &mut Spot) -> Result<(), AllocError>
    ensures path { OnOk result (reverse spot.new.path.items
        ≡ passed (reverse levels.now) (reverse spot.old.path.items)) }
    ensures take { OnOk result (spot.new.take ≡ spot.old.take) }
{
    let [before @ .., level] = levels else {
        return Ok(());
    };
    let number = number_at(level.at)?;
    spot.path.push(number)?;
    pass(before, spot)
}

/// How many of the outermost levels are free.
pub(crate) fn free(facts: &Facts, levels: &[Level]) -> usize
    ensures bound { result ≤ length levels.now }
    ensures free { All (IsFree facts.now) (take result levels.now) }
{
    for (i, level) in levels.iter().enumerate() {
        if !level.is_free(facts) {
            return i;
        }
    }
    levels.len()
}
