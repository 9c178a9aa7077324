// Sides of conditions: each is a run of its own.
ghost use Rattle.std.specs.Prelude.{◌≡◌, ℕ, List, IfOk};
ghost use Rattle.mw_logic.specs.Term.{Variable, RawTerm};
ghost use Rattle.mw_logic.specs.Module.{Module};
ghost use Rattle.mw_logic.specs.Signature.{IsRawTerm};
ghost use Rattle.mw_logic.specs.Substitution.{instance as instance_of};
ghost use Rattle.mw_logic.specs.NormalForm.{normal_form};
ghost use Rattle.mw_canon.specs.Canonical.{IsAdmittedTerm};
ghost use Rattle.mw_least.specs.Workable.{IsWorkable};
ghost use Rattle.mw_trail.specs.Tracks.{moves};
ghost use Rattle.mw_index.specs.Conditions.{IsSideOf};
ghost use Rattle.mw_frames.specs.Machines.{data_of, all_moves as trail_moves};
ghost use Rattle.mw_reduce.specs.Driven.{IsDriven};
ghost use Rattle.mw_reduce.specs.Evaluations.{AreBoundTo, bound_to, AreAsked, IsBegun, IsSideShown, run_of, nothing, side_moves, all_moves};

use crate::drive::{Driven, End, Outcome};
use mw_canon::{CanonError, Facts};
use mw_frames::{Machine, instance};
use mw_index::{Choices, Side};
use mw_proof::Reason;
use mw_term::Term;
use mw_trail::Trail;
use std::alloc::{AllocError, Global};

/// A side that was reduced: the canonical terms that it leads from and to, and how.
#[derive(Drop)]
pub struct Reduced {
    pub from: Term,
    pub to: Term,
    pub kept: Trail,
}

/// What comes of a side: it is reduced to a normal term, or why it stops.
#[derive(Drop)]
pub enum Shown {
    To(Reduced),
    Stops(Reason),
}

/// A side's run: the term that it begins at, and what it is made with.
#[derive(Drop)]
pub struct Running<'m> {
    pub from: Term,
    pub machine: Machine<'m>,
    pub choices: Choices<'m>,
}

/// A side that begins, or that stops at once.
#[derive(Drop)]
pub enum Begun<'m> {
    Runs(Box<Running<'m>>),
    Stops(Reason),
}

/// A run that begins at this term.
fn new_run<'m>(alloc: Global, from: Term) -> Result<Box<Running<'m>>, AllocError>
    ensures from { IfOk result (λ r. r.value.from ≡ from) }
    ensures machine { IfOk result (λ r. (M : Module) → data_of M r.value.machine ≡ nothing) }
{
    let running = Running {
        from,
        machine: Machine::new(alloc),
        choices: Choices::new(alloc),
    };
    Ok(Box::new(alloc, running)?)
}

/// A side begins at its canonical instance, where that may stand.
pub fn begin_side<'m>(
    alloc: Global,
    facts: &Facts,
    side: &Side,
    values: &[Term],
) -> Result<Begun<'m>, AllocError>
    ensures { (M : Module) (xs : List Variable) (t : RawTerm) → IsWorkable M → facts.now ≡ M.signature
        → AreAsked M.signature xs t → IsSideOf M.signature xs t side.now → AreBoundTo M xs values.now
        → IfOk result (IsBegun M (instance_of (bound_to M.signature xs values.now) t)) }
{
    match instance(alloc, facts, &side.pattern, values) {
        Ok(term) => {
            let running = new_run(alloc, term)?;
            Ok(Begun::Runs(running))
        }
        Err(CanonError::Deep) => Ok(Begun::Stops(Reason::Depth)),
        Err(CanonError::Nat) => Ok(Begun::Stops(Reason::Nat)),
        Err(CanonError::Memory) => Err(AllocError),
    }
}

/// What comes of a side's run from this term.
pub fn end_side(from: Term, machine: Machine<'_>, driven: Driven) -> Shown
    ensures { (M : Module) (n limit : ℕ) (t : RawTerm) → IsWorkable M → IsRawTerm M.signature t
        → IsAdmittedTerm M.signature from → from ≡ normal_form M.signature t
        → IsDriven (run_of M n from) limit limit (data_of M machine.entry) driven
        → IsSideShown M n limit t result }
{
    let Driven { end, left: _ } = driven;
    let End { term, outcome } = end;
    match outcome {
        Outcome::Done => {
            let Machine { kept, .. } = machine;
            Shown::To(Reduced {
                from,
                to: term,
                kept,
            })
        }
        Outcome::Stopped(reason) => Shown::Stops(reason),
    }
}

/// What a side did, between the moves that begin it and end it.
fn enclosed(alloc: Global, side: Reduced) -> Result<Trail, AllocError>
    ensures { IfOk result (λ t. (M : Module) → moves M t ≡ side_moves M side) }
{
    let Reduced { from, kept, .. } = side;
    let mut trail = Trail::new(alloc);
    trail.begin(from, &mut Vec::new(alloc))?;
    let mut trail = trail.followed_by(kept)?;
    trail.end()?;
    Ok(trail)
}

/// The same of several, in order.
pub fn all_enclosed(alloc: Global, sides: Vec<Reduced>) -> Result<Vec<Trail>, AllocError>
    ensures { IfOk result (λ ts. (M : Module) → trail_moves M ts.items ≡ all_moves M sides.items) }
{
    let mut trails = Vec::with_capacity(alloc, sides.len())?;
    let mut left = sides;
    left.reverse();
    while let Some(side) = left.pop() {
        let trail = enclosed(alloc, side)?;
        trails.push(trail)?;
    }
    Ok(trails)
}
