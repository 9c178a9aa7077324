// What is done with a term in hand, but for opening it.
ghost use Rattle.std.specs.Prelude.{◌≡◌, ◌≤◌, ◌<◌, ◌+◌, ℕ, List, ◌∷◌, [], IfOk, IsTrue, IsFalse, reverse};
ghost use Rattle.mw_logic.specs.Module.{Module};
ghost use Rattle.mw_logic.proofs.Canonical.{Each};
ghost use Rattle.mw_stack.specs.Own.{spread};
ghost use Rattle.mw_stack.specs.Hidden.{IsHidden};
ghost use Rattle.mw_frames.specs.Jobs.{term_of, work};
ghost use Rattle.mw_frames.specs.State.{Run, IsRun, InHand, IsDone, IsNormalHere};
ghost use Rattle.mw_frames.specs.Machines.{data_of};
ghost use Rattle.mw_frames.specs.Steps.{Answers, FallsBelow};
ghost use Rattle.mw_frames.specs.declared.job.Job.{Job as JobOf};
ghost use Rattle.mw_frames.specs.declared.job.Job.TheVariants.{Try as TryOf, Normal as NormalOf};
ghost use Rattle.mw_frames.specs.declared.job.Frame.{Frame as FrameOf};

use crate::job::{Frame, Hand};
use crate::machine::Machine;
use crate::passing::{go_out, leave};
use mw_canon::{Axioms, Facts};
use mw_stack::hides;
use mw_term::Term;
use std::alloc::{AllocError, Global};

/// What comes of one step.
#[derive(Drop)]
pub enum Step<'m> {
    /// It goes on.
    Goes(Hand<'m>),
    /// The whole is this term, which is normal.
    Ended(Term),
    /// Statements are asked for.
    Asks(Asked),
    /// The condition of a choice is this truth value: a row is met, whatever its branches are.
    Decides(Frame, bool),
}

/// What statements are asked for: a term over normal arguments.
#[derive(Drop)]
pub enum Asked {
    Term(Term),
    /// A frame's operator, without axioms, over its own arguments.
    Own(Frame),
}

/// Whether the term is hidden in the innermost frame.
#[inline]
pub(crate) fn is_hidden(facts: &Facts, frames: &[Frame], term: &Term) -> bool
    ensures yes { IsTrue result → (f : FrameOf) × (fs : List FrameOf) × (reverse frames.now ≡ f ∷ fs) × IsHidden facts.now f.op term.now }
    ensures no { IsFalse result → (f : FrameOf) (fs : List FrameOf) → reverse frames.now ≡ f ∷ fs → IsHidden facts.now f.op term.now → ⊥ }
{
    match frames.last() {
        Some(top) => hides(facts, top.op, term),
        None => false,
    }
}

/// A term that is done leaves its hole, or is the whole.
#[inline]
pub(crate) fn settle<'m>(
    alloc: Global,
    facts: &Facts,
    machine: &mut Machine<'m>,
    term: Term,
) -> Result<Step<'m>, AllocError>
    ensures means { (K : Run) (k : ℕ) (x : JobOf) → IsRun K facts.now → term_of K.over.signature machine.old.kept.values x ≡ term → InHand K k (data_of K.over machine.old) x
        → (reverse machine.old.frames.items ≡ [] → IsNormalHere K.over K.rank term)
        → ((f : FrameOf) (fs : List FrameOf) → reverse machine.old.frames.items ≡ f ∷ fs → Each (IsDone K.over K.rank f.op) (spread K.over.signature f.op term))
        → IfOk result (Answers K k (data_of K.over machine.new)) }
    ensures falls { (M : Module) (w : ℕ) → 2 ≤ w → IfOk result (FallsBelow M (w + work M.signature machine.old.kept.values (reverse machine.old.frames.items) machine.old.jobs.items) machine.new) }
{
    match machine.frames.pop() {
        None => Ok(Step::Ended(term)),
        Some(top) => match facts.axioms(top.op) {
            Axioms::Plain | Axioms::Successor => {
                leave(machine, top, term)?;
                Ok(Step::Goes(Hand::Over(top)))
            }
            _ => go_out(alloc, facts, machine, top, term),
        },
    }
}

/// A term in hand over normal arguments is asked for statements, or leaves the hole in which it is hidden.
#[inline]
pub(crate) fn look<'m>(
    alloc: Global,
    facts: &Facts,
    machine: &mut Machine<'m>,
    term: Term,
) -> Result<Step<'m>, AllocError>
    ensures means { (K : Run) (k : ℕ) → IsRun K facts.now → InHand K k (data_of K.over machine.old) (TryOf term) → IfOk result (Answers K k (data_of K.over machine.new)) }
    ensures falls { (M : Module) (w : ℕ) → 3 ≤ w → IfOk result (FallsBelow M (w + work M.signature machine.old.kept.values (reverse machine.old.frames.items) machine.old.jobs.items) machine.new) }
{
    if is_hidden(facts, machine.frames.as_slice(), &term) {
        let step = settle(alloc, facts, machine, term)?;
        return Ok(step);
    }
    Ok(Step::Asks(Asked::Term(term)))
}
