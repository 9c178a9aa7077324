// One step of the machine.
ghost use Rattle.std.specs.Prelude.{◌≡◌, ◌≤◌, ◌<◌, ℕ, IfOk, IfSome, IsTrue, length, codes};
ghost use Rattle.mw_logic.specs.Module.{Module, IsPolymorphic};
ghost use Rattle.mw_builtin.specs.Schemata.{AreSchemataOf};
ghost use Rattle.mw_canon.specs.Axioms.{HasAxioms};
ghost use Rattle.mw_canon.specs.declared.axioms.Axioms.TheVariants.{Plain as PlainOf};
ghost use Rattle.mw_frames.specs.State.{Run, IsRun, InHand, Settled, Holds, work_of};
ghost use Rattle.mw_frames.specs.Machines.{data_of};
ghost use Rattle.mw_frames.specs.Steps.{IsDecided, Answers, FallsBelow};
ghost use Rattle.mw_frames.specs.declared.job.Hand.TheVariants.{One as OneOf, Over as OverOf};

use crate::job::{Frame, Hand, Job};
use crate::limits::cut;
use crate::looking::{Asked, Step, look, settle};
use crate::machine::Machine;
use crate::opening::{open_made, open_term};
use crate::passing::{finish, pass, pass_one};
use mw_builtin::Schemata;
use mw_canon::{Axioms, Facts};
use mw_term::behind;
use std::alloc::{AllocError, Global};

/// Whether all arguments of a frame are done, and its operator has no axioms and some argument.
#[inline(always)]
fn is_complete(facts: &Facts, machine: &Machine<'_>, top: Frame) -> bool
    ensures { IsTrue result → (length machine.now.jobs.items ≤ top.waits) × (top.from < length machine.now.done.items) × HasAxioms facts.now top.op PlainOf }
{
    if machine.jobs.len() > top.waits || machine.done.len() <= top.from {
        return false;
    }
    matches!(facts.axioms(top.op), Axioms::Plain)
}

/// All arguments of a frame are done: equations are asked for, or the term is made that it is.
#[inline(always)]
fn all_done<'m>(
    alloc: Global,
    facts: &Facts,
    machine: &mut Machine<'m>,
    top: Frame,
) -> Result<Step<'m>, AllocError>
    ensures means { (K : Run) (k : ℕ) → IsRun K facts.now → length machine.old.jobs.items ≤ top.waits → Settled K k (data_of K.over machine.old) top
        → IfOk result (Answers K k (data_of K.over machine.new)) }
    ensures falls { (M : Module) → IfOk result (FallsBelow M (work_of M.signature (data_of M machine.old) (OverOf top)) machine.new) }
{
    if is_complete(facts, machine, top) {
        return Ok(Step::Asks(Asked::Own(top)));
    }
    let hand = finish(alloc, facts, machine, top)?;
    Ok(Step::Goes(hand))
}

/// The truth value that the condition of a choice is, where it is done and nothing else is.
fn decided(schemata: &Schemata, machine: &Machine<'_>, top: Frame) -> Option<bool>
    ensures { (K : Run) (k : ℕ) → AreSchemataOf K.over.signature schemata.now → IsPolymorphic K.over.signature top.op (codes "if_then_else_fi")
        → Settled K k (data_of K.over machine.now) top → IfSome result (IsDecided K k (data_of K.over machine.now) top) }
{
    let done = behind(machine.done.as_slice(), top.from);
    let jobs = cut(machine.jobs.as_slice(), top.waits).1;
    if done.len() != 1 || jobs.len() != 2 {
        return None;
    }
    schemata.truth(&done[0])
}

/// A choice in which nothing is in hand goes on: its condition comes first, and where that is a truth value, no branch
/// does.
#[inline(never)]
fn over_choice<'m>(
    alloc: Global,
    facts: &Facts,
    schemata: &Schemata,
    machine: &mut Machine<'m>,
    top: Frame,
) -> Result<Step<'m>, AllocError>
    ensures means { (K : Run) (k : ℕ) → IsRun K facts.now → AreSchemataOf K.over.signature schemata.now → IsPolymorphic K.over.signature top.op (codes "if_then_else_fi")
        → Settled K k (data_of K.over machine.old) top → IfOk result (Answers K k (data_of K.over machine.new)) }
    ensures falls { (M : Module) → IfOk result (FallsBelow M (work_of M.signature (data_of M machine.old) (OverOf top)) machine.new) }
{
    if let Some(truth) = decided(schemata, machine, top) {
        return Ok(Step::Decides(top, truth));
    }
    if let Some(hand) = pass_one(alloc, facts, machine, top)? {
        return Ok(Step::Goes(hand));
    }
    if let Some(truth) = decided(schemata, machine, top) {
        return Ok(Step::Decides(top, truth));
    }
    let step = over(alloc, facts, machine, top)?;
    Ok(step)
}

/// The frame in which nothing is in hand goes on.
#[inline(always)]
fn over<'m>(
    alloc: Global,
    facts: &Facts,
    machine: &mut Machine<'m>,
    top: Frame,
) -> Result<Step<'m>, AllocError>
    ensures means { (K : Run) (k : ℕ) → IsRun K facts.now → Settled K k (data_of K.over machine.old) top → IfOk result (Answers K k (data_of K.over machine.new)) }
    ensures falls { (M : Module) → IfOk result (FallsBelow M (work_of M.signature (data_of M machine.old) (OverOf top)) machine.new) }
{
    match pass(alloc, facts, machine, top)? {
        Some(hand) => Ok(Step::Goes(hand)),
        None => {
            let step = all_done(alloc, facts, machine, top)?;
            Ok(step)
        }
    }
}

/// A job in hand is looked at.
#[inline(always)]
fn one<'m>(
    alloc: Global,
    facts: &Facts,
    machine: &mut Machine<'m>,
    job: Job<'m>,
) -> Result<Step<'m>, AllocError>
    ensures means { (K : Run) (k : ℕ) → IsRun K facts.now → InHand K k (data_of K.over machine.old) job.entry → IfOk result (Answers K k (data_of K.over machine.new)) }
    ensures falls { (M : Module) → M.signature ≡ facts.now → IfOk result (FallsBelow M (work_of M.signature (data_of M machine.old) (OneOf job.entry)) machine.new) }
{
    match job {
        Job::Normal(term) => {
            let step = settle(alloc, facts, machine, term)?;
            Ok(step)
        }
        Job::Try(term) => {
            let step = look(alloc, facts, machine, term)?;
            Ok(step)
        }
        Job::Walk(term) => {
            let hand = open_term(facts, machine, term)?;
            Ok(Step::Goes(hand))
        }
        Job::Made(pattern, base, top) => {
            let hand = open_made(alloc, facts, machine, pattern, base, top)?;
            Ok(Step::Goes(hand))
        }
        Job::Built(_built, pattern, base, top) => {
            let hand = open_made(alloc, facts, machine, pattern, base, top)?;
            Ok(Step::Goes(hand))
        }
    }
}

/// Whether a frame has three arguments, of which the first one at most is done: else no condition is decided there.
#[inline(always)]
fn is_early(machine: &Machine<'_>, top: Frame) -> bool {
    let own = machine.done.len().saturating_sub(top.from);
    let waiting = machine.jobs.len().saturating_sub(top.waits);
    own < 2 && own + waiting == 3
}

/// One step: it goes on, the whole is normal, statements are asked for, or a choice is decided.
#[inline(always)]
pub fn step<'m>(
    alloc: Global,
    facts: &Facts,
    schemata: &Schemata,
    machine: &mut Machine<'m>,
    hand: Hand<'m>,
) -> Result<Step<'m>, AllocError>
    ensures means { (K : Run) (k : ℕ) → IsRun K facts.now → AreSchemataOf K.over.signature schemata.now → Holds K k (data_of K.over machine.old) hand.entry → IfOk result (Answers K k (data_of K.over machine.new)) }
    ensures falls { (M : Module) → M.signature ≡ facts.now → IfOk result (FallsBelow M (work_of M.signature (data_of M machine.old) hand.entry) machine.new) }
{
    match hand {
        Hand::Over(top) => {
            if is_early(machine, top) && schemata.is_choice(top.op) {
                let step = over_choice(alloc, facts, schemata, machine, top)?;
                return Ok(step);
            }
            let step = over(alloc, facts, machine, top)?;
            Ok(step)
        }
        Hand::One(job) => {
            let step = one(alloc, facts, machine, job)?;
            Ok(step)
        }
    }
}
