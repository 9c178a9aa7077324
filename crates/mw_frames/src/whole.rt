// The whole that a machine stands for.
ghost use Rattle.std.specs.Prelude.{◌≡◌, ◌≤◌, ◌<◌, ℕ, IsNone, IsSome, IfOk, OnOk};
ghost use Rattle.std.specs.Prelude.{List, [], ◌∷◌, ◌++◌, take, drop, length, option_to_list};
ghost use Rattle.mw_logic.specs.Term.{RawTerm, cons, join};
ghost use Rattle.mw_logic.specs.Terms.{terms_of};
ghost use Rattle.mw_logic.specs.Module.{Module};
ghost use Rattle.mw_logic.specs.NormalForm.{applied_in};
ghost use Rattle.mw_deduction.specs.Replay.{Leaves, whole as in_whole};
ghost use Rattle.mw_trail.specs.Tracks.{moves};
ghost use Rattle.mw_frames.specs.Jobs.{term_of, rest};
ghost use Rattle.mw_frames.specs.State.{Run, IsRun, Holds};
ghost use Rattle.mw_frames.specs.Machines.{data_of};
ghost use Rattle.mw_frames.specs.Redex.{Stands};
ghost use Rattle.mw_frames.specs.Fires.{IsWhole};

use crate::instances::evaluate;
use crate::job::{Frame, Hand, Job};
use crate::machine::Machine;
use mw_canon::{Facts, rebuild};
use mw_term::{OpId, Term, behind};
use std::alloc::{AllocError, Global};

/// The term of a job. A part of a right side is built.
fn term_in(alloc: Global, facts: &Facts, values: &[Term], job: Job<'_>) -> Result<Term, AllocError>
    ensures { IfOk result (λ t. t ≡ term_of facts.now values.now job.entry) }
{
    match job {
        Job::Walk(term) | Job::Try(term) | Job::Normal(term) | Job::Built(term, _, _, _) => Ok(
            term,
        ),
        Job::Made(pattern, base, _) => evaluate(alloc, facts, pattern, behind(values, base)),
    }
}

/// The term of a job comes behind the terms that are done.
fn put_job(
    alloc: Global,
    facts: &Facts,
    values: &[Term],
    job: Job<'_>,
    done: &mut Vec<Term>,
) -> Result<(), AllocError>
    ensures { OnOk result (done.new.items ≡ done.old.items ++ term_of facts.now values.now job.entry ∷ []) }
{
    let term = term_in(alloc, facts, values, job)?;
    done.push(term)?;
    Ok(())
}

/// Takes the last job out, where it stands from a place on.
#[inline(always)]
pub(crate) fn pop_behind<'m>(jobs: &mut Vec<Job<'m>>, waits: usize) -> Option<Job<'m>>
    ensures items { jobs.old.items ≡ jobs.new.items ++ option_to_list result }
    ensures none { IsNone result → length jobs.old.items ≤ waits }
    ensures some { IsSome result → waits < length jobs.old.items }
{
    if jobs.len() > waits { jobs.pop() } else { None }
}

/// What waits from a place on comes behind the terms that are done, in order.
fn put_rest(
    alloc: Global,
    facts: &Facts,
    values: &[Term],
    waits: usize,
    jobs: &mut Vec<Job<'_>>,
    done: &mut Vec<Term>,
) -> Result<(), AllocError>
    ensures done { OnOk result ((ws : List RawTerm) × (done.new.items ≡ done.old.items ++ ws)
        × (terms_of ws ≡ rest facts.now values.now (drop waits jobs.old.items))) }
    ensures jobs { OnOk result (jobs.new.items ≡ take waits jobs.old.items) }
{
    while let Some(job) = pop_behind(jobs, waits) {
        put_job(alloc, facts, values, job, done)?;
    }
    Ok(())
}

/// An operator over the terms that are done from a place on and what waits from another on, which are taken out.
pub(crate) fn gather(
    alloc: Global,
    facts: &Facts,
    machine: &mut Machine<'_>,
    operator: OpId,
    at: usize,
    waits: usize,
) -> Result<Term, AllocError>
    requires { at ≤ length machine.old.done.items }
    ensures term { IfOk result (λ t. t ≡ applied_in facts.now operator (join (terms_of (drop at machine.old.done.items))
        (rest facts.now machine.old.kept.values (drop waits machine.old.jobs.items)))) }
    ensures done { IfOk result (λ _. machine.new.done.items ≡ take at machine.old.done.items) }
    ensures jobs { IfOk result (λ _. machine.new.jobs.items ≡ take waits machine.old.jobs.items) }
    ensures frames { machine.new.frames.items ≡ machine.old.frames.items }
    ensures kept { machine.new.kept ≡ machine.old.kept }
{
    put_rest(
        alloc,
        facts,
        machine.kept.values(),
        waits,
        &mut machine.jobs,
        &mut machine.done,
    )?;
    let args = machine.done.split_off(at)?;
    let whole = rebuild(alloc, facts, operator, args)?;
    Ok(whole)
}

/// A frame with a term in its hole, in front of what waits in it: its arguments are taken out.
fn put_together(
    alloc: Global,
    facts: &Facts,
    machine: &mut Machine<'_>,
    frame: Frame,
    term: Term,
) -> Result<Term, AllocError>
    ensures term { IfOk result (λ t. t ≡ applied_in facts.now frame.op
        (join (terms_of (drop frame.from machine.old.done.items))
        (cons term (rest facts.now machine.old.kept.values (drop frame.waits machine.old.jobs.items))))) }
    ensures done { IfOk result (λ _. machine.new.done.items ≡ take frame.from machine.old.done.items) }
    ensures jobs { IfOk result (λ _. machine.new.jobs.items ≡ take frame.waits machine.old.jobs.items) }
    ensures frames { machine.new.frames.items ≡ machine.old.frames.items }
    ensures kept { machine.new.kept ≡ machine.old.kept }
{
    let at = frame.from.min(machine.done.len());
    machine.done.push(term)?;
    let whole = gather(alloc, facts, machine, frame.op, at, frame.waits)?;
    Ok(whole)
}

/// All frames are left, from the innermost on, with a term in its hole: the whole term.
#[inline(never)]
pub(crate) fn whole(
    alloc: Global,
    facts: &Facts,
    machine: &mut Machine<'_>,
    term: Term,
) -> Result<Term, AllocError>
    ensures { (K : Run) (k : ℕ) → IsRun K facts.now → (h : Stands K k (data_of K.over machine.old) term)
        → IfOk result (λ t. IsWhole K k (data_of K.over machine.new) t
        × (t ≡ in_whole K.over.signature h.stand.opens h.stand.hand)) }
{
    let mut term = term;
    while let Some(frame) = machine.frames.pop() {
        term = put_together(alloc, facts, machine, frame, term)?;
        machine.kept.leave()?;
    }
    Ok(term)
}

/// What is in hand as a term.
fn term_of_hand(
    alloc: Global,
    facts: &Facts,
    machine: &mut Machine<'_>,
    hand: Hand<'_>,
) -> Result<Term, AllocError>
    ensures { (K : Run) (k : ℕ) → IsRun K facts.now → Holds K k (data_of K.over machine.old) hand.entry
        → IfOk result (Stands K k (data_of K.over machine.new)) }
{
    match hand {
        Hand::One(job) => {
            let term = term_in(alloc, facts, machine.kept.values(), job)?;
            Ok(term)
        }
        Hand::Over(frame) => {
            let at = frame.from.min(machine.done.len());
            let term = gather(alloc, facts, machine, frame.op, at, frame.waits)?;
            Ok(term)
        }
    }
}

/// The whole, wherever the machine stands: all frames are left.
#[inline(never)]
pub fn stop(
    alloc: Global,
    facts: &Facts,
    machine: &mut Machine<'_>,
    hand: Hand<'_>,
) -> Result<Term, AllocError>
    ensures { (K : Run) (k : ℕ) → IsRun K facts.now → Holds K k (data_of K.over machine.old) hand.entry
        → IfOk result (IsWhole K k (data_of K.over machine.new)) }
{
    let term = term_of_hand(alloc, facts, machine, hand)?;
    let whole = whole(alloc, facts, machine, term)?;
    Ok(whole)
}
