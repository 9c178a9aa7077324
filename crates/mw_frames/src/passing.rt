// From argument to argument of a frame, and from a hole into its frame.
ghost use Rattle.std.specs.Prelude.{◌≡◌, ◌⊎◌, ◌≤◌, ◌<◌, ◌+◌, ◌++◌, ℕ, List, suc, [], ◌∷◌, IfOk, OnOk, IsTrue, IsFalse, Some, true, false, length, drop, take, MatchOption, reverse};
ghost use Rattle.mw_logic.specs.Signature.{Signature};
ghost use Rattle.mw_logic.specs.Term.{RawTerm, join};
ghost use Rattle.mw_logic.specs.Module.{Module};
ghost use Rattle.mw_logic.specs.Parts.{is_assoc as assoc_of};
ghost use Rattle.mw_logic.specs.NormalForm.{arranged, is_comm as comm_of};
ghost use Rattle.mw_logic.proofs.Canonical.{Each};
ghost use Rattle.mw_deduction.specs.Replay.{into};
ghost use Rattle.mw_trail.specs.Tracks.{moves};
ghost use Rattle.mw_stack.specs.Own.{own, spread, IsOrdered};
ghost use Rattle.mw_frames.specs.Jobs.{term_of, work};
ghost use Rattle.mw_frames.specs.State.{Run, IsRun, InHand, Settled, Holds, IsDone, IsAtHand};
ghost use Rattle.mw_frames.specs.Lists.{EndsNormal, IsLongList};
ghost use Rattle.mw_frames.specs.Steps.{Answers, FallsBelow};
ghost use Rattle.mw_frames.specs.Machines.{data_of, with_job, FallsFrom, StaysFrom, IsCutAt};
ghost use Rattle.mw_frames.specs.declared.job.Job.{Job as JobOf};
ghost use Rattle.mw_frames.specs.declared.job.Job.TheVariants.{Normal as NormalOf};
ghost use Rattle.mw_frames.specs.declared.job.Frame.{Frame as FrameOf};

use crate::job::{Frame, Hand, Job};
use crate::limits::cut;
use crate::looking::Step;
use crate::machine::{Machine, taken_near};
use crate::waiting::term_at;
use crate::whole::pop_behind;
use mw_canon::{Axioms, Facts};
use mw_stack::{close, close_before, place_of, put, put_near};
use mw_term::{OpId, Term, View};
use std::alloc::{AllocError, Global};

/// A list of so many elements that ends the arguments of a frame, or begins them, isn't taken apart.
const LONG: usize = 8;

#[inline(always)]
pub(crate) fn is_assoc(facts: &Facts, operator: OpId) -> bool
    ensures { result ≡ assoc_of facts.now operator }
{
    matches!(facts.axioms(operator), Axioms::Associative { .. })
}

/// How many of a frame's arguments stand before the one that comes next.
#[inline(always)]
fn before(facts: &Facts, done: &[Term], top: Frame, job: &Job<'_>) -> usize
    ensures { (vs : List RawTerm) → (comm_of facts.now top.op ≡ true → IsAtHand job.now) → IsOrdered facts.now top.op (own top.from done.now)
        → IsCutAt facts.now top.op (own top.from done.now) (term_of facts.now vs job.now) result }
{
    match term_at(job) {
        Some(term) => place_of(facts, top.op, done, top.from, term),
        None => done.len().saturating_sub(top.from),
    }
}

/// Whether an argument that comes next has others beside it, where an operator that is associative needs them.
#[inline(always)]
pub(crate) fn stands_beside(facts: &Facts, machine: &Machine<'_>, top: Frame) -> bool
    ensures no { IsFalse result → (assoc_of facts.now top.op ≡ true) × (length machine.now.done.items ≤ top.from) × (length machine.now.jobs.items ≤ top.waits) }
    ensures yes { IsTrue result → assoc_of facts.now top.op ≡ true → (top.from < length machine.now.done.items) ⊎ (top.waits < length machine.now.jobs.items) }
{
    if machine.done.len() > top.from || machine.jobs.len() > top.waits {
        return true;
    }
    !is_assoc(facts, top.op)
}

/// Into an argument of a frame, with so many before it.
#[inline(always)]
pub(crate) fn go_in(machine: &mut Machine<'_>, top: Frame, before: usize) -> Result<(), AllocError>
    ensures frames { OnOk result (machine.new.frames.items ≡ machine.old.frames.items ++ top ∷ []) }
    ensures done { OnOk result (machine.new.done.items ≡ machine.old.done.items) }
    ensures jobs { OnOk result (machine.new.jobs.items ≡ machine.old.jobs.items) }
    ensures values { OnOk result (machine.new.kept.values ≡ machine.old.kept.values) }
    ensures moves { OnOk result ((M : Module) → moves M machine.new.kept ≡ moves M machine.old.kept ++ into (suc before) ∷ []) }
{
    let Some(number) = before.checked_add(1) else {
        return Err(AllocError);
    };
    machine.kept.enter(number)?;
    machine.frames.push(top)?;
    Ok(())
}

/// The next argument of a frame goes in hand, or is done where it is known to be normal; none where that is so or none
/// waits.
pub(crate) fn pass_one<'m>(
    alloc: Global,
    facts: &Facts,
    machine: &mut Machine<'m>,
    top: Frame,
) -> Result<Option<Hand<'m>>, AllocError>
    ensures means { (K : Run) (k : ℕ) → IsRun K facts.now → Settled K k (data_of K.over machine.old) top
        → IfOk result (λ o. MatchOption o (Settled K k (data_of K.over machine.new) top) (Holds K k (data_of K.over machine.new))) }
    ensures falls { (M : Module) → IfOk result (λ o. MatchOption o (StaysFrom M top (data_of M machine.old) machine.new)
        (FallsFrom M top (data_of M machine.old) machine.new)) }
{
    match pop_behind(&mut machine.jobs, top.waits) {
        None => Ok(None),
        Some(Job::Normal(term)) => {
            put(alloc, facts, top.op, &mut machine.done, top.from, term)?;
            Ok(None)
        }
        Some(job) => {
            let hand = enter(facts, machine, top, job)?;
            Ok(Some(hand))
        }
    }
}

/// A job that waited goes in hand. An associative operator with that argument alone is gone.
#[inline(always)]
fn enter<'m>(
    facts: &Facts,
    machine: &mut Machine<'m>,
    top: Frame,
    job: Job<'m>,
) -> Result<Hand<'m>, AllocError>
    ensures means { (K : Run) (k : ℕ) → IsRun K facts.now → top.waits ≤ length machine.old.jobs.items → Settled K k (with_job (data_of K.over machine.old) job.entry) top
        → IfOk result (Holds K k (data_of K.over machine.new)) }
    ensures falls { (M : Module) → IfOk result (FallsFrom M top (with_job (data_of M machine.old) job.entry) machine.new) }
{
    if !stands_beside(facts, machine, top) {
        return Ok(Hand::One(job));
    }
    let before = before(facts, machine.done.as_slice(), top, &job);
    go_in(machine, top, before)?;
    Ok(Hand::One(job))
}

/// All arguments of a frame are done: the term that it is.
#[inline(never)]
pub(crate) fn finish<'m>(
    alloc: Global,
    facts: &Facts,
    machine: &mut Machine<'m>,
    top: Frame,
) -> Result<Hand<'m>, AllocError>
    ensures means { (K : Run) (k : ℕ) → IsRun K facts.now → length machine.old.jobs.items ≤ top.waits → Settled K k (data_of K.over machine.old) top
        → IfOk result (Holds K k (data_of K.over machine.new)) }
    ensures falls { (M : Module) → IfOk result (FallsFrom M top (data_of M machine.old) machine.new) }
{
    let own = machine.done.len().saturating_sub(top.from);
    let term = close(alloc, facts, top.op, &mut machine.done, top.from)?;
    if own == 1 && is_assoc(facts, top.op) {
        return Ok(Hand::One(Job::Normal(term)));
    }
    Ok(Hand::One(Job::Try(term)))
}

/// The next argument of a frame that isn't known to be normal goes in hand, and those before it are done; none where
/// all are done.
#[inline(always)]
pub(crate) fn pass<'m>(
    alloc: Global,
    facts: &Facts,
    machine: &mut Machine<'m>,
    top: Frame,
) -> Result<Option<Hand<'m>>, AllocError>
    ensures means { (K : Run) (k : ℕ) → IsRun K facts.now → Settled K k (data_of K.over machine.old) top
        → IfOk result (λ o. MatchOption o (Settled K k (data_of K.over machine.new) top × (length machine.new.jobs.items ≤ top.waits))
        (Holds K k (data_of K.over machine.new))) }
    ensures falls { (M : Module) → IfOk result (λ o. MatchOption o (StaysFrom M top (data_of M machine.old) machine.new)
        (FallsFrom M top (data_of M machine.old) machine.new)) }
{
    while let Some(job) = pop_behind(&mut machine.jobs, top.waits) {
        match job {
            Job::Normal(term) => {
                put(alloc, facts, top.op, &mut machine.done, top.from, term)?;
            }
            job => {
                let hand = enter(facts, machine, top, job)?;
                return Ok(Some(hand));
            }
        }
    }
    Ok(None)
}

/// A term leaves the hole of a frame, where it is done. The operator is neither associative nor commutative.
#[inline(always)]
pub(crate) fn leave(machine: &mut Machine<'_>, top: Frame, term: Term) -> Result<(), AllocError>
    ensures means { (K : Run) (k : ℕ) (sig : Signature) (fs : List FrameOf) (x : JobOf) → IsRun K sig
        → assoc_of sig top.op ≡ false → comm_of sig top.op ≡ false → reverse machine.old.frames.items ≡ fs
        → term_of K.over.signature machine.old.kept.values x ≡ term
        → InHand K k (record (data_of K.over machine.old) { frames = top ∷ fs }) x
        → Each (IsDone K.over K.rank top.op) (spread K.over.signature top.op term)
        → OnOk result (Settled K k (data_of K.over machine.new) top) }
    ensures same { OnOk result ((machine.new.frames.items ≡ machine.old.frames.items) × (machine.new.jobs.items ≡ machine.old.jobs.items) × (machine.new.kept.values ≡ machine.old.kept.values)) }
{
    machine.done.push(term)?;
    machine.kept.leave()?;
    Ok(())
}

/// A term leaves the hole of a frame, where it is done. It is looked for first where arguments were taken out.
fn leave_near(
    alloc: Global,
    facts: &Facts,
    machine: &mut Machine<'_>,
    top: Frame,
    term: Term,
) -> Result<(), AllocError>
    ensures means { (K : Run) (k : ℕ) (fs : List FrameOf) (x : JobOf) → IsRun K facts.now → reverse machine.old.frames.items ≡ fs → term_of K.over.signature machine.old.kept.values x ≡ term
        → InHand K k (record (data_of K.over machine.old) { frames = top ∷ fs }) x → Each (IsDone K.over K.rank top.op) (spread K.over.signature top.op term)
        → IfOk result (λ _. Settled K k (data_of K.over machine.new) top) }
    ensures same { OnOk result ((machine.new.frames.items ≡ machine.old.frames.items) × (machine.new.jobs.items ≡ machine.old.jobs.items) × (machine.new.kept.values ≡ machine.old.kept.values)) }
{
    machine.kept.leave()?;
    let near = taken_near(&mut machine.near, top.from);
    put_near(
        alloc,
        facts,
        top.op,
        &mut machine.done,
        top.from,
        near,
        term,
    )?;
    Ok(())
}

/// The last argument of a frame leaves its hole: the term that the frame is.
#[inline(never)]
fn leave_last<'m>(
    alloc: Global,
    facts: &Facts,
    machine: &mut Machine<'m>,
    top: Frame,
    term: Term,
) -> Result<Hand<'m>, AllocError>
    ensures means { (K : Run) (k : ℕ) (fs : List FrameOf) (x : JobOf) → IsRun K facts.now
        → length machine.old.jobs.items ≤ top.waits → reverse machine.old.frames.items ≡ fs
        → term_of K.over.signature machine.old.kept.values x ≡ term
        → InHand K k (record (data_of K.over machine.old) { frames = top ∷ fs }) x
        → Each (IsDone K.over K.rank top.op) (spread K.over.signature top.op term)
        → IfOk result (Holds K k (data_of K.over machine.new)) }
    ensures falls { (M : Module) → IfOk result (FallsFrom M top (data_of M machine.old) machine.new) }
{
    machine.kept.leave()?;
    let whole = close_before(alloc, facts, top.op, &mut machine.done, top.from, term)?;
    Ok(Hand::One(Job::Try(whole)))
}

/// A job that waited is done, where it is known to be normal.
fn put_normal(
    alloc: Global,
    facts: &Facts,
    done: &mut Vec<Term>,
    top: Frame,
    job: Option<Job<'_>>,
) -> Result<(), AllocError>
    ensures below { top.from ≤ length done.old.items → OnOk result (take top.from done.new.items ≡ take top.from done.old.items) }
    ensures own { (t : RawTerm) → job.entry ≡ Some (NormalOf t) → top.from ≤ length done.old.items
        → IsOrdered facts.now top.op (own top.from done.old.items) → IsOrdered facts.now top.op (spread facts.now top.op t)
        → OnOk result (own top.from done.new.items ≡ arranged (comm_of facts.now top.op) (join (own top.from done.old.items) (spread facts.now top.op t))) }
{
    match job {
        None => Ok(()),
        Some(Job::Normal(term)) => put(alloc, facts, top.op, done, top.from, term),
        Some(_other) => Ok(()),
    }
}

/// The first argument of a frame leaves its hole, a long list, and the last one waits: the term that the frame is.
#[inline(never)]
fn leave_first<'m>(
    alloc: Global,
    facts: &Facts,
    machine: &mut Machine<'m>,
    top: Frame,
    first: Term,
) -> Result<Hand<'m>, AllocError>
    requires done { length machine.old.done.items ≡ top.from }
    ensures means { (K : Run) (k : ℕ) (fs : List FrameOf) (x : JobOf) → IsRun K facts.now
        → EndsNormal machine.old.jobs.items top.waits → IsLongList facts.now top.op first
        → reverse machine.old.frames.items ≡ fs → term_of K.over.signature machine.old.kept.values x ≡ first
        → InHand K k (record (data_of K.over machine.old) { frames = top ∷ fs }) x
        → Each (IsDone K.over K.rank top.op) (spread K.over.signature top.op first)
        → IfOk result (Holds K k (data_of K.over machine.new)) }
    ensures falls { (M : Module) → IfOk result (FallsFrom M top (data_of M machine.old) machine.new) }
{
    machine.kept.leave()?;
    let last = pop_behind(&mut machine.jobs, top.waits);
    put_normal(alloc, facts, &mut machine.done, top, last)?;
    let whole = Term::apply_after(alloc, top.op, first, &mut machine.done, top.from)?;
    Ok(Hand::One(Job::Try(whole)))
}

/// Whether a term that leaves the hole of a frame is a long list under the frame's operator, before which others stand,
/// and no argument waits.
fn ends_list(facts: &Facts, machine: &Machine<'_>, top: Frame, term: &Term) -> bool
    ensures { IsTrue result → length machine.now.jobs.items ≤ top.waits }
{
    if machine.jobs.len() > top.waits || machine.done.len() <= top.from {
        return false;
    }
    is_long_list(facts, top.op, term)
}

/// Whether a term that leaves the hole of a frame is a long list under the frame's operator, before which none stands,
/// and one argument waits, which is known to be normal.
fn begins_list(facts: &Facts, machine: &Machine<'_>, top: Frame, term: &Term) -> bool
    ensures done { IsTrue result → length machine.now.done.items ≡ top.from }
    ensures jobs { IsTrue result → EndsNormal machine.now.jobs.items top.waits }
    ensures list { IsTrue result → IsLongList facts.now top.op term.now }
{
    if machine.done.len() != top.from || !ends_normal(machine.jobs.as_slice(), top.waits) {
        return false;
    }
    is_long_list(facts, top.op, term)
}

/// Whether one argument waits behind a place, and is known to be normal.
fn ends_normal(jobs: &[Job<'_>], waits: usize) -> bool
    ensures { IsTrue result → EndsNormal jobs.now waits }
{
    match cut(jobs, waits).1 {
        [Job::Normal(_)] => true,
        _ => false,
    }
}

/// Whether a term is a long list of elements of an operator that is associative and keeps the order.
fn is_long_list(facts: &Facts, operator: OpId, term: &Term) -> bool
    ensures { IsTrue result → IsLongList facts.now operator term.now }
{
    match term.view() {
        View::Op(f, args) if f == operator && args.len() >= LONG => keeps_order(facts, operator),
        _ => false,
    }
}

/// Whether an operator is associative and keeps the order.
fn keeps_order(facts: &Facts, operator: OpId) -> bool
    ensures { IsTrue result → (assoc_of facts.now operator ≡ true) × (comm_of facts.now operator ≡ false) }
{
    match facts.axioms(operator) {
        Axioms::Associative { comm, .. } => !comm,
        _ => false,
    }
}

/// A term leaves the hole of a frame. What a long list ends, or begins before one argument, is one term at once.
#[inline(never)]
pub(crate) fn go_out<'m>(
    alloc: Global,
    facts: &Facts,
    machine: &mut Machine<'m>,
    top: Frame,
    term: Term,
) -> Result<Step<'m>, AllocError>
    ensures means { (K : Run) (k : ℕ) (fs : List FrameOf) (x : JobOf) → IsRun K facts.now
        → reverse machine.old.frames.items ≡ fs → term_of K.over.signature machine.old.kept.values x ≡ term
        → InHand K k (record (data_of K.over machine.old) { frames = top ∷ fs }) x
        → Each (IsDone K.over K.rank top.op) (spread K.over.signature top.op term)
        → IfOk result (Answers K k (data_of K.over machine.new)) }
    ensures falls { (M : Module) (w : ℕ) → 2 ≤ w → IfOk result (FallsBelow M (w + work M.signature machine.old.kept.values
        (top ∷ reverse machine.old.frames.items) machine.old.jobs.items) machine.new) }
{
    if ends_list(facts, machine, top, &term) {
        let hand = leave_last(alloc, facts, machine, top, term)?;
        return Ok(Step::Goes(hand));
    }
    if begins_list(facts, machine, top, &term) {
        let hand = leave_first(alloc, facts, machine, top, term)?;
        return Ok(Step::Goes(hand));
    }
    leave_near(alloc, facts, machine, top, term)?;
    Ok(Step::Goes(Hand::Over(top)))
}
