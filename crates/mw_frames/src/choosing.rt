// A choice is decided by its condition: a branch comes for it, as it waits.
ghost use Rattle.std.specs.Prelude.{◌≡◌, ◌++◌, ◌∷◌, [], ℕ, List, Bool, Some, suc, false, cond, IfOk, IfSome, reverse};
ghost use Rattle.mw_logic.specs.Term.{RawTerm};
ghost use Rattle.mw_logic.specs.Signature.{Signature};
ghost use Rattle.mw_logic.specs.Parts.{nested};
ghost use Rattle.mw_logic.specs.Module.{Module};
ghost use Rattle.mw_deduction.specs.Replay.{whole as in_whole};
ghost use Rattle.mw_frames.specs.Jobs.{term_of};
ghost use Rattle.mw_frames.specs.State.{Run, IsRun, IsJob, Holds};
ghost use Rattle.mw_frames.specs.Machines.{data_of};
ghost use Rattle.mw_frames.specs.Larger.{IsFit};
ghost use Rattle.mw_frames.specs.Steps.{IsDecided};
ghost use Rattle.mw_frames.specs.Fires.{IsFired, Refuses};
ghost use Rattle.mw_frames.specs.declared.job.Job.{Job as JobOf};
ghost use Rattle.mw_frames.specs.declared.limits.Fit.TheVariants.{Fits as FitsOf};

use crate::applying::{Fired, refuse};
use crate::job::{Frame, Hand, Job};
use crate::limits::{Around, Fit, cut, fit_built, job_term};
use crate::machine::Machine;
use crate::whole::gather;
use mw_canon::Facts;
use mw_term::{Term, copy};
use std::alloc::{AllocError, Global};

/// The branch that is taken, of the two jobs that wait last.
fn branch_of<'t, 'm>(jobs: &'t [Job<'m>], truth: bool) -> Option<&'t Job<'m>>
    ensures { (rest : List JobOf) (second first : JobOf) → jobs.now ≡ rest ++ second ∷ first ∷ []
        → IfSome result (λ x. x.now ≡ cond truth first second) }
{
    let back = if truth { 1 } else { 2 };
    jobs.get(jobs.len().saturating_sub(back))
}

/// Takes the two jobs out that wait last, of which one is taken.
fn take_branch<'m>(jobs: &mut Vec<Job<'m>>, truth: bool) -> Option<Job<'m>>
    ensures taken { (rest : List JobOf) (second first : JobOf) → jobs.old.items ≡ rest ++ second ∷ first ∷ []
        → result ≡ Some (cond truth first second) }
    ensures left { (rest : List JobOf) (second first : JobOf) → jobs.old.items ≡ rest ++ second ∷ first ∷ []
        → jobs.new.items ≡ rest }
{
    let first = jobs.pop();
    let second = jobs.pop();
    if truth { first } else { second }
}

/// A part of a right side with its instance, which is built.
fn with_term<'m>(job: Job<'m>, term: &Term) -> Result<Job<'m>, AllocError>
    ensures { (M : Module) (n : ℕ) (vs : List RawTerm) → term_of M.signature vs job.entry ≡ term.now → IsJob M n vs job.entry
        → IfOk result (λ x. (term_of M.signature vs x ≡ term.now) × IsJob M n vs x) }
{
    match job {
        Job::Made(pattern, base, top) => Ok(Job::Built(copy(term)?, pattern, base, top)),
        job => Ok(job),
    }
}

/// Whether the branch may stand where the choice does.
fn fit_branch(
    alloc: Global,
    facts: &Facts,
    machine: &Machine<'_>,
    top: Frame,
    to: &Term,
) -> Result<Fit, AllocError>
    ensures { (K : Run) (k : ℕ) (b : Bool) → IsRun K facts.now → (h : IsDecided K k (data_of K.over machine.now) top b)
        → to.now ≡ term_of K.over.signature machine.now.kept.values (cond b h.first h.second)
        → IfOk result (IsFit K.over.signature (reverse machine.now.frames.items) h.settled.stand.opens to.now) }
{
    let around = Around {
        values: machine.kept.values(),
        frames: machine.frames.as_slice(),
        done: cut(machine.done.as_slice(), top.from).0,
        jobs: cut(machine.jobs.as_slice(), top.waits).0,
    };
    let fit = fit_built(alloc, facts, around, to, false)?;
    Ok(fit)
}

/// The branch comes in hand, as it waited, and the other one is dropped.
fn take_choice<'m>(
    machine: &mut Machine<'m>,
    top: Frame,
    truth: bool,
    to: Term,
) -> Result<Hand<'m>, AllocError>
    ensures { (K : Run) (k : ℕ) (sig : Signature) → IsRun K sig → (h : IsDecided K k (data_of K.over machine.old) top truth)
        → to ≡ term_of K.over.signature machine.old.kept.values (cond truth h.first h.second)
        → IsFit K.over.signature (reverse machine.old.frames.items) h.settled.stand.opens to FitsOf
        → IfOk result (Holds K (suc k) (data_of K.over machine.new)) }
{
    machine.done.truncate(top.from);
    let Some(job) = take_branch(&mut machine.jobs, truth) else {
        return Err(AllocError);
    };
    let job = with_term(job, &to)?;
    machine.kept.row(to)?;
    Ok(Hand::One(job))
}

/// It doesn't come, since the whole would be too deep, or a number in it too large: the whole as it stands.
fn refuse_choice<'m>(
    alloc: Global,
    facts: &Facts,
    machine: &mut Machine<'m>,
    top: Frame,
    deep: bool,
) -> Result<Fired<'m>, AllocError>
    ensures { (K : Run) (k : ℕ) (b : Bool) → IsRun K facts.now → (h : IsDecided K k (data_of K.over machine.old) top b)
        → ((t : RawTerm) → t ≡ in_whole K.over.signature h.settled.stand.opens h.settled.stand.hand → Refuses K false deep (nested K.over.signature t))
        → IfOk result (IsFired K false k (data_of K.over machine.new)) }
{
    let at = top.from.min(machine.done.len());
    let term = gather(alloc, facts, machine, top.op, at, top.waits)?;
    let fired = refuse(alloc, facts, machine, term, deep)?;
    Ok(fired)
}

/// A row is met at a choice whose condition is this truth value: one of its branches comes, as it waits.
#[inline(never)]
pub fn decide<'m>(
    alloc: Global,
    facts: &Facts,
    machine: &mut Machine<'m>,
    top: Frame,
    truth: bool,
) -> Result<Fired<'m>, AllocError>
    ensures { (K : Run) (k : ℕ) → IsRun K facts.now → IsDecided K k (data_of K.over machine.old) top truth
        → IfOk result (IsFired K false k (data_of K.over machine.new)) }
{
    let Some(job) = branch_of(machine.jobs.as_slice(), truth) else {
        return Err(AllocError);
    };
    let to = job_term(alloc, facts, machine.kept.values(), job)?;
    match fit_branch(alloc, facts, machine, top, &to)? {
        Fit::Fits => {
            let hand = take_choice(machine, top, truth, to)?;
            Ok(Fired::Goes(hand))
        }
        Fit::TooDeep => {
            let fired = refuse_choice(alloc, facts, machine, top, true)?;
            Ok(fired)
        }
        Fit::TooLarge => {
            let fired = refuse_choice(alloc, facts, machine, top, false)?;
            Ok(fired)
        }
    }
}
