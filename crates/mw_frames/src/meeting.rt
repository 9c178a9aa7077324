// A row of the schemata is met.
ghost use Rattle.std.specs.Prelude.{◌≡◌, ◌++◌, ◌∷◌, [], ℕ, List, suc, false, IsTrue, IfOk, OnOk, None, reverse, take as take_first};
ghost use Rattle.mw_logic.specs.Term.{RawTerm};
ghost use Rattle.mw_logic.specs.Signature.{Signature, IsRawTerm};
ghost use Rattle.mw_logic.specs.Parts.{nested, IsClean};
ghost use Rattle.mw_logic.specs.NormalForm.{normal_form};
ghost use Rattle.mw_logic.specs.Module.{Module};
ghost use Rattle.mw_logic.specs.WellFormed.{IsWellFormed};
ghost use Rattle.mw_stack.specs.Own.{spread};
ghost use Rattle.mw_trail.specs.Tracks.{moves};
ghost use Rattle.mw_frames.specs.Several.{IsSeveral};
ghost use Rattle.mw_frames.specs.Jobs.{term_of};
ghost use Rattle.mw_deduction.specs.Replay.{Stand};
ghost use Rattle.mw_frames.specs.State.{Run, IsRun, InHand, Settled, HasNormalArguments, IsJob, IsAtHand};
ghost use Rattle.mw_frames.specs.Machines.{data_of};
ghost use Rattle.mw_frames.specs.Arrivals.{Comes, KeepsFrames};
ghost use Rattle.mw_frames.specs.Redex.{IsRowOf, MayMeetRow, HasInHand};
ghost use Rattle.mw_frames.specs.Larger.{IsFit};
ghost use Rattle.mw_frames.specs.Taking.{IsPartAsked};
ghost use Rattle.mw_frames.specs.Steps.{IsAsked, IsComplete, IsAskedFor, asked_term};
ghost use Rattle.mw_frames.specs.Fires.{IsPartTaken, IsFired, IsWhole, HasPart};
ghost use Rattle.mw_frames.specs.declared.job.Job.{Job as JobOf};
ghost use Rattle.mw_frames.specs.declared.job.Job.TheVariants.{Walk as WalkOf};
ghost use Rattle.mw_frames.specs.declared.looking.Asked.TheVariants.{Own as OwnOf};
ghost use Rattle.mw_frames.specs.declared.limits.Fit.TheVariants.{Fits as FitsOf};

use crate::applying::{Fired, all_around, refuse, refuse_part, top_of};
use crate::coming::{is_commutative, pieces};
use crate::firing::{leave_hole, take_out};
use crate::job::{Frame, Hand, Job};
use crate::limits::{Around, Fit, cut, fit_built, is_branch};
use crate::looking::Asked;
use crate::machine::Machine;
use crate::opening::new_frame;
use crate::waiting::{wait_job, wait_terms};
use crate::whole::whole;
use mw_canon::Facts;
use mw_stack::close;
use mw_term::{Seq, Term, copy};
use std::alloc::{AllocError, Global};

/// What comes of a row as a job: a numeral or constant is tried, a branch of a choice is normal.
#[inline(always)]
fn met_job<'m>(to: Term) -> Job<'m>
    ensures term { (sig : Signature) (vs : List RawTerm) → term_of sig vs result ≡ to }
    ensures known { (M : Module) (n : ℕ) (vs : List RawTerm) (w : RawTerm) → IsRowOf M n w to → IsWellFormed M
        → HasNormalArguments M n w → IsJob M n vs result }
    ensures at_hand { IsAtHand result }
{
    if is_branch(&to) {
        Job::Normal(to)
    } else {
        Job::Try(to)
    }
}

/// The row is met at what is in hand.
#[inline(always)]
fn meet_here(machine: &mut Machine<'_>, to: &Term) -> Result<(), AllocError>
    ensures means { (K : Run) (k : ℕ) (sig : Signature) (w : RawTerm) → IsRun K sig
        → MayMeetRow K k (data_of K.over machine.old) w to.now
        → OnOk result (HasInHand K (suc k) (data_of K.over machine.new) to.now) }
    ensures frames { machine.new.frames.items ≡ machine.old.frames.items }
{
    machine.kept.row(copy(to)?)?;
    Ok(())
}

/// Whether what comes may stand where the term in hand does.
#[inline(always)]
fn fit_row(
    alloc: Global,
    facts: &Facts,
    machine: &Machine<'_>,
    to: &Term,
) -> Result<Fit, AllocError>
    ensures { (K : Run) (k : ℕ) (w : RawTerm) → IsRun K facts.now → (h : InHand K k (data_of K.over machine.now) (WalkOf w))
        → IsRowOf K.over K.rank w to.now
        → IfOk result (IsFit K.over.signature (reverse machine.now.frames.items) h.stand.opens to.now) }
{
    let around = all_around(machine);
    let fit = fit_built(alloc, facts, around, to, false)?;
    Ok(fit)
}

/// The row is met at the term in hand.
fn meet_whole<'m>(
    alloc: Global,
    facts: &Facts,
    machine: &mut Machine<'m>,
    term: Term,
    to: Term,
) -> Result<Fired<'m>, AllocError>
    ensures { (K : Run) (k : ℕ) → IsRun K facts.now → IsAsked K k (data_of K.over machine.old) term
        → IsRowOf K.over K.rank term to → IfOk result (IsFired K false k (data_of K.over machine.new)) }
{
    match fit_row(alloc, facts, machine, &to)? {
        Fit::Fits => {
            meet_here(machine, &to)?;
            Ok(Fired::Goes(Hand::One(met_job(to))))
        }
        Fit::TooDeep => {
            let fired = refuse(alloc, facts, machine, term, true)?;
            Ok(fired)
        }
        Fit::TooLarge => {
            let fired = refuse(alloc, facts, machine, term, false)?;
            Ok(fired)
        }
    }
}

/// What comes of a row comes to a frame, in front of what waits there, or in order among it.
fn wait_met<'m>(
    facts: &Facts,
    machine: &mut Machine<'m>,
    frame: Frame,
    to: Term,
) -> Result<(), AllocError>
    ensures keeps { OnOk result (KeepsFrames machine.old machine.new) }
    ensures comes { (vs : List RawTerm) → OnOk result (Comes facts.now vs frame (spread facts.now frame.op to)
        (λ M n. (w : RawTerm) × IsRowOf M n w to × IsWellFormed M × HasNormalArguments M n w)
        machine.old.done.items machine.new.done.items machine.old.jobs.items machine.new.jobs.items) }
{
    let comm = is_commutative(facts, frame.op);
    match pieces(facts, frame.op, &to) {
        Some(elements) => wait_terms(comm, &mut machine.jobs, frame.waits, elements),
        None => wait_job(comm, &mut machine.jobs, frame.waits, met_job(to)),
    }
}

/// The row is met at what is in hand, which several arguments are: what comes of it comes among the others.
fn meet_part<'m>(
    facts: &Facts,
    machine: &mut Machine<'m>,
    frame: Frame,
    to: Term,
) -> Result<(), AllocError>
    ensures { (K : Run) (k : ℕ) (w : RawTerm) (S : Stand) → IsRun K facts.now
        → IsPartAsked K k (data_of K.over machine.old) frame w S
        → MayMeetRow K k (data_of K.over machine.old) w to
        → OnOk result (Settled K (suc k) (data_of K.over machine.new) frame) }
{
    meet_here(machine, &to)?;
    leave_hole(machine)?;
    wait_met(facts, machine, frame, to)?;
    Ok(())
}

/// The row is met at the arguments of these numbers of the term in hand.
fn meet_several<'m>(
    alloc: Global,
    facts: &Facts,
    machine: &mut Machine<'m>,
    term: Term,
    to: Term,
    numbers: &[u32],
) -> Result<Fired<'m>, AllocError>
    ensures { (K : Run) (k : ℕ) (w : RawTerm) → IsRun K facts.now → IsAsked K k (data_of K.over machine.old) term
        → IsSeveral facts.now numbers.now term w → IsRowOf K.over K.rank w to
        → IfOk result (IsFired K false k (data_of K.over machine.new)) }
{
    let frame = new_frame(facts, machine, top_of(&term))?;
    let taken = take_out(alloc, facts, machine, frame, term, numbers)?;
    match fit_row(alloc, facts, machine, &to)? {
        Fit::Fits => {
            meet_part(facts, machine, frame, to)?;
            Ok(Fired::Goes(Hand::Over(frame)))
        }
        Fit::TooDeep => {
            let fired = refuse_part(alloc, facts, machine, frame.op, taken, true)?;
            Ok(fired)
        }
        Fit::TooLarge => {
            let fired = refuse_part(alloc, facts, machine, frame.op, taken, false)?;
            Ok(fired)
        }
    }
}

/// The row is met at the term in hand, or at several of its arguments.
#[inline(never)]
fn meet_term<'m>(
    alloc: Global,
    facts: &Facts,
    machine: &mut Machine<'m>,
    term: Term,
    to: Term,
    take: &Option<Seq<u32>>,
) -> Result<Fired<'m>, AllocError>
    ensures { (K : Run) (k : ℕ) (w : RawTerm) → IsRun K facts.now → IsAsked K k (data_of K.over machine.old) term
        → IsPartTaken facts.now take.now term w → IsRowOf K.over K.rank w to
        → IfOk result (IsFired K false k (data_of K.over machine.new)) }
{
    match take {
        None => {
            let fired = meet_whole(alloc, facts, machine, term, to)?;
            Ok(fired)
        }
        Some(numbers) => {
            let fired = meet_several(alloc, facts, machine, term, to, numbers.as_slice())?;
            Ok(fired)
        }
    }
}

/// Whether what comes may stand where a frame's operator over its own arguments does, all of which are taken.
#[inline(always)]
fn row_fits_own(
    alloc: Global,
    facts: &Facts,
    machine: &Machine<'_>,
    top: Frame,
    to: &Term,
    take: &Option<Seq<u32>>,
) -> Result<bool, AllocError>
    ensures { (K : Run) (k : ℕ) (t : RawTerm) → IsRun K facts.now
        → (h : InHand K k (record {
          frames = reverse machine.now.frames.items;
          done = take_first top.from machine.now.done.items;
          jobs = machine.now.jobs.items;
          values = machine.now.kept.values;
          moves = moves K.over machine.now.kept;
        }) (WalkOf t))
        → (take.now ≡ None → IsRowOf K.over K.rank t to.now)
        → IfOk result (λ b. IsTrue b → (take.now ≡ None)
        × IsFit K.over.signature (reverse machine.now.frames.items) h.stand.opens to.now FitsOf) }
{
    if take.is_some() {
        return Ok(false);
    }
    let around = Around {
        values: machine.kept.values(),
        frames: machine.frames.as_slice(),
        done: cut(machine.done.as_slice(), top.from).0,
        jobs: machine.jobs.as_slice(),
    };
    let fit = fit_built(alloc, facts, around, to, false)?;
    Ok(matches!(fit, Fit::Fits))
}

/// The row is met at a frame's operator over its own arguments, all of which are done.
fn meet_own<'m>(
    alloc: Global,
    facts: &Facts,
    machine: &mut Machine<'m>,
    top: Frame,
    to: Term,
    take: &Option<Seq<u32>>,
) -> Result<Fired<'m>, AllocError>
    ensures { (K : Run) (k : ℕ) (w : RawTerm) → IsRun K facts.now → IsComplete K k (data_of K.over machine.old) top
        → IsPartTaken facts.now take.now (asked_term (data_of K.over machine.old) (OwnOf top)) w → IsRowOf K.over K.rank w to
        → IfOk result (IsFired K false k (data_of K.over machine.new)) }
{
    if row_fits_own(alloc, facts, machine, top, &to, take)? {
        machine.done.truncate(top.from);
        meet_here(machine, &to)?;
        return Ok(Fired::Goes(Hand::One(met_job(to))));
    }
    let term = close(alloc, facts, top.op, &mut machine.done, top.from)?;
    let fired = meet_term(alloc, facts, machine, term, to, take)?;
    Ok(fired)
}

/// A row of the schemata is met at what was asked for, or at several of its arguments, and this comes of it.
pub fn meet<'m>(
    alloc: Global,
    facts: &Facts,
    machine: &mut Machine<'m>,
    asked: Asked,
    to: Term,
    take: &Option<Seq<u32>>,
) -> Result<Fired<'m>, AllocError>
    ensures { (K : Run) (k : ℕ) (w : RawTerm) → IsRun K facts.now → IsAskedFor K k (data_of K.over machine.old) asked
        → IsPartTaken facts.now take.now (asked_term (data_of K.over machine.old) asked) w → IsRowOf K.over K.rank w to
        → IfOk result (IsFired K false k (data_of K.over machine.new)) }
{
    match asked {
        Asked::Term(term) => {
            let fired = meet_term(alloc, facts, machine, term, to, take)?;
            Ok(fired)
        }
        Asked::Own(top) => {
            let fired = meet_own(alloc, facts, machine, top, to, take)?;
            Ok(fired)
        }
    }
}

/// The whole as it stands round several arguments of a term.
fn halt_part(
    alloc: Global,
    facts: &Facts,
    machine: &mut Machine<'_>,
    term: Term,
    numbers: &[u32],
) -> Result<Term, AllocError>
    ensures { (K : Run) (k : ℕ) (w form : RawTerm) → IsRun K facts.now → IsAsked K k (data_of K.over machine.old) term
        → IsSeveral facts.now numbers.now term w → IsRawTerm K.over.signature form → IsClean K.over.signature form
        → normal_form K.over.signature form ≡ w
        → IfOk result (λ t. IsWhole K k (data_of K.over machine.new) t × HasPart K.over.signature (nested K.over.signature t) form) }
{
    let frame = new_frame(facts, machine, top_of(&term))?;
    let taken = take_out(alloc, facts, machine, frame, term, numbers)?;
    let part = Term::apply(alloc, frame.op, taken)?;
    let whole = whole(alloc, facts, machine, part)?;
    Ok(whole)
}

/// The whole as it stands round a term in hand, or several of its arguments.
fn halt_term(
    alloc: Global,
    facts: &Facts,
    machine: &mut Machine<'_>,
    term: Term,
    take: &Option<Seq<u32>>,
) -> Result<Term, AllocError>
    ensures { (K : Run) (k : ℕ) (w form : RawTerm) → IsRun K facts.now → IsAsked K k (data_of K.over machine.old) term
        → IsPartTaken facts.now take.now term w → IsRawTerm K.over.signature form → IsClean K.over.signature form
        → normal_form K.over.signature form ≡ w
        → IfOk result (λ t. IsWhole K k (data_of K.over machine.new) t × HasPart K.over.signature (nested K.over.signature t) form) }
{
    match take {
        None => {
            let whole = whole(alloc, facts, machine, term)?;
            Ok(whole)
        }
        Some(numbers) => {
            let whole = halt_part(alloc, facts, machine, term, numbers.as_slice())?;
            Ok(whole)
        }
    }
}

/// The whole as it stands round what was asked for, or several of its arguments: these are a part of it, in each clean
/// form.
#[inline(never)]
pub fn halt(
    alloc: Global,
    facts: &Facts,
    machine: &mut Machine<'_>,
    asked: Asked,
    take: &Option<Seq<u32>>,
) -> Result<Term, AllocError>
    ensures { (K : Run) (k : ℕ) (w form : RawTerm) → IsRun K facts.now → IsAskedFor K k (data_of K.over machine.old) asked
        → IsPartTaken facts.now take.now (asked_term (data_of K.over machine.old) asked) w
        → IsRawTerm K.over.signature form → IsClean K.over.signature form
        → normal_form K.over.signature form ≡ w
        → IfOk result (λ t. IsWhole K k (data_of K.over machine.new) t × HasPart K.over.signature (nested K.over.signature t) form) }
{
    match asked {
        Asked::Term(term) => {
            let whole = halt_term(alloc, facts, machine, term, take)?;
            Ok(whole)
        }
        Asked::Own(top) => {
            let term = close(alloc, facts, top.op, &mut machine.done, top.from)?;
            let whole = halt_term(alloc, facts, machine, term, take)?;
            Ok(whole)
        }
    }
}
