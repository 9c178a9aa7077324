// What is in hand is replaced, and several arguments are gone into.
ghost use Rattle.std.specs.Prelude.{◌≡◌, ◌≤◌, ℕ, suc, Bool, true, IfOk, OnOk};
ghost use Rattle.std.specs.Prelude.{List, [], ◌∷◌, ◌++◌, length, reverse};
ghost use Rattle.mw_logic.specs.Term.{RawTerm, apply as applied, join};
ghost use Rattle.mw_logic.specs.Terms.{terms_of};
ghost use Rattle.mw_logic.specs.Signature.{Signature};
ghost use Rattle.mw_logic.specs.Parts.{is_assoc};
ghost use Rattle.mw_logic.specs.Module.{Module};
ghost use Rattle.mw_logic.specs.NormalForm.{is_comm as comm_of};
ghost use Rattle.mw_arguments.specs.Places.{chosen, others};
ghost use Rattle.mw_matching.specs.Matches.{evaluated};
ghost use Rattle.mw_frames.specs.Several.{IsSeveral};
ghost use Rattle.mw_frames.specs.State.{Run, after_one, IsRun, InHand};
ghost use Rattle.mw_trail.specs.Tracks.{moves};
ghost use Rattle.mw_frames.specs.Machines.{data_of, all_moves};
ghost use Rattle.mw_frames.specs.Arrivals.{IsNewFrame};
ghost use Rattle.mw_frames.specs.Redex.{MayFire, HasInHand, HasOnTop};
ghost use Rattle.mw_frames.specs.Taking.{waiting_normal, IsLeft, IsPartAsked, Receives};
ghost use Rattle.mw_frames.specs.declared.job.Job.{Job as JobOf};
ghost use Rattle.mw_frames.specs.declared.job.Job.TheVariants.{Try as TryOf};
ghost use Rattle.mw_frames.specs.declared.job.Frame.{Frame as FrameOf};

use crate::job::{Frame, Job};
use crate::machine::Machine;
use mw_canon::{Axioms, Facts};
use mw_term::{OpId, Term};
use mw_trail::Trail;
use std::alloc::{AllocError, Global};
use std::mem::replace;

/// What shows a condition, side after side, comes behind what is kept, and is taken.
fn show(alloc: Global, kept: &mut Trail, sides: &mut Vec<Trail>) -> Result<(), AllocError>
    ensures moves { OnOk result ((M : Module) → moves M kept.new ≡ moves M kept.old ++ all_moves M sides.old.items) }
    ensures values { OnOk result ((es : List RawTerm) × (kept.new.values ≡ kept.old.values ++ es)) }
    ensures taken { OnOk result (sides.new.items ≡ []) }
{
    sides.reverse();
    while let Some(side) = sides.pop() {
        let before = replace(kept, Trail::new(alloc));
        *kept = before.followed_by(side)?;
    }
    Ok(())
}

/// The statement of this number is applied to the term in hand, by these values, which are taken, behind what shows its
/// condition. It is told behind how many other values they are kept.
#[inline(always)]
pub(crate) fn apply_whole(
    alloc: Global,
    machine: &mut Machine<'_>,
    number: usize,
    sides: &mut Vec<Trail>,
    values: &mut Vec<Term>,
) -> Result<usize, AllocError>
    ensures means { (K : Run) (b : Bool) (k : ℕ) (sig : Signature) (right w : RawTerm) → IsRun K sig
        → MayFire K b k (data_of K.over machine.old) number (all_moves K.over sides.old.items) values.old.items right w
        → OnOk result (HasInHand (after_one b K) (suc k) (data_of K.over machine.new)
        (evaluated K.over.signature values.old.items right)) }
    ensures frames { machine.new.frames.items ≡ machine.old.frames.items }
    ensures done { machine.new.done.items ≡ machine.old.done.items }
    ensures jobs { machine.new.jobs.items ≡ machine.old.jobs.items }
    ensures values { IfOk result (λ base. (us : List RawTerm) × (base ≡ length us) × (machine.new.kept.values ≡ us ++ values.old.items)) }
    ensures taken { OnOk result (sides.new.items ≡ []) }
{
    show(alloc, &mut machine.kept, sides)?;
    let base = machine.kept.values().len();
    machine.kept.apply(number, values)?;
    Ok(base)
}

/// Whether the operator is commutative.
pub(crate) fn is_comm(facts: &Facts, operator: OpId) -> bool
    ensures { result ≡ comm_of facts.now operator }
{
    match facts.axioms(operator) {
        Axioms::Plain | Axioms::Successor => false,
        Axioms::Commutative => true,
        Axioms::Associative { comm, .. } => comm,
    }
}

/// Sets apart the terms, numbered from `first` on, that have one of these numbers. The others come behind those that
/// were found.
fn set_apart(
    alloc: Global,
    first: u32,
    numbers: &[u32],
    terms: Vec<Term>,
    found: &mut Vec<Term>,
) -> Result<Vec<Term>, AllocError>
    ensures taken { IfOk result (λ ts. terms_of ts.items ≡ chosen first numbers.now (terms_of terms.items)) }
    ensures left { OnOk result (terms_of found.new.items
        ≡ join (terms_of found.old.items) (others first numbers.now (terms_of terms.items))) }
{
    let mut taken = Vec::new(alloc);
    let mut next = 0;
    for (i, term) in terms.into_iter().enumerate() {
        if next < numbers.len() && numbers[next] as usize == first as usize + i {
            next += 1;
            taken.push(term)?;
        } else {
            found.push(term)?;
        }
    }
    Ok(taken)
}

/// Terms that are normal wait, the first one next.
fn wait_normal<'m>(terms: Vec<Term>, jobs: &mut Vec<Job<'m>>) -> Result<(), AllocError>
    ensures { OnOk result (jobs.new.items ≡ jobs.old.items ++ waiting_normal terms.items) }
{
    let mut terms = terms;
    while let Some(term) = terms.pop() {
        jobs.push(Job::Normal(term))?;
    }
    Ok(())
}

/// Sets apart the terms, numbered from `first` on, that have one of these numbers. The others wait, the first one next.
fn wait_others(
    alloc: Global,
    first: u32,
    numbers: &[u32],
    terms: Vec<Term>,
    jobs: &mut Vec<Job<'_>>,
) -> Result<Vec<Term>, AllocError>
    ensures taken { IfOk result (λ ts. terms_of ts.items ≡ chosen first numbers.now (terms_of terms.items)) }
    ensures left { OnOk result ((us : List RawTerm) × (jobs.new.items ≡ jobs.old.items ++ waiting_normal us)
        × (terms_of us ≡ others first numbers.now (terms_of terms.items))) }
{
    let mut waiting = Vec::new(alloc);
    let taken = set_apart(alloc, first, numbers, terms, &mut waiting)?;
    wait_normal(waiting, jobs)?;
    Ok(taken)
}

/// Takes out the arguments that have these numbers, of which there is one: all others are done where their order
/// doesn't matter, else those before the first number are done and those behind it wait.
pub(crate) fn leave_out(
    alloc: Global,
    comm: bool,
    machine: &mut Machine<'_>,
    args: Vec<Term>,
    numbers: &[u32],
) -> Result<Vec<Term>, AllocError>
    ensures taken { (k : ℕ) (ks : List ℕ) → numbers.now ≡ k ∷ ks → 1 ≤ k
        → IfOk result (λ ts. terms_of ts.items ≡ chosen 1 (k ∷ ks) (terms_of args.items)) }
    ensures left { (sig : Signature) (f k : ℕ) (ks : List ℕ) → comm ≡ comm_of sig f → numbers.now ≡ k ∷ ks
        → OnOk result ((os : List RawTerm) × (ys : List JobOf)
        × (machine.new.done.items ≡ machine.old.done.items ++ os)
        × (machine.new.jobs.items ≡ machine.old.jobs.items ++ ys)
        × IsLeft sig f (k ∷ ks) (terms_of args.items) os ys) }
    ensures frames { machine.new.frames.items ≡ machine.old.frames.items }
    ensures kept { machine.new.kept ≡ machine.old.kept }
{
    let first = numbers.first().copied().unwrap_or(0);
    let mut args = args;
    let at = (first as usize).saturating_sub(1).min(args.len());
    let behind = args.split_off(at)?;
    machine.done.append(&mut args)?;
    machine.near = machine.done.len();
    if comm {
        let taken = set_apart(alloc, first, numbers, behind, &mut machine.done)?;
        return Ok(taken);
    }
    let taken = wait_others(alloc, first, numbers, behind, &mut machine.jobs)?;
    Ok(taken)
}

/// Several arguments of the term in hand, whose numbers these are, are gone into: the others come to a new frame of the
/// same operator, in whose hole they stand. They are moved where no other term shares them.
pub(crate) fn take_out(
    alloc: Global,
    facts: &Facts,
    machine: &mut Machine<'_>,
    frame: Frame,
    subject: Term,
    numbers: &[u32],
) -> Result<Vec<Term>, AllocError>
    ensures taken { (sig : Signature) (w : RawTerm) → HasOnTop frame.op subject → IsSeveral sig numbers.now subject w
        → IfOk result (λ ts. w ≡ applied frame.op (terms_of ts.items)) }
    ensures asked { (K : Run) (k : ℕ) (w : RawTerm) → IsRun K facts.now
        → (h : InHand K k (data_of K.over machine.old) (TryOf subject))
        → IsNewFrame facts.now (reverse machine.old.frames.items)
        machine.old.done.items machine.old.jobs.items frame.op frame
        → HasOnTop frame.op subject → IsSeveral facts.now numbers.now subject w
        → OnOk result (IsPartAsked K k (data_of K.over machine.new) frame w h.stand) }
{
    machine.kept.among(numbers)?;
    let args = subject.into_args(alloc)?;
    let taken = leave_out(alloc, is_comm(facts, frame.op), machine, args, numbers)?;
    machine.frames.push(frame)?;
    Ok(taken)
}

/// Out of the hole of the innermost frame, which is open then.
pub(crate) fn leave_hole(machine: &mut Machine<'_>) -> Result<(), AllocError>
    ensures means { (K : Run) (k : ℕ) (sig : Signature) (f : FrameOf) (fs : List FrameOf) (v : RawTerm) → IsRun K sig
        → reverse machine.old.frames.items ≡ f ∷ fs → is_assoc K.over.signature f.op ≡ true
        → HasInHand K k (data_of K.over machine.old) v → OnOk result (Receives K k (data_of K.over machine.new) f v) }
    ensures values { OnOk result (machine.new.kept.values ≡ machine.old.kept.values) }
{
    let _ = machine.frames.pop();
    machine.kept.leave()?;
    Ok(())
}
