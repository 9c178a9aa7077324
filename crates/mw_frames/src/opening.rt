// Terms and right sides in hand are opened into frames.
ghost use Rattle.std.specs.Prelude.{◌≡◌, ◌⊎◌, ◌<◌, ℕ, drop, reverse, true, false};
ghost use Rattle.std.specs.Prelude.{IsTrue, IsFalse, IsNone, IfOk, IfSome};
ghost use Rattle.mw_logic.specs.Term.{numeral, apply as applied, nil};
ghost use Rattle.mw_logic.specs.Parts.{is_assoc};
ghost use Rattle.mw_logic.specs.Kinds.{is_successor};
ghost use Rattle.mw_logic.specs.NormalForm.{is_comm};
ghost use Rattle.mw_logic.specs.Module.{Module};
ghost use Rattle.mw_deduction.proofs.Depths.{added as levels_added};
ghost use Rattle.mw_matching.specs.Matches.{evaluated_all};
ghost use Rattle.mw_pattern.specs.Clean.{clean};
ghost use Rattle.mw_frames.specs.Jobs.{instance_of};
ghost use Rattle.mw_frames.specs.State.{Run, IsRun, InHand, Holds, work_of};
ghost use Rattle.mw_frames.specs.Machines.{data_of};
ghost use Rattle.mw_frames.specs.Steps.{FallsTo};
ghost use Rattle.mw_frames.specs.Arrivals.{level_over, IsNewFrame, Opens, made_work};

use crate::coming::{is_over_itself, part_job, wait_all, wait_made};
use crate::instances::evaluate;
use crate::job::{Frame, Hand, Job};
use crate::machine::Machine;
use crate::waiting::wait_terms;
use mw_canon::{Axioms, Facts};
use mw_pattern::{Pattern, Patterns};
use mw_term::{OpId, Term, View, behind};
use std::alloc::{AllocError, Global};

/// How many levels an operator adds to another right under it.
#[inline(always)]
fn levels_between(facts: &Facts, operator: OpId, inner: OpId) -> usize
    ensures { result ≡ levels_added facts.now operator (applied inner nil) }
{
    if is_over_itself(facts, operator, inner) {
        0
    } else {
        1
    }
}

/// How many levels stand above a term with this operator on top in the hole of the innermost frame. More than numbers
/// can tell counts as want of memory.
#[inline(always)]
fn level_here(facts: &Facts, frames: &[Frame], operator: OpId) -> Result<usize, AllocError>
    ensures { IfOk result (λ level. level ≡ level_over facts.now (reverse frames.now) operator) }
{
    match frames.last() {
        Some(frame) => {
            let more = levels_between(facts, frame.op, operator);
            frame.level.checked_add(more).ok_or(AllocError)
        }
        None => Ok(0),
    }
}

/// A frame in the hole of the innermost one, without arguments.
#[inline(always)]
pub(crate) fn new_frame(
    facts: &Facts,
    machine: &Machine<'_>,
    operator: OpId,
) -> Result<Frame, AllocError>
    ensures { IfOk result (IsNewFrame facts.now (reverse machine.now.frames.items)
        machine.now.done.items machine.now.jobs.items operator) }
{
    let level = level_here(facts, machine.frames.as_slice(), operator)?;
    Ok(Frame {
        op: operator,
        level,
        from: machine.done.len(),
        waits: machine.jobs.len(),
    })
}

/// A term in hand of which nothing is known: a new frame, in which all its arguments wait, or, where it has none, the
/// term to be tried.
#[inline]
pub(crate) fn open_term<'m>(
    facts: &Facts,
    machine: &mut Machine<'m>,
    term: Term,
) -> Result<Hand<'m>, AllocError>
    ensures means { (K : Run) (k : ℕ) → IsRun K facts.now
        → InHand K k (data_of K.over machine.old) (Job.Walk term)
        → IfOk result (Holds K k (data_of K.over machine.new)) }
    ensures falls { (M : Module) → M.signature ≡ facts.now
        → IfOk result (FallsTo M (work_of M.signature (data_of M machine.old) (Hand.One (Job.Walk term)))
        machine.new) }
{
    match term.view() {
        View::Op(operator, args) if !args.is_empty() => {
            let frame = new_frame(facts, machine, operator)?;
            wait_terms(false, &mut machine.jobs, frame.waits, args)?;
            Ok(Hand::Over(frame))
        }
        _ => Ok(Hand::One(Job::Try(term))),
    }
}

/// An instance that is an operator right on the instances of its arguments: a new frame in which they wait.
#[inline(always)]
fn open_plain<'m>(
    alloc: Global,
    facts: &Facts,
    machine: &mut Machine<'m>,
    operator: OpId,
    args: &'m Patterns,
    base: usize,
    top: OpId,
) -> Result<Hand<'m>, AllocError>
    ensures opens { is_assoc facts.now operator ≡ false → is_comm facts.now operator ≡ false
        → instance_of facts.now machine.old.kept.values (applied operator args.now) base
        ≡ applied operator (evaluated_all facts.now (drop base machine.old.kept.values) args.now)
        → IfOk result (Opens facts.now machine.old machine.new base top (applied operator args.now)) }
    ensures falls { (M : Module) → instance_of facts.now machine.old.kept.values (applied operator args.now) base
        ≡ applied operator (evaluated_all facts.now (drop base machine.old.kept.values) args.now)
        → IfOk result (λ hand. work_of facts.now (data_of M machine.new) hand
        < made_work facts.now (data_of M machine.old) (applied operator args.now) base) }
{
    if args.slice().is_empty() {
        let constant = Term::apply(alloc, operator, Vec::new(alloc))?;
        return Ok(Hand::One(Job::Try(constant)));
    }
    let frame = new_frame(facts, machine, operator)?;
    wait_made(alloc, facts, machine, args, base, top)?;
    Ok(Hand::Over(frame))
}

/// An instance under an operator that is commutative or associative: a new frame to which its parts come.
#[inline(never)]
fn open_among<'m>(
    alloc: Global,
    facts: &Facts,
    machine: &mut Machine<'m>,
    operator: OpId,
    args: &'m Patterns,
    base: usize,
    top: OpId,
) -> Result<Hand<'m>, AllocError>
    ensures opens { (is_assoc facts.now operator ≡ true) ⊎ (is_successor facts.now operator ≡ false)
        → IfOk result (Opens facts.now machine.old machine.new base top (applied operator args.now)) }
    ensures falls { (M : Module) → IfOk result (λ hand. work_of facts.now (data_of M machine.new) hand
        < made_work facts.now (data_of M machine.old) (applied operator args.now) base) }
{
    let frame = new_frame(facts, machine, operator)?;
    wait_all(alloc, facts, machine, frame, args, base, top)?;
    Ok(Hand::Over(frame))
}

/// Whether a term is a numeral.
fn is_numeral(term: &Term) -> bool
    ensures numeral { IsTrue result → (n : ℕ) × (term.now ≡ numeral n) }
    ensures other { IsFalse result → (n : ℕ) → term.now ≡ numeral n → ⊥ }
{
    match term.view() {
        View::Nat(_) => true,
        _ => false,
    }
}

/// The instance, where it is a numeral.
#[inline(never)]
fn numeral_of<'m>(
    alloc: Global,
    facts: &Facts,
    machine: &Machine<'m>,
    pattern: &Pattern,
    base: usize,
) -> Result<Option<Term>, AllocError>
    ensures numeral { IfOk result (λ found. IfSome found (λ t.
        (t ≡ instance_of facts.now machine.now.kept.values (clean pattern.now) base) × (n : ℕ) × (t ≡ numeral n))) }
    ensures other { IfOk result (λ found. IsNone found
        → (n : ℕ) → instance_of facts.now machine.now.kept.values (clean pattern.now) base ≡ numeral n → ⊥) }
{
    let term = evaluate(alloc, facts, pattern, behind(machine.kept.values(), base))?;
    if is_numeral(&term) {
        return Ok(Some(term));
    }
    Ok(None)
}

/// A part of a right side in hand: a new frame in which its arguments wait as far as they are known. Under an operator
/// with axioms they are built, and come to the frame as its arguments. What has no arguments is to be tried.
#[inline]
pub(crate) fn open_made<'m>(
    alloc: Global,
    facts: &Facts,
    machine: &mut Machine<'m>,
    pattern: &'m Pattern,
    base: usize,
    top: OpId,
) -> Result<Hand<'m>, AllocError>
    ensures means { (K : Run) (k : ℕ) → IsRun K facts.now
        → InHand K k (data_of K.over machine.old) (Job.Made pattern.entry base top)
        → IfOk result (Holds K k (data_of K.over machine.new)) }
    ensures falls { (M : Module) → M.signature ≡ facts.now
        → IfOk result (FallsTo M (work_of M.signature (data_of M machine.old)
        (Hand.One (Job.Made pattern.entry base top))) machine.new) }
{
    match pattern {
        Pattern::Op(operator, args) => match facts.axioms(*operator) {
            Axioms::Plain => open_plain(alloc, facts, machine, *operator, args, base, top),
            Axioms::Successor => match numeral_of(alloc, facts, machine, pattern, base)? {
                Some(term) => Ok(Hand::One(Job::Try(term))),
                None => open_plain(alloc, facts, machine, *operator, args, base, top),
            },
            _ => {
                let hand = open_among(alloc, facts, machine, *operator, args, base, top)?;
                Ok(hand)
            }
        },
        _ => {
            let job = part_job(alloc, facts, machine.kept.values(), pattern, base, top)?;
            Ok(Hand::One(job))
        }
    }
}
