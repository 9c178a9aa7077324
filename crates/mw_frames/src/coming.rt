// Parts of right sides, and how they come to frames.
ghost use Rattle.std.specs.Prelude.{◌≡◌, ◌+◌, ◌++◌, ◌∷◌, ◌≤◌, ◌⊎◌, ℕ, List, [], drop, true, false};
ghost use Rattle.std.specs.Prelude.{IsTrue, IfOk, IfNone, IfSome, OnOk};
ghost use Rattle.mw_logic.specs.Term.{RawTerm, RawTerms, variable as a_variable, apply as applied, nil, cons};
ghost use Rattle.mw_logic.specs.Terms.{terms_of};
ghost use Rattle.mw_logic.specs.Signature.{Signature};
ghost use Rattle.mw_logic.specs.Accepted.{IsAccepted, IsWellSorted};
ghost use Rattle.mw_logic.specs.Parts.{is_assoc, continues};
ghost use Rattle.mw_logic.specs.NormalForm.{is_comm};
ghost use Rattle.mw_logic.specs.Module.{Module};
ghost use Rattle.mw_logic.proofs.Canonical.{Each};
ghost use Rattle.mw_position.specs.Positions.{position};
ghost use Rattle.mw_matching.specs.Matches.{evaluated_all};
ghost use Rattle.mw_pattern.specs.Clean.{clean};
ghost use Rattle.mw_stack.specs.Own.{spread};
ghost use Rattle.mw_frames.specs.Jobs.{is_sure as is_sure_of, instance_of, term_of};
ghost use Rattle.mw_frames.specs.Jobs.{size, sizes, nodes, nodes_in, weight, weights};
ghost use Rattle.mw_frames.specs.State.{IsNormalHere, IsKnown, IsKnownIn, AreKnownIn, IsJob, IsAtHand};
ghost use Rattle.mw_frames.specs.Redex.{IsBare};
ghost use Rattle.mw_frames.specs.Arrivals.{StandsFor, StandForAll, spread_all, Joins, Comes, KeepsFrames};

use crate::instances::{evaluate, value};
use crate::job::{Frame, Job};
use crate::machine::{Machine, taken_near};
use crate::waiting::{wait_job, wait_terms};
use mw_canon::{Axioms, Facts, parts};
use mw_pattern::{Pattern, Patterns};
use mw_stack::put_near;
use mw_term::{OpId, Term, View, behind, copy};
use std::alloc::{AllocError, Global};

/// Whether a value is known to be normal: each of its right side's is, or it has arguments, and another operator on
/// top than the term that the right side came for.
#[inline(always)]
fn is_sure(top: OpId, value: &Term) -> bool
    ensures { result ≡ is_sure_of top value.now }
{
    if top == 0 {
        return true;
    }
    match value.view() {
        View::Op(f, args) => f != top && !args.is_empty(),
        _ => false,
    }
}

/// A value as a job.
#[inline(always)]
fn job_of<'m>(value: Term, top: OpId) -> Job<'m>
    ensures term { (sig : Signature) (vs : List RawTerm) → term_of sig vs result ≡ value }
    ensures known { (M : Module) (n : ℕ) (vs : List RawTerm) → IsAccepted M.signature → IsWellSorted M.signature
        → IsKnown M n top value → IsJob M n vs result }
    ensures at_hand { IsAtHand result }
    ensures light { (sig : Signature) (vs : List RawTerm) → weight sig vs result ≤ 3 }
{
    if is_sure(top, &value) {
        Job::Normal(value)
    } else {
        Job::Try(value)
    }
}

/// The value of a position, of those from a place on, as a job.
#[inline(always)]
fn value_job<'m>(
    alloc: Global,
    values: &[Term],
    base: usize,
    i: usize,
    top: OpId,
) -> Result<Job<'m>, AllocError>
    ensures stands { (sig : Signature)
        → IfOk result (StandsFor sig values.now base top (a_variable (position i))) }
    ensures light { (sig : Signature) (vs : List RawTerm) → IfOk result (λ x. weight sig vs x ≤ 3) }
{
    let value = value(alloc, behind(values, base), i)?;
    Ok(job_of(value, top))
}

/// Whether it is an operator without arguments that isn't associative.
#[inline(always)]
fn is_constant(facts: &Facts, operator: OpId, args: &Patterns) -> bool
    ensures { IsTrue result → (is_assoc facts.now operator ≡ false) × (args.now ≡ nil) }
{
    match facts.axioms(operator) {
        Axioms::Associative { .. } => false,
        _ => args.slice().is_empty(),
    }
}

/// An instance without arguments as a job.
#[inline(never)]
fn bare_job<'m>(
    alloc: Global,
    facts: &Facts,
    values: &[Term],
    pattern: &Pattern,
    base: usize,
) -> Result<Job<'m>, AllocError>
    ensures stands { (top : ℕ) → IsBare (instance_of facts.now values.now (clean pattern.now) base)
        → IfOk result (StandsFor facts.now values.now base top (clean pattern.now)) }
    ensures light { (sig : Signature) (vs : List RawTerm) → IfOk result (λ x. weight sig vs x ≤ 3) }
{
    let term = evaluate(alloc, facts, pattern, behind(values, base))?;
    Ok(Job::Try(term))
}

/// A part of a right side as a job, which is built only where it has no arguments.
#[inline(always)]
pub(crate) fn part_job<'m>(
    alloc: Global,
    facts: &Facts,
    values: &[Term],
    pattern: &'m Pattern,
    base: usize,
    top: OpId,
) -> Result<Job<'m>, AllocError>
    ensures stands { IfOk result (StandsFor facts.now values.now base top (clean pattern.now)) }
    ensures leaf { ((f : ℕ) (ts : RawTerms) → clean pattern.now ≡ applied f ts → ⊥)
        → IfOk result (λ x. weight facts.now values.now x ≤ 3) }
{
    match pattern {
        Pattern::Nat(_) | Pattern::Qid(_) => {
            let job = bare_job(alloc, facts, values, pattern, base)?;
            Ok(job)
        }
        Pattern::Var(i) => value_job(alloc, values, base, *i, top),
        Pattern::Op(operator, args) => {
            if is_constant(facts, *operator, args) {
                let job = bare_job(alloc, facts, values, pattern, base)?;
                return Ok(job);
            }
            Ok(Job::Made(pattern, base, top))
        }
    }
}

/// The value of a position, of those from a place on, comes to those that wait, in front of them.
#[inline(always)]
fn wait_value<'m>(
    alloc: Global,
    values: &[Term],
    base: usize,
    i: usize,
    top: OpId,
    jobs: &mut Vec<Job<'m>>,
) -> Result<(), AllocError>
    ensures { OnOk result ((sig : Signature) → (x : Job) × (jobs.new.items ≡ jobs.old.items ++ x ∷ [])
        × StandsFor sig values.now base top (a_variable (position i)) x) }
{
    let value = value(alloc, behind(values, base), i)?;
    jobs.push(job_of(value, top))?;
    Ok(())
}

/// A part of a right side comes to those that wait, in front of them, as a job.
#[inline(always)]
fn wait_one<'m>(
    alloc: Global,
    facts: &Facts,
    values: &[Term],
    pattern: &'m Pattern,
    base: usize,
    top: OpId,
    jobs: &mut Vec<Job<'m>>,
) -> Result<(), AllocError>
    ensures { OnOk result ((x : Job) × (jobs.new.items ≡ jobs.old.items ++ x ∷ [])
        × StandsFor facts.now values.now base top (clean pattern.now) x) }
{
    match pattern {
        Pattern::Var(i) => {
            wait_value(alloc, values, base, *i, top, jobs)?;
            Ok(())
        }
        _ => {
            let job = part_job(alloc, facts, values, pattern, base, top)?;
            jobs.push(job)?;
            Ok(())
        }
    }
}

/// Parts of a right side come to those that wait, in front of them, as jobs.
#[inline(always)]
pub(crate) fn wait_made<'m>(
    alloc: Global,
    facts: &Facts,
    machine: &mut Machine<'m>,
    args: &'m Patterns,
    base: usize,
    top: OpId,
) -> Result<(), AllocError>
    ensures keeps { OnOk result (KeepsFrames machine.old machine.new) }
    ensures done { OnOk result (machine.new.done.items ≡ machine.old.done.items) }
    ensures jobs { OnOk result ((xs : List Job) × (machine.new.jobs.items ≡ machine.old.jobs.items ++ xs)
        × StandForAll facts.now machine.old.kept.values base top args.now xs) }
{
    let list = args.slice();
    let mut left = list.len();
    while left > 0 {
        left -= 1;
        wait_one(
            alloc,
            facts,
            machine.kept.values(),
            &list[left],
            base,
            top,
            &mut machine.jobs,
        )?;
    }
    Ok(())
}

/// What a term is under an operator, where that isn't the term alone: none for the identity of an associative one, and
/// its own arguments where it stands on top.
pub(crate) fn pieces<'t>(facts: &Facts, operator: OpId, term: &'t Term) -> Option<&'t [Term]>
    ensures alone { IfNone result (spread facts.now operator term.now ≡ cons term.now nil) }
    ensures spread { IfSome result (λ ts. spread facts.now operator term.now ≡ terms_of ts.now) }
    ensures own { IfSome result (λ ts. (ts.now ≡ []) ⊎ (term.now ≡ applied operator (terms_of ts.now))) }
{
    match facts.axioms(operator) {
        Axioms::Associative { .. } => match term.view() {
            View::Op(f, args) if f == operator && !args.is_empty() => Some(args),
            _ => {
                let found = parts(facts, operator, term);
                if found.is_empty() { Some(found) } else { None }
            }
        },
        _ => None,
    }
}

/// Whether the operator is commutative.
pub(crate) fn is_commutative(facts: &Facts, operator: OpId) -> bool
    ensures { result ≡ is_comm facts.now operator }
{
    match facts.axioms(operator) {
        Axioms::Plain => false,
        Axioms::Successor => false,
        Axioms::Commutative => true,
        Axioms::Associative { comm, .. } => comm,
    }
}

/// Normal terms come to those that wait, in front of them.
fn wait_normal<'m>(jobs: &mut Vec<Job<'m>>, terms: &[Term]) -> Result<(), AllocError>
    ensures joins { (sig : Signature) (vs : List RawTerm) (w : ℕ)
        → OnOk result (Joins sig vs false w (terms_of terms.now)
        (λ M n. Each (IsNormalHere M n) (terms_of terms.now)) jobs.old.items jobs.new.items) }
    ensures weight { (sig : Signature) (vs : List RawTerm)
        → OnOk result (weights sig vs jobs.new.items ≤ weights sig vs jobs.old.items + sizes (terms_of terms.now)) }
{
    let mut left = terms.len();
    while left > 0 {
        left -= 1;
        let term = copy(&terms[left])?;
        jobs.push(Job::Normal(term))?;
    }
    Ok(())
}

/// A value comes to a frame of a commutative operator: among those that are done where it, or each of its elements, is
/// normal.
fn settle_value<'m>(
    alloc: Global,
    facts: &Facts,
    machine: &mut Machine<'m>,
    frame: Frame,
    value: Term,
    top: OpId,
) -> Result<(), AllocError>
    ensures keeps { OnOk result (KeepsFrames machine.old machine.new) }
    ensures comes { (vs : List RawTerm) → is_comm facts.now frame.op ≡ true
        → OnOk result (Comes facts.now vs frame (spread facts.now frame.op value) (λ M n. IsKnown M n top value)
        machine.old.done.items machine.new.done.items machine.old.jobs.items machine.new.jobs.items) }
    ensures weight { (vs : List RawTerm) → OnOk result (weights facts.now vs machine.new.jobs.items
        ≤ weights facts.now vs machine.old.jobs.items + sizes (spread facts.now frame.op value)) }
{
    if is_sure(top, &value) || pieces(facts, frame.op, &value).is_some() {
        let near = taken_near(&mut machine.near, frame.from);
        return put_near(
            alloc,
            facts,
            frame.op,
            &mut machine.done,
            frame.from,
            near,
            value,
        );
    }
    wait_job(true, &mut machine.jobs, frame.waits, Job::Try(value))
}

/// A value comes to a frame of an operator that isn't commutative, in front of what waits there.
fn line_value<'m>(
    facts: &Facts,
    machine: &mut Machine<'m>,
    frame: Frame,
    value: Term,
    top: OpId,
) -> Result<(), AllocError>
    ensures keeps { OnOk result (KeepsFrames machine.old machine.new) }
    ensures comes { (vs : List RawTerm) → is_comm facts.now frame.op ≡ false
        → OnOk result (Comes facts.now vs frame (spread facts.now frame.op value) (λ M n. IsKnown M n top value)
        machine.old.done.items machine.new.done.items machine.old.jobs.items machine.new.jobs.items) }
    ensures weight { (vs : List RawTerm) → OnOk result (weights facts.now vs machine.new.jobs.items
        ≤ weights facts.now vs machine.old.jobs.items + sizes (spread facts.now frame.op value)) }
{
    match pieces(facts, frame.op, &value) {
        Some(elements) => wait_normal(&mut machine.jobs, elements),
        None => wait_job(false, &mut machine.jobs, frame.waits, job_of(value, top)),
    }
}

/// An instance as a job.
fn built_job<'m>(term: Term, pattern: &'m Pattern, base: usize, top: OpId) -> Job<'m>
    ensures stands { (sig : Signature) (vs : List RawTerm) → term ≡ instance_of sig vs (clean pattern.now) base
        → StandsFor sig vs base top (clean pattern.now) result }
    ensures at_hand { IsAtHand result }
{
    match term.view() {
        View::Op(_, args) if !args.is_empty() => Job::Built(term, pattern, base, top),
        _ => Job::Try(term),
    }
}

/// The instance of a part of a right side comes to a frame: as one element, with what is known of the part, or else as
/// its elements, of which nothing is known.
fn wait_built<'m>(
    facts: &Facts,
    machine: &mut Machine<'m>,
    frame: Frame,
    term: Term,
    pattern: &'m Pattern,
    base: usize,
    top: OpId,
) -> Result<(), AllocError>
    ensures keeps { OnOk result (KeepsFrames machine.old machine.new) }
    ensures comes { (vs : List RawTerm) → term ≡ instance_of facts.now vs (clean pattern.now) base
        → OnOk result (Comes facts.now vs frame (spread facts.now frame.op term)
        (λ M n. IsKnownIn M n vs base top (clean pattern.now))
        machine.old.done.items machine.new.done.items machine.old.jobs.items machine.new.jobs.items) }
    ensures weight { (vs : List RawTerm) → term ≡ instance_of facts.now vs (clean pattern.now) base
        → OnOk result (weights facts.now vs machine.new.jobs.items
        ≤ weights facts.now vs machine.old.jobs.items + sizes (spread facts.now frame.op term)
        + nodes (clean pattern.now)) }
{
    let comm = is_commutative(facts, frame.op);
    match pieces(facts, frame.op, &term) {
        Some(elements) => wait_terms(comm, &mut machine.jobs, frame.waits, elements),
        None => wait_job(
            comm,
            &mut machine.jobs,
            frame.waits,
            built_job(term, pattern, base, top),
        ),
    }
}

/// A part of a right side comes to a frame: the elements of its canonical instance come in front of those that wait,
/// or, under a commutative operator, in order among them, or, where they are normal, among those that are done.
#[inline(never)]
pub(crate) fn wait_part<'m>(
    alloc: Global,
    facts: &Facts,
    machine: &mut Machine<'m>,
    frame: Frame,
    pattern: &'m Pattern,
    base: usize,
    top: OpId,
) -> Result<(), AllocError>
    ensures keeps { OnOk result (KeepsFrames machine.old machine.new) }
    ensures comes { OnOk result (Comes facts.now machine.old.kept.values frame
        (spread facts.now frame.op (instance_of facts.now machine.old.kept.values (clean pattern.now) base))
        (λ M n. IsKnownIn M n machine.old.kept.values base top (clean pattern.now))
        machine.old.done.items machine.new.done.items machine.old.jobs.items machine.new.jobs.items) }
    ensures weight { OnOk result (weights facts.now machine.old.kept.values machine.new.jobs.items
        ≤ weights facts.now machine.old.kept.values machine.old.jobs.items
        + sizes (spread facts.now frame.op (instance_of facts.now machine.old.kept.values (clean pattern.now) base))
        + nodes (clean pattern.now)) }
{
    match pattern {
        Pattern::Var(i) => {
            let value = value(alloc, behind(machine.kept.values(), base), *i)?;
            if is_commutative(facts, frame.op) {
                return settle_value(alloc, facts, machine, frame, value, top);
            }
            line_value(facts, machine, frame, value, top)
        }
        _ => {
            let term = evaluate(alloc, facts, pattern, behind(machine.kept.values(), base))?;
            wait_built(facts, machine, frame, term, pattern, base, top)
        }
    }
}

/// Parts of a right side come to a frame, from the last to the first.
#[inline(never)]
pub(crate) fn wait_all<'m>(
    alloc: Global,
    facts: &Facts,
    machine: &mut Machine<'m>,
    frame: Frame,
    args: &'m Patterns,
    base: usize,
    top: OpId,
) -> Result<(), AllocError>
    ensures keeps { OnOk result (KeepsFrames machine.old machine.new) }
    ensures comes { OnOk result (Comes facts.now machine.old.kept.values frame
        (spread_all facts.now frame.op (evaluated_all facts.now (drop base machine.old.kept.values) args.now))
        (λ M n. AreKnownIn M n machine.old.kept.values base top args.now)
        machine.old.done.items machine.new.done.items machine.old.jobs.items machine.new.jobs.items) }
    ensures weight { OnOk result (weights facts.now machine.old.kept.values machine.new.jobs.items
        ≤ weights facts.now machine.old.kept.values machine.old.jobs.items
        + sizes (spread_all facts.now frame.op (evaluated_all facts.now (drop base machine.old.kept.values) args.now))
        + nodes_in args.now) }
{
    let list = args.slice();
    let mut left = list.len();
    while left > 0 {
        left -= 1;
        wait_part(alloc, facts, machine, frame, &list[left], base, top)?;
    }
    Ok(())
}

/// A part of a right side comes to a frame, as its parts do where the frame's associative operator stands on top.
pub(crate) fn wait_parts<'m>(
    alloc: Global,
    facts: &Facts,
    machine: &mut Machine<'m>,
    frame: Frame,
    pattern: &'m Pattern,
    base: usize,
    top: OpId,
) -> Result<(), AllocError>
    ensures keeps { OnOk result (KeepsFrames machine.old machine.new) }
    ensures comes { OnOk result (Comes facts.now machine.old.kept.values frame
        (spread facts.now frame.op (instance_of facts.now machine.old.kept.values (clean pattern.now) base))
        (λ M n. IsKnownIn M n machine.old.kept.values base top (clean pattern.now))
        machine.old.done.items machine.new.done.items machine.old.jobs.items machine.new.jobs.items) }
    ensures weight { OnOk result (weights facts.now machine.old.kept.values machine.new.jobs.items
        ≤ weights facts.now machine.old.kept.values machine.old.jobs.items
        + size (instance_of facts.now machine.old.kept.values (clean pattern.now) base) + nodes (clean pattern.now)) }
{
    match pattern {
        Pattern::Op(operator, args) if is_over_itself(facts, frame.op, *operator) => {
            wait_all(alloc, facts, machine, frame, args, base, top)
        }
        _ => wait_part(alloc, facts, machine, frame, pattern, base, top),
    }
}

/// Whether an associative operator stands under itself.
#[inline(always)]
pub(crate) fn is_over_itself(facts: &Facts, operator: OpId, inner: OpId) -> bool
    ensures { result ≡ continues facts.now operator (applied inner nil) }
{
    match facts.axioms(operator) {
        Axioms::Associative { .. } => operator == inner,
        _ => false,
    }
}
