// Whether what comes for a term may stand where it comes: by its levels, and by the numbers that it makes.
ghost use Rattle.std.specs.Prelude.{◌≡◌, ◌⊎◌, ◌+◌, ◌-◌, ◌^◌, ◌<◌, ◌≤◌, ◌↔◌, ◌&&◌, ℕ, min, true, false, IsTrue, IsFalse, IsNone, IfOk, IfSome, OnOk};
ghost use Rattle.std.specs.Prelude.{List, [], ◌∷◌, ◌++◌, length, take, drop, reverse, option_to_list};
ghost use Rattle.mw_logic.specs.Term.{RawTerm, RawTerms, apply as applied, nil, cons, join};
ghost use Rattle.mw_logic.specs.Terms.{terms_of};
ghost use Rattle.mw_logic.specs.Signature.{Signature};
ghost use Rattle.mw_logic.specs.Kinds.{is_successor};
ghost use Rattle.mw_logic.specs.Parts.{is_assoc};
ghost use Rattle.mw_logic.specs.NormalForm.{height, highest, identity_of, is_identity, applied_in, is_largest as is_largest_of, has_largest, some_largest};
ghost use Rattle.mw_deduction.specs.Standing.{Open, AreClear};
ghost use Rattle.mw_deduction.proofs.Clear.{IsBranch};
ghost use Rattle.mw_position.specs.Positions.{fill};
ghost use Rattle.mw_matching.specs.Matches.{evaluated};
ghost use Rattle.mw_pattern.specs.Clean.{clean};
ghost use Rattle.mw_canon.specs.Free.{IsFree};
ghost use Rattle.mw_frames.specs.Jobs.{term_of, rest, AreOpened};
ghost use Rattle.mw_frames.specs.Larger.{grows as grows_of, AreSmall, StaysBranch, IsUnfolded, IsFit};
ghost use Rattle.mw_frames.specs.Redex.{hole_level};

use crate::instances::{build, evaluate, is_over_largest};
use crate::job::{Frame, Job};
use mw_canon::{Axioms, Facts, rebuild};
use mw_pattern::{Pattern, Patterns, depth_at};
use mw_stack::{added, hides};
use mw_term::{OpId, Term, View, behind, copy, depth};
use std::alloc::{AllocError, Global};

/// Whether what comes for a term may stand there.
#[derive(Clone, Copy)]
pub enum Fit {
    Fits,
    /// The whole would have more than 1,000 levels.
    TooDeep,
    /// `s_` would stand on the largest numeral.
    TooLarge,
}

/// What stands round a hole: the frames, the innermost last, the terms that are done in them, what waits in them, and
/// the values that it may take.
#[derive(Clone, Copy)]
pub struct Around<'a, 'm> {
    pub values: &'a [Term],
    pub frames: &'a [Frame],
    pub done: &'a [Term],
    pub jobs: &'a [Job<'m>],
}

/// How many levels a term may have.
const LEVELS: usize = 1000;

/// Whether a term of this depth has no more levels than a term may have, so many levels further down.
#[inline(always)]
fn fits(above: usize, depth: u16) -> bool
    ensures { IsTrue result ↔ (above + depth ≤ 1000) }
{
    above <= LEVELS && above + depth as usize <= LEVELS
}

/// How deep the deepest of these terms is, or 65,535 where that is more.
#[inline(always)]
fn deepest(terms: &[Term]) -> u16
    ensures { result ≡ min (highest (terms_of terms.now)) (2 ^ 16 - 1) }
{
    let mut most = 0;
    for term in terms {
        most = most.max(depth(term));
    }
    most
}

/// Whether the levels of a right side, with its variables in place, and those of the deepest value come to no more
/// than a term may have, so many levels further down. Then the instance doesn't either.
#[inline(always)]
fn is_surely_low(above: usize, levels: u16, values: &[Term]) -> bool
    ensures { (p : RawTerm) → levels ≡ min (height (fill [] p)) (2 ^ 16 - 1)
        → IsTrue result → above + height (fill values.now p) ≤ 1000 }
{
    above <= LEVELS && above + levels as usize + deepest(values) as usize <= LEVELS
}

/// Whether the instance of a right side by these values has no more levels than a term may have, so many levels
/// further down. The instance is walked only where it may have more.
#[inline(always)]
fn fits_at(above: usize, levels: u16, right: &Pattern, values: &[Term]) -> bool
    ensures { levels ≡ min (height (fill [] (clean right.now))) (2 ^ 16 - 1)
        → (IsTrue result ↔ (above + min (height (fill values.now (clean right.now))) (2 ^ 16 - 1) ≤ 1000)) }
{
    if is_surely_low(above, levels, values) {
        return true;
    }
    fits(above, depth_at(right, values))
}

/// How many levels stand above a term in the hole of a frame.
fn levels_above(facts: &Facts, hole: Option<Frame>, term: &Term) -> usize
    ensures { (h : ℕ)
        → (result + h ≤ 1000) ↔ (hole_level facts.now (option_to_list hole) term.now + h ≤ 1000) }
{
    match hole {
        Some(frame) => frame
            .level
            .saturating_add(added(facts, frame.op, term) as usize),
        None => 0,
    }
}

/// The same of a term with an operator on top that isn't associative.
#[inline(always)]
fn levels_above_plain(hole: Option<Frame>) -> usize
    ensures { (sig : Signature) (f : ℕ) (ts : RawTerms) (h : ℕ) → is_assoc sig f ≡ false
        → (result + h ≤ 1000) ↔ (hole_level sig (option_to_list hole) (applied f ts) + h ≤ 1000) }
{
    match hole {
        Some(frame) => frame.level.saturating_add(1),
        None => 0,
    }
}

/// The innermost frame.
#[inline(always)]
pub(crate) fn innermost(frames: &[Frame]) -> Option<Frame>
    ensures { option_to_list result ≡ take 1 (reverse frames.now) }
{
    frames.last().copied()
}

/// Whether it is an operator with arguments.
#[inline(always)]
pub(crate) fn is_branch(term: &Term) -> bool
    ensures yes { IsTrue result → IsBranch term.now }
    ensures no { IsFalse result → IsBranch term.now → ⊥ }
{
    match term.view() {
        View::Op(_, args) => !args.is_empty(),
        _ => false,
    }
}

/// Whether an operator on a term, with so many others beside it, may be one of these alone, or a numeral.
fn may_fold(facts: &Facts, operator: OpId, others: usize, term: &Term) -> bool
    ensures no { IsFalse result → StaysBranch facts.now operator others term.now }
    ensures yes { IsTrue result → others ≤ 1 }
{
    facts.shows();
    if others > 1 {
        return false;
    }
    match facts.axioms(operator) {
        Axioms::Plain | Axioms::Commutative => false,
        Axioms::Successor => true,
        Axioms::Associative { .. } => hides(facts, operator, term),
    }
}

/// The term of a job. A part of a right side is built.
pub(crate) fn job_term(
    alloc: Global,
    facts: &Facts,
    values: &[Term],
    job: &Job<'_>,
) -> Result<Term, AllocError>
    ensures { IfOk result (λ t. t ≡ term_of facts.now values.now job.now) }
{
    match job {
        Job::Walk(term) | Job::Try(term) | Job::Normal(term) | Job::Built(term, _, _, _) => copy(
            term,
        ),
        Job::Made(pattern, base, _) => evaluate(alloc, facts, pattern, behind(values, *base)),
    }
}

/// The same terms again come behind the others.
fn push_copies(terms: &[Term], found: &mut Vec<Term>) -> Result<(), AllocError>
    ensures { OnOk result (found.new.items ≡ found.old.items ++ terms.now) }
{
    for term in terms {
        found.push(copy(term)?)?;
    }
    Ok(())
}

/// The term of the job that waits, if one does, comes behind the others.
fn push_waiting(
    alloc: Global,
    facts: &Facts,
    values: &[Term],
    jobs: &[Job<'_>],
    found: &mut Vec<Term>,
) -> Result<(), AllocError>
    ensures { length jobs.now ≤ 1 → OnOk result (terms_of found.new.items
        ≡ join (terms_of found.old.items) (rest facts.now values.now jobs.now)) }
{
    if let Some(job) = jobs.first() {
        let term = job_term(alloc, facts, values, job)?;
        found.push(term)?;
    }
    Ok(())
}

/// An operator on a term and those beside it, where that may be one of these alone, or a numeral.
fn folded(
    alloc: Global,
    facts: &Facts,
    values: &[Term],
    operator: OpId,
    own: &[Term],
    waiting: &[Job<'_>],
    term: &Term,
) -> Result<Option<Term>, AllocError>
    ensures some { IfOk result (λ o. IfSome o (λ t. t ≡ applied_in facts.now operator
        (join (terms_of own.now) (cons term.now (rest facts.now values.now waiting.now))))) }
    ensures none { IfOk result (λ o. IsNone o
        → StaysBranch facts.now operator (length own.now + length waiting.now) term.now) }
{
    if !may_fold(facts, operator, own.len() + waiting.len(), term) {
        return Ok(None);
    }
    let mut args = Vec::new(alloc);
    push_copies(own, &mut args)?;
    args.push(copy(term)?)?;
    push_waiting(alloc, facts, values, waiting, &mut args)?;
    let whole = rebuild(alloc, facts, operator, args)?;
    Ok(Some(whole))
}

/// The first terms, and those from a place on.
pub(crate) fn cut<T>(items: &[T], at: usize) -> (&[T], &[T])
    ensures front { result.0.now ≡ take at items.now }
    ensures back { result.1.now ≡ drop at items.now }
{
    items.split_at(at.min(items.len()))
}

/// Whether with this term in the hole `s_` stands on the largest numeral right above it, or further out, where the
/// operators between give a numeral again.
#[cycle(grows)]
fn grows(
    alloc: Global,
    facts: &Facts,
    around: Around<'_, '_>,
    term: &Term,
) -> Result<bool, AllocError>
    ensures { (os : List Open) → AreClear facts.now os
        → AreOpened facts.now around.entry.values.now (reverse around.entry.frames.now) around.entry.done.now around.entry.jobs.now os
        → IfOk result (λ b. b ≡ grows_of facts.now os term.now) }
{
    facts.shows();
    if is_branch(term) {
        return Ok(false);
    }
    let Some(top) = around.frames.last() else {
        return Ok(false);
    };
    if is_over_largest(facts, top.op, term) {
        return Ok(true);
    }
    let (done, own) = cut(around.done, top.from);
    let (jobs, waiting) = cut(around.jobs, top.waits);
    match folded(alloc, facts, around.values, top.op, own, waiting, term)? {
        None => Ok(false),
        Some(next) => {
            let outer = Around {
                values: around.values,
                frames: &around.frames[..around.frames.len() - 1],
                done,
                jobs,
            };
            grows(alloc, facts, outer, &next)
        }
    }
}

/// Whether what comes for a term may stand there. `large`: `s_` stands on the largest numeral in it.
#[inline]
pub(crate) fn fit_built(
    alloc: Global,
    facts: &Facts,
    around: Around<'_, '_>,
    term: &Term,
    large: bool,
) -> Result<Fit, AllocError>
    ensures { (os : List Open) → AreClear facts.now os → AreSmall facts.now os
        → AreOpened facts.now around.entry.values.now (reverse around.entry.frames.now) around.entry.done.now around.entry.jobs.now os
        → large ≡ has_largest facts.now term.now
        → IfOk result (IsFit facts.now (reverse around.entry.frames.now) os term.now) }
{
    facts.shows();
    let hole = innermost(around.frames);
    if !fits(levels_above(facts, hole, term), depth(term)) {
        return Ok(Fit::TooDeep);
    }
    if large {
        return Ok(Fit::TooLarge);
    }
    if is_branch(term) {
        return Ok(Fit::Fits);
    }
    let grown = grows(alloc, facts, around, term)?;
    if grown {
        return Ok(Fit::TooLarge);
    }
    Ok(Fit::Fits)
}

/// Whether there is a pattern.
#[inline(always)]
fn is_some(patterns: &Patterns) -> bool
    ensures { IsTrue result → (t : RawTerm) × (ts : RawTerms) × (patterns.now ≡ cons t ts) }
{
    !patterns.slice().is_empty()
}

/// Whether a right side without axioms has an operator on top that stays as it is wherever it comes.
#[inline(always)]
fn stays_branch(facts: &Facts, hole: Option<Frame>, right: &Pattern) -> bool
    ensures { IsTrue result → (f : ℕ) × (ts : RawTerms) × (clean right.now ≡ applied f ts)
        × (IsBranch (applied f ts) ⊎ IsUnfolded facts.now (option_to_list hole)) }
{
    match right {
        Pattern::Op(_, args) => is_some(args) || is_unfolded(facts, hole),
        _ => false,
    }
}

/// Whether a constant in the hole is never left out, nor counted.
#[inline(always)]
fn is_unfolded(facts: &Facts, hole: Option<Frame>) -> bool
    ensures { IsTrue result → IsUnfolded facts.now (option_to_list hole) }
{
    match hole {
        None => true,
        Some(frame) => !matches!(facts.axioms(frame.op), Axioms::Associative { .. }),
    }
}

/// Whether the instance of a right side by these values may stand where it comes. Where no operator in it has an axiom
/// (`free`) it isn't built, unless it may be left out.
#[inline(always)]
pub(crate) fn fit_right(
    alloc: Global,
    facts: &Facts,
    around: Around<'_, '_>,
    right: &Pattern,
    free: bool,
    levels: u16,
    values: &[Term],
) -> Result<Fit, AllocError>
    ensures { (os : List Open) → AreClear facts.now os → AreSmall facts.now os
        → AreOpened facts.now around.entry.values.now (reverse around.entry.frames.now) around.entry.done.now around.entry.jobs.now os
        → some_largest facts.now (terms_of values.now) ≡ false
        → (IsTrue free → IsFree facts.now (clean right.now))
        → levels ≡ min (height (fill [] (clean right.now))) (2 ^ 16 - 1)
        → IfOk result (IsFit facts.now (reverse around.entry.frames.now) os (evaluated facts.now values.now (clean right.now))) }
{
    facts.shows();
    let hole = innermost(around.frames);
    if free && stays_branch(facts, hole, right) {
        if fits_at(levels_above_plain(hole), levels, right, values) {
            return Ok(Fit::Fits);
        }
        return Ok(Fit::TooDeep);
    }
    let mut large = false;
    let term = build(alloc, facts, right, values, &mut large)?;
    let fit = fit_built(alloc, facts, around, &term, large)?;
    Ok(fit)
}
