// The evaluation of a condition, between the runs of its sides.
ghost use Rattle.std.specs.Prelude.{◌≡◌, ◌<◌, ◌+◌, ◌^◌, ◌++◌, ◌∷◌, ◌↔◌, [], ℕ, List, length, true, false, IfOk, OnOk, IsTrue, MatchOption, option_to_list, reverse};
ghost use Rattle.mw_logic.specs.Term.{Variable, RawTerm};
ghost use Rattle.mw_logic.specs.Module.{Module, Fragment, Statement, IsTruth, is_true, has_sort, equal, matches as matched_by};
ghost use Rattle.mw_logic.specs.NormalForm.{normal_form};
ghost use Rattle.mw_logic.specs.Parts.{nested};
ghost use Rattle.mw_logic.specs.Substitution.{Substitution, instance as instance_of};
ghost use Rattle.mw_logic.specs.Judgements.{MeetsSort, FailsAbove, admitted_judgements};
ghost use Rattle.mw_position.specs.Variables.{sorts_of};
ghost use Rattle.mw_term.specs.Signatures.{sorted_of};
ghost use Rattle.mw_least.specs.Workable.{IsWorkable};
ghost use Rattle.mw_compile.specs.Compiled.{IsCompiled};
ghost use Rattle.mw_match.specs.Solutions.{IsAllSolutions, AreNamed};
ghost use Rattle.mw_index.specs.Conditions.{IsMatchOf, AreReady, bound_by};
ghost use Rattle.mw_index.specs.declared.conditions.Test.{Test as TestOf};
ghost use Rattle.mw_frames.specs.State.{IsNormalHere};
ghost use Rattle.mw_reduce.specs.Evaluations.{AreBoundTo, bound_to, IsShown, IsTested, IsAt, IsTrial, IsBack, IsProgress, Tries};
ghost use Rattle.mw_reduce.specs.declared.evaluation.Other.{Other as OtherOf};

use crate::sides::Reduced;
use mw_compile::Compiled;
use mw_index::Matched;
use mw_least::Ctx;
use mw_match::{Solutions, bound, values_of};
use mw_proof::Reason;
use mw_term::{Sorted, Term, same};
use std::alloc::{AllocError, Global};

/// Solutions of a match that are still to be tried: the test that comes behind it, how many sides were shown by then,
/// and the solutions.
#[derive(Drop)]
pub struct Other<'m> {
    pub at: usize,
    pub sides: usize,
    pub solutions: Box<Solutions<'m>>,
}

/// What comes of a test.
#[derive(Drop)]
pub enum Tested<'m> {
    /// It holds, by these sides.
    Holds(Vec<Reduced>),
    Fails,
    /// It is a match, with this side and these solutions.
    Opens(Reduced, Box<Solutions<'m>>),
    /// A side stops.
    Stops(Reason),
}

/// What comes of a condition.
#[derive(Drop)]
pub enum Verdict {
    /// It holds, by these sides, in order.
    Held(Vec<Reduced>),
    Failed,
    /// A side stops.
    Stopped(Reason),
}

/// How an evaluation goes on: at a test, or it has failed or stopped.
#[derive(Clone, Copy)]
pub enum Progress {
    At(usize),
    Failed,
    Stopped(Reason),
}

/// One side, or two.
fn listed(
    alloc: Global,
    first: Reduced,
    second: Option<Reduced>,
) -> Result<Vec<Reduced>, AllocError>
    ensures { IfOk result (λ rs. rs.items ≡ first ∷ option_to_list second) }
{
    let mut sides = Vec::new(alloc);
    sides.push(first)?;
    if let Some(second) = second {
        sides.push(second)?;
    }
    Ok(sides)
}

/// Whether the sides of an equation are the same.
pub fn compared<'m>(
    alloc: Global,
    first: Reduced,
    second: Reduced,
) -> Result<Tested<'m>, AllocError>
    ensures { (M : Module) (n limit : ℕ) (xs : List Variable) (vs : List RawTerm) (u v : RawTerm) → IsWorkable M
        → IsShown M n (instance_of (bound_to M.signature xs vs) u) first
        → IsShown M n (instance_of (bound_to M.signature xs vs) v) second
        → IfOk result (IsTested M n limit (equal u v) xs vs xs) }
{
    if !same(&first.to, &second.to) {
        return Ok(Tested::Fails);
    }
    let sides = listed(alloc, first, Some(second))?;
    Ok(Tested::Holds(sides))
}

/// Whether a term is `true`.
fn is_true_term(context: &Ctx, term: &Term) -> bool
    ensures { IsTrue result ↔ IsTruth context.now.signature true term.now }
{
    context.shows();
    match context.schemata().truth(term) {
        Some(truth) => truth,
        None => false,
    }
}

/// Whether a side is true.
pub fn held<'m>(alloc: Global, context: &Ctx, side: Reduced) -> Result<Tested<'m>, AllocError>
    ensures { let M = context.now in (n limit : ℕ) (xs : List Variable) (vs : List RawTerm) (u : RawTerm)
        → IsShown M n (instance_of (bound_to M.signature xs vs) u) side
        → IfOk result (IsTested M n limit (is_true u) xs vs xs) }
{
    context.shows();
    if !is_true_term(context, &side.to) {
        return Ok(Tested::Fails);
    }
    let sides = listed(alloc, side, None)?;
    Ok(Tested::Holds(sides))
}

/// Whether a term has a sort; each one has its kind.
fn meets(context: &Ctx, term: &Term, sort: Sorted) -> bool
    ensures { let sig = context.now.signature in (M : Module) (n : ℕ) → M.signature ≡ sig → IsNormalHere M n term.now
        → (IsTrue result ↔ MeetsSort sig (nested sig term.now) (sorted_of sort)) }
{
    match sort {
        Sorted::Sort(sort) => context.has_sort(term, sort),
        Sorted::Kind(_) => true,
    }
}

/// Whether a side has a sort.
pub fn sorted<'m>(
    alloc: Global,
    context: &Ctx,
    side: Reduced,
    sort: Sorted,
) -> Result<Tested<'m>, AllocError>
    ensures { let M = context.now in (n limit : ℕ) (xs : List Variable) (vs : List RawTerm) (u : RawTerm)
        → IsShown M n (instance_of (bound_to M.signature xs vs) u) side
        → IfOk result (IsTested M n limit (has_sort u (sorted_of sort)) xs vs xs) }
{
    context.shows();
    if !meets(context, &side.to, sort) {
        return Ok(Tested::Fails);
    }
    let sides = listed(alloc, side, None)?;
    Ok(Tested::Holds(sides))
}

/// The solutions of a match.
fn solutions_of<'m>(
    alloc: Global,
    context: &'m Ctx,
    compiled: &'m Compiled,
    values: &[Term],
    subject: &Term,
) -> Result<Box<Solutions<'m>>, AllocError>
    requires { compiled.now.positions.sorts ≡ sorts_of compiled.now.variables }
    ensures { let M = context.now in let sig = context.now.signature in (n : ℕ) (all xs : List Variable) (l u : RawTerm) (C : List Fragment)
        → AreReady sig all xs (matched_by l u ∷ C) → IsCompiled sig (normal_form sig l) xs compiled.now → AreBoundTo M xs values.now
        → IsNormalHere M n subject.now
        → IfOk result (λ s. IsAllSolutions sig false l subject.now (bound_to sig xs values.now) s.value × AreNamed sig compiled.now.variables s.value) }
{
    context.shows();
    let given = bound(alloc, compiled.variables.as_slice(), values)?;
    let solutions = Solutions::new(alloc, context, compiled, subject, &given)?;
    Ok(Box::new(alloc, solutions)?)
}

/// A match is opened.
pub fn opened<'m>(
    alloc: Global,
    context: &'m Ctx,
    matched: &'m Matched,
    values: &[Term],
    side: Reduced,
) -> Result<Tested<'m>, AllocError>
    requires { matched.now.compiled.positions.sorts ≡ sorts_of matched.now.compiled.variables }
    ensures { let M = context.now in (n limit : ℕ) (all xs : List Variable) (l u : RawTerm) (C : List Fragment)
        → AreReady M.signature all xs (matched_by l u ∷ C) → IsMatchOf M.signature xs l u matched.now → AreBoundTo M xs values.now
        → IsShown M n (instance_of (bound_to M.signature xs values.now) u) side
        → IfOk result (IsTested M n limit (matched_by l u) xs values.now matched.now.compiled.variables) }
{
    let solutions = solutions_of(alloc, context, &matched.compiled, values, &side.to)?;
    Ok(Tested::Opens(side, solutions))
}

/// The next solution of a match is tried, if there is one: what was shown behind the match is given up.
fn try_other(
    alloc: Global,
    other: &mut Other<'_>,
    values: &mut Vec<Term>,
    sides: &mut Vec<Reduced>,
) -> Result<bool, AllocError>
    ensures { IfOk result (Tries other.old other.new sides.old.items sides.new.items values.new.items) }
{
    sides.truncate(other.sides);
    match other.solutions.next()? {
        Some(solution) => {
            *values = values_of(alloc, &solution.subst)?;
            Ok(true)
        }
        None => Ok(false),
    }
}

/// Back to the last match that has a solution left: the test behind it, or none where no match has one.
fn turn_back(
    alloc: Global,
    others: &mut Vec<Other<'_>>,
    values: &mut Vec<Term>,
    sides: &mut Vec<Reduced>,
) -> Result<Option<usize>, AllocError>
    ensures { (M : Module) (n : ℕ) (e : Statement) (tests : List TestOf) (s : Substitution) → IsBack M n e tests s sides.old.items (reverse others.old.items)
        → IfOk result (λ o. MatchOption o (FailsAbove M (admitted_judgements M n) e.fragments s) (λ at. IsTrial M n e tests s at values.new.items sides.new.items (reverse others.new.items))) }
{
    while let Some(mut other) = others.pop() {
        if try_other(alloc, &mut other, values, sides)? {
            let at = other.at;
            others.push(other)?;
            return Ok(Some(at));
        }
    }
    Ok(None)
}

/// How it goes on behind a test: at the next one, or where a solution of a match is left.
pub fn after_test<'m>(
    alloc: Global,
    at: usize,
    tested: Tested<'m>,
    others: &mut Vec<Other<'m>>,
    values: &mut Vec<Term>,
    sides: &mut Vec<Reduced>,
) -> Result<Progress, AllocError>
    requires { at + 1 < 2 ^ 64 }
    ensures { (M : Module) (n limit : ℕ) (e : Statement) (tests : List TestOf) (s : Substitution) (f : Fragment) (C : List Fragment) (xs : List Variable) → IsWorkable M
        → (h : IsAt M n e tests s at f C xs values.old.items sides.old.items (reverse others.old.items))
        → IsTested M n limit f xs values.old.items (bound_by xs h.test) tested.entry
        → IfOk result (IsProgress M n limit e tests s values.new.items sides.new.items (reverse others.new.items)) }
{
    match tested {
        Tested::Holds(shown) => {
            let mut shown = shown;
            sides.append(&mut shown)?;
            return Ok(Progress::At(at + 1));
        }
        Tested::Stops(reason) => return Ok(Progress::Stopped(reason)),
        Tested::Fails => {}
        Tested::Opens(side, solutions) => {
            open(others, at, side, solutions, sides)?;
        }
    }
    match turn_back(alloc, others, values, sides)? {
        Some(next) => Ok(Progress::At(next)),
        None => Ok(Progress::Failed),
    }
}

/// The solutions of a match are left to be tried, behind its side.
fn open<'m>(
    others: &mut Vec<Other<'m>>,
    at: usize,
    side: Reduced,
    solutions: Box<Solutions<'m>>,
    sides: &mut Vec<Reduced>,
) -> Result<(), AllocError>
    requires { at + 1 < 2 ^ 64 }
    ensures { OnOk result ((sides.new.items ≡ sides.old.items ++ side ∷ []) × ((o : OtherOf) × (others.new.items ≡ others.old.items ++ o ∷ []) × (o.at ≡ at + 1) × (o.sides ≡ length sides.new.items) × (o.solutions ≡ solutions.entry))) }
{
    sides.push(side)?;
    others.push(Other {
        at: at + 1,
        sides: sides.len(),
        solutions,
    })?;
    Ok(())
}
