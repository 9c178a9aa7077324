// Conditions, and normal terms, asked of by themselves.
ghost use Rattle.std.specs.Prelude.{◌≡◌, ◌≤◌, ◌<◌, ℕ, suc, List, map, IfOk};
ghost use Rattle.std.specs.List.{zip};
ghost use Rattle.mw_logic.specs.Term.{RawTerm};
ghost use Rattle.mw_logic.specs.Module.{Module, Statement as StatementOf, IsStatement};
ghost use Rattle.mw_canon.specs.Canonical.{IsAdmittedTerm, meant};
ghost use Rattle.mw_least.specs.Workable.{IsWorkable};
ghost use Rattle.mw_index.specs.Index.{IsIndexOf};
ghost use Rattle.mw_frames.specs.State.{Data};
ghost use Rattle.mw_reduce.specs.Events.{IsEvent, Rests};
ghost use Rattle.mw_index.specs.declared.index.Index.{Index as IndexOf};
ghost use Rattle.mw_index.specs.declared.choices.Choices.{Choices as ChoicesOf};
ghost use Rattle.mw_reduce.specs.Evaluations.{run_of, AreKept, deduction_of, IsHeldBy};
ghost use Rattle.mw_reduce.specs.Judgements.{IsAskedOf, IsTriedOf, IsJudged};

use crate::attempts::put_in_order;
use crate::evaluation::Verdict;
use crate::reducing::Budget;
use crate::running::{evaluate, find};
use crate::sides::Reduced;
use crate::turning::Event;
use mw_frames::{Hand, Job, Machine};
use mw_index::{Choices, Condition, Index};
use mw_least::Ctx;
use mw_match::{bound, values_of};
use mw_proof::{Failing, Proved, Reason};
use mw_term::{Subst, Term, copy};
use std::alloc::{AllocError, Global};

/// What comes of a condition.
#[derive(Drop)]
pub enum Tried<'m> {
    /// It holds, with these values of all variables of its statement, by these proofs of its sides, in order.
    Held(Subst, Vec<Proved<'m>>),
    Failed(Failing<'m>),
    /// A side stops, or there would be one condition too many inside one another.
    Stopped(Reason),
}

/// Whether a term is normal.
#[derive(Clone, Copy, PartialEq, Eq, Debug)]
pub enum Normality {
    Yes,
    /// The condition of an equation holds at a part of it, or a row of the schemata is met there.
    No,
    /// It isn't told: a condition stops, or a sum or product is too big.
    Stopped(Reason),
}

/// Values of a statement's variables, by name.
fn named(alloc: Global, context: &Ctx, number: usize, values: &[Term]) -> Result<Subst, AllocError>
    requires { (e : StatementOf) × IsStatement context.now number e }
    ensures { (e : StatementOf) → IsStatement context.now number e → IfOk result (λ s. s ≡ zip e.variables values.now) }
{
    let statement = &context.statements()[number - 1];
    let subst = bound(alloc, statement.variables.as_slice(), values)?;
    Ok(subst)
}

/// Sides that were reduced, as proofs.
fn all_proved<'m>(
    alloc: Global,
    context: &'m Ctx,
    rank: u8,
    sides: Vec<Reduced>,
) -> Result<Vec<Proved<'m>>, AllocError>
    requires low { rank ≤ 63 }
    requires kept { AreKept context.now rank sides.items }
    ensures { IfOk result (λ ds. ds.items ≡ map (deduction_of context.now rank) sides.items) }
{
    let mut proofs = Vec::with_capacity(alloc, sides.len())?;
    let mut left = sides;
    left.reverse();
    while let Some(side) = left.pop() {
        let Reduced { from, to, kept } = side;
        proofs.push(Proved::of(context, rank, from, to, kept))?;
    }
    Ok(proofs)
}

/// Whether the condition of a statement holds, by values of its left side's variables, which stand in the order in
/// which these are met. The proofs of its sides are kept where it does; nothing is kept of what fails.
pub fn conditions<'m>(
    alloc: Global,
    context: &'m Ctx,
    index: &'m Index,
    number: usize,
    condition: &'m Condition,
    given: Subst,
    budget: Budget,
) -> Result<Tried<'m>, AllocError>
    requires nest { budget.nest ≤ 63 }
    requires index { IsIndexOf context.now index.now }
    requires asked { (e : StatementOf) × IsAskedOf context.now number condition.now given e }
    ensures { (e : StatementOf) → IsAskedOf context.now number condition.now given e
        → IfOk result (IsTriedOf context.now budget.nest budget.side number e given) }
{
    context.shows();
    if condition.tests.as_slice().is_empty() {
        return Ok(Tried::Held(given, Vec::new(alloc)));
    }
    if budget.nest == 0 {
        return Ok(Tried::Stopped(Reason::Nest));
    }
    let mut values = values_of(alloc, &given)?;
    match evaluate(
        alloc,
        context,
        index,
        condition,
        &mut values,
        budget.side,
        budget.nest,
    )? {
        Verdict::Held(sides) => {
            put_in_order(alloc, condition, &mut values)?;
            let reached = named(alloc, context, number, values.as_slice())?;
            let proofs = all_proved(alloc, context, budget.nest - 1, sides)?;
            Ok(Tried::Held(reached, proofs))
        }
        Verdict::Failed => Ok(Tried::Failed(Failing::of(context, number, given))),
        Verdict::Stopped(reason) => Ok(Tried::Stopped(reason)),
    }
}

/// What it says of the term that a run begins at, that it comes to this first.
fn judged(event: &Event<'_>) -> Normality
    requires { Rests event.now }
    ensures { (M : Module) (n side : ℕ) (t : RawTerm) (d : Data) (m : IndexOf) (rest : ChoicesOf) → IsWorkable M → IsAdmittedTerm M.signature t
        → IsEvent (run_of M n t) 0 side m d rest event.now → IsJudged M n side t result }
{
    match event {
        Event::Goes(_) | Event::Found(..) => unreachable!(),
        Event::Ended(_) => Normality::Yes,
        Event::Applies(..) => Normality::No,
        Event::Met(..) => Normality::No,
        Event::Decides(..) => Normality::No,
        Event::Big(..) => Normality::Stopped(Reason::Nat),
        Event::Halts(_, _, reason) => Normality::Stopped(*reason),
    }
}

/// Whether a term is normal: what applies to it first is found, and isn't applied.
pub fn is_normal<'m>(
    alloc: Global,
    context: &'m Ctx,
    index: &'m Index,
    term: &Term,
    budget: Budget,
) -> Result<Normality, AllocError>
    requires nest { budget.nest ≤ 63 }
    requires index { IsIndexOf context.now index.now }
    requires admitted { IsAdmittedTerm context.now.signature term.now }
    ensures { IfOk result (IsJudged context.now budget.nest budget.side term.now) }
{
    context.shows();
    let hand = Hand::One(Job::Walk(copy(term)?));
    let mut machine = Machine::new(alloc);
    let mut choices = Choices::new(alloc);
    let event = find(
        alloc,
        context,
        index,
        &mut machine,
        &mut choices,
        hand,
        budget.side,
        budget.nest,
    )?;
    Ok(judged(&event))
}
