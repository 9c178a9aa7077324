// Runs, and those of the sides of conditions inside them.
ghost use Rattle.std.specs.Prelude.{◌≡◌, ◌<◌, ◌≤◌, ◌+◌, ℕ, suc, List, [], ◌∷◌, IfOk};
ghost use Rattle.mw_logic.specs.Term.{Variable, RawTerm};
ghost use Rattle.mw_logic.specs.Module.{Module, Fragment, Statement as StatementOf, IsStatement};
ghost use Rattle.mw_logic.specs.Signature.{IsRawTerm};
ghost use Rattle.mw_logic.specs.Substitution.{instance as instance_of};
ghost use Rattle.mw_position.specs.Variables.{met};
ghost use Rattle.mw_index.specs.Index.{IsIndexOf};
ghost use Rattle.mw_index.specs.Choices.{IsChoice};
ghost use Rattle.mw_index.specs.Conditions.{IsSideOf, IsTestOf, IsConditionOf, AreReady, bound_by};
ghost use Rattle.mw_frames.specs.State.{Run, IsRun, Holds};
ghost use Rattle.mw_frames.specs.Machines.{data_of};
ghost use Rattle.mw_reduce.specs.Turns.{HasOriented};
ghost use Rattle.mw_reduce.specs.Driven.{IsDriven};
ghost use Rattle.mw_reduce.specs.declared.drive.Outcome.TheVariants.{Done as DoneOf};
ghost use Rattle.mw_reduce.specs.Attempts.{IsTriable, IsAttempt};
ghost use Rattle.mw_reduce.specs.Events.{IsEvent, Rests};
ghost use Rattle.mw_reduce.specs.Evaluations.{AreBoundTo, bound_to, AreAsked, IsSomeTest, AreSomeTests, IsSideShown, IsTested, IsVerdict};

use crate::attempts::{Attempt, put_in_order, settle};
use crate::drive::{Driven, End, Next, Outcome, advance, go_on};
use crate::evaluation::{Progress, Tested, Verdict, after_test, compared, held, opened, sorted};
use crate::sides::{Begun, Running, Shown, all_enclosed, begin_side, end_side};
use crate::turning::Event;
use mw_frames::{Hand, Job, Machine, stop};
use mw_index::{Choice, Choices, Condition, Index, Side, Test};
use mw_least::Ctx;
use mw_proof::Reason;
use mw_term::{Term, copy};
use std::alloc::{AllocError, Global};

/// From step to step, at most `limit` times. Sides of conditions make at most `side` steps each. It goes on from where
/// the machine stands, whatever was done before.
#[cycle(run)]
pub fn run_on<'m>(
    alloc: Global,
    context: &'m Ctx,
    index: &'m Index,
    machine: &mut Machine<'m>,
    choices: &mut Choices<'m>,
    hand: Hand<'m>,
    limit: u64,
    side: u64,
    nest: u8,
) -> Result<Driven, AllocError>
    requires { IsIndexOf context.now index.now }
    ensures left { IfOk result (λ r. (r.left ≤ limit) × (r.end.outcome ≡ DoneOf → 0 < r.left)) }
    ensures is { (K : Run) (k : ℕ) → IsRun K context.now.signature → K.over ≡ context.now → K.rank ≡ nest → Holds K k (data_of K.over machine.old) hand.entry
        → IfOk result (IsDriven K (k + limit) side (data_of K.over machine.new)) }
{
    let mut hand = hand;
    let mut left = limit;
    while left > 0 {
        let event = find(alloc, context, index, machine, choices, hand, side, nest)?;
        match go_on(alloc, context, index, machine, choices, event, left)? {
            Next::Goes(next, count) => {
                hand = next;
                left = left.saturating_sub(count.max(1));
            }
            Next::Ends(end) => {
                return Ok(Driven { end, left });
            }
        }
    }
    let term = stop(alloc, context.facts(), machine, hand)?;
    let end = End {
        term,
        outcome: Outcome::Stopped(Reason::Rewrites),
    };
    Ok(Driven { end, left: 0 })
}

/// Turns until something applies: an equation whose condition holds, or a row; or until the whole is normal, or a
/// condition stops.
#[cycle(run)]
pub fn find<'m>(
    alloc: Global,
    context: &'m Ctx,
    index: &'m Index,
    machine: &mut Machine<'m>,
    choices: &mut Choices<'m>,
    hand: Hand<'m>,
    side: u64,
    nest: u8,
) -> Result<Event<'m>, AllocError>
    requires { IsIndexOf context.now index.now }
    ensures rests { IfOk result Rests }
    ensures is { (K : Run) (k : ℕ) → IsRun K context.now.signature → K.over ≡ context.now → K.rank ≡ nest → Holds K k (data_of K.over machine.old) hand.entry
        → IfOk result (IsEvent K k side index.now (data_of K.over machine.new) choices.new) }
{
    let mut event = Event::Goes(hand);
    let mut rounds = u64::MAX;
    while rounds > 0 {
        rounds -= 1;
        match advance(alloc, context, index, machine, choices, event)? {
            Event::Found(asked, mut choice) => {
                let attempt = try_choice(alloc, context, index, &mut choice, side, nest)?;
                event = settle(
                    alloc, context, index, machine, choices, asked, choice, attempt,
                )?;
            }
            other => return Ok(other),
        }
    }
    Err(AllocError)
}

/// Whether the condition of a choice holds: then the choice has the values of all variables.
#[cycle(run)]
pub fn try_choice<'m>(
    alloc: Global,
    context: &'m Ctx,
    index: &'m Index,
    choice: &mut Choice<'m>,
    side: u64,
    nest: u8,
) -> Result<Attempt, AllocError>
    requires index { IsIndexOf context.now index.now }
    requires by { HasOriented context.now choice.old.by.now }
    ensures same { choice.new ≡ record choice.old { values = choice.new.values } }
    ensures means { (t : RawTerm) → IsTriable context.now t choice.old → IfOk result (IsAttempt context.now nest side t choice.old choice.new) }
{
    context.shows();
    if choice.by.condition.tests.as_slice().is_empty() {
        return Ok(Attempt::Made(Vec::new(alloc)));
    }
    if nest == 0 {
        return Ok(Attempt::Halts(Reason::Nest));
    }
    match evaluate(
        alloc,
        context,
        index,
        &choice.by.condition,
        &mut choice.values,
        side,
        nest,
    )? {
        Verdict::Held(sides) => {
            put_in_order(alloc, &choice.by.condition, &mut choice.values)?;
            let trails = all_enclosed(alloc, sides)?;
            Ok(Attempt::Made(trails))
        }
        Verdict::Failed => Ok(Attempt::Fails),
        Verdict::Stopped(_) => Ok(Attempt::Halts(Reason::Condition)),
    }
}

/// Whether a condition holds, by values of the variables of the statement's left side. Where it does there are values
/// of all variables, in the order in which these are bound.
#[cycle(run)]
pub fn evaluate<'m>(
    alloc: Global,
    context: &'m Ctx,
    index: &'m Index,
    condition: &'m Condition,
    values: &mut Vec<Term>,
    limit: u64,
    nest: u8,
) -> Result<Verdict, AllocError>
    requires index { IsIndexOf context.now index.now }
    requires tests { AreSomeTests context.now.signature condition.now }
    requires above { 0 < nest }
    ensures { let M = context.now in let lefts = λ (e : StatementOf). met [] e.left in
        (n number : ℕ) (e : StatementOf) → nest ≡ suc n → IsStatement M number e → IsConditionOf M.signature e condition.now
        → AreBoundTo M (lefts e) values.old.items
        → IfOk result (IsVerdict M n limit e condition.now.tests (bound_to M.signature (lefts e) values.old.items) values.new.items) }
{
    context.shows();
    let tests = condition.tests.as_slice();
    let mut sides = Vec::new(alloc);
    let mut others = Vec::new(alloc);
    let mut at = 0;
    let mut rounds = u64::MAX;
    while rounds > 0 {
        rounds -= 1;
        if at >= tests.len() {
            return Ok(Verdict::Held(sides));
        }
        let tested = try_test(
            alloc,
            context,
            index,
            &tests[at],
            values.as_slice(),
            limit,
            nest,
        )?;
        match after_test(alloc, at, tested, &mut others, values, &mut sides)? {
            Progress::At(next) => {
                at = next;
            }
            Progress::Failed => {
                return Ok(Verdict::Failed);
            }
            Progress::Stopped(reason) => {
                return Ok(Verdict::Stopped(reason));
            }
        }
    }
    Err(AllocError)
}

/// A test, by values of the variables that are bound before it.
#[cycle(run)]
fn try_test<'m>(
    alloc: Global,
    context: &'m Ctx,
    index: &'m Index,
    test: &'m Test,
    values: &[Term],
    limit: u64,
    nest: u8,
) -> Result<Tested<'m>, AllocError>
    requires index { IsIndexOf context.now index.now }
    requires test { IsSomeTest context.now.signature test.now }
    requires above { 0 < nest }
    ensures { let M = context.now in (n : ℕ) (all xs : List Variable) (f : Fragment) (C : List Fragment) → nest ≡ suc n → IsTestOf M.signature xs f test.now
        → AreReady M.signature all xs (f ∷ C) → AreBoundTo M xs values.now
        → IfOk result (IsTested M n limit f xs values.now (bound_by xs test.now)) }
{
    context.shows();
    match test {
        Test::Equal(left, right) => {
            match run_side(alloc, context, index, left, values, limit, nest)? {
                Shown::Stops(reason) => Ok(Tested::Stops(reason)),
                Shown::To(first) => {
                    match run_side(alloc, context, index, right, values, limit, nest)? {
                        Shown::Stops(reason) => Ok(Tested::Stops(reason)),
                        Shown::To(second) => {
                            let tested = compared(alloc, first, second)?;
                            Ok(tested)
                        }
                    }
                }
            }
        }
        Test::Match(matched) => {
            match run_side(alloc, context, index, &matched.side, values, limit, nest)? {
                Shown::Stops(reason) => Ok(Tested::Stops(reason)),
                Shown::To(side) => {
                    let tested = opened(alloc, context, matched, values, side)?;
                    Ok(tested)
                }
            }
        }
        Test::HasSort(side, sort) => {
            match run_side(alloc, context, index, side, values, limit, nest)? {
                Shown::Stops(reason) => Ok(Tested::Stops(reason)),
                Shown::To(side) => {
                    let tested = sorted(alloc, context, side, *sort)?;
                    Ok(tested)
                }
            }
        }
        Test::Holds(side) => {
            match run_side(alloc, context, index, side, values, limit, nest)? {
                Shown::Stops(reason) => Ok(Tested::Stops(reason)),
                Shown::To(side) => {
                    let tested = held(alloc, context, side)?;
                    Ok(tested)
                }
            }
        }
    }
}

/// A side is reduced, in a run of its own.
#[cycle(run)]
fn run_side<'m>(
    alloc: Global,
    context: &'m Ctx,
    index: &'m Index,
    side: &Side,
    values: &[Term],
    limit: u64,
    nest: u8,
) -> Result<Shown, AllocError>
    requires index { IsIndexOf context.now index.now }
    requires above { 0 < nest }
    ensures { let M = context.now in (n : ℕ) (xs : List Variable) (t : RawTerm) → nest ≡ suc n → AreAsked M.signature xs t → IsSideOf M.signature xs t side.now
        → AreBoundTo M xs values.now
        → IfOk result (IsSideShown M n limit (instance_of (bound_to M.signature xs values.now) t)) }
{
    context.shows();
    match begin_side(alloc, context.facts(), side, values)? {
        Begun::Stops(reason) => Ok(Shown::Stops(reason)),
        Begun::Runs(running) => {
            let Running {
                from,
                mut machine,
                mut choices,
            } = Box::into_inner(running);
            let hand = Hand::One(Job::Walk(copy(&from)?));
            let driven = run_on(
                alloc,
                context,
                index,
                &mut machine,
                &mut choices,
                hand,
                limit,
                limit,
                nest - 1,
            )?;
            Ok(end_side(from, machine, driven))
        }
    }
}
