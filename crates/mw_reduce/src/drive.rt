// What comes of an event, from one replacement to the next.
ghost use Rattle.std.specs.Prelude.{◌≡◌, ◌<◌, ◌≤◌, ◌+◌, ℕ, false, IfOk, MatchOption};
ghost use Rattle.mw_logic.specs.Module.{Module};
ghost use Rattle.mw_least.specs.Workable.{IsWorkable};
ghost use Rattle.mw_index.specs.Index.{IsIndexOf};
ghost use Rattle.mw_frames.specs.State.{Run, Data, IsRun};
ghost use Rattle.mw_frames.specs.Machines.{data_of};
ghost use Rattle.mw_frames.specs.Steps.{IsAsked, IsAskedFor};
ghost use Rattle.mw_frames.specs.Fires.{IsFired};
ghost use Rattle.mw_reduce.specs.Turns.{IsMetAt, IsBigAt};
ghost use Rattle.mw_reduce.specs.Attempts.{IsAppliedAs, IsReady, IsHaltedAt};
ghost use Rattle.mw_reduce.specs.Events.{IsEvent, EventOf, Stands, Rests};
ghost use Rattle.mw_reduce.specs.Driven.{EndsAt, IsNext};

use crate::pairs::join_pairs;
use crate::turning::{Event, take_turn};
use mw_canon::Facts;
use mw_frames::{Applied, Asked, Fired, Hand, Job, Machine, decide, fire, halt, meet};
use mw_index::{Choice, Choices, Index, Oriented};
use mw_least::Ctx;
use mw_proof::Reason;
use mw_term::{Seq, Term};
use mw_trail::Trail;
use std::alloc::{AllocError, Global};

/// How a run ends.
#[derive(Clone, Copy, PartialEq, Eq, Debug)]
pub enum Outcome {
    /// At a normal term, in fewer steps than the limit.
    Done,
    Stopped(Reason),
}

/// The whole that a run ends at.
#[derive(Drop)]
pub struct End {
    pub term: Term,
    pub outcome: Outcome,
}

/// What a run comes to.
#[derive(Drop)]
pub struct Driven {
    pub end: End,
    /// How many steps are left to its limit.
    pub left: u64,
}

/// How a run goes on behind an event.
#[derive(Drop)]
pub enum Next<'m> {
    /// It goes on after so many steps.
    Goes(Hand<'m>, u64),
    Ends(End),
}

/// Turns until it doesn't go on by itself.
#[inline(always)]
pub fn advance<'m>(
    alloc: Global,
    context: &'m Ctx,
    index: &'m Index,
    machine: &mut Machine<'m>,
    choices: &mut Choices<'m>,
    event: Event<'m>,
) -> Result<Event<'m>, AllocError>
    requires index { IsIndexOf context.now index.now }
    requires of { EventOf context.now event }
    ensures of { IfOk result (EventOf context.now) }
    ensures stands { IfOk result Stands }
    ensures means { (K : Run) (k side : ℕ) → IsRun K context.now.signature → K.over ≡ context.now
        → IsEvent K k side index.now (data_of K.over machine.old) choices.old event.entry
        → IfOk result (IsEvent K k side index.now (data_of K.over machine.new) choices.new) }
{
    let mut event = event;
    loop {
        match event {
            Event::Goes(hand) => {
                event = take_turn(alloc, context, index, machine, choices, hand)?;
            }
            other => return Ok(other),
        }
    }
}

/// The statement as the machine applies it.
#[inline(always)]
pub fn applied<'m>(by: &'m Oriented) -> Applied<'m>
    ensures { IsAppliedAs by.now result }
{
    Applied {
        number: by.number,
        rule: by.rule,
        right: &by.right,
        free: by.free,
        levels: by.levels,
        sure: by.sure && by.condition.tests.as_slice().is_empty(),
    }
}

/// The equation is applied.
#[inline(always)]
fn apply<'m>(
    alloc: Global,
    facts: &Facts,
    machine: &mut Machine<'m>,
    choices: &mut Choices<'m>,
    asked: Asked,
    choice: Choice<'m>,
    sides: Vec<Trail>,
) -> Result<Fired<'m>, AllocError>
    ensures { (K : Run) (k : ℕ) → IsRun K facts.now → IsReady K k (data_of K.over machine.old) asked choice.entry sides.items
        → IfOk result (IsFired K false k (data_of K.over machine.new)) }
{
    let Choice {
        by,
        mut values,
        take,
    } = choice;
    let by = applied(by);
    let mut sides = sides;
    let fired = fire(
        alloc,
        facts,
        machine,
        asked,
        by,
        &mut sides,
        &mut values,
        &take,
    )?;
    choices.give_back(values);
    Ok(fired)
}

/// Rows at two arguments of a term at a time, where they are met at some of them.
#[inline(always)]
fn join_some<'m>(
    alloc: Global,
    context: &'m Ctx,
    index: &'m Index,
    machine: &mut Machine<'m>,
    choices: &mut Choices<'m>,
    asked: &Asked,
    take: &Option<Seq<u32>>,
    left: u64,
) -> Result<Option<(Term, u64)>, AllocError>
    requires { IsIndexOf context.now index.now }
    ensures { (K : Run) (k : ℕ) → IsRun K context.now.signature → K.over ≡ context.now → IsAskedFor K k (data_of K.over machine.old) asked.now
        → IfOk result (λ o. MatchOption o (machine.new ≡ machine.old) (λ r. (0 < r.1) × (r.1 ≤ left) × IsAsked K (k + r.1) (data_of K.over machine.new) r.0)) }
{
    match asked {
        Asked::Term(term) => {
            if take.is_none() {
                return Ok(None);
            }
            let joined = join_pairs(alloc, context, index, machine, choices, term, left)?;
            Ok(joined)
        }
        Asked::Own(_) => Ok(None),
    }
}

/// A row is met at what was asked for, or at several of its arguments; of a long sum or product at all but the last.
#[inline(never)]
fn meet_rows<'m>(
    alloc: Global,
    context: &'m Ctx,
    index: &'m Index,
    machine: &mut Machine<'m>,
    choices: &mut Choices<'m>,
    asked: Asked,
    to: Term,
    take: &Option<Seq<u32>>,
    left: u64,
) -> Result<Next<'m>, AllocError>
    requires { IsIndexOf context.now index.now }
    ensures { (K : Run) (k : ℕ) → IsRun K context.now.signature → K.over ≡ context.now → 0 < left
        → IsMetAt K k (data_of K.over machine.old) asked take.now to
        → (side : ℕ) → IfOk result (IsNext K k side left (data_of K.over machine.new)) }
{
    match join_some(alloc, context, index, machine, choices, &asked, take, left)? {
        Some((term, count)) => Ok(Next::Goes(Hand::One(Job::Try(term)), count)),
        None => {
            let fired = meet(alloc, context.facts(), machine, asked, to, take)?;
            Ok(after(fired))
        }
    }
}

/// A sum or product is too big.
#[inline(never)]
fn end_at_big(
    alloc: Global,
    facts: &Facts,
    machine: &mut Machine<'_>,
    asked: Asked,
    take: &Option<Seq<u32>>,
) -> Result<End, AllocError>
    ensures { (K : Run) (k : ℕ) → IsRun K facts.now → IsBigAt K k (data_of K.over machine.old) asked take.now
        → (side : ℕ) → IfOk result (λ e. EndsAt K k side (data_of K.over machine.new) e.term e.outcome) }
{
    let term = halt(alloc, facts, machine, asked, take)?;
    Ok(End {
        term,
        outcome: Outcome::Stopped(Reason::Nat),
    })
}

/// It isn't told whether a condition holds.
#[inline(never)]
fn halt_there(
    alloc: Global,
    facts: &Facts,
    machine: &mut Machine<'_>,
    asked: Asked,
    take: &Option<Seq<u32>>,
    reason: Reason,
) -> Result<End, AllocError>
    ensures { (K : Run) (k side : ℕ) → IsRun K facts.now → IsHaltedAt K k side (data_of K.over machine.old) asked take.now reason
        → IfOk result (λ e. EndsAt K k side (data_of K.over machine.new) e.term e.outcome) }
{
    let term = halt(alloc, facts, machine, asked, take)?;
    Ok(End {
        term,
        outcome: Outcome::Stopped(reason),
    })
}

/// What comes of what was applied.
#[inline(always)]
fn after<'m>(fired: Fired<'m>) -> Next<'m>
    ensures { (K : Run) (k side left : ℕ) (d : Data) → 0 < left → IsFired K false k d fired.entry → IsNext K k side left d result }
{
    match fired {
        Fired::Goes(hand) => Next::Goes(hand, 1),
        Fired::TooDeep(term) => Next::Ends(End {
            term,
            outcome: Outcome::Stopped(Reason::Depth),
        }),
        Fired::TooLarge(term) => Next::Ends(End {
            term,
            outcome: Outcome::Stopped(Reason::Nat),
        }),
    }
}

/// What comes of an event: an equation is applied, rows are met, as many as are left to the limit, or it ends.
#[inline(always)]
pub fn go_on<'m>(
    alloc: Global,
    context: &'m Ctx,
    index: &'m Index,
    machine: &mut Machine<'m>,
    choices: &mut Choices<'m>,
    event: Event<'m>,
    left: u64,
) -> Result<Next<'m>, AllocError>
    requires index { IsIndexOf context.now index.now }
    requires rests { Rests event }
    ensures { (K : Run) (k side : ℕ) → IsRun K context.now.signature → K.over ≡ context.now → 0 < left
        → IsEvent K k side index.now (data_of K.over machine.old) choices.old event.entry
        → IfOk result (IsNext K k side left (data_of K.over machine.new)) }
{
    context.shows();
    let facts = context.facts();
    match event {
        Event::Goes(_) | Event::Found(..) => unreachable!(),
        Event::Ended(term) => Ok(Next::Ends(End {
            term,
            outcome: Outcome::Done,
        })),
        Event::Applies(asked, choice, sides) => {
            let fired = apply(alloc, facts, machine, choices, asked, choice, sides)?;
            Ok(after(fired))
        }
        Event::Met(asked, take, to) => {
            let next = meet_rows(
                alloc, context, index, machine, choices, asked, to, &take, left,
            )?;
            Ok(next)
        }
        Event::Decides(frame, truth) => {
            let fired = decide(alloc, facts, machine, frame, truth)?;
            Ok(after(fired))
        }
        Event::Big(asked, take) => {
            let end = end_at_big(alloc, facts, machine, asked, &take)?;
            Ok(Next::Ends(end))
        }
        Event::Halts(asked, take, reason) => {
            let end = halt_there(alloc, facts, machine, asked, &take, reason)?;
            Ok(Next::Ends(end))
        }
    }
}
