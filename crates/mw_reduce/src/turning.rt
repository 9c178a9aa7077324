// The machine's steps until an equation applies.
ghost use Rattle.std.specs.Prelude.{◌≡◌, ◌<◌, ℕ, List, IfOk};
ghost use Rattle.mw_logic.specs.Module.{Module};
ghost use Rattle.mw_logic.specs.Judgements.{IsNormalBy, admitted_judgements};
ghost use Rattle.mw_builtin.specs.Steps.{HasNoRow, IsStepOf};
ghost use Rattle.mw_index.specs.Index.{IsIndexOf};
ghost use Rattle.mw_index.specs.Choices.{subject_of, Tried, Covers};
ghost use Rattle.mw_frames.specs.State.{Run, IsRun, Holds, work_of};
ghost use Rattle.mw_frames.specs.Machines.{data_of};
ghost use Rattle.mw_frames.specs.Steps.{IsAskedFor, asked_term, FallsTo};
ghost use Rattle.mw_frames.specs.declared.job.Job.TheVariants.{Normal as NormalOf};
ghost use Rattle.mw_frames.specs.declared.job.Hand.TheVariants.{One as OneOf};
ghost use Rattle.mw_reduce.specs.Turns.{AreFailed};
ghost use Rattle.mw_reduce.specs.Events.{IsEvent, EventOf, EventFalls};

use mw_builtin::Met;
use mw_frames::{Asked, Frame, Hand, Machine, Step, rest, step};
use mw_index::{Choice, Choices, Index, Subject};
use mw_least::Ctx;
use mw_proof::Reason;
use mw_term::{Seq, Term, View, behind};
use mw_trail::Trail;
use std::alloc::{AllocError, Global};

/// What a run comes to between two replacements.
#[derive(Drop)]
pub enum Event<'m> {
    /// It goes on.
    Goes(Hand<'m>),
    /// The whole is this term, which is normal.
    Ended(Term),
    /// An equation has a solution for what was asked for, or for several of its arguments. Its condition isn't looked at.
    Found(Asked, Choice<'m>),
    /// An equation applies: these trails show the sides of its condition.
    Applies(Asked, Choice<'m>, Vec<Trail>),
    /// A row of the schemata is met at what was asked for, or at several of its arguments, and this comes of it.
    Met(Asked, Option<Seq<u32>>, Term),
    /// What was asked for, or several of its arguments, are a sum or product that is too big.
    Big(Asked, Option<Seq<u32>>),
    /// The condition of a choice is this truth value.
    Decides(Frame, bool),
    /// It isn't told whether the condition of an equation holds, at what was asked for or at several of its arguments.
    Halts(Asked, Option<Seq<u32>>, Reason),
}

#[inline(always)]
fn subject_at<'t>(machine: &'t Machine<'_>, asked: &'t Asked) -> Subject<'t>
    ensures { (M : Module) → subject_of result ≡ asked_term (data_of M machine.now) asked.now }
{
    match asked {
        Asked::Term(term) => Subject::Term(term),
        Asked::Own(frame) => Subject::Op(frame.op, behind(machine.done.as_slice(), frame.from)),
    }
}

/// What a row of the schemata does at what is asked for.
#[inline(always)]
fn met_at(
    alloc: Global,
    context: &Ctx,
    machine: &Machine<'_>,
    asked: &Asked,
) -> Result<Met, AllocError>
    ensures { (K : Run) (k : ℕ) → IsRun K context.now.signature → K.over ≡ context.now → IsAskedFor K k (data_of K.over machine.now) asked.now
        → IfOk result (IsStepOf K.over.signature (IsNormalBy K.over (admitted_judgements K.over K.rank).Fails) (asked_term (data_of K.over machine.now) asked.now)) }
{
    context.shows();
    match asked {
        Asked::Own(frame) => {
            let args = behind(machine.done.as_slice(), frame.from);
            let met = context
                .schemata()
                .step(alloc, context.facts(), frame.op, args)?;
            Ok(met)
        }
        Asked::Term(term) => match term.view() {
            View::Op(operator, args) => {
                let met = context
                    .schemata()
                    .step(alloc, context.facts(), operator, args)?;
                Ok(met)
            }
            _ => Ok(Met::Nothing),
        },
    }
}

/// The next equation that has a solution for what is asked for, where no row is met; or it is normal.
#[inline(always)]
pub fn next_choice<'m>(
    alloc: Global,
    context: &'m Ctx,
    index: &'m Index,
    machine: &mut Machine<'m>,
    choices: &mut Choices<'m>,
    asked: Asked,
) -> Result<Event<'m>, AllocError>
    requires { IsIndexOf context.now index.now }
    ensures of { IfOk result (EventOf context.now) }
    ensures means { (K : Run) (k side : ℕ) (tried : List Tried) → IsRun K context.now.signature → K.over ≡ context.now → IsAskedFor K k (data_of K.over machine.old) asked
        → HasNoRow K.over.signature (asked_term (data_of K.over machine.old) asked) → AreFailed K.over K.rank tried
        → Covers K.over index.now (asked_term (data_of K.over machine.old) asked) tried choices.old
        → IfOk result (IsEvent K k side index.now (data_of K.over machine.new) choices.new) }
    ensures falls { (M : Module) (w : ℕ) → FallsTo M w machine.old (OneOf (NormalOf (asked_term (data_of M machine.old) asked))) → IfOk result (EventFalls M w machine.new) }
{
    let subject = subject_at(machine, &asked);
    match choices.next(alloc, context, index, subject)? {
        Some(choice) => Ok(Event::Found(asked, choice)),
        None => {
            let hand = rest(alloc, context.facts(), machine, asked)?;
            Ok(Event::Goes(hand))
        }
    }
}

/// A row that is met at what is asked for, or else the first equation that has a solution for it; or it is normal.
#[inline(always)]
fn ask<'m>(
    alloc: Global,
    context: &'m Ctx,
    index: &'m Index,
    machine: &mut Machine<'m>,
    choices: &mut Choices<'m>,
    asked: Asked,
) -> Result<Event<'m>, AllocError>
    requires { IsIndexOf context.now index.now }
    ensures of { IfOk result (EventOf context.now) }
    ensures means { (K : Run) (k side : ℕ) → IsRun K context.now.signature → K.over ≡ context.now → IsAskedFor K k (data_of K.over machine.old) asked
        → IfOk result (IsEvent K k side index.now (data_of K.over machine.new) choices.new) }
    ensures falls { (M : Module) (w : ℕ) → FallsTo M w machine.old (OneOf (NormalOf (asked_term (data_of M machine.old) asked))) → IfOk result (EventFalls M w machine.new) }
{
    match met_at(alloc, context, machine, &asked)? {
        Met::Gives { take, to } => Ok(Event::Met(asked, take, to)),
        Met::TooBig { take } => Ok(Event::Big(asked, take)),
        Met::Nothing => {
            choices.again();
            let event = next_choice(alloc, context, index, machine, choices, asked)?;
            Ok(event)
        }
    }
}

/// One step, and rows and equations where they are asked for.
#[inline(always)]
pub fn take_turn<'m>(
    alloc: Global,
    context: &'m Ctx,
    index: &'m Index,
    machine: &mut Machine<'m>,
    choices: &mut Choices<'m>,
    hand: Hand<'m>,
) -> Result<Event<'m>, AllocError>
    requires { IsIndexOf context.now index.now }
    ensures of { IfOk result (EventOf context.now) }
    ensures means { (K : Run) (k side : ℕ) → IsRun K context.now.signature → K.over ≡ context.now → Holds K k (data_of K.over machine.old) hand.entry
        → IfOk result (IsEvent K k side index.now (data_of K.over machine.new) choices.new) }
    ensures falls { (M : Module) → M.signature ≡ context.now.signature → IfOk result (EventFalls M (work_of M.signature (data_of M machine.old) hand.entry) machine.new) }
{
    match step(alloc, context.facts(), context.schemata(), machine, hand)? {
        Step::Goes(next) => Ok(Event::Goes(next)),
        Step::Ended(term) => Ok(Event::Ended(term)),
        Step::Decides(frame, truth) => Ok(Event::Decides(frame, truth)),
        Step::Asks(asked) => {
            let event = ask(alloc, context, index, machine, choices, asked)?;
            Ok(event)
        }
    }
}
