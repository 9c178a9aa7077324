// What comes of a choice whose condition was evaluated.
ghost use Rattle.std.specs.Prelude.{◌≡◌, ℕ, IfOk, OnOk, MatchOption};
ghost use Rattle.mw_index.specs.Index.{IsIndexOf};
ghost use Rattle.mw_index.specs.Choices.{in_order as in_order_of};
ghost use Rattle.mw_frames.specs.State.{Run, IsRun};
ghost use Rattle.mw_frames.specs.Machines.{data_of};
ghost use Rattle.mw_frames.specs.Steps.{asked_term};
ghost use Rattle.mw_reduce.specs.Turns.{IsFound};
ghost use Rattle.mw_reduce.specs.Attempts.{IsAttempt};
ghost use Rattle.mw_reduce.specs.Events.{IsEvent, EventOf};
ghost use Rattle.mw_index.specs.declared.choices.Choice.{Choice as ChoiceOf};

use crate::turning::{Event, next_choice};
use mw_frames::{Asked, Machine};
use mw_index::{Choice, Choices, Condition, Index};
use mw_least::Ctx;
use mw_proof::Reason;
use mw_term::{Term, copy};
use mw_trail::Trail;
use std::alloc::{AllocError, Global};

/// What comes of a choice.
#[derive(Drop)]
pub enum Attempt {
    /// It applies: this shows the sides of its condition.
    Made(Vec<Trail>),
    Fails,
    /// It can't be told whether its condition holds.
    Halts(Reason),
}

/// The terms at these places, as far as there are such.
fn in_order(alloc: Global, terms: &[Term], places: &[usize]) -> Result<Vec<Term>, AllocError>
    ensures { IfOk result (λ vs. vs.items ≡ in_order_of terms.now places.now) }
{
    let mut values = Vec::with_capacity(alloc, places.len())?;
    for place in places {
        match terms.get(*place) {
            Some(term) => {
                values.push(copy(term)?)?;
            }
            None => {}
        }
    }
    Ok(values)
}

/// Values in the order in which variables are bound, put into the order of the statement's variables.
pub fn put_in_order(
    alloc: Global,
    condition: &Condition,
    values: &mut Vec<Term>,
) -> Result<(), AllocError>
    ensures { OnOk result (MatchOption condition.now.order (values.new.items ≡ values.old.items) (λ ns. values.new.items ≡ in_order_of values.old.items ns)) }
{
    match &condition.order {
        Some(places) => {
            *values = in_order(alloc, values.as_slice(), places.as_slice())?;
            Ok(())
        }
        None => Ok(()),
    }
}

/// The choice applies, or a side of its condition stops; or the next choice comes.
#[inline(always)]
pub fn settle<'m>(
    alloc: Global,
    context: &'m Ctx,
    index: &'m Index,
    machine: &mut Machine<'m>,
    choices: &mut Choices<'m>,
    asked: Asked,
    choice: Choice<'m>,
    attempt: Attempt,
) -> Result<Event<'m>, AllocError>
    requires { IsIndexOf context.now index.now }
    ensures of { IfOk result (EventOf context.now) }
    ensures means { (K : Run) (k side : ℕ) (old : ChoiceOf) → IsRun K context.now.signature → K.over ≡ context.now
        → IsFound K k index.now (data_of K.over machine.old) choices.old asked old
        → choice.entry ≡ record old { values = choice.entry.values }
        → IsAttempt K.over K.rank side (asked_term (data_of K.over machine.old) asked) old choice.entry attempt
        → IfOk result (IsEvent K k side index.now (data_of K.over machine.new) choices.new) }
{
    match attempt {
        Attempt::Made(sides) => Ok(Event::Applies(asked, choice, sides)),
        Attempt::Halts(reason) => {
            let Choice { take, .. } = choice;
            Ok(Event::Halts(asked, take, reason))
        }
        Attempt::Fails => {
            let event = next_choice(alloc, context, index, machine, choices, asked)?;
            Ok(event)
        }
    }
}
