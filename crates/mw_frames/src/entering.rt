// Into the arguments of normal terms.
ghost use Rattle.std.specs.Prelude.{◌≡◌, ℕ, None, IfOk, MatchOption, ⊤};
ghost use Rattle.mw_logic.specs.Terms.{args_of, list_of};
ghost use Rattle.mw_logic.specs.Signature.{at_number};
ghost use Rattle.mw_frames.specs.State.{Run, IsRun, InHand};
ghost use Rattle.mw_frames.specs.Machines.{data_of};
ghost use Rattle.mw_frames.specs.Entered.{IsEntered};
ghost use Rattle.mw_frames.specs.declared.job.Job.TheVariants.{Normal as NormalOf};

use crate::firing::{is_comm, leave_out};
use crate::machine::Machine;
use crate::opening::new_frame;
use crate::passing::{go_in, stands_beside};
use mw_canon::Facts;
use mw_stack::place_of;
use mw_term::{Term, View, copy, numbered};
use std::alloc::{AllocError, Global};

/// Into the argument of this number, from 1, of the term in hand, which is normal: that is in hand then, and the others
/// are done, or wait. None where there is no such argument.
pub fn enter(
    alloc: Global,
    facts: &Facts,
    machine: &mut Machine<'_>,
    term: &Term,
    number: u32,
) -> Result<Option<Term>, AllocError>
    ensures none { (K : Run) (k : ℕ) → IsRun K facts.now → InHand K k (data_of K.over machine.old) (NormalOf term.now)
        → IfOk result (λ o. MatchOption o (at_number (list_of (args_of term.now)) number ≡ None) (λ u. ⊤)) }
    ensures means { (K : Run) (k : ℕ) → IsRun K facts.now → InHand K k (data_of K.over machine.old) (NormalOf term.now)
        → IfOk result (λ o. MatchOption o ⊤ (IsEntered K k (data_of K.over machine.old) (data_of K.over machine.new) term.now number)) }
{
    let View::Op(operator, args) = term.view() else {
        return Ok(None);
    };
    let Some(argument) = numbered(args, number) else {
        return Ok(None);
    };
    let frame = new_frame(facts, machine, operator)?;
    let comm = is_comm(facts, operator);
    let all = copy(term)?.into_args(alloc)?;
    leave_out(alloc, comm, machine, all, &[number])?;
    if !stands_beside(facts, machine, frame) {
        return Ok(None);
    }
    let before = place_of(
        facts,
        operator,
        machine.done.as_slice(),
        frame.from,
        argument,
    );
    go_in(machine, frame, before)?;
    let argument = copy(argument)?;
    Ok(Some(argument))
}
