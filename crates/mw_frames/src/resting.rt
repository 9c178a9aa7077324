// What no equation applies to is normal.
ghost use Rattle.std.specs.Prelude.{◌≡◌, ◌<◌, ℕ, IfOk};
ghost use Rattle.mw_logic.specs.Module.{Module};
ghost use Rattle.mw_logic.specs.Judgements.{admitted_judgements};
ghost use Rattle.mw_deduction.specs.Tops.{NothingAtTops};
ghost use Rattle.mw_frames.specs.State.{Run, IsRun, Holds};
ghost use Rattle.mw_frames.specs.Machines.{data_of};
ghost use Rattle.mw_frames.specs.Steps.{FallsTo, IsAskedFor, asked_term};
ghost use Rattle.mw_frames.specs.declared.job.Job.TheVariants.{Normal as NormalOf};
ghost use Rattle.mw_frames.specs.declared.job.Hand.TheVariants.{One as OneOf};

use crate::job::{Hand, Job};
use crate::looking::Asked;
use crate::machine::Machine;
use mw_canon::Facts;
use mw_stack::close;
use std::alloc::{AllocError, Global};

/// Nothing applies to what was asked for: it is normal.
#[inline(always)]
pub fn rest<'m>(
    alloc: Global,
    facts: &Facts,
    machine: &mut Machine<'m>,
    asked: Asked,
) -> Result<Hand<'m>, AllocError>
    ensures means { (K : Run) (k : ℕ) → IsRun K facts.now → IsAskedFor K k (data_of K.over machine.old) asked
        → NothingAtTops K.over (admitted_judgements K.over K.rank).Fails (asked_term (data_of K.over machine.old) asked) → IfOk result (Holds K k (data_of K.over machine.new)) }
    ensures falls { (M : Module) (w : ℕ) → FallsTo M w machine.old (OneOf (NormalOf (asked_term (data_of M machine.old) asked))) → IfOk result (FallsTo M w machine.new) }
{
    match asked {
        Asked::Term(term) => Ok(Hand::One(Job::Normal(term))),
        Asked::Own(top) => {
            let term = close(alloc, facts, top.op, &mut machine.done, top.from)?;
            Ok(Hand::One(Job::Normal(term)))
        }
    }
}
