// A row is met at the first two of several arguments.
ghost use Rattle.std.specs.Prelude.{ℕ, suc, OnOk};
ghost use Rattle.mw_logic.specs.Term.{RawTerm, RawTerms, apply as applied, cons};
ghost use Rattle.mw_logic.specs.Signature.{Signature};
ghost use Rattle.mw_logic.specs.TermOrder.{sorted_terms};
ghost use Rattle.mw_frames.specs.State.{Run, IsRun};
ghost use Rattle.mw_frames.specs.Machines.{data_of};
ghost use Rattle.mw_frames.specs.Steps.{IsAsked};
ghost use Rattle.mw_frames.specs.Pairs.{IsPairMet};

use crate::machine::Machine;
use mw_term::{Term, copy};
use std::alloc::AllocError;

/// A row is met at the first two of more arguments of the term in hand, which makes a numeral of them at which
/// nothing applies: it comes in order among the others. The term itself isn't made.
pub fn meet_pair(machine: &mut Machine<'_>, to: &Term) -> Result<(), AllocError>
    ensures { (K : Run) (k : ℕ) (sig : Signature) (f : ℕ) (x y z : RawTerm) (zs : RawTerms) → IsRun K sig
        → IsAsked K k (data_of K.over machine.old) (applied f (cons x (cons y (cons z zs)))) → IsPairMet K f x y to.now
        → OnOk result (IsAsked K (suc k) (data_of K.over machine.new)
        (applied f (sorted_terms (cons to.now (cons z zs))))) }
{
    machine.kept.among(&[1, 2])?;
    machine.kept.row(copy(to)?)?;
    machine.kept.leave()?;
    Ok(())
}
