// Where a choice of a rule stands, and what its values are named.
ghost use Rattle.std.specs.Prelude.{◌≡◌, ◌<◌, Some, true, length, slice_get, IfOk};
ghost use Rattle.std.specs.List.{zip};
ghost use Rattle.mw_logic.specs.Term.{RawTerm};
ghost use Rattle.mw_logic.specs.Signature.{Signature};
ghost use Rattle.mw_logic.specs.Module.{Statement, IsStatement};
ghost use Rattle.mw_redex.specs.Replaced.{IsOpenWay};
ghost use Rattle.mw_redex.specs.Paths.{at_path};
ghost use Rattle.mw_redexes.specs.Spots.{AreWays};
ghost use Rattle.mw_redexes.specs.declared.spots.Spot.{Spot as SpotOf};

use crate::spots::Spot;
use mw_least::Ctx;
use mw_match::bound;
use mw_term::{Seq, Subst, Term};
use std::alloc::{AllocError, Global};

/// The way from the whole to the part of this number.
pub fn way_to(alloc: Global, spots: &[Spot<'_>], at: usize) -> Result<Seq<u32>, AllocError>
    requires ways { (sig : Signature) × (root : RawTerm) × AreWays sig root spots.now }
    requires there { at < length spots.now }
    ensures { (sig : Signature) (root : RawTerm) (s : SpotOf) → AreWays sig root spots.now → slice_get spots.now at ≡ Some s
        → IfOk result (λ path. (at_path root path ≡ Some s.term.now) × IsOpenWay sig true path root) }
{
    let mut path = Vec::new(alloc);
    let mut place = at;
    while place > 0 {
        let spot = &spots[place];
        path.push(spot.number)?;
        place = spot.parent;
    }
    path.reverse();
    Ok(Seq::of(path))
}

/// The substitution of the values of a rule's left side's variables, in the order in which these are met.
pub fn substitution(
    alloc: Global,
    context: &Ctx,
    number: usize,
    values: &[Term],
) -> Result<Subst, AllocError>
    requires { (e : Statement) × IsStatement context.now number e }
    ensures { (e : Statement) → IsStatement context.now number e → IfOk result (λ s. s ≡ zip e.variables values.now) }
{
    let statement = &context.statements()[number - 1];
    let subst = bound(alloc, statement.variables.as_slice(), values)?;
    Ok(subst)
}
