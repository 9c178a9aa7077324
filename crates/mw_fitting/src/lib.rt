//! Moves whose proof may be made wherever its term stands under an operator, as numbers alone tell: definitions and
//! the law, over mw_multiset. It has no code.
//!
//! It is for a part of a multiset that is rewritten apart, and comes back beside the other elements. Two things are
//! asked of such a proof (`AllUnder` of mw_multiset). The whole before each replacement isn't the operator's
//! identity. No element of the whole after it is deeper than 999 levels.
//!
//! `Fits` (specs/Fits) tells this in one pass over the moves, and no term is made for it. Only moves outside the
//! sides of conditions count:
//!
//! - Where a statement is applied, three numbers are together at most 999: how many operators are open, the depth
//!   of the statement's right side, and the height of its highest value. Where a row is met, the height of its
//!   result stands in place of the last two.
//! - Where no operator is open and a statement is applied, its left side is the operator's identity for no values.
//!   Where a row is met there, the operator has no identity.
//!
//! Proved ([`fits_under`]): moves that may be made and fit, from a term of at most 999 levels, are such a proof. No
//! element of the term at their end is deeper than 999.
//!
//! The numbers are bounds: moves that don't fit may be such a proof too.
#![tactic(auto)]

ghost use Rattle.std.specs.Prelude.{◌≤◌, ℕ, List};
ghost use Rattle.mw_logic.specs.Term.{RawTerm};
ghost use Rattle.mw_logic.specs.Accepted.{IsAccepted};
ghost use Rattle.mw_logic.specs.NormalForm.{height};
ghost use Rattle.mw_logic.specs.Module.{Module};
ghost use Rattle.mw_deduction.specs.Replay.{Move};
ghost use Rattle.mw_multiset.specs.Together.{IsShallow, AllUnder};
ghost use Rattle.mw_multiset.specs.Receipts.{IsMade, run_of};
ghost use Rattle.mw_fitting.specs.Fits.{Fits};

/// Moves that fit, from a term of at most 999 levels, may be made wherever it stands under the operator.
pub fn fits_under()
    ensures { (M : Module) → IsAccepted M.signature → (f n : ℕ) (t u : RawTerm) (ms : List Move)
        → IsMade M n t u ms → height t ≤ 999 → Fits M f 0 0 ms
        → AllUnder M.signature f (run_of M n t ms) × IsShallow M.signature f u }
{}
