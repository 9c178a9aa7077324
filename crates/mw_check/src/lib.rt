//! Checks proof texts: item by item, whether each replaces in the term before it what its line says.
//!
//! The entries of a text (mw_items) are gone through once, from its first term on. Of a step the statement is looked
//! up, its values are asked for the sorts of the variables, and the canonical instance of its left side is compared with
//! what stands at the place (`part_at`); for a rule no argument on the way may be frozen. Then the groups of its
//! condition are gone through, each from the canonical instance of its side on, in the rank below, and their ends meet
//! the fragments. Of a computed step the row is asked for (`step` of mw_builtin); a test of two terms that differ wants
//! both normal. The next term is made by `replace` of mw_redex. With the engine it shares canonical forms, matching by
//! given values, sorts, rows, and the test whether a term is normal; it searches for nothing.
//!
//! Proved:
//!
//! - `check`: `Verdict::Yes` only where the items are a deduction from the text's one term to the other
//!   (`IsDeductionOf`, specs/Whole): they are checked in rank 63 (`Checks` of mw_verdict), a proof of them leads from the
//!   first term to the last, carries their run out, and counts what the verdict says (`HasProof`). `Verdict::No` with
//!   the number of an item where those before it are checked and it is at fault for this cause, the first one in the
//!   order of the tests; or one more than the last where they lead to another term (`IsNo`). mw_verdict has the laws
//!   by which these exclude one another.
//! - Each private function says the meaning of its answers by one definition: `IsPlaced` of a statement at a place,
//!   `IsComputation` of rows, `IsAnswer` of an item (specs/Answers), `IsChain` and `IsCondition` of groups
//!   (specs/Groups).
//!
//! Conditions: the terms of the text are canonical and admitted, as those that mw_proofread reads; the limit is a step
//! at least; the index is the module's. Of a text whose entries aren't those of items, or have another number of values
//! or groups than their statement, or more than 63 conditions inside one another, want of memory is answered.
//!
//! An associative test of three terms or more is checked by all ways to share them out between two (specs/RowSides):
//! it gives what equal terms do where two shares can be equal, and else one share is such a test again.
//!
//! Native stack: a few functions call each other once for each condition inside another, so at most 63 times.
//!
//! Cost: each entry is looked at once. A replacement costs the instances of both sides, one comparison of the part, and
//! the way down to it twice. Neither proved nor tested: time (docs/PERFORMANCE.md has measures).
#![tactic(auto)]

mod answer;
mod chains;
mod checking;
mod items;
mod meeting;
mod normal;
mod parts;
mod placing;
mod replacing;
mod rows;

pub use answer::Cause;
pub use checking::{Verdict, check};
