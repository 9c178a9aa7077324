//! Reduction with equations, modulo the axioms of any accepted signature, and the deduction that it keeps.
//!
//! `reduce` answers a `Proved` of mw_proof and an [`Outcome`]. Proved, over `IsReductionOf` (specs/Reductions):
//!
//! - the `Proved` is a deduction over the context's module, from the given term, by no rule, and proves what it
//!   says at the rank that is the budget's `nest`;
//! - `Done`: it took fewer steps than the limit, and ends at a term that is normal modulo the axioms, also where
//!   conditions are evaluated through admitted terms alone (`IsNormalWhere`), as who applies a rule to it wants it;
//! - `Stopped`: it stops there for the reason that is answered: it took as many steps as the limit; or fewer, and a
//!   next step by an equation or a row leads to a term that is deeper than 1,000, or that is not and has `s_` on the
//!   largest numeral; or a part of it is a sum or product of 2^128 or more; or a side of the condition of an equation
//!   that has a solution at a part of it stops, for whatever reason, or that condition would be one too many inside one
//!   another.
//!
//! A step is an equation that is applied, or a row of the schemata of numbers, `==`, `=/=` and `if_then_else_fi` that
//! is met (mw_builtin); each counts one. An equation is applied where its condition holds: its fragments are tested one
//! after another (`evaluate`, specs/Evaluations). Each side of one is reduced in a run of its own (`run_side`) from its
//! canonical instance, one rank below, with its own limit on steps, and what shows it is kept between brackets in the
//! proof: so this begins, side by side, at the sides of the condition (`IsSplit`). The solutions of a match wait, with
//! the sides that were shown by then, and each is tried until the rest holds: what is known then is that the condition
//! fails where all that is left fails (`IsFrontier` of mw_deduction). Where it fails nothing is kept of it, and the
//! next choice comes.
//!
//! Rows at two of many numerals of a sum or product are met one after the other, without the terms between, so a long
//! sum takes the time of its length and not of its square (`join_pairs`); each counts one, the least two first.
//!
//! A turn is a step of mw_frames, and where that asks for statements, the row that is met there, else the next choice
//! of mw_index; where there is neither the term rests, for it is normal. `find` turns until something applies or stops,
//! and `run_on` makes that step, as often as the limit says (`IsDriven`, specs/Driven). `run_on`, `find`, `try_choice`,
//! `evaluate`, `try_test` and `run_side` call one another in a circle, once for each condition inside another one, so
//! at most 63 times; the native stack doesn't grow with terms there.
//!
//! - `conditions` asks of a statement's condition alone, for values of its left side's variables: it holds, by
//!   deductions of its sides, each from its canonical instance; it fails; or it isn't told, for the reason that is
//!   answered (specs/Judgements).
//! - `is_normal` asks of a term alone: yes; no, since the condition of an equation holds at a part of it, or a row is
//!   met there; or it isn't told, as a reduction would stop there before its first step.
//!
//! Conditions: the index is one of the context's module, the term is canonical and admitted, `nest` is at most 63. Want
//! of memory is the only error. No clause says which of several equations, solutions and rows that apply is taken, nor
//! in which order parts are reduced; the code goes from inside out and from the left, but reduces the condition of a
//! choice before its branches, and of these only the one that is taken.
//!
//! Cost: a side is walked whole, the values in it too, as these are known to be normal one rank above alone. An
//! equation without a condition is applied without any of this.
//!
//! Neither proved nor tested: time and memory, and that an answer comes with memory at hand.
#![tactic(auto)]

mod attempts;
mod drive;
mod evaluation;
mod judging;
mod pairs;
mod reducing;
mod running;
mod sides;
mod turning;

pub use attempts::Attempt;
pub use drive::{Driven, End, Outcome, applied};
pub use judging::{Normality, Tried, conditions, is_normal};
pub use reducing::{Budget, reduce};
pub use running::{run_on, try_choice};
