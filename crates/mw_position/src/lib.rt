//! Variables by their positions, as definitions and laws over mw_logic. It has no code.
//!
//! - **Variables** (specs/Variables): `met` are those of a term in the order in which they are first met; `place` is how
//!   many stand before one of them, and `placed` puts such numbers in place of names.
//! - **Positions** (specs/Positions): `fill` puts values at positions. Positions may be numbered in the order in which
//!   they are met (`IsNumbered`); then the values of a match are found from the left, each behind the others, and so
//!   lists of values only grow (`Begins`).
//!
//! The laws say that the values of a substitution's variables, in order, stand at their places (proofs/Placing).
#![tactic(auto)]
