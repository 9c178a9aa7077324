//! The operators that compute: arithmetic and comparisons of numbers, `==`, `=/=` and `if_then_else_fi`.
//!
//! [`Schemata`] tells of each operator of a signature, by its number, what it computes, and has the constants that are
//! truth values. It is made once for a module; at a step no spelling is read. An operator on numbers is known by its
//! spelling and by the kinds of its arguments and its value, so one with the same spelling on other kinds computes
//! nothing; the tests of equality and the choice, which each kind has, are marked in the signature.
//!
//! `Schemata::step` answers what rows do at the top of a canonical term ([`Met`]): nothing, a term in place of the whole
//! or of some arguments of an associative operator, or that a sum or product there is 2^128 or more. Users may give these
//! operators any axioms that a signature accepts, and all are met:
//!
//! - Of numbers two neighbours are sought that give something; under a commutative operator they are read in either
//!   order. There the arguments are in order, numerals first, and where no two neighbours give anything no two numerals
//!   do (proofs/Neighbours): what lies between two numbers that give something gives something with one of them.
//!   Nothing is divided by 0, and a comparison gives nothing where the signature has no such truth value.
//! - The tests look at the first two arguments. They are canonical, so equal modulo the axioms exactly where they are
//!   one term.
//! - The choice asks for `true` or `false` as its first argument.
//!
//! Proved (specs/Schemata, specs/Steps), for every accepted signature:
//!
//! - `Schemata::of` finds the only schema of each operator, or that it has none, and a constant for each truth value,
//!   or that there is none (`AreSchemataOf`).
//! - `is_choice`, `truth` and `sum` are true of exactly the operators and terms that their names say.
//! - `step` answers as `IsStepOf` says: `Nothing` where no clean form of a top part of the term meets a row or is a sum
//!   or product that is too big (`HasNoRow`); `Gives` a canonical ground term to which a row leads from a clean form of
//!   what is taken; `TooBig` where a clean form of what is taken is such a sum or product. A row by which two terms are
//!   told apart wants both normal: they are the first two arguments (`IsSide`), so it is met where these are normal,
//!   and every other row where arguments aren't normal too.
//! - No row is met at the top of a term without an operator there (proofs/NoRows, `leaf_has_no_row`).
//!
//! Conditions: the order is that of the signature's sorts, and its operators' sorts are there. `step` is asked of a
//! canonical ground term in a signature whose built-in operators are tests and choices with the truth values
//! (`HasBuiltIns`).
//!
//! Cost: `Schemata::of` goes over the sorts twice and over the operators once. `step` takes one look-up, and at a test
//! one comparison of terms; of numbers it goes over the arguments once, under a commutative operator over numerals
//! alone, and of sums and products there over two arguments. Want of memory is the only error. Neither proved nor
//! tested: time.
#![tactic(auto)]

mod number;
mod pairs;
mod rows;
mod schema;
mod spelling;
mod step;
mod table;

pub use step::Met;
pub use table::{Schemata, Sum};
