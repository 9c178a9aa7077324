//! An index of a module's statements, and the choices that they leave at a term, modulo the axioms of any accepted
//! signature. A choice is a statement with values of its left side's variables that make the left side the term, or
//! several of the term's arguments; whether the statement's condition holds isn't asked here.
//!
//! - [`Index::of`] lists the executable equations by the operator on top of their canonical left sides. Where that
//!   operator has an identity or is the successor of numbers, and where the left side is a variable, an instance may
//!   have another one on top, so the equation is asked for every term. But an operator with an identity stays where two
//!   of its arguments are numerals, quoted identifiers, or terms whose own operator stays whatever its arguments become
//!   (`TwoStay`): none of them can become the identity, so two elements are left. An equation whose left side is a
//!   numeral or a quoted identifier is asked for terms without an operator. Contracts see `asked`: what is asked for
//!   terms with an operator on top, or with none. All of it are equations of the module (`IsOf`), and for each term that
//!   an equation applies to, or applies to several arguments of, it is among what is asked (`IsIndexOf`).
//! - `Index::rules` lists the executable rules, in the order of the module, each with its [`Section`], which tells for
//!   which terms it is asked by the same rule: each rule is there, and asked for each term that it applies to, or
//!   applies to several arguments of (`AreRulesOf`).
//! - An [`Oriented`] statement has its canonical sides as patterns, the right one with positions for all variables of the
//!   statement, of which those of the left side are the first (`IsOriented`). Its left side is compared argument by
//!   argument where the operator on top has no axiom and no other one has but the successor of numbers (`Left::Plain`),
//!   and searched for else (`Left::Searched`).
//! - Its [`Condition`] has a [`Test`] for each fragment, in their order (`IsConditionOf`, specs/Conditions), with the
//!   canonical forms of its sides. These have positions for the variables that are bound by then: those of the left
//!   side, and behind them those that the patterns of matches before the test add. A match's pattern is compiled behind
//!   these (mw_compile). In the end all variables of the statement are bound (`all_bound`), each once (proofs/Bound);
//!   `order` has their places where the statement has them in another order.
//! - [`Choices`] gives the choices that equations leave at a term, one after another. What contracts see is `Covers`,
//!   of the choices that were tried: each solution of an equation that was passed, for the term or a top part of it, is
//!   the same as one of these. It holds at the beginning of none tried. `next` answers a choice (`IsChoice`: a solution
//!   of the left side of an executable equation for a part of the term, by canonical values) and stands where that one
//!   is tried too; or None, and then each solution of each executable equation at each top part of the term was tried
//!   (`AreAllTried`).
//!   `ask` does the same for one statement alone, and says the same of it (`IsAnswer`).
//!
//! Conditions: what `next` says of choices is of canonical terms that mean ground raw terms (`IsValue`). That the
//! equation of a choice is one of the module's, for what is on top of the term (`IsOf`), and how many values it has, is
//! said of all terms. The index is one of the context's module. After an error of `next` nothing is said of where the
//! choices stand.
//!
//! Cost: `Index::of` makes two canonical forms for each equation and one for each side of its condition, and walks its
//! patterns a few times, with a look-up in a hash table for each variable. For a match it copies the names of all
//! variables that are bound by then. A plain equation costs what is compared, one count for each value and its test for
//! sorts; nothing is allocated but the list of values, for which `again` takes a list that is left from before, and the
//! number below where a successor meets one. Of a term that is given by its arguments a whole one is made when the
//! first equation is searched for, once, by one count for each argument. Searches cost what those of mw_match do, and
//! the values of a solution one count each. The native stack grows with the depth of patterns and of terms.
//!
//! Neither proved nor tested: time, memory, the order in which equations are asked (that of the module), and that an
//! answer comes with memory at hand.
#![tactic(auto)]

mod choices;
mod conditions;
mod index;
mod making;
mod normal;
mod order;
mod oriented;
mod patterns;
mod subject;

pub use choices::{Choice, Choices};
pub use conditions::{Condition, Matched, Side, Test};
pub use index::{Index, Rule, Section};
pub use oriented::{Left, Oriented, Searched};
pub use subject::Subject;
