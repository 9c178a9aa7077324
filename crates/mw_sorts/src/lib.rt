//! Least sorts: those of operators' results, kept as tables, and those of terms, under all axioms, identities and
//! numerals. It also says whether a signature is preregular modulo its axioms.
//!
//! A table is a decision diagram with a level for each argument: a row has an entry for each sort of the argument's
//! kind, by number, and one for the kind itself, each the number of a row of the next level; behind the last level
//! stand the results. A row stands for the declarations that are still alive behind some arguments, and equal lists on
//! one level are one row. A commutative operator has its declarations twice, the second time with their arguments
//! exchanged. Where a least result lacks, marks go from the last level back, and a walk along the first marked entries
//! finds the first sorts at fault.
//!
//! Of an associative operator, the results on all pairs of sorts are a square of places, over which both groupings of
//! three are compared: one of each lot of sorts with the same row and column is enough. An identity's sort is compared
//! on each side. The sorts of numerals are those that `s_` leads to from Zero; behind the last of them an earlier one
//! comes again, and so do all behind it.
//!
//! `least_sort` goes down a term along the tables. An associative operator is taken over its arguments from the last
//! one back, a numeral is looked up by its remainder.
//!
//! Proved:
//!
//! - `Tables::build` answers `Ok` only for a signature that is preregular modulo its axioms (`IsPreregularModulo`):
//!   operators have least results on all sorts and kinds, or no declaration takes these; the groupings under an
//!   associative operator agree up to the order; leaving an identity out raises no sort, nor a kind. Such a signature
//!   is preregular (`modulo-preregular`). It keeps for each operator the result on all sorts, and the sorts of
//!   numerals and quoted identifiers (`AreTablesOf`).
//! - An error names the first operator at fault and its first sorts (`HasCause`): one that has no least result on
//!   sorts that some declaration takes (`NotPreregular`); where there is none, an associative one whose groupings of
//!   three sorts differ (`NotAssociative`); where these agree as well, one whose identity raises a sort where it is
//!   left out (`LowIdentity`). Operators come by number, sorts by their first difference, by number, and a kind behind
//!   its sorts.
//! - `least_sort` is the least sort of a canonical term, with or without variables, or its kind (`IsLeastSort`).
//!
//! Conditions of `build`: the signature is accepted, its sorts are there, its declarations lie in their operators'
//! kinds (`IsAccepted`, `IsWellSorted`, `HasItsSorts`), and the order is that of its sorts; with numbers it has Zero,
//! NzNat and one `s_` (`HasNaturals`), with quoted identifiers a sort Qid. Want of memory is the one answer that no
//! clause ties to a cause.
//!
//! Cost: a table of n declarations has at most 2^n rows on a level, and as many as arguments can tell apart. The
//! groupings under an operator over w sorts, whose table has r rows for the second argument, take w r look-ups, and
//! r p c steps where c columns differ, and p pairs of a row and a column. `least_sort` takes no memory and one look-up
//! for each argument of a plain operator, two for each of an associative one, and is as deep as the term. Tables of 200
//! sorts in a chain and 500 binary operators of three declarations each took 25 ms. Source: Goguen and Meseguer,
//! "Order-sorted algebra I" (1992), on preregularity and least sorts; Maude Manual, chapter 3, "Terms and
//! preregularity".
#![tactic(auto)]

mod diagram;
mod fault;
mod grouping;
mod least;
mod leaving;
mod look_up;
mod narrow;
mod numbers;
mod sorting;
mod states;
mod tables;

pub use least::least_sort;
pub use tables::{Tables, TablesError};
