//! One proof of many: proofs of parts of a multiset, one after another, as one proof of the whole.
//!
//! It is for proofs that were made apart, each of some elements of a multiset, and are given back one after another.
//! A [`Gathered`] is seen as a gathering (specs/Gatherings): a module, the operator of the multiset, the term at the
//! beginning, the elements as they are now, in order, and the run of what was carried out since then. Its type keeps
//! the trail of all of it, in rank 63, from the term at the beginning to the operator on the elements.
//!
//! - `Gathered::of` begins at a term: its elements, and nothing carried out.
//! - `add` carries out a proof of some of the elements beside the others. Its part's elements are taken out of the
//!   list, and those of its result come in. What is carried out is its run, in the operator beside the rest (`Adds`).
//! - `close` makes it a kept deduction of mw_proof, from the term at the beginning to the operator on the elements.
//!
//! Conditions of `add` (`MayAdd`): the proof is over the same module, and its part has elements, which are among the
//! gathering's. Each of its replacements may be made beside others: the whole before it isn't the operator's identity,
//! and no element of the whole after it is deeper than 999 levels. No element of the term at its end is deeper either.
//!
//! How it works: a proof's trail comes behind the trail so far, between one move into its elements, by their numbers,
//! and one move out of them; where it takes all elements, neither is made. No term of the whole is made between the
//! beginning and the end.
//!
//! Cost: `add` takes as long as the proof's trail, by logarithm of the number of elements for each element that it
//! takes or brings, and the moves of those behind them in the list. `close` takes one walk over the trail and one
//! over the elements. Want of memory is the only error.
#![tactic(auto)]

mod gathering;

pub use gathering::Gathered;
