//! Terms that are kept once each, by number.
//!
//! A [`Table`] is seen as the list of its terms. No two of them are equal (`IsOnce`, specs/Numbers), and the arguments
//! of each stand before it, so a term is known by its operator and the numbers of its arguments (specs/Tables).
//!
//! - `make` tells the number of an operator on terms by their numbers: the old one, or the next (`Numbers`). It
//!   compares no terms. `make_behind` is the same for arguments that stand at the end of a list, which it takes.
//! - `node_of` tells that of a term that comes from elsewhere, by a walk; a term that is there changes nothing.
//! - `term` is the term of a number, `arguments` are the numbers of its arguments, which are lesser ones.
//! - `carry` brings all terms of another table, and tells their numbers here.
//!
//! A [`Store`] numbers terms over a table, in the order in which they are first mentioned: `intern` gives equal terms
//! equal numbers, and others different ones; `get` is the term.
//!
//! How a term is found: its key is the operator with the numbers of its arguments, or the term itself where it has
//! none. This is hashed, and the slots are searched from the hash's place on (open addressing). That each term is
//! reached from its place is kept (`IsReached`, specs/Slots); of hashes nothing is needed but that equal keys have
//! equal ones (specs/Hashes). Slots are at least twice as many as terms.
//!
//! Conditions: numbers are those of terms that are there. Want of memory is the only error, also where there would be
//! 2^32 terms or arguments; after it a table has the terms that it had, but where a walk or another table has brought
//! some already: these stay. A store has those that it had.
//!
//! Cost: `make` takes a time that goes with how many arguments there are, on the average, `node_of` with how many
//! operators and leaves the term has (one that shares its parts is walked again and again), `carry` with how many terms
//! and arguments the other table has. A term takes 32 bytes beside its own node, 8 to 16 of slots, and four for each
//! argument where these are more than two; in a store 8 more. When a table goes, the last term goes first, so that
//! nothing recurs.
//!
//! Neither proved nor tested here: time, and that calls answer with memory at hand.
#![tactic(auto)]

mod hash;
mod nodes;
mod slots;
mod store;
mod table;

pub use store::Store;
pub use table::Table;

/// The number of a term in a [`Table`].
pub type Node = u32;

/// The number of a term in a [`Store`].
pub type Id = u32;
