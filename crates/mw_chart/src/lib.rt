//! A chart parser: it reads mixfix texts by the states of a grammar's table, exactly. It stands on nothing.
//!
//! A [`Table`] has what comes next at each state (a token, a hole that takes texts of a kind and of a precedence below
//! a number, or nothing, where the text is whole), its productions (the state where an operator's texts begin), and for
//! each kind the state of a text in parentheses. A text is a list of [`Terminal`]s: a token's number, and the leaves
//! that it is by itself.
//!
//! The definition is one family (specs/Spelling, `IsItem`): from a place to a place stand the tokens of a text begun,
//! which has come to a state with a tree. Trees are curried, so that an item has a tree at each moment. Proved over it,
//! for a text of at most 1,024 tokens:
//!
//! - `parse` answers the one tree of a wanted kind (one, or any up to a number) that the text spells; `parse_pair` the
//!   one pair of trees of one kind that two texts spell; `readings` what a text spells: each tree with its kind, or two
//!   different ones of the kind.
//! - `NoParse` comes only where none is spelled, `Ambiguous` only with two different ones that are, `TooLong` only
//!   above 1,024 tokens. So each comes exactly there, but for want of memory, which may come at any call. No reading is
//!   preferred to another, and derivations that give one tree are one reading.
//!
//! Condition: no text of the table begins whole, none is a hole alone, and its left corners are those of its
//! productions (`IsTable`). `Table::new` finds them, in time linear in the productions and in the largest number of a
//! token or kind that comes first.
//!
//! How it works: it is a chart parser of the family of J. Earley, "An efficient context-free parsing algorithm" (1970).
//! Places are gone through from the last to the first. For each place there are cells, one for each end to come; a cell
//! has for each state at most two items, of different trees, which is enough. A place's token is scanned by the
//! productions that it is the left corner of; at each end what is whole becomes a constituent of the place's row, and
//! predicts the productions that its kind is the left corner of; then each item goes one step on: it scans a token, or
//! is completed over a hole by the constituents of the row of that end. So a text costs nothing for operators whose
//! texts begin otherwise. Sets of ends as words of 64 bits say where two trees stand already, so a place, an end and a
//! state are visited a few times and not once for each way; only where there are two does a place take room for states
//! that its texts do not reach. Trees share their parts, and have a number by which most are told apart. Each function
//! adds exactly what is fresh (`Adds`), so loops compose; a row is sound and complete (`IsRow`).
//!
//! Only tested, by the sources in cases/: that `IsItem` is the reading that is meant. Cost: for each place of a text a
//! cell for each end behind it, so the square of its tokens at least, 1,024 at most; docs/PERFORMANCE.md has figures.
#![tactic(auto)]

mod bits;
mod cell;
mod chart;
mod completing;
mod corners;
mod fault;
mod item;
mod node;
mod numbered;
mod parsing;
mod predicting;
mod reading;
mod row;
mod scanning;
mod table;
mod terminal;
mod tree;

pub use fault::{LIMIT, TreePair, Unread};
pub use node::{Node, TreeTop};
pub use parsing::{parse, parse_pair};
pub use reading::{Reading, readings};
pub use table::{LeftCorners, Next, Production, Table};
pub use terminal::{Leaf, Terminal};
pub use tree::Tree;
