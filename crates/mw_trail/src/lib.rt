//! A proof under way, as a flat list that grows and goes back.
//!
//! A [`Trail`] is seen as its items, and the terms and numbers that these take in turn. They mean moves (`moves`,
//! specs/Tracks), as mw_deduction replays them on flattened terms: into an argument and out of it, into a side of a
//! condition, with values that are at hand there, and out of it, a statement with the values of its variables, a row of the built-in schemata. Its type
//! keeps that it has as many terms and numbers as the items take.
//!
//! - `enter`, `among`, `begin`, `end`, `apply` and `row` put one move behind the others, `followed_by` all moves of
//!   another trail. `copied` is the same trail once more.
//! - `leave` goes out of an argument; where nothing was done there, it takes back that it went in (`Leaves`).
//! - `mark` tells how many moves there are, and `back` goes back to the first ones. A trail that only grew since the
//!   mark is then what it was (`IsMark`). Each call that grows it tells that marks stay, and `leave` that those
//!   before its last item do.
//!
//! Conditions: none. Want of memory is the only error, also at a number of an argument, of a statement or of numbers
//! that is 2^32 or more, and at 2^16 values or more; after it a trail is as before. `back` takes no memory. An item
//! takes eight bytes, and `back` as many steps as items are dropped.
//!
//! Neither proved nor tested here: time, and that calls answer with memory at hand.
#![tactic(auto)]

mod trail;

pub use trail::{Item, Trail};
