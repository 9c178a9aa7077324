//! The parts of a term that rules may change, and the choices of rules at them, one after another.
//!
//! The parts are listed breadth first (`spots_of`): the term itself, then the arguments of each part in turn, but for
//! frozen ones and those in which no operator is that a rule has on top (`wanted_by`). Rules are asked in the order of
//! the module, each at each part in turn (`Redexes`), and its solutions there one after another.
//!
//! Proved:
//!
//! - `spots_of`: each part that rules may change and that has a wanted operator on top is listed, and no other term is
//!   (`AreAllSpots`, specs/Spots);
//! - `Redexes::next`: a choice is one of a rule at a listed part, which takes several arguments only where rules may
//!   change them; there is none only where each solution of each rule at each part was answered (`AreAllAsked`,
//!   specs/Redexes). No clause says what comes after want of memory;
//! - `way_to`: the path from the term to a part; no argument on it is frozen.
//!
//! Conditions: the rules are an index's, and the parts are values, as those of a canonical term are
//! (proofs/Standing). Cost: a part is listed once; the choices of a rule at a part cost what their matching costs.
#![tactic(auto)]

mod places;
mod redexes;
mod spots;

pub use places::{substitution, way_to};
pub use redexes::{Found, Redexes};
pub use spots::{Spot, Wanted, arguments, spots_of, wanted_by};
