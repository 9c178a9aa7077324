//! Patterns whose variables stand by position.
//!
//! [`Places`] holds variables in order, each once, with a table from names and sorts to positions; contracts see the
//! list. `meet` and `meet_all` put variables behind the others in the order of first mention (`met` of mw_position);
//! where memory is wanting, `meet` leaves the places as they were, and `meet_all` puts some of the variables behind
//! them. A [`Pattern`] is any term with positions for variables; its numerals and quoted identifiers stand for
//! themselves (`clean`). `depth_at` is the depth that its instance by values in order would have (2^16 - 1 where that
//! is more), with no instance made.
//!
//! Conditions: the variables of `Places::new` differ; those that `at` and `variable` are asked for are there.
//!
//! Neither proved nor tested: time.
#![tactic(auto)]

mod pattern;
mod places;

pub use pattern::{Pattern, Patterns, depth_at};
pub use places::{Places, meet_all};
