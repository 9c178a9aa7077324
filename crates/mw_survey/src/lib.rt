//! Which redexes of a pool's free elements were looked at, and why there is none left.
//!
//! A survey begins with copies of the elements that are free. It answers choices of rules at their parts, one after
//! another: first at the whole of them, then at each element. What it answered last it answers again, without a search,
//! until it is passed over. A choice may be passed over where the rule was tried with the same solution, or where not
//! all elements that it takes are free. After a claim it goes on where it stood.
//!
//! Proved (specs/Surveys, specs/Runs, specs/Asked, specs/Takings):
//!
//! - as long as no element came, each choice that was passed over needs no second look (`survey_kept`). Where the survey
//!   is used up, each solution of each rule at a part of what is free is among the tries (`survey_exhausted`,
//!   `nothing_left`);
//! - `Survey::taken`: a part with a redex of the rule with the values of the choice that waits (`IsTakenBy`). It is an
//!   element with the path in it; or the elements that the choice takes of the whole, as a term of their own. It makes
//!   a claim of mw_world (`is_claim`);
//! - where a claim is made, something was left to claim (`not_nothing`).
//!
//! Conditions: the operator joins multisets, the elements stand in order and come from a sound pool. After an error of
//! `look` nothing is said of the survey; begin anew. Neither proved nor tested: time and memory.
#![tactic(auto)]

mod laws;
mod parts;
mod survey;
mod taking;

pub use laws::{claims_keep, is_claim, not_nothing, nothing_left, survey_exhausted, survey_kept};
pub use parts::Part;
pub use survey::Survey;
pub use taking::Taken;
