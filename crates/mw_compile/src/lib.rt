//! Patterns as searches take them (mw_search).
//!
//! [`compile`] makes of a canonical pattern a [`Compiled`] one (`IsCompiled`, specs/Compiled):
//!
//! - Arguments of an associative and commutative operator stand in another order, at every level (`Reordered` of
//!   mw_solving): first those that become one element, whatever the variables' values are; then variables that have
//!   values by then; then variables that stand more than once among these arguments; then the others. A variable has
//!   its value by then if it is given, or stands in what the search meets before the operator, or in one of its
//!   arguments that become one element. A search meets arguments from the left, each with all that stands in it. So it
//!   takes single elements first, then what leaves no choice, then parts of which there are as many equal ones, before
//!   it cuts what is left into parts.
//! - Those that become one element stand as variables link them, so that most of them are met when their variables have
//!   values. First come those without variables. Of the others the first is one with most variables that stand in
//!   another of them or have values before. Each next one is, where there is such, one of those that share only
//!   variables which have values by then: given ones, those met before, and those of the arguments chosen so far; and
//!   of these, or of all where there is none such, one with most variables that have values by then. So of
//!   `fork(L) fork(R) hungry(L, R)` the last one is met first. Where this leaves several, the last of them is met first,
//!   whose operator was declared last: a message rather than the object that it goes to, since there are mostly fewer
//!   messages. Within the other groups arguments keep their order.
//! - Variables stand by position, in the order in which they are met, behind those that have values already.
//! - Each position lists associative operators under which any value of its sort is one element (`AreSure` of
//!   mw_solving). An operator that stands on a variable in the pattern is listed for a sort if none of its declarations
//!   has a result at or below the sort, and its identity, if it has one, doesn't have the sort. There are no lists
//!   where no associative operator stands on a variable, and never more lists than variables. So the position behind
//!   the variables', which `position` gives as a term, may have any value.
//!
//! Proved: `IsCompiled`. By `inside_candidates` of mw_solving, under its conditions, the matches of searches with such
//! a pattern, less those that lack a sort, are then all solutions of the pattern that was compiled, each once. Neither
//! proved nor tested here: which order arguments stand in, and that no list is shorter than is said above. With other
//! answers a search finds the same solutions, and cuts more on its way.
//!
//! Conditions: the variables that have values differ. The only error is want of memory; more variables than positions
//! can be numbered by 32 bits count as that.
//!
//! Cost: a few walks over the pattern, with a few look-ups of a variable in hash tables for each place where it stands,
//! some more for each associative and commutative operator around it, and for each position, each argument of such an
//! operator and each operator on a variable a look at the operator's declarations and at its identity's sort. Where
//! such an argument stands on an operator with an identity, its own arguments are looked at in the same way. Whenever
//! one of an operator's arguments that become one element and have variables is chosen, all of them that are left are
//! looked at: a few look-ups for each of their variables. A part is shared if no variable stands under an associative
//! and commutative operator in it; it is looked at once for each part around it that isn't shared. Neither proved nor
//! tested: time and memory.
#![tactic(auto)]

mod compiled;
mod groups;
mod meeting;
mod placing;
mod reordering;
mod sharing;
mod singles;
mod variables;

pub use compiled::{Compiled, compile};
pub use placing::position;
