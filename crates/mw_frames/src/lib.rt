//! The machine of reduction with equations, modulo the axioms of any accepted signature.
//!
//! A [`Machine`] holds the frames that are under way, the innermost last: operators with something in the hole. The
//! terms that are done in all frames stand in one list (mw_stack), the jobs that wait in another, and what was done so
//! far in a trail of mw_trail. A [`Frame`] says from where on both lists are its own. A [`Job`] is a term with what is
//! known of it, or a part of a right side, which isn't built before it has to be. A [`Hand`] is what is looked at: a
//! job, or a frame none of whose arguments is in hand.
//!
//! What contracts see is a run: a module, a rank, and where the trail leads by the moves of mw_deduction (`Holds`,
//! specs/State): to a stand with these frames open and this term in hand, by so many replacements, as many of them by
//! rules as the run says; what is done is normal, and what waits is known to be what its job says.
//!
//! - `step` opens a term, or puts one that is done to its operator's arguments, or takes the next that waits; or the
//!   whole is normal (`IsEnd`); or a term over normal arguments asks for statements (`IsAskedFor`); or the condition of
//!   an `if_then_else_fi` is a truth value, and its branches are as they were (`IsDecided`): the condition comes first,
//!   and the branches where it is stuck. Where it goes on, less is left (`FallsBelow`), so steps end.
//! - `fire` applies a statement, with values that make its left side what was asked for or several of its arguments
//!   (`IsPartTaken`), and what shows its condition, one trail for each side, which begins at that side (`AreShowing`,
//!   specs/Redex): one replacement more is made, and its right side is in hand (`IsFired`). A rule asks that no argument
//!   on the way is frozen (`IsOpenTo`), which `enter` tells on its way.
//! - `enter` goes into an argument of a normal term in hand, whose other arguments are done, or wait (`IsEntered`,
//!   specs/Entered): so a rule is applied inside a term, and the reduction goes on there.
//! - `meet` makes a replacement by a row of the schemata at what was asked for, or at several of its arguments, to a
//!   term (`IsRowOf`, specs/Redex); `decide` one at a choice that is decided: the branch comes as it waits, the other
//!   one is dropped.
//! - `meet_pair` makes one at the first two of more arguments of a term in hand, where it makes a numeral of them at
//!   which nothing applies (`IsPairMet`, specs/Pairs): this comes in order among the others, and the term isn't made.
//! - `fire`, `meet` and `decide` answer `TooDeep` where the whole would have more than 1,000 levels, and else
//!   `TooLarge` where `s_` would stand on the largest numeral, in what comes, right above it, or further out, where the
//!   operators between are one numeral again (`grows`, specs/Larger). Then nothing is replaced or shown, and the whole
//!   is answered as it stands.
//! - `rest` goes on where nothing applies to what was asked for, which then is normal.
//! - `stop` puts the whole together (`IsWhole`); `halt` does round what was asked for, or several of its arguments, and
//!   tells that these are a part of it.
//! - `instance` is the canonical instance of a pattern by values (`evaluated` of mw_matching), where that is neither
//!   too deep nor, of values in which no number is, too large; `Deep` and `Nat` come only where it is.
//!
//! Conditions (`IsRun`): the module is well-formed, its signature accepted and well sorted. Want of memory is the only
//! error of a machine, and nothing is said of it after that.
//!
//! Cost: where `fire`, `meet` or `halt` comes to several arguments of a term, the arguments of a node that no other
//! term shares are moved, those of others copied, by one count each. What comes of them is looked for first where they
//! were taken out, which is told once. Where a long list of elements ends those of an associative operator that keeps
//! the order, or begins them before one argument that is known to be normal, `step` makes the whole at once: the others
//! come in front by one move, or behind it, and the list isn't walked.
//!
//! Neither proved nor tested: time and memory, in which order arguments are reduced, and that calls answer with memory
//! at hand.
#![tactic(auto)]

mod applying;
mod choosing;
mod coming;
mod entering;
mod firing;
mod instances;
mod job;
mod limits;
mod looking;
mod machine;
mod meeting;
mod opening;
mod pairing;
mod passing;
mod resting;
mod stepping;
mod waiting;
mod whole;

pub use applying::{Applied, Fired, fire};
pub use choosing::decide;
pub use entering::enter;
pub use instances::instance;
pub use job::{Frame, Hand, Job};
pub use looking::{Asked, Step};
pub use machine::Machine;
pub use meeting::{halt, meet};
pub use pairing::meet_pair;
pub use resting::rest;
pub use stepping::step;
pub use whole::stop;
