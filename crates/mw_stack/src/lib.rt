//! Arguments that are done, on one stack.
//!
//! A walk through a term keeps the arguments that are done of all operators that it is in, in one list of terms. An
//! operator's own stand in it from a place on, in order where the operator is commutative, and flattened where it is
//! associative. `put` and `put_near` bring a term that is done to them, `close` makes a term of them and takes them
//! out, `close_before` does both. `place_of` tells where a term that waits stands among them, `hides` and `added` what
//! its operator makes of it.
//!
//! Proved (specs/Own, specs/Places, specs/Hidden), for every accepted signature:
//!
//! - `close` takes an operator's own arguments out, and where they are canonical and in order, and elements of it where
//!   it is associative, it answers the operator on them with its axioms (`applied_in` of mw_logic).
//! - `put` leaves what stands below as it is, and puts what the term is under the operator (`spread`) behind the
//!   operator's own arguments, or, where it is commutative, in order among them.
//! - `put_near` does what `put` does, wherever the place is that it is told to look at first.
//! - `close_before` does what `put` and then `close` do.
//! - `place_of` counts the operator's own arguments that stand before a term: those that don't come behind it where the
//!   operator is commutative, else all (`IsPlace`). So the canonical list of arguments is cut there (`place_cuts`).
//! - `hides` tells exactly whether the term is hidden under the operator (`IsHidden`), and `added` how many levels the
//!   operator adds to it.
//!
//! Conditions: none. `put`, `put_near`, `close_before` and `place_of` say nothing of arguments that aren't in order,
//! the first three nothing of an operator whose own begin beyond the end of the list.
//!
//! Cost: `close` takes a list for three arguments or more, and compares none. `put` compares a term with the last
//! argument, and with log n others if it doesn't come behind that; then it moves those that come behind. Several
//! elements take one comparison where they all come behind. Else each takes log n where they are few. More than that
//! and the arguments are two runs, of which one is made: a stretch of one of them between two terms of the other takes
//! comparisons by the logarithm of its length, and each argument is moved. `put_near` takes two comparisons for a term
//! that fits where it was told to look, else those and what `put` takes. `close_before` takes what `put` and `close`
//! take; but where the operator is associative and keeps the order, and the last term is a long list of its elements
//! that nobody else holds, the others come in front by one move, and no element is looked at. Want of memory is the
//! only error.
#![tactic(auto)]

mod closing;
mod merging;
mod nearby;
mod places;
mod putting;
mod seeing;

pub use closing::{close, close_before};
pub use nearby::put_near;
pub use places::place_of;
pub use putting::put;
pub use seeing::{added, hides};
