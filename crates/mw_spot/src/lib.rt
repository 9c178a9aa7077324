//! Where the replacements of a kept proof stand.
//!
//! A kept proof is a list of moves (mw_deduction): into an argument, into several, out again, and replacements of the
//! term in hand. A `Walk` makes these moves on a term, and `spot` tells the place of the term in hand in the whole
//! canonical term at that moment, as mw_redex has places: the numbers of the arguments on the way, and maybe those of
//! several arguments of the associative operator at its end.
//!
//! A walk keeps the operators that it went into, each with its other arguments. From the innermost on, a place in what
//! stands in an operator's hole becomes one in the operator's term. Under an operator without axioms the argument has
//! the number that it was entered by. Under a commutative one it has the number at which it comes in order among the
//! others, of equal ones the least. Where an associative operator stands on top of what is in its hole, too, the
//! arguments of the inner one come one by one among those of the outer one, and so does what was taken of them: each
//! has so many more before it as the order of terms puts there, whatever the others are. So the levels of one
//! associative operator, one in the other, are passed at once, and only for what the place names.
//!
//! Proved (specs/Walks, specs/Spots), for every accepted signature:
//!
//! - A walk that stands where a kept proof stands (`IsAt`: the same operators round the same term) stands where the
//!   proof does after each move: `enter`, `among` and `leave` are `into_argument`, `into_several` and `going_out` of
//!   mw_deduction, `new` begins, and `put` puts another term in hand.
//! - `spot` answers a place of the whole term, of which it says: where the proof may replace the term in hand there, it
//!   stands at that place, for rules in no frozen argument, and the whole term with the new one put there is the whole
//!   that comes of the replacement (`ReplacesAt` of mw_redex). Where several arguments are taken, they are not all of
//!   their operator's (`TakesPart`).
//!
//! Conditions: the term in hand is canonical and the move may be made (`MayGoIn`, `MayGoAmong`); for `leave` and `spot`
//! the proof's stand is one that its moves lead to (`IsStanding`), and for `spot` the replacement may be made
//! (`MayReplace`). Else nothing is said of the answers, but each call is safe and ends.
//!
//! Errors: want of memory alone, or a number beyond 32 bits. After one, in `enter`, `among` or `leave`, nothing is said
//! of the walk, and it is not to be used again; `spot` changes nothing.
//!
//! Cost: `enter` and `among` move the operator's arguments where nobody else holds the term in hand, and count each
//! once where somebody does. `leave` moves them back, and where the operator is commutative, `put` of mw_stack brings
//! what comes in among them: one term by log n comparisons, many by a merge. `spot` looks, for each argument that the
//! place names, once into each level: log n comparisons where the operator is commutative, else none. It makes a term
//! only where levels of a second associative or commutative operator stand round those of a first: what these are
//! together, of copies, put in order by one sort that takes the levels' arguments as runs. Its native stack grows with
//! the changes of the operator. Neither proved nor tested here: time, and that calls answer with memory at hand.
#![tactic(auto)]

mod gathering;
mod level;
mod numbering;
mod parting;
mod spotting;
mod walk;

pub use walk::Walk;
