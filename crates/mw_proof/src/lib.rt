//! Kept deductions: a trail with the canonical terms that it leads from and to, and what it proves.
//!
//! A [`Proved`] is seen as a deduction (specs/Deductions): a module, a rank, the two terms, a proof tree, and its
//! run, the replacements in order, each with the whole term before it and after it, and the same of its evidence. It
//! is kept as a trail of mw_trail; tree and run are what its moves come to where mw_deduction replays them from the
//! first term on, in this rank (`deduced`). Its type keeps that the rank is at most 63, that these moves may be made
//! and that they end in one stand, at the second term, with no operator open and no evidence that waits (`IsKept`).
//!
//! - `shows` hands out what that gives (`IsDeduction`): the tree proves in this rank that the first term leads to the
//!   second one, also through admitted terms alone, the run is carried out by it modulo the axioms (`Denotes`), and
//!   both terms are canonical and admitted.
//! - `Proved::of` makes a trail a deduction. It walks over the items once, to count.
//! - `count`, `steps` and `rules` are those of the proof tree, or 2^64 - 1 where they are more; they are kept, so
//!   they are no walks. `trail` is the trail, `rank` the rank: what is made in a rank is made in each above it.
//! - `refl` carries out nothing, in rank 0; both ends are the term.
//! - `then` carries out what the first proof does and then what the second does, from the first one's beginning to
//!   the second one's end, in the higher one of their ranks. It takes as long as the second proof.
//! - `under` carries out what a proof does beside terms that stay, from the operator on the one end to the operator
//!   on the other (`under_dones` of mw_deduction), in the same rank. Under a commutative operator the terms beside
//!   may be given in any order; of an associative operator that stands on top of the proof's beginning too, several
//!   arguments are gone into. It takes as long as the proof, the terms beside and the comparisons that find the
//!   place.
//! - `beside` carries out several proofs under an associative operator, one after another, beside terms that stay
//!   (`run_beside`, specs/Beside): each where those before it are as they are in the end. Each part takes as long as
//!   all.
//! - `replace` carries out one replacement, of a whole term: the statement of that number with values of its
//!   variables, which it puts in the statement's order, from the canonical term of the one instance to that of the
//!   other; or a row of the built-in schemata. Evidence is kept proofs, in lower ranks: of each, the condition takes
//!   the proof that leads on from what is equal, modulo the axioms, to its beginning (`evidence`, specs/Replacing).
//! - `go_in` and `left` put the way to arguments before a trail, and the way out behind it.
//! - [`Failing`] keeps of a statement and values of its variables that its condition fails for them, in rank 63.
//! - [`Reason`] is why a run stops.
//!
//! Conditions: of `of` that the trail is kept, of `refl` that the term is canonical and admitted, of `then` that both
//! are of one module and the ends meet. Of `under` and `beside` that the module is well-formed, that what stands
//! beside is clear (`IsClear`; elements, under an associative operator), that the whole begins with a canonical term
//! that is admitted, and that each replacement may be made there (`AllMayBeUnder`, `AreBeside`). Of `replace` that
//! the statement may be applied, or the row is met, in the rank (`MayReplace`); so each deduction that is given as
//! evidence begins at the canonical instance of its side of the condition. Want of memory is the only error.
//!
//! Neither proved nor tested here: time, and that calls answer with memory at hand.
#![tactic(auto)]

mod besides;
mod counting;
mod failing;
mod lifting;
mod places;
mod proved;
mod reason;
mod replacing;

pub use besides::{Piece, beside};
pub use failing::Failing;
pub use lifting::{left, under};
pub use places::go_in;
pub use proved::{Proved, refl, then};
pub use reason::Reason;
pub use replacing::{By, replace};
