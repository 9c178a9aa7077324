//! All matches of a pattern by position modulo the axioms, one after another.
//!
//! A [`Search`] is given a pattern whose variables stand by position, a term, values of the first positions, and what
//! may stand at the others ([`Positions`]): a term of a sort that is one element under some operators. Contracts see it
//! as the list of the matches still to come, each as its values by position: `found` of mw_matching (specs/Found), with
//! what is asked of their values (`Matches`, specs/Searches). Proved:
//!
//! - `new` has all of `found`.
//! - `of_row` has all of `found_row` (specs/Found): the arguments of a pattern by the elements of a row from a place
//!   on. The row isn't copied, so a part of an associative operator's arguments can be met in place.
//! - `next` takes matches off the front. It passes over some in each of which a new value lacks its sort, and answers
//!   the next one, in which each new value has its sort; or it passes over all that are left and answers None, and so
//!   for ever. For want of memory it may have passed over some, and the others are still to come (`SkipsTo`).
//! - `clashes` answers yes only where a pattern has no match with a term, whatever values come behind those that stand
//!   (`Clash`). It walks the pattern at most.
//!
//! A value is asked for its sort by mw_least's `has_sort` when it is bound, so one that lacks it ends all matches that
//! begin so. That answer is told of canonical, raw and ground terms (`IsKnown`), and so is what this says of sorts.
//! Given values aren't asked. There is no other condition; that `found` has all matches, each once, is another law.
//!
//! How it works: a machine has goals in hand, the values so far, and a stack of choices. A goal is a pattern by a term,
//! or its arguments from one on by those of a term, by elements of a list, by a multiset or by all of one but an
//! element. It fails, holds, binds a position, becomes another, or opens a choice over shares: how many elements the
//! next argument takes of a list, which element or which part of a multiset, which order of two arguments. No choice is
//! opened for an argument that is one element of a list, for the last one, which takes all, and for a variable that has
//! its value. A state stands for its trace (specs/Traces): what is to come, with a mark for each step. A step takes the
//! first mark off, and may take a share's marks off where it has no matches, or more of them where that is known of
//! many shares at once (`Serves`, specs/Goals). So steps end, and the matches stay the same.
//!
//! A share is passed over where it is seen at once that no match comes of it (`IsBarren`, specs/Clashes): where the
//! pattern clashes with an element of a multiset, or the argument behind a piece of a list, which has to be one element,
//! with the first element that is left. [`clashes`] tells that: they differ in an operator without axioms, a number, an
//! identifier, or from the value of a variable. And where a variable that has to be one element stands twice, and the
//! element once, which its neighbours tell where the elements stand in order (`Gathered`).
//!
//! Where one variable is all that is left of a multiset's patterns, m times, no choice is opened: its value has each
//! element so many times less, or there is no match, where m doesn't divide how often one stands. All other parts would
//! leave something (proofs/Dividing), and there are as many as the product of how often each may be taken.
//!
//! Cost: terms are copied by one count. A share of a list copies the elements of its piece, a part of a multiset all
//! elements. One element of a multiset is met before the others are copied, so one that the pattern fails on costs no
//! such copy, and one that is passed over a few comparisons. Whether elements stand in order is looked at once, for a
//! variable that stands twice. Each share copies the goals that wait behind its choice. An argument is looked at again
//! at each step that comes to it: whether it is one element whatever its variables' values are. That is one look, but
//! for an argument that stands on an associative operator with an identity: of its own arguments each is looked at three
//! times at most. Nothing recurs but comparing terms, walking them for sorts and looking for clashes. Neither proved nor
//! tested: time and memory, and that calls answer with memory at hand.
#![tactic(auto)]

mod bags;
mod gathered;
mod goals;
mod lookahead;
mod machine;
mod multisets;
mod outcomes;
mod positions;
mod rows;
mod search;
mod shares;
mod terms;

pub use lookahead::clashes;
pub use positions::Positions;
pub use search::Search;
