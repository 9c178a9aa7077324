//! Matching: which values of its variables make a pattern a term.
//!
//! - `matches` and `all_match` compare patterns by position (mw_pattern) with terms, place by place, where no operator
//!   of a pattern is associative or commutative (`IsStraight`). The successor of numbers may stand in it: it meets a
//!   numeral above 0 where the pattern below it meets the one before. Values of new variables come behind those that
//!   are there. `Decides` says what they found: of all lists of values that begin with the old ones, those whose
//!   canonical instance is the term are those that begin with the new ones, or there are none. Whatever is answered,
//!   the old values stand in front. `have_sorts` asks then whether each value has its variable's sort, by `has_sort` of
//!   mw_least; nothing is lost by asking last, since one list of values is all there is.
//! - [`Solutions`] gives the solutions of a compiled pattern (mw_compile) that extend a given substitution, one by one,
//!   modulo the axioms of any accepted signature: for a whole subject (`new`), or also for its proper parts on top
//!   (`inside`, and `anywhere` for no given values). It searches by mw_search.
//!
//! What contracts see of solutions is `Coming` (specs/Solutions): candidates in order, with the sorts of their
//! variables, of which the first were given. A candidate fits where each new value has its variable's sort, as far as
//! sorts can be told: of canonical, raw and ground terms (`IsKnown` of mw_search).
//!
//! - `new`, of a pattern that was compiled from the canonical form of a raw term p: each candidate that fits is a
//!   solution of p, one of which a value lacks its sort is none, each solution of p is a candidate that fits modulo
//!   the axioms, and no two candidates are the same solution (`IsAllSolutions`: `sound`, `lacking`, `complete`,
//!   `once`). All candidates have the compiled pattern's variables, with canonical values (`AreNamed`).
//! - `inside`, of such a pattern: the same for the subject and for its proper parts on top (`IsProperPart` of
//!   mw_solving). These are two or more arguments of its associative operator and not all of them: neighbours, or where
//!   the operator is commutative too each part of the multiset of arguments once, and of equal arguments those with
//!   the least numbers. `take` of a solution says which arguments it is of.
//! - `anywhere`: the same with no given values.
//! - `values_of` has the values of a substitution, and `bound` makes one of variables and values in order.
//! - `next` passes over candidates that lack a sort and answers the first other one, which fits, or None where all that
//!   were left lack a sort, and for ever after. For want of memory it has passed over such candidates alone, and the
//!   same solutions are still to come.
//! - `listed` gives the solutions that come, or the first so many, in the order in which they are shown: each with its
//!   variables by name (`IsByName`), by the arguments that they take and then by their values. Of solutions that are
//!   all (`IsAllSolutions`) each one listed is a solution, none comes twice, and where they are fewer than asked for
//!   they are all (`AreListed`, specs/Listing). Their values are canonical where those of all candidates are
//!   (`HaveCanonicalValues`). It holds them all, since the last one found may come first.
//!
//! How `inside` works: the whole subject is searched first. Behind it come searches for a pattern with a rest behind
//! its elements (`rest_pattern`, specs/Parts), which takes what is left of the arguments: from the first one on, and
//! where the operator isn't commutative from each one on, beside searches without a rest there. What a match takes
//! follows from the value of its rest; one that leaves nothing or takes a single argument is none. There are no such
//! searches for a pattern that becomes one element, whatever its variables' values are, and for a subject without an
//! associative operator on top. A search begins when the one before has no match left.
//!
//! Where the pattern's arguments pick the elements that they take, no rest is searched for (`MayPick`, specs/Picks): the
//! same associative and commutative operator is on top of both, and the pattern has two or more arguments, fewer than
//! the subject, each of which is no variable and becomes one element. The first argument takes an element, the next one
//! takes one of those that are left, and so on (`Levels`): of equal ones the first, and none that clashes with the
//! argument, which mostly the operator on top tells. These are the matches with a rest, in the same order
//! (`picks_are_lefts`, proofs/PickedLaw).
//!
//! A search doesn't begin where it is plain that it has no match. The whole is left out where all arguments of the
//! pattern become one element each and the subject has another number of elements. From an argument on, where the
//! operator isn't commutative, the pattern's arguments at the front that become one element each meet the next
//! elements one by one: there is no match where one of them clashes with its element (`clashes` of mw_search), where
//! there are fewer elements, and where these are all of the pattern and there are more (`row_clashes`).
//!
//! Conditions of `new`, `inside` and `anywhere`: the compiled pattern has as many sorts as variables, and theirs. They
//! may be asked of any terms; what they say of solutions is said where the subject and the given values are canonical
//! terms that mean ground raw terms, the latter of their variables' sorts, each variable once. What `have_sorts` says
//! holds of values that are canonical terms and mean ground raw terms (`fits`, `lacks`).
//!
//! Cost: `matches` costs what is compared, a value one count, and a successor that meets a numeral a new numeral. `Solutions` costs what its searches do, and for each
//! solution a copy of the variables' names, a count for each value and a number for each argument that it takes. For
//! proper parts there are up to two searches for each argument, each with a count for each given value; one that
//! doesn't begin takes no memory. The arguments aren't copied for a search but where a pattern without the operator on
//! top is searched for. A match of a commutative operator with a rest costs two walks over the arguments. Where
//! arguments are picked, each argument of the pattern costs a walk over the elements behind its last one, a few steps
//! for each, and nothing is copied of elements that aren't taken. The native
//! stack grows with the depth of the pattern in `matches`, and with that of terms where they are compared or walked for
//! sorts.
//!
//! Tested by the sources in cases/, and for given values by mw_tests: that `new`, `inside` and `next` answer with
//! memory at hand. No clause says the order of solutions, time or memory.
#![tactic(auto)]

mod bindings;
mod by_position;
mod hand;
mod levels;
mod listing;
mod parts;
mod picks;
mod rows;
mod solutions;
mod sorts;
mod takes;

pub use bindings::{bound, copied, values_of};
pub use by_position::{all_match, matches};
pub use listing::listed;
pub use solutions::{Solution, Solutions};
pub use sorts::have_sorts;
