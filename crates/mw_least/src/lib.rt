//! Contexts: a module's signature and statements as they were accepted, with what the engine asks of them.
//!
//! A [`Ctx`] is seen as its module. Beside it stand, unseen, the order of its sorts, the axioms of its operators
//! (`Facts` of mw_canon), their tables (mw_sorts) and what they compute (`Schemata` of mw_builtin), made once for a
//! module.
//!
//! - `Ctx::new` makes the module of the given signature and statements. Conditions: it is workable (`IsWorkable`,
//!   specs/Workable: preregular modulo its axioms, its built-in operators are tests of equality and choices, the
//!   variables of its statements are bound in turn, also those of their conditions), the order is that of the
//!   signature's sorts, the tables are the signature's. `shows` hands out that it is workable; so it is well-formed
//!   (proofs/WellFormed).
//! - `signature`, `facts`, `statements`, `order`, `schemata` are those of the module.
//! - `least_sort` is the least sort of a canonical term, or its kind where no declaration gives it a sort
//!   (`IsLeastSort`); `has_sort` whether such a term, if it is ground, has a sort (`HasSort`), exactly.
//!   `may_give` is true exactly where a declaration of an operator has a result at or below a sort, and of a number
//!   without an operator (`MayGive`, specs/Giving). So it is true where some canonical term with the operator on top
//!   has the sort, and may be true where none has, since it doesn't ask for arguments.
//!
//! How `has_sort` works: of each kind `sure_sorts` takes a greatest sort (its top). An operator without a result at or
//! below its kind's top on arguments that have theirs is partial. A ground term in which no partial operator stands
//! has, by induction, the result that the operator on top has on tops, if numerals and quoted identifiers have the tops
//! of their kinds; so one look-up tells, also in modules with
//! partial operators, whose values mostly have none. Of a kind with several maximal sorts the top is one of them, so
//! operators with results under the others count as partial. Where no declaration of the operator on top has a result at
//! or below the sort, the answer is no.
//!
//! What partial operators leave open, closed sorts tell (`homes`, specs/Closed). An operator is closed for a sort if it
//! gives it on arguments of it, and the operators of the sort's kind that aren't are outside. A ground term of the kind
//! in which none of these stands has the sort, by induction: each argument is such a term again. Numerals and quoted
//! identifiers of the kind must have the sort. So a unary number is told by one look-up where `s_` takes N to N, with N
//! below another sort. An operator that takes arguments of such a sort to a result gives that result on such terms: the
//! two are its home. A term also has a sort for which the operator on top is closed if each of its arguments has it: so
//! a list or multiset of such elements takes a look-up for each element. At most 16 closed sorts are kept, and none that
//! is a top.
//!
//! Else the term is walked: where a partial operator and one that is outside stand in it (or ones whose numbers have the
//! same remainders by 32), or the results aren't at or below the sort.
//!
//! Neither proved nor tested: time. docs/PERFORMANCE.md has what sorts cost.
#![tactic(auto)]

mod closed;
mod context;
mod sure;

pub use context::Ctx;
