//! Verdicts on proof texts: what a checker of proof texts sees and answers, and the laws that its answers stand on. It
//! has no code.
//!
//! - **What is checked** (specs/Checks): on canonical terms alone, by equations and normal forms, in rank n, which is
//!   how many conditions may stand inside one another. `Checks M n items t u r c ds`: the items lead from t to u, by r
//!   rules and c replacements, those in braces counted too, and do ds. Each item passes tests in order: the statement
//!   is there, its values have their variables' sorts, its part stands at the place, where a list of arguments names
//!   not all of them (`TakesSome`), its condition is shown by the groups, and the next term is admitted. A group leads
//!   by equations from its side's canonical instance to a normal term. Of a match nothing is searched: the values of
//!   all variables are told, and the pattern's instance is the end. A row is met by a clean form of the part, and the
//!   sides that it wants to be normal are.
//! - **Answers** (specs/Verdicts): `IsYes`, where items check in rank 63 from the one term to the other; `IsNo`, with
//!   the number of the first item that is at fault, from 1, and its cause (`Refuses`), the first in the order of the
//!   tests. What is at fault has passed the tests before it; of a computed step the part is looked for before the row.
//!   Normality is tested by a search with limits, which finds a term reducible (`IsReducible` of mw_logic) or stops; at
//!   a stop nothing is known of the term. In a group an item stands where those before it lead (specs/Leads), whatever
//!   the tests find of them: so what is at fault behind a stop is told, as a condition that isn't shown, and so is a
//!   next term past the limits.
//!
//! Proved, each by a function below whose contract is the law:
//!
//! - What is checked is what the text means (`checks_tell`: `Tells` of mw_prooftext). In a well-formed module there is
//!   a proof of it (`checked_proves`): it leads from the first term to the last one, which is canonical and admitted,
//!   in that rank, the run that was checked denotes it, and it counts what was counted.
//! - Two proofs that one run denotes, in a module in which both prove something, have as many steps and rules, and
//!   count as many replacements (`denoted_counts`).
//! - Items that are checked lead to their last term, and to no other (`checked_lead`).
//! - A missing statement or row, an ill-sorted value and a missing part exclude each other cause
//!   (`early_causes_exclude`). They, the limits and another last term exclude one another and what is checked; so the
//!   answers no that tell one of them have one number and one cause, and exclude yes (`certain_causes_exclude`). In a
//!   tame and confluent module the same holds of all causes but a stop, conditions among them
//!   (`causes_exclude_where_confluent`).
//! - These two, and that checked items lead to no other term, want that rows make one term of a part (`HasOneRow`).
//!   They do where each truth value is one constant and what computes of two numbers is commutative only where the
//!   numbers may change places (`rows_are_one`): of a commutative `_quo_` a part has two results.
//!   In accepted modules each truth value is one constant (`rows_of_accepted` of mw_top).
//! - Items that pass all tests but those of conditions (`Passes`; `write` of mw_prooftext tells such ones of a kept
//!   proof) are answered no for a condition or a stop alone (`passing_are_answered`); and yes, never no, where no item's
//!   statement has a condition or is told as `owise`, and none is a test of terms that differ (`free_are_answered`).
//!   Both want `HasOneRow`, as the others do.
//! - A part that is a test of two terms which differ is at fault for its condition where one of them is reducible
//!   (`reducible_sides`).
//!
//! Not claimed: a stop excludes neither a condition at fault nor the limits nor what is checked, since a term can be
//! normal and a search of it stop. Nor do the limits exclude a condition at fault without confluence, for they come
//! behind it, where the condition was shown. Of `owise` equations no cause tells that an ordinary one applies; modules
//! that are read have none. `no_module` and `not_of_form` are the caller's to tell, and `overlaps` is of a later
//! version of the format: no item is refused for them.
#![tactic(auto)]

ghost use Rattle.mw_verdict.specs.Counts.{DenotedCounts};
ghost use Rattle.mw_verdict.specs.Exclusion.{CertainExclude, CheckedLead, ConfluentExclude, EarlyExclude};
ghost use Rattle.mw_verdict.specs.Proved.{CheckedProves, ChecksTell};
ghost use Rattle.mw_verdict.specs.Rows.{ReducibleSides, RowsAreOne};
ghost use Rattle.mw_verdict.specs.Written.{FreeAnswered, PassingAnswered};

/// Items that are checked tell what is done.
pub fn checks_tell()
    ensures { ChecksTell }
{}

/// In a well-formed module there is a proof of what is checked.
pub fn checked_proves()
    ensures { CheckedProves }
{}

/// What a run denotes is counted in one way.
pub fn denoted_counts()
    ensures { DenotedCounts }
{}

/// Items that are checked lead to their last term, and to no other.
pub fn checked_lead()
    ensures { CheckedLead }
{}

/// A missing statement or row, an ill-sorted value and a missing part exclude each other cause.
pub fn early_causes_exclude()
    ensures { EarlyExclude }
{}

/// These, the limits and another last term exclude one another, and what is checked; so such answers are one.
pub fn certain_causes_exclude()
    ensures { CertainExclude }
{}

/// In a tame and confluent module so do all causes but a stop.
pub fn causes_exclude_where_confluent()
    ensures { ConfluentExclude }
{}

/// Rows make one term of a part, where truth values are one constant each and what is commutative is symmetric.
pub fn rows_are_one()
    ensures { RowsAreOne }
{}

/// A test of two terms that differ, of which one is reducible, is at fault for its condition.
pub fn reducible_sides()
    ensures { ReducibleSides }
{}

/// Items that pass all tests but those of conditions are answered yes, or no for a condition or a stop.
pub fn passing_are_answered()
    ensures { PassingAnswered }
{}

/// Where they are without evidence and no test of terms that differ, they are answered yes.
pub fn free_are_answered()
    ensures { FreeAnswered }
{}
