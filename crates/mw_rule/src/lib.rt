//! Rewriting with rules, modulo the axioms of any accepted signature, and the deduction that it keeps.
//!
//! `rewrite_alone` reduces a term, applies the first rule that applies somewhere, reduces what comes, and so on. It
//! answers a `Proved` of mw_proof and an [`Outcome`]. Proved, over `IsRewritingOf` (specs/Rewritings):
//!
//! - the `Proved` is a deduction over the context's module, from the given term, and proves what it says at rank 63; it
//!   has no more rules than the bound, where there is one, and no more steps than the limit (`IsWithin`);
//! - `Done`: it took fewer steps than the limit, and its rules aren't as many as the bound; it ends at a final term:
//!   one that is normal, where at each part that rules may change each rule's every solution has a condition that fails;
//!   that it is normal is handed out as `apply` wants it (`IsNormalWhere` of mw_reduce);
//! - `Stopped`: it stops there for the reason that is answered: it took as many steps as the limit; or fewer, and as many
//!   rules as the bound, at a normal term; or a next step by an equation, a row, or at a normal term a rule, leads to a
//!   term that is too deep, or that is not and has a number that is too large; or a side of a condition that is tried
//!   next stops.
//!
//! `find` looks for one rule in any term, and applies none. It is given failures: statements with values for which
//! their conditions fail (`Failing` of mw_proof). Proved (specs/Finding):
//!
//! - a [`Redex`] is an executable rule with a solution of its left side for a part that rules may change, by values of
//!   the left side's variables in the order in which these are met, and the place of that part. None of the failures
//!   is of this rule with these values and no others. The redex may be asked of its condition, by `conditions` of
//!   mw_reduce, and what fails is a failure for the next call; or tried as a choice, by `try_choice` (`IsRedexOf`);
//! - there is none exactly where each rule's every solution at each such part is among the failures, so that its
//!   condition fails (`AreAllKnown`); a normal term is final then (`known_final`, proofs/Known).
//!
//! `apply` makes the one step from a normal term by a rule that applies at a place, which `try_choice` of mw_reduce has
//! shown. Proved (specs/Applications): the `Proved` is a deduction of exactly one step, by a rule, from the term to the
//! term with the canonical instance of the rule's right side in the part's place (`IsOneStep`). It is made exactly
//! where that is within the limits; else a step by a rule would lead to what is too deep, or too large and not too
//! deep. No clause says that the step in the proof is by the same rule.
//!
//! The whole is kept in one machine of mw_frames with one trail. A rule is applied where a normal whole was left: the
//! machine goes into the arguments on the way (`enter`), whose others are known to be normal, and goes on from what the
//! rule leaves. So a step costs what is found and what the rule leaves, and a move for each argument on the way and of
//! what was gone into, and the whole is never reduced anew. Where a rule applies to the whole, or to several of its
//! arguments, the whole is given away (`fire_whole`): what isn't taken is moved, without a count. `apply` goes the same
//! way, and makes what the rule leaves beside it too, which it compares.
//!
//! Which parts are looked at, and in which order rules are asked, mw_redexes says. A rule that fails isn't asked again
//! before something changed.
//!
//! Conditions: the index is one of the context's module, the term is canonical and admitted; of `find` that the
//! failures are of the context's module; of `apply` that the term is normal and the rule applies there
//! (`IsApplicable`). Want of memory is the only error. No clause says which of several rules, parts and solutions that
//! apply is taken.
//!
//! Neither proved nor tested: time and memory, and that an answer comes with memory at hand.
#![tactic(auto)]

mod finding;
mod going;
mod one_step;
mod rewriting;

pub use finding::{Redex, find};
pub use one_step::{OneStep, apply};
pub use rewriting::{Bounds, rewrite_alone};
