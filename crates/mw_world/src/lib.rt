//! A pool of elements from which parts are claimed, and the proofs that are given back for them: its states, the
//! three events, and their laws. It has no code.
//!
//! It is for rewriting a multiset in several places beside one another. A worker takes a part out of the pool with
//! a rule that applies to it, and gives back a proof of what the part became. Whatever is taken and given back, the
//! proofs are one deduction from the first term.
//!
//! - **States** (`World` in specs/World): the module, the term at the opening and the operator; the elements that
//!   are free; the claims that are open, each at its number; the proofs that were given back, in order (the
//!   journal); the rules that were tried; and what is left of the bounds on rules and steps.
//! - **Soundness** (`IsSound`). The opening's elements lead by the journal's proofs, in order, to the free elements
//!   and those of all open parts. So no element is lost, and none is in two claims. Each open claim has a part that
//!   isn't empty, and a rule with a solution for the part, or at a place of it that rules may change (`IsClaim`).
//!   What is left of each bound, what is granted and what was used make up the bound. Each proof of the journal is
//!   a kept one over the module that may be made wherever its part stands under the operator (`IsReceipt`). Each
//!   try that is noted as failed has failed.
//! - **Events** (specs/Events). A claim takes the elements of a part, with a solution that wasn't tried, and grants
//!   one rule step and up to 1,000 steps. A receipt closes its claim: a proof from its part, by one rule step at
//!   most and by no more steps than were granted. A release closes its claim too, and the part comes back as it
//!   was.
//!
//! Proved:
//!
//! - Whatever events follow one another from a sound state, all states are sound ([`every_run`]).
//! - In a sound state the journal's proofs in order, each beside the rest, are one deduction ([`one_proof`]). It
//!   leads from the opening to the operator on all elements, those of open parts among them, and has at most two
//!   moves more for each proof.
//! - The same proofs, given back in two orders, leave pools that hold the same ([`any_order`]): the same elements are
//!   free, the same claims are open, and the same is left of both bounds.
//!
//! Conditions (`IsOfMultisets`, which soundness has): the module is well-formed, the operator is associative and
//! commutative, and none of its arguments is frozen.
#![tactic(auto)]

ghost use Rattle.std.specs.Prelude.{List};
ghost use Rattle.mw_world.specs.World.{IsSound, World};
ghost use Rattle.mw_world.specs.Events.{AllSound, IsRun};
ghost use Rattle.mw_world.specs.Order.{AfterAll, Given, HoldTheSame, Reorders};
ghost use Rattle.mw_world.specs.Whole.{IsOneProof};

/// Every state that events lead to from a sound one is sound.
pub fn every_run()
    ensures { (w : World) (ws : List World) → IsSound w → IsRun w ws → AllSound ws }
{}

/// The journal of a sound state is one deduction, from the opening to the operator on all elements.
pub fn one_proof()
    ensures { (w : World) (h : IsSound w) → IsOneProof w h }
{}

/// The same proofs, given back in two orders, leave pools that hold the same.
pub fn any_order()
    ensures { (w : World) (gs hs : List Given) (v u : World) → Reorders gs hs → AfterAll w gs v → AfterAll w hs u
        → HoldTheSame v u }
{}
