//! Terms under an associative and commutative operator as multisets of elements, and proofs that are made beside
//! one another there: definitions and laws over mw_deduction. It has no code.
//!
//! It is for proofs that are made apart, each of some elements of a multiset, and are one proof of the whole then.
//!
//! - **Elements** (specs/Together): `parts` are a canonical term's elements, each as often as it stands there, and
//!   `together` is the operator on a list of elements. Lists in different orders give one canonical term
//!   (`together-permutation`). So a multiset is a list up to order, and elements are compared as canonical terms.
//! - **Members** (`IsMember`): terms that may stand among others. Each is canonical, one element, ground and at
//!   most 999 levels deep, and no number in it is too large.
//! - **Proofs under the operator** (`AllUnder`): the whole before each replacement isn't the operator's identity,
//!   and no element of the whole after it is deeper than 999. More isn't asked of a proof. That the terms on the
//!   way are raw, of the first one's kinds and admitted follows from its moves (proofs/Reached). So does that each
//!   replacement may be made beside any members (`stands_beside`).
//! - **Receipts** (specs/Receipts): a part that isn't empty, what it became, and the moves of the proof between.
//!   `Reaches` says that receipts lead in order from some elements to others. Each takes its part's elements away
//!   once, which are there, and adds those of its result.
//!
//! Proved:
//!
//! - The receipts in order are one proof of the whole ([`gathered`]). It carries out their runs, each beside the
//!   elements that the receipt doesn't take, with at most two moves more for each receipt. The elements at its end
//!   are members.
//! - A receipt's moves stand between one move into its elements and one out of them. The numbers of that move may
//!   be any that rise and choose the part's elements (`placed_among`). Where the part is the whole, neither move is
//!   made (`placed_alone`).
//!
//! Conditions (`IsOfMultisets`): the module is well-formed, and no argument of the operator is frozen.
#![tactic(auto)]

ghost use Rattle.std.specs.Prelude.{◌≤◌, ℕ, List};
ghost use Rattle.mw_logic.specs.Term.{RawTerm};
ghost use Rattle.mw_logic.specs.Module.{Module};
ghost use Rattle.mw_canon.specs.Canonical.{IsAdmittedTerm};
ghost use Rattle.mw_multiset.specs.Together.{together, AreMembers, IsOfMultisets};
ghost use Rattle.mw_multiset.specs.Receipts.{AreLow, AreOneProof, AreReceipts, Reaches, Receipt};

/// Receipts in order are one proof of the whole, of about as many moves as they have together.
pub fn gathered()
    ensures { (M : Module) (f : ℕ) → IsOfMultisets M f → (n : ℕ) → n ≤ 63
        → (xs : List RawTerm) (rs : List Receipt) (ys : List RawTerm) (h : Reaches M.signature f xs rs ys)
        → AreMembers M.signature f xs → IsAdmittedTerm M.signature (together M.signature f xs)
        → AreReceipts M f rs → AreLow n rs → AreOneProof M f n xs rs ys h }
{}
