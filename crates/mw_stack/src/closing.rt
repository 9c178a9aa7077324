// Operators over their own arguments.
ghost use Rattle.std.specs.Prelude.{◌≡◌, ◌≤◌, take, drop, length, true, false, IfOk, IsTrue};
ghost use Rattle.mw_logic.specs.Term.{RawTerm, RawTerms, apply as applied, cons};
ghost use Rattle.mw_logic.specs.Parts.{is_assoc};
ghost use Rattle.mw_logic.specs.NormalForm.{is_comm, identity_of, applied_in, rebuilt};
ghost use Rattle.mw_logic.specs.Signature.{IsAssociative};
ghost use Rattle.mw_logic.proofs.Canonical.{Each, IsElement, AreCanonical};
ghost use Rattle.mw_stack.specs.Own.{own, spread, own_with, IsOrdered};

use crate::putting::put;
use mw_canon::{Axioms, Facts, counted, over_elements};
use mw_term::{OpId, Term, View};
use std::alloc::{AllocError, Global};

/// The operator over its own arguments, which are in order, and are taken out: as a canonical term.
#[inline(always)]
pub fn close(
    alloc: Global,
    facts: &Facts,
    operator: OpId,
    done: &mut Vec<Term>,
    from: usize,
) -> Result<Term, AllocError>
    ensures is { AreCanonical facts.now (own from done.old.items)
        → (is_assoc facts.now operator ≡ true
        → Each (IsElement (identity_of facts.now operator) operator) (own from done.old.items))
        → IsOrdered facts.now operator (own from done.old.items)
        → IfOk result (λ t. t ≡ applied_in facts.now operator (own from done.old.items)) }
    ensures taken { IfOk result (λ _. done.new.items ≡ take from done.old.items) }
{
    match facts.axioms(operator) {
        Axioms::Plain | Axioms::Commutative => Term::apply_behind(alloc, operator, done, from),
        Axioms::Successor => counted(alloc, operator, done, from),
        Axioms::Associative { .. } => collected(alloc, facts, operator, done, from),
    }
}

/// An associative operator over its own elements. A list is made for more than two of them alone.
#[inline(never)]
fn collected(
    alloc: Global,
    facts: &Facts,
    operator: OpId,
    done: &mut Vec<Term>,
    from: usize,
) -> Result<Term, AllocError>
    requires { IsAssociative facts.now operator }
    ensures is { IfOk result (λ t. t ≡ rebuilt (identity_of facts.now operator) operator (own from done.old.items)) }
    ensures taken { IfOk result (λ _. done.new.items ≡ take from done.old.items) }
{
    let count = done.len().saturating_sub(from);
    if count > 1 {
        return Term::apply_behind(alloc, operator, done, from);
    }
    if count == 1 {
        if let Some(only) = done.pop() {
            return Ok(only);
        }
    }
    over_elements(alloc, facts, operator, Vec::new(alloc))
}

/// What `put` of a last term and then `close` make, in one step. Where the operator keeps the order of its elements,
/// and the term has it on top of some, those that stand before come in front of them.
pub fn close_before(
    alloc: Global,
    facts: &Facts,
    operator: OpId,
    done: &mut Vec<Term>,
    from: usize,
    last: Term,
) -> Result<Term, AllocError>
    ensures is { from ≤ length done.old.items
        → IsOrdered facts.now operator (own from done.old.items)
        → IsOrdered facts.now operator (spread facts.now operator last)
        → AreCanonical facts.now (own_with facts.now operator from done.old.items last)
        → (is_assoc facts.now operator ≡ true
        → Each (IsElement (identity_of facts.now operator) operator)
        (own_with facts.now operator from done.old.items last))
        → IfOk result (λ t. t ≡ applied_in facts.now operator (own_with facts.now operator from done.old.items last)) }
    ensures taken { from ≤ length done.old.items → IfOk result (λ _. done.new.items ≡ take from done.old.items) }
{
    if done.len() > from && is_list(facts, operator, &last) {
        return Term::apply_onto(alloc, operator, done, from, last);
    }
    put(alloc, facts, operator, done, from, last)?;
    close(alloc, facts, operator, done, from)
}

/// Whether the operator is associative and keeps the order of its elements, and stands on top of some in a term.
fn is_list(facts: &Facts, operator: OpId, term: &Term) -> bool
    ensures assoc { IsTrue result → is_assoc facts.now operator ≡ true }
    ensures order { IsTrue result → is_comm facts.now operator ≡ false }
    ensures some { IsTrue result → (u : RawTerm) × (us : RawTerms) × (term.now ≡ applied operator (cons u us)) }
{
    match facts.axioms(operator) {
        Axioms::Associative { comm, .. } => !comm && stands_on_some(operator, term),
        _ => false,
    }
}

/// Whether a term has the operator on top of some arguments.
fn stands_on_some(operator: OpId, term: &Term) -> bool
    ensures { IsTrue result → (u : RawTerm) × (us : RawTerms) × (term.now ≡ applied operator (cons u us)) }
{
    match term.view() {
        View::Op(f, args) => f == operator && !args.is_empty(),
        _ => false,
    }
}
