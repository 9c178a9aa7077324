// What stands under an operator.
ghost use Rattle.std.specs.Prelude.{◌≡◌, cond, IfOk, OnOk, Some, option_map};
ghost use Rattle.mw_logic.specs.Signature.{IsAssociative, constant_of, numeral_of};
ghost use Rattle.mw_logic.specs.Term.{nil, cons, join};
ghost use Rattle.mw_logic.specs.NormalForm.{identity_of, is_identity as is_identity_of, own_arguments, elements, flattened};
ghost use Rattle.mw_logic.specs.Terms.{args_of, terms_of};
ghost use Rattle.mw_term.specs.Signatures.{identity_of as identity_named};

use crate::axioms::{Axioms, Facts};
use mw_term::{Identity, OpId, Term, View};
use std::alloc::{AllocError, Global};

/// The parts of a term under an associative operator: the arguments that it stands on, none for its identity, and
/// the term alone for any other. It takes no memory.
pub fn parts<'t>(facts: &Facts, operator: OpId, term: &'t Term) -> &'t [Term]
    requires associative { IsAssociative facts.now operator }
    ensures { terms_of result.now ≡ elements (identity_of facts.now operator) operator term.now }
{
    if is_identity(identity(facts, operator), term) {
        return &[];
    }
    match term.view() {
        View::Op(f, args) if f == operator && !args.is_empty() => args,
        _ => std::slice::from_ref(term),
    }
}

/// The identity of an associative operator.
pub(crate) fn identity(facts: &Facts, operator: OpId) -> Option<Identity>
    requires { IsAssociative facts.now operator }
    ensures { option_map identity_named result ≡ identity_of facts.now operator }
{
    match facts.axioms(operator) {
        Axioms::Associative { identity, .. } => identity,
        _ => None,
    }
}

fn is_identity(identity: Option<Identity>, term: &Term) -> bool
    ensures { result ≡ is_identity_of (option_map identity_named identity) term.now }
{
    match identity {
        Some(Identity::Constant(c)) => is_constant(c, term),
        Some(Identity::Nat(n)) => is_numeral(n, term),
        None => false,
    }
}

fn is_constant(constant: OpId, term: &Term) -> bool
    ensures { result ≡ is_identity_of (Some (constant_of constant)) term.now }
{
    match term.view() {
        View::Op(f, args) => f == constant && args.is_empty(),
        _ => false,
    }
}

fn is_numeral(number: u128, term: &Term) -> bool
    ensures { result ≡ is_identity_of (Some (numeral_of number)) term.now }
{
    match term.view() {
        View::Nat(n) => n == number,
        _ => false,
    }
}

/// The elements of these terms under an associative operator, one after the other.
pub(crate) fn all_elements(
    alloc: Global,
    identity: Option<Identity>,
    operator: OpId,
    terms: Vec<Term>,
) -> Result<Vec<Term>, AllocError>
    ensures { IfOk result (λ ts. terms_of ts.items ≡ flattened (option_map identity_named identity) operator (terms_of terms.items)) }
{
    let mut found = Vec::new(alloc);
    for term in terms {
        push_elements(alloc, identity, operator, term, &mut found)?;
    }
    Ok(found)
}

/// Puts the elements of a term under an associative operator behind others. Arguments that no other term shares are
/// moved.
pub fn push_elements(
    alloc: Global,
    identity: Option<Identity>,
    operator: OpId,
    term: Term,
    found: &mut Vec<Term>,
) -> Result<(), AllocError>
    ensures { OnOk result (terms_of found.new.items ≡ join (terms_of found.old.items) (elements (option_map identity_named identity) operator term)) }
{
    if is_identity(identity, &term) {
        return Ok(());
    }
    if !stands_on_some(operator, &term) {
        return Ok(found.push(term)?);
    }
    let mut args = term.into_args(alloc)?;
    if found.is_empty() {
        *found = args;
        return Ok(());
    }
    Ok(found.append(&mut args)?)
}

/// Whether a term has this operator on top, with arguments.
fn stands_on_some(operator: OpId, term: &Term) -> bool
    ensures { own_arguments operator term.now ≡ cond result (args_of term.now) (cons term.now nil) }
{
    match term.view() {
        View::Op(f, args) => f == operator && !args.is_empty(),
        _ => false,
    }
}
