// Proofs beside one another under an operator.
ghost use Rattle.std.specs.Prelude.{◌≡◌, ◌∷◌, max, true, IfOk, OnOk};
ghost use Rattle.mw_logic.specs.Term.{nil, cons, join};
ghost use Rattle.mw_logic.specs.Terms.{terms_of};
ghost use Rattle.mw_logic.specs.Signature.{IsAssociative};
ghost use Rattle.mw_logic.specs.Parts.{is_assoc};
ghost use Rattle.mw_logic.specs.NormalForm.{applied_in, elements, flattened, identity_of};
ghost use Rattle.mw_logic.specs.WellFormed.{IsWellFormed};
ghost use Rattle.mw_logic.proofs.Canonical.{AreCanonical, IsCanonical};
ghost use Rattle.mw_canon.specs.Canonical.{IsAdmittedTerm};
ghost use Rattle.mw_proof.specs.Beside.{AreBeside, GoesOn, IsReady, MayStand, Stands, beside_dones, between, highest};
ghost use Rattle.mw_proof.specs.Beside.{is_nothing, run_beside, start_of, starts, stops};

use crate::lifting::{copy_all, under};
use crate::proved::{Proved, refl, then};
use mw_canon::{Facts, parts, rebuild};
use mw_least::Ctx;
use mw_term::{OpId, Term, copy};
use std::alloc::{AllocError, Global};

/// One of the terms under an operator.
#[derive(Drop)]
pub enum Piece<'m> {
    /// A term that stays.
    Rest(Term),
    /// The term that a proof begins with.
    Part(Proved<'m>),
}

fn start<'p>(piece: &'p Piece<'_>) -> &'p Term
    ensures { result.now ≡ start_of piece.now }
{
    match piece {
        Piece::Rest(term) => term,
        Piece::Part(inner) => inner.from(),
    }
}

/// A term's elements, behind others.
fn push_elements(
    terms: &mut Vec<Term>,
    facts: &Facts,
    operator: OpId,
    term: &Term,
) -> Result<(), AllocError>
    requires { IsAssociative facts.now operator }
    ensures { let own = elements (identity_of facts.now operator) operator term.now in
        OnOk result (terms_of terms.new.items ≡ join (terms_of terms.old.items) own) }
{
    copy_all(terms, parts(facts, operator, term))?;
    Ok(())
}

/// The elements of the terms that pieces begin with.
fn elements_of(
    alloc: Global,
    facts: &Facts,
    operator: OpId,
    pieces: &[Piece<'_>],
) -> Result<Vec<Term>, AllocError>
    requires { IsAssociative facts.now operator }
    ensures { IfOk result
        (λ ts. terms_of ts.items ≡ flattened (identity_of facts.now operator) operator (starts pieces.now)) }
{
    let mut found = Vec::new(alloc);
    for piece in pieces {
        push_elements(&mut found, facts, operator, start(piece))?;
    }
    Ok(found)
}

/// The operator on the terms that pieces begin with.
fn whole(
    alloc: Global,
    context: &Ctx,
    operator: OpId,
    pieces: &[Piece<'_>],
) -> Result<Term, AllocError>
    requires assoc { IsAssociative context.now.signature operator }
    requires canonical { AreCanonical context.now.signature (starts pieces.now) }
    ensures { IfOk result (λ t. t ≡ applied_in context.now.signature operator (starts pieces.now)) }
{
    context.shows();
    let terms = elements_of(alloc, context.facts(), operator, pieces)?;
    let term = rebuild(alloc, context.facts(), operator, terms)?;
    Ok(term)
}

fn are_none(before: &[Term], behind: &[Term]) -> bool
    ensures { result ≡ is_nothing (join (terms_of before.now) (terms_of behind.now)) }
{
    match before {
        [] => behind.is_empty(),
        _ => false,
    }
}

/// A proof under the operator, between elements before it and behind it; alone it stays as it is.
fn stood<'m>(
    alloc: Global,
    context: &'m Ctx,
    operator: OpId,
    before: &[Term],
    inner: Proved<'m>,
    behind: Vec<Term>,
) -> Result<Proved<'m>, AllocError>
    requires well { IsWellFormed context.now }
    requires assoc { IsAssociative context.now.signature operator }
    requires module { inner.over ≡ context.now }
    requires place { MayStand context.now operator (terms_of before.now) (terms_of behind.items) inner }
    ensures over { IfOk result (λ p. p.over ≡ context.now) }
    ensures rank { IfOk result (λ p. p.rank ≡ inner.entry.rank) }
    ensures stands { IfOk result
        (Stands context.now.signature operator (terms_of before.now) (terms_of behind.items) inner.entry) }
{
    if are_none(before, behind.as_slice()) {
        return Ok(inner);
    }
    let mut others = Vec::new(alloc);
    copy_all(&mut others, before)?;
    let made = under(alloc, context, operator, others, inner, behind)?;
    Ok(made)
}

/// A part in its place: a proof under the operator, between elements before it, to which those that it ends in are
/// added, and the pieces behind it.
fn part<'m>(
    alloc: Global,
    context: &'m Ctx,
    operator: OpId,
    so_far: &Proved<'m>,
    before: &mut Vec<Term>,
    inner: Proved<'m>,
    rest: &[Piece<'m>],
) -> Result<Proved<'m>, AllocError>
    requires well { IsWellFormed context.now }
    requires assoc { IsAssociative context.now.signature operator }
    requires ready { IsReady context.now operator (terms_of before.old.items) (Piece.Part inner ∷ rest.now) so_far.now }
    ensures over { IfOk result (λ p. p.over ≡ context.now) }
    ensures rank { IfOk result (λ p. p.rank ≡ inner.entry.rank) }
    ensures from { IfOk result (λ p. p.from ≡ so_far.now.to) }
    ensures to { let terms = join (terms_of before.old.items) (cons inner.entry.to (starts rest.now)) in
        IfOk result (λ p. p.to ≡ applied_in context.now.signature operator terms) }
    ensures run { let sig = context.now.signature in
        let place = between sig operator (terms_of before.old.items) rest.now in
        IfOk result (λ p. p.run ≡ beside_dones sig place inner.entry.run) }
    ensures pushed { let own = elements (identity_of context.now.signature operator) operator inner.entry.to in
        OnOk result (terms_of before.new.items ≡ join (terms_of before.old.items) own) }
{
    so_far.shows();
    inner.shows();
    let to = copy(inner.to())?;
    let behind = elements_of(alloc, context.facts(), operator, rest)?;
    let made = stood(alloc, context, operator, before.as_slice(), inner, behind)?;
    push_elements(before, context.facts(), operator, &to)?;
    Ok(made)
}

/// A proof so far, and then a piece.
fn with_piece<'m>(
    alloc: Global,
    context: &'m Ctx,
    operator: OpId,
    so_far: Proved<'m>,
    before: &mut Vec<Term>,
    piece: Piece<'m>,
    rest: &[Piece<'m>],
) -> Result<Proved<'m>, AllocError>
    requires well { IsWellFormed context.now }
    requires assoc { IsAssociative context.now.signature operator }
    requires ready { IsReady context.now operator (terms_of before.old.items) (piece ∷ rest.now) so_far }
    ensures ready { IfOk result (λ p. IsReady context.now operator (terms_of before.new.items) rest.now p) }
    ensures goes { let old = terms_of before.old.items in let new = terms_of before.new.items in
        IfOk result (GoesOn context.now.signature operator old (piece.entry ∷ rest.now) so_far.entry new rest.now) }
{
    match piece {
        Piece::Rest(term) => {
            push_elements(before, context.facts(), operator, &term)?;
            Ok(so_far)
        }
        Piece::Part(inner) => {
            inner.shows();
            let made = part(alloc, context, operator, &so_far, before, inner, rest)?;
            let both = then(so_far, made)?;
            Ok(both)
        }
    }
}

/// Proofs beside one another under an associative operator, and terms that stay: one after another, from the left. Each
/// replacement must be one that may be made where the pieces before it are as they are in the end, and those behind it
/// as they are in the beginning; the whole must begin with a canonical term that is admitted.
pub fn beside<'m>(
    alloc: Global,
    context: &'m Ctx,
    operator: OpId,
    pieces: Vec<Piece<'m>>,
) -> Result<Proved<'m>, AllocError>
    requires well { IsWellFormed context.now }
    requires assoc { IsAssociative context.now.signature operator }
    requires begins { let sig = context.now.signature in
        IsAdmittedTerm sig (applied_in sig operator (starts pieces.items)) }
    requires pieces { AreBeside context.now operator nil pieces.items }
    ensures over { IfOk result (λ p. p.over ≡ context.now) }
    ensures rank { IfOk result (λ p. p.rank ≡ highest pieces.entry.items) }
    ensures from { IfOk result (λ p. p.from ≡ applied_in context.now.signature operator (starts pieces.entry.items)) }
    ensures to { IfOk result (λ p. p.to ≡ applied_in context.now.signature operator (stops pieces.entry.items)) }
    ensures run { IfOk result (λ p. p.run ≡ run_beside context.now.signature operator nil pieces.entry.items) }
{
    let from = whole(alloc, context, operator, pieces.as_slice())?;
    let mut so_far = refl(alloc, context, &from)?;
    let mut before = Vec::new(alloc);
    let mut pieces = pieces;
    'turns: while !pieces.is_empty() {
        let piece = pieces.remove(0);
        so_far = with_piece(
            alloc,
            context,
            operator,
            so_far,
            &mut before,
            piece,
            pieces.as_slice(),
        )?;
    }
    Ok(so_far)
}
