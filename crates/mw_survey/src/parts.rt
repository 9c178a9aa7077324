// The parts of a subject.
ghost use Rattle.std.specs.Prelude.{◌≡◌, ◌<◌, suc, IfOk, None, Some, length, map};
ghost use Rattle.mw_logic.specs.Term.{RawTerm};
ghost use Rattle.mw_logic.specs.Terms.{terms_of};
ghost use Rattle.mw_logic.specs.Signature.{IsAssociative};
ghost use Rattle.mw_logic.specs.NormalForm.{identity_of, rebuilt};
ghost use Rattle.mw_logic.specs.CanonicalPart.{AreSeveral};
ghost use Rattle.mw_arguments.specs.Places.{chosen as chosen_of, Rise, Takes};
ghost use Rattle.mw_survey.specs.Asked.{AreAllParts, AreWaysOn, term_of, term_at, standing_of, standing_at};

use mw_canon::{Facts, over_elements};
use mw_index::Rule;
use mw_redexes::{Spot, spots_of, wanted_by};
use mw_term::{OpId, Term, View, copy, numbered};
use std::alloc::{AllocError, Global};

/// A part of a subject: itself, which stands first, or an argument of a part that stands before it, by its number from 1.
#[derive(Drop)]
pub struct Part {
    pub term: Term,
    pub parent: usize,
    pub number: u32,
}

/// The same terms again, one count for each.
pub fn copied(alloc: Global, terms: &[Term]) -> Result<Vec<Term>, AllocError>
    ensures { IfOk result (λ v. v.items ≡ terms.now) }
{
    let mut made = Vec::with_capacity(alloc, terms.len())?;
    for term in terms {
        made.push(copy(term)?)?;
    }
    Ok(made)
}

/// The arguments that have these numbers, one count for each.
fn chosen(alloc: Global, args: &[Term], numbers: &[u32]) -> Result<Vec<Term>, AllocError>
    requires { Rise 1 (suc (length args.now)) numbers.now }
    ensures { IfOk result (λ v. terms_of v.items ≡ chosen_of 1 numbers.now (terms_of args.now)) }
{
    let mut made = Vec::with_capacity(alloc, numbers.len())?;
    for number in numbers {
        if let Some(arg) = numbered(args, *number) {
            made.push(copy(arg)?)?;
        }
    }
    Ok(made)
}

/// Several arguments of an associative operator, by their numbers, as a term.
pub fn several(
    alloc: Global,
    facts: &Facts,
    term: &Term,
    numbers: &[u32],
) -> Result<Term, AllocError>
    requires { (w : RawTerm) × Takes facts.now numbers.now term.now w }
    ensures { (w : RawTerm) → Takes facts.now numbers.now term.now w → IfOk result (λ t. t ≡ w) }
{
    match term.view() {
        View::Op(operator, args) => {
            let elements = chosen(alloc, args, numbers)?;
            over_elements(alloc, facts, operator, elements)
        }
        _ => unreachable!(),
    }
}

/// An associative operator on elements in order, where they are two or more.
pub fn whole_of(
    alloc: Global,
    facts: &Facts,
    operator: OpId,
    elements: &[Term],
) -> Result<Option<Term>, AllocError>
    requires { IsAssociative facts.now operator }
    ensures some { let ts = terms_of elements.now in
        AreSeveral ts → IfOk result (λ o. o ≡ Some (rebuilt (identity_of facts.now operator) operator ts)) }
    ensures none { (AreSeveral (terms_of elements.now) → ⊥) → IfOk result (λ o. o ≡ None) }
{
    if elements.len() < 2 {
        return Ok(None);
    }
    let elements = copied(alloc, elements)?;
    let whole = over_elements(alloc, facts, operator, elements)?;
    Ok(Some(whole))
}

/// The parts as they are asked.
pub fn spots_on<'t>(alloc: Global, parts: &'t [Part]) -> Result<Vec<Spot<'t>>, AllocError>
    ensures terms { IfOk result (λ v. map term_at v.items ≡ map term_of parts.now) }
    ensures standing { IfOk result (λ v. map standing_at v.items ≡ map standing_of parts.now) }
{
    let mut spots = Vec::new(alloc);
    for part in parts {
        spots.push(Spot {
            term: &part.term,
            parent: part.parent,
            number: part.number,
        })?;
    }
    Ok(spots)
}

/// The parts of a term at which rules may have what they are asked for, one count for each.
pub fn parts_of(
    alloc: Global,
    facts: &Facts,
    rules: &[Rule],
    term: &Term,
) -> Result<Vec<Part>, AllocError>
    ensures all { IfOk result (λ v. AreAllParts facts.now rules.now term.now (map term_of v.items)) }
    ensures ways { IfOk result (λ v. AreWaysOn facts.now term.now v.items) }
{
    let wanted = wanted_by(rules);
    let spots = spots_of(alloc, facts, wanted, term)?;
    let mut parts = Vec::new(alloc);
    for spot in spots.as_slice() {
        let term = copy(spot.term)?;
        parts.push(Part {
            term,
            parent: spot.parent,
            number: spot.number,
        })?;
    }
    Ok(parts)
}
