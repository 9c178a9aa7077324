// What keeps terms out: levels and numbers of their canonical forms.
ghost use Rattle.std.specs.Prelude.{◌≡◌, [], ◌∷◌, All, map, IfOk, MatchOption, MatchResult};
ghost use Rattle.mw_logic.specs.Term.{RawTerm};
ghost use Rattle.mw_logic.specs.Signature.{Signature as SignatureOf, IsRawTerm};
ghost use Rattle.mw_logic.specs.NormalForm.{normal_form};
ghost use Rattle.mw_canon.specs.Causes.{HasCause as HasCanonCause};
ghost use Rattle.mw_term.specs.Raws.{raw_term};
ghost use Rattle.mw_term.specs.Statements.{fragment_of};
ghost use Rattle.mw_least.specs.Conditions.{AreRawFragments};
ghost use Rattle.mw_build.specs.Statements.{FitsIn, Oversized, FirstOversized, terms_of};

use mw_canon::{CanonError, Facts, canon};
use mw_module::FaultKind;
use mw_term::{Fragment, Raw, Term};
use std::alloc::{AllocError, Global};

/// What keeps a term out.
fn oversized(error: CanonError) -> Result<FaultKind, AllocError>
    ensures { (sig : SignatureOf) (t : RawTerm) → HasCanonCause sig t error → IfOk result (Oversized sig t) }
{
    match error {
        CanonError::Deep => Ok(FaultKind::TooDeep),
        CanonError::Nat => Ok(FaultKind::NumberTooLarge),
        CanonError::Memory => Err(AllocError),
    }
}

/// The canonical form of a term that was read, or what keeps the term out.
pub fn canonical(
    alloc: Global,
    facts: &Facts,
    raw: &Raw,
) -> Result<Result<Term, FaultKind>, AllocError>
    requires { IsRawTerm facts.now (raw_term raw.now) }
    ensures { IfOk result (λ r. MatchResult r
        (λ t. FitsIn facts.now (raw_term raw.now) × (t ≡ normal_form facts.now (raw_term raw.now)))
        (λ kind. Oversized facts.now (raw_term raw.now) kind)) }
{
    facts.shows();
    match canon(alloc, facts, raw) {
        Ok(term) => Ok(Ok(term)),
        Err(error) => Ok(Err(oversized(error)?)),
    }
}

/// What keeps a term out, if anything does.
pub fn term_fault(alloc: Global, facts: &Facts, raw: &Raw) -> Result<Option<FaultKind>, AllocError>
    requires { IsRawTerm facts.now (raw_term raw.now) }
    ensures { IfOk result (λ o. MatchOption o
        (FitsIn facts.now (raw_term raw.now))
        (λ kind. Oversized facts.now (raw_term raw.now) kind)) }
{
    match canonical(alloc, facts, raw)? {
        Ok(_) => Ok(None),
        Err(kind) => Ok(Some(kind)),
    }
}

/// What keeps one of two terms out, the first one before the second.
fn both_fault(
    alloc: Global,
    facts: &Facts,
    first: &Raw,
    second: &Raw,
) -> Result<Option<FaultKind>, AllocError>
    requires first { IsRawTerm facts.now (raw_term first.now) }
    requires second { IsRawTerm facts.now (raw_term second.now) }
    ensures { IfOk result (λ o. MatchOption o
        (All (FitsIn facts.now) (raw_term first.now ∷ raw_term second.now ∷ []))
        (λ kind. FirstOversized facts.now kind (raw_term first.now ∷ raw_term second.now ∷ []))) }
{
    if let Some(kind) = term_fault(alloc, facts, first)? {
        return Ok(Some(kind));
    }
    term_fault(alloc, facts, second)
}

/// What keeps a term of a fragment out, the first one at fault.
fn fragment_fault(
    alloc: Global,
    facts: &Facts,
    fragment: &Fragment,
) -> Result<Option<FaultKind>, AllocError>
    requires { AreRawFragments facts.now (fragment_of fragment.now ∷ []) }
    ensures { IfOk result (λ o. MatchOption o
        (All (FitsIn facts.now) (terms_of (fragment_of fragment.now ∷ [])))
        (λ kind. FirstOversized facts.now kind (terms_of (fragment_of fragment.now ∷ [])))) }
{
    match fragment {
        Fragment::Equal(left, right) => both_fault(alloc, facts, left, right),
        Fragment::Match(pattern, term) => both_fault(alloc, facts, pattern, term),
        Fragment::HasSort(term, _) => term_fault(alloc, facts, term),
        Fragment::Holds(term) => term_fault(alloc, facts, term),
    }
}

/// What keeps a term of fragments out, the first one at fault.
pub fn fragments_fault(
    alloc: Global,
    facts: &Facts,
    fragments: &[Fragment],
) -> Result<Option<FaultKind>, AllocError>
    requires { AreRawFragments facts.now (map fragment_of fragments.now) }
    ensures { IfOk result (λ o. MatchOption o
        (All (FitsIn facts.now) (terms_of (map fragment_of fragments.now)))
        (λ kind. FirstOversized facts.now kind (terms_of (map fragment_of fragments.now)))) }
{
    let mut rest = fragments;
    while let [fragment, after @ ..] = rest {
        if let Some(kind) = fragment_fault(alloc, facts, fragment)? {
            return Ok(Some(kind));
        }
        rest = after;
    }
    Ok(None)
}
