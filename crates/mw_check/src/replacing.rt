// Whether a statement replaces at a place, by values of its variables, and what comes of it.
ghost use Rattle.std.specs.Prelude.{◌≡◌, ◌↔◌, IfOk, IsTrue, MatchOption};
ghost use Rattle.mw_logic.specs.Term.{RawTerm};
ghost use Rattle.mw_logic.specs.Signature.{IsRawTerm};
ghost use Rattle.mw_logic.specs.Substitution.{IsSubstitution, binds, instance as instance_by};
ghost use Rattle.mw_logic.specs.Parts.{IsAdmitted};
ghost use Rattle.mw_logic.specs.NormalForm.{normal_form};
ghost use Rattle.mw_logic.specs.Module.{binds_statement};
ghost use Rattle.mw_term.specs.Raws.{raw_term};
ghost use Rattle.mw_canon.specs.Canonical.{IsAdmittedTerm, HasAdmittedValues, meant};
ghost use Rattle.mw_redex.specs.Replaced.{IsOpenWay, way_of_place};
ghost use Rattle.mw_least.specs.Workable.{AreSides};
ghost use Rattle.mw_prooftext.specs.Grounds.{spot_of};
ghost use Rattle.mw_check.specs.Parts.{StandsAt};
ghost use Rattle.mw_check.specs.Answers.{ReplacesBy, IsNext};

use crate::parts::{part_at, replaced};
use mw_canon::{CanonError, Facts, instance};
use mw_least::Ctx;
use mw_redex::{Place, is_open};
use mw_term::{Raw, Statement, Subst, Term, same};
use std::alloc::{AllocError, Global};

/// Whether the statement replaces at the place by these values: its left side's instance stands there, for a rule in no
/// frozen argument.
pub fn replaces(
    alloc: Global,
    context: &Ctx,
    statement: &Statement,
    values: &Subst,
    place: &Place,
    term: &Term,
) -> Result<bool, AllocError>
    requires sides { AreSides context.now.signature statement.now }
    requires substitution { IsSubstitution context.now.signature (meant context.now.signature values.now) }
    requires bound { IsTrue (binds_statement (meant context.now.signature values.now) statement.now) }
    requires values { HasAdmittedValues context.now.signature values.now }
    requires term { IsAdmittedTerm context.now.signature term.now }
    ensures { let sig = context.now.signature in let at = spot_of place.now in IfOk result
        (λ there. IsTrue there
        ↔ ((whole : RawTerm) × ReplacesBy sig statement.now (meant sig values.now) at term.now whole)) }
{
    context.shows();
    let Some(left) = admitted_instance(alloc, context, values, &statement.left)? else {
        return Ok(false);
    };
    let facts = context.facts();
    if !stands_at(alloc, facts, term, place, &left)? {
        return Ok(false);
    }
    is_open_at(alloc, facts, statement.rule, term, place)
}

/// The next term, where it is admitted, if the statement replaces at the place by these values.
pub fn next_term(
    alloc: Global,
    context: &Ctx,
    statement: &Statement,
    values: &Subst,
    place: &Place,
    term: &Term,
) -> Result<Option<Term>, AllocError>
    requires sides { AreSides context.now.signature statement.now }
    requires substitution { IsSubstitution context.now.signature (meant context.now.signature values.now) }
    requires bound { IsTrue (binds_statement (meant context.now.signature values.now) statement.now) }
    requires values { HasAdmittedValues context.now.signature values.now }
    requires term { IsAdmittedTerm context.now.signature term.now }
    ensures { let sig = context.now.signature in let at = spot_of place.now in IfOk result
        (λ next. (whole : RawTerm) → ReplacesBy sig statement.now (meant sig values.now) at term.now whole
        → IsNext sig whole next) }
{
    context.shows();
    let Some(right) = admitted_instance(alloc, context, values, &statement.right)? else {
        return Ok(None);
    };
    replaced(alloc, context.facts(), term, place, right)
}

/// The canonical instance of a side, where it is admitted.
fn admitted_instance(
    alloc: Global,
    context: &Ctx,
    values: &Subst,
    side: &Raw,
) -> Result<Option<Term>, AllocError>
    requires side { IsRawTerm context.now.signature (raw_term side.now) }
    requires substitution { IsSubstitution context.now.signature (meant context.now.signature values.now) }
    requires bound { IsTrue (binds (meant context.now.signature values.now) (raw_term side.now)) }
    requires values { HasAdmittedValues context.now.signature values.now }
    ensures { let sig = context.now.signature in let i = instance_by (meant sig values.now) (raw_term side.now) in
        IfOk result (λ term. MatchOption term (¬ IsAdmitted sig i)
        (λ t. (t ≡ normal_form sig i) × IsAdmittedTerm sig t)) }
{
    context.shows();
    match instance(alloc, context.facts(), values, side) {
        Ok(term) => Ok(Some(term)),
        Err(CanonError::Deep) => Ok(None),
        Err(CanonError::Nat) => Ok(None),
        Err(CanonError::Memory) => Err(AllocError),
    }
}

/// Whether a term is the part that stands at the place.
fn stands_at(
    alloc: Global,
    facts: &Facts,
    term: &Term,
    place: &Place,
    part: &Term,
) -> Result<bool, AllocError>
    ensures { IfOk result (λ there. IsTrue there ↔ StandsAt facts.now (spot_of place.now) term.now part.now) }
{
    match part_at(alloc, facts, term, place)? {
        Some(found) => Ok(same(&found, part)),
        None => Ok(false),
    }
}

/// Whether what stands at the place may be changed: by a rule where no argument on the way is frozen, and else always.
fn is_open_at(
    alloc: Global,
    facts: &Facts,
    by_rule: bool,
    term: &Term,
    place: &Place,
) -> Result<bool, AllocError>
    ensures { let way = way_of_place place.now.path place.now.take in
        IfOk result (λ free. IsTrue free ↔ IsOpenWay facts.now by_rule way term.now) }
{
    if !by_rule {
        return Ok(true);
    }
    let path = place.path.as_slice();
    match &place.take {
        None => Ok(is_open(facts, term, path)),
        Some(_) => {
            let mut way = path.to_vec(alloc)?;
            way.push(1)?;
            Ok(is_open(facts, term, way.as_slice()))
        }
    }
}
