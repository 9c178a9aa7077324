// The proper parts of a multiset that a pattern's arguments pick, one element each.
ghost use Rattle.std.specs.Prelude.{◌≡◌, false, cond, None, IfOk, IsTrue, MatchOption};
ghost use Rattle.mw_logic.specs.Terms.{terms_of};
ghost use Rattle.mw_matching.specs.Found.{Values, value_of};
ghost use Rattle.mw_match.specs.Choices.{ArePicked};
ghost use Rattle.mw_match.specs.Picks.{MayPick, HasBegunPicking};

use crate::bindings::copied;
use crate::levels::Levels;
use crate::parts::Parts;
use mw_canon::{Axioms, Facts};
use mw_compile::Compiled;
use mw_search::Positions;
use mw_term::{OpId, Seq, Term, View, copy};
use std::alloc::AllocError;

fn is_variable(pattern: &Term) -> bool
    ensures { result ≡ false → (vs : Values) → value_of pattern.now vs ≡ None }
{
    match pattern.view() {
        View::Var(_) => true,
        _ => false,
    }
}

/// Whether each of the patterns is no variable and becomes one element.
fn are_elements(facts: &Facts, positions: &Positions, operator: OpId, patterns: &[Term]) -> bool
    ensures { IsTrue result → ArePicked facts.now positions.now.single.items operator (terms_of patterns.now) }
{
    for i in 0..patterns.len() {
        let pattern = &patterns[i];
        if is_variable(pattern) {
            return false;
        }
        if !positions.is_rigid(facts, operator, pattern) {
            return false;
        }
    }
    true
}

/// Whether the arguments of a pattern pick the elements of a multiset's proper parts: two or more, but not as many as
/// there are, each of which is no variable and becomes one element.
pub fn are_picked(facts: &Facts, compiled: &Compiled, subject: &Term) -> bool
    ensures { IsTrue result → MayPick facts.now compiled.now subject.now }
{
    let View::Op(operator, elements) = subject.view() else {
        return false;
    };
    let View::Op(top, patterns) = compiled.pattern.view() else {
        return false;
    };
    let Axioms::Associative { comm, .. } = facts.axioms(operator) else {
        return false;
    };
    if !comm || top != operator || patterns.len() < 2 || patterns.len() >= elements.len() {
        return false;
    }
    are_elements(facts, &compiled.positions, operator, patterns)
}

/// The levels with which picking begins, where a pattern picks.
pub fn picks_from<'c>(
    parts: &Parts<'c>,
    given: &[Term],
    by_picks: bool,
) -> Result<Option<Levels<'c>>, AllocError>
    ensures { IfOk result (λ o. cond by_picks (MatchOption o ⊥ (HasBegunPicking parts.now given.now)) (o ≡ None)) }
{
    if !by_picks {
        return Ok(None);
    }
    let values = copied(parts.alloc, given)?;
    let subject = copy(&parts.subject)?;
    Ok(Some(Levels {
        alloc: parts.alloc,
        context: parts.context,
        compiled: parts.compiled,
        subject,
        given: given.len(),
        stack: Vec::new(parts.alloc),
        found: Some(Seq::of(values)),
    }))
}
