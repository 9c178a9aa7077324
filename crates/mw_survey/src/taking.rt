// What a claim of the choice that waits takes.
ghost use Rattle.std.specs.Prelude.{◌≡◌, ◌<◌, ℕ, List, None, Some, IfOk, MatchOption, length, option_map, slice_get, ⊤};
ghost use Rattle.mw_logic.specs.Term.{RawTerm};
ghost use Rattle.mw_logic.specs.Signature.{Signature};
ghost use Rattle.mw_index.specs.Index.{AreRulesOf};
ghost use Rattle.mw_index.specs.declared.index.Rule.{Rule as RuleOf};
ghost use Rattle.mw_redex.specs.Replaced.{IsTaken};
ghost use Rattle.mw_multiset.specs.Together.{IsOfMultisets};
ghost use Rattle.mw_world.specs.World.{Try};
ghost use Rattle.mw_survey.specs.Asked.{AreWaysOn, IsSurveyOf};
ghost use Rattle.mw_survey.specs.Takings.{IsAgain, IsAtWhole, IsAtElement, IsTakenBy};
ghost use Rattle.mw_survey.specs.declared.parts.Part.{Part as PartOf};

use crate::parts::{Part, copied, several, spots_on};
use crate::survey::Survey;
use mw_canon::Facts;
use mw_index::Choice;
use mw_least::Ctx;
use mw_redexes::{Found, way_to};
use mw_term::{Seq, Term, copy};
use std::alloc::{AllocError, Global};

/// A part to be claimed, and where in it a rule applies.
#[derive(Drop)]
pub struct Taken<'m> {
    pub part: Term,
    pub path: Seq<u32>,
    pub choice: Choice<'m>,
}

/// Numbers of arguments again.
fn numbers_again(alloc: Global, numbers: &[u32]) -> Result<Seq<u32>, AllocError>
    ensures { IfOk result (λ s. s ≡ numbers.now) }
{
    let mut items = Vec::with_capacity(alloc, numbers.len())?;
    items.extend_from_slice(numbers)?;
    Ok(Seq::of(items))
}

/// The same rule and values, with these numbers.
fn again<'m>(
    alloc: Global,
    choice: &Choice<'m>,
    take: Option<Seq<u32>>,
) -> Result<Choice<'m>, AllocError>
    ensures { IfOk result (IsAgain take choice.now) }
{
    let values = copied(alloc, choice.values.as_slice())?;
    Ok(Choice {
        by: choice.by,
        values,
        take,
    })
}

/// What a choice takes of the whole is a part of its own.
fn at_whole<'m>(
    alloc: Global,
    facts: &Facts,
    whole: &Term,
    choice: &Choice<'m>,
) -> Result<Taken<'m>, AllocError>
    requires { (w : RawTerm) × IsTaken facts.now choice.now.take whole.now w }
    ensures { (w : RawTerm) → IsTaken facts.now choice.now.take whole.now w → IfOk result (IsAtWhole w choice.now) }
{
    let choice_again = again(alloc, choice, None)?;
    let part = match &choice.take {
        Some(numbers) => several(alloc, facts, whole, numbers.as_slice())?,
        None => copy(whole)?,
    };
    let path = Seq::of(Vec::new(alloc));
    Ok(Taken {
        part,
        path,
        choice: choice_again,
    })
}

/// A choice at a part of an element, by the way from the element.
fn at_element<'m>(
    alloc: Global,
    element: &Term,
    parts: &[Part],
    found: &Found<'m>,
) -> Result<Taken<'m>, AllocError>
    requires ways { (sig : Signature) × AreWaysOn sig element.now parts.now }
    requires there { found.now.at < length parts.now }
    ensures { (sig : Signature) (p : PartOf) → AreWaysOn sig element.now parts.now → slice_get parts.now found.now.at ≡ Some p
        → IfOk result (IsAtElement sig element.now p.term found.now.choice) }
{
    let spots = spots_on(alloc, parts)?;
    let take = match &found.choice.take {
        Some(numbers) => Some(numbers_again(alloc, numbers.as_slice())?),
        None => None,
    };
    let choice = again(alloc, &found.choice, take)?;
    let path = way_to(alloc, spots.as_slice(), found.at)?;
    let part = copy(element)?;
    Ok(Taken { part, path, choice })
}

impl<'m> Survey<'m> {
    /// What a claim of the choice that waits takes: the element, or the elements that the choice takes of the whole, as
    /// a term.
    pub fn taken(&self, alloc: Global, context: &Ctx) -> Result<Taken<'m>, AllocError>
        requires waits { MatchOption self.now.found ⊥ (λ _. ⊤) }
        requires is { (f : ℕ) × (rules : List RuleOf) × (tries : List Try) × (free : List RawTerm)
            × IsOfMultisets context.now f × AreRulesOf context.now rules × IsSurveyOf context.now f rules tries free self.now }
        ensures { (f : ℕ) (rules : List RuleOf) (tries : List Try) (free : List RawTerm)
            → IsOfMultisets context.now f → AreRulesOf context.now rules → IsSurveyOf context.now f rules tries free self.now
            → IfOk result (IsTakenBy context.now f self.now) }
    {
        context.shows();
        let found = match &self.found {
            Some(found) => found,
            None => unreachable!(),
        };
        if self.at == 0 {
            let whole = &self.parts[found.at].term;
            return at_whole(alloc, context.facts(), whole, &found.choice);
        }
        let element = &self.all[self.at - 1];
        at_element(alloc, element, self.parts.as_slice(), found)
    }
}
