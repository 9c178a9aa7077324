// One step by a rule, at a part of a normal term.
ghost use Rattle.std.specs.Prelude.{◌≡◌, ◌≤◌, ◌⊎◌, ◌++◌, ℕ, List, true, false, Some, None, length, slice_get, IfOk, MatchOption};
ghost use Rattle.mw_logic.specs.Term.{RawTerm};
ghost use Rattle.mw_logic.specs.Terms.{terms_of};
ghost use Rattle.mw_logic.specs.NormalForm.{height, has_largest, some_largest};
ghost use Rattle.mw_logic.specs.Signature.{Signature};
ghost use Rattle.mw_canon.specs.Canonical.{IsAdmittedTerm};
ghost use Rattle.mw_pattern.specs.Clean.{clean};
ghost use Rattle.mw_matching.specs.Matches.{evaluated};
ghost use Rattle.mw_redex.specs.Paths.{at_path};
ghost use Rattle.mw_redex.specs.Replaced.{IsOpenWay, replaced_at};
ghost use Rattle.mw_frames.specs.State.{with_rules, Holds};
ghost use Rattle.mw_frames.specs.Machines.{data_of};
ghost use Rattle.mw_reduce.specs.Evaluations.{run_of};
ghost use Rattle.mw_redexes.specs.Spots.{AreWays};
ghost use Rattle.mw_rule.specs.Applications.{IsApplicable, IsPast, IsStepTo, IsStepBy};
ghost use Rattle.mw_redexes.specs.declared.spots.Spot.{Spot as SpotOf};

use crate::rewriting::fire_at;
use mw_canon::{CanonError, Facts};
use mw_frames::{Fired, Hand, Machine, instance, stop};
use mw_index::Choice;
use mw_least::Ctx;
use mw_pattern::Pattern;
use mw_proof::Proved;
use mw_redex::{Place, replace};
use mw_redexes::{Found, Spot, arguments};
use mw_term::{Seq, Term, copy, numbered, same};
use mw_trail::Trail;
use std::alloc::{AllocError, Global};

/// What comes of a rule that is applied.
#[derive(Drop)]
pub enum OneStep<'m> {
    Made(Proved<'m>),
    /// The whole would be too deep.
    Deep,
    /// A number in it would be too large, and it isn't too deep.
    Nat,
}

/// The parts on a way, from the whole on.
fn along<'t>(alloc: Global, term: &'t Term, path: &[u32]) -> Result<Vec<Spot<'t>>, AllocError>
    ensures { (sig : Signature) (end : RawTerm) (rest : List ℕ) → at_path term.now path.now ≡ Some end → IsOpenWay sig true (path.now ++ rest) term.now
        → IfOk result (λ spots. AreWays sig term.now spots.items × ((s : SpotOf) × (slice_get spots.items (length path.now) ≡ Some s) × (s.term.now ≡ end))) }
{
    let mut spots = Vec::new(alloc);
    spots.push(Spot {
        term,
        parent: 0,
        number: 0,
    })?;
    let mut here = term;
    for i in 0..path.len() {
        let number = path[i];
        let Some(argument) = numbered(arguments(here), number) else {
            return Err(AllocError);
        };
        spots.push(Spot {
            term: argument,
            parent: i,
            number,
        })?;
        here = argument;
    }
    Ok(spots)
}

/// The term with the instance of a pattern at a place; none where the one or the other is past the limits.
fn replaced(
    alloc: Global,
    facts: &Facts,
    term: &Term,
    place: &Place,
    right: &Pattern,
    values: &[Term],
) -> Result<Option<Term>, AllocError>
    requires term { IsAdmittedTerm facts.now term.now }
    requires small { some_largest facts.now (terms_of values.now) ≡ false }
    requires instance { let x = evaluated facts.now values.now (clean right.now) in height x ≤ 1000 → has_largest facts.now x ≡ false → IsAdmittedTerm facts.now x }
    ensures { let x = evaluated facts.now values.now (clean right.now) in let u = replaced_at facts.now place.now.path place.now.take x term.now in
        IfOk result (λ o. MatchOption o (IsPast facts.now x ⊎ IsPast facts.now u) (λ w. w ≡ u)) }
{
    let with = match instance(alloc, facts, right, values) {
        Ok(with) => with,
        Err(CanonError::Memory) => return Err(AllocError),
        Err(_) => return Ok(None),
    };
    match replace(alloc, facts, term, place, with) {
        Ok(whole) => Ok(Some(whole)),
        Err(CanonError::Memory) => Err(AllocError),
        Err(_) => Ok(None),
    }
}

/// The one step that was made, where it leads to this whole.
fn made<'m>(
    alloc: Global,
    context: &'m Ctx,
    machine: Machine<'m>,
    hand: Hand<'m>,
    term: &Term,
    whole: Option<Term>,
) -> Result<OneStep<'m>, AllocError>
    requires term { IsAdmittedTerm context.now.signature term.now }
    requires holds { let M = context.now in Holds (with_rules 1 (run_of M 63 term.now)) 1 (data_of M machine) hand }
    ensures { IfOk result (λ s. (u : RawTerm) × (whole ≡ Some u) × IsStepTo context.now term.now u s) }
{
    context.shows();
    let mut machine = machine;
    let end = stop(alloc, context.facts(), &mut machine, hand)?;
    let Some(whole) = whole else {
        return Err(AllocError);
    };
    // it is: the machine leaves what was made beside it
    if !same(&end, &whole) {
        return Err(AllocError);
    }
    let Machine { kept, .. } = machine;
    let proved = Proved::of(context, 63, copy(term)?, end, kept);
    Ok(OneStep::Made(proved))
}

/// The rule isn't applied, where there is no whole that it leads to.
fn refused<'m>(whole: Option<Term>, step: OneStep<'m>) -> Result<OneStep<'m>, AllocError>
    ensures { IfOk result (λ s. (s ≡ step.entry) × (whole ≡ None)) }
{
    match whole {
        Some(_) => Err(AllocError),
        None => Ok(step),
    }
}

/// A rule is applied to a normal term, at the end of a path: what it takes there, and by which values, the choice says,
/// which `try_choice` of mw_reduce completes, with the trails that show its condition. The proof has this one step.
pub fn apply<'m>(
    alloc: Global,
    context: &'m Ctx,
    term: &Term,
    path: Seq<u32>,
    choice: Choice<'m>,
    sides: Vec<Trail>,
) -> Result<OneStep<'m>, AllocError>
    requires { IsApplicable context.now term.now path choice sides.items }
    ensures { IfOk result (IsStepBy context.now term.now path choice.entry) }
{
    context.shows();
    let Choice { by, values, take } = choice;
    let place = Place { path, take };
    let facts = context.facts();
    let whole = replaced(alloc, facts, term, &place, &by.right, values.as_slice())?;
    let Place { path, take } = place;
    let spots = along(alloc, term, path.as_slice())?;
    let found = Found {
        at: path.as_slice().len(),
        choice: Choice { by, values, take },
    };
    let mut machine = Machine::new(alloc);
    match fire_at(alloc, context, &mut machine, spots.as_slice(), found, sides)? {
        Fired::Goes(hand) => made(alloc, context, machine, hand, term, whole),
        Fired::TooDeep(_) => refused(whole, OneStep::Deep),
        Fired::TooLarge(_) => refused(whole, OneStep::Nat),
    }
}
