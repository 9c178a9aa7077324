// The solutions of a pattern.
ghost use Rattle.std.specs.Prelude.{◌≡◌, ◌∷◌, ◌++◌, ℕ, [], true, false, cond, length, Some, IfOk, OnErr, MatchOption, ⊤};
ghost use Rattle.mw_logic.specs.NormalForm.{normal_form};
ghost use Rattle.mw_logic.specs.Signature.{IsRawTerm};
ghost use Rattle.mw_logic.specs.Substitution.{IsSubstitution, Substitution};
ghost use Rattle.mw_logic.specs.Term.{RawTerm};
ghost use Rattle.mw_position.specs.Variables.{bound_variables, bound_values, sorts_of};
ghost use Rattle.mw_canon.specs.Canonical.{meant};
ghost use Rattle.mw_solving.specs.Values.{IsValue, AreValues};
ghost use Rattle.mw_compile.specs.Compiled.{IsCompiled};
ghost use Rattle.mw_match.specs.Solutions.{AreNamed, IsAllSolutions, FitsSorts, PassesTo};
ghost use Rattle.mw_match.specs.Hands.{IsKept, IsHeld, IsNext, IsNoneByNumber, ArePicking, coming_with, first_entries, hand_entries, pick_entries, picked_entries};
ghost use Rattle.mw_match.specs.Levels.{AreKept};
ghost use Rattle.mw_match.specs.declared.parts.Parts.{Parts as PartsOf};
ghost use Rattle.mw_match.specs.declared.parts.Rest.{Rest as RestOf};

use crate::bindings::{copied, values_of};
use crate::hand::Hand;
use crate::levels::Levels;
use crate::parts::{Parts, Place, rest_unless};
use crate::picks::{are_picked, picks_from};
use mw_compile::Compiled;
use mw_least::Ctx;
use mw_search::Search;
use mw_term::{Seq, Subst, Term, copy};
use std::alloc::{AllocError, Global};
use std::marker::Model;

/// A solution: a value for each variable, those that were given first, in their order. `take` says which arguments of
/// the subject's top operator it is of, where it is not of the whole.
#[derive(Drop)]
pub struct Solution {
    pub subst: Subst,
    pub take: Option<Seq<u32>>,
}

/// The solutions of a pattern, one by one. Contracts see candidates for those that are still to come.
#[derive(Drop)]
pub struct Solutions<'c> {
    parts: Parts<'c>,
    given: usize,
    hand: Option<Hand<'c>>,
    picks: Option<Levels<'c>>,
}

impl<'c> Model for Solutions<'c> {
    ghost use Rattle.std.specs.Coded.{codes};
    ghost use Rattle.mw_logic.specs.TermCode.{coded_term, coded_variable};
    ghost use Rattle.mw_match.specs.Solutions.{Coming};

    ghost Value = { Coming };

    ghost coded = { Prim.hlevel (codes, coded_term, coded_variable) };

    ghost use Rattle.mw_match.specs.Hands.{coming_with, AreHeld, entries_left};

    ghost view = { λ s. coming_with s.parts s.given (entries_left s.parts s.hand s.picks) };

    ghost invariant = { λ s. AreHeld s.parts s.given s.hand s.picks };
}

/// The search for the whole term.
fn whole<'c>(parts: &Parts<'c>, given: &[Term]) -> Result<Hand<'c>, AllocError>
    requires sorts { parts.now.compiled.now.positions.sorts ≡ sorts_of parts.now.compiled.now.variables }
    requires given { (r : RestOf) → parts.now.rest ≡ Some r → length given.now ≡ length r.given }
    ensures kept { IfOk result (IsKept parts.now) }
    ensures given { IfOk result (λ h. h.search.given ≡ length given.now) }
    ensures first { IfOk result (λ h. hand_entries parts.now (Some h) ≡ first_entries parts.now given.now) }
{
    let compiled = parts.compiled;
    let pattern = copy(&compiled.pattern)?;
    let subject = copy(&parts.subject)?;
    let given = copied(parts.alloc, given)?;
    let search = Search::new(
        parts.alloc,
        parts.context,
        &compiled.positions,
        pattern,
        subject,
        given,
    )?;
    Ok(Hand {
        place: Place::Whole,
        search,
        found: None,
    })
}

/// The search for the whole term, or the one behind it where the number of elements tells that it has no match, if
/// there is one.
fn first<'c>(parts: &Parts<'c>, given: &[Term]) -> Result<Option<Hand<'c>>, AllocError>
    requires sorts { parts.now.compiled.now.positions.sorts ≡ sorts_of parts.now.compiled.now.variables }
    requires given { (r : RestOf) → parts.now.rest ≡ Some r → length given.now ≡ length r.given }
    ensures held { IfOk result (IsHeld parts.now (length given.now)) }
    ensures first { IsNoneByNumber parts.now given.now
        → IfOk result (λ o. hand_entries parts.now o ≡ first_entries parts.now given.now) }
{
    if parts.has_other_number() {
        let Some((place, search)) = parts.next_search(Place::Whole)? else {
            return Ok(None);
        };
        return Ok(Some(Hand {
            place,
            search,
            found: None,
        }));
    }
    let hand = whole(parts, given)?;
    Ok(Some(hand))
}

/// The solutions that the searches for a term and its parts give, and those that are picked.
fn begin<'c>(parts: Parts<'c>, given: &[Term], by_picks: bool) -> Result<Solutions<'c>, AllocError>
    requires sorts { parts.compiled.now.positions.sorts ≡ sorts_of parts.compiled.now.variables }
    requires given { (r : RestOf) → parts.rest ≡ Some r → length given.now ≡ length r.given }
    ensures { IsNoneByNumber parts.entry given.now → IfOk result (λ s. s ≡ coming_with parts.entry (length given.now)
        (first_entries parts.entry given.now ++ cond by_picks (picked_entries parts.entry given.now) [])) }
{
    let hand = first(&parts, given)?;
    let picks = picks_from(&parts, given, by_picks)?;
    Ok(Solutions {
        parts,
        given: given.len(),
        hand,
        picks,
    })
}

/// The next solution of a search that may have ended.
fn next_at_hand<'c>(
    parts: &Parts<'c>,
    hand: &mut Option<Hand<'c>>,
) -> Result<Option<Solution>, AllocError>
    requires { MatchOption hand.old ⊤ (IsKept parts.now) }
    ensures ok { (n : ℕ) → IsHeld parts.now n hand.old
        → IfOk result (IsNext (coming_with parts.now n (hand_entries parts.now hand.old))
        (coming_with parts.now n (hand_entries parts.now hand.new))) }
    ensures err { (n : ℕ) → IsHeld parts.now n hand.old
        → OnErr result (PassesTo (coming_with parts.now n (hand_entries parts.now hand.old))
        (coming_with parts.now n (hand_entries parts.now hand.new)).candidates) }
    ensures held { (n : ℕ) → IsHeld parts.now n hand.old → IsHeld parts.now n hand.new }
{
    match hand {
        Some(hand) => hand.next(parts),
        None => Ok(None),
    }
}

/// The next solution of those that are picked, where there are picks.
fn next_picked(picks: &mut Option<Levels<'_>>) -> Result<Option<Solution>, AllocError>
    requires { MatchOption picks.old ⊤ AreKept }
    ensures ok { (p : PartsOf) (n : ℕ) → MatchOption picks.old ⊤ (ArePicking p n)
        → IfOk result (IsNext (coming_with p n (pick_entries picks.old)) (coming_with p n (pick_entries picks.new))) }
    ensures err { (p : PartsOf) (n : ℕ) → MatchOption picks.old ⊤ (ArePicking p n)
        → OnErr result (PassesTo (coming_with p n (pick_entries picks.old))
        (coming_with p n (pick_entries picks.new)).candidates) }
    ensures picking { (p : PartsOf) (n : ℕ) → MatchOption picks.old ⊤ (ArePicking p n)
        → MatchOption picks.new ⊤ (ArePicking p n) }
{
    match picks {
        Some(levels) => levels.next(),
        None => Ok(None),
    }
}

/// The solutions for a subject and for its proper parts on top.
fn in_parts<'c>(
    alloc: Global,
    context: &'c Ctx,
    compiled: &'c Compiled,
    subject: &Term,
    given: &[Term],
) -> Result<Solutions<'c>, AllocError>
    requires { compiled.now.positions.sorts ≡ sorts_of compiled.now.variables }
    ensures all { let sig = context.now.signature in
        (p : RawTerm) (s0 : Substitution) → bound_values s0 ≡ given.now
        → IsRawTerm sig p → IsCompiled sig (normal_form sig p) (bound_variables s0) compiled.now
        → IsValue sig subject.now
        → IsSubstitution sig (meant sig s0) → AreValues sig given.now
        → IfOk result (IsAllSolutions sig true p subject.now (meant sig s0)) }
    ensures named { let sig = context.now.signature in
        (p : RawTerm) (s0 : Substitution) → bound_values s0 ≡ given.now
        → IsRawTerm sig p → IsCompiled sig (normal_form sig p) (bound_variables s0) compiled.now
        → IsValue sig subject.now
        → IsSubstitution sig (meant sig s0) → AreValues sig given.now
        → IfOk result (AreNamed sig compiled.now.variables) }
{
    context.shows();
    let by_picks = are_picked(context.facts(), compiled, subject);
    let rest = rest_unless(by_picks, alloc, context.facts(), compiled, subject, given)?;
    let subject = copy(subject)?;
    let parts = Parts {
        alloc,
        context,
        compiled,
        subject,
        rest,
    };
    let solutions = begin(parts, given, by_picks)?;
    Ok(solutions)
}

impl<'c> Solutions<'c> {
    /// The solutions of a compiled pattern for a subject that extend a substitution.
    pub fn new(
        alloc: Global,
        context: &'c Ctx,
        compiled: &'c Compiled,
        subject: &Term,
        given: &Subst,
    ) -> Result<Solutions<'c>, AllocError>
        requires { compiled.now.positions.sorts ≡ sorts_of compiled.now.variables }
        ensures all { let sig = context.now.signature in
            (p : RawTerm) → IsRawTerm sig p → IsCompiled sig (normal_form sig p) (bound_variables given.now) compiled.now
            → IsValue sig subject.now
            → IsSubstitution sig (meant sig given.now) → AreValues sig (bound_values given.now)
            → IfOk result (IsAllSolutions sig false p subject.now (meant sig given.now)) }
        ensures named { let sig = context.now.signature in
            (p : RawTerm) → IsRawTerm sig p → IsCompiled sig (normal_form sig p) (bound_variables given.now) compiled.now
            → IsValue sig subject.now
            → IsSubstitution sig (meant sig given.now) → AreValues sig (bound_values given.now)
            → IfOk result (AreNamed sig compiled.now.variables) }
    {
        context.shows();
        let values = values_of(alloc, given)?;
        let subject = copy(subject)?;
        let parts = Parts {
            alloc,
            context,
            compiled,
            subject,
            rest: None,
        };
        let solutions = begin(parts, values.as_slice(), false)?;
        Ok(solutions)
    }

    /// The solutions of a compiled pattern that extend a substitution, for a subject and for its proper parts on top:
    /// two or more arguments of its associative operator and not all of them, neighbours where it isn't commutative,
    /// and where it is each part once, of equal arguments the first.
    pub fn inside(
        alloc: Global,
        context: &'c Ctx,
        compiled: &'c Compiled,
        subject: &Term,
        given: &Subst,
    ) -> Result<Solutions<'c>, AllocError>
        requires { compiled.now.positions.sorts ≡ sorts_of compiled.now.variables }
        ensures all { let sig = context.now.signature in
            (p : RawTerm) → IsRawTerm sig p → IsCompiled sig (normal_form sig p) (bound_variables given.now) compiled.now
            → IsValue sig subject.now
            → IsSubstitution sig (meant sig given.now) → AreValues sig (bound_values given.now)
            → IfOk result (IsAllSolutions sig true p subject.now (meant sig given.now)) }
        ensures named { let sig = context.now.signature in
            (p : RawTerm) → IsRawTerm sig p → IsCompiled sig (normal_form sig p) (bound_variables given.now) compiled.now
            → IsValue sig subject.now
            → IsSubstitution sig (meant sig given.now) → AreValues sig (bound_values given.now)
            → IfOk result (AreNamed sig compiled.now.variables) }
    {
        let values = values_of(alloc, given)?;
        let solutions = in_parts(alloc, context, compiled, subject, values.as_slice())?;
        Ok(solutions)
    }

    /// The solutions of a compiled pattern for a subject and for its proper parts on top, as `inside` has them, where no
    /// values are given.
    pub fn anywhere(
        alloc: Global,
        context: &'c Ctx,
        compiled: &'c Compiled,
        subject: &Term,
    ) -> Result<Solutions<'c>, AllocError>
        requires { compiled.now.positions.sorts ≡ sorts_of compiled.now.variables }
        ensures all { let sig = context.now.signature in
            (p : RawTerm) → IsRawTerm sig p → IsCompiled sig (normal_form sig p) [] compiled.now
            → IsValue sig subject.now → IfOk result (IsAllSolutions sig true p subject.now []) }
        ensures named { let sig = context.now.signature in
            (p : RawTerm) → IsRawTerm sig p → IsCompiled sig (normal_form sig p) [] compiled.now
            → IsValue sig subject.now → IfOk result (AreNamed sig compiled.now.variables) }
    {
        in_parts(alloc, context, compiled, subject, &[])
    }

    /// The next solution; none where there is none, and for ever after. Candidates that aren't solutions are passed
    /// over.
    pub fn next(&mut self) -> Result<Option<Solution>, AllocError>
        ensures ok { IfOk result (λ o. MatchOption o (PassesTo self.old [] × (self.new.candidates ≡ []))
            (λ r. PassesTo self.old (r ∷ self.new.candidates) × FitsSorts self.old r)) }
        ensures err { OnErr result (PassesTo self.old self.new.candidates) }
        ensures same { self.new ≡ record self.old { candidates = self.new.candidates } }
    {
        let found = next_at_hand(&self.parts, &mut self.hand)?;
        if found.is_some() {
            return Ok(found);
        }
        next_picked(&mut self.picks)
    }
}
