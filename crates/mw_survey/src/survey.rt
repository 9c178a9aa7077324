// What of the free elements was looked at.
ghost use Rattle.std.specs.Prelude.{Option, ◌≡◌, ◌≤◌, ◌<◌, ◌++◌, ◌∷◌, ℕ, List, [], None, Some, length, map, IfOk, OnOk, IfSome, slice_get, suc, IsTrue, IsFalse, MatchOption, ⊤};
ghost use Rattle.mw_logic.specs.Term.{RawTerm};
ghost use Rattle.mw_logic.specs.Module.{Module};
ghost use Rattle.mw_logic.specs.Terms.{terms_of};
ghost use Rattle.mw_logic.specs.TermOrder.{sorted_terms};
ghost use Rattle.mw_index.specs.Index.{AreRulesOf, IsOf};
ghost use Rattle.mw_index.specs.Choices.{Tried, tried_of};
ghost use Rattle.mw_index.specs.declared.index.Rule.{Rule as RuleOf};
ghost use Rattle.mw_canon.specs.Canonical.{IsAdmittedTerm};
ghost use Rattle.mw_multiset.specs.Together.{IsOfMultisets, together, AreMembers};
ghost use Rattle.mw_world.specs.World.{Try};
ghost use Rattle.mw_survey.specs.Surveys.{IsPassed, Covers};
ghost use Rattle.mw_survey.specs.Asked.{term_of, parts_in, IsSubject, AreAskedAt, AreAllAskedAt, AreTermValues, IsFoundAmong, IsSurveyWith, IsSurveyOf, IsWholeOf};

use crate::parts::{Part, copied, parts_of, spots_on, whole_of};
use mw_index::Rule;
use mw_least::Ctx;
use mw_redexes::{Found, Redexes};
use mw_term::{OpId, Term};
use std::alloc::{AllocError, Global};

/// A survey of elements that are free.
#[derive(Drop)]
pub struct Survey<'m> {
    /// The elements with which it began.
    pub(crate) all: Vec<Term>,
    /// The subject that is asked: 0 is the whole, the others are the elements.
    pub(crate) at: usize,
    /// Its parts.
    pub(crate) parts: Vec<Part>,
    redexes: Redexes<'m>,
    /// What was answered last.
    pub(crate) found: Option<Found<'m>>,
    /// Whether an element came since.
    came: bool,
}

impl<'m> Survey<'m> {
    /// It begins with copies of these elements, which stand in order.
    pub fn begin(
        alloc: Global,
        context: &Ctx,
        operator: OpId,
        free: &[Term],
    ) -> Result<Survey<'m>, AllocError>
        requires of { IsOfMultisets context.now operator }
        requires order { sorted_terms (terms_of free.now) ≡ terms_of free.now }
        requires members { AreMembers context.now.signature operator free.now }
        requires admitted { (free.now ≡ [] → ⊥)
            → IsAdmittedTerm context.now.signature (together context.now.signature operator free.now) }
        ensures came { IfOk result (λ s. IsFalse s.came) }
        ensures is { (rules : List RuleOf) (tries : List Try) → IfOk result (IsSurveyOf context.now operator rules tries free.now) }
    {
        context.shows();
        let whole = whole_of(alloc, context.facts(), operator, free)?;
        let all = copied(alloc, free)?;
        Survey::of(alloc, all, whole)
    }

    /// The same with the whole of the elements, where they are two or more.
    fn of(alloc: Global, all: Vec<Term>, whole: Option<Term>) -> Result<Survey<'m>, AllocError>
        ensures came { IfOk result (λ s. IsFalse s.came) }
        ensures is { (M : Module) (f : ℕ) (rules : List RuleOf) (tries : List Try) → AreMembers M.signature f all.items
            → ((all.items ≡ [] → ⊥) → IsAdmittedTerm M.signature (together M.signature f all.items)) → IsWholeOf M.signature f all.items whole
            → IfOk result (IsSurveyOf M f rules tries all.items) }
    {
        let mut parts = Vec::new(alloc);
        if let Some(term) = whole {
            parts.push(Part {
                term,
                parent: 0,
                number: 0,
            })?;
        }
        let redexes = Redexes::new(alloc);
        Ok(Survey {
            all,
            at: 0,
            parts,
            redexes,
            found: None,
            came: false,
        })
    }

    /// An element came.
    pub fn comes(&mut self)
        ensures { IsTrue self.new.came }
    {
        self.came = true;
    }

    /// Whether one came.
    pub fn came(&self) -> bool
        ensures { result ≡ self.now.came }
    {
        self.came
    }

    /// The choice that was answered last, at a part of the present subject.
    pub fn found(&self) -> Option<&Found<'m>>
        ensures { MatchOption result (self.now.found ≡ None) (λ x. self.now.found ≡ Some x.now) }
    {
        match &self.found {
            Some(found) => Some(found),
            None => None,
        }
    }

    /// The element that a claim of it takes; none where it takes elements of its own at the whole.
    pub fn element(&self) -> Option<&Term>
        ensures { MatchOption result ⊤ (λ x. (i : ℕ) × (self.now.at ≡ suc i) × (slice_get self.now.all.items i ≡ Some x.now)) }
    {
        if self.at == 0 {
            return None;
        }
        self.all.get(self.at - 1)
    }

    /// The parts of the present subject.
    pub fn parts(&self) -> &[Part]
        ensures { result.now ≡ self.now.parts.items }
    {
        self.parts.as_slice()
    }

    /// The next choice at the present subject.
    fn ask(
        &mut self,
        alloc: Global,
        context: &'m Ctx,
        rules: &'m [Rule],
    ) -> Result<Option<Found<'m>>, AllocError>
        requires { AreRulesOf context.now rules.now }
        ensures same { (self.new.all ≡ self.old.all) × (self.new.at ≡ self.old.at) × (self.new.parts ≡ self.old.parts) × (self.new.found ≡ self.old.found) × (self.new.came ≡ self.old.came) }
        ensures of { IfOk result (λ o. IfSome o (λ x. (top : Option ℕ) × IsOf context.now top x.choice.by.now)) }
        ensures is { let M = context.now in let ts = map term_of self.old.parts.items in (tried : List Tried) → AreTermValues M ts → AreAskedAt M rules.now ts tried self.old.redexes
            → IfOk result (λ o. MatchOption o (AreAllAskedAt M rules.now ts tried)
            (λ x. IsFoundAmong M ts x × AreAskedAt M rules.now ts (tried ++ tried_of x.choice ∷ []) self.new.redexes)) }
    {
        let spots = spots_on(alloc, self.parts.as_slice())?;
        self.redexes.next(alloc, context, rules, spots.as_slice())
    }

    /// The next subject comes.
    fn turn(&mut self, alloc: Global, context: &'m Ctx, rules: &'m [Rule]) -> Result<(), AllocError>
        requires rules { AreRulesOf context.now rules.now }
        requires there { self.old.at ≤ length self.old.all.items }
        ensures is { let M = context.now in (f : ℕ) (tries : List Try) (free : List RawTerm) (passed : List Tried) → IsOfMultisets M f
            → Covers M f tries free self.old.all.items self.old.at passed → IsSubject M f rules.now self.old.all.items self.old.at (parts_in self.old)
            → AreAllAskedAt M rules.now (parts_in self.old) passed → OnOk result (IsSurveyWith M f rules.now tries free [] self.new) }
        ensures came { self.new.came ≡ self.old.came }
    {
        context.shows();
        let parts = match self.all.get(self.at) {
            Some(element) => parts_of(alloc, context.facts(), rules, element)?,
            None => Vec::new(alloc),
        };
        self.parts = parts;
        self.redexes = Redexes::new(alloc);
        self.found = None;
        self.at = self.at.saturating_add(1);
        Ok(())
    }

    /// Whether there is a choice that wasn't passed over. After an error it has to begin anew.
    pub fn look(
        &mut self,
        alloc: Global,
        context: &'m Ctx,
        rules: &'m [Rule],
    ) -> Result<bool, AllocError>
        requires { AreRulesOf context.now rules.now }
        ensures is { let M = context.now in (f : ℕ) (tries : List Try) (free : List RawTerm) → IsOfMultisets M f → IsSurveyOf M f rules.now tries free self.old
            → OnOk result (IsSurveyOf M f rules.now tries free self.new) }
        ensures some { IfOk result (λ b. IsTrue b → MatchOption self.new.found ⊥ (λ _. ⊤)) }
        ensures none { IfOk result (λ b. IsFalse b → length self.new.all.items < self.new.at) }
        ensures came { self.new.came ≡ self.old.came }
    {
        context.shows();
        let mut rounds = u64::MAX;
        while rounds > 0 {
            rounds -= 1;
            if self.found.is_some() {
                return Ok(true);
            }
            if self.at > self.all.len() {
                return Ok(false);
            }
            match self.ask(alloc, context, rules)? {
                Some(found) => {
                    self.found = Some(found);
                }
                None => self.turn(alloc, context, rules)?,
            }
        }
        Err(AllocError)
    }

    /// The last choice is passed over.
    pub fn pass(&mut self)
        ensures is { (M : Module) (f : ℕ) (rules : List RuleOf) (tries : List Try) (free : List RawTerm) → IsSurveyOf M f rules tries free self.old
            → IfSome self.old.found (λ x. IsPassed M f tries free self.old.all.items self.old.at (tried_of x.choice)) → IsSurveyOf M f rules tries free self.new }
        ensures came { self.new.came ≡ self.old.came }
    {
        self.found = None;
    }
}
