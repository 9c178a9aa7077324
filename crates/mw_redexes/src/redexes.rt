// Where rules apply, one choice after another.
ghost use Rattle.std.specs.Prelude.{◌≡◌, ◌∷◌, ◌++◌, ℕ, List, [], Option, Some, slice_get, IfOk, IfSome, MatchOption};
ghost use Rattle.mw_logic.specs.Signature.{Member};
ghost use Rattle.mw_logic.specs.Module.{Module};
ghost use Rattle.mw_index.specs.Index.{AreRulesOf, IsRuleOf, IsOf};
ghost use Rattle.mw_index.specs.Choices.{Tried, tried_of};
ghost use Rattle.mw_solving.specs.Values.{IsValue};
ghost use Rattle.mw_redexes.specs.Redexes.{AreValuesAt, IsFoundAt, IsFoundIn, IsAskedThere, AreTriedOpen, AreBehind, AreAsked, AreAllAsked};
ghost use Rattle.mw_redexes.specs.declared.spots.Spot.{Spot as SpotOf};
ghost use Rattle.mw_index.specs.declared.index.Rule.{Rule as RuleOf};

use crate::spots::Spot;
use mw_index::{Choice, Choices, Rule, Subject};
use mw_least::Ctx;
use mw_redex::is_open;
use mw_term::Term;
use std::alloc::{AllocError, Global};

/// A choice of a rule, and the number of the part at which it is, from 0.
#[derive(Drop)]
pub struct Found<'m> {
    pub at: usize,
    pub choice: Choice<'m>,
}

/// How far rules were asked: which rule is next, at which part.
#[derive(Drop)]
pub struct Redexes<'m> {
    rule: usize,
    at: usize,
    choices: Choices<'m>,
}

impl<'m> Redexes<'m> {
    /// None was asked.
    pub fn new(alloc: Global) -> Redexes<'m>
        ensures { (M : Module) (rules : List RuleOf) (spots : List SpotOf) → AreAsked M rules spots [] result }
    {
        let mut choices = Choices::new(alloc);
        choices.again();
        Redexes {
            rule: 0,
            at: 0,
            choices,
        }
    }

    /// The next choice of a rule at a part. What takes several arguments that rules may not change is left aside.
    fn ask(
        &mut self,
        alloc: Global,
        context: &'m Ctx,
        rule: &'m Rule,
        term: &Term,
    ) -> Result<Option<Choice<'m>>, AllocError>
        requires { IsRuleOf context.now rule.now }
        ensures of { IfOk result (λ o. IfSome o (λ c. (top : Option ℕ) × IsOf context.now top c.by.now)) }
        ensures places { (self.new.rule ≡ self.old.rule) × (self.new.at ≡ self.old.at) }
        ensures is { let M = context.now in (tried : List Tried) → IsValue M.signature term.now → IsAskedThere M term.now rule.now tried self.old.choices
            → IfOk result (λ o. MatchOption o (AreTriedOpen M term.now tried rule.now)
            (λ c. IsFoundAt M term.now c × IsAskedThere M term.now rule.now (tried ++ tried_of c ∷ []) self.new.choices)) }
    {
        context.shows();
        let subject = Subject::Term(term);
        if !rule.section.asks(subject.operator()) {
            return Ok(None);
        }
        let mut rounds = u64::MAX;
        while rounds > 0 {
            rounds -= 1;
            match self.choices.ask(alloc, context, &rule.by, subject)? {
                Some(choice) => {
                    if choice.take.is_none() || is_open(context.facts(), term, &[1]) {
                        return Ok(Some(choice));
                    }
                }
                None => return Ok(None),
            }
        }
        Err(AllocError)
    }

    /// The next choice of a rule at one of these parts: of the first rule at each part, then of the second one. None
    /// where there is none left.
    pub fn next(
        &mut self,
        alloc: Global,
        context: &'m Ctx,
        rules: &'m [Rule],
        spots: &[Spot<'_>],
    ) -> Result<Option<Found<'m>>, AllocError>
        requires { AreRulesOf context.now rules.now }
        ensures of { IfOk result (λ o. IfSome o (λ f. (top : Option ℕ) × IsOf context.now top f.choice.by.now)) }
        ensures is { let M = context.now in (tried : List Tried) → AreValuesAt M spots.now → AreAsked M rules.now spots.now tried self.old
            → IfOk result (λ o. MatchOption o (AreAllAsked M rules.now spots.now tried)
            (λ f. IsFoundIn M spots.now f × AreAsked M rules.now spots.now (tried ++ tried_of f.choice ∷ []) self.new)) }
    {
        let mut rounds = u64::MAX;
        while rounds > 0 {
            rounds -= 1;
            if self.rule >= rules.len() {
                return Ok(None);
            }
            if self.at >= spots.len() {
                self.pass_rule();
            } else {
                let at = self.at;
                match self.ask(alloc, context, &rules[self.rule], spots[at].term)? {
                    Some(choice) => return Ok(Some(Found { at, choice })),
                    None => self.pass_part(),
                }
            }
        }
        Err(AllocError)
    }

    /// The next part comes.
    fn pass_part(&mut self)
        ensures { (M : Module) (rules : List RuleOf) (spots : List SpotOf) (tried : List Tried) → AreBehind M rules spots tried self.old.rule self.old.at
            → ((r : RuleOf) (s : SpotOf) → slice_get rules self.old.rule ≡ Some r → slice_get spots self.old.at ≡ Some s → AreTriedOpen M s.term.now tried r)
            → AreAsked M rules spots tried self.new }
    {
        self.at = self.at.saturating_add(1);
        self.choices.again();
    }

    /// The next rule comes, at the first part.
    fn pass_rule(&mut self)
        ensures { (M : Module) (rules : List RuleOf) (spots : List SpotOf) (tried : List Tried) → AreBehind M rules spots tried self.old.rule self.old.at
            → ((r : RuleOf) (s : SpotOf) → slice_get rules self.old.rule ≡ Some r → Member s spots → AreTriedOpen M s.term.now tried r)
            → AreAsked M rules spots tried self.new }
    {
        self.rule = self.rule.saturating_add(1);
        self.at = 0;
        self.choices.again();
    }
}
