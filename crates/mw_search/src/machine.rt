// The enumeration: goals in hand, the values so far, and a stack of choices.
ghost use Rattle.std.specs.Prelude.{◌≡◌, ◌<◌, [], ◌∷◌, length, true, false, IfOk, OnOk, OnErr, IsTrue, IsFalse, MatchBool, MatchOption};
ghost use Rattle.mw_search.specs.Lacking.{HasItsSort, LacksItsSort};

use crate::goals::{Goal, Outcome, all_copied};
use crate::outcomes::outcome;
use crate::positions::Positions;
use crate::shares::Shares;
use crate::terms::all_terms;
use mw_canon::Facts;
use mw_least::Ctx;
use mw_term::{Term, copy};
use std::alloc::{AllocError, Global};
use std::mem::swap;

/// A pattern that meets the terms of shares, one after another, with the goals that wait behind and how many values
/// stood when it was opened.
#[derive(Drop)]
pub struct Choice {
    pub pattern: Term,
    pub shares: Shares,
    pub goals: Vec<Goal>,
    pub below: usize,
}

/// The state: how many values were given; whether it runs; the goals in hand, the last one first; the values by
/// position; and the choices, the last one on top.
#[derive(Drop)]
pub struct Machine {
    pub given: usize,
    pub running: bool,
    pub goals: Vec<Goal>,
    pub values: Vec<Term>,
    pub stack: Vec<Choice>,
}

/// Whether a value lacks the sort of a position.
fn lacks(context: &Ctx, positions: &Positions, position: usize, value: &Term) -> bool
    ensures { let sig = context.now.signature in
        let sorts = positions.now.sorts in
        MatchBool result (LacksItsSort sig sorts position value.now) (HasItsSort sig sorts position value.now) }
{
    match positions.sorts.as_slice().get(position) {
        Some(sort) => !context.has_sort(value, *sort),
        None => false,
    }
}

impl Machine {
    ghost use Rattle.mw_logic.specs.Signature.{Signature};
    ghost use Rattle.mw_search.specs.Goals.{goal_found};
    ghost use Rattle.mw_search.specs.declared.goals.Outcome.TheVariants.{Binds, Opens};
    ghost use Rattle.mw_search.specs.Lacking.{HaveTheirSorts};
    ghost use Rattle.mw_search.specs.Machines.{IsReady, Stepped, Stayed, Applied, PassesTo, to_come};

    /// A goal to be met, with values that are given.
    pub fn new(alloc: Global, goal: Goal, given: Vec<Term>) -> Result<Machine, AllocError>
        ensures starts { IfOk result (λ m. (sig : Signature) (ps : Positions) →
            to_come sig ps m ≡ goal_found sig ps.single.items goal given.items) }
        ensures given { IfOk result (λ m. m.given ≡ length given.items) }
        ensures ready { IfOk result (λ m. (sig : Signature) (ps : Positions) → IsReady sig ps m) }
    {
        let goals = vec![in alloc; goal]?;
        Ok(Machine {
            given: given.len(),
            running: true,
            goals,
            values: given,
            stack: Vec::new(alloc),
        })
    }

    /// Nothing is to be met, with values that are given.
    pub fn ended(alloc: Global, given: Vec<Term>) -> Machine
        ensures ends { (sig : Signature) (ps : Positions) → to_come sig ps result ≡ [] }
        ensures given { result.given ≡ length given.items }
        ensures ready { (sig : Signature) (ps : Positions) → IsReady sig ps result }
    {
        Machine {
            given: given.len(),
            running: false,
            goals: Vec::new(alloc),
            values: given,
            stack: Vec::new(alloc),
        }
    }

    /// Does what became of the goal on top.
    fn apply(
        &mut self,
        alloc: Global,
        context: &Ctx,
        positions: &Positions,
        became: Outcome,
    ) -> Result<(), AllocError>
        requires ready { IsReady context.now.signature positions.now self.old }
        requires running { self.old.running ≡ true }
        requires some { 0 < length self.old.goals.items }
        ensures ok { OnOk result (Applied context.now.signature positions.now became self.old self.new) }
        ensures err { OnErr result (Stayed context.now.signature positions.now self.old self.new) }
    {
        let last = self.goals.len() - 1;
        match became {
            Outcome::Fails => self.running = false,
            Outcome::Holds => {
                self.goals.pop();
            }
            Outcome::Binds(value) => self.bind(context, positions, value)?,
            Outcome::Becomes(goal) => self.goals[last] = goal,
            Outcome::First(pattern, term, goal) => {
                self.goals.push(Goal::Meet(pattern, term))?;
                self.goals[last] = goal;
            }
            Outcome::Opens(pattern, shares) => self.open(alloc, pattern, shares)?,
        }
        Ok(())
    }

    /// Takes a value for the next position, or ends this way where it lacks the position's sort.
    fn bind(&mut self, context: &Ctx, positions: &Positions, value: Term) -> Result<(), AllocError>
        requires ready { IsReady context.now.signature positions.now self.old }
        requires running { self.old.running ≡ true }
        requires some { 0 < length self.old.goals.items }
        ensures ok { OnOk result (Applied context.now.signature positions.now (Binds value) self.old self.new) }
        ensures err { OnErr result (Stayed context.now.signature positions.now self.old self.new) }
    {
        if lacks(context, positions, self.values.len(), &value) {
            self.running = false;
            return Ok(());
        }
        self.values.push(value)?;
        self.goals.pop();
        Ok(())
    }

    /// Puts a choice on the stack, with the goals behind the one on top.
    fn open(&mut self, alloc: Global, pattern: Term, shares: Shares) -> Result<(), AllocError>
        requires running { self.old.running ≡ true }
        requires some { 0 < length self.old.goals.items }
        ensures ok { OnOk result ((sig : Signature) (ps : Positions) → IsReady sig ps self.old →
            Applied sig ps (Opens pattern shares) self.old self.new) }
        ensures err { OnErr result ((sig : Signature) (ps : Positions) → IsReady sig ps self.old →
            Stayed sig ps self.old self.new) }
    {
        let below = self.values.len();
        let depth = self.stack.len();
        let goals = Vec::new(alloc);
        self.stack.push(Choice {
            pattern,
            shares,
            goals,
            below,
        })?;
        self.goals.pop();
        let top = &mut self.stack[depth];
        swap(&mut self.goals, &mut top.goals);
        self.running = false;
        Ok(())
    }

    /// Tries the goal on top.
    fn meet(
        &mut self,
        alloc: Global,
        context: &Ctx,
        positions: &Positions,
    ) -> Result<(), AllocError>
        requires ready { IsReady context.now.signature positions.now self.old }
        requires running { self.old.running ≡ true }
        requires some { 0 < length self.old.goals.items }
        ensures ok { OnOk result (Stepped context.now.signature positions.now self.old self.new) }
        ensures err { OnErr result (Stayed context.now.signature positions.now self.old self.new) }
    {
        let last = self.goals.len() - 1;
        let goal = &self.goals[last];
        let became = outcome(
            alloc,
            context.facts(),
            positions,
            goal,
            self.values.as_slice(),
        )?;
        self.apply(alloc, context, positions, became)?;
        Ok(())
    }

    /// Passes over the next share of the choice on top, where it is seen at once that no match comes of it.
    fn pass_over(&mut self, facts: &Facts, positions: &Positions) -> bool
        requires resting { self.old.running ≡ false }
        requires some { 0 < length self.old.stack.items }
        ensures passed { IsTrue result → IsReady facts.now positions.now self.old →
            Stepped facts.now positions.now self.old self.new }
        ensures stays { IsFalse result → self.new ≡ self.old }
    {
        let last = self.stack.len() - 1;
        let top = &self.stack[last];
        let below = top.below.min(self.values.len());
        let values = &self.values.as_slice()[..below];
        if !top.shares.is_barren(facts, positions, &top.pattern, values) {
            return false;
        }
        self.stack[last].shares.pass();
        true
    }

    /// Goes on with the next share of the choice on top.
    fn turn(&mut self, alloc: Global) -> Result<(), AllocError>
        requires resting { self.old.running ≡ false }
        requires some { 0 < length self.old.stack.items }
        ensures ok { OnOk result ((sig : Signature) (ps : Positions) → IsReady sig ps self.old →
            Stepped sig ps self.old self.new) }
        ensures err { OnErr result ((sig : Signature) (ps : Positions) → IsReady sig ps self.old →
            Stayed sig ps self.old self.new) }
    {
        let last = self.stack.len() - 1;
        let top = &self.stack[last];
        match top.shares.share(alloc)? {
            None => {
                self.stack.pop();
            }
            Some((term, goal)) => {
                let mut goals = all_copied(alloc, top.goals.as_slice())?;
                goals.push(goal)?;
                goals.push(Goal::Meet(copy(&top.pattern)?, term))?;
                self.values.truncate(top.below);
                let top = &mut self.stack[last];
                top.shares.pass();
                self.goals = goals;
                self.running = true;
            }
        }
        Ok(())
    }

    /// The values of the next match whose new values have their sorts, or none, and none for ever. Those that lack one
    /// are passed over.
    pub fn next(
        &mut self,
        alloc: Global,
        context: &Ctx,
        positions: &Positions,
    ) -> Result<Option<Vec<Term>>, AllocError>
        requires ready { IsReady context.now.signature positions.now self.old }
        ensures ok { let sig = context.now.signature in
            let sorts = positions.now.sorts in
            let come = to_come sig positions.now in
            let passes = PassesTo sig positions.now self.old in
            IfOk result (λ o. MatchOption o (passes [] × (come self.new ≡ []))
            (λ vs. passes (vs.items ∷ come self.new) × HaveTheirSorts sig sorts self.old.given vs.items)) }
        ensures err { let sig = context.now.signature in
            OnErr result (PassesTo sig positions.now self.old (to_come sig positions.now self.new)) }
        ensures given { self.new.given ≡ self.old.given }
        ensures ready { IsReady context.now.signature positions.now self.new }
    {
        loop {
            if self.running {
                if self.goals.is_empty() {
                    let found = all_terms(alloc, self.values.as_slice())?;
                    self.running = false;
                    return Ok(Some(found));
                }
                self.meet(alloc, context, positions)?;
            } else {
                if self.stack.is_empty() {
                    return Ok(None);
                }
                if !self.pass_over(context.facts(), positions) {
                    self.turn(alloc)?;
                }
            }
        }
    }
}
