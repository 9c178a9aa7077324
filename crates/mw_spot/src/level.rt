// One level of a walk: an operator, and its arguments but for those in the hole.
ghost use Rattle.std.specs.Prelude.{◌≡◌, ◌↔◌, true, false, IfOk, IsTrue};
ghost use Rattle.mw_deduction.specs.Standing.{filled, IsClear};
ghost use Rattle.mw_logic.specs.NormalForm.{is_comm};
ghost use Rattle.mw_logic.proofs.Canonical.{IsCanonical};
ghost use Rattle.mw_spot.specs.Spots.{IsFree};
ghost use Rattle.mw_spot.specs.Walks.{IsOrderly};

use mw_canon::{Axioms, Facts, rebuild};
use mw_stack::{close, put};
use mw_term::{OpId, Term};
use std::alloc::{AllocError, Global};
use std::marker::Model;

/// An operator that was gone into, its arguments but for what stands in the hole, and how many of these come before it.
#[derive(Drop)]
pub(crate) struct Level {
    pub operator: OpId,
    pub others: Vec<Term>,
    pub at: usize,
}

impl Model for Level {
    ghost use Rattle.std.specs.Coded.{codes};
    ghost use Rattle.mw_logic.specs.TermCode.{coded_terms};
    ghost use Rattle.mw_deduction.specs.Standing.{Open};

    ghost Value = { Open };

    ghost coded = { Prim.hlevel (codes, coded_terms) };

    ghost use Rattle.std.specs.Prelude.{length, ◌≤◌};
    ghost use Rattle.mw_spot.specs.Walks.{level_of};

    ghost view = { λ l. level_of l.operator l.at l.others.items };

    ghost invariant = { λ l. l.at ≤ length l.others.items };
}

impl Level {
    /// The operator again, with a term in the hole.
    pub fn filled(self, alloc: Global, facts: &Facts, term: Term) -> Result<Term, AllocError>
        ensures { IsOrderly facts.now self → IsClear facts.now self → IsCanonical facts.now term
            → IfOk result (λ t. t ≡ filled facts.now self term) }
    {
        if self.is_free(facts) {
            return self.with_one(alloc, facts, term);
        }
        if self.is_commutative(facts) {
            return self.with_one_in_order(alloc, facts, term);
        }
        self.with_elements(alloc, facts, term)
    }

    /// The same where each argument stays where it is.
    fn with_one(self, alloc: Global, facts: &Facts, term: Term) -> Result<Term, AllocError>
        ensures { IfOk result (λ t. t ≡ filled facts.now self term) }
    {
        let Level {
            operator,
            others,
            at,
        } = self;
        let mut args = others;
        args.insert(at, term)?;
        let term = rebuild(alloc, facts, operator, args)?;
        Ok(term)
    }

    /// The same where the operator is commutative: what comes is put in order among the others, which are in order.
    fn with_one_in_order(self, alloc: Global, facts: &Facts, term: Term) -> Result<Term, AllocError>
        ensures { is_comm facts.now self.operator ≡ true
            → IsOrderly facts.now self → IsClear facts.now self → IsCanonical facts.now term
            → IfOk result (λ t. t ≡ filled facts.now self term) }
    {
        facts.shows();
        let Level {
            operator,
            others,
            ..
        } = self;
        let mut args = others;
        put(alloc, facts, operator, &mut args, 0, term)?;
        let term = close(alloc, facts, operator, &mut args, 0)?;
        Ok(term)
    }

    /// The same where the operator isn't commutative: what comes is put between the others.
    fn with_elements(self, alloc: Global, facts: &Facts, term: Term) -> Result<Term, AllocError>
        ensures { is_comm facts.now self.operator ≡ false → IsClear facts.now self → IsCanonical facts.now term
            → IfOk result (λ t. t ≡ filled facts.now self term) }
    {
        facts.shows();
        let Level {
            operator,
            others,
            at,
        } = self;
        let mut args = others;
        let mut behind = args.split_off(at)?;
        put(alloc, facts, operator, &mut args, 0, term)?;
        args.append(&mut behind)?;
        let term = close(alloc, facts, operator, &mut args, 0)?;
        Ok(term)
    }

    /// Whether each argument stays where it is, and as it is.
    pub fn is_free(&self, facts: &Facts) -> bool
        ensures { IsTrue result ↔ IsFree facts.now self.now }
    {
        match facts.axioms(self.operator) {
            Axioms::Plain | Axioms::Successor => true,
            Axioms::Commutative | Axioms::Associative { .. } => false,
        }
    }

    /// Whether the operator is commutative.
    pub fn is_commutative(&self, facts: &Facts) -> bool
        ensures { result ≡ is_comm facts.now self.now.operator }
    {
        match facts.axioms(self.operator) {
            Axioms::Plain | Axioms::Successor => false,
            Axioms::Commutative => true,
            Axioms::Associative { comm, .. } => comm,
        }
    }
}
