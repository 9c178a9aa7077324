// What a choice goes through: the terms that the next pattern may meet, each with the goal that it leaves.
ghost use Rattle.std.specs.Prelude.{◌≡◌, IfOk, IsTrue, option_map};
ghost use Rattle.mw_logic.specs.Term.{Variable, variable as a_variable, RawTerms, cons};
ghost use Rattle.mw_logic.specs.Terms.{args_of, skip};
ghost use Rattle.mw_matching.specs.Multisets.{behind_first};
ghost use Rattle.mw_search.specs.Goals.{IsNext};
ghost use Rattle.mw_search.specs.Clashes.{IsPassed, IsTwice};

use crate::bags::{Parts, first_new};
use crate::gathered::Gathered;
use crate::goals::Goal;
use crate::lookahead::clashes;
use crate::positions::Positions;
use crate::terms::{first_of, rebuilt_of, rebuilt_part, top};
use mw_canon::Facts;
use mw_term::{Identity, Term, View, copy};
use std::alloc::{AllocError, Global};

/// The first elements of those from `from` on: `next` of them, and then one more each time, fewer than `end`.
#[derive(Drop)]
pub struct Fronts {
    pub pattern: Term,
    /// The next argument of the pattern.
    pub then: usize,
    pub row: Term,
    pub from: usize,
    pub identity: Option<Identity>,
    pub next: usize,
    pub end: usize,
}

/// One element of a multiset each time, of those that differ, from the index `next` on.
#[derive(Drop)]
pub struct Singles {
    pub pattern: Term,
    pub then: usize,
    pub bag: Gathered,
    pub next: usize,
}

/// Parts of a multiset.
#[derive(Drop)]
pub struct Pieces {
    pub pattern: Term,
    pub then: usize,
    pub identity: Option<Identity>,
    pub parts: Parts,
}

/// Lists of arguments, each as a term, from `next` on.
#[derive(Drop)]
pub struct Orders {
    pub pattern: Term,
    pub lists: Vec<Term>,
    pub next: usize,
}

#[derive(Drop)]
pub enum Shares {
    OfRow(Fronts),
    OfHeads(Singles),
    OfParts(Pieces),
    OfOrders(Orders),
}

impl Fronts {
    ghost use Rattle.mw_logic.specs.Term.{RawTerm};
    ghost use Rattle.mw_search.specs.Goals.{front_share, fronts_left};

    /// The share of `next` elements.
    fn share(&self, alloc: Global) -> Result<(Term, Goal), AllocError>
        ensures { IfOk result (λ s. (s.0, s.1) ≡ front_share self.now self.now.next) }
    {
        let elements = self.row.arguments();
        let operator = top(&self.pattern);
        let term = rebuilt_part(
            alloc,
            self.identity,
            operator,
            &self.row,
            self.from,
            self.next,
        )?;
        let from = self.from.saturating_add(self.next).min(elements.len());
        let goal = Goal::Row(copy(&self.pattern)?, self.then, copy(&self.row)?, from);
        Ok((term, goal))
    }

    /// Whether no match comes of the share: the argument behind has to be one element, and clashes with the first one
    /// that is left.
    fn is_barren(&self, facts: &Facts, positions: &Positions, values: &[Term]) -> bool
        ensures { let single = positions.now.single.items in
            (q : RawTerm) → IsTrue result → IsPassed facts.now single values.now q (fronts_left self.now) }
    {
        if self.next >= self.end {
            return false;
        }
        let Some(behind) = self.pattern.arguments().get(self.then) else {
            return false;
        };
        let elements = self.row.arguments();
        let left = self.from.saturating_add(self.next).min(elements.len());
        let Some(first) = elements.get(left) else {
            return false;
        };
        if !positions.is_rigid(facts, top(&self.pattern), behind) {
            return false;
        }
        clashes(facts, behind, first, values)
    }
}

impl Singles {
    ghost use Rattle.mw_search.specs.Goals.{heads_left};

    /// The element, and the others, which stay in the bag until the pattern has met it.
    fn share(&self) -> Result<Option<(Term, Goal)>, AllocError>
        ensures { IfOk result (λ o. IsNext (option_map (λ s. (s.0, s.1)) o) (heads_left self.now)) }
    {
        let elements = self.bag.elements();
        let Some(at) = first_new(elements, self.next) else {
            return Ok(None);
        };
        let term = copy(&elements[at])?;
        let pattern = copy(&self.pattern)?;
        let bag = self.bag.copied()?;
        Ok(Some((term, Goal::Left(pattern, self.then, bag, at))))
    }

    /// Whether the pattern is a variable without a value yet that has to be one element, and the next one again. So many
    /// positions have values.
    fn is_twice(&self, facts: &Facts, positions: &Positions, pattern: &Term, count: usize) -> bool
        ensures { let p = self.now.pattern in
            IsTrue result → IsTwice positions.now.single.items p self.now.then count pattern.now }
    {
        let View::Var(x) = pattern.view() else {
            return false;
        };
        if x.sort as usize != count {
            return false;
        }
        if !is_variable_at(&self.pattern, self.then, x.sort) {
            return false;
        }
        positions.is_rigid(facts, top(&self.pattern), pattern)
    }

    /// Whether no match comes of the element: the pattern clashes with it, or wants it twice where it stands once.
    fn is_barren(
        &self,
        facts: &Facts,
        positions: &Positions,
        pattern: &Term,
        values: &[Term],
    ) -> bool
        ensures { let single = positions.now.single.items in
            IsTrue result → IsPassed facts.now single values.now pattern.now (heads_left self.now) }
    {
        let elements = self.bag.elements();
        let Some(at) = first_new(elements, self.next) else {
            return false;
        };
        if clashes(facts, pattern, &elements[at], values) {
            return true;
        }
        if !self.bag.is_alone(at) {
            return false;
        }
        self.is_twice(facts, positions, pattern, values.len())
    }

    fn pass(&mut self)
        ensures { heads_left self.new ≡ behind_first (heads_left self.old) }
    {
        if let Some(at) = first_new(self.bag.elements(), self.next) {
            self.next = at + 1;
        }
    }
}

impl Pieces {
    ghost use Rattle.mw_search.specs.Goals.{parts_left};

    fn share(&self, alloc: Global) -> Result<Option<(Term, Goal)>, AllocError>
        ensures { IfOk result (λ o. IsNext (option_map (λ s. (s.0, s.1)) o) (parts_left self.now)) }
    {
        let Some(part) = self.parts.part(alloc)? else {
            return Ok(None);
        };
        let operator = top(&self.pattern);
        let term = rebuilt_of(alloc, self.identity, operator, part.as_slice())?;
        let left = self.parts.rest(alloc)?;
        let left = Term::apply(alloc, operator, left)?;
        let pattern = copy(&self.pattern)?;
        Ok(Some((term, Goal::Bag(pattern, self.then, left))))
    }

    fn pass(&mut self)
        ensures { parts_left self.new ≡ behind_first (parts_left self.old) }
    {
        self.parts.pass();
    }
}

impl Orders {
    ghost use Rattle.mw_search.specs.Goals.{orders_left};

    fn share(&self, alloc: Global) -> Result<Option<(Term, Goal)>, AllocError>
        ensures { IfOk result (λ o. IsNext (option_map (λ s. (s.0, s.1)) o) (orders_left self.now)) }
    {
        if self.next >= self.lists.len() {
            return Ok(None);
        }
        let list = &self.lists[self.next];
        let term = first_of(alloc, list)?;
        let pattern = copy(&self.pattern)?;
        let rest = copy(list)?;
        Ok(Some((term, Goal::Args(pattern, rest, 1))))
    }

    fn pass(&mut self)
        ensures { orders_left self.new ≡ behind_first (orders_left self.old) }
    {
        if self.next < self.lists.len() {
            self.next += 1;
        }
    }
}

impl Shares {
    ghost use Rattle.mw_search.specs.Goals.{shares_left};

    /// The next share.
    pub fn share(&self, alloc: Global) -> Result<Option<(Term, Goal)>, AllocError>
        ensures { IfOk result (λ o. IsNext (option_map (λ s. (s.0, s.1)) o) (shares_left self.now)) }
    {
        match self {
            Shares::OfRow(fronts) => {
                if fronts.next >= fronts.end {
                    return Ok(None);
                }
                Ok(Some(fronts.share(alloc)?))
            }
            Shares::OfHeads(singles) => singles.share(),
            Shares::OfParts(pieces) => pieces.share(alloc),
            Shares::OfOrders(orders) => orders.share(alloc),
        }
    }

    /// Whether no match comes of the next share, as far as that is seen at once.
    pub fn is_barren(
        &self,
        facts: &Facts,
        positions: &Positions,
        pattern: &Term,
        values: &[Term],
    ) -> bool
        ensures { let single = positions.now.single.items in
            IsTrue result → IsPassed facts.now single values.now pattern.now (shares_left self.now) }
    {
        match self {
            Shares::OfRow(fronts) => fronts.is_barren(facts, positions, values),
            Shares::OfHeads(singles) => singles.is_barren(facts, positions, pattern, values),
            _ => false,
        }
    }

    /// Goes on behind the next share.
    pub fn pass(&mut self)
        ensures { shares_left self.new ≡ behind_first (shares_left self.old) }
    {
        match self {
            Shares::OfRow(fronts) => {
                if fronts.next < fronts.end {
                    fronts.next += 1;
                }
            }
            Shares::OfHeads(singles) => singles.pass(),
            Shares::OfParts(pieces) => pieces.pass(),
            Shares::OfOrders(orders) => orders.pass(),
        }
    }
}

/// Whether the variable of a position stands there among a pattern's arguments.
pub fn is_variable_at(pattern: &Term, at: usize, position: u32) -> bool
    ensures { let qs = skip at (args_of pattern.now) in
        IsTrue result → (x : Variable) × (ps : RawTerms) × (qs ≡ cons (a_variable x) ps) × (x.sort ≡ position) }
{
    let Some(argument) = pattern.arguments().get(at) else {
        return false;
    };
    match argument.view() {
        View::Var(x) => x.sort == position,
        _ => false,
    }
}
