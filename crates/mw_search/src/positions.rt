// What may stand at the positions of a pattern.
ghost use Rattle.std.specs.Prelude.{◌≡◌, ◌&&◌, ◌||◌, not, nat_eq, nat_lt, option_map};
ghost use Rattle.mw_logic.specs.NormalForm.{identity_of, is_identity as is_identity_of};
ghost use Rattle.mw_logic.specs.Parts.{is_assoc as is_assoc_in, number_of_terms};
ghost use Rattle.mw_logic.specs.Terms.{terms_of};
ghost use Rattle.mw_term.specs.Signatures.{identity_of as identity_named};
ghost use Rattle.mw_matching.specs.Found.{is_among as is_among_of, is_element as is_element_of, is_element_under_all as is_element_under_all_of, stands as stands_of};
ghost use Rattle.mw_matching.specs.Patterns.{stays as stays_on};

use mw_canon::{Axioms, Facts, parts};
use mw_term::{Identity, OpId, Seq, SortId, Term, View};

/// What may stand at each position: a term of its sort that is one element under each operator listed for it. Behind
/// the lists anything may stand.
#[derive(Drop)]
pub struct Positions {
    pub sorts: Seq<SortId>,
    pub single: Vec<Seq<OpId>>,
}

impl Positions {
    ghost use Rattle.mw_matching.specs.Found.{operators_at, is_single, fits};
    ghost use Rattle.mw_matching.specs.Patterns.{is_one, is_rigid, number_ones, has_one_under_both};

    fn operators_at(&self, position: u32) -> &[OpId]
        ensures { result.now ≡ operators_at self.now.single.items position }
    {
        match self.single.get(position as usize) {
            Some(operators) => operators.as_slice(),
            None => &[],
        }
    }

    /// Whether what stands at a position has to be one element under an operator.
    fn is_single(&self, operator: OpId, position: u32) -> bool
        ensures { result ≡ is_single self.now.single.items operator position }
    {
        is_among(operator, self.operators_at(position))
    }

    /// Whether a term is one element under each operator listed for a position.
    pub fn fits(&self, facts: &Facts, position: u32, term: &Term) -> bool
        ensures { result ≡ fits facts.now self.now.single.items position term.now }
    {
        is_element_under_all(facts, self.operators_at(position), term)
    }

    /// Whether a pattern becomes one element under an operator, whatever its variables' values are.
    pub fn is_rigid(&self, facts: &Facts, operator: OpId, pattern: &Term) -> bool
        ensures { result ≡ is_rigid facts.now (is_single self.now.single.items) operator pattern.now }
    {
        match pattern.view() {
            View::Nat(_) | View::Qid(_) | View::Var(_) => self.is_one(facts, operator, pattern),
            View::Op(top, args) => {
                self.is_one(facts, operator, pattern) || self.holds(facts, operator, top, args)
            }
        }
    }

    /// Whether a pattern becomes one element under an operator, by what is on top of it.
    pub fn is_one(&self, facts: &Facts, operator: OpId, pattern: &Term) -> bool
        ensures { result ≡ is_one facts.now (is_single self.now.single.items) operator pattern.now }
    {
        match pattern.view() {
            View::Nat(_) => !is_identity(facts, operator, pattern),
            View::Qid(_) => true,
            View::Var(x) => self.is_single(operator, x.sort),
            View::Op(top, args) => {
                operator != top && stays(facts, top, args) && !is_identity(facts, operator, pattern)
            }
        }
    }

    /// Whether another associative operator on top becomes one element by what it stands on.
    fn holds(&self, facts: &Facts, operator: OpId, top: OpId, args: &[Term]) -> bool
        ensures { let single = is_single self.now.single.items in let ts = terms_of args.now in
            result ≡ (not (nat_eq operator top) && (is_assoc_in facts.now top && (nat_lt 1 (number_ones facts.now single top ts)
            || has_one_under_both facts.now single operator top ts))) }
    {
        operator != top
            && is_assoc(facts, top)
            && (self.has_two_ones(facts, top, args)
                || self.has_one_under_both(facts, operator, top, args))
    }

    /// Whether two terms at least become one element each under an operator, by what is on top of them.
    fn has_two_ones(&self, facts: &Facts, operator: OpId, terms: &[Term]) -> bool
        ensures { let single = is_single self.now.single.items in
            result ≡ nat_lt 1 (number_ones facts.now single operator (terms_of terms.now)) }
    {
        let mut has_one = false;
        let mut rest = terms;
        while let [term, after @ ..] = rest {
            if self.is_one(facts, operator, term) {
                if has_one {
                    return true;
                }
                has_one = true;
            }
            rest = after;
        }
        false
    }

    /// Whether a term becomes one element under two operators, by what is on top of it.
    fn has_one_under_both(&self, facts: &Facts, first: OpId, second: OpId, terms: &[Term]) -> bool
        ensures { let single = is_single self.now.single.items in
            result ≡ has_one_under_both facts.now single first second (terms_of terms.now) }
    {
        let mut rest = terms;
        while let [term, after @ ..] = rest {
            if self.is_one(facts, first, term) && self.is_one(facts, second, term) {
                return true;
            }
            rest = after;
        }
        false
    }
}

/// Whether an operator stays on top of its arguments, whatever these become.
fn stays(facts: &Facts, operator: OpId, args: &[Term]) -> bool
    ensures { result ≡ stays_on facts.now operator (number_of_terms (terms_of args.now)) }
{
    match facts.axioms(operator) {
        Axioms::Plain => true,
        Axioms::Commutative => true,
        Axioms::Successor => false,
        Axioms::Associative { identity, .. } => match identity {
            Some(_) => false,
            None => 1 < args.len(),
        },
    }
}

/// Whether an operator is associative.
fn is_assoc(facts: &Facts, operator: OpId) -> bool
    ensures { result ≡ is_assoc_in facts.now operator }
{
    match facts.axioms(operator) {
        Axioms::Plain => false,
        Axioms::Commutative => false,
        Axioms::Successor => false,
        Axioms::Associative { .. } => true,
    }
}

fn is_among(operator: OpId, operators: &[OpId]) -> bool
    ensures { result ≡ is_among_of operator operators.now }
{
    let mut rest = operators;
    while let [other, after @ ..] = rest {
        if operator == *other {
            return true;
        }
        rest = after;
    }
    false
}

/// The identity of an operator, where it has one.
pub fn identity(facts: &Facts, operator: OpId) -> Option<Identity>
    ensures { option_map identity_named result ≡ identity_of facts.now operator }
{
    facts.shows();
    match facts.axioms(operator) {
        Axioms::Associative { identity, .. } => identity,
        _ => None,
    }
}

/// Whether a term is the identity of an operator.
pub fn is_identity(facts: &Facts, operator: OpId, term: &Term) -> bool
    ensures { result ≡ is_identity_of (identity_of facts.now operator) term.now }
{
    facts.shows();
    match facts.axioms(operator) {
        Axioms::Associative { .. } => parts(facts, operator, term).is_empty(),
        _ => false,
    }
}

/// Whether an operator stands on top, on arguments.
pub fn stands(operator: OpId, term: &Term) -> bool
    ensures { result ≡ stands_of operator term.now }
{
    match term.view() {
        View::Op(top, args) => operator == top && !args.is_empty(),
        _ => false,
    }
}

/// Whether a term is one element under an operator.
fn is_element(facts: &Facts, operator: OpId, term: &Term) -> bool
    ensures { result ≡ is_element_of (identity_of facts.now operator) operator term.now }
{
    !is_identity(facts, operator, term) && !stands(operator, term)
}

fn is_element_under_all(facts: &Facts, operators: &[OpId], term: &Term) -> bool
    ensures { result ≡ is_element_under_all_of facts.now operators.now term.now }
{
    let mut rest = operators;
    while let [operator, after @ ..] = rest {
        if !is_element(facts, *operator, term) {
            return false;
        }
        rest = after;
    }
    true
}
