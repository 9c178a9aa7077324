// Which values are one element under an associative operator, by their sorts.
ghost use Rattle.std.specs.Prelude.{◌≡◌, ◌≤◌, ℕ, length, true, IfOk, IsTrue, option_map};
ghost use Rattle.std.specs.List.{All};
ghost use Rattle.mw_logic.specs.Signature.{identity_term};
ghost use Rattle.mw_term.specs.Signatures.{identity_of as identity_named};
ghost use Rattle.mw_matching.specs.Found.{is_among};
ghost use Rattle.mw_solving.specs.Values.{AreSure};
ghost use Rattle.mw_compile.specs.Singles.{IsJoining, IsOne};

use mw_canon::{Axioms, Facts};
use mw_least::Ctx;
use mw_search::Positions;
use mw_term::{Identity, OpId, Seq, SortId, Term, View};
use std::alloc::{AllocError, Global};
use std::marker::Model;

/// An associative operator, with its identity where it has one.
#[derive(Drop)]
pub struct Joining {
    pub operator: OpId,
    pub identity: Option<Term>,
}

/// The associative operators of a pattern that stand on variables. Contracts see the signature.
#[derive(Drop)]
pub struct Singles<'c> {
    context: &'c Ctx,
    operators: Vec<Joining>,
    /// No position has a list.
    nowhere: Positions,
}

impl<'c> Model for Singles<'c> {
    ghost use Rattle.mw_logic.specs.Signature.{Signature};

    ghost Value = { Signature };

    ghost view = { λ s. s.context.now.signature };

    ghost use Rattle.std.specs.List.{All};
    ghost use Rattle.mw_compile.specs.Singles.{IsJoining};

    ghost invariant = { λ s. All (IsJoining s.context.now.signature) s.operators.items };
}

/// An identity as a term.
fn term_of(alloc: Global, identity: Option<Identity>) -> Result<Option<Term>, AllocError>
    ensures { IfOk result (λ o. o ≡ option_map identity_term (option_map identity_named identity)) }
{
    match identity {
        None => Ok(None),
        Some(Identity::Constant(c)) => {
            let term = Term::apply(alloc, c, Vec::new(alloc))?;
            Ok(Some(term))
        }
        Some(Identity::Nat(n)) => {
            let term = Term::numeral(alloc, n)?;
            Ok(Some(term))
        }
    }
}

/// Whether a variable stands among terms.
fn has_variable(terms: &[Term]) -> bool {
    let mut rest = terms;
    while let [term, after @ ..] = rest {
        if let View::Var(_) = term.view() {
            return true;
        }
        rest = after;
    }
    false
}

/// Whether an operator has an identity.
fn has_identity(facts: &Facts, operator: OpId) -> bool {
    match facts.axioms(operator) {
        Axioms::Associative { identity, .. } => identity.is_some(),
        _ => false,
    }
}

/// Whether each value of a sort is one element under an operator.
fn is_one_under(context: &Ctx, joining: &Joining, sort: SortId) -> bool
    requires { IsJoining context.now.signature joining.now }
    ensures { IsTrue result → IsOne context.now.signature joining.now.operator sort }
{
    context.shows();
    if context.may_give(joining.operator, sort) {
        return false;
    }
    match &joining.identity {
        Some(identity) => !context.has_sort(identity, sort),
        None => true,
    }
}

impl<'c> Singles<'c> {
    /// No operators.
    pub fn none(alloc: Global, context: &'c Ctx) -> Singles<'c>
        ensures { result ≡ context.now.signature }
    {
        let nowhere = Positions {
            sorts: Seq::of(Vec::new(alloc)),
            single: Vec::new(alloc),
        };
        Singles {
            context,
            operators: Vec::new(alloc),
            nowhere,
        }
    }

    /// The axioms of the signature's operators.
    pub fn facts(&self) -> &'c Facts
        ensures { result.now ≡ self.now }
    {
        self.context.facts()
    }

    /// Whether an operator is among them.
    fn has(&self, operator: OpId) -> bool {
        let mut rest = self.operators.as_slice();
        while let [joining, after @ ..] = rest {
            if joining.operator == operator {
                return true;
            }
            rest = after;
        }
        false
    }

    /// Puts an operator behind the others if it is associative and isn't one of them.
    fn put(&mut self, alloc: Global, operator: OpId) -> Result<(), AllocError>
        ensures { self.new ≡ self.old }
    {
        if self.has(operator) {
            return Ok(());
        }
        let Axioms::Associative { identity, .. } = self.facts().axioms(operator) else {
            return Ok(());
        };
        let identity = term_of(alloc, identity)?;
        self.operators.push(Joining { operator, identity })?;
        Ok(())
    }

    /// Puts the operators of a pattern that stand on variables behind the others.
    pub fn put_all(&mut self, alloc: Global, pattern: &Term) -> Result<(), AllocError>
        ensures { self.new ≡ self.old }
    {
        let View::Op(operator, args) = pattern.view() else {
            return Ok(());
        };
        if has_variable(args) {
            self.put(alloc, operator)?;
        }
        let mut rest = args;
        while let [arg, after @ ..] = rest {
            self.put_all(alloc, arg)?;
            rest = after;
        }
        Ok(())
    }

    /// Whether each value of a sort is one element under an operator, as far as is known.
    fn is_one(&self, operator: OpId, sort: SortId) -> bool
        ensures { IsTrue result → IsOne self.now operator sort }
    {
        let mut rest = self.operators.as_slice();
        while let [joining, after @ ..] = rest {
            if joining.operator == operator {
                return is_one_under(self.context, joining, sort);
            }
            rest = after;
        }
        false
    }

    /// Whether an argument of an operator becomes one element, by what is on top of it.
    fn is_one_argument(&self, operator: OpId, argument: &Term) -> bool {
        match argument.view() {
            View::Var(x) => self.is_one(operator, x.sort),
            _ => self.nowhere.is_one(self.facts(), operator, argument),
        }
    }

    /// Whether an argument of an operator becomes one element, whatever its variables' values are.
    pub fn is_rigid(&self, operator: OpId, argument: &Term) -> bool {
        if self.is_one_argument(operator, argument) {
            return true;
        }
        match argument.view() {
            View::Op(top, args) if operator != top && has_identity(self.facts(), top) => {
                self.holds(operator, top, args)
            }
            _ => false,
        }
    }

    /// Whether an associative operator on top of an argument of another one becomes one element by what it stands on:
    /// two of its arguments are one element each, or one is one under both operators.
    fn holds(&self, operator: OpId, top: OpId, args: &[Term]) -> bool {
        let mut has_one = false;
        let mut rest = args;
        while let [arg, after @ ..] = rest {
            if self.is_one_argument(top, arg) {
                if has_one || self.is_one_argument(operator, arg) {
                    return true;
                }
                has_one = true;
            }
            rest = after;
        }
        false
    }

    /// The operators under which each value of a sort is one element.
    fn over(&self, alloc: Global, sort: SortId) -> Result<Seq<OpId>, AllocError>
        ensures { IfOk result (λ fs. (f : ℕ) → is_among f fs ≡ true → IsOne self.now f sort) }
    {
        let mut found = Vec::new(alloc);
        for joining in &self.operators {
            if is_one_under(self.context, joining, sort) {
                found.push(joining.operator)?;
            }
        }
        Ok(Seq::of(found))
    }

    /// The operators under which what stands at each position, by its sort, is one element. There are no lists where
    /// there are no operators.
    pub fn lists(&self, alloc: Global, sorts: &[SortId]) -> Result<Vec<Seq<OpId>>, AllocError>
        ensures sure { IfOk result (λ lists. AreSure self.now lists.items sorts.now) }
        ensures bounded { IfOk result (λ lists. length lists.items ≤ length sorts.now) }
    {
        let mut lists = Vec::new(alloc);
        if self.operators.is_empty() {
            return Ok(lists);
        }
        for sort in sorts {
            let list = self.over(alloc, *sort)?;
            lists.push(list)?;
        }
        Ok(lists)
    }
}
