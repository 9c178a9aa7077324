// The schemata of a signature's operators, by number.
ghost use Rattle.std.specs.Prelude.{◌≡◌, ◌↔◌, ℕ, Bool, cond, unwrap_or, codes, IfOk, IsTrue, MatchOption};
ghost use Rattle.mw_logic.specs.Accepted.{IsAccepted};
ghost use Rattle.mw_logic.specs.Module.{IsPolymorphic, IsTruth, IsBuiltIn, plus, times};
ghost use Rattle.mw_logic.specs.Preregular.{HasItsSorts};
ghost use Rattle.mw_logic.specs.Signature.{Signature as SignatureOf, at_number};
ghost use Rattle.mw_poset.specs.SortOrder.{order_of};
ghost use Rattle.mw_builtin.specs.declared.schema.Schema.TheVariants.{Nothing as NothingOf, Truth as TruthOf};
ghost use Rattle.mw_builtin.specs.Schemata.{AreSchemataOf, AreSchemas, IsConstantFor, on_numbers, of_sum};
ghost use Rattle.mw_builtin.specs.Steps.{IsTestOf};

use crate::rows::rows;
use crate::schema::{BuiltIn, Schema};
use mw_poset::Poset;
use mw_term::{OpId, Seq, Signature, Term, View, number_at, numbered};
use std::alloc::{AllocError, Global};

/// The operators of a signature that compute something, by number, and the constants that are truth values.
#[derive(Drop)]
pub struct Schemata {
    rows: Seq<Schema>,
    yes: Option<OpId>,
    no: Option<OpId>,
}

/// An operator that adds up or multiplies numbers.
#[derive(Clone, Copy, Debug, PartialEq, Eq)]
pub enum Sum {
    Plus,
    Times,
}

fn sum_of(operator: BuiltIn) -> Option<Sum>
    ensures { MatchOption result ((on_numbers operator ≡ plus → ⊥) × (on_numbers operator ≡ times → ⊥)) (λ s. on_numbers operator ≡ of_sum s) }
{
    match operator {
        BuiltIn::Plus => Some(Sum::Plus),
        BuiltIn::Times => Some(Sum::Times),
        _ => None,
    }
}

fn is_truth(schema: Schema, truth: bool) -> bool
    ensures { IsTrue result ↔ (schema ≡ TruthOf truth) }
{
    match schema {
        Schema::Truth(other) => other == truth,
        _ => false,
    }
}

/// A constant for a truth value, where there is one.
fn constant_for(rows: &[Schema], truth: bool) -> Result<Option<OpId>, AllocError>
    ensures { IfOk result (λ c. (sig : SignatureOf) → AreSchemas sig rows.now → IsConstantFor sig truth c) }
{
    for index in 0..rows.len() {
        if is_truth(rows[index], truth) {
            let number = number_at(index)?;
            return Ok(Some(number));
        }
    }
    Ok(None)
}

impl Schemata {
    /// The schemata of a signature whose sorts are in this order. They are found once, in one walk over its operators
    /// and two over its sorts.
    pub fn of(alloc: Global, signature: &Signature, order: &Poset) -> Result<Schemata, AllocError>
        requires accepted { IsAccepted signature.now }
        requires sorts { HasItsSorts signature.now }
        requires order { order.now ≡ order_of signature.now }
        ensures { IfOk result (AreSchemataOf signature.now) }
    {
        let rows = Seq::of(rows(alloc, signature, order)?);
        let yes = constant_for(rows.as_slice(), true)?;
        let no = constant_for(rows.as_slice(), false)?;
        Ok(Schemata { rows, yes, no })
    }

    /// An operator's schema, by one look-up.
    pub(crate) fn schema(&self, operator: OpId) -> Schema
        ensures { result ≡ unwrap_or (at_number self.now.rows operator) NothingOf }
    {
        match numbered(self.rows.as_slice(), operator) {
            Some(schema) => *schema,
            None => Schema::Nothing,
        }
    }

    /// A constant for a truth value.
    pub(crate) fn constant(&self, truth: bool) -> Option<OpId>
        ensures { (sig : SignatureOf) → AreSchemataOf sig self.now → IsConstantFor sig truth result }
    {
        if truth { self.yes } else { self.no }
    }

    /// Whether an operator is `if_then_else_fi`.
    pub fn is_choice(&self, operator: OpId) -> bool
        ensures { (sig : SignatureOf) → AreSchemataOf sig self.now → (IsTrue result ↔ IsPolymorphic sig operator (codes "if_then_else_fi")) }
    {
        match self.schema(operator) {
            Schema::Choice => true,
            _ => false,
        }
    }

    /// Whether an operator is a test: `true` of `_==_`, `false` of `_=/=_`.
    pub fn test(&self, operator: OpId) -> Option<bool>
        ensures { (sig : SignatureOf) → AreSchemataOf sig self.now
            → MatchOption result (¬ IsTestOf sig operator) (λ b. IsPolymorphic sig operator (cond b (codes "_==_") (codes "_=/=_"))) }
    {
        match self.schema(operator) {
            Schema::Equality => Some(true),
            Schema::Inequality => Some(false),
            _ => None,
        }
    }

    /// Whether a term is `true` or `false`.
    pub fn truth(&self, term: &Term) -> Option<bool>
        ensures { (sig : SignatureOf) → AreSchemataOf sig self.now → MatchOption result ((b : Bool) → IsTruth sig b term.now → ⊥) (λ b. IsTruth sig b term.now) }
    {
        let View::Op(operator, args) = term.view() else {
            return None;
        };
        if !args.is_empty() {
            return None;
        }
        match self.schema(operator) {
            Schema::Truth(truth) => Some(truth),
            _ => None,
        }
    }

    /// Whether an operator is `_+_` or `_*_` on numbers.
    pub fn sum(&self, operator: OpId) -> Option<Sum>
        ensures { (sig : SignatureOf) → AreSchemataOf sig self.now → MatchOption result ((IsBuiltIn sig operator plus → ⊥) × (IsBuiltIn sig operator times → ⊥)) (λ s. IsBuiltIn sig operator (of_sum s)) }
    {
        match self.schema(operator) {
            Schema::Number(on_numbers) => sum_of(on_numbers),
            _ => None,
        }
    }
}
