// Steps by the rows of the schemata.
ghost use Rattle.std.specs.Prelude.{◌≡◌, ℕ, cond, not, codes, IfOk};
ghost use Rattle.mw_logic.specs.Accepted.{IsAccepted, IsWellSorted};
ghost use Rattle.mw_logic.proofs.Canonical.{Each};
ghost use Rattle.mw_logic.specs.Built.{HasBuiltIns};
ghost use Rattle.mw_logic.specs.Judgements.{admitted_judgements, IsNormalBy};
ghost use Rattle.mw_logic.specs.Module.{Module, IsBuiltIn, IsPolymorphic};
ghost use Rattle.mw_logic.specs.NormalForm.{is_comm};
ghost use Rattle.mw_logic.specs.Signature.{Signature as SignatureOf};
ghost use Rattle.mw_logic.specs.Term.{apply as applied, constant as constant_of};
ghost use Rattle.mw_logic.specs.Terms.{terms_of};
ghost use Rattle.mw_canon.specs.Axioms.{HasAxioms};
ghost use Rattle.mw_deduction.specs.Tops.{IsNormalTerm};
ghost use Rattle.mw_builtin.specs.Schemata.{AreSchemataOf, on_numbers as on_numbers_of};
ghost use Rattle.mw_builtin.specs.Steps.{IsStepOf, IsGroundTerm, IsAsked, IsAnyTerm, IsSide, AreNeighbours, met_for};

use crate::pairs::{Found, first_pair};
use crate::schema::{BuiltIn, Schema};
use crate::table::Schemata;
use mw_canon::{Axioms, Facts};
use mw_term::{OpId, Seq, Term, copy, number_at, same};
use std::alloc::{AllocError, Global};

/// What a row does at the top of a term.
#[derive(Drop)]
pub enum Met {
    /// No row applies.
    Nothing,
    /// What the numbers take of the arguments, or the whole, becomes a term.
    Gives { take: Option<Seq<u32>>, to: Term },
    /// It is a sum or product of 2^128 or more.
    TooBig { take: Option<Seq<u32>> },
}

fn is_commutative(axioms: Axioms) -> bool
    ensures { (sig : SignatureOf) (f : ℕ) → HasAxioms sig f axioms → result ≡ is_comm sig f }
{
    match axioms {
        Axioms::Plain | Axioms::Successor => false,
        Axioms::Commutative => true,
        Axioms::Associative { comm, .. } => comm,
    }
}

/// The numbers of two neighbours by the index of the second, where they aren't all arguments.
fn neighbours(alloc: Global, count: usize, index: usize) -> Result<Option<Seq<u32>>, AllocError>
    ensures { IfOk result (AreNeighbours count index) }
{
    if count == 2 {
        return Ok(None);
    }
    let number = number_at(index)?;
    let numbers = vec![in alloc; number - 1, number]?;
    Ok(Some(Seq::of(numbers)))
}

fn constant_term(alloc: Global, constant: OpId) -> Result<Term, AllocError>
    ensures { IfOk result (λ t. t ≡ constant_of constant) }
{
    let term = Term::apply(alloc, constant, Vec::new(alloc))?;
    Ok(term)
}

fn gives(alloc: Global, take: Option<Seq<u32>>, found: Found) -> Result<Met, AllocError>
    ensures { IfOk result (λ m. m ≡ met_for take found) }
{
    let to = match found {
        Found::Number(number) => Term::numeral(alloc, number)?,
        Found::Constant(constant) => constant_term(alloc, constant)?,
        Found::TooBig => return Ok(Met::TooBig { take }),
    };
    Ok(Met::Gives { take, to })
}

/// What a test of equality, or of the contrary, gives.
fn tested(equal: bool, where_same: bool) -> bool
    ensures { result ≡ cond where_same equal (not equal) }
{
    if where_same { equal } else { !equal }
}

fn branch<'t>(truth: bool, first: &'t Term, second: &'t Term) -> &'t Term
    ensures { result.now ≡ cond truth first.now second.now }
{
    if truth { first } else { second }
}

impl Schemata {
    /// The step by an operator on numbers.
    fn on_numbers(
        &self,
        alloc: Global,
        comm: bool,
        operator: BuiltIn,
        args: &[Term],
    ) -> Result<Met, AllocError>
        ensures { (sig : SignatureOf) (f : ℕ) → IsAsked sig self.now f args.now → IsBuiltIn sig f (on_numbers_of operator)
            → comm ≡ is_comm sig f
            → IfOk result (IsStepOf sig (IsSide sig f args.now) (applied f (terms_of args.now))) }
    {
        let Some(pair) = first_pair(self, operator, comm, args) else {
            return Ok(Met::Nothing);
        };
        let take = neighbours(alloc, args.len(), pair.index)?;
        let met = gives(alloc, take, pair.found)?;
        Ok(met)
    }

    /// The step by a test of the first two arguments, which gives this truth value where they are the same.
    fn on_equals(&self, alloc: Global, where_same: bool, args: &[Term]) -> Result<Met, AllocError>
        ensures { (sig : SignatureOf) (f : ℕ) → IsAsked sig self.now f args.now
            → IsPolymorphic sig f (cond where_same (codes "_==_") (codes "_=/=_"))
            → IfOk result (IsStepOf sig (IsSide sig f args.now) (applied f (terms_of args.now))) }
    {
        let [first, second, ..] = args else {
            return Ok(Met::Nothing);
        };
        let truth = tested(same(first, second), where_same);
        let Some(constant) = self.constant(truth) else {
            return Ok(Met::Nothing);
        };
        let take = neighbours(alloc, args.len(), 1)?;
        let met = gives(alloc, take, Found::Constant(constant))?;
        Ok(met)
    }

    /// The step by a choice between the second and the third argument.
    fn on_choice(&self, args: &[Term]) -> Result<Met, AllocError>
        ensures { (sig : SignatureOf) (f : ℕ) → IsAsked sig self.now f args.now
            → IsPolymorphic sig f (codes "if_then_else_fi")
            → IfOk result (IsStepOf sig (IsSide sig f args.now) (applied f (terms_of args.now))) }
    {
        if args.len() != 3 {
            return Ok(Met::Nothing);
        }
        let Some(truth) = self.truth(&args[0]) else {
            return Ok(Met::Nothing);
        };
        let to = copy(branch(truth, &args[1], &args[2]))?;
        Ok(Met::Gives { take: None, to })
    }

    /// What a row does at the top of the operator on these arguments. Where a test tells two terms apart, its row wants
    /// both normal: they are the first two arguments. Under a commutative operator the least numerals come first.
    pub fn step(
        &self,
        alloc: Global,
        facts: &Facts,
        operator: OpId,
        args: &[Term],
    ) -> Result<Met, AllocError>
        // Of normal arguments.
        ensures normal { (M : Module) (n : ℕ) → AreSchemataOf M.signature self.now → facts.now ≡ M.signature → IsAccepted M.signature → IsWellSorted M.signature → HasBuiltIns M.signature
            → IsGroundTerm M.signature (applied operator (terms_of args.now)) → Each (IsNormalTerm M (admitted_judgements M n).Fails) (terms_of args.now)
            → IfOk result (IsStepOf M.signature (IsNormalBy M (admitted_judgements M n).Fails) (applied operator (terms_of args.now))) }
        // Of any arguments, by rows that don't ask whether their sides are normal.
        ensures rows { (sig : SignatureOf) → AreSchemataOf sig self.now → facts.now ≡ sig
            → IsAccepted sig → IsWellSorted sig → HasBuiltIns sig → IsGroundTerm sig (applied operator (terms_of args.now))
            → IfOk result (IsStepOf sig IsAnyTerm (applied operator (terms_of args.now))) }
        // Which sides they tell apart.
        ensures sides { (sig : SignatureOf) → AreSchemataOf sig self.now → facts.now ≡ sig
            → IsAccepted sig → IsWellSorted sig → HasBuiltIns sig → IsGroundTerm sig (applied operator (terms_of args.now))
            → IfOk result (IsStepOf sig (IsSide sig operator args.now) (applied operator (terms_of args.now))) }
    {
        match self.schema(operator) {
            Schema::Nothing | Schema::Truth(_) => Ok(Met::Nothing),
            Schema::Number(on_numbers) => {
                let comm = is_commutative(facts.axioms(operator));
                let met = self.on_numbers(alloc, comm, on_numbers, args)?;
                Ok(met)
            }
            Schema::Equality => {
                let met = self.on_equals(alloc, true, args)?;
                Ok(met)
            }
            Schema::Inequality => {
                let met = self.on_equals(alloc, false, args)?;
                Ok(met)
            }
            Schema::Choice => {
                let met = self.on_choice(args)?;
                Ok(met)
            }
        }
    }
}
