// What comes of a statement by the values of its variables.
ghost use Rattle.std.specs.Prelude.{◌≡◌, IfOk, map};
ghost use Rattle.std.specs.List.{zip};
ghost use Rattle.mw_logic.specs.NormalForm.{normal_form};
ghost use Rattle.mw_logic.specs.Parts.{nested};
ghost use Rattle.mw_logic.specs.Substitution.{instance as instance_of};
ghost use Rattle.mw_prooftext.specs.Applied.{IsApplied};

use mw_canon::{CanonError, instance};
use mw_least::Ctx;
use mw_term::{Binding, Seq, Statement, Subst, Term, VarId, copy, copy_name};
use std::alloc::{AllocError, Global};

/// A variable with its value.
fn binding(alloc: Global, variable: &VarId, value: &Term) -> Result<Binding, AllocError>
    ensures variable { IfOk result (λ b. b.variable ≡ variable.now) }
    ensures value { IfOk result (λ b. b.value ≡ value.now) }
{
    let name = copy_name(alloc, &variable.name)?;
    let sort = variable.sort;
    let variable = VarId { name, sort };
    let value = copy(value)?;
    Ok(Binding { variable, value })
}

/// These variables with their values, in order.
fn bindings(alloc: Global, variables: &[VarId], values: &[Term]) -> Result<Subst, AllocError>
    ensures { IfOk result (λ s. s ≡ zip variables.now values.now) }
{
    let mut pairs = Vec::with_capacity(alloc, variables.len())?;
    let mut left = variables;
    let mut rest = values;
    while let [variable, others @ ..] = left {
        if let [value, behind @ ..] = rest {
            pairs.push(binding(alloc, variable, value)?)?;
            rest = behind;
        }
        left = others;
    }
    let pairs = Seq::of(pairs);
    Ok(Subst { pairs })
}

/// The canonical instance of the right side of a statement that is applied by these values.
pub(crate) fn right_side(
    alloc: Global,
    context: &Ctx,
    statement: &Statement,
    values: &[Term],
) -> Result<Term, AllocError>
    requires { IsApplied context.now statement.now values.now }
    ensures { let sig = context.now.signature in
        IfOk result
        (λ t. t ≡ normal_form sig
        (instance_of (zip statement.now.variables (map (nested sig) values.now)) statement.now.right)) }
{
    context.shows();
    let substitution = bindings(alloc, statement.variables.as_slice(), values)?;
    match instance(alloc, context.facts(), &substitution, &statement.right) {
        Ok(term) => Ok(term),
        Err(CanonError::Memory) => Err(AllocError),
        Err(CanonError::Deep) => unreachable!(),
        Err(CanonError::Nat) => unreachable!(),
    }
}
