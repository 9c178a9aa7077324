// Substitutions as variables and values in order.
ghost use Rattle.std.specs.Prelude.{◌≡◌, IfOk};
ghost use Rattle.std.specs.List.{zip};
ghost use Rattle.mw_position.specs.Variables.{bound_values};

use mw_term::{Binding, Seq, Subst, Term, VarId, copy, copy_name};
use std::alloc::{AllocError, Global};

/// The values of a substitution.
pub fn values_of(alloc: Global, given: &Subst) -> Result<Vec<Term>, AllocError>
    ensures { IfOk result (λ vs. vs.items ≡ bound_values given.now) }
{
    let mut values = Vec::new(alloc);
    for binding in given.pairs.as_slice() {
        let value = copy(&binding.value)?;
        values.push(value)?;
    }
    Ok(values)
}

/// The same terms again.
pub fn copied(alloc: Global, terms: &[Term]) -> Result<Vec<Term>, AllocError>
    ensures { IfOk result (λ ts. ts.items ≡ terms.now) }
{
    let mut made = Vec::with_capacity(alloc, terms.len())?;
    for term in terms {
        made.push(copy(term)?)?;
    }
    Ok(made)
}

fn copy_variable(alloc: Global, x: &VarId) -> Result<VarId, AllocError>
    ensures { IfOk result (λ y. y ≡ x.now) }
{
    let name = copy_name(alloc, &x.name)?;
    let sort = x.sort;
    Ok(VarId { name, sort })
}

/// Variables with values, one by one, as far as there are both.
pub fn bound(alloc: Global, variables: &[VarId], values: &[Term]) -> Result<Subst, AllocError>
    ensures { IfOk result (λ s. s ≡ zip variables.now values.now) }
{
    let count = variables.len().min(values.len());
    let mut pairs = Vec::new(alloc);
    for i in 0..count {
        let variable = copy_variable(alloc, &variables[i])?;
        let value = copy(&values[i])?;
        pairs.push(Binding { variable, value })?;
    }
    Ok(Subst {
        pairs: Seq::of(pairs),
    })
}
