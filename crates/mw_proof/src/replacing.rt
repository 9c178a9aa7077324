// One replacement, of a whole term.
ghost use Rattle.std.specs.Prelude.{◌≡◌, ◌≤◌, Some, IfOk};
ghost use Rattle.mw_logic.specs.Signature.{at_number, IsRawTerm};
ghost use Rattle.mw_logic.specs.Substitution.{IsSubstitution};
ghost use Rattle.mw_logic.specs.Module.{Module, Statement as StatementOf};
ghost use Rattle.mw_term.specs.Raws.{raw_term};
ghost use Rattle.mw_canon.specs.Canonical.{IsAdmittedTerm, HasAdmittedValues, meant};
ghost use Rattle.mw_trail.specs.Tracks.{moves};
ghost use Rattle.mw_proof.specs.Replacing.{AreMore, AreSides, HasInstances, MayApply, Applies, MeetsRow, AppliesRow};
ghost use Rattle.mw_proof.specs.Replacing.{MayReplace, Replaces, bindings, instance_in, value_of, values_of};

use crate::proved::Proved;
use mw_canon::{CanonError, Values, instance};
use mw_least::Ctx;
use mw_term::{Binding, Raw, Seq, Subst, Term, VarId, copy, copy_name, numbered};
use mw_trail::Trail;
use std::alloc::{AllocError, Global};

/// What replaces a term.
#[derive(Drop)]
pub enum By<'m> {
    /// The statement of this number, with values of its variables and the evidence for its condition: for each side of
    /// each fragment, in order, a proof.
    Statement(u32, Subst, Seq<Proved<'m>>),
    /// A row of the built-in schemata, by the terms that it leads from and to.
    Row(Term, Term),
}

/// The proof that is one replacement, of a whole term, in this rank. The statement must be there and executable and
/// have all its variables bound, its condition must be shown by the evidence, which is of lower ranks and begins at the
/// canonical instances of the condition's sides, and both instances must be admitted; a row must be one.
pub fn replace<'m>(
    alloc: Global,
    context: &'m Ctx,
    rank: u8,
    by: By<'m>,
) -> Result<Proved<'m>, AllocError>
    requires low { rank ≤ 63 }
    requires may { MayReplace context.now rank by }
    ensures over { IfOk result (λ p. p.over ≡ context.now) }
    ensures rank { IfOk result (λ p. p.rank ≡ rank) }
    ensures replaces { IfOk result (Replaces context.now by.entry) }
{
    match by {
        By::Statement(number, substitution, evidence) => {
            let evidence = evidence.into_vec();
            let made = applied(alloc, context, rank, number, &substitution, evidence)?;
            Ok(made)
        }
        By::Row(from, to) => {
            let made = met(alloc, context, rank, from, to)?;
            Ok(made)
        }
    }
}

/// A row.
fn met<'m>(
    alloc: Global,
    context: &'m Ctx,
    rank: u8,
    from: Term,
    to: Term,
) -> Result<Proved<'m>, AllocError>
    requires low { rank ≤ 63 }
    requires may { MeetsRow context.now rank from to }
    ensures over { IfOk result (λ p. p.over ≡ context.now) }
    ensures rank { IfOk result (λ p. p.rank ≡ rank) }
    ensures applies { IfOk result (AppliesRow context.now from to) }
{
    context.shows();
    let mut trail = Trail::new(alloc);
    trail.row(copy(&to)?)?;
    Ok(Proved::of(context, rank, from, to, trail))
}

/// The statement of this number, with its evidence.
fn applied<'m>(
    alloc: Global,
    context: &'m Ctx,
    rank: u8,
    number: u32,
    substitution: &Subst,
    evidence: Vec<Proved<'m>>,
) -> Result<Proved<'m>, AllocError>
    requires low { rank ≤ 63 }
    requires may { MayApply context.now rank number substitution.now evidence.items }
    ensures over { IfOk result (λ p. p.over ≡ context.now) }
    ensures rank { IfOk result (λ p. p.rank ≡ rank) }
    ensures applies { IfOk result
        (λ p. (st : StatementOf) → at_number context.now.statements number ≡ Some st
        → Applies context.now number substitution.now evidence.entry.items st p) }
{
    context.shows();
    let Instances {
        from,
        to,
        mut values,
    } = both_instances(alloc, context, number, substitution)?;
    let mut trail = sides(alloc, evidence)?;
    trail.apply(number as usize, &mut values)?;
    Ok(Proved::of(context, rank, from, to, trail))
}

/// A trail that shows deductions, one side after another.
fn sides(alloc: Global, evidence: Vec<Proved<'_>>) -> Result<Trail, AllocError>
    ensures { IfOk result (λ t. (M : Module) → AreSides M evidence.entry.items (moves M t)) }
{
    let mut waiting = evidence;
    waiting.reverse();
    let mut trail = Trail::new(alloc);
    while let Some(inner) = waiting.pop() {
        trail = with_side(alloc, trail, inner)?;
    }
    Ok(trail)
}

/// A trail, and then a side.
fn with_side(alloc: Global, trail: Trail, inner: Proved<'_>) -> Result<Trail, AllocError>
    ensures { IfOk result (λ t. (M : Module) → AreMore M inner.entry (moves M trail) (moves M t)) }
{
    let mut trail = trail;
    trail.begin(copy(inner.from())?, &mut Vec::new(alloc))?;
    let mut trail = trail.followed_by(inner.into_trail())?;
    trail.end()?;
    Ok(trail)
}

/// Both instances of a statement, and the values of its variables in their order.
struct Instances {
    from: Term,
    to: Term,
    values: Vec<Term>,
}

fn both_instances(
    alloc: Global,
    context: &Ctx,
    number: u32,
    substitution: &Subst,
) -> Result<Instances, AllocError>
    requires { HasInstances context.now number substitution.now }
    ensures from { IfOk result
        (λ i. (st : StatementOf) → at_number context.now.statements number ≡ Some st
        → i.from ≡ instance_in context.now.signature (bindings substitution.now st.variables) st.left) }
    ensures to { IfOk result
        (λ i. (st : StatementOf) → at_number context.now.statements number ≡ Some st
        → i.to ≡ instance_in context.now.signature (bindings substitution.now st.variables) st.right) }
    ensures values { IfOk result
        (λ i. (st : StatementOf) → at_number context.now.statements number ≡ Some st
        → i.values.items ≡ values_of substitution.now st.variables) }
{
    context.shows();
    let Some(statement) = numbered(context.statements(), number) else {
        unreachable!()
    };
    let found = Values::of(alloc, substitution)?;
    let variables = statement.variables.as_slice();
    let bound = bindings_of(alloc, &found, variables)?;
    let from = admitted(alloc, context, &bound, &statement.left)?;
    let to = admitted(alloc, context, &bound, &statement.right)?;
    let values = in_order(alloc, &found, variables)?;
    Ok(Instances { from, to, values })
}

/// An instance that is admitted.
fn admitted(
    alloc: Global,
    context: &Ctx,
    substitution: &Subst,
    raw: &Raw,
) -> Result<Term, AllocError>
    requires values { HasAdmittedValues context.now.signature substitution.now }
    requires substitution { IsSubstitution context.now.signature (meant context.now.signature substitution.now) }
    requires raw { IsRawTerm context.now.signature (raw_term raw.now) }
    requires admitted { let sig = context.now.signature in
        IsAdmittedTerm sig (instance_in sig substitution.now (raw_term raw.now)) }
    ensures { IfOk result (λ t. t ≡ instance_in context.now.signature substitution.now (raw_term raw.now)) }
{
    context.shows();
    match instance(alloc, context.facts(), substitution, raw) {
        Ok(term) => Ok(term),
        Err(CanonError::Memory) => Err(AllocError),
        Err(CanonError::Deep) => unreachable!(),
        Err(CanonError::Nat) => unreachable!(),
    }
}

/// The values of these variables, in their order. A variable without one stands for itself.
fn in_order(alloc: Global, values: &Values, variables: &[VarId]) -> Result<Vec<Term>, AllocError>
    ensures { IfOk result (λ ts. ts.items ≡ values_of values.now variables.now) }
{
    let mut found = Vec::with_capacity(alloc, variables.len())?;
    for variable in variables {
        found.push(value(alloc, values, variable)?)?;
    }
    Ok(found)
}

/// These variables with their values.
fn bindings_of(alloc: Global, values: &Values, variables: &[VarId]) -> Result<Subst, AllocError>
    ensures { IfOk result (λ s. s ≡ bindings values.now variables.now) }
{
    let mut pairs = Vec::with_capacity(alloc, variables.len())?;
    for x in variables {
        let variable = copy_variable(alloc, x)?;
        let value = value(alloc, values, x)?;
        pairs.push(Binding { variable, value })?;
    }
    let pairs = Seq::of(pairs);
    Ok(Subst { pairs })
}

fn value(alloc: Global, values: &Values, variable: &VarId) -> Result<Term, AllocError>
    ensures { IfOk result (λ t. t ≡ value_of values.now variable.now) }
{
    match values.at(variable) {
        Some(value) => copy(value),
        None => {
            let variable = copy_variable(alloc, variable)?;
            Term::variable(alloc, variable)
        }
    }
}

fn copy_variable(alloc: Global, variable: &VarId) -> Result<VarId, AllocError>
    ensures { IfOk result (λ x. x ≡ variable.now) }
{
    let name = copy_name(alloc, &variable.name)?;
    let sort = variable.sort;
    Ok(VarId { name, sort })
}
