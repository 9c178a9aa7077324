// What the statement of a step does at its place.
ghost use Rattle.std.specs.Prelude.{◌≡◌, ◌↔◌, length, IfOk, IsTrue, MatchOption};
ghost use Rattle.mw_logic.specs.Module.{Statement as StatementOf, IsStatement};
ghost use Rattle.mw_logic.specs.Substitution.{IsSubstitution};
ghost use Rattle.mw_canon.specs.Canonical.{IsAdmittedTerm};
ghost use Rattle.mw_position.specs.Variables.{AreDistinct, sorts_of as sorts_in_order};
ghost use Rattle.mw_prooftext.specs.Grounds.{spot_of};
ghost use Rattle.mw_check.specs.Answers.{AreAdmittedTerms, IsPlaced, values_by_name};

use crate::replacing::{next_term, replaces};
use mw_items::Step;
use mw_least::Ctx;
use mw_match::{bound, have_sorts};
use mw_term::{SortId, Statement, Subst, Term, VarId, numbered};
use std::alloc::{AllocError, Global};

/// What a statement does at a place, whatever comes of its condition.
#[derive(Drop)]
pub enum Placed {
    /// A value doesn't have its variable's sort.
    IllSorted,
    /// The part isn't there, or isn't the left side's instance.
    NoPart,
    /// It replaces: its values by name, and the next term, where that is admitted.
    Next(Subst, Option<Term>),
}

/// The statement that a step names, if it is there, executable, and `owise` exactly where the step says so.
pub fn named<'m>(context: &'m Ctx, step: &Step) -> Option<&'m Statement>
    ensures { MatchOption result
        ((st : StatementOf) → IsStatement context.now step.now.statement st → ¬ (step.now.owise ≡ st.owise))
        (λ st. IsStatement context.now step.now.statement st.now × (step.now.owise ≡ st.now.owise)) }
{
    let statement = numbered(context.statements(), step.statement)?;
    if statement.executable && statement.owise == step.owise {
        Some(statement)
    } else {
        None
    }
}

/// What the statement does at the step's place, by the step's values. Another number of values than the statement has
/// variables counts as want of memory: texts that were read have none.
pub fn place_step(
    alloc: Global,
    context: &Ctx,
    statement: &Statement,
    step: &Step,
    term: &Term,
) -> Result<Placed, AllocError>
    requires statement { IsStatement context.now step.now.statement statement.now }
    requires values { AreAdmittedTerms context.now.signature step.now.values }
    requires term { IsAdmittedTerm context.now.signature term.now }
    ensures { IfOk result (IsPlaced context.now statement.now (spot_of step.now.place) step.now.values term.now) }
{
    context.shows();
    let variables = statement.variables.as_slice();
    let values = step.values.as_slice();
    if values.len() != variables.len() {
        return Err(AllocError);
    }
    if !are_sorted(alloc, context, variables, values)? {
        return Ok(Placed::IllSorted);
    }
    let values = bound(alloc, variables, values)?;
    if !replaces(alloc, context, statement, &values, &step.place, term)? {
        return Ok(Placed::NoPart);
    }
    let next = next_term(alloc, context, statement, &values, &step.place, term)?;
    Ok(Placed::Next(values, next))
}

/// Whether values have the sorts of these variables, no two of which are the same.
fn are_sorted(
    alloc: Global,
    context: &Ctx,
    variables: &[VarId],
    values: &[Term],
) -> Result<bool, AllocError>
    requires distinct { AreDistinct variables.now }
    requires size { length values.now ≡ length variables.now }
    requires values { AreAdmittedTerms context.now.signature values.now }
    ensures { let s = values_by_name context.now.signature variables.now values.now in
        IfOk result (λ sorted. IsTrue sorted ↔ IsSubstitution context.now.signature s) }
{
    context.shows();
    let sorts = sorts_of(alloc, variables)?;
    Ok(have_sorts(context, values, sorts.as_slice()))
}

/// The sorts of variables, in order.
fn sorts_of(alloc: Global, variables: &[VarId]) -> Result<Vec<SortId>, AllocError>
    ensures { IfOk result (λ sorts. sorts.items ≡ sorts_in_order variables.now) }
{
    let mut sorts = Vec::with_capacity(alloc, variables.len())?;
    for variable in variables {
        sorts.push(variable.sort)?;
    }
    Ok(sorts)
}
