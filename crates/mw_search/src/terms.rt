// Terms and lists of terms, as goals take them apart.
ghost use Rattle.std.specs.Prelude.{◌≡◌, IfOk, option_map};
ghost use Rattle.mw_logic.specs.NormalForm.{identity_of, elements as elements_of, rebuilt, identity_or_empty};
ghost use Rattle.mw_logic.specs.Terms.{args_of, terms_of, front, skip};
ghost use Rattle.mw_term.specs.Signatures.{identity_of as identity_named};
ghost use Rattle.mw_arguments.specs.Bags.{same as same_as};
ghost use Rattle.mw_matching.specs.Found.{first_term};
ghost use Rattle.mw_search.specs.Goals.{top_of};

use crate::positions::{is_identity, stands};
use mw_canon::Facts;
use mw_term::{Identity, OpId, Term, View, compare, copy};
use std::alloc::{AllocError, Global};

pub fn is_same(a: &Term, b: &Term) -> bool
    ensures { result ≡ same_as a.now b.now }
{
    compare(a, b).is_eq()
}

/// The operator on top, or 0.
pub fn top(term: &Term) -> OpId
    ensures { result ≡ top_of term.now }
{
    match term.view() {
        View::Op(operator, _) => operator,
        _ => 0,
    }
}

/// The first argument, or 0.
pub fn first_of(alloc: Global, list: &Term) -> Result<Term, AllocError>
    ensures { IfOk result (λ t. t ≡ first_term (args_of list.now)) }
{
    match list.arguments() {
        [first, ..] => {
            let term = copy(first)?;
            Ok(term)
        }
        [] => {
            let term = Term::numeral(alloc, 0)?;
            Ok(term)
        }
    }
}

pub fn all_terms(alloc: Global, terms: &[Term]) -> Result<Vec<Term>, AllocError>
    ensures { IfOk result (λ ts. ts.items ≡ terms.now) }
{
    let mut made = Vec::with_capacity(alloc, terms.len())?;
    for term in terms {
        made.push(copy(term)?)?;
    }
    Ok(made)
}

/// The elements from there on.
pub fn rest_of(elements: &[Term], from: usize) -> &[Term]
    ensures { terms_of result.now ≡ skip from (terms_of elements.now) }
{
    let start = from.min(elements.len());
    &elements[start..]
}

/// So many elements from there on, as far as there are.
pub fn part(elements: &[Term], from: usize, count: usize) -> &[Term]
    ensures { terms_of result.now ≡ front count (skip from (terms_of elements.now)) }
{
    let start = from.min(elements.len());
    let rest = &elements[start..];
    let end = count.min(rest.len());
    &rest[..end]
}

/// An operator on the elements that a term has under it.
pub fn row_of(alloc: Global, facts: &Facts, operator: OpId, term: &Term) -> Result<Term, AllocError>
    ensures { IfOk result (λ r. args_of r ≡ elements_of (identity_of facts.now operator) operator term.now) }
{
    if stands(operator, term) {
        let same = copy(term)?;
        return Ok(same);
    }
    if is_identity(facts, operator, term) {
        let row = Term::apply(alloc, operator, Vec::new(alloc))?;
        return Ok(row);
    }
    let only = copy(term)?;
    let row = Term::apply(alloc, operator, vec![in alloc; only]?)?;
    Ok(row)
}

/// An associative operator over elements: one alone, and its identity over none.
pub fn rebuilt_of(
    alloc: Global,
    identity: Option<Identity>,
    operator: OpId,
    elements: &[Term],
) -> Result<Term, AllocError>
    ensures { IfOk result (λ t. t ≡ rebuilt (option_map identity_named identity) operator (terms_of elements.now)) }
{
    match elements {
        [] => nothing(alloc, identity, operator),
        [only] => copy(only),
        _ => {
            let args = all_terms(alloc, elements)?;
            let term = Term::apply(alloc, operator, args)?;
            Ok(term)
        }
    }
}

/// The same over some of a term's arguments: so many from a place on, as far as there are.
pub fn rebuilt_part(
    alloc: Global,
    identity: Option<Identity>,
    operator: OpId,
    row: &Term,
    from: usize,
    count: usize,
) -> Result<Term, AllocError>
    ensures { let ts = front count (skip from (args_of row.now)) in
        IfOk result (λ t. t ≡ rebuilt (option_map identity_named identity) operator ts) }
{
    match part(row.arguments(), from, count) {
        [] => nothing(alloc, identity, operator),
        [only] => copy(only),
        _ => {
            let term = row.section(alloc, operator, from, count)?;
            Ok(term)
        }
    }
}

/// The same over all of a term's arguments from a place on.
pub fn rebuilt_rest(
    alloc: Global,
    identity: Option<Identity>,
    operator: OpId,
    row: &Term,
    from: usize,
) -> Result<Term, AllocError>
    ensures { let ts = skip from (args_of row.now) in
        IfOk result (λ t. t ≡ rebuilt (option_map identity_named identity) operator ts) }
{
    let term = rebuilt_part(alloc, identity, operator, row, from, row.arguments().len())?;
    Ok(term)
}

/// What an associative operator is over no elements.
fn nothing(alloc: Global, identity: Option<Identity>, operator: OpId) -> Result<Term, AllocError>
    ensures { IfOk result (λ t. t ≡ identity_or_empty (option_map identity_named identity) operator) }
{
    match identity {
        Some(Identity::Constant(c)) => Term::apply(alloc, c, Vec::new(alloc)),
        Some(Identity::Nat(n)) => Term::numeral(alloc, n),
        None => Term::apply(alloc, operator, Vec::new(alloc)),
    }
}
