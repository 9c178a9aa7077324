// Which variables of statements are bound.
ghost use Rattle.std.specs.Prelude.{◌≡◌, [], map, IfOk, OnOk};
ghost use Rattle.mw_position.specs.Variables.{met};
ghost use Rattle.mw_term.specs.Raws.{raw_term};
ghost use Rattle.mw_term.specs.Statements.{fragment_of};
ghost use Rattle.mw_text.specs.Mentions.{missing_in};
ghost use Rattle.mw_build.specs.Statements as statements;

use mw_omod::{meet_all, mentioned};
use mw_term::{Fragment, Raw, VarId};
use mw_text::Variables;
use std::alloc::{AllocError, Global};

/// The variables of what is evaluated in a fragment.
fn used_in(alloc: Global, fragment: &Fragment) -> Result<Variables, AllocError>
    ensures { IfOk result (λ m. m ≡ statements.used_in (fragment_of fragment.now)) }
{
    match fragment {
        Fragment::Equal(left, right) => {
            let mut variables = mentioned(alloc, left)?;
            meet_all(alloc, &mut variables, right)?;
            Ok(variables)
        }
        Fragment::Match(_, term) => mentioned(alloc, term),
        Fragment::HasSort(term, _) => mentioned(alloc, term),
        Fragment::Holds(term) => mentioned(alloc, term),
    }
}

/// Adds the variables that a fragment binds.
fn bind(alloc: Global, bound: &mut Variables, fragment: &Fragment) -> Result<(), AllocError>
    ensures { OnOk result (bound.new ≡ statements.bound_behind bound.old (fragment_of fragment.now)) }
{
    match fragment {
        Fragment::Match(pattern, _) => meet_all(alloc, bound, pattern),
        _ => Ok(()),
    }
}

/// Adds the variables that fragments bind.
fn bind_all(alloc: Global, bound: &mut Variables, fragments: &[Fragment]) -> Result<(), AllocError>
    ensures { OnOk result (bound.new ≡ statements.bound_by bound.old (map fragment_of fragments.now)) }
{
    let mut rest = fragments;
    while let [fragment, after @ ..] = rest {
        bind(alloc, bound, fragment)?;
        rest = after;
    }
    Ok(())
}

/// The first variable of the right side that neither the left side nor a fragment binds.
fn unbound_on_the_right(
    alloc: Global,
    left: &Raw,
    right: &Raw,
    fragments: &[Fragment],
) -> Result<Option<VarId>, AllocError>
    ensures { IfOk result (λ o. o ≡ missing_in (statements.bound_by (met [] (raw_term left.now)) (map fragment_of fragments.now)) (met [] (raw_term right.now))) }
{
    let mut bound = mentioned(alloc, left)?;
    bind_all(alloc, &mut bound, fragments)?;
    let used = mentioned(alloc, right)?;
    used.missing_in(alloc, &bound)
}

/// The first variable of what is evaluated in a fragment that isn't among the bound ones.
fn missing(
    alloc: Global,
    bound: &Variables,
    fragment: &Fragment,
) -> Result<Option<VarId>, AllocError>
    ensures { IfOk result (λ o. o ≡ missing_in bound.now (statements.used_in (fragment_of fragment.now))) }
{
    let used = used_in(alloc, fragment)?;
    used.missing_in(alloc, bound)
}

/// The first variable of what is evaluated in fragments that isn't bound by then.
fn loose(
    alloc: Global,
    bound: &mut Variables,
    fragments: &[Fragment],
) -> Result<Option<VarId>, AllocError>
    ensures { IfOk result (λ o. o ≡ statements.loose bound.old (map fragment_of fragments.now)) }
{
    let mut rest = fragments;
    while let [fragment, after @ ..] = rest {
        if let Some(variable) = missing(alloc, bound, fragment)? {
            return Ok(Some(variable));
        }
        bind(alloc, bound, fragment)?;
        rest = after;
    }
    Ok(None)
}

/// The first variable of the right side, or else of the fragments, that isn't bound.
pub fn unbound(
    alloc: Global,
    left: &Raw,
    right: &Raw,
    fragments: &[Fragment],
) -> Result<Option<VarId>, AllocError>
    ensures { IfOk result (λ o. o ≡ statements.unbound (raw_term left.now) (raw_term right.now) (map fragment_of fragments.now)) }
{
    if let Some(variable) = unbound_on_the_right(alloc, left, right, fragments)? {
        return Ok(Some(variable));
    }
    let mut bound = mentioned(alloc, left)?;
    loose(alloc, &mut bound, fragments)
}
