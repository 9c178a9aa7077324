// The variables of terms and statements, in order of first mention.
ghost use Rattle.std.specs.Prelude.{◌≡◌, [], ◌∷◌, map, IfOk, OnOk};
ghost use Rattle.mw_position.specs.Variables.{met};
ghost use Rattle.mw_term.specs.Raws.{raw_term};
ghost use Rattle.mw_term.specs.Statements.{fragment_of};
ghost use Rattle.mw_least.specs.Conditions.{met_fragments};

use mw_term::{Fragment, Raw, Seq, VarId};
use mw_text::Variables;
use std::alloc::{AllocError, Global};

/// Meets the variables of a term, from the left.
pub fn meet_all(alloc: Global, variables: &mut Variables, term: &Raw) -> Result<(), AllocError>
    ensures { OnOk result (variables.new ≡ met variables.old (raw_term term.now)) }
{
    match term {
        Raw::Var(variable) => {
            variables.meet(alloc, variable.name.as_slice(), variable.sort)?;
            Ok(())
        }
        Raw::Op(_, args) => {
            let mut rest = args.as_slice();
            while let [arg, after @ ..] = rest {
                meet_all(alloc, variables, arg)?;
                rest = after;
            }
            Ok(())
        }
        _ => Ok(()),
    }
}

/// The variables of a term in order of first mention.
pub fn mentioned(alloc: Global, term: &Raw) -> Result<Variables, AllocError>
    ensures { IfOk result (λ m. m ≡ met [] (raw_term term.now)) }
{
    let mut variables = Variables::new(alloc)?;
    meet_all(alloc, &mut variables, term)?;
    Ok(variables)
}

/// Meets the variables of two terms.
fn meet_both(
    alloc: Global,
    variables: &mut Variables,
    first: &Raw,
    second: &Raw,
) -> Result<(), AllocError>
    ensures { OnOk result (variables.new ≡ met (met variables.old (raw_term first.now)) (raw_term second.now)) }
{
    meet_all(alloc, variables, first)?;
    meet_all(alloc, variables, second)
}

/// Meets the variables of a fragment.
fn meet_fragment(
    alloc: Global,
    variables: &mut Variables,
    fragment: &Fragment,
) -> Result<(), AllocError>
    ensures { OnOk result (variables.new ≡ met_fragments variables.old (fragment_of fragment.now ∷ [])) }
{
    match fragment {
        Fragment::Equal(left, right) => meet_both(alloc, variables, left, right),
        Fragment::Match(pattern, term) => meet_both(alloc, variables, pattern, term),
        Fragment::HasSort(term, _) => meet_all(alloc, variables, term),
        Fragment::Holds(term) => meet_all(alloc, variables, term),
    }
}

/// Meets the variables of fragments.
fn meet_fragments(
    alloc: Global,
    variables: &mut Variables,
    fragments: &[Fragment],
) -> Result<(), AllocError>
    ensures { OnOk result (variables.new ≡ met_fragments variables.old (map fragment_of fragments.now)) }
{
    let mut rest = fragments;
    while let [fragment, after @ ..] = rest {
        meet_fragment(alloc, variables, fragment)?;
        rest = after;
    }
    Ok(())
}

/// The variables of two sides and fragments in order of first mention.
pub fn variables_of(
    alloc: Global,
    left: &Raw,
    right: &Raw,
    fragments: &[Fragment],
) -> Result<Seq<VarId>, AllocError>
    ensures { IfOk result (λ xs. xs ≡ met_fragments (met (met [] (raw_term left.now)) (raw_term right.now)) (map fragment_of fragments.now)) }
{
    let mut variables = mentioned(alloc, left)?;
    meet_all(alloc, &mut variables, right)?;
    meet_fragments(alloc, &mut variables, fragments)?;
    variables.list(alloc)
}
