// The variables of a pattern, in the order in which they are met.
ghost use Rattle.std.specs.Prelude.{◌≡◌, IfOk, OnOk};
ghost use Rattle.mw_position.specs.Variables.{AreDistinct, bound_variables, met};

use mw_pattern::Places;
use mw_term::{Subst, Term, View};
use std::alloc::{AllocError, Global};

/// The variables of a substitution, by position.
pub fn places_of<'a>(alloc: Global, given: &'a Subst) -> Result<Places<'a>, AllocError>
    requires { AreDistinct (bound_variables given.now) }
    ensures { IfOk result (λ p. p ≡ bound_variables given.now) }
{
    let mut places = Places::none(alloc);
    for pair in given.pairs.as_slice() {
        places.meet(&pair.variable)?;
    }
    Ok(places)
}

/// Puts the variables of a term behind the others, from the left, each once.
pub fn meet_all<'a>(places: &mut Places<'a>, term: &'a Term) -> Result<(), AllocError>
    ensures { OnOk result (places.new ≡ met places.old term.now) }
{
    match term.view() {
        View::Var(x) => places.meet(x),
        View::Op(_, args) => {
            let mut rest = args;
            while let [arg, after @ ..] = rest {
                meet_all(places, arg)?;
                rest = after;
            }
            Ok(())
        }
        _ => Ok(()),
    }
}
