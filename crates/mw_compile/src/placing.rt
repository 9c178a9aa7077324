// Positions in place of variables.
ghost use Rattle.std.specs.Prelude.{◌≡◌, IfOk, IsTrue};
ghost use Rattle.mw_logic.specs.Term.{Variable, variable as a_variable};
ghost use Rattle.mw_logic.specs.Terms.{terms_of};
ghost use Rattle.mw_position.specs.Positions.{position as position_of};
ghost use Rattle.mw_position.specs.Variables.{placed, all_placed};
ghost use Rattle.mw_compile.specs.Compiled.{AreAmong, AreAllAmong};

use mw_pattern::Places;
use mw_term::{Name, Seq, Term, VarId, View, copy, copy_name};
use std::alloc::{AllocError, Global};

/// The variable of a position. More than numbers can tell counts as want of memory.
pub fn position(alloc: Global, place: usize) -> Result<Term, AllocError>
    ensures { IfOk result (λ t. t ≡ a_variable (position_of place)) }
{
    if place > u32::MAX as usize {
        return Err(AllocError);
    }
    let name = Name::of(Vec::new(alloc));
    let variable = VarId {
        name,
        sort: place as u32,
    };
    let term = Term::variable(alloc, variable)?;
    Ok(term)
}

/// The term with the position of each variable in its place.
#[cycle(placed)]
pub fn by_position(alloc: Global, places: &Places<'_>, term: &Term) -> Result<Term, AllocError>
    requires { AreAmong places.now term.now }
    ensures { IfOk result (λ t. t ≡ placed places.now term.now) }
{
    match term.view() {
        View::Var(x) => position(alloc, places.at(x)),
        View::Op(operator, args) => {
            let made = all_by_position(alloc, places, args)?;
            let term = Term::apply(alloc, operator, made)?;
            Ok(term)
        }
        _ => copy(term),
    }
}

#[cycle(placed)]
fn all_by_position(
    alloc: Global,
    places: &Places<'_>,
    terms: &[Term],
) -> Result<Vec<Term>, AllocError>
    requires { AreAllAmong places.now (terms_of terms.now) }
    ensures { IfOk result (λ ts. terms_of ts.items ≡ all_placed places.now (terms_of terms.now)) }
{
    let mut made = Vec::with_capacity(alloc, terms.len())?;
    for term in terms {
        let term = by_position(alloc, places, term)?;
        made.push(term)?;
    }
    Ok(made)
}

/// The variables, by position.
pub fn variables_of(alloc: Global, places: &Places<'_>) -> Result<Seq<VarId>, AllocError>
    ensures { IfOk result (λ xs. xs ≡ places.now) }
{
    let mut variables = Vec::with_capacity(alloc, places.len())?;
    for i in 0..places.len() {
        let x = places.variable(i);
        let name = copy_name(alloc, &x.name)?;
        variables.push(VarId { name, sort: x.sort })?;
    }
    Ok(Seq::of(variables))
}
