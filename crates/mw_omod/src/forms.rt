// Canonical forms of terms as they are written, of any size.
ghost use Rattle.std.specs.Prelude.{◌≡◌, IfOk};
ghost use Rattle.mw_logic.specs.NormalForm.{normal_form};
ghost use Rattle.mw_term.specs.Raws.{raw_term};
ghost use Rattle.mw_omod.specs.Seen.{forms_of};

use mw_canon::{Facts, rebuild};
use mw_term::{Raw, Term, VarId, copy_name};
use std::alloc::{AllocError, Global};

/// The canonical form of a term.
#[cycle(form)]
pub fn form(alloc: Global, facts: &Facts, term: &Raw) -> Result<Term, AllocError>
    ensures { IfOk result (λ t. t ≡ normal_form facts.now (raw_term term.now)) }
{
    match term {
        Raw::Nat(number) => Term::numeral(alloc, *number),
        Raw::Qid(name) => {
            let name = copy_name(alloc, name)?;
            Term::quoted(alloc, name)
        }
        Raw::Var(x) => {
            let name = copy_name(alloc, &x.name)?;
            let sort = x.sort;
            Term::variable(alloc, VarId { name, sort })
        }
        Raw::Op(operator, args) => {
            let made = all_forms(alloc, facts, args.as_slice())?;
            rebuild(alloc, facts, *operator, made)
        }
    }
}

#[cycle(form)]
fn all_forms(alloc: Global, facts: &Facts, terms: &[Raw]) -> Result<Vec<Term>, AllocError>
    ensures { IfOk result (λ ts. ts.items ≡ forms_of facts.now terms.now) }
{
    let mut made = Vec::with_capacity(alloc, terms.len())?;
    let mut rest = terms;
    while let [term, after @ ..] = rest {
        let one = form(alloc, facts, term)?;
        made.push(one)?;
        rest = after;
    }
    Ok(made)
}
