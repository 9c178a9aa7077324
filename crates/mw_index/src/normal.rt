// Canonical forms of terms as they are written, of any size.
ghost use Rattle.std.specs.Prelude.{◌≡◌, IfOk};
ghost use Rattle.mw_logic.specs.NormalForm.{normal_form, normal_forms};
ghost use Rattle.mw_logic.specs.Terms.{terms_of};
ghost use Rattle.mw_term.specs.Raws.{raw_term, raw_terms};

use mw_canon::{Facts, rebuild};
use mw_term::{Raw, Term, VarId, copy_name};
use std::alloc::{AllocError, Global};

/// The canonical form of a term.
#[cycle(normal)]
pub fn normal(alloc: Global, facts: &Facts, raw: &Raw) -> Result<Term, AllocError>
    ensures { IfOk result (λ t. t ≡ normal_form facts.now (raw_term raw.now)) }
{
    match raw {
        Raw::Nat(number) => Term::numeral(alloc, *number),
        Raw::Qid(name) => {
            let name = copy_name(alloc, name)?;
            Term::quoted(alloc, name)
        }
        Raw::Var(x) => {
            let name = copy_name(alloc, &x.name)?;
            let sort = x.sort;
            Term::variable(alloc, VarId { name, sort })
        }
        Raw::Op(operator, args) => {
            let made = all_normal(alloc, facts, args.as_slice())?;
            rebuild(alloc, facts, *operator, made)
        }
    }
}

#[cycle(normal)]
fn all_normal(alloc: Global, facts: &Facts, raws: &[Raw]) -> Result<Vec<Term>, AllocError>
    ensures { IfOk result (λ ts. terms_of ts.items ≡ normal_forms facts.now (raw_terms raws.now)) }
{
    let mut made = Vec::with_capacity(alloc, raws.len())?;
    for raw in raws {
        let term = normal(alloc, facts, raw)?;
        made.push(term)?;
    }
    Ok(made)
}
