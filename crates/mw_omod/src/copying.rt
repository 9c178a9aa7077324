// Terms again.
ghost use Rattle.std.specs.Prelude.{◌≡◌, map, IfOk};
ghost use Rattle.mw_term.specs.Raws.{raw_term};

use mw_term::{Raw, Raws, VarId, copy_name};
use std::alloc::{AllocError, Global};

/// The same term again.
#[cycle(copied)]
pub fn copied(alloc: Global, term: &Raw) -> Result<Raw, AllocError>
    ensures { IfOk result (λ t. raw_term t ≡ raw_term term.now) }
{
    match term {
        Raw::Nat(number) => Ok(Raw::Nat(*number)),
        Raw::Qid(name) => Ok(Raw::Qid(copy_name(alloc, name)?)),
        Raw::Var(variable) => {
            let name = copy_name(alloc, &variable.name)?;
            let sort = variable.sort;
            Ok(Raw::Var(VarId { name, sort }))
        }
        Raw::Op(operator, args) => {
            let args = all_copied(alloc, args.as_slice())?;
            Ok(Raw::Op(*operator, Raws::of(args)))
        }
    }
}

#[cycle(copied)]
fn all_copied(alloc: Global, terms: &[Raw]) -> Result<Vec<Raw>, AllocError>
    ensures { IfOk result (λ ts. map raw_term ts.items ≡ map raw_term terms.now) }
{
    let mut found = Vec::with_capacity(alloc, terms.len())?;
    let mut rest = terms;
    while let [term, after @ ..] = rest {
        let copy = copied(alloc, term)?;
        found.push(copy)?;
        rest = after;
    }
    Ok(found)
}
