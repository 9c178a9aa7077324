// Terms joined by an operator.
ghost use Rattle.std.specs.Prelude.{◌≡◌, map, IfOk};
ghost use Rattle.mw_logic.specs.Term.{binary, unary};
ghost use Rattle.mw_term.specs.Raws.{raw_term};
ghost use Rattle.mw_omod.specs.Objects.{joined_before};

use mw_term::{OpId, Raw, Raws};
use std::alloc::{AllocError, Global};

/// An operator on one term.
pub fn unary(alloc: Global, operator: OpId, term: Raw) -> Result<Raw, AllocError>
    ensures { IfOk result (λ t. raw_term t ≡ unary operator (raw_term term)) }
{
    let args = vec![in alloc; term]?;
    Ok(Raw::Op(operator, Raws::of(args)))
}

/// An operator on two terms.
fn binary(alloc: Global, operator: OpId, first: Raw, second: Raw) -> Result<Raw, AllocError>
    ensures { IfOk result (λ t. raw_term t ≡ binary operator (raw_term first) (raw_term second)) }
{
    let args = vec![in alloc; first, second]?;
    Ok(Raw::Op(operator, Raws::of(args)))
}

/// Terms and the last one, joined from the right.
pub fn joined(alloc: Global, operator: OpId, parts: Vec<Raw>, last: Raw) -> Result<Raw, AllocError>
    ensures { IfOk result (λ t. raw_term t ≡ joined_before operator (map raw_term parts.items) (raw_term last)) }
{
    let mut parts = parts;
    let mut joined = last;
    while let Some(part) = parts.pop() {
        joined = binary(alloc, operator, part, joined)?;
    }
    Ok(joined)
}
