// Written terms under an associative operator.
ghost use Rattle.std.specs.Prelude.{◌≡◌, IfOk, MatchOption};
ghost use Rattle.mw_logic.specs.Term.{nil, cons, apply as apply_of};
ghost use Rattle.mw_term.specs.Raws.{raw_term, raw_terms};
ghost use Rattle.mw_canon.specs.Made.{entered, all_entered, seen_terms};

use mw_term::{OpId, Raw};
use std::alloc::{AllocError, Global};

/// The arguments of an associative operator, where each that has the operator itself on top gives its own arguments.
/// A list of what waits takes the place of recursion.
pub(crate) fn written<'r>(
    alloc: Global,
    operator: OpId,
    args: &'r [Raw],
) -> Result<Vec<&'r Raw>, AllocError>
    ensures { IfOk result (λ rs. seen_terms rs.items ≡ all_entered operator (raw_terms args.now)) }
{
    let mut found = Vec::with_capacity(alloc, args.len())?;
    let mut waiting = vec![in alloc; args]?;
    while let Some(next) = waiting.pop() {
        if let [arg, after @ ..] = next {
            waiting.push(after)?;
            match below(operator, arg) {
                Some(inner) => waiting.push(inner)?,
                None => found.push(arg)?,
            }
        }
    }
    Ok(found)
}

/// The arguments of a term with this operator on top, where it has some.
fn below<'r>(operator: OpId, raw: &'r Raw) -> Option<&'r [Raw]>
    ensures { MatchOption result (entered operator (raw_term raw.now) ≡ cons (raw_term raw.now) nil) (λ rs. (raw_term raw.now ≡ apply_of operator (raw_terms rs.now)) × (entered operator (raw_term raw.now) ≡ all_entered operator (raw_terms rs.now))) }
{
    match raw {
        Raw::Op(inner, args) if *inner == operator => {
            let args = args.as_slice();
            if args.is_empty() {
                return None;
            }
            Some(args)
        }
        _ => None,
    }
}
