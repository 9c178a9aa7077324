// The elements of a side.
ghost use Rattle.std.specs.Prelude.{◌≡◌, ◌++◌, OnOk, IfOk};
ghost use Rattle.mw_logic.specs.Elements.{flat_arguments};
ghost use Rattle.mw_term.specs.Raws.{raw_term};
ghost use Rattle.mw_omod.specs.Seen.{all_seen};

use mw_term::{OpId, Raw};
use std::alloc::{AllocError, Global};

/// Puts the arguments of a term's flattened operator behind others; the term itself where another one stands on top.
fn push_elements<'r>(
    operator: OpId,
    term: &'r Raw,
    found: &mut Vec<&'r Raw>,
) -> Result<(), AllocError>
    ensures { OnOk result (all_seen found.new.items ≡ all_seen found.old.items ++ flat_arguments operator (raw_term term.now)) }
{
    match term {
        Raw::Op(top, args) if *top == operator => {
            let mut rest = args.as_slice();
            while let [arg, after @ ..] = rest {
                push_elements(operator, arg, found)?;
                rest = after;
            }
            Ok(())
        }
        _ => {
            found.push(term)?;
            Ok(())
        }
    }
}

/// The arguments of a term's flattened operator.
pub fn elements<'r>(
    alloc: Global,
    operator: OpId,
    term: &'r Raw,
) -> Result<Vec<&'r Raw>, AllocError>
    ensures { IfOk result (λ v. all_seen v.items ≡ flat_arguments operator (raw_term term.now)) }
{
    let mut found = Vec::new(alloc);
    push_elements(operator, term, &mut found)?;
    Ok(found)
}
