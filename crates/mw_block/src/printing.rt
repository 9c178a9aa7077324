// Terms behind a text.
ghost use Rattle.std.specs.Prelude.{◌≡◌, ◌++◌, OnOk};
ghost use Rattle.mw_print.specs.Printing.{term_text};

use mw_print::mixfix;
use mw_term::{Signature, Term};
use std::alloc::{AllocError, Global};

/// Writes a term behind a text.
pub fn print(
    alloc: Global,
    signature: &Signature,
    term: &Term,
    text: &mut Vec<u8>,
) -> Result<(), AllocError>
    ensures { OnOk result (text.new.items ≡ text.old.items ++ term_text signature.now term.now) }
{
    let printed = mixfix(alloc, signature, term)?;
    text.extend_from_slice(printed.as_slice())
}
