// Texts that stand beside proof texts.
ghost use Rattle.std.specs.Prelude.{◌≡◌, ◌++◌, true, IfOk, OnOk};
ghost use Rattle.mw_block.specs.Notes as notes;

use std::alloc::{AllocError, Global};

/// A text that is no proof text, as it is written: where proofs are, each of its lines has `*** ` before it.
pub fn noted(alloc: Global, proofs: bool, text: Vec<u8>) -> Result<Vec<u8>, AllocError>
    ensures { IfOk result (λ lines. lines.items ≡ notes.noted proofs text.items) }
{
    if !proofs {
        return Ok(text);
    }
    let mut lines = Vec::new(alloc);
    write_starred(text.as_slice(), &mut lines)?;
    Ok(lines)
}

/// Writes a text with `*** ` before each line.
fn write_starred(text: &[u8], lines: &mut Vec<u8>) -> Result<(), AllocError>
    ensures { OnOk result (lines.new.items ≡ lines.old.items ++ notes.starred true text.now) }
{
    let mut start = true;
    let mut rest = text;
    while let [byte, behind @ ..] = rest {
        if start {
            lines.extend_from_slice(b"*** ")?;
        }
        lines.push(*byte)?;
        start = *byte == b'\n';
        rest = behind;
    }
    Ok(())
}
