// The line for a proof text.
ghost use Rattle.std.specs.Prelude.{◌≡◌, ◌++◌, IfOk, OnOk, codes};
ghost use Rattle.std.specs.Fmt.{decimal};
ghost use Rattle.mw_block.specs.Verdicts.{cause_word, verdict_line, verdict_text};

use mw_check::{Cause, Verdict};
use mw_print::push_decimal;
use std::alloc::{AllocError, Global};

/// Why a proof text isn't accepted, in a word.
fn word_of_cause(cause: Cause) -> &'static str
    ensures { result.now ≡ cause_word cause }
{
    match cause {
        Cause::Module => "module",
        Cause::Text => "text",
        Cause::Statement => "statement",
        Cause::Binding => "binding",
        Cause::Part => "part",
        Cause::Overlap => "overlap",
        Cause::Condition => "condition",
        Cause::Stopped => "stopped",
        Cause::Limit => "limit",
        Cause::End => "end",
    }
}

/// How many replacements a proof makes.
fn write_yes(count: u64, text: &mut Vec<u8>) -> Result<(), AllocError>
    ensures { OnOk result (text.new.items ≡ text.old.items ++ (codes "yes, " ++ decimal count ++ codes " rewrites")) }
{
    text.extend_from_slice("yes, ".as_bytes())?;
    push_decimal(count as u128, text)?;
    text.extend_from_slice(" rewrites".as_bytes())
}

/// Which item is at fault, and why.
fn write_no(step: u64, cause: Cause, text: &mut Vec<u8>) -> Result<(), AllocError>
    ensures { OnOk result (text.new.items
        ≡ text.old.items ++ (codes "no at step " ++ decimal step ++ codes ": " ++ cause_word cause)) }
{
    text.extend_from_slice("no at step ".as_bytes())?;
    push_decimal(step as u128, text)?;
    text.extend_from_slice(": ".as_bytes())?;
    text.extend_from_slice(word_of_cause(cause).as_bytes())
}

fn write_verdict(verdict: &Verdict, text: &mut Vec<u8>) -> Result<(), AllocError>
    ensures { OnOk result (text.new.items ≡ text.old.items ++ verdict_text verdict.now) }
{
    match verdict {
        Verdict::Yes { count, .. } => write_yes(*count, text),
        Verdict::No { step, cause } => write_no(*step, *cause, text),
    }
}

/// The line for a proof text, by its number among those of the source, from 1.
pub fn verdict(alloc: Global, number: u64, verdict: &Verdict) -> Result<Vec<u8>, AllocError>
    ensures { IfOk result (λ text. text.items ≡ verdict_line number verdict.now) }
{
    let mut text = Vec::new(alloc);
    text.extend_from_slice("proof ".as_bytes())?;
    push_decimal(number as u128, &mut text)?;
    text.extend_from_slice(": ".as_bytes())?;
    write_verdict(verdict, &mut text)?;
    text.extend_from_slice("\n".as_bytes())?;
    Ok(text)
}
