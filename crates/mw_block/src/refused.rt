// The line of a refusal.
ghost use Rattle.std.specs.Prelude.{◌≡◌, ◌++◌, IfOk, OnOk};
ghost use Rattle.mw_block.specs.Refused.{detail_text, kind_text, refusal_line, spaced};

use mw_module::{Fault, FaultKind};
use mw_print::push_decimal;
use mw_term::Name;
use std::alloc::{AllocError, Global};

/// Writes a text and a name behind another text.
fn write_named(before: &str, name: &[u8], text: &mut Vec<u8>) -> Result<(), AllocError>
    ensures { OnOk result (text.new.items ≡ text.old.items ++ (before.now ++ name.now)) }
{
    text.extend_from_slice(before.as_bytes())?;
    text.extend_from_slice(name)
}

/// Writes names, each with a space before it.
fn write_spaced(names: &[Name], text: &mut Vec<u8>) -> Result<(), AllocError>
    ensures { OnOk result (text.new.items ≡ text.old.items ++ spaced names.now) }
{
    let mut rest = names;
    while let [name, after @ ..] = rest {
        write_named(" ", name.as_slice(), text)?;
        rest = after;
    }
    Ok(())
}

/// The kind of a fault.
fn kind_words(kind: &FaultKind) -> &'static str
    ensures { result.now ≡ kind_text kind.now }
{
    match kind {
        FaultKind::BadByte => "bad byte",
        FaultKind::UnendedComment => "unended comment",
        FaultKind::UnendedModule => "unended module",
        FaultKind::UnendedCommand => "unended command",
        FaultKind::UnendedProof => "unended proof",
        FaultKind::NotInProfile => "not in this profile",
        FaultKind::BadStatement => "bad statement",
        FaultKind::AlreadyDefined(_) => "already defined",
        FaultKind::UnknownModule(_) => "unknown module",
        FaultKind::CircularImport(_) => "circular import",
        FaultKind::UnknownSort(_) => "unknown sort",
        FaultKind::SortCycle(_) => "sort cycle",
        FaultKind::BadAxioms(_) => "bad axioms",
        FaultKind::AttributesDisagree(_) => "attributes disagree",
        FaultKind::NotPreregular { .. } => "not preregular",
        FaultKind::NotAssociative { .. } => "not associative",
        FaultKind::LowIdentity { .. } => "low identity",
        FaultKind::TermTooLong => "term too long",
        FaultKind::NoParse => "no parse",
        FaultKind::Ambiguous => "ambiguous",
        FaultKind::TooDeep => "too deep",
        FaultKind::NumberTooLarge => "number too large",
        FaultKind::LoneVariable => "lone variable",
        FaultKind::UnboundVariable(_) => "unbound variable",
        FaultKind::OpenTerm => "open term",
        FaultKind::BadObject => "bad object",
        FaultKind::BadBound => "bad bound",
        FaultKind::NoModule => "no module",
    }
}

/// Writes a fault's detail behind a colon, where it has one.
fn write_detail(kind: &FaultKind, text: &mut Vec<u8>) -> Result<(), AllocError>
    ensures { OnOk result (text.new.items ≡ text.old.items ++ detail_text kind.now) }
{
    match kind {
        FaultKind::AlreadyDefined(name)
        | FaultKind::UnknownModule(name)
        | FaultKind::CircularImport(name)
        | FaultKind::UnknownSort(name)
        | FaultKind::SortCycle(name)
        | FaultKind::BadAxioms(name)
        | FaultKind::AttributesDisagree(name)
        | FaultKind::UnboundVariable(name) => write_named(": ", name.as_slice(), text),
        FaultKind::NotPreregular { operator, sorts }
        | FaultKind::NotAssociative { operator, sorts } => {
            write_named(": ", operator.as_slice(), text)?;
            write_spaced(sorts.as_slice(), text)
        }
        FaultKind::LowIdentity { operator, sort } => {
            write_named(": ", operator.as_slice(), text)?;
            write_named(" ", sort.as_slice(), text)
        }
        _ => Ok(()),
    }
}

/// The line of a refusal.
pub fn refusal(alloc: Global, fault: &Fault) -> Result<Vec<u8>, AllocError>
    ensures { IfOk result (λ text. text.items ≡ refusal_line fault.now) }
{
    let mut text = Vec::new(alloc);
    text.extend_from_slice(b"line ")?;
    push_decimal(fault.line as u128, &mut text)?;
    text.extend_from_slice(b": refused: ")?;
    text.extend_from_slice(kind_words(&fault.kind).as_bytes())?;
    write_detail(&fault.kind, &mut text)?;
    text.extend_from_slice(b"\n")?;
    Ok(text)
}
