// The lines of a proof text.
ghost use Rattle.std.specs.Prelude.{◌≡◌, ◌++◌, IfOk, OnOk, IsTrue};
ghost use Rattle.mw_logic.specs.Term.{is_ground};
ghost use Rattle.mw_prooftext.specs.Texts as texts;
ghost use Rattle.mw_prooftext.specs.Grounds.{AreGround, spot_of};
ghost use Rattle.mw_prooftext.specs.Narrow.{AreNarrow, IsNarrowSpot};

use mw_print::{prefix, push_decimal};
use mw_redex::Place;
use mw_term::{Name, Signature, Term};
use std::alloc::{AllocError, Global};

/// Numbers, each behind a space.
fn write_numbers(numbers: &[u32], text: &mut Vec<u8>) -> Result<(), AllocError>
    ensures written { OnOk result (text.new.items ≡ text.old.items ++ texts.numbers_text numbers.now) }
    ensures narrow { OnOk result (AreNarrow numbers.now) }
{
    let mut rest = numbers;
    while let [number, behind @ ..] = rest {
        text.push(b' ')?;
        push_decimal(*number as u128, text)?;
        rest = behind;
    }
    Ok(())
}

/// A place.
fn write_place(place: &Place, text: &mut Vec<u8>) -> Result<(), AllocError>
    ensures written { OnOk result (text.new.items ≡ text.old.items ++ texts.spot_text (spot_of place.now)) }
    ensures narrow { OnOk result (IsNarrowSpot (spot_of place.now)) }
{
    text.extend_from_slice(b" at")?;
    write_numbers(place.path.as_slice(), text)?;
    match &place.take {
        Some(numbers) => {
            text.extend_from_slice(b" take")?;
            write_numbers(numbers.as_slice(), text)
        }
        None => Ok(()),
    }
}

/// What stands behind a form, and behind a text that ends in it.
fn closing(form: &[u8]) -> &'static [u8]
    ensures { result.now ≡ texts.closing form.now }
{
    match form {
        [.., last] => { if *last == b'`' { b" ]" } else { b"]" } }
        [] => b"]",
    }
}

/// The form of a term in brackets.
fn write_value(
    alloc: Global,
    signature: &Signature,
    term: &Term,
    text: &mut Vec<u8>,
) -> Result<(), AllocError>
    requires ground { IsTrue (is_ground term.now) }
    ensures { OnOk result (text.new.items ≡ text.old.items ++ texts.value_text signature.now term.now) }
{
    text.extend_from_slice(b" [")?;
    prefix(alloc, signature, term, text)?;
    let closing = closing(text.as_slice());
    text.extend_from_slice(closing)?;
    Ok(())
}

/// The values of a statement, where it has any.
fn write_values(
    alloc: Global,
    signature: &Signature,
    values: &[Term],
    text: &mut Vec<u8>,
) -> Result<(), AllocError>
    requires ground { AreGround values.now }
    ensures { OnOk result (text.new.items ≡ text.old.items ++ texts.with_text signature.now values.now) }
{
    if values.is_empty() {
        return Ok(());
    }
    text.extend_from_slice(b" with")?;
    let mut rest = values;
    while let [value, behind @ ..] = rest {
        write_value(alloc, signature, value, text)?;
        rest = behind;
    }
    Ok(())
}

/// The step by a statement of this number, but for its condition.
pub(crate) fn write_step(
    alloc: Global,
    signature: &Signature,
    owise: bool,
    number: u32,
    place: &Place,
    values: &[Term],
    text: &mut Vec<u8>,
) -> Result<(), AllocError>
    requires ground { AreGround values.now }
    ensures written { OnOk result
        (text.new.items ≡ text.old.items
        ++ texts.step_text signature.now owise number (spot_of place.now) values.now) }
    ensures narrow { OnOk result (IsNarrowSpot (spot_of place.now)) }
{
    let word: &[u8] = if owise { b"owise " } else { b"step " };
    text.extend_from_slice(word)?;
    push_decimal(number as u128, text)?;
    write_place(place, text)?;
    write_values(alloc, signature, values, text)
}

/// The step by a row of the built-in schemata.
pub(crate) fn write_built(place: &Place, text: &mut Vec<u8>) -> Result<(), AllocError>
    ensures written { OnOk result (text.new.items ≡ text.old.items ++ texts.built_text (spot_of place.now)) }
    ensures narrow { OnOk result (IsNarrowSpot (spot_of place.now)) }
{
    text.extend_from_slice(b"step built")?;
    write_place(place, text)
}

/// What stands before the items of a proof in the module of this name.
pub(crate) fn head(
    alloc: Global,
    signature: &Signature,
    version: u32,
    name: &Name,
    from: &Term,
) -> Result<Vec<u8>, AllocError>
    requires ground { IsTrue (is_ground from.now) }
    ensures { IfOk result (λ text. text.items ≡ texts.head_text signature.now version name.now from.now) }
{
    let mut text = Vec::new(alloc);
    text.extend_from_slice(b"proof ")?;
    push_decimal(version as u128, &mut text)?;
    text.extend_from_slice(b" in ")?;
    text.extend_from_slice(name.as_slice())?;
    text.extend_from_slice(b"\nfrom ")?;
    prefix(alloc, signature, from, &mut text)?;
    text.extend_from_slice(b"\n")?;
    Ok(text)
}

/// What stands behind the items.
pub(crate) fn write_end(
    alloc: Global,
    signature: &Signature,
    to: &Term,
    text: &mut Vec<u8>,
) -> Result<(), AllocError>
    requires ground { IsTrue (is_ground to.now) }
    ensures { OnOk result (text.new.items ≡ text.old.items ++ texts.end_text signature.now to.now) }
{
    text.extend_from_slice(b"to ")?;
    prefix(alloc, signature, to, text)?;
    text.extend_from_slice(b"\nendproof\n")
}
