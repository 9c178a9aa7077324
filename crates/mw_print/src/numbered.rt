// Ground terms in numbered prefix form.
ghost use Rattle.std.specs.Prelude.{◌≡◌, ◌++◌, [], codes, IsTrue, OnOk, OnErr};
ghost use Rattle.mw_logic.specs.Term.{is_ground};
ghost use Rattle.mw_print.specs.Printing.{called, divided};
ghost use Rattle.mw_print.specs.Prefix.{prefixed, forms_of, prefix_text};
ghost use Rattle.mw_print.specs.Prefix as spec;
ghost use Rattle.mw_print.specs.Writing.{Writes};

use crate::writer::Writer;
use mw_term::{OpId, Signature, Term, View};
use std::alloc::{AllocError, Global};
use std::mem::replace;

/// Writes the numbered prefix form of a ground term behind a text. Where memory is wanting, the text is empty then.
pub fn prefix(
    alloc: Global,
    signature: &Signature,
    term: &Term,
    text: &mut Vec<u8>,
) -> Result<(), AllocError>
    requires ground { IsTrue (is_ground term.now) }
    ensures written { OnOk result (text.new.items ≡ text.old.items ++ prefix_text signature.now term.now) }
    ensures lost { OnErr result (text.new.items ≡ []) }
{
    let mut writer = Writer::behind(replace(text, Vec::new(alloc)));
    write_form(signature, term, &mut writer)?;
    *text = writer.into_text();
    Ok(())
}

/// Writes the form of a term.
#[cycle(form)]
fn write_form(signature: &Signature, term: &Term, writer: &mut Writer) -> Result<(), AllocError>
    ensures { OnOk result (Writes writer.old writer.new (prefixed signature.now term.now)) }
{
    match term.view() {
        View::Nat(number) => writer.numeral(number),
        View::Qid(token) => writer.token(token.as_slice()),
        View::Var(_) => Ok(()),
        View::Op(operator, args) => {
            writer.numbered(operator, spelling(signature, operator))?;
            write_args(signature, args, writer)
        }
    }
}

/// Writes the forms of arguments in parentheses, where there are any.
#[cycle(form)]
fn write_args(signature: &Signature, args: &[Term], writer: &mut Writer) -> Result<(), AllocError>
    ensures { OnOk result (Writes writer.old writer.new (called [] (forms_of signature.now args.now))) }
{
    if args.is_empty() {
        return Ok(());
    }
    writer.open()?;
    write_list(signature, args, writer)?;
    writer.token(b")")
}

/// Writes the forms of arguments, divided by commas.
#[cycle(form)]
fn write_list(signature: &Signature, args: &[Term], writer: &mut Writer) -> Result<(), AllocError>
    ensures { OnOk result (Writes writer.old writer.new (divided (forms_of signature.now args.now))) }
{
    let mut rest = args;
    while let [arg, behind @ ..] = rest {
        write_form(signature, arg, writer)?;
        if behind.is_empty() {
            return Ok(());
        }
        writer.comma()?;
        rest = behind;
    }
    Ok(())
}

/// The prefix spelling of an operator; nothing for a number that is no operator's.
fn spelling(signature: &Signature, operator: OpId) -> &[u8]
    ensures { result.now ≡ spec.spelling_at signature.now operator }
{
    if operator == 0 {
        return &[];
    }
    match signature.operators.as_slice().get(operator as usize - 1) {
        Some(found) => found.spelling.as_slice(),
        None => &[],
    }
}
