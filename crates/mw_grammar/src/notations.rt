// The notations of a signature's operators.
ghost use Rattle.std.specs.Prelude.{◌≡◌, ◌<◌, ◌^◌, ◌∷◌, ℕ, [], length, IfOk, OnOk, IsTrue};
ghost use Rattle.mw_logic.specs.Signature.{Operator as OperatorOf, IsOperator};
ghost use Rattle.mw_text.specs.Names.{items_of, pieces};
ghost use Rattle.mw_grammar.specs.Readable.{kind_in};
ghost use Rattle.mw_grammar.specs.Notations.{head_of, prefix_notation, flattened_notation, tail_notation};
ghost use Rattle.mw_grammar.specs.Notations.{IsHeaded, IsMixfix, IsWhole, IsNotationOf, IsNotation};
ghost use Rattle.mw_grammar.specs.Compiled.{AddsNotations};

use crate::compile::{Making, add};
use crate::kinds::kind_of;
use crate::parts::{flattened, mixfix, prefix, push_two};
use mw_term::{KindId, OpId, Operator, Signature};
use mw_text::{NameItem, Names, first_item, has_hole};
use std::alloc::{AllocError, Global};

/// Adds a constant, or the prefix form, with this head, of operator number `f`.
fn add_prefix(
    alloc: Global,
    making: &mut Making,
    names: &mut Names,
    kinds: &[KindId],
    f: OpId,
    operator: &Operator,
    in_pieces: bool,
) -> Result<(), AllocError>
    ensures { OnOk result (AddsNotations making.old making.new names.old names.new
        (λ F. F ≡ prefix_notation (kind_in kinds.now) f operator.now (head_of operator.now.spelling in_pieces))) }
{
    let name = operator.spelling.as_slice();
    let parts = prefix(alloc, kinds, name, in_pieces, operator.args.as_slice())?;
    let kind = kind_of(kinds, operator.result);
    add(alloc, making, names, kind, 0, f, parts.as_slice())
}

/// Adds the prefix form of an associative operator on more than two arguments.
fn add_flattened(
    alloc: Global,
    making: &mut Making,
    names: &mut Names,
    kinds: &[KindId],
    last: KindId,
    f: OpId,
    operator: &Operator,
    in_pieces: bool,
) -> Result<(), AllocError>
    ensures { OnOk result (AddsNotations making.old making.new names.old names.new (λ F.
        F ≡ flattened_notation (kind_in kinds.now) last f operator.now (head_of operator.now.spelling in_pieces))) }
{
    let kind = kind_of(kinds, operator.result);
    let name = operator.spelling.as_slice();
    let parts = flattened(alloc, name, in_pieces, kind, last)?;
    add(alloc, making, names, kind, 0, f, parts.as_slice())
}

/// Adds the prefix forms with this head.
fn add_headed(
    alloc: Global,
    making: &mut Making,
    names: &mut Names,
    kinds: &[KindId],
    last: KindId,
    f: OpId,
    operator: &Operator,
    in_pieces: bool,
) -> Result<(), AllocError>
    ensures { OnOk result (AddsNotations making.old making.new names.old names.new
        (IsHeaded (kind_in kinds.now) last f operator.now (head_of operator.now.spelling in_pieces))) }
{
    add_prefix(alloc, making, names, kinds, f, operator, in_pieces)?;
    if operator.assoc {
        add_flattened(alloc, making, names, kinds, last, f, operator, in_pieces)?;
    }
    Ok(())
}

/// Adds two or more last arguments of an associative operator: one, and what is of this kind.
fn add_tail(
    alloc: Global,
    making: &mut Making,
    names: &mut Names,
    kinds: &[KindId],
    last: KindId,
    f: OpId,
    operator: &Operator,
    rest: KindId,
) -> Result<(), AllocError>
    ensures { OnOk result (AddsNotations making.old making.new names.old names.new
        (λ F. F ≡ tail_notation (kind_in kinds.now) last f operator.now rest)) }
{
    let mut parts = Vec::new(alloc);
    push_two(alloc, &mut parts, kind_of(kinds, operator.result), rest)?;
    add(alloc, making, names, last, 0, f, parts.as_slice())
}

/// Adds the mixfix form, if there is one.
fn add_mixfix(
    alloc: Global,
    making: &mut Making,
    names: &mut Names,
    kinds: &[KindId],
    f: OpId,
    operator: &Operator,
) -> Result<(), AllocError>
    requires { operator.now.prec < 128 }
    ensures { OnOk result (AddsNotations making.old making.new names.old names.new
        (IsMixfix (kind_in kinds.now) f operator.now)) }
{
    let gather = operator.gather.as_slice();
    let args = operator.args.as_slice();
    let name = operator.spelling.as_slice();
    if let Some(parts) = mixfix(alloc, kinds, operator.prec, name, gather, args)? {
        let kind = kind_of(kinds, operator.result);
        let precedence = operator.prec;
        add(alloc, making, names, kind, precedence, f, parts.as_slice())?;
    }
    Ok(())
}

/// Whether the name's pieces are the name alone.
fn is_one_piece(name: &[u8]) -> bool
    ensures { IsTrue result → pieces (items_of name.now) ≡ name.now ∷ [] }
{
    match first_item(name) {
        Some((NameItem::Piece(piece), behind)) => piece == name && first_item(behind).is_none(),
        _ => false,
    }
}

/// Adds the prefix forms, with the name as one token and with its pieces, or the mixfix form.
fn add_whole(
    alloc: Global,
    making: &mut Making,
    names: &mut Names,
    kinds: &[KindId],
    last: KindId,
    f: OpId,
    operator: &Operator,
) -> Result<(), AllocError>
    requires { operator.now.prec < 128 }
    ensures { OnOk result (AddsNotations making.old making.new names.old names.new
        (IsWhole (kind_in kinds.now) last f operator.now)) }
{
    let name = operator.spelling.as_slice();
    add_headed(alloc, making, names, kinds, last, f, operator, false)?;
    if has_hole(name) {
        add_mixfix(alloc, making, names, kinds, f, operator)?;
    } else if !is_one_piece(name) {
        add_headed(alloc, making, names, kinds, last, f, operator, true)?;
    }
    Ok(())
}

/// Adds the notations of operator number `f`.
fn add_operator(
    alloc: Global,
    making: &mut Making,
    names: &mut Names,
    kinds: &[KindId],
    last: KindId,
    f: OpId,
    operator: &Operator,
) -> Result<(), AllocError>
    requires { operator.now.prec < 128 }
    ensures { OnOk result (AddsNotations making.old making.new names.old names.new
        (IsNotationOf (kind_in kinds.now) last f operator.now)) }
{
    add_whole(alloc, making, names, kinds, last, f, operator)?;
    if operator.assoc {
        let kind = kind_of(kinds, operator.result);
        add_tail(alloc, making, names, kinds, last, f, operator, kind)?;
        add_tail(alloc, making, names, kinds, last, f, operator, last)?;
    }
    Ok(())
}

/// Adds the notations of a signature. The last arguments of its operators have kinds behind so many sorts.
pub fn add_all(
    alloc: Global,
    making: &mut Making,
    names: &mut Names,
    kinds: &[KindId],
    sorts: u32,
    signature: &Signature,
) -> Result<(), AllocError>
    requires precedences { (f : ℕ) (o : OperatorOf) → IsOperator signature.now f o → o.prec < 128 }
    requires sorts { sorts ≡ length signature.now.sorts }
    requires few { sorts < 2 ^ 31 }
    requires count { length signature.now.operators < 2 ^ 31 }
    ensures { OnOk result (AddsNotations making.old making.new names.old names.new
        (IsNotation (kind_in kinds.now) signature.now)) }
{
    for (i, operator) in signature.operators.as_slice().iter().enumerate() {
        let f = i as u32 + 1;
        add_operator(alloc, making, names, kinds, sorts + f, f, operator)?;
    }
    Ok(())
}
