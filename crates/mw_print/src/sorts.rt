// Sorts and kinds as they are printed.
ghost use Rattle.std.specs.Prelude.{◌≡◌, ◌++◌, map, IfOk, OnOk, OnErr};
ghost use Rattle.std.specs.List.{join_with_byte};
ghost use Rattle.mw_logic.specs.Preregular.{IsSortOf};
ghost use Rattle.mw_term.specs.Signatures.{sorted_of};
ghost use Rattle.mw_poset.specs.SortOrder.{order_of};
ghost use Rattle.mw_print.specs.Printing as spec;
ghost use Rattle.mw_print.specs.Sorts.{IsKindThere, kind_name, name_in_kind, sorted_name};

use crate::writer::ends_in_backquote;
use mw_poset::Poset;
use mw_term::{KindId, Signature, SortId, Sorted};
use std::alloc::{AllocError, Global};

/// The name of a sort; nothing for a number that is no sort's.
fn sort_name(signature: &Signature, sort: SortId) -> &[u8]
    ensures { result.now ≡ spec.sort_name signature.now sort }
{
    if sort == 0 {
        return &[];
    }
    match signature.sorts.as_slice().get(sort as usize - 1) {
        Some(name) => name.as_slice(),
        None => &[],
    }
}

/// Writes a sort's name behind a text, which stays where memory is wanting.
pub fn print_sort(signature: &Signature, sort: SortId, text: &mut Vec<u8>) -> Result<(), AllocError>
    ensures written { OnOk result (text.new.items ≡ text.old.items ++ spec.sort_name signature.now sort) }
    ensures kept { OnErr result (text.new.items ≡ text.old.items) }
{
    text.extend_from_slice(sort_name(signature, sort))
}

/// Writes a sort's name as it stands in a kind behind a text.
fn print_in_kind(signature: &Signature, sort: SortId, text: &mut Vec<u8>) -> Result<(), AllocError>
    ensures { OnOk result (text.new.items ≡ text.old.items ++ name_in_kind signature.now sort) }
{
    let name = sort_name(signature, sort);
    text.extend_from_slice(name)?;
    if ends_in_backquote(name) {
        text.push(b' ')?;
    }
    Ok(())
}

/// Writes sorts' names as they stand in a kind, with commas between, behind a text.
fn print_sorts(
    signature: &Signature,
    sorts: &[SortId],
    text: &mut Vec<u8>,
) -> Result<(), AllocError>
    ensures { OnOk result (text.new.items ≡ text.old.items ++ join_with_byte 44 (map (name_in_kind signature.now) sorts.now)) }
{
    let mut rest = sorts;
    while let [sort, behind @ ..] = rest {
        print_in_kind(signature, *sort, text)?;
        if !behind.is_empty() {
            text.push(b',')?;
        }
        rest = behind;
    }
    Ok(())
}

/// The text of a kind.
fn kind_text(
    alloc: Global,
    signature: &Signature,
    order: &Poset,
    kind: KindId,
) -> Result<Vec<u8>, AllocError>
    requires order { order.now ≡ order_of signature.now }
    requires kind { IsSortOf signature.now kind }
    ensures { IfOk result (λ text. text.items ≡ kind_name signature.now kind) }
{
    let maximal = order.maximal(alloc, kind)?;
    let mut text = Vec::new(alloc);
    text.push(b'[')?;
    print_sorts(signature, maximal.as_slice(), &mut text)?;
    text.push(b']')?;
    Ok(text)
}

/// Writes a sort's name, or a kind, behind a text, which stays where memory is wanting. The signature's sorts have this
/// order.
pub fn print_sorted(
    alloc: Global,
    signature: &Signature,
    order: &Poset,
    sorted: Sorted,
    text: &mut Vec<u8>,
) -> Result<(), AllocError>
    requires order { order.now ≡ order_of signature.now }
    requires kind { IsKindThere signature.now (sorted_of sorted) }
    ensures written { OnOk result (text.new.items ≡ text.old.items ++ sorted_name signature.now (sorted_of sorted)) }
    ensures kept { OnErr result (text.new.items ≡ text.old.items) }
{
    match sorted {
        Sorted::Sort(sort) => print_sort(signature, sort, text),
        Sorted::Kind(kind) => {
            let name = kind_text(alloc, signature, order, kind)?;
            text.extend_from_slice(name.as_slice())
        }
    }
}
