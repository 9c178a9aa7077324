// The table of the operators' axioms.
ghost use Rattle.std.specs.Prelude.{◌≡◌, ◌<◌, ◌+◌, length, IfOk};
ghost use Rattle.mw_logic.specs.Accepted.{IsAccepted};
ghost use Rattle.mw_logic.specs.Kinds.{is_successor as is_successor_of};
ghost use Rattle.mw_logic.specs.Preregular.{HasItsSorts};
ghost use Rattle.mw_poset.specs.SortOrder.{order_of};
ghost use Rattle.mw_canon.specs.Axioms.{HasAxioms, AreRowsOf, IsKindNamed, IsKindOfNumbers};

use crate::axioms::Axioms;
use mw_poset::Poset;
use mw_term::{KindId, Signature};
use std::alloc::{AllocError, Global};

/// A row for each operator.
pub(crate) fn rows(
    alloc: Global,
    signature: &Signature,
    order: &Poset,
) -> Result<Vec<Axioms>, AllocError>
    requires accepted { IsAccepted signature.now }
    requires sorts { HasItsSorts signature.now }
    requires order { order.now ≡ order_of signature.now }
    ensures { IfOk result (λ rows. AreRowsOf signature.now rows.items) }
{
    let numbers = kind_of_numbers(signature, order);
    let count = signature.operators.as_slice().len();
    let mut rows = Vec::with_capacity(alloc, count)?;
    for index in 0..count {
        rows.push(axioms(signature, order, numbers, index))?;
    }
    Ok(rows)
}

/// The kind of numbers, where the signature has them.
fn kind_of_numbers(signature: &Signature, order: &Poset) -> Option<KindId>
    requires { order.now ≡ order_of signature.now }
    ensures { IsKindOfNumbers signature.now result }
{
    if !signature.nat {
        return None;
    }
    kind_named(signature, order, b"Nat".as_slice())
}

/// The kind of the sort of this name, none where no sort has it.
pub fn kind_named(signature: &Signature, order: &Poset, name: &[u8]) -> Option<KindId>
    requires { order.now ≡ order_of signature.now }
    ensures { IsKindNamed signature.now name.now result }
{
    let names = signature.sorts.as_slice();
    for index in 0..order.sorts() {
        if names[index as usize].as_slice() == name {
            return Some(order.kind_of(index + 1));
        }
    }
    None
}

/// The axioms of the operator at an index.
fn axioms(signature: &Signature, order: &Poset, numbers: Option<KindId>, index: usize) -> Axioms
    requires accepted { IsAccepted signature.now }
    requires sorts { HasItsSorts signature.now }
    requires order { order.now ≡ order_of signature.now }
    requires numbers { IsKindOfNumbers signature.now numbers }
    requires there { index < length signature.now.operators }
    ensures { HasAxioms signature.now (index + 1) result }
{
    let operator = &signature.operators.as_slice()[index];
    if operator.assoc {
        let comm = operator.comm;
        let identity = operator.identity;
        return Axioms::Associative { comm, identity };
    }
    if operator.comm {
        return Axioms::Commutative;
    }
    if is_successor(signature, order, numbers, index) {
        return Axioms::Successor;
    }
    Axioms::Plain
}

/// Whether the operator at an index is the successor of numbers.
fn is_successor(signature: &Signature, order: &Poset, numbers: Option<KindId>, index: usize) -> bool
    requires accepted { IsAccepted signature.now }
    requires sorts { HasItsSorts signature.now }
    requires order { order.now ≡ order_of signature.now }
    requires numbers { IsKindOfNumbers signature.now numbers }
    requires there { index < length signature.now.operators }
    ensures { result ≡ is_successor_of signature.now (index + 1) }
{
    let Some(kind) = numbers else {
        return false;
    };
    let operator = &signature.operators.as_slice()[index];
    if operator.spelling.as_slice() != b"s_".as_slice() {
        return false;
    }
    match operator.args.as_slice() {
        [argument] => { order.kind_of(operator.result) == kind && order.kind_of(*argument) == kind }
        _ => false,
    }
}
