// The kinds of a signature's sorts.
ghost use Rattle.std.specs.Prelude.{◌≡◌, IfOk};
ghost use Rattle.mw_poset.specs.SortOrder.{order_of};
ghost use Rattle.mw_grammar.specs.Listing.{IsListed};
ghost use Rattle.mw_grammar.specs.Readable.{kind_in, AreKinds, IsKindNamed};

use crate::listing::list_of;
use mw_poset::Poset;
use mw_term::{KindId, Signature, SortId};
use mw_text::Names;
use std::alloc::{AllocError, Global};

/// The number of the kind of a sort.
pub fn kind_of(kinds: &[KindId], sort: SortId) -> KindId
    ensures { result ≡ kind_in kinds.now sort }
{
    match kinds.get(sort as usize) {
        Some(kind) => *kind,
        None => sort,
    }
}

/// The kinds of a signature's sorts, each at its sort's number, by the order of these sorts.
pub fn kinds_of(
    alloc: Global,
    signature: &Signature,
    order: &Poset,
) -> Result<Vec<KindId>, AllocError>
    requires { order.now ≡ order_of signature.now }
    ensures { IfOk result (λ v. AreKinds signature.now (kind_in v.items)) }
{
    let mut kinds = Vec::new(alloc);
    kinds.push(0)?;
    for k in 0..order.sorts() {
        kinds.push(order.kind_of(k + 1))?;
    }
    Ok(kinds)
}

/// The number of the kind of a sort with this name, where one is wanted and there is such a sort.
pub fn kind_named(
    names: &Names,
    named: &Vec<Vec<SortId>>,
    kinds: &[KindId],
    name: &[u8],
    wanted: bool,
) -> Result<Option<KindId>, AllocError>
    ensures { IfOk result (IsKindNamed (IsListed names.now named.now.items name.now) (kind_in kinds.now) wanted) }
{
    if !wanted {
        return Ok(None);
    }
    let number = names.number(name)?;
    match list_of(named, number) {
        [sort, ..] => Ok(Some(kind_of(kinds, *sort))),
        [] => Ok(None),
    }
}
