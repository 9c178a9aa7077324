// The sorts of a signature: their order, their kinds, and the place of each sort in its kind.
ghost use Rattle.std.specs.Prelude.{◌≡◌, ◌↔◌, ◌+◌, List, [], length, map, IfOk, IsTrue};
ghost use Rattle.mw_logic.specs.Signature.{SameKind};
ghost use Rattle.mw_logic.specs.Sorts.{IsBelow};
ghost use Rattle.mw_logic.specs.Accepted.{number_of_sort};
ghost use Rattle.mw_logic.specs.Preregular.{IsSortOf, HasItsSorts};
ghost use Rattle.mw_term.specs.Signatures.{sorted_of};
ghost use Rattle.mw_poset.specs.SortOrder.{order_of};
ghost use Rattle.mw_sorts.specs.Sorting.{ArePlacesOf, AreEntriesOf};

use mw_poset::Poset;
use mw_term::{KindId, Seq, Signature, SortId, Sorted, number_at};
use std::alloc::{AllocError, Global};
use std::marker::Model;

/// A signature with the order of its sorts, and the sorts of each kind in ascending order.
#[derive(Drop)]
pub struct Sorting<'s> {
    signature: &'s Signature,
    order: &'s Poset,
    places: Vec<usize>,
    members: Vec<Vec<SortId>>,
}

impl<'s> Model for Sorting<'s> {
    ghost use Rattle.mw_sorts.specs.Sorting.{Sorting as SortingOf};

    ghost Value = { SortingOf };

    ghost use Rattle.mw_sorts.specs.Sorting.{IsSorting};

    ghost view = { λ s. record { signature = s.signature.now; places = s.places.items } };

    ghost invariant = { λ s. IsSorting s.signature.now s.order.now s.places.items s.members.items };
}

impl<'s> Sorting<'s> {
    pub fn of(
        alloc: Global,
        signature: &'s Signature,
        order: &'s Poset,
    ) -> Result<Sorting<'s>, AllocError>
        requires sorts { HasItsSorts signature.now }
        requires order { order.now ≡ order_of signature.now }
        ensures { IfOk result (λ s. s.signature ≡ signature.now) }
    {
        let mut places = Vec::new(alloc);
        let mut members = no_members(alloc, signature)?;
        for (index, _) in signature.sorts.as_slice().iter().enumerate() {
            let sort = number_at(index)?;
            let list = &mut members[(order.kind_of(sort) - 1) as usize];
            places.push(list.len())?;
            list.push(sort)?;
        }
        Ok(Sorting {
            signature,
            order,
            places,
            members,
        })
    }

    /// The places of all sorts.
    pub fn into_places(self) -> Seq<usize>
        ensures places { result ≡ self.entry.places }
        ensures size { length result ≡ length self.entry.signature.sorts }
    {
        let Sorting { places, .. } = self;
        Seq::of(places)
    }

    /// The places of all sorts.
    pub fn places(&self) -> &[usize]
        ensures { result.now ≡ self.now.places }
    {
        self.places.as_slice()
    }

    /// Whether two sorts are of one kind.
    pub fn are_of_one_kind(&self, first: SortId, second: SortId) -> bool
        requires first_is_there { IsSortOf self.now.signature first }
        requires second_is_there { IsSortOf self.now.signature second }
        ensures { IsTrue result ↔ SameKind self.now.signature first second }
    {
        self.order.kind_of(first) == self.order.kind_of(second)
    }

    /// Whether a sort is at or below another of its kind; these may be kinds too.
    pub fn is_below(&self, lower: Sorted, upper: Sorted) -> bool
        requires kind { SameKind self.now.signature (number_of_sort (sorted_of lower)) (number_of_sort (sorted_of upper)) }
        requires upper_is_there { IsSortOf self.now.signature (number_of_sort (sorted_of upper)) }
        ensures { IsTrue result ↔ IsBelow self.now.signature (sorted_of lower) (sorted_of upper) }
    {
        match (lower, upper) {
            (Sorted::Sort(lower), Sorted::Sort(upper)) => self.order.le(lower, upper),
            (Sorted::Kind(_), Sorted::Sort(_)) => false,
            (_, Sorted::Kind(_)) => true,
        }
    }

    /// The sorts of a kind by number, and behind them the kind by this number.
    pub fn entries(&self, alloc: Global, kind: KindId) -> Result<Vec<Sorted>, AllocError>
        requires { IsSortOf self.now.signature kind }
        ensures { IfOk result (λ es. AreEntriesOf self.now kind (map sorted_of es.items)) }
    {
        let members = self.members[(self.order.kind_of(kind) - 1) as usize].as_slice();
        let mut entries = Vec::with_capacity(alloc, members.len())?;
        for sort in members {
            entries.push(Sorted::Sort(*sort))?;
        }
        entries.push(Sorted::Kind(kind))?;
        Ok(entries)
    }
}

// No kind has a sort yet.
fn no_members(alloc: Global, signature: &Signature) -> Result<Vec<Vec<SortId>>, AllocError>
    ensures { IfOk result (λ members. ArePlacesOf signature.now 0 [] members.items) }
{
    let mut members = Vec::new(alloc);
    for _ in signature.sorts.as_slice() {
        members.push(Vec::new(alloc))?;
    }
    Ok(members)
}
