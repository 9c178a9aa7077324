// Sorts in the order of their pairs, which may have cycles.
ghost use Rattle.std.specs.Prelude.{◌≡◌, ℕ, ◌+◌, ◌-◌, ◌<◌, ◌≤◌, ◌↔◌, List, length, All, IfOk, IfSome, IfNone, IsTrue};
ghost use Rattle.std.specs.List.Sorted.{IsStrictlyIncreasing};
ghost use Rattle.mw_logic.specs.Signature.{Member};
ghost use Rattle.mw_logic.specs.Sorts.{AtOrBelow};
ghost use Rattle.mw_poset.specs.Order.{IsSort, ArePairsOf, IsOnCycle, IsLeastOnCycle, IsKindOf};
ghost use Rattle.mw_poset.specs.Groups.{AreGroups};
ghost use Rattle.mw_poset.specs.Tables.{AreKinds, AreOfOneKind, AreRows, supersorts};

use crate::direct::{Links, both_ways};
use crate::group::{Groups, group};
use crate::row::Row;
use crate::search::{kinds_of, mark_reached};
use mw_term::{KindId, SortId};
use std::alloc::{AllocError, Global};
use std::marker::Model;

// Of each sort the row of what is at or above it, over the places of its kind.
fn rows_of(
    alloc: Global,
    links: &Links,
    kinds: &[KindId],
    groups: &Groups,
) -> Result<Vec<Row>, AllocError>
    requires kinds { AreKinds links.now kinds.now }
    requires groups { AreGroups links.now.sorts kinds.now groups.now.members.items groups.now.places.items }
    ensures { IfOk result (λ rows. AreRows links.now links.now.sorts kinds.now groups.now.members.items rows.items) }
{
    let sorts = links.sorts();
    let mut marks = vec![in alloc; 0u32; sorts as usize]?;
    let mut rows = Vec::with_capacity(alloc, sorts as usize)?;
    for k in 0..sorts {
        mark_reached(alloc, links, k + 1, marks.as_mut_slice())?;
        let members = groups.members[(kinds[k as usize] - 1) as usize].as_slice();
        rows.push(Row::of(alloc, members, marks.as_slice(), k + 1)?)?;
    }
    Ok(rows)
}

#[derive(Drop)]
pub struct Preorder {
    links: Links,
    kinds: Vec<KindId>,
    groups: Groups,
    rows: Vec<Row>,
}

impl Model for Preorder {
    ghost use Rattle.mw_poset.specs.SortOrder.{SortOrder};

    ghost Value = { SortOrder };

    ghost use Rattle.mw_poset.specs.Tables.{IsOrder};

    ghost view = { λ p. p.links };

    ghost invariant = { λ p. IsOrder p.links p.kinds.items p.groups.members.items p.groups.places.items p.rows.items };
}

impl Preorder {
    pub fn of(alloc: Global, sorts: u32, pairs: &[(SortId, SortId)]) -> Result<Preorder, AllocError>
        requires { ArePairsOf sorts pairs.now }
        ensures sorts { IfOk result (λ p. p.sorts ≡ sorts) }
        ensures pairs { IfOk result (λ p. p.pairs ≡ pairs.now) }
    {
        let links = Links::of(alloc, sorts, pairs)?;
        let both = both_ways(alloc, sorts, pairs)?;
        let kinds = kinds_of(alloc, &both)?;
        let groups = group(alloc, sorts, kinds.as_slice())?;
        let rows = rows_of(alloc, &links, kinds.as_slice(), &groups)?;
        Ok(Preorder {
            links,
            kinds,
            groups,
            rows,
        })
    }

    pub fn sorts(&self) -> u32
        ensures sorts { result ≡ self.now.sorts }
        ensures within { ArePairsOf self.now.sorts self.now.pairs }
    {
        self.links.sorts()
    }

    // The sorts directly above `sort`.
    pub fn above(&self, sort: SortId) -> &[SortId]
        requires { IsSort self.now.sorts sort }
        ensures direct { result.now ≡ supersorts self.now.pairs sort }
        ensures within { All (IsSort self.now.sorts) result.now }
    {
        self.links.above(sort)
    }

    pub fn kind_of(&self, sort: SortId) -> KindId
        requires { IsSort self.now.sorts sort }
        ensures { IsKindOf self.now.pairs sort result }
    {
        self.kinds[(sort - 1) as usize]
    }

    // The sorts of the kind of `sort`, in order of number.
    pub fn same_kind(&self, sort: SortId) -> &[SortId]
        requires { IsSort self.now.sorts sort }
        ensures listed { (T : ℕ) → Member T result.now ↔ AreOfOneKind self.now.pairs sort T }
        ensures within { All (IsSort self.now.sorts) result.now }
        ensures in_order { IsStrictlyIncreasing result.now }
    {
        self.groups.members[(self.kind_of(sort) - 1) as usize].as_slice()
    }

    pub fn le(&self, lower: SortId, upper: SortId) -> bool
        requires lower_is_there { IsSort self.now.sorts lower }
        requires upper_is_there { IsSort self.now.sorts upper }
        ensures { IsTrue result ↔ AtOrBelow self.now.pairs lower upper }
    {
        self.kind_of(lower) == self.kind_of(upper)
            && self.rows[(lower - 1) as usize].has(self.groups.places[(upper - 1) as usize])
    }

    fn is_on_cycle(&self, sort: SortId) -> bool
        requires { IsSort self.now.sorts sort }
        ensures { IsTrue result ↔ IsOnCycle self.now.pairs sort }
    {
        for next in self.above(sort) {
            if self.le(*next, sort) {
                return true;
            }
        }
        false
    }

    // The least sort on a cycle, if there is a cycle.
    pub fn least_on_cycle(&self) -> Option<SortId>
        ensures some { IfSome result (IsLeastOnCycle self.now.pairs) }
        ensures none { IfNone result ((S : ℕ) → ¬ IsOnCycle self.now.pairs S) }
    {
        for k in 0..self.sorts() {
            if self.is_on_cycle(k + 1) {
                return Some(k + 1);
            }
        }
        None
    }
}
