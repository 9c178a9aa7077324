//! The order of sorts that subsort pairs give: which sort is at or below which, the kinds, and the pairs' cycles.
//!
//! Kinds come first, by a search over the pairs and the pairs turned round. It marks what it reaches with the sort that
//! it began at: what is marked is reached, and what a marked sort leads to directly is marked or still waits, so at the
//! end the marks are all that is reached. Sorts are taken in order of number, so a kind is named by its least sort.
//! Then the sorts of each kind are listed, and each has its place in that list. From each sort the same search goes up
//! along the pairs, with a mark of its own, so that none has to be wiped for the next. What it reaches is of its kind,
//! and is kept as a row of bits, one for each place of the kind. A cycle is a sort with a sort directly above it that
//! has it above itself.
//!
//! Proved of [`Poset`], seen as its number of sorts and its pairs:
//!
//! - `build` answers `Cycle` only where a chain of at least one pair leads from a sort to itself, with the least such
//!   sort, and `Ok` only where none does; it keeps the given sorts and pairs.
//! - `le` is the reflexive closure of the pairs along chains (`AtOrBelow`); `kind_of` is the least sort of the sort's
//!   kind, so it agrees exactly on connected sorts; `maximal` lists the sorts of a kind with no other above them, each
//!   once, in order of number.
//! - `sorts` shows that the pairs' sorts are there, and that no pairs make a cycle. `le` and `kind_of` take no memory.
//!
//! Conditions: the pairs' sorts, and those asked about, are there. Want of memory is the one answer that no clause ties
//! to a cause.
//!
//! Cost: n sorts and p pairs take n + p steps, and besides each kind of m sorts and q pairs at most m (m + q), with or
//! without a cycle. Memory goes with n + p, and for each sort of a kind of m sorts a row of m / 64 + 1 words. 40,000
//! sorts without pairs took 0.03 s and 8 MB, 20,000 in a chain 2.1 s and 54 MB. `maximal` takes m steps.
#![tactic(auto)]

mod direct;
mod group;
mod list;
mod preorder;
mod row;
mod search;

ghost use Rattle.std.specs.Prelude.{◌≡◌, ℕ, ◌+◌, ◌-◌, ◌<◌, ◌≤◌, ◌↔◌, All, IfOk, OnOk, IsErrOf, IsTrue};
ghost use Rattle.std.specs.List.Sorted.{IsStrictlyIncreasing};
ghost use Rattle.mw_logic.specs.Signature.{Member};
ghost use Rattle.mw_logic.specs.Sorts.{AtOrBelow};
ghost use Rattle.mw_poset.specs.Order.{IsSort, ArePairsOf, IsOnCycle, IsLeastOnCycle, IsKindOf, IsMaximalIn};

use mw_term::{KindId, SortId};
use preorder::Preorder;
use std::alloc::{AllocError, Global};
use std::marker::Model;

/// Why there is no poset: the pairs have a cycle, with the least sort on one, or memory ran out.
#[derive(Clone, Copy, Debug, PartialEq, Eq)]
pub enum PosetError {
    Cycle(SortId),
    Memory,
}

impl From<AllocError> for PosetError {
    ghost use Rattle.mw_poset.specs.declared.PosetError.TheVariants.{Memory};

    ghost from_gives = { λ _ e. e ≡ Memory };

    fn from(_e: AllocError) -> PosetError {
        PosetError::Memory
    }
}

/// Sorts in the order of their subsort pairs, which have no cycle. It is seen as the number of sorts and the pairs.
#[derive(Drop)]
pub struct Poset {
    preorder: Preorder,
}

impl Model for Poset {
    ghost use Rattle.mw_poset.specs.SortOrder.{SortOrder};

    ghost Value = { SortOrder };

    ghost use Rattle.std.specs.Prelude.{ℕ};
    ghost use Rattle.mw_poset.specs.Order.{IsOnCycle};

    ghost view = { λ p. p.preorder };

    ghost invariant = { λ p. (S : ℕ) → ¬ IsOnCycle p.preorder.pairs S };
}

impl Poset {
    /// A pair is a sort and one directly above it. A pair of a sort and itself is a cycle.
    pub fn build(alloc: Global, sorts: u32, pairs: &[(SortId, SortId)]) -> Result<Poset, PosetError>
        requires { ArePairsOf sorts pairs.now }
        ensures sorts { IfOk result (λ p. p.sorts ≡ sorts) }
        ensures pairs { IfOk result (λ p. p.pairs ≡ pairs.now) }
        ensures acyclic { OnOk result ((S : ℕ) → ¬ IsOnCycle pairs.now S) }
        ensures cycle { (S : ℕ) → IsErrOf result (PosetError.Cycle S) → IsLeastOnCycle pairs.now S }
    {
        let preorder = Preorder::of(alloc, sorts, pairs)?;
        if let Some(sort) = preorder.least_on_cycle() {
            return Err(PosetError::Cycle(sort));
        }
        Ok(Poset { preorder })
    }

    /// How many sorts there are. The sorts of the pairs are among them, and no pairs make a cycle.
    pub fn sorts(&self) -> u32
        ensures sorts { result ≡ self.now.sorts }
        ensures within { ArePairsOf self.now.sorts self.now.pairs }
        ensures acyclic { (S : ℕ) → ¬ IsOnCycle self.now.pairs S }
    {
        self.preorder.sorts()
    }

    /// Whether a chain of pairs, maybe of none, leads from `lower` up to `upper`. It takes no memory and one look-up.
    pub fn le(&self, lower: SortId, upper: SortId) -> bool
        requires lower_is_there { IsSort self.now.sorts lower }
        requires upper_is_there { IsSort self.now.sorts upper }
        ensures { IsTrue result ↔ AtOrBelow self.now.pairs lower upper }
    {
        self.preorder.le(lower, upper)
    }

    /// The kind of a sort. It takes no memory and one look-up.
    pub fn kind_of(&self, sort: SortId) -> KindId
        requires { IsSort self.now.sorts sort }
        ensures { IsKindOf self.now.pairs sort result }
    {
        self.preorder.kind_of(sort)
    }

    /// The sorts of a kind that have no other above them. Any sort of the kind may stand for it.
    pub fn maximal(&self, alloc: Global, kind: KindId) -> Result<Vec<SortId>, AllocError>
        requires { IsSort self.now.sorts kind }
        ensures listed { IfOk result (λ found. (T : ℕ) → Member T found.items ↔ IsMaximalIn self.now.pairs kind T) }
        ensures within { IfOk result (λ found. (T : ℕ) → Member T found.items → IsSort self.now.sorts T) }
        ensures in_order { IfOk result (λ found. IsStrictlyIncreasing found.items) }
    {
        let mut found = Vec::new(alloc);
        for sort in self.preorder.same_kind(kind) {
            if self.preorder.above(*sort).is_empty() {
                found.push(*sort)?;
            }
        }
        Ok(found)
    }
}
