// Which sorts of a kind are at or above one of them: a bit for each place, in words of 64.
ghost use Rattle.std.specs.Prelude.{◌≡◌, ◌<◌, ◌/◌, ◌*◌, ◌-◌, ◌↔◌, ◌⊎◌, ℕ, List, length, All, IfOk, IsTrue, slice_index};
ghost use Rattle.mw_poset.specs.Order.{IsSort};
ghost use Rattle.mw_poset.specs.Row.{HasPlace, MarkedPlaces};

use mw_term::SortId;
use std::alloc::{AllocError, Global};
use std::marker::Model;

#[derive(Drop)]
pub struct Row {
    words: Vec<u64>,
}

impl Model for Row {
    ghost Value = { List ℕ };

    ghost view = { λ r. r.words.items };
}

impl Row {
    // The places of those members that have the mark of `from`.
    pub fn of(
        alloc: Global,
        members: &[SortId],
        marks: &[SortId],
        from: SortId,
    ) -> Result<Row, AllocError>
        requires { All (IsSort (length marks.now)) members.now }
        ensures { IfOk result (MarkedPlaces from marks.now members.now) }
    {
        let mut words = vec![in alloc; 0u64; members.len() / 64 + 1]?;
        for (place, sort) in members.iter().enumerate() {
            if marks[(*sort - 1) as usize] == from {
                insert(words.as_mut_slice(), place);
            }
        }
        Ok(Row { words })
    }

    pub fn has(&self, place: usize) -> bool
        requires { place < 64 * length self.now }
        ensures { IsTrue result ↔ HasPlace self.now place }
    {
        (self.words[place / 64] >> (place % 64)) & 1 == 1
    }
}

fn insert(words: &mut [u64], place: usize)
    requires { place < 64 * length words.old }
    ensures { (i : ℕ) → HasPlace words.new i ↔ (HasPlace words.old i ⊎ (i ≡ place)) }
{
    words[place / 64] |= 1u64 << (place % 64);
}
