// The sorts directly above each sort, as lists.
ghost use Rattle.std.specs.Prelude.{◌≡◌, ℕ, ◌+◌, ◌-◌, ◌<◌, ◌≤◌, List, length, All, IfOk, OnOk};
ghost use Rattle.mw_poset.specs.Order.{IsSort, ArePairsOf};
ghost use Rattle.mw_poset.specs.Tables.{supersorts, turned_too, AreListsOf};

use crate::list::{SortList, empty_lists};
use mw_term::SortId;
use std::alloc::{AllocError, Global};
use std::marker::Model;

// Subsort pairs, and by them what is directly above each sort.
#[derive(Drop)]
pub struct Links {
    sorts: u32,
    pairs: Vec<(SortId, SortId)>,
    above: Vec<SortList>,
}

impl Model for Links {
    ghost use Rattle.mw_poset.specs.SortOrder.{SortOrder};

    ghost Value = { SortOrder };

    ghost use Rattle.mw_poset.specs.Tables.{AreLinks};

    ghost view = { λ l. record { sorts = l.sorts; pairs = l.pairs.items } };

    ghost invariant = { λ l. AreLinks l.sorts l.pairs.items l.above.items };
}

impl Links {
    pub fn of(alloc: Global, sorts: u32, pairs: &[(SortId, SortId)]) -> Result<Links, AllocError>
        requires { ArePairsOf sorts pairs.now }
        ensures sorts { IfOk result (λ l. l.sorts ≡ sorts) }
        ensures pairs { IfOk result (λ l. l.pairs ≡ pairs.now) }
    {
        let above = lists_of(alloc, sorts, pairs)?;
        Ok(Links {
            sorts,
            pairs: pairs.to_vec(alloc)?,
            above,
        })
    }

    pub fn sorts(&self) -> u32
        ensures sorts { result ≡ self.now.sorts }
        ensures within { ArePairsOf self.now.sorts self.now.pairs }
    {
        self.sorts
    }

    // The sorts directly above `sort`.
    pub fn above(&self, sort: SortId) -> &[SortId]
        requires { IsSort self.now.sorts sort }
        ensures direct { result.now ≡ supersorts self.now.pairs sort }
        ensures within { All (IsSort self.now.sorts) result.now }
    {
        self.above[(sort - 1) as usize].as_slice()
    }
}

fn lists_of(
    alloc: Global,
    sorts: u32,
    pairs: &[(SortId, SortId)],
) -> Result<Vec<SortList>, AllocError>
    requires { ArePairsOf sorts pairs.now }
    ensures { IfOk result (λ lists. AreListsOf sorts pairs.now lists.items) }
{
    let mut lists = empty_lists(alloc, sorts as usize)?;
    for (lower, upper) in pairs {
        let list = &mut lists[(*lower - 1) as usize];
        list.push(*upper)?;
    }
    Ok(lists)
}

// The pairs and, of each, the pair turned round.
pub fn both_ways(alloc: Global, sorts: u32, pairs: &[(SortId, SortId)]) -> Result<Links, AllocError>
    requires { ArePairsOf sorts pairs.now }
    ensures sorts { IfOk result (λ l. l.sorts ≡ sorts) }
    ensures pairs { IfOk result (λ l. l.pairs ≡ turned_too pairs.now) }
{
    let mut both = pairs.to_vec(alloc)?;
    for (lower, upper) in pairs {
        both.push((*upper, *lower))?;
    }
    Links::of(alloc, sorts, both.as_slice())
}
