// Lists of sorts, of which there is one for each sort.
ghost use Rattle.std.specs.Prelude.{◌≡◌, ℕ, List, [], ◌∷◌, ◌++◌, length, All, IfOk, OnOk};

use mw_term::SortId;
use std::alloc::{AllocError, Global};
use std::marker::Model;

#[derive(Drop)]
pub struct SortList {
    sorts: Vec<SortId>,
}

impl Model for SortList {
    ghost Value = { List ℕ };

    ghost view = { λ s. s.sorts.items };
}

impl SortList {
    pub fn new(alloc: Global) -> Self
        ensures { result ≡ [] }
    {
        SortList {
            sorts: Vec::new(alloc),
        }
    }

    pub fn push(&mut self, sort: SortId) -> Result<(), AllocError>
        ensures { OnOk result (self.new ≡ self.old ++ sort ∷ []) }
    {
        self.sorts.push(sort)?;
        Ok(())
    }

    pub fn as_slice(&self) -> &[SortId]
        ensures { result.now ≡ self.now }
    {
        self.sorts.as_slice()
    }
}

// No list has anything in it yet.
pub fn empty_lists(alloc: Global, sorts: usize) -> Result<Vec<SortList>, AllocError>
    ensures size { IfOk result (λ lists. length lists.items ≡ sorts) }
    ensures empty { IfOk result (λ lists. All (λ l. l ≡ []) lists.items) }
{
    let mut lists = Vec::new(alloc);
    for k in 0..sorts {
        lists.push(SortList::new(alloc))?;
    }
    Ok(lists)
}
