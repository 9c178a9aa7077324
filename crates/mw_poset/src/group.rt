// The sorts of each kind, and of each sort its place among those of its kind.
ghost use Rattle.std.specs.Prelude.{◌≡◌, ℕ, length, All, IfOk};
ghost use Rattle.mw_poset.specs.Order.{IsSort};
ghost use Rattle.mw_poset.specs.Groups.{AreGroups};

use crate::list::{SortList, empty_lists};
use mw_term::KindId;
use std::alloc::{AllocError, Global};

// A kind's sorts stand in the list of its least sort, in order of number.
#[derive(Drop)]
pub struct Groups {
    pub members: Vec<SortList>,
    pub places: Vec<usize>,
}

pub fn group(alloc: Global, sorts: u32, kinds: &[KindId]) -> Result<Groups, AllocError>
    requires size { length kinds.now ≡ sorts }
    requires sorts { All (IsSort sorts) kinds.now }
    ensures { IfOk result (λ g. AreGroups sorts kinds.now g.members.items g.places.items) }
{
    let mut members = empty_lists(alloc, sorts as usize)?;
    let mut places = Vec::new(alloc);
    for k in 0..sorts {
        let list = &mut members[(kinds[k as usize] - 1) as usize];
        places.push(list.as_slice().len())?;
        list.push(k + 1)?;
    }
    Ok(Groups { members, places })
}
