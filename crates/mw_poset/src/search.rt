// What is reached from a sort, and the kinds. A mark is the number of the sort that was searched from; it is written
// over whatever older mark stands there, so that one list of marks serves many searches.
ghost use Rattle.std.specs.Prelude.{◌≡◌, ◌≢◌, ℕ, List, [], ◌∷◌, ◌++◌, length, All, IfOk, OnOk};
ghost use Rattle.mw_poset.specs.Order.{IsSort};
ghost use Rattle.mw_poset.specs.Tables.{AreLeastReached, IsSymmetric};
ghost use Rattle.mw_poset.specs.Search.{Marks, AreMarked};

use crate::direct::Links;
use mw_term::{KindId, SortId};
use std::alloc::{AllocError, Global};

// Marks each of these sorts, and has those wait that did not have the mark before.
fn mark(
    sorts: &[SortId],
    from: SortId,
    marks: &mut [SortId],
    waiting: &mut Vec<SortId>,
) -> Result<(), AllocError>
    requires { All (IsSort (length marks.old)) sorts.now }
    ensures { OnOk result (Marks from sorts.now marks.old marks.new waiting.old.items waiting.new.items) }
{
    for sort in sorts {
        let place = (*sort - 1) as usize;
        if marks[place] != from {
            marks[place] = from;
            waiting.push(*sort)?;
        }
    }
    Ok(())
}

// Marks what is at or above `from`, by going no further than that.
pub fn mark_reached(
    alloc: Global,
    links: &Links,
    from: SortId,
    marks: &mut [SortId],
) -> Result<(), AllocError>
    requires from_is_there { IsSort links.now.sorts from }
    requires size { length marks.old ≡ links.now.sorts }
    requires new_mark { All (λ mark. mark ≢ from) marks.old }
    ensures { OnOk result (AreMarked links.now from marks.old marks.new) }
{
    let mut waiting = Vec::new(alloc);
    marks[(from - 1) as usize] = from;
    waiting.push(from)?;
    while let Some(sort) = waiting.pop() {
        mark(links.above(sort), from, marks, &mut waiting)?;
    }
    Ok(())
}

// Of each sort the least one that it is connected with. The links go both ways.
pub fn kinds_of(alloc: Global, links: &Links) -> Result<Vec<KindId>, AllocError>
    requires { IsSymmetric links.now.pairs }
    ensures { IfOk result (λ kinds. AreLeastReached links.now kinds.items) }
{
    let sorts = links.sorts();
    let mut kinds = vec![in alloc; 0u32; sorts as usize]?;
    for k in 0..sorts {
        if kinds[k as usize] == 0 {
            mark_reached(alloc, links, k + 1, kinds.as_mut_slice())?;
        }
    }
    Ok(kinds)
}
