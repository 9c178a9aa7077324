// The first three places whose groupings differ in a square.
ghost use Rattle.std.specs.Prelude.{◌≡◌, ◌<◌, ℕ, length, IfOk};
ghost use Rattle.mw_sorts.specs.Squares.{IsSquare, width, Agrees, AreHeads};
ghost use Rattle.mw_sorts.specs.Squares.{IsFirstWithout, IsFirstPairWithout, IsFirstTripleWithout};

use crate::grouping::square::Square;
use crate::states::States;
use std::alloc::{AllocError, Global};

/// The first three places whose groupings differ, if there are any. It tries one place of each row and column.
pub fn first_triple(
    alloc: Global,
    square: &Square,
) -> Result<Option<(usize, usize, usize)>, AllocError>
    requires { IsSquare square.now }
    ensures { IfOk result (IsFirstTripleWithout (width square.now) (Agrees square.now)) }
{
    let rows = square.rows.as_slice();
    let columns = square.columns.as_slice();
    let firsts = heads(alloc, rows, rows)?;
    let middles = heads(alloc, rows, columns)?;
    let lasts = heads(alloc, columns, columns)?;
    for first in firsts.as_slice() {
        if let Some((middle, last)) = first_pair(
            square,
            *first,
            middles.as_slice(),
            lasts.as_slice(),
        ) {
            return Ok(Some((*first, middle, last)));
        }
    }
    Ok(None)
}

// The first two places whose groupings behind `first` differ, if there are any.
fn first_pair(
    square: &Square,
    first: usize,
    middles: &[usize],
    lasts: &[usize],
) -> Option<(usize, usize)>
    requires square { IsSquare square.now }
    requires first { first < width square.now }
    requires middles { AreHeads square.now.rows.items square.now.columns.items middles.now }
    requires lasts { AreHeads square.now.columns.items square.now.columns.items lasts.now }
    ensures { IsFirstPairWithout (width square.now) (Agrees square.now first) result }
{
    for middle in middles {
        if let Some(last) = first_last(square, first, *middle, lasts) {
            return Some((*middle, last));
        }
    }
    None
}

// The first place whose groupings behind `first` and `middle` differ, if there is one.
fn first_last(square: &Square, first: usize, middle: usize, lasts: &[usize]) -> Option<usize>
    requires square { IsSquare square.now }
    requires first { first < width square.now }
    requires middle { middle < width square.now }
    requires lasts { AreHeads square.now.columns.items square.now.columns.items lasts.now }
    ensures { IsFirstWithout (width square.now) (Agrees square.now first middle) result }
{
    let front = square.product(first, middle);
    for last in lasts {
        let back = square.product(middle, *last);
        if square.product(front, *last) != square.product(first, back) {
            return Some(*last);
        }
    }
    None
}

// The first place of each row and column that stand together.
fn heads(alloc: Global, rows: &[usize], columns: &[usize]) -> Result<Vec<usize>, AllocError>
    requires { length columns.now ≡ length rows.now }
    ensures { IfOk result (λ heads. AreHeads rows.now columns.now heads.items) }
{
    let mut seen = States::new(alloc);
    let mut heads = Vec::new(alloc);
    for place in 0..rows.len() {
        let known = seen.len();
        let number = seen.number(vec![in alloc; rows[place], columns[place]]?)?;
        if number >= known {
            heads.push(place)?;
        }
    }
    Ok(heads)
}
