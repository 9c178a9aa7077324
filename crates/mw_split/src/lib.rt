//! All cuts of a list into contiguous parts, and of a multiset into parts, one after another. It stands on nothing, and
//! the program doesn't use it yet.
//!
//! A cut of a multiset of m different elements into k parts is a list of k m numbers, part by part: how many of each
//! element the part has ([`BagSplits`]). A cut of a list is the list of its parts' lengths ([`ListSplits`], which cuts
//! one element that stands n times). Parts may be empty. The cuts come in rising order of their entries, as in Knuth,
//! The Art of Computer Programming, volume 4A, section 7.2.1: from its last entry back the cut is walked until an entry
//! can grow; it grows by one, and those behind it become the first completion, in place.
//!
//! Contracts see `current`, the cut that the enumeration stands at, and `remaining`, the list of those to come. Proved:
//!
//! - `new` stands before the first cut, and `remaining` has every cut once (`AllOnce`, specs/Lists, over `IsBagCut` and
//!   `IsListCut`), in the order of `bag_cuts` and `list_cuts` (specs/Cuts).
//! - `advance` moves the first of `remaining` to `current`, or answers false exactly where none is left, and for ever
//!   after. `cut` gives the current cut, and can be called only after an `advance` that was true. Neither takes memory.
//!
//! Want of memory is the one error, also where a cut would have 2^64 entries or more. Tested by mw_tests: that `new`
//! answers with memory at hand. Cost: an `advance` takes time in k m + m; 9 ns a cut of a list of 40 into 6, 27 ns a
//! cut of six elements, three of each, into 3.
#![tactic(auto)]

ghost use Rattle.std.specs.Prelude.{◌≡◌, ℕ, ◌+◌, ◌-◌, ◌*◌, ◌<◌, ◌≤◌, List, [], ◌∷◌, ◌++◌, length, take, drop, sum, IfOk, IsTrue, true, false, Some, None, is_some, suc};
ghost use Rattle.mw_split.specs.Lists.{AllOnce};
ghost use Rattle.mw_split.specs.Cuts.{Adds, AllZero, cuts, after, first, IsBagCut, IsListCut, bag_cuts, list_cuts};
ghost use Rattle.mw_split.specs.Turns.{turned, next_of};

use std::alloc::{AllocError, Global};
use std::marker::Model;
use std::slice;

// Where an enumeration stands: before the first cut, at a cut, or behind the last one.
#[derive(Clone, Copy)]
enum Stage {
    Before,
    At,
    Ended,
}

// The element whose turn is next: an entry of the next element, or of the first one in the next part.
fn next_turn(col: usize, width: usize) -> usize
    requires { col < width }
    ensures below { result < width }
    ensures next { result ≡ next_of col width }
{
    if col + 1 < width { col + 1 } else { 0 }
}

// The element whose turn was last.
fn last_turn(col: usize, width: usize) -> usize
    requires { col < width }
    ensures { (result < width) × (next_of result width ≡ col) }
{
    if col == 0 { width - 1 } else { col - 1 }
}

// The entries from `from` on become the first that add up to what is left: zeros, and all that is left in the last part.
fn fill(cut: &mut [usize], left: &mut [usize], from: usize, mut col: usize)
    requires from_in { from ≤ length cut.old }
    requires col_in { col < length left.old }
    ensures { cut.new ≡ take from cut.old ++ first (length cut.old - from) (turned col left.old) }
{
    let width = left.len();
    let end = cut.len();
    for p in from..end {
        if end - p > width {
            cut[p] = 0;
        } else {
            cut[p] = left[col];
            left[col] = 0;
        }
        col = next_turn(col, width);
    }
}

// Goes to the next cut, if there is one: the last entry that can grow does, and those behind it become the first ones.
// `left` is scratch: what stands behind the entry in hand, of each element.
fn step(counts: &[usize], cut: &mut [usize], left: &mut [usize]) -> bool
    requires width { length left.old ≡ length counts.now }
    requires adds { Adds counts.now cut.old }
    ensures more { result ≡ true → (after counts.now cut.old ≡ cut.new ∷ after counts.now cut.new) × Adds counts.now cut.new }
    ensures no_more { result ≡ false → after counts.now cut.old ≡ [] }
{
    let width = counts.len();
    if width == 0 {
        return false;
    }
    for x in left.iter_mut() {
        *x = 0;
    }
    let mut col = 0;
    let mut i = cut.len();
    while i > 0 {
        i -= 1;
        col = last_turn(col, width);
        let taken = cut[i];
        if left[col] > 0 {
            left[col] -= 1;
            cut[i] = taken + 1;
            fill(cut, left, i + 1, next_turn(col, width));
            return true;
        }
        left[col] = taken;
    }
    false
}

// Writes the first cut, if there is one.
fn begin(counts: &[usize], cut: &mut [usize], left: &mut [usize], k: usize) -> bool
    requires size { length cut.old ≡ k * length counts.now }
    requires left { left.old ≡ counts.now }
    ensures some { result ≡ true → (cuts (k * length counts.now) counts.now ≡ cut.new ∷ after counts.now cut.new) × Adds counts.now cut.new }
    ensures none { result ≡ false → cuts (k * length counts.now) counts.now ≡ [] }
{
    if cut.len() == 0 {
        return all_zero(counts);
    }
    fill(cut, left, 0, 0);
    true
}

// Whether there is no element at all.
fn all_zero(counts: &[usize]) -> bool
    ensures zero { result ≡ true → AllZero counts.now }
    ensures more { result ≡ false → cuts 0 counts.now ≡ [] }
{
    for x in counts {
        if *x > 0 {
            return false;
        }
    }
    true
}

/// All cuts of a multiset into k parts, empty parts included, one after another. It is seen as the cut that it stands
/// at and the list of those still to come.
#[derive(Drop)]
pub struct BagSplits {
    stage: Stage,
    counts: Vec<usize>,
    cut: Vec<usize>,
    left: Vec<usize>,
}

impl Model for BagSplits {
    ghost use Rattle.mw_split.specs.Splits.{Splits};

    ghost Value = { Splits };

    ghost use Rattle.mw_split.specs.View.{splits_of, IsKept};

    ghost view = { λ s. splits_of s.stage s.counts.items s.cut.items };

    ghost invariant = { λ s. IsKept s.stage s.counts.items s.cut.items s.left.items };
}

impl BagSplits {
    /// The multiset is given by the counts of its different elements. It stands before the first cut. More than 2^64
    /// entries of a cut are answered as want of memory.
    pub fn new(alloc: Global, counts: &[usize], k: usize) -> Result<BagSplits, AllocError>
        ensures fresh { IfOk result (λ s. s.current ≡ None) }
        ensures in_order { IfOk result (λ s. s.remaining ≡ bag_cuts counts.now k) }
        ensures all_once { IfOk result (λ s. AllOnce (IsBagCut counts.now k) s.remaining) }
    {
        let Some(entries) = k.checked_mul(counts.len()) else {
            return Err(AllocError);
        };
        let mut cut = vec![in alloc; 0usize; entries]?;
        let mut left = counts.to_vec(alloc)?;
        let kept = counts.to_vec(alloc)?;
        let some = begin(counts, cut.as_mut_slice(), left.as_mut_slice(), k);
        Ok(BagSplits {
            stage: if some { Stage::Before } else { Stage::Ended },
            counts: kept,
            cut,
            left,
        })
    }

    /// Goes to the next cut; false when there is none, and for ever after. It takes no memory, and time in the length of
    /// a cut and the number of different elements.
    pub fn advance(&mut self) -> bool
        ensures next { result ≡ true → (c : List ℕ) × (self.old.remaining ≡ c ∷ self.new.remaining) × (self.new.current ≡ Some c) }
        ensures end { result ≡ false → (self.old.remaining ≡ []) × (self.new.remaining ≡ []) × (self.new.current ≡ None) }
    {
        match self.stage {
            Stage::Before => {
                self.stage = Stage::At;
                true
            }
            Stage::Ended => false,
            Stage::At => {
                let more = step(
                    self.counts.as_slice(),
                    self.cut.as_mut_slice(),
                    self.left.as_mut_slice(),
                );
                if !more {
                    self.stage = Stage::Ended;
                }
                more
            }
        }
    }

    /// The cut that it stands at, part by part: how many of each element the part has.
    pub fn cut(&self) -> &[usize]
        requires { IsTrue (is_some self.now.current) }
        ensures { self.now.current ≡ Some result.now }
    {
        self.cut.as_slice()
    }
}

/// All cuts of a list of `len` elements into k contiguous parts, empty parts included, one after another. A cut is given
/// by the lengths of its parts.
#[derive(Drop)]
pub struct ListSplits {
    splits: BagSplits,
}

impl Model for ListSplits {
    ghost use Rattle.mw_split.specs.Splits.{Splits};

    ghost Value = { Splits };

    ghost view = { λ s. s.splits };
}

impl ListSplits {
    /// It stands before the first cut.
    pub fn new(alloc: Global, len: usize, k: usize) -> Result<ListSplits, AllocError>
        ensures fresh { IfOk result (λ s. s.current ≡ None) }
        ensures in_order { IfOk result (λ s. s.remaining ≡ list_cuts len k) }
        ensures all_once { IfOk result (λ s. AllOnce (IsListCut len k) s.remaining) }
    {
        let splits = BagSplits::new(alloc, slice::from_ref(&len), k)?;
        Ok(ListSplits { splits })
    }

    /// Goes to the next cut; false when there is none, and for ever after. It takes no memory, and time in k.
    pub fn advance(&mut self) -> bool
        ensures next { result ≡ true → (c : List ℕ) × (self.old.remaining ≡ c ∷ self.new.remaining) × (self.new.current ≡ Some c) }
        ensures end { result ≡ false → (self.old.remaining ≡ []) × (self.new.remaining ≡ []) × (self.new.current ≡ None) }
    {
        self.splits.advance()
    }

    /// The lengths of the k parts, at the cut that it stands at.
    pub fn cut(&self) -> &[usize]
        requires { IsTrue (is_some self.now.current) }
        ensures { self.now.current ≡ Some result.now }
    {
        self.splits.cut()
    }
}
