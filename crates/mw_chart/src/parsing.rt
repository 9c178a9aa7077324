// The one tree of a text, and the one pair of trees of two.
ghost use Rattle.std.specs.Prelude.{◌≡◌, ◌≢◌, ◌≤◌, ◌<◌, ◌↔◌, ℕ, Some, IfOk, IfErr, IfSome, IfNone, IsTrue, length};
ghost use Rattle.std.specs.List.{slice_get};
ghost use Rattle.mw_chart.specs.Spelling.{IsTable};
ghost use Rattle.mw_chart.specs.Answer.{IsWanted, Reads, HasNoReading, ReadsPair, HasNoPair};
ghost use Rattle.mw_chart.specs.Readings.{IsAt, ArePlaces};
ghost use Rattle.mw_chart.specs.declared.parsing.Places.{Places};
ghost use Rattle.mw_chart.specs.declared.reading.Reading.{Reading};

use crate::fault::{LIMIT, TreePair, Unread};
use crate::reading::{Reading, readings};
use crate::table::Table;
use crate::terminal::Terminal;
use crate::tree::Tree;
use std::alloc::{AllocError, Global};

/// Whether a kind is the wanted one, where one is wanted.
fn is_wanted(wanted: Option<u32>, kind: u32) -> bool
    ensures { IsTrue result ↔ IsWanted wanted kind }
{
    match wanted {
        Some(only) => only == kind,
        None => true,
    }
}

/// The first tree of the wanted kind.
fn first_of(listed: &Vec<Reading>, wanted: Option<u32>) -> Option<usize>
    ensures some { IfSome result (λ k. (x : Reading) × (slice_get listed.now.items k ≡ Some x) × IsWanted wanted x.kind) }
    ensures none { IfNone result ((k : ℕ) (x : Reading) → slice_get listed.now.items k ≡ Some x → IsWanted wanted x.kind → ⊥) }
{
    for (k, found) in listed.iter().enumerate() {
        if is_wanted(wanted, found.kind) {
            return Some(k);
        }
    }
    None
}

/// One that isn't this one.
fn other_of(listed: &Vec<Reading>, wanted: Option<u32>, first: &Tree) -> Option<usize>
    ensures some { IfSome result (λ k. (x : Reading) × (slice_get listed.now.items k ≡ Some x) × IsWanted wanted x.kind × (x.tree ≢ first.now)) }
    ensures none { IfNone result ((k : ℕ) (x : Reading) → slice_get listed.now.items k ≡ Some x → IsWanted wanted x.kind → x.tree ≡ first.now) }
{
    for (k, found) in listed.iter().enumerate() {
        if is_wanted(wanted, found.kind) && !found.tree.same(first) {
            return Some(k);
        }
    }
    None
}

/// The one tree that a text spells, of a kind where one is wanted.
pub fn parse(
    alloc: Global,
    table: &Table,
    text: &[Terminal],
    wanted: Option<u32>,
) -> Result<Tree, Unread<Tree>>
    requires { IsTable table.now }
    ensures one { IfOk result (Reads table.now wanted text.now) }
    ensures fault { IfErr result (HasNoReading table.now wanted text.now) }
{
    if text.len() > LIMIT {
        return Err(Unread::TooLong);
    }
    let listed = readings(alloc, table, text)?;
    match first_of(&listed, wanted) {
        None => Err(Unread::NoParse),
        Some(k) => {
            let first = listed[k].tree.again()?;
            match other_of(&listed, wanted, &first) {
                None => Ok(first),
                Some(j) => {
                    let second = listed[j].tree.again()?;
                    Err(Unread::Ambiguous { first, second })
                }
            }
        }
    }
}

/// Places in two lists.
#[derive(Clone, Copy)]
struct Places {
    left: usize,
    right: usize,
}

/// Two trees of one kind.
fn first_pair(lefts: &Vec<Reading>, rights: &Vec<Reading>) -> Option<Places>
    ensures some { IfSome result (λ p. (x y : Reading) × ArePlaces lefts.now.items rights.now.items p x y) }
    ensures none { IfNone result ((p : Places) (x y : Reading) → ArePlaces lefts.now.items rights.now.items p x y → ⊥) }
{
    for (left, found) in lefts.iter().enumerate() {
        if let Some(right) = first_of(rights, Some(found.kind)) {
            return Some(Places { left, right });
        }
    }
    None
}

/// A tree of a kind; where the left one is the same, another than this one.
fn other_right(rights: &Vec<Reading>, kind: u32, same: bool, second: &Tree) -> Option<usize>
    ensures some { IfSome result (λ k. (y : Reading) × IsAt rights.now.items k y × (kind ≡ y.kind) × (IsTrue same → y.tree ≢ second.now)) }
    ensures none { IfNone result ((k : ℕ) (y : Reading) → IsAt rights.now.items k y → kind ≡ y.kind → IsTrue same × (y.tree ≡ second.now)) }
{
    if same {
        other_of(rights, Some(kind), second)
    } else {
        first_of(rights, Some(kind))
    }
}

/// Two trees of one kind that aren't this pair.
fn other_pair(lefts: &Vec<Reading>, rights: &Vec<Reading>, first: &TreePair) -> Option<Places>
    ensures some { IfSome result (λ p. (x y : Reading) × ArePlaces lefts.now.items rights.now.items p x y × (x.tree ≡ first.now.left → y.tree ≢ first.now.right)) }
    ensures none { IfNone result ((p : Places) (x y : Reading) → ArePlaces lefts.now.items rights.now.items p x y → (x.tree ≡ first.now.left) × (y.tree ≡ first.now.right)) }
{
    for (left, found) in lefts.iter().enumerate() {
        let same = found.tree.same(&first.left);
        if let Some(right) = other_right(rights, found.kind, same, &first.right) {
            return Some(Places { left, right });
        }
    }
    None
}

/// The trees at two places.
fn pair_at(lefts: &Vec<Reading>, rights: &Vec<Reading>, at: Places) -> Result<TreePair, AllocError>
    requires left { at.left < length lefts.now.items }
    requires right { at.right < length rights.now.items }
    ensures { IfOk result (λ p. (x y : Reading) × IsAt lefts.now.items at.left x × IsAt rights.now.items at.right y × (p.left ≡ x.tree) × (p.right ≡ y.tree)) }
{
    let left = lefts[at.left].tree.again()?;
    let right = rights[at.right].tree.again()?;
    Ok(TreePair { left, right })
}

/// The one pair of trees of one kind that two texts spell.
pub fn parse_pair(
    alloc: Global,
    table: &Table,
    left: &[Terminal],
    right: &[Terminal],
) -> Result<TreePair, Unread<TreePair>>
    requires { IsTable table.now }
    ensures one { IfOk result (ReadsPair table.now left.now right.now) }
    ensures fault { IfErr result (HasNoPair table.now left.now right.now) }
{
    if left.len() > LIMIT || right.len() > LIMIT {
        return Err(Unread::TooLong);
    }
    let lefts = readings(alloc, table, left)?;
    let rights = readings(alloc, table, right)?;
    match first_pair(&lefts, &rights) {
        None => Err(Unread::NoParse),
        Some(found) => {
            let first = pair_at(&lefts, &rights, found)?;
            match other_pair(&lefts, &rights, &first) {
                None => Ok(first),
                Some(other) => {
                    let second = pair_at(&lefts, &rights, other)?;
                    Err(Unread::Ambiguous { first, second })
                }
            }
        }
    }
}
