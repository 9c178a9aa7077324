// Statements.
ghost use Rattle.std.specs.Prelude.{◌≡◌, ◌↔◌, map, IsTrue};
ghost use Rattle.mw_term.specs.Statements.{fragment_of};
ghost use Rattle.mw_alike.specs.Alike.{HaveSameMarks, HaveSameSides};

use crate::lists::{Alike, all_same};
use crate::raws::same_raw;
use mw_term::{Fragment, Raw, Statement};

impl Alike for Fragment {
    fn same(&self, other: &Self) -> bool
        ensures { IsTrue result ↔ (self.now ≡ other.now) }
    {
        match (self, other) {
            (Fragment::Equal(left, right), Fragment::Equal(first, second)) => are_same(
                left, right, first, second,
            ),
            (Fragment::Match(left, right), Fragment::Match(first, second)) => are_same(
                left, right, first, second,
            ),
            (Fragment::HasSort(term, sort), Fragment::HasSort(second, wanted)) => {
                *sort == *wanted && is_same(term, second)
            }
            (Fragment::Holds(term), Fragment::Holds(second)) => is_same(term, second),
            _ => false,
        }
    }
}

/// Whether two terms are one.
fn is_same(one: &Raw, other: &Raw) -> bool
    ensures { IsTrue result ↔ (one.now ≡ other.now) }
{
    same_raw(one, other)
}

/// Whether two pairs of terms are one.
fn are_same(left: &Raw, right: &Raw, first: &Raw, second: &Raw) -> bool
    ensures { IsTrue result ↔ (left.now ≡ first.now) × (right.now ≡ second.now) }
{
    is_same(left, first) && is_same(right, second)
}

/// Whether two conditions are one.
fn same_fragments(ones: &[Fragment], others: &[Fragment]) -> bool
    ensures { IsTrue result ↔ (map fragment_of ones.now ≡ map fragment_of others.now) }
{
    all_same(ones, others)
}

/// Whether two statements have the same marks.
fn have_same_marks(one: &Statement, other: &Statement) -> bool
    ensures { IsTrue result ↔ HaveSameMarks one.now other.now }
{
    one.rule == other.rule && one.executable == other.executable && one.owise == other.owise
}

/// Whether they have the same sides.
fn have_same_sides(one: &Statement, other: &Statement) -> bool
    ensures { IsTrue result ↔ HaveSameSides one.now other.now }
{
    same_raw(&one.left, &other.left) && same_raw(&one.right, &other.right)
}

impl Alike for Statement {
    fn same(&self, other: &Self) -> bool
        ensures { IsTrue result ↔ (self.now ≡ other.now) }
    {
        if !have_same_marks(self, other) || !have_same_sides(self, other) {
            return false;
        }
        if !same_fragments(self.fragments.as_slice(), other.fragments.as_slice()) {
            return false;
        }
        all_same(self.variables.as_slice(), other.variables.as_slice())
    }
}
