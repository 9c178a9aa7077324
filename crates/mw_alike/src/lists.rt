// Lists of which each element is compared.
ghost use Rattle.std.specs.Prelude.{◌≡◌, ◌↔◌, IsTrue};

use mw_term::{Name, OpId};

/// What is compared exactly.
pub(crate) trait Alike {
    fn same(&self, other: &Self) -> bool
        ensures { IsTrue result ↔ (self.now ≡ other.now) };
}

/// Whether two lists have the same elements in the same order.
pub(crate) fn all_same<T: Alike>(ones: &[T], others: &[T]) -> bool
    ensures { IsTrue result ↔ (ones.now ≡ others.now) }
{
    let mut rest = ones;
    let mut left = others;
    while let [one, more @ ..] = rest {
        let [other, after @ ..] = left else {
            return false;
        };
        if !one.same(other) {
            return false;
        }
        rest = more;
        left = after;
    }
    left.is_empty()
}

/// Whether two names are one.
pub(crate) fn same_name(one: &Name, other: &Name) -> bool
    ensures { IsTrue result ↔ (one.now ≡ other.now) }
{
    one.as_slice() == other.as_slice()
}

impl Alike for Name {
    fn same(&self, other: &Self) -> bool
        ensures { IsTrue result ↔ (self.now ≡ other.now) }
    {
        same_name(self, other)
    }
}

impl Alike for OpId {
    fn same(&self, other: &Self) -> bool
        ensures { IsTrue result ↔ (self.now ≡ other.now) }
    {
        *self == *other
    }
}

impl Alike for (OpId, OpId) {
    fn same(&self, other: &Self) -> bool
        ensures { IsTrue result ↔ (self.now ≡ other.now) }
    {
        self.0 == other.0 && self.1 == other.1
    }
}
