// What is known of a term without a walk.
ghost use Rattle.std.specs.Prelude.{◌≡◌, ◌↔◌, IsTrue, IsFalse};
ghost use Rattle.std.specs.Int.{bit_at};
ghost use Rattle.mw_term.specs.Facts.{facts_above, facts_joined, facts_of_leaf, facts_of_nothing};

use crate::OpId;
use crate::operators::{LONG_BIT, bits_above, bounded};

/// The operators of a term, as `Operators` has them, and its depth, or 65,535 where that is more; of a list of terms
/// the same, with the depth of the deepest.
#[derive(Clone, Copy, Drop)]
pub(crate) struct Facts {
    pub(crate) remainders: u32,
    pub(crate) last: u8,
    pub(crate) depth: u16,
}

impl Facts {
    /// Of a numeral, a quoted identifier or a variable.
    pub(crate) fn of_leaf() -> Facts
        ensures { result ≡ facts_of_leaf }
    {
        Facts {
            remainders: 0,
            last: 0,
            depth: 1,
        }
    }

    /// Of no terms.
    pub(crate) fn of_nothing() -> Facts
        ensures { result ≡ facts_of_nothing }
    {
        Facts {
            remainders: 0,
            last: 0,
            depth: 0,
        }
    }

    /// Of what one and the other are of.
    pub(crate) fn joined(self, other: Facts) -> Facts
        ensures { result ≡ facts_joined self other }
    {
        Facts {
            remainders: self.remainders | other.remainders,
            last: self.last.max(other.last),
            depth: self.depth.max(other.depth),
        }
    }

    /// Whether they are the same.
    pub(crate) fn is(self, other: Facts) -> bool
        ensures { IsTrue result ↔ (self ≡ other) }
    {
        self.depth == other.depth && self.last == other.last && self.remainders == other.remainders
    }

    /// Whether no long list stands in the terms. A yes is certain.
    pub(crate) fn is_flat(self) -> bool
        ensures yes { IsTrue result → bit_at self.remainders 31 ≡ 0 }
        ensures no { IsFalse result → bit_at self.remainders 31 ≡ 1 }
    {
        self.remainders < LONG_BIT
    }

    /// Of an operator on the terms that these are of, so many.
    #[inline(always)]
    pub(crate) fn under(self, operator: OpId, count: usize) -> Facts
        ensures { result ≡ facts_above operator count self }
    {
        Facts {
            remainders: bits_above(operator, count) | self.remainders,
            last: bounded(operator).max(self.last),
            depth: self.depth.saturating_add(1),
        }
    }
}
