// Which operators stand in a term.
ghost use Rattle.std.specs.Prelude.{◌≡◌, ◌↔◌, ◌%◌, ◌^◌, min, IsFalse};
ghost use Rattle.mw_term.specs.OperatorSets.{AreApart, bits_above as above, with_operator};

use crate::OpId;
use crate::shared::LONG;

/// The bit that also says that an operator stands on a long list of arguments.
pub(crate) const LONG_BIT: u32 = 1 << 31;

/// The operators of a term, as far as a node has room to tell: a bit for each remainder of their numbers by 32, and
/// the largest of the numbers, or 255 where that is more. The last bit also says that one of them stands on eight
/// arguments or more.
#[derive(Clone, Copy, Drop)]
pub struct Operators {
    pub(crate) remainders: u32,
    pub(crate) last: u8,
}

/// Operators that are looked for in terms: a bit for each remainder of their numbers by 32, and the least of the
/// numbers, or 255 where that is more.
#[derive(Clone, Copy, Drop)]
pub struct Sought {
    remainders: u32,
    least: u8,
}

/// The bit of an operator.
pub(crate) fn remainder_bit(operator: OpId) -> u32
    ensures { result ≡ 2 ^ (operator % 32) }
{
    1 << (operator % 32)
}

/// The bits of an operator on so many arguments.
#[inline(always)]
pub(crate) fn bits_above(operator: OpId, count: usize) -> u32
    ensures { result ≡ above operator count }
{
    if count >= LONG {
        remainder_bit(operator) | LONG_BIT
    } else {
        remainder_bit(operator)
    }
}

/// The number of an operator, or 255 where that is more.
pub(crate) fn bounded(operator: OpId) -> u8
    ensures { result ≡ min operator 255 }
{
    operator.min(255) as u8
}

impl Sought {
    /// No operator.
    pub fn none() -> Sought
        ensures { (result.remainders ≡ 0) × (result.least ≡ 255) }
    {
        Sought {
            remainders: 0,
            least: u8::MAX,
        }
    }

    /// These operators and one more.
    pub fn with(self, operator: OpId) -> Sought
        ensures { result ≡ with_operator self operator }
    {
        Sought {
            remainders: self.remainders | remainder_bit(operator),
            least: self.least.min(bounded(operator)),
        }
    }
}

impl Operators {
    /// Whether one of the operators that are sought may stand in the term. A no is certain.
    pub fn may_have(self, sought: Sought) -> bool
        ensures { IsFalse result ↔ AreApart self sought }
    {
        self.remainders & sought.remainders != 0 && sought.least <= self.last
    }
}
