// Terms as they are written.
ghost use Rattle.std.specs.Prelude.{◌≡◌, ◌↔◌, IsTrue};
ghost use Rattle.mw_term.specs.Raws.{raw_term, raw_terms};

use crate::lists::{Alike, same_name};
use mw_term::{Raw, VarId};

impl Alike for VarId {
    fn same(&self, other: &Self) -> bool
        ensures { IsTrue result ↔ (self.now ≡ other.now) }
    {
        self.sort == other.sort && same_name(&self.name, &other.name)
    }
}

/// Whether two terms are one as they are written. It goes as deep as the first one is.
#[cycle(raws)]
pub(crate) fn same_raw(one: &Raw, other: &Raw) -> bool
    ensures { IsTrue result ↔ (raw_term one.now ≡ raw_term other.now) }
{
    match (one, other) {
        (Raw::Nat(number), Raw::Nat(second)) => *number == *second,
        (Raw::Qid(name), Raw::Qid(second)) => same_name(name, second),
        (Raw::Var(variable), Raw::Var(second)) => variable.same(second),
        (Raw::Op(operator, args), Raw::Op(second, others)) => {
            *operator == *second && same_raws(args.as_slice(), others.as_slice())
        }
        _ => false,
    }
}

/// Whether two lists of terms are one.
#[cycle(raws)]
fn same_raws(ones: &[Raw], others: &[Raw]) -> bool
    ensures { IsTrue result ↔ (raw_terms ones.now ≡ raw_terms others.now) }
{
    let mut rest = ones;
    let mut left = others;
    while let [one, more @ ..] = rest {
        let [other, after @ ..] = left else {
            return false;
        };
        if !same_raw(one, other) {
            return false;
        }
        rest = more;
        left = after;
    }
    left.is_empty()
}
