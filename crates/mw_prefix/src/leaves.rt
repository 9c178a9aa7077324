// The kinds of numerals and of quoted identifiers.
ghost use Rattle.std.specs.Prelude.{◌≡◌};
ghost use Rattle.mw_poset.specs.SortOrder.{order_of};
ghost use Rattle.mw_prefix.specs.Leaves.{IsKindNamed};

use mw_canon::{Facts, kind_named};
use mw_poset::Poset;
use mw_term::{KindId, Signature};

/// The kinds of numerals and of quoted identifiers, where a signature has them.
#[derive(Clone, Copy, Debug, PartialEq, Eq)]
pub struct LeafKinds {
    pub numerals: Option<KindId>,
    pub identifiers: Option<KindId>,
}

impl LeafKinds {
    ghost use Rattle.mw_prefix.specs.Leaves.{AreLeafKinds};

    /// Those of a signature. Its sorts are looked through until `Nat` is found, and until `Qid` is.
    pub fn of(facts: &Facts, order: &Poset) -> LeafKinds
        requires { order.now ≡ order_of facts.now }
        ensures { AreLeafKinds facts.now result }
    {
        let signature = facts.signature();
        LeafKinds {
            numerals: kind_there(signature, order, signature.nat, b"Nat".as_slice()),
            identifiers: kind_there(signature, order, signature.qid, b"Qid".as_slice()),
        }
    }
}

/// The kind of the sort of this name, where it is there and has terms.
fn kind_there(signature: &Signature, order: &Poset, there: bool, name: &[u8]) -> Option<KindId>
    requires { order.now ≡ order_of signature.now }
    ensures { IsKindNamed signature.now there name.now result }
{
    if !there {
        return None;
    }
    kind_named(signature, order, name)
}
