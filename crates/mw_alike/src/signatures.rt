// Sorts, operators and signatures.
ghost use Rattle.std.specs.Prelude.{◌≡◌, ◌↔◌, map, IsTrue};
ghost use Rattle.mw_term.specs.Signatures.{gather_of, sorted_of};
ghost use Rattle.mw_alike.specs.Alike.{AreDeclaredAlike, HaveSameAxioms, AreMarkedAlike};

use crate::lists::{Alike, all_same, same_name};
use mw_term::{Declaration, Gather, Identity, Operator, Signature, Sorted};

impl Alike for Sorted {
    fn same(&self, other: &Self) -> bool
        ensures { IsTrue result ↔ (self.now ≡ other.now) }
    {
        *self == *other
    }
}

impl Alike for Gather {
    fn same(&self, other: &Self) -> bool
        ensures { IsTrue result ↔ (self.now ≡ other.now) }
    {
        *self == *other
    }
}

/// Whether two lists of sorts are one.
fn same_sorts(ones: &[Sorted], others: &[Sorted]) -> bool
    ensures { IsTrue result ↔ (map sorted_of ones.now ≡ map sorted_of others.now) }
{
    all_same(ones, others)
}

/// Whether two lists of what holes take are one.
fn same_gathers(ones: &[Gather], others: &[Gather]) -> bool
    ensures { IsTrue result ↔ (map gather_of ones.now ≡ map gather_of others.now) }
{
    all_same(ones, others)
}

impl Alike for Declaration {
    fn same(&self, other: &Self) -> bool
        ensures { IsTrue result ↔ (self.now ≡ other.now) }
    {
        self.result == other.result && same_sorts(self.args.as_slice(), other.args.as_slice())
    }
}

/// Whether two operators have the same identity, or none.
fn same_identity(one: Option<Identity>, other: Option<Identity>) -> bool
    ensures { IsTrue result ↔ (one ≡ other) }
{
    one == other
}

/// Whether two operators have one name and the same kinds and declarations.
fn are_declared_alike(one: &Operator, other: &Operator) -> bool
    ensures { IsTrue result ↔ AreDeclaredAlike one.now other.now }
{
    if one.result != other.result || !same_name(&one.spelling, &other.spelling) {
        return false;
    }
    if !all_same(one.args.as_slice(), other.args.as_slice()) {
        return false;
    }
    all_same(one.declarations.as_slice(), other.declarations.as_slice())
}

/// Whether they have the same axioms.
fn have_same_axioms(one: &Operator, other: &Operator) -> bool
    ensures { IsTrue result ↔ HaveSameAxioms one.now other.now }
{
    one.assoc == other.assoc
        && one.comm == other.comm
        && same_identity(one.identity, other.identity)
}

/// Whether the rest of their attributes is the same.
fn have_same_marks(one: &Operator, other: &Operator) -> bool
    ensures { IsTrue result ↔ AreMarkedAlike one.now other.now }
{
    if one.prec != other.prec || one.config != other.config || one.built != other.built {
        return false;
    }
    if !same_gathers(one.gather.as_slice(), other.gather.as_slice()) {
        return false;
    }
    all_same(one.frozen.as_slice(), other.frozen.as_slice())
}

impl Alike for Operator {
    fn same(&self, other: &Self) -> bool
        ensures { IsTrue result ↔ (self.now ≡ other.now) }
    {
        if !are_declared_alike(self, other) || !have_same_axioms(self, other) {
            return false;
        }
        have_same_marks(self, other)
    }
}

/// Whether two signatures are one.
pub(crate) fn same_signature(one: &Signature, other: &Signature) -> bool
    ensures { IsTrue result ↔ (one.now ≡ other.now) }
{
    if one.nat != other.nat || one.qid != other.qid {
        return false;
    }
    if !all_same(one.sorts.as_slice(), other.sorts.as_slice()) {
        return false;
    }
    if !all_same(one.pairs.as_slice(), other.pairs.as_slice()) {
        return false;
    }
    all_same(one.operators.as_slice(), other.operators.as_slice())
}
