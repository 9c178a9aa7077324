// Which arguments an operator takes.
ghost use Rattle.std.specs.Prelude.{◌≡◌, ℕ, List, Bool, option_map};
ghost use Rattle.mw_logic.specs.Preregular.{HasItsSorts, IsSortOf};
ghost use Rattle.mw_logic.specs.Signature.{at_number, Member};
ghost use Rattle.mw_poset.specs.SortOrder.{order_of};
ghost use Rattle.mw_term.specs.Raws.{raw_term, raw_terms};
ghost use Rattle.mw_prefix.specs.Leaves.{IsKindNamed, AreLeafKinds};
ghost use Rattle.mw_prefix.specs.Taking as spec;

use crate::leaves::LeafKinds;
use mw_canon::Facts;
use mw_poset::Poset;
use mw_term::{KindId, OpId, Operator, Raw, numbered};

/// The operator of this number.
pub(crate) fn operator_at(facts: &Facts, operator: OpId) -> Option<&Operator>
    ensures { option_map (λ o. o.now) result ≡ at_number facts.now.operators operator }
{
    numbered(facts.signature().operators.as_slice(), operator)
}

/// Whether a kind is that of leaves, which is found where there are any.
fn is_leaf_kind(facts: &Facts, order: &Poset, leaves: Option<KindId>, kind: KindId) -> bool
    requires order { order.now ≡ order_of facts.now }
    requires kind { IsSortOf facts.now kind }
    ensures { (there : Bool) (name : List ℕ) → IsKindNamed facts.now there name leaves
        → result ≡ spec.is_kind_named facts.now there name kind }
{
    facts.shows();
    match leaves {
        Some(found) => found == order.kind_of(kind),
        None => false,
    }
}

/// Whether the operator gives terms of a kind.
fn gives(facts: &Facts, order: &Poset, kind: KindId, operator: OpId) -> bool
    requires order { order.now ≡ order_of facts.now }
    requires sorts { HasItsSorts facts.now }
    requires kind { IsSortOf facts.now kind }
    ensures { result ≡ spec.gives facts.now kind (at_number facts.now.operators operator) }
{
    match operator_at(facts, operator) {
        Some(found) => order.kind_of(found.result) == order.kind_of(kind),
        None => false,
    }
}

/// Whether the term, which is ground, is of a kind.
fn is_of_kind(facts: &Facts, order: &Poset, kinds: LeafKinds, kind: KindId, term: &Raw) -> bool
    requires order { order.now ≡ order_of facts.now }
    requires sorts { HasItsSorts facts.now }
    requires kinds { AreLeafKinds facts.now kinds }
    requires kind { IsSortOf facts.now kind }
    ensures { result ≡ spec.is_of_kind facts.now kind (raw_term term.now) }
{
    match term {
        Raw::Nat(_) => is_leaf_kind(facts, order, kinds.numerals, kind),
        Raw::Qid(_) => is_leaf_kind(facts, order, kinds.identifiers, kind),
        Raw::Var(_) => false,
        Raw::Op(operator, _) => gives(facts, order, kind, *operator),
    }
}

/// Whether each of the terms is of a kind.
fn are_of_kind(facts: &Facts, order: &Poset, kinds: LeafKinds, kind: KindId, terms: &[Raw]) -> bool
    requires order { order.now ≡ order_of facts.now }
    requires sorts { HasItsSorts facts.now }
    requires kinds { AreLeafKinds facts.now kinds }
    requires kind { IsSortOf facts.now kind }
    ensures { result ≡ spec.are_of_kind facts.now kind (raw_terms terms.now) }
{
    for term in terms {
        if !is_of_kind(facts, order, kinds, kind, term) {
            return false;
        }
    }
    true
}

/// Whether the terms are of these kinds, one by one.
fn are_of_kinds(
    facts: &Facts,
    order: &Poset,
    kinds: LeafKinds,
    wanted: &[KindId],
    terms: &[Raw],
) -> bool
    requires order { order.now ≡ order_of facts.now }
    requires sorts { HasItsSorts facts.now }
    requires kinds { AreLeafKinds facts.now kinds }
    requires wanted { (K : ℕ) → Member K wanted.now → IsSortOf facts.now K }
    ensures { result ≡ spec.are_of_kinds facts.now wanted.now (raw_terms terms.now) }
{
    if wanted.len() != terms.len() {
        return false;
    }
    for (index, term) in terms.iter().enumerate() {
        if !is_of_kind(facts, order, kinds, wanted[index], term) {
            return false;
        }
    }
    true
}

/// Whether the operator takes these arguments.
pub(crate) fn takes(
    facts: &Facts,
    order: &Poset,
    kinds: LeafKinds,
    operator: OpId,
    args: &[Raw],
) -> bool
    requires order { order.now ≡ order_of facts.now }
    requires sorts { HasItsSorts facts.now }
    requires kinds { AreLeafKinds facts.now kinds }
    ensures { result ≡ spec.takes facts.now operator (raw_terms args.now) }
{
    let Some(found) = operator_at(facts, operator) else {
        return false;
    };
    if found.assoc {
        args.len() >= 2 && are_of_kind(facts, order, kinds, found.result, args)
    } else {
        are_of_kinds(facts, order, kinds, found.args.as_slice(), args)
    }
}
