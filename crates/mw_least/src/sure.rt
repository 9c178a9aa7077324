// Sorts that ground terms have by their operators alone, whatever their arguments are.
ghost use Rattle.std.specs.Prelude.{◌≡◌, ◌≤◌, ℕ, map, Some, IfOk, IsFalse, IsTrue};
ghost use Rattle.mw_logic.specs.Preregular.{HasItsSorts};
ghost use Rattle.mw_logic.specs.Terms.{args_of};
ghost use Rattle.mw_logic.specs.Signature.{sort as sort_of, at_number};
ghost use Rattle.mw_logic.specs.Sorts.{AtOrBelow};
ghost use Rattle.mw_poset.specs.SortOrder.{order_of};
ghost use Rattle.mw_term.specs.Signatures.{sorted_of};
ghost use Rattle.mw_least.specs.Sure.{IsNone, AreAllApart, IsApart, IsTop, IsTopOf, AreTops, IsSupport, IsSupportedIn, AreSupported, AreTopped, AreConstantsTopped, AreResults, AreSure};

use mw_poset::Poset;
use mw_term::{
    Declaration, KindId, Name, OpId, Operator, Seq, Signature, SortId, Sorted, Sought, Term,
    number_at, numbered,
};
use std::alloc::{AllocError, Global};

/// Operators with which a term's operators tell nothing: those that may take arguments with the tops of their kinds to a
/// result without it, or those that are outside for a closed sort. Those that each kind has from the start have the
/// largest numbers and are sought apart, since most terms have none of them.
#[derive(Clone, Copy, Drop)]
pub struct Partial {
    declared: Sought,
    built: Sought,
}

impl Partial {
    pub fn none() -> Partial {
        Partial {
            declared: Sought::none(),
            built: Sought::none(),
        }
    }

    /// These and one more.
    pub fn with(self, operator: OpId, built: bool) -> Partial
        ensures more { (f : ℕ) → IsNone result f → IsNone self f }
        ensures last { IsNone result operator → ⊥ }
    {
        if built {
            Partial {
                built: self.built.with(operator),
                ..self
            }
        } else {
            Partial {
                declared: self.declared.with(operator),
                ..self
            }
        }
    }

    /// Whether one of them may stand in a term. A no is certain.
    pub fn may_stand_in(self, term: &Term) -> bool
        ensures { IsFalse result → IsApart self term.now }
    {
        let operators = term.operators();
        operators.may_have(self.declared) || operators.may_have(self.built)
    }

    /// Whether one of them may stand in an argument of a term. A no is certain.
    pub fn may_stand_inside(self, term: &Term) -> bool
        ensures { IsFalse result → AreAllApart self (args_of term.now) }
    {
        let operators = term.operators_inside();
        operators.may_have(self.declared) || operators.may_have(self.built)
    }
}

/// What operators tell of the sorts of terms.
#[derive(Drop)]
pub struct Sure {
    /// Where one of these stands in a term, its operators tell nothing.
    pub partial: Partial,
    /// Of each operator, by number, a sort that each other ground term has with it on top, or 0 for none.
    pub results: Seq<SortId>,
}

pub fn is_there(order: &Poset, sort: SortId) -> bool
    ensures { IsTrue result → (1 ≤ sort) × (sort ≤ order.now.sorts) }
{
    sort != 0 && sort <= order.sorts()
}

/// Whether a chain of subsort pairs leads from one sort up to another.
pub fn reaches(order: &Poset, lower: SortId, upper: SortId) -> bool
    ensures { IsTrue result → AtOrBelow order.now.pairs lower upper }
{
    is_there(order, lower) && is_there(order, upper) && order.le(lower, upper)
}

/// Whether a sort is the top of its kind, where `tops` has that of kind K at place K.
pub fn is_top(order: &Poset, tops: &[SortId], sort: Sorted) -> bool
    ensures { IsTrue result → IsTopOf order.now.pairs tops.now (sorted_of sort) }
{
    let Sorted::Sort(sort) = sort else {
        return false;
    };
    if !is_there(order, sort) {
        return false;
    }
    match tops.get(order.kind_of(sort) as usize) {
        Some(top) => *top == sort,
        None => false,
    }
}

fn are_tops(order: &Poset, tops: &[SortId], sorts: &[Sorted]) -> bool
    ensures { IsTrue result → AreTops order.now.pairs tops.now (map sorted_of sorts.now) }
{
    let mut rest = sorts;
    while let [sort, after @ ..] = rest {
        if !is_top(order, tops, *sort) {
            return false;
        }
        rest = after;
    }
    true
}

/// The sort to which a declaration takes tops, or 0 where it doesn't.
fn result_on_tops(order: &Poset, tops: &[SortId], declaration: &Declaration) -> SortId
    ensures { 1 ≤ result → (declaration.now.result ≡ sort_of result) × AreTops order.now.pairs tops.now declaration.now.args }
{
    match declaration.result {
        Sorted::Sort(result) if are_tops(order, tops, declaration.args.as_slice()) => result,
        _ => 0,
    }
}

/// The least sort to which an operator's declarations take tops, or 0 where none does.
fn support(order: &Poset, tops: &[SortId], operator: &Operator) -> SortId
    ensures { 1 ≤ result → IsSupport order.now.pairs tops.now operator.now result }
{
    let mut least = 0;
    let mut rest = operator.declarations.as_slice();
    while let [declaration, after @ ..] = rest {
        let result = result_on_tops(order, tops, declaration);
        if least == 0 || reaches(order, result, least) {
            least = result;
        }
        rest = after;
    }
    least
}

fn is_supported(order: &Poset, tops: &[SortId], operator: &Operator, kind: KindId) -> bool
    ensures { IsTrue result → IsSupportedIn order.now.pairs tops.now operator.now kind }
{
    match tops.get(kind as usize) {
        Some(top) => *top == 0 || has_support(order, tops, operator, *top),
        None => true,
    }
}

fn has_support(order: &Poset, tops: &[SortId], operator: &Operator, top: SortId) -> bool
    ensures { IsTrue result → (R : ℕ) × IsSupport order.now.pairs tops.now operator.now R × AtOrBelow order.now.pairs R top }
{
    let least = support(order, tops, operator);
    least != 0 && reaches(order, least, top)
}

/// The operators that may take arguments with the tops of their kinds to a result without it.
fn partial_operators(
    order: &Poset,
    tops: &[SortId],
    signature: &Signature,
) -> Result<Partial, AllocError>
    requires order { order.now ≡ order_of signature.now }
    requires numbers { HasItsSorts signature.now }
    ensures { IfOk result (λ s. AreSupported signature.now tops.now s) }
{
    let mut partial = Partial::none();
    for (index, operator) in signature.operators.as_slice().iter().enumerate() {
        let kind = order.kind_of(operator.result);
        if !is_supported(order, tops, operator, kind) {
            partial = partial.with(number_at(index)?, operator.built);
        }
    }
    Ok(partial)
}

/// Of each kind a sort with none above it, at the kind's number.
pub fn greatest(alloc: Global, order: &Poset) -> Result<Vec<SortId>, AllocError> {
    let sorts = order.sorts();
    let mut tops = vec![in alloc; 0; sorts as usize + 1]?;
    for index in 0..sorts {
        let sort = index + 1;
        if let Some(top) = tops.get_mut(order.kind_of(sort) as usize) {
            if *top == 0 || reaches(order, *top, sort) {
                *top = sort;
            }
        }
    }
    Ok(tops)
}

/// Of each operator the least sort to which its declarations take tops, or 0.
fn results_on_tops(
    alloc: Global,
    order: &Poset,
    tops: &[SortId],
    operators: &[Operator],
) -> Result<Seq<SortId>, AllocError>
    ensures { IfOk result (AreResults order.now.pairs tops.now operators.now) }
{
    let mut results = Vec::new(alloc);
    let mut rest = operators;
    while let [operator, after @ ..] = rest {
        results.push(support(order, tops, operator))?;
        rest = after;
    }
    Ok(Seq::of(results))
}

/// Whether a sort is at or below the top of its kind.
fn has_top(order: &Poset, tops: &[SortId], sort: SortId) -> bool
    ensures { IsTrue result → (T : ℕ) × IsTop order.now.pairs tops.now T × AtOrBelow order.now.pairs sort T }
{
    if !is_there(order, sort) {
        return false;
    }
    match tops.get(order.kind_of(sort) as usize) {
        Some(top) => is_top(order, tops, Sorted::Sort(*top)) && reaches(order, sort, *top),
        None => false,
    }
}

/// Whether a sort has this name.
pub fn is_named(sorts: &[Name], sort: SortId, name: &[u8]) -> bool
    ensures { at_number sorts.now sort ≡ Some name.now → IsTrue result }
{
    match numbered(sorts, sort) {
        Some(found) => found.as_slice() == name,
        None => false,
    }
}

/// Whether a sort, if it has this name, is at or below the top of its kind.
fn is_topped(order: &Poset, tops: &[SortId], sorts: &[Name], sort: SortId, name: &[u8]) -> bool
    ensures { IsTrue result → at_number sorts.now sort ≡ Some name.now → (T : ℕ) × IsTop order.now.pairs tops.now T × AtOrBelow order.now.pairs sort T }
{
    !is_named(sorts, sort, name) || has_top(order, tops, sort)
}

/// Whether the sorts of this name are at or below the tops of their kinds.
fn are_topped(order: &Poset, tops: &[SortId], signature: &Signature, name: &[u8]) -> bool
    requires order { order.now ≡ order_of signature.now }
    ensures { IsTrue result → AreTopped signature.now tops.now name.now }
{
    let sorts = signature.sorts.as_slice();
    for index in 0..order.sorts() {
        if !is_topped(order, tops, sorts, index + 1, name) {
            return false;
        }
    }
    true
}

/// Whether numerals and quoted identifiers have the tops of their kinds.
fn are_constants_topped(order: &Poset, tops: &[SortId], signature: &Signature) -> bool
    requires order { order.now ≡ order_of signature.now }
    ensures { IsTrue result → AreConstantsTopped signature.now tops.now }
{
    let numerals = !signature.nat || are_topped(order, tops, signature, b"Nat");
    let quotes = !signature.qid || are_topped(order, tops, signature, b"Qid");
    numerals && quotes
}

/// What a signature's operators tell of the sorts of terms: nothing where a numeral or a quoted identifier may lack the
/// top of its kind.
pub fn sure_sorts(alloc: Global, signature: &Signature, order: &Poset) -> Result<Sure, AllocError>
    requires order { order.now ≡ order_of signature.now }
    requires numbers { HasItsSorts signature.now }
    ensures { IfOk result (AreSure signature.now) }
{
    let tops = greatest(alloc, order)?;
    let tops = tops.as_slice();
    let partial = partial_operators(order, tops, signature)?;
    let operators = if are_constants_topped(order, tops, signature) {
        signature.operators.as_slice()
    } else {
        &[]
    };
    let results = results_on_tops(alloc, order, tops, operators)?;
    Ok(Sure { partial, results })
}
