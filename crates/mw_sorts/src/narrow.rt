// The declarations that take an argument of some sort, and the least of their results.
ghost use Rattle.std.specs.Prelude.{◌≡◌, ℕ, cond, ◌⊎◌, ◌<◌, ◌↔◌, List, map, length, slice_get, Some, IfOk, IsTrue, option_map};
ghost use Rattle.mw_logic.specs.Signature.{Declaration as DeclarationOf, SameKind, Member};
ghost use Rattle.mw_logic.specs.Sorts.{IsBelow};
ghost use Rattle.mw_logic.specs.Accepted.{number_of_sort};
ghost use Rattle.mw_term.specs.Signatures.{sorted_of};
ghost use Rattle.mw_sorts.specs.States.{IsOperatorOf, turned, ways, AreNumbersOf, TakesAt, Narrows, IsResultAmong, IsEndOf, IsLeastAmong};

use crate::sorting::Sorting;
use mw_term::{Declaration, KindId, Operator, Sorted};
use std::alloc::{AllocError, Global};

// The declaration behind a number, and whether its arguments are exchanged.
fn declaration_at(operator: &Operator, number: usize) -> (&Declaration, bool)
    requires { number < length (ways operator.now) }
    ensures declared { Member result.0.now operator.now.declarations × (IsTrue result.1 → IsTrue operator.now.comm) }
    ensures there { slice_get (ways operator.now) number ≡ Some (cond result.1 (turned result.0.now) result.0.now) }
{
    let declarations = operator.declarations.as_slice();
    if number < declarations.len() {
        (&declarations[number], false)
    } else {
        (&declarations[number - declarations.len()], true)
    }
}

// The sort that declaration `number` takes as argument `place`, both counted from 0.
fn argument(operator: &Operator, number: usize, place: usize) -> Sorted
    requires declaration { number < length (ways operator.now) }
    requires argument { (d : DeclarationOf) → slice_get (ways operator.now) number ≡ Some d → place < length d.args }
    requires pairs { IsTrue operator.now.comm → (d : DeclarationOf) → Member d operator.now.declarations
        → length d.args ≡ 2 }
    ensures { (d : DeclarationOf) × (slice_get (ways operator.now) number ≡ Some d)
        × (slice_get d.args place ≡ Some (sorted_of result)) }
{
    let (declaration, is_turned) = declaration_at(operator, number);
    let args = declaration.args.as_slice();
    if is_turned {
        args[1 - place]
    } else {
        args[place]
    }
}

// The result of declaration `number`.
fn result_of(operator: &Operator, number: usize) -> Sorted
    requires { number < length (ways operator.now) }
    ensures { (d : DeclarationOf) × (slice_get (ways operator.now) number ≡ Some d) × (d.result ≡ sorted_of result) }
{
    let (declaration, _) = declaration_at(operator, number);
    declaration.result
}

// How many declarations there are, with those that a commutative operator has by exchange.
pub fn number_of_ways(operator: &Operator) -> usize
    ensures { result ≡ length (ways operator.now) }
{
    let declarations = operator.declarations.as_slice().len();
    if operator.comm {
        2 * declarations
    } else {
        declarations
    }
}

/// Those of the declarations `alive` that take the sort `sort` as argument `place`, counted from 0.
pub fn narrowed(
    alloc: Global,
    sorting: &Sorting<'_>,
    operator: &Operator,
    alive: &[usize],
    place: usize,
    sort: Sorted,
) -> Result<Vec<usize>, AllocError>
    requires operator { IsOperatorOf sorting.now.signature operator.now }
    requires alive { AreNumbersOf (ways operator.now) alive.now }
    requires kind { (K : ℕ) × (slice_get operator.now.args place ≡ Some K)
        × SameKind sorting.now.signature (number_of_sort (sorted_of sort)) K }
    ensures { IfOk result (λ js. Narrows sorting.now.signature (ways operator.now) place (sorted_of sort) alive.now js.items) }
{
    let mut narrowed = Vec::new(alloc);
    for number in alive {
        if sorting.is_below(sort, argument(operator, *number, place)) {
            narrowed.push(*number)?;
        }
    }
    Ok(narrowed)
}

/// The result of the first of these declarations that no other has undercut. No other can be the least.
fn candidate(sorting: &Sorting<'_>, operator: &Operator, first: Sorted, alive: &[usize]) -> Sorted
    requires operator { IsOperatorOf sorting.now.signature operator.now }
    requires alive { AreNumbersOf (ways operator.now) alive.now }
    requires first { IsResultAmong (ways operator.now) alive.now (sorted_of first) }
    ensures among { IsResultAmong (ways operator.now) alive.now (sorted_of result) }
    ensures only { (R : _) → IsLeastAmong sorting.now.signature (ways operator.now) alive.now R
        → IsBelow sorting.now.signature (sorted_of result) R }
{
    let mut least = first;
    for number in alive {
        let result = result_of(operator, *number);
        if sorting.is_below(result, least) {
            least = result;
        }
    }
    least
}

fn is_below_all(sorting: &Sorting<'_>, operator: &Operator, least: Sorted, alive: &[usize]) -> bool
    requires operator { IsOperatorOf sorting.now.signature operator.now }
    requires alive { AreNumbersOf (ways operator.now) alive.now }
    requires kind { SameKind sorting.now.signature operator.now.result (number_of_sort (sorted_of least)) }
    ensures { IsTrue result ↔ ((Q : _) → IsResultAmong (ways operator.now) alive.now Q
        → IsBelow sorting.now.signature (sorted_of least) Q) }
{
    for number in alive {
        if !sorting.is_below(least, result_of(operator, *number)) {
            return false;
        }
    }
    true
}

/// The least result of these declarations, the operator's kind where there are none, or `None` where no result is
/// least.
pub fn least_result(sorting: &Sorting<'_>, operator: &Operator, alive: &[usize]) -> Option<Sorted>
    requires operator { IsOperatorOf sorting.now.signature operator.now }
    requires alive { AreNumbersOf (ways operator.now) alive.now }
    ensures { IsEndOf sorting.now.signature (ways operator.now) operator.now.result alive.now (option_map sorted_of result) }
{
    let [first, ..] = alive else {
        return Some(Sorted::Kind(operator.result));
    };
    let least = candidate(sorting, operator, result_of(operator, *first), alive);
    if is_below_all(sorting, operator, least, alive) {
        Some(least)
    } else {
        None
    }
}
