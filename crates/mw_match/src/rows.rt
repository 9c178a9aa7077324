// Rows of elements that the arguments of a pattern meet by no values.
ghost use Rattle.std.specs.Prelude.{◌≡◌, ℕ, List, [], IsTrue};
ghost use Rattle.mw_logic.specs.Terms.{terms_of};
ghost use Rattle.mw_matching.specs.Found.{is_single, found_row};
ghost use Rattle.mw_matching.specs.Patterns.{leading};

use mw_canon::Facts;
use mw_search::{Positions, clashes};
use mw_term::{OpId, Term};

/// How many patterns at the front become one element each, whatever their variables' values are.
pub fn leading_rigid(
    facts: &Facts,
    positions: &Positions,
    operator: OpId,
    patterns: &[Term],
) -> usize
    ensures { result ≡ leading facts.now (is_single positions.now.single.items) operator (terms_of patterns.now) }
{
    for i in 0..patterns.len() {
        if !positions.is_rigid(facts, operator, &patterns[i]) {
            return i;
        }
    }
    patterns.len()
}

/// Whether patterns that take elements from the left have no match, as is told by their numbers and by those at the
/// front that become one element each: so many.
pub fn row_clashes(
    facts: &Facts,
    patterns: &[Term],
    rigid: usize,
    elements: &[Term],
    given: &[Term],
) -> bool
    ensures { IsTrue result → (single : List (List ℕ)) (f : ℕ)
        → rigid ≡ leading facts.now (is_single single) f (terms_of patterns.now)
        → found_row facts.now single f (terms_of patterns.now) (terms_of elements.now) given.now ≡ [] }
{
    if elements.len() < rigid {
        return true;
    }
    if rigid == patterns.len() && elements.len() != rigid {
        return true;
    }
    let end = rigid.min(patterns.len());
    for i in 0..end {
        if clashes(facts, &patterns[i], &elements[i], given) {
            return true;
        }
    }
    false
}
