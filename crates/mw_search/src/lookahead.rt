// Patterns that meet a term by no values that go on from those that stand.
ghost use Rattle.std.specs.Prelude.{◌∷◌, [], IsTrue};
ghost use Rattle.mw_logic.specs.Term.{apply};
ghost use Rattle.mw_logic.specs.Terms.{args_of, terms_of};
ghost use Rattle.mw_search.specs.Clashes.{Clash, ClashUnder, ClashSwapped, OrdersClash, AllClash};

use crate::terms::is_same;
use mw_canon::{Axioms, Facts};
use mw_term::{OpId, Term, View};

/// Whether a pattern has no match with a term, as far as operators that aren't associative and the values that stand
/// tell. It walks the pattern, twice under each commutative operator.
#[cycle(clashes)]
pub fn clashes(facts: &Facts, pattern: &Term, term: &Term, values: &[Term]) -> bool
    ensures { IsTrue result → Clash facts.now values.now pattern.now term.now }
{
    match pattern.view() {
        View::Var(x) => match values.get(x.sort as usize) {
            Some(value) => !is_same(value, term),
            None => false,
        },
        View::Op(operator, patterns) => match facts.axioms(operator) {
            Axioms::Plain => clash_under(facts, operator, patterns, term, values),
            Axioms::Commutative => clash_swapped(facts, operator, patterns, term, values),
            _ => false,
        },
        _ => !is_same(pattern, term),
    }
}

/// Whether an operator without axioms on patterns has no match with a term.
#[cycle(clashes)]
fn clash_under(
    facts: &Facts,
    operator: OpId,
    patterns: &[Term],
    term: &Term,
    values: &[Term],
) -> bool
    ensures { IsTrue result → ClashUnder facts.now values.now operator (terms_of patterns.now) term.now }
{
    match term.view() {
        View::Op(top, terms) if operator == top => some_clash(facts, patterns, terms, values),
        _ => true,
    }
}

/// Whether a commutative operator on patterns has no match with a term.
#[cycle(clashes)]
fn clash_swapped(
    facts: &Facts,
    operator: OpId,
    patterns: &[Term],
    term: &Term,
    values: &[Term],
) -> bool
    ensures { IsTrue result → ClashSwapped facts.now values.now operator (terms_of patterns.now) term.now }
{
    match term.view() {
        View::Op(top, terms) if operator == top => orders_clash(facts, patterns, terms, values),
        _ => true,
    }
}

/// Whether two patterns clash with two terms in each order.
#[cycle(clashes)]
fn orders_clash(facts: &Facts, patterns: &[Term], terms: &[Term], values: &[Term]) -> bool
    ensures { IsTrue result → OrdersClash facts.now values.now (terms_of patterns.now) (terms_of terms.now) }
{
    let [p, q] = patterns else {
        return false;
    };
    let [x, y] = terms else {
        return false;
    };
    pair_clashes(facts, p, q, x, y, values) && pair_clashes(facts, p, q, y, x, values)
}

/// Whether the first pattern clashes with the first term, or the second with the second.
#[cycle(clashes)]
fn pair_clashes(facts: &Facts, p: &Term, q: &Term, x: &Term, y: &Term, values: &[Term]) -> bool
    ensures { let qs = terms_of (p.now ∷ q.now ∷ []) in
        let ts = terms_of (x.now ∷ y.now ∷ []) in
        IsTrue result → AllClash facts.now values.now qs ts }
{
    clashes(facts, p, x, values) || clashes(facts, q, y, values)
}

/// Whether one of the patterns clashes with the term at its index.
#[cycle(clashes)]
fn some_clash(facts: &Facts, patterns: &[Term], terms: &[Term], values: &[Term]) -> bool
    ensures { IsTrue result → AllClash facts.now values.now (terms_of patterns.now) (terms_of terms.now) }
{
    let end = patterns.len().min(terms.len());
    for i in 0..end {
        if clashes(facts, &patterns[i], &terms[i], values) {
            return true;
        }
    }
    false
}
