// What is seen of a term under an operator.
ghost use Rattle.std.specs.Prelude.{◌≡◌, ◌↔◌, IsTrue};
ghost use Rattle.mw_deduction.proofs.Depths.{added as levels_added};
ghost use Rattle.mw_stack.specs.Hidden.{IsHidden};

use mw_canon::{Axioms, Facts, parts};
use mw_term::{OpId, Term, View};

/// Whether the term is hidden under the operator: the identity of an associative one, or a numeral from which `s_`
/// counts on.
pub fn hides(facts: &Facts, operator: OpId, term: &Term) -> bool
    ensures { IsTrue result ↔ IsHidden facts.now operator term.now }
{
    facts.shows();
    match facts.axioms(operator) {
        Axioms::Plain | Axioms::Commutative => false,
        Axioms::Successor => match term.view() {
            View::Nat(number) => number < u128::MAX,
            _ => false,
        },
        Axioms::Associative { .. } => parts(facts, operator, term).is_empty(),
    }
}

/// How many levels the operator adds to a term under it: none to its own where it is associative, else one.
pub fn added(facts: &Facts, operator: OpId, term: &Term) -> u16
    ensures { result ≡ levels_added facts.now operator term.now }
{
    match term.view() {
        View::Op(top, _) if top == operator => match facts.axioms(operator) {
            Axioms::Associative { .. } => 0,
            _ => 1,
        },
        _ => 1,
    }
}
