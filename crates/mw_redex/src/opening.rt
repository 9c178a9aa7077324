// Places that rules may change.
ghost use Rattle.std.specs.Prelude.{◌≡◌, ◌↔◌, true, IsTrue};
ghost use Rattle.mw_logic.specs.CanonicalPart.{IsOpen};
ghost use Rattle.mw_redex.specs.Replaced.{asked as asked_of, IsOpenWay};

use mw_canon::Facts;
use mw_term::{OpId, Operator, Term, View, numbered};

/// Whether a rule may change what stands at the end of a path: no argument on the way is frozen. For several arguments
/// of an associative operator ask for the path with 1 behind it: they are frozen together. A path that leads nowhere is
/// judged as far as it leads.
pub fn is_open(facts: &Facts, term: &Term, path: &[u32]) -> bool
    ensures { IsTrue result ↔ IsOpenWay facts.now true path.now term.now }
{
    let [number, rest @ ..] = path else {
        return true;
    };
    let View::Op(operator, args) = term.view() else {
        return true;
    };
    if !is_open_argument(facts, operator, *number) {
        return false;
    }
    match numbered(args, *number) {
        Some(argument) => is_open(facts, argument, rest),
        None => true,
    }
}

/// Whether a rule may change what stands in an argument. The arguments of an associative or commutative operator are
/// frozen together, so the first speaks for all.
fn is_open_argument(facts: &Facts, operator: OpId, number: u32) -> bool
    ensures { IsTrue result ↔ IsOpen facts.now true operator number }
{
    let signature = facts.signature();
    match numbered(signature.operators.as_slice(), operator) {
        Some(found) => {
            let asked = asked(found, number);
            !found.frozen.as_slice().contains(&asked)
        }
        None => true,
    }
}

/// Which argument speaks for one of an operator.
fn asked(operator: &Operator, number: u32) -> u32
    ensures { result ≡ asked_of operator.now number }
{
    if operator.assoc || operator.comm {
        1
    } else {
        number
    }
}
