// Two numerals among arguments that give something.
ghost use Rattle.std.specs.Prelude.{◌≡◌, true, MatchOption};
ghost use Rattle.mw_logic.specs.Module.{result_of};
ghost use Rattle.mw_logic.specs.Signature.{Signature as SignatureOf};
ghost use Rattle.mw_logic.specs.Terms.{terms_of};
ghost use Rattle.mw_logic.specs.TermOrder.{sorted_terms};
ghost use Rattle.mw_builtin.specs.Results.{result_for, IsFoundOrBarren, IsFoundInEither, AreBarren, DoGive, HasNoPair};
ghost use Rattle.mw_builtin.specs.Places.{IsPairAt, is_number};
ghost use Rattle.mw_builtin.specs.Schemata.{AreSchemataOf, on_numbers};

use crate::number::{Outcome, compute};
use crate::schema::BuiltIn;
use crate::table::Schemata;
use mw_term::{OpId, Term, View};

/// What two numerals give.
#[derive(Clone, Copy)]
pub(crate) enum Found {
    Number(u128),
    /// A truth value, as its constant.
    Constant(OpId),
    /// A number of 2^128 or more.
    TooBig,
}

/// Two neighbours that give something, by the index of the second.
#[derive(Clone, Copy)]
pub(crate) struct Pair {
    pub index: usize,
    pub found: Found,
}

/// What an outcome is in a signature. Without a constant for it a truth value is nothing.
fn denoted(schemata: &Schemata, outcome: Outcome) -> Option<Found>
    ensures { (sig : SignatureOf) → AreSchemataOf sig schemata.now → IsFoundOrBarren sig (result_for outcome) result }
{
    match outcome {
        Outcome::Nothing => None,
        Outcome::Number(number) => Some(Found::Number(number)),
        Outcome::Truth(truth) => match schemata.constant(truth) {
            Some(constant) => Some(Found::Constant(constant)),
            None => None,
        },
        Outcome::TooBig => Some(Found::TooBig),
    }
}

/// What two numbers give, under a commutative operator in this or the other order.
fn of_either(schemata: &Schemata, operator: BuiltIn, comm: bool, m: u128, n: u128) -> Option<Found>
    ensures { (sig : SignatureOf) → AreSchemataOf sig schemata.now → IsFoundInEither sig (result_of (on_numbers operator) m n) (result_of (on_numbers operator) n m) comm result }
{
    match denoted(schemata, compute(operator, m, n)) {
        Some(found) => Some(found),
        None if comm => denoted(schemata, compute(operator, n, m)),
        None => None,
    }
}

/// What two terms give. Only numerals give something.
fn of_terms(
    schemata: &Schemata,
    operator: BuiltIn,
    comm: bool,
    first: &Term,
    second: &Term,
) -> Option<Found>
    ensures { (sig : SignatureOf) → AreSchemataOf sig schemata.now → MatchOption result (AreBarren sig (on_numbers operator) comm first.now second.now) (DoGive sig (on_numbers operator) comm first.now second.now) }
{
    let View::Nat(m) = first.view() else {
        return None;
    };
    let View::Nat(n) = second.view() else {
        return None;
    };
    of_either(schemata, operator, comm, m, n)
}

fn is_numeral(term: &Term) -> bool
    ensures { result ≡ is_number term.now }
{
    match term.view() {
        View::Nat(_) => true,
        _ => false,
    }
}

/// The first neighbours among arguments that give something. Under a commutative operator numerals stand first, so
/// only these are looked at.
pub(crate) fn first_pair(
    schemata: &Schemata,
    operator: BuiltIn,
    comm: bool,
    args: &[Term],
) -> Option<Pair>
    ensures { (sig : SignatureOf) → AreSchemataOf sig schemata.now → (comm ≡ true → sorted_terms (terms_of args.now) ≡ terms_of args.now) → MatchOption result (HasNoPair sig (on_numbers operator) comm (terms_of args.now)) (IsPairAt sig (on_numbers operator) comm args.now) }
{
    for index in 1..args.len() {
        let second = &args[index];
        if let Some(found) = of_terms(schemata, operator, comm, &args[index - 1], second) {
            return Some(Pair { index, found });
        }
        if comm && !is_numeral(second) {
            return None;
        }
    }
    None
}
