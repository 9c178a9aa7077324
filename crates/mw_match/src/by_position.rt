// Matching by position.
ghost use Rattle.std.specs.Prelude.{◌≡◌, ◌≢◌, ◌↔◌, false, IfOk, IsTrue, IsFalse, length};
ghost use Rattle.mw_logic.specs.Term.{numeral, quoted, apply};
ghost use Rattle.mw_logic.specs.Terms.{terms_of};
ghost use Rattle.mw_logic.specs.Kinds.{is_successor as successor_in};
ghost use Rattle.mw_logic.specs.Parts.{is_assoc};
ghost use Rattle.mw_logic.specs.NormalForm.{is_comm, counted as counted_up};
ghost use Rattle.mw_position.specs.Positions.{IsNumbered, AreNumbered, counted, counted_all, Begins};
ghost use Rattle.mw_matching.specs.Matches.{evaluated, evaluated_all};
ghost use Rattle.mw_pattern.specs.Clean.{clean};
ghost use Rattle.mw_match.specs.Matching.{Decides};
ghost use Rattle.mw_match.specs.Straight.{IsStraight, AreStraight};

use mw_canon::{Axioms, Facts};
use mw_pattern::{Pattern, Patterns};
use mw_term::{Name, OpId, Term, View, copy, same};
use std::alloc::{AllocError, Global};

fn is_numeral(term: &Term, number: u128) -> bool
    ensures { IsTrue result ↔ (numeral number ≡ term.now) }
{
    match term.view() {
        View::Nat(n) => n == number,
        _ => false,
    }
}

fn is_quoted(term: &Term, name: &Name) -> bool
    ensures { IsTrue result ↔ (quoted name.now ≡ term.now) }
{
    match term.view() {
        View::Qid(q) => q.as_slice() == name.as_slice(),
        _ => false,
    }
}

fn is_successor(facts: &Facts, operator: OpId) -> bool
    ensures { is_assoc facts.now operator ≡ false → result ≡ successor_in facts.now operator }
{
    match facts.axioms(operator) {
        Axioms::Successor => true,
        Axioms::Plain | Axioms::Commutative | Axioms::Associative { .. } => false,
    }
}

/// Whether the operator on these terms is no numeral, as it is in each canonical term.
fn stays(facts: &Facts, operator: OpId, terms: &[Term]) -> bool
    ensures yes { is_assoc facts.now operator ≡ false → IsTrue result → counted_up (successor_in facts.now operator) operator (terms_of terms.now) ≡ apply operator (terms_of terms.now) }
    ensures no { is_assoc facts.now operator ≡ false → IsFalse result → counted_up (successor_in facts.now operator) operator (terms_of terms.now) ≢ apply operator (terms_of terms.now) }
{
    if terms.len() != 1 {
        return true;
    }
    match terms[0].view() {
        View::Nat(number) => number == u128::MAX || !is_successor(facts, operator),
        _ => true,
    }
}

/// Whether the canonical term is an instance, by the values that are there and those that are put behind them. The
/// former stay whatever is answered; what stands behind them counts after a yes alone.
#[cycle(matches)]
pub fn matches(
    alloc: Global,
    facts: &Facts,
    pattern: &Pattern,
    term: &Term,
    values: &mut Vec<Term>,
) -> Result<bool, AllocError>
    requires numbered { IsNumbered (length values.old.items) (clean pattern.now) }
    requires straight { IsStraight facts.now (clean pattern.now) }
    ensures decides { IfOk result (λ b. Decides b (counted (length values.old.items) (clean pattern.now)) values.old.items values.new.items (λ us. evaluated facts.now us (clean pattern.now) ≡ term.now)) }
    ensures count { IfOk result (λ b. IsTrue b → length values.new.items ≡ counted (length values.old.items) (clean pattern.now)) }
    ensures kept { Begins values.old.items values.new.items }
{
    match pattern {
        Pattern::Nat(number) => Ok(is_numeral(term, *number)),
        Pattern::Qid(name) => Ok(is_quoted(term, name)),
        Pattern::Var(i) => match values.get(*i) {
            Some(value) => Ok(same(value, term)),
            None => {
                let value = copy(term)?;
                values.push(value)?;
                Ok(true)
            }
        },
        Pattern::Op(f, args) => match term.view() {
            View::Op(g, terms) => {
                if *f != g || !stays(facts, g, terms) {
                    return Ok(false);
                }
                all_match(alloc, facts, args, terms, values)
            }
            View::Nat(number) => matches_number(alloc, facts, *f, args, number, values),
            _ => Ok(false),
        },
    }
}

/// Whether the numeral is an instance of an operator on patterns, with values as above: it is where the operator is the
/// successor, and one less is an instance of the only pattern.
#[cycle(matches)]
fn matches_number(
    alloc: Global,
    facts: &Facts,
    operator: OpId,
    patterns: &Patterns,
    number: u128,
    values: &mut Vec<Term>,
) -> Result<bool, AllocError>
    requires numbered { AreNumbered (length values.old.items) patterns.now }
    requires straight { IsStraight facts.now (apply operator patterns.now) }
    ensures decides { IfOk result (λ b. Decides b (counted_all (length values.old.items) patterns.now) values.old.items values.new.items (λ us. evaluated facts.now us (apply operator patterns.now) ≡ numeral number)) }
    ensures count { IfOk result (λ b. IsTrue b → length values.new.items ≡ counted_all (length values.old.items) patterns.now) }
    ensures kept { Begins values.old.items values.new.items }
{
    if number == 0 || !is_successor(facts, operator) {
        return Ok(false);
    }
    let list = patterns.slice();
    if list.len() != 1 {
        return Ok(false);
    }
    let less = Term::numeral(alloc, number - 1)?;
    matches(alloc, facts, &list[0], &less, values)
}

/// Whether the canonical terms are instances of the patterns, one by one, with values as above.
#[cycle(matches)]
pub fn all_match(
    alloc: Global,
    facts: &Facts,
    patterns: &Patterns,
    terms: &[Term],
    values: &mut Vec<Term>,
) -> Result<bool, AllocError>
    requires numbered { AreNumbered (length values.old.items) patterns.now }
    requires straight { AreStraight facts.now patterns.now }
    ensures decides { IfOk result (λ b. Decides b (counted_all (length values.old.items) patterns.now) values.old.items values.new.items (λ us. evaluated_all facts.now us patterns.now ≡ terms_of terms.now)) }
    ensures count { IfOk result (λ b. IsTrue b → length values.new.items ≡ counted_all (length values.old.items) patterns.now) }
    ensures kept { Begins values.old.items values.new.items }
{
    let list = patterns.slice();
    let n = list.len();
    if n != terms.len() {
        return Ok(false);
    }
    for i in 0..n {
        if !matches(alloc, facts, &list[i], &terms[i], values)? {
            return Ok(false);
        }
    }
    Ok(true)
}
