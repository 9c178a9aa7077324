// Canonical terms as patterns, and what is asked of these.
ghost use Rattle.std.specs.Prelude.{◌≡◌, ⊤, false, IfOk, IsTrue, MatchOption};
ghost use Rattle.mw_logic.specs.NormalForm.{is_comm};
ghost use Rattle.mw_logic.specs.Parts.{is_assoc};
ghost use Rattle.mw_logic.specs.Terms.{terms_of};
ghost use Rattle.mw_canon.specs.Axioms.{HasAxioms};
ghost use Rattle.mw_canon.specs.declared.axioms.Axioms.TheVariants.{Plain};
ghost use Rattle.mw_compile.specs.Compiled.{AreAmong, AreAllAmong};
ghost use Rattle.mw_position.specs.Positions.{IsNumbered, AreNumbered, counted, counted_all};
ghost use Rattle.mw_position.specs.Variables.{placed, all_placed};
ghost use Rattle.mw_pattern.specs.Clean.{clean};
ghost use Rattle.mw_match.specs.Straight.{IsStraight, AreStraight};
ghost use Rattle.mw_canon.specs.Free.{IsFree, AreFree};
ghost use Rattle.mw_index.specs.Free.{ArePlainArguments};

use mw_canon::{Axioms, Facts};
use mw_pattern::{Pattern, Patterns, Places};
use mw_term::{OpId, Term, View, copy_name};
use std::alloc::{AllocError, Global};

/// A term as a pattern.
#[cycle(pattern)]
pub fn pattern_of(alloc: Global, places: &Places<'_>, term: &Term) -> Result<Pattern, AllocError>
    requires { AreAmong places.now term.now }
    ensures { IfOk result (λ p. clean p ≡ placed places.now term.now) }
{
    match term.view() {
        View::Nat(number) => Ok(Pattern::Nat(number)),
        View::Qid(name) => {
            let name = copy_name(alloc, name)?;
            Ok(Pattern::Qid(name))
        }
        View::Var(x) => Ok(Pattern::Var(places.at(x))),
        View::Op(operator, args) => {
            let made = patterns_of(alloc, places, args)?;
            Ok(Pattern::Op(operator, made))
        }
    }
}

#[cycle(pattern)]
fn patterns_of(alloc: Global, places: &Places<'_>, terms: &[Term]) -> Result<Patterns, AllocError>
    requires { AreAllAmong places.now (terms_of terms.now) }
    ensures { IfOk result (λ ps. ps ≡ all_placed places.now (terms_of terms.now)) }
{
    let mut made = Vec::with_capacity(alloc, terms.len())?;
    for term in terms {
        let pattern = pattern_of(alloc, places, term)?;
        made.push(pattern)?;
    }
    Ok(Patterns::new(made))
}

/// Whether an operator has no axiom, or may be the successor of numbers and is it.
fn is_plain(facts: &Facts, operator: OpId, successor: bool) -> bool
    ensures plain { successor ≡ false → IsTrue result → HasAxioms facts.now operator Plain }
    ensures straight { IsTrue result → (is_assoc facts.now operator ≡ false) × (is_comm facts.now operator ≡ false) }
{
    match facts.axioms(operator) {
        Axioms::Plain => true,
        Axioms::Successor => successor,
        Axioms::Commutative => false,
        Axioms::Associative { .. } => false,
    }
}

/// Whether each operator of a pattern has no axiom, or may be the successor of numbers and is it.
#[cycle(free)]
pub fn is_free(facts: &Facts, pattern: &Pattern, successor: bool) -> bool
    ensures free { successor ≡ false → IsTrue result → IsFree facts.now (clean pattern.now) }
    ensures straight { IsTrue result → IsStraight facts.now (clean pattern.now) }
{
    match pattern {
        Pattern::Op(operator, args) => {
            is_plain(facts, *operator, successor) && are_free(facts, args, successor)
        }
        _ => true,
    }
}

/// The same of several patterns.
#[cycle(free)]
pub fn are_free(facts: &Facts, patterns: &Patterns, successor: bool) -> bool
    ensures free { successor ≡ false → IsTrue result → AreFree facts.now patterns.now }
    ensures straight { IsTrue result → AreStraight facts.now patterns.now }
{
    let list = patterns.slice();
    for pattern in list {
        if !is_free(facts, pattern, successor) {
            return false;
        }
    }
    true
}

/// How many variables a pattern has with so many before it, where they are numbered as they are met.
#[cycle(numbered)]
fn numbered(pattern: &Pattern, before: usize) -> Option<usize>
    ensures { let p = clean pattern.now in MatchOption result ⊤ (λ n. IsNumbered before p × (n ≡ counted before p)) }
{
    match pattern {
        Pattern::Var(i) => {
            if *i < before {
                Some(before)
            } else if *i == before {
                before.checked_add(1)
            } else {
                None
            }
        }
        Pattern::Op(_, args) => all_numbered(args, before),
        _ => Some(before),
    }
}

#[cycle(numbered)]
fn all_numbered(patterns: &Patterns, before: usize) -> Option<usize>
    ensures { MatchOption result ⊤ (λ n. AreNumbered before patterns.now × (n ≡ counted_all before patterns.now)) }
{
    let list = patterns.slice();
    let mut count = before;
    for pattern in list {
        count = numbered(pattern, count)?;
    }
    Some(count)
}

/// Whether so many variables are numbered as they are met.
fn are_met(patterns: &Patterns, count: usize) -> bool
    ensures { IsTrue result → AreNumbered 0 patterns.now × (counted_all 0 patterns.now ≡ count) }
{
    match all_numbered(patterns, 0) {
        Some(met) => met == count,
        None => false,
    }
}

/// The arguments of the operator on top, which has no axiom, where no other operator has one but the successor of
/// numbers and the variables are met in the order of their places.
pub fn plain_arguments(
    alloc: Global,
    facts: &Facts,
    places: &Places<'_>,
    term: &Term,
) -> Result<Option<Patterns>, AllocError>
    requires { AreAmong places.now term.now }
    ensures { IfOk result (λ o. MatchOption o ⊤ (ArePlainArguments facts.now places.now term.now)) }
{
    let View::Op(operator, args) = term.view() else {
        return Ok(None);
    };
    if !is_plain(facts, operator, false) {
        return Ok(None);
    }
    let made = patterns_of(alloc, places, args)?;
    if are_free(facts, &made, true) && are_met(&made, places.len()) {
        Ok(Some(made))
    } else {
        Ok(None)
    }
}
