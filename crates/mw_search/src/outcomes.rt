// What becomes of a goal.
ghost use Rattle.std.specs.Prelude.{◌≡◌, ℕ, List, [], ◌∷◌, IfOk, slice_get, map};
ghost use Rattle.mw_logic.specs.Signature.{Signature};
ghost use Rattle.mw_logic.specs.Term.{apply};
ghost use Rattle.mw_logic.specs.Terms.{args_of, terms_of};
ghost use Rattle.mw_arguments.specs.Splits.{orders};
ghost use Rattle.mw_matching.specs.Found.{Values};
ghost use Rattle.mw_search.specs.Goals.{IsOutcome, Serves, Gives, outcome_trace};
ghost use Rattle.mw_search.specs.Traces.{Trace, at_position, operator_trace, arguments_trace, swapped_trace, before_trace};
ghost use Rattle.mw_search.specs.declared.goals.Goal.TheVariants.{Meet, Args};

use crate::goals::{Goal, Outcome};
use crate::multisets::{bag_met, left_met};
use crate::positions::Positions;
use crate::rows::row_met;
use crate::shares::{Orders, Shares};
use crate::terms::{is_same, row_of};
use mw_canon::{Axioms, Facts};
use mw_term::{OpId, Term, View, copy};
use std::alloc::{AllocError, Global};

/// What becomes of a goal, with these values.
pub fn outcome(
    alloc: Global,
    facts: &Facts,
    positions: &Positions,
    goal: &Goal,
    values: &[Term],
) -> Result<Outcome, AllocError>
    ensures { IfOk result (Serves facts.now positions.now.single.items goal.now values.now) }
{
    match goal {
        Goal::Meet(pattern, term) => Ok(met(alloc, facts, positions, pattern, term, values)?),
        Goal::Args(pattern, term, at) => Ok(args_met(pattern, term, *at)?),
        Goal::Row(pattern, at, row, from) => {
            Ok(row_met(alloc, facts, positions, pattern, *at, row, *from)?)
        }
        Goal::Bag(pattern, at, bag) => bag_met(alloc, facts, positions, pattern, *at, bag, values),
        Goal::Left(pattern, at, bag, gone) => {
            left_met(alloc, facts, positions, pattern, *at, bag, *gone, values)
        }
    }
}

/// A pattern by a term.
fn met(
    alloc: Global,
    facts: &Facts,
    positions: &Positions,
    pattern: &Term,
    term: &Term,
    values: &[Term],
) -> Result<Outcome, AllocError>
    ensures { IfOk result (IsOutcome facts.now positions.now.single.items (Meet pattern.now term.now) values.now) }
{
    match pattern.view() {
        View::Var(x) => placed(facts, positions, x.sort, term, values),
        View::Op(operator, _) => applied(alloc, facts, operator, pattern, term),
        _ => Ok(if is_same(pattern, term) {
            Outcome::Holds
        } else {
            Outcome::Fails
        }),
    }
}

/// A position by a term.
fn placed(
    facts: &Facts,
    positions: &Positions,
    position: u32,
    term: &Term,
    values: &[Term],
) -> Result<Outcome, AllocError>
    ensures { let single = positions.now.single.items in
        let found = slice_get values.now position in
        IfOk result (λ o. (k : Values → Trace) →
        at_position facts.now single position term.now values.now found k
        ≡ outcome_trace facts.now single o values.now k) }
{
    match values.get(position as usize) {
        Some(value) => Ok(if is_same(value, term) {
            Outcome::Holds
        } else {
            Outcome::Fails
        }),
        None => {
            if !positions.fits(facts, position, term) {
                return Ok(Outcome::Fails);
            }
            let value = copy(term)?;
            Ok(Outcome::Binds(value))
        }
    }
}

/// A pattern with an operator on top by a term: the operator's axioms decide.
fn applied(
    alloc: Global,
    facts: &Facts,
    operator: OpId,
    pattern: &Term,
    term: &Term,
) -> Result<Outcome, AllocError>
    requires { pattern.now ≡ apply operator (args_of pattern.now) }
    ensures { IfOk result (λ o. (single : List (List ℕ)) (vs : Values) (k : Values → Trace) →
        operator_trace facts.now single operator (args_of pattern.now) term.now vs k
        ≡ outcome_trace facts.now single o vs k) }
{
    match facts.axioms(operator) {
        Axioms::Plain => Ok(arguments_met(operator, pattern, term)?),
        Axioms::Commutative => Ok(swapped(alloc, operator, pattern, term)?),
        Axioms::Successor => Ok(succeeded(alloc, operator, pattern, term)?),
        Axioms::Associative { comm, .. } => {
            let elements = row_of(alloc, facts, operator, term)?;
            let pattern = copy(pattern)?;
            if comm {
                return Ok(Outcome::Becomes(Goal::Bag(pattern, 0, elements)));
            }
            Ok(Outcome::Becomes(Goal::Row(pattern, 0, elements, 0)))
        }
    }
}

/// The arguments one by one, where the operator stands on top of the term.
fn arguments_met(operator: OpId, pattern: &Term, term: &Term) -> Result<Outcome, AllocError>
    ensures { IfOk result (Gives (λ sig single. arguments_trace sig single operator (args_of pattern.now) term.now)) }
{
    match term.view() {
        View::Op(top, _) if operator == top => {
            let pattern = copy(pattern)?;
            let term = copy(term)?;
            Ok(Outcome::Becomes(Goal::Args(pattern, term, 0)))
        }
        _ => Ok(Outcome::Fails),
    }
}

/// The arguments of a pattern from this one on by those of a term.
fn args_met(pattern: &Term, term: &Term, at: usize) -> Result<Outcome, AllocError>
    ensures { IfOk result (λ o. (sig : Signature) (single : List (List ℕ)) (vs : Values) →
        IsOutcome sig single (Args pattern.now term.now at) vs o) }
{
    let patterns = pattern.arguments();
    let terms = term.arguments();
    if at >= patterns.len() {
        return Ok(if at >= terms.len() {
            Outcome::Holds
        } else {
            Outcome::Fails
        });
    }
    if at >= terms.len() {
        return Ok(Outcome::Fails);
    }
    let first = copy(&patterns[at])?;
    let met = copy(&terms[at])?;
    let pattern = copy(pattern)?;
    let term = copy(term)?;
    Ok(Outcome::First(first, met, Goal::Args(pattern, term, at + 1)))
}

/// The arguments of a commutative operator, in each order.
fn swapped(
    alloc: Global,
    operator: OpId,
    pattern: &Term,
    term: &Term,
) -> Result<Outcome, AllocError>
    ensures { IfOk result (Gives (λ sig single. swapped_trace sig single operator (args_of pattern.now) term.now)) }
{
    let patterns = pattern.arguments();
    match term.view() {
        View::Op(top, args) if operator == top => {
            if patterns.is_empty() {
                return Ok(Outcome::Fails);
            }
            let lists = both(alloc, operator, args)?;
            let first = copy(&patterns[0])?;
            let pattern = copy(pattern)?;
            let orders = Orders {
                pattern,
                lists,
                next: 0,
            };
            Ok(Outcome::Opens(first, Shares::OfOrders(orders)))
        }
        _ => Ok(Outcome::Fails),
    }
}

/// The arguments of a commutative operator in both orders where they differ.
fn both(alloc: Global, operator: OpId, args: &[Term]) -> Result<Vec<Term>, AllocError>
    ensures { IfOk result (λ ls. map args_of ls.items ≡ orders (terms_of args.now)) }
{
    match args {
        [x, y] => {
            let list = pair(alloc, operator, x, y)?;
            if is_same(x, y) {
                let lists = vec![in alloc; list]?;
                return Ok(lists);
            }
            let other = pair(alloc, operator, y, x)?;
            let lists = vec![in alloc; list, other]?;
            Ok(lists)
        }
        [] => Ok(Vec::new(alloc)),
        [_] => Ok(Vec::new(alloc)),
        [_, _, _, ..] => Ok(Vec::new(alloc)),
    }
}

fn pair(alloc: Global, operator: OpId, x: &Term, y: &Term) -> Result<Term, AllocError>
    ensures { IfOk result (λ t. t ≡ apply operator (terms_of (x.now ∷ y.now ∷ []))) }
{
    let x = copy(x)?;
    let y = copy(y)?;
    let args = vec![in alloc; x, y]?;
    let term = Term::apply(alloc, operator, args)?;
    Ok(term)
}

/// `s_` by a number above 0, or by `s_` on a term.
fn succeeded(
    alloc: Global,
    operator: OpId,
    pattern: &Term,
    term: &Term,
) -> Result<Outcome, AllocError>
    ensures { IfOk result (Gives (λ sig single. before_trace sig single operator (args_of pattern.now) term.now)) }
{
    match term.view() {
        View::Op(top, _) if operator == top => {
            let pattern = copy(pattern)?;
            let term = copy(term)?;
            Ok(Outcome::Becomes(Goal::Args(pattern, term, 0)))
        }
        View::Nat(n) if 0 < n => {
            let number = Term::numeral(alloc, n - 1)?;
            let under = Term::apply(alloc, operator, vec![in alloc; number]?)?;
            let pattern = copy(pattern)?;
            Ok(Outcome::Becomes(Goal::Args(pattern, under, 0)))
        }
        _ => Ok(Outcome::Fails),
    }
}
