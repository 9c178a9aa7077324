// Replacement at a place.
ghost use Rattle.std.specs.Prelude.{◌≡◌, ◌≤◌, ◌||◌, false, IfOk, IfErr};
ghost use Rattle.mw_logic.specs.NormalForm.{applied_in, height, has_largest, normal_form, some_largest};
ghost use Rattle.mw_logic.specs.Parts.{nested};
ghost use Rattle.mw_logic.specs.Terms.{terms_of};
ghost use Rattle.mw_canon.specs.Canonical.{IsAdmittedTerm};
ghost use Rattle.mw_canon.specs.Causes.{IsLimit};
ghost use Rattle.mw_redex.specs.Replaced.{put_in, replaced_here, replaced_at};
ghost use Rattle.mw_redex.specs.Largest.{counts_past as counts_past_of};

use crate::exchanging::exchange;
use mw_canon::{Axioms, CanonError, Facts, is_largest, limited, rebuild};
use mw_term::{OpId, Seq, Term, View, copy, numbered};
use std::alloc::{AllocError, Global};

/// A place in a term.
#[derive(Drop)]
pub struct Place {
    /// The numbers of the arguments on the way to it, from 1.
    pub path: Seq<u32>,
    /// The numbers of the arguments that are taken there, of an associative operator, from 1 and rising; without them
    /// all that stands there is taken.
    pub take: Option<Seq<u32>>,
}

/// The term with another at a place, as a canonical term. Where the path leads nowhere it is the term itself.
pub fn replace(
    alloc: Global,
    facts: &Facts,
    term: &Term,
    place: &Place,
    with: Term,
) -> Result<Term, CanonError>
    requires term { IsAdmittedTerm facts.now term.now }
    requires with { IsAdmittedTerm facts.now with }
    ensures replaced { IfOk result (λ t. t ≡ replaced_at facts.now place.now.path place.now.take with term.now) }
    ensures canonical { IfOk result (λ t. normal_form facts.now (nested facts.now t) ≡ t) }
    ensures not_deep { IfOk result (λ t. height t ≤ 1000) }
    ensures not_large { IfOk result (λ t. has_largest facts.now t ≡ false) }
    ensures cause { let t = replaced_at facts.now place.now.path place.now.take with term.now in IfErr result (IsLimit (height t) (has_largest facts.now t)) }
{
    facts.shows();
    let mut large = false;
    let path = place.path.as_slice();
    let replaced = replaced(alloc, facts, term, path, &place.take, with, &mut large)?;
    limited(replaced, large)
}

/// The term with another at a place. The flag goes up where a successor of the largest numeral comes to stand in it.
fn replaced(
    alloc: Global,
    facts: &Facts,
    term: &Term,
    path: &[u32],
    take: &Option<Seq<u32>>,
    with: Term,
    large: &mut bool,
) -> Result<Term, AllocError>
    requires term { has_largest facts.now term.now ≡ false }
    requires with { has_largest facts.now with ≡ false }
    requires flag { large.old ≡ false }
    ensures is { IfOk result (λ t. t ≡ replaced_at facts.now path.now take.now with term.now) }
    ensures large { IfOk result (λ t. large.new ≡ has_largest facts.now t) }
{
    facts.shows();
    let [number, rest @ ..] = path else {
        let term = replaced_whole(alloc, facts, term, take, with, large)?;
        return Ok(term);
    };
    let Some(argument) = numbered(term.arguments(), *number) else {
        let term = copy(term)?;
        return Ok(term);
    };
    let inner = replaced(alloc, facts, argument, rest, take, with, large)?;
    let term = put(alloc, facts, term, *number, &[], inner, large)?;
    Ok(term)
}

/// The term with another in place of the whole, or of the arguments that are taken.
fn replaced_whole(
    alloc: Global,
    facts: &Facts,
    term: &Term,
    take: &Option<Seq<u32>>,
    with: Term,
    large: &mut bool,
) -> Result<Term, AllocError>
    requires term { has_largest facts.now term.now ≡ false }
    requires flag { large.old ≡ has_largest facts.now with }
    ensures is { IfOk result (λ t. t ≡ replaced_here facts.now take.now with term.now) }
    ensures large { IfOk result (λ t. large.new ≡ has_largest facts.now t) }
{
    let Some(numbers) = take else {
        return Ok(with);
    };
    match numbers.as_slice() {
        [first, more @ ..] => {
            let term = put(alloc, facts, term, *first, more, with, large)?;
            Ok(term)
        }
        [] => Ok(with),
    }
}

/// The term's operator applied again, with another term in place of the arguments of these numbers.
fn put(
    alloc: Global,
    facts: &Facts,
    term: &Term,
    first: u32,
    more: &[u32],
    with: Term,
    large: &mut bool,
) -> Result<Term, AllocError>
    requires term { has_largest facts.now term.now ≡ false }
    requires flag { large.old ≡ has_largest facts.now with }
    ensures is { IfOk result (λ t. t ≡ put_in facts.now first more.now with term.now) }
    ensures large { IfOk result (λ t. large.new ≡ has_largest facts.now t) }
{
    let View::Op(operator, args) = term.view() else {
        return Ok(with);
    };
    let args = exchange(alloc, args, first, more, with)?;
    let term = applied(alloc, facts, operator, args, large)?;
    Ok(term)
}

/// An operator on arguments. The flag tells whether a successor of the largest numeral stands in these, and then
/// whether one stands in the term.
fn applied(
    alloc: Global,
    facts: &Facts,
    operator: OpId,
    args: Vec<Term>,
    large: &mut bool,
) -> Result<Term, AllocError>
    requires { large.old ≡ some_largest facts.now (terms_of args.items) }
    ensures is { IfOk result (λ t. t ≡ applied_in facts.now operator (terms_of args.items)) }
    ensures large { IfOk result (λ t. large.new ≡ has_largest facts.now t) }
{
    facts.shows();
    let axioms = facts.axioms(operator);
    *large = *large || counts_past(axioms, args.as_slice());
    let term = rebuild(alloc, facts, operator, args)?;
    Ok(term)
}

/// Whether an operator with these axioms is the successor of numbers, and stands on the largest.
fn counts_past(axioms: Axioms, args: &[Term]) -> bool
    ensures { result ≡ counts_past_of axioms (terms_of args.now) }
{
    match axioms {
        Axioms::Successor => is_largest(args),
        _ => false,
    }
}
