// Canonical instances of right sides.
ghost use Rattle.std.specs.Prelude.{◌≡◌, ◌≤◌, ◌<◌, ◌&&◌, ◌||◌, false, IfOk, IfErr, unwrap_or, slice_get};
ghost use Rattle.mw_logic.specs.Term.{variable as a_variable, nil, cons};
ghost use Rattle.mw_logic.specs.Kinds.{is_successor as successor_of};
ghost use Rattle.mw_logic.specs.NormalForm.{is_comm, arranged, height, is_largest as is_largest_of, has_largest, some_largest};
ghost use Rattle.mw_logic.specs.Terms.{terms_of};
ghost use Rattle.mw_canon.specs.Causes.{IsLimit};
ghost use Rattle.mw_canon.specs.declared.CanonError.TheVariants.{Deep};
ghost use Rattle.mw_position.specs.Positions.{position};
ghost use Rattle.mw_matching.specs.Matches.{evaluated, evaluated_all};
ghost use Rattle.mw_pattern.specs.Clean.{clean};

use mw_canon::{Axioms, CanonError, Facts, limited, rebuild};
use mw_pattern::{Pattern, Patterns};
use mw_term::{Name, OpId, Term, VarId, View, copy, copy_name};
use std::alloc::{AllocError, Global};

/// Whether a term is the largest numeral.
fn is_largest(term: &Term) -> bool
    ensures { result ≡ is_largest_of (cons term.now nil) }
{
    match term.view() {
        View::Nat(number) => number == u128::MAX,
        _ => false,
    }
}

/// Whether the operator is `s_` of numbers.
#[inline(always)]
fn is_successor(facts: &Facts, operator: OpId) -> bool
    ensures { result ≡ successor_of facts.now operator }
{
    facts.shows();
    match facts.axioms(operator) {
        Axioms::Plain | Axioms::Commutative => false,
        Axioms::Successor => true,
        Axioms::Associative { .. } => false,
    }
}

/// Whether an operator on a term is `s_` on the largest numeral.
#[inline(always)]
pub(crate) fn is_over_largest(facts: &Facts, operator: OpId, term: &Term) -> bool
    ensures { result ≡ (successor_of facts.now operator && is_largest_of (cons term.now nil)) }
{
    is_successor(facts, operator) && is_largest(term)
}

/// Whether an operator on these arguments is `s_` on the largest numeral.
#[inline(always)]
fn is_on_largest(facts: &Facts, operator: OpId, args: &[Term]) -> bool
    ensures { result ≡ (successor_of facts.now operator
        && is_largest_of (arranged (is_comm facts.now operator) (terms_of args.now))) }
{
    args.len() == 1 && is_over_largest(facts, operator, &args[0])
}

/// Notes where an operator on these arguments is `s_` on the largest numeral.
#[inline]
fn note_largest(facts: &Facts, operator: OpId, args: &[Term], large: &mut bool)
    ensures { large.new ≡ (large.old || (successor_of facts.now operator
        && is_largest_of (arranged (is_comm facts.now operator) (terms_of args.now)))) }
{
    if is_on_largest(facts, operator, args) {
        *large = true;
    }
}

/// The canonical instance: operators with their axioms on the instances of their arguments. Positions that have no
/// value stay.
pub(crate) fn evaluate(
    alloc: Global,
    facts: &Facts,
    pattern: &Pattern,
    values: &[Term],
) -> Result<Term, AllocError>
    ensures { IfOk result (λ t. t ≡ evaluated facts.now values.now (clean pattern.now)) }
{
    let mut large = false;
    let term = build(alloc, facts, pattern, values, &mut large)?;
    Ok(term)
}

/// The canonical instance, where it has no more levels than a term may and `s_` stands on the largest numeral nowhere
/// in it, if it does so in none of the values.
pub fn instance(
    alloc: Global,
    facts: &Facts,
    pattern: &Pattern,
    values: &[Term],
) -> Result<Term, CanonError>
    ensures term { IfOk result (λ t. t ≡ evaluated facts.now values.now (clean pattern.now)) }
    ensures low { IfOk result (λ t. height t ≤ 1000) }
    ensures small { some_largest facts.now (terms_of values.now) ≡ false
        → IfOk result (λ t. has_largest facts.now t ≡ false) }
    ensures deep { let t = evaluated facts.now values.now (clean pattern.now) in
        IfErr result (λ e. e ≡ Deep → 1000 < height t) }
    ensures cause { let t = evaluated facts.now values.now (clean pattern.now) in
        some_largest facts.now (terms_of values.now) ≡ false
        → IfErr result (IsLimit (height t) (has_largest facts.now t)) }
{
    let mut large = false;
    let term = build(alloc, facts, pattern, values, &mut large)?;
    limited(term, large)
}

/// The same, and whether `s_` stands on the largest numeral in it, where it does so in none of the values.
#[cycle(build)]
pub(crate) fn build(
    alloc: Global,
    facts: &Facts,
    pattern: &Pattern,
    values: &[Term],
    large: &mut bool,
) -> Result<Term, AllocError>
    ensures term { IfOk result (λ t. t ≡ evaluated facts.now values.now (clean pattern.now)) }
    ensures told { IfOk result (λ t. some_largest facts.now (terms_of values.now) ≡ false
        → large.new ≡ (large.old || has_largest facts.now t)) }
{
    match pattern {
        Pattern::Nat(number) => Term::numeral(alloc, *number),
        Pattern::Qid(name) => {
            let name = copy_name(alloc, name)?;
            Term::quoted(alloc, name)
        }
        Pattern::Var(i) => {
            let value = value(alloc, values, *i)?;
            Ok(value)
        }
        Pattern::Op(operator, args) => {
            facts.shows();
            let made = all_built(alloc, facts, args, values, large)?;
            note_largest(facts, *operator, made.as_slice(), large);
            let term = rebuild(alloc, facts, *operator, made)?;
            Ok(term)
        }
    }
}

#[cycle(build)]
fn all_built(
    alloc: Global,
    facts: &Facts,
    patterns: &Patterns,
    values: &[Term],
    large: &mut bool,
) -> Result<Vec<Term>, AllocError>
    ensures term { IfOk result (λ ts. terms_of ts.items ≡ evaluated_all facts.now values.now patterns.now) }
    ensures told { IfOk result (λ ts. some_largest facts.now (terms_of values.now) ≡ false
        → large.new ≡ (large.old || some_largest facts.now (terms_of ts.items))) }
{
    let list = patterns.slice();
    let mut made = Vec::with_capacity(alloc, list.len())?;
    for pattern in list {
        let term = build(alloc, facts, pattern, values, large)?;
        made.push(term)?;
    }
    Ok(made)
}

/// The value of a position, or the position itself where there is none. More than numbers can tell counts as want of
/// memory.
#[inline(always)]
pub(crate) fn value(alloc: Global, values: &[Term], i: usize) -> Result<Term, AllocError>
    ensures { IfOk result (λ t. t ≡ unwrap_or (slice_get values.now i) (a_variable (position i))) }
{
    match values.get(i) {
        Some(value) => copy(value),
        None => placeholder(alloc, i),
    }
}

/// The variable of a position.
#[cold]
fn placeholder(alloc: Global, i: usize) -> Result<Term, AllocError>
    ensures { IfOk result (λ t. t ≡ a_variable (position i)) }
{
    if i > u32::MAX as usize {
        return Err(AllocError);
    }
    let name = Name::of(Vec::new(alloc));
    let variable = VarId {
        name,
        sort: i as u32,
    };
    let term = Term::variable(alloc, variable)?;
    Ok(term)
}
