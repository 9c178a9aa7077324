// Terms as they are written, and their instances, as canonical terms.
ghost use Rattle.std.specs.Prelude.{◌≡◌, ◌≤◌, ◌||◌, false, true, option_map, IfOk, IfErr};
ghost use Rattle.mw_logic.specs.Signature.{IsRawTerm};
ghost use Rattle.mw_logic.specs.Parts.{is_assoc, nested, IsTooDeep, IsTooLarge};
ghost use Rattle.mw_logic.specs.NormalForm.{flattened, applied_in, normal_form, height, has_largest, some_largest};
ghost use Rattle.mw_logic.specs.Substitution.{instance as instance_of};
ghost use Rattle.mw_logic.specs.Term.{variable as as_variable};
ghost use Rattle.mw_logic.specs.Terms.{terms_of};
ghost use Rattle.mw_term.specs.Raws.{raw_term, raw_terms};
ghost use Rattle.mw_term.specs.Signatures.{identity_of as identity_named};
ghost use Rattle.mw_canon.specs.Canonical.{HasAdmittedValues, meant};
ghost use Rattle.mw_canon.specs.Causes.{HasCause, IsLimit};
ghost use Rattle.mw_canon.specs.Made.{made, all_made, seen_terms};

use crate::CanonError;
use crate::applying::{commuted, counted, is_largest, joined};
use crate::axioms::{Axioms, Facts};
use crate::elements::push_elements;
use crate::entering::written;
use crate::values::Values;
use mw_term::{Identity, OpId, Raw, Subst, Term, VarId, copy, copy_name, depth};
use std::alloc::{AllocError, Global};

/// The most levels of a term.
const LEVELS: u16 = 1000;

/// The canonical term of one as it is written. Variables may stand in it.
pub fn canon(alloc: Global, facts: &Facts, raw: &Raw) -> Result<Term, CanonError>
    requires raw { IsRawTerm facts.now (nested facts.now (raw_term raw.now)) }
    ensures canonical { IfOk result (λ t. t ≡ normal_form facts.now (nested facts.now (raw_term raw.now))) }
    ensures not_deep { IfOk result (λ _. ¬ IsTooDeep facts.now (nested facts.now (raw_term raw.now))) }
    ensures not_large { IfOk result (λ _. ¬ IsTooLarge facts.now (nested facts.now (raw_term raw.now))) }
    ensures cause { IfErr result (HasCause facts.now (nested facts.now (raw_term raw.now))) }
{
    facts.shows();
    let values = Values::none(alloc);
    let mut large = false;
    let term = built(alloc, facts, &values, raw, &mut large)?;
    limited(term, large)
}

/// The canonical term of an instance: each variable that has a value is replaced by it, the others stay. A value
/// is copied by one count.
pub fn instance(
    alloc: Global,
    facts: &Facts,
    substitution: &Subst,
    raw: &Raw,
) -> Result<Term, CanonError>
    requires values { HasAdmittedValues facts.now substitution.now }
    requires raw { IsRawTerm facts.now (instance_of (meant facts.now substitution.now) (nested facts.now (raw_term raw.now))) }
    ensures canonical { IfOk result (λ t. t ≡ normal_form facts.now (instance_of (meant facts.now substitution.now) (nested facts.now (raw_term raw.now)))) }
    ensures not_deep { IfOk result (λ _. ¬ IsTooDeep facts.now (instance_of (meant facts.now substitution.now) (nested facts.now (raw_term raw.now)))) }
    ensures not_large { IfOk result (λ _. ¬ IsTooLarge facts.now (instance_of (meant facts.now substitution.now) (nested facts.now (raw_term raw.now)))) }
    ensures cause { IfErr result (HasCause facts.now (instance_of (meant facts.now substitution.now) (nested facts.now (raw_term raw.now)))) }
{
    facts.shows();
    let values = Values::of(alloc, substitution)?;
    let mut large = false;
    let term = built(alloc, facts, &values, raw, &mut large)?;
    limited(term, large)
}

/// The term, where it has no more levels than it may and no number in it is too large.
pub fn limited(term: Term, large: bool) -> Result<Term, CanonError>
    ensures is { IfOk result (λ t. t ≡ term) }
    ensures low { IfOk result (λ _. height term ≤ 1000) }
    ensures small { IfOk result (λ _. large ≡ false) }
    ensures cause { IfErr result (IsLimit (height term) large) }
{
    if depth(&term) > LEVELS {
        return Err(CanonError::Deep);
    }
    if large {
        return Err(CanonError::Nat);
    }
    Ok(term)
}

/// The instance. The flag goes up where a successor of the largest numeral stands in it.
#[cycle(built)]
fn built(
    alloc: Global,
    facts: &Facts,
    values: &Values,
    raw: &Raw,
    large: &mut bool,
) -> Result<Term, AllocError>
    requires { HasAdmittedValues facts.now values.now }
    ensures is { IfOk result (λ t. t ≡ made facts.now values.now (raw_term raw.now)) }
    ensures large { IfOk result (λ t. large.new ≡ (large.old || has_largest facts.now t)) }
{
    facts.shows();
    match raw {
        Raw::Nat(number) => Term::numeral(alloc, *number),
        Raw::Qid(name) => {
            let name = copy_name(alloc, name)?;
            Term::quoted(alloc, name)
        }
        Raw::Var(x) => {
            let term = of_variable(alloc, values, x)?;
            Ok(term)
        }
        Raw::Op(operator, args) => {
            let term = applied(alloc, facts, values, *operator, args.as_slice(), large)?;
            Ok(term)
        }
    }
}

/// An operator on the instances of its arguments.
#[cycle(built)]
fn applied(
    alloc: Global,
    facts: &Facts,
    values: &Values,
    operator: OpId,
    args: &[Raw],
    large: &mut bool,
) -> Result<Term, AllocError>
    requires { HasAdmittedValues facts.now values.now }
    ensures is { IfOk result (λ t. t ≡ applied_in facts.now operator (all_made facts.now values.now (raw_terms args.now))) }
    ensures large { IfOk result (λ t. large.new ≡ (large.old || has_largest facts.now t)) }
{
    facts.shows();
    match facts.axioms(operator) {
        Axioms::Plain => {
            let made = all_built(alloc, facts, values, args, large)?;
            let term = Term::apply(alloc, operator, made)?;
            Ok(term)
        }
        Axioms::Commutative => {
            let made = all_built(alloc, facts, values, args, large)?;
            let term = commuted(alloc, operator, made)?;
            Ok(term)
        }
        Axioms::Successor => {
            let mut made = all_built(alloc, facts, values, args, large)?;
            *large = *large || is_largest(made.as_slice());
            let term = counted(alloc, operator, &mut made, 0)?;
            Ok(term)
        }
        Axioms::Associative { comm, identity } => {
            let terms = written(alloc, operator, args)?;
            let terms = terms.as_slice();
            let found = gathered(alloc, facts, values, operator, identity, terms, large)?;
            let term = joined(alloc, comm, identity, operator, found)?;
            Ok(term)
        }
    }
}

#[cycle(built)]
fn all_built(
    alloc: Global,
    facts: &Facts,
    values: &Values,
    args: &[Raw],
    large: &mut bool,
) -> Result<Vec<Term>, AllocError>
    requires { HasAdmittedValues facts.now values.now }
    ensures is { IfOk result (λ ts. terms_of ts.items ≡ all_made facts.now values.now (raw_terms args.now)) }
    ensures large { IfOk result (λ ts. large.new ≡ (large.old || some_largest facts.now (terms_of ts.items))) }
{
    let mut made = Vec::with_capacity(alloc, args.len())?;
    for arg in args {
        made.push(built(alloc, facts, values, arg, large)?)?;
    }
    Ok(made)
}

/// The elements of the instances of these terms under an associative operator.
#[cycle(built)]
fn gathered(
    alloc: Global,
    facts: &Facts,
    values: &Values,
    operator: OpId,
    identity: Option<Identity>,
    terms: &[&Raw],
    large: &mut bool,
) -> Result<Vec<Term>, AllocError>
    requires values { HasAdmittedValues facts.now values.now }
    requires associative { is_assoc facts.now operator ≡ true }
    ensures is { IfOk result (λ ts. terms_of ts.items ≡ flattened (option_map identity_named identity) operator (all_made facts.now values.now (seen_terms terms.now))) }
    ensures large { IfOk result (λ ts. large.new ≡ (large.old || some_largest facts.now (terms_of ts.items))) }
{
    facts.shows();
    let mut found = Vec::with_capacity(alloc, terms.len())?;
    for raw in terms {
        let term = built(alloc, facts, values, *raw, large)?;
        push_elements(alloc, identity, operator, term, &mut found)?;
    }
    Ok(found)
}

/// A variable's value, or else the variable.
fn of_variable(alloc: Global, values: &Values, x: &VarId) -> Result<Term, AllocError>
    ensures { IfOk result (λ t. t ≡ instance_of values.now (as_variable x.now)) }
{
    match values.at(x) {
        Some(value) => copy(value),
        None => {
            let name = copy_name(alloc, &x.name)?;
            let sort = x.sort;
            Term::variable(alloc, VarId { name, sort })
        }
    }
}
