// Whether the ends of a fragment's sides meet it.
ghost use Rattle.std.specs.Prelude.{◌≡◌, ◌↔◌, true, IsTrue, IfOk};
ghost use Rattle.mw_logic.specs.Axioms.{EqualModulo};
ghost use Rattle.mw_logic.specs.Judgements.{MeetsSort};
ghost use Rattle.mw_logic.specs.Module.{IsTruth};
ghost use Rattle.mw_logic.specs.Parts.{nested};
ghost use Rattle.mw_logic.specs.Signature.{IsRawTerm};
ghost use Rattle.mw_logic.specs.Substitution.{instance as instance_of};
ghost use Rattle.mw_canon.specs.Canonical.{IsAdmittedTerm, HasAdmittedValues, meant};
ghost use Rattle.mw_term.specs.Raws.{raw_term};
ghost use Rattle.mw_term.specs.Signatures.{sorted_of};
ghost use Rattle.mw_term.specs.Statements.{fragment_of};
ghost use Rattle.mw_verdict.specs.Checks.{Meets};
ghost use Rattle.mw_check.specs.Answers.{AreAdmittedTerms, HasRawPattern};

use mw_canon::{CanonError, instance};
use mw_least::Ctx;
use mw_term::{Fragment, Raw, Sorted, Subst, Term, same};
use std::alloc::{AllocError, Global};

/// Whether the ends of its sides meet a fragment: of an equation they are one term, of a match the end is the pattern's
/// instance.
pub fn meets(
    alloc: Global,
    context: &Ctx,
    fragment: &Fragment,
    values: &Subst,
    ends: &[Term],
) -> Result<bool, AllocError>
    requires values { HasAdmittedValues context.now.signature values.now }
    requires pattern { HasRawPattern context.now.signature
        (meant context.now.signature values.now) (fragment_of fragment.now) }
    requires ends { AreAdmittedTerms context.now.signature ends.now }
    ensures { IfOk result (λ b. IsTrue b ↔ Meets context.now.signature
        (meant context.now.signature values.now) (fragment_of fragment.now) ends.now) }
{
    context.shows();
    match fragment {
        Fragment::Equal(_, _) => match ends {
            [first, second] => Ok(same(first, second)),
            _ => Ok(false),
        },
        Fragment::Match(pattern, _) => match ends {
            [end] => is_instance(alloc, context, pattern, values, end),
            _ => Ok(false),
        },
        Fragment::HasSort(_, sort) => match ends {
            [end] => Ok(has_sort(context, end, *sort)),
            _ => Ok(false),
        },
        Fragment::Holds(_) => match ends {
            [end] => Ok(is_true(context, end)),
            _ => Ok(false),
        },
    }
}

/// Whether a canonical term is a pattern's instance.
fn is_instance(
    alloc: Global,
    context: &Ctx,
    pattern: &Raw,
    values: &Subst,
    term: &Term,
) -> Result<bool, AllocError>
    requires values { HasAdmittedValues context.now.signature values.now }
    requires raw { IsRawTerm context.now.signature
        (instance_of (meant context.now.signature values.now) (raw_term pattern.now)) }
    requires term { IsAdmittedTerm context.now.signature term.now }
    ensures { let sig = context.now.signature in
        IfOk result (λ b. IsTrue b
        ↔ EqualModulo sig (instance_of (meant sig values.now) (raw_term pattern.now)) (nested sig term.now)) }
{
    context.shows();
    match instance(alloc, context.facts(), values, pattern) {
        Ok(built) => Ok(same(&built, term)),
        Err(CanonError::Memory) => Err(AllocError),
        // a term that is admitted is neither too deep nor too large
        Err(CanonError::Deep) => Ok(false),
        Err(CanonError::Nat) => Ok(false),
    }
}

/// Whether a canonical term has a sort; each one has its kind.
fn has_sort(context: &Ctx, term: &Term, sort: Sorted) -> bool
    requires { IsAdmittedTerm context.now.signature term.now }
    ensures { let sig = context.now.signature in IsTrue result ↔ MeetsSort sig (nested sig term.now)
        (sorted_of sort) }
{
    match sort {
        Sorted::Sort(sort) => context.has_sort(term, sort),
        Sorted::Kind(_) => true,
    }
}

/// Whether a canonical term is `true`.
fn is_true(context: &Ctx, term: &Term) -> bool
    requires { IsAdmittedTerm context.now.signature term.now }
    ensures { let sig = context.now.signature in IsTrue result ↔ IsTruth sig true (nested sig term.now) }
{
    context.shows();
    match context.schemata().truth(term) {
        Some(truth) => truth,
        None => false,
    }
}
