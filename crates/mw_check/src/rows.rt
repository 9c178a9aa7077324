// What rows of the built-in schemata make of a part.
ghost use Rattle.std.specs.Prelude.{◌≡◌, ◌≤◌, ◌↔◌, ℕ, List, [], ◌∷◌, Bool, Option, length, IfOk, IsTrue};
ghost use Rattle.mw_logic.specs.Module.{IsPolymorphic, IsTruth};
ghost use Rattle.mw_logic.specs.NormalForm.{arranged};
ghost use Rattle.mw_logic.specs.Term.{apply as applied};
ghost use Rattle.mw_logic.specs.Terms.{terms_of};
ghost use Rattle.mw_canon.specs.Canonical.{IsAdmittedTerm};
ghost use Rattle.mw_builtin.specs.Steps.{IsGiven, IsGroundTerm, IsSide, IsTestOf};
ghost use Rattle.mw_index.specs.Index.{IsIndexOf};
ghost use Rattle.mw_verdict.proofs.RowKinds.{test_name};
ghost use Rattle.mw_check.specs.Answers.{IsComputation};
ghost use Rattle.mw_check.specs.RowSides.{AreTold, ArePaired, IsTwice};

use crate::normal::{Normal, Tester, test_normal};
use mw_builtin::Met;
use mw_canon::Axioms;
use mw_least::Ctx;
use mw_term::{OpId, Term, View, copy, same};
use std::alloc::{AllocError, Global};

/// What rows make of a part.
#[derive(Drop)]
pub enum Computed {
    /// None is met, whatever is normal.
    NoRow,
    /// One is met where all terms pass for normal, and none where reducible ones don't.
    NotNormal,
    /// This, but a test of normality stopped.
    Stopped(Term),
    /// This.
    Gives(Term),
}

/// What a row makes of a part, whose sides are tested to be normal where the row wants them to be.
pub fn compute(
    alloc: Global,
    tester: &Tester<'_>,
    part: &Term,
    rank: u8,
) -> Result<Computed, AllocError>
    requires rank { rank ≤ 63 }
    requires most { 1 ≤ tester.now.most }
    requires index { IsIndexOf tester.now.context.now tester.now.index.now }
    requires part { IsAdmittedTerm tester.now.context.now.signature part.now }
    ensures { IfOk result (IsComputation tester.now.context.now tester.now.most rank part.now) }
{
    let context = tester.context;
    context.shows();
    let View::Op(operator, args) = part.view() else {
        return Ok(Computed::NoRow);
    };
    let schemata = context.schemata();
    match schemata.step(alloc, context.facts(), operator, args)? {
        Met::Nothing => Ok(Computed::NoRow),
        Met::TooBig { take: _ } => Ok(Computed::NoRow),
        Met::Gives { take, to } => match schemata.test(operator) {
            Some(_) => {
                let computed = tested(alloc, tester, operator, args, to, rank)?;
                Ok(computed)
            }
            None if take.is_some() => Ok(Computed::NoRow),
            None => Ok(Computed::Gives(to)),
        },
    }
}

/// What a row makes of a test of all these arguments. Of two it is this; where they differ, if both are normal.
fn tested(
    alloc: Global,
    tester: &Tester<'_>,
    operator: OpId,
    args: &[Term],
    to: Term,
    rank: u8,
) -> Result<Computed, AllocError>
    requires rank { rank ≤ 63 }
    requires most { 1 ≤ tester.now.most }
    requires index { IsIndexOf tester.now.context.now tester.now.index.now }
    requires part { IsAdmittedTerm tester.now.context.now.signature (applied operator (terms_of args.now)) }
    requires test { IsTestOf tester.now.context.now.signature operator }
    requires given { let sig = tester.now.context.now.signature in
        (take : Option (List ℕ))
        × IsGiven sig (IsSide sig operator args.now) (applied operator (terms_of args.now)) take to }
    ensures { IfOk result (IsComputation tester.now.context.now tester.now.most rank (applied operator
        (terms_of args.now))) }
{
    tester.context.shows();
    let [first, second] = args else {
        let computed = shared(alloc, tester.context, operator, args)?;
        return Ok(computed);
    };
    if same(first, second) {
        return Ok(Computed::Gives(to));
    }
    match both(alloc, tester, first, second, rank)? {
        Normal::Yes => Ok(Computed::Gives(to)),
        Normal::No => Ok(Computed::NotNormal),
        Normal::Stopped => Ok(Computed::Stopped(to)),
    }
}

/// Whether both terms are normal: no where one of them is reducible.
fn both(
    alloc: Global,
    tester: &Tester<'_>,
    first: &Term,
    second: &Term,
    rank: u8,
) -> Result<Normal, AllocError>
    requires rank { rank ≤ 63 }
    requires most { 1 ≤ tester.now.most }
    requires index { IsIndexOf tester.now.context.now tester.now.index.now }
    requires first { IsAdmittedTerm tester.now.context.now.signature first.now }
    requires second { IsAdmittedTerm tester.now.context.now.signature second.now }
    ensures { IfOk result (AreTold tester.now.context.now tester.now.most rank first.now second.now) }
{
    let left = test_normal(alloc, tester, first, rank)?;
    if let Normal::No = left {
        return Ok(Normal::No);
    }
    match test_normal(alloc, tester, second, rank)? {
        Normal::Yes => Ok(left),
        Normal::No => Ok(Normal::No),
        Normal::Stopped => Ok(Normal::Stopped),
    }
}

/// What a row makes of an associative test of three or more arguments, which two terms share out. Where these may be
/// equal, a truth value; else they differ, and one of them is itself a test, and so reducible.
fn shared(
    alloc: Global,
    context: &Ctx,
    operator: OpId,
    args: &[Term],
) -> Result<Computed, AllocError>
    requires part { IsAdmittedTerm context.now.signature (applied operator (terms_of args.now)) }
    requires test { IsTestOf context.now.signature operator }
    requires many { 3 ≤ length args.now }
    ensures { (most n : ℕ) → IfOk result (IsComputation context.now most n (applied operator (terms_of args.now))) }
{
    context.shows();
    let Axioms::Associative { comm, .. } = context.facts().axioms(operator) else {
        unreachable!()
    };
    if !are_twice(comm, args) {
        return Ok(Computed::NotNormal);
    }
    let to = of_equals(alloc, context, operator, &args[0])?;
    Ok(Computed::Gives(to))
}

/// What a test gives of a term and the same term.
fn of_equals(alloc: Global, context: &Ctx, operator: OpId, term: &Term) -> Result<Term, AllocError>
    requires test { IsTestOf context.now.signature operator }
    requires pair { IsGroundTerm context.now.signature (applied operator (terms_of (term.now ∷ term.now ∷ []))) }
    ensures { (e : Bool) → IsPolymorphic context.now.signature operator (test_name e)
        → IfOk result (IsTruth context.now.signature e) }
{
    context.shows();
    let pair = [copy(term)?, copy(term)?];
    match context
        .schemata()
        .step(alloc, context.facts(), operator, pair.as_slice())?
    {
        Met::Gives { take: _, to } => Ok(to),
        Met::Nothing => unreachable!(),
        Met::TooBig { take: _ } => unreachable!(),
    }
}

/// Whether arguments are some terms twice over: one half is the other or, where order doesn't count, each stands beside
/// another one that is the same.
fn are_twice(comm: bool, args: &[Term]) -> bool
    requires { arranged comm (terms_of args.now) ≡ terms_of args.now }
    ensures { IsTrue result ↔ IsTwice comm (terms_of args.now) }
{
    if comm {
        are_paired(args)
    } else {
        let half = args.len() / 2;
        are_same(&args[..half], &args[half..])
    }
}

/// Whether each argument stands beside another one that is the same: the first beside the second, and so on.
fn are_paired(args: &[Term]) -> bool
    ensures { IsTrue result ↔ ArePaired args.now }
{
    let mut rest = args;
    while let [first, second, after @ ..] = rest {
        if !same(first, second) {
            return false;
        }
        rest = after;
    }
    rest.is_empty()
}

/// Whether two lists are the same.
fn are_same(first: &[Term], second: &[Term]) -> bool
    ensures { IsTrue result ↔ (first.now ≡ second.now) }
{
    let mut left = first;
    let mut right = second;
    while let [term, after @ ..] = left {
        match right {
            [other, others @ ..] if same(term, other) => {
                left = after;
                right = others;
            }
            _ => return false,
        }
    }
    right.is_empty()
}
