// Conditions as they are tested, from left to right.
ghost use Rattle.std.specs.Prelude.{◌≡◌, ◌++◌, List, [], map, IfOk, OnOk};
ghost use Rattle.mw_logic.specs.Term.{Variable};
ghost use Rattle.mw_logic.specs.Module.{IsStatement};
ghost use Rattle.mw_logic.specs.NormalForm.{normal_form};
ghost use Rattle.mw_position.specs.Variables.{AreDistinct, bound_variables};
ghost use Rattle.mw_compile.specs.Compiled.{AreAmong, IsCompiled};
ghost use Rattle.mw_term.specs.Raws.{raw_term};
ghost use Rattle.mw_term.specs.Statements.{fragment_of};
ghost use Rattle.mw_index.specs.Sections.{AreIn};
ghost use Rattle.mw_index.specs.Conditions.{IsSideOf, IsMatchOf, IsTestOf, AreTests, IsConditionOf, AreSidesAmong, AreReady, bound_by, all_bound};

use crate::normal::normal;
use crate::order::{left_places, other_order};
use crate::patterns::{is_free, pattern_of};
use mw_canon::Facts;
use mw_compile::{Compiled, compile};
use mw_least::Ctx;
use mw_pattern::{Pattern, Places};
use mw_term::{Binding, Fragment, Raw, Seq, Sorted, Statement, Subst, Term, VarId, copy_name};
use std::alloc::{AllocError, Global};

/// The canonical form of a side, with positions for the variables in the order in which they are bound.
#[derive(Drop)]
pub struct Side {
    pub pattern: Pattern,
    /// Whether no operator of it has an axiom or is the successor of numbers.
    pub free: bool,
}

/// A match: the pattern, compiled behind the variables that are bound before it, and the side.
#[derive(Drop)]
pub struct Matched {
    pub compiled: Compiled,
    pub side: Side,
}

/// One fragment of a condition.
#[derive(Drop)]
pub enum Test {
    /// Both sides are equal.
    Equal(Side, Side),
    /// The side is an instance of the pattern.
    Match(Box<Matched>),
    /// The side has the sort.
    HasSort(Side, Sorted),
    /// The side is true.
    Holds(Side),
}

/// A condition, from left to right.
#[derive(Drop)]
pub struct Condition {
    pub tests: Seq<Test>,
    /// Of each variable of the statement, in their order, the place that it has in the order in which they are bound,
    /// where that is another order.
    pub order: Option<Seq<usize>>,
}

/// A side for variables that are bound.
fn side_of(alloc: Global, facts: &Facts, bound: &Places<'_>, side: &Raw) -> Result<Side, AllocError>
    requires { AreAmong bound.now (normal_form facts.now (raw_term side.now)) }
    ensures { IfOk result (IsSideOf facts.now bound.now (raw_term side.now)) }
{
    let term = normal(alloc, facts, side)?;
    let pattern = pattern_of(alloc, bound, &term)?;
    let free = is_free(facts, &pattern, false);
    Ok(Side { pattern, free })
}

/// Some binding of a variable.
fn binding_of(alloc: Global, x: &VarId) -> Result<Binding, AllocError>
    ensures { IfOk result (λ b. b.variable ≡ x.now) }
{
    let value = Term::numeral(alloc, 0)?;
    let name = copy_name(alloc, &x.name)?;
    let variable = VarId { name, sort: x.sort };
    Ok(Binding { variable, value })
}

/// Some substitution with these variables.
fn given_of(alloc: Global, variables: &Places<'_>) -> Result<Subst, AllocError>
    ensures { IfOk result (λ s. bound_variables s ≡ variables.now) }
{
    let mut pairs = Vec::with_capacity(alloc, variables.len())?;
    for i in 0..variables.len() {
        let binding = binding_of(alloc, variables.variable(i))?;
        pairs.push(binding)?;
    }
    Ok(Subst {
        pairs: Seq::of(pairs),
    })
}

/// A pattern behind variables that are bound.
fn compiled_of(
    alloc: Global,
    context: &Ctx,
    bound: &Places<'_>,
    pattern: &Raw,
) -> Result<Compiled, AllocError>
    requires { AreDistinct bound.now }
    ensures { let sig = context.now.signature in
        IfOk result (IsCompiled sig (normal_form sig (raw_term pattern.now)) bound.now) }
{
    let pattern = normal(alloc, context.facts(), pattern)?;
    let given = given_of(alloc, bound)?;
    let compiled = compile(alloc, context, &pattern, &given)?;
    Ok(compiled)
}

/// A match where these variables are bound before.
fn match_of(
    alloc: Global,
    context: &Ctx,
    bound: &Places<'_>,
    pattern: &Raw,
    side: &Raw,
) -> Result<Box<Matched>, AllocError>
    requires distinct { AreDistinct bound.now }
    requires side { AreAmong bound.now (normal_form context.now.signature (raw_term side.now)) }
    ensures { let sig = context.now.signature in
        IfOk result (λ m. IsMatchOf sig bound.now (raw_term pattern.now) (raw_term side.now) m.value) }
{
    let side = side_of(alloc, context.facts(), bound, side)?;
    let compiled = compiled_of(alloc, context, bound, pattern)?;
    Ok(Box::new(alloc, Matched { compiled, side })?)
}

/// The test of a fragment where these variables are bound.
fn test_of(
    alloc: Global,
    context: &Ctx,
    bound: &Places<'_>,
    fragment: &Fragment,
) -> Result<Test, AllocError>
    requires distinct { AreDistinct bound.now }
    requires sides { AreSidesAmong context.now.signature bound.now (fragment_of fragment.now) }
    ensures { IfOk result (IsTestOf context.now.signature bound.now (fragment_of fragment.now)) }
{
    match fragment {
        Fragment::Equal(left, right) => {
            let left = side_of(alloc, context.facts(), bound, left)?;
            let right = side_of(alloc, context.facts(), bound, right)?;
            Ok(Test::Equal(left, right))
        }
        Fragment::Match(pattern, side) => {
            let matched = match_of(alloc, context, bound, pattern, side)?;
            Ok(Test::Match(matched))
        }
        Fragment::HasSort(side, sort) => {
            let side = side_of(alloc, context.facts(), bound, side)?;
            Ok(Test::HasSort(side, *sort))
        }
        Fragment::Holds(side) => {
            let side = side_of(alloc, context.facts(), bound, side)?;
            Ok(Test::Holds(side))
        }
    }
}

/// Puts those of the variables that aren't bound yet behind those that are. They stand among all of the statement.
fn bind_all<'a>(
    all: &'a Places<'_>,
    bound: &mut Places<'a>,
    variables: &[VarId],
) -> Result<(), AllocError>
    requires among { AreIn variables.now all.now }
    requires distinct { AreDistinct variables.now }
    requires front { (zs : List Variable) × (variables.now ≡ bound.old ++ zs) }
    ensures { OnOk result (bound.new ≡ variables.now) }
{
    for i in bound.len()..variables.len() {
        let x = all.variable(all.at(&variables[i]));
        bound.meet(x)?;
    }
    Ok(())
}

/// Puts the variables that a test binds behind those that are bound before it.
fn bind<'a>(all: &'a Places<'_>, bound: &mut Places<'a>, test: &Test) -> Result<(), AllocError>
    requires among { AreIn (bound_by bound.old test.now) all.now }
    requires distinct { AreDistinct (bound_by bound.old test.now) }
    requires front { (zs : List Variable) × (bound_by bound.old test.now ≡ bound.old ++ zs) }
    ensures { OnOk result (bound.new ≡ bound_by bound.old test.now) }
{
    match test {
        Test::Match(matched) => bind_all(all, bound, matched.compiled.variables.as_slice()),
        _ => Ok(()),
    }
}

/// The tests of fragments, where these variables are bound before. All that the tests bind are bound then.
fn tests_of<'a>(
    alloc: Global,
    context: &Ctx,
    all: &'a Places<'_>,
    bound: &mut Places<'a>,
    fragments: &[Fragment],
) -> Result<Vec<Test>, AllocError>
    requires { AreReady context.now.signature all.now bound.old (map fragment_of fragments.now) }
    ensures tests { let sig = context.now.signature in
        IfOk result (λ ts. AreTests sig bound.old (map fragment_of fragments.now) ts.items) }
    ensures bound { IfOk result (λ ts. bound.new ≡ all_bound bound.old ts.items) }
{
    context.shows();
    let mut tests = Vec::new(alloc);
    let mut rest = fragments;
    while let [fragment, after @ ..] = rest {
        let test = test_of(alloc, context, bound, fragment)?;
        bind(all, bound, &test)?;
        tests.push(test)?;
        rest = after;
    }
    Ok(tests)
}

/// The condition of a statement with these variables.
pub fn condition_of<'a>(
    alloc: Global,
    context: &Ctx,
    number: usize,
    statement: &'a Statement,
    all: &'a Places<'_>,
) -> Result<Condition, AllocError>
    requires statement { IsStatement context.now number statement.now }
    requires all { all.now ≡ statement.now.variables }
    ensures { IfOk result (IsConditionOf context.now.signature statement.now) }
{
    context.shows();
    let mut bound = left_places(alloc, statement)?;
    let tests = tests_of(
        alloc,
        context,
        all,
        &mut bound,
        statement.fragments.as_slice(),
    )?;
    let order = other_order(alloc, &bound, all)?;
    Ok(Condition {
        tests: Seq::of(tests),
        order,
    })
}
