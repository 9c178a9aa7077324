// Statements as they are indexed, from those of a module.
ghost use Rattle.std.specs.Prelude.{◌≡◌, ℕ, [], Option, Some, length, map, IfOk, IsTrue};
ghost use Rattle.mw_logic.specs.Module.{IsStatement};
ghost use Rattle.mw_logic.specs.NormalForm.{normal_form};
ghost use Rattle.mw_position.specs.Variables.{met, place, AreDistinct};
ghost use Rattle.mw_index.specs.Index.{Asks};
ghost use Rattle.mw_index.specs.Oriented.{IsLeft, IsSearchedLeft, HasFreeLeft, IsOriented};
ghost use Rattle.mw_index.specs.Sections.{AreIn, IsSectionOf};

use crate::conditions::condition_of;
use crate::index::Section;
use crate::normal::normal;
use crate::order::{left_places, order_of};
use crate::oriented::{Left, Oriented, Searched};
use crate::patterns::{are_free, is_free, pattern_of, plain_arguments};
use mw_canon::Facts;
use mw_compile::compile;
use mw_least::Ctx;
use mw_pattern::{Places, depth_at};
use mw_term::{Seq, Statement, Subst, Term, VarId};
use std::alloc::{AllocError, Global};

/// A left side, with these variables, as a search takes it.
fn searched(
    alloc: Global,
    context: &Ctx,
    places: &Places<'_>,
    number: usize,
    statement: &Statement,
    left: &Term,
) -> Result<Searched, AllocError>
    requires statement { IsStatement context.now number statement.now }
    requires left { left.now ≡ normal_form context.now.signature statement.now.left }
    requires places { places.now ≡ met [] statement.now.left }
    ensures { IfOk result (IsSearchedLeft context.now.signature statement.now) }
{
    context.shows();
    let given = Subst {
        pairs: Seq::of(Vec::new(alloc)),
    };
    let compiled = compile(alloc, context, left, &given)?;
    let order = order_among(alloc, compiled.variables.as_slice(), places)?;
    Ok(Searched { compiled, order })
}

fn order_among(
    alloc: Global,
    all: &[VarId],
    variables: &Places<'_>,
) -> Result<Seq<usize>, AllocError>
    requires distinct { AreDistinct all.now }
    requires within { AreIn variables.now all.now }
    ensures { IfOk result (λ ns. ns ≡ map (λ x. place x all.now) variables.now) }
{
    let places = Places::new(alloc, all)?;
    let order = order_of(alloc, &places, variables)?;
    Ok(order)
}

/// The left side, with these variables, of a statement that is listed in a section.
fn left_of(
    alloc: Global,
    context: &Ctx,
    places: &Places<'_>,
    section: Section,
    number: usize,
    statement: &Statement,
    left: &Term,
) -> Result<Left, AllocError>
    requires statement { IsStatement context.now number statement.now }
    requires left { left.now ≡ normal_form context.now.signature statement.now.left }
    requires section { IsSectionOf context.now.signature left.now section }
    requires places { places.now ≡ met [] statement.now.left }
    ensures { let sig = context.now.signature in
        IfOk result (λ l. (top : Option ℕ) → Asks section top → IsLeft sig top statement.now l) }
{
    context.shows();
    if let Section::Operator(_) = section {
        if let Some(args) = plain_arguments(alloc, context.facts(), places, left)? {
            return Ok(Left::Plain(args));
        }
    }
    let searched = searched(alloc, context, places, number, statement, left)?;
    Ok(Left::Searched(Box::new(alloc, searched)?))
}

/// Whether a left side is plain and has no successor.
fn is_sure(facts: &Facts, left: &Left) -> bool
    ensures { IsTrue result → HasFreeLeft facts.now left.now }
{
    match left {
        Left::Plain(patterns) => are_free(facts, patterns, false),
        Left::Searched(_) => false,
    }
}

/// A statement with this canonical left side, as it is indexed, for a section.
pub fn oriented(
    alloc: Global,
    context: &Ctx,
    section: Section,
    number: usize,
    statement: &Statement,
    left: &Term,
) -> Result<Oriented, AllocError>
    requires statement { IsStatement context.now number statement.now }
    requires left { left.now ≡ normal_form context.now.signature statement.now.left }
    requires section { IsSectionOf context.now.signature left.now section }
    ensures number { IfOk result (λ st. st.number ≡ number) }
    ensures is { let sig = context.now.signature in
        IfOk result (λ st. (top : Option ℕ) → Asks section top → IsOriented sig top statement.now st) }
{
    context.shows();
    let places = Places::new(alloc, statement.variables.as_slice())?;
    let right = normal(alloc, context.facts(), &statement.right)?;
    let right = pattern_of(alloc, &places, &right)?;
    let free = is_free(context.facts(), &right, false);
    let levels = depth_at(&right, &[]);
    let lefts = left_places(alloc, statement)?;
    let left = left_of(alloc, context, &lefts, section, number, statement, left)?;
    let sure = is_sure(context.facts(), &left);
    let sorts = lefts.sorts(alloc)?;
    let condition = condition_of(alloc, context, number, statement, &places)?;
    Ok(Oriented {
        number,
        rule: statement.rule,
        left,
        sure,
        right,
        free,
        levels,
        sorts,
        condition,
    })
}
