// Items one after another, and the groups that show conditions.
ghost use Rattle.std.specs.Prelude.{◌≡◌, ◌≤◌, ◌<◌, ◌↔◌, ◌∷◌, ◌++◌, [], List, length, map, suc};
ghost use Rattle.std.specs.Prelude.{option_map, option_to_list, IsTrue, IfOk};
ghost use Rattle.mw_logic.specs.Substitution.{instance as instance_of};
ghost use Rattle.mw_canon.specs.Canonical.{IsAdmittedTerm, HasAdmittedValues, meant};
ghost use Rattle.mw_deduction.specs.Replay.{sides_of};
ghost use Rattle.mw_index.specs.Index.{IsIndexOf};
ghost use Rattle.mw_term.specs.Raws.{raw_term};
ghost use Rattle.mw_term.specs.Statements.{fragment_of};
ghost use Rattle.mw_items.specs.Items.{Item, Items, Groups};
ghost use Rattle.mw_items.specs.Entries.{entries_of, entries_of_item, entries_of_groups};
ghost use Rattle.mw_items.specs.declared.Entry.{Entry as EntryOf};
ghost use Rattle.mw_check.specs.Answers.{AreAdmittedTerms, HasRawPattern};
ghost use Rattle.mw_check.specs.Chains.{HaveAdmittedValues, OpensNoGroup, BeginsItem, EndsItems, IsRuleAt, NamesRule};
ghost use Rattle.mw_check.specs.Chains.{item_of, HasAdmittedNext, AreLeft, IsAnswerBefore};
ghost use Rattle.mw_check.specs.Groups.{counted_both, next_of, answer_of, left_of, after_close, both_ends};
ghost use Rattle.mw_check.specs.Groups.{AreValues, IsReadySide, AreReady, IsStart, IsPassedOver, IsChain};
ghost use Rattle.mw_check.specs.Groups.{IsFirstEvaluation, IsEnding, AreEnds, MeetTheirs, IsFragment, IsCondition};
ghost use Rattle.mw_check.specs.Groups.{IsLedFrom, AreAdmittedEnds, IsEvaluatedFrom, AreEndsFrom, IsShownFrom};

use crate::answer::{Answer, Cause};
use crate::items::built;
use crate::meeting::meets;
use crate::normal::{Normal, Tester, test_normal};
use crate::placing::{Placed, named, place_step};
use mw_canon::{CanonError, instance};
use mw_items::{Entry, Step};
use mw_least::Ctx;
use mw_term::{Fragment, Raw, Seq, Subst, Term, numbered};
use std::alloc::{AllocError, Global};

/// What comes of items one after another.
#[derive(Drop)]
enum Led<'e> {
    /// One of them is at fault, or names a rule.
    AtFault,
    /// They lead to this admitted term, as so many replacements, or none are counted where a test of normality stopped.
    /// These entries stand behind them.
    To {
        end: Term,
        count: Option<u64>,
        left: &'e [Entry],
    },
}

/// What comes of the group of a side.
#[derive(Drop)]
enum Evaluation<'e> {
    /// It is at fault.
    AtFault,
    /// It leads to this end, if the side is admitted; counted as items are.
    Through {
        end: Option<Term>,
        count: Option<u64>,
        left: &'e [Entry],
    },
}

/// What comes of the groups of a fragment's sides.
#[derive(Drop)]
enum Ends<'e> {
    /// One of them is at fault.
    AtFault,
    /// They lead to these ends, if each side is admitted; counted as items are.
    Through {
        ends: Option<Seq<Term>>,
        count: Option<u64>,
        left: &'e [Entry],
    },
}

/// What comes of the groups of fragments.
#[derive(Drop)]
enum Showing<'e> {
    /// They are at fault for them.
    AtFault,
    /// They show them, by so many replacements, unless a test of normality stopped.
    Through {
        count: Option<u64>,
        left: &'e [Entry],
    },
}

/// Both counts together, up to 2^64 - 1, or none.
fn counted(count: Option<u64>, more: Option<u64>) -> Option<u64>
    ensures { result ≡ counted_both count more }
{
    match (count, more) {
        (Some(count), Some(more)) => Some(count.saturating_add(more)),
        _ => None,
    }
}

/// Where items go on behind one, and what is counted of it; none where it is at fault.
fn next(answer: Answer) -> Option<(Term, Option<u64>)>
    ensures { result ≡ next_of answer }
{
    match answer {
        Answer::Refused(_) | Answer::Stopped(None) => None,
        Answer::Stopped(Some(term)) => Some((term, None)),
        Answer::Passed(term, count) => Some((term, Some(count))),
    }
}

/// What comes of a step whose condition these groups are for, by what comes of them.
fn answered<'e>(
    showing: Showing<'e>,
    next: Option<Term>,
    entries: &'e [Entry],
) -> (Answer, &'e [Entry])
    ensures answer { result.0 ≡ answer_of showing.entry next }
    ensures left { result.1.now ≡ left_of showing.entry entries.now }
{
    let Showing::Through { count, left } = showing else {
        return (Answer::Refused(Cause::Condition), entries);
    };
    let Some(count) = count else {
        return (Answer::Stopped(next), left);
    };
    match next {
        Some(next) => (Answer::Passed(next, count.saturating_add(1)), left),
        None => (Answer::Refused(Cause::Limit), left),
    }
}

/// Whether no group begins there.
fn opens_no_group(entries: &[Entry]) -> bool
    ensures { IsTrue result ↔ OpensNoGroup entries.now }
{
    match entries {
        [first, ..] => !matches!(first, Entry::Open),
        [] => true,
    }
}

/// Whether an item begins there.
fn begins_item(entries: &[Entry]) -> bool
    ensures { IsTrue result ↔ BeginsItem entries.now }
{
    match entries {
        [first, ..] => matches!(first, Entry::Step(_) | Entry::Built(_)),
        [] => false,
    }
}

/// Whether this statement is an executable rule.
fn is_rule(context: &Ctx, number: u32) -> bool
    ensures { IsTrue result ↔ IsRuleAt context.now number }
{
    match numbered(context.statements(), number) {
        Some(statement) => statement.executable && statement.rule,
        None => false,
    }
}

/// Whether a step begins there that names an executable rule.
fn names_rule(context: &Ctx, entries: &[Entry]) -> bool
    ensures { IsTrue result ↔ NamesRule context.now entries.now }
{
    let [first, ..] = entries else {
        return false;
    };
    match first {
        Entry::Step(step) => is_rule(context, step.statement),
        _ => false,
    }
}

/// What stands behind the end of a group that is open, whatever stands in it.
fn skipped(entries: &[Entry]) -> Option<&[Entry]>
    ensures { option_map (λ left. left.now) result ≡ after_close 0 entries.now }
{
    let mut open = 0usize;
    let mut left = entries;
    while let [first, behind @ ..] = left {
        match first {
            Entry::Open => open += 1,
            Entry::Close if open == 0 => return Some(behind),
            Entry::Close => open -= 1,
            Entry::Step(_) | Entry::Built(_) => {}
        }
        left = behind;
    }
    None
}

/// What comes of a group whose side isn't admitted, which is open here.
fn passed_over<'e>(entries: &'e [Entry]) -> Result<Evaluation<'e>, AllocError>
    ensures { IfOk result (IsPassedOver entries.now) }
{
    match skipped(entries) {
        Some(left) => Ok(Evaluation::Through {
            end: None,
            count: None,
            left,
        }),
        None => Err(AllocError),
    }
}

/// The canonical instance of a side, or none where it isn't admitted.
fn started(
    alloc: Global,
    context: &Ctx,
    side: &Raw,
    values: &Subst,
) -> Result<Option<Term>, AllocError>
    requires values { AreValues context.now.signature values.now }
    requires side { let sig = context.now.signature in IsReadySide sig (meant sig values.now) (raw_term side.now) }
    ensures { IfOk result (IsStart context.now
        (instance_of (meant context.now.signature values.now) (raw_term side.now))) }
{
    context.shows();
    match instance(alloc, context.facts(), values, side) {
        Ok(term) => Ok(Some(term)),
        Err(error) => match error {
            CanonError::Memory => Err(AllocError),
            CanonError::Deep | CanonError::Nat => Ok(None),
        },
    }
}

/// The sides of a fragment: one, or two.
fn sides(fragment: &Fragment) -> (&Raw, Option<&Raw>)
    ensures { sides_of (fragment_of fragment.now)
        ≡ raw_term result.0.now ∷ map (λ side. raw_term side.now) (option_to_list result.1) }
{
    match fragment {
        Fragment::Equal(first, second) => (first, Some(second)),
        Fragment::Match(_, side) | Fragment::HasSort(side, _) | Fragment::Holds(side) => {
            (side, None)
        }
    }
}

/// The end of a side alone, where it has one.
fn one_end(alloc: Global, end: Option<Term>) -> Result<Option<Seq<Term>>, AllocError>
    ensures { IfOk result (λ ends. ends ≡ option_map (λ a. a ∷ []) end) }
{
    let Some(end) = end else {
        return Ok(None);
    };
    let mut ends = Vec::new(alloc);
    ends.push(end)?;
    Ok(Some(Seq::of(ends)))
}

/// The ends of both sides, where each has one.
fn two_ends(
    alloc: Global,
    end: Option<Term>,
    other: Option<Term>,
) -> Result<Option<Seq<Term>>, AllocError>
    ensures { IfOk result (λ ends. ends ≡ both_ends end other) }
{
    let (Some(end), Some(other)) = (end, other) else {
        return Ok(None);
    };
    let mut ends = Vec::new(alloc);
    ends.push(end)?;
    ends.push(other)?;
    Ok(Some(Seq::of(ends)))
}

/// Whether the ends of its sides meet a fragment, where each has one.
fn met(
    alloc: Global,
    context: &Ctx,
    fragment: &Fragment,
    values: &Subst,
    ends: &Option<Seq<Term>>,
) -> Result<bool, AllocError>
    requires values { HasAdmittedValues context.now.signature values.now }
    requires pattern { let sig = context.now.signature in HasRawPattern sig (meant sig values.now)
        (fragment_of fragment.now) }
    requires ends { AreAdmittedEnds context.now.signature ends.now }
    ensures { let sig = context.now.signature in IfOk result (λ b. IsTrue b
        ↔ MeetTheirs sig (meant sig values.now) (fragment_of fragment.now) ends.now) }
{
    match ends {
        Some(ends) => meets(alloc, context, fragment, values, ends.as_slice()),
        None => Ok(true),
    }
}

/// Behind the end of a group's items: its end is tested.
fn ended<'e>(
    alloc: Global,
    tester: &Tester<'_>,
    end: Term,
    count: Option<u64>,
    entries: &'e [Entry],
    rank: u8,
) -> Result<Evaluation<'e>, AllocError>
    requires rank { rank ≤ 63 }
    requires most { 1 ≤ tester.now.most }
    requires index { IsIndexOf tester.now.context.now tester.now.index.now }
    requires entries { HaveAdmittedValues tester.now.context.now.signature entries.now }
    requires end { IsAdmittedTerm tester.now.context.now.signature end }
    ensures is { IfOk result (IsEnding tester.now.context.now tester.now.most rank end count entries.now) }
    ensures left { IfOk result (IsEvaluatedFrom tester.now.context.now.signature entries.now) }
{
    let [first, left @ ..] = entries else {
        return Err(AllocError);
    };
    let Entry::Close = first else {
        return Err(AllocError);
    };
    match test_normal(alloc, tester, &end, rank)? {
        Normal::No => Ok(Evaluation::AtFault),
        Normal::Stopped => Ok(Evaluation::Through {
            end: Some(end),
            count: None,
            left,
        }),
        Normal::Yes => Ok(Evaluation::Through {
            end: Some(end),
            count,
            left,
        }),
    }
}

/// What comes of items one after another, from this term on, up to where no item begins.
#[cycle(checked)]
fn chain<'e>(
    alloc: Global,
    tester: &Tester<'_>,
    entries: &'e [Entry],
    term: Term,
    rank: u8,
) -> Result<Led<'e>, AllocError>
    requires rank { rank ≤ 63 }
    requires most { 1 ≤ tester.now.most }
    requires index { IsIndexOf tester.now.context.now tester.now.index.now }
    requires entries { HaveAdmittedValues tester.now.context.now.signature entries.now }
    requires term { IsAdmittedTerm tester.now.context.now.signature term }
    ensures is { (items : Items) (rest : List EntryOf) → entries.now ≡ entries_of items ++ rest → EndsItems rest
        → IfOk result (IsChain tester.now.context.now tester.now.most rank term items rest) }
    ensures left { IfOk result (IsLedFrom tester.now.context.now.signature entries.now) }
{
    tester.context.shows();
    let mut end = term;
    let mut count = Some(0);
    let mut left = entries;
    'items: while begins_item(left) {
        if names_rule(tester.context, left) {
            return Ok(Led::AtFault);
        }
        let (answer, behind) = item(alloc, tester, left, &end, rank)?;
        let Some((after, more)) = next(answer) else {
            return Ok(Led::AtFault);
        };
        end = after;
        count = counted(count, more);
        left = behind;
    }
    Ok(Led::To { end, count, left })
}

/// What comes of the group of a side, which stands first. Where none does, as in no text, it counts as want of memory.
#[cycle(checked)]
fn group<'e>(
    alloc: Global,
    tester: &Tester<'_>,
    side: &Raw,
    values: &Subst,
    entries: &'e [Entry],
    rank: u8,
) -> Result<Evaluation<'e>, AllocError>
    requires rank { rank ≤ 63 }
    requires most { 1 ≤ tester.now.most }
    requires index { IsIndexOf tester.now.context.now tester.now.index.now }
    requires values { AreValues tester.now.context.now.signature values.now }
    requires side { let sig = tester.now.context.now.signature in IsReadySide sig (meant sig values.now)
        (raw_term side.now) }
    requires entries { HaveAdmittedValues tester.now.context.now.signature entries.now }
    ensures is { (gs : Groups) (rest : List EntryOf) → entries.now ≡ entries_of_groups gs ++ rest
        → OpensNoGroup rest → IfOk result (IsFirstEvaluation tester.now.context.now tester.now.most rank
        (instance_of (meant tester.now.context.now.signature values.now) (raw_term side.now)) gs rest) }
    ensures left { IfOk result (IsEvaluatedFrom tester.now.context.now.signature entries.now) }
{
    let [first, inside @ ..] = entries else {
        return Err(AllocError);
    };
    let Entry::Open = first else {
        return Err(AllocError);
    };
    let Some(term) = started(alloc, tester.context, side, values)? else {
        return passed_over(inside);
    };
    match chain(alloc, tester, inside, term, rank)? {
        Led::AtFault => Ok(Evaluation::AtFault),
        Led::To { end, count, left } => ended(alloc, tester, end, count, left, rank),
    }
}

/// What comes of the groups of a fragment's sides.
#[cycle(checked)]
fn side_ends<'e>(
    alloc: Global,
    tester: &Tester<'_>,
    fragment: &Fragment,
    values: &Subst,
    entries: &'e [Entry],
    rank: u8,
) -> Result<Ends<'e>, AllocError>
    requires rank { rank ≤ 63 }
    requires most { 1 ≤ tester.now.most }
    requires index { IsIndexOf tester.now.context.now tester.now.index.now }
    requires values { AreValues tester.now.context.now.signature values.now }
    requires ready { let sig = tester.now.context.now.signature in AreReady sig (meant sig values.now)
        (fragment_of fragment.now ∷ []) }
    requires entries { HaveAdmittedValues tester.now.context.now.signature entries.now }
    ensures is { (gs : Groups) (rest : List EntryOf) → entries.now ≡ entries_of_groups gs ++ rest
        → OpensNoGroup rest → IfOk result (AreEnds tester.now.context.now tester.now.most rank
        (meant tester.now.context.now.signature values.now) (sides_of (fragment_of fragment.now)) gs rest) }
    ensures left { IfOk result (AreEndsFrom tester.now.context.now.signature entries.now) }
{
    let (first, second) = sides(fragment);
    let Evaluation::Through { end, count, left } = group(
        alloc, tester, first, values, entries, rank,
    )?
    else {
        return Ok(Ends::AtFault);
    };
    let Some(second) = second else {
        let ends = one_end(alloc, end)?;
        return Ok(Ends::Through { ends, count, left });
    };
    let Evaluation::Through {
        end: other,
        count: more,
        left,
    } = group(alloc, tester, second, values, left, rank)?
    else {
        return Ok(Ends::AtFault);
    };
    let ends = two_ends(alloc, end, other)?;
    let count = counted(count, more);
    Ok(Ends::Through { ends, count, left })
}

/// What comes of the groups of a fragment.
#[cycle(checked)]
fn fragment<'e>(
    alloc: Global,
    tester: &Tester<'_>,
    fragment: &Fragment,
    values: &Subst,
    entries: &'e [Entry],
    rank: u8,
) -> Result<Showing<'e>, AllocError>
    requires rank { rank ≤ 63 }
    requires most { 1 ≤ tester.now.most }
    requires index { IsIndexOf tester.now.context.now tester.now.index.now }
    requires values { AreValues tester.now.context.now.signature values.now }
    requires ready { let sig = tester.now.context.now.signature in AreReady sig (meant sig values.now)
        (fragment_of fragment.now ∷ []) }
    requires entries { HaveAdmittedValues tester.now.context.now.signature entries.now }
    ensures is { (gs : Groups) (rest : List EntryOf) → entries.now ≡ entries_of_groups gs ++ rest
        → OpensNoGroup rest → IfOk result (IsFragment tester.now.context.now tester.now.most rank
        (meant tester.now.context.now.signature values.now) (fragment_of fragment.now) gs rest) }
    ensures left { IfOk result (IsShownFrom tester.now.context.now.signature entries.now) }
{
    tester.context.shows();
    let Ends::Through { ends, count, left } = side_ends(
        alloc, tester, fragment, values, entries, rank,
    )?
    else {
        return Ok(Showing::AtFault);
    };
    if met(alloc, tester.context, fragment, values, &ends)? {
        Ok(Showing::Through { count, left })
    } else {
        Ok(Showing::AtFault)
    }
}

/// What comes of the groups of fragments, one after another, which are in this rank.
#[cycle(checked)]
fn fragments<'e>(
    alloc: Global,
    tester: &Tester<'_>,
    fragments: &[Fragment],
    values: &Subst,
    entries: &'e [Entry],
    rank: u8,
) -> Result<Showing<'e>, AllocError>
    requires rank { rank ≤ 63 }
    requires most { 1 ≤ tester.now.most }
    requires index { IsIndexOf tester.now.context.now tester.now.index.now }
    requires values { AreValues tester.now.context.now.signature values.now }
    requires ready { let sig = tester.now.context.now.signature in AreReady sig (meant sig values.now)
        (map fragment_of fragments.now) }
    requires entries { HaveAdmittedValues tester.now.context.now.signature entries.now }
    ensures is { (gs : Groups) (rest : List EntryOf) → entries.now ≡ entries_of_groups gs ++ rest
        → OpensNoGroup rest → IfOk result (IsCondition tester.now.context.now tester.now.most (suc rank)
        (map fragment_of fragments.now) (meant tester.now.context.now.signature values.now) gs rest) }
    ensures left { IfOk result (IsShownFrom tester.now.context.now.signature entries.now) }
{
    let mut count = Some(0);
    let mut left = entries;
    let mut rest = fragments;
    'fragments: while let [first, others @ ..] = rest {
        let Showing::Through {
            count: more,
            left: behind,
        } = fragment(alloc, tester, first, values, left, rank)?
        else {
            return Ok(Showing::AtFault);
        };
        count = counted(count, more);
        left = behind;
        rest = others;
    }
    if !opens_no_group(left) {
        return Err(AllocError);
    }
    Ok(Showing::Through { count, left })
}

/// What comes of the groups of a condition in this rank: its groups are in the rank below. Texts that were read have no
/// condition too many inside one another; such a one counts as want of memory, and so does another number of groups
/// than there are sides.
#[cycle(checked)]
fn condition<'e>(
    alloc: Global,
    tester: &Tester<'_>,
    conditions: &[Fragment],
    values: &Subst,
    entries: &'e [Entry],
    rank: u8,
) -> Result<Showing<'e>, AllocError>
    requires rank { rank ≤ 63 }
    requires most { 1 ≤ tester.now.most }
    requires index { IsIndexOf tester.now.context.now tester.now.index.now }
    requires values { AreValues tester.now.context.now.signature values.now }
    requires ready { let sig = tester.now.context.now.signature in AreReady sig (meant sig values.now)
        (map fragment_of conditions.now) }
    requires entries { HaveAdmittedValues tester.now.context.now.signature entries.now }
    ensures is { (gs : Groups) (rest : List EntryOf) → entries.now ≡ entries_of_groups gs ++ rest
        → OpensNoGroup rest → IfOk result (IsCondition tester.now.context.now tester.now.most rank
        (map fragment_of conditions.now) (meant tester.now.context.now.signature values.now) gs rest) }
    ensures left { IfOk result (IsShownFrom tester.now.context.now.signature entries.now) }
{
    if rank > 0 {
        return fragments(alloc, tester, conditions, values, entries, rank - 1);
    }
    if !conditions.is_empty() || !opens_no_group(entries) {
        return Err(AllocError);
    }
    Ok(Showing::Through {
        count: Some(0),
        left: entries,
    })
}

/// What comes of a step, and the entries behind its groups, which stand here.
#[cycle(checked)]
fn replaced<'e>(
    alloc: Global,
    tester: &Tester<'_>,
    step: &Step,
    entries: &'e [Entry],
    term: &Term,
    rank: u8,
) -> Result<(Answer, &'e [Entry]), AllocError>
    requires rank { rank ≤ 63 }
    requires most { 1 ≤ tester.now.most }
    requires index { IsIndexOf tester.now.context.now tester.now.index.now }
    requires step { AreAdmittedTerms tester.now.context.now.signature step.now.values }
    requires entries { HaveAdmittedValues tester.now.context.now.signature entries.now }
    requires term { IsAdmittedTerm tester.now.context.now.signature term.now }
    ensures is { (gs : Groups) (behind : List EntryOf) → entries.now ≡ entries_of_groups gs ++ behind
        → OpensNoGroup behind → IfOk result (λ r. IsAnswerBefore tester.now.context.now tester.now.most rank
        (item_of step.now gs) behind term.now r.0 r.1.now) }
    ensures left { IfOk result (λ r. AreLeft tester.now.context.now.signature entries.now r.1.now) }
    ensures next { IfOk result (λ r. HasAdmittedNext tester.now.context.now.signature r.0) }
{
    tester.context.shows();
    let Some(statement) = named(tester.context, step) else {
        return Ok((Answer::Refused(Cause::Statement), entries));
    };
    match place_step(alloc, tester.context, statement, step, term)? {
        Placed::IllSorted => Ok((Answer::Refused(Cause::Binding), entries)),
        Placed::NoPart => Ok((Answer::Refused(Cause::Part), entries)),
        Placed::Next(values, next) => {
            let conditions = statement.fragments.as_slice();
            let showing = condition(alloc, tester, conditions, &values, entries, rank)?;
            Ok(answered(showing, next, entries))
        }
    }
}

/// What comes of the first item of some entries, at a term, and the entries behind it, where it isn't refused. What no
/// text has, as another number of groups than the statement has sides, counts as want of memory.
#[cycle(checked)]
pub fn item<'e>(
    alloc: Global,
    tester: &Tester<'_>,
    entries: &'e [Entry],
    term: &Term,
    rank: u8,
) -> Result<(Answer, &'e [Entry]), AllocError>
    requires rank { rank ≤ 63 }
    requires most { 1 ≤ tester.now.most }
    requires index { IsIndexOf tester.now.context.now tester.now.index.now }
    requires entries { HaveAdmittedValues tester.now.context.now.signature entries.now }
    requires term { IsAdmittedTerm tester.now.context.now.signature term.now }
    ensures is { (i : Item) (behind : List EntryOf) → entries.now ≡ entries_of_item i ++ behind → OpensNoGroup behind
        → IfOk result
        (λ r. IsAnswerBefore tester.now.context.now tester.now.most rank i behind term.now r.0 r.1.now) }
    ensures values { IfOk result (λ r. HaveAdmittedValues tester.now.context.now.signature r.1.now) }
    ensures shorter { IfOk result (λ r. length r.1.now < length entries.now) }
    ensures next { IfOk result (λ r. HasAdmittedNext tester.now.context.now.signature r.0) }
{
    let [first, behind @ ..] = entries else {
        return Err(AllocError);
    };
    match first {
        Entry::Step(step) => replaced(alloc, tester, step, behind, term, rank),
        Entry::Built(place) => {
            let answer = built(alloc, tester, place, term, rank)?;
            Ok((answer, behind))
        }
        Entry::Open | Entry::Close => Err(AllocError),
    }
}
