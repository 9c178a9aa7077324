// Rewriting: the whole is reduced, and the first rule that applies is applied, as long as one does.
ghost use Rattle.std.specs.Prelude.{◌≡◌, ◌-◌, ℕ, true, option_map, IfOk};
ghost use Rattle.mw_logic.specs.Term.{RawTerm};
ghost use Rattle.mw_canon.specs.Canonical.{IsAdmittedTerm};
ghost use Rattle.mw_index.specs.Index.{IsIndexOf, AreRulesOf};
ghost use Rattle.mw_frames.specs.State.{Run, Data, IsRun, Holds};
ghost use Rattle.mw_frames.specs.Steps.{IsEnd};
ghost use Rattle.mw_frames.specs.Machines.{data_of};
ghost use Rattle.mw_redexes.specs.Spots.{AreWanted};
ghost use Rattle.mw_rule.specs.Stepped.{IsAt, IsMadeAt, IsMadeOf, IsLooked, IsStepped, IsRewrittenBy};
ghost use Rattle.mw_rule.specs.Rewritings.{IsRewritingOf};
ghost use Rattle.mw_rule.specs.declared.rewriting.Stepped.TheVariants.{Ends as EndsOf};
ghost use Rattle.mw_frames.specs.Fires.{IsFired, IsRefusedAs};

use crate::going::go_to;
use mw_frames::{Asked, Fired, Hand, Job, Machine, fire};
use mw_index::{Choice, Choices, Index, Rule};
use mw_least::Ctx;
use mw_proof::{Proved, Reason};
use mw_redexes::{Found, Redexes, Spot, Wanted, spots_of, wanted_by};
use mw_reduce::{Attempt, Driven, End, Outcome, applied, run_on, try_choice};
use mw_term::{Term, copy};
use mw_trail::Trail;
use std::alloc::{AllocError, Global};

/// What a rewriting may spend.
#[derive(Clone, Copy, PartialEq, Eq, Debug)]
pub struct Bounds {
    /// At most so many rules, where there is a bound.
    pub rules: Option<u64>,
    /// At most so many steps, those by rules among them.
    pub steps: u64,
    /// At most so many for each side of a condition.
    pub side: u64,
}

/// What rules do to a normal whole.
#[derive(Drop)]
enum Looked<'m> {
    /// None applies.
    Nothing,
    /// One was applied, or it would make the whole too large.
    Fires(Fired<'m>),
    /// It isn't told whether the condition of one holds.
    Halts(Reason),
    /// One applies to the whole, or to several of its arguments; these show its condition.
    Takes(Choice<'m>, Vec<Trail>),
}

/// What comes of it.
#[derive(Drop)]
enum Stepped<'m> {
    Goes(Hand<'m>),
    Ends(End),
}

/// A rule is applied to what is in hand, or to several of its arguments.
fn fire_in_hand<'m>(
    alloc: Global,
    context: &'m Ctx,
    machine: &mut Machine<'m>,
    part: Term,
    choice: Choice<'m>,
    sides: Vec<Trail>,
) -> Result<Fired<'m>, AllocError>
    ensures { (K : Run) (k : ℕ) (t : RawTerm) → IsRun K context.now.signature → K.over ≡ context.now → IsAt K k (data_of K.over machine.old) part t
        → IsMadeOf K part choice.entry sides.items
        → IfOk result (λ f. IsFired K true k (data_of K.over machine.new) f × IsRefusedAs t f) }
{
    let Choice {
        by,
        mut values,
        take,
    } = choice;
    let mut sides = sides;
    let fired = fire(
        alloc,
        context.facts(),
        machine,
        Asked::Term(part),
        applied(by),
        &mut sides,
        &mut values,
        &take,
    )?;
    Ok(fired)
}

/// A rule is applied at a part of the whole.
pub fn fire_at<'m>(
    alloc: Global,
    context: &'m Ctx,
    machine: &mut Machine<'m>,
    spots: &[Spot<'_>],
    found: Found<'m>,
    sides: Vec<Trail>,
) -> Result<Fired<'m>, AllocError>
    ensures { (K : Run) (k : ℕ) (t : RawTerm) → IsRun K context.now.signature → K.over ≡ context.now → IsEnd K k (data_of K.over machine.old) t
        → IsMadeAt K spots.now t found.entry sides.items
        → IfOk result (λ f. IsFired K true k (data_of K.over machine.new) f × IsRefusedAs t f) }
{
    let Found { at, choice } = found;
    machine.restart();
    go_to(alloc, context.facts(), machine, spots, at)?;
    let part = match spots.get(at) {
        Some(spot) => copy(spot.term)?,
        None => return Err(AllocError),
    };
    let fired = fire_in_hand(alloc, context, machine, part, choice, sides)?;
    Ok(fired)
}

/// A rule is applied to the whole, or to several of its arguments. Where nothing else holds the whole, its other
/// arguments are moved.
fn fire_whole<'m>(
    alloc: Global,
    context: &'m Ctx,
    machine: &mut Machine<'m>,
    whole: Term,
    choice: Choice<'m>,
    sides: Vec<Trail>,
) -> Result<Fired<'m>, AllocError>
    ensures { (K : Run) (k : ℕ) → IsRun K context.now.signature → K.over ≡ context.now → IsEnd K k (data_of K.over machine.old) whole
        → IsMadeOf K whole choice.entry sides.items
        → IfOk result (λ f. IsFired K true k (data_of K.over machine.new) f × IsRefusedAs whole f) }
{
    machine.restart();
    let fired = fire_in_hand(alloc, context, machine, whole, choice, sides)?;
    Ok(fired)
}

/// The first rule that applies to a normal whole is applied, unless that is at the whole itself.
fn look<'m>(
    alloc: Global,
    context: &'m Ctx,
    index: &'m Index,
    machine: &mut Machine<'m>,
    rules: &'m [Rule],
    wanted: Wanted,
    term: &Term,
    side: u64,
) -> Result<Looked<'m>, AllocError>
    requires index { IsIndexOf context.now index.now }
    requires rules { AreRulesOf context.now rules.now }
    requires wanted { AreWanted rules.now wanted }
    ensures { (K : Run) (k : ℕ) → IsRun K context.now.signature → K.over ≡ context.now → K.rank ≡ 63 → IsEnd K k (data_of K.over machine.old) term.now
        → IfOk result (IsLooked K k side (data_of K.over machine.new) term.now) }
{
    context.shows();
    let spots = spots_of(alloc, context.facts(), wanted, term)?;
    let mut redexes = Redexes::new(alloc);
    let mut rounds = u64::MAX;
    while rounds > 0 {
        rounds -= 1;
        let Some(mut found) = redexes.next(alloc, context, rules, spots.as_slice())? else {
            return Ok(Looked::Nothing);
        };
        match try_choice(alloc, context, index, &mut found.choice, side, 63)? {
            Attempt::Made(sides) => {
                if found.at == 0 {
                    let Found { choice, .. } = found;
                    return Ok(Looked::Takes(choice, sides));
                }
                let fired = fire_at(alloc, context, machine, spots.as_slice(), found, sides)?;
                return Ok(Looked::Fires(fired));
            }
            Attempt::Halts(reason) => return Ok(Looked::Halts(reason)),
            Attempt::Fails => {}
        }
    }
    Err(AllocError)
}

/// A step by a rule from a normal whole, or the end.
fn step<'m>(
    alloc: Global,
    context: &'m Ctx,
    index: &'m Index,
    machine: &mut Machine<'m>,
    rules: &'m [Rule],
    wanted: Wanted,
    term: Term,
    side: u64,
) -> Result<Stepped<'m>, AllocError>
    requires index { IsIndexOf context.now index.now }
    requires rules { AreRulesOf context.now rules.now }
    requires wanted { AreWanted rules.now wanted }
    ensures { (K : Run) (k : ℕ) → IsRun K context.now.signature → K.over ≡ context.now → K.rank ≡ 63 → IsEnd K k (data_of K.over machine.old) term
        → IfOk result (IsStepped K k side (data_of K.over machine.new)) }
{
    match look(alloc, context, index, machine, rules, wanted, &term, side)? {
        Looked::Nothing => Ok(ended(term, Outcome::Done)),
        Looked::Halts(reason) => Ok(ended(term, Outcome::Stopped(reason))),
        Looked::Fires(fired) => Ok(after(fired)),
        Looked::Takes(choice, sides) => {
            let fired = fire_whole(alloc, context, machine, term, choice, sides)?;
            Ok(after(fired))
        }
    }
}

/// What comes of a rule that fired.
fn after<'m>(fired: Fired<'m>) -> Stepped<'m>
    ensures { (K : Run) (k side : ℕ) (old new : Data) (t : RawTerm) → K.rank ≡ 63 → IsEnd K k old t
        → IsFired K true k new fired.entry → IsRefusedAs t fired.entry → IsStepped K k side new result }
{
    match fired {
        Fired::Goes(hand) => Stepped::Goes(hand),
        Fired::TooDeep(whole) => ended(whole, Outcome::Stopped(Reason::Depth)),
        Fired::TooLarge(whole) => ended(whole, Outcome::Stopped(Reason::Nat)),
    }
}

fn ended<'m>(term: Term, outcome: Outcome) -> Stepped<'m>
    ensures { result ≡ EndsOf (record { term = term; outcome = outcome }) }
{
    Stepped::Ends(End { term, outcome })
}

/// From one rule to the next, until none applies or it stops.
fn run<'m>(
    alloc: Global,
    context: &'m Ctx,
    index: &'m Index,
    machine: &mut Machine<'m>,
    hand: Hand<'m>,
    bounds: Bounds,
) -> Result<End, AllocError>
    requires { IsIndexOf context.now index.now }
    ensures { (K : Run) → IsRun K context.now.signature → K.over ≡ context.now → K.rank ≡ 63 → K.rules ≡ 0 → Holds K 0 (data_of K.over machine.old) hand.entry
        → IfOk result (IsRewrittenBy K bounds (data_of K.over machine.new)) }
{
    let mut choices = Choices::new(alloc);
    let rules = index.rules();
    let wanted = wanted_by(rules);
    let mut hand = hand;
    let mut left = bounds.steps;
    let mut bound = bounds.rules;
    loop {
        let driven = run_on(
            alloc,
            context,
            index,
            machine,
            &mut choices,
            hand,
            left,
            bounds.side,
            63,
        )?;
        let Driven { end, left: more } = driven;
        let End { term, outcome } = end;
        if !matches!(outcome, Outcome::Done) {
            return Ok(End { term, outcome });
        }
        if matches!(bound, Some(0)) {
            let outcome = Outcome::Stopped(Reason::Rules);
            return Ok(End { term, outcome });
        }
        match step(
            alloc,
            context,
            index,
            machine,
            rules,
            wanted,
            term,
            bounds.side,
        )? {
            Stepped::Goes(next) => {
                hand = next;
                left = more.saturating_sub(1);
                bound = one_less(bound);
            }
            Stepped::Ends(end) => {
                return Ok(end);
            }
        }
    }
}

/// One rule less is left.
fn one_less(bound: Option<u64>) -> Option<u64>
    ensures { result ≡ option_map (λ n. n - 1) bound }
{
    match bound {
        Some(left) => Some(left.saturating_sub(1)),
        None => None,
    }
}

/// Rewrites a term with the equations and rules of an index, within bounds: it is reduced, then the first rule in the
/// order of the module that applies somewhere is applied, outermost first and from the left, and so on. The proof is
/// kept.
pub fn rewrite_alone<'m>(
    alloc: Global,
    context: &'m Ctx,
    index: &'m Index,
    term: Term,
    bounds: Bounds,
) -> Result<(Proved<'m>, Outcome), AllocError>
    requires index { IsIndexOf context.now index.now }
    requires admitted { IsAdmittedTerm context.now.signature term }
    ensures { IfOk result (λ r. IsRewritingOf context.now term bounds r.0 r.1) }
{
    let from = copy(&term)?;
    let mut machine = Machine::new(alloc);
    let hand = Hand::One(Job::Walk(term));
    let end = run(alloc, context, index, &mut machine, hand, bounds)?;
    let Machine { kept, .. } = machine;
    context.shows();
    let proved = Proved::of(context, 63, from, end.term, kept);
    Ok((proved, end.outcome))
}
