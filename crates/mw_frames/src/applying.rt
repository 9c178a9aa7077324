// A statement is applied.
ghost use Rattle.std.specs.Prelude.{◌≡◌, ℕ, suc, Bool, List, IsTrue, IsFalse, IfOk, OnOk, None, Some, reverse, take as take_first};
ghost use Rattle.mw_logic.specs.Term.{RawTerm, RawTerms, apply as applied};
ghost use Rattle.mw_logic.specs.Terms.{terms_of};
ghost use Rattle.mw_logic.specs.Parts.{nested};
ghost use Rattle.mw_logic.specs.Module.{Module};
ghost use Rattle.mw_matching.specs.Matches.{evaluated};
ghost use Rattle.mw_pattern.specs.Clean.{clean};
ghost use Rattle.mw_frames.specs.Several.{IsSeveral};
ghost use Rattle.mw_deduction.specs.Replay.{Move, Stand, whole as in_whole};
ghost use Rattle.mw_trail.specs.Tracks.{moves};
ghost use Rattle.mw_frames.specs.State.{Run, after_one, IsRun, InHand, Settled, Holds};
ghost use Rattle.mw_frames.specs.Machines.{data_of, all_moves};
ghost use Rattle.mw_frames.specs.Redex.{MayFire, HasOnTop};
ghost use Rattle.mw_frames.specs.Larger.{IsFit, IsAround};
ghost use Rattle.mw_frames.specs.Taking.{IsPartAsked};
ghost use Rattle.mw_frames.specs.Steps.{IsAsked, IsComplete, IsAskedFor, asked_term};
ghost use Rattle.mw_frames.specs.Fires.{IsPartTaken, IsApplied, HasWhole, IsOpenTo, Refuses, IsFired, IsRefusedAs};
ghost use Rattle.mw_frames.specs.declared.job.Job.TheVariants.{Walk as WalkOf};
ghost use Rattle.mw_frames.specs.declared.looking.Asked.TheVariants.{Own as OwnOf};
ghost use Rattle.mw_frames.specs.declared.limits.Fit.TheVariants.{Fits as FitsOf};

use crate::coming::{part_job, wait_parts};
use crate::firing::{apply_whole, leave_hole, take_out};
use crate::job::{Frame, Hand};
use crate::limits::{Around, Fit, cut, fit_right};
use crate::looking::Asked;
use crate::machine::Machine;
use crate::opening::new_frame;
use crate::whole::whole;
use mw_canon::Facts;
use mw_pattern::Pattern;
use mw_stack::close;
use mw_term::{OpId, Seq, Term, View};
use mw_trail::Trail;
use std::alloc::{AllocError, Global};

/// A statement that is applied.
#[derive(Clone, Copy)]
pub struct Applied<'m> {
    /// Its number, from 1.
    pub number: usize,
    pub rule: bool,
    pub right: &'m Pattern,
    /// No operator of the canonical right side has an axiom.
    pub free: bool,
    /// How many levels the right side has with its variables in place, or 65,535 where it has more.
    pub levels: u16,
    /// Nor has one of the left side.
    pub sure: bool,
}

/// What a statement leaves that is applied.
#[derive(Drop)]
pub enum Fired<'m> {
    Goes(Hand<'m>),
    /// It isn't applied, since the whole would be too deep: this is the whole as it stands.
    TooDeep(Term),
    /// The same, since a number would be too large.
    TooLarge(Term),
}

/// The operator on top, or any where there is none.
#[inline(always)]
pub(crate) fn top_of(term: &Term) -> OpId
    ensures top { HasOnTop result term.now }
    ensures leaf { ((f : ℕ) (ts : RawTerms) → term.now ≡ applied f ts → ⊥) → result ≡ 1 }
{
    match term.view() {
        View::Op(operator, _) => operator,
        _ => 1,
    }
}

/// By which operator it is known whether values are normal.
#[inline(always)]
fn known_by(by: Applied<'_>, top: OpId) -> OpId
    ensures sure { IsTrue by.entry.sure → result ≡ 0 }
    ensures unsure { IsFalse by.entry.sure → result ≡ top }
{
    if by.sure { 0 } else { top }
}

/// The statement is applied to the term in hand, which has this operator on top: its right side is in hand.
#[inline(always)]
fn go_whole<'m>(
    alloc: Global,
    facts: &Facts,
    machine: &mut Machine<'m>,
    top: OpId,
    by: Applied<'m>,
    sides: &mut Vec<Trail>,
    values: &mut Vec<Term>,
) -> Result<Hand<'m>, AllocError>
    ensures { (K : Run) (k : ℕ) (w : RawTerm) → IsRun K facts.now
        → MayFire K by.entry.rule k (data_of K.over machine.old) by.entry.number (all_moves K.over sides.old.items) values.old.items (clean by.entry.right.now) w
        → IsApplied K.over K.rank by.entry (all_moves K.over sides.old.items) values.old.items w → HasOnTop top w
        → (((f : ℕ) (ts : RawTerms) → w ≡ applied f ts → ⊥) → top ≡ 1)
        → IfOk result (Holds (after_one by.entry.rule K) (suc k) (data_of K.over machine.new)) }
{
    let base = apply_whole(alloc, machine, by.number, sides, values)?;
    let job = part_job(
        alloc,
        facts,
        machine.kept.values(),
        by.right,
        base,
        known_by(by, top),
    )?;
    Ok(Hand::One(job))
}

/// Nothing is applied, since the whole would be too deep, or a number in it too large: the whole as it stands.
#[inline(never)]
pub(crate) fn refuse<'m>(
    alloc: Global,
    facts: &Facts,
    machine: &mut Machine<'m>,
    term: Term,
    deep: bool,
) -> Result<Fired<'m>, AllocError>
    ensures means { (K : Run) (b : Bool) (k : ℕ) → IsRun K facts.now → (h : InHand K k (data_of K.over machine.old) (WalkOf term))
        → ((t : RawTerm) → t ≡ in_whole K.over.signature h.stand.opens h.stand.hand → Refuses K b deep (nested K.over.signature t))
        → IfOk result (IsFired K b k (data_of K.over machine.new)) }
    ensures same { (K : Run) (k : ℕ) → IsRun K facts.now → (h : InHand K k (data_of K.over machine.old) (WalkOf term))
        → IfOk result (IsRefusedAs (in_whole K.over.signature h.stand.opens h.stand.hand)) }
{
    let whole = whole(alloc, facts, machine, term)?;
    if deep {
        return Ok(Fired::TooDeep(whole));
    }
    Ok(Fired::TooLarge(whole))
}

/// What stands round what is in hand.
#[inline(always)]
pub(crate) fn all_around<'a, 'm>(machine: &'a Machine<'m>) -> Around<'a, 'm>
    ensures { IsAround machine.now result }
{
    Around {
        values: machine.kept.values(),
        frames: machine.frames.as_slice(),
        done: machine.done.as_slice(),
        jobs: machine.jobs.as_slice(),
    }
}

/// Whether the right side may stand where the term in hand does.
#[inline(always)]
fn fit_here(
    alloc: Global,
    facts: &Facts,
    machine: &Machine<'_>,
    by: Applied<'_>,
    values: &[Term],
) -> Result<Fit, AllocError>
    ensures { (K : Run) (k : ℕ) (ms : List Move) (w : RawTerm) → IsRun K facts.now → (h : InHand K k (data_of K.over machine.now) (WalkOf w))
        → IsApplied K.over K.rank by.entry ms values.now w
        → IfOk result (IsFit K.over.signature (reverse machine.now.frames.items) h.stand.opens (evaluated K.over.signature values.now (clean by.entry.right.now))) }
{
    let around = all_around(machine);
    let fit = fit_right(alloc, facts, around, by.right, by.free, by.levels, values)?;
    Ok(fit)
}

/// The statement is applied to the term in hand.
fn fire_whole<'m>(
    alloc: Global,
    facts: &Facts,
    machine: &mut Machine<'m>,
    term: Term,
    by: Applied<'m>,
    sides: &mut Vec<Trail>,
    values: &mut Vec<Term>,
) -> Result<Fired<'m>, AllocError>
    ensures means { (K : Run) (k : ℕ) → IsRun K facts.now → IsAsked K k (data_of K.over machine.old) term
        → IsApplied K.over K.rank by.entry (all_moves K.over sides.old.items) values.old.items term
        → (IsTrue by.entry.rule → IsOpenTo K k (data_of K.over machine.old) term None)
        → IfOk result (IsFired K by.entry.rule k (data_of K.over machine.new)) }
    ensures same { (K : Run) (k : ℕ) (t : RawTerm) → IsRun K facts.now → IsAsked K k (data_of K.over machine.old) term
        → HasWhole K k (data_of K.over machine.old) t → IfOk result (IsRefusedAs t) }
{
    match fit_here(alloc, facts, machine, by, values.as_slice())? {
        Fit::Fits => {
            let hand = go_whole(alloc, facts, machine, top_of(&term), by, sides, values)?;
            Ok(Fired::Goes(hand))
        }
        Fit::TooDeep => {
            let fired = refuse(alloc, facts, machine, term, true)?;
            Ok(fired)
        }
        Fit::TooLarge => {
            let fired = refuse(alloc, facts, machine, term, false)?;
            Ok(fired)
        }
    }
}

/// The statement is applied to what is in hand, which several arguments are: its right side comes among the others, in
/// whose frame it stands.
fn go_several<'m>(
    alloc: Global,
    facts: &Facts,
    machine: &mut Machine<'m>,
    frame: Frame,
    by: Applied<'m>,
    sides: &mut Vec<Trail>,
    values: &mut Vec<Term>,
) -> Result<(), AllocError>
    ensures { (K : Run) (k : ℕ) (w : RawTerm) (S : Stand) → IsRun K facts.now
        → IsPartAsked K k (data_of K.over machine.old) frame w S
        → MayFire K by.entry.rule k (data_of K.over machine.old) by.entry.number (all_moves K.over sides.old.items) values.old.items (clean by.entry.right.now) w
        → IsApplied K.over K.rank by.entry (all_moves K.over sides.old.items) values.old.items w
        → OnOk result (Settled (after_one by.entry.rule K) (suc k) (data_of K.over machine.new) frame) }
{
    let base = apply_whole(alloc, machine, by.number, sides, values)?;
    leave_hole(machine)?;
    wait_parts(alloc, facts, machine, frame, by.right, base, frame.op)?;
    Ok(())
}

/// Nothing is applied to several arguments of this operator, which are in hand: the whole as it stands.
pub(crate) fn refuse_part<'m>(
    alloc: Global,
    facts: &Facts,
    machine: &mut Machine<'m>,
    operator: OpId,
    taken: Vec<Term>,
    deep: bool,
) -> Result<Fired<'m>, AllocError>
    ensures means { (K : Run) (b : Bool) (k : ℕ) (w : RawTerm) → IsRun K facts.now → w ≡ applied operator (terms_of taken.items)
        → (h : InHand K k (data_of K.over machine.old) (WalkOf w))
        → ((t : RawTerm) → t ≡ in_whole K.over.signature h.stand.opens h.stand.hand → Refuses K b deep (nested K.over.signature t))
        → IfOk result (IsFired K b k (data_of K.over machine.new)) }
    ensures same { (K : Run) (k : ℕ) (w : RawTerm) → IsRun K facts.now → w ≡ applied operator (terms_of taken.items)
        → (h : InHand K k (data_of K.over machine.old) (WalkOf w))
        → IfOk result (IsRefusedAs (in_whole K.over.signature h.stand.opens h.stand.hand)) }
{
    let part = Term::apply(alloc, operator, taken)?;
    let fired = refuse(alloc, facts, machine, part, deep)?;
    Ok(fired)
}

/// The statement is applied to the arguments of these numbers of the term in hand.
fn fire_several<'m>(
    alloc: Global,
    facts: &Facts,
    machine: &mut Machine<'m>,
    term: Term,
    numbers: &[u32],
    by: Applied<'m>,
    sides: &mut Vec<Trail>,
    values: &mut Vec<Term>,
) -> Result<Fired<'m>, AllocError>
    ensures means { (K : Run) (k : ℕ) (w : RawTerm) → IsRun K facts.now → IsAsked K k (data_of K.over machine.old) term
        → IsSeveral facts.now numbers.now term w → IsApplied K.over K.rank by.entry (all_moves K.over sides.old.items) values.old.items w
        → (IsTrue by.entry.rule → IsOpenTo K k (data_of K.over machine.old) term (Some numbers.now))
        → IfOk result (IsFired K by.entry.rule k (data_of K.over machine.new)) }
    ensures same { (K : Run) (k : ℕ) (w t : RawTerm) → IsRun K facts.now → IsAsked K k (data_of K.over machine.old) term
        → IsSeveral facts.now numbers.now term w → HasWhole K k (data_of K.over machine.old) t → IfOk result (IsRefusedAs t) }
{
    let frame = new_frame(facts, machine, top_of(&term))?;
    let taken = take_out(alloc, facts, machine, frame, term, numbers)?;
    match fit_here(alloc, facts, machine, by, values.as_slice())? {
        Fit::Fits => {
            go_several(alloc, facts, machine, frame, by, sides, values)?;
            Ok(Fired::Goes(Hand::Over(frame)))
        }
        Fit::TooDeep => {
            let fired = refuse_part(alloc, facts, machine, frame.op, taken, true)?;
            Ok(fired)
        }
        Fit::TooLarge => {
            let fired = refuse_part(alloc, facts, machine, frame.op, taken, false)?;
            Ok(fired)
        }
    }
}

/// The statement is applied to the term in hand, or to several of its arguments.
#[inline(never)]
fn fire_term<'m>(
    alloc: Global,
    facts: &Facts,
    machine: &mut Machine<'m>,
    term: Term,
    by: Applied<'m>,
    sides: &mut Vec<Trail>,
    values: &mut Vec<Term>,
    take: &Option<Seq<u32>>,
) -> Result<Fired<'m>, AllocError>
    ensures means { (K : Run) (k : ℕ) (w : RawTerm) → IsRun K facts.now → IsAsked K k (data_of K.over machine.old) term
        → IsPartTaken facts.now take.now term w → IsApplied K.over K.rank by.entry (all_moves K.over sides.old.items) values.old.items w
        → (IsTrue by.entry.rule → IsOpenTo K k (data_of K.over machine.old) term take.now)
        → IfOk result (IsFired K by.entry.rule k (data_of K.over machine.new)) }
    ensures same { (K : Run) (k : ℕ) (w t : RawTerm) → IsRun K facts.now → IsAsked K k (data_of K.over machine.old) term
        → IsPartTaken facts.now take.now term w → HasWhole K k (data_of K.over machine.old) t → IfOk result (IsRefusedAs t) }
{
    match take {
        None => {
            let fired = fire_whole(alloc, facts, machine, term, by, sides, values)?;
            Ok(fired)
        }
        Some(numbers) => {
            let fired = fire_several(
                alloc,
                facts,
                machine,
                term,
                numbers.as_slice(),
                by,
                sides,
                values,
            )?;
            Ok(fired)
        }
    }
}

/// Whether the statement may be applied to the whole of a frame's operator over its own arguments.
#[inline(always)]
fn fits_own(
    alloc: Global,
    facts: &Facts,
    machine: &Machine<'_>,
    top: Frame,
    by: Applied<'_>,
    values: &[Term],
    take: &Option<Seq<u32>>,
) -> Result<bool, AllocError>
    ensures { (K : Run) (k : ℕ) (ms : List Move) (t : RawTerm) → IsRun K facts.now
        → (h : InHand K k (record {
          frames = reverse machine.now.frames.items;
          done = take_first top.from machine.now.done.items;
          jobs = machine.now.jobs.items;
          values = machine.now.kept.values;
          moves = moves K.over machine.now.kept;
        }) (WalkOf t))
        → (take.now ≡ None → IsApplied K.over K.rank by.entry ms values.now t)
        → IfOk result (λ b. IsTrue b → (take.now ≡ None)
        × IsFit K.over.signature (reverse machine.now.frames.items) h.stand.opens (evaluated K.over.signature values.now (clean by.entry.right.now)) FitsOf) }
{
    if take.is_some() {
        return Ok(false);
    }
    let around = Around {
        values: machine.kept.values(),
        frames: machine.frames.as_slice(),
        done: cut(machine.done.as_slice(), top.from).0,
        jobs: machine.jobs.as_slice(),
    };
    let fit = fit_right(alloc, facts, around, by.right, by.free, by.levels, values)?;
    Ok(matches!(fit, Fit::Fits))
}

/// The statement is applied to a frame's operator over its own arguments, all of which are done.
#[inline(always)]
fn fire_own<'m>(
    alloc: Global,
    facts: &Facts,
    machine: &mut Machine<'m>,
    top: Frame,
    by: Applied<'m>,
    sides: &mut Vec<Trail>,
    values: &mut Vec<Term>,
    take: &Option<Seq<u32>>,
) -> Result<Fired<'m>, AllocError>
    ensures means { (K : Run) (k : ℕ) (w : RawTerm) → IsRun K facts.now → IsComplete K k (data_of K.over machine.old) top
        → IsPartTaken facts.now take.now (asked_term (data_of K.over machine.old) (OwnOf top)) w → IsApplied K.over K.rank by.entry (all_moves K.over sides.old.items) values.old.items w
        → (IsTrue by.entry.rule → IsOpenTo K k (data_of K.over machine.old) (asked_term (data_of K.over machine.old) (OwnOf top)) take.now)
        → IfOk result (IsFired K by.entry.rule k (data_of K.over machine.new)) }
    ensures same { (K : Run) (k : ℕ) (w t : RawTerm) → IsRun K facts.now → IsComplete K k (data_of K.over machine.old) top
        → IsPartTaken facts.now take.now (asked_term (data_of K.over machine.old) (OwnOf top)) w
        → HasWhole K k (data_of K.over machine.old) t → IfOk result (IsRefusedAs t) }
{
    if fits_own(alloc, facts, machine, top, by, values.as_slice(), take)? {
        machine.done.truncate(top.from);
        let hand = go_whole(alloc, facts, machine, top.op, by, sides, values)?;
        return Ok(Fired::Goes(hand));
    }
    let term = close(alloc, facts, top.op, &mut machine.done, top.from)?;
    let fired = fire_term(alloc, facts, machine, term, by, sides, values, take)?;
    Ok(fired)
}

/// A statement is applied to what was asked for, or to several of its arguments, by these values, which are taken, as is
/// what shows its condition. A rule asks that no argument on the way is frozen.
#[inline(always)]
pub fn fire<'m>(
    alloc: Global,
    facts: &Facts,
    machine: &mut Machine<'m>,
    asked: Asked,
    by: Applied<'m>,
    sides: &mut Vec<Trail>,
    values: &mut Vec<Term>,
    take: &Option<Seq<u32>>,
) -> Result<Fired<'m>, AllocError>
    ensures means { (K : Run) (k : ℕ) (w : RawTerm) → IsRun K facts.now → IsAskedFor K k (data_of K.over machine.old) asked
        → IsPartTaken facts.now take.now (asked_term (data_of K.over machine.old) asked) w → IsApplied K.over K.rank by.entry (all_moves K.over sides.old.items) values.old.items w
        → (IsTrue by.entry.rule → IsOpenTo K k (data_of K.over machine.old) (asked_term (data_of K.over machine.old) asked) take.now)
        → IfOk result (IsFired K by.entry.rule k (data_of K.over machine.new)) }
    ensures same { (K : Run) (k : ℕ) (w t : RawTerm) → IsRun K facts.now → IsAskedFor K k (data_of K.over machine.old) asked
        → IsPartTaken facts.now take.now (asked_term (data_of K.over machine.old) asked) w
        → HasWhole K k (data_of K.over machine.old) t → IfOk result (IsRefusedAs t) }
{
    match asked {
        Asked::Term(term) => {
            let fired = fire_term(alloc, facts, machine, term, by, sides, values, take)?;
            Ok(fired)
        }
        Asked::Own(top) => {
            let fired = fire_own(alloc, facts, machine, top, by, sides, values, take)?;
            Ok(fired)
        }
    }
}
