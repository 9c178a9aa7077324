// Kept deductions.
ghost use Rattle.std.specs.Prelude.{◌≡◌, ◌-◌, ◌^◌, max, min, IfOk};
ghost use Rattle.mw_logic.specs.Proof.{count, rules, steps};
ghost use Rattle.mw_canon.specs.Canonical.{IsAdmittedTerm};
ghost use Rattle.mw_deduction.specs.Runs.{none, both};
ghost use Rattle.mw_proof.specs.Deductions.{IsDeduction, IsKept, deduced};

use crate::counting::{Counts, count_all};
use mw_least::Ctx;
use mw_term::{Term, copy};
use mw_trail::Trail;
use std::alloc::{AllocError, Global};
use std::marker::Model;

/// A proof that is kept, in a module, from one term to another. Contracts see it as a deduction with a proof tree and
/// what it carries out; its type keeps that it proves what it says.
#[derive(Drop)]
pub struct Proved<'m> {
    context: &'m Ctx,
    rank: u8,
    from: Term,
    to: Term,
    trail: Trail,
    counts: Counts,
}

impl<'m> Model for Proved<'m> {
    ghost use Rattle.std.specs.Coded.{codes};
    ghost use Rattle.mw_logic.specs.TermCode.{coded_term, coded_variable};
    ghost use Rattle.mw_logic.specs.ProofCode.{coded_proof};
    ghost use Rattle.mw_deduction.specs.RunCode.{coded_dones};
    ghost use Rattle.mw_proof.specs.Deductions.{Deduction, IsKept, deduced};
    ghost use Rattle.mw_proof.specs.Counting.{AreCounts};

    ghost Value = { Deduction };

    ghost coded = { Prim.hlevel (codes, coded_term, coded_variable, coded_proof, coded_dones) };

    ghost view = { λ p. deduced p.context.now p.rank p.from p.to p.trail };

    ghost invariant = { λ p.
        IsKept p.context.now p.rank p.from p.to p.trail × AreCounts p.context.now p.trail p.counts };
}

impl<'m> Proved<'m> {
    /// The deduction that a trail is which has left each argument that it went into. Its moves may be made in this
    /// rank. It is walked over once.
    pub fn of(context: &'m Ctx, rank: u8, from: Term, to: Term, trail: Trail) -> Proved<'m>
        requires { IsKept context.now rank from to trail }
        ensures { result ≡ deduced context.now rank from to trail }
    {
        let counts = count_all(context, &trail);
        Proved {
            context,
            rank,
            from,
            to,
            trail,
            counts,
        }
    }

    /// The proof proves that the one term leads to the other, through admitted terms alone.
    pub fn shows(&self)
        ensures { IsDeduction self.now }
    {
        self.context.shows();
    }

    pub fn context(&self) -> &'m Ctx
        ensures { result.now ≡ self.now.over }
    {
        self.context
    }

    /// In how many conditions inside one another it is made, at most.
    pub fn rank(&self) -> u8
        ensures { result ≡ self.now.rank }
    {
        self.rank
    }

    pub fn from(&self) -> &Term
        ensures { result.now ≡ self.now.from }
    {
        &self.from
    }

    pub fn to(&self) -> &Term
        ensures { result.now ≡ self.now.to }
    {
        &self.to
    }

    /// The moves that are kept.
    pub fn trail(&self) -> &Trail
        ensures kept { IsKept self.now.over self.now.rank self.now.from self.now.to result.now }
        ensures is { self.now ≡ deduced self.now.over self.now.rank self.now.from self.now.to result.now }
    {
        &self.trail
    }

    /// They themselves.
    pub(crate) fn into_trail(self) -> Trail
        ensures kept { IsKept self.entry.over self.entry.rank self.entry.from self.entry.to result }
        ensures is { self.entry ≡ deduced self.entry.over self.entry.rank self.entry.from self.entry.to result }
    {
        let Proved { trail, .. } = self;
        trail
    }

    /// How many replacements the proof has, those in evidence included, or 2^64 - 1 where it has more. It is kept.
    pub fn count(&self) -> u64
        ensures { result ≡ min (count self.now.proof) (2 ^ 64 - 1) }
    {
        self.counts.count
    }

    /// How many replacements it has outside evidence, or 2^64 - 1 where it has more. It is kept.
    pub fn steps(&self) -> u64
        ensures { result ≡ min (steps self.now.proof) (2 ^ 64 - 1) }
    {
        self.counts.steps
    }

    /// How many of these are by rules, or 2^64 - 1 where more are. It is kept.
    pub fn rules(&self) -> u64
        ensures { result ≡ min (rules self.now.proof) (2 ^ 64 - 1) }
    {
        self.counts.rules
    }
}

/// The proof that a term leads to itself, without a replacement. The term must be a canonical one that is admitted.
pub fn refl<'m>(alloc: Global, context: &'m Ctx, term: &Term) -> Result<Proved<'m>, AllocError>
    requires { IsAdmittedTerm context.now.signature term.now }
    ensures over { IfOk result (λ p. p.over ≡ context.now) }
    ensures rank { IfOk result (λ p. p.rank ≡ 0) }
    ensures from { IfOk result (λ p. p.from ≡ term.now) }
    ensures to { IfOk result (λ p. p.to ≡ term.now) }
    ensures run { IfOk result (λ p. p.run ≡ none) }
{
    let from = copy(term)?;
    let to = copy(term)?;
    Ok(Proved::of(context, 0, from, to, Trail::new(alloc)))
}

/// One proof and then another, which begins where the first one ends. It takes as long as the second one.
pub fn then<'m>(first: Proved<'m>, second: Proved<'m>) -> Result<Proved<'m>, AllocError>
    requires module { first.over ≡ second.over }
    requires meet { first.to ≡ second.from }
    ensures over { IfOk result (λ p. p.over ≡ first.entry.over) }
    ensures rank { IfOk result (λ p. p.rank ≡ max first.entry.rank second.entry.rank) }
    ensures from { IfOk result (λ p. p.from ≡ first.entry.from) }
    ensures to { IfOk result (λ p. p.to ≡ second.entry.to) }
    ensures run { IfOk result (λ p. p.run ≡ both first.entry.run second.entry.run) }
{
    let Proved {
        context,
        rank,
        from,
        trail,
        counts,
        ..
    } = first;
    let Proved {
        rank: other,
        to,
        trail: next,
        counts: others,
        ..
    } = second;
    context.shows();
    Ok(Proved {
        context,
        rank: rank.max(other),
        from,
        to,
        trail: trail.followed_by(next)?,
        counts: counts.plus(others),
    })
}
