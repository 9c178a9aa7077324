// Walks.
ghost use Rattle.std.specs.Prelude.{◌≡◌, [], Bool, IfOk, OnOk};
ghost use Rattle.mw_deduction.specs.Replay.{Stand, into_argument, into_several, going_out, whole};
ghost use Rattle.mw_deduction.specs.Replay.{MayGoIn, MayGoAmong, MayReplace};
ghost use Rattle.mw_deduction.specs.Stands.{IsStanding};
ghost use Rattle.mw_logic.specs.Term.{RawTerm};
ghost use Rattle.mw_logic.specs.Module.{Module};
ghost use Rattle.mw_logic.specs.NormalForm.{normal_form};
ghost use Rattle.mw_redex.specs.Replaced.{ReplacesAt};
ghost use Rattle.mw_logic.specs.Signature.{Signature};
ghost use Rattle.mw_logic.specs.Accepted.{IsAccepted};
ghost use Rattle.mw_logic.proofs.Canonical.{IsCanonical};
ghost use Rattle.mw_spot.specs.Spots.{TakesPart};
ghost use Rattle.mw_spot.specs.Walks.{IsAt};

use crate::level::Level;
use crate::parting::parted;
use crate::spotting::{Spot, climb, free, pass};
use mw_canon::Facts;
use mw_redex::Place;
use mw_term::{Term, View, copy};
use std::alloc::{AllocError, Global};
use std::marker::Model;
use std::mem::replace;

/// A walk with the moves of a kept proof: the operators that it went into, and the term in hand.
#[derive(Drop)]
pub struct Walk {
    levels: Vec<Level>,
    hand: Term,
}

impl Model for Walk {
    ghost use Rattle.std.specs.Coded.{codes};
    ghost use Rattle.mw_logic.specs.TermCode.{coded_term, coded_terms};
    ghost use Rattle.mw_spot.specs.Walks.{Walked};

    ghost Value = { Walked };

    ghost coded = { Prim.hlevel (codes, coded_term, coded_terms) };

    ghost use Rattle.std.specs.Prelude.{reverse};

    ghost view = { λ w. record { opens = reverse w.levels.items; hand = w.hand } };
}

impl Walk {
    /// It begins at a term.
    pub fn new(alloc: Global, term: Term) -> Walk
        ensures { (sig : Signature) (S : Stand) → S.opens ≡ [] → S.hand ≡ term → IsAt sig result S }
    {
        Walk {
            levels: Vec::new(alloc),
            hand: term,
        }
    }

    /// The term in hand.
    pub fn hand(&self) -> &Term
        ensures { result.now ≡ self.now.hand }
    {
        &self.hand
    }

    /// The term in hand, for which a small one comes: so nothing else shares it here.
    fn take_hand(&mut self, alloc: Global) -> Result<Term, AllocError>
        ensures hand { IfOk result (λ t. t ≡ self.old.hand) }
        ensures opens { self.new.opens ≡ self.old.opens }
    {
        let small = Term::numeral(alloc, 0)?;
        Ok(replace(&mut self.hand, small))
    }

    /// Another term comes for the one in hand.
    pub fn put(&mut self, term: Term)
        ensures { (sig : Signature) (S T : Stand) → IsAt sig self.old S → T.opens ≡ S.opens → T.hand ≡ term
            → IsAt sig self.new T }
    {
        self.hand = term;
    }

    /// Into the argument of this number, as the arguments stand, from 1.
    pub fn enter(&mut self, alloc: Global, number: u32) -> Result<(), AllocError>
        ensures { (sig : Signature) (S : Stand) → IsAccepted sig → IsAt sig self.old S → IsCanonical sig S.hand
            → MayGoIn sig number S.hand → OnOk result (IsAt sig self.new (into_argument sig number S.hand S)) }
    {
        let View::Op(operator, args) = self.hand.view() else {
            return Ok(());
        };
        let index = number as usize;
        if index == 0 || index > args.len() {
            return Ok(());
        }
        let at = index - 1;
        let mut others = self.take_hand(alloc)?.into_args(alloc)?;
        let hand = others.remove(at);
        let level = Level {
            operator,
            others,
            at,
        };
        self.levels.push(level)?;
        self.hand = hand;
        Ok(())
    }

    /// Into several arguments of an associative operator, which have these numbers.
    pub fn among(&mut self, alloc: Global, numbers: &[u32]) -> Result<(), AllocError>
        ensures { (sig : Signature) (S : Stand) → IsAccepted sig → IsAt sig self.old S → IsCanonical sig S.hand
            → MayGoAmong sig numbers.now S.hand
            → OnOk result (IsAt sig self.new (into_several sig numbers.now S.hand S)) }
    {
        let View::Op(operator, _) = self.hand.view() else {
            return Ok(());
        };
        let [first, ..] = numbers else {
            return Ok(());
        };
        let args = self.take_hand(alloc)?.into_args(alloc)?;
        let (hand, level) = parted(alloc, operator, args, *first, numbers)?;
        self.levels.push(level)?;
        self.hand = hand;
        Ok(())
    }

    /// Out of the innermost operator: what stands in its hole is put in order among its arguments.
    pub fn leave(&mut self, alloc: Global, facts: &Facts) -> Result<(), AllocError>
        ensures { (M : Module) (S : Stand) → M.signature ≡ facts.now → IsAt facts.now self.old S → IsStanding M S
            → OnOk result (IsAt facts.now self.new (going_out facts.now S.opens S)) }
    {
        let Some(level) = self.levels.pop() else {
            return Ok(());
        };
        let hand = self.take_hand(alloc)?;
        self.hand = level.filled(alloc, facts, hand)?;
        Ok(())
    }

    /// The place of the term in hand in the whole. Where a kept proof that stands here replaces the term, it does so
    /// there.
    pub fn spot(&self, alloc: Global, facts: &Facts) -> Result<Place, AllocError>
        ensures there { (M : Module) (S : Stand) (by_rule : Bool) (w v : RawTerm) → M.signature ≡ facts.now
            → IsAt facts.now self.now S → IsStanding M S → MayReplace M by_rule S.opens S.hand w v
            → IfOk result (λ place. ReplacesAt facts.now by_rule S.hand (normal_form facts.now v) place.path place.take
            (whole facts.now S.opens S.hand) (whole facts.now S.opens (normal_form facts.now v))) }
        ensures part { (M : Module) (S : Stand) (by_rule : Bool) (w v : RawTerm) → M.signature ≡ facts.now
            → IsAt facts.now self.now S → IsStanding M S → MayReplace M by_rule S.opens S.hand w v
            → IfOk result (λ place. TakesPart place.path place.take (whole facts.now S.opens S.hand)) }
    {
        facts.shows();
        let levels = self.levels.as_slice();
        let free = free(facts, levels);
        let hand = copy(&self.hand)?;
        let mut spot = Spot::new(alloc);
        climb(alloc, facts, &levels[free..], hand, &mut spot)?;
        pass(&levels[..free], &mut spot)?;
        Ok(spot.into_place())
    }
}
