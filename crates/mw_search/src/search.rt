// The matches of a pattern, one by one.
ghost use Rattle.std.specs.Prelude.{◌≡◌, ◌∷◌, [], length, IfOk, OnErr, MatchOption};
ghost use Rattle.mw_matching.specs.Found.{found};
ghost use Rattle.mw_search.specs.Machines.{to_come, IsReady};

use crate::goals::Goal;
use crate::lookahead::clashes;
use crate::machine::Machine;
use crate::positions::Positions;
use mw_canon::Facts;
use mw_least::Ctx;
use mw_term::Term;
use std::alloc::{AllocError, Global};
use std::marker::Model;

/// The matches of a pattern that are still to come. Contracts see the list of them, each as the values by position,
/// with what is asked of these.
#[derive(Drop)]
pub struct Search<'c> {
    alloc: Global,
    context: &'c Ctx,
    positions: &'c Positions,
    machine: Machine,
}

impl<'c> Model for Search<'c> {
    ghost use Rattle.std.specs.Coded.{codes};
    ghost use Rattle.mw_logic.specs.TermCode.{coded_term, coded_variable};
    ghost use Rattle.mw_search.specs.Searches.{Matches};

    ghost Value = { Matches };

    ghost coded = { Prim.hlevel (codes, coded_term, coded_variable) };

    ghost use Rattle.mw_search.specs.Machines.{to_come, IsReady};

    ghost view = { λ s. record {
      signature = s.context.now.signature;
      sorts = s.positions.now.sorts;
      given = s.machine.given;
      coming = to_come s.context.now.signature s.positions.now s.machine;
    } };

    ghost invariant = { λ s. IsReady s.context.now.signature s.positions.now s.machine };
}

/// A pattern to be met by a term, with values that are given; nothing, where they clash.
fn machine_for(
    alloc: Global,
    facts: &Facts,
    pattern: Term,
    term: Term,
    given: Vec<Term>,
) -> Result<Machine, AllocError>
    ensures starts { IfOk result (λ m. (ps : Positions) →
        to_come facts.now ps m ≡ found facts.now ps.single.items pattern term given.items) }
    ensures given { IfOk result (λ m. m.given ≡ length given.items) }
    ensures ready { IfOk result (λ m. (ps : Positions) → IsReady facts.now ps m) }
{
    if clashes(facts, &pattern, &term, given.as_slice()) {
        return Ok(Machine::ended(alloc, given));
    }
    let machine = Machine::new(alloc, Goal::Meet(pattern, term), given)?;
    Ok(machine)
}

impl<'c> Search<'c> {
    ghost use Rattle.mw_logic.specs.Terms.{args_of, skip};
    ghost use Rattle.mw_matching.specs.Found.{found_row};
    ghost use Rattle.mw_search.specs.Goals.{top_of};
    ghost use Rattle.mw_search.specs.Searches.{SkipsTo, FitsSorts};

    /// All matches of a pattern, whose variables stand by position, with a term. The values of the first positions are
    /// given, and are not asked for their sorts.
    pub fn new(
        alloc: Global,
        context: &'c Ctx,
        positions: &'c Positions,
        pattern: Term,
        term: Term,
        given: Vec<Term>,
    ) -> Result<Search<'c>, AllocError>
        ensures { let sig = context.now.signature in
            IfOk result (λ s. s ≡ record {
              signature = sig;
              sorts = positions.now.sorts;
              given = length given.items;
              coming = found sig positions.now.single.items pattern term given.items;
            }) }
    {
        let machine = machine_for(alloc, context.facts(), pattern, term, given)?;
        Ok(Search {
            alloc,
            context,
            positions,
            machine,
        })
    }

    /// All matches of a pattern with the elements of a row from a place on: its arguments take all of these from the
    /// left, as under an associative operator. The row is its elements under any operator, and they aren't copied. The
    /// values of the first positions are given, as in `new`.
    pub fn of_row(
        alloc: Global,
        context: &'c Ctx,
        positions: &'c Positions,
        pattern: Term,
        row: Term,
        from: usize,
        given: Vec<Term>,
    ) -> Result<Search<'c>, AllocError>
        ensures { let sig = context.now.signature in
            let elements = skip from (args_of row) in
            IfOk result (λ s. s ≡ record {
              signature = sig;
              sorts = positions.now.sorts;
              given = length given.items;
              coming = found_row sig positions.now.single.items (top_of pattern) (args_of pattern) elements given.items;
            }) }
    {
        let machine = Machine::new(alloc, Goal::Row(pattern, 0, row, from), given)?;
        Ok(Search {
            alloc,
            context,
            positions,
            machine,
        })
    }

    /// The values of the next match in which each new value has its sort; none where there is none, and for ever after.
    /// Matches with a value that lacks its sort are passed over.
    pub fn next(&mut self) -> Result<Option<Vec<Term>>, AllocError>
        ensures ok { IfOk result (λ o. MatchOption o (SkipsTo self.old [] × (self.new.coming ≡ []))
            (λ vs. SkipsTo self.old (vs.items ∷ self.new.coming) × FitsSorts self.old vs.items)) }
        ensures err { OnErr result (SkipsTo self.old self.new.coming) }
        ensures same { self.new ≡ record self.old { coming = self.new.coming } }
    {
        let found = self.machine.next(self.alloc, self.context, self.positions)?;
        Ok(found)
    }
}
