// Items that are computed.
ghost use Rattle.std.specs.Prelude.{◌≤◌, IfOk};
ghost use Rattle.mw_canon.specs.Canonical.{IsAdmittedTerm};
ghost use Rattle.mw_index.specs.Index.{IsIndexOf};
ghost use Rattle.mw_prooftext.specs.Grounds.{spot_of};
ghost use Rattle.mw_items.specs.Items.{built as built_at};
ghost use Rattle.mw_check.specs.Answers.{IsAnswer};

use crate::answer::{Answer, Cause};
use crate::normal::Tester;
use crate::parts::{part_at, replaced};
use crate::rows::{Computed, compute};
use mw_redex::Place;
use mw_term::Term;
use std::alloc::{AllocError, Global};

/// What comes of a replacement by a row.
pub fn built(
    alloc: Global,
    tester: &Tester<'_>,
    place: &Place,
    term: &Term,
    rank: u8,
) -> Result<Answer, AllocError>
    requires rank { rank ≤ 63 }
    requires most { 1 ≤ tester.now.most }
    requires index { IsIndexOf tester.now.context.now tester.now.index.now }
    requires term { IsAdmittedTerm tester.now.context.now.signature term.now }
    ensures { IfOk result
        (IsAnswer tester.now.context.now tester.now.most rank (built_at (spot_of place.now)) term.now) }
{
    tester.context.shows();
    let facts = tester.context.facts();
    let Some(part) = part_at(alloc, facts, term, place)? else {
        return Ok(Answer::Refused(Cause::Part));
    };
    match compute(alloc, tester, &part, rank)? {
        Computed::NoRow => Ok(Answer::Refused(Cause::Statement)),
        Computed::NotNormal => Ok(Answer::Refused(Cause::Condition)),
        Computed::Stopped(to) => {
            let next = replaced(alloc, facts, term, place, to)?;
            Ok(Answer::Stopped(next))
        }
        Computed::Gives(to) => match replaced(alloc, facts, term, place, to)? {
            Some(next) => Ok(Answer::Passed(next, 1)),
            None => Ok(Answer::Refused(Cause::Limit)),
        },
    }
}
