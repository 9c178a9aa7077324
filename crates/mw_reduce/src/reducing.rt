// The reducer's public call.
ghost use Rattle.std.specs.Prelude.{◌≤◌, IfOk};
ghost use Rattle.mw_canon.specs.Canonical.{IsAdmittedTerm};
ghost use Rattle.mw_index.specs.Index.{IsIndexOf};
ghost use Rattle.mw_reduce.specs.Reductions.{IsReductionOf};

use crate::drive::{Driven, Outcome};
use crate::running::run_on;
use mw_frames::{Hand, Job, Machine};
use mw_index::{Choices, Index};
use mw_least::Ctx;
use mw_proof::Proved;
use mw_term::{Term, copy};
use std::alloc::{AllocError, Global};

/// What a run may spend.
#[derive(Clone, Copy, PartialEq, Eq, Debug)]
pub struct Budget {
    /// At most so many steps.
    pub steps: u64,
    /// At most so many for each side of a condition.
    pub side: u64,
    /// At most so many conditions inside one another, and never more than 63.
    pub nest: u8,
}

/// Reduces a term with the equations of an index, innermost first and from the left, within a budget. The proof is
/// kept.
pub fn reduce<'m>(
    alloc: Global,
    context: &'m Ctx,
    index: &'m Index,
    term: Term,
    budget: Budget,
) -> Result<(Proved<'m>, Outcome), AllocError>
    requires nest { budget.nest ≤ 63 }
    requires index { IsIndexOf context.now index.now }
    requires admitted { IsAdmittedTerm context.now.signature term }
    ensures { IfOk result (λ r. IsReductionOf context.now term budget r.0 r.1) }
{
    let from = copy(&term)?;
    let mut machine = Machine::new(alloc);
    let hand = Hand::One(Job::Walk(term));
    let mut choices = Choices::new(alloc);
    let driven = run_on(
        alloc,
        context,
        index,
        &mut machine,
        &mut choices,
        hand,
        budget.steps,
        budget.side,
        budget.nest,
    )?;
    let Driven { end, left: _ } = driven;
    let Machine { kept, .. } = machine;
    context.shows();
    let proved = Proved::of(context, budget.nest, from, end.term, kept);
    Ok((proved, end.outcome))
}
