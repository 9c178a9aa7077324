// Tests of normality.
ghost use Rattle.std.specs.Prelude.{◌≤◌, IfOk};
ghost use Rattle.mw_canon.specs.Canonical.{IsAdmittedTerm};
ghost use Rattle.mw_index.specs.Index.{IsIndexOf};
ghost use Rattle.mw_check.specs.Answers.{IsTold};

use mw_index::Index;
use mw_least::Ctx;
use mw_reduce::{Budget, Normality, is_normal};
use mw_term::Term;
use std::alloc::{AllocError, Global};

/// What items are checked with: a module, the index of its equations, and how many steps the side of a condition may
/// take in a test of normality.
#[derive(Clone, Copy)]
pub struct Tester<'m> {
    pub context: &'m Ctx,
    pub index: &'m Index,
    pub most: u64,
}

/// Whether a term is normal.
#[derive(Clone, Copy)]
pub enum Normal {
    Yes,
    /// It is reducible.
    No,
    /// The test stopped.
    Stopped,
}

/// Whether a term is normal, where so many conditions may stand inside one another.
pub fn test_normal(
    alloc: Global,
    tester: &Tester<'_>,
    term: &Term,
    rank: u8,
) -> Result<Normal, AllocError>
    requires rank { rank ≤ 63 }
    requires most { 1 ≤ tester.now.most }
    requires index { IsIndexOf tester.now.context.now tester.now.index.now }
    requires admitted { IsAdmittedTerm tester.now.context.now.signature term.now }
    ensures { IfOk result (IsTold tester.now.context.now tester.now.most rank term.now) }
{
    let budget = Budget {
        steps: tester.most,
        side: tester.most,
        nest: rank,
    };
    match is_normal(alloc, tester.context, tester.index, term, budget)? {
        Normality::Yes => Ok(Normal::Yes),
        Normality::No => Ok(Normal::No),
        Normality::Stopped(_) => Ok(Normal::Stopped),
    }
}
