// Whole proof texts.
ghost use Rattle.std.specs.Prelude.{◌≡◌, ◌≤◌, ℕ, suc, IfOk};
ghost use Rattle.mw_logic.specs.Module.{Module};
ghost use Rattle.mw_logic.specs.WellFormed.{IsWellFormed};
ghost use Rattle.mw_canon.specs.Canonical.{IsAdmittedTerm};
ghost use Rattle.mw_deduction.specs.Runs.{Dones};
ghost use Rattle.mw_index.specs.Index.{IsIndexOf};
ghost use Rattle.mw_proof.specs.Counting.{capped};
ghost use Rattle.mw_items.specs.Items.{Items};
ghost use Rattle.mw_items.specs.Entries.{entries_of};
ghost use Rattle.mw_verdict.specs.Checks.{Checks};
ghost use Rattle.mw_verdict.specs.Verdicts.{number_of};
ghost use Rattle.mw_check.specs.Chains.{HaveAdmittedValues};
ghost use Rattle.mw_check.specs.Whole.{IsVerdictOf};

use crate::answer::{Answer, Cause};
use crate::chains::item;
use crate::normal::Tester;
use mw_index::Index;
use mw_items::ProofText;
use mw_least::Ctx;
use mw_term::{Term, copy, same};
use std::alloc::{AllocError, Global};

/// How many conditions may stand inside one another.
const RANK: u8 = 63;

/// What a proof text is found to be.
#[derive(Drop)]
pub enum Verdict {
    /// A deduction from the one term to the other, with so many replacements, up to 2^64 - 1.
    Yes { from: Term, to: Term, count: u64 },
    /// Not accepted: the number of the first item that is at fault, from 1, or one more than the last where the last
    /// term is another; and why.
    No { step: u64, cause: Cause },
}

/// Checks a proof text, whose items are told at most so many steps for each side of a condition in a test of normality.
/// What no text has, as a group without a step, counts as want of memory.
pub fn check(
    alloc: Global,
    context: &Ctx,
    index: &Index,
    text: &ProofText,
    most: u64,
) -> Result<Verdict, AllocError>
    requires most { 1 ≤ most }
    requires index { IsIndexOf context.now index.now }
    requires from { IsAdmittedTerm context.now.signature text.now.from }
    requires to { IsAdmittedTerm context.now.signature text.now.to }
    requires values { HaveAdmittedValues context.now.signature text.now.entries }
    ensures { (items : Items) → text.now.entries ≡ entries_of items
        → IfOk result (IsVerdictOf context.now most text.now.from text.now.to items) }
{
    context.shows();
    let tester = Tester {
        context,
        index,
        most,
    };
    let mut term = copy(&text.from)?;
    let mut entries = text.entries.as_slice();
    let mut step = 1;
    let mut count: u64 = 0;
    while !entries.is_empty() {
        let (answer, behind) = item(alloc, &tester, entries, &term, RANK)?;
        match answer {
            Answer::Refused(cause) => return Ok(Verdict::No { step, cause }),
            Answer::Stopped(_) => {
                return Ok(Verdict::No {
                    step,
                    cause: Cause::Stopped,
                });
            }
            Answer::Passed(next, replacements) => {
                term = next;
                entries = behind;
                step += 1;
                count = count.saturating_add(replacements);
            }
        }
    }
    at_end(text, &term, step, count)
}

/// What a text is found to be whose items are checked and lead to this term.
fn at_end(text: &ProofText, term: &Term, step: u64, count: u64) -> Result<Verdict, AllocError>
    ensures { (M : Module) (most r c : ℕ) (items : Items) (run : Dones) → IsWellFormed M
        → IsAdmittedTerm M.signature text.now.from → Checks M 63 items text.now.from term.now r c run
        → step ≡ suc (number_of items) → count ≡ capped c
        → IfOk result (IsVerdictOf M most text.now.from text.now.to items) }
{
    if !same(term, &text.to) {
        return Ok(Verdict::No {
            step,
            cause: Cause::End,
        });
    }
    let from = copy(&text.from)?;
    let to = copy(&text.to)?;
    Ok(Verdict::Yes { from, to, count })
}
