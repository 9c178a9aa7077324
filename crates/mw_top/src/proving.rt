// Proof texts, read and checked in their modules.
ghost use Rattle.std.specs.Prelude.{◌≡◌, ◌≤◌, ℕ, List, IfOk, MatchOption, Some};
ghost use Rattle.mw_module.specs.Words.{texts};
ghost use Rattle.mw_build.specs.Modules.{Accepted};
ghost use Rattle.mw_items.specs.Items.{Items};
ghost use Rattle.mw_items.specs.Entries.{entries_of};
ghost use Rattle.mw_check.specs.Whole.{IsVerdictOf};
ghost use Rattle.mw_top.specs.Commands.{module_named};
ghost use Rattle.mw_top.specs.Proofs.{HasAdmittedTerms, HasName, IsProofAnswer};

use mw_build::Module;
use mw_check::{Cause, Verdict, check};
use mw_index::Index;
use mw_items::ProofText;
use mw_lex::Token;
use mw_proofread::{ReadError, read};
use std::alloc::{AllocError, Global};

/// The module's name in the first words of a proof text.
pub fn named_module(tokens: &[Token]) -> Option<&Token>
    ensures { MatchOption result ((name : List ℕ) → ¬ HasName (texts tokens.now) name) (λ t. HasName
        (texts tokens.now) t.now.text) }
{
    let [first, _, second, name, ..] = tokens else {
        return None;
    };
    if first.text.as_slice() == "proof".as_bytes() && second.text.as_slice() == "in".as_bytes() {
        Some(name)
    } else {
        None
    }
}

/// The verdict on a proof text that was read, by the index of the module's equations.
fn checked(
    alloc: Global,
    accepted: &Module,
    text: &ProofText,
    max: u64,
) -> Result<Verdict, AllocError>
    requires max { 1 ≤ max }
    requires text { HasAdmittedTerms accepted.now.module.signature text.now }
    ensures { (items : Items) → text.now.entries ≡ entries_of items → IfOk result
        (IsVerdictOf accepted.now.module max text.now.from text.now.to items) }
{
    let context = accepted.context();
    if let Some(index) = accepted.index() {
        return check(alloc, context, index, text, max);
    }
    let index = Index::of(alloc, context)?;
    check(alloc, context, &index, text, max)
}

/// The verdict on the proof text that the tokens are, in this module.
pub fn judged(
    alloc: Global,
    accepted: &Module,
    tokens: &[Token],
    max: u64,
) -> Result<Verdict, AllocError>
    requires { 1 ≤ max }
    ensures { (ms : List Accepted) (name : List ℕ) → HasName (texts tokens.now) name → module_named ms name
        ≡ Some accepted.now → IfOk result (IsProofAnswer ms max tokens.now) }
{
    match read(alloc, accepted.context(), tokens) {
        Ok(text) => checked(alloc, accepted, &text, max),
        Err(ReadError::Outside { step }) => Ok(Verdict::No {
            step,
            cause: Cause::Text,
        }),
        Err(ReadError::Memory(error)) => Err(error),
    }
}
