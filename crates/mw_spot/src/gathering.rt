// Levels of one operator are put together.
ghost use Rattle.std.specs.Prelude.{◌≡◌, ◌≤◌, ◌∷◌, ◌++◌, List, All, drop, length, reverse, IfOk, OnOk};
ghost use Rattle.mw_logic.specs.Term.{join};
ghost use Rattle.mw_logic.specs.Terms.{terms_of};
ghost use Rattle.mw_logic.proofs.Canonical.{IsCanonical};
ghost use Rattle.mw_deduction.specs.Standing.{Open, AreClear};
ghost use Rattle.mw_deduction.specs.Replay.{whole};
ghost use Rattle.mw_spot.specs.Spots.{AreMore, IsAnother, all_before, all_after};

use crate::level::Level;
use mw_canon::{Axioms, Facts, rebuild};
use mw_term::{OpId, Term, copy};
use std::alloc::{AllocError, Global};

/// Where the innermost of these levels begin that are of this operator, if it is associative; else the number of all.
pub(crate) fn outside(facts: &Facts, operator: OpId, levels: &[Level]) -> usize
    ensures bound { result ≤ length levels.now }
    ensures more { All (IsAnother facts.now operator) (drop result levels.now) }
{
    let Axioms::Associative { .. } = facts.axioms(operator) else {
        return levels.len();
    };
    let mut rest = levels;
    while let [before @ .., level] = rest {
        if level.operator != operator {
            return rest.len();
        }
        rest = before;
    }
    0
}

/// What these levels, which are of this operator, are with a term in the innermost hole. It is made at once, of copies.
pub(crate) fn gathered(
    alloc: Global,
    facts: &Facts,
    operator: OpId,
    levels: &[Level],
    term: Term,
) -> Result<Term, AllocError>
    ensures { (o : Open) (os : List Open) → reverse levels.now ≡ o ∷ os → o.operator ≡ operator
        → AreMore facts.now operator os → AreClear facts.now (o ∷ os) → IsCanonical facts.now term
        → IfOk result (λ t. t ≡ whole facts.now (o ∷ os) term) }
{
    facts.shows();
    let mut args = copies_before(alloc, levels)?;
    args.push(term)?;
    push_after(&mut args, levels)?;
    let term = rebuild(alloc, facts, operator, args)?;
    Ok(term)
}

/// The arguments before the holes, from the outermost level on.
fn copies_before(alloc: Global, levels: &[Level]) -> Result<Vec<Term>, AllocError>
    ensures { IfOk result (λ args. terms_of args.items ≡ all_before (reverse levels.now)) }
{
    let mut args = Vec::new(alloc);
    for level in levels {
        push_copies(&mut args, &level.others[..level.at])?;
    }
    Ok(args)
}

/// The arguments behind the holes come, from the innermost level on.
fn push_after(args: &mut Vec<Term>, levels: &[Level]) -> Result<(), AllocError>
    ensures { OnOk result (terms_of args.new.items ≡ join (terms_of args.old.items) (all_after (reverse levels.now))) }
{
    let mut rest = levels;
    while let [before @ .., level] = rest {
        push_copies(args, &level.others[level.at..])?;
        rest = before;
    }
    Ok(())
}

/// Copies of terms come.
fn push_copies(args: &mut Vec<Term>, terms: &[Term]) -> Result<(), AllocError>
    ensures { OnOk result (args.new.items ≡ args.old.items ++ terms.now) }
{
    for term in terms {
        args.push(copy(term)?)?;
    }
    Ok(())
}
