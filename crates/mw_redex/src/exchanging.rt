// Terms with another in place of some of them.
ghost use Rattle.std.specs.Prelude.{◌≡◌, ◌+◌, ◌≤◌, drop, length, IfOk, OnOk};
ghost use Rattle.mw_arguments.specs.Places.{others};
ghost use Rattle.mw_logic.specs.Term.{join};
ghost use Rattle.mw_logic.specs.Terms.{terms_of};
ghost use Rattle.mw_redex.specs.Replaced.{exchanged};

use mw_term::{Term, copy};
use std::alloc::{AllocError, Global};

/// The terms with another in place of those that have these numbers, counted from 1: it stands where the first of them
/// stood. The others are copied, by one count each.
pub(crate) fn exchange(
    alloc: Global,
    terms: &[Term],
    first: u32,
    more: &[u32],
    with: Term,
) -> Result<Vec<Term>, AllocError>
    ensures { IfOk result (λ made. terms_of made.items ≡ exchanged 1 first more.now with (terms_of terms.now)) }
{
    let mut made = Vec::with_capacity(alloc, terms.len())?;
    for (i, term) in terms.iter().enumerate() {
        if i + 1 == first as usize {
            made.push(with)?;
            push_others(&mut made, terms, i + 1, more)?;
            return Ok(made);
        }
        let term = copy(term)?;
        made.push(term)?;
    }
    made.push(with)?;
    Ok(made)
}

/// Puts the terms from an index on behind others, but for those that have these numbers.
fn push_others(
    made: &mut Vec<Term>,
    terms: &[Term],
    from: usize,
    numbers: &[u32],
) -> Result<(), AllocError>
    requires { from ≤ length terms.now }
    ensures { OnOk result (terms_of made.new.items ≡ join (terms_of made.old.items) (others (from + 1) numbers.now (terms_of (drop from terms.now)))) }
{
    let mut rest = numbers;
    for i in from..terms.len() {
        match rest {
            [next, more @ ..] if *next as usize == i + 1 => rest = more,
            _ => {
                let term = copy(&terms[i])?;
                made.push(term)?;
            }
        }
    }
    Ok(())
}
