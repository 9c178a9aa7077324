// Several arguments are parted from the others.
ghost use Rattle.std.specs.Prelude.{◌≡◌, IfOk};
ghost use Rattle.mw_arguments.specs.Places.{chosen};
ghost use Rattle.mw_logic.specs.Term.{apply as applied};
ghost use Rattle.mw_logic.specs.Terms.{terms_of};
ghost use Rattle.mw_spot.specs.Walks.{IsLeft};

use crate::level::Level;
use mw_term::{OpId, Term};
use std::alloc::{AllocError, Global};

/// The operator on those arguments that have these numbers, which rise, and the level that is left of it. Arguments are
/// moved.
pub(crate) fn parted(
    alloc: Global,
    operator: OpId,
    args: Vec<Term>,
    first: u32,
    numbers: &[u32],
) -> Result<(Term, Level), AllocError>
    ensures term { IfOk result (λ (term, _). term ≡ applied operator (chosen 1 numbers.now (terms_of args.items))) }
    ensures level { IfOk result (λ (_, level). IsLeft operator first numbers.now (terms_of args.items) level) }
{
    let mut taken = Vec::new(alloc);
    let mut others = Vec::with_capacity(alloc, args.len())?;
    let mut rest = numbers;
    for (i, term) in args.into_iter().enumerate() {
        match rest {
            [next, more @ ..] if *next as usize == i + 1 => {
                taken.push(term)?;
                rest = more;
            }
            _ => others.push(term)?,
        }
    }
    let at = (first as usize).saturating_sub(1).min(others.len());
    let level = Level {
        operator,
        others,
        at,
    };
    let term = Term::apply(alloc, operator, taken)?;
    Ok((term, level))
}
