// Goals, and what becomes of them.
ghost use Rattle.std.specs.Prelude.{◌≡◌, IfOk};

use crate::shares::Shares;
use mw_term::{Term, copy};
use std::alloc::{AllocError, Global};

/// What is still to be met.
#[derive(Drop)]
pub enum Goal {
    /// A pattern by a term.
    Meet(Term, Term),
    /// The arguments of a pattern from this one on by those of a term from this one on.
    Args(Term, Term, usize),
    /// The arguments of a pattern from this one on by the elements of a row from that one on.
    Row(Term, usize, Term, usize),
    /// The arguments of a pattern from this one on by all elements of a multiset.
    Bag(Term, usize, Term),
    /// The arguments of a pattern from this one on by the elements of a multiset but the one at that index.
    Left(Term, usize, Term, usize),
}

/// What becomes of a goal.
#[derive(Drop)]
pub enum Outcome {
    Fails,
    Holds,
    /// It holds with this value for the next position.
    Binds(Term),
    Becomes(Goal),
    /// The pattern by the term, and then the goal.
    First(Term, Term, Goal),
    /// The pattern by each share's term, and then the share's goal.
    Opens(Term, Shares),
}

fn copied(goal: &Goal) -> Result<Goal, AllocError>
    ensures { IfOk result (λ g. g ≡ goal.now) }
{
    match goal {
        Goal::Meet(pattern, term) => Ok(Goal::Meet(copy(pattern)?, copy(term)?)),
        Goal::Args(pattern, term, at) => Ok(Goal::Args(copy(pattern)?, copy(term)?, *at)),
        Goal::Row(pattern, at, row, from) => Ok(Goal::Row(copy(pattern)?, *at, copy(row)?, *from)),
        Goal::Bag(pattern, at, bag) => Ok(Goal::Bag(copy(pattern)?, *at, copy(bag)?)),
        Goal::Left(pattern, at, bag, gone) => {
            Ok(Goal::Left(copy(pattern)?, *at, copy(bag)?, *gone))
        }
    }
}

pub fn all_copied(alloc: Global, goals: &[Goal]) -> Result<Vec<Goal>, AllocError>
    ensures { IfOk result (λ gs. gs.items ≡ goals.now) }
{
    let mut made = Vec::with_capacity(alloc, goals.len())?;
    for goal in goals {
        made.push(copied(goal)?)?;
    }
    Ok(made)
}
