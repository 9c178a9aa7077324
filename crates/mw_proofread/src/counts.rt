// How many values and groups a statement takes.
ghost use Rattle.std.specs.Prelude.{◌≡◌, ℕ, length, map, option_map};
ghost use Rattle.mw_logic.specs.Signature.{at_number};
ghost use Rattle.mw_deduction.specs.Replay.{all_sides};
ghost use Rattle.mw_term.specs.Statements.{fragment_of};
ghost use Rattle.mw_proofread.specs.Numbers.{saturated};
ghost use Rattle.mw_proofread.specs.Reading.{values_of, groups_of};

use mw_least::Ctx;
use mw_term::{Fragment, Statement};

/// How many values and groups the items of a statement have; none where any number may be.
#[derive(Clone, Copy)]
pub struct Counts {
    pub values: Option<u64>,
    pub groups: Option<u64>,
}

/// How many sides the fragments have.
fn sides(fragments: &[Fragment]) -> u64
    ensures { result ≡ length (all_sides (map fragment_of fragments.now)) }
{
    let mut count = 0;
    let mut rest = fragments;
    while let [fragment, behind @ ..] = rest {
        count += match fragment {
            Fragment::Equal(_, _) => 2,
            _ => 1,
        };
        rest = behind;
    }
    count
}

/// What has this number among items that count from 1.
fn numbered<T>(items: &[T], number: usize) -> Option<&T>
    ensures { option_map (λ x. x.now) result ≡ at_number items.now number }
{
    if number == 0 {
        return None;
    }
    items.get(number - 1)
}

/// The statement of this number, if there is one.
fn statement_at(ctx: &Ctx, number: u64) -> Option<&Statement>
    ensures { (k : ℕ) → number ≡ saturated k → option_map (λ s. s.now) result ≡ at_number ctx.now.statements k }
{
    numbered(ctx.statements(), number as usize)
}

/// How many its items have.
pub fn counts_of(ctx: &Ctx, number: u64) -> Counts
    ensures values { (k : ℕ) → number ≡ saturated k → result.values ≡ values_of ctx.now k }
    ensures groups { (k : ℕ) → number ≡ saturated k → result.groups ≡ groups_of ctx.now k }
{
    match statement_at(ctx, number) {
        Some(statement) => Counts {
            values: Some(statement.variables.as_slice().len() as u64),
            groups: Some(sides(statement.fragments.as_slice())),
        },
        None => Counts {
            values: None,
            groups: None,
        },
    }
}
