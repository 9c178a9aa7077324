// Starts, listed by the token or the kind of the hole that comes first.
ghost use Rattle.std.specs.Prelude.{◌≡◌, IfOk};
ghost use Rattle.mw_chart.specs.Listed.{Joins};
ghost use Rattle.mw_chart.specs.Spelling.{BeginsWith, OpensWith, AreCornersOf};

use crate::cell::next_in;
use crate::numbered::join;
use crate::table::{LeftCorners, Next, Production};
use std::alloc::{AllocError, Global};

/// Puts a production into the list of what comes first at it.
fn join_first(
    alloc: Global,
    steps: &[Next],
    production: Production,
    corners: &mut LeftCorners,
) -> Result<(), AllocError>
    ensures by_token { IfOk result (λ _. Joins (BeginsWith steps.now production) production corners.old.by_token.items corners.new.by_token.items) }
    ensures by_kind { IfOk result (λ _. Joins (OpensWith steps.now production) production corners.old.by_kind.items corners.new.by_kind.items) }
{
    match next_in(steps, production.state) {
        Some(Next::Token { token, next: _next }) => join(
            alloc,
            &mut corners.by_token,
            token as usize,
            production,
        ),
        Some(
            Next::Hole {
                kind,
                below: _below,
                next: _next,
            },
        ) => join(alloc, &mut corners.by_kind, kind as usize, production),
        Some(
            Next::Whole {
                kind: _kind,
                precedence: _precedence,
            },
        ) => Ok(()),
        None => Ok(()),
    }
}

/// The left corners of these productions.
pub fn corners_of(
    alloc: Global,
    steps: &[Next],
    productions: &[Production],
) -> Result<LeftCorners, AllocError>
    ensures { IfOk result (AreCornersOf steps.now productions.now) }
{
    let mut corners = LeftCorners {
        by_token: Vec::new(alloc),
        by_kind: Vec::new(alloc),
    };
    for production in productions {
        join_first(alloc, steps, *production, &mut corners)?;
    }
    Ok(corners)
}
