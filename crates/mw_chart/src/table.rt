// A grammar as a table of states.
use crate::corners::corners_of;
use std::alloc::{AllocError, Global};

/// What comes next at a state.
#[derive(Clone, Copy)]
pub enum Next {
    /// A token, and the state behind it.
    Token { token: u32, next: usize },
    /// A text of a kind, of a precedence below a number, and the state behind it.
    Hole { kind: u32, below: u32, next: usize },
    /// Nothing: the text is whole, of a kind, at a precedence.
    Whole { kind: u32, precedence: u32 },
}

/// Where an operator's texts begin.
#[derive(Clone, Copy)]
pub struct Production {
    pub state: usize,
    pub operator: u32,
}

/// Starts, found by what comes first: the lists of those with a token, at its number, and of those with a hole, at the
/// number of its kind.
#[derive(Drop)]
pub struct LeftCorners {
    pub by_token: Vec<Vec<Production>>,
    pub by_kind: Vec<Vec<Production>>,
}

/// A grammar: what comes next at each state, and where texts begin.
#[derive(Drop)]
pub struct Table {
    pub steps: Vec<Next>,
    pub productions: Vec<Production>,
    pub corners: LeftCorners,
    /// For each kind the state of a text in parentheses.
    pub groups: Vec<usize>,
    pub open: u32,
    pub close: u32,
    /// Kinds up to this one are kinds of trees; those beyond are kinds of parts of texts.
    pub kinds: u32,
}

impl Table {
    ghost use Rattle.std.specs.Prelude.{◌≡◌, IfOk};
    ghost use Rattle.mw_chart.specs.Spelling.{AreCornersOf};

    /// A table, with the left corners of its productions: as many lists as the largest number that comes first.
    pub fn new(
        alloc: Global,
        steps: Vec<Next>,
        productions: Vec<Production>,
        groups: Vec<usize>,
        open_token: u32,
        close_token: u32,
        kinds: u32,
    ) -> Result<Table, AllocError>
        ensures steps { IfOk result (λ g. g.steps ≡ steps) }
        ensures productions { IfOk result (λ g. g.productions ≡ productions) }
        ensures indexed { IfOk result (λ g. AreCornersOf g.steps.items g.productions.items g.corners) }
        ensures groups { IfOk result (λ g. g.groups ≡ groups) }
        ensures parentheses { IfOk result (λ g. (g.open ≡ open_token) × (g.close ≡ close_token)) }
        ensures kinds { IfOk result (λ g. g.kinds ≡ kinds) }
    {
        let corners = corners_of(alloc, steps.as_slice(), productions.as_slice())?;
        Ok(Table {
            open: open_token,
            close: close_token,
            steps,
            productions,
            corners,
            groups,
            kinds,
        })
    }
}
