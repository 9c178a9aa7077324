// Equations and rules.
ghost use Rattle.std.specs.Prelude.{◌≡◌};

use crate::{Raw, Seq, Sorted, VarId};
use std::marker::Model;

/// One fragment of a condition.
#[derive(Drop)]
pub enum Fragment {
    /// `u = v`.
    Equal(Raw, Raw),
    /// `p := t`.
    Match(Raw, Raw),
    /// `t : S`.
    HasSort(Raw, Sorted),
    /// A Boolean term.
    Holds(Raw),
}

/// An equation or a rule.
#[derive(Drop)]
pub struct Statement {
    pub left: Raw,
    pub right: Raw,
    /// The condition, from left to right.
    pub fragments: Seq<Fragment>,
    /// In order of first mention, in the left side, the right side and the fragments.
    pub variables: Seq<VarId>,
    pub rule: bool,
    /// A statement that isn't is kept, and never applied.
    pub executable: bool,
    /// An equation that applies only where no ordinary one does.
    pub owise: bool,
}

impl Model for Statement {
    ghost use Rattle.std.specs.Prelude.{map};
    ghost use Rattle.std.specs.Coded.{codes};
    ghost use Rattle.mw_logic.specs.TermCode.{coded_term, coded_variable};
    ghost use Rattle.mw_logic.specs.Module.{Statement as StatementOf};

    ghost Value = { StatementOf };

    ghost coded = { Prim.hlevel (codes, coded_term, coded_variable) };

    ghost use Rattle.mw_term.specs.Raws.{raw_term};
    ghost use Rattle.mw_term.specs.Statements.{fragment_of};

    ghost view = { λ s. record { left = raw_term s.left; right = raw_term s.right; fragments = map fragment_of s.fragments; variables = s.variables; rule = s.rule; executable = s.executable; owise = s.owise } };
}
