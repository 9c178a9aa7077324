// Substitutions.
use crate::{Seq, Term, VarId};
use std::marker::Model;

/// A variable and its value.
#[derive(Drop)]
pub struct Binding {
    pub variable: VarId,
    pub value: Term,
}

/// A finite map from variables to terms.
#[derive(Drop)]
pub struct Subst {
    pub pairs: Seq<Binding>,
}

impl Model for Subst {
    ghost use Rattle.std.specs.Prelude.{map};
    ghost use Rattle.std.specs.Coded.{codes};
    ghost use Rattle.mw_logic.specs.TermCode.{coded_term, coded_variable};
    ghost use Rattle.mw_logic.specs.Substitution.{Substitution};

    ghost Value = { Substitution };

    ghost coded = { Prim.hlevel (codes, coded_term, coded_variable) };

    ghost use Rattle.mw_term.specs.declared.subst.Binding.{Binding};

    ghost view = { λ s. map (λ (b : Binding). (b.variable, b.value)) s.pairs };
}
