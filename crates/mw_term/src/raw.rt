// Terms as they are written: patterns and the sides of statements.
ghost use Rattle.std.specs.Prelude.{◌≡◌, List};
ghost use Rattle.mw_logic.specs.Term.{is_ground, are_ground};
ghost use Rattle.mw_term.specs.Raws.{raw_term, raw_terms};

use crate::{Name, OpId, SortId};
use std::marker::Model;

/// A variable: its name and its sort. Two variables of one name and different sorts are different.
#[derive(Drop)]
pub struct VarId {
    pub name: Name,
    pub sort: SortId,
}

impl Model for VarId {
    ghost use Rattle.mw_logic.specs.Term.{Variable};
    ghost use Rattle.mw_logic.specs.TermCode.{coded_variable};

    ghost Value = { Variable };

    ghost coded = { coded_variable };

    ghost view = { λ x. record { name = x.name; sort = x.sort } };
}

/// A term as it is written, with variables or without. Three or more arguments of an associative operator stand
/// for nesting to the right.
#[derive(Drop)]
#[cycle(raw)]
pub enum Raw {
    /// A numeral.
    Nat(u128),
    /// A quoted identifier, by its bytes, the quote among them.
    Qid(Name),
    /// A variable.
    Var(VarId),
    /// An operator on its arguments.
    Op(OpId, Raws),
}

/// The arguments of an operator.
#[derive(Drop)]
#[cycle(raw)]
pub struct Raws {
    list: Vec<Raw>,
}

impl Model for Raws {
    ghost use Rattle.mw_logic.specs.Term.{RawTerms};
    ghost use Rattle.mw_logic.specs.TermCode.{coded_terms};
    ghost use Rattle.mw_logic.specs.NormalForm.{highest};
    ghost use Rattle.std.specs.Prelude.{◌+◌, ◌*◌};

    ghost Value = { RawTerms };

    ghost coded = { coded_terms };

    ghost use Rattle.mw_term.specs.Raws.{raw_terms};

    ghost view = { λ a. raw_terms a.list.items };

    ghost size = { λ ts. 2 * highest ts + 1 };

    ghost use Rattle.std.proofs.Common.{arith};
    ghost use Rattle.mw_term.specs.RawFalls.{raws_fall};

    ghost size_decreases = { λ a h. Prim.omega (arith, raws_fall a.list.items) };
}

impl Raws {
    /// The arguments that a vector holds. It takes no memory.
    pub fn of(list: Vec<Raw>) -> Raws
        ensures { result ≡ raw_terms list.items }
    {
        Raws { list }
    }

    /// The arguments.
    pub fn as_slice(&self) -> &[Raw]
        ensures { raw_terms result.now ≡ self.now }
    {
        self.list.as_slice()
    }
}

impl Raw {
    /// Whether no variable stands in it.
    #[cycle(ground)]
    pub fn is_ground(&self) -> bool
        ensures { result ≡ is_ground (raw_term self.now) }
    {
        match self {
            Raw::Var(_) => false,
            Raw::Op(_, args) => are_ground(args.as_slice()),
            _ => true,
        }
    }
}

#[cycle(ground)]
fn are_ground(terms: &[Raw]) -> bool
    ensures { result ≡ are_ground (raw_terms terms.now) }
{
    let mut rest = terms;
    while let [term, after @ ..] = rest {
        if !term.is_ground() {
            return false;
        }
        rest = after;
    }
    true
}
