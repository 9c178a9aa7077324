// Patterns, whose variables are numbered by position.
ghost use Rattle.std.specs.Prelude.{◌≡◌, ◌-◌, ◌^◌, min};
ghost use Rattle.mw_logic.specs.NormalForm.{height, highest};
ghost use Rattle.mw_position.specs.Positions.{fill, fill_all};
ghost use Rattle.mw_pattern.specs.Clean.{clean, clean_all};

use mw_term::{Name, OpId, Term, depth};
use std::marker::Model;

#[derive(Drop)]
#[cycle(pattern)]
pub enum Pattern {
    /// A numeral.
    Nat(u128),
    /// A quoted identifier, by its bytes, the quote among them.
    Qid(Name),
    /// The variable of this position.
    Var(usize),
    Op(OpId, Patterns),
}

/// A list of patterns, which contracts see as the terms that they mean.
#[derive(Drop)]
#[cycle(pattern)]
pub struct Patterns {
    list: Vec<Pattern>,
}

impl Model for Patterns {
    ghost use Rattle.mw_logic.specs.Term.{RawTerms};
    ghost use Rattle.mw_logic.specs.TermCode.{coded_terms};
    ghost use Rattle.mw_logic.specs.NormalForm.{highest};
    ghost use Rattle.std.specs.Prelude.{◌+◌, ◌*◌};

    ghost Value = { RawTerms };

    ghost coded = { coded_terms };

    ghost use Rattle.mw_pattern.specs.Clean.{clean_all};

    ghost view = { λ a. clean_all a.list.items };

    ghost size = { λ ts. 2 * highest ts + 1 };

    ghost use Rattle.std.proofs.Common.{arith};
    ghost use Rattle.mw_pattern.specs.Falls.{all_fall};

    ghost size_decreases = { λ a h. Prim.omega (arith, all_fall a.list.items) };
}

impl Patterns {
    pub fn new(list: Vec<Pattern>) -> Patterns
        ensures { result ≡ clean_all list.items }
    {
        Patterns { list }
    }

    pub fn slice(&self) -> &[Pattern]
        ensures { clean_all result.now ≡ self.now }
    {
        self.list.as_slice()
    }
}

/// The depth of the instance.
#[cycle(depth_at)]
pub fn depth_at(pattern: &Pattern, values: &[Term]) -> u16
    ensures { result ≡ min (height (fill values.now (clean pattern.now))) (2 ^ 16 - 1) }
{
    match pattern {
        Pattern::Nat(_) | Pattern::Qid(_) => 1,
        Pattern::Var(i) => match values.get(*i) {
            Some(value) => depth(value),
            None => 1,
        },
        Pattern::Op(_, args) => args.deepest_at(values).saturating_add(1),
    }
}

impl Patterns {
    #[cycle(depth_at)]
    pub fn deepest_at(&self, values: &[Term]) -> u16
        ensures { result ≡ min (highest (fill_all values.now self.now)) (2 ^ 16 - 1) }
    {
        let mut most = 0;
        for p in &self.list {
            most = most.max(depth_at(p, values));
        }
        most
    }
}
