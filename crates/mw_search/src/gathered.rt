// Multisets, and what is known of the order of their elements.
ghost use Rattle.std.specs.Prelude.{◌≡◌, ◌+◌, ◌<◌, IsTrue, IsFalse, IfOk, length, true, false};
ghost use Rattle.mw_logic.specs.Terms.{args_of, terms_of};
ghost use Rattle.mw_logic.specs.Parts.{number_of_terms};
ghost use Rattle.mw_logic.proofs.SortedLists.{Climbs};
ghost use Rattle.mw_arguments.specs.Bags.{same};
ghost use Rattle.mw_matching.specs.Multisets.{is_new, term_at};
ghost use Rattle.mw_search.specs.Bags.{IsAlone};

use crate::terms::is_same;
use mw_term::{Term, compare, copy};
use std::alloc::AllocError;
use std::marker::Model;

/// A multiset, as an operator on its elements. Contracts see that term.
#[derive(Drop)]
pub struct Gathered {
    term: Term,
    /// Whether the elements are known to stand in order.
    in_order: bool,
}

impl Model for Gathered {
    ghost use Rattle.std.specs.Prelude.{◌≡◌, true};
    ghost use Rattle.mw_logic.specs.Term.{RawTerm};
    ghost use Rattle.mw_logic.specs.TermCode.{coded_term};
    ghost use Rattle.mw_logic.specs.Terms.{args_of};
    ghost use Rattle.mw_logic.proofs.SortedLists.{Climbs};

    ghost Value = { RawTerm };

    ghost coded = { coded_term };

    ghost view = { λ g. g.term };

    ghost invariant = { λ g. g.in_order ≡ true → Climbs (args_of g.term) };
}

impl Gathered {
    /// The multiset of a term's arguments. Whether they stand in order is looked at where that is asked for.
    pub fn of(term: Term, ask: bool) -> Gathered
        ensures { result ≡ term }
    {
        let in_order = ask && climb(term.arguments());
        Gathered { term, in_order }
    }

    pub fn elements(&self) -> &[Term]
        ensures { terms_of result.now ≡ args_of self.now }
    {
        self.term.arguments()
    }

    pub fn copied(&self) -> Result<Term, AllocError>
        ensures { IfOk result (λ t. t ≡ self.now) }
    {
        copy(&self.term)
    }

    /// Whether an element that differs from the one before is known to stand there once.
    pub fn is_alone(&self, at: usize) -> bool
        requires here { at < number_of_terms (args_of self.now) }
        requires new { is_new (args_of self.now) at ≡ true }
        ensures { IsTrue result → IsAlone (args_of self.now) at }
    {
        self.in_order && !has_equal_behind(self.term.arguments(), at)
    }
}

/// Whether terms stand in order.
fn climb(terms: &[Term]) -> bool
    ensures { IsTrue result → Climbs (terms_of terms.now) }
{
    terms.is_sorted_by(|a, b| !compare(a, b).is_gt())
}

/// Whether the term behind one is the same.
fn has_equal_behind(terms: &[Term], at: usize) -> bool
    requires { at < length terms.now }
    ensures { let zs = terms_of terms.now in
        IsFalse result → at + 1 < length terms.now → same (term_at (at + 1) zs) (term_at at zs) ≡ false }
{
    match terms.get(at + 1) {
        Some(behind) => is_same(behind, &terms[at]),
        None => false,
    }
}
