// Long lists of terms, which nodes share.
ghost use Rattle.std.specs.Prelude.{◌≡◌, ◌≤◌, ◌+◌, ◌++◌, ℕ, drop, length, IfOk, IsTrue};
ghost use Rattle.mw_logic.specs.Term.{RawTerms};
ghost use Rattle.mw_logic.specs.Terms.{terms_of};
ghost use Rattle.mw_logic.specs.NormalForm.{highest};
ghost use Rattle.mw_logic.specs.Parts.{number_of_terms};
ghost use Rattle.mw_term.specs.Facts.{facts_of_all};
ghost use Rattle.mw_term.specs.Hashes.{hash_sum as sum_of};
ghost use Rattle.mw_term.specs.Sections.{AreTold, HasAll, IsLight, IsTold, TellsRest, told_by};
ghost use Rattle.mw_term.specs.Shapes.{shown};
ghost use Rattle.mw_term.specs.Weights.{added_by, heaviest};

use crate::Term;
use crate::facts::Facts;
use crate::told::{Told, add_front, add_last, all_told};
use std::alloc::{AllocError, Global};

/// Shorter lists aren't shared.
pub(crate) const LONG: usize = 8;

/// A list with what its last terms tell: none of them, one, and so on.
#[derive(Drop)]
#[cycle(term)]
pub(crate) struct Shared {
    pub(crate) terms: Vec<Term>,
    pub(crate) told: Vec<Told>,
}

impl Shared {
    pub(crate) fn of(alloc: Global, terms: Vec<Term>) -> Result<Shared, AllocError>
        ensures terms { IfOk result (λ s. s.terms.items ≡ terms.items) }
        ensures told { IfOk result (λ s. IsTold s) }
    {
        let told = all_told(alloc, terms.as_slice())?;
        Ok(Shared { terms, told })
    }

    /// The list behind other terms.
    pub(crate) fn behind(self, front: Vec<Term>) -> Result<Shared, AllocError>
        requires { IsTold self }
        ensures terms { IfOk result (λ s. s.terms.items ≡ front.items ++ self.terms.items) }
        ensures told { IfOk result (λ s. IsTold s) }
    {
        let Shared {
            mut terms,
            mut told,
        } = self;
        let mut front = front;
        let count = front.len();
        add_front(&mut told, front.as_slice(), terms.as_slice())?;
        terms.append(&mut front)?;
        terms.rotate_right(count);
        Ok(Shared { terms, told })
    }

    /// The list before other terms.
    pub(crate) fn before(self, alloc: Global, back: Vec<Term>) -> Result<Shared, AllocError>
        requires { IsTold self }
        ensures terms { IfOk result (λ s. s.terms.items ≡ self.terms.items ++ back.items) }
        ensures told { IfOk result (λ s. IsTold s) }
    {
        let Shared {
            mut terms,
            mut told,
        } = self;
        let mut back = back;
        if let [last] = back.as_slice() {
            add_last(&mut told, terms.as_slice(), last)?;
            terms.append(&mut back)?;
            return Ok(Shared { terms, told });
        }
        terms.append(&mut back)?;
        let list = Shared::of(alloc, terms)?;
        Ok(list)
    }

    /// What the terms from a place on tell.
    #[inline(always)]
    pub(crate) fn told_from(&self, from: usize) -> Told
        requires told { IsTold self.now }
        requires inside { from ≤ length self.now.terms.items }
        ensures { (b : ℕ) → AreTold b self.now.told.items self.now.terms.items → result ≡ told_by b (drop from self.now.terms.items) }
    {
        self.told.as_slice()[self.terms.len() - from]
    }

    /// The terms between two places.
    pub(crate) fn between(&self, from: usize, end: usize) -> &[Term]
        requires ordered { from ≤ end }
        requires inside { end ≤ length self.now.terms.items }
        ensures { result.now ≡ shown self.now from end }
    {
        &self.terms.as_slice()[from..end]
    }

    /// The sum of hashes over them.
    #[inline(always)]
    pub(crate) fn sum_between(&self, from: usize, end: usize) -> u32
        requires told { IsTold self.now }
        requires ordered { from ≤ end }
        requires inside { end ≤ length self.now.terms.items }
        ensures { result ≡ sum_of (terms_of (shown self.now from end)) }
    {
        let rest = self.told_from(from).sum;
        rest.wrapping_sub(self.told_from(end).sum)
    }

    /// The same, taken out.
    pub(crate) fn into_between(self, from: usize, end: usize) -> Result<Vec<Term>, AllocError>
        requires ordered { from ≤ end }
        requires inside { end ≤ length self.terms.items }
        ensures { IfOk result (λ ts. ts.items ≡ shown self from end) }
    {
        let Shared { mut terms, .. } = self;
        terms.truncate(end);
        if from == 0 {
            return Ok(terms);
        }
        let terms = terms.split_off(from)?;
        Ok(terms)
    }

    /// Whether a node may show the terms between two places. They are enough of the list, so that not many others are
    /// held for their sake; they tell all that those from the first place on tell, which is kept; and they outweigh each
    /// term of the list, which a term needs of all that its node holds.
    pub(crate) fn bears(&self, from: usize, end: usize) -> bool
        requires told { IsTold self.now }
        requires ordered { from ≤ end }
        requires inside { end ≤ length self.now.terms.items }
        ensures facts { IsTrue result → TellsRest self.now from end }
        ensures light { IsTrue result → IsLight self.now from end }
    {
        let count = end - from;
        if count < LONG || count < self.terms.len() / 4 {
            return false;
        }
        let told = self.told_from(from).facts;
        outweigh(told, count, self.told_from(0).facts) && self.are_rest(from, end, told)
    }

    /// Whether the terms between two places tell all that those from the first place on tell.
    fn are_rest(&self, from: usize, end: usize, told: Facts) -> bool
        requires ordered { from ≤ end }
        requires inside { end ≤ length self.now.terms.items }
        requires told { told ≡ facts_of_all (terms_of (drop from self.now.terms.items)) }
        ensures { IsTrue result → TellsRest self.now from end }
    {
        end == self.terms.len() || has_all(self.between(from, end), told)
    }
}

/// Whether an operator on terms of which this is told, so many, is heavier than each term of a list, by what the list
/// tells. For that its depth is exact.
fn outweigh(told: Facts, count: usize, list: Facts) -> bool
    requires { 8 ≤ count }
    ensures { IsTrue result → (ts us : RawTerms) → facts_of_all ts ≡ told → number_of_terms ts ≡ count → facts_of_all us ≡ list
        → heaviest us ≤ highest ts + added_by ts }
{
    if list.depth == u16::MAX {
        return false;
    }
    if told.is_flat() {
        list.is_flat() && (list.depth as usize) <= count.saturating_add(told.depth as usize)
    } else {
        list.depth <= told.depth
    }
}

/// Whether terms tell all of this. It ends where those at the front do.
fn has_all(terms: &[Term], facts: Facts) -> bool
    ensures { IsTrue result → HasAll (terms_of terms.now) facts }
{
    let mut all = Facts::of_nothing();
    for term in terms {
        all = all.joined(term.facts());
        if all.is(facts) {
            return true;
        }
    }
    false
}
