// What the last terms of a list tell.
ghost use Rattle.std.specs.Prelude.{◌≡◌, ◌++◌, ◌∷◌, ℕ, List, [], IfOk, OnOk};
ghost use Rattle.mw_logic.specs.Term.{RawTerm};
ghost use Rattle.mw_term.specs.Sections.{AreJoined, IsTable, told_by};

use crate::Term;
use crate::facts::Facts;
use crate::hash::with_first;
use std::alloc::{AllocError, Global};

/// What terms tell: the sum of their scattered hashes, counted from what a list counts from, and their facts.
#[derive(Clone, Copy, Drop)]
pub(crate) struct Told {
    pub(crate) sum: u32,
    pub(crate) facts: Facts,
}

impl Told {
    /// Of no terms.
    pub(crate) fn of_nothing() -> Told
        ensures { result ≡ told_by 0 [] }
    {
        Told {
            sum: 0,
            facts: Facts::of_nothing(),
        }
    }

    /// Of a term and, behind it, of these.
    #[inline(always)]
    pub(crate) fn with_first(self, term: &Term) -> Told
        ensures { (b : ℕ) (ts : List RawTerm) → self ≡ told_by b ts → result ≡ told_by b (term.now ∷ ts) }
    {
        Told {
            sum: with_first(term, self.sum),
            facts: term.facts().joined(self.facts),
        }
    }
}

/// What the last terms of a list tell: none of them, one, and so on.
pub(crate) fn all_told(alloc: Global, terms: &[Term]) -> Result<Vec<Told>, AllocError>
    ensures { IfOk result (λ told. IsTable told.items terms.now) }
{
    let mut told = Vec::with_capacity(alloc, terms.len().saturating_add(1))?;
    told.push(Told::of_nothing())?;
    add_front(&mut told, terms, &[])?;
    Ok(told)
}

/// What is told of a list is told of other terms in front of it too.
pub(crate) fn add_front(
    told: &mut Vec<Told>,
    front: &[Term],
    terms: &[Term],
) -> Result<(), AllocError>
    requires { IsTable told.old.items terms.now }
    ensures { OnOk result (IsTable told.new.items (front.now ++ terms.now)) }
{
    let mut last = told[terms.len()];
    let mut at = front.len();
    while at > 0 {
        at -= 1;
        last = last.with_first(&front[at]);
        told.push(last)?;
    }
    Ok(())
}

/// What is told of a list is told of one more term behind it too. The sums count from another base then.
pub(crate) fn add_last(told: &mut Vec<Told>, terms: &[Term], term: &Term) -> Result<(), AllocError>
    requires { IsTable told.old.items terms.now }
    ensures { OnOk result (IsTable told.new.items (terms.now ++ term.now ∷ [])) }
{
    let sum = told[0].sum.wrapping_sub(with_first(term, 0));
    let nothing = Told {
        sum,
        facts: Facts::of_nothing(),
    };
    told.insert(0, nothing)?;
    join_last(told, terms, term);
    Ok(())
}

/// The facts of a term that came behind a list. They are known of those that have them all, and of each before these.
fn join_last(told: &mut Vec<Told>, terms: &[Term], term: &Term)
    requires { (b : ℕ) × AreJoined b 1 told.old.items terms.now term.now }
    ensures { IsTable told.new.items (terms.now ++ term.now ∷ []) }
{
    let facts = term.facts();
    let mut at = 1;
    while at < told.len() {
        let Told { sum, facts: own } = told[at];
        let all = own.joined(facts);
        if all.is(own) {
            return;
        }
        told[at] = Told { sum, facts: all };
        at += 1;
    }
}
