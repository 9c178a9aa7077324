// Proofs of parts of a multiset, one after another, as one proof of the whole.
ghost use Rattle.std.specs.Prelude.{◌≡◌, ◌≤◌, ◌∷◌, ℕ, Some, slice_get, suc, IfOk, IsTrue, IsFalse};
ghost use Rattle.mw_logic.specs.Terms.{terms_of};
ghost use Rattle.mw_logic.specs.Parts.{number_of_terms};
ghost use Rattle.mw_logic.specs.TermOrder.{sorted_terms};
ghost use Rattle.mw_logic.specs.Module.{Module};
ghost use Rattle.mw_canon.specs.Canonical.{IsAdmittedTerm};
ghost use Rattle.mw_arguments.specs.Places.{chosen, others, Rise};
ghost use Rattle.mw_deduction.specs.Runs.{none};
ghost use Rattle.mw_deduction.specs.Replay.{Leaves};
ghost use Rattle.mw_trail.specs.Tracks.{moves};
ghost use Rattle.mw_multiset.specs.Together.{parts as parts_of, together, IsOfMultisets, IsShallow};
ghost use Rattle.mw_proof.specs.Ways.{way};
ghost use Rattle.mw_gather.specs.Gatherings.{MayAdd, Adds, StandAmong, StandsFrom};

use mw_canon::{over_elements, parts};
use mw_least::Ctx;
use mw_proof::{Proved, go_in, left};
use mw_stack::put;
use mw_term::{OpId, Term, behind, compare, copy, number_at};
use mw_trail::Trail;
use std::alloc::{AllocError, Global};
use std::marker::Model;

/// The first place of a term among terms in order, from a place on. It stands there.
fn place_in(elements: &[Term], from: usize, term: &Term) -> usize
    requires order { sorted_terms (terms_of elements.now) ≡ terms_of elements.now }
    requires there { StandsFrom elements.now from term.now }
    ensures from { from ≤ result }
    ensures there { slice_get elements.now result ≡ Some term.now }
    ensures first { (at : ℕ) → from ≤ at → slice_get elements.now at ≡ Some term.now → result ≤ at }
{
    let rest = behind(elements, from);
    from + rest.partition_point(|other| compare(term, other).is_gt())
}

/// Takes terms out of others, among which they stand. Both stand in order. It answers the numbers that they had.
fn take_out(alloc: Global, elements: &mut Vec<Term>, some: &[Term]) -> Result<Vec<u32>, AllocError>
    requires order { sorted_terms (terms_of elements.now.items) ≡ terms_of elements.now.items }
    requires among { StandAmong some.now elements.now.items }
    ensures rise { IfOk result (λ ks. Rise 1 (suc (number_of_terms (terms_of elements.old.items))) ks.items) }
    ensures chosen { IfOk result (λ ks. chosen 1 ks.items (terms_of elements.old.items) ≡ terms_of some.now) }
    ensures left { IfOk result
        (λ ks. terms_of elements.new.items ≡ others 1 ks.items (terms_of elements.old.items)) }
{
    let mut numbers = Vec::new(alloc);
    let mut from = 0;
    for term in some {
        let at = place_in(elements.as_slice(), from, term);
        let number = number_at(at + numbers.len())?;
        numbers.push(number)?;
        let _ = elements.remove(at);
        from = at;
    }
    Ok(numbers)
}

/// The way to some elements, what a proof of them does, and out again; where nothing else is there, what it does.
fn beside_rest(
    alloc: Global,
    alone: bool,
    numbers: Vec<u32>,
    inner: Trail,
) -> Result<Trail, AllocError>
    ensures alone { IfOk result (λ t. IsTrue alone → (M : Module) → moves M t ≡ moves M inner) }
    ensures beside { IfOk result
        (λ t. IsFalse alone → (M : Module) → Leaves (way numbers.items ∷ moves M inner) (moves M t)) }
{
    if alone {
        return Ok(inner);
    }
    let mut trail = Trail::new(alloc);
    go_in(&mut trail, numbers.as_slice())?;
    let trail = left(trail, inner)?;
    Ok(trail)
}

/// The same terms once more.
fn copies(alloc: Global, terms: &[Term]) -> Result<Vec<Term>, AllocError>
    ensures { IfOk result (λ ts. ts.items ≡ terms.now) }
{
    let mut made = Vec::with_capacity(alloc, terms.len())?;
    for term in terms {
        made.push(copy(term)?)?;
    }
    Ok(made)
}

/// A proof of a multiset that is under way: its elements as they are, in order, and what was done since it was another
/// term. Contracts see it as a gathering.
#[derive(Drop)]
pub struct Gathered<'m> {
    context: &'m Ctx,
    operator: OpId,
    from: Term,
    elements: Vec<Term>,
    trail: Trail,
}

impl<'m> Model for Gathered<'m> {
    ghost use Rattle.std.specs.Coded.{codes};
    ghost use Rattle.mw_logic.specs.TermCode.{coded_term, coded_variable};
    ghost use Rattle.mw_deduction.specs.RunCode.{coded_dones};
    ghost use Rattle.mw_proof.specs.Deductions.{end_of};
    ghost use Rattle.mw_gather.specs.Gatherings.{Gathering, IsGathered};

    ghost Value = { Gathering };

    ghost coded = { Prim.hlevel (codes, coded_term, coded_variable, coded_dones) };

    ghost view = { λ g. record {
      over = g.context.now;
      operator = g.operator;
      from = g.from;
      elements = g.elements.items;
      run = (end_of g.context.now 63 g.from g.trail).run;
    } };

    ghost invariant = { λ g. IsGathered g.context.now g.operator g.from g.elements.items g.trail };
}

impl<'m> Gathered<'m> {
    /// The multiset that a term is, before anything is done. It takes one count for each element.
    pub fn of(
        alloc: Global,
        context: &'m Ctx,
        operator: OpId,
        term: &Term,
    ) -> Result<Gathered<'m>, AllocError>
        requires of { IsOfMultisets context.now operator }
        requires admitted { IsAdmittedTerm context.now.signature term.now }
        requires shallow { IsShallow context.now.signature operator term.now }
        ensures over { IfOk result (λ g. g.over ≡ context.now) }
        ensures operator { IfOk result (λ g. g.operator ≡ operator) }
        ensures from { IfOk result (λ g. g.from ≡ term.now) }
        ensures elements { IfOk result (λ g. g.elements ≡ parts_of context.now.signature operator term.now) }
        ensures run { IfOk result (λ g. g.run ≡ none) }
    {
        let from = copy(term)?;
        let elements = copies(alloc, parts(context.facts(), operator, term))?;
        Ok(Gathered {
            context,
            operator,
            from,
            elements,
            trail: Trail::new(alloc),
        })
    }

    /// A proof of some of the elements is carried out beside the others. It takes as long as that proof, the search
    /// for its elements, and the moves of those behind them.
    pub fn add(self, alloc: Global, inner: &Proved<'m>) -> Result<Gathered<'m>, AllocError>
        requires { MayAdd self inner.now }
        ensures { IfOk result (Adds self.entry inner.now) }
    {
        let Gathered {
            context,
            operator,
            from,
            mut elements,
            trail,
        } = self;
        inner.shows();
        let facts = context.facts();
        let numbers = take_out(alloc, &mut elements, parts(facts, operator, inner.from()))?;
        let to = copy(inner.to())?;
        let alone = elements.as_slice().is_empty();
        let inner = inner.trail().copied(alloc)?;
        let next = beside_rest(alloc, alone, numbers, inner)?;
        put(alloc, facts, operator, &mut elements, 0, to)?;
        let trail = trail.followed_by(next)?;
        Ok(Gathered {
            context,
            operator,
            from,
            elements,
            trail,
        })
    }

    /// The proof.
    pub fn close(self, alloc: Global) -> Result<Proved<'m>, AllocError>
        ensures over { IfOk result (λ p. p.over ≡ self.entry.over) }
        ensures rank { IfOk result (λ p. p.rank ≡ 63) }
        ensures from { IfOk result (λ p. p.from ≡ self.entry.from) }
        ensures to { let sig = self.entry.over.signature in
            IfOk result (λ p. p.to ≡ together sig self.entry.operator self.entry.elements) }
        ensures run { IfOk result (λ p. p.run ≡ self.entry.run) }
    {
        let Gathered {
            context,
            operator,
            from,
            elements,
            trail,
        } = self;
        let to = over_elements(alloc, context.facts(), operator, elements)?;
        Ok(Proved::of(context, 63, from, to, trail))
    }
}
