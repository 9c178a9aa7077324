// Parts of multisets of terms, whose elements stand in order.
ghost use Rattle.std.specs.Prelude.{◌≡◌, ℕ, ◌+◌, ◌-◌, ◌/◌, ◌<◌, List, [], ◌∷◌, ◌++◌, map, length, slice_index, true, false, cond, is_some, IfOk, OnOk, MatchOption};
ghost use Rattle.mw_logic.specs.Term.{RawTerm, RawTerms, join};
ghost use Rattle.mw_logic.specs.Terms.{terms_of};
ghost use Rattle.mw_logic.specs.Parts.{number_of_terms};
ghost use Rattle.mw_arguments.specs.Bags.{same, copies, spread as spread_is, runs as runs_is, heads as heads_is, numbers as numbers_is};
ghost use Rattle.mw_matching.specs.Multisets.{is_within, left_behind, term_at, without as without_is, is_new as is_new_is, news, is_variable as is_variable_is, times as times_is, part_of, rest_of, parts, numbers_without, behind_first};
ghost use Rattle.mw_search.specs.Bags.{Cuts, cuts_left, AreRuns, AreDivided, are_divided as are_divided_is};

use crate::terms::is_same;
use mw_split::BagSplits;
use mw_term::{Term, View, copy};
use std::alloc::{AllocError, Global};
use std::marker::Model;

/// The elements without these, where these all stand there. Both stand in order.
pub fn taken_away(
    alloc: Global,
    taken: &[Term],
    elements: &[Term],
) -> Result<Option<Vec<Term>>, AllocError>
    ensures { let ts = terms_of taken.now in
        let zs = terms_of elements.now in
        IfOk result (λ o. MatchOption o (is_within ts zs ≡ false)
        (λ left. (is_within ts zs ≡ true) × (terms_of left.items ≡ left_behind ts zs))) }
{
    let mut left = Vec::new(alloc);
    let mut gone = 0;
    for element in elements {
        if is_at(taken, gone, element) {
            gone += 1;
        } else {
            left.push(copy(element)?)?;
        }
    }
    if gone < taken.len() {
        return Ok(None);
    }
    Ok(Some(left))
}

/// Whether this term stands at an index.
fn is_at(terms: &[Term], index: usize, term: &Term) -> bool
    ensures there { result ≡ true → (index < length terms.now) × (same (term_at index (terms_of terms.now)) term.now ≡ true) }
    ensures other { result ≡ false → index < length terms.now → same (term_at index (terms_of terms.now)) term.now ≡ false }
{
    match terms.get(index) {
        Some(found) => is_same(found, term),
        None => false,
    }
}

/// How many of the patterns are the variable that a pattern is, by position; at least one.
pub fn times(pattern: &Term, patterns: &[Term]) -> usize
    ensures times { result ≡ times_is pattern.now (terms_of patterns.now) }
    ensures some { 0 < result }
{
    let mut number = 0;
    for other in patterns {
        if is_variable(pattern, other) {
            number += 1;
        }
    }
    number.max(1)
}

/// Whether both are the variable of one position.
fn is_variable(a: &Term, b: &Term) -> bool
    ensures { result ≡ is_variable_is a.now b.now }
{
    match (a.view(), b.view()) {
        (View::Var(x), View::Var(y)) => x.sort == y.sort,
        _ => false,
    }
}

/// The first index from there on of an element that differs from the one before.
pub fn first_new(elements: &[Term], from: usize) -> Option<usize>
    ensures { let zs = terms_of elements.now in
        let left = news zs from (number_of_terms zs - from) in
        MatchOption result (left ≡ [])
        (λ i. (i < length elements.now) × (left ≡ i ∷ news zs (i + 1) (number_of_terms zs - (i + 1)))
        × (is_new_is zs i ≡ true)) }
{
    for i in from..elements.len() {
        if is_new(elements, i) {
            return Some(i);
        }
    }
    None
}

/// Whether an element differs from the one before.
fn is_new(elements: &[Term], index: usize) -> bool
    requires { index < length elements.now }
    ensures { result ≡ is_new_is (terms_of elements.now) index }
{
    if index == 0 {
        return true;
    }
    !is_same(&elements[index], &elements[index - 1])
}

/// The elements without the one at an index.
pub fn without(alloc: Global, elements: &[Term], index: usize) -> Result<Vec<Term>, AllocError>
    ensures { IfOk result (λ ts. terms_of ts.items ≡ without_is index (terms_of elements.now)) }
{
    let mut made = Vec::with_capacity(alloc, elements.len())?;
    for (i, element) in elements.iter().enumerate() {
        if i != index {
            made.push(copy(element)?)?;
        }
    }
    Ok(made)
}

/// The parts of a multiset of which it has so many equal ones, one after another: its elements, and the parts still to
/// come, each by how many it has of each different element.
#[derive(Drop)]
pub struct Parts {
    heads: Vec<Term>,
    numbers: Vec<usize>,
    splits: BagSplits,
    // Whether the splits stand at a cut.
    there: bool,
}

impl Model for Parts {
    ghost use Rattle.std.specs.Prelude.{◌≡◌, is_some};
    ghost use Rattle.mw_logic.specs.Terms.{terms_of};
    ghost use Rattle.mw_arguments.specs.Bags.{spread};
    ghost use Rattle.mw_search.specs.Bags.{Cuts, coded_cuts, cuts_left, AreRuns};

    ghost Value = { Cuts };

    ghost coded = { coded_cuts };

    ghost view = { λ p. record { elements = spread p.heads.items p.numbers.items; remaining = cuts_left p.splits } };

    ghost invariant = { λ p. AreRuns p.heads.items p.numbers.items × (p.there ≡ is_some p.splits.current) };
}

impl Parts {
    /// The parts of which there are `times` equal ones; the empty part, which comes first, only where it is asked for.
    pub fn new(
        alloc: Global,
        with_empty: bool,
        times: usize,
        elements: &[Term],
    ) -> Result<Parts, AllocError>
        requires { 0 < times }
        ensures elements { IfOk result (λ p. p.elements ≡ terms_of elements.now) }
        ensures remaining { IfOk result (λ p. p.remaining ≡ parts with_empty times (terms_of elements.now)) }
    {
        let (heads, numbers) = runs(alloc, elements)?;
        let limits = quotients(alloc, numbers.as_slice(), times)?;
        let mut splits = BagSplits::new(alloc, limits.as_slice(), 2)?;
        let there = begin(&mut splits, with_empty);
        Ok(Parts {
            heads,
            numbers,
            splits,
            there,
        })
    }

    /// The first of those still to come.
    pub fn part(&self, alloc: Global) -> Result<Option<Vec<Term>>, AllocError>
        ensures { IfOk result (λ o. MatchOption o (self.now.remaining ≡ [])
            (λ ts. (c : List ℕ) × (cs : List (List ℕ)) × (self.now.remaining ≡ c ∷ cs)
            × (terms_of ts.items ≡ part_of self.now.elements c))) }
    {
        if !self.there {
            return Ok(None);
        }
        let part = spread(alloc, self.heads.as_slice(), self.splits.cut())?;
        Ok(Some(part))
    }

    /// What it leaves.
    pub fn rest(&self, alloc: Global) -> Result<Vec<Term>, AllocError>
        ensures { IfOk result (λ ts. (c : List ℕ) (cs : List (List ℕ)) → self.now.remaining ≡ c ∷ cs →
            terms_of ts.items ≡ rest_of self.now.elements c) }
    {
        if !self.there {
            return Ok(Vec::new(alloc));
        }
        let left = numbers_left(alloc, self.numbers.as_slice(), self.splits.cut())?;
        let rest = spread(alloc, self.heads.as_slice(), left.as_slice())?;
        Ok(rest)
    }

    /// Goes on behind it.
    pub fn pass(&mut self)
        ensures elements { self.new.elements ≡ self.old.elements }
        ensures remaining { self.new.remaining ≡ behind_first self.old.remaining }
    {
        if self.there {
            let there = self.splits.advance();
            self.there = there;
        }
    }
}

/// Goes to the first cut, or without the empty part to the second one, and answers whether there is one.
fn begin(splits: &mut BagSplits, with_empty: bool) -> bool
    ensures there { result ≡ is_some splits.new.current }
    ensures cuts { cuts_left splits.new ≡ cond with_empty splits.old.remaining (behind_first splits.old.remaining) }
{
    let there = splits.advance();
    if with_empty {
        return there;
    }
    if there { splits.advance() } else { false }
}

/// The different elements, and how often each stands among neighbours.
fn runs(alloc: Global, elements: &[Term]) -> Result<(Vec<Term>, Vec<usize>), AllocError>
    ensures heads { IfOk result (λ r. r.0.items ≡ heads_is (runs_is (terms_of elements.now))) }
    ensures numbers { IfOk result (λ r. r.1.items ≡ numbers_is (runs_is (terms_of elements.now))) }
{
    let mut heads = Vec::new(alloc);
    let mut numbers = Vec::new(alloc);
    let mut i = elements.len();
    while i > 0 {
        i -= 1;
        let element = &elements[i];
        if is_last(heads.as_slice(), element) {
            let last = numbers.len() - 1;
            numbers[last] += 1;
        } else {
            heads.push(copy(element)?)?;
            numbers.push(1usize)?;
        }
    }
    heads.reverse();
    numbers.reverse();
    Ok((heads, numbers))
}

/// Whether a term stands last.
fn is_last(terms: &[Term], term: &Term) -> bool
    ensures last { result ≡ true → (ds : List RawTerm) × (terms.now ≡ ds ++ term.now ∷ []) }
    ensures other { result ≡ false → (ds : List RawTerm) (d : RawTerm) → terms.now ≡ ds ++ d ∷ [] → same term.now d ≡ false }
{
    if terms.is_empty() {
        return false;
    }
    is_same(term, &terms[terms.len() - 1])
}

/// The part of which the elements are so many equal ones, and what it leaves; none, where that number doesn't divide how
/// often some element stands.
pub fn divided(
    alloc: Global,
    elements: &[Term],
    number: usize,
) -> Result<Option<(Vec<Term>, Vec<Term>)>, AllocError>
    requires { 0 < number }
    ensures { let zs = terms_of elements.now in
        IfOk result (λ o. MatchOption o (are_divided_is number (numbers_is (runs_is zs)) ≡ false)
        (λ s. AreDivided number zs (terms_of s.0.items) (terms_of s.1.items))) }
{
    let (heads, numbers) = runs(alloc, elements)?;
    if !are_divided(numbers.as_slice(), number) {
        return Ok(None);
    }
    let taken = quotients(alloc, numbers.as_slice(), number)?;
    let left = numbers_left(alloc, numbers.as_slice(), taken.as_slice())?;
    let part = spread(alloc, heads.as_slice(), taken.as_slice())?;
    let rest = spread(alloc, heads.as_slice(), left.as_slice())?;
    Ok(Some((part, rest)))
}

/// Whether a divisor divides each number.
fn are_divided(numbers: &[usize], divisor: usize) -> bool
    requires { 0 < divisor }
    ensures { result ≡ are_divided_is divisor numbers.now }
{
    for number in numbers {
        if *number % divisor != 0 {
            return false;
        }
    }
    true
}

/// Each number by a divisor, rounded down.
fn quotients(alloc: Global, numbers: &[usize], divisor: usize) -> Result<Vec<usize>, AllocError>
    requires { 0 < divisor }
    ensures { IfOk result (λ ns. ns.items ≡ map (λ n. n / divisor) numbers.now) }
{
    let mut made = Vec::with_capacity(alloc, numbers.len())?;
    for number in numbers {
        made.push(*number / divisor)?;
    }
    Ok(made)
}

/// Each of the terms as often as its number says.
fn spread(alloc: Global, heads: &[Term], numbers: &[usize]) -> Result<Vec<Term>, AllocError>
    ensures { IfOk result (λ ts. terms_of ts.items ≡ spread_is heads.now numbers.now) }
{
    let mut made = Vec::new(alloc);
    let end = heads.len().min(numbers.len());
    for i in 0..end {
        put_copies(&mut made, &heads[i], numbers[i])?;
    }
    Ok(made)
}

/// Puts a term so often behind others.
fn put_copies(made: &mut Vec<Term>, term: &Term, number: usize) -> Result<(), AllocError>
    ensures { OnOk result ((us : RawTerms) →
        join (terms_of made.new.items) us ≡ join (terms_of made.old.items) (copies number term.now us)) }
{
    for _ in 0..number {
        made.push(copy(term)?)?;
    }
    Ok(())
}

/// Numbers less what is taken of each.
fn numbers_left(alloc: Global, numbers: &[usize], taken: &[usize]) -> Result<Vec<usize>, AllocError>
    ensures { IfOk result (λ ns. ns.items ≡ numbers_without numbers.now taken.now) }
{
    let mut made = Vec::with_capacity(alloc, numbers.len())?;
    for (i, number) in numbers.iter().enumerate() {
        made.push(number.saturating_sub(number_at(taken, i)))?;
    }
    Ok(made)
}

/// The number at an index, or 0.
fn number_at(numbers: &[usize], index: usize) -> usize
    ensures { result ≡ slice_index numbers.now index }
{
    match numbers.get(index) {
        Some(number) => *number,
        None => 0,
    }
}
