// What the arguments of a pattern pick of a multiset's elements, one behind another.
ghost use Rattle.std.specs.Prelude.{◌≡◌, ◌<◌, ◌≤◌, ◌∷◌, ◌++◌, List, [], true, false, length, take, drop, option_map, IfOk, OnOk, OnErr, None, MatchOption, ⊤};
ghost use Rattle.mw_logic.specs.Term.{RawTerm, RawTerms, cons};
ghost use Rattle.mw_logic.specs.Terms.{args_of, terms_of, skip};
ghost use Rattle.mw_logic.specs.Parts.{number_of_terms};
ghost use Rattle.mw_matching.specs.Found.{found, has_top};
ghost use Rattle.mw_matching.specs.Multisets.{term_at};
ghost use Rattle.mw_match.specs.Choices.{is_again as is_again_of, put as put_among};
ghost use Rattle.mw_match.specs.Hands.{IsNext};
ghost use Rattle.mw_match.specs.declared.levels.Level.{Level as LevelOf};
ghost use Rattle.mw_match.specs.Levels.{behind, IsOn, is_on, taken_by, choices_from, choices_at, ClashesAt, IsPassedBy, IsPlainTop, Shortens, trace, behind_found, still_to_come, picks_in, AreKept, GoOnFrom, IsEnded, Misses, IsHandedOut, coming_in};
ghost use Rattle.mw_match.specs.Solutions.{PassesTo};
ghost use Rattle.mw_search.specs.Lacking.{Skips};

use crate::bindings::{bound, copied};
use crate::hand::find;
use crate::solutions::Solution;
use mw_canon::{Axioms, Facts};
use mw_compile::Compiled;
use mw_least::Ctx;
use mw_search::{Search, clashes};
use mw_term::{OpId, Seq, Term, View, compare, copy, number_at};
use std::alloc::{AllocError, Global};

/// An argument of the pattern on an element, by its index: the search for its matches, and the values that it goes on
/// from.
#[derive(Drop)]
pub struct Level<'c> {
    pub at: usize,
    pub given: Seq<Term>,
    pub search: Search<'c>,
}

/// The arguments of the pattern that stand on elements, in their order, and the match of the last one that is at hand.
/// So many values were given.
#[derive(Drop)]
pub struct Levels<'c> {
    pub alloc: Global,
    pub context: &'c Ctx,
    pub compiled: &'c Compiled,
    pub subject: Term,
    pub given: usize,
    pub stack: Vec<Level<'c>>,
    pub found: Option<Seq<Term>>,
}

/// Whether a level stands on this element.
fn is_taken(levels: &[Level<'_>], index: usize) -> bool
    ensures { result ≡ is_on index levels.now }
{
    for i in 0..levels.len() {
        if levels[i].at == index {
            return true;
        }
    }
    false
}

/// Whether an element is the one before again.
fn is_again(elements: &[Term], before: Option<usize>, index: usize) -> bool
    requires there { index < length elements.now }
    requires before { MatchOption before ⊤ (λ i. i < length elements.now) }
    ensures { let args = terms_of elements.now in
        result ≡ is_again_of (option_map (λ b. term_at b args) before) (term_at index args) }
{
    match before {
        Some(i) => compare(&elements[i], &elements[index]).is_eq(),
        None => false,
    }
}

/// The operator on top of a pattern, where it has no axioms.
fn plain_top(facts: &Facts, pattern: &Term) -> Option<OpId>
    ensures { MatchOption result ⊤ (IsPlainTop facts.now pattern.now) }
{
    let View::Op(operator, _) = pattern.view() else {
        return None;
    };
    match facts.axioms(operator) {
        Axioms::Plain => Some(operator),
        _ => None,
    }
}

/// Whether a term has another operator on top than this one. Most elements of a large multiset are told by it.
#[inline(always)]
fn has_other(top: Option<OpId>, term: &Term) -> bool
    ensures { result ≡ true → MatchOption top ⊥ (λ f. has_top f term.now ≡ false) }
{
    match (top, term.view()) {
        (Some(operator), View::Op(other, _)) => operator != other,
        _ => false,
    }
}

/// Whether a pattern, which may have this operator on top, may have a match on an element that isn't the one before
/// again.
fn may_stand(
    facts: &Facts,
    elements: &[Term],
    pattern: &Term,
    top: Option<OpId>,
    values: &[Term],
    index: usize,
    before: Option<usize>,
) -> bool
    requires there { index < length elements.now }
    requires top { MatchOption top ⊤ (IsPlainTop facts.now pattern.now) }
    requires before { MatchOption before ⊤ (λ i. i < length elements.now) }
    ensures may { let args = terms_of elements.now in
        result ≡ true → is_again_of (option_map (λ b. term_at b args) before) (term_at index args) ≡ false }
    ensures not { let args = terms_of elements.now in
        result ≡ false → IsPassedBy facts.now args values.now pattern.now index before }
{
    if has_other(top, &elements[index]) {
        return false;
    }
    if clashes(facts, pattern, &elements[index], values) {
        return false;
    }
    !is_again(elements, before, index)
}

/// The first element from an index on that no level below stands on, that differs from the one before, and that may
/// have a match.
fn next_choice(
    facts: &Facts,
    elements: &[Term],
    below: &[Level<'_>],
    pattern: &Term,
    values: &[Term],
    from: usize,
    before: Option<usize>,
) -> Option<usize>
    requires { MatchOption before ⊤ (λ i. i < length elements.now) }
    ensures within { MatchOption result ⊤ (λ i. i < length elements.now) }
    ensures next { let args = terms_of elements.now in
        let ks = taken_by [] below.now in
        Skips (ClashesAt facts.now values.now pattern.now) (choices_from args ks before from) (choices_at args ks result) }
{
    let top = plain_top(facts, pattern);
    let mut last = before;
    for i in from..elements.len() {
        if !is_taken(below, i) {
            if may_stand(facts, elements, pattern, top, values, i, last) {
                return Some(i);
            }
            last = Some(i);
        }
    }
    None
}

/// Where a number comes among others that rise.
fn place_among(numbers: &[u32], number: u32) -> usize
    ensures within { result ≤ length numbers.now }
    ensures place { put_among number numbers.now ≡ take result numbers.now ++ number ∷ drop result numbers.now }
{
    for i in 0..numbers.len() {
        if number < numbers[i] {
            return i;
        }
    }
    numbers.len()
}

/// A number put among others that rise.
fn put(numbers: &mut Vec<u32>, number: u32) -> Result<(), AllocError>
    ensures { OnOk result (numbers.new.items ≡ put_among number numbers.old.items) }
{
    let place = place_among(numbers.as_slice(), number);
    numbers.insert(place, number)?;
    Ok(())
}

/// The numbers of the elements that levels stand on.
fn numbers_taken(alloc: Global, levels: &[Level<'_>]) -> Result<Seq<u32>, AllocError>
    ensures { IfOk result (λ ks. ks ≡ taken_by [] levels.now) }
{
    let mut made = Vec::new(alloc);
    for i in 0..levels.len() {
        let number = number_at(levels[i].at)?;
        put(&mut made, number)?;
    }
    Ok(Seq::of(made))
}

impl<'c> Levels<'c> {
    fn elements(&self) -> &[Term]
        ensures { terms_of result.now ≡ args_of self.now.subject }
    {
        match self.subject.view() {
            View::Op(_, elements) => elements,
            _ => &[],
        }
    }

    fn patterns(&self) -> &'c [Term]
        ensures { terms_of result.now ≡ args_of self.now.compiled.now.pattern }
    {
        match self.compiled.pattern.view() {
            View::Op(_, patterns) => patterns,
            _ => &[],
        }
    }

    /// The search of a pattern on an element.
    fn search_on(
        &self,
        pattern: &Term,
        element: &Term,
        values: &[Term],
    ) -> Result<Search<'c>, AllocError>
        ensures { let sig = self.now.context.now.signature in
            let positions = self.now.compiled.now.positions in
            IfOk result (λ s. s ≡ record {
              signature = sig;
              sorts = positions.sorts;
              given = length values.now;
              coming = found sig positions.single.items pattern.now element.now values.now;
            }) }
    {
        let given = copied(self.alloc, values)?;
        let search = Search::new(
            self.alloc,
            self.context,
            &self.compiled.positions,
            copy(pattern)?,
            copy(element)?,
            given,
        )?;
        Ok(search)
    }

    /// A level on an element.
    fn level_on(
        &self,
        pattern: &Term,
        at: usize,
        element: &Term,
        values: &[Term],
    ) -> Result<Level<'c>, AllocError>
        ensures at { IfOk result (λ l. l.at ≡ at) }
        ensures given { IfOk result (λ l. l.given ≡ values.now) }
        ensures search { let sig = self.now.context.now.signature in
            let positions = self.now.compiled.now.positions in
            IfOk result (λ l. l.search ≡ record {
              signature = sig;
              sorts = positions.sorts;
              given = length values.now;
              coming = found sig positions.single.items pattern.now element.now values.now;
            }) }
    {
        let search = self.search_on(pattern, element, values)?;
        let given = copied(self.alloc, values)?;
        Ok(Level {
            at,
            given: Seq::of(given),
            search,
        })
    }

    /// The next argument of the pattern on the first element that it may match, going on from values.
    fn next_level(&self, values: &[Term]) -> Result<Option<Level<'c>>, AllocError>
        ensures next { let sig = self.now.context.now.signature in
            let single = self.now.compiled.now.positions.single.items in
            let args = args_of self.now.subject in
            let ks = taken_by [] self.now.stack.items in
            IfOk result (λ o. (q : RawTerm) (rest : RawTerms)
            → skip (length self.now.stack.items) (args_of self.now.compiled.now.pattern) ≡ cons q rest
            → Shortens (trace sig single args (cons q rest) ks values.now)
            (behind_found sig single args q rest ks o)) }
        ensures kept { let sig = self.now.context.now.signature in
            let sorts = self.now.compiled.now.positions.sorts in
            IfOk result (λ o. GoOnFrom sig sorts self.now.given values.now
            → MatchOption o ⊤ (IsOn sig sorts self.now.given (number_of_terms (args_of self.now.subject)))) }
    {
        let depth = self.stack.len();
        let patterns = self.patterns();
        if depth >= patterns.len() {
            return Ok(None);
        }
        let pattern = &patterns[depth];
        let elements = self.elements();
        let facts = self.context.facts();
        let below = self.stack.as_slice();
        let Some(at) = next_choice(facts, elements, below, pattern, values, 0, None) else {
            return Ok(None);
        };
        let level = self.level_on(pattern, at, &elements[at], values)?;
        Ok(Some(level))
    }

    /// Goes on from the match at hand with the next argument of the pattern; the match is dropped then. For want of
    /// memory the same is still to come.
    fn descend(&mut self) -> Result<(), AllocError>
        requires { length self.old.stack.items < number_of_terms (args_of self.old.compiled.now.pattern) }
        ensures ok { OnOk result (MatchOption self.old.found ⊤
            (λ _. Shortens (still_to_come self.old) (still_to_come self.new))) }
        ensures err { OnErr result (still_to_come self.new ≡ still_to_come self.old) }
        ensures none { OnOk result (self.new.found ≡ None) }
        ensures same { self.new ≡ record self.old { stack = self.new.stack; found = self.new.found } }
        ensures kept { AreKept self.old → AreKept self.new }
    {
        let Some(values) = &self.found else {
            return Ok(());
        };
        let next = self.next_level(values.as_slice())?;
        if let Some(level) = next {
            self.stack.push(level)?;
        }
        self.found = None;
        Ok(())
    }

    /// Has a match of the last level at hand, if it has one left. Matches that lack a sort are passed over, with all
    /// that goes on from them.
    fn find(&mut self) -> Result<(), AllocError>
        requires none { self.old.found ≡ None }
        requires kept { AreKept self.old }
        ensures passes { Skips (Misses self.old) (picks_in (still_to_come self.old)) (picks_in (still_to_come self.new)) }
        ensures steps { length (still_to_come self.new) ≤ length (still_to_come self.old) }
        ensures ended { OnOk result (MatchOption self.new.found (IsEnded self.new) (λ _. ⊤)) }
        ensures depth { length self.new.stack.items ≡ length self.old.stack.items }
        ensures same { self.new ≡ record self.old { stack = self.new.stack; found = self.new.found } }
        ensures kept { AreKept self.new }
    {
        let depth = self.stack.len();
        if depth == 0 {
            return Ok(());
        }
        find(&mut self.stack[depth - 1].search, &mut self.found)?;
        Ok(())
    }

    /// The last level on its next choice.
    fn next_of_last(&self) -> Result<Option<Level<'c>>, AllocError>
        requires kept { AreKept self.now }
        ensures next { let sig = self.now.context.now.signature in
            let single = self.now.compiled.now.positions.single.items in
            let args = args_of self.now.subject in
            IfOk result (λ o. (below : List LevelOf) (l : LevelOf) (q : RawTerm) (rest : RawTerms)
            → self.now.stack.items ≡ below ++ l ∷ [] → l.search.coming ≡ []
            → skip (length below) (args_of self.now.compiled.now.pattern) ≡ cons q rest
            → Shortens (behind sig single args q rest (taken_by [] below) l)
            (behind_found sig single args q rest (taken_by [] below) o)) }
        ensures kept { let sig = self.now.context.now.signature in
            let sorts = self.now.compiled.now.positions.sorts in
            IfOk result (λ o. MatchOption o ⊤ (IsOn sig sorts self.now.given (number_of_terms (args_of self.now.subject)))) }
    {
        let [below @ .., last] = self.stack.as_slice() else {
            return Ok(None);
        };
        let patterns = self.patterns();
        if below.len() >= patterns.len() {
            return Ok(None);
        }
        let pattern = &patterns[below.len()];
        let elements = self.elements();
        let facts = self.context.facts();
        let values = last.given.as_slice();
        let from = last.at + 1;
        let Some(at) = next_choice(facts, elements, below, pattern, values, from, Some(last.at))
        else {
            return Ok(None);
        };
        let level = self.level_on(pattern, at, &elements[at], values)?;
        Ok(Some(level))
    }

    /// Puts the last level, which has no match left, on its next choice, or takes it away where there is none.
    fn shift(&mut self) -> Result<(), AllocError>
        requires none { self.old.found ≡ None }
        requires some { 0 < length self.old.stack.items }
        requires ended { IsEnded self.old }
        requires kept { AreKept self.old }
        ensures ok { OnOk result (Shortens (still_to_come self.old) (still_to_come self.new)) }
        ensures err { OnErr result (self.new ≡ self.old) }
        ensures same { self.new ≡ record self.old { stack = self.new.stack } }
        ensures kept { AreKept self.new }
    {
        match self.next_of_last()? {
            Some(level) => {
                let depth = self.stack.len();
                self.stack[depth - 1] = level;
            }
            None => {
                self.stack.pop();
            }
        }
        Ok(())
    }

    /// Hands out the solution that the match at hand is where all arguments of the pattern stand on elements.
    fn hand_out(&mut self) -> Result<Option<Solution>, AllocError>
        requires whole { length self.old.stack.items ≡ number_of_terms (args_of self.old.compiled.now.pattern) }
        ensures ok { IfOk result (λ o. IsHandedOut self.old self.new o) }
        ensures err { OnErr result (self.new ≡ self.old) }
        ensures same { self.new ≡ record self.old { found = self.new.found } }
        ensures kept { AreKept self.old → AreKept self.new }
    {
        let Some(values) = &self.found else {
            return Ok(None);
        };
        let take = numbers_taken(self.alloc, self.stack.as_slice())?;
        let variables = self.compiled.variables.as_slice();
        let subst = bound(self.alloc, variables, values.as_slice())?;
        self.found = None;
        Ok(Some(Solution {
            subst,
            take: Some(take),
        }))
    }

    /// The next solution; none where there is none, and for ever after. Candidates that aren't solutions are passed
    /// over.
    pub fn next(&mut self) -> Result<Option<Solution>, AllocError>
        requires { AreKept self.old }
        ensures ok { IfOk result (IsNext (coming_in self.old) (coming_in self.new)) }
        ensures err { OnErr result (PassesTo (coming_in self.old) (coming_in self.new).candidates) }
        ensures same { self.new ≡ record self.old { stack = self.new.stack; found = self.new.found } }
        ensures kept { AreKept self.new }
    {
        let count = self.patterns().len();
        loop {
            if self.found.is_some() {
                if self.stack.len() >= count {
                    let made = self.hand_out()?;
                    return Ok(made);
                }
                self.descend()?;
            } else if self.stack.is_empty() {
                return Ok(None);
            } else {
                self.find()?;
                if self.found.is_none() {
                    self.shift()?;
                }
            }
        }
    }
}
