// The searches for the proper parts of a term, one behind another.
ghost use Rattle.std.specs.Prelude.{◌≡◌, ◌∷◌, [], true, cond, length, map, None, option_to_list, IfOk, MatchOption, IsTrue, ⊤};
ghost use Rattle.mw_logic.specs.NormalForm.{is_comm as is_comm_of};
ghost use Rattle.mw_logic.specs.Parts.{number_of_terms};
ghost use Rattle.mw_logic.specs.Term.{RawTerm};
ghost use Rattle.mw_logic.specs.Terms.{args_of, terms_of, skip};
ghost use Rattle.mw_matching.specs.Found.{Values, found, found_row};
ghost use Rattle.mw_search.specs.Goals.{top_of};
ghost use Rattle.mw_match.specs.Solutions.{candidate};
ghost use Rattle.mw_match.specs.Parts.{places_behind, places_of, arguments_from as arguments_from_of, from_of, rest_pattern, rest_of, HasOtherNumber, MeetsRows, HasFront, entries_at, matches_at, behind_with, searches_behind, entries_of, from_index, begins};
ghost use Rattle.mw_match.specs.Hands.{ComesTo, HasBegun};

use crate::bindings::{bound, copied};
use crate::rows::{leading_rigid, row_clashes};
use crate::solutions::Solution;
use crate::takes::{left_numbers, numbers};
use mw_canon::{Axioms, Facts, parts};
use mw_compile::{Compiled, position};
use mw_least::Ctx;
use mw_search::Search;
use mw_term::{OpId, Seq, Term, View, copy};
use std::alloc::{AllocError, Global};

/// Which of a term's arguments the matches of a search are of.
#[derive(Clone, Copy)]
pub enum Place {
    /// The term itself.
    Whole,
    /// All arguments from an index on.
    End(usize),
    /// Those from an index on, with some left behind.
    Left(usize),
}

/// The pattern with a rest behind it, and the values that were given.
#[derive(Drop)]
pub struct Rest {
    pub pattern: Term,
    pub given: Seq<Term>,
}

/// Arguments of a pattern, of which so many at the front become one element each, whatever their variables' values are.
#[derive(Clone, Copy)]
pub struct Front<'p> {
    pub patterns: &'p [Term],
    pub rigid: usize,
}

/// A term with a pattern, as the searches for its parts need them.
#[derive(Drop)]
pub struct Parts<'c> {
    pub alloc: Global,
    pub context: &'c Ctx,
    pub compiled: &'c Compiled,
    pub subject: Term,
    /// None where the pattern is for the whole term alone.
    pub rest: Option<Rest>,
}

fn is_comm(facts: &Facts, operator: OpId) -> bool
    ensures { result ≡ is_comm_of facts.now operator }
{
    match facts.axioms(operator) {
        Axioms::Plain => false,
        Axioms::Commutative => true,
        Axioms::Successor => false,
        Axioms::Associative { comm, .. } => comm,
    }
}

/// The place behind one, of so many arguments of an operator that is commutative or not.
fn place_behind(comm: bool, count: usize, place: Place) -> Option<Place>
    ensures { MatchOption result (places_behind comm count place ≡ [])
        (λ next. places_behind comm count place ≡ next ∷ places_behind comm count next) }
{
    match place {
        Place::Whole => Some(Place::Left(0)),
        Place::End(from) => Some(Place::Left(from)),
        Place::Left(from) => {
            if comm {
                None
            } else if count.saturating_sub(from) < 3 {
                None
            } else {
                Some(Place::End(from + 1))
            }
        }
    }
}

/// The operator on top on its arguments from an index on.
fn arguments_from(alloc: Global, term: &Term, from: usize) -> Result<Term, AllocError>
    ensures { IfOk result (λ t. t ≡ arguments_from_of from term.now) }
{
    match term.view() {
        View::Op(operator, args) if from > 0 => {
            let made = term.section(alloc, operator, from, args.len())?;
            Ok(made)
        }
        _ => copy(term),
    }
}

/// The pattern with a rest behind it, where it has matches with proper parts of a subject.
fn pattern_with_rest(
    alloc: Global,
    facts: &Facts,
    compiled: &Compiled,
    subject: &Term,
) -> Result<Option<Term>, AllocError>
    ensures { IfOk result (λ o. o ≡ rest_pattern facts.now compiled.now.positions.single.items compiled.now.pattern
        (length compiled.now.variables) subject.now) }
{
    let View::Op(operator, _) = subject.view() else {
        return Ok(None);
    };
    let Axioms::Associative { .. } = facts.axioms(operator) else {
        return Ok(None);
    };
    facts.shows();
    let pattern = &compiled.pattern;
    let elements = parts(facts, operator, pattern);
    if compiled.positions.is_rigid(facts, operator, pattern) || elements.is_empty() {
        return Ok(None);
    }
    let mut args = copied(alloc, elements)?;
    let rest = position(alloc, compiled.variables.as_slice().len())?;
    args.push(rest)?;
    let made = Term::apply(alloc, operator, args)?;
    Ok(Some(made))
}

/// The pattern with a rest behind it, and the values that were given, for the proper parts of a subject.
fn rest_for(
    alloc: Global,
    facts: &Facts,
    compiled: &Compiled,
    subject: &Term,
    given: &[Term],
) -> Result<Option<Rest>, AllocError>
    ensures { IfOk result (λ o. o ≡ rest_of given.now (rest_pattern facts.now compiled.now.positions.single.items compiled.now.pattern
        (length compiled.now.variables) subject.now)) }
{
    let Some(pattern) = pattern_with_rest(alloc, facts, compiled, subject)? else {
        return Ok(None);
    };
    let given = copied(alloc, given)?;
    Ok(Some(Rest {
        pattern,
        given: Seq::of(given),
    }))
}

/// The same, unless the arguments of the pattern pick the elements that they take.
pub fn rest_unless(
    by_picks: bool,
    alloc: Global,
    facts: &Facts,
    compiled: &Compiled,
    subject: &Term,
    given: &[Term],
) -> Result<Option<Rest>, AllocError>
    ensures { IfOk result (λ o. o ≡ cond by_picks None (rest_of given.now
        (rest_pattern facts.now compiled.now.positions.single.items compiled.now.pattern
        (length compiled.now.variables) subject.now))) }
{
    if by_picks {
        return Ok(None);
    }
    let rest = rest_for(alloc, facts, compiled, subject, given)?;
    Ok(rest)
}

impl Place {
    fn from(self) -> usize
        ensures { result ≡ from_of self }
    {
        match self {
            Place::Whole => 0,
            Place::End(from) => from,
            Place::Left(from) => from,
        }
    }
}

impl<'c> Parts<'c> {
    /// How many arguments there are.
    fn count(&self) -> usize
        ensures { result ≡ number_of_terms (args_of self.now.subject) }
    {
        match self.subject.view() {
            View::Op(_, args) => args.len(),
            _ => 0,
        }
    }

    /// Whether a pattern meets the arguments from each index on as the elements of a row.
    fn meets_rows(&self, pattern: &Term) -> bool
        ensures { result ≡ true → MeetsRows self.now pattern.now }
    {
        let View::Op(operator, _) = self.subject.view() else {
            return false;
        };
        let View::Op(top, _) = pattern.view() else {
            return false;
        };
        let Axioms::Associative { comm, .. } = self.context.facts().axioms(operator) else {
            return false;
        };
        if comm {
            return false;
        }
        top == operator
    }

    /// Whether a pattern meets the arguments from an index on as the elements of a row.
    fn is_row(&self, pattern: &Term, from: usize) -> bool
        ensures { let sig = self.now.context.now.signature in
            let single = self.now.compiled.now.positions.single.items in
            let t = self.now.subject in
            result ≡ true → (vs : Values) → found sig single pattern.now (arguments_from_of from t) vs
            ≡ found_row sig single (top_of pattern.now) (args_of pattern.now) (skip from (args_of t)) vs }
    {
        if !self.meets_rows(pattern) {
            return false;
        }
        from < self.count()
    }

    /// The search at a place.
    fn search_at(&self, rest: &Rest, place: Place) -> Result<Search<'c>, AllocError>
        ensures { IfOk result (λ s. s ≡ begins self.now rest.now place) }
    {
        let pattern = match place {
            Place::Left(_) => &rest.pattern,
            _ => &self.compiled.pattern,
        };
        let search = self.search_from(pattern, place.from(), rest.given.as_slice())?;
        Ok(search)
    }

    /// The search for the arguments from an index on.
    fn search_from(
        &self,
        pattern: &Term,
        from: usize,
        given: &[Term],
    ) -> Result<Search<'c>, AllocError>
        ensures { IfOk result (λ s. s ≡ from_index self.now pattern.now from given.now) }
    {
        let positions = &self.compiled.positions;
        let is_row = self.is_row(pattern, from);
        let given = copied(self.alloc, given)?;
        let pattern = copy(pattern)?;
        if is_row {
            let row = copy(&self.subject)?;
            let search = Search::of_row(
                self.alloc,
                self.context,
                positions,
                pattern,
                row,
                from,
                given,
            )?;
            return Ok(search);
        }
        let term = arguments_from(self.alloc, &self.subject, from)?;
        let search = Search::new(self.alloc, self.context, positions, pattern, term, given)?;
        Ok(search)
    }

    /// Whether the pattern's arguments become one element each, and the term has another number of elements.
    pub fn has_other_number(&self) -> bool
        ensures { let single = self.now.compiled.now.positions.single.items in IsTrue result
            → HasOtherNumber self.now.context.now.signature single self.now.compiled.now.pattern self.now.subject }
    {
        let View::Op(operator, patterns) = self.compiled.pattern.view() else {
            return false;
        };
        let facts = self.context.facts();
        let Axioms::Associative { .. } = facts.axioms(operator) else {
            return false;
        };
        let number = parts(facts, operator, &self.subject).len();
        if number == patterns.len() {
            return false;
        }
        leading_rigid(facts, &self.compiled.positions, operator, patterns) == patterns.len()
    }

    /// A pattern's arguments, where they meet those of the term as the elements of a row.
    fn front<'p>(&self, pattern: &'p Term) -> Option<Front<'p>>
        ensures { MatchOption result ⊤ (HasFront self.now pattern.now) }
    {
        let View::Op(operator, patterns) = pattern.view() else {
            return None;
        };
        if !self.meets_rows(pattern) {
            return None;
        }
        let facts = self.context.facts();
        let rigid = leading_rigid(facts, &self.compiled.positions, operator, patterns);
        Some(Front { patterns, rigid })
    }

    /// Whether the arguments of the term from an index on are known to have no match.
    fn is_none_from(
        &self,
        front: Option<Front<'_>>,
        elements: &[Term],
        from: usize,
        given: &[Term],
    ) -> bool
        ensures { IsTrue result → (q : RawTerm) → MatchOption front.entry ⊤ (HasFront self.now q)
            → terms_of elements.now ≡ args_of self.now.subject
            → (from_index self.now q from given.now).coming ≡ [] }
    {
        let Some(front) = front else {
            return false;
        };
        if from >= elements.len() {
            return false;
        }
        let facts = self.context.facts();
        row_clashes(facts, front.patterns, front.rigid, &elements[from..], given)
    }

    /// Whether a place is known to have no match.
    fn is_passed(
        &self,
        rest: &Rest,
        end: Option<Front<'_>>,
        left: Option<Front<'_>>,
        elements: &[Term],
        place: Place,
    ) -> bool
        ensures { IsTrue result → MatchOption end.entry ⊤ (HasFront self.now self.now.compiled.now.pattern)
            → MatchOption left.entry ⊤ (HasFront self.now rest.now.pattern)
            → terms_of elements.now ≡ args_of self.now.subject → matches_at self.now rest.now place ≡ [] }
    {
        let given = rest.given.as_slice();
        match place {
            Place::Whole => false,
            Place::End(from) => self.is_none_from(end, elements, from, given),
            Place::Left(from) => self.is_none_from(left, elements, from, given),
        }
    }

    /// The place behind one, past those that are known to have no match.
    fn next_place(&self, rest: &Rest, place: Place) -> Option<Place>
        ensures { let behind = behind_with self.now rest.now in
            MatchOption result (entries_of self.now (behind place) ≡ [])
            (λ next. ComesTo self.now (behind place) ((next, matches_at self.now rest.now next) ∷ behind next)) }
    {
        let View::Op(operator, elements) = self.subject.view() else {
            return None;
        };
        let comm = is_comm(self.context.facts(), operator);
        let end = self.front(&self.compiled.pattern);
        let left = self.front(&rest.pattern);
        let mut at = place;
        while let Some(next) = place_behind(comm, elements.len(), at) {
            if !self.is_passed(rest, end, left, elements, next) {
                return Some(next);
            }
            at = next;
        }
        None
    }

    /// The search behind the one at a place, where there is one that may have matches.
    pub fn next_search(&self, place: Place) -> Result<Option<(Place, Search<'c>)>, AllocError>
        ensures { let behind = searches_behind self.now in
            IfOk result (λ o. MatchOption o (entries_of self.now (behind place) ≡ [])
            (λ n. ComesTo self.now (behind place) ((n.0, n.1.coming) ∷ behind n.0) × HasBegun self.now n.0 n.1)) }
    {
        let Some(rest) = &self.rest else {
            return Ok(None);
        };
        let Some(next) = self.next_place(rest, place) else {
            return Ok(None);
        };
        let search = self.search_at(rest, next)?;
        Ok(Some((next, search)))
    }

    /// The solution that a match is, with a last value that is left behind.
    fn left_solution(&self, from: usize, values: &[Term]) -> Result<Option<Solution>, AllocError>
        ensures { IfOk result (λ o. option_to_list o ≡
            map (candidate self.now.compiled.now.variables) (entries_at self.now (Place.Left from) values.now)) }
    {
        let variables = self.compiled.variables.as_slice();
        let [before @ .., rest] = values else {
            return Ok(None);
        };
        if before.len() != variables.len() {
            return Ok(None);
        }
        let facts = self.context.facts();
        let Some(take) = left_numbers(self.alloc, facts, &self.subject, from, rest)? else {
            return Ok(None);
        };
        let subst = bound(self.alloc, variables, before)?;
        Ok(Some(Solution {
            subst,
            take: Some(take),
        }))
    }

    /// The solution that a match at a place is, if it is one.
    pub fn solution(&self, place: Place, values: &[Term]) -> Result<Option<Solution>, AllocError>
        ensures { IfOk result (λ o. option_to_list o ≡
            map (candidate self.now.compiled.now.variables) (entries_at self.now place values.now)) }
    {
        let variables = self.compiled.variables.as_slice();
        match place {
            Place::Whole => {
                let subst = bound(self.alloc, variables, values)?;
                Ok(Some(Solution { subst, take: None }))
            }
            Place::End(from) => {
                let take = numbers(self.alloc, from, self.count())?;
                let subst = bound(self.alloc, variables, values)?;
                Ok(Some(Solution {
                    subst,
                    take: Some(take),
                }))
            }
            Place::Left(from) => self.left_solution(from, values),
        }
    }
}
