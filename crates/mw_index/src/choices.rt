// The choices at a term, one after another.
ghost use Rattle.std.specs.Prelude.{◌≡◌, ◌≢◌, ◌++◌, ◌∷◌, ℕ, List, [], length, map, IfOk, IfSome, MatchOption, ⊤, ◌+◌, ◌<◌, ◌^◌, true, false};
ghost use Rattle.mw_logic.specs.Module.{Module, Statement as StatementOf};
ghost use Rattle.mw_logic.specs.Signature.{IsRawTerm};
ghost use Rattle.mw_logic.specs.Term.{RawTerm};
ghost use Rattle.mw_logic.specs.Terms.{terms_of};
ghost use Rattle.mw_position.specs.Positions.{AreNumbered, counted_all};
ghost use Rattle.mw_position.specs.Variables.{bound_values, sorts_of};
ghost use Rattle.mw_match.specs.Straight.{AreStraight};
ghost use Rattle.mw_solving.specs.Values.{IsValue};
ghost use Rattle.mw_term.specs.declared.subst.Binding.{Binding as BindingOf};
ghost use Rattle.mw_index.specs.Index.{operator_of, IsOf, IsEquationOf, IsIndexOf};
ghost use Rattle.mw_index.specs.Oriented.{IsSearchedLeft};
ghost use Rattle.mw_index.specs.Choices.{Tried, subject_of, tried_of, in_order as in_order_of, AreAllTried, AreComing, AreFitting, IsKept, IsChoice, IsUnderWay, IsAnswer, IsPlainOne, IsSearchedOne, IsSized, Covers, Stays, Passes};
ghost use Rattle.mw_index.specs.declared.index.Index.{Index as IndexOf};
ghost use Rattle.mw_index.specs.declared.oriented.Oriented.{Oriented as OrientedOf};

use crate::index::Index;
use crate::oriented::{Left, Oriented, Searched};
use crate::subject::Subject;
use mw_least::Ctx;
use mw_match::{Solution, Solutions, all_match, have_sorts};
use mw_pattern::Patterns;
use mw_term::{Seq, Subst, Term, copy};
use std::alloc::{AllocError, Global};
use std::mem::replace;

/// A statement with values of its left side's variables, in their order, that make the left side a term, or several of
/// its arguments by their numbers.
#[derive(Drop)]
pub struct Choice<'m> {
    pub by: &'m Oriented,
    pub values: Vec<Term>,
    pub take: Option<Seq<u32>>,
}

/// Where the choices at a term stand.
#[derive(Drop)]
pub struct Choices<'m> {
    /// How many equations of the operator on top were passed.
    own: usize,
    /// How many others.
    others: usize,
    /// Whether its only choice was given.
    given: bool,
    /// The search for its choices, once it has begun.
    search: Option<Box<Solutions<'m>>>,
    /// The term, once it was needed.
    subject: Option<Term>,
    /// Room for values.
    spare: Vec<Term>,
}

/// The values at these places, as far as there are such.
fn in_order(alloc: Global, subst: &Subst, order: &[usize]) -> Result<Vec<Term>, AllocError>
    ensures { IfOk result (λ vs. vs.items ≡ in_order_of (bound_values subst.now) order.now) }
{
    let pairs = subst.pairs.as_slice();
    let mut values = Vec::with_capacity(alloc, order.len())?;
    for place in order {
        match pairs.get(*place) {
            Some(pair) => {
                let value = copy(&pair.value)?;
                values.push(value)?;
            }
            None => {}
        }
    }
    Ok(values)
}

/// The choice that a solution of a left side is, where it has a value for each variable.
fn chosen<'m>(
    alloc: Global,
    by: &'m Oriented,
    searched: &Searched,
    solution: Solution,
) -> Result<Option<Choice<'m>>, AllocError>
    ensures { let vs = in_order_of (bound_values solution.subst) searched.now.order in
        IfOk result (λ o. MatchOption o (length vs ≢ length by.now.sorts)
        (λ c. (c.by.now ≡ by.now) × (c.values.items ≡ vs) × (c.take ≡ solution.take)
        × (length c.values.items ≡ length by.now.sorts))) }
{
    let values = in_order(alloc, &solution.subst, searched.order.as_slice())?;
    let Solution { take, .. } = solution;
    if values.len() != by.sorts.as_slice().len() {
        return Ok(None);
    }
    Ok(Some(Choice { by, values, take }))
}

/// Whether a statement's left side has these arguments, by values of its variables' sorts, which are found.
#[inline(always)]
fn fits(
    alloc: Global,
    context: &Ctx,
    by: &Oriented,
    patterns: &Patterns,
    args: &[Term],
    found: &mut Vec<Term>,
) -> Result<bool, AllocError>
    requires numbered { AreNumbered 0 patterns.now }
    requires straight { AreStraight context.now.signature patterns.now }
    requires count { counted_all 0 patterns.now ≡ length by.now.sorts }
    ensures { let sorts = by.now.sorts in
        IfOk result (AreFitting context.now.signature sorts patterns.now (terms_of args.now) found.new.items) }
{
    found.clear();
    if !all_match(alloc, context.facts(), patterns, args, found)? {
        return Ok(false);
    }
    let sorts = by.sorts.as_slice();
    Ok(have_sorts(context, found.as_slice(), sorts))
}

impl<'m> Choices<'m> {
    /// At the beginning.
    pub fn new(alloc: Global) -> Choices<'m>
        ensures { (M : Module) (m : IndexOf) (t : RawTerm) → Covers M m t [] result }
    {
        Choices {
            own: 0,
            others: 0,
            given: false,
            search: None,
            subject: None,
            spare: Vec::new(alloc),
        }
    }

    /// At the beginning again, for another term.
    #[inline(always)]
    pub fn again(&mut self)
        ensures covers { (M : Module) (m : IndexOf) (t : RawTerm) → Covers M m t [] self.new }
        ensures kept { (t : RawTerm) → IsKept t self.new.subject }
        ensures none { (M : Module) (t : RawTerm) (tried : List Tried) (st : OrientedOf) → IsUnderWay M t tried st self.new }
    {
        self.own = 0;
        self.others = 0;
        self.given = false;
        self.search = None;
        self.subject = None;
    }

    /// Room for values, which aren't needed any more.
    #[inline(always)]
    pub fn give_back(&mut self, spare: Vec<Term>)
        ensures { (M : Module) (m : IndexOf) (t : RawTerm) (tried : List Tried) → Covers M m t tried self.old → Covers M m t tried self.new }
    {
        self.spare = spare;
    }

    /// The choice of a statement whose left side is compared.
    #[inline(always)]
    fn compare(
        &mut self,
        alloc: Global,
        context: &Ctx,
        by: &'m Oriented,
        patterns: &Patterns,
        subject: Subject<'_>,
    ) -> Result<Option<Choice<'m>>, AllocError>
        requires { IsPlainOne context.now (operator_of (subject_of subject)) by.now patterns.now }
        ensures same { Stays self.old self.new }
        ensures sized { IfOk result (IsSized by.now) }
        ensures is { let M = context.now in let t = subject_of subject.entry in
            (tried : List Tried) → IsValue M.signature t
            → IsKept t self.old.subject → IsUnderWay M t tried by.now self.old
            → IfOk result (λ o. IsAnswer M t tried by.now o self.new) }
    {
        if self.given {
            return Ok(None);
        }
        context.shows();
        let args = subject.args();
        if !fits(alloc, context, by, patterns, args, &mut self.spare)? {
            return Ok(None);
        }
        self.given = true;
        let values = replace(&mut self.spare, Vec::new(alloc));
        Ok(Some(Choice {
            by,
            values,
            take: None,
        }))
    }

    /// The search for a left side, which begins if it hasn't yet.
    fn solutions(
        &mut self,
        alloc: Global,
        context: &'m Ctx,
        searched: &'m Searched,
        subject: Subject<'_>,
    ) -> Result<Box<Solutions<'m>>, AllocError>
        requires { searched.now.compiled.positions.sorts ≡ sorts_of searched.now.compiled.variables }
        ensures same { Stays self.old self.new }
        ensures given { self.new.given ≡ self.old.given }
        ensures kept { let t = subject_of subject.entry in
            IsKept t self.old.subject → IfOk result (λ _. IsKept t self.new.subject) }
        ensures coming { let sig = context.now.signature in let t = subject_of subject.entry in
            (tried : List Tried) (k : ℕ) (e : StatementOf) → IsValue sig t → IsRawTerm sig e.left
            → IsSearchedLeft sig e searched.now → IsKept t self.old.subject
            → MatchOption self.old.search ⊤ (λ s. AreComing sig t tried k e searched.now.compiled.variables s.value)
            → IfOk result (λ s. AreComing sig t tried k e searched.now.compiled.variables s.value) }
    {
        if let Some(solutions) = self.search.take() {
            return Ok(solutions);
        }
        let term = match self.subject.take() {
            Some(term) => term,
            None => subject.term(alloc)?,
        };
        let solutions = Solutions::anywhere(alloc, context, &searched.compiled, &term)?;
        self.subject = Some(term);
        Ok(Box::new(alloc, solutions)?)
    }

    /// The next choice of a statement whose left side is searched for.
    #[inline(never)]
    fn seek(
        &mut self,
        alloc: Global,
        context: &'m Ctx,
        by: &'m Oriented,
        searched: &'m Searched,
        subject: Subject<'_>,
    ) -> Result<Option<Choice<'m>>, AllocError>
        requires { IsSearchedOne context.now (operator_of (subject_of subject)) by.now searched.now }
        ensures same { Stays self.old self.new }
        ensures sized { IfOk result (IsSized by.now) }
        ensures is { let M = context.now in let t = subject_of subject.entry in
            (tried : List Tried) → IsValue M.signature t
            → IsKept t self.old.subject → IsUnderWay M t tried by.now self.old
            → IfOk result (λ o. IsAnswer M t tried by.now o self.new) }
    {
        context.shows();
        let mut solutions = self.solutions(alloc, context, searched, subject)?;
        let found = solutions.next()?;
        self.search = Some(solutions);
        match found {
            Some(solution) => {
                let choice = chosen(alloc, by, searched, solution)?;
                Ok(choice)
            }
            None => Ok(None),
        }
    }

    /// The next choice of one statement at a canonical term that means a ground raw term; none where there is none.
    #[inline(always)]
    pub fn ask(
        &mut self,
        alloc: Global,
        context: &'m Ctx,
        by: &'m Oriented,
        subject: Subject<'_>,
    ) -> Result<Option<Choice<'m>>, AllocError>
        requires { IsOf context.now (operator_of (subject_of subject)) by.now }
        ensures same { Stays self.old self.new }
        ensures sized { IfOk result (IsSized by.now) }
        ensures is { let M = context.now in let t = subject_of subject.entry in
            (tried : List Tried) → IsValue M.signature t
            → IsKept t self.old.subject → IsUnderWay M t tried by.now self.old
            → IfOk result (λ o. IsAnswer M t tried by.now o self.new) }
    {
        match &by.left {
            Left::Plain(patterns) => self.compare(alloc, context, by, patterns, subject),
            Left::Searched(searched) => {
                let found = self.seek(alloc, context, by, searched, subject)?;
                Ok(found)
            }
        }
    }

    /// An equation was asked, and the next one is: whether it was one of the operator's own.
    #[inline(always)]
    fn pass(&mut self, own: bool)
        requires own { own ≡ true → self.old.own + 1 < 2 ^ 64 }
        requires others { own ≡ false → self.old.others + 1 < 2 ^ 64 }
        ensures { Passes own self.old self.new }
    {
        self.given = false;
        self.search = None;
        if own {
            self.own += 1;
        } else {
            self.others += 1;
        }
    }

    /// The next choice at a canonical term that means a ground raw term; none where there is none. After an error it
    /// isn't said where the choices stand.
    #[inline(always)]
    pub fn next(
        &mut self,
        alloc: Global,
        context: &'m Ctx,
        index: &'m Index,
        subject: Subject<'_>,
    ) -> Result<Option<Choice<'m>>, AllocError>
        requires { IsIndexOf context.now index.now }
        ensures of { let top = operator_of (subject_of subject.entry) in
            IfOk result (λ o. IfSome o (λ c. IsEquationOf context.now top c.by.now)) }
        ensures values { IfOk result (λ o. IfSome o (λ c. length c.values.items ≡ length c.by.now.sorts)) }
        ensures is { let M = context.now in let t = subject_of subject.entry in
            (tried : List Tried) → IsValue M.signature t
            → Covers M index.now t tried self.old
            → IfOk result (λ o. MatchOption o (AreAllTried M t tried)
            (λ c. IsChoice M t c × Covers M index.now t (tried ++ tried_of c ∷ []) self.new)) }
    {
        context.shows();
        let top = subject.operator();
        while let Some(turn) = index.at(top, self.own, self.others) {
            let (by, own) = turn;
            let found = self.ask(alloc, context, by, subject)?;
            if found.is_some() {
                return Ok(found);
            }
            self.pass(own);
        }
        Ok(None)
    }
}
