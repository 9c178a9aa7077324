// The index of a module's statements.
ghost use Rattle.std.specs.Prelude.{◌≡◌, ◌↔◌, ◌≢◌, ◌++◌, ◌∷◌, ◌≤◌, ◌<◌, ◌+◌, ◌^◌, ℕ, [], false, true, None, Option, length, slice_get, IfOk, IfSome, IsTrue, MatchOption, OnOk};
ghost use Rattle.mw_logic.specs.Module.{Module};
ghost use Rattle.mw_logic.specs.Terms.{terms_of};
ghost use Rattle.mw_index.specs.Index.{Asks, asked, listed, own_asked, others_asked, IsNextOf, IsIndexOf, AreRulesOf};
ghost use Rattle.mw_index.specs.Sections.{OperatorStays, TopStays, TwoStay, IsSectionOf, Puts, PutsRule, IsIndexUpTo};
ghost use Rattle.mw_index.specs.declared.index.Section.TheVariants as Section;

use crate::making::oriented;
use crate::normal::normal;
use crate::oriented::Oriented;
use mw_canon::{Axioms, Facts};
use mw_least::Ctx;
use mw_term::{OpId, Statement, Term, View};
use std::alloc::{AllocError, Global};

/// The equations with one operator on top of their canonical left sides, in order.
#[derive(Drop)]
pub struct Group {
    pub list: Vec<Oriented>,
}

/// A rule, and where it is asked.
#[derive(Drop)]
pub struct Rule {
    pub section: Section,
    pub by: Oriented,
}

/// The executable equations of a module, by what their left sides are instances of; and its rules, in order.
#[derive(Drop)]
pub struct Index {
    /// By the operator that stays on top of each instance of the left side.
    by_top: Vec<Group>,
    /// Those whose instances may have any operator on top.
    any: Vec<Oriented>,
    /// Those whose left side is a numeral or a quoted identifier.
    leaves: Vec<Oriented>,
    rules: Vec<Rule>,
}

/// For which terms a statement is asked.
#[derive(Clone, Copy)]
pub enum Section {
    /// Those with this operator on top.
    Operator(OpId),
    /// All.
    Any,
    /// Those without an operator.
    Leaves,
}

impl Section {
    /// Whether it is asked for terms with this operator on top, or with none.
    #[inline(always)]
    pub fn asks(self, top: Option<OpId>) -> bool
        ensures { IsTrue result ↔ Asks self top }
    {
        match self {
            Section::Operator(operator) => match top {
                Some(found) => found == operator,
                None => false,
            },
            Section::Any => true,
            Section::Leaves => top.is_none(),
        }
    }
}

/// Whether an operator stays on top, whatever its arguments become.
fn stays(facts: &Facts, operator: OpId) -> bool
    ensures { IsTrue result → OperatorStays facts.now operator }
{
    facts.shows();
    match facts.axioms(operator) {
        Axioms::Plain => true,
        Axioms::Commutative => true,
        Axioms::Successor => false,
        Axioms::Associative { identity, .. } => identity.is_none(),
    }
}

/// Whether what is on top of a term stays, whatever its variables become.
fn top_stays(facts: &Facts, term: &Term) -> bool
    ensures { IsTrue result → TopStays facts.now term.now }
{
    match term.view() {
        View::Nat(_) => true,
        View::Qid(_) => true,
        View::Var(_) => false,
        View::Op(operator, _) => stays(facts, operator),
    }
}

/// Whether it does so on two of these terms.
fn two_stay(facts: &Facts, terms: &[Term]) -> bool
    ensures { IsTrue result → TwoStay facts.now (terms_of terms.now) }
{
    let mut one = false;
    for term in terms {
        if top_stays(facts, term) {
            if one {
                return true;
            }
            one = true;
        }
    }
    false
}

/// Where a statement with this canonical left side is listed.
fn section_of(facts: &Facts, left: &Term) -> Section
    ensures { IsSectionOf facts.now left.now result }
{
    match left.view() {
        View::Nat(_) => Section::Leaves,
        View::Qid(_) => Section::Leaves,
        View::Var(_) => Section::Any,
        View::Op(operator, args) => {
            if stays(facts, operator) || two_stay(facts, args) {
                Section::Operator(operator)
            } else {
                Section::Any
            }
        }
    }
}

impl Index {
    fn none(alloc: Global) -> Index
        ensures equations { (top : Option ℕ) → asked result top ≡ [] }
        ensures rules { result.rules.items ≡ [] }
    {
        Index {
            by_top: Vec::new(alloc),
            any: Vec::new(alloc),
            leaves: Vec::new(alloc),
            rules: Vec::new(alloc),
        }
    }

    /// Puts an equation behind those with this operator on top.
    fn put_under(&mut self, alloc: Global, operator: OpId, by: Oriented) -> Result<(), AllocError>
        ensures here { OnOk result (listed self.new operator ≡ listed self.old operator ++ by ∷ []) }
        ensures others { OnOk result ((f : ℕ) → f ≢ operator → listed self.new f ≡ listed self.old f) }
        ensures any { self.new.any.items ≡ self.old.any.items }
        ensures leaves { self.new.leaves.items ≡ self.old.leaves.items }
        ensures rules { self.new.rules.items ≡ self.old.rules.items }
    {
        while self.by_top.len() <= operator as usize {
            let group = Group {
                list: Vec::new(alloc),
            };
            self.by_top.push(group)?;
        }
        let group = &mut self.by_top[operator as usize];
        group.list.push(by)?;
        Ok(())
    }

    fn put(&mut self, alloc: Global, section: Section, by: Oriented) -> Result<(), AllocError>
        ensures { OnOk result (Puts section by self.old self.new) }
    {
        match section {
            Section::Operator(operator) => {
                self.put_under(alloc, operator, by)?;
                Ok(())
            }
            Section::Any => {
                self.any.push(by)?;
                Ok(())
            }
            Section::Leaves => {
                self.leaves.push(by)?;
                Ok(())
            }
        }
    }

    fn put_rule(&mut self, section: Section, by: Oriented) -> Result<(), AllocError>
        ensures { OnOk result (PutsRule (record { section = section; by = by }) self.old self.new) }
    {
        self.rules.push(Rule { section, by })?;
        Ok(())
    }

    /// Lists a statement, if it is executable.
    fn list(&mut self, alloc: Global, context: &Ctx, at: usize) -> Result<(), AllocError>
        requires { at < length context.now.statements }
        ensures { OnOk result (IsIndexUpTo context.now at self.old → IsIndexUpTo context.now (at + 1) self.new) }
    {
        context.shows();
        let statement = &context.statements()[at];
        if !statement.executable {
            return Ok(());
        }
        let facts = context.facts();
        let left = normal(alloc, facts, &statement.left)?;
        let section = section_of(facts, &left);
        let by = oriented(alloc, context, section, at + 1, statement, &left)?;
        if statement.rule {
            self.put_rule(section, by)?;
            return Ok(());
        }
        self.put(alloc, section, by)?;
        Ok(())
    }

    /// The index of a module's statements.
    pub fn of(alloc: Global, context: &Ctx) -> Result<Index, AllocError>
        ensures { IfOk result (IsIndexOf context.now) }
    {
        let mut index = Index::none(alloc);
        for at in 0..context.statements().len() {
            index.list(alloc, context, at)?;
        }
        Ok(index)
    }

    /// Its executable rules, in the order of the module.
    pub fn rules(&self) -> &[Rule]
        ensures { (M : Module) → IsIndexOf M self.now → AreRulesOf M result.now }
    {
        self.rules.as_slice()
    }

    #[inline(always)]
    fn under(&self, operator: OpId) -> &[Oriented]
        ensures { result.now ≡ listed self.now operator }
    {
        match self.by_top.get(operator as usize) {
            Some(group) => group.list.as_slice(),
            None => &[],
        }
    }

    /// The equations that are asked for terms with an operator on top, or with none: two lists in order.
    #[inline(always)]
    fn lists(&self, top: Option<OpId>) -> (&[Oriented], &[Oriented])
        ensures own { result.0.now ≡ own_asked self.now top }
        ensures others { result.1.now ≡ others_asked self.now top }
    {
        match top {
            Some(operator) => (self.under(operator), self.any.as_slice()),
            None => (self.any.as_slice(), self.leaves.as_slice()),
        }
    }

    /// The next of the equations that are asked for terms with an operator on top, or with none, in the order of the
    /// module: where so many of the operator's own and so many others were passed. Whether it is one of its own.
    #[inline(always)]
    pub fn at(&self, top: Option<OpId>, own: usize, others: usize) -> Option<(&Oriented, bool)>
        ensures is { let a = own_asked self.now top in let b = others_asked self.now top in
            MatchOption result ((length a ≤ own) × (length b ≤ others)) (λ r. IsNextOf (slice_get a own) (slice_get b others) r.0.now r.1) }
        ensures bound { IfSome result (λ r. (r.1 ≡ true → own + 1 < 2 ^ 64) × (r.1 ≡ false → others + 1 < 2 ^ 64)) }
    {
        let (first, second) = self.lists(top);
        next_of(first, second, own, others)
    }
}

/// The next of two lists by number, the first list's where so many of the first and so many of the second were passed.
#[inline(always)]
fn next_of<'m>(
    first: &'m [Oriented],
    second: &'m [Oriented],
    own: usize,
    others: usize,
) -> Option<(&'m Oriented, bool)>
    ensures is { MatchOption result ((length first.now ≤ own) × (length second.now ≤ others))
        (λ r. IsNextOf (slice_get first.now own) (slice_get second.now others) r.0.now r.1) }
    ensures bound { IfSome result (λ r. (r.1 ≡ true → own + 1 < 2 ^ 64) × (r.1 ≡ false → others + 1 < 2 ^ 64)) }
{
    if others >= second.len() {
        if own >= first.len() {
            return None;
        }
        return Some((&first[own], true));
    }
    let other = &second[others];
    if own >= first.len() {
        return Some((other, false));
    }
    let mine = &first[own];
    if other.number < mine.number {
        return Some((other, false));
    }
    Some((mine, true))
}
