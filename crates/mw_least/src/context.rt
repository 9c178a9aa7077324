// Modules that the engine works in.
ghost use Rattle.std.specs.Prelude.{◌≡◌, ◌↔◌, IfOk, IsTrue};
ghost use Rattle.mw_logic.specs.Parts.{nested};
ghost use Rattle.mw_logic.specs.NormalForm.{normal_form};
ghost use Rattle.mw_logic.specs.Signature.{Signature as SignatureOf, sort as sort_of, IsRawTerm};
ghost use Rattle.mw_logic.specs.Preregular.{IsSortOf};
ghost use Rattle.mw_logic.specs.Sorts.{AtOrBelow, IsBelow, HasSort, IsLeastSort};
ghost use Rattle.mw_logic.specs.Term.{is_ground, RawTerms, apply as applied};
ghost use Rattle.mw_sorts.specs.Diagrams.{AreTablesOf};
ghost use Rattle.mw_builtin.specs.Schemata.{AreSchemataOf};
ghost use Rattle.mw_poset.specs.SortOrder.{order_of};
ghost use Rattle.mw_term.specs.Signatures.{sorted_of};
ghost use Rattle.mw_logic.specs.Terms.{args_of};
ghost use Rattle.mw_least.specs.Closed.{Has, EachHas, AreMade};
ghost use Rattle.mw_least.specs.Giving.{OneGives, MayGive};
ghost use Rattle.mw_least.specs.Sure.{AreSure};
ghost use Rattle.mw_least.specs.Workable.{IsWorkable};

use crate::closed::{Home, homes, is_closed_for};
use crate::sure::{Sure, sure_sorts};
use mw_builtin::Schemata;
use mw_canon::Facts;
use mw_poset::Poset;
use mw_sorts::{Tables, least_sort};
use mw_term::{Declaration, OpId, Seq, Signature, SortId, Sorted, Statement, Term, View, numbered};
use std::alloc::{AllocError, Global};
use std::marker::Model;

/// A signature and statements that were accepted, which contracts see as a module. The order of its sorts and the
/// axioms, least results and schemata of its operators are kept with it.
#[derive(Drop)]
pub struct Ctx {
    facts: Facts,
    order: Poset,
    tables: Tables,
    sure: Sure,
    homes: Seq<Home>,
    schemata: Schemata,
    statements: Seq<Statement>,
}

impl Model for Ctx {
    ghost use Rattle.std.specs.Coded.{codes};
    ghost use Rattle.mw_logic.specs.TermCode.{coded_term, coded_variable};
    ghost use Rattle.mw_logic.specs.Module.{Module};

    ghost Value = { Module };

    ghost coded = { Prim.hlevel (codes, coded_term, coded_variable) };

    ghost view = { λ c. record { signature = c.facts; statements = c.statements } };

    ghost use Rattle.mw_least.specs.Contexts.{IsContext};

    ghost invariant = { λ c. IsContext (record { signature = c.facts; statements = c.statements }) c.order c.tables c.sure c.homes c.schemata };
}

impl Ctx {
    /// The context of these operators and statements, with the order of the sorts and the operators' tables.
    pub fn new(
        alloc: Global,
        facts: Facts,
        order: Poset,
        tables: Tables,
        statements: Seq<Statement>,
    ) -> Result<Box<Ctx>, AllocError>
        requires workable { IsWorkable (record { signature = facts; statements = statements }) }
        requires order { order ≡ order_of facts }
        requires tables { AreTablesOf facts tables }
        ensures { IfOk result (λ c. c.value ≡ record { signature = facts; statements = statements }) }
    {
        let sure = sure_sorts(alloc, facts.signature(), &order)?;
        let homes = homes(alloc, facts.signature(), &order)?;
        let schemata = Schemata::of(alloc, facts.signature(), &order)?;
        let context = Ctx {
            facts,
            order,
            tables,
            sure,
            homes,
            schemata,
            statements,
        };
        Ok(Box::new(alloc, context)?)
    }

    /// The module is one that the engine works in.
    pub fn shows(&self)
        ensures { IsWorkable self.now }
    {
        let _ = &self.sure;
    }

    /// The signature with the axioms of its operators by number.
    pub fn facts(&self) -> &Facts
        ensures { result.now ≡ self.now.signature }
    {
        &self.facts
    }

    pub fn signature(&self) -> &Signature
        ensures { result.now ≡ self.now.signature }
    {
        self.facts.signature()
    }

    /// The order of its sorts.
    pub fn order(&self) -> &Poset
        ensures { result.now ≡ order_of self.now.signature }
    {
        &self.order
    }

    /// What its operators compute.
    pub fn schemata(&self) -> &Schemata
        ensures { AreSchemataOf self.now.signature result.now }
    {
        &self.schemata
    }

    pub fn statements(&self) -> &[Statement]
        ensures { result.now ≡ self.now.statements }
    {
        self.statements.as_slice()
    }

    /// The least sort of a canonical term, or its kind. It takes no memory, and one look-up for each argument in the
    /// term.
    pub fn least_sort(&self, term: &Term) -> Sorted
        ensures { let sig = self.now.signature in normal_form sig (nested sig term.now) ≡ term.now → IsRawTerm sig (nested sig term.now) → IsLeastSort sig (nested sig term.now) (sorted_of result) }
    {
        least_sort(&self.tables, term)
    }

    /// Whether a number is that of a sort.
    fn is_there(&self, sort: SortId) -> bool
        ensures { IsTrue result ↔ IsSortOf self.now.signature sort }
    {
        sort != 0 && sort as usize <= self.signature().sorts.as_slice().len()
    }

    fn are_there(&self, lower: SortId, upper: SortId) -> bool
        ensures { IsTrue result ↔ IsSortOf self.now.signature lower × IsSortOf self.now.signature upper }
    {
        self.is_there(lower) && self.is_there(upper)
    }

    /// Whether a sort is at or below another.
    #[inline(always)]
    fn is_below(&self, lower: SortId, upper: SortId) -> bool
        ensures { IsTrue result ↔ AtOrBelow self.now.signature.pairs lower upper }
    {
        if self.are_there(lower, upper) {
            self.order.le(lower, upper)
        } else {
            lower == upper
        }
    }

    /// Whether a sort is one that a term has by its operators alone.
    #[inline(always)]
    fn is_sure(&self, term: &Term, sort: SortId) -> bool
        ensures { let sig = self.now.signature in normal_form sig (nested sig term.now) ≡ term.now → IsRawTerm sig (nested sig term.now) → IsTrue (is_ground term.now) → IsTrue result → HasSort sig (nested sig term.now) (sort_of sort) }
    {
        let View::Op(operator, _) = term.view() else {
            return false;
        };
        if self.sure.partial.may_stand_in(term) {
            return false;
        }
        match numbered(self.sure.results.as_slice(), operator) {
            Some(result) => *result != 0 && self.is_below(*result, sort),
            None => false,
        }
    }

    /// Whether a sort is one that a term has since it is made of operators that give a sort on arguments of it.
    #[inline(always)]
    fn has_home(&self, term: &Term, sort: SortId) -> bool
        ensures { IsTrue result → Has self.now.signature sort term.now }
    {
        let View::Op(operator, _) = term.view() else {
            return false;
        };
        let Some(home) = numbered(self.homes.as_slice(), operator) else {
            return false;
        };
        if home.closed.outside.may_stand_in(term) {
            return false;
        }
        home.result != 0 && self.is_below(home.result, sort)
    }

    /// Whether a sort is one that each of the terms has by its operators.
    fn all_have(&self, terms: &[Term], sort: SortId) -> bool
        ensures { IsTrue result → EachHas self.now.signature sort terms.now }
    {
        let mut rest = terms;
        while let [term, after @ ..] = rest {
            if !self.is_sure(term, sort) && !self.has_home(term, sort) {
                return false;
            }
            rest = after;
        }
        true
    }

    /// Whether the arguments of a term are made of operators that give a sort at or below another on arguments of it.
    /// The first of them tells which sort may serve.
    fn are_made(&self, term: &Term, sort: SortId) -> bool
        ensures { IsTrue result → AreMade self.now.signature sort (args_of term.now) }
    {
        let [first, ..] = term.arguments() else {
            return false;
        };
        let View::Op(operator, _) = first.view() else {
            return false;
        };
        let Some(home) = numbered(self.homes.as_slice(), operator) else {
            return false;
        };
        if home.closed.outside.may_stand_inside(term) {
            return false;
        }
        home.result != 0 && self.is_below(home.closed.sort, sort)
    }

    /// Whether a sort is one that a term has since the operator on top gives it on arguments of it, which have it by
    /// their operators.
    fn is_closed_over(&self, term: &Term, sort: SortId) -> bool
        ensures { IsTrue result → Has self.now.signature sort term.now }
    {
        let View::Op(operator, args) = term.view() else {
            return false;
        };
        match numbered(self.signature().operators.as_slice(), operator) {
            Some(operator) if is_closed_for(&self.order, operator, sort) => {
                self.are_made(term, sort) || self.all_have(args, sort)
            }
            _ => false,
        }
    }

    /// Whether a sort is one that a term has by one look at its operators, or at each of its arguments'.
    #[inline(never)]
    fn has_by_operators(&self, term: &Term, sort: SortId) -> bool
        ensures { IsTrue result → Has self.now.signature sort term.now }
    {
        self.has_home(term, sort) || self.is_closed_over(term, sort)
    }

    /// Whether a sort or kind is at or below a sort.
    fn is_at_most(&self, sorted: Sorted, sort: SortId) -> bool
        ensures { IsTrue result ↔ IsBelow self.now.signature (sorted_of sorted) (sort_of sort) }
    {
        match sorted {
            Sorted::Sort(lower) => self.is_below(lower, sort),
            Sorted::Kind(_) => false,
        }
    }

    /// Whether one of these declarations has a result at or below a sort.
    fn some_gives(&self, declarations: &[Declaration], sort: SortId) -> bool
        ensures { IsTrue result ↔ OneGives self.now.signature declarations.now sort }
    {
        let mut rest = declarations;
        while let [declaration, after @ ..] = rest {
            if self.is_at_most(declaration.result, sort) {
                return true;
            }
            rest = after;
        }
        false
    }

    /// Whether terms with this operator on top may have a sort, by its declarations alone: yes exactly where one of them
    /// has a result at or below the sort, whatever arguments it takes, and of a number without an operator. So a no
    /// says that no canonical term with the operator on top has the sort, and a yes doesn't say that one has.
    pub fn may_give(&self, operator: OpId, sort: SortId) -> bool
        ensures declared { IsTrue result ↔ MayGive self.now.signature operator sort }
        ensures had { let sig = self.now.signature in (ts : RawTerms) → normal_form sig (nested sig (applied operator ts)) ≡ applied operator ts → IsRawTerm sig (nested sig (applied operator ts)) → HasSort sig (nested sig (applied operator ts)) (sort_of sort) → IsTrue result }
    {
        self.shows();
        match numbered(self.signature().operators.as_slice(), operator) {
            Some(operator) => self.some_gives(operator.declarations.as_slice(), sort),
            None => true,
        }
    }

    /// Whether the operator on top of a term may give a sort, whatever its arguments are.
    fn may_have(&self, term: &Term, sort: SortId) -> bool
        ensures { let sig = self.now.signature in normal_form sig (nested sig term.now) ≡ term.now → IsRawTerm sig (nested sig term.now) → HasSort sig (nested sig term.now) (sort_of sort) → IsTrue result }
    {
        match term.view() {
            View::Op(operator, _) => self.may_give(operator, sort),
            _ => true,
        }
    }

    /// Whether a canonical ground term has a sort. It takes no memory. It is a look-up where the term's operators tell a yes, as they
    /// do where each of them is total on its kind, or closed for the sort, and a look-up for each declaration of the
    /// operator on top where they tell a no; one for each argument where these are such terms; else it takes the time of
    /// `least_sort`.
    #[inline(always)]
    pub fn has_sort(&self, term: &Term, sort: SortId) -> bool
        ensures { let sig = self.now.signature in normal_form sig (nested sig term.now) ≡ term.now → IsRawTerm sig (nested sig term.now) → IsTrue (is_ground term.now) → (IsTrue result ↔ HasSort sig (nested sig term.now) (sort_of sort)) }
    {
        if self.is_sure(term, sort) {
            return true;
        }
        if !self.may_have(term, sort) {
            return false;
        }
        self.has_by_operators(term, sort) || self.is_at_most(self.least_sort(term), sort)
    }
}
