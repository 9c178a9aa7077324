// Terms carried from one signature to another.
ghost use Rattle.std.specs.Prelude.{◌≡◌, ℕ, List, IfOk, MatchOption};
ghost use Rattle.mw_logic.specs.Signature.{Operator as OperatorOf, IsOperator, IsRawTerm, AreRawTerms, Member};
ghost use Rattle.mw_logic.specs.Accepted.{IsAccepted, number_of_sort};
ghost use Rattle.mw_logic.specs.Preregular.{HasItsSorts, IsSortOf};
ghost use Rattle.mw_term.specs.Raws.{raw_term, raw_terms};
ghost use Rattle.mw_term.specs.Signatures.{sorted_of};
ghost use Rattle.mw_carry.specs.Carried.{IsPart, IsSameSort, IsSameOperator, IsSameSorted, IsCarried, AreCarried};
ghost use Rattle.mw_carry.specs.Laws.{HasSortsOf};
ghost use Rattle.mw_carry.specs.Carriage.{HaveSortsOf};
ghost use Rattle.mw_carry.specs.Profiles.{Pairwise, IsLeastFor, IsProfileFor};
ghost use Rattle.mw_carry.specs.Tables.{seen_profile};

use crate::target::{Profile, Target};
use indexmap::IndexMap;
use mw_term::{
    KindId, OpId, Operator, Raw, Raws, Signature, SortId, Sorted, VarId, copy_name, numbered,
};
use std::alloc::{AllocError, Global};
use std::marker::Model;

/// What carries the terms of a signature to another. Operators that were met are kept, so that each is looked for once.
#[derive(Drop)]
pub struct Carrier<'c> {
    from: &'c Signature,
    to: &'c Target<'c>,
    met: IndexMap<OpId, OpId>,
}

impl<'c> Model for Carrier<'c> {
    ghost use Rattle.mw_carry.specs.Carriage.{Carriage, IsCarriage};

    ghost Value = { Carriage };

    ghost view = { λ c. record { from = c.from.now; to = c.to.now } };

    ghost invariant = { λ c. IsCarriage (record { from = c.from.now; to = c.to.now }) c.met.entries };
}

impl<'c> Carrier<'c> {
    /// From a signature that is part of the other one.
    pub fn new(alloc: Global, from: &'c Signature, to: &'c Target<'c>) -> Carrier<'c>
        requires part { IsPart from.now to.now }
        requires numbers { HasItsSorts from.now }
        ensures from { result.from ≡ from.now }
        ensures to { result.to ≡ to.now }
    {
        Carrier {
            from,
            to,
            met: IndexMap::new(alloc),
        }
    }

    /// The sort of the same name.
    fn sort(&self, sort: SortId) -> SortId
        requires { IsSortOf self.now.from sort }
        ensures { IsSameSort self.now.from self.now.to sort result }
    {
        let from = self.from;
        let Some(name) = numbered(from.sorts.as_slice(), sort) else {
            unreachable!()
        };
        match self.to.sort(name.as_slice()) {
            Some(same) => same,
            None => unreachable!(),
        }
    }

    /// The sort or kind that stands for one that a condition tests.
    pub fn sorted(&self, sorted: Sorted) -> Sorted
        requires { IsSortOf self.now.from (number_of_sort (sorted_of sorted)) }
        ensures { IsSameSorted self.now.from self.now.to (sorted_of sorted) (sorted_of result) }
    {
        match sorted {
            Sorted::Sort(sort) => Sorted::Sort(self.sort(sort)),
            Sorted::Kind(sort) => Sorted::Kind(self.sort(sort)),
        }
    }

    /// The kind that stands for a kind.
    fn kind(&self, kind: KindId) -> KindId
        requires { IsSortOf self.now.from kind }
        ensures { IsLeastFor self.now.from self.now.to kind result }
    {
        self.to.kind_of(self.sort(kind))
    }

    /// The kinds that stand for kinds, one by one.
    fn kinds(&self, alloc: Global, kinds: &[KindId]) -> Result<Vec<KindId>, AllocError>
        requires { (K : ℕ) → Member K kinds.now → IsSortOf self.now.from K }
        ensures { IfOk result (λ found. Pairwise (IsLeastFor self.now.from self.now.to) kinds.now found.items) }
    {
        let mut found = Vec::with_capacity(alloc, kinds.len())?;
        for kind in kinds {
            found.push(self.kind(*kind))?;
        }
        Ok(found)
    }

    /// The profile of an operator that stands for this one.
    fn profile(&self, alloc: Global, operator: &Operator) -> Result<Profile, AllocError>
        requires args { (K : ℕ) → Member K operator.now.args → IsSortOf self.now.from K }
        requires value { IsSortOf self.now.from operator.now.result }
        ensures { IfOk result (λ p. IsProfileFor self.now.from self.now.to operator.now (seen_profile p)) }
    {
        Ok(Profile {
            spelling: operator.spelling.as_slice().to_vec(alloc)?,
            args: self.kinds(alloc, operator.args.as_slice())?,
            result: self.kind(operator.result),
        })
    }

    /// Looks for an operator that stands for this one. An accepted signature has one.
    fn look_for(&self, alloc: Global, operator: OpId) -> Result<Option<OpId>, AllocError>
        requires { (o : OperatorOf) × IsOperator self.now.from operator o }
        ensures { IfOk result (λ found. MatchOption found
            (¬ IsAccepted self.now.to)
            (IsSameOperator self.now.from self.now.to operator)) }
    {
        let from = self.from;
        let Some(known) = numbered(from.operators.as_slice(), operator) else {
            unreachable!()
        };
        let profile = self.profile(alloc, known)?;
        Ok(self.to.operator(&profile))
    }

    /// The operator that stands for this one, which is looked for where it wasn't met before. That there is none
    /// counts as want of memory.
    fn operator(&mut self, alloc: Global, operator: OpId) -> Result<OpId, AllocError>
        requires { (o : OperatorOf) × IsOperator self.old.from operator o }
        ensures found { IfOk result (IsSameOperator self.old.from self.old.to operator) }
        ensures same { self.new ≡ self.old }
    {
        if let Some(same) = self.met.get(&operator) {
            return Ok(*same);
        }
        let Some(same) = self.look_for(alloc, operator)? else {
            return Err(AllocError);
        };
        self.met.insert(operator, same)?;
        Ok(same)
    }

    /// The term that stands for this one.
    #[cycle(carry)]
    pub fn carry(&mut self, alloc: Global, term: &Raw) -> Result<Raw, AllocError>
        requires raw { IsRawTerm self.old.from (raw_term term.now) }
        requires sorts { HasSortsOf self.old.from (raw_term term.now) }
        ensures carried { IfOk result (λ r. IsCarried self.old.from self.old.to (raw_term term.now) (raw_term r)) }
        ensures same { self.new ≡ self.old }
    {
        match term {
            Raw::Nat(number) => Ok(Raw::Nat(*number)),
            Raw::Qid(name) => Ok(Raw::Qid(copy_name(alloc, name)?)),
            Raw::Var(variable) => {
                let name = copy_name(alloc, &variable.name)?;
                let sort = self.sort(variable.sort);
                Ok(Raw::Var(VarId { name, sort }))
            }
            Raw::Op(operator, args) => {
                let same = self.operator(alloc, *operator)?;
                let carried = self.carry_all(alloc, args.as_slice())?;
                Ok(Raw::Op(same, Raws::of(carried)))
            }
        }
    }

    /// The terms that stand for these, one by one.
    #[cycle(carry)]
    fn carry_all(&mut self, alloc: Global, terms: &[Raw]) -> Result<Vec<Raw>, AllocError>
        requires raw { (Ks : List ℕ) × AreRawTerms self.old.from (raw_terms terms.now) Ks }
        requires sorts { HaveSortsOf self.old.from (raw_terms terms.now) }
        ensures carried { IfOk result
            (λ rs. AreCarried self.old.from self.old.to (raw_terms terms.now) (raw_terms rs.items)) }
        ensures same { self.new ≡ self.old }
    {
        let mut carried = Vec::with_capacity(alloc, terms.len())?;
        for term in terms {
            let one = self.carry(alloc, term)?;
            carried.push(one)?;
        }
        Ok(carried)
    }
}
