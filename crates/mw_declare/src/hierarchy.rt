// The sorts of a module in the order of its subsort statements.
ghost use Rattle.std.specs.Prelude.{◌≡◌, ◌≤◌, ◌++◌, ◌∷◌, ◌-◌, ℕ, List, [], length, map, nat_eq, true, Some, None, IfOk, IfErr, OnOk};
ghost use Rattle.mw_logic.specs.Signature.{at_number};
ghost use Rattle.mw_term.specs.Signatures.{sorted_of};
ghost use Rattle.mw_module.specs.declared.faults.FaultKind.TheVariants.{SortCycle};
ghost use Rattle.mw_module.specs.Sortings.{seen_sorting, seen_sortings};
ghost use Rattle.mw_module.specs.Units.{seen_all};
ghost use Rattle.mw_module.specs.Causes.{HasCause};
ghost use Rattle.mw_poset.specs.Order.{IsSort};
ghost use Rattle.mw_declare.specs.Meaning.{Name, is_among, number_of, numbers_of};
ghost use Rattle.mw_declare.specs.Built.{kind_named};
ghost use Rattle.mw_declare.specs.Hierarchy.{pairs_between, pairs_behind, pairs_from, hierarchy_of, kind_of, kind_in, sorted_in};
ghost use Rattle.mw_declare.specs.Operators.{rank_of};
ghost use Rattle.mw_declare.specs.Faults.{unknown_among, mentioned_by};
ghost use Rattle.mw_declare.specs.Declarations.{unknown_in_all, IsAcyclic, DeclarationFault};
ghost use Rattle.mw_declare.specs.Seen.{seen_rank};
ghost use Rattle.mw_declare.specs.declared.built.Reached.{Reached};

use crate::sorts::{all_known, all_sorts};
use mw_module::{Fault, FaultKind, Form, Stated, UnitError, Word, WrittenSort};
use mw_poset::{Poset, PosetError};
use mw_term::{KindId, Name, Seq, SortId, Sorted};
use mw_text::Names;
use std::alloc::{AllocError, Global};
use std::marker::Model;

/// The sorts of a module by name, with the pairs of its subsort statements, which have no cycle.
#[derive(Drop)]
pub struct Hierarchy {
    pub names: Names,
    pub pairs: Vec<(SortId, SortId)>,
    pub order: Poset,
}

impl Model for Hierarchy {
    ghost use Rattle.mw_declare.specs.Hierarchy.{Hierarchy as HierarchyOf, IsHeld};

    ghost Value = { HierarchyOf };

    ghost view = { λ h. record { names = h.names; pairs = h.pairs.items } };

    ghost invariant = { λ h. IsHeld (record { names = h.names; pairs = h.pairs.items }) h.order };
}

/// The sorts and the kinds of a declaration.
#[derive(Drop)]
pub struct Rank {
    pub args: Vec<Sorted>,
    pub result: Sorted,
    pub kinds: Vec<KindId>,
    pub kind: KindId,
}

/// Adds each of the first sorts below each of the second.
fn add_between(
    pairs: &mut Vec<(SortId, SortId)>,
    lowers: &[SortId],
    uppers: &[SortId],
) -> Result<(), AllocError>
    ensures { OnOk result (pairs.new.items ≡ pairs.old.items ++ pairs_between lowers.now uppers.now) }
{
    for lower in lowers {
        for upper in uppers {
            pairs.push((*lower, *upper))?;
        }
    }
    Ok(())
}

/// The numbers of sorts, in order.
fn numbers(alloc: Global, names: &Names, words: &[Word<'_>]) -> Result<Vec<SortId>, AllocError>
    ensures { IfOk result (λ v. v.items ≡ numbers_of names.now words.now) }
{
    let mut numbers = Vec::with_capacity(alloc, words.len())?;
    for word in words {
        numbers.push(names.number(word.as_slice())?)?;
    }
    Ok(numbers)
}

/// Adds each sort of a group below each of the next.
fn add_groups(
    alloc: Global,
    pairs: &mut Vec<(SortId, SortId)>,
    names: &Names,
    groups: &[Seq<Word<'_>>],
) -> Result<(), AllocError>
    ensures { OnOk result (pairs.new.items ≡ pairs.old.items ++ pairs_behind names.now [] groups.now) }
{
    let mut lowers = Vec::new(alloc);
    for group in groups {
        let uppers = numbers(alloc, names, group.as_slice())?;
        add_between(pairs, lowers.as_slice(), uppers.as_slice())?;
        lowers = uppers;
    }
    Ok(())
}

/// The pairs of subsort statements.
fn all_pairs(
    alloc: Global,
    names: &Names,
    statements: &[Stated<'_, '_>],
) -> Result<Vec<(SortId, SortId)>, AllocError>
    ensures { IfOk result (λ v. v.items ≡ pairs_from names.now (seen_all statements.now)) }
{
    let mut pairs = Vec::new(alloc);
    for statement in statements {
        if let Form::Subsorts { groups } = statement.form {
            add_groups(alloc, &mut pairs, names, groups.as_slice())?;
        }
    }
    Ok(pairs)
}

/// The fault of a sort that is on a cycle, at a line.
fn cycle_fault(alloc: Global, line: u32, names: &Names, sort: SortId) -> Result<Fault, AllocError>
    requires { IsSort (length names.now) sort }
    ensures { IfOk result (λ fault. (name : Name) × (at_number names.now sort ≡ Some name) × (fault ≡ record { line = line; kind = SortCycle name })) }
{
    let kind = FaultKind::SortCycle(Name::of(names.name(sort).to_vec(alloc)?));
    Ok(Fault { line, kind })
}

/// The sorts of statements in order; or the fault of a sort that isn't declared, or else of a cycle, at this line.
pub fn order_sorts(
    alloc: Global,
    line: u32,
    statements: &[Stated<'_, '_>],
) -> Result<Box<Hierarchy>, UnitError>
    ensures same { IfOk result (λ h. h.value ≡ hierarchy_of (seen_all statements.now)) }
    ensures known { IfOk result (λ _. unknown_in_all (seen_all statements.now) ≡ None) }
    ensures acyclic { IfOk result (λ _. IsAcyclic (hierarchy_of (seen_all statements.now))) }
    ensures fault { (r : Reached) → IfErr result (HasCause (DeclarationFault r line (seen_all statements.now))) }
{
    let names = all_sorts(alloc, statements)?;
    all_known(alloc, &names, statements)?;
    let pairs = all_pairs(alloc, &names, statements)?;
    match Poset::build(alloc, names.count()?, pairs.as_slice()) {
        Ok(order) => Ok(Box::new(
            alloc,
            Hierarchy {
                names,
                pairs,
                order,
            },
        )?),
        Err(PosetError::Cycle(sort)) => {
            Err(UnitError::Fault(cycle_fault(alloc, line, &names, sort)?))
        }
        Err(PosetError::Memory) => Err(UnitError::Memory),
    }
}

impl Hierarchy {
    /// The number of a sort, and its kind.
    pub fn named(&self, name: &[u8]) -> Result<(SortId, KindId), AllocError>
        requires { is_among self.now.names name.now ≡ true }
        ensures number { IfOk result (λ r. r.0 ≡ number_of self.now.names name.now) }
        ensures kind { IfOk result (λ r. r.1 ≡ kind_named self.now name.now) }
    {
        let sort = self.names.number(name)?;
        let kind = self.order.kind_of(sort);
        Ok((sort, kind))
    }

    /// Whether a kind is named by this sort.
    pub fn names_kind(&self, sort: SortId) -> bool
        requires { IsSort (length self.now.names) sort }
        ensures { result ≡ nat_eq (kind_of self.now sort) sort }
    {
        self.order.kind_of(sort) == sort
    }

    /// The sort that is written, or its kind, and its kind in any case.
    fn sorted(&self, sorting: &WrittenSort<'_>) -> Result<(Sorted, KindId), AllocError>
        requires { is_among self.now.names (seen_sorting sorting.now).name ≡ true }
        ensures sorted { IfOk result (λ r. sorted_of r.0 ≡ sorted_in self.now (seen_sorting sorting.now)) }
        ensures kind { IfOk result (λ r. r.1 ≡ kind_in self.now (seen_sorting sorting.now)) }
    {
        let (sort, kind) = self.named(sorting.name.as_slice())?;
        if sorting.kind {
            Ok((Sorted::Kind(kind), kind))
        } else {
            Ok((Sorted::Sort(sort), kind))
        }
    }

    /// The sorts and the kinds of a declaration.
    pub fn rank(
        &self,
        alloc: Global,
        args: &[WrittenSort<'_>],
        value: &WrittenSort<'_>,
    ) -> Result<Rank, AllocError>
        requires { unknown_among self.now.names (mentioned_by (seen_sortings args.now) (seen_sorting value.now)) ≡ None }
        ensures { IfOk result (λ r. seen_rank r ≡ rank_of self.now (seen_sortings args.now) (seen_sorting value.now)) }
    {
        let mut sorts = Vec::new(alloc);
        let mut kinds = Vec::new(alloc);
        for arg in args {
            let (sort, kind) = self.sorted(arg)?;
            sorts.push(sort)?;
            kinds.push(kind)?;
        }
        let (result, kind) = self.sorted(value)?;
        Ok(Rank {
            args: sorts,
            result,
            kinds,
            kind,
        })
    }
}
