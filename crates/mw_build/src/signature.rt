// The least results of a signature's operators, or what is wrong with it.
ghost use Rattle.std.specs.Prelude.{◌≡◌, ℕ, map, codes, IfOk, IfErr, IsTrue};
ghost use Rattle.mw_logic.specs.Signature.{Operator as OperatorOf, IsOperator, IsSortNamed};
ghost use Rattle.mw_logic.specs.Accepted.{IsAccepted, IsWellSorted};
ghost use Rattle.mw_logic.specs.Preregular.{HasItsSorts, IsPreregular};
ghost use Rattle.mw_sorting.specs.PreregularModulo.{HasNaturals, IsPreregularModulo};
ghost use Rattle.mw_poset.specs.SortOrder.{order_of};
ghost use Rattle.mw_print.specs.Sorts.{sorted_name, IsKindThere};
ghost use Rattle.mw_sorts.specs.Diagrams.{AreTablesOf};
ghost use Rattle.mw_sorts.specs.Faults.{IsFirstFault, HasCause as HasTablesCause};
ghost use Rattle.mw_sorts.specs.Groupings.{IsFirstGroupingFault, AllGroupAlike};
ghost use Rattle.mw_sorts.specs.Leaving.{IsFirstIdentityFault};
ghost use Rattle.mw_term.specs.Signatures.{sorted_of};
ghost use Rattle.mw_module.specs.Causes.{HasCause};
ghost use Rattle.mw_build.specs.SignatureFaults.{SignatureFault, AreThere};

use mw_module::{Fault, FaultKind, UnitError};
use mw_poset::Poset;
use mw_print::print_sorted;
use mw_sorts::{Tables, TablesError};
use mw_term::{Name, OpId, Seq, Signature, Sorted, copy_name};
use std::alloc::{AllocError, Global};

/// The name of a sort or a kind.
fn name(
    alloc: Global,
    signature: &Signature,
    order: &Poset,
    sorted: Sorted,
) -> Result<Name, AllocError>
    requires order { order.now ≡ order_of signature.now }
    requires there { IsKindThere signature.now (sorted_of sorted) }
    ensures { IfOk result (λ name. name ≡ sorted_name signature.now (sorted_of sorted)) }
{
    let mut text = Vec::new(alloc);
    print_sorted(alloc, signature, order, sorted, &mut text)?;
    Ok(Name::of(text))
}

/// The names of sorts and kinds.
fn names(
    alloc: Global,
    signature: &Signature,
    order: &Poset,
    sorts: &[Sorted],
) -> Result<Seq<Name>, AllocError>
    requires order { order.now ≡ order_of signature.now }
    requires there { AreThere signature.now (map sorted_of sorts.now) }
    ensures { IfOk result (λ names. names ≡ map (sorted_name signature.now) (map sorted_of sorts.now)) }
{
    let mut names = Vec::new(alloc);
    let mut rest = sorts;
    while let [sorted, after @ ..] = rest {
        names.push(name(alloc, signature, order, *sorted)?)?;
        rest = after;
    }
    Ok(Seq::of(names))
}

/// The name of an operator that is there.
fn operator_name(alloc: Global, signature: &Signature, operator: OpId) -> Result<Name, AllocError>
    requires { (o : OperatorOf) × IsOperator signature.now operator o }
    ensures { (o : OperatorOf) → IsOperator signature.now operator o → IfOk result (λ n. n ≡ o.spelling) }
{
    let found = &signature.operators.as_slice()[operator as usize - 1];
    copy_name(alloc, &found.spelling)
}

/// That an operator lacks a least result on these sorts.
fn not_preregular(
    alloc: Global,
    signature: &Signature,
    order: &Poset,
    operator: OpId,
    sorts: &[Sorted],
) -> Result<FaultKind, AllocError>
    requires order { order.now ≡ order_of signature.now }
    requires numbers { HasItsSorts signature.now }
    requires first { IsFirstFault signature.now operator (map sorted_of sorts.now) }
    ensures { (line : ℕ) → IfOk result (λ kind. SignatureFault line signature.now (record { line = line; kind = kind })) }
{
    let operator = operator_name(alloc, signature, operator)?;
    let sorts = names(alloc, signature, order, sorts)?;
    Ok(FaultKind::NotPreregular { operator, sorts })
}

/// That the groupings of these sorts under an operator differ.
fn not_associative(
    alloc: Global,
    signature: &Signature,
    order: &Poset,
    operator: OpId,
    sorts: &[Sorted],
) -> Result<FaultKind, AllocError>
    requires order { order.now ≡ order_of signature.now }
    requires numbers { HasItsSorts signature.now }
    requires preregular { IsPreregular signature.now }
    requires first { IsFirstGroupingFault signature.now operator (map sorted_of sorts.now) }
    ensures { (line : ℕ) → IfOk result (λ kind. SignatureFault line signature.now (record { line = line; kind = kind })) }
{
    let operator = operator_name(alloc, signature, operator)?;
    let sorts = names(alloc, signature, order, sorts)?;
    Ok(FaultKind::NotAssociative { operator, sorts })
}

/// That leaving an operator's identity out raises this sort.
fn low_identity(
    alloc: Global,
    signature: &Signature,
    order: &Poset,
    operator: OpId,
    sort: Sorted,
) -> Result<FaultKind, AllocError>
    requires order { order.now ≡ order_of signature.now }
    requires numbers { HasItsSorts signature.now }
    requires preregular { IsPreregular signature.now }
    requires associative { AllGroupAlike signature.now }
    requires first { IsFirstIdentityFault signature.now operator (sorted_of sort) }
    ensures { (line : ℕ) → IfOk result (λ kind. SignatureFault line signature.now (record { line = line; kind = kind })) }
{
    let operator = operator_name(alloc, signature, operator)?;
    let sort = name(alloc, signature, order, sort)?;
    Ok(FaultKind::LowIdentity { operator, sort })
}

/// What is wrong with a signature that has no tables.
fn signature_fault(
    alloc: Global,
    signature: &Signature,
    order: &Poset,
    error: &TablesError,
) -> Result<FaultKind, AllocError>
    requires order { order.now ≡ order_of signature.now }
    requires numbers { HasItsSorts signature.now }
    requires cause { HasTablesCause signature.now error.now }
    ensures { (line : ℕ) → IfOk result (λ kind. SignatureFault line signature.now (record { line = line; kind = kind })) }
{
    match error {
        TablesError::NotPreregular { operator, sorts } => {
            not_preregular(alloc, signature, order, *operator, sorts.as_slice())
        }
        TablesError::NotAssociative { operator, sorts } => {
            not_associative(alloc, signature, order, *operator, sorts.as_slice())
        }
        TablesError::LowIdentity { operator, sort } => {
            low_identity(alloc, signature, order, *operator, *sort)
        }
        TablesError::Memory => Err(AllocError),
    }
}

/// The tables of a signature's operators, whose sorts are in this order, or its fault, at a line.
pub fn tables(
    alloc: Global,
    line: u32,
    signature: &Signature,
    order: &Poset,
) -> Result<Box<Tables>, UnitError>
    requires accepted { IsAccepted signature.now }
    requires well_sorted { IsWellSorted signature.now }
    requires sorts { HasItsSorts signature.now }
    requires order { order.now ≡ order_of signature.now }
    requires numbers { IsTrue signature.now.nat → HasNaturals signature.now }
    requires quotes { IsTrue signature.now.qid → (S : ℕ) × IsSortNamed signature.now S (codes "Qid") }
    ensures tables { IfOk result (λ tables. AreTablesOf signature.now tables.value) }
    ensures preregular { IfOk result (λ _. IsPreregularModulo signature.now) }
    ensures fault { IfErr result (HasCause (SignatureFault line signature.now)) }
{
    match Tables::build(alloc, signature, order) {
        Ok(tables) => Ok(Box::new(alloc, tables).map_err(AllocError::from)?),
        Err(error) => {
            let kind = signature_fault(alloc, signature, order, &error)?;
            Err(UnitError::Fault(Fault { line, kind }))
        }
    }
}
