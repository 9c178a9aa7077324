// The sorts of numerals, as a table.
ghost use Rattle.std.specs.Prelude.{◌≡◌, ◌<◌, ◌↔◌, ℕ, length, IfOk, IsTrue, codes};
ghost use Rattle.mw_logic.specs.Term.{numeral};
ghost use Rattle.mw_logic.specs.Signature.{Signature as SignatureOf, IsSortNamed, IsSuccessor};
ghost use Rattle.mw_logic.specs.Accepted.{IsAccepted, IsWellSorted};
ghost use Rattle.mw_logic.specs.Preregular.{IsSortOf, HasItsSorts};
ghost use Rattle.mw_term.specs.Signatures.{sorted_of};
ghost use Rattle.mw_sorting.specs.ComputedSorts.{ComputedSort};
ghost use Rattle.mw_sorting.specs.PreregularModulo.{HasNaturals};
ghost use Rattle.mw_sorting.specs.NumberTable.{entry_of};
ghost use Rattle.mw_sorts.specs.Diagrams.{IsDiagram, HaveDiagrams};
ghost use Rattle.mw_sorts.specs.Numbers.{IsTableOfNumbers, HaveNumbers, FindsSort, Succeeds, FindsSuccessor};
ghost use Rattle.mw_sorts.specs.States.{IsOperatorOf};

use crate::diagram::Diagram;
use crate::look_up::{end_at, place, result_on};
use crate::sorting::Sorting;
use mw_term::{OpId, Operator, Seq, Signature, SortId, Sorted, number_at, numbered};
use std::alloc::{AllocError, Global};

/// The sorts of the first numerals. Behind the last of them comes that of number `back` again.
#[derive(Drop)]
pub struct Numbers {
    entries: Seq<Sorted>,
    back: usize,
}

impl Numbers {
    /// The sort of a numeral.
    pub fn sort(&self, number: u128) -> Sorted
        ensures { (sig : SignatureOf) → IsTableOfNumbers sig self.now
            → ComputedSort sig (numeral number) (sorted_of result) }
    {
        end_at(self.entries.as_slice(), self.entry(number))
    }

    // Where a numeral's sort stands.
    fn entry(&self, number: u128) -> usize
        ensures { self.now.back < length self.now.entries
            → result ≡ entry_of (length self.now.entries) self.now.back number }
    {
        if number < self.back as u128 {
            return number as usize;
        }
        let beyond = number - self.back as u128;
        let cycle = self.entries.as_slice().len().saturating_sub(self.back);
        if cycle == 0 {
            return 0;
        }
        self.back + (beyond % cycle as u128) as usize
    }
}

/// The sort of this name, if there is one.
pub fn sort_named(signature: &Signature, name: &[u8]) -> Result<Option<SortId>, AllocError>
    ensures { IfOk result (FindsSort signature.now name.now) }
{
    for (index, known) in signature.sorts.as_slice().iter().enumerate() {
        if known.as_slice() == name {
            let number = number_at(index)?;
            return Ok(Some(number));
        }
    }
    Ok(None)
}

// Whether the operator is the successor of numbers, whose sort is `nat`.
fn is_successor(sorting: &Sorting<'_>, operator: &Operator, nat: SortId) -> bool
    requires operator { IsOperatorOf sorting.now.signature operator.now }
    requires nat { IsSortOf sorting.now.signature nat }
    ensures { IsTrue result ↔ Succeeds sorting.now.signature nat operator.now }
{
    let [argument] = operator.args.as_slice() else {
        return false;
    };
    if operator.spelling.as_slice() != b"s_".as_slice() {
        return false;
    }
    if !sorting.are_of_one_kind(nat, operator.result) {
        return false;
    }
    sorting.are_of_one_kind(nat, *argument)
}

// The successor of numbers, if there is one.
fn successor(signature: &Signature, sorting: &Sorting<'_>) -> Result<Option<OpId>, AllocError>
    requires same { sorting.now.signature ≡ signature.now }
    requires accepted { IsAccepted signature.now }
    requires sorts { HasItsSorts signature.now }
    requires numbers { IsTrue signature.now.nat }
    ensures { IfOk result (FindsSuccessor signature.now) }
{
    let Some(nat) = sort_named(signature, b"Nat".as_slice())? else {
        return Ok(None);
    };
    for (index, operator) in signature.operators.as_slice().iter().enumerate() {
        if is_successor(sorting, operator, nat) {
            let number = number_at(index)?;
            return Ok(Some(number));
        }
    }
    Ok(None)
}

// The table of the sorts to which the successor leads from `zero`, up to one that stands where an earlier one does.
fn number_table(
    alloc: Global,
    sorting: &Sorting<'_>,
    diagram: &Diagram,
    zero: SortId,
) -> Result<Numbers, AllocError>
    requires accepted { IsAccepted sorting.now.signature }
    requires well_sorted { IsWellSorted sorting.now.signature }
    requires zero { IsSortNamed sorting.now.signature zero (codes "Zero") }
    requires diagram { (f : ℕ) × (is : IsSuccessor sorting.now.signature f)
        × IsDiagram sorting.now.signature sorting.now.places is.operator diagram.now }
    ensures { IfOk result (IsTableOfNumbers sorting.now.signature) }
{
    let places = sorting.places();
    let kind = sorting.entries(alloc, zero)?;
    let width = kind.as_slice().len();
    let mut behind = vec![in alloc; 0usize; width]?;
    let mut entries = Vec::new(alloc);
    let mut last = Sorted::Sort(zero);
    let mut spot = place(places, last, width);
    while behind[spot] == 0 {
        entries.push(last)?;
        behind[spot] = entries.len();
        last = result_on(places, diagram, &[last]);
        spot = place(places, last, width);
    }
    entries.push(last)?;
    Ok(Numbers {
        entries: Seq::of(entries),
        back: behind[spot],
    })
}

/// The table of numerals' sorts, if numerals are terms.
pub fn numbers_of(
    alloc: Global,
    signature: &Signature,
    sorting: &Sorting<'_>,
    diagrams: &[Diagram],
) -> Result<Option<Numbers>, AllocError>
    requires same { sorting.now.signature ≡ signature.now }
    requires accepted { IsAccepted signature.now }
    requires well_sorted { IsWellSorted signature.now }
    requires sorts { HasItsSorts signature.now }
    requires numbers { IsTrue signature.now.nat → HasNaturals signature.now }
    requires diagrams { HaveDiagrams signature.now sorting.now.places diagrams.now }
    ensures { IfOk result (HaveNumbers signature.now) }
{
    if !signature.nat {
        return Ok(None);
    }
    let Some(zero) = sort_named(signature, b"Zero".as_slice())? else {
        return Ok(None);
    };
    let Some(successor) = successor(signature, sorting)? else {
        return Ok(None);
    };
    let Some(diagram) = numbered(diagrams, successor) else {
        return Ok(None);
    };
    let table = number_table(alloc, sorting, diagram, zero)?;
    Ok(Some(table))
}
