// The diagrams of all operators of a signature.
ghost use Rattle.std.specs.Prelude.{◌≡◌, ◌<◌, ℕ, length, option_map, Some, codes, IfOk, IfErr, IsTrue};
ghost use Rattle.mw_logic.specs.Signature.{IsSortNamed, at_number};
ghost use Rattle.mw_logic.specs.Accepted.{IsAccepted, IsWellSorted};
ghost use Rattle.mw_logic.specs.Preregular.{HasItsSorts};
ghost use Rattle.mw_sorting.specs.PreregularModulo.{HasNaturals, IsPreregularModulo};
ghost use Rattle.mw_sorts.specs.Diagrams.{AreTablesOf, HaveDiagrams};
ghost use Rattle.mw_poset.specs.SortOrder.{order_of};
ghost use Rattle.mw_sorts.specs.Faults.{HasCause};
ghost use Rattle.mw_sorts.specs.Groupings.{IsOrderSorted, AllGroupAlike};
ghost use Rattle.mw_sorts.specs.Leaving.{AllKeepLow};
ghost use Rattle.mw_sorts.specs.Numbers.{HaveNumbers};

use crate::diagram::{Diagram, diagram_of};
use crate::grouping::first_grouping_fault;
use crate::leaving::first_identity_fault;
use crate::numbers::{Numbers, numbers_of, sort_named};
use crate::sorting::Sorting;
use mw_poset::Poset;
use mw_term::{OpId, Seq, Signature, SortId, Sorted, number_at, numbered};
use std::alloc::{AllocError, Global};

/// The least results of a signature's operators, and the sorts of numerals and of quoted identifiers.
#[derive(Drop)]
pub struct Tables {
    pub(crate) places: Seq<usize>,
    pub(crate) diagrams: Seq<Diagram>,
    pub(crate) numbers: Option<Numbers>,
    /// The sort of quoted identifiers.
    pub(crate) quoted: Option<SortId>,
}

/// Why there are no tables: the signature isn't preregular modulo its axioms, or memory ran out. Of each fault the
/// first operator is named, and its first sorts. Operators come by number, lists of sorts by their first difference,
/// sorts by number, and a kind behind its sorts.
#[derive(Drop)]
pub enum TablesError {
    /// On these sorts the operator takes its arguments, and has no least result.
    NotPreregular { operator: OpId, sorts: Vec<Sorted> },
    /// All operators have least results, but on these three sorts an associative one gives one sort where the first two
    /// are taken together, and another one where the last two are.
    NotAssociative { operator: OpId, sorts: Vec<Sorted> },
    /// All groupings agree besides, but an operator on this sort and on its identity's gives no sort at or above it.
    LowIdentity { operator: OpId, sort: Sorted },
    Memory,
}

impl From<AllocError> for TablesError {
    ghost use Rattle.mw_sorts.specs.declared.tables.TablesError.TheVariants.{Memory};

    ghost from_gives = { λ _ e. e ≡ Memory };

    fn from(_: AllocError) -> Self {
        TablesError::Memory
    }
}

impl Tables {
    /// The tables of a signature's operators, whose sorts are in this order.
    pub fn build(alloc: Global, signature: &Signature, order: &Poset) -> Result<Tables, TablesError>
        requires accepted { IsAccepted signature.now }
        requires well_sorted { IsWellSorted signature.now }
        requires sorts { HasItsSorts signature.now }
        requires order { order.now ≡ order_of signature.now }
        requires numbers { IsTrue signature.now.nat → HasNaturals signature.now }
        requires names { IsTrue signature.now.qid → (S : ℕ) × IsSortNamed signature.now S (codes "Qid") }
        ensures tables { IfOk result (AreTablesOf signature.now) }
        ensures preregular { IfOk result (λ _. IsPreregularModulo signature.now) }
        ensures fault { IfErr result (HasCause signature.now) }
    {
        let sorting = Sorting::of(alloc, signature, order)?;
        let diagrams = all_diagrams(alloc, signature, &sorting)?;
        let numbers = numbers_of(alloc, signature, &sorting, diagrams.as_slice())?;
        // No pairs of these sorts make a cycle.
        let _sorts = order.sorts();
        test_groupings(alloc, signature, &sorting, diagrams.as_slice())?;
        test_identities(alloc, signature, &sorting, diagrams.as_slice(), &numbers)?;
        let quoted = quoted_sort(signature)?;
        Ok(Tables {
            places: sorting.into_places(),
            diagrams: Seq::of(diagrams),
            numbers,
            quoted,
        })
    }

    /// An operator's diagram.
    pub(crate) fn diagram(&self, operator: OpId) -> Option<&Diagram>
        ensures { option_map (λ d. d.now) result ≡ at_number self.now.diagrams operator }
    {
        numbered(self.diagrams.as_slice(), operator)
    }
}

// The sort of quoted identifiers, if they are terms.
fn quoted_sort(signature: &Signature) -> Result<Option<SortId>, AllocError>
    requires { IsTrue signature.now.qid → (S : ℕ) × IsSortNamed signature.now S (codes "Qid") }
    ensures { IfOk result (λ sort. IsTrue signature.now.qid → (S : ℕ) × (sort ≡ Some S)
        × IsSortNamed signature.now S (codes "Qid")) }
{
    if !signature.qid {
        return Ok(None);
    }
    let sort = sort_named(signature, b"Qid".as_slice())?;
    Ok(sort)
}

// Whether the groupings under all associative operators agree.
fn test_groupings(
    alloc: Global,
    signature: &Signature,
    sorting: &Sorting<'_>,
    diagrams: &[Diagram],
) -> Result<(), TablesError>
    requires same { sorting.now.signature ≡ signature.now }
    requires order_sorted { IsOrderSorted signature.now }
    requires diagrams { HaveDiagrams signature.now sorting.now.places diagrams.now }
    ensures alike { IfOk result (λ _. AllGroupAlike signature.now) }
    ensures fault { IfErr result (HasCause signature.now) }
{
    match first_grouping_fault(alloc, signature, sorting, diagrams)? {
        Some((operator, sorts)) => Err(TablesError::NotAssociative { operator, sorts }),
        None => Ok(()),
    }
}

// Whether leaving identities out raises no sort.
fn test_identities(
    alloc: Global,
    signature: &Signature,
    sorting: &Sorting<'_>,
    diagrams: &[Diagram],
    numbers: &Option<Numbers>,
) -> Result<(), TablesError>
    requires same { sorting.now.signature ≡ signature.now }
    requires order_sorted { IsOrderSorted signature.now }
    requires naturals { IsTrue signature.now.nat → HasNaturals signature.now }
    requires diagrams { HaveDiagrams signature.now sorting.now.places diagrams.now }
    requires numbers { HaveNumbers signature.now numbers.now }
    requires alike { AllGroupAlike signature.now }
    ensures low { IfOk result (λ _. AllKeepLow signature.now) }
    ensures fault { IfErr result (HasCause signature.now) }
{
    match first_identity_fault(alloc, signature, sorting, diagrams, numbers)? {
        Some((operator, sort)) => Err(TablesError::LowIdentity { operator, sort }),
        None => Ok(()),
    }
}

// The diagrams of all operators.
fn all_diagrams(
    alloc: Global,
    signature: &Signature,
    sorting: &Sorting<'_>,
) -> Result<Vec<Diagram>, TablesError>
    requires same { sorting.now.signature ≡ signature.now }
    requires accepted { IsAccepted signature.now }
    requires sorts { HasItsSorts signature.now }
    ensures diagrams { IfOk result (λ ds. HaveDiagrams signature.now sorting.now.places ds.items) }
    ensures fault { IfErr result (HasCause signature.now) }
{
    let mut diagrams = Vec::new(alloc);
    for (index, operator) in signature.operators.as_slice().iter().enumerate() {
        let diagram = diagram_of(alloc, sorting, number_at(index)?, operator)?;
        diagrams.push(diagram).map_err(AllocError::from)?;
    }
    Ok(diagrams)
}
