// The decision diagram of an operator.
ghost use Rattle.std.specs.Prelude.{◌≡◌, false, ◌<◌, ◌+◌, ℕ, List, map, length, slice_get, Some, IfOk, IfErr, OnOk, option_map};
ghost use Rattle.mw_logic.specs.Signature.{SameKind, IsOperator};
ghost use Rattle.mw_logic.specs.Accepted.{number_of_sort};
ghost use Rattle.mw_term.specs.Signatures.{sorted_of};
ghost use Rattle.mw_sorts.specs.Diagrams.{IsDiagram};
ghost use Rattle.mw_sorts.specs.Sorting.{AreEntriesOf};
ghost use Rattle.mw_sorts.specs.States.{IsOperatorOf, ways, AreNumbersOf, AreStatesOf, AreKept, IsStart, ComeFrom, IsRowOf, IsLevelOf, AreEndsOf, AreAllThere};
ghost use Rattle.mw_sorts.specs.Marks.{IsDrawn};
ghost use Rattle.mw_sorts.specs.Faults.{IsRefused};

use crate::fault::first_fault;
use crate::narrow::{least_result, narrowed, number_of_ways};
use crate::sorting::Sorting;
use crate::states::States;
use crate::tables::TablesError;
use mw_term::{OpId, Operator, Seq, Sorted};
use std::alloc::{AllocError, Global};

/// For each sort of an argument's kind, and for the kind, the row of the next level.
pub type Row = Seq<usize>;

/// The rows of an argument.
pub type Level = Seq<Row>;

/// The levels of an operator's arguments, and behind the last the results; and whether the operator is associative.
#[derive(Drop)]
pub struct Diagram {
    pub levels: Seq<Level>,
    pub ends: Seq<Sorted>,
    pub assoc: bool,
}

/// The same, where a least result may lack.
#[derive(Drop)]
pub struct Drawing {
    pub levels: Seq<Level>,
    /// The entries of each argument's kind.
    pub entries: Seq<Seq<Sorted>>,
    pub ends: Seq<Option<Sorted>>,
}

// The row of the declarations `alive`.
fn row(
    alloc: Global,
    sorting: &Sorting<'_>,
    operator: &Operator,
    alive: &[usize],
    place: usize,
    entries: &[Sorted],
    next: &mut States,
) -> Result<Row, AllocError>
    requires operator { IsOperatorOf sorting.now.signature operator.now }
    requires alive { AreNumbersOf (ways operator.now) alive.now }
    requires kind { (K : ℕ) × (slice_get operator.now.args place ≡ Some K)
        × AreEntriesOf sorting.now K (map sorted_of entries.now) }
    requires states { AreStatesOf (ways operator.now) next.old }
    ensures kept { OnOk result (AreKept next.old next.new) }
    ensures states { OnOk result (AreStatesOf (ways operator.now) next.new) }
    ensures come { OnOk result (ComeFrom sorting.now.signature (ways operator.now) place (map sorted_of entries.now) alive.now next.old next.new) }
    ensures row { IfOk result (IsRowOf sorting.now.signature (ways operator.now) place (map sorted_of entries.now) alive.now next.new) }
{
    let mut row = Vec::with_capacity(alloc, entries.len())?;
    for entry in entries {
        let narrowed = narrowed(alloc, sorting, operator, alive, place, *entry)?;
        row.push(next.number(narrowed)?)?;
    }
    Ok(Seq::of(row))
}

// The rows of an argument, and the states that they lead to.
fn level(
    alloc: Global,
    sorting: &Sorting<'_>,
    operator: &Operator,
    states: &States,
    place: usize,
    entries: &[Sorted],
) -> Result<(Level, Box<States>), AllocError>
    requires operator { IsOperatorOf sorting.now.signature operator.now }
    requires states { AreStatesOf (ways operator.now) states.now }
    requires kind { (K : ℕ) × (slice_get operator.now.args place ≡ Some K)
        × AreEntriesOf sorting.now K (map sorted_of entries.now) }
    ensures states { IfOk result (λ r. AreStatesOf (ways operator.now) r.1.value) }
    ensures level { IfOk result (λ r. IsLevelOf sorting.now.signature (ways operator.now) place (map sorted_of entries.now) states.now r.1.value r.0) }
{
    let mut next = States::new(alloc);
    let mut rows = Vec::with_capacity(alloc, states.len())?;
    for number in 0..states.len() {
        let alive = states.get(number);
        rows.push(row(alloc, sorting, operator, alive, place, entries, &mut next)?)?;
    }
    let next = Box::new(alloc, next)?;
    Ok((Seq::of(rows), next))
}

// All declarations, with those that a commutative operator has by exchange.
fn all_alive(alloc: Global, operator: &Operator) -> Result<Box<States>, AllocError>
    ensures { IfOk result (λ s. IsStart (ways operator.now) s.value) }
{
    let count = number_of_ways(operator);
    let mut all = Vec::with_capacity(alloc, count)?;
    for number in 0..count {
        all.push(number)?;
    }
    let mut states = States::new(alloc);
    states.number(all)?;
    Ok(Box::new(alloc, states)?)
}

// What stands behind the last argument.
fn ends(
    alloc: Global,
    sorting: &Sorting<'_>,
    operator: &Operator,
    states: &States,
) -> Result<Seq<Option<Sorted>>, AllocError>
    requires operator { IsOperatorOf sorting.now.signature operator.now }
    requires states { AreStatesOf (ways operator.now) states.now }
    ensures { IfOk result (λ es. AreEndsOf sorting.now.signature operator.now states.now (map (option_map sorted_of) es)) }
{
    let mut ends = Vec::with_capacity(alloc, states.len())?;
    for number in 0..states.len() {
        ends.push(least_result(sorting, operator, states.get(number)))?;
    }
    Ok(Seq::of(ends))
}

fn drawn(alloc: Global, sorting: &Sorting<'_>, operator: &Operator) -> Result<Drawing, AllocError>
    requires operator { IsOperatorOf sorting.now.signature operator.now }
    ensures { IfOk result (λ d. IsDrawn sorting.now operator.now d.levels (map (map sorted_of) d.entries) (map (option_map sorted_of) d.ends)) }
{
    let mut states = all_alive(alloc, operator)?;
    let mut levels = Vec::new(alloc);
    let mut lists = Vec::new(alloc);
    for (place, kind) in operator.args.as_slice().iter().enumerate() {
        let entries = sorting.entries(alloc, *kind)?;
        let (rows, next) = level(alloc, sorting, operator, &states, place, entries.as_slice())?;
        levels.push(rows)?;
        lists.push(Seq::of(entries))?;
        states = next;
    }
    Ok(Drawing {
        levels: Seq::of(levels),
        entries: Seq::of(lists),
        ends: ends(alloc, sorting, operator, &states)?,
    })
}

// The results, if each is there.
fn all_results(alloc: Global, ends: &[Option<Sorted>]) -> Result<Option<Seq<Sorted>>, AllocError>
    ensures { IfOk result (AreAllThere ends.now) }
{
    let mut results = Vec::with_capacity(alloc, ends.len())?;
    for end in ends {
        match end {
            Some(result) => results.push(*result)?,
            None => return Ok(None),
        }
    }
    Ok(Some(Seq::of(results)))
}

/// The diagram of operator `number`.
pub fn diagram_of(
    alloc: Global,
    sorting: &Sorting<'_>,
    number: OpId,
    operator: &Operator,
) -> Result<Diagram, TablesError>
    requires operator { IsOperatorOf sorting.now.signature operator.now }
    ensures diagram { IfOk result (IsDiagram sorting.now.signature sorting.now.places operator.now) }
    ensures fault { IfErr result (IsRefused sorting.now.signature number operator.now) }
{
    let drawing = drawn(alloc, sorting, operator)?;
    match all_results(alloc, drawing.ends.as_slice())? {
        Some(ends) => Ok(Diagram {
            levels: drawing.levels,
            ends,
            assoc: operator.assoc,
        }),
        None => Err(TablesError::NotPreregular {
            operator: number,
            sorts: first_fault(alloc, sorting, operator, &drawing)?,
        }),
    }
}
