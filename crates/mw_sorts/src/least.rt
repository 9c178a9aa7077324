// The least sort of a term.
ghost use Rattle.std.specs.Prelude.{◌≡◌, ℕ, List, map, IsTrue};
ghost use Rattle.mw_logic.specs.Term.{numeral, quoted, apply};
ghost use Rattle.mw_logic.specs.Terms.{terms_of};
ghost use Rattle.mw_logic.specs.Signature.{Signature as SignatureOf, Sorted as SortedOf, Operator as OperatorOf, IsOperator, IsRawTerm, AreRawTerms};
ghost use Rattle.mw_logic.specs.Sorts.{IsLeastSort};
ghost use Rattle.mw_logic.specs.Parts.{nested, all_nested};
ghost use Rattle.mw_logic.specs.NormalForm.{normal_form};
ghost use Rattle.mw_term.specs.Signatures.{sorted_of};
ghost use Rattle.mw_sorting.specs.ComputedSorts.{IsResultOn, ComputedSort, ComputedSorts, Folds};
ghost use Rattle.mw_sorting.specs.PreregularModulo.{IsPreregularModulo};
ghost use Rattle.mw_sorts.specs.Diagrams.{IsDiagram, AreTablesOf};

use crate::diagram::Diagram;
use crate::look_up::{NOTHING, end_at, next_row, on_two};
use crate::tables::Tables;
use mw_term::{OpId, Sorted, Term, View};

/// The least sort of a term, or its kind, by the tables of its signature. It takes no memory, and one look-up for
/// each argument in the term.
pub fn least_sort(tables: &Tables, term: &Term) -> Sorted
    ensures { (sig : SignatureOf) → AreTablesOf sig tables.now → IsPreregularModulo sig
        → normal_form sig (nested sig term.now) ≡ term.now → IsRawTerm sig (nested sig term.now)
        → IsLeastSort sig (nested sig term.now) (sorted_of result) }
{
    computed_sort(tables, term)
}

// The computed sort of a term.
#[cycle(computed)]
fn computed_sort(tables: &Tables, term: &Term) -> Sorted
    ensures { (sig : SignatureOf) → AreTablesOf sig tables.now → IsPreregularModulo sig
        → IsRawTerm sig (nested sig term.now) → ComputedSort sig term.now (sorted_of result) }
{
    match term.view() {
        View::Nat(number) => number_sort(tables, number),
        View::Qid(_) => quoted_sort(tables),
        View::Var(variable) => Sorted::Sort(variable.sort),
        View::Op(operator, args) => applied_sort(tables, operator, args),
    }
}

fn number_sort(tables: &Tables, number: u128) -> Sorted
    ensures { (sig : SignatureOf) → AreTablesOf sig tables.now → IsTrue sig.nat
        → ComputedSort sig (numeral number) (sorted_of result) }
{
    match &tables.numbers {
        Some(numbers) => numbers.sort(number),
        None => NOTHING,
    }
}

fn quoted_sort(tables: &Tables) -> Sorted
    ensures { (sig : SignatureOf) (q : List ℕ) → AreTablesOf sig tables.now → IsTrue sig.qid
        → ComputedSort sig (quoted q) (sorted_of result) }
{
    match tables.quoted {
        Some(sort) => Sorted::Sort(sort),
        None => NOTHING,
    }
}

#[cycle(computed)]
fn applied_sort(tables: &Tables, operator: OpId, args: &[Term]) -> Sorted
    ensures { (sig : SignatureOf) → AreTablesOf sig tables.now → IsPreregularModulo sig
        → IsRawTerm sig (nested sig (apply operator (terms_of args.now)))
        → ComputedSort sig (apply operator (terms_of args.now)) (sorted_of result) }
{
    let Some(diagram) = tables.diagram(operator) else {
        return NOTHING;
    };
    if diagram.assoc {
        folded_sort(tables, diagram, args)
    } else {
        result_sort(tables, diagram, args)
    }
}

// The result of an operator on terms.
#[cycle(computed)]
fn result_sort(tables: &Tables, diagram: &Diagram, args: &[Term]) -> Sorted
    ensures { (sig : SignatureOf) (o : OperatorOf) → AreTablesOf sig tables.now → IsPreregularModulo sig
        → IsDiagram sig tables.now.places o diagram.now
        → AreRawTerms sig (all_nested sig (terms_of args.now)) o.args
        → (Ss : List SortedOf) × ComputedSorts sig (terms_of args.now) Ss × IsResultOn sig o Ss (sorted_of result) }
{
    let places = tables.places.as_slice();
    let levels = diagram.levels.as_slice();
    let mut row = 0;
    for i in 0..args.len() {
        let sort = computed_sort(tables, &args[i]);
        row = next_row(places, levels, i, row, sort);
    }
    end_at(diagram.ends.as_slice(), row)
}

// An associative operator over terms, from the last one back.
#[cycle(computed)]
fn folded_sort(tables: &Tables, diagram: &Diagram, args: &[Term]) -> Sorted
    ensures { (sig : SignatureOf) (f : ℕ) (o : OperatorOf) → AreTablesOf sig tables.now → IsPreregularModulo sig
        → IsOperator sig f o → IsTrue o.assoc
        → IsDiagram sig tables.now.places o diagram.now → IsRawTerm sig (nested sig (apply f (terms_of args.now)))
        → Folds sig o (terms_of args.now) (sorted_of result) }
{
    let places = tables.places.as_slice();
    if args.is_empty() {
        return NOTHING;
    }
    let mut i = args.len() - 1;
    let mut sort = computed_sort(tables, &args[i]);
    while i > 0 {
        i -= 1;
        let before = computed_sort(tables, &args[i]);
        sort = on_two(places, diagram, before, sort);
    }
    sort
}
