// The records of a flattened module.
use crate::records::Records;
use mw_build::Module;
use mw_poset::Poset;
use mw_term::{Fragment, Identity, KindId, Operator, Signature, SortId, Statement};
use std::alloc::AllocError;

/// Writes the records of a module behind a text.
pub fn with_module(text: Vec<u8>, module: &Module) -> Result<Vec<u8>, AllocError> {
    let context = module.context();
    let mut records = Records::behind(text, context.signature());
    records.begin("module")?;
    records.word(module.name().as_slice())?;
    write_sorts(&mut records, context.order())?;
    write_operators(&mut records, context.order())?;
    for (index, statement) in context.statements().iter().enumerate() {
        records.begin(if statement.rule { "rl" } else { "eq" })?;
        records.place(index)?;
        write_statement(&mut records, statement)?;
    }
    Ok(records.into_text())
}

/// The sort of this name, with its kind.
fn sort_named(signature: &Signature, order: &Poset, name: &[u8]) -> Option<(SortId, KindId)> {
    let names = signature.sorts.as_slice();
    for index in 0..order.sorts() {
        if let Some(found) = names.get(index as usize) {
            if found.as_slice() == name {
                return Some((index + 1, order.kind_of(index + 1)));
            }
        }
    }
    None
}

/// The kind of the sort of this name.
fn kind_named(signature: &Signature, order: &Poset, name: &[u8]) -> Option<KindId> {
    match sort_named(signature, order, name) {
        Some((_, kind)) => Some(kind),
        None => None,
    }
}

/// Writes a record of two numbers.
fn write_two(
    records: &mut Records<'_>,
    word: &str,
    first: u32,
    second: u32,
) -> Result<(), AllocError> {
    records.begin(word)?;
    records.number(first)?;
    records.number(second)
}

fn write_sorts(records: &mut Records<'_>, order: &Poset) -> Result<(), AllocError> {
    let signature = records.signature;
    if signature.nat
        && let Some((zero, kind)) = sort_named(signature, order, b"Zero")
    {
        write_two(records, "numbers", zero, kind)?;
    }
    if signature.qid
        && let Some((qid, kind)) = sort_named(signature, order, b"Qid")
    {
        write_two(records, "quoted", qid, kind)?;
    }
    for (index, name) in signature.sorts.as_slice().iter().enumerate() {
        records.begin("sort")?;
        records.place(index)?;
        records.word(name.as_slice())?;
    }
    for (lower, upper) in signature.pairs.as_slice() {
        write_two(records, "subsort", *lower, *upper)?;
    }
    Ok(())
}

fn write_operators(records: &mut Records<'_>, order: &Poset) -> Result<(), AllocError> {
    let signature = records.signature;
    let numbers = if signature.nat {
        kind_named(signature, order, b"Nat")
    } else {
        None
    };
    let truths = kind_named(signature, order, b"Bool");
    for (index, operator) in signature.operators.as_slice().iter().enumerate() {
        records.begin("op")?;
        records.place(index)?;
        write_profile(records, operator)?;
        write_axioms(records, operator)?;
        if is_built(operator, numbers, truths) {
            records.begin_below("built")?;
        }
    }
    Ok(())
}

/// Writes an operator's spelling and kinds, and its declarations.
fn write_profile(records: &mut Records<'_>, operator: &Operator) -> Result<(), AllocError> {
    records.word(operator.spelling.as_slice())?;
    for kind in operator.args.as_slice() {
        records.number(*kind)?;
    }
    records.word(b"->")?;
    records.number(operator.result)?;
    for declaration in operator.declarations.as_slice() {
        records.begin_below("declared")?;
        for sorted in declaration.args.as_slice() {
            records.sorted(*sorted)?;
        }
        records.word(b"->")?;
        records.sorted(declaration.result)?;
    }
    Ok(())
}

fn write_axioms(records: &mut Records<'_>, operator: &Operator) -> Result<(), AllocError> {
    if operator.assoc {
        records.begin_below("assoc")?;
    }
    if operator.comm {
        records.begin_below("comm")?;
    }
    if let Some(identity) = operator.identity {
        records.begin_below("identity")?;
        match identity {
            Identity::Constant(constant) => records.constant(constant)?,
            Identity::Nat(number) => records.numeral(number)?,
        }
    }
    if !operator.frozen.as_slice().is_empty() {
        records.begin_below("frozen")?;
    }
    for argument in operator.frozen.as_slice() {
        records.number(*argument)?;
    }
    Ok(())
}

/// Whether an operator is `true`, `false` or `s_`, or computes, by the kinds of numbers and of truth values.
fn is_built(operator: &Operator, numbers: Option<KindId>, truths: Option<KindId>) -> bool {
    let (count, result) = match operator.spelling.as_slice() {
        b"true" | b"false" => (0, truths),
        b"s_" => (1, numbers),
        b"_+_" | b"_*_" | b"sd" | b"_quo_" | b"_rem_" | b"min" | b"max" => (2, numbers),
        b"_<_" | b"_<=_" | b"_>_" | b"_>=_" => (2, truths),
        _ => return operator.built,
    };
    let args = operator.args.as_slice();
    args.len() == count
        && args.iter().all(|kind| Some(*kind) == numbers)
        && Some(operator.result) == result
}

/// Writes what stands behind a statement's number, and what belongs to it.
fn write_statement(records: &mut Records<'_>, statement: &Statement) -> Result<(), AllocError> {
    if !statement.executable {
        records.word(b"nonexec")?;
    }
    if statement.owise {
        records.word(b"owise")?;
    }
    for (index, variable) in statement.variables.as_slice().iter().enumerate() {
        records.begin_below("variable")?;
        records.place(index)?;
        records.word(b"")?;
        records.name(variable.name.as_slice())?;
        records.number(variable.sort)?;
    }
    records.begin_below("left")?;
    records.term(statement, &statement.left)?;
    records.begin_below("right")?;
    records.term(statement, &statement.right)?;
    for fragment in statement.fragments.as_slice() {
        write_fragment(records, statement, fragment)?;
    }
    Ok(())
}

fn write_fragment(
    records: &mut Records<'_>,
    statement: &Statement,
    fragment: &Fragment,
) -> Result<(), AllocError> {
    match fragment {
        Fragment::Equal(left, right) => {
            records.begin_below("equal")?;
            records.term(statement, left)?;
            records.term(statement, right)
        }
        Fragment::Match(pattern, term) => {
            records.begin_below("match")?;
            records.term(statement, pattern)?;
            records.term(statement, term)
        }
        Fragment::HasSort(term, sorted) => {
            records.begin_below("has-sort")?;
            records.sorted(*sorted)?;
            records.term(statement, term)
        }
        Fragment::Holds(term) => {
            records.begin_below("holds")?;
            records.term(statement, term)
        }
    }
}
