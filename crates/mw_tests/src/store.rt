// Terms that are kept once each, by number.
use mw_store::{Id, Node, Store, Table};
use mw_term::{OpId, Term, same};
use std::alloc::{AllocError, Global};
use std::test::Fail;

fn constant(alloc: Global, operator: OpId) -> Result<Term, AllocError> {
    Term::apply(alloc, operator, Vec::new(alloc))
}

/// Operator 3 on the constants 1 and 2.
fn pair(alloc: Global) -> Result<Term, AllocError> {
    let mut args = Vec::new(alloc);
    args.push(constant(alloc, 1)?)?;
    args.push(constant(alloc, 2)?)?;
    Term::apply(alloc, 3, args)
}

/// Whether a store has two terms, and the second is a constant.
fn has_second(alloc: Global, store: &Store, operator: OpId) -> Result<bool, AllocError> {
    let wanted = constant(alloc, operator)?;
    Ok(store.len() == 2 && same(store.get(1), &wanted))
}

/// The numbers of the pair, its second part, and the pair again.
fn numbers_in_turn(alloc: Global, store: &mut Store) -> Result<[Id; 3], AllocError> {
    let first = store.intern(alloc, pair(alloc)?)?;
    let second = store.intern(alloc, constant(alloc, 2)?)?;
    let again = store.intern(alloc, pair(alloc)?)?;
    Ok([first, second, again])
}

#[test]
fn terms_have_the_number_of_their_first_mention(rt: HostRuntime) -> Result<(), Fail> {
    let mut store = Store::new(rt.alloc())?;
    let numbers = numbers_in_turn(rt.alloc(), &mut store)?;
    assert_eq!(rt; numbers, [0, 1, 0]);
    assert!(rt; has_second(rt.alloc(), &store, 2)?);
    Ok(())
}

/// The number of an operator on arguments that have numbers in the table.
fn node_on(
    alloc: Global,
    table: &mut Table,
    operator: OpId,
    arguments: &[Node],
) -> Result<Node, AllocError> {
    let count = table.len();
    if arguments.iter().all(|node| (*node as usize) < count) {
        table.make(alloc, operator, arguments)
    } else {
        Err(AllocError)
    }
}

/// The number of the same pair, from its parts.
fn pair_from_parts(alloc: Global, table: &mut Table) -> Result<Node, AllocError> {
    let first = node_on(alloc, table, 1, &[])?;
    let second = node_on(alloc, table, 2, &[])?;
    node_on(alloc, table, 3, &[first, second])
}

/// The number of the pair by a walk.
fn node_of_pair(alloc: Global, table: &mut Table) -> Result<Node, AllocError> {
    let term = pair(alloc)?;
    table.node_of(alloc, &term)
}

/// The numbers of the pair, from its parts twice and by a walk.
fn nodes_in_turn(alloc: Global, table: &mut Table) -> Result<[Node; 3], AllocError> {
    let first = pair_from_parts(alloc, table)?;
    let again = pair_from_parts(alloc, table)?;
    Ok([first, again, node_of_pair(alloc, table)?])
}

/// The numbers of all terms of a table in another one, which had the second constant.
fn numbers_elsewhere(alloc: Global, table: &Table) -> Result<Vec<Node>, AllocError> {
    let mut other = Table::new(alloc);
    node_on(alloc, &mut other, 2, &[])?;
    other.carry(alloc, table)
}

#[test]
fn tables_have_each_term_once(rt: HostRuntime) -> Result<(), Fail> {
    let mut table = Table::new(rt.alloc());
    let nodes = nodes_in_turn(rt.alloc(), &mut table)?;
    assert_eq!(rt; nodes, [2, 2, 2]);
    assert!(rt; table.len() == 3 && table.arguments(2) == [0, 1].as_slice());
    let numbers = numbers_elsewhere(rt.alloc(), &table)?;
    assert_eq!(rt; numbers.as_slice(), [1, 0, 2].as_slice());
    Ok(())
}
