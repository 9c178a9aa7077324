// Terms, the arguments that are taken out of them, the hashes that tell them apart, and the paths in them.
use mw_redex::Places;
use mw_term::{Name, OpId, Term, VarId, View, copy, depth, same};
use std::alloc::{AllocError, Global};
use std::test::Fail;

/// Numbers above 2^64.
const NUMBERS: [u128; 4] = [
    18446744073709551616,
    18446744073709551621,
    36893488147419103231,
    340282366920938463463374607431768211455,
];

/// Operator 7 on the first of these numbers.
fn applied(alloc: Global, count: usize) -> Result<Term, AllocError> {
    let mut args = Vec::new(alloc);
    for number in NUMBERS.iter().take(count) {
        args.push(Term::numeral(alloc, *number)?)?;
    }
    Term::apply(alloc, 7, args)
}

/// The numbers that the terms are, with 0 for a term that is none.
fn numbers(alloc: Global, terms: &[Term]) -> Result<Vec<u128>, AllocError> {
    let mut found = Vec::new(alloc);
    for term in terms {
        let number = match term.view() {
            View::Nat(number) => number,
            _ => 0,
        };
        found.push(number)?;
    }
    Ok(found)
}

#[test]
fn arguments_are_taken_out_of_terms(rt: HostRuntime) -> Result<(), Fail> {
    let alloc = rt.alloc();
    for count in 0..5 {
        let expected = &NUMBERS[..count.min(NUMBERS.len())];
        let term = applied(alloc, count)?;
        let shared = copy(&term)?.into_args(alloc)?;
        assert_eq!(rt; numbers(alloc, shared.as_slice())?.as_slice(), expected);
        let alone = term.into_args(alloc)?;
        assert_eq!(rt; numbers(alloc, alone.as_slice())?.as_slice(), expected);
    }
    Ok(())
}

#[test]
fn names_stand_in_terms(rt: HostRuntime) -> Result<(), Fail> {
    let alloc = rt.alloc();
    let quoted = Term::quoted(alloc, Name::of(vec![in alloc; b'q']?))?;
    assert_eq!(rt; depth(&quoted), 1);
    assert!(rt; matches!(quoted.view(), View::Qid(name) if name.as_slice() == b"q".as_slice()));
    let name = Name::of(vec![in alloc; b'X']?);
    let variable = Term::variable(alloc, VarId { name, sort: 3 })?;
    assert!(rt;
        matches!(variable.view(), View::Var(x) if x.name.as_slice() == b"X".as_slice() && x.sort == 3)
    );
    assert!(rt; variable.into_args(alloc)?.is_empty());
    Ok(())
}

/// An operator on the numerals from one number up to another.
fn counted(alloc: Global, operator: OpId, first: u128, end: u128) -> Result<Term, AllocError> {
    let mut args = Vec::new(alloc);
    for number in first..end {
        args.push(Term::numeral(alloc, number)?)?;
    }
    Term::apply(alloc, operator, args)
}

/// A place and a count, and the first number of the arguments there and the one behind the last.
type Stretch = (usize, usize, u128, u128);

static STRETCHES: [Stretch; 7] = [
    (0, 40, 0, 40),
    (0, 39, 0, 39),
    (1, 39, 1, 40),
    (38, 9, 38, 40),
    (5, 2, 5, 7),
    (7, 0, 7, 7),
    (50, 3, 40, 40),
];

fn is_stretch(alloc: Global, term: &Term, row: Stretch) -> Result<bool, AllocError> {
    let (from, count, first, end) = row;
    let stretch = term.section(alloc, 8, from, count)?;
    let wanted = counted(alloc, 8, first, end)?;
    Ok(same(&stretch, &wanted) && stretch.hash() == wanted.hash())
}

#[test]
fn stretches_of_arguments_are_terms(rt: HostRuntime) -> Result<(), Fail> {
    let term = counted(rt.alloc(), 7, 0, 40)?;
    for row in &STRETCHES {
        assert!(rt; is_stretch(rt.alloc(), &term, *row)?, "{row:?}");
    }
    Ok(())
}

/// The last two of four numerals with operator 7 before the arguments of a term.
fn put_before(alloc: Global, last: Term) -> Result<Term, AllocError> {
    let mut terms = counted(alloc, 9, 0, 4)?.into_args(alloc)?;
    let from = terms.len().min(2);
    Term::apply_onto(alloc, 7, &mut terms, from, last)
}

fn is_put_before(alloc: Global, last: Term, end: u128) -> Result<bool, AllocError> {
    let term = put_before(alloc, last)?;
    Ok(same(&term, &counted(alloc, 7, 2, end)?))
}

/// The same where something else holds the arguments too.
fn is_put_before_held(alloc: Global, end: u128) -> Result<bool, AllocError> {
    let last = counted(alloc, 9, 4, end)?;
    is_put_before(alloc, copy(&last)?, end)
}

#[test]
fn terms_come_before_arguments(rt: HostRuntime) -> Result<(), Fail> {
    let alloc = rt.alloc();
    for end in [4, 7, 50] {
        assert!(rt;
            is_put_before(alloc, counted(alloc, 9, 4, end)?, end)?,
            "{end}"
        );
        assert!(rt; is_put_before_held(alloc, end)?, "{end}");
    }
    Ok(())
}

/// The arguments of a term with operator 7, and behind them numerals from one up to another.
fn put_behind(alloc: Global, first: Term, start: u128, end: u128) -> Result<Term, AllocError> {
    let mut terms = counted(alloc, 9, start, end)?.into_args(alloc)?;
    Term::apply_after(alloc, 7, first, &mut terms, 0)
}

fn is_put_behind(alloc: Global, first: Term, start: u128, end: u128) -> Result<bool, AllocError> {
    let term = put_behind(alloc, first, start, end)?;
    Ok(same(&term, &counted(alloc, 7, 0, end)?))
}

/// The same where something else holds the arguments too.
fn is_put_behind_held(alloc: Global, start: u128, end: u128) -> Result<bool, AllocError> {
    let first = counted(alloc, 9, 0, start)?;
    is_put_behind(alloc, copy(&first)?, start, end)
}

#[test]
fn terms_come_behind_arguments(rt: HostRuntime) -> Result<(), Fail> {
    let alloc = rt.alloc();
    assert!(rt; is_put_behind_held(alloc, 3, 4)?);
    for end in [21, 40] {
        assert!(rt;
            is_put_behind(alloc, counted(alloc, 9, 0, 20)?, 20, end)?,
            "{end}"
        );
        assert!(rt; is_put_behind_held(alloc, 20, end)?, "{end}");
    }
    Ok(())
}

fn hash(made: Result<Term, AllocError>) -> Result<u32, AllocError> {
    Ok(made?.hash())
}

#[test]
fn hashes_are_those_of_the_definition(rt: HostRuntime) -> Result<(), Fail> {
    let alloc = rt.alloc();
    assert_eq!(rt; hash(Term::numeral(alloc, 4294967301))?, 5);
    let name = Name::of(vec![in alloc; 39, 113]?);
    assert_eq!(rt; hash(Term::quoted(alloc, name))?, 113 * 31 + 39);
    let name = Name::of(vec![in alloc; 88]?);
    assert_eq!(rt; hash(Term::variable(alloc, VarId { name, sort: 3 }))?, 91);
    assert_eq!(rt; hash(Term::apply(alloc, 2, Vec::new(alloc)))?, 198677742);
    Ok(())
}

/// The paths of a term in order, as one list, each behind a 0. Past the last one there is none, however often it is
/// asked.
fn all_paths(alloc: Global, term: &Term) -> Result<Vec<u32>, AllocError> {
    let mut places = Places::new(alloc, term)?;
    let mut seen = Vec::new(alloc);
    for _ in 0..7 {
        if let Some(path) = places.next()? {
            seen.push(0)?;
            seen.extend_from_slice(path.as_slice())?;
        }
    }
    Ok(seen)
}

/// Operator 7 on operator 8 on 0 and 1, and on 2.
fn nested(alloc: Global) -> Result<Term, AllocError> {
    let mut args = Vec::new(alloc);
    args.push(counted(alloc, 8, 0, 2)?)?;
    args.push(Term::numeral(alloc, 2)?)?;
    Term::apply(alloc, 7, args)
}

#[test]
fn paths_are_told_breadth_first(rt: HostRuntime) -> Result<(), Fail> {
    let term = nested(rt.alloc())?;
    let paths = all_paths(rt.alloc(), &term)?;
    assert_eq!(rt;
        paths.as_slice(),
        [0, 0, 1, 0, 2, 0, 1, 1, 0, 1, 2].as_slice()
    );
    Ok(())
}
