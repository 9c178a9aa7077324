// Terms that no source spells yet: numerals and their successors, and operators with axioms and identities.
ghost use Rattle.std.specs.Prelude.{◌≡◌, ◌∷◌, [], IfOk, IsTrue, codes, option_map};
ghost use Rattle.mw_logic.specs.Term.{numeral};
ghost use Rattle.mw_logic.specs.Preregular.{IsSortOf};
ghost use Rattle.mw_term.specs.Raws.{raw_term, raw_terms};
ghost use Rattle.mw_term.specs.Signatures.{identity_of as identity_named};
ghost use Rattle.mw_poset.specs.SortOrder.{order_of};
ghost use Rattle.mw_tests.specs.Numbers.{plain_of, joining_of, closed_on, numbers, IsTerm, AreTerms, MayTake};
ghost use Rattle.mw_tests.specs.Numbers.{s_of_numbers, f_of_bags, g_of_numbers, c_of_numbers, h_of_numbers};

use mw_canon::{Axioms, CanonError, Facts, canon, parts, rebuild};
use mw_poset::Poset;
use mw_sorts::{Tables, least_sort};
use mw_stack::put_near;
use mw_term::{
    Declaration, Identity, KindId, Name, OpId, Operator, Raw, Raws, Seq, Signature, SortId, Sorted,
    Term, VarId, copy_name, same,
};
use std::alloc::{AllocError, Global};
use std::test::Fail;

const ZERO: Sorted = Sorted::Sort(1);

const NONZERO: Sorted = Sorted::Sort(2);

const NUMBER: Sorted = Sorted::Sort(3);

const BAG: Sorted = Sorted::Sort(4);

const NO_SORT: Sorted = Sorted::Kind(1);

const NEXT: OpId = 1;

const F: OpId = 2;

const G: OpId = 3;

const C: OpId = 4;

const H: OpId = 5;

/// An operator on terms of kind 1, without axioms.
fn plain(
    alloc: Global,
    spelling: &[u8],
    args: Vec<KindId>,
    declarations: Vec<Declaration>,
) -> Result<Operator, AllocError>
    ensures { IfOk result (λ o. o ≡ plain_of spelling.now args.items declarations.items) }
{
    let spelling = Name::of(spelling.to_vec(alloc)?);
    Ok(Operator {
        spelling,
        args: Seq::of(args),
        result: 1,
        declarations: Seq::of(declarations),
        assoc: false,
        comm: false,
        identity: None,
        prec: 0,
        gather: Seq::of(Vec::new(alloc)),
        config: false,
        frozen: Seq::of(Vec::new(alloc)),
        built: false,
    })
}

/// An associative operator.
fn joining(
    alloc: Global,
    spelling: &[u8],
    declarations: Vec<Declaration>,
    comm: bool,
    identity: Option<Identity>,
) -> Result<Operator, AllocError>
    ensures { IfOk result (λ o. o ≡ joining_of spelling.now declarations.items comm
        (option_map identity_named identity)) }
{
    let mut operator = plain(alloc, spelling, vec![in alloc; 1, 1]?, declarations)?;
    operator.assoc = true;
    operator.comm = comm;
    operator.identity = identity;
    Ok(operator)
}

/// The declaration on two terms of a sort, with a result of that sort.
fn closed(alloc: Global, sort: SortId) -> Result<Declaration, AllocError>
    ensures { IfOk result (λ d. d ≡ closed_on sort) }
{
    let args = Seq::of(vec![in alloc; Sorted::Sort(sort), Sorted::Sort(sort)]?);
    let result = Sorted::Sort(sort);
    Ok(Declaration { args, result })
}

/// `s_` from numbers to numbers that aren't zero.
fn operator_s(alloc: Global) -> Result<Operator, AllocError>
    ensures { IfOk result (λ o. o ≡ s_of_numbers) }
{
    let args = Seq::of(vec![in alloc; NUMBER]?);
    let result = NONZERO;
    let declarations = vec![in alloc; Declaration { args, result }]?;
    let kinds = vec![in alloc; 1]?;
    let operator = plain(alloc, b"s_".as_slice(), kinds, declarations)?;
    Ok(operator)
}

/// f on bags, with 0 as its identity.
fn operator_f(alloc: Global) -> Result<Operator, AllocError>
    ensures { IfOk result (λ o. o ≡ f_of_bags) }
{
    let declarations = vec![in alloc; closed(alloc, 4)?]?;
    let zero = Some(Identity::Nat(0));
    let operator = joining(alloc, b"f".as_slice(), declarations, true, zero)?;
    Ok(operator)
}

/// g on numbers, whose order stays.
fn operator_g(alloc: Global) -> Result<Operator, AllocError>
    ensures { IfOk result (λ o. o ≡ g_of_numbers) }
{
    let declarations = vec![in alloc; closed(alloc, 2)?, closed(alloc, 3)?]?;
    let operator = joining(alloc, b"g".as_slice(), declarations, false, None)?;
    Ok(operator)
}

/// A number c.
fn operator_c(alloc: Global) -> Result<Operator, AllocError>
    ensures { IfOk result (λ o. o ≡ c_of_numbers) }
{
    let args = Seq::of(Vec::new(alloc));
    let result = NUMBER;
    let declarations = vec![in alloc; Declaration { args, result }]?;
    let operator = plain(alloc, b"c".as_slice(), Vec::new(alloc), declarations)?;
    Ok(operator)
}

/// h on numbers, with c as its identity.
fn operator_h(alloc: Global) -> Result<Operator, AllocError>
    ensures { IfOk result (λ o. o ≡ h_of_numbers) }
{
    let declarations = vec![in alloc; closed(alloc, 3)?]?;
    let constant = Some(Identity::Constant(C));
    let operator = joining(alloc, b"h".as_slice(), declarations, false, constant)?;
    Ok(operator)
}

fn operators(alloc: Global) -> Result<Vec<Operator>, AllocError>
    ensures { IfOk result (λ os. os.items
        ≡ s_of_numbers ∷ f_of_bags ∷ g_of_numbers ∷ c_of_numbers ∷ h_of_numbers ∷ []) }
{
    let mut operators = Vec::new(alloc);
    operators.push(operator_s(alloc)?)?;
    operators.push(operator_f(alloc)?)?;
    operators.push(operator_g(alloc)?)?;
    operators.push(operator_c(alloc)?)?;
    operators.push(operator_h(alloc)?)?;
    Ok(operators)
}

fn names(alloc: Global) -> Result<Vec<Name>, AllocError>
    ensures { IfOk result (λ ns. ns.items ≡ codes "Zero" ∷ codes "NzNat" ∷ codes "Nat" ∷ codes "Bag" ∷ []) }
{
    let names = vec![in alloc;
        Name::of(b"Zero".to_vec(alloc)?),
        Name::of(b"NzNat".to_vec(alloc)?),
        Name::of(b"Nat".to_vec(alloc)?),
        Name::of(b"Bag".to_vec(alloc)?),
    ]?;
    Ok(names)
}

fn signature(alloc: Global) -> Result<Box<Signature>, Fail>
    ensures { IfOk result (λ s. s.value ≡ numbers) }
{
    let pairs = vec![in alloc; (1, 3), (2, 3), (3, 4)]?;
    let signature = Signature {
        sorts: Seq::of(names(alloc)?),
        pairs: Seq::of(pairs),
        operators: Seq::of(operators(alloc)?),
        nat: true,
        qid: false,
    };
    Ok(Box::new(alloc, signature)?)
}

fn order(alloc: Global, signature: &Signature) -> Result<Box<Poset>, Fail>
    requires { signature.now ≡ numbers }
    ensures { IfOk result (λ p. p.value ≡ order_of numbers) }
{
    match Poset::build(alloc, 4, signature.pairs.as_slice()) {
        Ok(order) => Ok(Box::new(alloc, order)?),
        Err(_) => Err(Fail::from("no order of sorts")),
    }
}

fn facts(alloc: Global) -> Result<Box<Facts>, Fail>
    ensures { IfOk result (λ f. f.value ≡ numbers) }
{
    let signature = signature(alloc)?;
    let order = order(alloc, &signature)?;
    let facts = Facts::of(alloc, Box::into_inner(signature), &order)?;
    Ok(Box::new(alloc, facts)?)
}

fn tables(alloc: Global) -> Result<Box<Tables>, Fail> {
    let signature = signature(alloc)?;
    let order = order(alloc, &signature)?;
    match Tables::build(alloc, &signature, &order) {
        Ok(tables) => Ok(Box::new(alloc, tables)?),
        Err(_) => Err(Fail::from("not preregular modulo its axioms")),
    }
}

/// A numeral, the largest one, or a variable: x and y are numbers, b is a bag.
fn leaf(alloc: Global, word: &str) -> Result<Raw, Fail> {
    let sort = match word {
        "x" | "y" => 3,
        "b" => 4,
        "max" => return Ok(Raw::Nat(u128::MAX)),
        _ => match word.parse::<u128>() {
            Ok(number) => return Ok(Raw::Nat(number)),
            Err(_) => return Err(Fail::from("another word")),
        },
    };
    let name = Name::of(word.as_bytes().to_vec(alloc)?);
    Ok(Raw::Var(VarId { name, sort }))
}

fn operator_named(name: &str) -> Option<OpId> {
    match name {
        "s" => Some(NEXT),
        "f" => Some(F),
        "g" => Some(G),
        "c" => Some(C),
        "h" => Some(H),
        _ => None,
    }
}

/// Puts an operator on the last terms of a list.
fn apply(alloc: Global, operator: OpId, count: usize, terms: &mut Vec<Raw>) -> Result<(), Fail> {
    let mut args = Vec::new(alloc);
    for _ in 0..count {
        let Some(term) = terms.pop() else {
            return Err(Fail::from("too few terms"));
        };
        args.push(term)?;
    }
    args.reverse();
    terms.push(Raw::Op(operator, Raws::of(args)))?;
    Ok(())
}

fn read(alloc: Global, word: &str, terms: &mut Vec<Raw>) -> Result<(), Fail> {
    let Some((name, count)) = word.split_once('/') else {
        terms.push(leaf(alloc, word)?)?;
        return Ok(());
    };
    let (Some(operator), Ok(count)) = (operator_named(name), count.parse::<usize>()) else {
        return Err(Fail::from("another operator"));
    };
    if operator != NEXT {
        return apply(alloc, operator, count, terms);
    }
    for _ in 0..count {
        apply(alloc, operator, 1, terms)?;
    }
    Ok(())
}

/// The term that words spell. Each operator stands behind its arguments, with their number, and `s_` with how often it
/// stands there.
fn spelled(alloc: Global, text: &str) -> Result<Raw, Fail> {
    let mut terms = Vec::new(alloc);
    for word in text.split(' ') {
        read(alloc, word, &mut terms)?;
    }
    match terms.pop() {
        Some(term) if terms.is_empty() => Ok(term),
        _ => Err(Fail::from("not one term")),
    }
}

fn may_take(operator: OpId, count: usize) -> bool
    ensures { IsTrue result → MayTake operator count }
{
    match operator {
        NEXT => count == 1,
        C => count == 0,
        F | G | H => count > 0,
        _ => false,
    }
}

fn is_sort(sort: SortId) -> bool
    ensures { IsTrue result → IsSortOf numbers sort }
{
    sort > 0 && sort <= 4
}

/// Each number is a numeral.
fn shows_numeral(number: u128)
    ensures { IsTerm (numeral number) }
{
    let _ = number;
}

#[cycle(test)]
fn is_term(raw: &Raw) -> bool
    ensures { IsTrue result → IsTerm (raw_term raw.now) }
{
    match raw {
        Raw::Nat(number) => {
            shows_numeral(*number);
            true
        }
        Raw::Qid(_) => false,
        Raw::Var(x) => is_sort(x.sort),
        Raw::Op(operator, args) => {
            let args = args.as_slice();
            may_take(*operator, args.len()) && are_terms(args)
        }
    }
}

#[cycle(test)]
fn are_terms(terms: &[Raw]) -> bool
    ensures { IsTrue result → AreTerms (raw_terms terms.now) }
{
    let mut rest = terms;
    while let [term, after @ ..] = rest {
        if !is_term(term) {
            return false;
        }
        rest = after;
    }
    true
}

/// The same term, with no axiom used.
#[cycle(kept)]
fn kept(alloc: Global, raw: &Raw) -> Result<Term, AllocError> {
    match raw {
        Raw::Nat(number) => Term::numeral(alloc, *number),
        Raw::Qid(name) => Term::quoted(alloc, copy_name(alloc, name)?),
        Raw::Var(x) => {
            let name = copy_name(alloc, &x.name)?;
            let sort = x.sort;
            Term::variable(alloc, VarId { name, sort })
        }
        Raw::Op(operator, args) => {
            let terms = all_kept(alloc, args.as_slice())?;
            Term::apply(alloc, *operator, terms)
        }
    }
}

#[cycle(kept)]
fn all_kept(alloc: Global, args: &[Raw]) -> Result<Vec<Term>, AllocError> {
    let mut terms = Vec::new(alloc);
    let mut rest = args;
    while let [arg, after @ ..] = rest {
        terms.push(kept(alloc, arg)?)?;
        rest = after;
    }
    Ok(terms)
}

fn term(alloc: Global, text: &str) -> Result<Term, Fail> {
    let raw = spelled(alloc, text)?;
    Ok(kept(alloc, &raw)?)
}

fn terms(alloc: Global, texts: &[&str]) -> Result<Vec<Term>, Fail> {
    let mut terms = Vec::new(alloc);
    for text in texts {
        terms.push(term(alloc, text)?)?;
    }
    Ok(terms)
}

/// A term as it is written, its canonical term and the least sort of that, or why there is none.
type Row = (&'static str, Result<(&'static str, Sorted), CanonError>);

static ROWS: [Row; 20] = [
    ("0", Ok(("0", ZERO))),
    ("0 s/1", Ok(("1", NONZERO))),
    ("5 s/1", Ok(("6", NONZERO))),
    ("max", Ok(("max", NONZERO))),
    ("max s/1", Err(CanonError::Nat)),
    ("max s/1 0 f/2", Err(CanonError::Nat)),
    ("x s/1", Ok(("x s/1", NONZERO))),
    ("b s/1", Ok(("b s/1", NO_SORT))),
    ("0 x f/2", Ok(("x", NUMBER))),
    ("0 0 f/2", Ok(("0", ZERO))),
    ("0 5 0 f/3", Ok(("5", NONZERO))),
    ("3 0 1 f/2 f/2", Ok(("1 3 f/2", BAG))),
    ("2 x 2 f/2 f/2", Ok(("2 2 x f/3", BAG))),
    ("x 1 s/1 b 2 f/2 f/3", Ok(("2 2 b x f/4", BAG))),
    ("x c/0 f/2", Ok(("c/0 x f/2", BAG))),
    ("7 4 g/2 3 g/2", Ok(("7 4 3 g/3", NONZERO))),
    ("x 7 0 g/2 g/2", Ok(("x 7 0 g/3", NUMBER))),
    ("b 1 g/2", Ok(("b 1 g/2", NO_SORT))),
    ("c/0 x c/0 h/2 h/2", Ok(("x", NUMBER))),
    ("c/0 c/0 h/2", Ok(("c/0", NUMBER))),
];

/// Terms at the limit of 1,000 levels: numerals are one, and nested f are one.
static LIMITS: [Row; 7] = [
    ("x s/999", Ok(("x s/999", NONZERO))),
    ("x s/1000", Err(CanonError::Deep)),
    ("5 s/1000", Ok(("1005", NONZERO))),
    ("max s/999", Err(CanonError::Nat)),
    ("max s/1000", Err(CanonError::Deep)),
    ("y x s/998 x f/2 f/2", Ok(("x s/998 x y f/3", BAG))),
    ("x s/999 x f/2", Err(CanonError::Deep)),
];

fn holds(alloc: Global, facts: &Facts, tables: &Tables, row: Row) -> Result<bool, Fail>
    requires { facts.now ≡ numbers }
{
    let (written, wanted) = row;
    let raw = spelled(alloc, written)?;
    if !is_term(&raw) {
        return Err(Fail::from("another term"));
    }
    match (canon(alloc, facts, &raw), wanted) {
        (Ok(found), Ok((text, sort))) => {
            let wanted = term(alloc, text)?;
            Ok(same(&found, &wanted) && least_sort(tables, &found) == sort)
        }
        (Err(found), Err(wanted)) => Ok(found == wanted),
        _ => Ok(false),
    }
}

/// The first term whose row doesn't hold.
fn first_wrong(alloc: Global, rows: &[Row]) -> Result<Option<&'static str>, Fail> {
    let facts = facts(alloc)?;
    let tables = tables(alloc)?;
    for row in rows {
        if !holds(alloc, &facts, &tables, *row)? {
            return Ok(Some(row.0));
        }
    }
    Ok(None)
}

#[test]
fn terms_have_canonical_terms_with_least_sorts(rt: HostRuntime) -> Result<(), Fail> {
    assert_eq!(rt; first_wrong(rt.alloc(), &ROWS)?, None);
    assert_eq!(rt; first_wrong(rt.alloc(), &LIMITS)?, None);
    Ok(())
}

/// An operator, a term, and its parts under the operator.
type Whole = (OpId, &'static str, &'static [&'static str]);

static WHOLES: [Whole; 10] = [
    (F, "1 3 f/2", &["1", "3"]),
    (F, "2 2 x f/3", &["2", "2", "x"]),
    (F, "0", &[]),
    (F, "x", &["x"]),
    (F, "4 7 g/2", &["4 7 g/2"]),
    (G, "7 4 x g/3", &["7", "4", "x"]),
    (G, "0", &["0"]),
    (H, "y x y h/3", &["y", "x", "y"]),
    (H, "c/0", &[]),
    (H, "0", &["0"]),
];

/// An operator on terms, and what it gives.
static REBUILT: [Whole; 6] = [
    (F, "1 2 x f/3", &["1 x f/2", "0", "2"]),
    (G, "2 1 2 0 g/4", &["2", "1 2 g/2", "0"]),
    (H, "x", &["c/0", "x"]),
    (NEXT, "6", &["5"]),
    (NEXT, "max s/1", &["max"]),
    (C, "c/0", &[]),
];

fn are_same(some: &[Term], others: &[Term]) -> bool {
    some.len() == others.len() && some.iter().zip(others).all(|(a, b)| same(a, b))
}

/// The parts of a term under an operator, if that is associative.
fn parts_under<'t>(facts: &Facts, operator: OpId, term: &'t Term) -> Option<&'t [Term]> {
    match facts.axioms(operator) {
        Axioms::Associative { .. } => Some(parts(facts, operator, term)),
        _ => None,
    }
}

fn is_parted(alloc: Global, facts: &Facts, row: Whole) -> Result<bool, Fail> {
    let (operator, whole, wanted) = row;
    let whole = term(alloc, whole)?;
    let wanted = terms(alloc, wanted)?;
    match parts_under(facts, operator, &whole) {
        Some(found) => Ok(are_same(found, wanted.as_slice())),
        None => Ok(false),
    }
}

fn is_rebuilt(alloc: Global, facts: &Facts, row: Whole) -> Result<bool, Fail> {
    let (operator, whole, args) = row;
    let found = rebuild(alloc, facts, operator, terms(alloc, args)?)?;
    Ok(same(&found, &term(alloc, whole)?))
}

#[test]
fn operators_have_parts_and_are_rebuilt(rt: HostRuntime) -> Result<(), Fail> {
    let facts = facts(rt.alloc())?;
    for row in &WHOLES {
        assert!(rt; is_parted(rt.alloc(), &facts, *row)?, "{}", row.1);
        assert!(rt; is_rebuilt(rt.alloc(), &facts, *row)?, "{}", row.1);
    }
    for row in &REBUILT {
        assert!(rt; is_rebuilt(rt.alloc(), &facts, *row)?, "{}", row.1);
    }
    Ok(())
}

/// A place, a term, and what stands there in order once it has come to 9 and, from the second on, 1, 3 and 5.
type Near = (usize, &'static str, &'static [&'static str]);

static NEAR: [Near; 6] = [
    (1, "2", &["9", "1", "2", "3", "5"]),
    (0, "2", &["9", "1", "2", "3", "5"]),
    (3, "7", &["9", "1", "3", "5", "7"]),
    (9, "4", &["9", "1", "3", "4", "5"]),
    (2, "0", &["9", "1", "3", "5"]),
    (1, "2 4 f/2", &["9", "1", "2", "3", "4", "5"]),
];

fn is_put(alloc: Global, facts: &Facts, row: Near) -> Result<bool, Fail> {
    let (near, came, wanted) = row;
    let mut done = terms(alloc, &["9", "1", "3", "5"])?;
    put_near(alloc, facts, F, &mut done, 1, near, term(alloc, came)?)?;
    Ok(are_same(done.as_slice(), terms(alloc, wanted)?.as_slice()))
}

#[test]
fn terms_are_put_near_places(rt: HostRuntime) -> Result<(), Fail> {
    let facts = facts(rt.alloc())?;
    for row in &NEAR {
        assert!(rt; is_put(rt.alloc(), &facts, *row)?, "{row:?}");
    }
    Ok(())
}
