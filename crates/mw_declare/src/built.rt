// What is built into a module: numbers, quoted identifiers and truth values.
ghost use Rattle.std.specs.Prelude.{◌≡◌, ◌&&◌, None, IfOk, nat_eq};
ghost use Rattle.std.specs.List.{list_any};
ghost use Rattle.mw_module.specs.Forms.{shape_of};
ghost use Rattle.mw_module.specs.Sortings.{seen_sorting, seen_sortings};
ghost use Rattle.mw_module.specs.Units.{seen_all};
ghost use Rattle.mw_declare.specs.Built as built;
ghost use Rattle.mw_declare.specs.Faults.{unknown_from};
ghost use Rattle.mw_declare.specs.Seen.{seen_name};

use crate::hierarchy::Hierarchy;
use mw_module::{Form, Stated, Word, WrittenSort};
use mw_term::{KindId, Seq, SortId};
use std::alloc::AllocError;

/// Which modules of the prelude are among those that a module reaches.
#[derive(Clone, Copy)]
pub struct Reached {
    pub nat: bool,
    pub qid: bool,
}

/// The sort of truth values, and its kind.
#[derive(Clone, Copy)]
pub struct Truth {
    pub sort: SortId,
    pub kind: KindId,
}

/// What is built in: the kind of numbers, where there are some, whether there are quoted identifiers, and truth values,
/// where they are there.
#[derive(Clone, Copy)]
pub struct Built {
    pub nat: Option<KindId>,
    pub qid: bool,
    pub truth: Option<Truth>,
}

/// Whether the sort of this name is written, and not its kind.
fn is_sort(sort: &WrittenSort<'_>, name: &[u8]) -> bool
    ensures { result ≡ built.is_sort name.now (seen_sorting sort.now) }
{
    !sort.kind && sort.name.as_slice() == name
}

/// Whether there is one argument of the sort, or none where there is no sort.
fn takes(args: &[WrittenSort<'_>], sort: Option<&[u8]>) -> bool
    ensures { result ≡ built.takes (seen_name sort.entry) (seen_sortings args.now) }
{
    match (sort, args) {
        (None, []) => true,
        (Some(name), [arg]) => is_sort(arg, name),
        _ => false,
    }
}

/// Whether the name is this one word.
fn is_name(name: &[Word<'_>], text: &[u8]) -> bool
    ensures { result ≡ built.is_name text.now name.now }
{
    match name {
        [word] => word.as_slice() == text,
        _ => false,
    }
}

/// Whether one of the names is this one word.
fn has_name(names: &[Seq<Word<'_>>], text: &[u8]) -> bool
    ensures { result ≡ list_any (built.is_name text.now) names.now }
{
    for name in names {
        if is_name(name.as_slice(), text) {
            return true;
        }
    }
    false
}

/// Whether a statement declares an operator of this name, which takes the sort, or nothing, and gives that one.
fn declares(form: &Form<'_>, name: &[u8], sort: Option<&[u8]>, value: &[u8]) -> bool
    ensures { result ≡ built.declares_in name.now (seen_name sort.entry) value.now (shape_of form.now) }
{
    match form {
        Form::Operators {
            names,
            args,
            result: given,
            ..
        } => {
            (takes(args.as_slice(), sort) && is_sort(given, value))
                && has_name(names.as_slice(), name)
        }
        _ => false,
    }
}

/// Whether one of the statements does.
fn some_declares(
    statements: &[Stated<'_, '_>],
    name: &[u8],
    sort: Option<&[u8]>,
    value: &[u8],
) -> bool
    ensures { result ≡ built.some_declares name.now (seen_name sort.entry) value.now (seen_all statements.now) }
{
    for statement in statements {
        if declares(statement.form, name, sort, value) {
            return true;
        }
    }
    false
}

/// Whether the first sort is declared directly below the second.
fn is_pair(pairs: &[(SortId, SortId)], lower: SortId, upper: SortId) -> bool
    ensures { result ≡ list_any (λ p. nat_eq p.0 lower && nat_eq p.1 upper) pairs.now }
{
    for pair in pairs {
        if pair.0 == lower && pair.1 == upper {
            return true;
        }
    }
    false
}

/// Whether the sort of the first name is declared directly below that of the second.
fn is_below(hierarchy: &Hierarchy, lower: &[u8], upper: &[u8]) -> Result<bool, AllocError>
    ensures { IfOk result (λ b. b ≡ built.is_pair hierarchy.now lower.now upper.now) }
{
    let lower = hierarchy.names.number(lower)?;
    let upper = hierarchy.names.number(upper)?;
    Ok(is_pair(hierarchy.pairs.as_slice(), lower, upper))
}

/// Whether numbers are declared: the successor, which takes Nat to NzNat, and Zero and NzNat below Nat.
fn has_numbers(hierarchy: &Hierarchy, statements: &[Stated<'_, '_>]) -> Result<bool, AllocError>
    ensures { IfOk result (λ b. b ≡ built.has_numbers hierarchy.now (seen_all statements.now)) }
{
    let successor = some_declares(statements, b"s_", Some(b"Nat"), b"NzNat");
    let zero = is_below(hierarchy, b"Zero", b"Nat")?;
    let nonzero = is_below(hierarchy, b"NzNat", b"Nat")?;
    Ok(successor && (zero && nonzero))
}

/// The kind of numbers, where NAT is reached and declares them.
fn numbers_in(
    reached: bool,
    hierarchy: &Hierarchy,
    statements: &[Stated<'_, '_>],
) -> Result<Option<KindId>, AllocError>
    requires { unknown_from hierarchy.now.names (seen_all statements.now) ≡ None }
    ensures { IfOk result (λ n. n ≡ built.numbers_in reached hierarchy.now (seen_all statements.now)) }
{
    let declared = has_numbers(hierarchy, statements)?;
    if !declared {
        return Ok(None);
    }
    let (_, kind) = hierarchy.named(b"Nat")?;
    Ok(if reached { Some(kind) } else { None })
}

/// Whether the constants `true` and `false` of the sort Bool are declared.
fn has_truths(statements: &[Stated<'_, '_>]) -> bool
    ensures { result ≡ built.has_truths (seen_all statements.now) }
{
    some_declares(statements, b"true", None, b"Bool")
        && some_declares(statements, b"false", None, b"Bool")
}

/// The sort Bool and its kind, where its constants are declared.
fn truth_of(
    hierarchy: &Hierarchy,
    statements: &[Stated<'_, '_>],
) -> Result<Option<Truth>, AllocError>
    requires { unknown_from hierarchy.now.names (seen_all statements.now) ≡ None }
    ensures { IfOk result (λ t. t ≡ built.truth_of hierarchy.now (seen_all statements.now)) }
{
    if !has_truths(statements) {
        return Ok(None);
    }
    let (sort, kind) = hierarchy.named(b"Bool")?;
    Ok(Some(Truth { sort, kind }))
}

/// What is built into a module of these statements, which reaches these modules of the prelude.
pub fn built_in(
    reached: Reached,
    hierarchy: &Hierarchy,
    statements: &[Stated<'_, '_>],
) -> Result<Built, AllocError>
    requires { unknown_from hierarchy.now.names (seen_all statements.now) ≡ None }
    ensures { IfOk result (λ b. b ≡ built.built_in reached hierarchy.now (seen_all statements.now)) }
{
    let nat = numbers_in(reached.nat, hierarchy, statements)?;
    let truth = truth_of(hierarchy, statements)?;
    let qid = reached.qid && hierarchy.names.has(b"Qid");
    Ok(Built { nat, qid, truth })
}
