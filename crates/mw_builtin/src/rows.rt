// The table of the operators' schemata.
ghost use Rattle.std.specs.Prelude.{◌≡◌, ◌↔◌, ◌<◌, ◌+◌, ℕ, List, [], ◌∷◌, length, IfOk, IsTrue, codes};
ghost use Rattle.mw_logic.specs.Accepted.{IsAccepted};
ghost use Rattle.mw_logic.specs.Module.{AreKindsOf, IsBuiltIn, IsNamed, spelling_of, sort_of_result};
ghost use Rattle.mw_logic.specs.Preregular.{HasItsSorts};
ghost use Rattle.mw_logic.specs.Signature.{Signature as SignatureOf, IsOperator, Member};
ghost use Rattle.mw_poset.specs.Order.{IsSort};
ghost use Rattle.mw_poset.specs.SortOrder.{order_of};
ghost use Rattle.mw_canon.specs.Axioms.{IsKindNamed};
ghost use Rattle.mw_builtin.specs.Kinds.{AreKindsFor, HasSorts};
ghost use Rattle.mw_builtin.specs.Schemata.{AreSchemas, IsSchemaOf, Computes, on_numbers as on_numbers_of};
ghost use Rattle.mw_builtin.specs.Spellings.{IsSpelled};

use crate::schema::{BuiltIn, Schema};
use crate::spelling::spelled;
use mw_canon::kind_named;
use mw_poset::Poset;
use mw_term::{KindId, Operator, Signature};
use std::alloc::{AllocError, Global};

/// The kinds of numbers and of truth values, where there are sorts of these names.
#[derive(Clone, Copy)]
pub(crate) struct Kinds {
    numbers: Option<KindId>,
    truths: Option<KindId>,
}

/// A row for each operator.
pub(crate) fn rows(
    alloc: Global,
    signature: &Signature,
    order: &Poset,
) -> Result<Vec<Schema>, AllocError>
    requires accepted { IsAccepted signature.now }
    requires sorts { HasItsSorts signature.now }
    requires order { order.now ≡ order_of signature.now }
    ensures { IfOk result (λ rows. AreSchemas signature.now rows.items) }
{
    let kinds = Kinds {
        numbers: kind_named(signature, order, b"Nat"),
        truths: kind_named(signature, order, b"Bool"),
    };
    let count = signature.operators.as_slice().len();
    let mut rows = Vec::with_capacity(alloc, count)?;
    for index in 0..count {
        rows.push(schema(signature, order, kinds, index))?;
    }
    Ok(rows)
}

/// The schema of the operator at an index.
fn schema(signature: &Signature, order: &Poset, kinds: Kinds, index: usize) -> Schema
    requires accepted { IsAccepted signature.now }
    requires sorts { HasItsSorts signature.now }
    requires order { order.now ≡ order_of signature.now }
    requires kinds { AreKindsFor signature.now kinds }
    requires there { index < length signature.now.operators }
    ensures { IsSchemaOf signature.now (index + 1) result }
{
    let operator = &signature.operators.as_slice()[index];
    let schema = spelled(operator.spelling.as_slice());
    if computes(signature, order, kinds, operator, schema) {
        schema
    } else {
        Schema::Nothing
    }
}

/// Whether an operator with the spelling of a schema has what else the schema asks for.
fn computes(
    signature: &Signature,
    order: &Poset,
    kinds: Kinds,
    operator: &Operator,
    schema: Schema,
) -> bool
    requires accepted { IsAccepted signature.now }
    requires order { order.now ≡ order_of signature.now }
    requires kinds { AreKindsFor signature.now kinds }
    requires sorts { HasSorts order.now.sorts operator.now }
    ensures { (f : ℕ) → IsOperator signature.now f operator.now → IsSpelled schema operator.now.spelling → (IsTrue result ↔ Computes signature.now f schema) }
{
    match schema {
        Schema::Nothing => false,
        Schema::Number(on_numbers) => {
            is_on_numbers(signature, order, kinds, operator, on_numbers)
        }
        Schema::Equality | Schema::Inequality | Schema::Choice => operator.built,
        Schema::Truth(_) => is_truth(order, kinds, operator),
    }
}

/// Whether an operator with the spelling of one on numbers takes two numbers and gives what that one does.
fn is_on_numbers(
    signature: &Signature,
    order: &Poset,
    kinds: Kinds,
    operator: &Operator,
    on_numbers: BuiltIn,
) -> bool
    requires accepted { IsAccepted signature.now }
    requires order { order.now ≡ order_of signature.now }
    requires kinds { AreKindsFor signature.now kinds }
    requires sorts { HasSorts order.now.sorts operator.now }
    ensures { (f : ℕ) → IsOperator signature.now f operator.now → spelling_of (on_numbers_of on_numbers) ≡ operator.now.spelling → (IsTrue result ↔ IsBuiltIn signature.now f (on_numbers_of on_numbers)) }
{
    if !signature.nat {
        return false;
    }
    if !are_two(order, kinds.numbers, operator.args.as_slice()) {
        return false;
    }
    is_of(order, result_kind(kinds, on_numbers), operator.result)
}

/// Whether an operator takes nothing and gives a truth value.
fn is_truth(order: &Poset, kinds: Kinds, operator: &Operator) -> bool
    requires { HasSorts order.now.sorts operator.now }
    ensures { (sig : SignatureOf) (f : ℕ) (spelling : List ℕ) → IsAccepted sig → order.now ≡ order_of sig → AreKindsFor sig kinds → IsOperator sig f operator.now → spelling ≡ operator.now.spelling → (IsTrue result ↔ IsNamed sig f spelling [] (codes "Bool")) }
{
    if !operator.args.as_slice().is_empty() {
        return false;
    }
    is_of(order, kinds.truths, operator.result)
}

/// The kind of what an operator on numbers gives: comparisons give a truth value.
fn result_kind(kinds: Kinds, operator: BuiltIn) -> Option<KindId>
    ensures { (sig : SignatureOf) → AreKindsFor sig kinds → IsKindNamed sig (sort_of_result (on_numbers_of operator)) result }
{
    match operator {
        BuiltIn::LessThan | BuiltIn::AtMost | BuiltIn::MoreThan | BuiltIn::AtLeast => kinds.truths,
        _ => kinds.numbers,
    }
}

/// Whether these are two sorts of a kind.
fn are_two(order: &Poset, kind: Option<KindId>, sorts: &[KindId]) -> bool
    requires { (K : ℕ) → Member K sorts.now → IsSort order.now.sorts K }
    ensures { (sig : SignatureOf) (name : List ℕ) → IsAccepted sig → order.now ≡ order_of sig → IsKindNamed sig name kind → (IsTrue result ↔ AreKindsOf sig sorts.now (name ∷ name ∷ [])) }
{
    match sorts {
        [first, second] => is_of(order, kind, *first) && is_of(order, kind, *second),
        _ => false,
    }
}

/// Whether a sort is of a kind, where there is one.
fn is_of(order: &Poset, kind: Option<KindId>, sort: KindId) -> bool
    requires { IsSort order.now.sorts sort }
    ensures { (sig : SignatureOf) (name : List ℕ) → IsAccepted sig → order.now ≡ order_of sig → IsKindNamed sig name kind → (IsTrue result ↔ AreKindsOf sig (sort ∷ []) (name ∷ [])) }
{
    match kind {
        Some(kind) => order.kind_of(sort) == kind,
        None => false,
    }
}
