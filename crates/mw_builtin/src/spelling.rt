// The schema that an operator's spelling names.
ghost use Rattle.std.specs.Prelude.{◌≡◌, ◌↔◌, ◌⊎◌, IsTrue, MatchOption, Some};
ghost use Rattle.mw_logic.specs.Module.{BuiltIn as OnNumbers, spelling_of};
ghost use Rattle.mw_builtin.specs.Schemata.{on_numbers};
ghost use Rattle.mw_builtin.specs.Spellings.{IsSpelled};
ghost use Rattle.mw_builtin.specs.declared.schema.BuiltIn.{BuiltIn as BuiltInOf};
ghost use Rattle.mw_builtin.specs.declared.schema.Schema.{Schema as SchemaOf};
ghost use Rattle.mw_builtin.specs.declared.schema.Schema.TheVariants.{Nothing as NothingOf};

use crate::schema::{BuiltIn, Schema};

fn is(spelling: &[u8], text: &[u8]) -> bool
    ensures { IsTrue result ↔ (spelling.now ≡ text.now) }
{
    spelling == text
}

/// The operator on numbers that is spelled so.
fn on_numbers_spelled(spelling: &[u8]) -> Option<BuiltIn>
    ensures { MatchOption result ((b : BuiltInOf) → spelling_of (on_numbers b) ≡ spelling.now → ⊥) (λ b. spelling_of (on_numbers b) ≡ spelling.now) }
{
    if is(spelling, b"_+_") {
        return Some(BuiltIn::Plus);
    }
    if is(spelling, b"_*_") {
        return Some(BuiltIn::Times);
    }
    if is(spelling, b"sd") {
        return Some(BuiltIn::Difference);
    }
    if is(spelling, b"_quo_") {
        return Some(BuiltIn::Quotient);
    }
    if is(spelling, b"_rem_") {
        return Some(BuiltIn::Remainder);
    }
    if is(spelling, b"min") {
        return Some(BuiltIn::Least);
    }
    if is(spelling, b"max") {
        return Some(BuiltIn::Greatest);
    }
    if is(spelling, b"_<_") {
        return Some(BuiltIn::LessThan);
    }
    if is(spelling, b"_<=_") {
        return Some(BuiltIn::AtMost);
    }
    if is(spelling, b"_>_") {
        return Some(BuiltIn::MoreThan);
    }
    if is(spelling, b"_>=_") {
        return Some(BuiltIn::AtLeast);
    }
    None
}

/// The schema that is spelled so.
pub(crate) fn spelled(spelling: &[u8]) -> Schema
    ensures is { (result ≡ NothingOf) ⊎ IsSpelled result spelling.now }
    ensures only { (other : SchemaOf) → IsSpelled other spelling.now → other ≡ result }
{
    if let Some(operator) = on_numbers_spelled(spelling) {
        return Schema::Number(operator);
    }
    if is(spelling, b"_==_") {
        return Schema::Equality;
    }
    if is(spelling, b"_=/=_") {
        return Schema::Inequality;
    }
    if is(spelling, b"if_then_else_fi") {
        return Schema::Choice;
    }
    if is(spelling, b"true") {
        return Schema::Truth(true);
    }
    if is(spelling, b"false") {
        return Schema::Truth(false);
    }
    Schema::Nothing
}
