// Fresh variables.
ghost use Rattle.std.specs.Prelude.{◌≡◌, ◌++◌, codes, decimal, IfOk};
ghost use Rattle.mw_logic.specs.Term.{variable as a_variable};
ghost use Rattle.mw_term.specs.Raws.{raw_term};
ghost use Rattle.mw_omod.specs.Objects.{class_variable, rest_variable, value_variable};
ghost use Rattle.mw_omod.specs.Seen.{seen_attribute};

use crate::classes::Classes;
use crate::objects::Attribute;
use mw_print::push_decimal;
use mw_term::{Name, Raw, SortId, VarId};
use std::alloc::{AllocError, Global};

/// A variable's name of a text and a number.
fn numbered_name(alloc: Global, text: &[u8], number: u32) -> Result<Vec<u8>, AllocError>
    ensures { IfOk result (λ v. v.items ≡ text.now ++ decimal number) }
{
    let mut name = text.to_vec(alloc)?;
    push_decimal(u128::from(number), &mut name)?;
    Ok(name)
}

/// The variable for the class of an element.
pub fn class_variable(alloc: Global, number: u32, sort: SortId) -> Result<Raw, AllocError>
    ensures { IfOk result (λ t. raw_term t ≡ a_variable (class_variable number sort)) }
{
    let name = Name::of(numbered_name(alloc, b" V", number)?);
    Ok(Raw::Var(VarId { name, sort }))
}

/// The variable for those attributes of an element that it doesn't name.
pub fn rest_variable(alloc: Global, classes: &Classes, number: u32) -> Result<Raw, AllocError>
    ensures { IfOk result (λ t. raw_term t ≡ a_variable (rest_variable classes.now number)) }
{
    let name = Name::of(numbered_name(alloc, b" W", number)?);
    let sort = classes.set;
    Ok(Raw::Var(VarId { name, sort }))
}

/// The variable for the value of an attribute that an element lacks.
pub fn value_variable(
    alloc: Global,
    number: u32,
    attribute: &Attribute<'_>,
) -> Result<Raw, AllocError>
    ensures { IfOk result (λ t. raw_term t ≡ a_variable (value_variable number (seen_attribute attribute.now))) }
{
    let mut name = numbered_name(alloc, b" X", number)?;
    name.push(b' ')?;
    push_decimal(u128::from(attribute.operator), &mut name)?;
    let name = Name::of(name);
    let sort = attribute.sort;
    Ok(Raw::Var(VarId { name, sort }))
}
