// The class constants and attribute operators of a module, by the classes that it reaches.
ghost use Rattle.std.specs.Prelude.{◌≡◌, ◌≢◌, ◌≤◌, ◌++◌, ◌∷◌, ◌↔◌, ℕ, List, [], length, map, IfOk, OnOk, MatchOption, IsTrue, replicate, codes};
ghost use Rattle.mw_logic.specs.Signature.{IsAssociative, IsSortNamed, Member};
ghost use Rattle.mw_logic.specs.Accepted.{IsAccepted};
ghost use Rattle.mw_logic.specs.Preregular.{HasItsSorts, IsSortOf};
ghost use Rattle.mw_poset.specs.Order.{IsKindOf};
ghost use Rattle.mw_poset.specs.SortOrder.{order_of};
ghost use Rattle.mw_carry.specs.Laws.{OperatorsApart};
ghost use Rattle.mw_carry.specs.Profiles.{Pairwise};
ghost use Rattle.mw_text.specs.Names.{name_of_tokens};
ghost use Rattle.mw_module.specs.Forms.{shape_of};
ghost use Rattle.mw_module.specs.Units.{seen_all};
ghost use Rattle.mw_omod.specs.Declaring.{attribute_name as attribute_words};
ghost use Rattle.mw_omod.specs.declared.classes.Classes.{Classes as ClassesOf};
ghost use Rattle.mw_build.specs.Classes.{Declared, a_constant, an_attribute, declared_by, declared_in, role_in, IsOperatorAt, AreOfConfiguration, AreRolesOf, AreClassesOf};
ghost use Rattle.mw_build.specs.Configurations.{Finds, or_role, AreObjectSorts, AreObjectOperators, IsConfiguration};

use mw_carry::{Profile, Target};
use mw_declare::spelling_of;
use mw_module::{ClassAttribute, Form, Stated, Word};
use mw_omod::{Classes, Role};
use mw_poset::Poset;
use mw_term::{KindId, OpId, Seq, Signature, SortId, numbered};
use std::alloc::{AllocError, Global};

/// The sorts of CONFIGURATION that its operators, and those of classes, are told by.
#[derive(Clone, Copy)]
struct ObjectSorts {
    attribute: SortId,
    set: SortId,
    name: SortId,
    class: SortId,
    object: SortId,
    configuration: SortId,
}

/// These sorts, where they are there.
fn object_sorts(target: &Target<'_>) -> Option<ObjectSorts>
    ensures { Finds (AreObjectSorts target.now) result }
{
    Some(ObjectSorts {
        attribute: target.sort(b"Attribute")?,
        set: target.sort(b"AttributeSet")?,
        name: target.sort(b"Oid")?,
        class: target.sort(b"Cid")?,
        object: target.sort(b"Object")?,
        configuration: target.sort(b"Configuration")?,
    })
}

/// The kinds of sorts.
fn kinds_of(alloc: Global, target: &Target<'_>, sorts: &[SortId]) -> Result<Vec<KindId>, AllocError>
    requires { (S : ℕ) → Member S sorts.now → IsSortOf target.now S }
    ensures { IfOk result (λ kinds. Pairwise (IsKindOf target.now.pairs) sorts.now kinds.items) }
{
    let mut kinds = Vec::with_capacity(alloc, sorts.len())?;
    for sort in sorts {
        kinds.push(target.kind_of(*sort))?;
    }
    Ok(kinds)
}

/// An operator of this spelling on the kinds of these sorts, with a value of the kind of this one, where it is there.
fn operator_on(
    alloc: Global,
    target: &Target<'_>,
    spelling: Vec<u8>,
    sorts: &[SortId],
    sort: SortId,
) -> Result<Option<OpId>, AllocError>
    requires sorts { (S : ℕ) → Member S sorts.now → IsSortOf target.now S }
    requires sort { IsSortOf target.now sort }
    ensures { IfOk result (Finds (IsOperatorAt target.now spelling.items sorts.now sort)) }
{
    let profile = Profile {
        spelling,
        args: kinds_of(alloc, target, sorts)?,
        result: target.kind_of(sort),
    };
    Ok(target.operator(&profile))
}

/// The operators of CONFIGURATION that make objects and join them.
#[derive(Clone, Copy)]
struct ObjectOperators {
    none: OpId,
    comma: OpId,
    object: OpId,
    union: OpId,
}

/// These operators, where they are there.
fn object_operators(
    alloc: Global,
    target: &Target<'_>,
    sorts: ObjectSorts,
) -> Result<Option<ObjectOperators>, AllocError>
    requires accepted { IsAccepted target.now }
    requires sorts { AreObjectSorts target.now sorts }
    ensures { IfOk result (Finds (AreObjectOperators target.now)) }
{
    let ObjectSorts {
        set,
        name,
        class,
        object,
        configuration,
        attribute: _,
    } = sorts;
    let spelling = b"none".to_vec(alloc)?;
    let Some(none) = operator_on(alloc, target, spelling, &[], set)? else {
        return Ok(None);
    };
    let spelling = b"_`,_".to_vec(alloc)?;
    let Some(comma) = operator_on(alloc, target, spelling, &[set, set], set)? else {
        return Ok(None);
    };
    let spelling = b"<_:_|_>".to_vec(alloc)?;
    let Some(object) = operator_on(alloc, target, spelling, &[name, class, set], object)? else {
        return Ok(None);
    };
    let spelling = b"__".to_vec(alloc)?;
    let both = [configuration, configuration];
    let Some(union) = operator_on(alloc, target, spelling, &both, configuration)? else {
        return Ok(None);
    };
    Ok(Some(ObjectOperators {
        none,
        comma,
        object,
        union,
    }))
}

/// Whether an operator is associative.
fn is_associative(signature: &Signature, operator: OpId) -> bool
    ensures { IsTrue result ↔ IsAssociative signature.now operator }
{
    match numbered(signature.operators.as_slice(), operator) {
        Some(found) => found.assoc,
        None => false,
    }
}

/// The sorts and the operators of CONFIGURATION.
#[derive(Clone, Copy)]
struct Configuration {
    sorts: ObjectSorts,
    operators: ObjectOperators,
}

/// Those of a signature, where they are there and have what objects want of them.
fn configuration_in(
    alloc: Global,
    target: &Target<'_>,
    signature: &Signature,
) -> Result<Option<Configuration>, AllocError>
    requires target { target.now ≡ signature.now }
    requires accepted { IsAccepted signature.now }
    requires apart { OperatorsApart signature.now }
    ensures { IfOk result (Finds (IsConfiguration signature.now)) }
{
    let Some(sorts) = object_sorts(target) else {
        return Ok(None);
    };
    let Some(operators) = object_operators(alloc, target, sorts)? else {
        return Ok(None);
    };
    if target.kind_of(sorts.attribute) == target.kind_of(sorts.set)
        && is_associative(signature, operators.comma)
        && is_associative(signature, operators.union)
    {
        Ok(Some(Configuration { sorts, operators }))
    } else {
        Ok(None)
    }
}

/// No role for each of so many operators.
fn no_roles(alloc: Global, count: usize) -> Result<Vec<Role>, AllocError>
    ensures { IfOk result (λ v. v.items ≡ replicate count Role.Other) }
{
    vec![in alloc; Role::Other; count]
}

/// Notes what an operator is, where nothing is noted yet.
fn note(roles: &mut [Role], operator: OpId, role: Role)
    requires low { 1 ≤ operator }
    requires high { operator ≤ length roles.old }
    ensures noted { role_in roles.new operator ≡ or_role (role_in roles.old operator) role }
    ensures others { (f : ℕ) → f ≢ operator → role_in roles.new f ≡ role_in roles.old f }
{
    let index = operator as usize - 1;
    if matches!(roles[index], Role::Other) {
        roles[index] = role;
    }
}

/// The spelling of the operator of an attribute.
fn attribute_spelling(alloc: Global, attribute: &ClassAttribute<'_>) -> Result<Vec<u8>, AllocError>
    ensures { IfOk result (λ v. v.items ≡ name_of_tokens (attribute_words attribute.now.name)) }
{
    let name = attribute.name.again(alloc)?;
    let words = vec![in alloc; name, Word::lent(b":"), Word::lent(b"_")]?;
    spelling_of(alloc, words.as_slice())
}

/// Notes the operator of an attribute, which has a value of this sort.
fn note_attribute(
    alloc: Global,
    target: &Target<'_>,
    value: SortId,
    attribute: &ClassAttribute<'_>,
    roles: &mut [Role],
) -> Result<(), AllocError>
    requires accepted { IsAccepted target.now }
    requires apart { OperatorsApart target.now }
    requires value { IsSortNamed target.now value (codes "Attribute") }
    requires count { length roles.old ≡ length target.now.operators }
    ensures { OnOk result ((ds : List Declared) → AreRolesOf target.now ds roles.old
        → AreRolesOf target.now (ds ++ an_attribute attribute.now ∷ []) roles.new) }
{
    let Some(sort) = target.sort(attribute.sort.as_slice()) else {
        return Ok(());
    };
    let spelling = attribute_spelling(alloc, attribute)?;
    if let Some(operator) = operator_on(alloc, target, spelling, &[sort], value)? {
        note(roles, operator, Role::Attribute(sort));
    }
    Ok(())
}

/// Notes the operators of attributes, which have values of this sort.
fn note_attributes(
    alloc: Global,
    target: &Target<'_>,
    value: SortId,
    attributes: &[ClassAttribute<'_>],
    roles: &mut [Role],
) -> Result<(), AllocError>
    requires accepted { IsAccepted target.now }
    requires apart { OperatorsApart target.now }
    requires value { IsSortNamed target.now value (codes "Attribute") }
    requires count { length roles.old ≡ length target.now.operators }
    ensures { OnOk result ((ds : List Declared) → AreRolesOf target.now ds roles.old
        → AreRolesOf target.now (ds ++ map an_attribute attributes.now) roles.new) }
{
    for attribute in attributes {
        note_attribute(alloc, target, value, attribute, roles)?;
    }
    Ok(())
}

/// The spelling of the constant of a class.
fn class_spelling(alloc: Global, name: &Word<'_>) -> Result<Vec<u8>, AllocError>
    ensures { IfOk result (λ v. v.items ≡ name_of_tokens (name.now ∷ [])) }
{
    let name = name.again(alloc)?;
    let words = vec![in alloc; name]?;
    spelling_of(alloc, words.as_slice())
}

/// Notes the constant of a class.
fn note_class(
    alloc: Global,
    target: &Target<'_>,
    name: &Word<'_>,
    roles: &mut [Role],
) -> Result<(), AllocError>
    requires accepted { IsAccepted target.now }
    requires apart { OperatorsApart target.now }
    requires count { length roles.old ≡ length target.now.operators }
    ensures { OnOk result ((ds : List Declared) → AreRolesOf target.now ds roles.old
        → AreRolesOf target.now (ds ++ a_constant name.now ∷ []) roles.new) }
{
    let Some(sort) = target.sort(name.as_slice()) else {
        return Ok(());
    };
    let spelling = class_spelling(alloc, name)?;
    if let Some(operator) = operator_on(alloc, target, spelling, &[], sort)? {
        note(roles, operator, Role::Class(sort));
    }
    Ok(())
}

/// Notes what a statement declares, where it is a class and attributes have values of this sort.
fn note_form(
    alloc: Global,
    target: &Target<'_>,
    value: SortId,
    form: &Form<'_>,
    roles: &mut [Role],
) -> Result<(), AllocError>
    requires accepted { IsAccepted target.now }
    requires apart { OperatorsApart target.now }
    requires value { IsSortNamed target.now value (codes "Attribute") }
    requires count { length roles.old ≡ length target.now.operators }
    ensures { OnOk result ((ds : List Declared) → AreRolesOf target.now ds roles.old
        → AreRolesOf target.now (ds ++ declared_by (shape_of form.now)) roles.new) }
{
    match form {
        Form::Class { name, attributes } => {
            note_class(alloc, target, name, roles)?;
            note_attributes(alloc, target, value, attributes.as_slice(), roles)?;
            Ok(())
        }
        Form::Sorts { .. }
        | Form::Subsorts { .. }
        | Form::Operators { .. }
        | Form::Variables { .. }
        | Form::Statement { .. }
        | Form::Import { .. } => Ok(()),
    }
}

/// Notes what the classes among statements declare, where attributes have values of this sort.
fn note_all(
    alloc: Global,
    target: &Target<'_>,
    value: SortId,
    statements: &[Stated<'_, '_>],
    roles: &mut [Role],
) -> Result<(), AllocError>
    requires accepted { IsAccepted target.now }
    requires apart { OperatorsApart target.now }
    requires value { IsSortNamed target.now value (codes "Attribute") }
    requires count { length roles.old ≡ length target.now.operators }
    ensures { OnOk result (AreRolesOf target.now [] roles.old
        → AreRolesOf target.now (declared_in (seen_all statements.now)) roles.new) }
{
    for statement in statements {
        note_form(alloc, target, value, statement.form, roles)?;
    }
    Ok(())
}

/// What the operators of a signature are to objects, by the classes among these statements.
fn roles_of(
    alloc: Global,
    target: &Target<'_>,
    signature: &Signature,
    value: SortId,
    statements: &[Stated<'_, '_>],
) -> Result<Vec<Role>, AllocError>
    requires target { target.now ≡ signature.now }
    requires accepted { IsAccepted signature.now }
    requires apart { OperatorsApart signature.now }
    requires value { IsSortNamed signature.now value (codes "Attribute") }
    ensures { IfOk result (λ v. AreRolesOf signature.now (declared_in (seen_all statements.now)) v.items) }
{
    let mut roles = no_roles(alloc, signature.operators.as_slice().len())?;
    note_all(alloc, target, value, statements, &mut roles)?;
    Ok(roles)
}

/// The classes of a module of these statements; none where it doesn't reach CONFIGURATION.
fn classes_in(
    alloc: Global,
    target: &Target<'_>,
    signature: &Signature,
    statements: &[Stated<'_, '_>],
) -> Result<Option<Classes>, AllocError>
    requires target { target.now ≡ signature.now }
    requires accepted { IsAccepted signature.now }
    requires apart { OperatorsApart signature.now }
    ensures { IfOk result (λ o. MatchOption o
        ((K : ClassesOf) → AreOfConfiguration signature.now K → ⊥)
        (AreClassesOf signature.now (seen_all statements.now))) }
{
    let Some(Configuration { sorts, operators }) = configuration_in(alloc, target, signature)?
    else {
        return Ok(None);
    };
    let roles = roles_of(alloc, target, signature, sorts.attribute, statements)?;
    Ok(Some(Classes {
        roles: Seq::of(roles),
        none: operators.none,
        comma: operators.comma,
        object: operators.object,
        union: operators.union,
        set: sorts.set,
    }))
}

/// The classes of a module of these statements; none where it doesn't reach CONFIGURATION.
pub fn classes_of(
    alloc: Global,
    signature: &Signature,
    order: &Poset,
    statements: &[Stated<'_, '_>],
) -> Result<Option<Classes>, AllocError>
    requires numbers { HasItsSorts signature.now }
    requires order { order.now ≡ order_of signature.now }
    requires accepted { IsAccepted signature.now }
    requires apart { OperatorsApart signature.now }
    ensures { IfOk result (λ o. MatchOption o
        ((K : ClassesOf) → AreOfConfiguration signature.now K → ⊥)
        (AreClassesOf signature.now (seen_all statements.now))) }
{
    let target = Target::of(alloc, signature, order)?;
    classes_in(alloc, &target, signature, statements)
}
