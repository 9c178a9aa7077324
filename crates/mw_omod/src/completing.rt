// Completed rules.
ghost use Rattle.std.specs.Prelude.{◌≡◌, ◌++◌, ◌∷◌, [], ◌<◌, ◌+◌, List, length, map, IfOk, IfErr, OnOk};
ghost use Rattle.mw_logic.specs.Term.{RawTerm};
ghost use Rattle.mw_logic.specs.Signature.{Signature as SignatureOf, IsRawTerm};
ghost use Rattle.mw_logic.specs.Accepted.{IsAccepted};
ghost use Rattle.mw_term.specs.Raws.{raw_term};
ghost use Rattle.mw_omod.specs.Causes.{HasCause};
ghost use Rattle.mw_omod.specs.Objects.{Attribute as AttributeOf, attribute_term, fresh, completed_object, joined_before};
ghost use Rattle.mw_omod.specs.Completion as completion;
ghost use Rattle.mw_omod.specs.Completion.{LeftBecomes, RightBecomes, AreCompleted, AreCompletedSides, IsCompletion, IsBad};
ghost use Rattle.mw_omod.specs.Seen.{AreOfSide, AreKept, IsKept, changed_attributes, kept_attributes, seen_attributes, seen_object, terms_seen};
ghost use Rattle.mw_omod.specs.Workable.{AreClasses};

use crate::CompletionError;
use crate::classes::Classes;
use crate::copying::copied;
use crate::faults::{has_attribute, is_bad};
use crate::joining::{joined, unary};
use crate::mentions::variables_of;
use crate::names::{class_variable, rest_variable, value_variable};
use crate::objects::{Attribute, Element, Found, Object, named, side};
use mw_canon::Facts;
use mw_term::{Raw, Raws, SortId, Statement, number_at};
use std::alloc::{AllocError, Global};

/// Puts attributes behind others, each with a copy of its value.
fn push_copies(
    alloc: Global,
    attributes: &[Attribute<'_>],
    found: &mut Vec<Raw>,
) -> Result<(), AllocError>
    ensures { OnOk result (map raw_term found.new.items ≡ map raw_term found.old.items ++ map attribute_term (seen_attributes attributes.now)) }
{
    let mut rest = attributes;
    while let [attribute, after @ ..] = rest {
        let value = copied(alloc, attribute.value)?;
        let term = unary(alloc, attribute.operator, value)?;
        found.push(term)?;
        rest = after;
    }
    Ok(())
}

/// Puts attributes behind others, each with a fresh variable for an element of this number.
fn push_fresh(
    alloc: Global,
    number: u32,
    attributes: &[Attribute<'_>],
    found: &mut Vec<Raw>,
) -> Result<(), AllocError>
    ensures { OnOk result (map raw_term found.new.items ≡ map raw_term found.old.items ++ map attribute_term (fresh number (seen_attributes attributes.now))) }
{
    let mut rest = attributes;
    while let [attribute, after @ ..] = rest {
        let value = value_variable(alloc, number, attribute)?;
        let term = unary(alloc, attribute.operator, value)?;
        found.push(term)?;
        rest = after;
    }
    Ok(())
}

/// Those of the others that the first attributes lack.
fn lacking<'r>(
    alloc: Global,
    first: &[Attribute<'r>],
    others: &[Attribute<'r>],
) -> Result<Vec<Attribute<'r>>, AllocError>
    ensures { IfOk result (λ v. seen_attributes v.items ≡ completion.lacking (seen_attributes first.now) (seen_attributes others.now)) }
{
    let mut found = Vec::new(alloc);
    let mut rest = others;
    while let [attribute, after @ ..] = rest {
        if !has_attribute(first, attribute.operator) {
            found.push(*attribute)?;
        }
        rest = after;
    }
    Ok(found)
}

/// The attributes, each with a copy of its value.
fn copies(alloc: Global, attributes: &[Attribute<'_>]) -> Result<Vec<Raw>, AllocError>
    ensures { IfOk result (λ v. map raw_term v.items ≡ map attribute_term (seen_attributes attributes.now)) }
{
    let mut found = Vec::with_capacity(alloc, attributes.len())?;
    push_copies(alloc, attributes, &mut found)?;
    Ok(found)
}

/// The attributes of a completed object of the left side, by the one of its name on the right.
fn kept_attributes<'r>(
    alloc: Global,
    number: u32,
    object: &Object<'r>,
    other: &Object<'r>,
) -> Result<Vec<Raw>, AllocError>
    ensures { IfOk result (λ v. map raw_term v.items ≡ map attribute_term (kept_attributes number (seen_object object.now) (seen_object other.now))) }
{
    let own = object.attributes.as_slice();
    let more = lacking(alloc, own, other.attributes.as_slice())?;
    let mut found = copies(alloc, own)?;
    push_fresh(alloc, number, more.as_slice(), &mut found)?;
    Ok(found)
}

/// The attributes of a completed object of the right side, by the one of its name on the left.
fn changed_attributes<'r>(
    alloc: Global,
    object: &Object<'r>,
    other: &Object<'r>,
) -> Result<Vec<Raw>, AllocError>
    ensures { IfOk result (λ v. map raw_term v.items ≡ map attribute_term (changed_attributes (seen_object object.now) (seen_object other.now))) }
{
    let own = object.attributes.as_slice();
    let more = lacking(alloc, own, other.attributes.as_slice())?;
    let mut found = copies(alloc, own)?;
    push_copies(alloc, more.as_slice(), &mut found)?;
    Ok(found)
}

/// What a completed object is about: the element of the left side whose variables it has, its name, and its class's
/// sort.
#[derive(Clone, Copy)]
struct Head<'r> {
    number: u32,
    name: &'r Raw,
    sort: SortId,
}

/// A completed object with these attributes.
fn completed(
    alloc: Global,
    classes: &Classes,
    head: &Head<'_>,
    attributes: Vec<Raw>,
) -> Result<Raw, AllocError>
    ensures { (xs : List AttributeOf) → map raw_term attributes.items ≡ map attribute_term xs
        → IfOk result (λ t. raw_term t ≡ completed_object classes.now head.now.number (raw_term head.now.name.now) head.now.sort xs) }
{
    let rest = rest_variable(alloc, classes, head.number)?;
    let set = joined(alloc, classes.comma, attributes, rest)?;
    let class = class_variable(alloc, head.number, head.sort)?;
    let name = copied(alloc, head.name)?;
    let args = vec![in alloc; name, class, set]?;
    Ok(Raw::Op(classes.object, Raws::of(args)))
}

/// An object of the left side that the right side has too, completed for the element of this number.
fn kept_object(
    alloc: Global,
    classes: &Classes,
    number: u32,
    object: &Object<'_>,
    other: &Object<'_>,
) -> Result<Raw, AllocError>
    ensures { IfOk result (λ t. raw_term t ≡ completed_object classes.now number (raw_term object.now.name.now) object.now.sort (kept_attributes number (seen_object object.now) (seen_object other.now))) }
{
    let head = Head {
        number,
        name: object.name,
        sort: object.sort,
    };
    let attributes = kept_attributes(alloc, number, object, other)?;
    completed(alloc, classes, &head, attributes)
}

/// An object that only the left side has, completed for the element of this number.
fn removed_object(
    alloc: Global,
    classes: &Classes,
    number: u32,
    object: &Object<'_>,
) -> Result<Raw, AllocError>
    ensures { IfOk result (λ t. raw_term t ≡ completed_object classes.now number (raw_term object.now.name.now) object.now.sort (seen_object object.now).attributes) }
{
    let head = Head {
        number,
        name: object.name,
        sort: object.sort,
    };
    let attributes = copies(alloc, object.attributes.as_slice())?;
    completed(alloc, classes, &head, attributes)
}

/// An object of the right side, completed by the one of its name on the left.
fn changed_object(
    alloc: Global,
    classes: &Classes,
    object: &Object<'_>,
    found: &Found<'_, '_>,
) -> Result<Raw, AllocError>
    ensures { IfOk result (λ t. raw_term t ≡ completed_object classes.now (found.now.index + 1) (raw_term object.now.name.now) found.now.object.now.sort (changed_attributes (seen_object object.now) (seen_object found.now.object.now))) }
{
    let head = Head {
        number: number_at(found.index)?,
        name: object.name,
        sort: found.object.sort,
    };
    let attributes = changed_attributes(alloc, object, found.object)?;
    completed(alloc, classes, &head, attributes)
}

/// What the left side's element of this number becomes.
fn left_element(
    alloc: Global,
    classes: &Classes,
    number: u32,
    element: &Element<'_>,
    rights: &[Element<'_>],
) -> Result<Raw, AllocError>
    ensures { (sig : SignatureOf) (right : RawTerm) → IsAccepted sig → IsKept sig classes.now element.now → AreOfSide sig classes.now right rights.now
        → IfOk result (λ t. LeftBecomes sig classes.now right number (raw_term element.now.term.now) (raw_term t)) }
{
    match &element.object {
        Some(object) => match named(rights, &object.form) {
            Some(found) => kept_object(alloc, classes, number, object, found.object),
            None => removed_object(alloc, classes, number, object),
        },
        None => copied(alloc, element.term),
    }
}

/// What an element of the right side becomes.
fn right_element(
    alloc: Global,
    classes: &Classes,
    element: &Element<'_>,
    lefts: &[Element<'_>],
) -> Result<Raw, AllocError>
    ensures { (sig : SignatureOf) (left : RawTerm) → IsAccepted sig → IsKept sig classes.now element.now → AreOfSide sig classes.now left lefts.now
        → IfOk result (λ t. RightBecomes sig classes.now left (raw_term element.now.term.now) (raw_term t)) }
{
    match &element.object {
        Some(object) => match named(lefts, &object.form) {
            Some(found) => changed_object(alloc, classes, object, &found),
            None => copied(alloc, element.term),
        },
        None => copied(alloc, element.term),
    }
}

/// What the elements of the left side become.
fn left_elements(
    alloc: Global,
    classes: &Classes,
    lefts: &[Element<'_>],
    rights: &[Element<'_>],
) -> Result<Vec<Raw>, AllocError>
    ensures { (sig : SignatureOf) (right : RawTerm) → IsAccepted sig → AreKept sig classes.now lefts.now → AreOfSide sig classes.now right rights.now
        → IfOk result (λ v. AreCompleted (LeftBecomes sig classes.now right) 1 (terms_seen lefts.now) (map raw_term v.items)) }
{
    let mut made = Vec::with_capacity(alloc, lefts.len())?;
    for element in lefts {
        let number = number_at(made.len())?;
        let term = left_element(alloc, classes, number, element, rights)?;
        made.push(term)?;
    }
    Ok(made)
}

/// What the elements of the right side become.
fn right_elements(
    alloc: Global,
    classes: &Classes,
    rights: &[Element<'_>],
    lefts: &[Element<'_>],
) -> Result<Vec<Raw>, AllocError>
    ensures { (sig : SignatureOf) (left : RawTerm) → IsAccepted sig → AreKept sig classes.now rights.now → AreOfSide sig classes.now left lefts.now
        → IfOk result (λ v. AreCompleted (λ i. RightBecomes sig classes.now left) 1 (terms_seen rights.now) (map raw_term v.items)) }
{
    let mut made = Vec::with_capacity(alloc, rights.len())?;
    for element in rights {
        let term = right_element(alloc, classes, element, lefts)?;
        made.push(term)?;
    }
    Ok(made)
}

/// Terms, at least one, joined from the right.
fn all_joined(alloc: Global, classes: &Classes, terms: Vec<Raw>) -> Result<Raw, AllocError>
    requires { 0 < length terms.items }
    ensures { IfOk result (λ t. (before : List RawTerm) × (last : RawTerm) × (map raw_term terms.items ≡ before ++ last ∷ []) × (raw_term t ≡ joined_before classes.now.union before last)) }
{
    let mut terms = terms;
    match terms.pop() {
        Some(last) => joined(alloc, classes.union, terms, last),
        None => unreachable!(),
    }
}

/// Two sides.
#[derive(Drop)]
struct Sides {
    left: Raw,
    right: Raw,
}

/// The sides, completed.
fn completed_sides(
    alloc: Global,
    facts: &Facts,
    classes: &Classes,
    left: &Raw,
    right: &Raw,
) -> Result<Sides, CompletionError>
    requires classes { AreClasses facts.now classes.now }
    requires left { IsRawTerm facts.now (raw_term left.now) }
    requires right { IsRawTerm facts.now (raw_term right.now) }
    ensures completed { IfOk result (λ s. AreCompletedSides facts.now classes.now (raw_term left.now) (raw_term right.now) (raw_term s.left) (raw_term s.right)) }
    ensures cause { IfErr result (HasCause (IsBad facts.now classes.now (raw_term left.now) (raw_term right.now))) }
{
    facts.shows();
    let lefts = side(alloc, facts, classes, left)?;
    let rights = side(alloc, facts, classes, right)?;
    if is_bad(lefts.as_slice(), rights.as_slice()) {
        return Err(CompletionError::BadObject);
    }
    let left = left_elements(alloc, classes, lefts.as_slice(), rights.as_slice())?;
    let right = right_elements(alloc, classes, rights.as_slice(), lefts.as_slice())?;
    let left = all_joined(alloc, classes, left)?;
    let right = all_joined(alloc, classes, right)?;
    Ok(Sides { left, right })
}

/// A rule with its sides completed, or `BadObject` where a bad object stands in them.
pub fn complete(
    alloc: Global,
    facts: &Facts,
    classes: &Classes,
    statement: Statement,
) -> Result<Statement, CompletionError>
    requires classes { AreClasses facts.now classes.now }
    requires left { IsRawTerm facts.now statement.left }
    requires right { IsRawTerm facts.now statement.right }
    ensures completed { IfOk result (IsCompletion facts.now classes.now statement) }
    ensures cause { IfErr result (HasCause (IsBad facts.now classes.now statement.left statement.right)) }
{
    let sides = completed_sides(alloc, facts, classes, &statement.left, &statement.right)?;
    let Sides { left, right } = sides;
    let variables = variables_of(alloc, &left, &right, statement.fragments.as_slice())?;
    Ok(Statement {
        left,
        right,
        fragments: statement.fragments,
        variables,
        rule: statement.rule,
        executable: statement.executable,
        owise: statement.owise,
    })
}
