// Sides in which a bad object stands.
ghost use Rattle.std.specs.Prelude.{◌≡◌, ◌⊎◌, ◌↔◌, IsTrue};
ghost use Rattle.mw_omod.specs.Completion.{has_attribute, repeats};
ghost use Rattle.mw_omod.specs.Seen.{OfObject, OneHas, IsNamedTwice, IsOfOtherClass, Repeats, seen_attributes};

use crate::objects::{Attribute, Element, Object, named};
use mw_term::{OpId, same};

/// Whether an attribute of this operator is among these.
pub fn has_attribute(attributes: &[Attribute<'_>], operator: OpId) -> bool
    ensures { result ≡ has_attribute (seen_attributes attributes.now) operator }
{
    let mut rest = attributes;
    while let [attribute, after @ ..] = rest {
        if attribute.operator == operator {
            return true;
        }
        rest = after;
    }
    false
}

/// Whether an attribute stands twice among these.
fn repeats(attributes: &[Attribute<'_>]) -> bool
    ensures { result ≡ repeats (seen_attributes attributes.now) }
{
    let mut rest = attributes;
    while let [attribute, after @ ..] = rest {
        if has_attribute(after, attribute.operator) {
            return true;
        }
        rest = after;
    }
    false
}

/// Whether an element is an object that has an attribute twice.
fn has_repetition(element: &Element<'_>) -> bool
    ensures { IsTrue result ↔ OfObject Repeats element.now.object }
{
    match &element.object {
        Some(object) => repeats(object.attributes.as_slice()),
        None => false,
    }
}

/// Whether one of the objects has an attribute twice.
fn one_repeats(elements: &[Element<'_>]) -> bool
    ensures { IsTrue result ↔ OneHas Repeats elements.now }
{
    let mut rest = elements;
    while let [element, after @ ..] = rest {
        if has_repetition(element) {
            return true;
        }
        rest = after;
    }
    false
}

/// Whether one of the objects has the name of this one.
fn is_named_among(object: &Object<'_>, elements: &[Element<'_>]) -> bool
    ensures { IsTrue result ↔ OneHas (λ w. w.form ≡ object.now.form) elements.now }
{
    match named(elements, &object.form) {
        Some(_) => true,
        None => false,
    }
}

/// Whether an element is an object with the name of one of these.
fn is_repeated(element: &Element<'_>, others: &[Element<'_>]) -> bool
    ensures { IsTrue result ↔ OfObject (λ v. OneHas (λ w. w.form ≡ v.form) others.now) element.now.object }
{
    match &element.object {
        Some(object) => is_named_among(object, others),
        None => false,
    }
}

/// Whether two objects have one name.
fn is_named_twice(elements: &[Element<'_>]) -> bool
    ensures { IsTrue result ↔ IsNamedTwice elements.now }
{
    let mut rest = elements;
    while let [element, after @ ..] = rest {
        if is_repeated(element, after) {
            return true;
        }
        rest = after;
    }
    false
}

/// Whether an element is an object with the name of this one, and of another class.
fn is_of_other_class(object: &Object<'_>, element: &Element<'_>) -> bool
    ensures { IsTrue result ↔ OfObject (IsOfOtherClass object.now) element.now.object }
{
    match &element.object {
        Some(other) => same(&other.form, &object.form) && other.class != object.class,
        None => false,
    }
}

/// Whether one of the objects has the name of this one, and is of another class.
fn one_is_of_other_class(object: &Object<'_>, elements: &[Element<'_>]) -> bool
    ensures { IsTrue result ↔ OneHas (IsOfOtherClass object.now) elements.now }
{
    let mut rest = elements;
    while let [element, after @ ..] = rest {
        if is_of_other_class(object, element) {
            return true;
        }
        rest = after;
    }
    false
}

/// Whether an element is an object whose class another one of its name hasn't.
fn changes_class(element: &Element<'_>, others: &[Element<'_>]) -> bool
    ensures { IsTrue result ↔ OfObject (λ v. OneHas (IsOfOtherClass v) others.now) element.now.object }
{
    match &element.object {
        Some(object) => one_is_of_other_class(object, others),
        None => false,
    }
}

/// Whether an object has another class on the other side.
fn one_changes_class(lefts: &[Element<'_>], rights: &[Element<'_>]) -> bool
    ensures { IsTrue result ↔ OneHas (λ v. OneHas (IsOfOtherClass v) rights.now) lefts.now }
{
    let mut rest = lefts;
    while let [element, after @ ..] = rest {
        if changes_class(element, rights) {
            return true;
        }
        rest = after;
    }
    false
}

/// Whether a bad object stands in these sides.
pub fn is_bad(lefts: &[Element<'_>], rights: &[Element<'_>]) -> bool
    ensures { IsTrue result ↔ (IsNamedTwice lefts.now ⊎ (IsNamedTwice rights.now ⊎ (OneHas Repeats lefts.now ⊎ (OneHas Repeats rights.now ⊎ OneHas (λ v. OneHas (IsOfOtherClass v) rights.now) lefts.now)))) }
{
    is_named_twice(lefts)
        || is_named_twice(rights)
        || one_repeats(lefts)
        || one_repeats(rights)
        || one_changes_class(lefts, rights)
}
