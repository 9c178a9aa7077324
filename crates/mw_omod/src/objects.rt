// Written objects.
ghost use Rattle.std.specs.Prelude.{◌≡◌, ◌++◌, ◌∷◌, [], ℕ, List, Some, true, false, IfOk, MatchOption};
ghost use Rattle.mw_logic.specs.Term.{RawTerm, constant};
ghost use Rattle.mw_logic.specs.Signature.{IsRawTerm};
ghost use Rattle.mw_term.specs.Raws.{raw_term};
ghost use Rattle.mw_omod.specs.declared.classes.Role.TheVariants as role;
ghost use Rattle.mw_omod.specs.Objects.{Attribute as AttributeOf, IsSetOf, object_of, role_of};
ghost use Rattle.mw_omod.specs.Seen.{IsObjectOf, AreOfSide, HasAt, OfObject, OneHas, seen_attributes};

use crate::classes::{Classes, Role};
use crate::elements::elements;
use crate::forms::form;
use mw_canon::Facts;
use mw_term::{OpId, Raw, SortId, Term, same};
use std::alloc::{AllocError, Global};

/// An attribute that is written: its operator, the sort that its class declares for it, and its value.
#[derive(Clone, Copy)]
pub struct Attribute<'r> {
    pub operator: OpId,
    pub sort: SortId,
    pub value: &'r Raw,
}

/// An object that is written.
#[derive(Drop)]
pub struct Object<'r> {
    pub name: &'r Raw,
    /// The canonical form of its name.
    pub form: Term,
    pub class: OpId,
    pub sort: SortId,
    pub attributes: Vec<Attribute<'r>>,
}

/// An element of a side, and the object that it is, if it is one that is written.
#[derive(Drop)]
pub struct Element<'r> {
    pub term: &'r Raw,
    pub object: Option<Object<'r>>,
}

/// The name, the class and the set of an object.
#[derive(Clone, Copy)]
struct Parts<'r> {
    name: &'r Raw,
    class: &'r Raw,
    set: &'r Raw,
}

fn parts_of<'r>(classes: &Classes, term: &'r Raw) -> Option<Parts<'r>>
    ensures { MatchOption result
        ((name class set : RawTerm) → raw_term term.now ≡ object_of classes.now name class set → ⊥)
        (λ p. raw_term term.now ≡ object_of classes.now (raw_term p.name.now) (raw_term p.class.now) (raw_term p.set.now)) }
{
    let Raw::Op(operator, args) = term else {
        return None;
    };
    if *operator != classes.object {
        return None;
    }
    let args = args.as_slice();
    match args {
        [name, class, set] => Some(Parts { name, class, set }),
        _ => None,
    }
}

/// A class constant and its class's sort.
#[derive(Clone, Copy)]
struct Class {
    constant: OpId,
    sort: SortId,
}

fn class_of(classes: &Classes, term: &Raw) -> Option<Class>
    ensures { MatchOption result
        ((c S : ℕ) → raw_term term.now ≡ constant c → role_of classes.now c ≡ role.Class S → ⊥)
        (λ c. (raw_term term.now ≡ constant c.constant) × (role_of classes.now c.constant ≡ role.Class c.sort)) }
{
    let Raw::Op(constant, args) = term else {
        return None;
    };
    if !args.as_slice().is_empty() {
        return None;
    }
    match classes.role(*constant) {
        Role::Class(sort) => Some(Class {
            constant: *constant,
            sort,
        }),
        _ => None,
    }
}

/// Puts the attributes of a set behind others, and tells whether nothing else stands in it.
fn push_attributes<'r>(
    classes: &Classes,
    set: &'r Raw,
    found: &mut Vec<Attribute<'r>>,
) -> Result<bool, AllocError>
    ensures all { IfOk result (λ b. b ≡ true → (xs : List AttributeOf) × IsSetOf classes.now (raw_term set.now) xs
        × (seen_attributes found.new.items ≡ seen_attributes found.old.items ++ xs)) }
    ensures not { IfOk result (λ b. b ≡ false → (xs : List AttributeOf) → IsSetOf classes.now (raw_term set.now) xs → ⊥) }
{
    let Raw::Op(operator, args) = set else {
        return Ok(false);
    };
    match args.as_slice() {
        [] => Ok(*operator == classes.none),
        [value] => push_attribute(classes, *operator, value, found),
        [first, second] => {
            if *operator != classes.comma {
                return Ok(false);
            }
            if !push_attributes(classes, first, found)? {
                return Ok(false);
            }
            push_attributes(classes, second, found)
        }
        _ => Ok(false),
    }
}

/// Puts an attribute of this operator and value behind others, and tells whether it is one.
fn push_attribute<'r>(
    classes: &Classes,
    operator: OpId,
    value: &'r Raw,
    found: &mut Vec<Attribute<'r>>,
) -> Result<bool, AllocError>
    ensures all { IfOk result (λ b. b ≡ true → (a : AttributeOf) × (a.operator ≡ operator) × (a.value ≡ raw_term value.now) × (role_of classes.now operator ≡ role.Attribute a.sort)
        × (seen_attributes found.new.items ≡ seen_attributes found.old.items ++ a ∷ [])) }
    ensures not { IfOk result (λ b. b ≡ false → (S : ℕ) → role_of classes.now operator ≡ role.Attribute S → ⊥) }
{
    match classes.role(operator) {
        Role::Attribute(sort) => {
            found.push(Attribute {
                operator,
                sort,
                value,
            })?;
            Ok(true)
        }
        _ => Ok(false),
    }
}

/// The object that an element is, if it is one that is written.
fn object_in<'r>(
    alloc: Global,
    facts: &Facts,
    classes: &Classes,
    term: &'r Raw,
) -> Result<Option<Object<'r>>, AllocError>
    requires { IsRawTerm facts.now (raw_term term.now) }
    ensures { IfOk result (IsObjectOf facts.now classes.now (raw_term term.now)) }
{
    let Some(Parts { name, class, set }) = parts_of(classes, term) else {
        return Ok(None);
    };
    let Some(Class { constant, sort }) = class_of(classes, class) else {
        return Ok(None);
    };
    let mut attributes = Vec::new(alloc);
    if !push_attributes(classes, set, &mut attributes)? {
        return Ok(None);
    }
    let form = form(alloc, facts, name)?;
    Ok(Some(Object {
        name,
        form,
        class: constant,
        sort,
        attributes,
    }))
}

/// The elements of a side in order, with the objects that they are.
pub fn side<'r>(
    alloc: Global,
    facts: &Facts,
    classes: &Classes,
    term: &'r Raw,
) -> Result<Vec<Element<'r>>, AllocError>
    requires { IsRawTerm facts.now (raw_term term.now) }
    ensures { IfOk result (λ v. AreOfSide facts.now classes.now (raw_term term.now) v.items) }
{
    let listed = elements(alloc, classes.union, term)?;
    let terms = listed.as_slice();
    let mut found = Vec::with_capacity(alloc, terms.len())?;
    for term in terms {
        let object = object_in(alloc, facts, classes, *term)?;
        found.push(Element {
            term: *term,
            object,
        })?;
    }
    Ok(found)
}

/// An object among elements, and the index of its element.
#[derive(Clone, Copy)]
pub struct Found<'e, 'r> {
    pub index: usize,
    pub object: &'e Object<'r>,
}

/// The object of an element, where its name has this canonical form.
fn named_as<'e, 'r>(element: &'e Element<'r>, form: &Term) -> Option<&'e Object<'r>>
    ensures { MatchOption result
        (OfObject (λ w. w.form ≡ form.now) element.now.object → ⊥)
        (λ w. (element.now.object ≡ Some w.now) × (w.now.form ≡ form.now)) }
{
    match &element.object {
        Some(object) => {
            if same(&object.form, form) {
                Some(object)
            } else {
                None
            }
        }
        None => None,
    }
}

/// The first object whose name has this canonical form.
pub fn named<'e, 'r>(elements: &'e [Element<'r>], form: &Term) -> Option<Found<'e, 'r>>
    ensures { MatchOption result
        (OneHas (λ w. w.form ≡ form.now) elements.now → ⊥)
        (λ f. HasAt elements.now f.index f.object.now × (f.object.now.form ≡ form.now)) }
{
    let mut index = 0;
    let mut rest = elements;
    while let [element, after @ ..] = rest {
        if let Some(object) = named_as(element, form) {
            return Some(Found { index, object });
        }
        index += 1;
        rest = after;
    }
    None
}
