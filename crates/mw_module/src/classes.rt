// Classes of objects.
ghost use Rattle.std.specs.Prelude.{◌≡◌, ◌++◌, ◌∷◌, [], codes, List, IfOk, OnOk};
ghost use Rattle.mw_text.specs.Names.{items_of};
ghost use Rattle.mw_module.specs.Classes as spec;
ghost use Rattle.mw_module.specs.Forms as forms;

use crate::forms::Form;
use crate::machine::{Part, part_tokens, read};
use crate::operator_names::is_plain_name;
use crate::table::{Place, Read, Role, Want, Wrong};
use crate::word::Word;
use mw_lex::Token;
use mw_term::Seq;
use std::alloc::{AllocError, Global};

/// An attribute of the objects of a class: its name, and the sort of its values.
#[derive(Drop)]
pub struct ClassAttribute<'s> {
    pub name: Word<'s>,
    pub sort: Word<'s>,
}

// The word that a part is.
fn word_of<'s>(tokens: &'s [Token], part: Part) -> Word<'s>
    ensures { result ≡ spec.word_of tokens.now part }
{
    match part_tokens(tokens, part) {
        [token, ..] => Word::lent(token.text.as_slice()),
        [] => Word::lent(&[]),
    }
}

// The attributes that parts are, a name and a sort each.
fn attributes_of<'s>(
    alloc: Global,
    tokens: &'s [Token],
    parts: &[Part],
) -> Result<Seq<ClassAttribute<'s>>, AllocError>
    ensures { IfOk result (λ attributes. attributes ≡ spec.attributes_of tokens.now parts.now) }
{
    let mut attributes = Vec::new(alloc);
    let mut rest = parts;
    while let [name, sort, behind @ ..] = rest {
        let name = word_of(tokens, *name);
        let sort = word_of(tokens, *sort);
        attributes.push(ClassAttribute { name, sort })?;
        rest = behind;
    }
    Ok(Seq::of(attributes))
}

// Whether the attributes can be operators' names.
fn are_named(attributes: &[ClassAttribute<'_>]) -> bool
    ensures { result ≡ spec.are_named attributes.now }
{
    attributes
        .iter()
        .all(|attribute| is_plain_name(attribute.name.as_slice()))
}

// A class of this name with these attributes, where they can be operators' names.
fn class_of<'s>(name: Word<'s>, attributes: Seq<ClassAttribute<'s>>) -> Result<Form<'s>, Wrong>
    ensures { forms.seen_shaped result ≡ spec.class_of name.entry attributes.entry }
{
    if is_plain_name(name.as_slice()) && are_named(attributes.as_slice()) {
        Ok(Form::Class { name, attributes })
    } else {
        Err(Wrong::Bad)
    }
}

// The name of a class, and attributes behind a bar, if there are some.
pub fn class_form<'s>(alloc: Global, tokens: &'s [Token]) -> Read<Form<'s>>
    ensures { IfOk result (λ r. forms.seen_shaped r ≡ spec.class_form tokens.now) }
{
    let parts = match read(alloc, Place::Class, Role::Silent, Want::Nothing, tokens)? {
        Ok(parts) => parts,
        Err(wrong) => return Ok(Err(wrong)),
    };
    let [name, behind @ ..] = parts.as_slice() else {
        return Ok(Err(Wrong::Bad));
    };
    let attributes = attributes_of(alloc, tokens, behind)?;
    Ok(class_of(word_of(tokens, *name), attributes))
}
