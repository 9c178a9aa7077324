// Declarations of operators.
ghost use Rattle.std.specs.Prelude.{◌≡◌, ◌<◌, ◌-◌, ◌^◌, length, IfOk};
ghost use Rattle.mw_module.specs.Words.{seen_lists};
ghost use Rattle.mw_module.specs.Written.{OperatorsAreWritten};
ghost use Rattle.mw_module.specs.Forms as forms;

use crate::attribute::{Attributes, said};
use crate::forms::Form;
use crate::machine::{Part, lists_of, read};
use crate::operator_names::all_fit;
use crate::sortings::{WrittenSort, sorting_of, sortings_of};
use crate::table::{Place, Read, Role, Want, Wrong};
use crate::word::lists_of_words;
use crate::words::{count_before, is_word, tokens_from};
use mw_lex::Token;
use std::alloc::Global;

// A value's sort, and what is said of the operators.
#[derive(Drop)]
struct Value<'s> {
    sort: WrittenSort<'s>,
    attributes: Attributes<'s>,
}

// What stands behind the names.
#[derive(Drop)]
struct Profile<'s> {
    args: Vec<WrittenSort<'s>>,
    value: Value<'s>,
}

// What attributes say: a list with one attribute at least, if there is one.
fn said_behind<'s>(alloc: Global, tokens: &'s [Token], parts: &[Part]) -> Read<Attributes<'s>>
    ensures { IfOk result (λ r. forms.seen_said r ≡ forms.said_behind tokens.now parts.now) }
{
    match parts {
        [] => Ok(Ok(Attributes::none(alloc))),
        [_] => Ok(Err(Wrong::Bad)),
        [_, more @ ..] => Ok(Ok(said(alloc, tokens, more)?)),
    }
}

// A value's part, and attributes.
fn valued<'s>(alloc: Global, kinds: bool, tokens: &'s [Token], parts: &[Part]) -> Read<Value<'s>>
    ensures { IfOk result (λ r. forms.seen_valued r ≡ forms.valued kinds tokens.now parts.now) }
{
    let [value, behind @ ..] = parts else {
        return Ok(Err(Wrong::Bad));
    };
    let attributes = match said_behind(alloc, tokens, behind)? {
        Ok(attributes) => attributes,
        Err(wrong) => return Ok(Err(wrong)),
    };
    match sorting_of(kinds, tokens, *value) {
        Some(sort) => Ok(Ok(Value { sort, attributes })),
        None => Ok(Err(Wrong::Bad)),
    }
}

// Whether the sort that messages have stands in front, where it is asked for.
fn fits_message(message: bool, tokens: &[Token]) -> bool
    ensures { result ≡ forms.fits_message message tokens.now }
{
    match tokens {
        [sort, ..] => !message || is_word(sort, b"Msg"),
        [] => !message,
    }
}

// Argument sorts, an arrow and what comes behind: the sort of messages where it is asked for.
fn profile_form<'s>(
    alloc: Global,
    message: bool,
    names: &[&[Token]],
    tokens: &'s [Token],
) -> Read<Profile<'s>>
    ensures { IfOk result (λ r.
        forms.seen_profiled r ≡ forms.profile_form message (seen_lists names.now) tokens.now) }
{
    let total = count_before(tokens, b"->");
    let partial = count_before(tokens, b"~>");
    let arrow = total.min(partial);
    let kinds = partial < total;
    let front = &tokens[..arrow];
    let args = match read(alloc, Place::Args, Role::Silent, Want::Nothing, front)? {
        Ok(parts) => sortings_of(alloc, kinds, front, parts.as_slice())?,
        Err(wrong) => return Ok(Err(wrong)),
    };
    if arrow == tokens.len() || !all_fit(args.len(), names) {
        return Ok(Err(Wrong::Bad));
    }
    let behind = tokens_from(tokens, arrow + 1);
    if !fits_message(message, behind) {
        return Ok(Err(Wrong::Bad));
    }
    match value_form(alloc, kinds, args.len(), behind)? {
        Ok(value) => Ok(Ok(Profile { args, value })),
        Err(wrong) => Ok(Err(wrong)),
    }
}

// A value's sort and attributes, of operators with so many arguments.
fn value_form<'s>(alloc: Global, kinds: bool, arity: usize, tokens: &'s [Token]) -> Read<Value<'s>>
    ensures { IfOk result (λ r. forms.seen_valued r ≡ forms.value_form kinds arity tokens.now) }
{
    match read(
        alloc,
        Place::Value,
        Role::Silent,
        Want::Marks(arity),
        tokens,
    )? {
        Ok(parts) => valued(alloc, kinds, tokens, parts.as_slice()),
        Err(wrong) => Ok(Err(wrong)),
    }
}

// Names of operators: a single one, or several.
fn names_form<'s>(alloc: Global, single: bool, tokens: &'s [Token]) -> Read<Vec<&'s [Token]>>
    ensures { IfOk result (λ r. forms.seen_names r ≡ forms.names_form single tokens.now) }
{
    let place = if single { Place::Name } else { Place::Names };
    match read(alloc, place, Role::Words, Want::Names, tokens)? {
        Ok(parts) => Ok(Ok(lists_of(alloc, tokens, parts.as_slice())?)),
        Err(wrong) => Ok(Err(wrong)),
    }
}

// Which operators a word asks for: one, or several, and whether they are messages.
#[derive(Clone, Copy)]
pub struct Asked {
    pub single: bool,
    pub message: bool,
}

// Names of operators, a colon and what comes behind.
pub fn operators_form<'s>(alloc: Global, asked: Asked, tokens: &'s [Token]) -> Read<Form<'s>>
    ensures { IfOk result (λ r. forms.seen_shaped r ≡ forms.operators_form asked tokens.now) }
{
    let colon = count_before(tokens, b":");
    if colon == tokens.len() {
        return Ok(Err(Wrong::Bad));
    }
    match names_form(alloc, asked.single, &tokens[..colon])? {
        Ok(names) => declared(
            alloc,
            asked.message,
            names.as_slice(),
            tokens_from(tokens, colon + 1),
        ),
        Err(wrong) => Ok(Err(wrong)),
    }
}

// Operators with these names, of which there is one at least.
fn declared<'s>(
    alloc: Global,
    message: bool,
    names: &[&'s [Token]],
    tokens: &'s [Token],
) -> Read<Form<'s>>
    ensures { IfOk result (λ r. forms.seen_shaped r ≡ forms.declared message (seen_lists names.now) tokens.now) }
{
    if names.is_empty() {
        return Ok(Err(Wrong::Bad));
    }
    let words = lists_of_words(alloc, names)?;
    match profile_form(alloc, message, names, tokens)? {
        Ok(profile) => Ok(Ok(Form::Operators {
            names: words,
            args: profile.args,
            result: profile.value.sort,
            attributes: profile.value.attributes,
        })),
        Err(wrong) => Ok(Err(wrong)),
    }
}

/// The law that what is read as operators is written as names, a colon, sorts, an arrow, and the rest.
pub fn operators_are_written()
    ensures { OperatorsAreWritten }
{}
