// The forms of statements.
ghost use Rattle.std.specs.Prelude.{◌≡◌, IfOk};
ghost use Rattle.mw_module.specs.Forms as forms;

use crate::attribute::Attributes;
use crate::classes::{ClassAttribute, class_form};
use crate::conditions::WrittenFragment;
use crate::faults::FaultKind;
use crate::kinds::Kind;
use crate::machine::{first_token, lists_of, read};
use crate::openings::{Opening, opening_of};
use crate::operators::{Asked, operators_form};
use crate::sortings::WrittenSort;
use crate::statements::statement_form;
use crate::table::{Place, Read, Role, Want, Wrong, told};
use crate::word::{Word, lists_of_words, words_of};
use crate::words::{count_before, is_word, tokens_from};
use mw_lex::Token;
use mw_term::Seq;
use std::alloc::{AllocError, Global};

/// A statement by its form, with its parts.
#[derive(Drop)]
pub enum Form<'s> {
    /// Sorts that are declared, at least one.
    Sorts {
        names: Seq<Word<'s>>,
    },
    /// Two groups of sorts or more, none empty: each sort of a group is below each of the next.
    Subsorts {
        groups: Seq<Seq<Word<'s>>>,
    },
    /// Operators that are declared, at least one, each by the words of its name, with these argument sorts, this
    /// value's sort and these attributes.
    Operators {
        names: Seq<Seq<Word<'s>>>,
        args: Vec<WrittenSort<'s>>,
        result: WrittenSort<'s>,
        attributes: Attributes<'s>,
    },
    /// Variables that are declared, at least one.
    Variables {
        names: Seq<Word<'s>>,
        sort: Word<'s>,
    },
    /// The two sides of an equation, or of a rule, each of which may be empty, and the fragments of its condition: none
    /// where it has no condition.
    Statement {
        rule: bool,
        left: &'s [Token],
        right: &'s [Token],
        fragments: Vec<WrittenFragment<'s>>,
        executable: bool,
    },
    /// A module that is imported, by its name.
    Import {
        module: Word<'s>,
    },
    /// A class with its attributes. What it declares stands in forms of their own.
    Class {
        name: Word<'s>,
        attributes: Seq<ClassAttribute<'s>>,
    },
}

// Names of sorts.
fn sorts_form<'s>(alloc: Global, names: &'s [Token]) -> Read<Form<'s>>
    ensures { IfOk result (λ r. forms.seen_shaped r ≡ forms.sorts_form names.now) }
{
    if names.is_empty() {
        return Ok(Err(Wrong::Bad));
    }
    match read(alloc, Place::Sorts, Role::Silent, Want::Nothing, names)? {
        Ok(_) => {
            let names = words_of(alloc, names)?;
            Ok(Ok(Form::Sorts { names }))
        }
        Err(wrong) => Ok(Err(wrong)),
    }
}

// Groups of sorts, divided by one `<` at least.
fn subsorts_form<'s>(alloc: Global, tokens: &'s [Token]) -> Read<Form<'s>>
    ensures { IfOk result (λ r. forms.seen_shaped r ≡ forms.subsorts_form tokens.now) }
{
    let parts = match read(alloc, Place::Group, Role::Words, Want::Nothing, tokens)? {
        Ok(parts) => parts,
        Err(wrong) => return Ok(Err(wrong)),
    };
    if parts.len() < 2 {
        return Ok(Err(Wrong::Bad));
    }
    let groups = lists_of(alloc, tokens, parts.as_slice())?;
    let groups = lists_of_words(alloc, groups.as_slice())?;
    Ok(Ok(Form::Subsorts { groups }))
}

// Names of variables, and what stands behind the colon: a sort and nothing more.
fn typed_names<'s>(alloc: Global, names: &'s [Token], tokens: &'s [Token]) -> Read<Form<'s>>
    ensures { IfOk result (λ r. forms.seen_shaped r ≡ forms.typed_names names.now tokens.now) }
{
    if names.is_empty() {
        return Ok(Err(Wrong::Bad));
    }
    if let Err(wrong) = read(alloc, Place::Variables, Role::Silent, Want::Nothing, names)? {
        return Ok(Err(wrong));
    }
    let parts = match read(alloc, Place::Sort, Role::Silent, Want::Nothing, tokens)? {
        Ok(parts) => parts,
        Err(wrong) => return Ok(Err(wrong)),
    };
    let names = words_of(alloc, names)?;
    match first_token(tokens, parts.as_slice()) {
        Some(sort) => {
            let sort = Word::lent(sort.text.as_slice());
            Ok(Ok(Form::Variables { names, sort }))
        }
        None => Ok(Err(Wrong::Bad)),
    }
}

// Names of variables, a colon and a sort.
fn variables_form<'s>(alloc: Global, tokens: &'s [Token]) -> Read<Form<'s>>
    ensures { IfOk result (λ r. forms.seen_shaped r ≡ forms.variables_form tokens.now) }
{
    let colon = count_before(tokens, b":");
    if colon == tokens.len() {
        return Ok(Err(Wrong::Bad));
    }
    typed_names(alloc, &tokens[..colon], tokens_from(tokens, colon + 1))
}

// The name of a module and nothing more.
fn import_form<'s>(tokens: &'s [Token]) -> Result<Form<'s>, Wrong>
    ensures { forms.seen_shaped result ≡ forms.import_form tokens.now }
{
    match tokens {
        [] => Err(Wrong::Bad),
        [module] if !is_word(module, b"{") => {
            let module = Word::lent(module.text.as_slice());
            Ok(Form::Import { module })
        }
        _ => Err(Wrong::Unread),
    }
}

// One operator, or several, which may be messages.
fn asked(single: bool, message: bool) -> Asked
    ensures { result ≡ forms.asked single message }
{
    Asked { single, message }
}

// What stands behind the first word of a statement.
fn form_behind<'s>(alloc: Global, opening: Opening, tokens: &'s [Token]) -> Read<Form<'s>>
    ensures { IfOk result (λ r. forms.seen_shaped r ≡ forms.form_behind opening tokens.now) }
{
    match opening {
        Opening::Sorts => sorts_form(alloc, tokens),
        Opening::Subsorts => subsorts_form(alloc, tokens),
        Opening::Operator => operators_form(alloc, asked(true, false), tokens),
        Opening::Operators => operators_form(alloc, asked(false, false), tokens),
        Opening::Variables => variables_form(alloc, tokens),
        Opening::Equation => statement_form(alloc, false, false, tokens),
        Opening::ConditionalEquation => statement_form(alloc, false, true, tokens),
        Opening::Rule => statement_form(alloc, true, false, tokens),
        Opening::ConditionalRule => statement_form(alloc, true, true, tokens),
        Opening::Import => Ok(import_form(tokens)),
        Opening::Class => class_form(alloc, tokens),
        Opening::Message => operators_form(alloc, asked(true, true), tokens),
        Opening::Messages => operators_form(alloc, asked(false, true), tokens),
        Opening::Elsewhere => Ok(Err(Wrong::Bad)),
        Opening::Unread => Ok(Err(Wrong::Unread)),
    }
}

impl<'s> Form<'s> {
    /// The form of a statement of a module of this kind, or what is wrong with it: `NotInProfile` or `BadStatement`. The
    /// full stop that ends the statement isn't among the tokens.
    pub fn of(
        alloc: Global,
        kind: Kind,
        statement: &'s [Token],
    ) -> Result<Result<Form<'s>, FaultKind>, AllocError>
        ensures { IfOk result (λ r. forms.seen_formed r ≡ forms.form_of kind statement.now) }
    {
        let [word, rest @ ..] = statement else {
            return Ok(Err(FaultKind::NotInProfile));
        };
        Ok(form_behind(alloc, opening_of(kind, word.text.as_slice()), rest)?.map_err(told))
    }
}
