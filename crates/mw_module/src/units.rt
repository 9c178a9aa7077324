// The units of a source.
ghost use Rattle.std.specs.Prelude.{◌≡◌, ◌<◌, length, drop, IfOk, Ok};
ghost use Rattle.mw_module.specs.Known.{UnitsAreKnown};
ghost use Rattle.mw_module.specs.Tokens.{UnitsAreOfTokens};
ghost use Rattle.mw_module.specs.Units as units;

use crate::faults::{Fault, FaultKind};
use crate::forms::Form;
use crate::kinds::{Kind, end_word, kind_of, unended};
use crate::words::{count_before, is_word, tokens_from};
use mw_lex::Token;
use std::alloc::{AllocError, Global};

/// A statement's form, with the line of the statement's first token.
#[derive(Drop)]
pub struct Lined<'s> {
    pub line: u32,
    pub form: Form<'s>,
}

/// A statement among those of several modules, with the line at which its faults are told.
#[derive(Clone, Copy)]
pub struct Stated<'u, 's> {
    pub line: u32,
    pub form: &'u Form<'s>,
}

/// A unit of a source, with the line of its first token and that token's text.
#[derive(Drop)]
pub struct Unit<'s> {
    pub line: u32,
    pub word: &'s [u8],
    /// A module's name.
    pub name: Option<&'s Token>,
    /// A module's statements, in their order.
    pub statements: Vec<Lined<'s>>,
    /// All tokens before the one that ends the unit, the first word too.
    pub tokens: &'s [Token],
}

// The statements of the body of a module of this kind, or its first fault.
fn read_body<'s>(
    alloc: Global,
    kind: Kind,
    body: &'s [Token],
) -> Result<Result<Vec<Lined<'s>>, Fault>, AllocError>
    ensures { IfOk result (λ r. units.seen_body r ≡ units.body_of kind body.now) }
{
    let mut statements = Vec::new(alloc);
    let mut rest = body;
    while let [first, ..] = rest {
        let line = first.line;
        let len = count_before(rest, b".");
        let form = match Form::of(alloc, kind, &rest[..len])? {
            Ok(form) => form,
            Err(wrong) => return Ok(Err(Fault { line, kind: wrong })),
        };
        statements.push(Lined { line, form })?;
        if len == rest.len() {
            let kind = FaultKind::BadStatement;
            return Ok(Err(Fault { line, kind }));
        }
        rest = tokens_from(rest, len + 1);
    }
    Ok(Ok(statements))
}

// What is wrong with a module's name and what stands behind it.
fn head_fault(name: &Token, behind: &[Token]) -> Option<FaultKind>
    ensures { result ≡ units.head_fault name.now behind.now }
{
    if is_word(name, b"{") {
        return Some(FaultKind::NotInProfile);
    }
    match behind {
        [token, ..] if is_word(token, b"is") => None,
        _ if count_before(behind, b"{") < count_before(behind, b"is") => {
            Some(FaultKind::NotInProfile)
        }
        _ => Some(FaultKind::BadStatement),
    }
}

// A module of this kind, by its first token, what stands behind it, and all its tokens.
fn read_module<'s>(
    alloc: Global,
    kind: Kind,
    tokens: &'s [Token],
    first: &'s Token,
    behind_word: &'s [Token],
) -> Result<Result<Unit<'s>, Fault>, AllocError>
    ensures { IfOk result (λ r. units.seen_outcome r ≡ units.module_behind kind tokens.now first.now behind_word.now) }
{
    let line = first.line;
    let [name, behind @ ..] = behind_word else {
        let kind = FaultKind::BadStatement;
        return Ok(Err(Fault { line, kind }));
    };
    if let Some(wrong) = head_fault(name, behind) {
        return Ok(Err(Fault { line, kind: wrong }));
    }
    match read_body(alloc, kind, &behind[1..])? {
        Err(fault) => Ok(Err(fault)),
        Ok(statements) => Ok(Ok(Unit {
            line,
            word: first.text.as_slice(),
            name: Some(name),
            statements,
            tokens,
        })),
    }
}

// What stands behind the first token.
fn behind_first(tokens: &[Token]) -> &[Token]
    ensures { result.now ≡ drop 1 tokens.now }
{
    match tokens {
        [_, behind @ ..] => behind,
        [] => tokens,
    }
}

// A unit of this kind, by its first token and all its tokens before the last.
fn read_whole<'s>(
    alloc: Global,
    kind: Kind,
    first: &'s Token,
    tokens: &'s [Token],
) -> Result<Result<Unit<'s>, Fault>, AllocError>
    ensures { IfOk result (λ r. units.seen_outcome r ≡ units.unit_with kind first.now tokens.now) }
{
    match kind {
        Kind::Functional | Kind::System | Kind::Object => {
            read_module(alloc, kind, tokens, first, behind_first(tokens))
        }
        Kind::Proof | Kind::Command => Ok(Ok(Unit {
            line: first.line,
            word: first.text.as_slice(),
            name: None,
            statements: Vec::new(alloc),
            tokens,
        })),
        _ => Ok(Err(Fault {
            line: first.line,
            kind: FaultKind::NotInProfile,
        })),
    }
}

/// The unit that begins at this place, or what is wrong with it; and the place where the next one begins. With `proofs`
/// a unit that begins with `proof` is one of its own; else it is a command.
pub fn read_unit<'s>(
    alloc: Global,
    tokens: &'s [Token],
    at: usize,
    proofs: bool,
) -> Result<(Result<Unit<'s>, Fault>, usize), AllocError>
    requires { at < length tokens.now }
    ensures { IfOk result (λ r. units.Reads proofs tokens.now at (units.seen_outcome r.0) r.1) }
{
    let rest = tokens_from(tokens, at);
    let first = &rest[0];
    let kind = kind_of(proofs, first.text.as_slice());
    let len = count_before(rest, end_word(kind));
    if len == rest.len() {
        let fault = Fault {
            line: first.line,
            kind: unended(kind),
        };
        return Ok((Err(fault), tokens.len()));
    }
    let next = at + len + 1;
    Ok((read_whole(alloc, kind, first, &rest[..len])?, next))
}

/// The laws that the statements of a unit that was read are known, and that a unit of tokens is made of tokens.
pub fn units_are_proper()
    ensures known { UnitsAreKnown }
    ensures tokens { UnitsAreOfTokens }
{}
