// The commands of a source.
ghost use Rattle.std.specs.Prelude.{◌≡◌, IfOk, IfErr, Ok, Err, drop, option_map};
ghost use Rattle.std.specs.Borrow.{Bor};
ghost use Rattle.mw_lex.specs.declared.token.Token.{Token as TokenOf};
ghost use Rattle.mw_module.specs.Units.{seen_unit};
ghost use Rattle.mw_command.specs.Bounds.{seen_bounded};
ghost use Rattle.mw_command.specs.Commands as commands;

use crate::dividing::divided;
use crate::naming::{begins_with, bound_in_front, has_braced_name};
use mw_lex::Token;
use mw_module::{Fault, FaultKind, Unit, is_word};

/// What a command does.
#[derive(Clone, Copy, Debug, PartialEq, Eq)]
pub enum Word {
    /// Reduces a term.
    Reduce,
    /// Rewrites a term by rules, and reduces it.
    Rewrite,
    /// Reads a term.
    Parse,
    /// Lists how a pattern matches a term.
    Match,
    /// Lists how a pattern matches a term, or several of the arguments of the operator on top of it.
    Xmatch,
}

/// A command, whose parts are tokens of its source.
#[derive(Drop)]
pub struct Command<'s> {
    pub word: Word,
    /// How many rules are applied at most, from 1 on.
    pub bound: Option<u64>,
    /// The name of the module in which the command stands; without it the last accepted one.
    pub module: Option<&'s Token>,
    /// The term, which may be empty; where a pattern is matched, the pattern.
    pub term: &'s [Token],
    /// What the pattern is matched against, where `<=?` divides the two.
    pub subject: Option<&'s [Token]>,
}

// The command that a first word asks for.
fn word_of(text: &[u8]) -> Option<Word>
    ensures { result ≡ commands.word_of text.now }
{
    if text == b"reduce".as_slice() || text == b"red".as_slice() {
        Some(Word::Reduce)
    } else if text == b"rewrite".as_slice() || text == b"rew".as_slice() {
        Some(Word::Rewrite)
    } else if text == b"parse".as_slice() {
        Some(Word::Parse)
    } else if text == b"match".as_slice() {
        Some(Word::Match)
    } else if text == b"xmatch".as_slice() {
        Some(Word::Xmatch)
    } else {
        None
    }
}

// What stands behind the first token.
fn behind_word(tokens: &[Token]) -> &[Token]
    ensures { result.now ≡ drop 1 tokens.now }
{
    match tokens {
        [_, behind @ ..] => behind,
        [] => tokens,
    }
}

// A command for what stands behind its word, its bound and its module's name.
fn for_term<'s>(
    word: Word,
    bound: Option<u64>,
    name: Option<&'s Token>,
    term: &'s [Token],
) -> Command<'s>
    ensures { commands.seen_command result ≡ commands.for_term word bound (option_map (λ (t : Bor TokenOf). t.now.text) name.entry) term.entry.now }
{
    let (term, subject) = match word {
        Word::Match | Word::Xmatch => divided(term),
        Word::Reduce | Word::Rewrite | Word::Parse => (term, None),
    };
    Command {
        word,
        bound,
        module: name,
        term,
        subject,
    }
}

// A command behind its word and its bound.
fn named_behind<'s>(word: Word, bound: Option<u64>, tokens: &'s [Token]) -> Command<'s>
    ensures { commands.seen_command result ≡ commands.named_behind word bound tokens.entry.now }
{
    let (module, term) = match tokens {
        [first, name, colon, term @ ..] if is_word(first, b"in") && is_word(colon, b":") => {
            (Some(name), term)
        }
        _ => (None, tokens),
    };
    for_term(word, bound, module, term)
}

// The bound that a command of this word has in front, and what stands behind it.
fn bound_for(word: Word, tokens: &[Token]) -> Option<(u64, &[Token])>
    ensures { option_map seen_bounded result ≡ commands.bound_for word tokens.now }
{
    match word {
        Word::Rewrite => bound_in_front(tokens),
        Word::Reduce | Word::Parse | Word::Match | Word::Xmatch => None,
    }
}

// A command behind its word; none where a bracket stands there that is no bound of this command.
fn command_behind<'s>(word: Word, tokens: &'s [Token]) -> Option<Command<'s>>
    ensures { option_map commands.seen_command result ≡ commands.command_behind word tokens.entry.now }
{
    if !begins_with(tokens, b"[") {
        return Some(named_behind(word, None, tokens));
    }
    let (bound, behind) = bound_for(word, tokens)?;
    Some(named_behind(word, Some(bound), behind))
}

/// The command that a unit is, or its fault.
pub fn read<'s>(unit: &Unit<'s>) -> Result<Command<'s>, Fault>
    ensures command { IfOk result (λ c. commands.command_of (seen_unit unit.now) ≡ Ok (commands.seen_command c)) }
    ensures fault { IfErr result (λ fault. commands.command_of (seen_unit unit.now) ≡ Err fault) }
{
    let line = unit.line;
    let tokens = behind_word(unit.tokens);
    match word_of(unit.word) {
        Some(word) if !has_braced_name(tokens) => match command_behind(word, tokens) {
            Some(command) => Ok(command),
            None => {
                let kind = FaultKind::BadBound;
                Err(Fault { line, kind })
            }
        },
        _ => {
            let kind = FaultKind::NotInProfile;
            Err(Fault { line, kind })
        }
    }
}
