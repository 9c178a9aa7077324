// What is read before a source.
ghost use Rattle.std.specs.Prelude.{◌≡◌, ◌<◌, ◌-◌, ◌^◌, ◌++◌, length, Ok, IfOk, OnOk, IfErr};
ghost use Rattle.mw_lex.specs.Lexing.{tokens_of, HasCause};
ghost use Rattle.mw_module.specs.Words.{texts};
ghost use Rattle.mw_prelude.specs.Mentions.{mentioned_in, prelude_for};
ghost use Rattle.mw_top.specs.Preludes.{source_tokens as tokens_for};

use mw_lex::{LexError, Token, tokens};
use mw_prelude::Mentioned;
use std::alloc::{AllocError, Global};

/// Which modules of the prelude these tokens mention.
fn mentioned(tokens: &[Token]) -> Mentioned
    ensures { result ≡ mentioned_in (texts tokens.now) }
{
    let mut mentioned = Mentioned::nothing();
    let mut rest = tokens;
    while let [token, after @ ..] = rest {
        mentioned = mentioned.with(token.text.as_slice());
        rest = after;
    }
    mentioned
}

/// The tokens of the modules of the prelude that these tokens need.
fn needed(alloc: Global, own: &[Token]) -> Result<Vec<Token>, LexError>
    ensures ok { IfOk result (λ first. tokens_of (prelude_for (texts own.now)) ≡ Ok first.items) }
    ensures fault { IfErr result (λ e. HasCause e (tokens_of (prelude_for (texts own.now)))) }
{
    let text = mentioned(own).prelude(alloc)?;
    if text.len() >= u32::MAX as usize {
        return Err(LexError::Memory);
    }
    tokens(alloc, text.as_slice())
}

/// Puts tokens in front of others. Turned round twice, the others, which may be many more, stay where they are in
/// memory.
fn put_in_front(all: &mut Vec<Token>, first: &mut Vec<Token>) -> Result<(), AllocError>
    ensures { OnOk result (all.new.items ≡ first.old.items ++ all.old.items) }
{
    all.as_mut_slice().reverse();
    first.as_mut_slice().reverse();
    all.append(first)?;
    all.as_mut_slice().reverse();
    Ok(())
}

/// The tokens that are read for a source: those of the modules of the prelude that it needs, and then its own.
pub fn source_tokens(alloc: Global, bytes: &[u8]) -> Result<Vec<Token>, LexError>
    requires { length bytes.now < 2 ^ 32 - 1 }
    ensures ok { IfOk result (λ all. tokens_for bytes.now ≡ Ok all.items) }
    ensures fault { IfErr result (λ e. HasCause e (tokens_for bytes.now)) }
{
    let mut all = tokens(alloc, bytes)?;
    let mut first = needed(alloc, all.as_slice())?;
    put_in_front(&mut all, &mut first)?;
    Ok(all)
}
