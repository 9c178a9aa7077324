// The one reading of a text.
ghost use Rattle.std.specs.Prelude.{◌≡◌, List, IfOk, IfErr, option_map};
ghost use Rattle.mw_logic.specs.Term.{Variable};
ghost use Rattle.mw_logic.specs.Signature.{Signature as SignatureOf};
ghost use Rattle.mw_term.specs.Raws.{raw_term};
ghost use Rattle.mw_text.specs.Mixfix.{Reads};
ghost use Rattle.mw_grammar.specs.Readable.{kind_in};
ghost use Rattle.mw_grammar.specs.Grammars.{IsGrammarOf, IsReading, texts};
ghost use Rattle.mw_parse.specs.Answers.{HasCause};
ghost use Rattle.mw_parse.specs.Tops.{IsTold};

use crate::terms::raw;
use mw_chart::{LIMIT, Tree, Unread};
use mw_grammar::{Grammar, Leaves};
use mw_lex::Token;
use mw_term::{KindId, Raw, SortId};
use std::alloc::{AllocError, Global};

/// What the chart's fault tells.
fn told(alloc: Global, fault: &Unread<Tree>, leaves: &Leaves) -> Result<Unread<Raw>, AllocError>
    ensures { IfOk result (IsTold leaves.now fault.now) }
{
    match fault {
        Unread::NoParse => Ok(Unread::NoParse),
        Unread::TooLong => Ok(Unread::TooLong),
        Unread::Memory => Ok(Unread::Memory),
        Unread::Ambiguous { first, second } => {
            let first = raw(alloc, first.node(), leaves)?;
            let second = raw(alloc, second.node(), leaves)?;
            Ok(Unread::Ambiguous { first, second })
        }
    }
}

/// The kind of a wanted sort, where one is wanted.
fn wanted_kind(grammar: &Grammar, wanted: Option<SortId>) -> Option<KindId>
    ensures { result ≡ option_map (kind_in grammar.now.kinds) wanted }
{
    wanted.map(|sort| grammar.kind_of(sort))
}

/// The one term that the tokens spell, of this sort's kind if one is wanted.
pub fn parse(
    alloc: Global,
    grammar: &Grammar,
    tokens: &[Token],
    wanted: Option<SortId>,
) -> Result<Raw, Unread<Raw>>
    requires { IsReading grammar.now }
    ensures read { (sig : SignatureOf) (variables : List Variable) → IsGrammarOf sig variables grammar.now
        → IfOk result (λ t. Reads sig variables wanted (texts tokens.now) (raw_term t)) }
    ensures cause { (sig : SignatureOf) (variables : List Variable) → IsGrammarOf sig variables grammar.now
        → IfErr result (HasCause sig variables wanted (texts tokens.now)) }
{
    if tokens.len() > LIMIT {
        return Err(Unread::TooLong);
    }
    let words = grammar.words(alloc, tokens)?;
    let kind = wanted_kind(grammar, wanted);
    match mw_chart::parse(alloc, grammar.table(), words.words.as_slice(), kind) {
        Ok(term) => Ok(raw(alloc, term.node(), &words.leaves)?),
        Err(fault) => Err(told(alloc, &fault, &words.leaves)?),
    }
}
