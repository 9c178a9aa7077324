// The one reading of two texts whose terms have one kind.
ghost use Rattle.std.specs.Prelude.{List, IfOk, IfErr};
ghost use Rattle.mw_logic.specs.Term.{Variable};
ghost use Rattle.mw_logic.specs.Signature.{Signature as SignatureOf};
ghost use Rattle.mw_term.specs.Raws.{raw_term};
ghost use Rattle.mw_text.specs.Readings.{ReadsPair};
ghost use Rattle.mw_grammar.specs.Grammars.{IsGrammarOf, IsReading, texts};
ghost use Rattle.mw_parse.specs.Answers.{HasPairCause};
ghost use Rattle.mw_parse.specs.Tops.{ArePairOf, IsPairTold};

use crate::terms::raw;
use mw_chart::{LIMIT, TreePair, Unread};
use mw_grammar::{Grammar, Leaves};
use mw_lex::Token;
use mw_term::Raw;
use std::alloc::{AllocError, Global};

/// The terms of a pair of trees.
fn terms(
    alloc: Global,
    pair: &TreePair,
    lefts: &Leaves,
    rights: &Leaves,
) -> Result<(Raw, Raw), AllocError>
    ensures { IfOk result (ArePairOf lefts.now rights.now pair.now) }
{
    let left = raw(alloc, pair.left.node(), lefts)?;
    let right = raw(alloc, pair.right.node(), rights)?;
    Ok((left, right))
}

/// What the chart's fault tells.
fn told(
    alloc: Global,
    fault: &Unread<TreePair>,
    lefts: &Leaves,
    rights: &Leaves,
) -> Result<Unread<(Raw, Raw)>, AllocError>
    ensures { IfOk result (IsPairTold lefts.now rights.now fault.now) }
{
    match fault {
        Unread::NoParse => Ok(Unread::NoParse),
        Unread::TooLong => Ok(Unread::TooLong),
        Unread::Memory => Ok(Unread::Memory),
        Unread::Ambiguous { first, second } => {
            let first = terms(alloc, first, lefts, rights)?;
            let second = terms(alloc, second, lefts, rights)?;
            Ok(Unread::Ambiguous { first, second })
        }
    }
}

/// The one pair of terms of one kind that two texts spell.
pub fn parse_pair(
    alloc: Global,
    grammar: &Grammar,
    left: &[Token],
    right: &[Token],
) -> Result<(Raw, Raw), Unread<(Raw, Raw)>>
    requires { IsReading grammar.now }
    ensures read { (sig : SignatureOf) (variables : List Variable) → IsGrammarOf sig variables grammar.now
        → IfOk result (λ p. ReadsPair sig variables (texts left.now) (texts right.now) (raw_term p.0, raw_term p.1)) }
    ensures cause { (sig : SignatureOf) (variables : List Variable) → IsGrammarOf sig variables grammar.now
        → IfErr result (HasPairCause sig variables (texts left.now) (texts right.now)) }
{
    if left.len() > LIMIT || right.len() > LIMIT {
        return Err(Unread::TooLong);
    }
    let lefts = grammar.words(alloc, left)?;
    let rights = grammar.words(alloc, right)?;
    let table = grammar.table();
    let (first, second) = (lefts.words.as_slice(), rights.words.as_slice());
    match mw_chart::parse_pair(alloc, table, first, second) {
        Ok(pair) => Ok(terms(alloc, &pair, &lefts.leaves, &rights.leaves)?),
        Err(fault) => Err(told(alloc, &fault, &lefts.leaves, &rights.leaves)?),
    }
}
