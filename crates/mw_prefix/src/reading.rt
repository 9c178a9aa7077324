// Reading a form, a token at a time.
ghost use Rattle.std.specs.Prelude.{◌≡◌, List, [], option_map, IfOk};
ghost use Rattle.mw_logic.specs.Preregular.{HasItsSorts};
ghost use Rattle.mw_logic.specs.Term.{apply};
ghost use Rattle.mw_poset.specs.SortOrder.{order_of};
ghost use Rattle.mw_term.specs.Raws.{raw_term, raw_terms};
ghost use Rattle.mw_prefix.specs.Forms.{token_texts};
ghost use Rattle.mw_prefix.specs.Leaves.{AreLeafKinds};
ghost use Rattle.mw_prefix.specs.Reading as spec;
ghost use Rattle.mw_prefix.specs.States.{frames_of, last_of, state_of};
ghost use Rattle.mw_prefix.specs.Words.{word as word_said};

use crate::leaves::LeafKinds;
use crate::taking::takes;
use crate::words::{Word, word_of};
use mw_canon::Facts;
use mw_lex::Token;
use mw_poset::Poset;
use mw_term::{OpId, Raw, Raws};
use std::alloc::{AllocError, Global};

/// The most parentheses that are open at once.
const MOST_OPEN: usize = 999;

/// An operator whose arguments are being read, with those that are read.
#[derive(Drop)]
pub(crate) struct Level {
    operator: OpId,
    args: Vec<Raw>,
}

/// What was read last.
#[derive(Drop)]
pub(crate) enum Last {
    /// Nothing, an open parenthesis or a comma: a term must come.
    Nothing,
    /// An operator, which arguments may follow.
    Named(OpId),
    Term(Raw),
}

/// An operator on arguments.
fn applied(operator: OpId, args: Vec<Raw>) -> Raw
    ensures { raw_term result ≡ apply operator (raw_terms args.items) }
{
    Raw::Op(operator, Raws::of(args))
}

/// An operator on arguments, where it takes them.
fn taken(
    facts: &Facts,
    order: &Poset,
    kinds: LeafKinds,
    operator: OpId,
    args: Vec<Raw>,
) -> Option<Raw>
    requires order { order.now ≡ order_of facts.now }
    requires sorts { HasItsSorts facts.now }
    requires kinds { AreLeafKinds facts.now kinds }
    ensures { option_map raw_term result ≡ spec.taken facts.now operator (raw_terms args.items) }
{
    if takes(facts, order, kinds, operator, args.as_slice()) {
        Some(applied(operator, args))
    } else {
        None
    }
}

/// An operator without arguments, where it takes none.
fn constant(
    alloc: Global,
    facts: &Facts,
    order: &Poset,
    kinds: LeafKinds,
    operator: OpId,
) -> Option<Raw>
    requires order { order.now ≡ order_of facts.now }
    requires sorts { HasItsSorts facts.now }
    requires kinds { AreLeafKinds facts.now kinds }
    ensures { option_map raw_term result ≡ spec.constant facts.now operator }
{
    taken(facts, order, kinds, operator, Vec::new(alloc))
}

/// An argument is read, and another one follows.
fn at_comma(levels: &mut Vec<Level>, term: Raw) -> Result<Option<Last>, AllocError>
    ensures { IfOk result (λ r.
        option_map (state_of levels.new.items) r ≡ spec.at_comma (frames_of levels.old.items []) (raw_term term)) }
{
    let Some(level) = levels.pop() else {
        return Ok(None);
    };
    let Level { operator, mut args } = level;
    args.push(term)?;
    levels.push(Level { operator, args })?;
    Ok(Some(Last::Nothing))
}

/// The last argument is read.
fn at_closing(
    facts: &Facts,
    order: &Poset,
    kinds: LeafKinds,
    levels: &mut Vec<Level>,
    term: Raw,
) -> Result<Option<Last>, AllocError>
    requires order { order.now ≡ order_of facts.now }
    requires sorts { HasItsSorts facts.now }
    requires kinds { AreLeafKinds facts.now kinds }
    ensures { IfOk result (λ r. option_map (state_of levels.new.items) r
        ≡ spec.at_closing facts.now (frames_of levels.old.items []) (raw_term term)) }
{
    let Some(level) = levels.pop() else {
        return Ok(None);
    };
    let Level { operator, mut args } = level;
    args.push(term)?;
    match taken(facts, order, kinds, operator, args) {
        Some(term) => Ok(Some(Last::Term(term))),
        None => Ok(None),
    }
}

/// What follows a term.
fn after_term(
    facts: &Facts,
    order: &Poset,
    kinds: LeafKinds,
    levels: &mut Vec<Level>,
    term: Raw,
    word: Word,
) -> Result<Option<Last>, AllocError>
    requires order { order.now ≡ order_of facts.now }
    requires sorts { HasItsSorts facts.now }
    requires kinds { AreLeafKinds facts.now kinds }
    ensures { IfOk result (λ r. option_map (state_of levels.new.items) r
        ≡ spec.after_term facts.now (frames_of levels.old.items []) (raw_term term) (word_said word)) }
{
    match word {
        Word::Comma => at_comma(levels, term),
        Word::Closing => at_closing(facts, order, kinds, levels, term),
        _ => Ok(None),
    }
}

/// The arguments of an operator begin.
fn at_opening(
    alloc: Global,
    levels: &mut Vec<Level>,
    operator: OpId,
) -> Result<Option<Last>, AllocError>
    ensures { IfOk result (λ r.
        option_map (state_of levels.new.items) r ≡ spec.at_opening (frames_of levels.old.items []) operator) }
{
    if levels.len() >= MOST_OPEN {
        return Ok(None);
    }
    let args = Vec::new(alloc);
    levels.push(Level { operator, args })?;
    Ok(Some(Last::Nothing))
}

/// What follows an operator that no parenthesis follows.
fn after_constant(
    alloc: Global,
    facts: &Facts,
    order: &Poset,
    kinds: LeafKinds,
    levels: &mut Vec<Level>,
    operator: OpId,
    word: Word,
) -> Result<Option<Last>, AllocError>
    requires order { order.now ≡ order_of facts.now }
    requires sorts { HasItsSorts facts.now }
    requires kinds { AreLeafKinds facts.now kinds }
    ensures { IfOk result (λ r. option_map (state_of levels.new.items) r
        ≡ spec.after_constant facts.now (frames_of levels.old.items []) operator (word_said word)) }
{
    match constant(alloc, facts, order, kinds, operator) {
        Some(term) => after_term(facts, order, kinds, levels, term, word),
        None => Ok(None),
    }
}

/// What follows an operator.
fn after_name(
    alloc: Global,
    facts: &Facts,
    order: &Poset,
    kinds: LeafKinds,
    levels: &mut Vec<Level>,
    operator: OpId,
    word: Word,
) -> Result<Option<Last>, AllocError>
    requires order { order.now ≡ order_of facts.now }
    requires sorts { HasItsSorts facts.now }
    requires kinds { AreLeafKinds facts.now kinds }
    ensures { IfOk result (λ r. option_map (state_of levels.new.items) r
        ≡ spec.after_name facts.now (frames_of levels.old.items []) operator (word_said word)) }
{
    match word {
        Word::Opening => at_opening(alloc, levels, operator),
        _ => after_constant(alloc, facts, order, kinds, levels, operator, word),
    }
}

/// What begins a term.
fn after_nothing(word: Word) -> Option<Last>
    ensures { (fs : List spec.Frame) → option_map (λ l. spec.state fs (last_of l)) result
        ≡ spec.after_nothing fs (word_said word) }
{
    match word {
        Word::Leaf(term) => Some(Last::Term(term)),
        Word::Operator(operator) => Some(Last::Named(operator)),
        _ => None,
    }
}

/// One more token.
fn turn(
    alloc: Global,
    facts: &Facts,
    order: &Poset,
    kinds: LeafKinds,
    levels: &mut Vec<Level>,
    last: Last,
    token: &Token,
) -> Result<Option<Last>, AllocError>
    requires order { order.now ≡ order_of facts.now }
    requires sorts { HasItsSorts facts.now }
    requires kinds { AreLeafKinds facts.now kinds }
    ensures { IfOk result (λ r. option_map (state_of levels.new.items) r
        ≡ spec.turn facts.now (state_of levels.old.items last) token.now.text) }
{
    let word = word_of(alloc, facts, token.text.as_slice())?;
    match last {
        Last::Nothing => Ok(after_nothing(word)),
        Last::Named(operator) => after_name(alloc, facts, order, kinds, levels, operator, word),
        Last::Term(term) => after_term(facts, order, kinds, levels, term, word),
    }
}

/// The term, where no parenthesis is open.
fn whole(
    alloc: Global,
    facts: &Facts,
    order: &Poset,
    kinds: LeafKinds,
    levels: &[Level],
    last: Last,
) -> Option<Raw>
    requires order { order.now ≡ order_of facts.now }
    requires sorts { HasItsSorts facts.now }
    requires kinds { AreLeafKinds facts.now kinds }
    ensures { option_map raw_term result ≡ spec.whole facts.now (state_of levels.now last) }
{
    if !levels.is_empty() {
        return None;
    }
    match last {
        Last::Nothing => None,
        Last::Named(operator) => constant(alloc, facts, order, kinds, operator),
        Last::Term(term) => Some(term),
    }
}

/// The term whose form the tokens are, if they are one.
pub(crate) fn read(
    alloc: Global,
    facts: &Facts,
    order: &Poset,
    kinds: LeafKinds,
    tokens: &[Token],
) -> Result<Option<Raw>, AllocError>
    requires order { order.now ≡ order_of facts.now }
    requires sorts { HasItsSorts facts.now }
    requires kinds { AreLeafKinds facts.now kinds }
    ensures { IfOk result (λ r. option_map raw_term r ≡ spec.read facts.now (token_texts tokens.now)) }
{
    let mut levels = Vec::new(alloc);
    let mut last = Last::Nothing;
    for token in tokens {
        let Some(next) = turn(alloc, facts, order, kinds, &mut levels, last, token)? else {
            return Ok(None);
        };
        last = next;
    }
    Ok(whole(alloc, facts, order, kinds, levels.as_slice(), last))
}
