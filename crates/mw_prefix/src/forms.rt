// Forms of terms, from tokens.
ghost use Rattle.std.specs.Prelude.{◌≡◌, ◌<◌, ◌≤◌, ◌↔◌, length, IfOk, IsErrOf};
ghost use Rattle.mw_logic.specs.Preregular.{HasItsSorts};
ghost use Rattle.mw_poset.specs.SortOrder.{order_of};
ghost use Rattle.mw_term.specs.Raws.{raw_term};
ghost use Rattle.mw_prefix.specs.Forms.{IsPrefixForm, IsNoForm, token_texts};
ghost use Rattle.mw_prefix.specs.Leaves.{AreLeafKinds};

use crate::fault::PrefixError;
use crate::leaves::LeafKinds;
use crate::reading::read;
use mw_canon::Facts;
use mw_lex::Token;
use mw_poset::Poset;
use mw_term::Raw;
use std::alloc::Global;

/// The most tokens of a form.
const MOST_TOKENS: usize = 8_388_608;

/// The term whose numbered prefix form the tokens are.
pub fn read_prefix(
    alloc: Global,
    facts: &Facts,
    order: &Poset,
    tokens: &[Token],
) -> Result<Raw, PrefixError>
    requires order { order.now ≡ order_of facts.now }
    requires sorts { HasItsSorts facts.now }
    ensures read { IfOk result (λ r. IsPrefixForm facts.now (raw_term r) (token_texts tokens.now)) }
    ensures no_parse { IsErrOf result PrefixError.NoParse
        → IsNoForm facts.now (token_texts tokens.now) × (length tokens.now ≤ 8388608) }
    ensures too_long { (8388608 < length tokens.now) ↔ IsErrOf result PrefixError.TooLong }
{
    read_prefix_with(alloc, facts, order, LeafKinds::of(facts, order), tokens)
}

/// The same, with the kinds of leaves at hand, so that the sorts aren't looked through once more.
pub fn read_prefix_with(
    alloc: Global,
    facts: &Facts,
    order: &Poset,
    kinds: LeafKinds,
    tokens: &[Token],
) -> Result<Raw, PrefixError>
    requires order { order.now ≡ order_of facts.now }
    requires sorts { HasItsSorts facts.now }
    requires kinds { AreLeafKinds facts.now kinds }
    ensures read { IfOk result (λ r. IsPrefixForm facts.now (raw_term r) (token_texts tokens.now)) }
    ensures no_parse { IsErrOf result PrefixError.NoParse
        → IsNoForm facts.now (token_texts tokens.now) × (length tokens.now ≤ 8388608) }
    ensures too_long { (8388608 < length tokens.now) ↔ IsErrOf result PrefixError.TooLong }
{
    facts.shows();
    if tokens.len() > MOST_TOKENS {
        return Err(PrefixError::TooLong);
    }
    match read(alloc, facts, order, kinds, tokens)? {
        Some(term) => Ok(term),
        None => Err(PrefixError::NoParse),
    }
}
