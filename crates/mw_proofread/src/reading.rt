// Whole texts.
ghost use Rattle.std.specs.Prelude.{◌≡◌, ◌≢◌, ◌++◌, ◌∷◌, ℕ, List, IfOk, IfErr, MatchOption, codes};
ghost use Rattle.mw_items.specs.Items.{Items};
ghost use Rattle.mw_items.specs.Entries.{entries_of};
ghost use Rattle.mw_proofread.specs.TokenTexts.{token_texts};
ghost use Rattle.mw_proofread.specs.Reading.{IsText, entry_items};
ghost use Rattle.mw_proofread.specs.Outside as outside;
ghost use Rattle.mw_proofread.specs.Whole.{title_tokens, HasTail, HasStop};
ghost use Rattle.mw_proofread.specs.Faults.{OnOutside, OutsideAt};
ghost use Rattle.mw_prefix.specs.Leaves.{AreLeafKinds};

use crate::fault::{Fault, ReadError};
use crate::items::item;
use crate::reader::Reader;
use crate::values::value;
use crate::words::{after, first, is_followed};
use mw_items::{Entry, ProofText};
use mw_least::Ctx;
use mw_lex::Token;
use mw_prefix::LeafKinds;
use mw_term::{Seq, Term};
use std::alloc::Global;

/// What stands behind the words in front of `from`, in a text of version 1.
fn behind_title(tokens: &[Token]) -> Option<&[Token]>
    ensures { MatchOption result ((name : List ℕ) (rest : List (List ℕ))
        → token_texts tokens.now ≢ title_tokens name ++ rest) (λ behind. (name : List ℕ)
        × (token_texts tokens.now ≡ title_tokens name ++ token_texts behind.now)) }
{
    let behind = after(tokens, b"proof")?;
    let behind = after(behind, b"1")?;
    let behind = after(behind, b"in")?;
    let (_, behind) = first(behind)?;
    Some(behind)
}

/// The head at the front: its term, and what stands behind it.
fn head<'t>(
    alloc: Global,
    reader: &Reader<'_>,
    tokens: &'t [Token],
) -> Result<(Term, &'t [Token]), Fault>
    requires { AreLeafKinds reader.now.ctx.now.signature reader.now.kinds }
    ensures ok { IfOk result (λ r. (h : outside.HasHead reader.now.ctx.now (token_texts tokens.now)
        (token_texts r.1.now)) × (h.from ≡ r.0)) }
    ensures outside { IfErr result (OnOutside ((rest : List (List ℕ))
        → ¬ outside.HasHead reader.now.ctx.now (token_texts tokens.now) rest)) }
{
    let Some(behind) = behind_title(tokens) else {
        return Err(Fault::Outside);
    };
    let Some(behind) = after(behind, b"from") else {
        return Err(Fault::Outside);
    };
    let (from, rest) = value(alloc, reader, behind)?;
    if is_followed(rest) {
        Ok((from, rest))
    } else {
        Err(Fault::Outside)
    }
}

/// The end, of which what stands behind its first word is given.
fn ending(alloc: Global, reader: &Reader<'_>, tokens: &[Token]) -> Result<Term, Fault>
    requires { AreLeafKinds reader.now.ctx.now.signature reader.now.kinds }
    ensures ok { IfOk result (λ to. (h : outside.HasEnd reader.now.ctx.now (codes "to" ∷ token_texts tokens.now))
        × (h.to ≡ to)) }
    ensures outside { IfErr result (OnOutside (¬ outside.HasEnd reader.now.ctx.now
        (codes "to" ∷ token_texts tokens.now))) }
{
    let (to, rest) = value(alloc, reader, tokens)?;
    if rest.is_empty() {
        Ok(to)
    } else {
        Err(Fault::Outside)
    }
}

/// The items and the end.
fn tail(
    alloc: Global,
    reader: &Reader<'_>,
    tokens: &[Token],
    entries: &mut Vec<Entry>,
) -> Result<Term, ReadError>
    requires kinds { AreLeafKinds reader.now.ctx.now.signature reader.now.kinds }
    requires followed { outside.IsFollowed (token_texts tokens.now) }
    ensures ok { IfOk result (λ to. HasTail reader.now.ctx.now
        (token_texts tokens.now) to entries.old.items entries.new.items) }
    ensures outside { IfErr result (OutsideAt (HasStop reader.now.ctx.now (token_texts tokens.now))) }
{
    let mut rest = tokens;
    let mut step = 1;
    loop {
        if let Some(behind) = after(rest, b"to") {
            return match ending(alloc, reader, behind) {
                Ok(to) => Ok(to),
                Err(fault) => Err(fault.at(step)),
            };
        }
        rest = match item(alloc, reader, rest, entries) {
            Ok(behind) => behind,
            Err(fault) => return Err(fault.at(step)),
        };
        step += 1;
    }
}

/// The proof text that the tokens are, from `proof` on, without the `endproof` that ends it, over the module that the context is of.
pub fn read(alloc: Global, ctx: &Ctx, tokens: &[Token]) -> Result<ProofText, ReadError>
    ensures read { IfOk result (λ t. (items : Items) × IsText ctx.now
        (token_texts tokens.now) t.version t.from items t.to × (t.entries ≡ entries_of (entry_items items))) }
    ensures outside { IfErr result (OutsideAt (outside.IsOutside ctx.now (token_texts tokens.now))) }
{
    let kinds = LeafKinds::of(ctx.facts(), ctx.order());
    let reader = Reader { ctx, kinds };
    let (from, behind) = match head(alloc, &reader, tokens) {
        Ok(found) => found,
        Err(fault) => return Err(fault.at(0)),
    };
    let mut entries = Vec::new(alloc);
    let to = tail(alloc, &reader, behind, &mut entries)?;
    Ok(ProofText {
        version: 1,
        from,
        entries: Seq::of(entries),
        to,
    })
}
