// Items, with a stack of the groups that are open.
ghost use Rattle.std.specs.Prelude.{◌≡◌, ◌++◌, ◌∷◌, ◌<◌, ◌≤◌, ◌⊎◌, ℕ, List, [], length, reverse, IfOk, IfErr, codes};
ghost use Rattle.mw_logic.specs.Module.{Module};
ghost use Rattle.mw_items.specs.declared.Entry.{Entry as EntryOf};
ghost use Rattle.mw_items.specs.declared.Entry.TheVariants as entry;
ghost use Rattle.mw_proofread.specs.TokenTexts.{token_texts};
ghost use Rattle.mw_proofread.specs.Outside.{HasItem};
ghost use Rattle.mw_proofread.specs.Parts as parts;
ghost use Rattle.mw_proofread.specs.Faults.{OnOutside};
ghost use Rattle.mw_prefix.specs.Leaves.{AreLeafKinds};

use crate::fault::Fault;
use crate::frame::Frame;
use crate::lines::{is_count, line};
use crate::reader::Reader;
use crate::words::{after, is_followed};
use mw_items::Entry;
use mw_lex::Token;
use std::alloc::Global;

/// The most groups that stand inside one another.
const DEPTH: usize = 63;

/// Behind the brace that closes a group: the next group of its item, or the item's end.
fn closed<'t>(
    tokens: &'t [Token],
    frames: &mut Vec<Frame>,
    entries: &mut Vec<Entry>,
) -> Result<&'t [Token], Fault>
    requires { length frames.old.items ≤ 63 }
    ensures deep { IfOk result (λ _. length frames.new.items ≤ 63) }
    ensures ok { IfOk result (λ rest. (M : Module) → parts.Steps M (reverse frames.old.items)
        (reverse frames.new.items) (codes "}" ∷ token_texts tokens.now)
        (token_texts rest.now) entries.old.items entries.new.items) }
    ensures outside { IfErr result (OnOutside ((M : Module) → parts.Stops M (reverse frames.old.items)
        (codes "}" ∷ token_texts tokens.now))) }
{
    let Some(frame) = frames.pop() else {
        return Err(Fault::Outside);
    };
    let Some(frame) = frame.closed() else {
        return Err(Fault::Outside);
    };
    entries.push(Entry::Close)?;
    if let Some(behind) = after(tokens, b"{") {
        entries.push(Entry::Open)?;
        frames.push(frame)?;
        return Ok(behind);
    }
    if frame.is_done() {
        Ok(tokens)
    } else {
        Err(Fault::Outside)
    }
}

/// Behind a line and `where`: its first group.
fn opened<'t>(
    tokens: &'t [Token],
    wanted: Option<u64>,
    frames: &mut Vec<Frame>,
    entries: &mut Vec<Entry>,
) -> Result<&'t [Token], Fault>
    ensures pushed { IfOk result (λ _. frames.new.items ≡ frames.old.items ++ (record { wanted = wanted } ∷ [])) }
    ensures entries { IfOk result (λ _. entries.new.items ≡ entries.old.items ++ (entry.Open ∷ [])) }
    ensures rest { IfOk result (λ rest. token_texts tokens.now ≡ codes "{" ∷ token_texts rest.now) }
    ensures room { IfOk result (λ _. length frames.old.items < 63) }
    ensures outside { IfErr result (OnOutside (parts.NotFirst (codes "{") (token_texts tokens.now) ⊎
        (63 ≤ length frames.old.items))) }
{
    let Some(behind) = after(tokens, b"{") else {
        return Err(Fault::Outside);
    };
    if frames.len() >= DEPTH {
        return Err(Fault::Outside);
    }
    entries.push(Entry::Open)?;
    frames.push(Frame { wanted })?;
    Ok(behind)
}

/// A line, and what opens its first group, if it has any.
fn begun<'t>(
    alloc: Global,
    reader: &Reader<'_>,
    tokens: &'t [Token],
    frames: &mut Vec<Frame>,
    entries: &mut Vec<Entry>,
) -> Result<&'t [Token], Fault>
    requires kinds { AreLeafKinds reader.now.ctx.now.signature reader.now.kinds }
    requires open { parts.NotFirst (codes "}") (token_texts tokens.now) }
    requires deep { length frames.old.items ≤ 63 }
    ensures deep { IfOk result (λ _. length frames.new.items ≤ 63) }
    ensures ok { IfOk result (λ rest. parts.Steps reader.now.ctx.now (reverse frames.old.items)
        (reverse frames.new.items) (token_texts tokens.now) (token_texts rest.now) entries.old.items
        entries.new.items) }
    ensures outside { IfErr result (OnOutside (parts.Stops reader.now.ctx.now (reverse frames.old.items)
        (token_texts tokens.now))) }
{
    let found = line(alloc, reader, tokens, entries)?;
    if let Some(behind) = after(found.rest, b"where") {
        return opened(behind, found.wanted, frames, entries);
    }
    if is_count(found.wanted, 0) {
        Ok(found.rest)
    } else {
        Err(Fault::Outside)
    }
}

/// One part of an item: a line with what opens its first group, or a brace with what stands behind it.
fn advanced<'t>(
    alloc: Global,
    reader: &Reader<'_>,
    tokens: &'t [Token],
    frames: &mut Vec<Frame>,
    entries: &mut Vec<Entry>,
) -> Result<&'t [Token], Fault>
    requires kinds { AreLeafKinds reader.now.ctx.now.signature reader.now.kinds }
    requires deep { length frames.old.items ≤ 63 }
    ensures deep { IfOk result (λ _. length frames.new.items ≤ 63) }
    ensures ok { IfOk result (λ rest. parts.Steps reader.now.ctx.now (reverse frames.old.items)
        (reverse frames.new.items) (token_texts tokens.now) (token_texts rest.now) entries.old.items
        entries.new.items) }
    ensures outside { IfErr result (OnOutside (parts.Stops reader.now.ctx.now (reverse frames.old.items)
        (token_texts tokens.now))) }
{
    match after(tokens, b"}") {
        Some(behind) => closed(behind, frames, entries),
        None => begun(alloc, reader, tokens, frames, entries),
    }
}

/// The item at the front, with its groups, and what stands behind it.
pub fn item<'t>(
    alloc: Global,
    reader: &Reader<'_>,
    tokens: &'t [Token],
    entries: &mut Vec<Entry>,
) -> Result<&'t [Token], Fault>
    requires { AreLeafKinds reader.now.ctx.now.signature reader.now.kinds }
    ensures ok { IfOk result (λ rest. (es : List EntryOf) × parts.HasEntries reader.now.ctx.now
        (token_texts tokens.now) (token_texts rest.now) es × (entries.new.items ≡ entries.old.items ++ es)) }
    ensures outside { IfErr result (OnOutside ((rest : List (List ℕ))
        → ¬ HasItem reader.now.ctx.now (token_texts tokens.now) rest)) }
{
    let mut frames = Vec::new(alloc);
    let mut rest = tokens;
    'groups: loop {
        rest = advanced(alloc, reader, rest, &mut frames, entries)?;
        if frames.is_empty() {
            break 'groups;
        }
    }
    if is_followed(rest) {
        Ok(rest)
    } else {
        Err(Fault::Outside)
    }
}
