// Lines: items without their groups.
ghost use Rattle.std.specs.Prelude.{◌≡◌, ◌∷◌, ◌↔◌, IfOk, IfErr, IsTrue, codes};
ghost use Rattle.mw_logic.specs.Module.{Module};
ghost use Rattle.mw_proofread.specs.TokenTexts.{token_texts};
ghost use Rattle.mw_proofread.specs.Reading.{IsCount};
ghost use Rattle.mw_proofread.specs.Parts as parts;
ghost use Rattle.mw_proofread.specs.Faults.{OnOutside};
ghost use Rattle.mw_prefix.specs.Leaves.{AreLeafKinds};

use crate::counts::counts_of;
use crate::fault::Fault;
use crate::numbers::{entry_number, first_number, place};
use crate::reader::Reader;
use crate::values::with;
use crate::words::{after, ends_line};
use mw_items::{Entry, Step};
use mw_lex::Token;
use std::alloc::Global;

/// What stands behind a line, and how many groups its item has: none where any number may be.
#[derive(Clone, Copy)]
pub struct Behind<'t> {
    pub wanted: Option<u64>,
    pub rest: &'t [Token],
}

/// Whether there are as many, where a number is asked for.
pub fn is_count(wanted: Option<u64>, count: u64) -> bool
    ensures { IsTrue result ↔ IsCount wanted count }
{
    match wanted {
        None => true,
        Some(wanted) => count == wanted,
    }
}

/// A step by a row, of which what stands behind `built` is given.
fn by_row<'t>(
    alloc: Global,
    tokens: &'t [Token],
    entries: &mut Vec<Entry>,
) -> Result<Behind<'t>, Fault>
    ensures ok { IfOk result (λ b. (M : Module) → parts.HasLine M
        (codes "step" ∷ codes "built" ∷ token_texts tokens.now)
        (token_texts b.rest.now) b.wanted entries.old.items entries.new.items) }
    ensures outside { IfErr result (OnOutside ((M : Module) → parts.NoLine M
        (codes "step" ∷ codes "built" ∷ token_texts tokens.now))) }
{
    let (place, rest) = place(alloc, tokens)?;
    entries.push(Entry::Built(place))?;
    Ok(Behind {
        wanted: Some(0),
        rest,
    })
}

/// A step by a statement, of which what stands behind its first word is given.
fn by_statement<'t>(
    alloc: Global,
    reader: &Reader<'_>,
    tokens: &'t [Token],
    entries: &mut Vec<Entry>,
) -> Result<Behind<'t>, Fault>
    requires kinds { AreLeafKinds reader.now.ctx.now.signature reader.now.kinds }
    requires first { parts.NotFirst (codes "built") (token_texts tokens.now) }
    ensures ok { IfOk result (λ b. parts.HasLine reader.now.ctx.now (codes "step" ∷ token_texts tokens.now)
        (token_texts b.rest.now) b.wanted entries.old.items entries.new.items) }
    ensures outside { IfErr result (OnOutside (parts.NoLine reader.now.ctx.now
        (codes "step" ∷ token_texts tokens.now))) }
{
    let Some((number, behind)) = first_number(tokens) else {
        return Err(Fault::Outside);
    };
    let (place, rest) = place(alloc, behind)?;
    let (values, rest) = with(alloc, reader, rest)?;
    let counts = counts_of(reader.ctx, number);
    let count = values.as_slice().len() as u64;
    if !is_count(counts.values, count) {
        return Err(Fault::Outside);
    }
    let step = Step {
        owise: false,
        statement: entry_number(number),
        place,
        values,
    };
    entries.push(Entry::Step(step))?;
    Ok(Behind {
        wanted: counts.groups,
        rest,
    })
}

/// A line at the front, wherever it ends.
fn any_line<'t>(
    alloc: Global,
    reader: &Reader<'_>,
    tokens: &'t [Token],
    entries: &mut Vec<Entry>,
) -> Result<Behind<'t>, Fault>
    requires { AreLeafKinds reader.now.ctx.now.signature reader.now.kinds }
    ensures ok { IfOk result (λ b. parts.HasLine reader.now.ctx.now (token_texts tokens.now)
        (token_texts b.rest.now) b.wanted entries.old.items entries.new.items) }
    ensures outside { IfErr result (OnOutside (parts.NoLine reader.now.ctx.now (token_texts tokens.now))) }
{
    let Some(behind) = after(tokens, b"step") else {
        return Err(Fault::Outside);
    };
    match after(behind, b"built") {
        Some(behind) => by_row(alloc, behind, entries),
        None => by_statement(alloc, reader, behind, entries),
    }
}

/// The line at the front.
pub fn line<'t>(
    alloc: Global,
    reader: &Reader<'_>,
    tokens: &'t [Token],
    entries: &mut Vec<Entry>,
) -> Result<Behind<'t>, Fault>
    requires { AreLeafKinds reader.now.ctx.now.signature reader.now.kinds }
    ensures ok { IfOk result (λ b. parts.HasLine reader.now.ctx.now (token_texts tokens.now)
        (token_texts b.rest.now) b.wanted entries.old.items entries.new.items) }
    ensures ends { IfOk result (λ b. parts.EndsLine (token_texts b.rest.now)) }
    ensures outside { IfErr result (OnOutside (parts.NoLine reader.now.ctx.now (token_texts tokens.now))) }
{
    let found = any_line(alloc, reader, tokens, entries)?;
    if ends_line(found.rest) {
        Ok(found)
    } else {
        Err(Fault::Outside)
    }
}
