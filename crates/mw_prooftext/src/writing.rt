// The text of a kept proof.
ghost use Rattle.std.specs.Prelude.{◌≡◌, drop, IfOk};
ghost use Rattle.mw_prooftext.specs.Denoting.{HasItems, IsTextOf};

use crate::chains::{Chain, tell};
use crate::lines::{head, write_end};
use mw_proof::Proved;
use mw_term::{Name, behind, copy};
use std::alloc::{AllocError, Global};

/// The text of a proof in the module of this name: version 1, or 2 where the proof has what only that has.
pub fn write(
    alloc: Global,
    name: &Name,
    proved: &Proved<'_>,
    version: u32,
) -> Result<Vec<u8>, AllocError>
    ensures { IfOk result (λ text. IsTextOf proved.now version name.now text.items) }
{
    proved.shows();
    let signature = proved.context().signature();
    let text = head(alloc, signature, version, name, proved.from())?;
    let mut text = told(alloc, proved, text)?;
    write_end(alloc, signature, proved.to(), &mut text)?;
    Ok(text)
}

/// The numbers from a place on. Beyond the end there are none.
fn numbers_behind(numbers: &[u32], from: usize) -> &[u32]
    ensures { result.now ≡ drop from numbers.now }
{
    if from < numbers.len() {
        &numbers[from..]
    } else {
        &[]
    }
}

/// A text, and behind it the items of a proof.
fn told(alloc: Global, proved: &Proved<'_>, text: Vec<u8>) -> Result<Vec<u8>, AllocError>
    ensures { IfOk result (λ told. HasItems proved.now text.items told.items) }
{
    let context = proved.context();
    context.shows();
    let trail = proved.trail();
    // a trail has all that its items take
    let _marked = trail.mark();
    let mut chains = Vec::new(alloc);
    let from = copy(proved.from())?;
    let outermost = Chain::new(alloc, true, text, from);
    chains.push(outermost)?;
    let mut values = trail.values();
    let mut numbers = trail.numbers();
    for item in trail.items() {
        tell(alloc, context, *item, values, numbers, &mut chains)?;
        values = behind(values, item.values());
        numbers = numbers_behind(numbers, item.numbers());
    }
    match chains.pop() {
        Some(chain) => Ok(chain.into_text()),
        None => Ok(Vec::new(alloc)),
    }
}
