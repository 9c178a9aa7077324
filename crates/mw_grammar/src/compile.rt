// Notations as the states of a table.
ghost use Rattle.std.specs.Prelude.{◌≡◌, ◌<◌, ◌^◌, ◌∷◌, ℕ, List, [], Some, length, slice_get, IfOk, OnOk, IsTrue};
ghost use Rattle.mw_chart.specs.declared.table.Next.TheVariants.{Whole};
ghost use Rattle.mw_grammar.specs.declared.parts.Symbol.{Symbol as SymbolOf};
ghost use Rattle.mw_grammar.specs.Readable.{kind_in, IsReadable};
ghost use Rattle.mw_grammar.specs.Notations.{IsNotation};
ghost use Rattle.mw_grammar.specs.Compiled.{Extends, IsNumber, Leads, AddsNotations, AreGroups, IsCompiled};

use crate::notations::add_all;
use crate::parts::Symbol;
use indexmap::IndexMap;
use mw_chart::{Next, Production, Table};
use mw_term::{KindId, OpId, Signature};
use mw_text::Names;
use std::alloc::{AllocError, Global};

/// The number of a token, which has one from now on.
fn token(alloc: Global, names: &mut Names, text: &[u8]) -> Result<u32, AllocError>
    ensures names { OnOk result (Extends names.old names.new) }
    ensures number { IfOk result (λ x. IsNumber names.new x text.now) }
{
    names.add(alloc, text)?;
    let number = names.number(text)?;
    Ok(number)
}

/// The state before a symbol, where this one stands behind it.
fn push_step(
    alloc: Global,
    steps: &mut Vec<Next>,
    names: &mut Names,
    part: &Symbol,
    next: usize,
) -> Result<usize, AllocError>
    ensures steps { OnOk result (Extends steps.old.items steps.new.items) }
    ensures names { OnOk result (Extends names.old names.new) }
    ensures leads { IfOk result (λ s. (parts : List SymbolOf) (last : ℕ) → Leads steps.new.items names.new next parts last → Leads steps.new.items names.new s (part.now ∷ parts) last) }
{
    let state = steps.len();
    let step = match part {
        Symbol::Piece(name) => Next::Token {
            token: token(alloc, names, name.as_slice())?,
            next,
        },
        Symbol::Hole { kind, below } => Next::Hole {
            kind: *kind,
            below: *below,
            next,
        },
    };
    steps.push(step)?;
    Ok(state)
}

/// The state before symbols, where this one stands behind them.
fn lead(
    alloc: Global,
    steps: &mut Vec<Next>,
    names: &mut Names,
    parts: &[Symbol],
    last: usize,
) -> Result<usize, AllocError>
    ensures steps { OnOk result (Extends steps.old.items steps.new.items) }
    ensures names { OnOk result (Extends names.old names.new) }
    ensures leads { IfOk result (λ s. Leads steps.new.items names.new s parts.now last) }
{
    let mut state = last;
    let mut left = parts.len();
    while left > 0 {
        left -= 1;
        state = push_step(alloc, steps, names, &parts[left], state)?;
    }
    Ok(state)
}

/// Whether a state is that of whole texts of this kind, at this precedence.
fn is_whole_of(steps: &[Next], state: usize, its_kind: u32, at: u32) -> bool
    ensures { IsTrue result → slice_get steps.now state ≡ Some (Whole its_kind at) }
{
    match steps.get(state) {
        Some(Next::Whole { kind, precedence }) => *kind == its_kind && *precedence == at,
        _ => false,
    }
}

/// States of whole texts by kind and precedence.
type Wholes = IndexMap<(u32, u32), usize>;

/// A table that is being made: its states, those that are whole and were made for notations, and its productions.
#[derive(Drop)]
pub struct Making {
    pub steps: Vec<Next>,
    pub wholes: Box<Wholes>,
    pub productions: Vec<Production>,
}

/// The state of whole texts of this kind and precedence.
fn whole(making: &mut Making, kind: u32, precedence: u32) -> Result<usize, AllocError>
    ensures steps { OnOk result (Extends making.old.steps.items making.new.steps.items) }
    ensures productions { making.new.productions ≡ making.old.productions }
    ensures whole { IfOk result (λ w. slice_get making.new.steps.items w ≡ Some (Whole kind precedence)) }
{
    let known = match making.wholes.get(&(kind, precedence)) {
        Some(state) => *state,
        None => kind as usize,
    };
    if is_whole_of(making.steps.as_slice(), known, kind, precedence) {
        return Ok(known);
    }
    let state = making.steps.len();
    making.wholes.insert((kind, precedence), state)?;
    making.steps.push(Next::Whole { kind, precedence })?;
    Ok(state)
}

/// Adds the notation of these parts.
pub fn add(
    alloc: Global,
    making: &mut Making,
    names: &mut Names,
    kind: KindId,
    precedence: u32,
    operator: OpId,
    parts: &[Symbol],
) -> Result<(), AllocError>
    ensures { OnOk result (AddsNotations making.old making.new names.old names.new
        (λ F. F ≡ record { kind = kind; precedence = precedence; operator = operator; parts = parts.now })) }
{
    let last = whole(making, kind, precedence)?;
    let state = lead(alloc, &mut making.steps, names, parts, last)?;
    making.productions.push(Production { state, operator })?;
    Ok(())
}

/// A table with no notation yet, for so many kinds.
fn begin(alloc: Global, kinds: u32) -> Result<Making, AllocError>
    ensures kinds { IfOk result (λ m. (K : ℕ) → K < kinds → slice_get m.steps.items K ≡ Some (Whole K 0)) }
    ensures productions { IfOk result (λ m. m.productions.items ≡ []) }
{
    let precedence = 0;
    let mut steps = Vec::new(alloc);
    for kind in 0..kinds {
        steps.push(Next::Whole { kind, precedence })?;
    }
    Ok(Making {
        steps,
        wholes: Box::new(alloc, IndexMap::new(alloc))?,
        productions: Vec::new(alloc),
    })
}

/// The states of texts in parentheses, for sorts up to this one.
fn groups(alloc: Global, sorts: u32) -> Result<Vec<usize>, AllocError>
    requires { sorts < 2 ^ 31 }
    ensures { IfOk result (λ v. AreGroups sorts v.items) }
{
    let mut groups = Vec::new(alloc);
    for sort in 0..sorts + 1 {
        groups.push(sort as usize)?;
    }
    Ok(groups)
}

/// So many sorts and so many operators at most.
pub const MOST: usize = 0x7fff_ffff;

/// The table of a signature's notations, by the kinds of its sorts.
pub fn compile(
    alloc: Global,
    names: &mut Names,
    signature: &Signature,
    kinds: &[KindId],
) -> Result<Table, AllocError>
    requires { IsReadable signature.now }
    ensures names { OnOk result (Extends names.old names.new) }
    ensures table { IfOk result (IsCompiled (length signature.now.sorts)
        (IsNotation (kind_in kinds.now) signature.now) names.new) }
{
    let sorts = signature.sorts.as_slice().len();
    let operators = signature.operators.as_slice().len();
    if sorts > MOST || operators > MOST {
        return Err(AllocError);
    }
    let sorts = sorts as u32;
    let open = token(alloc, names, b"(")?;
    let close = token(alloc, names, b")")?;
    let mut making = begin(alloc, sorts + operators as u32 + 1)?;
    add_all(alloc, &mut making, names, kinds, sorts, signature)?;
    let groups = groups(alloc, sorts)?;
    let (steps, productions) = (making.steps, making.productions);
    let table = Table::new(alloc, steps, productions, groups, open, close, sorts)?;
    Ok(table)
}
