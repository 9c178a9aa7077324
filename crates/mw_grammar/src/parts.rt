// The parts of notations.
ghost use Rattle.std.specs.Prelude.{◌≡◌, ◌<◌, ◌++◌, ◌∷◌, ℕ, List, [], map, codes, option_map};
ghost use Rattle.std.specs.Prelude.{None, MatchOption, IfOk, OnOk};
ghost use Rattle.mw_term.specs.Signatures.{gather_of};
ghost use Rattle.mw_text.specs.Names.{NameItem as ItemOf, items_of, pieces};
ghost use Rattle.mw_text.specs.Seen.{item_of};
ghost use Rattle.mw_grammar.specs.declared.parts.Symbol.TheVariants.{Piece, Hole};
ghost use Rattle.mw_grammar.specs.Readable.{kind_in};
ghost use Rattle.mw_grammar.specs.Notations.{above_all, pieces_as, head_of, arguments, prefix_parts};
ghost use Rattle.mw_grammar.specs.Notations.{bound, mixfix_parts, mixing};

use crate::kinds::kind_of;
use mw_term::{Gather, KindId, Name};
use mw_text::{NameItem, first_item};
use std::alloc::{AllocError, Global};

/// A token, or a hole for texts of a kind, of a precedence below a number.
#[derive(Drop)]
pub enum Symbol {
    Piece(Name),
    Hole { kind: u32, below: u32 },
}

/// A number above all precedences, which are up to 127.
const ABOVE_ALL: u32 = 128;

/// One token more.
fn push_piece(alloc: Global, parts: &mut Vec<Symbol>, text: &[u8]) -> Result<(), AllocError>
    ensures { OnOk result (parts.new.items ≡ parts.old.items ++ Piece text.now ∷ []) }
{
    let text = text.to_vec(alloc)?;
    parts.push(Symbol::Piece(Name::of(text)))?;
    Ok(())
}

/// A hole more, for texts of any precedence.
fn push_hole(parts: &mut Vec<Symbol>, kind: KindId) -> Result<(), AllocError>
    ensures { OnOk result (parts.new.items ≡ parts.old.items ++ Hole kind above_all ∷ []) }
{
    let below = ABOVE_ALL;
    parts.push(Symbol::Hole { kind, below })?;
    Ok(())
}

/// The pieces of a name more.
fn push_pieces(alloc: Global, parts: &mut Vec<Symbol>, name: &[u8]) -> Result<(), AllocError>
    ensures { OnOk result (parts.new.items ≡ parts.old.items ++ pieces_as (pieces (items_of name.now))) }
{
    let mut rest = name;
    while let Some((item, behind)) = first_item(rest) {
        if let NameItem::Piece(piece) = item {
            push_piece(alloc, parts, piece)?;
        }
        rest = behind;
    }
    Ok(())
}

/// What stands before the parentheses of a prefix form: a name's pieces, or the name as one token.
fn head(alloc: Global, name: &[u8], in_pieces: bool) -> Result<Vec<Symbol>, AllocError>
    ensures { IfOk result (λ v. v.items ≡ pieces_as (head_of name.now in_pieces)) }
{
    let mut parts = Vec::new(alloc);
    if in_pieces {
        push_pieces(alloc, &mut parts, name)?;
    } else {
        push_piece(alloc, &mut parts, name)?;
    }
    Ok(parts)
}

/// Arguments more, divided by commas.
fn push_arguments(
    alloc: Global,
    parts: &mut Vec<Symbol>,
    kinds: &[KindId],
    args: &[KindId],
) -> Result<(), AllocError>
    ensures { OnOk result (parts.new.items ≡ parts.old.items ++ arguments (kind_in kinds.now) args.now) }
{
    let mut is_first = true;
    for sort in args {
        if !is_first {
            push_piece(alloc, parts, b",")?;
        }
        push_hole(parts, kind_of(kinds, *sort))?;
        is_first = false;
    }
    Ok(())
}

/// The parts of a constant or of a prefix form.
pub fn prefix(
    alloc: Global,
    kinds: &[KindId],
    name: &[u8],
    in_pieces: bool,
    args: &[KindId],
) -> Result<Vec<Symbol>, AllocError>
    ensures { IfOk result (λ v. v.items ≡ prefix_parts (kind_in kinds.now) (head_of name.now in_pieces) args.now) }
{
    let mut parts = head(alloc, name, in_pieces)?;
    if !args.is_empty() {
        push_piece(alloc, &mut parts, b"(")?;
        push_arguments(alloc, &mut parts, kinds, args)?;
        push_piece(alloc, &mut parts, b")")?;
    }
    Ok(parts)
}

/// Two or more last arguments of an associative operator more: one, and what is of a kind.
pub fn push_two(
    alloc: Global,
    parts: &mut Vec<Symbol>,
    first: KindId,
    rest: KindId,
) -> Result<(), AllocError>
    ensures { OnOk result (parts.new.items ≡ parts.old.items ++ Hole first above_all ∷ Piece (codes ",") ∷ Hole rest above_all ∷ []) }
{
    push_hole(parts, first)?;
    push_piece(alloc, parts, b",")?;
    push_hole(parts, rest)
}

/// The parts of the prefix form of an associative operator on more than two arguments.
pub fn flattened(
    alloc: Global,
    name: &[u8],
    in_pieces: bool,
    first: KindId,
    rest: KindId,
) -> Result<Vec<Symbol>, AllocError>
    ensures { IfOk result (λ v. v.items ≡ pieces_as (head_of name.now in_pieces) ++ (Piece (codes "(") ∷ Hole first above_all ∷ Piece (codes ",") ∷ Hole rest above_all ∷ Piece (codes ")") ∷ [])) }
{
    let mut parts = head(alloc, name, in_pieces)?;
    push_piece(alloc, &mut parts, b"(")?;
    push_two(alloc, &mut parts, first, rest)?;
    push_piece(alloc, &mut parts, b")")?;
    Ok(parts)
}

/// A number above the precedences that a hole takes.
fn bound_of(gather: Gather, precedence: u32) -> u32
    requires { precedence < 128 }
    ensures { (kind : ℕ → ℕ) → result ≡ bound kind (gather_of gather) precedence }
{
    match gather {
        Gather::Less => precedence,
        Gather::Most => precedence + 1,
        Gather::Any => ABOVE_ALL,
    }
}

/// One item more, where so many holes stand before it; the number of holes with it, or that there is no mark or
/// argument for it.
fn push_item(
    alloc: Global,
    parts: &mut Vec<Symbol>,
    kinds: &[KindId],
    precedence: u32,
    gather: &[Gather],
    args: &[KindId],
    item: NameItem<'_>,
    holes: usize,
) -> Result<Option<usize>, AllocError>
    requires { precedence < 128 }
    ensures { IfOk result (λ o. (items : List ItemOf) → MatchOption o
        (mixing (kind_in kinds.now) precedence (map gather_of gather.now) args.now parts.old.items (item_of item.entry ∷ items) holes ≡ None)
        (λ n. mixing (kind_in kinds.now) precedence (map gather_of gather.now) args.now parts.new.items items n
        ≡ mixing (kind_in kinds.now) precedence (map gather_of gather.now) args.now parts.old.items (item_of item.entry ∷ items) holes)) }
{
    match item {
        NameItem::Piece(piece) => {
            push_piece(alloc, parts, piece)?;
            Ok(Some(holes))
        }
        NameItem::Hole => {
            let Some(mark) = gather.get(holes) else {
                return Ok(None);
            };
            let Some(sort) = args.get(holes) else {
                return Ok(None);
            };
            let kind = kind_of(kinds, *sort);
            let below = bound_of(*mark, precedence);
            parts.push(Symbol::Hole { kind, below })?;
            Ok(Some(holes + 1))
        }
    }
}

/// The parts of a mixfix form, where the name has as many holes as there are marks and arguments.
pub fn mixfix(
    alloc: Global,
    kinds: &[KindId],
    precedence: u32,
    name: &[u8],
    gather: &[Gather],
    args: &[KindId],
) -> Result<Option<Vec<Symbol>>, AllocError>
    requires { precedence < 128 }
    ensures { IfOk result (λ o. option_map (λ v. v.items) o ≡ mixfix_parts (kind_in kinds.now) precedence (items_of name.now) (map gather_of gather.now) args.now) }
{
    let mut parts = Vec::new(alloc);
    let mut holes = 0;
    let mut rest = name;
    while let Some((item, behind)) = first_item(rest) {
        let read = push_item(
            alloc, &mut parts, kinds, precedence, gather, args, item, holes,
        )?;
        match read {
            Some(more) => holes = more,
            None => return Ok(None),
        }
        rest = behind;
    }
    if holes < gather.len() || holes < args.len() {
        return Ok(None);
    }
    Ok(Some(parts))
}
