// How the mixfix form of an operator groups.
ghost use Rattle.std.specs.Prelude.{◌≡◌, true, map, IfOk};
ghost use Rattle.mw_term.specs.Signatures.{gather_of as mark_of};
ghost use Rattle.mw_text.specs.Names.{items_of};
ghost use Rattle.mw_declare.specs.Grouping as grouping;

use mw_module::Word;
use mw_term::{Gather, Seq};
use mw_text::{NameItem, first_item, holes};
use std::alloc::{AllocError, Global};

/// Whether a name begins with a hole.
fn begins_open(spelling: &[u8]) -> bool
    ensures { result ≡ grouping.begins_open (items_of spelling.now) }
{
    matches!(first_item(spelling), Some((NameItem::Hole, _)))
}

/// Whether a name ends with a hole.
fn ends_open(spelling: &[u8]) -> bool
    ensures { result ≡ grouping.ends_open (items_of spelling.now) }
{
    let mut open = false;
    let mut rest = spelling;
    while let Some((item, behind)) = first_item(rest) {
        open = matches!(item, NameItem::Hole);
        rest = behind;
    }
    open
}

/// The precedence of a name of which none is said.
fn default_precedence(spelling: &[u8]) -> u32
    ensures { result ≡ grouping.default_precedence (items_of spelling.now) }
{
    if !begins_open(spelling) && !ends_open(spelling) {
        0
    } else if holes(spelling) == 1 {
        15
    } else {
        41
    }
}

/// The precedence that is said, or else that of the name.
pub fn precedence(said: Option<u32>, spelling: &[u8]) -> u32
    ensures { result ≡ grouping.precedence_of said (items_of spelling.now) }
{
    match said {
        Some(precedence) => precedence,
        None => default_precedence(spelling),
    }
}

/// Whether a name begins and ends with a hole, and has no others.
fn is_infix(spelling: &[u8]) -> bool
    ensures { result ≡ grouping.is_infix (items_of spelling.now) }
{
    begins_open(spelling) && ends_open(spelling) && holes(spelling) == 2
}

/// The marks of a name of which none are said, where `assoc` says whether its operator is associative.
fn default_gather(alloc: Global, assoc: bool, spelling: &[u8]) -> Result<Vec<Gather>, AllocError>
    ensures { IfOk result (λ marks. map mark_of marks.items ≡ grouping.default_gather assoc (items_of spelling.now)) }
{
    if assoc && is_infix(spelling) {
        Ok(vec![in alloc; Gather::Less, Gather::Most]?)
    } else {
        gather_by_place(alloc, spelling)
    }
}

/// The marks of a name by where its holes stand.
fn gather_by_place(alloc: Global, spelling: &[u8]) -> Result<Vec<Gather>, AllocError>
    ensures { IfOk result (λ marks. map mark_of marks.items ≡ grouping.gather_behind true (items_of spelling.now)) }
{
    let mut marks = Vec::new(alloc);
    let mut first = true;
    let mut rest = spelling;
    while let Some((item, behind)) = first_item(rest) {
        if matches!(item, NameItem::Hole) {
            let outer = first || first_item(behind).is_none();
            marks.push(if outer { Gather::Most } else { Gather::Any })?;
        }
        first = false;
        rest = behind;
    }
    Ok(marks)
}

/// What a mark of `gather` means.
fn gather_of_mark(mark: &[u8]) -> Gather
    ensures { mark_of result ≡ grouping.gather_of_mark mark.now }
{
    if mark == b"e".as_slice() {
        Gather::Less
    } else if mark == b"E".as_slice() {
        Gather::Most
    } else {
        Gather::Any
    }
}

/// The marks that are said.
fn said_gather(alloc: Global, said: &[Word<'_>]) -> Result<Vec<Gather>, AllocError>
    ensures { IfOk result (λ marks. map mark_of marks.items ≡ map grouping.gather_of_mark said.now) }
{
    let mut marks = Vec::with_capacity(alloc, said.len())?;
    for mark in said {
        marks.push(gather_of_mark(mark.as_slice()))?;
    }
    Ok(marks)
}

/// A mark for each hole: those that are said, or else those of the name.
pub fn gather(
    alloc: Global,
    said: &Option<Seq<Word<'_>>>,
    assoc: bool,
    spelling: &[u8],
) -> Result<Seq<Gather>, AllocError>
    ensures { IfOk result
        (λ marks. map mark_of marks ≡ grouping.gather_of said.now assoc (items_of spelling.now)) }
{
    match said {
        Some(said) if holes(spelling) != 0 => { Ok(Seq::of(said_gather(alloc, said.as_slice())?)) }
        Some(_) => Ok(Seq::of(Vec::new(alloc))),
        None => Ok(Seq::of(default_gather(alloc, assoc, spelling)?)),
    }
}
