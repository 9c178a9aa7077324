// The prefix spellings of names.
ghost use Rattle.std.specs.Prelude.{◌≡◌, ◌++◌, ◌∷◌, List, [], IfOk};
ghost use Rattle.mw_text.specs.Names.{NameItem as ItemOf, items_of, spelled_behind, name_of_tokens, is_mark as is_mark_text};
ghost use Rattle.mw_text.specs.Seen.{item_of};

use mw_lex::is_punctuation;
use mw_module::Word;
use mw_text::{NameItem, first_item};
use std::alloc::{AllocError, Global};

/// Whether a piece is one of the punctuation bytes.
fn is_mark(piece: &[u8]) -> bool
    ensures { result ≡ is_mark_text piece.now }
{
    match piece {
        [byte] => is_punctuation(*byte),
        _ => false,
    }
}

/// Writes an item behind others, where `touching` says that a piece of other bytes stands directly before it; whether
/// it is such a piece itself.
fn write_item(
    spelling: &mut Vec<u8>,
    touching: bool,
    item: NameItem<'_>,
) -> Result<bool, AllocError>
    ensures { IfOk result (λ plain. (more : List ItemOf) → spelling.old.items ++ spelled_behind touching (item_of item.entry ∷ more) ≡ spelling.new.items ++ spelled_behind plain more) }
{
    match item {
        NameItem::Hole => {
            spelling.push(b'_')?;
            Ok(false)
        }
        NameItem::Piece(piece) => {
            let mark = is_mark(piece);
            if touching || mark {
                spelling.push(b'`')?;
            }
            spelling.extend_from_slice(piece)?;
            Ok(!mark)
        }
    }
}

/// Writes the items of a token behind others.
fn write_token(spelling: &mut Vec<u8>, touching: bool, text: &[u8]) -> Result<bool, AllocError>
    ensures { IfOk result (λ plain. (more : List ItemOf) → spelling.old.items ++ spelled_behind touching (items_of text.now ++ more) ≡ spelling.new.items ++ spelled_behind plain more) }
{
    let mut touching = touching;
    let mut rest = text;
    while let Some((item, behind)) = first_item(rest) {
        touching = write_item(spelling, touching, item)?;
        rest = behind;
    }
    Ok(touching)
}

/// The prefix spelling of the name that one text is.
pub fn spelling_of_text(alloc: Global, text: &[u8]) -> Result<Vec<u8>, AllocError>
    ensures { IfOk result (λ spelling. spelling.items ≡ name_of_tokens (text.now ∷ [])) }
{
    let mut spelling = Vec::new(alloc);
    write_token(&mut spelling, false, text)?;
    Ok(spelling)
}

/// The prefix spelling of the name of these words.
pub fn spelling_of(alloc: Global, name: &[Word<'_>]) -> Result<Vec<u8>, AllocError>
    ensures { IfOk result (λ spelling. spelling.items ≡ name_of_tokens name.now) }
{
    let mut spelling = Vec::new(alloc);
    let mut touching = false;
    for word in name {
        touching = write_token(&mut spelling, touching, word.as_slice())?;
    }
    Ok(spelling)
}
