// Names as pieces and holes.
ghost use Rattle.std.specs.Prelude.{◌≡◌, ◌≤◌, ◌<◌, ◌∷◌, [], length, true, IfSome, IfNone};
ghost use Rattle.mw_text.specs.Names.{items_of, SpellingsRead};
ghost use Rattle.mw_text.specs.Runs.{is_plain as is_plain_byte, run_len as run_length};
ghost use Rattle.mw_text.specs.Seen.{item_of};
ghost use Rattle.mw_text.specs.Names as names;

use mw_lex::is_punctuation;

/// A piece of a name, which stands as one token, or a hole, where an argument stands.
#[derive(Clone, Copy)]
pub enum NameItem<'t> {
    Piece(&'t [u8]),
    Hole,
}

/// Whether a piece goes on with this byte.
fn is_plain(byte: u8) -> bool
    ensures { result ≡ is_plain_byte byte }
{
    !(byte == b'_' || byte == b'`' || is_punctuation(byte))
}

/// How many bytes of the front stand in a piece.
fn run_len(text: &[u8]) -> usize
    ensures len { result ≡ run_length text.now }
    ensures within { result ≤ length text.now }
{
    let mut rest = text;
    let mut len = 0;
    while let [byte, after @ ..] = rest {
        if !is_plain(*byte) {
            return len;
        }
        len += 1;
        rest = after;
    }
    len
}

/// A piece at the front whose bytes are no punctuation, and what stands behind it.
#[tactic(auto, using(crate::proofs::Spellings::run_first, crate::proofs::Spellings::run_some))]
fn first_run<'t>(byte: u8, after: &[u8], text: &'t [u8]) -> (NameItem<'t>, &'t [u8])
    requires begins { text.now ≡ byte ∷ after.now }
    requires plain { is_plain_byte byte ≡ true }
    ensures first { items_of text.entry.now ≡ item_of result.0 ∷ items_of result.1.now }
    ensures shorter { length result.1.now < length text.entry.now }
{
    let (run, rest) = text.split_at(run_len(text));
    (NameItem::Piece(run), rest)
}

#[tactic(auto, using(crate::proofs::Spellings::mark_first))]
/// The first item of a name's spelling, and the bytes behind it. Backquotes before it are dropped.
pub fn first_item(text: &[u8]) -> Option<(NameItem<'_>, &[u8])>
    ensures first { IfSome result (λ r. items_of text.now ≡ item_of r.0 ∷ items_of r.1.now) }
    ensures shorter { IfSome result (λ r. length r.1.now < length text.now) }
    ensures none { IfNone result (items_of text.now ≡ []) }
{
    let mut rest = text;
    while let [byte, after @ ..] = rest {
        if *byte == b'_' {
            return Some((NameItem::Hole, after));
        }
        if is_punctuation(*byte) {
            return Some((NameItem::Piece(&rest[..1]), after));
        }
        if *byte != b'`' {
            return Some(first_run(*byte, after, rest));
        }
        rest = after;
    }
    None
}

/// Whether a name has a hole.
pub fn has_hole(name: &[u8]) -> bool
    ensures { result ≡ names.has_hole (items_of name.now) }
{
    let mut name = name;
    while let Some(front) = first_item(name) {
        if let NameItem::Hole = front.0 {
            return true;
        }
        name = front.1;
    }
    false
}

/// How many holes a name has.
pub fn holes(name: &[u8]) -> usize
    ensures { result ≡ names.count_holes (items_of name.now) }
{
    let mut name = name;
    let mut holes = 0;
    while let Some(front) = first_item(name) {
        if let NameItem::Hole = front.0 {
            holes += 1;
        }
        name = front.1;
    }
    holes
}

/// The law that a name's prefix spelling reads back as the name.
pub fn spellings_read()
    ensures { SpellingsRead }
{}
