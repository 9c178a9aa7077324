// Names of operators.
ghost use Rattle.std.specs.Prelude.{◌≡◌, ◌<◌, ◌≤◌, ◌-◌, ◌^◌, min};
ghost use Rattle.std.specs.List.{list_any, list_all};
ghost use Rattle.mw_text.specs.Names.{items_of, count_holes};
ghost use Rattle.mw_module.specs.Words.{seen_lists};
ghost use Rattle.mw_module.specs.OperatorNames as spec;

use crate::words::is_no_piece;
use mw_lex::Token;
use mw_text::{NameItem, first_item, holes as holes_in};

// Whether the pieces of a token may stand in a name.
fn has_fine_pieces(text: &[u8]) -> bool
    ensures { result ≡ list_all spec.is_fine (items_of text.now) }
{
    let mut rest = text;
    while let Some((item, after)) = first_item(rest) {
        if let NameItem::Piece(piece) = item
            && is_no_piece(piece)
        {
            return false;
        }
        rest = after;
    }
    true
}

// Whether a token has a piece.
fn has_piece(text: &[u8]) -> bool
    ensures { result ≡ list_any spec.is_piece (items_of text.now) }
{
    let mut rest = text;
    while let Some((item, after)) = first_item(rest) {
        if let NameItem::Piece(_) = item {
            return true;
        }
        rest = after;
    }
    false
}

// How many holes a name has, or the greatest number where it has more.
fn holes_of(name: &[Token]) -> usize
    ensures { result ≡ min (count_holes (spec.items_in name.now)) (2 ^ 64 - 1) }
{
    let mut rest = name;
    let mut holes = 0usize;
    while let [token, after @ ..] = rest {
        holes = holes.saturating_add(holes_in(token.text.as_slice()));
        rest = after;
    }
    holes
}

// Whether the pieces of a name may stand in one.
fn is_fine(name: &[Token]) -> bool
    ensures { result ≡ list_all (λ t. list_all spec.is_fine (items_of t.text)) name.now }
{
    name.iter()
        .all(|token| has_fine_pieces(token.text.as_slice()))
}

// Whether a name has a piece.
fn has_some_piece(name: &[Token]) -> bool
    ensures { result ≡ list_any (λ t. list_any spec.is_piece (items_of t.text)) name.now }
{
    name.iter().any(|token| has_piece(token.text.as_slice()))
}

// Whether these tokens are a name.
#[tactic(auto, using(crate::proofs::ItemByItem::is_name_by_token))]
pub fn is_name(name: &[Token]) -> bool
    ensures { result ≡ spec.is_name (spec.items_in name.now) }
{
    is_fine(name) && (has_some_piece(name) || 2 <= holes_of(name))
}

/// Whether a text is a name without holes.
pub fn is_plain_name(text: &[u8]) -> bool
    ensures { result ≡ spec.is_plain_name text.now }
{
    has_fine_pieces(text) && has_piece(text) && holes_in(text) == 0
}

// Whether a name has no holes, or one for each argument.
fn fits(arity: usize, name: &[Token]) -> bool
    requires { arity < 2 ^ 64 - 1 }
    ensures { result ≡ spec.fits arity (spec.items_in name.now) }
{
    let holes = holes_of(name);
    holes == 0 || holes == arity
}

// Whether each of the names with holes has one for each argument.
pub fn all_fit(arity: usize, names: &[&[Token]]) -> bool
    requires { arity < 2 ^ 64 - 1 }
    ensures { result ≡ spec.all_fit arity (seen_lists names.now) }
{
    each_fits(arity, names)
}

fn each_fits(arity: usize, names: &[&[Token]]) -> bool
    requires { arity < 2 ^ 64 - 1 }
    ensures { result ≡ list_all (λ name. spec.fits arity (spec.items_in name.now)) names.now }
{
    names.iter().all(|name| fits(arity, name))
}
