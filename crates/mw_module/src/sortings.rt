// The sorts of operators' arguments and values.
ghost use Rattle.std.specs.Prelude.{◌≡◌, ◌++◌, IfOk};
ghost use Rattle.mw_module.specs.Sortings as spec;

use crate::machine::{Part, part_tokens};
use crate::table::Role;
use crate::word::Word;
use mw_lex::Token;
use std::alloc::{AllocError, Global};

/// A sort as it is written in a declaration of an operator.
#[derive(Drop)]
pub struct WrittenSort<'s> {
    pub name: Word<'s>,
    /// Whether the kind of the sort is meant.
    pub kind: bool,
}

// The sort that a part is, where `kinds` says that all kinds are meant.
pub fn sorting_of<'s>(kinds: bool, tokens: &'s [Token], part: Part) -> Option<WrittenSort<'s>>
    ensures { spec.seen_optional result ≡ spec.sorting_of kinds tokens.now part }
{
    match (part.role, part_tokens(tokens, part)) {
        (Role::Sort(kind), [name, ..]) => Some(WrittenSort {
            name: Word::lent(name.text.as_slice()),
            kind: kinds || kind,
        }),
        _ => None,
    }
}

// The sorts that parts are.
pub fn sortings_of<'s>(
    alloc: Global,
    kinds: bool,
    tokens: &'s [Token],
    parts: &[Part],
) -> Result<Vec<WrittenSort<'s>>, AllocError>
    ensures { IfOk result (λ v. spec.seen_sortings v.items ≡ spec.sortings_of kinds tokens.now parts.now) }
{
    let mut sortings = Vec::new(alloc);
    let mut rest = parts;
    while let [part, after @ ..] = rest {
        if let Some(sorting) = sorting_of(kinds, tokens, *part) {
            sortings.push(sorting)?;
        }
        rest = after;
    }
    Ok(sortings)
}
