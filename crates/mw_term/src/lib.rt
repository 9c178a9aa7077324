//! The data of the logic as the engine holds it: terms, patterns, substitutions, signatures and statements.
//!
//! Contracts see each of these types as the value of the logic that it stands for (mw_logic): a [`Term`] and a [`Raw`]
//! as a raw term, a [`Signature`] as a signature, a [`Statement`] as a statement. Sorts, kinds and operators are
//! numbered from 1.
//!
//! A `Term` shares its parts: a copy is one count. A node takes 40 bytes with its count: up to two arguments stand in
//! it, longer lists, names and variables in boxes of their own. [`Term::view`] shows what stands on top, and takes no
//! memory. Names and lists are kept in `Seq`, which contracts see without its capacity.
//!
//! A list of 8 terms or more is counted itself, with the hashes, the operators and the depth of its last terms, and
//! nodes show sections of it ([`Term::section`]): what is left of a list is one node then, and no list. A section is
//! copied in three cases. It shows less than a quarter of its list; or a term that it doesn't show is deeper than those
//! that it shows, by more than their number, or holds a long list where these hold none; or it ends before its list,
//! and lacks an operator or the depth of what follows. So at most four times the terms are held that are shown.
//! Recursion down a list takes one node for each term, and copies the list a few times.
//!
//! Each node keeps its depth, and which operators stand in it ([`Operators`]), in seven of its bytes: a bit for each
//! remainder of their numbers by 32, the last of them also for 8 arguments or more, and the largest of the numbers, up
//! to 255. Operators that are looked for
//! ([`Sought`]) are known by their remainders and by the least of their numbers. That one of them stands in a term is
//! said wrongly where an operator there has the remainder of one of them, and the largest number there isn't below the
//! least of theirs; that none does never is said wrongly. So up to 31 operators are told from each other, and from
//! all of them those that each kind has from the start, whose numbers come last.
//!
//! Four more bytes are the term's hash ([`Term::hash`]): a number that depends on the term alone, so terms with
//! different hashes differ. Of an operator's arguments only the sum of their scattered hashes counts. So a stretch of a
//! list has its hash by one difference, and two terms whose arguments stand in another order have one hash.
//!
//! Proved, over the logic's terms and lists: `copy`, `copy_name`, `same`, `number_at`, `numbered` and `is_ground` give
//! what their names say; `view` shows the term (`viewed`, specs/Shapes), `into_args` gives its arguments, and
//! `apply_behind` takes those of a term that comes out of the end of a list; `section` is an operator on so many of a
//! term's arguments from a place on, `apply_onto` one on the end of a list and behind it a term's arguments, and
//! `apply_after` one on a term's arguments and behind them the end of a list;
//! `hash` is `hash_of` of specs/Hashes; `behind` is what stands in a list from a place on; `depth` is the term's
//! height, or 65,535 where that is more; `operators` is `operators_in` of specs/OperatorSets, and `may_have` is false
//! exactly where the remainders or the numbers are apart (`AreApart`), so that none that is sought stands in the term
//! (proofs/OperatorSets); `compare` is the order of terms of mw_logic (`compare_terms`): numerals by value, quoted
//! identifiers by bytes, operators by number, by how many arguments they have and by these from the left, variables by
//! name and sort.
//!
//! Cost: `copy`, `depth`, `hash` and `operators` are no walks, nor is `section` to the end of a list that it shares;
//! other sections are looked at as far as it takes to see that they tell as much. `apply_onto` moves the pointers of a
//! long list that nobody else holds, and looks only at the terms in front of it. `apply_after` moves a few bytes for
//! each term of such a list where one more comes behind it, and looks at no other term. `compare` ends at the first
//! difference, and so does `same`, which ends at once where the hashes differ; two equal terms are walked whole by
//! both; `into_args` moves the arguments of a node that nobody else holds, where no other shows the list, and counts
//! those of another. Want of memory is the only error.
#![tactic(auto)]

ghost use Rattle.std.specs.Prelude.{◌≡◌, ◌+◌, IfOk, option_map};
ghost use Rattle.mw_logic.specs.Signature.{at_number};

mod facts;
mod hash;
mod numeral;
mod operators;
mod order;
mod raw;
mod seq;
mod shared;
mod signature;
mod statement;
mod subst;
mod term;
mod told;

pub use operators::{Operators, Sought};
pub use order::{compare, same};
pub use raw::{Raw, Raws, VarId};
pub use seq::{Name, Seq, copy_name};
pub use signature::{Declaration, Gather, Identity, Operator, Signature, Sorted};
pub use statement::{Fragment, Statement};
use std::alloc::AllocError;
pub use subst::{Binding, Subst};
pub use term::{Term, View, behind, copy, depth};

/// An operator's number in its signature, from 1.
pub type OpId = u32;

/// A sort's number in its signature, from 1.
pub type SortId = u32;

/// A kind, named by the number of one of its sorts.
pub type KindId = u32;

/// The number of what stands at an index, counted from 1. More than numbers can tell counts as want of memory.
pub fn number_at(index: usize) -> Result<u32, AllocError>
    ensures { IfOk result (λ number. number ≡ index + 1) }
{
    if index < u32::MAX as usize {
        Ok(index as u32 + 1)
    } else {
        Err(AllocError)
    }
}

/// What has this number among items that count from 1.
pub fn numbered<T>(items: &[T], number: u32) -> Option<&T>
    ensures { option_map (λ x. x.now) result ≡ at_number items.now number }
{
    if number == 0 {
        return None;
    }
    items.get(number as usize - 1)
}
