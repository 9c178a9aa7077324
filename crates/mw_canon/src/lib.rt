//! Canonical terms: of the terms that are equal modulo the axioms of a signature, the one that stands for all.
//!
//! `Facts` is a signature with a table of its operators' axioms, made once for a module, so that each call below looks
//! an operator up in one step. `canon` makes the canonical term of one as it is written, `instance` that of an
//! instance by values that are canonical, `parts` gives the elements of a term under an associative operator,
//! `rebuild` the operator on any arguments.
//!
//! `canon` is `instance` with no value. It builds from below: a plain operator stands on what was built of its
//! arguments, a commutative one on these in order, the successor of a numeral is the next numeral. An associative
//! operator takes the elements of its arguments, identities left out; arguments with the operator itself on top are
//! entered by a list of what waits, so its nesting takes no recursion, and under a commutative operator all elements
//! are sorted once, by a sort that merges runs. Limits are tested at the end: the depth that the node keeps, and a flag
//! that goes up where a successor of the largest numeral is built. A value is copied by one count. `Values` finds
//! values by name and sort in a hash table; of two pairs of one variable the first counts.
//!
//! Proved (specs/Axioms, specs/Canonical, specs/Causes), for every accepted signature: operators that are associative,
//! commutative, both, or associative with an identity, and the successor of numbers.
//!
//! - `Facts::of` keeps its signature; `axioms` says exactly which axioms an operator has.
//! - `canon` and `instance` answer the normal form of what the written term, or the instance, means; it is neither too
//!   deep nor too large, and `Deep` and `Nat` come only where it is (`Nat` where it isn't too deep). So each comes
//!   exactly there, but for want of memory.
//! - `parts` lists the term's arguments, none for the operator's identity, the term alone for another top; it takes no
//!   memory. `push_elements` puts them behind others. `rebuild` is the operator, with its axioms, on the arguments.
//! - For arguments that are in order already: `over_elements` is an associative operator over elements of it, and
//!   `counted` the successor. Neither compares nor looks for elements (proofs/Ordered: that is what `rebuild` gives).
//! - `kind_named` is the kind of the sort of a name, none where no sort has it.
//! - For those who build terms by `rebuild`: `is_largest` says whether the largest numeral stands alone among arguments,
//!   so that a successor on them counts past it, and `limited` lets a term pass that has at most 1,000 levels and no such
//!   successor, as a flag tells.
//!
//! Conditions: the signature of `Facts` is accepted, its operators' kinds are there, and the order is that of its
//! sorts; the term (the instance) is raw; the values are canonical terms that are admitted; the operator of `parts` is
//! associative.
//!
//! Cost: `Facts::of` goes once over the sorts and once over the operators. `canon` and `instance` go as deep as the
//! written term, and take n log n comparisons for n elements under a commutative operator, n where they ascend.
//! `rebuild` moves the arguments of a node that no other term shares.
//!
//! Tested by mw_tests: that calls answer with memory at hand. Neither: time.
#![tactic(auto)]

ghost use Rattle.std.specs.Prelude.{◌≡◌};
ghost use Rattle.mw_canon.specs.declared.CanonError.TheVariants.{Memory};

mod applying;
mod axioms;
mod building;
mod elements;
mod entering;
mod rows;
mod values;

pub use applying::{counted, is_largest, over_elements, rebuild};
pub use axioms::{Axioms, Facts};
pub use building::{canon, instance, limited};
pub use elements::{parts, push_elements};
pub use rows::kind_named;
use std::alloc::{AllocError, AllocFailed};
pub use values::Values;

/// Why there is no canonical term.
#[derive(Debug, Clone, Copy, PartialEq, Eq)]
pub enum CanonError {
    /// It has more than 1,000 levels.
    Deep,
    /// A successor of the largest numeral stands in it.
    Nat,
    Memory,
}

impl From<AllocError> for CanonError {
    ghost from_gives = { λ _ e. e ≡ Memory };

    fn from(_: AllocError) -> Self {
        CanonError::Memory
    }
}

impl<T: Drop> From<AllocFailed<T>> for CanonError {
    ghost from_gives = { λ _ e. e ≡ Memory };

    fn from(_: AllocFailed<T>) -> Self {
        CanonError::Memory
    }
}
