// Why texts have no one reading.

use crate::tree::Tree;
use std::alloc::AllocError;

/// The most tokens of a text.
pub const LIMIT: usize = 1024;

/// Why texts have no one reading.
#[derive(Drop)]
pub enum Unread<T> {
    /// One of the texts has more than 1,024 tokens. This is looked at first.
    TooLong,
    /// Nothing is spelled.
    NoParse,
    /// Two different readings are spelled, and these are two of them.
    Ambiguous { first: T, second: T },
    Memory,
}

impl<T> From<AllocError> for Unread<T> {
    ghost use Rattle.std.specs.Prelude.{◌≡◌};
    ghost use Rattle.mw_chart.specs.declared.fault.Unread.TheVariants.{Memory};

    ghost from_gives = { λ _ e. e ≡ Memory };

    fn from(_: AllocError) -> Self {
        Unread::Memory
    }
}

/// The trees of two texts.
#[derive(Drop)]
pub struct TreePair {
    pub left: Tree,
    pub right: Tree,
}
