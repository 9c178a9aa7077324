// Why tokens are no form.
ghost use Rattle.std.specs.Prelude.{◌≡◌};
ghost use Rattle.mw_prefix.specs.declared.fault.PrefixError.TheVariants.{Memory};

use std::alloc::{AllocError, AllocFailed};

/// Why there is no term.
#[derive(Clone, Copy, Debug, PartialEq, Eq)]
pub enum PrefixError {
    /// More than 8,388,608 tokens. This is looked at first.
    TooLong,
    /// The tokens are the form of no term.
    NoParse,
    Memory,
}

impl From<AllocError> for PrefixError {
    ghost from_gives = { λ _ e. e ≡ Memory };

    fn from(_: AllocError) -> Self {
        PrefixError::Memory
    }
}

impl<T: Drop> From<AllocFailed<T>> for PrefixError {
    ghost from_gives = { λ _ e. e ≡ Memory };

    fn from(_: AllocFailed<T>) -> Self {
        PrefixError::Memory
    }
}
