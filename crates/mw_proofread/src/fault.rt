// Why texts aren't read.
use mw_canon::CanonError;
use std::alloc::{AllocError, AllocFailed};

/// Why there is no proof text.
#[derive(Debug, Clone, Copy, PartialEq, Eq)]
pub enum ReadError {
    /// The tokens leave the form in this part: 0 is the head, then come the items, from 1, and the end, one more than
    /// the last of them.
    Outside { step: u64 },
    Memory(AllocError),
}

/// Why a part of a text isn't read.
#[derive(Debug, Clone, Copy, PartialEq, Eq)]
pub enum Fault {
    Outside,
    Memory,
}

impl Fault {
    ghost use Rattle.mw_proofread.specs.Faults.{IsAt};

    /// The same of the whole text, in this part of it.
    pub fn at(self, step: u64) -> ReadError
        ensures { IsAt self step result }
    {
        match self {
            Fault::Outside => ReadError::Outside { step },
            Fault::Memory => ReadError::Memory(AllocError),
        }
    }
}

impl From<AllocError> for Fault {
    ghost use Rattle.std.specs.Prelude.{◌≡◌};
    ghost use Rattle.mw_proofread.specs.declared.fault.Fault.TheVariants.{Memory};

    ghost from_gives = { λ _ e. e ≡ Memory };

    fn from(_: AllocError) -> Self {
        Fault::Memory
    }
}

impl<T: Drop> From<AllocFailed<T>> for Fault {
    ghost use Rattle.std.specs.Prelude.{◌≡◌};
    ghost use Rattle.mw_proofread.specs.declared.fault.Fault.TheVariants.{Memory};

    ghost from_gives = { λ _ e. e ≡ Memory };

    fn from(_: AllocFailed<T>) -> Self {
        Fault::Memory
    }
}
