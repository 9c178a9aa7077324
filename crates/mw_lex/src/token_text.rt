// The bytes of a token.
ghost use Rattle.std.specs.Prelude.{◌≡◌, IfOk};

use smallvec::SmallVec;
use std::alloc::{AllocError, Global};
use std::marker::Model;

/// The bytes of a token, which contracts see as a list. Up to 16 of them lie in the value itself.
#[derive(Debug, Drop)]
pub struct TokenText {
    bytes: SmallVec<u8, 16>,
}

impl Model for TokenText {
    ghost use Rattle.std.specs.Prelude.{List, ℕ};

    ghost Value = { List ℕ };

    ghost view = { λ t. t.bytes.items };
}

impl TokenText {
    /// A copy of these bytes. More than 16 of them take memory.
    pub(crate) fn copied(alloc: Global, bytes: &[u8]) -> Result<TokenText, AllocError>
        ensures { IfOk result (λ t. t ≡ bytes.now) }
    {
        let bytes = SmallVec::from_slice(alloc, bytes)?;
        Ok(TokenText { bytes })
    }

    /// Its bytes.
    pub fn as_slice(&self) -> &[u8]
        ensures { result.now ≡ self.now }
    {
        self.bytes.as_slice()
    }
}
