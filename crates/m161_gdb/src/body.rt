//! The body of a frame.

ghost use Rattle.std.specs.Prelude.{◌≡◌, ◌++◌, ◌∷◌, [], MatchResult};

use std::alloc::{AllocError, Global};
use std::marker::Model;

/// The bytes between a frame's `$` and its `#`. Contracts see them as their list.
#[derive(Drop)]
pub struct Body {
    bytes: Vec<u8>,
}

impl Model for Body {
    ghost use Rattle.std.specs.Prelude.{ℕ, List};

    ghost Value = { List ℕ };

    ghost view = { λ body. body.bytes.items };
}

impl Body {
    /// No bytes. Does not allocate.
    pub(crate) fn empty(alloc: Global) -> Body
        ensures { result ≡ [] }
    {
        Body {
            bytes: Vec::new(alloc),
        }
    }

    /// Its bytes.
    pub fn as_slice(&self) -> &[u8]
        ensures { result.now ≡ self.now }
    {
        self.bytes.as_slice()
    }

    /// Adds a byte behind the others.
    ///
    /// # Errors
    /// Memory was refused. The bytes are as they were.
    pub(crate) fn push(&mut self, byte: u8) -> Result<(), AllocError>
        ensures { MatchResult result
            (λ _. self.new ≡ self.old ++ byte ∷ []) (λ _. self.new ≡ self.old) }
    {
        self.bytes.push(byte)?;
        Ok(())
    }
}
