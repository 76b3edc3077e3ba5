//! What makes the hashers of a text's names.

ghost use Rattle.std.specs.Prelude.{◌≡◌};
ghost use Rattle.m161_hash.specs.Hash.{after_digest};

use sha2::{Digest, Sha256};
use std::hash::{BuildHasher, DefaultHasher, Hasher};

/// Makes the hashers of the names of one text, as `RandomState` makes those of one run.
#[derive(Clone, Copy)]
pub struct TextState {
    start: DefaultHasher,
}

impl TextState {
    /// The hashers of the names of a text. Takes time in proportion to the text, and no memory.
    pub fn new(text: &[u8]) -> TextState
        ensures { result.start ≡ after_digest text.now }
    {
        let mut start = DefaultHasher::new();
        start.write(&Sha256::digest(text));
        TextState { start }
    }
}

impl BuildHasher for TextState {
    type Hasher = DefaultHasher;

    ghost build_hasher = { λ state. state.start };

    fn build_hasher(&self) -> DefaultHasher {
        self.start
    }
}
