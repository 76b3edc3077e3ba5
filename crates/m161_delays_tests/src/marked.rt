//! Trials that do nothing.

use m161_jobs::{Tested, Trials};

/// Trials of which each third is cut, from the first on. Two go wrong, and one can't be made; a trial
/// that is both goes wrong.
#[derive(Drop)]
pub struct Marked {
    /// One that goes wrong.
    pub wrong: u32,
    /// The other one.
    pub other: u32,
    /// The one that can't be made.
    pub failing: u32,
}

impl Trials for Marked {
    ghost use Rattle.std.specs.Prelude.{◌≡◌, ◌≢◌, ◌⊎◌, ◌%◌, ◌==◌};

    type Wrong = u32;

    type Error = u32;

    ghost has = { λ marked n. Unit {0} };

    ghost right = { λ marked n is_cut. (n ≢ marked.wrong) × (n ≢ marked.other) × (is_cut ≡ (n % 3 == 0)) };

    ghost wrong = { λ marked n what. ((n ≡ marked.wrong) ⊎ (n ≡ marked.other)) × (what ≡ n) };

    ghost fails = { λ marked error. Unit {0} };

    fn judge(&self, place: u32) -> Result<Tested<u32>, u32> {
        if place == self.wrong || place == self.other {
            return Ok(Tested::Wrong(place));
        }
        if place == self.failing {
            return Err(place);
        }
        Ok(Tested::Right {
            is_cut: place % 3 == 0,
        })
    }

    fn refused(&self) -> u32 {
        u32::MAX
    }
}
