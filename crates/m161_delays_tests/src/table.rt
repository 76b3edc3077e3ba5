//! Runs that have the same places whatever the delays are.

ghost use Rattle.std.specs.Prelude.{◌≡◌};

use m161_delays::{Delays, Runs, Tested};
use std::alloc::AllocError;

/// Runs of four places. Those of lists with `wrong` numbers go wrong, and those of lists with more than
/// `whole` numbers are cut.
#[derive(Drop, Debug)]
pub struct Table {
    /// How many processors are ready at each place.
    pub counts: [u8; 4],
    /// How many numbers the lists have whose runs go wrong.
    pub wrong: usize,
    /// How many numbers a list has at most whose run isn't cut.
    pub whole: usize,
}

impl Runs for Table {
    ghost use Rattle.std.specs.Prelude.{◌≡◌, ◌≢◌, nat_lt, length, refl};

    type Wrong = usize;

    type Error = AllocError;

    // The places that are behind.
    type Point = u32;

    ghost offers = { λ table numbers. table.counts };

    ghost right = { λ table numbers is_cut. (length numbers ≢ table.wrong)
        × (is_cut ≡ nat_lt table.whole (length numbers)) };

    ghost wrong = { λ table numbers what. (length numbers ≡ table.wrong) × (what ≡ length numbers) };

    ghost is_on = { λ table numbers point. Unit {0} };

    ghost fails = { λ table error. Unit {0} };

    fn offers(&self, _delays: &Delays, counts: &mut Vec<u8>) -> Result<(), AllocError> {
        counts.extend_from_slice(&self.counts)
    }

    fn start(&self) -> Result<u32, AllocError> {
        Ok(0)
    }

    fn copy(&self, point: &u32) -> Result<u32, AllocError> {
        Ok(*point)
    }

    fn advance(&self, _delays: &Delays, place: u32, point: &mut u32) -> Result<(), AllocError> {
        *point = place;
        Ok(())
    }

    fn judge_from(&self, delays: &Delays, _point: &u32) -> Result<Tested<usize>, AllocError> {
        let count = delays.as_slice().len();
        if count == self.wrong {
            return Ok(Tested::Wrong(count));
        }
        Ok(Tested::Right {
            is_cut: count > self.whole,
        })
    }

    fn refused(&self) -> AllocError {
        AllocError
    }

    ghost alike = { λ table j a b same. refl };
}
