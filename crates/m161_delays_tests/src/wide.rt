//! Runs of many places, of which some take long.

ghost use Rattle.std.specs.Prelude.{◌≡◌};

use m161_delays::{Delays, Runs, Tested};
use std::alloc::AllocError;

/// Runs of 200 places. Those of lists of one number go wrong where it is one of two.
#[derive(Drop)]
pub struct Wide {
    /// How many processors are ready at each place.
    pub counts: [u8; 200],
    /// One number of a list that goes wrong. Its run takes long.
    pub slow: u32,
    /// Another one, whose run is quick.
    pub quick: u32,
}

// Takes its time, and gives 0.
fn spin() -> u32 {
    let mut left = 200_000u32;
    for _ in 0..200_000u32 {
        left = left.saturating_sub(1);
    }
    left
}

impl Runs for Wide {
    ghost use Rattle.std.specs.Prelude.{◌≡◌, [], ◌∷◌, refl};

    type Wrong = u32;

    type Error = AllocError;

    // The places that are behind.
    type Point = u32;

    ghost offers = { λ wide numbers. wide.counts };

    ghost right = { λ wide numbers is_cut. Unit {0} };

    ghost wrong = { λ wide numbers what. Unit {0} };

    ghost is_on = { λ wide numbers point. Unit {0} };

    ghost fails = { λ wide error. Unit {0} };

    fn offers(&self, _delays: &Delays, counts: &mut Vec<u8>) -> Result<(), AllocError> {
        counts.extend_from_slice(&self.counts)
    }

    fn start(&self) -> Result<u32, AllocError> {
        Ok(0)
    }

    fn copy(&self, point: &u32) -> Result<u32, AllocError> {
        Ok(*point)
    }

    fn advance(&self, _delays: &Delays, place: u32, point: &mut u32) -> Result<(), AllocError> {
        *point = place;
        Ok(())
    }

    fn judge_from(&self, delays: &Delays, _point: &u32) -> Result<Tested<u32>, AllocError> {
        let numbers = delays.as_slice();
        if numbers.len() == 1 {
            let number = numbers[0];
            if number == self.quick {
                return Ok(Tested::Wrong(0));
            }
            if number == self.slow {
                return Ok(Tested::Wrong(spin()));
            }
        }
        Ok(Tested::Right {
            is_cut: numbers.len() == 2,
        })
    }

    fn refused(&self) -> AllocError {
        AllocError
    }

    ghost alike = { λ wide j a b same. refl };
}
