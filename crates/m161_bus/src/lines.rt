//! The lines of all processors.

ghost use Rattle.std.specs.Prelude.{◌≡◌, ◌<◌, ℕ, length, slice_index};
ghost use Rattle.m161_bus.specs.Board.{KeepsLines};

use crate::place::Place;

/// The greatest number of processors.
pub(crate) const PLACES: usize = 32;

/// The lines of every processor, if IRQE lets these bits of IRQS through.
pub(crate) fn lines_of_all(places: &[Place; PLACES], through: u32) -> [u32; PLACES]
    requires { length places.now ≡ 32 }
    ensures lines { KeepsLines result through places.now }
    ensures len { length result ≡ 32 }
{
    let mut lines = [0; PLACES];
    for i in 0..PLACES {
        lines[i] = places[i].lines(through);
    }
    lines
}
