//! Laws of slices. The functions do nothing: their contracts are the laws.

ghost use Rattle.std.specs.Prelude.{ℕ, List};
ghost use Rattle.m161_delays.specs.declared.search.Class.{Class as ClassValue};
ghost use Rattle.m161_delays.specs.declared.slice.Slice.{Slice as SliceValue};
ghost use Rattle.m161_delays.specs.Slices.{AreJoined, IsOfWhole};

use crate::runs::Runs;

/// A slice, and one that goes on where it stopped, are one slice, of the runs of both.
pub fn slices_join<T: Runs>(_runs: &T)
    ensures { (class : ClassValue) (from : List ℕ) (most more : ℕ) (first second : SliceValue T.Wrong)
        → AreJoined class (T.offers _runs.now) (T.right _runs.now) (T.wrong _runs.now) from most more first second }
{}

/// A slice from the empty list on, by which no list is left or a run goes wrong, finds what the search does.
pub fn slice_is_of_whole<T: Runs>(_runs: &T)
    ensures { (class : ClassValue) (most : ℕ) (slice : SliceValue T.Wrong)
        → IsOfWhole class (T.offers _runs.now) (T.right _runs.now) (T.wrong _runs.now) most slice }
{}
