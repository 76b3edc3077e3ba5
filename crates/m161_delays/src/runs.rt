//! What makes the runs of lists of delays.

use m161_jobs::Tested;
use m161_order::Delays;

/// Makes the runs of lists of delays. Several threads may make some at once.
pub trait Runs: Sync {
    ghost use Rattle.std.specs.Prelude.{◌≡◌, ℕ, Bool, List, ◌++◌, IfErr, IfOk, OnOk};
    ghost use Rattle.m161_order.specs.Delays.{delays_of};
    ghost use Rattle.m161_jobs.specs.Trials.{IsJudged};
    ghost use Rattle.m161_delays.specs.Runs.{ChooseAlike, StandsAt};

    /// How a run goes wrong.
    type Wrong: Drop + Send;

    /// Why a run can't be made.
    type Error: Drop + Send;

    /// A point of a run: what it takes to go on from there.
    type Point: Drop + Sync;

    // How many processors are ready at each place of a list's run.
    ghost offers: { Self → List ℕ → List ℕ };

    // The run of a list is right, and is cut or isn't.
    ghost right: { Self → List ℕ → Bool → Type 0 };

    // The run of a list goes wrong in this way.
    ghost wrong: { Self → List ℕ → Self.Wrong → Type 0 };

    // A point is one of a list's run.
    ghost is_on: { Self → List ℕ → Self.Point → Type 0 };

    // A run can't be made, for this reason.
    ghost fails: { Self → Self.Error → Type 0 };

    /// Writes down how many processors are ready at each place of a list's run, behind what is there.
    ///
    /// # Errors
    /// The run can't be made.
    fn offers(&self, delays: &Delays, counts: &mut Vec<u8>) -> Result<(), Self::Error>
        ensures ok { OnOk result (counts.new.items ≡ counts.old.items ++ offers self.now (delays_of delays.now)) }
        ensures err { IfErr result (fails self.now) };

    /// The point before the first event, where all runs begin.
    ///
    /// # Errors
    /// It can't be had.
    fn start(&self) -> Result<Self::Point, Self::Error>
        ensures ok { IfOk result (λ point. (numbers : List ℕ) → is_on self.now numbers point) }
        ensures err { IfErr result (fails self.now) };

    /// The same point again, to go on from.
    ///
    /// # Errors
    /// It can't be had.
    fn copy(&self, point: &Self::Point) -> Result<Self::Point, Self::Error>
        ensures ok { IfOk result (λ copy. (numbers : List ℕ) → is_on self.now numbers point.now → is_on self.now numbers copy) }
        ensures err { IfErr result (fails self.now) };

    /// Goes on from a point along a list's run, until so many of its places are behind: not beyond the
    /// first event that lists can differ in that have the same numbers below this one.
    ///
    /// # Errors
    /// The run can't be made.
    fn advance(
        &self,
        delays: &Delays,
        place: u32,
        point: &mut Self::Point,
    ) -> Result<(), Self::Error>
        requires { StandsAt (is_on self.now) (delays_of delays.now) place point.old }
        ensures ok { OnOk result (StandsAt (is_on self.now) (delays_of delays.now) place point.new) }
        ensures err { IfErr result (fails self.now) };

    /// Makes a list's run from one of its points on, and judges the whole run.
    ///
    /// # Errors
    /// The run can't be made.
    fn judge_from(
        &self,
        delays: &Delays,
        point: &Self::Point,
    ) -> Result<Tested<Self::Wrong>, Self::Error>
        requires { is_on self.now (delays_of delays.now) point.now }
        ensures ok { IfOk result (IsJudged (right self.now (delays_of delays.now)) (wrong self.now (delays_of delays.now))) }
        ensures err { IfErr result (fails self.now) };

    /// The error that tells of refused memory.
    fn refused(&self) -> Self::Error
        ensures { fails self.now result };

    ghost alike: { (runs : Self) → ChooseAlike (offers runs) };
}
