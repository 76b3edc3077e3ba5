//! Events, as far as stops tell them apart.

ghost use Rattle.std.specs.Prelude.{◌≡◌, ◌<◌, ℕ, Some, false};
ghost use Rattle.m161_moves.specs.Stopping.{is_stepping};
ghost use Rattle.m161_moves.specs.helpers.Looking.{StandsFor, StopAtNoStep};

use crate::reason::Reason;
use crate::run::{Run, StepSeen};
use crate::stopping::makes_step;
use m161_gdb::{Motion, Stops};

/// What is seen at a place.
#[derive(Clone, Copy)]
pub(crate) struct Sight {
    /// What stops a move there.
    pub reason: Option<Reason>,
    /// The next event, or what stands for it, if it is a Step.
    pub step: Option<StepSeen>,
}

/// A place where a move stops.
pub(crate) fn stopped(reason: Reason) -> Sight
    ensures { result.reason ≡ Some reason }
{
    Sight {
        reason: Some(reason),
        step: None,
    }
}

// Whether a processor makes a Step.
fn some_makes_step(chosen: &[Option<Motion>]) -> bool
    ensures { result ≡ false → (p : ℕ) → is_stepping chosen.now p ≡ false }
{
    let mut rest = chosen;
    while let [motion, behind @ ..] = rest {
        if makes_step(*motion) {
            return true;
        }
        rest = behind;
    }
    false
}

/// Whether something stops at Steps: a breakpoint, a watch, or a processor that makes a Step.
pub(crate) fn stop_at_steps(stops: &Stops, chosen: &[Option<Motion>]) -> bool
    ensures { result ≡ false → StopAtNoStep stops.now chosen.now }
{
    !stops.breakpoints().is_empty() || !stops.watches().is_empty() || some_makes_step(chosen)
}

/// The next event, if it is a Step, or whatever stands for it. It isn't looked at where nothing stops at
/// Steps: that takes longer than to make it.
pub(crate) fn next_seen<R: Run>(
    run: &R,
    _stops: &Stops,
    _chosen: &[Option<Motion>],
    looks: bool,
) -> Option<StepSeen>
    requires within { R.place run.now < (R.course run.now).end }
    requires looks { looks ≡ false → StopAtNoStep _stops.now _chosen.now }
    ensures { StandsFor _stops.now _chosen.now ((R.course run.now).step (R.place run.now)) result }
{
    if looks { run.next_step() } else { None }
}
