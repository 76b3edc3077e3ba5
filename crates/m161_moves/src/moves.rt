//! Moves forwards.

ghost use Rattle.std.specs.Prelude.{◌≡◌, ◌+◌, ◌<◌, None, false, IfErr, IfOk};
ghost use Rattle.m161_moves.specs.Moves.{StopsForwards};
ghost use Rattle.m161_moves.specs.helpers.Looking.{StandsFor, StopAtNoStep};
ghost use Rattle.m161_moves.specs.helpers.Places.{ahead_of, behind_of};

use crate::looking::{Sight, next_seen, stop_at_steps, stopped};
use crate::reason::Reason;
use crate::run::{Run, StepSeen};
use crate::stopping::{break_of, mark_of, step_of, touch_of};
use m161_gdb::{Motion, Stops};

// What stops before the next event.
fn ahead<R: Run>(run: &R, stops: &Stops, chosen: &[Option<Motion>], looks: bool) -> Sight
    requires looks { looks ≡ false → StopAtNoStep stops.now chosen.now }
    ensures reason { result.reason ≡ ahead_of (R.course run.now) stops.now chosen.now (R.place run.now) }
    ensures step { R.place run.now < (R.course run.now).end →
        StandsFor stops.now chosen.now ((R.course run.now).step (R.place run.now)) result.step }
{
    if run.is_at_end() {
        return stopped(Reason::End);
    }
    let step = next_seen(run, stops, chosen, looks);
    let reason = match break_of(stops, chosen, step) {
        Some(reason) => Some(reason),
        None => touch_of(stops, chosen, step),
    };
    Sight { reason, step }
}

// Goes forwards by an event, and says what stops behind it.
fn go_on<R: Run>(
    run: &mut R,
    stops: &Stops,
    chosen: &[Option<Motion>],
    looks: bool,
    step: Option<StepSeen>,
) -> Result<Sight, R::Error>
    requires within { R.place run.old < (R.course run.old).end }
    requires looks { looks ≡ false → StopAtNoStep stops.now chosen.now }
    requires step { StandsFor stops.now chosen.now ((R.course run.old).step (R.place run.old)) step }
    ensures course { R.course run.new ≡ R.course run.old }
    ensures ok { IfOk result (λ found. (R.place run.new ≡ R.place run.old + 1)
        × (found.reason ≡ behind_of (R.course run.new) stops.now chosen.now (R.place run.new))) }
    ensures step { IfOk result (λ found. found.reason ≡ None → R.place run.new < (R.course run.new).end →
        StandsFor stops.now chosen.now ((R.course run.new).step (R.place run.new)) found.step) }
    ensures err { IfErr result (R.fails (R.course run.old)) }
{
    run.advance()?;
    if let Some(reason) = mark_of(stops, run.place()) {
        return Ok(stopped(reason));
    }
    if let Some(reason) = step_of(chosen, step) {
        return Ok(stopped(reason));
    }
    Ok(ahead(run, stops, chosen, looks))
}

/// Moves forwards, to the least place from here on where something stops, and says why. Each
/// processor is resumed that has a motion; those without one go on, too, but nothing stops at them.
/// A move that the interrupt flag stops leaves it set, and one that the mark stops leaves that.
///
/// # Errors
/// The run can't be gone along. It stands at some place then.
pub fn forwards<R: Run>(
    run: &mut R,
    stops: &Stops,
    chosen: &[Option<Motion>],
) -> Result<Reason, R::Error>
    ensures course { R.course run.new ≡ R.course run.old }
    ensures ok { IfOk result (StopsForwards (R.course run.old) stops.now chosen.now
        (R.place run.old) (R.place run.new)) }
    ensures err { IfErr result (R.fails (R.course run.old)) }
{
    if stops.is_interrupted() {
        return Ok(Reason::Interrupt);
    }
    let looks = stop_at_steps(stops, chosen);
    let mut found = ahead(run, stops, chosen, looks);
    loop {
        if let Some(reason) = found.reason {
            return Ok(reason);
        }
        found = go_on(run, stops, chosen, looks, found.step)?;
    }
}
