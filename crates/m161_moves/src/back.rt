//! Moves backwards.

ghost use Rattle.std.specs.Prelude.{◌≡◌, ◌≢◌, ◌+◌, ◌-◌, ◌<◌, ◌≤◌, false, Some, IfErr, IfOk, OnOk};
ghost use Rattle.m161_moves.specs.Moves.{backwards_reason, StopsBackwards};
ghost use Rattle.m161_moves.specs.helpers.Looking.{StandsFor, StopAtNoStep};
ghost use Rattle.m161_moves.specs.helpers.Places.{return_of, IsGreatest, IsLast};

use crate::looking::{Sight, next_seen, stop_at_steps};
use crate::reason::Reason;
use crate::run::{Run, StepSeen};
use crate::stopping::{break_of, mark_of, step_of, touch_of};
use m161_gdb::{Motion, Stops};

// A place where something stops.
#[derive(Clone, Copy, Debug)]
pub(crate) struct Found {
    /// The place.
    pub place: usize,
    /// Why.
    pub reason: Reason,
}

// What stops a move back before the next event, which this stands for.
fn at_return<R: Run>(
    run: &R,
    stops: &Stops,
    chosen: &[Option<Motion>],
    step: Option<StepSeen>,
) -> Option<Reason>
    requires step { StandsFor stops.now chosen.now ((R.course run.now).step (R.place run.now)) step }
    ensures { result ≡ return_of (R.course run.now) stops.now chosen.now (R.place run.now) }
{
    if let Some(reason) = mark_of(stops, run.place()) {
        return Some(reason);
    }
    if let Some(reason) = break_of(stops, chosen, step) {
        return Some(reason);
    }
    step_of(chosen, step)
}

// What stops a move back from a place at this one, which isn't the first; behind it is one event, and
// before it the other.
fn reason_at<R: Run>(
    run: &R,
    stops: &Stops,
    chosen: &[Option<Motion>],
    from: usize,
    behind: Option<StepSeen>,
    step: Option<StepSeen>,
) -> Option<Reason>
    requires some { 0 < R.place run.now }
    requires behind { StandsFor stops.now chosen.now ((R.course run.now).step (R.place run.now - 1)) behind }
    requires step { R.place run.now < from →
        StandsFor stops.now chosen.now ((R.course run.now).step (R.place run.now)) step }
    requires interrupted { stops.now.interrupted ≡ false }
    ensures { result ≡ backwards_reason (R.course run.now) stops.now chosen.now from (R.place run.now) }
{
    if from <= run.place() {
        return touch_of(stops, chosen, behind);
    }
    match at_return(run, stops, chosen, step) {
        Some(reason) => Some(reason),
        None => touch_of(stops, chosen, behind),
    }
}

// And at the first.
fn at_begin<R: Run>(
    run: &R,
    stops: &Stops,
    chosen: &[Option<Motion>],
    from: usize,
    step: Option<StepSeen>,
) -> Reason
    requires begin { R.place run.now ≡ 0 }
    requires step { 0 < from → StandsFor stops.now chosen.now ((R.course run.now).step (R.place run.now)) step }
    requires interrupted { stops.now.interrupted ≡ false }
    ensures { backwards_reason (R.course run.now) stops.now chosen.now from 0 ≡ Some result }
{
    if 0 < from {
        if let Some(reason) = at_return(run, stops, chosen, step) {
            return reason;
        }
    }
    Reason::Begin
}

// What stands for the next event, if a move back from a place goes back by it.
fn first_seen<R: Run>(
    run: &R,
    stops: &Stops,
    chosen: &[Option<Motion>],
    looks: bool,
    from: usize,
) -> Option<StepSeen>
    requires within { from ≤ (R.course run.now).end }
    requires looks { looks ≡ false → StopAtNoStep stops.now chosen.now }
    ensures { R.place run.now < from →
        StandsFor stops.now chosen.now ((R.course run.now).step (R.place run.now)) result }
{
    if run.place() < from {
        next_seen(run, stops, chosen, looks)
    } else {
        None
    }
}

// Goes forwards by an event, and says what stops a move back from a place there.
fn look_on<R: Run>(
    run: &mut R,
    stops: &Stops,
    chosen: &[Option<Motion>],
    looks: bool,
    from: usize,
    step: Option<StepSeen>,
) -> Result<Sight, R::Error>
    requires within { from ≤ (R.course run.old).end }
    requires place { R.place run.old < from }
    requires looks { looks ≡ false → StopAtNoStep stops.now chosen.now }
    requires step { StandsFor stops.now chosen.now ((R.course run.old).step (R.place run.old)) step }
    requires interrupted { stops.now.interrupted ≡ false }
    ensures course { R.course run.new ≡ R.course run.old }
    ensures ok { IfOk result (λ found. (R.place run.new ≡ R.place run.old + 1)
        × (found.reason ≡ backwards_reason (R.course run.old) stops.now chosen.now from (R.place run.new))) }
    ensures step { IfOk result (λ found. R.place run.new < from →
        StandsFor stops.now chosen.now ((R.course run.old).step (R.place run.new)) found.step) }
    ensures err { IfErr result (R.fails (R.course run.old)) }
{
    run.advance()?;
    let next = first_seen(run, stops, chosen, looks, from);
    Ok(Sight {
        reason: reason_at(run, stops, chosen, from, step, next),
        step: next,
    })
}

// Goes forwards to a place, and says where a move back from another stops last on the way, if it does.
fn look<R: Run>(
    run: &mut R,
    stops: &Stops,
    chosen: &[Option<Motion>],
    looks: bool,
    from: usize,
    last: usize,
) -> Result<Option<Found>, R::Error>
    requires within { from ≤ (R.course run.old).end }
    requires last { last ≤ from }
    requires place { R.place run.old ≤ last }
    requires looks { looks ≡ false → StopAtNoStep stops.now chosen.now }
    requires interrupted { stops.now.interrupted ≡ false }
    ensures course { R.course run.new ≡ R.course run.old }
    ensures place { OnOk result (R.place run.new ≡ last) }
    ensures ok { IfOk result (IsLast (backwards_reason (R.course run.old) stops.now chosen.now from)
        (R.place run.old) last) }
    ensures err { IfErr result (R.fails (R.course run.old)) }
{
    let mut found = None;
    let mut step = first_seen(run, stops, chosen, looks, from);
    while run.place() < last {
        let behind = look_on(run, stops, chosen, looks, from, step)?;
        step = behind.step;
        if let Some(reason) = behind.reason {
            found = Some(Found {
                place: run.place(),
                reason,
            });
        }
    }
    Ok(found)
}

// The same from the beginning on, where it does.
fn look_from_begin<R: Run>(
    run: &mut R,
    stops: &Stops,
    chosen: &[Option<Motion>],
    looks: bool,
    from: usize,
    last: usize,
) -> Result<Found, R::Error>
    requires within { from ≤ (R.course run.old).end }
    requires last { last ≤ from }
    requires looks { looks ≡ false → StopAtNoStep stops.now chosen.now }
    requires interrupted { stops.now.interrupted ≡ false }
    ensures course { R.course run.new ≡ R.course run.old }
    ensures place { OnOk result (R.place run.new ≡ last) }
    ensures ok { IfOk result (IsGreatest (backwards_reason (R.course run.old) stops.now chosen.now from) last) }
    ensures err { IfErr result (R.fails (R.course run.old)) }
{
    run.go_back(0)?;
    let step = first_seen(run, stops, chosen, looks, from);
    let reason = at_begin(run, stops, chosen, from, step);
    match look(run, stops, chosen, looks, from, last)? {
        Some(found) => Ok(found),
        None => Ok(Found { place: 0, reason }),
    }
}

// Goes back to a place.
fn go_to<R: Run>(run: &mut R, place: usize) -> Result<(), R::Error>
    requires { place ≤ R.place run.old }
    ensures course { R.course run.new ≡ R.course run.old }
    ensures ok { OnOk result (R.place run.new ≡ place) }
    ensures err { IfErr result (R.fails (R.course run.old)) }
{
    run.go_back(place)?;
    while run.place() < place {
        run.advance()?;
    }
    Ok(())
}

// Where a move back stops. It goes to no place in particular, but not before that one.
fn find<R: Run>(run: &mut R, stops: &Stops, chosen: &[Option<Motion>]) -> Result<Found, R::Error>
    requires { stops.now.interrupted ≡ false }
    ensures course { R.course run.new ≡ R.course run.old }
    ensures place { IfOk result (λ found. found.place ≤ R.place run.new) }
    ensures ok { IfOk result (λ found. StopsBackwards (R.course run.old) stops.now chosen.now
        (R.place run.old) found.place found.reason) }
    ensures err { IfErr result (R.fails (R.course run.old)) }
{
    let looks = stop_at_steps(stops, chosen);
    let from = run.place();
    run.go_back(from)?;
    let near = run.place();
    match look(run, stops, chosen, looks, from, from)? {
        Some(found) => Ok(found),
        None => look_from_begin(run, stops, chosen, looks, from, near),
    }
}

/// Moves backwards, to the greatest place up to here where something stops, and says why. Processors
/// are resumed as forwards, and the interrupt flag and the mark are left alike.
///
/// # Errors
/// The run can't be gone along. It stands at some place then.
pub fn backwards<R: Run>(
    run: &mut R,
    stops: &Stops,
    chosen: &[Option<Motion>],
) -> Result<Reason, R::Error>
    ensures course { R.course run.new ≡ R.course run.old }
    ensures ok { IfOk result (StopsBackwards (R.course run.old) stops.now chosen.now
        (R.place run.old) (R.place run.new)) }
    ensures err { IfErr result (R.fails (R.course run.old)) }
{
    if stops.is_interrupted() {
        return Ok(Reason::Interrupt);
    }
    let found = find(run, stops, chosen)?;
    go_to(run, found.place)?;
    Ok(found.reason)
}
