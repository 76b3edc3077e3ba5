//! The walk along a list of events.

ghost use Rattle.std.specs.Prelude.{◌≡◌};
ghost use Rattle.m161_judge.specs.helpers.Walk.{MakesEvent, MakesWith, Walks, left_after};

use crate::goal::Goal;
use crate::seen::nothing_seen;
use crate::verdict::Judged;
use m161_audit::AuditError;
use m161_bus::Console;
use m161_machine::{BootError, Core, Event, Outcome, Refusal};
use m161_tlb::Tlb;

/// How a walk along a list of events ends.
pub(crate) enum Walk {
    /// An event is refused before the machine is off.
    Refused,
    /// None is. The first verdict behind those of Steps.
    Made(Option<Judged>),
}

/// Makes an event. Returns its outcome, if it was accepted.
pub(crate) fn make_event<T: Tlb, D: Console>(
    core: &mut Core<T, D>,
    event: Event,
) -> Result<Option<Outcome>, AuditError>
    ensures { MakesWith core.old.state event result core.new.state }
{
    match core.event(event) {
        Ok(outcome) => Ok(Some(outcome)),
        Err(refusal) => {
            if refusal == Refusal::NoMemory {
                Err(AuditError::Boot(BootError::NoMemory))
            } else {
                Ok(None)
            }
        }
    }
}

/// The same, where only that it was accepted counts.
pub(crate) fn make<T: Tlb, D: Console>(
    core: &mut Core<T, D>,
    event: Event,
) -> Result<bool, AuditError>
    ensures { MakesEvent core.old.state event result core.new.state }
{
    match make_event(core, event)? {
        Some(_outcome) => Ok(true),
        None => Ok(false),
    }
}

/// How many keys are left after an event.
pub(crate) fn left_after(left: usize, event: Event) -> usize
    ensures { result ≡ left_after left event }
{
    match event {
        Event::Key(_) => left.saturating_sub(1),
        Event::Step(_) | Event::Done => left,
    }
}

/// Makes the events, and looks at each state.
pub(crate) fn walk_along<T: Tlb, D: Console>(
    core: &mut Core<T, D>,
    events: &[Event],
    goal: &Goal,
) -> Result<Walk, AuditError>
    ensures { Walks goal.now core.old.state events.now result }
{
    let mut seen = nothing_seen();
    let mut left = goal.keys.len();
    for (made, event) in events.iter().enumerate() {
        seen = seen.look(core, made, left > 0, goal.output);
        if core.is_off() {
            return Ok(Walk::Made(seen.verdict(core, made, goal.output)));
        }
        if !make(core, *event)? {
            return Ok(Walk::Refused);
        }
        left = left_after(left, *event);
    }
    seen = seen.look(core, events.len(), left > 0, goal.output);
    Ok(Walk::Made(seen.verdict(core, events.len(), goal.output)))
}
