//! Walks along lists of events.

ghost use Rattle.std.specs.Prelude.{◌≡◌, IfOk};
ghost use Rattle.m161_states.specs.System.{start};
ghost use Rattle.m161_reach.specs.Hangs.{is_over};
ghost use Rattle.m161_reach.specs.Reach.{IsMet};
ghost use Rattle.m161_reach.specs.helpers.Walk.{Goes, Walks};

use crate::judge::is_stuck_at;
use crate::machines::Machines;
use crate::onward::take_event;
use crate::place::Place;
use m161_bus::Console;
use m161_tlb::Tlb;
use std::alloc::AllocError;

/// How a walk along a list of events ends.
#[derive(Clone, Copy)]
pub enum Walk {
    /// An event isn't accepted.
    Refused,
    /// The machine is over behind some of the events.
    Over,
    /// All events were made, and the machine is over behind none.
    Went,
}

// Whether the machine is off, or nothing is left to do.
fn is_over<T: Tlb + Drop, D: Console + Drop>(
    machines: &Machines<'_, T, D>,
    place: &Place<T, D>,
) -> bool
    ensures { result ≡ is_over machines.now place.now }
{
    place.core.is_off() || is_stuck_at(machines.goal, place)
}

// Makes an event: whether it was accepted.
fn go<T: Tlb + Drop, D: Console + Drop>(
    machines: &Machines<'_, T, D>,
    place: &mut Place<T, D>,
    event: u32,
) -> Result<bool, AllocError>
    requires { IsMet machines.now place.old }
    ensures { IfOk result (Goes machines.now place.old event place.new) }
{
    if event >= machines.width() {
        return Ok(false);
    }
    match take_event(machines, place, event)? {
        Some(_outcome) => Ok(true),
        None => Ok(false),
    }
}

/// Makes the events of a list from boot on, as long as the machine isn't over.
///
/// # Errors
/// Memory is refused, or the machine has accepted all events that it counts.
pub fn walk_along<T: Tlb + Drop, D: Console + Drop>(
    machines: &Machines<'_, T, D>,
    place: &mut Place<T, D>,
    events: &[u32],
) -> Result<Walk, AllocError>
    requires { place.old ≡ start machines.now }
    ensures { IfOk result (Walks machines.now events.now place.new) }
{
    for event in events {
        if is_over(machines, place) {
            return Ok(Walk::Over);
        }
        if !go(machines, place, *event)? {
            return Ok(Walk::Refused);
        }
    }
    if is_over(machines, place) {
        return Ok(Walk::Over);
    }
    Ok(Walk::Went)
}
