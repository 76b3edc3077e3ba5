//! Going on along the run of a list of delays.

ghost use Rattle.std.specs.Prelude.{◌≡◌, ◌++◌, ◌∷◌, [], ◌&&◌, nat_lt, if◌then◌else◌, IfOk, IfSome, Some, slice_get};
ghost use Rattle.m161_places.specs.Going.{PassesNoting};
ghost use Rattle.m161_places.specs.helpers.Noting.{GoesNoting};
ghost use Rattle.m161_places.specs.Places.{is_step};

use crate::counts::{count_ready, is_step};
use m161_bus::Console;
use m161_drive::{Cursor, Policy, turn};
use m161_machine::{Core, Event, PackedEntry};
use m161_tlb::Tlb;
use std::alloc::AllocError;

// How many places an event is at, in whose state so many processors are ready.
fn place_number(made: PackedEntry, ready: u8) -> u32
    ensures { result ≡ (if is_step (Some made.event) && nat_lt 0 ready then 1 else 0) }
{
    if is_step(made) && ready > 0 { 1 } else { 0 }
}

// Notes an event behind the others. How many places it is at, where so many processors were ready.
fn note_event(events: &mut Vec<Event>, made: PackedEntry, ready: u8) -> Result<u32, AllocError>
    ensures { IfOk result (λ places.
        (places ≡ (if is_step (Some made.event) && nat_lt 0 ready then 1 else 0))
        × (events.new.items ≡ events.old.items ++ made.event ∷ [])) }
{
    events.push(made.entry().event)?;
    Ok(place_number(made, ready))
}

// Makes the event that is chosen, and notes it behind the others. How many places it is at; none where
// no event is made.
fn go_on<T: Tlb, D: Console>(
    core: &mut Core<T, D>,
    policy: &Policy,
    cursor: &mut Cursor,
    events: &mut Vec<Event>,
) -> Result<Option<u32>, AllocError>
    ensures { IfOk result (λ made. IfSome made (λ places.
        GoesNoting policy.now (slice_get policy.now.keys) cursor.old core.old.state events.old.items places
        cursor.new core.new.state events.new.items)) }
{
    let mut entry = [PackedEntry::blank(); 1];
    let ready = count_ready(core);
    let key = policy.key(cursor.typed());
    match turn(core, policy, cursor, key, &mut entry) {
        Ok(_) => Ok(Some(note_event(events, entry[0], ready)?)),
        Err(_) => Ok(None),
    }
}

/// Makes the events that a policy chooses, at most `n` of them, with the cursor of a run that came here,
/// until so many places are passed, and notes them behind the others. How many places were passed; none
/// if the run stops before. The cursor is no good then.
///
/// # Errors
/// Memory was refused.
pub fn advance<T: Tlb, D: Console>(
    core: &mut Core<T, D>,
    policy: &Policy,
    cursor: &mut Cursor,
    n: u64,
    places: u32,
    events: &mut Vec<Event>,
) -> Result<Option<u32>, AllocError>
    ensures { IfOk result (λ made. IfSome made (λ passed.
        PassesNoting policy.now (slice_get policy.now.keys) n places cursor.old core.old.state events.old.items passed
        cursor.new core.new.state events.new.items)) }
{
    let mut passed = 0;
    for _ in 0..n {
        if passed >= places {
            return Ok(Some(passed));
        }
        let Some(more) = go_on(core, policy, cursor, events)? else {
            return Ok(None);
        };
        passed += more;
    }
    Ok(Some(passed))
}
