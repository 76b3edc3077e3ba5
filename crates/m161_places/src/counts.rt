//! How many processors are ready at each place.

ghost use Rattle.std.specs.Prelude.{◌≡◌, ◌≢◌, ◌++◌, ◌≤◌, ◌&&◌, [], nat_lt, OnOk, Some, length, slice_get};
ghost use Rattle.m161_machine.specs.declared.event.Refusal.{Refusal};
ghost use Rattle.m161_drive.specs.Choice.{cursor_at};
ghost use Rattle.m161_drive.specs.Ready.{is_ready, ready};
ghost use Rattle.m161_places.specs.Places.{is_step, offers, with_place};

use m161_bus::Console;
use m161_drive::{Cursor, Policy, Stop, turn};
use m161_machine::{Core, Event, PackedEntry};
use m161_tlb::Tlb;
use std::alloc::AllocError;

// Whether a processor exists, and its Step isn't idle.
fn is_ready<T: Tlb, D: Console>(core: &Core<T, D>, p: u32) -> bool
    ensures { result ≡ is_ready core.now.state p }
{
    p < core.processors() && !core.rests(p)
}

/// How many processors are ready.
pub(crate) fn count_ready<T: Tlb, D: Console>(core: &Core<T, D>) -> u8
    ensures count { result ≡ length (ready core.now.state) }
    ensures few { result ≤ 32 }
{
    core.law();
    let mut count = 0;
    for p in 0..core.processors() {
        if is_ready(core, p) {
            count += 1;
        }
    }
    count
}

/// Whether an entry is of a Step.
pub(crate) fn is_step(made: PackedEntry) -> bool
    ensures { result ≡ is_step (Some made.event) }
{
    match made.entry().event {
        Event::Step(_) => true,
        Event::Key(_) | Event::Done => false,
    }
}

// Notes a place behind the others, if an event is a Step where so many processors are ready.
fn note_place(counts: &mut Vec<u8>, made: PackedEntry, ready: u8) -> Result<(), AllocError>
    ensures { OnOk result (counts.new.items ≡ counts.old.items
        ++ with_place (is_step (Some made.event) && nat_lt 0 ready) ready []) }
{
    if is_step(made) && ready > 0 {
        counts.push(ready)?;
    }
    Ok(())
}

// That a run didn't stop at an event that was refused.
fn no_refusal(stop: Stop) -> Result<(), AllocError>
    ensures { OnOk result ((refusal : Refusal) → stop ≢ Stop.Refused refusal) }
{
    match stop {
        Stop::Refused(_) => Err(AllocError),
        Stop::Off | Stop::End | Stop::Stuck => Ok(()),
    }
}

/// Makes the run of at most `n` events that a policy chooses, with a new cursor, and writes down how
/// many processors are ready at each of its places, behind what is there.
///
/// # Errors
/// Memory was refused, also at an event `Done`.
pub fn offers<T: Tlb, D: Console>(
    core: &mut Core<T, D>,
    policy: &Policy,
    n: u64,
    counts: &mut Vec<u8>,
) -> Result<(), AllocError>
    ensures { OnOk result (counts.new.items ≡ counts.old.items
        ++ offers n policy.now (slice_get policy.now.keys) (cursor_at policy.now core.old.state) core.old.state) }
{
    let mut cursor = Cursor::new(policy, core);
    let mut entry = [PackedEntry::blank(); 1];
    for _ in 0..n {
        let ready = count_ready(core);
        let key = policy.key(cursor.typed());
        match turn(core, policy, &mut cursor, key, &mut entry) {
            Ok(_) => note_place(counts, entry[0], ready)?,
            Err(stop) => return no_refusal(stop),
        }
    }
    Ok(())
}
