//! Driven runs.

ghost use Rattle.std.specs.Prelude.{◌≡◌, ◌-◌, ◌<◌, ◌≤◌, ◌^◌, ℕ, List, IfOk, IfSome, OnErr, length};
ghost use Rattle.m161_machine.specs.declared.event.Event.TheVariants as events;
ghost use Rattle.m161_machine.specs.declared.event.Entry.{Entry};
ghost use Rattle.m161_drive.specs.Drive.{BeginsRun, Drives, IsNoted, Turn};
ghost use Rattle.m161_drive.specs.helpers.Drive.{MakesChosen};

use crate::cursor::Cursor;
use crate::notes::Notes;
use crate::policy::Policy;
use m161_bus::Console;
use m161_machine::{Core, Event, PackedEntry, Refusal};
use m161_tlb::Tlb;
use std::alloc::AllocError;

/// Why a driven run stops.
#[derive(Clone, Copy, Debug, PartialEq, Eq)]
pub enum Stop {
    /// The machine is off.
    Off,
    /// As many events were made as were asked for.
    End,
    /// The policy chooses no event.
    Stuck,
    /// The chosen event is refused: `Worn` or `NoMemory`.
    Refused(Refusal),
}

/// A driven run.
#[derive(Clone, Copy, Debug, PartialEq, Eq)]
pub struct Driven {
    /// How many events were made.
    pub made: u64,
    /// Why no more were.
    pub stop: Stop,
}

/// So many events are made at once, at most: their entries are in the processor's nearest cache.
pub(crate) const AT_ONCE: usize = 64;

// Makes the chosen input of a device, with its entry in the first place.
fn make_input<T: Tlb, D: Console>(
    core: &mut Core<T, D>,
    cursor: &mut Cursor,
    input: Event,
    entries: &mut [PackedEntry],
) -> Result<usize, Stop>
    requires { 1 ≤ length entries.old }
    ensures made { MakesChosen input cursor.old core.old.state entries.new result cursor.new core.new.state }
    ensures length { length entries.new ≡ length entries.old }
{
    match core.packed_event(input) {
        Ok(made) => {
            entries[0] = made;
            cursor.took(input, core);
            Ok(1)
        }
        Err(refusal) => Err(Stop::Refused(refusal)),
    }
}

// The processor of a Step's entry.
#[inline(always)]
fn processor_of(made: PackedEntry) -> u32
    requires { (p : ℕ) × (made.event ≡ events.Step p) }
    ensures { made.event ≡ events.Step result }
{
    match made.entry().event {
        Event::Step(p) => p,
        Event::Key(_) | Event::Done => 0,
    }
}

/// Makes the next events of a driven run, and writes their entries into the first places: the event
/// that the policy chooses, if the next key is this one; and behind a Step those that are chosen then,
/// as long as each is plain and no key is typed and no byte sent. Returns how many. Which processors
/// rest stays as it is then, so they are chosen first and made in one call.
///
/// # Errors
/// Why there is none. Nothing is changed then but the cursor.
#[inline(always)]
pub fn turn<T: Tlb, D: Console>(
    core: &mut Core<T, D>,
    policy: &Policy,
    cursor: &mut Cursor,
    key: Option<u8>,
    entries: &mut [PackedEntry],
) -> Result<usize, Stop>
    requires some { 1 ≤ length entries.old }
    requires key { IfSome key (λ _. cursor.old.typed < 2 ^ 64 - 1) }
    ensures turn { Turn policy.now key cursor.old core.old.state entries.new result cursor.new core.new.state }
    ensures length { length entries.new ≡ length entries.old }
{
    if core.is_off() {
        return Err(Stop::Off);
    }
    let Some(event) = cursor.choose_with(policy, core, key) else {
        return Err(Stop::Stuck);
    };
    let Event::Step(p) = event else {
        return make_input(core, cursor, event, entries);
    };
    if let Some(refusal) = core.refusal(p) {
        return Err(Stop::Refused(refusal));
    }
    let planned = cursor.plan(policy, core, key, p, entries);
    let (places, _) = entries.split_at_mut(planned);
    let made = core.stretch(places);
    let last = processor_of(places[made - 1]);
    cursor.took_steps(made - 1, last, core);
    Ok(made)
}

/// Makes the events that a policy chooses, with a new cursor: until the machine is off, `n` are made,
/// none is chosen, or the chosen one is refused, which is looked at in this order before each. Their
/// entries are noted.
///
/// # Errors
/// Memory was refused for the notes; the events that were made are a beginning of the run.
pub fn drive<T: Tlb, D: Console, N: Notes>(
    core: &mut Core<T, D>,
    policy: &Policy,
    n: u64,
    notes: &mut N,
) -> Result<Driven, AllocError>
    ensures run { IfOk result (λ driven. (entries : List Entry)
        × Drives policy.now n core.old.state driven entries core.new.state
        × IsNoted N.has notes.old entries notes.new) }
    ensures err { OnErr result (BeginsRun policy.now n core.old.state core.new.state) }
{
    let mut cursor = Cursor::new(policy, core);
    let mut entries = [PackedEntry::blank(); AT_ONCE];
    let mut made = 0;
    while made < n {
        let most = (n - made).min(AT_ONCE as u64) as usize;
        let key = policy.key(cursor.typed());
        match turn(core, policy, &mut cursor, key, &mut entries[..most]) {
            Ok(more) => {
                notes.add(&entries[..more])?;
                made += more as u64;
            }
            Err(stop) => return Ok(Driven { made, stop }),
        }
    }
    let stop = if core.is_off() { Stop::Off } else { Stop::End };
    Ok(Driven { made, stop })
}
