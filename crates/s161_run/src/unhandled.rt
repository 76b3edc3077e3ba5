//! The first trap of a run for which its image has nothing. Only where there was a trap to a vector at
//! which the image has no byte in its file, the run is made again, on a machine of its own, one event
//! at a time, up to that trap.

ghost use Rattle.std.specs.Prelude.{◌≡◌, ℕ, IfOk, List, None, length, replicate, slice_get, take};
ghost use Rattle.m161_drive.specs.Choice.{cursor_at};
ghost use Rattle.m161_drive.specs.Drive.{Chooses};
ghost use Rattle.m161_drive.specs.declared.cursor.Cursor.{Cursor as CursorValue};
ghost use Rattle.m161_elf.specs.Span.{spans};
ghost use Rattle.m161_machine.specs.History.{IsBootState, events_of};
ghost use Rattle.m161_machine.specs.State.{State};
ghost use Rattle.m161_machine.specs.declared.event.Entry.{Entry};
ghost use Rattle.m161_order.specs.Order.{order_fault};
ghost use Rattle.m161_traps.specs.Unhandled.{first_unhandled};
ghost use Rattle.m161_traps.specs.Watching.{IsWatched};
ghost use Rattle.s161_base.specs.Faults.{BootsIn};
ghost use Rattle.s161_run.specs.Behind.{GoesBehind};
ghost use Rattle.s161_run.specs.Driven.{rules_of};
ghost use Rattle.s161_run.specs.Runs.{MakesEvents};
ghost use Rattle.s161_run.specs.declared.events.RunStop.{RunStop};
ghost use Rattle.s161_run.specs.helpers.Unhandled.{Looks};

use m161::Core;
use m161_drive::{Cursor, Policy};
use m161_elf::loads;
use m161_machine::{Conf, Event, Events};
use m161_traps::{Span, Trap, Watch, look};
use s161_command::Drive;
use std::alloc::{AllocError, Global};

// The spans of the bytes that a file without a fault has for an image.
fn spans_of(alloc: Global, file: &[u8], ram: u32) -> Result<Vec<Span>, AllocError>
    ensures { IfOk result (λ listed. listed.items ≡ spans file.now) }
{
    match loads(alloc, file, ram) {
        Ok(listed) => Ok(listed),
        Err(_fault) => Err(AllocError),
    }
}

// The state at boot of a file without a fault, once more.
// For LLVM: a stack frame of its own.
#[inline(never)]
fn boot_again(alloc: Global, file: &[u8], conf: Conf) -> Result<Core, AllocError>
    ensures { IfOk result (λ core. IsBootState file.now conf core.state) }
{
    match Core::boot(alloc, file, conf) {
        Ok(core) => Ok(core),
        Err(_fault) => Err(AllocError),
    }
}

// Makes an event so many times, and looks at each trap.
fn look_alike(
    core: &mut Core,
    event: Event,
    times: u64,
    spans: &[Span],
) -> Result<Option<Trap>, AllocError>
    ensures { IfOk result (Looks spans.now core.old.state (replicate times event) core.new.state) }
{
    for _time in 0..times {
        if let Some(trap) = look(core, event, spans)? {
            return Ok(Some(trap));
        }
    }
    Ok(None)
}

// Makes the first n of these events, and looks at each trap.
fn look_listed(
    core: &mut Core,
    events: &Events,
    n: u64,
    spans: &[Span],
) -> Result<Option<Trap>, AllocError>
    ensures { IfOk result (Looks spans.now core.old.state (take n events.now) core.new.state) }
{
    let mut made = 0;
    let mut left = events.runs();
    while made < n {
        let Some((event, times)) = left.next() else {
            return Ok(None);
        };
        let some = (n - made).min(u64::from(times));
        if let Some(trap) = look_alike(core, event, some, spans)? {
            return Ok(Some(trap));
        }
        made += some;
    }
    Ok(None)
}

// Makes the n events that the options' policy chooses with a new cursor, and looks at each trap.
fn look_chosen(
    core: &mut Core,
    options: Drive<'_>,
    keys: &[u8],
    n: u64,
    spans: &[Span],
) -> Result<Option<Trap>, AllocError>
    requires { order_fault options.order ≡ None }
    ensures { IfOk result (λ found. (entries : List Entry) (d : CursorValue) (t : State)
        → Chooses (rules_of options.entry keys.now) (slice_get keys.now)
        (cursor_at (rules_of options.entry keys.now) core.old.state) core.old.state entries d t
        → length entries ≡ n
        → found ≡ first_unhandled spans.now core.old.state (events_of entries)) }
{
    let Ok(policy) = Policy::new(options.order, options.transfer, options.gap, keys) else {
        unreachable!()
    };
    let mut cursor = Cursor::new(&policy, core);
    for _k in 0..n {
        let Some(event) = cursor.choose(&policy, core) else {
            return Ok(None);
        };
        if let Some(trap) = look(core, event, spans)? {
            return Ok(Some(trap));
        }
        cursor.took(event, core);
    }
    Ok(None)
}

/// The first trap for which the image has nothing, of a run from a boot of this file that made the first
/// of these events and ended in this state, with what was watched of its entries.
///
/// # Errors
/// Memory was refused.
// For LLVM: a stack frame of its own.
#[inline(never)]
pub(crate) fn unhandled_listed(
    alloc: Global,
    file: &[u8],
    core: &Core,
    events: &Events,
    watch: &Watch,
) -> Result<Option<Trap>, AllocError>
    ensures { IfOk result (λ found. (booted : State) (stop : RunStop) (entries : List Entry)
        → BootsIn file.now core.now.state.conf booted
        → MakesEvents booted events.now stop entries core.now.state
        → IsWatched watch.now entries
        → found ≡ first_unhandled (spans file.now) booted (events_of entries)) }
{
    let spans = spans_of(alloc, file, core.conf().ram)?;
    if !watch.leaves_file(&spans) {
        return Ok(None);
    }
    let mut again = boot_again(alloc, file, core.conf())?;
    let found = look_listed(&mut again, events, core.made(), &spans)?;
    Ok(found)
}

/// The same of a run that made first events, and behind them those that the options' policy chose.
///
/// # Errors
/// Memory was refused.
// For LLVM: a stack frame of its own.
#[inline(never)]
pub(crate) fn unhandled_chosen(
    alloc: Global,
    file: &[u8],
    core: &Core,
    first: &Events,
    options: Drive<'_>,
    keys: &[u8],
    watch: &Watch,
) -> Result<Option<Trap>, AllocError>
    requires { order_fault options.order ≡ None }
    ensures { IfOk result (λ found. (booted : State) (stop : RunStop) (entries : List Entry)
        → BootsIn file.now core.now.state.conf booted
        → GoesBehind (rules_of options.entry keys.now) options.entry.events booted first.now stop
        entries core.now.state
        → IsWatched watch.now entries
        → found ≡ first_unhandled (spans file.now) booted (events_of entries)) }
{
    let spans = spans_of(alloc, file, core.conf().ram)?;
    if !watch.leaves_file(&spans) {
        return Ok(None);
    }
    let mut again = boot_again(alloc, file, core.conf())?;
    let made = core.made();
    if let Some(trap) = look_listed(&mut again, first, made, &spans)? {
        return Ok(Some(trap));
    }
    let behind = made.saturating_sub(first.len() as u64);
    let found = look_chosen(&mut again, options, keys, behind, &spans)?;
    Ok(found)
}
