//! What stops at one event.

ghost use Rattle.std.specs.Prelude.{◌≡◌, ◌<◌, ◌^◌};
ghost use Rattle.m161_moves.specs.Stopping.{break_at, break_of, first_touched, is_resumed, is_step, is_stepping, is_touched, kind_at, lies_in, lies_in_any, looks_at, mark_of, motion_of, step_of, touch_at, touch_of, addresses_of};

use crate::reason::Reason;
use crate::run::{Access, StepSeen};
use m161_gdb::{Kind, Motion, Stops, Watch};

// Where kseg0 and kseg1 begin, whose addresses have no row.
const KSEG0: u64 = 0x8000_0000;

const KSEG1: u64 = 0xa000_0000;

// What a processor does.
fn motion_of(chosen: &[Option<Motion>], processor: u32) -> Option<Motion>
    ensures { result ≡ motion_of chosen.now processor }
{
    match chosen.get(processor as usize) {
        Some(motion) => *motion,
        None => None,
    }
}

/// Whether a motion is a Step.
pub(crate) fn makes_step(motion: Option<Motion>) -> bool
    ensures { result ≡ is_step motion }
{
    match motion {
        Some(Motion::Step) => true,
        Some(Motion::Continue) => false,
        None => false,
    }
}

// Whether it makes a Step.
fn is_stepping(chosen: &[Option<Motion>], processor: u32) -> bool
    ensures { result ≡ is_stepping chosen.now processor }
{
    makes_step(motion_of(chosen, processor))
}

/// Whether it does anything.
pub(crate) fn is_resumed(chosen: &[Option<Motion>], processor: u32) -> bool
    ensures { result ≡ is_resumed chosen.now processor }
{
    motion_of(chosen, processor).is_some()
}

/// Whether the mark is at a place.
pub(crate) fn mark_of(stops: &Stops, place: usize) -> Option<Reason>
    ensures { result ≡ mark_of stops.now place }
{
    match stops.mark() {
        Some(mark) => {
            if mark == place {
                Some(Reason::Mark)
            } else {
                None
            }
        }
        None => None,
    }
}

/// Whether an event is a Step of a processor that makes one.
pub(crate) fn step_of(chosen: &[Option<Motion>], step: Option<StepSeen>) -> Option<Reason>
    ensures { result ≡ step_of chosen.now step }
{
    let step = step?;
    if is_stepping(chosen, step.processor) {
        Some(Reason::Step(step.processor))
    } else {
        None
    }
}

// The kind of the breakpoint at an address.
fn kind_at(stops: &Stops, address: u32) -> Option<Kind>
    ensures { result ≡ kind_at stops.now.breakpoints address }
{
    if stops.has_breakpoint(Kind::Software, address) {
        return Some(Kind::Software);
    }
    if stops.has_breakpoint(Kind::Hardware, address) {
        return Some(Kind::Hardware);
    }
    None
}

// What a fetch stops at.
fn break_at(stops: &Stops, processor: u32, fetched: Option<u32>) -> Option<Reason>
    ensures { result ≡ break_at stops.now.breakpoints processor fetched }
{
    let address = fetched?;
    let kind = kind_at(stops, address)?;
    Some(Reason::Break {
        processor,
        address,
        kind,
    })
}

/// Whether an event fetches a word with a breakpoint.
pub(crate) fn break_of(
    stops: &Stops,
    chosen: &[Option<Motion>],
    step: Option<StepSeen>,
) -> Option<Reason>
    ensures { result ≡ break_of stops.now chosen.now step }
{
    let step = step?;
    if is_resumed(chosen, step.processor) {
        break_at(stops, step.processor, step.fetched)
    } else {
        None
    }
}

// Whether a watch of a kind looks at stores, or else at loads.
fn looks_at(kind: Kind, is_store: bool) -> bool
    ensures { result ≡ looks_at kind is_store }
{
    match kind {
        Kind::Software => false,
        Kind::Hardware => false,
        Kind::Write => is_store,
        Kind::Read => !is_store,
        Kind::Access => true,
    }
}

// Whether the word at an address is among those that a watch's bytes lie in.
fn lies_in(watch: Watch, word: u64) -> bool
    requires { word < 2 ^ 33 }
    ensures { result ≡ lies_in watch word }
{
    let first = u64::from(watch.address);
    first < word + 4 && word < first + u64::from(watch.size)
}

// Whether an access touches a watch.
fn is_touched(access: Access, watch: Watch) -> bool
    ensures { result ≡ is_touched access watch }
{
    if !looks_at(watch.kind, access.is_store) {
        return false;
    }
    let word = u64::from(access.word);
    if lies_in(watch, KSEG0 + word) || lies_in(watch, KSEG1 + word) {
        return true;
    }
    match access.mapped {
        Some(mapped) => lies_in(watch, u64::from(mapped)),
        None => false,
    }
}

// The first watch that an access touches.
fn first_touched(watches: &[Watch], access: Access) -> Option<Watch>
    ensures { result ≡ first_touched watches.now access }
{
    let mut rest = watches;
    while let [watch, behind @ ..] = rest {
        if is_touched(access, *watch) {
            return Some(*watch);
        }
        rest = behind;
    }
    None
}

// What an access stops at.
fn touch_at(stops: &Stops, processor: u32, access: Option<Access>) -> Option<Reason>
    ensures { result ≡ touch_at stops.now.watches processor access }
{
    let access = access?;
    let watch = first_touched(stops.watches(), access)?;
    Some(Reason::Touch { processor, watch })
}

/// Whether an event touches a watch.
pub(crate) fn touch_of(
    stops: &Stops,
    chosen: &[Option<Motion>],
    step: Option<StepSeen>,
) -> Option<Reason>
    ensures { result ≡ touch_of stops.now chosen.now step }
{
    let step = step?;
    if is_resumed(chosen, step.processor) {
        touch_at(stops, step.processor, step.access)
    } else {
        None
    }
}
