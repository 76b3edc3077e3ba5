//! Going on to a later event.

ghost use Rattle.std.specs.Prelude.{◌≡◌, ◌+◌, ◌<◌, ◌≤◌, ◌^◌, ◌++◌, [], true, length, slice_get, Some, string_bytes, string_capacity, string_len, IfOk, IfSome, OnErr};
ghost use Rattle.m161_machine.specs.Refusal.{name_of_refusal};
ghost use Rattle.m161_text.specs.Lines.{with_line_end};
ghost use Rattle.m161_debug.specs.Obeys.{conflict_text, refused_text, used_by};
ghost use Rattle.m161_debug.specs.Stops.{off_stop, Stops};
ghost use Rattle.s161_debug.specs.Lines.{ahead_text, is_ahead, GoesAhead};

use crate::debugged::Debugged;
use crate::left::Left;
use m161_debug::StopReason;
use m161_machine::{Conflict, Event, Outcome, Refusal};
use m161_text::{put, put_decimal};
use std::alloc::{AllocError, Global};

/// The longest line that going on prints, with its end.
const LONGEST: usize = 93;

// The event of a place.
fn event_at(events: &[Event], k: usize) -> Event
    requires { k < length events.now }
    ensures { slice_get events.now k ≡ Some result }
{
    events[k]
}

// The stop after event `k` with this outcome, if it switched the machine off.
fn off_stop(k: usize, outcome: Outcome) -> Option<StopReason>
    ensures value { result ≡ off_stop k outcome }
    ensures used { IfSome result (λ stop. used_by stop ≡ k + 1) }
{
    match outcome {
        Outcome::PoweredOff => Some(StopReason::Off(k)),
        Outcome::Conflict { .. } => Some(StopReason::Conflict(k)),
        Outcome::Ran | Outcome::Trapped { .. } | Outcome::Idle | Outcome::Taken => None,
    }
}

// Makes events in order, whatever the breakpoints, up to the first that is refused or switches the
// machine off.
fn make_all(session: &mut Debugged, events: &[Event]) -> StopReason
    ensures stop { Stops [] session.old.machine events.now result session.new.machine }
    ensures breakpoints { session.new.breakpoints ≡ session.old.breakpoints }
    ensures style { session.new.style ≡ session.old.style }
    ensures within { used_by result ≤ length events.now }
{
    session.machine().replay();
    for k in 0..events.len() {
        let event = event_at(events, k);
        match session.step(event) {
            Err(refusal) => return StopReason::Refused(k, refusal),
            Ok(outcome) => {
                if let Some(stop) = off_stop(k, outcome) {
                    return stop;
                }
            }
        }
    }
    StopReason::End(events.len())
}

// How many events a stop uses up.
fn events_used(stop: StopReason) -> usize
    requires { used_by stop < 2 ^ 64 }
    ensures { result ≡ used_by stop }
{
    match stop {
        StopReason::Break(k) => k,
        StopReason::Refused(k, _) => k + 1,
        StopReason::Off(k) => k + 1,
        StopReason::Conflict(k) => k + 1,
        StopReason::Until(k) => k + 1,
        StopReason::End(n) => n,
    }
}

// A refusal's name: 12 bytes at most.
fn name(refusal: Refusal) -> &'static str
    ensures value { result.now ≡ name_of_refusal refusal }
    ensures short { length result.now ≤ 12 }
{
    refusal.name()
}

// Appends a refusal's number and name: 33 bytes at most.
fn put_refusal(text: &mut String, refusal: Refusal)
    requires { string_len text.old + 33 ≤ string_capacity text.old }
    ensures bytes { string_bytes text.new ≡ string_bytes text.old ++ refused_text refusal }
    ensures len { string_len text.new ≤ string_len text.old + 33 }
    ensures capacity { string_capacity text.old ≤ string_capacity text.new }
{
    put_decimal(text, u64::from(refusal.number()));
    put(text, " ");
    put(text, name(refusal));
}

// Appends what the machine tells of a conflict: 63 bytes at most.
fn put_conflict(text: &mut String, told: Option<Conflict>)
    requires { string_len text.old + 63 ≤ string_capacity text.old }
    ensures bytes { string_bytes text.new ≡ string_bytes text.old ++ conflict_text told }
    ensures len { string_len text.new ≤ string_len text.old + 63 }
    ensures capacity { string_capacity text.old ≤ string_capacity text.new }
{
    if let Some(conflict) = told {
        put(text, " ");
        put_decimal(text, u64::from(conflict.processor));
        put(text, " ");
        put_decimal(text, u64::from(conflict.row));
        put(text, " ");
        put_decimal(text, u64::from(conflict.other));
    }
}

// Appends what going on to event `k` prints: 92 bytes at most.
fn put_ahead(text: &mut String, k: u64, stop: StopReason, told: Option<Conflict>)
    requires { string_len text.old + 92 ≤ string_capacity text.old }
    ensures bytes { string_bytes text.new ≡ string_bytes text.old ++ ahead_text k stop told }
    ensures len { string_len text.new ≤ string_len text.old + 92 }
    ensures capacity { string_capacity text.old ≤ string_capacity text.new }
{
    match stop {
        StopReason::Break(i) => {
            put(text, "break ");
            put_decimal(text, i as u64);
        }
        StopReason::Refused(i, refusal) => {
            put(text, "refused ");
            put_decimal(text, i as u64);
            put(text, " ");
            put_refusal(text, refusal);
        }
        StopReason::Off(i) => {
            put(text, "off ");
            put_decimal(text, i as u64);
        }
        StopReason::Conflict(i) => {
            put(text, "conflict ");
            put_decimal(text, i as u64);
            put_conflict(text, told);
        }
        StopReason::Until(i) => {
            put(text, "until ");
            put_decimal(text, i as u64);
        }
        StopReason::End(_) => {
            put(text, "at ");
            put_decimal(text, k);
        }
    }
}

// Appends the line of that: 93 bytes at most.
fn put_ahead_line(text: &mut String, k: u64, stop: StopReason, told: Option<Conflict>)
    requires { string_len text.old + 93 ≤ string_capacity text.old }
    ensures { string_bytes text.new
        ≡ string_bytes text.old ++ with_line_end (ahead_text k stop told) }
{
    put_ahead(text, k, stop, told);
    put(text, "\n");
}

/// Whether the state before event `k` lies ahead, among the events that are left or behind them.
pub(crate) fn is_ahead(session: &Debugged, k: u64, left: &Left) -> bool
    ensures { result ≡ is_ahead k session.now.machine.state.made left.now }
{
    let made = session.machine().made();
    made < k && k - made <= left.as_slice().len() as u64
}

/// Goes on to the state before event `k`, whatever the breakpoints. Returns what that prints, for which
/// memory is taken first, since events can't be undone.
///
/// # Errors
/// Memory was refused. Nothing is changed then.
pub(crate) fn go_ahead(
    alloc: Global,
    session: &mut Debugged,
    k: u64,
    left: &mut Left,
) -> Result<String, AllocError>
    requires { is_ahead k session.old.machine.state.made left.old ≡ true }
    ensures ok { IfOk result (λ text. GoesAhead k session.old left.old session.new left.new
        (string_bytes text)) }
    ensures err { OnErr result ((session.new ≡ session.old) × (left.new ≡ left.old)) }
{
    let mut text = String::new(alloc);
    text.reserve(LONGEST)?;
    let number = (k - session.machine().made()) as usize;
    let stop = make_all(session, &left.as_slice()[..number]);
    put_ahead_line(&mut text, k, stop, session.machine().conflict());
    left.use_up(events_used(stop));
    Ok(text)
}
