//! Text appended in room reserved before, so that it can't fail.

ghost use Rattle.std.specs.Prelude.{◌≡◌, ◌+◌, ◌≤◌, ◌++◌, length, string_bytes, string_capacity, string_len};
ghost use Rattle.m161_machine.specs.Refusal.{name_of_refusal};
ghost use Rattle.m161_text.specs.Lines.{with_line_end};
ghost use Rattle.m161_steplog.specs.Text.{event_text, outcome_text};
ghost use Rattle.m161_debug.specs.Obeys.{conflict_text, refused_text, stop_text};

use crate::stop::StopReason;
use m161_machine::{Conflict, Event, Outcome, Refusal};
use m161_text::{put, put_decimal, put_hex};

/// Appends an event, as a log shows it: 22 bytes at most.
pub(crate) fn put_event(text: &mut String, event: Event)
    requires { string_len text.old + 22 ≤ string_capacity text.old }
    ensures bytes { string_bytes text.new ≡ string_bytes text.old ++ event_text event }
    ensures len { string_len text.new ≤ string_len text.old + 22 }
    ensures capacity { string_capacity text.old ≤ string_capacity text.new }
{
    match event {
        Event::Step(p) => {
            put(text, "s ");
            put_decimal(text, u64::from(p));
        }
        Event::Key(byte) => {
            put(text, "k ");
            put_hex(text, 2, u32::from(byte));
        }
        Event::Done => put(text, "o"),
    }
}

/// Appends an outcome, as a log shows it: 50 bytes at most.
pub(crate) fn put_outcome(text: &mut String, outcome: Outcome)
    requires { string_len text.old + 50 ≤ string_capacity text.old }
    ensures bytes { string_bytes text.new ≡ string_bytes text.old ++ outcome_text outcome }
    ensures len { string_len text.new ≤ string_len text.old + 50 }
    ensures capacity { string_capacity text.old ≤ string_capacity text.new }
{
    match outcome {
        Outcome::Ran => put(text, "ran"),
        Outcome::Trapped { code, vector } => {
            put(text, "trap ");
            put_decimal(text, u64::from(code.number()));
            put(text, " ");
            put_hex(text, 8, vector);
        }
        Outcome::Idle => put(text, "idle"),
        Outcome::PoweredOff => put(text, "off"),
        Outcome::Conflict { row, other } => {
            put(text, "conflict ");
            put_decimal(text, u64::from(row));
            put(text, " ");
            put_decimal(text, u64::from(other));
        }
        Outcome::Taken => put(text, "taken"),
    }
}

/// Appends a refusal's number and name: 33 bytes at most.
pub(crate) fn put_refusal(text: &mut String, refusal: Refusal)
    requires { string_len text.old + 33 ≤ string_capacity text.old }
    ensures bytes { string_bytes text.new ≡ string_bytes text.old ++ refused_text refusal }
    ensures len { string_len text.new ≤ string_len text.old + 33 }
    ensures capacity { string_capacity text.old ≤ string_capacity text.new }
{
    put_decimal(text, u64::from(refusal.number()));
    put(text, " ");
    put(text, name(refusal));
}

// A refusal's name: 12 bytes at most.
fn name(refusal: Refusal) -> &'static str
    ensures value { result.now ≡ name_of_refusal refusal }
    ensures short { length result.now ≤ 12 }
{
    refusal.name()
}

// Appends what the machine tells of a conflict: 63 bytes at most.
fn put_conflict(text: &mut String, told: Option<Conflict>)
    requires { string_len text.old + 63 ≤ string_capacity text.old }
    ensures bytes { string_bytes text.new ≡ string_bytes text.old ++ conflict_text told }
    ensures len { string_len text.new ≤ string_len text.old + 63 }
    ensures capacity { string_capacity text.old ≤ string_capacity text.new }
{
    if let Some(conflict) = told {
        put(text, " ");
        put_decimal(text, u64::from(conflict.processor));
        put(text, " ");
        put_decimal(text, u64::from(conflict.row));
        put(text, " ");
        put_decimal(text, u64::from(conflict.other));
    }
}

// Appends a stop, with the conflict that the machine tells then: 92 bytes at most.
fn put_stop(text: &mut String, stop: StopReason, told: Option<Conflict>)
    requires { string_len text.old + 92 ≤ string_capacity text.old }
    ensures bytes { string_bytes text.new ≡ string_bytes text.old ++ stop_text stop told }
    ensures len { string_len text.new ≤ string_len text.old + 92 }
    ensures capacity { string_capacity text.old ≤ string_capacity text.new }
{
    match stop {
        StopReason::Break(k) => {
            put(text, "break ");
            put_decimal(text, k as u64);
        }
        StopReason::Refused(k, refusal) => {
            put(text, "refused ");
            put_decimal(text, k as u64);
            put(text, " ");
            put_refusal(text, refusal);
        }
        StopReason::Off(k) => {
            put(text, "off ");
            put_decimal(text, k as u64);
        }
        StopReason::Conflict(k) => {
            put(text, "conflict ");
            put_decimal(text, k as u64);
            put_conflict(text, told);
        }
        StopReason::Until(k) => {
            put(text, "until ");
            put_decimal(text, k as u64);
        }
        StopReason::End(n) => {
            put(text, "end ");
            put_decimal(text, n as u64);
        }
    }
}

/// Appends the line of a stop, with the conflict that the machine tells then: 93 bytes at most.
pub(crate) fn put_stop_line(text: &mut String, stop: StopReason, told: Option<Conflict>)
    requires { string_len text.old + 93 ≤ string_capacity text.old }
    ensures { string_bytes text.new
        ≡ string_bytes text.old ++ with_line_end (stop_text stop told) }
{
    put_stop(text, stop, told);
    put(text, "\n");
}
