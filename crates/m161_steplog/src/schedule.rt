//! The text of a schedule.

ghost use Rattle.std.specs.Prelude.{◌≡◌, ℕ, ◌+◌, ◌<◌, ◌≤◌, List, length, decimal, IfOk, OnOk, IsErrOf};
ghost use Rattle.m161_machine.specs.declared.event.Event.{Event};
ghost use Rattle.m161_machine.specs.declared.event.Event.TheVariants as events;
ghost use Rattle.m161_steplog.specs.declared.fault.TextFault.TheVariants as faults;
ghost use Rattle.m161_text.specs.Lines.{lines_of, FirstBad};
ghost use Rattle.m161_steplog.specs.Read.{IsReadAs};
ghost use Rattle.m161_text.specs.Parts.{◌␣◌, Reads, IsWord, Lacks};
ghost use Rattle.m161_text.specs.helpers.Parts.{ReadsBoth};
ghost use Rattle.m161_steplog.specs.Text.{event_text, IsEvent};
ghost use Rattle.m161_steplog.specs.Schedule.{IsCount, IsSchedule, AreScheduleLines};
ghost use Rattle.m161_steplog.specs.helpers.Schedule.{item_events, AddsEvents, ReadsLine};

use crate::fault::TextFault;
use m161_machine::{Event, Events};
use m161_text::{cut_at_space, next_line, parse_byte, parse_decimal};
use std::alloc::Global;

/// The most events of a schedule.
const MOST_EVENTS: usize = 16_777_216;

/// What a line of a schedule asks for.
#[derive(Clone, Copy)]
pub(crate) enum Item {
    /// No event: the line is blank or a comment.
    Nothing,
    /// This event, this many times.
    Repeated(Event, u32),
}

// The event of a text without a space.
fn parse_done(text: &str) -> Option<Event>
    requires { Lacks 32 text.now }
    ensures { Reads IsEvent event_text text.now result }
{
    match text {
        "o" => Some(Event::Done),
        _ => None,
    }
}

// The event of a text whose parts are before and after its first space.
fn parse_event(kind: &str, rest: &str) -> Option<Event>
    requires { Lacks 32 kind.now }
    ensures { Reads IsEvent event_text (kind.now ␣ rest.now) result }
{
    match kind {
        "s" => Some(Event::Step(parse_decimal(rest)?)),
        "k" => Some(Event::Key(parse_byte(rest)?)),
        _ => None,
    }
}

// How many Steps a line asks for.
fn parse_count(text: &str) -> Option<u32>
    ensures { Reads IsCount decimal text.now result }
{
    let count = parse_decimal(text)?;
    if count == 0 || count > 1_000_000 {
        return None;
    }
    Some(count)
}

// A processor, and how many Steps of it.
fn parse_times(text: &str) -> Option<(u32, u32)>
    ensures { ReadsBoth IsWord IsCount decimal decimal text.now result }
{
    let (p, count) = cut_at_space(text)?;
    let p = parse_decimal(p)?;
    let count = parse_count(count)?;
    Some((p, count))
}

// The same, after the event's name.
fn parse_steps(kind: &str, rest: &str) -> Option<(u32, u32)>
    requires { Lacks 32 kind.now }
    ensures { ReadsBoth IsWord IsCount (λ p. event_text (events.Step p)) decimal
        (kind.now ␣ rest.now) result }
{
    match kind {
        "s" => parse_times(rest),
        _ => None,
    }
}

// What a line asks for.
fn parse_item(line: &str) -> Option<Item>
    ensures { ReadsLine line.now result }
{
    if line.is_empty() {
        return Some(Item::Nothing);
    }
    if line.starts_with('#') {
        return Some(Item::Nothing);
    }
    let Some((kind, rest)) = cut_at_space(line) else {
        return Some(Item::Repeated(parse_done(line)?, 1));
    };
    match parse_event(kind, rest) {
        Some(event) => Some(Item::Repeated(event, 1)),
        None => match parse_steps(kind, rest) {
            Some((p, count)) => Some(Item::Repeated(Event::Step(p), count)),
            None => None,
        },
    }
}

// Appends the events of line `number`, unless they exceed the limit.
fn push_item(events: &mut Events, item: Item, number: u64) -> Result<(), TextFault>
    requires { length events.old ≤ 16_777_216 }
    ensures ok { OnOk result (AddsEvents events.old (item_events item) events.new) }
    ensures full { (n : ℕ) → IsErrOf result (faults.Line n)
        → (n ≡ number) × (16_777_216 < length events.old + length (item_events item)) }
{
    match item {
        Item::Nothing => Ok(()),
        Item::Repeated(event, count) => {
            if events.len() + count as usize > MOST_EVENTS {
                return Err(TextFault::Line(number));
            }
            events.push_times(event, count)?;
            Ok(())
        }
    }
}

/// The events of a schedule's text.
///
/// # Errors
/// The first bad line; or memory was refused.
pub fn read_schedule(alloc: Global, text: &str) -> Result<Events, TextFault>
    // The result is the schedule of this text.
    ensures found { IfOk result (λ events. IsSchedule (lines_of text.now) events) }
    // If the text is a schedule, it is read, unless memory is refused.
    ensures only { (es : List Event) → IsSchedule (lines_of text.now) es → IsReadAs es result }
    ensures line { (n : ℕ) → IsErrOf result (faults.Line n) → FirstBad AreScheduleLines text.now n }
{
    let mut events = Events::new(alloc);
    let mut number = 0u64;
    let mut rest = text;
    while let Some((line, more)) = next_line(rest) {
        number += 1;
        let Some(item) = parse_item(line) else {
            return Err(TextFault::Line(number));
        };
        push_item(&mut events, item, number)?;
        rest = more;
    }
    Ok(events)
}
