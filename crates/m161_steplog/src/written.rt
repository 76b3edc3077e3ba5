//! The text that a schedule is written as.

ghost use Rattle.std.specs.Prelude.{◌≡◌, ◌++◌, ◌≤◌, length, IfOk, OnOk, string_bytes};
ghost use Rattle.std.specs.List.{AllByRecursion};
ghost use Rattle.m161_text.specs.Lines.{lines_of};
ghost use Rattle.m161_steplog.specs.Text.{IsEvent};
ghost use Rattle.m161_steplog.specs.Schedule.{IsSchedule};
ghost use Rattle.m161_steplog.specs.Written.{schedule_text};
ghost use Rattle.m161_steplog.specs.helpers.Written.{item_text, IsItem, Joins};

use crate::schedule::Item;
use crate::shown::ShownEvent;
use m161_machine::Event;
use std::alloc::{AllocError, Global};
use std::fmt::Write;

/// The most Steps of one line.
const MOST_STEPS: u32 = 1_000_000;

// The item with an event more; `None` if the event begins a line of its own.
fn joined(item: Item, event: Event) -> Option<Item>
    requires { IsItem item }
    ensures joins { Joins item event result }
    ensures fits { IsEvent event }
{
    let Item::Repeated(last, count) = item else {
        return None;
    };
    let Event::Step(p) = last else {
        return None;
    };
    let Event::Step(q) = event else {
        return None;
    };
    if p != q || count == MOST_STEPS {
        return None;
    }
    Some(Item::Repeated(event, count + 1))
}

// Appends the line of an item.
fn push_line(text: &mut String, item: Item) -> Result<(), AllocError>
    ensures { OnOk result (string_bytes text.new ≡ string_bytes text.old ++ item_text item) }
{
    match item {
        Item::Nothing => Ok(()),
        Item::Repeated(event, count) => {
            if count == 1 {
                writeln!(text, "{}", ShownEvent(event))
            } else {
                writeln!(text, "{} {count}", ShownEvent(event))
            }
        }
    }
}

/// The text of a schedule with these events, in which neighbouring Steps of one processor share a
/// line, up to 1,000,000 of them. Every list of events has a text; `read_schedule` reads it back if
/// there are at most 16,777,216 events.
///
/// # Errors
/// Memory was refused.
pub fn write_schedule(alloc: Global, events: &[Event]) -> Result<String, AllocError>
    ensures text { IfOk result (λ text. string_bytes text ≡ schedule_text events.now) }
    // Read as a schedule, the text has these events.
    ensures read { IfOk result (λ text. length events.now ≤ 16_777_216
        → IsSchedule (lines_of (string_bytes text)) events.now) }
{
    let mut text = String::new(alloc);
    let mut item = Item::Nothing;
    for event in events {
        match joined(item, *event) {
            Some(more) => item = more,
            None => {
                push_line(&mut text, item)?;
                item = Item::Repeated(*event, 1);
            }
        }
    }
    push_line(&mut text, item)?;
    Ok(text)
}
