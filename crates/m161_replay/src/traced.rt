//! The lines of a trace, over events that are made again.

ghost use Rattle.std.specs.Prelude.{◌≡◌, ◌≤◌, ◌++◌, drop, length, string_bytes, IfOk, OnOk};
ghost use Rattle.m161_dis.specs.Style.{plain};
ghost use Rattle.m161_machine.specs.State.{next};
ghost use Rattle.m161_replay.specs.Replays.{after, line_by, trace_from};

use m161_bus::Console;
use m161_dis::Style;
use m161_machine::{Core, Event};
use m161_tlb::Tlb;
use m161_trace::write_line;
use std::alloc::{AllocError, Global};

// Makes an event on two states that are the same, and appends its line, if it is accepted.
fn push_next<T: Tlb, D: Console>(
    text: &mut String,
    line: &mut String,
    items: &mut String,
    style: &Style,
    number: u64,
    event: Event,
    before: &mut Core<T, D>,
    behind: &mut Core<T, D>,
) -> Result<(), AllocError>
    requires plain { style.now ≡ plain }
    requires same { behind.old.state ≡ before.old.state }
    ensures text { OnOk result (string_bytes text.new ≡ string_bytes text.old
        ++ line_by number event before.old.state (next before.old.state event)) }
    ensures state { OnOk result (before.new.state
        ≡ after before.old.state (next before.old.state event)) }
    ensures same { OnOk result (behind.new.state ≡ before.new.state) }
{
    before.reserve(1)?;
    behind.reserve(1)?;
    match behind.event(event) {
        Ok(outcome) => {
            write_line(line, items, style, number, event, before, outcome, behind)?;
            text.push_str(line.as_str())?;
            match before.event(event) {
                Ok(_) => Ok(()),
                Err(_) => Err(AllocError),
            }
        }
        Err(_) => Ok(()),
    }
}

/// The lines of the events of a list from a place on, made on two states, which are those at that
/// place.
///
/// # Errors
/// Memory was refused.
pub(crate) fn trace_from<T: Tlb, D: Console>(
    alloc: Global,
    list: &[Event],
    first: usize,
    before: &mut Core<T, D>,
    behind: &mut Core<T, D>,
) -> Result<String, AllocError>
    requires same { behind.old.state ≡ before.old.state }
    requires inside { first ≤ length list.now }
    ensures { IfOk result (λ text. string_bytes text
        ≡ trace_from first before.old.state (drop first list.now)) }
{
    let style = Style::plain(alloc);
    let mut text = String::new(alloc);
    let mut line = String::new(alloc);
    let mut items = String::new(alloc);
    for i in first..list.len() {
        let event = list[i];
        push_next(
            &mut text, &mut line, &mut items, &style, i as u64, event, before, behind,
        )?;
    }
    Ok(text)
}
