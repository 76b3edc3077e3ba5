//! The last events that were made, as a trace shows them.

ghost use Rattle.std.specs.Prelude.{◌≡◌, ◌≤◌, ◌++◌, length, string_bytes, IfOk, OnOk};
ghost use Rattle.m161_machine.specs.History.{boot_state, events_of};
ghost use Rattle.m161_machine.specs.State.{next};
ghost use Rattle.m161_replay.specs.Replays.{after, state_at};
ghost use Rattle.s161_debug.specs.Traces.{last_lines, line_by, trace_fault};
ghost use Rattle.s161_debug.specs.helpers.Lines.{Traced};

use crate::debugged::Debugged;
use m161::{Core, Machine};
use m161_debug::JumpError;
use m161_dis::Style;
use m161_machine::Event;
use m161_trace::write_line;
use std::alloc::{AllocError, Global};

// Makes an event; a refused one changes nothing.
fn pass(core: &mut Core, event: Event) -> Result<(), AllocError>
    ensures { OnOk result (core.new.state ≡ after core.old.state (next core.old.state event)) }
{
    core.reserve(1)?;
    let _made = core.event(event);
    Ok(())
}

// The state at boot of what a machine was booted from.
#[inline(never)]
fn boot_again(alloc: Global, machine: &Machine) -> Result<Core, AllocError>
    ensures { IfOk result (λ core. core.state ≡ boot_state machine.now.start) }
{
    let again = machine.boot_again(alloc)?;
    Ok(again.into_core())
}

// The state to which the first events of a machine's log lead from that, this number of them.
#[inline(never)]
fn state_at(alloc: Global, machine: &Machine, number: usize) -> Result<Core, AllocError>
    requires { number ≤ length machine.now.log }
    ensures { IfOk result (λ core. core.state
        ≡ state_at (boot_state machine.now.start) (events_of machine.now.log) number) }
{
    let mut core = boot_again(alloc, machine)?;
    for i in 0..number {
        pass(&mut core, machine.log_at(i).event)?;
    }
    Ok(core)
}

// Makes an event on two states that are the same, and appends its line, if it is accepted.
fn push_line(
    text: &mut String,
    line: &mut String,
    items: &mut String,
    style: &Style,
    number: u64,
    event: Event,
    before: &mut Core,
    behind: &mut Core,
) -> Result<(), AllocError>
    requires same { behind.old.state ≡ before.old.state }
    ensures text { OnOk result (string_bytes text.new ≡ string_bytes text.old
        ++ line_by style.now number event before.old.state (next before.old.state event)) }
    ensures state { OnOk result (before.new.state
        ≡ after before.old.state (next before.old.state event)) }
    ensures same { OnOk result (behind.new.state ≡ before.new.state) }
{
    before.reserve(1)?;
    behind.reserve(1)?;
    match behind.event(event) {
        Ok(outcome) => {
            write_line(line, items, style, number, event, before, outcome, behind)?;
            text.push_str(line.as_str())?;
            match before.event(event) {
                Ok(_) => Ok(()),
                Err(_) => Err(AllocError),
            }
        }
        Err(_) => Ok(()),
    }
}

// The lines of a log's last events, this number or all, made again from boot.
#[tactic(auto, unfolding(crate::specs::Traces::last_lines))]
fn lines(
    alloc: Global,
    machine: &Machine,
    style: &Style,
    number: usize,
) -> Result<String, AllocError>
    ensures { IfOk result (λ text. string_bytes text
        ≡ last_lines style.now (boot_state machine.now.start) (events_of machine.now.log) number) }
{
    let first = machine.log_len().saturating_sub(number);
    let mut before = state_at(alloc, machine, first)?;
    let mut behind = before.copy(alloc)?;
    let mut text = String::new(alloc);
    let mut line = String::new(alloc);
    let mut items = String::new(alloc);
    for i in first..machine.log_len() {
        let event = machine.log_at(i).event;
        push_line(
            &mut text,
            &mut line,
            &mut items,
            style,
            i as u64,
            event,
            &mut before,
            &mut behind,
        )?;
    }
    Ok(text)
}

// Why the last `n` events aren't shown.
fn trace_fault(machine: &Machine, n: u64) -> Option<JumpError>
    ensures { result ≡ trace_fault n machine.now }
{
    if n < 1 || n > 1024 {
        Some(JumpError::BadArgument)
    } else if (machine.log_len() as u64) < machine.made() {
        Some(JumpError::Dropped)
    } else {
        None
    }
}

/// The lines of the last `n` events that were made, or of all if there are fewer: they are those of a
/// trace, in the session's style. The run is made again from boot.
///
/// # Errors
/// `n` isn't 1 to 1,024; the log has dropped some of the session's events; memory was refused.
pub(crate) fn last_lines(alloc: Global, session: &Debugged, n: u64) -> Result<String, JumpError>
    ensures { Traced (trace_fault n session.now.machine) n session.now result }
{
    if let Some(fault) = trace_fault(session.machine(), n) {
        return Err(fault);
    }
    let text = lines(alloc, session.machine(), session.style(), n as usize)?;
    Ok(text)
}
