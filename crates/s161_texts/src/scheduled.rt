//! Printing the lines of a run by a schedule.

ghost use Rattle.std.specs.Prelude.{◌≡◌, ◌<◌, ◌+◌, ◌-◌, ◌^◌, IfErr, IfOk};
ghost use Rattle.s161_base.specs.declared.fault.Fault.TheVariants.{Memory};
ghost use Rattle.s161_texts.specs.Traces.{MakesSome};
ghost use Rattle.s161_texts.specs.helpers.Printing.{FailsToPrintAll, FindsShared, PrintsAll};
ghost use Rattle.s161_texts.specs.helpers.Scheduled.{FailsAlike, FailsInSchedule, FailsOnce, MakesAll, PrintsSchedule, Turn, TurnsAlike};

use crate::filter::LineFilter;
use crate::lines::Lines;
use crate::shared::SharedWords;
use m161::Machine;
use m161_machine::{Event, Events, Refusal};
use s161_base::fault::Fault;
use s161_run::events::{RunStop, stop_off};
use std::alloc::Global;
use std::io::{Write, sink};

// Makes an event, and puts out its line; or says why it is refused.
fn trace_event<'a, O: Write>(
    machine: &mut Machine,
    event: Event,
    lines: &mut Lines,
    output: &mut O,
) -> Result<Option<Refusal>, Fault<'a>>
    requires step { lines.old.tracer ≡ machine.old.state }
    requires few { lines.old.number < 2 ^ 64 - 1 }
    ensures ok { IfOk result (λ refusal. Turn machine.old.state lines.old (O.contents output.old)
        event refusal machine.new.state lines.new (O.contents output.new)) }
    ensures err { IfErr result (FailsOnce lines.old (O.contents output.old) event machine.new.state
        (O.contents output.new)) }
{
    match machine.event(event) {
        Ok(outcome) => {
            lines.add(machine, event, outcome, output)?;
            Ok(None)
        }
        Err(refusal) => Ok(Some(refusal)),
    }
}

// Makes an event this many times, and puts out its lines. Returns how many were made, and why the next
// one wasn't.
fn trace_alike<'a, O: Write>(
    machine: &mut Machine,
    event: Event,
    times: u32,
    lines: &mut Lines,
    output: &mut O,
) -> Result<(u32, Option<Refusal>), Fault<'a>>
    requires step { lines.old.tracer ≡ machine.old.state }
    requires few { lines.old.number + times < 2 ^ 64 }
    ensures ok { IfOk result (λ given. TurnsAlike lines.old (O.contents output.old) event times given
        machine.new.state lines.new (O.contents output.new)) }
    ensures err { IfErr result (FailsAlike lines.old (O.contents output.old) event times
        machine.new.state (O.contents output.new)) }
{
    for made in 0..times {
        let refusal = trace_event(machine, event, lines, output)?;
        if let Some(refusal) = refusal {
            return Ok((made, Some(refusal)));
        }
    }
    Ok((times, None))
}

/// Makes events in order, until one switches the machine off or is refused, and puts out their lines.
///
/// # Errors
/// The output failed, or memory was refused.
pub(crate) fn trace_events<'a, O: Write>(
    machine: &mut Machine,
    events: &Events,
    lines: &mut Lines,
    output: &mut O,
) -> Result<RunStop, Fault<'a>>
    requires step { lines.old.tracer ≡ machine.old.state }
    requires first { lines.old.number ≡ 0 }
    ensures ok { IfOk result (λ stop. PrintsSchedule machine.old.state lines.old
        (O.contents output.old) events.now stop machine.new.state lines.new
        (O.contents output.new)) }
    ensures err { IfErr result (FailsInSchedule machine.old.state lines.old
        (O.contents output.old) events.now machine.new.state (O.contents output.new)) }
{
    let was_off = machine.is_off();
    let mut made = 0;
    let mut left = events.runs();
    while let Some((event, times)) = left.next() {
        let alike = trace_alike(machine, event, times, lines, output)?;
        made += alike.0 as usize;
        if machine.is_off() != was_off {
            return Ok(stop_off(machine.conflict()));
        }
        if let Some(refusal) = alike.1 {
            return Ok(RunStop::Refused(made, refusal));
        }
    }
    Ok(RunStop::End)
}

/// Makes events in order, until one switches the machine off or is refused, and prints the lines
/// that are asked for, and last why the run stopped.
///
/// # Errors
/// The output failed, or memory was refused.
pub(crate) fn print_schedule<'a, O: Write>(
    alloc: Global,
    machine: &mut Machine,
    events: &Events,
    filter: LineFilter,
    output: &mut O,
) -> Result<RunStop, Fault<'a>>
    ensures ok { IfOk result (PrintsAll filter machine.old.state (MakesAll events.now)
        machine.new.state (O.contents output.old) (O.contents output.new)) }
    ensures err { IfErr result (FailsToPrintAll filter machine.old.state (MakesSome events.now)
        (MakesAll events.now) machine.new.state (O.contents output.old) (O.contents output.new)) }
{
    let mut lines = Lines::new(alloc, machine, filter, SharedWords::none(alloc))?;
    let stop = trace_events(machine, events, &mut lines, output)?;
    lines.finish(alloc, stop, output)?;
    Ok(stop)
}

/// The words that are shared, of so many, among those of a schedule's events that have numbers of a
/// range. The events are made of a copy of the machine.
///
/// # Errors
/// Memory was refused.
pub(crate) fn shared_in_schedule<'a>(
    alloc: Global,
    machine: &Machine,
    events: &Events,
    words: usize,
    from: u64,
    count: u64,
) -> Result<SharedWords, Fault<'a>>
    ensures ok { IfOk result (FindsShared words from count machine.now.state (MakesAll events.now)) }
    ensures err { IfErr result (λ fault. fault ≡ Memory) }
{
    let mut copy = machine.copy(alloc)?;
    let filter = LineFilter::none(alloc, from, count);
    let mut lines = Lines::new(alloc, &copy, filter, SharedWords::new(alloc, words)?)?;
    match trace_events(&mut copy, events, &mut lines, &mut sink()) {
        Ok(_) => Ok(lines.into_noted()),
        Err(_) => Err(Fault::Memory),
    }
}
