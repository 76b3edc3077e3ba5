//! Printing the lines of a run by an order.

ghost use Rattle.std.specs.Prelude.{◌≡◌, ◌≤◌, None, IfErr, IfOk};
ghost use Rattle.m161_order.specs.Order.{order_fault};
ghost use Rattle.s161_run.specs.Behind.{told};
ghost use Rattle.s161_run.specs.Driven.{rules_of};
ghost use Rattle.s161_base.specs.declared.fault.Fault.TheVariants.{Memory};
ghost use Rattle.m161_drive.specs.declared.run.Driven.{Driven as DrivenRun};
ghost use Rattle.s161_texts.specs.Traces.{GoesSome};
ghost use Rattle.s161_texts.specs.helpers.Driven.{FailsBehind, FailsInDrive, FailsOnce, GoesAll, PrintsBehind, PrintsDrive, Turn};
ghost use Rattle.s161_texts.specs.helpers.Printing.{FailsToPrintAll, FindsShared, PrintsAll};

use crate::filter::LineFilter;
use crate::lines::Lines;
use crate::scheduled::trace_events;
use crate::shared::SharedWords;
use m161::Machine;
use m161_drive::{Cursor, Driven, Policy, Stop};
use s161_base::fault::Fault;
use s161_command::Drive;
use s161_run::driven::stop_of;
use s161_run::events::RunStop;
use s161_run::inputs::Inputs;
use std::alloc::Global;
use std::io::{Write, sink};

// Makes the next event, and puts out its line; or says why there is none.
fn trace_once<'a, O: Write>(
    machine: &mut Machine,
    policy: &Policy,
    cursor: &mut Cursor,
    lines: &mut Lines,
    output: &mut O,
) -> Result<Option<Stop>, Fault<'a>>
    requires step { lines.old.tracer ≡ machine.old.state }
    requires few { lines.old.number ≤ machine.old.state.made }
    ensures ok { IfOk result (λ stop. Turn policy.now cursor.old machine.old.state lines.old
        (O.contents output.old) stop cursor.new machine.new.state lines.new
        (O.contents output.new)) }
    ensures err { IfErr result (FailsOnce policy.now cursor.old machine.old.state lines.old
        (O.contents output.old) cursor.new machine.new.state (O.contents output.new)) }
{
    if machine.is_off() {
        return Ok(Some(Stop::Off));
    }
    let Some(event) = cursor.choose(policy, machine.core()) else {
        return Ok(Some(Stop::Stuck));
    };
    match machine.event(event) {
        Ok(outcome) => {
            // So that the proof knows that a u64 counts all events.
            let _all = machine.made();
            cursor.took(event, machine.core());
            lines.add(machine, event, outcome, output)?;
            Ok(None)
        }
        Err(refusal) => Ok(Some(Stop::Refused(refusal))),
    }
}

// Makes the events that a policy chooses, at most so many, and puts out their lines.
fn trace_policy<'a, O: Write>(
    machine: &mut Machine,
    policy: &Policy,
    most: u64,
    lines: &mut Lines,
    output: &mut O,
) -> Result<Driven, Fault<'a>>
    requires step { lines.old.tracer ≡ machine.old.state }
    requires few { lines.old.number ≤ machine.old.state.made }
    ensures ok { IfOk result (λ driven. PrintsDrive policy.now most machine.old.state lines.old
        (O.contents output.old) driven machine.new.state lines.new (O.contents output.new)) }
    ensures err { IfErr result (FailsInDrive policy.now most machine.old.state lines.old
        (O.contents output.old) machine.new.state (O.contents output.new)) }
{
    let mut cursor = Cursor::new(policy, machine.core());
    for made in 0..most {
        let stop = trace_once(machine, policy, &mut cursor, lines, output)?;
        if let Some(stop) = stop {
            return Ok(Driven { made, stop });
        }
    }
    let stop = if machine.is_off() {
        Stop::Off
    } else {
        Stop::End
    };
    Ok(Driven { made: most, stop })
}

// Makes the events that the options' policy chooses with a new cursor, with these keys, and puts out their
// lines behind those of the events so far. Returns why the run stopped.
fn trace_drive<'a, O: Write>(
    machine: &mut Machine,
    options: Drive<'_>,
    keys: &[u8],
    lines: &mut Lines,
    output: &mut O,
) -> Result<RunStop, Fault<'a>>
    requires limits { order_fault options.order ≡ None }
    requires step { lines.old.tracer ≡ machine.old.state }
    requires few { lines.old.number ≤ machine.old.state.made }
    ensures ok { IfOk result (λ stop. (driven : DrivenRun)
        × PrintsDrive (rules_of options.entry keys.now) options.entry.events machine.old.state
        lines.old (O.contents output.old) driven machine.new.state lines.new (O.contents output.new)
        × (stop ≡ told lines.new.number machine.new.state.conflict driven.stop)) }
    ensures err { IfErr result (FailsInDrive (rules_of options.entry keys.now) options.entry.events
        machine.old.state lines.old (O.contents output.old) machine.new.state
        (O.contents output.new)) }
{
    let Ok(policy) = Policy::new(options.order, options.transfer, options.gap, keys) else {
        unreachable!()
    };
    let driven = trace_policy(machine, &policy, options.events, lines, output)?;
    let all = Driven {
        made: lines.number(),
        stop: driven.stop,
    };
    Ok(stop_of(all, machine.core()))
}

// Makes the events that come first, and then, where each of them was made and the machine is still on, those
// that the options' policy chooses; and puts out their lines. Returns why the run stopped.
fn trace_behind<'a, O: Write>(
    machine: &mut Machine,
    options: Drive<'_>,
    read: &Inputs,
    lines: &mut Lines,
    output: &mut O,
) -> Result<RunStop, Fault<'a>>
    requires limits { order_fault options.order ≡ None }
    requires step { lines.old.tracer ≡ machine.old.state }
    requires first { lines.old.number ≡ 0 }
    ensures ok { IfOk result (λ stop. PrintsBehind (rules_of options.entry read.now.keys.items)
        options.entry.events machine.old.state lines.old (O.contents output.old) read.now.first.events
        stop machine.new.state lines.new (O.contents output.new)) }
    ensures err { IfErr result (FailsBehind (rules_of options.entry read.now.keys.items)
        options.entry.events machine.old.state lines.old (O.contents output.old) read.now.first.events
        machine.new.state (O.contents output.new)) }
{
    match trace_events(machine, &read.first.events, lines, output)? {
        RunStop::End => trace_drive(machine, options, &read.keys, lines, output),
        stop => Ok(stop),
    }
}

/// Makes the events that come first, and those that the options' policy chooses behind them, and prints
/// the lines that are asked for, and last why the run stopped.
///
/// # Errors
/// The output failed, or memory was refused.
pub(crate) fn print_drive<'a, O: Write>(
    alloc: Global,
    machine: &mut Machine,
    options: Drive<'_>,
    read: &Inputs,
    filter: LineFilter,
    output: &mut O,
) -> Result<RunStop, Fault<'a>>
    requires { order_fault options.order ≡ None }
    ensures ok { IfOk result (PrintsAll filter machine.old.state
        (GoesAll (rules_of options.entry read.now.keys.items) options.entry.events read.now.first.events)
        machine.new.state (O.contents output.old) (O.contents output.new)) }
    ensures err { IfErr result (FailsToPrintAll filter machine.old.state
        (GoesSome (rules_of options.entry read.now.keys.items) options.entry.events read.now.first.events)
        (GoesAll (rules_of options.entry read.now.keys.items) options.entry.events read.now.first.events)
        machine.new.state (O.contents output.old) (O.contents output.new)) }
{
    let mut lines = Lines::new(alloc, machine, filter, SharedWords::none(alloc))?;
    let stop = trace_behind(machine, options, read, &mut lines, output)?;
    lines.finish(alloc, stop, output)?;
    Ok(stop)
}

/// The words that are shared, of so many, among those of the events of a run by an order that have numbers
/// of a range. The events are made of a copy of the machine.
///
/// # Errors
/// Memory was refused.
pub(crate) fn shared_in_drive<'a>(
    alloc: Global,
    machine: &Machine,
    options: Drive<'_>,
    read: &Inputs,
    words: usize,
    from: u64,
    count: u64,
) -> Result<SharedWords, Fault<'a>>
    requires { order_fault options.order ≡ None }
    ensures ok { IfOk result (FindsShared words from count machine.now.state
        (GoesAll (rules_of options.entry read.now.keys.items) options.entry.events
        read.now.first.events)) }
    ensures err { IfErr result (λ fault. fault ≡ Memory) }
{
    let mut copy = machine.copy(alloc)?;
    let filter = LineFilter::none(alloc, from, count);
    let mut lines = Lines::new(alloc, &copy, filter, SharedWords::new(alloc, words)?)?;
    match trace_behind(&mut copy, options, read, &mut lines, &mut sink()) {
        Ok(_) => Ok(lines.into_noted()),
        Err(_) => Err(Fault::Memory),
    }
}
