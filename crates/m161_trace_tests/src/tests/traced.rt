//! Machines whose events are traced.

ghost use Rattle.std.specs.Prelude.{◌≡◌, IfOk, OnOk};

use m161::{Console, Machine, Tlb};
use m161_machine::{Conf, Event, LinkUnit};
use m161_test_support::files::file_from;
use m161_test_support::outcomes::ENTRY;
use m161_trace::{Style, Tracer};
use std::alloc::AllocGlobal;
use std::test::Fail;

/// A kernel, and the events that are made.
pub(crate) struct Run {
    /// The words from 80000200 on.
    pub words: &'static [u32],
    pub processors: u32,
    pub strict: bool,
    /// Events, and how often each is made.
    pub events: &'static [(Event, u32)],
}

/// A machine of this size with a file, strict or not.
#[inline(never)]
pub(crate) fn booted(
    rt: &impl AllocGlobal,
    file: &[u8],
    processors: u32,
    strict: bool,
) -> Result<Machine, Fail> {
    let conf = Conf {
        ram: 1_048_576,
        processors,
        log: 1_000,
        link: LinkUnit::Word,
        strict,
    };
    let machine = Machine::boot(rt.alloc(), file, conf)?;
    Ok(machine)
}

/// A tracer of a machine as it is now.
#[inline(never)]
pub(crate) fn tracer_of(
    rt: &impl AllocGlobal,
    machine: &Machine,
) -> Result<Tracer<Tlb, Console>, Fail>
    ensures { IfOk result (λ tracer. tracer ≡ machine.now.state) }
{
    let core = machine.core().copy(rt.alloc())?;
    Ok(Tracer::new(rt.alloc(), core))
}

/// Makes an event and appends its line, with what it loads or without.
#[inline(never)]
fn trace_one(
    machine: &mut Machine,
    tracer: &mut Tracer<Tlb, Console>,
    event: Event,
    style: &Style,
    loads: bool,
    text: &mut String,
) -> Result<(), Fail>
    requires { tracer.old ≡ machine.old.state }
    ensures { OnOk result (tracer.new ≡ machine.new.state) }
{
    let number = machine.made();
    let outcome = machine.event(event)?;
    if loads {
        tracer.line_with(machine, event, outcome, number, style, true, text)?;
    } else {
        tracer.line(machine, event, outcome, number, style, text)?;
    }
    Ok(())
}

/// Makes an event so often, and appends its lines.
#[inline(never)]
fn trace_times(
    machine: &mut Machine,
    tracer: &mut Tracer<Tlb, Console>,
    event: Event,
    times: u32,
    style: &Style,
    loads: bool,
    text: &mut String,
) -> Result<(), Fail>
    requires { tracer.old ≡ machine.old.state }
    ensures { OnOk result (tracer.new ≡ machine.new.state) }
{
    for _time in 0..times {
        trace_one(machine, tracer, event, style, loads, text)?;
    }
    Ok(())
}

/// Makes an event without a line.
#[inline(never)]
pub(crate) fn pass_one(
    machine: &mut Machine,
    tracer: &mut Tracer<Tlb, Console>,
    event: Event,
) -> Result<(), Fail>
    requires { tracer.old ≡ machine.old.state }
    ensures { OnOk result (tracer.new ≡ machine.new.state) }
{
    machine.event(event)?;
    tracer.pass(event)?;
    Ok(())
}

/// The lines of events from boot on, with what their Steps load or without.
#[inline(never)]
fn traced_with(
    rt: &impl AllocGlobal,
    file: &[u8],
    processors: u32,
    strict: bool,
    events: &[(Event, u32)],
    style: &Style,
    loads: bool,
) -> Result<String, Fail> {
    let mut machine = booted(rt, file, processors, strict)?;
    let mut tracer = tracer_of(rt, &machine)?;
    let mut text = String::new(rt.alloc());
    for (event, times) in events {
        trace_times(
            &mut machine,
            &mut tracer,
            *event,
            *times,
            style,
            loads,
            &mut text,
        )?;
    }
    Ok(text)
}

/// The lines of events from boot on.
pub(crate) fn traced(
    rt: &impl AllocGlobal,
    file: &[u8],
    processors: u32,
    strict: bool,
    events: &[(Event, u32)],
    style: &Style,
) -> Result<String, Fail> {
    traced_with(rt, file, processors, strict, events, style, false)
}

/// The lines of a run, in a style.
pub(crate) fn lines_in(rt: &impl AllocGlobal, run: &Run, style: &Style) -> Result<String, Fail> {
    let file = file_from(rt.alloc(), ENTRY, ENTRY, run.words)?;
    traced(
        rt,
        file.as_slice(),
        run.processors,
        run.strict,
        run.events,
        style,
    )
}

/// The lines of a run.
pub(crate) fn lines_of(rt: &impl AllocGlobal, run: &Run) -> Result<String, Fail> {
    lines_in(rt, run, &Style::plain(rt.alloc()))
}

/// The same with what its Steps load.
pub(crate) fn loads_of(rt: &impl AllocGlobal, run: &Run) -> Result<String, Fail> {
    let file = file_from(rt.alloc(), ENTRY, ENTRY, run.words)?;
    traced_with(
        rt,
        file.as_slice(),
        run.processors,
        run.strict,
        run.events,
        &Style::plain(rt.alloc()),
        true,
    )
}
