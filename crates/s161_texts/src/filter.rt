//! Which events have lines.

ghost use Rattle.std.specs.Prelude.{◌≡◌, ◌&&◌, IfErr, IfOk, Ok, if◌then◌else◌, option_map, true};
ghost use Rattle.m161_machine.specs.State.{State, next};
ghost use Rattle.s161_texts.specs.Traces.{has_outcome, is_among, is_only, is_sharing, is_step_of, is_touching};
ghost use Rattle.s161_texts.specs.helpers.Marks.{is_marked};
ghost use Rattle.s161_texts.specs.helpers.Booted.{IsFilter, IsUnasked};
ghost use Rattle.s161_texts.specs.helpers.Printing.{has_line, filter_of};

use crate::shared::SharedWords;
use crate::words::asked_word;
use m161::{Console, Tlb};
use m161_dis::Style;
use m161_machine::{Event, Outcome};
use m161_trace::Tracer;
use s161_base::fault::Fault;
use s161_base::naming::style_of;
use s161_command::TraceTask;
use std::alloc::Global;

/// Which events have lines, and how these show registers and addresses.
#[derive(Drop)]
pub(crate) struct LineFilter {
    /// How registers and addresses are shown.
    pub style: Style,
    /// The number of the first event that has a line.
    pub from: u64,
    /// How many have one, from it on.
    pub count: u64,
    /// The processor whose Steps alone have lines, if there is one.
    pub only: Option<u32>,
    /// The word of RAM whose loads and stores alone have lines, if there is one.
    pub touches: Option<u32>,
    /// The words of RAM whose loads and stores alone have lines, if they are asked for.
    pub shared: Option<SharedWords>,
    /// Whether only events have lines that trap, are idle, or stop the machine.
    pub outcomes: bool,
    /// Whether lines show what Steps load.
    pub loads: bool,
}

// Whether an event is a Step of a processor.
fn is_step_of(processor: u32, event: Event) -> bool
    ensures { result ≡ is_step_of processor event }
{
    match event {
        Event::Step(p) => processor == p,
        Event::Key(_) | Event::Done => false,
    }
}

// Whether an event is one of those that may have lines.
fn is_only(only: Option<u32>, event: Event) -> bool
    ensures { result ≡ is_only only event }
{
    match only {
        None => true,
        Some(processor) => is_step_of(processor, event),
    }
}

// Whether an event did something else than what it is for.
fn has_outcome(outcome: Outcome) -> bool
    ensures { result ≡ has_outcome outcome }
{
    match outcome {
        Outcome::Ran | Outcome::Taken => false,
        Outcome::Trapped { .. } | Outcome::Idle | Outcome::PoweredOff | Outcome::Conflict { .. } =>
            true,
    }
}

// Whether an event loads or stores the word that is asked for.
fn is_touching(
    touches: Option<u32>,
    tracer: &Tracer<Tlb, Console>,
    event: Event,
    outcome: Outcome,
) -> bool
    requires { (t : State) × (next tracer.now event ≡ Ok (outcome, t)) }
    ensures { result ≡ is_touching touches tracer.now event outcome }
{
    match touches {
        None => true,
        Some(word) => tracer.touched(event, outcome).has(word),
    }
}

// Whether an event loads or stores one of the words that are shared, if they are asked for.
fn is_sharing(
    shared: &Option<SharedWords>,
    tracer: &Tracer<Tlb, Console>,
    event: Event,
    outcome: Outcome,
) -> bool
    requires { (t : State) × (next tracer.now event ≡ Ok (outcome, t)) }
    ensures { result ≡ is_sharing (option_map is_marked shared.now) tracer.now event outcome }
{
    match shared {
        None => true,
        Some(words) => words.has_one(tracer.touched(event, outcome)),
    }
}

impl LineFilter {
    /// The events that a task over an image's file, in so many bytes of RAM, asks for, whether or not
    /// they share words.
    ///
    /// # Errors
    /// Those of `asked_word`.
    pub(crate) fn of<'a>(
        alloc: Global,
        task: &TraceTask<'a>,
        ram: u32,
        file: &[u8],
    ) -> Result<LineFilter, Fault<'a>>
        ensures ok { IfOk result (IsFilter task.now ram file.now) }
        ensures err { IfErr result (IsUnasked task.now ram file.now) }
    {
        let touches = asked_word(alloc, task, ram, file)?;
        Ok(LineFilter {
            style: style_of(alloc, task.registers, task.symbols, task.image, file)?,
            from: task.from,
            count: task.count,
            only: task.only,
            touches,
            shared: None,
            outcomes: task.outcomes,
            loads: task.loads,
        })
    }

    /// Whether an event of this number may have a line.
    pub(crate) fn has_number(&self, number: u64) -> bool
        ensures { result ≡ is_among self.now.from self.now.count number }
    {
        number >= self.from && number - self.from < self.count
    }

    // Whether an event of this outcome may have a line.
    fn takes(&self, outcome: Outcome) -> bool
        ensures { result ≡ (if self.now.outcomes then has_outcome outcome else true) }
    {
        if self.outcomes {
            has_outcome(outcome)
        } else {
            true
        }
    }

    // Whether an event of this number may have a line, whatever it loads and stores.
    fn may_have(&self, number: u64, event: Event, outcome: Outcome) -> bool
        ensures { result ≡ is_among self.now.from self.now.count number && is_only self.now.only event
            && (if self.now.outcomes then has_outcome outcome else true) }
    {
        self.has_number(number) && is_only(self.only, event) && self.takes(outcome)
    }

    /// No events, with this range of numbers.
    pub(crate) fn none(alloc: Global, from: u64, count: u64) -> LineFilter
        ensures { (result.from ≡ from) × (result.count ≡ count) }
    {
        LineFilter {
            style: Style::plain(alloc),
            from,
            count,
            only: None,
            touches: None,
            shared: Some(SharedWords::none(alloc)),
            outcomes: false,
            loads: false,
        }
    }

    /// Whether an event of this number has a line, which is accepted in the tracer's state with this
    /// outcome.
    pub(crate) fn has(
        &self,
        tracer: &Tracer<Tlb, Console>,
        number: u64,
        event: Event,
        outcome: Outcome,
    ) -> bool
        requires { (t : State) × (next tracer.now event ≡ Ok (outcome, t)) }
        ensures { result ≡ has_line self.now number tracer.now event outcome }
    {
        self.may_have(number, event, outcome)
            && is_touching(self.touches, tracer, event, outcome)
            && is_sharing(&self.shared, tracer, event, outcome)
    }
}
