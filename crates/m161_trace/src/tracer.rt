//! Lines of a machine's events, one after the other.

ghost use Rattle.std.specs.Prelude.{◌≡◌, ◌++◌, IfOk, OnOk, OnErr, Ok, string_bytes};
ghost use Rattle.m161_cpu.specs.declared.processor.Outcome.{Outcome};
ghost use Rattle.m161_machine.specs.State.{State, next};
ghost use Rattle.m161_machine.specs.History.{Makes};
ghost use Rattle.m161_text.specs.Lines.{with_line_end};
ghost use Rattle.m161_trace.specs.Line.{event_line, event_line_with};
ghost use Rattle.m161_trace.specs.Touched.{touched};

use crate::line::write_line_with;
use crate::touched::{Touched, event_touched};
use m161_bus::Console;
use m161_dis::Style;
use m161_machine::{Core, Event, Machine, Outcome, Refusal};
use m161_tlb::Tlb;
use std::alloc::{AllocError, Global};
use std::marker::Model;

/// A state of a machine, one event behind it: what an event changed is told by the two. Contracts
/// see it as that state. The memory that it takes doesn't grow with the number of events.
#[derive(Drop)]
pub struct Tracer<T: Tlb, D: Console> {
    before: Core<T, D>,
    // Room for a line, and for its items.
    line: String,
    items: String,
}

impl<T: Tlb, D: Console> Model for Tracer<T, D> {
    ghost use Rattle.m161_machine.specs.State.{State};

    ghost Value = { State };

    ghost view = { λ t. t.before.state };
}

// Makes an accepted event on a state.
fn follow<T: Tlb, D: Console>(core: &mut Core<T, D>, event: Event) -> Result<(), AllocError>
    ensures made { OnOk result ((o : Outcome) (t : State)
        → next core.old.state event ≡ Ok (o, t) → core.new.state ≡ t) }
    ensures err { OnErr result (core.new.state ≡ core.old.state) }
{
    core.reserve(1)?;
    match core.event(event) {
        Ok(_) => Ok(()),
        Err(_) => Err(AllocError),
    }
}

impl<T: Tlb, D: Console> Tracer<T, D> {
    /// A tracer of a machine in this state: mostly a copy of the machine's own, `machine.core()`.
    pub fn new(alloc: Global, before: Core<T, D>) -> Tracer<T, D>
        ensures { result ≡ before.state }
    {
        Tracer {
            before,
            line: String::new(alloc),
            items: String::new(alloc),
        }
    }

    /// Appends the line of an event that the machine has just accepted, with its end, and makes the
    /// event on the state here. `number` is the event's in its run; registers and addresses are shown
    /// in this style, and what a Step loads isn't.
    ///
    /// # Errors
    /// Memory was refused. The text and the state are as before then.
    #[tactic(auto, unfolding(crate::specs::Line::event_line))]
    pub fn line(
        &mut self,
        machine: &Machine<T, D>,
        event: Event,
        outcome: Outcome,
        number: u64,
        style: &Style,
        text: &mut String,
    ) -> Result<(), AllocError>
        requires { next self.old event ≡ Ok (outcome, machine.now.state) }
        ensures text { OnOk result (string_bytes text.new ≡ string_bytes text.old
            ++ with_line_end (event_line style.now number event self.old outcome machine.now.state)) }
        ensures state { OnOk result (self.new ≡ machine.now.state) }
        ensures err { OnErr result ((string_bytes text.new ≡ string_bytes text.old)
            × (self.new ≡ self.old)) }
    {
        self.line_with(machine, event, outcome, number, style, false, text)
    }

    /// The same, and the line shows what a Step loads where `loads` is true.
    ///
    /// # Errors
    /// Memory was refused. The text and the state are as before then.
    pub fn line_with(
        &mut self,
        machine: &Machine<T, D>,
        event: Event,
        outcome: Outcome,
        number: u64,
        style: &Style,
        loads: bool,
        text: &mut String,
    ) -> Result<(), AllocError>
        requires { next self.old event ≡ Ok (outcome, machine.now.state) }
        ensures text { OnOk result (string_bytes text.new ≡ string_bytes text.old
            ++ with_line_end (event_line_with style.now loads number event self.old outcome
            machine.now.state)) }
        ensures state { OnOk result (self.new ≡ machine.now.state) }
        ensures err { OnErr result ((string_bytes text.new ≡ string_bytes text.old)
            × (self.new ≡ self.old)) }
    {
        let Tracer {
            before,
            line,
            items,
        } = self;
        write_line_with(
            line,
            items,
            style,
            loads,
            number,
            event,
            before,
            outcome,
            machine.core(),
        )?;
        text.reserve(line.len())?;
        follow(before, event)?;
        text.push_str(line.as_str())
    }

    /// Makes an event on the state here, without a line. The result is that of the event.
    ///
    /// # Errors
    /// Those of `Machine::event`. The state is as before then.
    pub fn pass(&mut self, event: Event) -> Result<Outcome, Refusal>
        ensures { Makes self.old event result self.new }
    {
        self.before.event(event)
    }

    /// The words of RAM that an event loads and stores which is accepted in this state, with this
    /// outcome.
    pub fn touched(&self, event: Event, outcome: Outcome) -> Touched
        requires { (t : State) × (next self.now event ≡ Ok (outcome, t)) }
        ensures { result ≡ touched event self.now outcome }
    {
        event_touched(&self.before, event, outcome)
    }

    /// The state.
    pub fn state(&self) -> &Core<T, D>
        ensures { result.now.state ≡ self.now }
    {
        &self.before
    }
}
