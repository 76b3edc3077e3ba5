//! What is shown of a machine and of an event, as numbers.

ghost use Rattle.std.specs.Prelude.{◌≡◌, ◌<◌, ◌≤◌, ℕ, length, slice_index};
ghost use Rattle.m161_machine.specs.State.{processor_at};
ghost use Rattle.m161_c.specs.Runs.{event_of, outcome_numbers};
ghost use Rattle.m161_c.specs.Shown.{ShowsProcessor, number_of_state};

use crate::answer::{OutcomeNumbers, ProcessorView};
use m161::{Event, Machine, Outcome, ProcessorState, Reg};

/// The event of these numbers.
pub(crate) fn event_of(kind: u8, value: u32) -> Option<Event>
    ensures { result ≡ event_of kind value }
{
    match kind {
        0 => Some(Event::Step(value)),
        1 if value < 256 => Some(Event::Key(value as u8)),
        2 => Some(Event::Done),
        _ => None,
    }
}

/// The numbers of an outcome.
pub(crate) fn outcome_numbers(outcome: Outcome) -> OutcomeNumbers
    ensures { result ≡ outcome_numbers outcome }
{
    let (kind, first, second) = match outcome {
        Outcome::Ran => (0, 0, 0),
        Outcome::Trapped { code, vector } => (1, u32::from(code.number()), vector),
        Outcome::Idle => (2, 0, 0),
        Outcome::PoweredOff => (3, 0, 0),
        Outcome::Conflict { row, other } => (4, u32::from(row), u32::from(other)),
        Outcome::Taken => (5, 0, 0),
    };
    OutcomeNumbers {
        kind,
        first,
        second,
    }
}

fn state_number(state: ProcessorState) -> u32
    ensures { result ≡ number_of_state state }
{
    match state {
        ProcessorState::Stopped => 0,
        ProcessorState::Running => 1,
        ProcessorState::Waiting => 2,
    }
}

// The general registers of a processor.
fn registers_of(machine: &Machine, p: u32) -> [u32; 32]
    requires { p < length machine.now.state.processors }
    ensures { (r : ℕ) → r < 32 → slice_index result r
        ≡ slice_index (processor_at p machine.now.state.processors).registers r }
{
    let mut registers = [0; 32];
    for r in 0..32u8 {
        registers[usize::from(r)] = machine.reg(p, Reg::new(r));
    }
    registers
}

/// What is shown of a processor.
pub(crate) fn view_of(machine: &Machine, p: u32) -> ProcessorView
    requires { p < length machine.now.state.processors }
    ensures { ShowsProcessor p machine.now.state result }
{
    ProcessorView {
        registers: registers_of(machine, p),
        hi: machine.hi(p),
        lo: machine.lo(p),
        pc: machine.pc(p),
        state: state_number(machine.state(p)),
        in_slot: machine.in_slot(p),
        count: machine.count(p),
    }
}
