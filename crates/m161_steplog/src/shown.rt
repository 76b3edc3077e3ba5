//! Modes, events, outcomes and entries as the lines of a log show them.

ghost use Rattle.std.specs.Prelude.{◌≡◌, Some};
ghost use Rattle.m161_steplog.specs.Text.{event_text, outcome_text, entry_text};
ghost use Rattle.m161_steplog.specs.Log.{mode_text, unit_text};

use crate::mode::Mode;
use m161_isa::LinkUnit;
use m161_machine::{Entry, Event, Outcome};
use m161_text::{Byte, Word};
use std::fmt;

// The word of a link's unit.
fn unit_word(unit: LinkUnit) -> &'static str
    ensures { result.now ≡ unit_text unit }
{
    match unit {
        LinkUnit::Word => "word",
        LinkUnit::Line => "line",
    }
}

/// A mode as the first line shows it, with the number of the format before it.
#[derive(Drop)]
pub struct ShownMode(pub Mode);

impl fmt::Display for ShownMode {
    ghost output = { λ m. Some (mode_text m.0) };

    fn fmt<W: fmt::Write>(&self, f: &mut fmt::Formatter<W>) -> fmt::Result {
        let unit = unit_word(self.0.link);
        if self.0.strict {
            write!(f, "3 {unit} strict")
        } else {
            write!(f, "2 {unit}")
        }
    }
}

/// An event as text.
#[derive(Drop)]
pub struct ShownEvent(pub Event);

impl fmt::Display for ShownEvent {
    ghost output = { λ e. Some (event_text e.0) };

    fn fmt<W: fmt::Write>(&self, f: &mut fmt::Formatter<W>) -> fmt::Result {
        match self.0 {
            Event::Step(p) => write!(f, "s {p}"),
            Event::Key(byte) => write!(f, "k {}", Byte(byte)),
            Event::Done => write!(f, "o"),
        }
    }
}

/// An outcome as text.
#[derive(Drop)]
pub struct ShownOutcome(pub Outcome);

impl fmt::Display for ShownOutcome {
    ghost output = { λ o. Some (outcome_text o.0) };

    fn fmt<W: fmt::Write>(&self, f: &mut fmt::Formatter<W>) -> fmt::Result {
        match self.0 {
            Outcome::Ran => write!(f, "ran"),
            Outcome::Trapped { code, vector } => {
                let number = code.number();
                write!(f, "trap {number} {}", Word(vector))
            }
            Outcome::Idle => write!(f, "idle"),
            Outcome::PoweredOff => write!(f, "off"),
            Outcome::Conflict { row, other } => write!(f, "conflict {row} {other}"),
            Outcome::Taken => write!(f, "taken"),
        }
    }
}

/// An entry as its line.
#[derive(Drop)]
pub struct ShownEntry(pub Entry);

impl fmt::Display for ShownEntry {
    ghost output = { λ e. Some (entry_text e.0) };

    fn fmt<W: fmt::Write>(&self, f: &mut fmt::Formatter<W>) -> fmt::Result {
        write!(
            f,
            "{} {}",
            ShownEvent(self.0.event),
            ShownOutcome(self.0.outcome)
        )
    }
}
