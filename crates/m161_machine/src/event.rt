//! Events of a machine, and their results.

ghost use Rattle.std.specs.Prelude.{◌≡◌};
ghost use Rattle.m161_machine.specs.Refusal.{number_of_refusal, name_of_refusal};

use m161_cpu::Outcome;
use thiserror::Error;

/// An event. Events don't overlap.
#[derive(Clone, Copy, Debug, PartialEq, Eq)]
pub enum Event {
    /// One Step of this processor.
    Step(u32),
    /// A byte is typed at the console.
    Key(u8),
    /// The console has sent the byte in its latch.
    Done,
}

/// An accepted event and its outcome.
#[derive(Clone, Copy, Debug, PartialEq, Eq)]
pub struct Entry {
    /// The event.
    pub event: Event,
    /// Its outcome.
    pub outcome: Outcome,
}

/// What switched a strict machine off.
#[derive(Clone, Copy, Debug, PartialEq, Eq)]
pub struct Conflict {
    /// The processor whose `tlbwi` or `tlbwr` it was.
    pub processor: u32,
    /// The row that was to be written, and stays as it was: 0 to 63.
    pub row: u8,
    /// The lowest other row that it would have overlapped: 0 to 63.
    pub other: u8,
}

/// Why an event is refused. Each is returned only if none above it holds.
#[derive(Clone, Copy, Debug, PartialEq, Eq, Error)]
pub enum Refusal {
    /// There is no such processor.
    #[error("there is no such processor")]
    BadProcessor,
    /// The machine is off.
    #[error("the machine is off")]
    Off,
    /// The machine has accepted 2^63 - 1 events.
    #[error("the machine has accepted as many events as it can count")]
    Worn,
    /// 256 typed bytes are waiting.
    #[error("256 typed bytes are waiting")]
    KeyFull,
    /// The console isn't sending a byte.
    #[error("the console isn't sending a byte")]
    NothingSent,
    /// Memory was refused; only of an event `Done`.
    #[error("out of memory")]
    NoMemory,
}

impl Refusal {
    /// Its number.
    pub fn number(self) -> u8
        ensures { result ≡ number_of_refusal self }
    {
        match self {
            Refusal::BadProcessor => 1,
            Refusal::Off => 2,
            Refusal::Worn => 8,
            Refusal::KeyFull => 4,
            Refusal::NothingSent => 5,
            Refusal::NoMemory => 6,
        }
    }

    /// Its name.
    pub fn name(self) -> &'static str
        ensures { result.now ≡ name_of_refusal self }
    {
        match self {
            Refusal::BadProcessor => "BadProcessor",
            Refusal::Off => "Off",
            Refusal::Worn => "Worn",
            Refusal::KeyFull => "KeyFull",
            Refusal::NothingSent => "NothingSent",
            Refusal::NoMemory => "NoMemory",
        }
    }
}
