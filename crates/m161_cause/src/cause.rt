//! Why a run in threads has no report.

ghost use Rattle.std.specs.Prelude.{◌≡◌};
ghost use Rattle.m161_cause.specs.Cause.{name_of_cause};

use thiserror::Error;

/// Why a run in threads has no report.
#[derive(Clone, Copy, Debug, PartialEq, Eq, Error)]
pub enum Cause {
    /// There isn't one quota for each processor. Returned before any Step.
    #[error("there isn't one quota for each processor")]
    BadQuotas,
    /// A burst has 1 to 1,024 Steps. Returned before any Step.
    #[error("a burst has 1 to 1,024 Steps")]
    BadBurst,
    /// Memory was refused.
    #[error("out of memory")]
    NoMemory,
    /// The system refused a thread.
    #[error("no thread")]
    NoThread,
    /// The gate returned `false`.
    #[error("processor {p} was held at its Step {k}")]
    Held {
        /// The processor.
        p: u32,
        /// How many Steps of the run it had made.
        k: u32,
    },
    /// The machine has accepted 2^63 - 1 events.
    #[error("the machine has accepted as many events as it can count")]
    Worn,
    /// A processor's count differs from its seat's.
    #[error("a processor's count isn't its seat's")]
    Miscount,
    /// The machine isn't the one that was passed in, or another event was made of it.
    #[error("the machine isn't the one that was passed in")]
    Swapped,
}

impl Cause {
    /// The name of the variant.
    pub fn name(self) -> &'static str
        ensures { result.now ≡ name_of_cause self }
    {
        match self {
            Cause::BadQuotas => "BadQuotas",
            Cause::BadBurst => "BadBurst",
            Cause::NoMemory => "NoMemory",
            Cause::NoThread => "NoThread",
            Cause::Held { p: _, k: _ } => "Held",
            Cause::Worn => "Worn",
            Cause::Miscount => "Miscount",
            Cause::Swapped => "Swapped",
        }
    }
}
