//! Why a run stops.

ghost use Rattle.std.specs.Prelude.{◌≡◌, ◌+◌, ◌<◌, ◌^◌, IfSome};
ghost use Rattle.m161_debug.specs.Obeys.{used_by};
ghost use Rattle.m161_debug.specs.Stops.{off_stop};

use m161_machine::{Outcome, Refusal};

/// Why a run over a list of events stops, and before or at which event, counted from 0.
#[derive(Clone, Copy, Debug, PartialEq, Eq)]
pub enum StopReason {
    /// The event is a Step at a breakpoint; it isn't made.
    Break(usize),
    /// The event is refused.
    Refused(usize, Refusal),
    /// The event switched the machine off.
    Off(usize),
    /// The event switched a strict machine off by a conflict, of which the machine tells.
    Conflict(usize),
    /// After the event, what the run waited for holds.
    Until(usize),
    /// All events, this number of them, are made.
    End(usize),
}

impl StopReason {
    // How many events it uses up.
    pub(crate) fn events_used(self) -> usize
        requires { used_by self < 2 ^ 64 }
        ensures { result ≡ used_by self }
    {
        match self {
            StopReason::Break(k) => k,
            StopReason::Refused(k, _) => k + 1,
            StopReason::Off(k) => k + 1,
            StopReason::Conflict(k) => k + 1,
            StopReason::Until(k) => k + 1,
            StopReason::End(n) => n,
        }
    }
}

// The stop after event `k` with this outcome, if it switched the machine off.
pub(crate) fn off_stop(k: usize, outcome: Outcome) -> Option<StopReason>
    ensures value { result ≡ off_stop k outcome }
    ensures used { IfSome result (λ stop. used_by stop ≡ k + 1) }
{
    match outcome {
        Outcome::PoweredOff => Some(StopReason::Off(k)),
        Outcome::Conflict { .. } => Some(StopReason::Conflict(k)),
        Outcome::Ran | Outcome::Trapped { .. } | Outcome::Idle | Outcome::Taken => None,
    }
}
