//! Which Steps fetch a word.

ghost use Rattle.std.specs.Prelude.{◌≡◌};
ghost use Rattle.m161_machine.specs.Fetched.{fetches_none};

use m161_cpu::Outcome;

/// Whether a Step with this outcome fetched nothing: it was idle, or took an interrupt, whose code is
/// 0. Any other Step fetched the word at its processor's address, if it could.
pub fn fetches_none(outcome: Outcome) -> bool
    ensures { result ≡ fetches_none outcome }
{
    match outcome {
        Outcome::Idle => true,
        Outcome::Trapped { code, vector: _ } => code.number() == 0,
        Outcome::Ran | Outcome::PoweredOff | Outcome::Conflict { .. } | Outcome::Taken => false,
    }
}
