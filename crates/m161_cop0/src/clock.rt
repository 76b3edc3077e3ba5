//! The timer, and Random by the number of ticks.

ghost use Rattle.std.specs.Prelude.{◌≡◌, ◌-◌, ◌%◌};
ghost use Rattle.m161_cop0.specs.Control.{control_at_start};
ghost use Rattle.m161_cop0.specs.Clock.{after_ticks};

/// The law of Random: after `n` ticks from the start it is 63 - n mod 56.
pub fn random_after_ticks(_n: u64)
    ensures { (after_ticks _n control_at_start).random ≡ 63 - _n % 56 }
{}
