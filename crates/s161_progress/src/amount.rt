//! How much is done, as text.

ghost use Rattle.std.specs.Prelude.{◌≡◌, Some};
ghost use Rattle.s161_progress.specs.Amounts.{amount_text, unit_text};

use std::fmt;

/// What is counted.
#[derive(Clone, Copy, Debug, PartialEq, Eq)]
pub enum Unit {
    /// Runs of a search.
    Runs,
    /// States of an exploration.
    States,
    /// Events of a run.
    Events,
}

/// How much is done; its text is what is shown, without a line's end.
#[derive(Clone, Copy, Debug, PartialEq, Eq)]
pub struct Amount {
    /// How many.
    pub done: u64,
    /// How many there are at most, where that is known.
    pub most: Option<u64>,
    /// Of what.
    pub unit: Unit,
}

impl fmt::Display for Unit {
    ghost output = { λ unit. Some (unit_text unit) };

    fn fmt<W: fmt::Write>(&self, f: &mut fmt::Formatter<W>) -> fmt::Result {
        match self {
            Unit::Runs => write!(f, "runs"),
            Unit::States => write!(f, "states"),
            Unit::Events => write!(f, "events"),
        }
    }
}

impl fmt::Display for Amount {
    ghost output = { λ amount. Some (amount_text amount.done amount.most amount.unit) };

    fn fmt<W: fmt::Write>(&self, f: &mut fmt::Formatter<W>) -> fmt::Result {
        let (done, unit) = (self.done, self.unit);
        match self.most {
            Some(most) => write!(f, "s161: {done} of {most} {unit}"),
            None => write!(f, "s161: {done} {unit}"),
        }
    }
}
