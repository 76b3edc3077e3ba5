//! What is tried, and what comes of it.

/// What became of a trial.
#[derive(Clone, Copy, Debug, Drop, PartialEq, Eq)]
pub enum Tested<W> {
    /// It is right.
    Right {
        /// Whether it ended only because no more was asked for.
        is_cut: bool,
    },
    /// It went wrong in this way.
    Wrong(W),
}

/// What came of many trials.
#[derive(Debug, Drop, PartialEq, Eq)]
pub enum Tried<W> {
    /// None goes wrong.
    Clean {
        /// How many of them are cut.
        cut: u32,
    },
    /// The first trial that goes wrong.
    Wrong {
        /// Its number.
        place: u32,
        /// How it goes wrong.
        wrong: W,
    },
}

/// Many trials, numbered from 0. Several threads may look at them at once.
pub trait Trials: Sync {
    ghost use Rattle.std.specs.Prelude.{ℕ, Bool, IfErr, IfOk};
    ghost use Rattle.m161_jobs.specs.Trials.{IsJudged};

    /// How a trial goes wrong.
    type Wrong: Drop + Send;

    /// Why a trial can't be made.
    type Error: Drop + Send;

    // There is a trial with this number.
    ghost has: { Self → ℕ → Type 0 };

    // The trial with this number is right, and is cut or isn't.
    ghost right: { Self → ℕ → Bool → Type 0 };

    // The trial with this number goes wrong in this way.
    ghost wrong: { Self → ℕ → Self.Wrong → Type 0 };

    // A trial can't be made, for this reason.
    ghost fails: { Self → Self.Error → Type 0 };

    /// Makes a trial, and judges it.
    ///
    /// # Errors
    /// It can't be made.
    fn judge(&self, place: u32) -> Result<Tested<Self::Wrong>, Self::Error>
        requires { has self.now place }
        ensures ok { IfOk result (IsJudged (right self.now place) (wrong self.now place)) }
        ensures err { IfErr result (fails self.now) };

    /// The error that tells of refused memory.
    fn refused(&self) -> Self::Error
        ensures { fails self.now result };
}
