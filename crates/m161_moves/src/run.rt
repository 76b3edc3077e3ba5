//! Runs, as far as moves see them.

ghost use Rattle.std.specs.Prelude.{◌≡◌, ◌==◌, ◌+◌, ◌<◌, ◌≤◌, IfErr, OnOk};

/// A load or store in memory by a Step without a trap.
#[derive(Clone, Copy, Debug, PartialEq, Eq)]
pub struct Access {
    /// Whether it stores.
    pub is_store: bool,
    /// The physical address of the word that it is in, below 2^29.
    pub word: u32,
    /// The virtual address of that word, if a row of the TLB translated it.
    pub mapped: Option<u32>,
}

/// What moves see of a Step.
#[derive(Clone, Copy, Debug, PartialEq, Eq)]
pub struct StepSeen {
    /// Its processor.
    pub processor: u32,
    /// The address of the word that it fetches, if it fetches one.
    pub fetched: Option<u32>,
    /// Its load or store, if it makes one.
    pub access: Option<Access>,
}

/// A run whose events are fixed, and that stands at one of its places.
pub trait Run {
    ghost use Rattle.std.specs.Prelude.{◌≡◌, ℕ, ◌==◌, ◌+◌, ◌<◌, ◌≤◌, IfErr, OnOk};
    ghost use Rattle.m161_moves.specs.Course.{Course};
    ghost use Rattle.m161_moves.specs.Threads.{last_processor};

    /// Why a run can't be gone along.
    type Error: Drop;

    // Its end, its Steps, and what is seen at its places: what no move changes.
    ghost course: { Self → Course };

    // The place where it stands.
    ghost place: { Self → ℕ };

    // It can't be gone along, for this reason.
    ghost fails: { Course → Self.Error → Type 0 };

    /// The place where it stands.
    fn place(&self) -> usize
        ensures { result ≡ place self.now };

    /// Whether it stands at its end.
    fn is_at_end(&self) -> bool
        ensures { result ≡ (place self.now == (course self.now).end) };

    /// What the next event is, if that is a Step.
    fn next_step(&self) -> Option<StepSeen>
        requires { place self.now < (course self.now).end }
        ensures { result ≡ (course self.now).step (place self.now) };

    /// The processor of the last Step before the place where it stands, 0 if there is none.
    fn last_processor(&self) -> u32
        ensures { result ≡ last_processor (course self.now) (place self.now) };

    /// Goes forwards by an event.
    ///
    /// # Errors
    /// The run can't be gone along.
    fn advance(&mut self) -> Result<(), Self::Error>
        requires { place self.old < (course self.old).end }
        ensures course { course self.new ≡ course self.old }
        ensures ok { OnOk result (place self.new ≡ place self.old + 1) }
        ensures err { IfErr result (fails (course self.old)) };

    /// Goes back to a place at most as far as this one, which is best near it.
    ///
    /// # Errors
    /// The run can't be gone along.
    fn go_back(&mut self, to: usize) -> Result<(), Self::Error>
        requires { to ≤ place self.old }
        ensures course { course self.new ≡ course self.old }
        ensures ok { OnOk result (place self.new ≤ to) }
        ensures err { IfErr result (fails (course self.old)) };

    ghost within: { (run : Self) → place run ≤ (course run).end };
}
