//! What processors do at a place.

/// Whether a processor runs.
#[derive(Clone, Copy, Debug, PartialEq, Eq)]
pub enum Activity {
    /// It runs.
    Running,
    /// It waits for an interrupt.
    Waiting,
    /// It was not started, or has stopped.
    Stopped,
}

/// What a processor does at a place.
#[derive(Clone, Copy, Debug, PartialEq, Eq)]
pub struct Doing {
    /// Whether it runs.
    pub activity: Activity,
    /// Whether it is in user mode.
    pub is_user: bool,
    /// Whether its next instruction is in a delay slot.
    pub in_slot: bool,
}
