//! The law of what moves see of a Step. The function does nothing: its contract is the law.

ghost use Rattle.m161_replay.specs.Law.{SeenIsMade};

/// What moves see of a Step before it is made is what a trace tells of it once it was made: it fetches
/// what its outcome says, and so it loads; a Step that traps, rests or stops the machine loads and
/// stores nothing in RAM.
pub fn seen_is_made()
    ensures { SeenIsMade }
{}
