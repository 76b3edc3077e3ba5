//! Laws of the definitions. The functions do nothing: their contracts are the laws.

ghost use Rattle.m161_debug.specs.Stops.{HasOneStop, TellsConflict};

/// The law that says that the definition of where runs stop leaves no choice: a run has one first
/// reason to stop, and it leaves one state.
pub fn has_one_stop()
    ensures { HasOneStop }
{}

/// The law of a conflict's text: where a run stops at a conflict, the machine tells it.
pub fn tells_conflict()
    ensures { TellsConflict }
{}
