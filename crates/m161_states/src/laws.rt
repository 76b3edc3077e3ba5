//! Laws of the system, in the form in which an exploration asks for them. The functions do nothing:
//! their contracts are the laws.

ghost use Rattle.m161_states.specs.Laws.{AlikeEnd, AlikeNext, AlikeStop, AlikeStored, AlikeVerdict, ValidNext, ValidStart};

use m161_alike::{alike_states_behave_alike, words_tell_a_view};

/// From two valid states with one view an event reads the same unknown time, or none.
pub fn alike_stop()
    ensures law { AlikeStop }
{
    alike_states_behave_alike();
    words_tell_a_view();
}

/// From two valid states with one view an event that reads nothing unknown leads to states with one
/// view, or is refused in both.
pub fn alike_next()
    ensures law { AlikeNext }
{
    alike_states_behave_alike();
    words_tell_a_view();
}

/// From two valid states with one view an event that reads nothing unknown has one verdict.
pub fn alike_verdict()
    ensures law { AlikeVerdict }
{
    alike_states_behave_alike();
    words_tell_a_view();
}

/// From two valid states with one view an event that reads nothing unknown stores to the same word, or to
/// none, or is refused in both.
pub fn alike_stored()
    ensures law { AlikeStored }
{
    alike_states_behave_alike();
    words_tell_a_view();
}

/// Of two valid states with one view, none or both are ends.
pub fn alike_end()
    ensures law { AlikeEnd }
{
    alike_states_behave_alike();
    words_tell_a_view();
}

/// The first state is valid.
pub fn valid_start()
    ensures law { ValidStart }
{}

/// An event leads from a valid state to a valid one.
pub fn valid_next()
    ensures law { ValidNext }
{}
