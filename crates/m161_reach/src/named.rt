//! The law of a list's events. The function does nothing: its contract is the law.

ghost use Rattle.m161_reach.specs.Named.{NamedAreMade, NumbersName};

use m161_states::fresh_is_same;

/// The events of a list that an exploration accepts are accepted by the machine from boot on, and lead
/// to the exploration's state.
pub fn named_are_made()
    ensures law { NamedAreMade }
{
    fresh_is_same();
}

/// Events that have numbers are the events of these.
pub fn numbers_name()
    ensures law { NumbersName }
{}
