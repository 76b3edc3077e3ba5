//! Laws of what a state of the exploration says of the run that leads to it. The functions do
//! nothing: their contracts are the laws.

ghost use Rattle.m161_states.specs.Judged.{VerdictIsFirst};
ghost use Rattle.m161_states.specs.Run.{AgreedTells, FlagTells, FreshIsSame, NextIsEvent, StaleIsAudited, StartIsBoot};

use m161_alike::alike_states_behave_alike;

/// The first state is that of a machine at boot.
pub fn start_is_boot()
    ensures law { StartIsBoot }
{}

/// The number of events before an event is of no account, unless the machine has accepted all that it
/// counts.
pub fn fresh_is_same()
    ensures law { FreshIsSame }
{}

/// An event is accepted exactly where the machine accepts it behind the same events, unless the
/// machine has accepted all that it counts; and then the next state is behind one event more.
pub fn next_is_event()
    ensures law { NextIsEvent }
{
    alike_states_behave_alike();
}

/// What is kept of a watch says whether the initiator has gone on.
pub fn flag_tells()
    ensures law { FlagTells }
{}

/// A Step's use of a page is stale exactly where the audit says so of the run.
pub fn stale_is_audited()
    ensures law { StaleIsAudited }
{}

/// The number of bytes says whether the console has sent what is asked for.
pub fn agreed_tells()
    ensures law { AgreedTells }
{}

/// The verdict of an accepted event is the first kind that holds, as the judge says it of the list
/// that ends with the event, unless the machine has accepted all that it counts.
pub fn verdict_is_first()
    ensures law { VerdictIsFirst }
{
    alike_states_behave_alike();
}
