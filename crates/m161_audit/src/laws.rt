//! Laws of the definitions. The functions do nothing: their contracts are the laws.

ghost use Rattle.std.specs.Prelude.{List};
ghost use Rattle.m161_machine.specs.declared.event.Event.{Event};
ghost use Rattle.m161_machine.specs.StoreHistory.{StoreState};
ghost use Rattle.m161_audit.specs.declared.watch.Watch.{Watch};
ghost use Rattle.m161_audit.specs.Going.{IsFoundInParts};

/// The law of going on: an audit of events, and then of the rest from the state to which they lead, is
/// one of all of them.
pub fn is_found_in_parts()
    ensures { (s : StoreState) (begun rest : List Event) (watches : List Watch) → IsFoundInParts s begun rest watches }
{}
