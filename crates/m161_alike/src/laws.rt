//! The law of states that are alike. The function does nothing: its contract is the law.

ghost use Rattle.m161_alike.specs.Law.{AlikeLaw, SentLaw};

/// The law. Two states that are alike, of which none is worn, behave alike behind an event that reads
/// nothing that isn't known: both refuse it for the same reason, or both accept it with the same
/// outcome, and the states behind it are alike again. A Step uses, stores and fetches the same in
/// both. What the console sends by an event is the same, and comes behind what it has sent.
pub fn alike_states_behave_alike()
    ensures alike { AlikeLaw }
    ensures sent { SentLaw }
{}
