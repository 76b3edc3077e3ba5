//! Laws of the definitions. The functions do nothing: their contracts are the laws.

ghost use Rattle.std.specs.Prelude.{List};
ghost use Rattle.m161_machine.specs.declared.event.Entry.{Entry};
ghost use Rattle.m161_machine.specs.State.{State};
ghost use Rattle.m161_machine.specs.History.{Leads};
ghost use Rattle.m161_machine.specs.StoreHistory.{LeadsStores, StoresAgree, StoreState, live_state, without_stores};

/// The law of the stores: from any state, taken with no stores and with its live links as the first
/// ones, the entries that lead to another state lead in the history of the stores to one with that
/// state as its image; and whatever they lead to there, they lead to its image.
pub fn stores_agree()
    ensures agree { (s : State) (es : List Entry) (t : State) → Leads s es t → StoresAgree s es t }
    ensures image { (s : State) (es : List Entry) (u : StoreState)
        → LeadsStores (without_stores s) es u → Leads s es (live_state u) }
{}
