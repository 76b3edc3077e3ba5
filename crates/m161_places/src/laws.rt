//! Laws of delays. The functions do nothing: their contracts are the laws.

ghost use Rattle.std.specs.Prelude.{ℕ, List, Option};
ghost use Rattle.m161_machine.specs.declared.event.Entry.{Entry};
ghost use Rattle.m161_machine.specs.State.{State};
ghost use Rattle.m161_order.specs.declared.delays.Delays.{Delays as DelaysValue};
ghost use Rattle.m161_drive.specs.declared.run.Driven.{Driven};
ghost use Rattle.m161_delays.specs.Runs.{ChooseAlike};
ghost use Rattle.m161_drive.specs.declared.cursor.Cursor.{Cursor};
ghost use Rattle.m161_drive.specs.declared.turns.Turns.{Turns};
ghost use Rattle.m161_drive.specs.Policy.{Rules};
ghost use Rattle.m161_places.specs.Going.{GoAlike};
ghost use Rattle.m161_places.specs.Laws.{HasRunOfPart, HaveDifferentRuns, IsByTurns, IsEffective, offered};

/// Runs of lists that agree below a number are alike up to the place of that number.
pub fn choose_alike()
    ensures { (n : ℕ) (rules : Rules) (keys : ℕ → Option ℕ) (turns : Turns) (c : Cursor) (s : State)
        → ChooseAlike (offered n rules keys turns c s) }
{}
/// The run of a list is that of a useful one, which is a part of it.
pub fn have_effective_part()
    ensures { (n : ℕ) (rules : Rules) (keys : ℕ → Option ℕ) (turns : Turns) (c : Cursor) (s : State)
        (all : List ℕ) → (part : List ℕ) × IsEffective n rules keys turns c s all part }
{}

/// Where a part of a list has the delays that have an effect, its run is the list's.
pub fn has_run_of_part()
    ensures { (rules : Rules) (n steps : ℕ) (all part : DelaysValue) (s : State) (driven : Driven)
        (entries : List Entry) (t : State) → HasRunOfPart rules n steps all part s driven entries t }
{}

/// Different useful lists have runs with different events.
pub fn have_different_runs()
    ensures { (n : ℕ) (rules : Rules) (keys : ℕ → Option ℕ) (turns : Turns) (c : Cursor) (s : State)
        → HaveDifferentRuns n rules keys turns c s }
{}

/// Without delays the order is that of turns.
pub fn is_by_turns()
    ensures { (rules : Rules) (keys : ℕ → Option ℕ) (turns : Turns) (c : Cursor) (s : State)
        → IsByTurns rules keys turns c s }
{}

/// Runs of lists that agree below a number are the same until so many places are passed, but for the
/// delays that are left then.
pub fn go_alike()
    ensures { (rules : Rules) (keys : ℕ → Option ℕ) (turns : Turns) (c : Cursor) (s : State) → GoAlike rules keys turns c s }
{}
