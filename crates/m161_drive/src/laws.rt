//! Laws of the definitions. The functions do nothing: their contracts are the laws.

ghost use Rattle.std.specs.Prelude.{ℕ, Option};
ghost use Rattle.m161_machine.specs.State.{State};
ghost use Rattle.m161_drive.specs.declared.cursor.Cursor.{Cursor};
ghost use Rattle.m161_drive.specs.Drive.{ChoosesAccepted, KeyIsTyped, KeyIsUnread, KeysAreApart, NoKeyIsCounted, StaysAsleep};
ghost use Rattle.m161_drive.specs.GoingOn.{GoesOnWhole};
ghost use Rattle.m161_drive.specs.Policy.{Rules};

/// The law of every choice: in a state that isn't off the chosen event is accepted, unless the
/// machine has accepted as many events as it can count, or memory is refused.
pub fn chooses_accepted()
    ensures { (rules : Rules) (key : Option ℕ) (c : Cursor) (s : State) → ChoosesAccepted rules key c s }
{}

/// The law of sleep: where no processor is ready or ticking, every Step is idle, and the state after
/// it is asleep too.
pub fn stays_asleep()
    ensures { (s : State) → StaysAsleep s }
{}

/// The law of keys where none is wanted: the choice is the same whatever the next key is, so none
/// has to be read.
pub fn key_is_unread()
    ensures { (rules : Rules) (c : Cursor) (s : State) → KeyIsUnread rules c s }
{}

/// The law of keys where one is wanted: it is typed, and without one a Step is next.
pub fn key_is_typed()
    ensures { (rules : Rules) (c : Cursor) (s : State) → KeyIsTyped rules c s }
{}

/// A choice without a key counts none.
pub fn no_key_is_counted()
    ensures { (rules : Rules) (c : Cursor) (s : State) → NoKeyIsCounted rules c s }
{}

/// A choice with a given key doesn't depend on the keys of the policy.
pub fn keys_are_apart()
    ensures { (rules : Rules) (c : Cursor) (s : State) → KeysAreApart rules c s }
{}

/// The law of going on: a run goes on from where its first events led.
pub fn goes_on_whole()
    ensures { (rules : Rules) (n : ℕ) (s : State) → GoesOnWhole rules n s }
{}
