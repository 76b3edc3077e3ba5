//! Laws of the definitions. The functions do nothing: their contracts are the laws.

ghost use Rattle.std.specs.Prelude.{ℕ, List};
ghost use Rattle.m161_machine.specs.declared.event.Event.{Event};
ghost use Rattle.m161_machine.specs.State.{State};
ghost use Rattle.m161_judge.specs.declared.verdict.Judged.{Judged};
ghost use Rattle.m161_judge.specs.Laws.{CutKeepsVerdict, FirstIsNoWorse, IsOneVerdict, StuckIsNoChoice};
ghost use Rattle.m161_judge.specs.Verdict.{Criteria};

/// The law of being stuck: in a state that isn't off, it is so exactly where no policy with these
/// keys, of which it has typed so many, chooses an event.
pub fn stuck_is_no_choice()
    ensures { (keys : List ℕ) (typed : ℕ) (s : State) → StuckIsNoChoice keys typed s }
{}

/// The law of the definition: a run has one verdict, or none.
pub fn one_verdict()
    ensures { (goal : Criteria) (s : State) (events : List Event) → IsOneVerdict goal s events }
{}

/// The law of the number of events: a run that is cut behind those that its verdict needs has the
/// same verdict, which needs as many.
pub fn cut_keeps_verdict()
    ensures { (goal : Criteria) (s : State) (events : List Event) (judged : Judged) → CutKeepsVerdict goal s events judged }
{}

/// The law of the first events of a run: what goes wrong with them goes wrong with the run.
pub fn first_is_no_worse()
    ensures { (goal : Criteria) (s : State) (events : List Event) → FirstIsNoWorse goal s events }
{}
