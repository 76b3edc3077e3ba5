//! The law of the definitions. The function does nothing: its contract is the law.

ghost use Rattle.std.specs.Prelude.{Bool, List};
ghost use Rattle.m161_machine.specs.declared.event.Event.{Event};
ghost use Rattle.m161_shorten.specs.Law.{EndsWithOne};
ghost use Rattle.m161_shorten.specs.Verdicts.{JudgesEach};

use crate::judge::Judge;

/// The law of the passes: by a judge that says one thing of each list, the passes over a list end,
/// with one list.
pub fn ends_with_one<J: Judge>()
    ensures { (judge : J) (is_kind : J.Kind → Bool) → JudgesEach (J.judges judge)
        → (es : List Event) → EndsWithOne is_kind (J.judges judge) es }
{}
