//! Judges.

ghost use Rattle.std.specs.Prelude.{IfOk};

use crate::judged::Judgement;
use m161_machine::Event;

/// A judge of lists of events. Its verdict on a list is the same each time, or it fails.
pub trait Judge {
    ghost use Rattle.std.specs.Prelude.{List, Option};
    ghost use Rattle.m161_machine.specs.declared.event.Event.{Event};
    ghost use Rattle.m161_shorten.specs.declared.judged.Judgement.{Judgement};
    ghost use Rattle.m161_shorten.specs.Verdicts.{AreSame};

    /// What verdicts are compared by.
    type Kind: Copy + Eq;

    /// Why a list can't be judged.
    type Error;

    // A list has this verdict, or none.
    ghost judges: { Self → List Event → Option (Judgement Self.Kind) → Type 0 };

    /// The verdict on a list, if it has one.
    ///
    /// # Errors
    /// The list can't be judged.
    fn judge(&mut self, events: &[Event]) -> Result<Option<Judgement<Self::Kind>>, Self::Error>
        ensures verdict { IfOk result (judges self.old events.now) }
        ensures same { AreSame (judges self.old) (judges self.new) };
}
