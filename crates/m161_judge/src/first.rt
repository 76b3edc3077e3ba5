//! First events, which come before those of a policy.

ghost use Rattle.std.specs.Prelude.{[], IfOk};
ghost use Rattle.m161_machine.specs.State.{State};
ghost use Rattle.m161_judge.specs.Begun.{IsFirstOf};
ghost use Rattle.m161_judge.specs.Verdict.{Criteria};

use crate::goal::Goal;
use crate::seen::{Seen, nothing_seen};
use crate::walk::{left_after, make};
use m161_audit::AuditError;
use m161_bus::Console;
use m161_machine::{BootError, Core, Event};
use m161_tlb::Tlb;

/// What judging keeps of first events, which come before those of a policy.
#[derive(Clone, Copy)]
pub struct First {
    // How many they are.
    pub(crate) made: usize,
    // What was seen of the states before each of them.
    pub(crate) seen: Seen,
}

impl First {
    /// None come first.
    pub fn none() -> First
        ensures { (goal : Criteria) (s : State) → IsFirstOf goal s [] s result }
    {
        First {
            made: 0,
            seen: nothing_seen(),
        }
    }

    /// Makes events that come first, and looks at the state before each.
    ///
    /// # Errors
    /// One of them was refused.
    pub fn make<T: Tlb, D: Console>(
        core: &mut Core<T, D>,
        events: &[Event],
        goal: &Goal,
    ) -> Result<First, AuditError>
        ensures { IfOk result (IsFirstOf goal.now core.old.state events.now core.new.state) }
    {
        let mut seen = nothing_seen();
        let mut left = goal.keys.len();
        for (made, event) in events.iter().enumerate() {
            seen = seen.look(core, made, left > 0, goal.output);
            if !make(core, *event)? {
                return Err(AuditError::Boot(BootError::NoMemory));
            }
            left = left_after(left, *event);
        }
        Ok(First {
            made: events.len(),
            seen,
        })
    }
}
