//! What was seen of a run's states.

ghost use Rattle.std.specs.Prelude.{◌≡◌, ◌+◌, false, List, None, take};
ghost use Rattle.m161_machine.specs.declared.event.Event.{Event};
ghost use Rattle.m161_machine.specs.State.{State};
ghost use Rattle.m161_judge.specs.Judge.{bytes_of};
ghost use Rattle.m161_judge.specs.Verdict.{Criteria, LeadsTo, has_keys};
ghost use Rattle.m161_judge.specs.Seen.{HasSeen};
ghost use Rattle.m161_judge.specs.helpers.Walk.{Ends, IsConflictOff, IsJudgedBehind, IsJudgedBeside};

use crate::stuck::{has_sent, is_stuck};
use crate::verdict::{Judged, Verdict};
use m161_bus::Console;
use m161_machine::{Conflict, Core};
use m161_tlb::Tlb;

/// What was seen of a run's states so far.
#[derive(Clone, Copy)]
pub(crate) struct Seen {
    /// After how many events the run was first stuck without having sent what is asked for.
    pub stuck: Option<usize>,
    /// Whether the run was stuck.
    pub was_stuck: bool,
}

/// Nothing was seen yet.
pub(crate) fn nothing_seen() -> Seen
    ensures { result ≡ record { stuck = None; was_stuck = false } }
{
    Seen {
        stuck: None,
        was_stuck: false,
    }
}

// A verdict that needs so many events.
fn judged(verdict: Verdict, events: usize) -> Judged
    ensures { result ≡ record { verdict = verdict; events = events } }
{
    Judged { verdict, events }
}

// The conflict that switched the machine off.
fn conflict_off<T: Tlb, D: Console>(core: &Core<T, D>) -> Option<Conflict>
    ensures { IsConflictOff core.now.state result }
{
    if core.is_off() { core.conflict() } else { None }
}

impl Seen {
    /// Looks at the machine's state after so many events.
    #[inline(always)]
    pub(crate) fn look<T: Tlb, D: Console>(
        self,
        core: &Core<T, D>,
        made: usize,
        keys_left: bool,
        output: Option<&[u8]>,
    ) -> Seen
        ensures { (goal : Criteria) (s : State) (events : List Event)
            → goal.output ≡ bytes_of output.entry
            → keys_left ≡ has_keys goal.keys (take made events)
            → LeadsTo s events made core.now.state
            → HasSeen goal s events made self
            → HasSeen goal s events (made + 1) result }
    {
        if !is_stuck(core, keys_left) {
            return self;
        }
        if has_sent(core, output) {
            return Seen {
                stuck: self.stuck,
                was_stuck: true,
            };
        }
        Seen {
            stuck: self.stuck.or(Some(made)),
            was_stuck: true,
        }
    }

    /// The first verdict but Stale of a run that ends here, after so many events.
    pub(crate) fn verdict<T: Tlb, D: Console>(
        self,
        core: &Core<T, D>,
        made: usize,
        output: Option<&[u8]>,
    ) -> Option<Judged>
        ensures { (goal : Criteria) (s : State) (events : List Event)
            → goal.output ≡ bytes_of output.entry
            → Ends s events made core.now.state
            → HasSeen goal s events (made + 1) self
            → IsJudgedBeside goal s events result }
    {
        match conflict_off(core) {
            Some(conflict) => Some(judged(Verdict::Conflict(conflict), made)),
            None => self.verdict_behind(core, made, output),
        }
    }

    // The first verdict behind Stale and Conflict.
    fn verdict_behind<T: Tlb, D: Console>(
        self,
        core: &Core<T, D>,
        made: usize,
        output: Option<&[u8]>,
    ) -> Option<Judged>
        ensures { (goal : Criteria) (s : State) (events : List Event)
            → goal.output ≡ bytes_of output.entry
            → Ends s events made core.now.state
            → HasSeen goal s events (made + 1) self
            → IsJudgedBehind goal s events result }
    {
        if let Some(events) = self.stuck {
            return Some(judged(Verdict::Stuck, events));
        }
        if output.is_none() {
            return None;
        }
        if core.is_off() {
            if has_sent(core, output) {
                return None;
            }
            return Some(judged(Verdict::Output, made));
        }
        if self.was_stuck {
            return None;
        }
        Some(judged(Verdict::End, made))
    }
}
