//! The verdict of a search: that of a list of events, or that it hangs.

ghost use Rattle.std.specs.Prelude.{◌≡◌, IfOk, option_map};
ghost use Rattle.m161_reach.specs.Told.{TellsOf, TellsRun, ends_of, told_of};
ghost use Rattle.m161_reach.specs.helpers.Telling.{IsFinding, comes_first};

use crate::hang_laws::hanging_are_made;
use crate::machines::Machines;
use m161_bus::Console;
use m161_judge::{Goal, Judged, JudgedRun, Verdict};
use m161_machine::Event;
use m161_tlb::Tlb;
use std::alloc::{AllocError, Global};

/// How events go wrong.
#[derive(Clone, Copy, Debug, PartialEq, Eq)]
pub enum SearchVerdict {
    /// Their verdict as `m161_judge` finds it.
    Run(Verdict),
    /// From the state behind them no order of events leads to a machine that is off, or to one in which
    /// nothing is left to do and the console has sent what is asked for.
    Hung,
}

/// A verdict, and how many of the events it needs: cut behind them, the list has it too.
#[derive(Clone, Copy, Debug, PartialEq, Eq)]
pub struct Told {
    /// The verdict.
    pub verdict: SearchVerdict,
    /// How many of the events.
    pub events: usize,
}

/// By what the states behind events are looked at: whether they lead to an end, and nothing else.
pub fn ends_of<'a>(goal: &Goal<'a>) -> Goal<'a>
    ensures { result ≡ ends_of goal.now }
{
    Goal {
        watches: &[],
        never: &[],
        output: goal.output,
        keys: goal.keys,
    }
}

// Whether this verdict comes before `hung`.
fn comes_first(judged: Option<Judged>) -> bool
    ensures { result ≡ comes_first judged }
{
    match judged {
        None => false,
        Some(judged) => match judged.verdict {
            Verdict::Stale { .. }
            | Verdict::Reached { .. }
            | Verdict::Conflict(_)
            | Verdict::Stuck
            | Verdict::Output => true,
            Verdict::End => false,
        },
    }
}

// The verdict of events that don't hang.
fn told_of(judged: Option<Judged>) -> Option<Told>
    ensures { result ≡ option_map told_of judged }
{
    match judged {
        None => None,
        Some(judged) => Some(Told {
            verdict: SearchVerdict::Run(judged.verdict),
            events: judged.events,
        }),
    }
}

// Whether events hang is looked at only where that can be the verdict.
fn find<T: Tlb + Drop, D: Console + Drop>(
    alloc: Global,
    ends: &Machines<'_, T, D>,
    few: u32,
    judged: Option<Judged>,
    events: &[Event],
) -> Result<Option<Told>, AllocError>
    ensures { IfOk result (IsFinding few ends.now events.now judged) }
{
    if few == 0 || comes_first(judged) {
        return Ok(told_of(judged));
    }
    match ends.first_to_hang(alloc, events, few)? {
        Some(events) => Ok(Some(Told {
            verdict: SearchVerdict::Hung,
            events,
        })),
        None => Ok(told_of(judged)),
    }
}

/// The verdict of a search on a list of events whose verdict by `m161_judge` is this one. Whether they hang
/// is looked at by so many views of the states behind them, or not at all; `ends` asks that of these states.
///
/// # Errors
/// Memory is refused.
pub fn tell<T: Tlb + Drop, D: Console + Drop>(
    alloc: Global,
    ends: &Machines<'_, T, D>,
    few: u32,
    judged: Option<Judged>,
    events: &[Event],
) -> Result<Option<Told>, AllocError>
    ensures { IfOk result (TellsOf few ends.now events.now judged) }
{
    // So that the proof knows that events which hang were all accepted.
    hanging_are_made();
    find(alloc, ends, few, judged, events)
}

/// The verdict of a search on a run, as `tell` finds it. A run that isn't cut is over, so it isn't looked at.
///
/// # Errors
/// Memory is refused.
pub fn tell_run<T: Tlb + Drop, D: Console + Drop>(
    alloc: Global,
    ends: &Machines<'_, T, D>,
    few: u32,
    run: &JudgedRun,
) -> Result<Option<Told>, AllocError>
    ensures { IfOk result (TellsRun few ends.now run.now) }
{
    if run.is_cut {
        tell(alloc, ends, few, run.judged, &run.events)
    } else {
        Ok(told_of(run.judged))
    }
}
