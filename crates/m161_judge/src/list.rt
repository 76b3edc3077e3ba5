//! The verdict of a list of events.

ghost use Rattle.std.specs.Prelude.{ℕ, List, Ok};
ghost use Rattle.m161_machine.specs.declared.conf.Conf.{Conf as ConfValue};
ghost use Rattle.m161_machine.specs.History.{boot_fault};
ghost use Rattle.m161_judge.specs.Judge.{BootsState, Judges};
ghost use Rattle.m161_judge.specs.helpers.Walk.{Walks};

use crate::booted::Booted;
use crate::goal::Goal;
use crate::steps::{first_verdict, judge_steps};
use crate::verdict::Judged;
use crate::walk::{Walk, walk_along};
use m161_audit::AuditError;
use m161_bus::Console;
use m161_machine::{Conf, Event};
use m161_tlb::Tlb;
use std::alloc::Global;

// Makes the events on a copy of a state, and looks at each state.
fn walk_copy<T: Tlb + Drop, D: Console + Drop>(
    alloc: Global,
    booted: &Booted<T, D>,
    events: &[Event],
    goal: &Goal,
) -> Result<Walk, AuditError>
    ensures { Walks goal.now booted.now events.now result }
{
    let mut core = booted.copy_core(alloc)?;
    walk_along(&mut core, events, goal)
}

/// Judges a list of events, made on a machine that was just booted, over any TLB and any console. The
/// same as `judge` of the file from which it was booted; but nothing is booted again.
///
/// # Errors
/// The first bad watch; or memory was refused, also at an event `Done`.
pub fn judge_events<T: Tlb + Drop, D: Console + Drop>(
    alloc: Global,
    booted: &Booted<T, D>,
    events: &[Event],
    goal: &Goal,
) -> Result<Option<Judged>, AuditError>
    ensures { (file : List ℕ) (conf : ConfValue)
        → BootsState file conf (boot_fault file conf) (Ok booted.now)
        → Judges file conf (boot_fault file conf) events.now goal.now result }
{
    let of_steps = judge_steps(alloc, booted.core(), events, goal)?;
    match walk_copy(alloc, booted, events, goal)? {
        Walk::Refused => Ok(None),
        Walk::Made(beside) => Ok(first_verdict(of_steps, beside)),
    }
}

/// Judges a list of events, made on a machine that is booted from a file, over any TLB and any
/// console. `None`: no verdict, also where an event is refused before the machine is off.
///
/// # Errors
/// The machine can't be booted; or the first bad watch; or memory was refused, also at an event
/// `Done`.
pub fn judge<T: Tlb + Drop, D: Console + Drop>(
    alloc: Global,
    file: &[u8],
    conf: Conf,
    events: &[Event],
    goal: &Goal,
) -> Result<Option<Judged>, AuditError>
    ensures { Judges file.now conf (boot_fault file.now conf) events.now goal.now result }
{
    let booted = Booted::<T, D>::new(alloc, file, conf)?;
    judge_events(alloc, &booted, events, goal)
}
