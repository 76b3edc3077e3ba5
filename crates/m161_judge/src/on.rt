//! The verdict of a driven run that was begun.

ghost use Rattle.std.specs.Prelude.{List};
ghost use Rattle.m161_machine.specs.declared.event.Event.{Event as EventValue};
ghost use Rattle.m161_machine.specs.State.{State};
ghost use Rattle.m161_judge.specs.Begun.{AreKeysBehind, IsBegun, IsFirstOf, RunsBehind};
ghost use Rattle.m161_judge.specs.Memory.{IsKeptOf};
ghost use Rattle.m161_judge.specs.helpers.Walk.{DrivesRest};

use crate::events::count_keys;
use crate::first::First;
use crate::goal::Goal;
use crate::memory::StepMemory;
use crate::run::{JudgedRun, is_cut};
use crate::steps::first_verdict;
use m161_audit::AuditError;
use m161_bus::Console;
use m161_drive::{Cursor, Policy, Stop, drive_on};
use m161_machine::{BootError, Core, Event};
use m161_tlb::Tlb;

// Goes on with a run that was begun, and judges the whole of it, but for its Steps.
fn drive_rest<T: Tlb, D: Console>(
    core: &mut Core<T, D>,
    policy: &Policy,
    cursor: Cursor,
    n: u64,
    first: First,
    begun: Vec<Event>,
    goal: &Goal,
) -> Result<JudgedRun, AuditError>
    ensures { (s u : State) (fs : List EventValue)
        → IsFirstOf goal.now s fs u first
        → AreKeysBehind goal.now fs u policy.now
        → IsBegun policy.now n fs u cursor core.old.state begun.items
        → DrivesRest policy.now n goal.now s fs u begun.items result }
{
    let mut events = begun;
    let chosen = events.len().saturating_sub(first.made);
    let left = n.saturating_sub(chosen as u64);
    let driven = drive_on(core, policy, cursor, left, &mut events)?;
    if let Stop::Refused(_) = driven.stop {
        return Err(AuditError::Boot(BootError::NoMemory));
    }
    let keys_left = count_keys(&events) < goal.keys.len();
    let made = events.len();
    let seen = first.seen.look(core, made, keys_left, goal.output);
    Ok(JudgedRun {
        events,
        judged: seen.verdict(core, made, goal.output),
        is_cut: is_cut(core, driven.stop, keys_left),
    })
}

/// Goes on with a run that was begun, and judges the whole of it: first events from a state on, of which
/// `first` is kept, and behind them at most `n` that a policy chooses. Those that were made are `begun`;
/// they led to the machine's state, with this cursor, and `steps` is what is kept of their Steps. None of
/// them is made again.
///
/// # Errors
/// Memory was refused, also at an event `Done`.
pub fn judge_rest<T: Tlb + Drop, D: Console + Drop>(
    core: &mut Core<T, D>,
    policy: &Policy,
    cursor: Cursor,
    n: u64,
    first: First,
    begun: Vec<Event>,
    steps: StepMemory<T, D>,
    goal: &Goal,
) -> Result<JudgedRun, AuditError>
    ensures { (s u : State) (fs : List EventValue)
        → IsFirstOf goal.now s fs u first
        → AreKeysBehind goal.now fs u policy.now
        → IsBegun policy.now n fs u cursor core.old.state begun.items
        → IsKeptOf goal.now s begun.items steps
        → RunsBehind policy.now n goal.now s fs u result }
{
    let mut steps = steps;
    let run = drive_rest(core, policy, cursor, n, first, begun, goal)?;
    steps.go_on(&run.events, goal)?;
    Ok(JudgedRun {
        events: run.events,
        judged: first_verdict(steps.verdict(), run.judged),
        is_cut: run.is_cut,
    })
}
