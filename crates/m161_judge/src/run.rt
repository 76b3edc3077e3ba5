//! The verdict of a driven run.

ghost use Rattle.std.specs.Prelude.{◌≡◌, ℕ, List, Ok};
ghost use Rattle.m161_machine.specs.declared.conf.Conf.{Conf as ConfValue};
ghost use Rattle.m161_machine.specs.History.{boot_fault};
ghost use Rattle.m161_judge.specs.Judge.{BootsState, bytes_of};
ghost use Rattle.m161_judge.specs.Run.{Runs, is_cut, with_keys_of};
ghost use Rattle.m161_judge.specs.helpers.Walk.{DrivesRun};

use crate::booted::Booted;
use crate::events::count_keys;
use crate::goal::Goal;
use crate::seen::nothing_seen;
use crate::steps::{first_verdict, judge_steps};
use crate::stuck::is_stuck;
use crate::verdict::Judged;
use m161_audit::AuditError;
use m161_bus::Console;
use m161_drive::{Policy, Stop, drive};
use m161_machine::{BootError, Conf, Core, Event};
use m161_tlb::Tlb;
use std::alloc::Global;

/// A driven run, and its verdict.
#[derive(Drop)]
pub struct JudgedRun {
    /// The events that the policy chose.
    pub events: Vec<Event>,
    /// Their verdict, if they have one.
    pub judged: Option<Judged>,
    /// Whether the run ended only because no more events were asked for.
    pub is_cut: bool,
}

/// Whether a run ended only because no more events were asked for.
pub(crate) fn is_cut<T: Tlb, D: Console>(core: &Core<T, D>, stop: Stop, keys_left: bool) -> bool
    ensures { result ≡ is_cut stop keys_left core.now.state }
{
    match stop {
        Stop::End => !is_stuck(core, keys_left),
        Stop::Off | Stop::Stuck | Stop::Refused(_) => false,
    }
}

// Drives a state, and judges the run, but for its Steps.
fn drive_run<T: Tlb, D: Console>(
    alloc: Global,
    core: &mut Core<T, D>,
    policy: &Policy,
    n: u64,
    output: Option<&[u8]>,
) -> Result<JudgedRun, AuditError>
    ensures { DrivesRun policy.now n (bytes_of output.entry) core.old.state result }
{
    let mut events = Vec::new(alloc);
    let driven = drive(core, policy, n, &mut events)?;
    if let Stop::Refused(_) = driven.stop {
        return Err(AuditError::Boot(BootError::NoMemory));
    }
    let keys_left = policy.key(count_keys(&events)).is_some();
    let made = events.len();
    let seen = nothing_seen().look(core, made, keys_left, output);
    Ok(JudgedRun {
        events,
        judged: seen.verdict(core, made, output),
        is_cut: is_cut(core, driven.stop, keys_left),
    })
}

// The same, of a copy of a state.
fn drive_copy<T: Tlb + Drop, D: Console + Drop>(
    alloc: Global,
    booted: &Booted<T, D>,
    policy: &Policy,
    n: u64,
    output: Option<&[u8]>,
) -> Result<JudgedRun, AuditError>
    ensures { DrivesRun policy.now n (bytes_of output.entry) booted.now result }
{
    let mut core = booted.copy_core(alloc)?;
    drive_run(alloc, &mut core, policy, n, output)
}

/// Drives a machine that was just booted, over any TLB and any console, for at most `n` events that a
/// policy chooses, and judges the run by a goal, but by the policy's keys and not the goal's own. The
/// same as `judge_run` of the file from which it was booted; but nothing is booted again.
///
/// # Errors
/// The first bad watch; or memory was refused, also at an event `Done`.
pub fn judge_booted<T: Tlb + Drop, D: Console + Drop>(
    alloc: Global,
    booted: &Booted<T, D>,
    policy: &Policy,
    n: u64,
    goal: &Goal,
) -> Result<JudgedRun, AuditError>
    ensures { (file : List ℕ) (conf : ConfValue)
        → BootsState file conf (boot_fault file conf) (Ok booted.now)
        → Runs file conf (boot_fault file conf) policy.now n (with_keys_of policy.now goal.now) result }
{
    let run = drive_copy(alloc, booted, policy, n, goal.output)?;
    let of_steps = judge_steps(alloc, booted.core(), &run.events, goal)?;
    Ok(JudgedRun {
        events: run.events,
        judged: first_verdict(of_steps, run.judged),
        is_cut: run.is_cut,
    })
}

/// Drives a machine that is booted from a file, over any TLB and any console, for at most `n` events
/// that a policy chooses, and judges the run by a goal, but by the policy's keys and not the goal's own.
///
/// # Errors
/// The machine can't be booted; or the first bad watch; or memory was refused, also at an event
/// `Done`.
pub fn judge_run<T: Tlb + Drop, D: Console + Drop>(
    alloc: Global,
    file: &[u8],
    conf: Conf,
    policy: &Policy,
    n: u64,
    goal: &Goal,
) -> Result<JudgedRun, AuditError>
    ensures { Runs file.now conf (boot_fault file.now conf) policy.now n (with_keys_of policy.now goal.now) result }
{
    let booted = Booted::<T, D>::new(alloc, file, conf)?;
    judge_booted(alloc, &booted, policy, n, goal)
}
