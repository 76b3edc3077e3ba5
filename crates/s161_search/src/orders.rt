//! A run by an order.

ghost use Rattle.std.specs.Prelude.{◌≡◌, IfErr, IfOk, List};
ghost use Rattle.m161_judge.specs.Begun.{AreKeysBehind, IsBegun, IsFirstOf, IsRunBehind};
ghost use Rattle.m161_judge.specs.Memory.{IsKeptOf};
ghost use Rattle.m161_machine.specs.declared.event.Event.{Event as EventValue};
ghost use Rattle.m161_order.specs.declared.order.Order.TheVariants.{Delayed};
ghost use Rattle.m161_machine.specs.State.{State};
ghost use Rattle.m161_order.specs.Delays.{delays_of};
ghost use Rattle.s161_base.specs.declared.fault.Fault.TheVariants as faults;
ghost use Rattle.s161_run.specs.Driven.{rules_of};
ghost use Rattle.s161_search.specs.helpers.Delayed.{IsNoMemory, IsRunFrom, IsTested};
ghost use Rattle.s161_search.specs.Given.{criteria_of};
ghost use Rattle.s161_search.specs.Runs.{most_of};
ghost use Rattle.s161_search.specs.helpers.Inputs.{given_of};
ghost use Rattle.s161_search.specs.helpers.Points.{IsPointOf};

use crate::inputs::Inputs;
use crate::points::{BegunRun, RunPoint};
use crate::start::Start;
use m161::{Console, Tlb};
use m161_drive::{Cursor, Policy};
use m161_jobs::Tested;
use m161_judge::{First, JudgedRun, judge_rest};
use m161_order::{Delays, Order};
use m161_reach::{Machines, Told, tell_run};
use s161_base::fault::Fault;
use s161_command::SearchTask;
use std::alloc::{AllocError, Global};

/// A run that goes wrong.
#[derive(Drop)]
pub(crate) struct WrongRun {
    /// The run.
    pub run: JudgedRun,
    /// Its verdict.
    pub told: Told,
}

/// What became of a run; so many states behind it may be looked at.
///
/// # Errors
/// Memory was refused.
pub(crate) fn tested(
    alloc: Global,
    ends: &Machines<'_, Tlb, Console>,
    few: u32,
    run: JudgedRun,
) -> Result<Tested<WrongRun>, AllocError>
    ensures { IfOk result (IsTested few ends.now run) }
{
    match tell_run(alloc, ends, few, &run)? {
        Some(told) => Ok(Tested::Wrong(WrongRun { run, told })),
        None => Ok(Tested::Right { is_cut: run.is_cut }),
    }
}

/// The policy of a run by an order. The order of a task has no fault, so one that has is told as memory.
///
/// # Errors
/// The order has a fault.
pub(crate) fn policy_of<'a, 'b>(
    task: SearchTask<'a>,
    inputs: &'b Inputs,
    order: Order,
) -> Result<Policy<'b>, Fault<'a>>
    ensures ok { IfOk result (λ policy. policy
        ≡ rules_of (record task.entry.drive { order = order }) (given_of inputs.now).keys) }
    ensures err { IfErr result (λ fault. fault ≡ faults.Memory) }
{
    match Policy::new(order, task.drive.transfer, task.drive.gap, &inputs.keys) {
        Ok(policy) => Ok(policy),
        Err(_) => Err(Fault::Memory),
    }
}

// Goes on with a run that was begun, and judges the whole of it.
fn judge_begun<'a>(
    task: SearchTask<'a>,
    inputs: &Inputs,
    first: First,
    policy: &Policy,
    cursor: Cursor,
    begun: BegunRun,
) -> Result<JudgedRun, Fault<'a>>
    ensures ok { IfOk result (λ run. (s u : State) (fs : List EventValue)
        → IsFirstOf (criteria_of (given_of inputs.now)) s fs u first
        → AreKeysBehind (criteria_of (given_of inputs.now)) fs u policy.now
        → IsBegun policy.now (most_of task.entry (given_of inputs.now)) fs u cursor begun.core.value.state begun.events.items
        → IsKeptOf (criteria_of (given_of inputs.now)) s begun.events.items begun.steps
        → IsRunBehind policy.now (most_of task.entry (given_of inputs.now)) (criteria_of (given_of inputs.now)) s fs u run) }
    ensures fault { IfErr result IsNoMemory }
{
    let mut core = begun.core;
    let n = inputs.most(task);
    match judge_rest(
        &mut *core,
        policy,
        cursor,
        n,
        first,
        begun.events,
        begun.steps,
        &inputs.goal(),
    ) {
        Ok(run) => Ok(run),
        Err(_) => Err(Fault::Memory),
    }
}

/// Makes and judges a run by an order, behind a start.
///
/// # Errors
/// Memory was refused.
pub(crate) fn run_order<'a>(
    alloc: Global,
    start: &Start,
    task: SearchTask<'a>,
    inputs: &Inputs,
    order: Order,
) -> Result<JudgedRun, Fault<'a>>
    ensures ok { IfOk result (IsRunFrom start.now task.entry (given_of inputs.now) order) }
    ensures fault { IfErr result IsNoMemory }
{
    let policy = policy_of(task, inputs, order)?;
    let begun = start.copy_run(alloc)?;
    let cursor = Cursor::new(&policy, &*begun.core);
    judge_begun(task, inputs, start.first, &policy, cursor, begun)
}

/// The same run by turns with delays, from one of its points on.
///
/// # Errors
/// Memory was refused.
pub(crate) fn run_from<'a>(
    alloc: Global,
    start: &Start,
    task: SearchTask<'a>,
    inputs: &Inputs,
    turns: u32,
    delays: &Delays,
    point: &RunPoint,
) -> Result<JudgedRun, Fault<'a>>
    ensures ok { IfOk result (λ run. IsPointOf start.now task.entry (given_of inputs.now) turns (delays_of delays.now) point.now
        → IsRunFrom start.now task.entry (given_of inputs.now) (Delayed turns delays.now) run) }
    ensures fault { IfErr result IsNoMemory }
{
    let order = Order::Delayed {
        turns,
        delays: *delays,
    };
    let policy = policy_of(task, inputs, order)?;
    let Some(cursor) = point.cursor_of(delays) else {
        return Err(Fault::Memory);
    };
    let begun = point.copy_run(alloc)?;
    judge_begun(task, inputs, start.first, &policy, cursor, begun)
}
