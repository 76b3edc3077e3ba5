//! Points of the runs of lists of delays.

ghost use Rattle.std.specs.Prelude.{◌≡◌, ◌≢◌, IfOk, IfSome, MatchOption, OnOk, [], slice_get};
ghost use Rattle.m161_drive.specs.declared.orders.OrderState.TheVariants.{ByDelays};
ghost use Rattle.m161_drive.specs.Choice.{cursor_at};
ghost use Rattle.m161_drive.specs.Delayed.{DelayState};
ghost use Rattle.m161_drive.specs.GoingOn.{IsWithLeft};
ghost use Rattle.m161_order.specs.Delays.{behind, delays_of};
ghost use Rattle.m161_places.specs.Going.{PassesNoting};
ghost use Rattle.m161_c.specs.helpers.Points.{KeepsFrom};

use crate::asked::boot_core;
use m161::{Console, Core, Tlb};
use m161_delays::Delays;
use m161_drive::{Cursor, Policy};
use m161_judge::{Booted, Event, Goal, StepMemory};
use std::alloc::{AllocError, Global};

/// A point of a run: the first events, and where they led.
#[derive(Drop)]
pub struct RunPoint {
    /// The machine. In a box, since a point is given from call to call.
    pub core: Box<Core>,
    /// The cursor of the policy.
    pub cursor: Cursor,
    /// The events that were made.
    pub events: Vec<Event>,
    /// How many places they passed.
    pub passed: u32,
    /// What is kept of their Steps, to judge the rest.
    pub steps: StepMemory<Tlb, Console>,
}

/// What it takes to go on with a run.
#[derive(Drop)]
pub struct BegunRun {
    /// The machine.
    pub core: Box<Core>,
    /// The events that were made.
    pub events: Vec<Event>,
    /// What is kept of their Steps.
    pub steps: StepMemory<Tlb, Console>,
}

// Keeps of the Steps of a run what it takes to judge the rest: these are all of its events so far.
fn keep_on(
    steps: &mut StepMemory<Tlb, Console>,
    events: &[Event],
    goal: &Goal,
) -> Result<(), AllocError>
    ensures { OnOk result (KeepsFrom goal.now events.now steps.old steps.new) }
{
    match steps.go_on(events, goal) {
        Ok(()) => Ok(()),
        Err(_) => Err(AllocError),
    }
}

/// Goes on along a run, as `m161_places::advance` does, and keeps of its Steps what it takes to judge the
/// rest.
pub(crate) fn go_along(
    core: &mut Box<Core>,
    policy: &Policy,
    cursor: &mut Cursor,
    n: u64,
    places: u32,
    events: &mut Vec<Event>,
    steps: &mut StepMemory<Tlb, Console>,
    goal: &Goal,
) -> Result<Option<u32>, AllocError>
    ensures went { IfOk result (λ made. IfSome made (λ passed.
        PassesNoting policy.now (slice_get policy.now.keys) n places cursor.old core.old.value.state events.old.items passed
        cursor.new core.new.value.state events.new.items)) }
    ensures kept { OnOk result (KeepsFrom goal.now events.new.items steps.old steps.new) }
{
    let made = m161_places::advance(&mut **core, policy, cursor, n, places, events)?;
    keep_on(steps, events, goal)?;
    Ok(made)
}

// The same events again.
fn copy_events(alloc: Global, events: &[Event]) -> Result<Vec<Event>, AllocError>
    ensures { IfOk result (λ copy. copy.items ≡ events.now) }
{
    let mut copy = Vec::with_capacity(alloc, events.len())?;
    copy.extend_from_slice(events)?;
    Ok(copy)
}

impl RunPoint {
    /// The point before the first event of an order, where this is kept of no Steps.
    pub(crate) fn start(
        alloc: Global,
        booted: &Booted<Tlb, Console>,
        steps: &StepMemory<Tlb, Console>,
        policy: &Policy,
    ) -> Result<RunPoint, AllocError>
        ensures { IfOk result (λ point. (point.core.value.state ≡ booted.now)
            × (point.cursor ≡ cursor_at policy.now booted.now)
            × (point.events.items ≡ []) × (point.passed ≡ 0) × (point.steps ≡ steps.now)) }
    {
        let core = boot_core(alloc, booted)?;
        let cursor = Cursor::new(policy, &*core);
        let steps = steps.copy(alloc)?;
        Ok(RunPoint {
            core,
            cursor,
            events: Vec::new(alloc),
            passed: 0,
            steps,
        })
    }

    /// The cursor, with the delays of a list that are left here; none if the order has no delays.
    pub(crate) fn cursor_of(&self, delays: &Delays) -> Option<Cursor>
        ensures { MatchOption result ((d : DelayState) → self.now.cursor.order ≢ ByDelays d)
            (IsWithLeft self.now.cursor (behind self.now.passed (delays_of delays.now))) }
    {
        let mut left = *delays;
        left.pass(u64::from(self.passed));
        self.cursor.with_left(left)
    }

    /// The machine, the events and what is kept of their Steps again, to go on with.
    pub(crate) fn copy_run(&self, alloc: Global) -> Result<BegunRun, AllocError>
        ensures { IfOk result (λ run. (run.core.value.state ≡ self.now.core.value.state) × (run.events.items ≡ self.now.events.items)
            × (run.steps ≡ self.now.steps)) }
    {
        let core = Box::new(alloc, self.core.copy(alloc)?)?;
        let events = copy_events(alloc, &self.events)?;
        let steps = self.steps.copy(alloc)?;
        Ok(BegunRun {
            core,
            events,
            steps,
        })
    }
}
