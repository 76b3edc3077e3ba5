//! The runs of lists of delays, from boot.

ghost use Rattle.std.specs.Prelude.{◌≡◌, ℕ, IfOk, List, OnOk};
ghost use Rattle.m161_order.specs.declared.order.Order.TheVariants.{Delayed};
ghost use Rattle.m161_order.specs.Delays.{delays_of};
ghost use Rattle.m161_c.specs.Driven.{rules_in};
ghost use Rattle.m161_c.specs.helpers.Points.{IsPointOf, IsRunFrom};

use crate::points::{RunPoint, go_along};
use crate::seeds::{Task, WrongRun, policy_of};
use m161::{Console, Tlb};
use m161_delays::{Delays, Runs, Tested};
use m161_drive::{Order, Policy};
use m161_judge::{Booted, First, Goal, JudgedRun, StepMemory, judge_rest};
use m161_reach::{Machines, tell_run};
use std::alloc::{AllocError, Global};

/// Makes the runs of lists of delays, by turns of so many Steps.
#[derive(Drop)]
pub struct ListRuns<'a, 'b> {
    /// Where memory comes from.
    pub alloc: Global,
    /// The machine at boot.
    pub booted: &'a Booted<Tlb, Console>,
    /// What is kept of the Steps before the first event.
    pub steps: &'a StepMemory<Tlb, Console>,
    /// What is asked of the states behind a run.
    pub ends: &'a Machines<'a, Tlb, Console>,
    /// What the runs are made of.
    pub task: &'a Task<'b, 'b>,
    /// How many Steps a turn has.
    pub turns: u32,
}

impl<'a, 'b> ListRuns<'a, 'b> {
    // The policy of a list's run.
    fn policy(&self, delays: &Delays) -> Result<Policy<'b>, AllocError>
        ensures { IfOk result (λ policy. policy
            ≡ rules_in self.now.task.now.numbers (Delayed self.now.turns delays.now) self.now.task.now.goal.keys) }
    {
        let order = Order::Delayed {
            turns: self.turns,
            delays: *delays,
        };
        let task = self.task;
        let goal = task.goal;
        policy_of(&task.numbers, order, goal.keys)
    }

    // How many events a run has at most.
    fn most(&self) -> u64
        ensures { result ≡ self.now.task.now.events }
    {
        let task = self.task;
        task.events
    }

    // By what a run is judged.
    fn goal(&self) -> &'b Goal<'b>
        ensures { result.now ≡ self.now.task.now.goal }
    {
        let task = self.task;
        task.goal
    }

    // A point goes back to the start, from which every list's run goes on.
    fn start_again(&self, point: &mut RunPoint) -> Result<(), AllocError>
        ensures { OnOk result ((numbers : List ℕ)
            → IsPointOf self.now.task.now self.now.booted.now self.now.steps.now self.now.turns numbers point.new) }
    {
        *point = self.start()?;
        Ok(())
    }

    // The run of a list, from one of its points on.
    fn run_from(&self, delays: &Delays, point: &RunPoint) -> Result<JudgedRun, AllocError>
        ensures { IfOk result (λ run.
            IsPointOf self.now.task.now self.now.booted.now self.now.steps.now self.now.turns (delays_of delays.now) point.now
            → IsRunFrom self.now.task.now self.now.booted.now self.now.steps.now (Delayed self.now.turns delays.now) run) }
    {
        let policy = self.policy(delays)?;
        let Some(cursor) = point.cursor_of(delays) else {
            return Err(AllocError);
        };
        let begun = point.copy_run(self.alloc)?;
        let mut core = begun.core;
        match judge_rest(
            &mut *core,
            &policy,
            cursor,
            self.most(),
            First::none(),
            begun.events,
            begun.steps,
            self.goal(),
        ) {
            Ok(run) => Ok(run),
            Err(_) => Err(AllocError),
        }
    }
}

impl<'a, 'b> Runs for ListRuns<'a, 'b> {
    ghost use Rattle.m161_c.specs.Delays.{offered_by};
    ghost use Rattle.m161_c.specs.helpers.Listing.{IsRightFrom, IsWrongFrom};
    ghost use Rattle.m161_c.specs.helpers.Offers.{offers_alike};
    ghost use Rattle.m161_c.specs.helpers.Points.{IsPointOf};

    type Wrong = WrongRun;

    type Error = AllocError;

    type Point = RunPoint;

    ghost is_on = { λ r. IsPointOf r.task.now r.booted.now r.steps.now r.turns };

    ghost offers = { λ r. offered_by r.task.now r.turns r.booted.now };

    ghost right = { λ r. IsRightFrom r.task.now r.booted.now r.ends.now r.steps.now r.turns };

    ghost wrong = { λ r. IsWrongFrom r.task.now r.booted.now r.ends.now r.steps.now r.turns };

    ghost fails = { λ r error. Unit {0} };

    fn offers(&self, delays: &Delays, counts: &mut Vec<u8>) -> Result<(), AllocError> {
        let policy = self.policy(delays)?;
        let mut core = self.booted.copy_core(self.alloc)?;
        m161_places::offers(&mut core, &policy, self.most(), counts)?;
        Ok(())
    }

    fn start(&self) -> Result<RunPoint, AllocError> {
        let policy = self.policy(&Delays::none())?;
        RunPoint::start(self.alloc, self.booted, self.steps, &policy)
    }

    fn copy(&self, point: &RunPoint) -> Result<RunPoint, AllocError> {
        let Some(cursor) = point.cursor_of(&Delays::none()) else {
            return self.start();
        };
        let run = point.copy_run(self.alloc)?;
        Ok(RunPoint {
            core: run.core,
            cursor,
            events: run.events,
            passed: point.passed,
            steps: run.steps,
        })
    }

    fn advance(&self, delays: &Delays, place: u32, point: &mut RunPoint) -> Result<(), AllocError> {
        let policy = self.policy(delays)?;
        let Some(cursor) = point.cursor_of(delays) else {
            return self.start_again(point);
        };
        point.cursor = cursor;
        let RunPoint {
            core,
            cursor,
            events,
            passed,
            steps,
        } = point;
        let left = self.most().saturating_sub(events.len() as u64);
        let more = place.saturating_sub(*passed);
        match go_along(
            core,
            &policy,
            cursor,
            left,
            more,
            events,
            steps,
            self.goal(),
        )? {
            Some(made) => {
                *passed += made;
                Ok(())
            }
            None => self.start_again(point),
        }
    }

    fn judge_from(
        &self,
        delays: &Delays,
        point: &RunPoint,
    ) -> Result<Tested<WrongRun>, AllocError> {
        let run = self.run_from(delays, point)?;
        let task = self.task;
        match tell_run(self.alloc, self.ends, task.few, &run)? {
            Some(told) => Ok(Tested::Wrong(WrongRun { run, told })),
            None => Ok(Tested::Right { is_cut: run.is_cut }),
        }
    }

    fn refused(&self) -> AllocError {
        AllocError
    }

    ghost alike = { λ r. offers_alike r.task.now r.turns r.booted.now };
}
