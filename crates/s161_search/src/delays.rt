//! The runs of a search by delays.

ghost use Rattle.std.specs.Prelude.{◌≡◌, ℕ, ◌≤◌, IfErr, IfOk, List, OnOk};
ghost use Rattle.m161_order.specs.declared.order.Order.TheVariants.{Delayed};
ghost use Rattle.s161_base.specs.declared.fault.Fault.TheVariants as faults;
ghost use Rattle.s161_run.specs.Driven.{rules_of};
ghost use Rattle.s161_search.specs.Delays.{class_of};
ghost use Rattle.s161_search.specs.helpers.Delayed.{BeginsBehind, IsNoMemory};
ghost use Rattle.s161_search.specs.helpers.Inputs.{given_of};
ghost use Rattle.s161_search.specs.helpers.Points.{IsPointOf};
ghost use Rattle.s161_search.specs.helpers.Tried.{IsSearchedBy};

use crate::basis::Basis;
use crate::orders::{WrongRun, policy_of, run_from, tested};
use crate::points::{RunPoint, go_along};
use m161_delays::{Class, Delays, Runs, Searched, Tested, search_lists};
use m161_drive::Policy;
use m161_order::Order;
use s161_base::fault::Fault;
use s161_command::DelayClass;
use s161_progress::Unit;
use std::thread::Threads;

/// Makes the runs of lists of delays.
#[derive(Drop)]
pub(crate) struct DelayedRuns<'a, 'b> {
    /// What they are made over.
    pub basis: &'b Basis<'a, 'b>,
    /// How many Steps a turn has.
    pub turns: u32,
}

impl<'a, 'b> DelayedRuns<'a, 'b> {
    // The policy of a list's run.
    fn policy(&self, delays: &Delays) -> Result<Policy<'b>, Fault<'a>>
        ensures ok { IfOk result (λ policy. policy
            ≡ rules_of (record self.now.basis.now.task.drive { order = Delayed self.now.turns delays.now }) (given_of self.now.basis.now.inputs.now).keys) }
        ensures err { IfErr result (λ fault. fault ≡ faults.Memory) }
    {
        let order = Order::Delayed {
            turns: self.turns,
            delays: *delays,
        };
        policy_of(self.basis.task, self.basis.inputs, order)
    }

    // A point goes back to the start, from which every list's run goes on.
    fn start_again(&self, point: &mut RunPoint) -> Result<(), Fault<'a>>
        ensures ok { OnOk result ((numbers : List ℕ)
            → IsPointOf self.now.basis.now.start.now self.now.basis.now.task (given_of self.now.basis.now.inputs.now) self.now.turns numbers point.new) }
        ensures err { IfErr result IsNoMemory }
    {
        *point = self.start()?;
        Ok(())
    }
}

impl<'a, 'b> Runs for DelayedRuns<'a, 'b> {
    ghost use Rattle.s161_search.specs.Delays.{offered_by};
    ghost use Rattle.s161_search.specs.helpers.Delayed.{IsNoMemory, IsRightFrom, IsWrongFrom};
    ghost use Rattle.s161_search.specs.helpers.Inputs.{given_of};
    ghost use Rattle.s161_search.specs.helpers.Offers.{offers_alike};
    ghost use Rattle.s161_search.specs.helpers.Points.{IsPointOf};

    type Wrong = WrongRun;

    type Error = Fault<'a>;

    type Point = RunPoint;

    ghost is_on = { λ r. IsPointOf r.basis.now.start.now r.basis.now.task (given_of r.basis.now.inputs.now) r.turns };

    ghost offers = { λ r. offered_by r.basis.now.task (given_of r.basis.now.inputs.now) r.turns r.basis.now.start.now.core.value.state };

    ghost right = { λ r. IsRightFrom r.basis.now.start.now r.basis.now.ends.now r.basis.now.task (given_of r.basis.now.inputs.now) r.turns };

    ghost wrong = { λ r. IsWrongFrom r.basis.now.start.now r.basis.now.ends.now r.basis.now.task (given_of r.basis.now.inputs.now) r.turns };

    ghost fails = { λ r. IsNoMemory };

    fn offers(&self, delays: &Delays, counts: &mut Vec<u8>) -> Result<(), Fault<'a>> {
        let policy = self.policy(delays)?;
        let mut core = self.basis.start.core.copy(self.basis.alloc)?;
        m161_places::offers(
            &mut core,
            &policy,
            self.basis.inputs.most(self.basis.task),
            counts,
        )?;
        Ok(())
    }

    fn start(&self) -> Result<RunPoint, Fault<'a>> {
        let policy = self.policy(&Delays::none())?;
        Ok(RunPoint::start(self.basis.alloc, self.basis.start, &policy)?)
    }

    fn copy(&self, point: &RunPoint) -> Result<RunPoint, Fault<'a>> {
        let Some(cursor) = point.cursor_of(&Delays::none()) else {
            return self.start();
        };
        let run = point.copy_run(self.basis.alloc)?;
        Ok(RunPoint {
            core: run.core,
            cursor,
            events: run.events,
            passed: point.passed,
            steps: run.steps,
        })
    }

    fn advance(&self, delays: &Delays, place: u32, point: &mut RunPoint) -> Result<(), Fault<'a>> {
        let policy = self.policy(delays)?;
        let Some(cursor) = point.cursor_of(delays) else {
            return self.start_again(point);
        };
        point.cursor = cursor;
        let RunPoint {
            core,
            cursor,
            events,
            passed,
            steps,
        } = point;
        let chosen = events.len().saturating_sub(self.basis.start.events.len());
        let left = self
            .basis
            .inputs
            .most(self.basis.task)
            .saturating_sub(chosen as u64);
        let more = place.saturating_sub(*passed);
        match go_along(
            core,
            &policy,
            cursor,
            left,
            more,
            events,
            steps,
            self.basis.inputs,
        )? {
            Some(made) => {
                *passed += made;
                Ok(())
            }
            None => self.start_again(point),
        }
    }

    fn judge_from(&self, delays: &Delays, point: &RunPoint) -> Result<Tested<WrongRun>, Fault<'a>> {
        let run = run_from(
            self.basis.alloc,
            self.basis.start,
            self.basis.task,
            self.basis.inputs,
            self.turns,
            delays,
            point,
        )?;
        let tested = tested(self.basis.alloc, self.basis.ends, self.basis.task.hung, run)?;
        self.basis.progress.add(1);
        Ok(tested)
    }

    fn refused(&self) -> Fault<'a> {
        Fault::Memory
    }

    ghost alike = { λ r. offers_alike r.basis.now.task (given_of r.basis.now.inputs.now) r.turns r.basis.now.start.now.core.value.state };
}

/// The class of lists that a command line asks for.
pub(crate) fn lists_of(class: DelayClass) -> Class
    ensures { result ≡ class_of class }
{
    Class {
        most: class.most,
        from: class.from,
        within: class.within,
    }
}

/// Makes the runs of the useful lists of a class, up to the first that goes wrong.
///
/// # Errors
/// A run can't be made.
pub(crate) fn try_lists<'a, R: Threads + Sync>(
    rt: &R,
    runs: &DelayedRuns<'a, '_>,
    class: DelayClass,
) -> Result<Searched<WrongRun>, Fault<'a>>
    requires begins { BeginsBehind (given_of runs.now.basis.now.inputs.now) runs.now.basis.now.start.now runs.now.basis.now.ends.now }
    requires few { class.most ≤ 64 }
    ensures ok { IfOk result (IsSearchedBy runs.now.basis.now.task (given_of runs.now.basis.now.inputs.now) runs.now.turns (class_of class)) }
    ensures fault { IfErr result IsNoMemory }
{
    let basis = runs.basis;
    basis.progress.begin(Unit::Runs, None);
    search_lists(rt, basis.alloc, runs, lists_of(class), basis.task.jobs)
}
