//! The runs of a search.

ghost use Rattle.std.specs.Prelude.{◌≡◌, IfErr, IfOk};
ghost use Rattle.s161_search.specs.helpers.Begun.{BeginsAt, IsBareFault};
ghost use Rattle.s161_search.specs.helpers.Delayed.{BeginsBehind, IsNoMemory};
ghost use Rattle.s161_search.specs.helpers.Inputs.{given_of};
ghost use Rattle.s161_search.specs.Seeds.{seed_at, seed_of, with_seed};
ghost use Rattle.s161_search.specs.helpers.Tried.{IsTried};

use crate::audit::fault_of_audit;
use crate::basis::Basis;
use crate::inputs::Inputs;
use crate::orders::{WrongRun, run_order, tested};
use m161::{Console, Tlb};
use m161_jobs::{Tested, Trials, Tried, try_each};
use m161_judge::Booted;
use m161_order::Order;
use s161_base::fault::Fault;
use s161_progress::Unit;
use std::alloc::Global;
use std::thread::Threads;

// The seed of an order; one by turns has none.
fn seed_of(order: Order) -> u64
    ensures { result ≡ seed_of order }
{
    match order {
        Order::Turns(_) | Order::Delayed { .. } => 0,
        Order::Random(seed) => seed,
        Order::Priorities { seed, .. } => seed,
    }
}

/// The seed so many places behind that of an order.
pub(crate) fn seed_at(order: Order, k: u32) -> u64
    ensures { result ≡ seed_at order k }
{
    seed_of(order).wrapping_add(u64::from(k))
}

// The same order with another seed.
fn with_seed(seed: u64, order: Order) -> Order
    ensures { result ≡ with_seed seed order }
{
    match order {
        Order::Turns(_) | Order::Delayed { .. } => order,
        Order::Random(_) => Order::Random(seed),
        Order::Priorities {
            changes,
            within,
            ..
        } => Order::Priorities {
            seed,
            changes,
            within,
        },
    }
}

/// The order of a run.
pub(crate) fn order_at(order: Order, k: u32) -> Order
    ensures { result ≡ with_seed (seed_at order k) order }
{
    with_seed(seed_at(order, k), order)
}

/// The state at boot, from which all runs begin.
///
/// # Errors
/// The image can't be booted.
pub(crate) fn boot<'a>(alloc: Global, inputs: &Inputs) -> Result<Booted<Tlb, Console>, Fault<'a>>
    ensures ok { IfOk result (BeginsAt (given_of inputs.now)) }
    ensures fault { IfErr result (IsBareFault (given_of inputs.now)) }
{
    match Booted::new(alloc, &inputs.file, inputs.first.conf) {
        Ok(booted) => Ok(booted),
        Err(error) => Err(fault_of_audit(error, &inputs.file, inputs.first.conf.ram)),
    }
}

// The trials of a basis are the runs of its seeds.
impl<'a, 'b> Trials for Basis<'a, 'b> {
    ghost use Rattle.s161_search.specs.helpers.Delayed.{IsNoMemory, IsSeedRightFrom, IsSeedWrongFrom};
    ghost use Rattle.s161_search.specs.helpers.Inputs.{given_of};

    type Wrong = WrongRun;

    type Error = Fault<'a>;

    ghost has = { λ r k. Unit {0} };

    ghost right = { λ r. IsSeedRightFrom r.start.now r.ends.now r.task (given_of r.inputs.now) };

    ghost wrong = { λ r. IsSeedWrongFrom r.start.now r.ends.now r.task (given_of r.inputs.now) };

    ghost fails = { λ r. IsNoMemory };

    fn judge(&self, place: u32) -> Result<Tested<WrongRun>, Fault<'a>> {
        let order = order_at(self.task.drive.order, place);
        let run = run_order(self.alloc, self.start, self.task, self.inputs, order)?;
        let tested = tested(self.alloc, self.ends, self.task.hung, run)?;
        self.progress.add(1);
        Ok(tested)
    }

    fn refused(&self) -> Fault<'a> {
        Fault::Memory
    }
}

/// Makes the runs of the seeds, up to the first that goes wrong.
///
/// # Errors
/// A run can't be made.
pub(crate) fn try_seeds<'a, R: Threads + Sync>(
    rt: &R,
    basis: &Basis<'a, '_>,
) -> Result<Tried<WrongRun>, Fault<'a>>
    requires begins { BeginsBehind (given_of basis.now.inputs.now) basis.now.start.now basis.now.ends.now }
    ensures ok { IfOk result (IsTried basis.now.task (given_of basis.now.inputs.now)) }
    ensures fault { IfErr result IsNoMemory }
{
    let task = basis.task;
    basis
        .progress
        .begin(Unit::Runs, Some(u64::from(task.seeds)));
    try_each(rt, basis.alloc, basis, task.seeds, task.jobs)
}
