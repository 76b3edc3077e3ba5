//! The workers of a run in threads: how they call the gate, which cause is told, and seats for any
//! number of processors.

ghost use Rattle.std.specs.Prelude.{◌≡◌, length};

use super::left::Left::{Count, Entries};
use super::left::{check_log, compare};
use super::same;
use super::threads::{LOOP, Locked, boot, run_on};
use m161::Machine;
use m161_threads::{Cause, Gate};
use std::marker::Brand;
use std::process::Abort;
use std::sync::ledger::{Blank, Ledger};
use std::sync::{Mutex, Wait};
use std::test::Fail;
use std::thread;
use std::time::{Clock, Duration};

/// How many Steps each processor makes.
const QUOTA: u32 = 100;

/// A gate that lists its calls: a processor, and its Step. Before each Step a processor waits until
/// the other one has come as far.
#[derive(Drop)]
struct Listing<'a, R: Clock + Wait> {
    rt: &'a R,
    calls: Mutex<Vec<(u32, u32)>>,
}

impl<R: Clock + Wait> Listing<'_, R> {
    /// Whether a call is in the list.
    fn has(&self, call: (u32, u32)) -> bool {
        self.calls.lock(self.rt).contains(&call)
    }
}

impl<R: Clock + Wait> Gate for Listing<'_, R> {
    fn pass(&self, p: u32, k: u32) -> bool {
        if self.calls.lock(self.rt).push((p, k)).is_err() {
            return false;
        }
        for _ in 0..10_000 {
            if self.has((p ^ 1, k)) {
                return true;
            }
            thread::sleep(self.rt, Duration::from_millis(1));
        }
        false
    }
}

/// Fails the test where the calls of each of two processors aren't those for its Steps, in order.
fn check_calls(rt: &impl Abort, calls: &[(u32, u32)]) {
    for p in 0..2 {
        same(
            rt,
            calls.iter().filter(|call| call.0 == p).count(),
            QUOTA as usize,
        );
        for (call, k) in calls.iter().filter(|call| call.0 == p).zip(0..QUOTA) {
            same(rt, *call, (p, k));
        }
    }
    same(rt, calls.len(), 2 * QUOTA as usize);
}

// Both processors meet before each Step. Who calls the gate with the lock in hand keeps the other one
// from coming as far, and is held.
#[test]
fn gate_calls(rt: HostRuntime) -> Result<(), Fail> {
    let name = "the calls of the gate";
    let (file, machine) = boot(rt.alloc(), &LOOP, 2, 2 * QUOTA)?;
    let gate = Listing {
        rt: &rt,
        calls: Mutex::new(Vec::new(rt.alloc())),
    };
    let (machine, cause) = run_on(&rt, name, machine, &[QUOTA, QUOTA], &gate);
    same(&rt, cause, None);
    check_calls(&rt, gate.calls.into_inner().as_slice());
    let left = [(0, Count(100)), (1, Count(100)), (0, Entries(200))];
    compare(&rt, name, &machine, &left);
    check_log(&rt, name, &file, &machine)
}

/// A gate that is closed for a Step of each processor.
#[derive(Drop)]
struct BothClosed {
    first: u32,
    second: u32,
}

impl Gate for BothClosed {
    fn pass(&self, p: u32, k: u32) -> bool {
        k != if p == 0 { self.first } else { self.second }
    }
}

#[test]
fn lowest_cause(rt: HostRuntime) -> Result<(), Fail> {
    let name = "two workers with a cause";
    let (file, machine) = boot(rt.alloc(), &LOOP, 2, 16)?;
    let gate = BothClosed {
        first: 3,
        second: 1,
    };
    let (machine, cause) = run_on(&rt, name, machine, &[5, 5], &gate);
    same(&rt, cause, Some(Cause::Held { p: 0, k: 3 }));
    let left = [(0, Count(3)), (1, Count(1)), (0, Entries(4))];
    compare(&rt, name, &machine, &left);
    check_log(&rt, name, &file, &machine)
}

/// Puts a machine behind a lock, looks at its seats, and gives the machine back.
fn lock_and_finish<L: Ledger, M: Ledger, R: Wait + Abort + AllocGlobal>(
    rt: &R,
    steps: Blank,
    offs: Blank,
    machine: Machine,
) -> Result<Machine, Fail>
    requires steps { (steps.name ≡ L.name) × (steps.parts ≡ L.parts)
        × (L.parts ≡ length machine.state.processors) }
    requires offs { (offs.name ≡ M.name) × (offs.parts ≡ M.parts)
        × (M.parts ≡ length machine.state.processors) }
{
    let processors = machine.processors();
    let (locked, seats) = match Locked::<L, M>::new(rt.alloc(), steps, offs, machine) {
        Ok(parts) => parts,
        Err((_, error)) => return Err(error.into()),
    };
    same(rt, seats.len(), processors as usize);
    for (seat, processor) in seats.iter().zip(0..processors) {
        same(rt, (seat.processor(), seat.count()), (processor, 0));
    }
    match locked.finish(seats) {
        Ok(machine) => Ok(machine),
        Err(wrong) => Err(Fail::new(wrong.processor)),
    }
}

/// The same with ledgers of its own.
fn lock_branded<R: Wait + Abort + AllocGlobal>(rt: &R, machine: Machine) -> Result<Machine, Fail> {
    let steps = Blank::new(u64::from(machine.processors()));
    let offs = Blank::new(u64::from(machine.processors()));
    lock_and_finish::<Brand, Brand, R>(rt, steps, offs, machine)
}

#[test]
fn locked_of_any_number(rt: HostRuntime) -> Result<(), Fail> {
    for processors in 1..33 {
        let (_, machine) = boot(rt.alloc(), &LOOP, processors, 16)?;
        let start = machine.copy_start(rt.alloc())?;
        let machine = lock_branded(&rt, machine)?;
        same(&rt, machine.processors(), processors);
        same(&rt, machine.starts_as(&start), true);
    }
    Ok(())
}
