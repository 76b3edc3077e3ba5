//! A run in threads.

ghost use Rattle.std.specs.Prelude.{◌≡◌, ◌≤◌, IfErr, IfOk, MatchResult, None, length, vec_len};
ghost use Rattle.m161_machine.specs.History.{IsReplay};
ghost use Rattle.m161_threads.specs.Runs.{FailsRun, Interleaves, IsOfRun, bad_call, is_burst};
ghost use Rattle.m161_threads.specs.helpers.Runs.{FailsLater, IsChecked};
ghost use Rattle.m161_threads.specs.helpers.Work.{HasWorked};

use crate::before::Before;
use crate::book::Seat;
use crate::locked::{Locked, Miscount};
use crate::tally::{Tally, take_apart, total};
use crate::worker::{StartLine, run_workers};
use m161_bus::Console;
use m161_cause::Cause;
use m161_machine::Machine;
use m161_tlb::Tlb;
use std::alloc::Global;
use std::marker::Brand;
use std::sync::Wait;
use std::sync::ledger::{Blank, Ledger};
use std::thread::Threads;

/// A worker calls this before each of its bursts, without the lock: so it may wait, also for
/// another worker.
pub trait Gate {
    /// Whether processor `p` may make the burst whose first Step is its Step number `k` of the run,
    /// from 0 on. `false` ends its part of the run.
    fn pass(&self, p: u32, k: u32) -> bool;
}

/// The result of a run in threads.
#[derive(Drop)]
pub struct Report<T: Tlb, D: Console> {
    /// The machine after the run.
    pub machine: Machine<T, D>,
    /// How many Steps of the run each processor made.
    pub counts: Vec<u32>,
    /// Whether the machine is off.
    pub off: bool,
}

/// A run in threads that has no report.
#[derive(Drop)]
pub struct RunFault<T: Tlb, D: Console> {
    /// The machine, with the Steps that were made.
    pub machine: Machine<T, D>,
    /// The cause.
    pub cause: Cause,
}

/// Runs a machine in threads: each processor has a worker of its own, which makes its quota of
/// Steps, and takes the lock for each. No worker makes a Step before all are started. A worker
/// stops if it finds the machine off or worn, or if the gate stops it; the others continue. The
/// order of the Steps is the host's choice, and two runs may differ; the machine's log says which
/// interleaving was made. The call blocks until all workers have ended, and nothing bounds that
/// time.
///
/// # Errors
/// The number of quotas; or the cause of the lowest processor that has one; or the workers' results
/// don't fit the machine. The machine is returned, with the Steps that were made.
#[inline(never)]
pub fn run<T, D, R, G>(
    rt: &R,
    alloc: Global,
    machine: Machine<T, D>,
    quotas: &[u32],
    gate: &G,
) -> Result<Report<T, D>, RunFault<T, D>>
where
    T: Tlb + Send,
    D: Console + Send,
    R: Threads + Wait + Sync,
    G: Gate + Sync,
    ensures ok { IfOk result (λ r.
        Interleaves machine quotas.now r.counts.items r.off r.machine) }
    ensures begun { IfOk result (λ r.
        bad_call (length quotas.now) (length machine.state.processors) 1 ≡ None) }
    ensures err { IfErr result (λ f. FailsRun
        (bad_call (length quotas.now) (length machine.state.processors) 1)
        machine f.cause f.machine) }
    ensures replay { MatchResult result (λ r. IsReplay r.machine) (λ f. IsReplay f.machine) }
{
    run_bursts(rt, alloc, machine, quotas, gate, 1)
}

/// Runs a machine in threads as `run` does, but a worker that holds the lock makes up to `longest`
/// Steps, cut to what is left of its quota: a burst. Longer bursts make a run faster, and leave
/// fewer interleavings to the host's choice.
///
/// # Errors
/// The number of quotas, then the length of the bursts, which has to be 1 to 1,024; or those of
/// `run`.
#[inline(never)]
pub fn run_bursts<T, D, R, G>(
    rt: &R,
    alloc: Global,
    machine: Machine<T, D>,
    quotas: &[u32],
    gate: &G,
    longest: u32,
) -> Result<Report<T, D>, RunFault<T, D>>
where
    T: Tlb + Send,
    D: Console + Send,
    R: Threads + Wait + Sync,
    G: Gate + Sync,
    ensures ok { IfOk result (λ r.
        Interleaves machine quotas.now r.counts.items r.off r.machine) }
    ensures begun { IfOk result (λ r.
        bad_call (length quotas.now) (length machine.state.processors) longest ≡ None) }
    ensures err { IfErr result (λ f. FailsRun
        (bad_call (length quotas.now) (length machine.state.processors) longest)
        machine f.cause f.machine) }
    ensures replay { MatchResult result (λ r. IsReplay r.machine) (λ f. IsReplay f.machine) }
{
    machine.replay();
    let processors = machine.processors();
    if quotas.len() != processors as usize {
        return Err(RunFault {
            cause: Cause::BadQuotas,
            machine,
        });
    }
    if !is_burst(longest) {
        return Err(RunFault {
            cause: Cause::BadBurst,
            machine,
        });
    }
    let steps = Blank::new(u64::from(processors));
    let offs = Blank::new(u64::from(processors));
    run_counted::<Brand, Brand, T, D, R, G>(rt, alloc, steps, offs, machine, quotas, gate, longest)
}

// Whether a worker may make so many Steps under one holding of the lock.
fn is_burst(longest: u32) -> bool
    ensures { result ≡ is_burst longest }
{
    (1..=1024).contains(&longest)
}

// A run whose Steps these ledgers count.
#[inline(never)]
fn run_counted<L, M, T, D, R, G>(
    rt: &R,
    alloc: Global,
    steps: Blank,
    offs: Blank,
    machine: Machine<T, D>,
    quotas: &[u32],
    gate: &G,
    longest: u32,
) -> Result<Report<T, D>, RunFault<T, D>>
where
    L: Ledger + Send + Sync,
    M: Ledger + Send + Sync,
    T: Tlb + Send,
    D: Console + Send,
    R: Threads + Wait + Sync,
    G: Gate + Sync,
    requires steps { (steps.name ≡ L.name) × (steps.parts ≡ L.parts)
        × (L.parts ≡ length machine.state.processors) }
    requires offs { (offs.name ≡ M.name) × (offs.parts ≡ M.parts)
        × (M.parts ≡ length machine.state.processors) }
    requires quotas { length quotas.now ≡ length machine.state.processors }
    requires few { length machine.state.processors ≤ 32 }
    requires longest { 1 ≤ longest }
    ensures ok { IfOk result (λ r.
        Interleaves machine quotas.now r.counts.items r.off r.machine) }
    ensures err { IfErr result (λ f. FailsRun None machine f.cause f.machine) }
    ensures replay { IfOk result (λ r. IsReplay r.machine) }
{
    machine.replay();
    let before = match Before::of(alloc, &machine) {
        Ok(before) => before,
        Err(_) => {
            return Err(RunFault {
                cause: Cause::NoMemory,
                machine,
            });
        }
    };
    let (locked, seats) = match Locked::<L, M, T, D>::new(alloc, steps, offs, machine) {
        Ok(parts) => parts,
        Err((machine, _)) => {
            return Err(RunFault {
                cause: Cause::NoMemory,
                machine,
            });
        }
    };
    match run_seats(rt, alloc, &locked, gate, seats, quotas, longest) {
        Ok(tally) => {
            let report = checked_report(locked, &before, tally)?;
            Ok(report)
        }
        Err(cause) => Err(checked_fault(locked.into_machine(), &before, cause)),
    }
}

// The fault of a run, unless the machine can't be the one that was passed in.
#[inline(never)]
fn checked_fault<T: Tlb, D: Console>(
    machine: Machine<T, D>,
    before: &Before,
    cause: Cause,
) -> RunFault<T, D>
    requires { IsOfRun cause }
    ensures { FailsLater before.now result.cause result.machine }
{
    machine.replay();
    let cause = match before.steps_to(&machine) {
        Some(_) => cause,
        None => Cause::Swapped,
    };
    RunFault { machine, cause }
}

// Runs a worker for each seat, and returns their results.
fn run_seats<L, M, T, D, R, G>(
    rt: &R,
    alloc: Global,
    locked: &Locked<L, M, T, D>,
    gate: &G,
    seats: Vec<Seat<L, M>>,
    quotas: &[u32],
    longest: u32,
) -> Result<Tally<L, M>, Cause>
where
    L: Ledger + Send + Sync,
    M: Ledger + Send + Sync,
    T: Tlb + Send,
    D: Console + Send,
    R: Threads + Wait + Sync,
    G: Gate + Sync,
    requires seats { vec_len seats ≡ length quotas.now }
    requires longest { 1 ≤ longest }
    ensures worked { IfOk result (λ t.
        HasWorked seats.items quotas.now t.seats.items t.counts.items) }
    ensures cause { IfErr result (λ cause. IsOfRun cause) }
{
    let line = StartLine::new();
    let worked = run_workers(
        rt,
        alloc,
        locked.book(),
        gate,
        &line,
        seats,
        quotas,
        longest,
    )?;
    let tally = take_apart(alloc, worked)?;
    Ok(tally)
}

// The report of a run, if the workers' results fit the machine.
#[inline(never)]
fn checked_report<L: Ledger, M: Ledger, T: Tlb, D: Console>(
    locked: Locked<L, M, T, D>,
    before: &Before,
    tally: Tally<L, M>,
) -> Result<Report<T, D>, RunFault<T, D>>
    requires { vec_len tally.counts ≤ 32 }
    ensures ok { IfOk result (λ r. IsChecked before.now
        tally.seats.items tally.counts.items r.off r.machine) }
    ensures counts { IfOk result (λ r. r.counts.items ≡ tally.counts.items) }
    ensures err { IfErr result (λ f. FailsLater before.now f.cause f.machine) }
{
    let Tally { seats, counts } = tally;
    let machine = match locked.finish(seats) {
        Ok(machine) => machine,
        Err(
            Miscount {
                processor: _,
                machine,
            },
        ) => {
            return Err(checked_fault(machine, before, Cause::Miscount));
        }
    };
    machine.replay();
    match before.steps_to(&machine) {
        Some(made) if made == total(counts.as_slice()) => {
            let off = machine.is_off();
            Ok(Report {
                machine,
                counts,
                off,
            })
        }
        _ => Err(RunFault {
            cause: Cause::Swapped,
            machine,
        }),
    }
}
