//! Runs in threads whose workers make several Steps under one holding of the lock, with 1 to 32
//! processors, and with a log that keeps fewer entries than Steps are made.

ghost use Rattle.std.specs.Prelude.{◌≡◌, length};

use super::left::Left::{Count, Entries};
use super::left::{Left, check_log, compare};
use super::same;
use super::threads::{LOOP, Locked, POWER_OFF, boot};
use super::window::{check_base, check_from, sent_and_dropped};
use m161::{Console, Machine, Tlb};
use m161_machine::{Event, Refusal};
use m161_threads::{Burst, Cause, Gate, run_bursts};
use std::marker::Brand;
use std::process::Abort;
use std::sync::ledger::{Blank, Ledger};
use std::sync::{Mutex, Wait};
use std::test::Fail;
use std::thread::Threads;

type Report = m161_threads::Report<Tlb, Console>;

/// A gate that is always open, and lists its calls: a processor, and the first Step of a burst.
#[derive(Drop)]
struct Listing<'a, R: Wait> {
    rt: &'a R,
    calls: Mutex<Vec<(u32, u32)>>,
}

impl<R: Wait> Gate for Listing<'_, R> {
    fn pass(&self, p: u32, k: u32) -> bool {
        self.calls.lock(self.rt).push((p, k)).is_ok()
    }
}

/// Runs a machine in bursts of at most so many Steps: the report, or why there is none and the
/// machine, and the calls of the gate.
fn run_listed<R: Threads + Wait + Sync + AllocGlobal>(
    rt: &R,
    machine: Machine,
    quotas: &[u32],
    longest: u32,
) -> (Result<Report, (Cause, Machine)>, Vec<(u32, u32)>) {
    let gate = Listing {
        rt,
        calls: Mutex::new(Vec::new(rt.alloc())),
    };
    let found = match run_bursts(rt, rt.alloc(), machine, quotas, &gate, longest) {
        Ok(report) => Ok(report),
        Err(fault) => Err((fault.cause, fault.machine)),
    };
    (found, gate.calls.into_inner())
}

/// Fails the test where the calls of a processor aren't those before bursts of `longest` Steps.
fn check_calls(rt: &impl Abort, calls: &[(u32, u32)], p: u32, bursts: u32, longest: u32) {
    let of_processor = calls.iter().filter(|call| call.0 == p);
    same(rt, of_processor.count(), bursts as usize);
    for (call, i) in calls.iter().filter(|call| call.0 == p).zip(0..bursts) {
        same(rt, *call, (p, i.wrapping_mul(longest)));
    }
}

/// How many Steps of a processor a machine keeps in its log, and how many its base has.
fn kept_and_dropped(
    rt: &(impl Abort + AllocGlobal),
    machine: &Machine,
    p: u32,
) -> Result<(u64, u64), Fail> {
    let log = machine.copy_log(rt.alloc())?;
    let kept = log.iter().filter(|entry| entry.event == Event::Step(p));
    let base = machine.base();
    assert!(rt; p < base.processors());
    Ok((kept.count() as u64, base.count(p)))
}

#[test]
fn bursts(rt: HostRuntime) -> Result<(), Fail> {
    let (_, machine) = boot(rt.alloc(), &LOOP, 2, 64)?;
    let (found, calls) = run_listed(&rt, machine, &[100, 100], 7);
    let Ok(report) = found else {
        return Err(Fail::new("no report"));
    };
    same(&rt, report.counts.as_slice(), [100, 100].as_slice());
    same(&rt, report.off, false);
    let machine = report.machine;
    same(&rt, (machine.made(), machine.log_len()), (200, 64));
    for p in 0..2u32 {
        // fourteen bursts of seven Steps, and one of two
        check_calls(&rt, &calls, p, 15, 7);
        let (kept, dropped) = kept_and_dropped(&rt, &machine, p)?;
        same(&rt, (p, kept.saturating_add(dropped)), (p, 100));
    }
    let log = machine.copy_log(rt.alloc())?;
    let state = machine.core().copy(rt.alloc())?;
    check_from(&rt, machine.into_base(), &log, &state);
    Ok(())
}

/// A worker that says that the machine is worn out after some thousands of Steps would be seen here.
#[test]
fn long_bursts(rt: HostRuntime) -> Result<(), Fail> {
    let (_, machine) = boot(rt.alloc(), &LOOP, 2, 64)?;
    let (found, calls) = run_listed(&rt, machine, &[100_000, 100_000], 1024);
    let Ok(report) = found else {
        return Err(Fail::new("no report"));
    };
    same(&rt, report.counts.as_slice(), [100_000, 100_000].as_slice());
    same(&rt, (report.machine.made(), report.off), (200_000, false));
    for p in 0..2u32 {
        // 97 bursts of 1,024 Steps, and one of 672
        check_calls(&rt, &calls, p, 98, 1024);
    }
    Ok(())
}

#[test]
fn many_workers(rt: HostRuntime) -> Result<(), Fail> {
    for (processors, longest, bursts) in [(32, 3, 4), (3, 1, 10), (1, 1024, 1)] {
        let steps = 10 * processors;
        let (file, machine) = boot(rt.alloc(), &LOOP, processors, steps)?;
        let quotas = vec![in rt.alloc(); 10u32; processors as usize]?;
        let (found, calls) = run_listed(&rt, machine, &quotas, longest);
        let Ok(report) = found else {
            return Err(Fail::new("no report"));
        };
        same(&rt, report.counts.as_slice(), quotas.as_slice());
        same(&rt, report.machine.made(), u64::from(steps));
        for p in 0..processors {
            check_calls(&rt, &calls, p, bursts, longest);
            compare(&rt, "many workers", &report.machine, &[(p, Count(10))]);
        }
        check_log(&rt, "many workers", &file, &report.machine)?;
    }
    Ok(())
}

#[test]
fn bad_calls(rt: HostRuntime) -> Result<(), Fail> {
    let one: &[u32] = &[5];
    let two: &[u32] = &[5, 5];
    for (quotas, longest, cause) in [
        (two, 0, Cause::BadBurst),
        (two, 1025, Cause::BadBurst),
        (one, 1025, Cause::BadQuotas),
    ] {
        let (_, machine) = boot(rt.alloc(), &LOOP, 2, 16)?;
        let (found, calls) = run_listed(&rt, machine, quotas, longest);
        let Err((found, machine)) = found else {
            return Err(Fail::new("a report"));
        };
        same(&rt, (longest, found), (longest, cause));
        same(&rt, (calls.len(), machine.made()), (0, 0));
    }
    Ok(())
}

/// A log of eight entries for a run of ten Steps.
#[test]
fn small_window(rt: HostRuntime) -> Result<(), Fail> {
    let (_, machine) = boot(rt.alloc(), &LOOP, 2, 8)?;
    let (found, _) = run_listed(&rt, machine, &[5, 5], 1);
    let Ok(report) = found else {
        return Err(Fail::new("no report"));
    };
    let left: [(u32, Left); 3] = [(0, Count(5)), (1, Count(5)), (0, Entries(8))];
    compare(&rt, "a small window", &report.machine, &left);
    same(&rt, report.machine.base().made(), 2);
    check_base(&rt, &report.machine)
}

/// A run of a machine that has dropped a Done from its log.
#[test]
fn after_a_dropped_done(rt: HostRuntime) -> Result<(), Fail> {
    let machine = sent_and_dropped(&rt)?;
    let (found, _) = run_listed(&rt, machine, &[3], 1);
    let Ok(report) = found else {
        return Err(Fail::new("no report"));
    };
    same(&rt, report.machine.made(), 9);
    same(&rt, report.machine.output(), b"A".as_slice());
    check_base(&rt, &report.machine)
}

/// Makes a burst of a machine that the second Step switches off, at its book.
fn burst_in<L: Ledger, M: Ledger, R: Wait + Abort + AllocGlobal>(
    rt: &R,
    steps: Blank,
    offs: Blank,
    machine: Machine,
) -> Result<Machine, Fail>
    requires steps { (steps.name ≡ L.name) × (steps.parts ≡ L.parts)
        × (L.parts ≡ length machine.state.processors) }
    requires offs { (offs.name ≡ M.name) × (offs.parts ≡ M.parts)
        × (M.parts ≡ length machine.state.processors) }
{
    let (locked, mut seats) = match Locked::<L, M>::new(rt.alloc(), steps, offs, machine) {
        Ok(parts) => parts,
        Err((_, error)) => return Err(error.into()),
    };
    for seat in seats.iter_mut().take(1) {
        let burst = locked.book().lock(rt).step_burst(seat, 4);
        let expected = Burst {
            made: 2,
            refusal: Some(Refusal::Off),
        };
        same(rt, burst, expected);
        same(rt, (seat.processor(), seat.count()), (0, 2));
    }
    match locked.finish(seats) {
        Ok(machine) => Ok(machine),
        Err(wrong) => Err(Fail::new(wrong.processor)),
    }
}

/// The same with ledgers of its own.
fn burst_branded<R: Wait + Abort + AllocGlobal>(rt: &R, machine: Machine) -> Result<Machine, Fail> {
    let steps = Blank::new(u64::from(machine.processors()));
    let offs = Blank::new(u64::from(machine.processors()));
    burst_in::<Brand, Brand, R>(rt, steps, offs, machine)
}

#[test]
fn burst_off(rt: HostRuntime) -> Result<(), Fail> {
    let (file, machine) = boot(rt.alloc(), &POWER_OFF, 2, 16)?;
    let machine = burst_branded(&rt, machine)?;
    let left: [(u32, Left); 3] = [(0, Count(2)), (1, Count(0)), (0, Entries(2))];
    compare(&rt, "a burst up to power-off", &machine, &left);
    check_log(&rt, "a burst up to power-off", &file, &machine)?;

    let (file, machine) = boot(rt.alloc(), &POWER_OFF, 2, 16)?;
    let (found, _) = run_listed(&rt, machine, &[5, 5], 4);
    let Ok(report) = found else {
        return Err(Fail::new("no report"));
    };
    same(&rt, report.off, true);
    same(&rt, report.counts.first().copied(), Some(2));
    same(&rt, report.counts.iter().all(|count| *count <= 5), true);
    check_log(&rt, "bursts up to power-off", &file, &report.machine)
}
