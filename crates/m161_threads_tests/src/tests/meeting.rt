//! Runs in threads whose workers meet: that they are started together, and work at the same time.

use super::left::Left::{Count, Entries};
use super::left::{check_log, compare};
use super::same;
use super::threads::{LOOP, boot, run_on};
use m161::Machine;
use m161_threads::{Gate, Report, RunFault, run_bursts};
use std::process::Abort;
use std::sync::Wait;
use std::sync::atomic::{AtomicU32, Ordering};
use std::test::Fail;
use std::thread::Threads;
use std::time::{Clock, Duration};
use std::{fs, thread};

/// A gate at which all workers meet: a call waits until each worker has come to the calls of the
/// same number.
#[derive(Drop)]
struct Meeting<'a, R: Clock> {
    clock: &'a R,
    workers: u32,
    /// Before which Steps they meet: those whose number is a multiple.
    every: u32,
    came: AtomicU32,
}

impl<R: Clock> Gate for Meeting<'_, R> {
    fn pass(&self, _p: u32, k: u32) -> bool {
        if k.checked_rem(self.every) != Some(0) {
            return true;
        }
        self.came.fetch_add(1, Ordering::SeqCst);
        let round = u64::from(k / self.every.max(1)) + 1;
        for turn in 0..100_000u32 {
            let came = self.came.load(Ordering::SeqCst);
            if u64::from(came) >= round * u64::from(self.workers) {
                return true;
            }
            if turn % 64 == 63 {
                thread::sleep(self.clock, Duration::from_micros(100));
            } else {
                thread::yield_now();
            }
        }
        false
    }
}

/// How often the processor changes from one Step of a log to the next.
fn changes(machine: &Machine) -> u32 {
    let mut changes = 0u32;
    for i in 1..machine.log_len() {
        if machine.log_at(i).event != machine.log_at(i - 1).event {
            changes = changes.saturating_add(1);
        }
    }
    changes
}

/// A run of 2,000 Steps in all, in which the workers meet.
fn meet<R: Threads + Wait + Clock + Sync + Abort + AllocGlobal>(
    rt: &R,
    processors: u32,
    quota: u32,
    every: u32,
    burst: u32,
) -> Result<Machine, Fail> {
    let (file, machine) = boot(rt.alloc(), &LOOP, processors, 2000)?;
    let quotas = vec![in rt.alloc(); quota; processors as usize]?;
    let gate = Meeting {
        clock: rt,
        workers: processors,
        every,
        came: AtomicU32::new(0),
    };
    match run_bursts(rt, rt.alloc(), machine, &quotas, &gate, burst) {
        Ok(report) => {
            let Report {
                machine,
                counts,
                off: _,
            } = report;
            same(rt, counts.as_slice(), quotas.as_slice());
            check_log(rt, "workers that meet", &file, &machine)?;
            Ok(machine)
        }
        Err(RunFault { cause, machine: _ }) => Err(Fail::new(cause)),
    }
}

// Between two meetings each worker makes Steps, so the log changes from one to another there.
#[test]
fn interleavings(rt: HostRuntime) -> Result<(), Fail> {
    for (processors, quota, every, burst) in [
        (2, 1000, 5, 1),
        (2, 1000, 10, 10),
        (4, 500, 10, 5),
        (20, 100, 10, 1),
    ] {
        let machine = meet(&rt, processors, quota, every, burst)?;
        same(&rt, machine.log_len(), 2000);
        same(&rt, changes(&machine) >= 100, true);
    }
    Ok(())
}

// No worker is left to run when the others have ended.
#[test]
fn many_meet(rt: HostRuntime) -> Result<(), Fail> {
    for processors in [31, 32] {
        let machine = meet(&rt, processors, 3, 1, 1)?;
        compare(&rt, "all meet", &machine, &[(0, Count(3)), (30, Count(3))]);
        compare(
            &rt,
            "all meet",
            &machine,
            &[(0, Entries(processors as usize * 3))],
        );
    }
    Ok(())
}

/// A gate at which a worker, before its first Step, looks how many threads the process has, and
/// waits until all have looked.
#[derive(Drop)]
struct Looking<'a> {
    rt: &'a HostRuntime,
    workers: u32,
    looked: AtomicU32,
    fewest: AtomicU32,
}

/// How many threads the process has, by the system's file; 0 if it can't be read.
fn threads_now(rt: &HostRuntime) -> u32 {
    let Ok(text) = fs::read_to_string(rt, "/proc/self/status") else {
        return 0;
    };
    for line in text.lines() {
        if let Some(number) = line.strip_prefix("Threads:") {
            return number.trim().parse().unwrap_or(0);
        }
    }
    0
}

impl Gate for Looking<'_> {
    fn pass(&self, _p: u32, k: u32) -> bool {
        if k > 0 {
            return true;
        }
        let threads = threads_now(self.rt);
        self.fewest.fetch_min(threads, Ordering::SeqCst);
        self.looked.fetch_add(1, Ordering::SeqCst);
        for _ in 0..10_000 {
            if self.looked.load(Ordering::SeqCst) >= self.workers {
                return true;
            }
            thread::sleep(self.rt, Duration::from_millis(1));
        }
        false
    }
}

// Each worker finds all others started before its first Step: so many threads, and the one that
// called `run`.
#[test]
fn start_together(rt: HostRuntime) -> Result<(), Fail> {
    let processors = 32;
    let (file, machine) = boot(rt.alloc(), &LOOP, processors, 320)?;
    let quotas = vec![in rt.alloc(); 10u32; processors as usize]?;
    let gate = Looking {
        rt: &rt,
        workers: processors,
        looked: AtomicU32::new(0),
        fewest: AtomicU32::new(u32::MAX),
    };
    let (machine, cause) = run_on(&rt, "start together", machine, &quotas, &gate);
    same(&rt, cause, None);
    same(&rt, gate.fewest.load(Ordering::SeqCst) > processors, true);
    check_log(&rt, "start together", &file, &machine)
}
