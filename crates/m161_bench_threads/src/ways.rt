//! The loop on several processors: a thread for each, and the same Steps in one thread.

use crate::image::START;
use m161::{Conf, LinkUnit, Machine};
use m161_threads::{Gate, run_bursts};
use std::alloc::Global;
use std::sync::Wait;
use std::thread::Threads;
use std::time::{Clock, Instant};

/// What is to be measured.
#[derive(Clone, Copy)]
pub(crate) struct Task {
    /// How many Steps each processor makes.
    pub(crate) steps: u32,
    /// How many processors there are.
    pub(crate) processors: u32,
    /// How many Steps a thread makes under one holding of the lock.
    pub(crate) burst: u32,
}

/// Steps, and the nanoseconds that they took.
#[derive(Clone, Copy)]
pub(crate) struct Took {
    pub(crate) steps: u64,
    pub(crate) nanoseconds: u128,
}

/// The same Steps, in three ways.
#[derive(Clone, Copy)]
pub(crate) struct Measured {
    /// In a thread for each processor.
    pub(crate) threads: Took,
    /// In one thread, the processors by turns, one Step each.
    pub(crate) turns: Took,
    /// In one thread, all Steps of a processor at once.
    pub(crate) whole: Took,
}

/// A gate that is always open.
#[derive(Clone, Copy)]
struct Open;

impl Gate for Open {
    fn pass(&self, _p: u32, _k: u32) -> bool {
        true
    }
}

// A machine of started processors, with room for some entries.
fn start_machine(alloc: Global, image: &[u8], task: Task) -> Option<Machine> {
    let conf = Conf {
        ram: 65_536,
        processors: task.processors,
        log: task
            .steps
            .checked_mul(task.processors)?
            .checked_add(START)?
            .min(16_777_216),
        link: LinkUnit::Word,
        strict: false,
    };
    let mut machine = Machine::boot(alloc, image, conf).ok()?;
    let _ = machine.steps(0, START);
    Some(machine)
}

// How many Steps a machine has made since its processors were started.
fn steps_made(machine: &Machine) -> u64 {
    machine.made().saturating_sub(u64::from(START))
}

// Makes the Steps of each processor, in a thread for each.
fn in_threads<R: Threads + Wait + Clock + AllocGlobal + Sync>(
    rt: &R,
    image: &[u8],
    task: Task,
) -> Option<Took> {
    let machine = start_machine(rt.alloc(), image, task)?;
    let quotas = vec![in rt.alloc(); task.steps; task.processors as usize].ok()?;
    let start = Instant::now(rt).ok()?;
    let report = run_bursts(
        rt,
        rt.alloc(),
        machine,
        quotas.as_slice(),
        &Open,
        task.burst,
    )
    .ok()?;
    let took = start.elapsed(rt).ok()?;
    Some(Took {
        steps: steps_made(&report.machine),
        nanoseconds: took.as_nanos(),
    })
}

// Makes the Steps of each processor, by turns of one Step.
fn by_turns(rt: &(impl Clock + AllocGlobal), image: &[u8], task: Task) -> Option<Took> {
    let mut machine = start_machine(rt.alloc(), image, task)?;
    let start = Instant::now(rt).ok()?;
    for _ in 0..task.steps {
        turn(&mut machine, task.processors)?;
    }
    let took = start.elapsed(rt).ok()?;
    Some(Took {
        steps: steps_made(&machine),
        nanoseconds: took.as_nanos(),
    })
}

// One Step of each processor.
fn turn(machine: &mut Machine, processors: u32) -> Option<()> {
    for p in 0..processors {
        machine.step(p).ok()?;
    }
    Some(())
}

// Makes the Steps of each processor, those of processor 0 first.
fn as_whole(rt: &(impl Clock + AllocGlobal), image: &[u8], task: Task) -> Option<Took> {
    let mut machine = start_machine(rt.alloc(), image, task)?;
    let start = Instant::now(rt).ok()?;
    for p in 0..task.processors {
        let _ = machine.steps(p, task.steps);
    }
    let took = start.elapsed(rt).ok()?;
    Some(Took {
        steps: steps_made(&machine),
        nanoseconds: took.as_nanos(),
    })
}

/// Makes the Steps of each processor, in each of the three ways. Once more before these, without a
/// measure: the first log of such a size is in memory that the host has yet to hand out, page by
/// page, and the later ones find it there.
pub(crate) fn measure<R: Threads + Wait + Clock + AllocGlobal + Sync>(
    rt: &R,
    image: &[u8],
    task: Task,
) -> Option<Measured> {
    let _ = as_whole(rt, image, task)?;
    let _ = as_whole(rt, image, task)?;
    Some(Measured {
        threads: in_threads(rt, image, task)?,
        turns: by_turns(rt, image, task)?,
        whole: as_whole(rt, image, task)?,
    })
}
