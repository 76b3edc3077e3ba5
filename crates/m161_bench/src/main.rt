//! The machine's side of the benchmarks: Steps through a loop of loads, stores, shifts, sums and a
//! branch with its slot, with a log entry for each Step.
//!
//! ```text
//! m161_bench RUNS [STEPS [ROW]]   RUNS runs of STEPS Steps each, or of 1,000,000; the loop runs in
//!                                 kseg0, or mapped by ROW of the TLB; where ROW is `pages`, all 64
//!                                 rows are valid, and it runs through eight mapped pages in turn
//! m161_bench window RUNS STEPS LOG  the same in kseg0, with a log of LOG entries, which keeps the
//!                                 last ones; the Steps of the others are made on its base too
//! m161_bench log STEPS            writes the log of one run in kseg0 as text, and reads it back
//! ```
//!
//! Each run boots the loop's file again, with a log for all Steps or of LOG entries, and makes the
//! Steps. Standard
//! output gets the number of all Steps and the sum of the runs' last words; or the length of the
//! text and the number of entries read back. Standard error gets the nanoseconds of the runs; or
//! those of the writing and of the reading.
//!
//! As a user's program does, this one also calls `decode` and makes a Step by itself, so that the
//! compiler has the same reasons to inline the loop of Steps or not.
#![tactic(auto)]

mod image;
mod log;
mod steps;

use crate::image::{Mapping, image};
use crate::log::measure;
use crate::steps::runs;
use std::env;
use std::process::ExitCode;
use std::time::Instant;

/// The Steps of a run if the arguments don't say.
const STEPS: u32 = 1_000_000;

/// A task of the program.
#[derive(Clone, Copy)]
enum Task {
    /// The time of some runs.
    Runs {
        runs: u32,
        steps: u32,
        mapping: Mapping,
        log: u32,
    },
    /// The times of a log as text.
    Log {
        steps: u32,
    },
}

// The mapping that a word names.
fn mapping(word: &str) -> Option<Mapping> {
    if word == "pages" {
        return Some(Mapping::Pages);
    }
    let row = word.parse().ok()?;
    Some(Mapping::Row(row))
}

// The task of the arguments.
fn arguments(rt: &HostRuntime) -> Option<Task> {
    let mut words = env::args(rt).ok()?.skip(1);
    let first = words.next()?;
    if first.as_str() == "log" {
        let steps = words.next()?.parse().ok()?;
        return Some(Task::Log { steps });
    }
    if first.as_str() == "window" {
        return Some(Task::Runs {
            runs: words.next()?.parse().ok()?,
            steps: words.next()?.parse().ok()?,
            mapping: Mapping::Kseg0,
            log: words.next()?.parse().ok()?,
        });
    }
    let runs = first.parse().ok()?;
    let steps = match words.next() {
        Some(steps) => steps.parse().ok()?,
        None => STEPS,
    };
    let mapping = match words.next() {
        Some(word) => mapping(word.as_str())?,
        None => Mapping::Kseg0,
    };
    Some(Task::Runs {
        runs,
        steps,
        mapping,
        log: steps,
    })
}

// Makes the runs and prints their results; `None` if something fails.
fn make_runs(rt: &HostRuntime, times: u32, steps: u32, mapping: Mapping, log: u32) -> Option<()> {
    let image = image(rt.alloc(), mapping)?;
    let start = Instant::now(rt).ok()?;
    let (word, count) = runs(rt.alloc(), image.as_slice(), times, steps, log)?;
    let took = start.elapsed(rt).ok()?;
    let nanoseconds = took.as_nanos();
    println!(rt; "{count} {word:08x}").ok()?;
    eprintln!(rt; "{nanoseconds}").ok()
}

// Writes and reads the log of a run and prints the result; `None` if something fails.
fn make_log(rt: &HostRuntime, steps: u32) -> Option<()> {
    let image = image(rt.alloc(), Mapping::Kseg0)?;
    let measured = measure(rt, image.as_slice(), steps)?;
    println!(rt; "{} {}", measured.bytes, measured.entries).ok()?;
    eprintln!(rt; "{} {}", measured.write, measured.read).ok()
}

fn main(rt: HostRuntime) -> ExitCode {
    let Some(task) = arguments(&rt) else {
        return ExitCode::from(2);
    };
    let done = match task {
        Task::Runs {
            runs,
            steps,
            mapping,
            log,
        } => make_runs(&rt, runs, steps, mapping, log),
        Task::Log { steps } => make_log(&rt, steps),
    };
    ExitCode::from(if done.is_some() { 0 } else { 1 })
}
