//! The threads' side of the benchmarks: a loop of loads, stores, shifts, sums and a branch with its
//! slot on each of several processors, in threads and without.
//!
//! ```text
//! m161_bench_threads STEPS PROCESSORS BURST
//!     STEPS Steps of each of 1 to 32 processors: in a thread for each, by bursts of at most BURST
//!     Steps; in one thread by turns of one Step; in one thread, all Steps of a processor at once;
//!     and as many holdings of a lock around a number, by as many threads, as the bursts need
//! ```
//!
//! All processors run over the same words of memory. To standard output goes the number of all
//! Steps in each of the three ways, and to standard error the nanoseconds that each took, those of
//! the holdings last.
//!
//! It is a program of its own: in a program that steps several processors the processor's number
//! isn't a constant, which would make the Steps of `m161_bench` slower.
#![tactic(auto)]

mod holdings;
mod image;
mod ways;

use crate::holdings::hold;
use crate::image::image;
use crate::ways::{Task, measure};
use std::env;
use std::process::ExitCode;
use std::sync::Wait;
use std::thread::Threads;
use std::time::Clock;

// The numbers in the arguments.
fn arguments(rt: &HostRuntime) -> Option<Task> {
    let mut words = env::args(rt).ok()?.skip(1);
    Some(Task {
        steps: words.next()?.parse().ok()?,
        processors: words.next()?.parse().ok()?,
        burst: words.next()?.parse().ok()?,
    })
}

// Makes the Steps in each way and prints the results; `None` if something fails.
fn make_all<R: Threads + Wait + Clock + AllocGlobal + Print + Eprint + Sync>(
    rt: &R,
    task: Task,
) -> Option<()> {
    let image = image(rt.alloc())?;
    let measured = measure(rt, image.as_slice(), task)?;
    for took in [measured.threads, measured.turns, measured.whole] {
        println!(rt; "{}", took.steps).ok()?;
        eprintln!(rt; "{}", took.nanoseconds).ok()?;
    }
    let bursts = task.steps.checked_div(task.burst)?;
    let nanoseconds = hold(rt, task.processors, bursts)?;
    eprintln!(rt; "{nanoseconds}").ok()?;
    Some(())
}

fn main(rt: HostRuntime) -> ExitCode {
    let Some(task) = arguments(&rt) else {
        return ExitCode::from(2);
    };
    ExitCode::from(if make_all(&rt, task).is_some() { 0 } else { 1 })
}
