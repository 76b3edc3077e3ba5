//! The auditor's side of the benchmarks: the events of a schedule, audited, and the same Steps bare.
//!
//! ```text
//! m161_bench_audit STEPS WATCHES [ROW]    audits STEPS Steps of a loop with WATCHES watches, or
//!                                         makes them without an audit if WATCHES is `bare`; the
//!                                         loop runs in kseg0, or mapped by ROW of the TLB
//! ```
//!
//! The loop is that of `m161_bench`. Before it the program stores to both words of 64 watches, the
//! first of which watches the loop's page, where it is mapped: so initiators have gone on, and no
//! use is stale. Standard output gets the number of Steps, and standard error the nanoseconds.
//!
//! It is a program of its own: with another caller of the Step the compiler would inline less of
//! `m161_bench`.
#![tactic(auto)]

mod image;
mod ways;

use crate::image::image;
use crate::ways::{Took, audited, bare};
use std::env;
use std::process::ExitCode;
use std::time::Clock;

/// A task of the program.
#[derive(Clone, Copy)]
struct Task {
    steps: u32,
    watches: Option<u8>,
    row: Option<u8>,
}

// The task of the arguments.
fn arguments(rt: &HostRuntime) -> Option<Task> {
    let mut words = env::args(rt).ok()?.skip(1);
    let steps = words.next()?.parse().ok()?;
    let watches = words.next()?;
    let watches = if watches.as_str() == "bare" {
        None
    } else {
        Some(watches.parse().ok()?)
    };
    let row = match words.next() {
        Some(row) => Some(row.parse().ok()?),
        None => None,
    };
    Some(Task {
        steps,
        watches,
        row,
    })
}

// Makes the Steps of a task.
fn make(rt: &(impl Clock + AllocGlobal), task: Task) -> Option<Took> {
    let image = image(rt.alloc(), task.row)?;
    match task.watches {
        Some(number) => audited(rt, image.as_slice(), task.steps, number),
        None => bare(rt, image.as_slice(), task.steps),
    }
}

// Makes the Steps of a task and prints the result; `None` if something fails.
fn make_task(rt: &HostRuntime, task: Task) -> Option<()> {
    let took = make(rt, task)?;
    println!(rt; "{}", took.steps).ok()?;
    eprintln!(rt; "{}", took.nanoseconds).ok()
}

fn main(rt: HostRuntime) -> ExitCode {
    let Some(task) = arguments(&rt) else {
        return ExitCode::from(2);
    };
    ExitCode::from(if make_task(&rt, task).is_some() { 0 } else { 1 })
}
