//! What the lock costs by itself.

use std::alloc::Global;
use std::sync::{Mutex, Wait};
use std::thread;
use std::thread::{JoinHandle, Scope, Threads};
use std::time::{Clock, Instant};

// Takes the lock so many times, and adds 1 each time.
fn take<R: Wait>(rt: &R, number: &Mutex<u64>, times: u32) {
    for _ in 0..times {
        let mut number = number.lock(rt);
        *number = number.wrapping_add(1);
    }
}

// Starts the threads.
fn start<'s, E, R: Wait + Sync>(
    scope: &Scope<'s, E>,
    rt: &'s R,
    alloc: Global,
    number: &'s Mutex<u64>,
    threads: u32,
    times: u32,
) -> Option<Vec<JoinHandle<()>>> {
    let mut handles = Vec::new(alloc);
    for _ in 0..threads {
        let handle = scope.spawn(move || take(rt, number, times)).ok()?;
        handles.push(handle).ok()?;
    }
    Some(handles)
}

/// The nanoseconds that so many threads take to hold one lock so many times each.
pub(crate) fn hold<R: Threads + Wait + Clock + AllocGlobal + Sync>(
    rt: &R,
    threads: u32,
    times: u32,
) -> Option<u128> {
    let number = Mutex::new(0u64);
    let number = &number;
    let began = Instant::now(rt).ok()?;
    let _all = thread::scope(thread::scope_env(), rt, |scope| {
        start(scope, rt, rt.alloc(), number, threads, times)
    });
    let took = began.elapsed(rt).ok()?;
    Some(took.as_nanos())
}
