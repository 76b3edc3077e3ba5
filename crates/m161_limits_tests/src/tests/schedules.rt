//! Schedules of as many events as there may be, and more.

use super::same;
use m161_steplog::{TextFault, read_schedule};
use std::alloc::Global;
use std::test::Fail;

/// How many events a text has, or its first bad line.
fn events(alloc: Global, text: &str) -> Result<usize, TextFault> {
    Ok(read_schedule(alloc, text)?.len())
}

#[test]
fn long_schedule(rt: HostRuntime) -> Result<(), Fail> {
    let mut text = String::new(rt.alloc());
    for _ in 0..16 {
        text.push_str("s 0 1000000\n")?;
    }
    let found = events(rt.alloc(), text.as_str());
    same(&rt, found, Ok(16_000_000));
    text.push_str("s 0 1000000\n")?;
    let found = events(rt.alloc(), text.as_str());
    same(&rt, found, Err(TextFault::Line(17)));
    let found = events(rt.alloc(), "s 0 1000001");
    same(&rt, found, Err(TextFault::Line(1)));
    Ok(())
}
