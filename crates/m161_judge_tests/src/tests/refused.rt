//! Events that a machine refuses.

use super::kernels::{HELLO, LOOP, ONE, file_with};
use super::same;
use m161::Core;
use m161_refusals::{Refusal, Refusals, find_refusals};
use m161_steplog::read_schedule;
use std::alloc::AllocGlobal;
use std::process::Abort;
use std::test::Fail;

// Checks what a kernel refuses of the first events of a schedule.
fn check(
    rt: &(impl Abort + AllocGlobal),
    words: &[u32],
    schedule: &str,
    n: usize,
    expected: Option<Refusals>,
) -> Result<(), Fail> {
    let file = file_with(rt.alloc(), words)?;
    let events = read_schedule(rt.alloc(), schedule)?;
    let mut core = Core::boot(rt.alloc(), &file, ONE)?;
    let found = find_refusals(&mut core, &events, n)?;
    same(rt, found, expected);
    Ok(())
}

fn refused(count: usize, place: usize, refusal: Refusal) -> Option<Refusals> {
    Some(Refusals {
        count,
        place,
        refusal,
    })
}

/// Two Steps; three of a processor that isn't there; the end of a transfer that doesn't run; a Step.
const MIXED: &str = "s 0 2\ns 1 3\no\ns 0\n";

#[test]
fn refused_events_are_counted(rt: HostRuntime) -> Result<(), Fail> {
    check(&rt, &LOOP, MIXED, 7, refused(4, 2, Refusal::BadProcessor))?;
    check(&rt, &LOOP, MIXED, 100, refused(4, 2, Refusal::BadProcessor))?;
    check(
        &rt,
        &LOOP,
        "o\ns 1 2\n",
        3,
        refused(3, 0, Refusal::NothingSent),
    )
}

#[test]
fn events_behind_the_first_are_not_made(rt: HostRuntime) -> Result<(), Fail> {
    check(&rt, &LOOP, MIXED, 0, None)?;
    check(&rt, &LOOP, MIXED, 2, None)?;
    check(&rt, &LOOP, MIXED, 3, refused(1, 2, Refusal::BadProcessor))?;
    check(&rt, &LOOP, MIXED, 4, refused(2, 2, Refusal::BadProcessor))
}

#[test]
fn a_machine_that_is_off_refuses_nothing_more(rt: HostRuntime) -> Result<(), Fail> {
    // behind its nineteenth event the kernel is off
    let schedule = "s 0 3\no\ns 0 7\no\ns 0 9\ns 1 5\nk 41\n";
    check(&rt, &HELLO, schedule, 27, None)?;
    let schedule = "s 0 3\no\ns 1 2\ns 0 7\no\ns 0 9\ns 1 5\n";
    check(
        &rt,
        &HELLO,
        schedule,
        28,
        refused(2, 4, Refusal::BadProcessor),
    )
}
