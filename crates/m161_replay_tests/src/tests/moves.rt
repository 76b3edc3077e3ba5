//! Moves along the run of the sample kernel.

use super::runs::{Act, C, S, check_acts, go_to, replay, spinning};
use super::same;
use m161_gdb::Kind;
use m161_moves::Run;
use std::test::Fail;

const LOOP: u32 = 0x8000_0244;

static BREAK: [Act; 13] = [
    Act::Set(Kind::Software, LOOP, 4),
    Act::On([C, C], 54, ("swbreak", 0, LOOP), 0),
    Act::On([C, C], 54, ("swbreak", 0, LOOP), 0),
    Act::Delete(Kind::Software, LOOP, 4),
    Act::On([S, None], 55, ("step", 0, 0), 0),
    Act::Set(Kind::Software, LOOP, 4),
    Act::Set(Kind::Hardware, LOOP, 4),
    Act::On([C, C], 60, ("swbreak", 0, LOOP), 0),
    Act::Delete(Kind::Software, LOOP, 0),
    Act::On([C, C], 60, ("hwbreak", 0, LOOP), 0),
    Act::Back([C, C], 54, ("hwbreak", 0, LOOP), 0),
    Act::Back([C, C], 0, ("begin", 0, 0), 0),
    Act::Back([C, C], 0, ("begin", 0, 0), 0),
];

#[test]
fn break_at_fetches(rt: HostRuntime) -> Result<(), Fail> {
    check_acts(&rt, &BREAK)
}

/// The load at 80000298 misses, and is fetched again. A Step at 800002a8 that takes an interrupt fetches
/// nothing.
static FETCH: [Act; 14] = [
    Act::Set(Kind::Software, 0x8000_0298, 4),
    Act::On([C, C], 23, ("swbreak", 1, 0x8000_0298), 1),
    Act::Delete(Kind::Software, 0x8000_0298, 4),
    Act::On([None, S], 24, ("step", 1, 0), 1),
    Act::Set(Kind::Software, 0x8000_0298, 4),
    Act::On([C, C], 39, ("swbreak", 1, 0x8000_0298), 1),
    Act::Delete(Kind::Software, 0x8000_0298, 4),
    Act::On([None, S], 40, ("step", 1, 0), 1),
    Act::Set(Kind::Software, 0x8000_02a8, 4),
    Act::On([C, C], 47, ("swbreak", 1, 0x8000_02a8), 1),
    Act::Delete(Kind::Software, 0x8000_02a8, 4),
    Act::On([None, S], 48, ("step", 1, 0), 1),
    Act::Set(Kind::Software, 0x8000_02a8, 4),
    Act::On([C, C], 99, ("swbreak", 1, 0x8000_02a8), 1),
];

#[test]
fn break_where_a_word_is_fetched(rt: HostRuntime) -> Result<(), Fail> {
    check_acts(&rt, &FETCH)
}

static WATCH: [Act; 8] = [
    Act::Set(Kind::Write, 0x8000_3008, 4),
    Act::On([C, C], 91, ("write", 1, 0x8000_3008), 1),
    Act::On([C, C], 91, ("write", 1, 0x8000_3008), 1),
    Act::Delete(Kind::Write, 0x8000_3008, 4),
    Act::On([None, S], 92, ("step", 1, 0), 1),
    Act::Set(Kind::Write, 0xa000_3009, 1),
    Act::Back([C, C], 92, ("write", 1, 0xa000_3009), 1),
    Act::Delete(Kind::Write, 0xa000_3009, 1),
];

#[test]
fn watch_stores(rt: HostRuntime) -> Result<(), Fail> {
    check_acts(&rt, &WATCH)
}

/// By the virtual address that a row translates.
static MAPPED: [Act; 6] = [
    Act::Set(Kind::Read, 0x40_0002, 1),
    Act::On([C, C], 39, ("read", 1, 0x40_0002), 1),
    Act::Delete(Kind::Read, 0x40_0002, 1),
    Act::Set(Kind::Write, 0x40_0000, 4),
    Act::Set(Kind::Access, 0x40_0004, 4),
    Act::On([C, C], 138, ("end", 0, 0), 0),
];

#[test]
fn watch_mapped_loads(rt: HostRuntime) -> Result<(), Fail> {
    check_acts(&rt, &MAPPED)
}

static STEP: [Act; 6] = [
    Act::On([None, S], 12, ("step", 1, 0), 1),
    Act::On([C, S], 14, ("step", 1, 0), 1),
    Act::Back([S, C], 12, ("step", 0, 0), 0),
    Act::Back([None, S], 11, ("step", 1, 0), 1),
    Act::On([None, C], 138, ("end", 0, 0), 1),
    Act::Back([None, C], 0, ("begin", 0, 0), 1),
];

#[test]
fn step_and_back(rt: HostRuntime) -> Result<(), Fail> {
    check_acts(&rt, &STEP)
}

/// Without one of the processors.
static PARTIAL: [Act; 8] = [
    Act::Mark(60),
    Act::On([C, C], 60, ("mark", 0, 0), 1),
    Act::Set(Kind::Software, LOOP, 4),
    Act::Set(Kind::Software, 0x8000_0094, 4),
    Act::On([None, S], 62, ("step", 1, 0), 1),
    Act::On([None, C], 69, ("swbreak", 1, 0x8000_0094), 1),
    Act::Back([C, C], 66, ("swbreak", 0, LOOP), 0),
    Act::Back([None, C], 0, ("begin", 0, 0), 1),
];

#[test]
fn resume_some(rt: HostRuntime) -> Result<(), Fail> {
    check_acts(&rt, &PARTIAL)
}

static ENDS: [Act; 6] = [
    Act::Back([C, C], 0, ("begin", 0, 0), 0),
    Act::On([C, C], 138, ("end", 0, 0), 0),
    Act::On([None, S], 138, ("end", 0, 0), 1),
    // the wait behind which processor 1 has no Step: the four of the other one follow
    Act::Back([C, S], 133, ("step", 1, 0), 1),
    Act::Mark(20),
    Act::Back([C, C], 20, ("mark", 0, 0), 1),
];

#[test]
fn stop_at_ends(rt: HostRuntime) -> Result<(), Fail> {
    check_acts(&rt, &ENDS)
}

#[test]
fn stand_where_moves_stop(rt: HostRuntime) -> Result<(), Fail> {
    let mut run = replay(&rt)?;
    same(&rt, run.events().len(), 138);
    for place in 0..138 {
        same(&rt, run.state().made() as usize, place);
        go_to(&mut run, place + 1)?;
    }
    same(&rt, run.is_at_end(), true);
    same(&rt, run.state().is_off(), true);
    go_to(&mut run, 100)?;
    same(&rt, run.place() <= 100, true);
    same(&rt, run.state().made() as usize, run.place());
    Ok(())
}

/// The way back begins at most 65,536 events before its goal, and at the same place again where that is
/// near enough.
#[test]
fn keep_a_state_near(rt: HostRuntime) -> Result<(), Fail> {
    let mut run = spinning(&rt, 100_000)?;
    go_to(&mut run, 100_000)?;
    same(&rt, run.place(), 100_000);
    for (to, place) in [(90_000, 24_464), (24_464, 24_464), (24_463, 0), (65_537, 1)] {
        go_to(&mut run, to)?;
        if to <= run.place() {
            run.go_back(to)?;
        }
        same(&rt, run.place(), place);
        same(&rt, run.state().made() as usize, place);
    }
    Ok(())
}
