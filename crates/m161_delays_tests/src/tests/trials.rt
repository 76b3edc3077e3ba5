//! Trials that several threads look at. How many of the first so many are cut was counted by hand: every
//! third one, from 0 on.

use crate::marked::Marked;
use m161_jobs::{Tried, try_each};
use std::alloc::Global;
use std::fmt::Debug;
use std::process::Abort;
use std::test::Fail;
use std::thread::Threads;

/// No trial has this number.
const NONE: u32 = u32::MAX;

/// How many threads look at the trials.
static JOBS: [u32; 5] = [0, 1, 2, 3, 64];

/// How many trials there are, and how many of them are cut.
struct Row {
    count: u32,
    cut: u32,
}

static ROWS: [Row; 10] = [
    Row { count: 0, cut: 0 },
    Row { count: 1, cut: 1 },
    Row { count: 2, cut: 1 },
    Row { count: 3, cut: 1 },
    Row { count: 4, cut: 2 },
    Row { count: 32, cut: 11 },
    Row { count: 33, cut: 11 },
    Row { count: 64, cut: 22 },
    Row {
        count: 10_000,
        cut: 3334,
    },
    Row {
        count: 100_000,
        cut: 33_334,
    },
];

/// Two trials that go wrong, and the first of them.
struct Pair {
    wrong: u32,
    other: u32,
    first: u32,
}

static PAIRS: [Pair; 10] = [
    Pair {
        wrong: 0,
        other: 1,
        first: 0,
    },
    Pair {
        wrong: 99,
        other: 0,
        first: 0,
    },
    Pair {
        wrong: 15,
        other: 16,
        first: 15,
    },
    Pair {
        wrong: 17,
        other: 16,
        first: 16,
    },
    Pair {
        wrong: 32,
        other: 31,
        first: 31,
    },
    Pair {
        wrong: 47,
        other: 20,
        first: 20,
    },
    Pair {
        wrong: 95,
        other: 96,
        first: 95,
    },
    Pair {
        wrong: 5000,
        other: 5001,
        first: 5000,
    },
    Pair {
        wrong: 9999,
        other: NONE,
        first: 9999,
    },
    Pair {
        wrong: 9999,
        other: 4100,
        first: 4100,
    },
];

/// Fails the test where a value isn't the expected one.
fn same<T: PartialEq + Debug + Copy>(rt: &impl Abort, found: T, expected: T) {
    assert_eq!(rt; found, expected);
}

/// Says what comes of trials: whether they are clean, 0, go wrong, 1, or can't be made, 2; and with it
/// how many are cut, the number of the trial, or the error.
fn answer<R: Threads + Sync>(
    rt: &R,
    alloc: Global,
    marked: &Marked,
    count: u32,
    jobs: u32,
) -> (u32, u32) {
    match try_each(rt, alloc, marked, count, jobs) {
        Ok(Tried::Clean { cut }) => (0, cut),
        Ok(Tried::Wrong { place, wrong }) => (1, if place == wrong { place } else { NONE }),
        Err(place) => (2, place),
    }
}

/// The trials with such marks.
fn marked(wrong: u32, other: u32, failing: u32) -> Marked {
    Marked {
        wrong,
        other,
        failing,
    }
}

/// Fails the test where some number of threads has another answer.
fn check<R: Abort + Threads + Sync>(
    rt: &R,
    alloc: Global,
    marked: &Marked,
    count: u32,
    expected: (u32, u32),
) {
    for jobs in &JOBS {
        same(rt, answer(rt, alloc, marked, count, *jobs), expected);
    }
}

#[test]
fn clean_trials(rt: HostRuntime) -> Result<(), Fail> {
    for row in &ROWS {
        let none = marked(NONE, NONE, NONE);
        check(&rt, rt.alloc(), &none, row.count, (0, row.cut));
    }
    Ok(())
}

/// The least number wins, whichever part it is in.
#[test]
fn wrong_trials(rt: HostRuntime) -> Result<(), Fail> {
    for pair in &PAIRS {
        let two = marked(pair.wrong, pair.other, NONE);
        check(&rt, rt.alloc(), &two, 10_000, (1, pair.first));
    }
    Ok(())
}

/// A trial that goes wrong ends the search before one that can't be made, and the other way round.
#[test]
fn failing_trials(rt: HostRuntime) -> Result<(), Fail> {
    check(&rt, rt.alloc(), &marked(NONE, NONE, 0), 1, (2, 0));
    check(&rt, rt.alloc(), &marked(NONE, NONE, 1), 1, (0, 1));
    check(&rt, rt.alloc(), &marked(41, NONE, 40), 100, (2, 40));
    check(&rt, rt.alloc(), &marked(40, NONE, 41), 100, (1, 40));
    check(&rt, rt.alloc(), &marked(20, NONE, 5), 10_000, (2, 5));
    check(&rt, rt.alloc(), &marked(5, NONE, 20), 10_000, (1, 5));
    check(&rt, rt.alloc(), &marked(9000, 70, 8999), 10_000, (1, 70));
    check(
        &rt,
        rt.alloc(),
        &marked(9001, 9000, 8999),
        10_000,
        (2, 8999),
    );
    Ok(())
}

/// What stands beyond the trials isn't looked at.
#[test]
fn trials_beyond(rt: HostRuntime) -> Result<(), Fail> {
    check(&rt, rt.alloc(), &marked(100, 101, 102), 100, (0, 34));
    check(&rt, rt.alloc(), &marked(0, 0, 0), 0, (0, 0));
    Ok(())
}
