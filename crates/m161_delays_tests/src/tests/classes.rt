//! Searches of classes.

use crate::table::Table;
use m161_delays::{Class, Searched, search_lists};
use std::alloc::{AllocGlobal, Global};
use std::fmt::Debug;
use std::process::Abort;
use std::test::Fail;
use std::thread::Threads;

/// No list has so many numbers.
const NONE: usize = 99;

/// How many threads look at the lists.
static JOBS: [u32; 5] = [0, 1, 2, 3, 64];

/// A class, how many lists of it are useful, and how many of these have more than one number.
struct Row {
    most: u32,
    from: u32,
    within: u32,
    runs: u64,
    cut: u64,
}

static ROWS: [Row; 11] = [
    Row {
        most: 0,
        from: 0,
        within: 9,
        runs: 1,
        cut: 0,
    },
    Row {
        most: 1,
        from: 0,
        within: 9,
        runs: 4,
        cut: 0,
    },
    Row {
        most: 2,
        from: 0,
        within: 9,
        runs: 8,
        cut: 4,
    },
    Row {
        most: 3,
        from: 0,
        within: 9,
        runs: 11,
        cut: 7,
    },
    Row {
        most: 4,
        from: 0,
        within: 9,
        runs: 12,
        cut: 8,
    },
    Row {
        most: 64,
        from: 0,
        within: 9,
        runs: 12,
        cut: 8,
    },
    Row {
        most: 64,
        from: 1,
        within: 9,
        runs: 6,
        cut: 3,
    },
    Row {
        most: 64,
        from: 0,
        within: 3,
        runs: 6,
        cut: 3,
    },
    Row {
        most: 64,
        from: 1,
        within: 3,
        runs: 3,
        cut: 1,
    },
    Row {
        most: 64,
        from: 2,
        within: 3,
        runs: 1,
        cut: 0,
    },
    Row {
        most: 64,
        from: 3,
        within: 3,
        runs: 1,
        cut: 0,
    },
];

/// Fails the test where a value isn't the expected one.
fn same<T: PartialEq + Debug + Copy>(rt: &impl Abort, found: T, expected: T) {
    assert_eq!(rt; found, expected);
}

/// The runs of which those by so many delays go wrong.
fn table(wrong: usize) -> Table {
    Table {
        counts: [2, 3, 1, 2],
        wrong,
        whole: 1,
    }
}

/// Fails the test where the class isn't clean, with these sums.
fn check_clean<R: Abort + Threads + Sync>(
    rt: &R,
    alloc: Global,
    row: &Row,
    jobs: u32,
) -> Result<(), Fail> {
    let class = Class {
        most: row.most.min(64),
        from: row.from,
        within: row.within,
    };
    match search_lists(rt, alloc, &table(NONE), class, jobs)? {
        Searched::Clean { runs, cut } => {
            same(rt, runs, row.runs);
            same(rt, cut, row.cut);
        }
        Searched::Wrong { .. } => same(rt, "wrong", "clean"),
    }
    Ok(())
}

/// Fails the test where the first list of so many numbers that is found isn't this one.
fn check_found<R: Abort + Threads + Sync>(
    rt: &R,
    alloc: Global,
    from: u32,
    jobs: u32,
    expected: &[u32],
) -> Result<(), Fail> {
    let class = Class {
        most: 64,
        from,
        within: 9,
    };
    match search_lists(rt, alloc, &table(expected.len()), class, jobs)? {
        Searched::Clean { .. } => same(rt, "clean", "wrong"),
        Searched::Wrong { delays, wrong } => {
            same(rt, wrong, expected.len());
            same(rt, delays.as_slice().len(), expected.len());
            for (found, number) in delays.as_slice().iter().zip(expected) {
                same(rt, *found, *number);
            }
        }
    }
    Ok(())
}

#[test]
fn clean_classes(rt: HostRuntime) -> Result<(), Fail> {
    for jobs in &JOBS {
        for row in &ROWS {
            check_clean(&rt, rt.alloc(), row, *jobs)?;
        }
    }
    Ok(())
}

/// The least list of each length.
#[test]
fn first_lists(rt: HostRuntime) -> Result<(), Fail> {
    for jobs in &JOBS {
        check_found(&rt, rt.alloc(), 0, *jobs, &[])?;
        check_found(&rt, rt.alloc(), 0, *jobs, &[0])?;
        check_found(&rt, rt.alloc(), 0, *jobs, &[0, 1])?;
        check_found(&rt, rt.alloc(), 0, *jobs, &[0, 1, 1])?;
        check_found(&rt, rt.alloc(), 0, *jobs, &[0, 1, 1, 3])?;
        check_found(&rt, rt.alloc(), 1, *jobs, &[1, 1])?;
        check_found(&rt, rt.alloc(), 1, *jobs, &[1, 1, 3])?;
        check_found(&rt, rt.alloc(), 2, *jobs, &[3])?;
    }
    Ok(())
}
