//! Lists that several threads look at, where one takes long.

use crate::wide::Wide;
use m161_delays::{Class, Searched, search_lists};
use std::alloc::Global;
use std::fmt::Debug;
use std::process::Abort;
use std::test::Fail;
use std::thread::Threads;

/// No list has this number.
const NONE: u32 = 999;

/// How many threads look at the lists.
static JOBS: [u32; 5] = [0, 1, 2, 3, 64];

/// Fails the test where a value isn't the expected one.
fn same<T: PartialEq + Debug + Copy>(rt: &impl Abort, found: T, expected: T) {
    assert_eq!(rt; found, expected);
}

/// Says what comes of a search of the lists of two numbers at most: the number of the first list that
/// goes wrong, or none, and how many runs there are, and how many of them are cut.
fn answer<R: Abort + Threads + Sync>(
    rt: &R,
    alloc: Global,
    slow: u32,
    quick: u32,
    most: u32,
    jobs: u32,
) -> Result<(u32, u64, u64), Fail> {
    let class = Class {
        most: most.min(2),
        from: 0,
        within: 9999,
    };
    let wide = Wide {
        counts: [2; 200],
        slow,
        quick,
    };
    match search_lists(rt, alloc, &wide, class, jobs)? {
        Searched::Clean { runs, cut } => Ok((NONE, runs, cut)),
        Searched::Wrong { delays, wrong } => {
            same(rt, wrong, 0);
            let [number] = delays.as_slice() else {
                return Ok((NONE, 0, 0));
            };
            Ok((*number, 0, 0))
        }
    }
}

/// The least list, though a greater one is found before it.
#[test]
fn slow_lists(rt: HostRuntime) -> Result<(), Fail> {
    for jobs in &JOBS {
        same(&rt, answer(&rt, rt.alloc(), 20, 40, 1, *jobs)?, (20, 0, 0));
        same(&rt, answer(&rt, rt.alloc(), 40, 20, 1, *jobs)?, (20, 0, 0));
        same(
            &rt,
            answer(&rt, rt.alloc(), 100, 199, 2, *jobs)?,
            (100, 0, 0),
        );
        same(
            &rt,
            answer(&rt, rt.alloc(), 199, 100, 2, *jobs)?,
            (100, 0, 0),
        );
        same(
            &rt,
            answer(&rt, rt.alloc(), 199, NONE, 2, *jobs)?,
            (199, 0, 0),
        );
    }
    Ok(())
}

/// At 200 places one delay has an effect: 1 list of no number, 200 of one, and 200 * 199 / 2 of two.
#[test]
fn many_lists(rt: HostRuntime) -> Result<(), Fail> {
    for jobs in &JOBS {
        same(
            &rt,
            answer(&rt, rt.alloc(), NONE, NONE, 2, *jobs)?,
            (NONE, 20_101, 19_900),
        );
    }
    Ok(())
}
