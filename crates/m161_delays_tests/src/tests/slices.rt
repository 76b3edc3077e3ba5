//! Slices of searches.

use crate::table::Table;
use m161_delays::{Class, Searched, Slice, SliceStop, search_alone, search_slice};
use std::alloc::{AllocGlobal, Global};
use std::fmt::Debug;
use std::process::Abort;
use std::test::Fail;

/// No list has so many numbers.
const NONE: usize = 99;

/// All lists.
static CLASS: Class = Class {
    most: 64,
    from: 0,
    within: 9,
};

/// A list, how many numbers it has, and those of the first one that isn't before it.
struct Row {
    from: [u32; 5],
    count: usize,
    next: [u32; 5],
    long: usize,
}

/// The useful lists, each with the one behind it in place of its own numbers.
static BEHIND: [Row; 11] = [
    Row {
        from: [0, 0, 0, 0, 0],
        count: 0,
        next: [0, 0, 0, 0, 0],
        long: 1,
    },
    Row {
        from: [0, 0, 0, 0, 0],
        count: 1,
        next: [1, 0, 0, 0, 0],
        long: 1,
    },
    Row {
        from: [1, 0, 0, 0, 0],
        count: 1,
        next: [3, 0, 0, 0, 0],
        long: 1,
    },
    Row {
        from: [3, 0, 0, 0, 0],
        count: 1,
        next: [0, 1, 0, 0, 0],
        long: 2,
    },
    Row {
        from: [0, 1, 0, 0, 0],
        count: 2,
        next: [0, 3, 0, 0, 0],
        long: 2,
    },
    Row {
        from: [0, 3, 0, 0, 0],
        count: 2,
        next: [1, 1, 0, 0, 0],
        long: 2,
    },
    Row {
        from: [1, 1, 0, 0, 0],
        count: 2,
        next: [1, 3, 0, 0, 0],
        long: 2,
    },
    Row {
        from: [1, 3, 0, 0, 0],
        count: 2,
        next: [0, 1, 1, 0, 0],
        long: 3,
    },
    Row {
        from: [0, 1, 1, 0, 0],
        count: 3,
        next: [0, 1, 3, 0, 0],
        long: 3,
    },
    Row {
        from: [0, 1, 3, 0, 0],
        count: 3,
        next: [1, 1, 3, 0, 0],
        long: 3,
    },
    Row {
        from: [1, 1, 3, 0, 0],
        count: 3,
        next: [0, 1, 1, 3, 0],
        long: 4,
    },
];

/// Lists of which some aren't useful, or not even ascending.
static REACHED: [Row; 6] = [
    Row {
        from: [0, 0, 0, 0, 0],
        count: 2,
        next: [0, 1, 0, 0, 0],
        long: 2,
    },
    Row {
        from: [2, 0, 0, 0, 0],
        count: 1,
        next: [3, 0, 0, 0, 0],
        long: 1,
    },
    Row {
        from: [8, 0, 0, 0, 0],
        count: 1,
        next: [0, 1, 0, 0, 0],
        long: 2,
    },
    Row {
        from: [1, 0, 7, 0, 0],
        count: 3,
        next: [1, 1, 3, 0, 0],
        long: 3,
    },
    Row {
        from: [0, 1, 2, 0, 0],
        count: 3,
        next: [0, 1, 3, 0, 0],
        long: 3,
    },
    Row {
        from: [0, 1, 1, 2, 0],
        count: 4,
        next: [0, 1, 1, 3, 0],
        long: 4,
    },
];

/// Fails the test where a value isn't the expected one.
fn same<T: PartialEq + Debug + Copy>(rt: &impl Abort, found: T, expected: T) {
    assert_eq!(rt; found, expected);
}

/// The runs of which those by so many delays go wrong.
fn table(wrong: usize) -> Table {
    Table {
        counts: [2, 3, 1, 2],
        wrong,
        whole: 1,
    }
}

/// Fails the test where the numbers aren't these.
fn same_list(rt: &impl Abort, found: &[u32], numbers: &[u32; 5], long: usize) {
    same(rt, found.len(), long);
    for (found, number) in found.iter().zip(numbers) {
        same(rt, *found, *number);
    }
}

/// Fails the test where a slice of so many runs doesn't stop at the list that comes then.
fn check_next<R: Abort>(rt: &R, alloc: Global, row: &Row, most: u64) -> Result<(), Fail> {
    let from = &row.from[..row.count.min(5)];
    let Slice { runs, stop, .. } = search_slice(alloc, &table(NONE), CLASS, from, most)?;
    same(rt, runs, most);
    match stop {
        Some(SliceStop::Next { delays }) => same_list(rt, delays.as_slice(), &row.next, row.long),
        Some(SliceStop::Wrong { .. }) => same(rt, "wrong", "next"),
        None => same(rt, "none left", "next"),
    }
    Ok(())
}

/// Fails the test where slices of so many runs aren't together all of them.
fn check_whole<R: Abort>(rt: &R, alloc: Global, most: u64) -> Result<(), Fail> {
    let mut all = 0u64;
    let mut all_cut = 0u64;
    let mut next = Vec::new(alloc);
    for _ in 0..13 {
        let Slice { runs, cut, stop } = search_slice(alloc, &table(NONE), CLASS, &next, most)?;
        all = all.wrapping_add(runs);
        all_cut = all_cut.wrapping_add(cut);
        next.clear();
        match stop {
            Some(SliceStop::Next { delays }) => next.extend_from_slice(delays.as_slice())?,
            Some(SliceStop::Wrong { .. }) => same(rt, "wrong", "right"),
            None => {
                same(rt, all, 12);
                same(rt, all_cut, 8);
                return Ok(());
            }
        }
    }
    same(rt, "no end", "an end");
    Ok(())
}

#[test]
fn next_lists(rt: HostRuntime) -> Result<(), Fail> {
    for row in &BEHIND {
        check_next(&rt, rt.alloc(), row, 1)?;
    }
    for row in &REACHED {
        check_next(&rt, rt.alloc(), row, 0)?;
    }
    Ok(())
}

#[test]
fn whole_by_slices(rt: HostRuntime) -> Result<(), Fail> {
    for most in 1..14 {
        check_whole(&rt, rt.alloc(), most)?;
    }
    check_whole(&rt, rt.alloc(), u64::MAX)
}

/// Behind all lists, and where lists have more numbers than any.
#[test]
fn none_left(rt: HostRuntime) -> Result<(), Fail> {
    let long = [0; 70];
    for count in 5..71usize {
        let from = &long[..count.min(70)];
        let Slice { runs, stop, .. } = search_slice(rt.alloc(), &table(NONE), CLASS, from, 0)?;
        same(&rt, runs, 0);
        if let Some(_stop) = stop {
            same(&rt, "stops", "none left");
        }
    }
    Ok(())
}

/// A list goes wrong before there are too many runs, or it isn't looked at.
#[test]
fn wrong_in_slice(rt: HostRuntime) -> Result<(), Fail> {
    let slice = search_slice(rt.alloc(), &table(2), CLASS, &[0, 2], 1)?;
    same(&rt, slice.runs, 0);
    match slice.stop {
        Some(SliceStop::Wrong { delays, wrong }) => {
            same(&rt, wrong, 2);
            same_list(&rt, delays.as_slice(), &[0, 3, 0, 0, 0], 2);
        }
        _ => same(&rt, "another end", "wrong"),
    }
    let slice = search_slice(rt.alloc(), &table(2), CLASS, &[1], 2)?;
    same(&rt, slice.runs, 2);
    match slice.stop {
        Some(SliceStop::Next { delays }) => same_list(&rt, delays.as_slice(), &[0, 1, 0, 0, 0], 2),
        _ => same(&rt, "another end", "next"),
    }
    match search_alone(rt.alloc(), &table(3), CLASS)? {
        Searched::Clean { .. } => same(&rt, "clean", "wrong"),
        Searched::Wrong { delays, .. } => {
            same_list(&rt, delays.as_slice(), &[0, 1, 1, 0, 0], 3);
        }
    }
    Ok(())
}
