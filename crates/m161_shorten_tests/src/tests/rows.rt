//! Lists, and what they are shortened to.

use crate::judges::{InOrder, UnlessAlone};
use crate::wrong::{Tired, Wrong};
use m161_shorten::{Event, shorten};
use std::alloc::{AllocError, AllocGlobal, Global};
use std::fmt::Debug;
use std::process::Abort;
use std::test::Fail;

/// A list, and what is left of it. A digit is a Step of that processor, `!` a byte that is sent, and
/// any other mark a key.
struct Row {
    kind: Wrong,
    given: &'static [u8],
    left: &'static [u8],
    /// How many lists are judged for that.
    judged: u32,
}

static ROWS: [Row; 11] = [
    // The first trial is of another kind.
    Row {
        kind: Wrong::Racy,
        given: b"1012",
        left: b"0112",
        judged: 2,
    },
    // A trial that is taken is cut behind its verdict.
    Row {
        kind: Wrong::Racy,
        given: b"12012",
        left: b"0112",
        judged: 4,
    },
    // The first trial is taken.
    Row {
        kind: Wrong::Racy,
        given: b"01012",
        left: b"00112",
        judged: 1,
    },
    Row {
        kind: Wrong::Plain,
        given: b"13102",
        left: b"11302",
        judged: 1,
    },
    Row {
        kind: Wrong::Racy,
        given: b"310312",
        left: b"330112",
        judged: 3,
    },
    Row {
        kind: Wrong::Plain,
        given: b"3031302",
        left: b"3331002",
        judged: 4,
    },
    Row {
        kind: Wrong::Racy,
        given: b"3013012",
        left: b"3300112",
        judged: 2,
    },
    // Blocks are joined behind a key, not across one.
    Row {
        kind: Wrong::Racy,
        given: b"0k1012",
        left: b"0k0112",
        judged: 2,
    },
    Row {
        kind: Wrong::Racy,
        given: b"0!1k0112",
        left: b"0!1k0112",
        judged: 0,
    },
    // Keys side by side are blocks of their own.
    Row {
        kind: Wrong::Racy,
        given: b"0kk0!!12",
        left: b"0kk0!!12",
        judged: 0,
    },
    // There is nothing to join.
    Row {
        kind: Wrong::Plain,
        given: b"02",
        left: b"02",
        judged: 0,
    },
];

/// The event that a mark stands for.
fn event_of(mark: u8) -> Event {
    if mark == b'!' {
        Event::Done
    } else if mark < b'0' || mark > b'9' {
        Event::Key(mark)
    } else {
        Event::Step(u32::from(mark - b'0'))
    }
}

fn list_of(alloc: Global, marks: &[u8]) -> Result<Vec<Event>, AllocError> {
    let mut events = Vec::new(alloc);
    for mark in marks {
        events.push(event_of(*mark))?;
    }
    Ok(events)
}

/// Fails the test where a value isn't the expected one.
fn same<T: PartialEq + Debug + Copy>(rt: &impl Abort, found: T, expected: T) {
    assert_eq!(rt; found, expected);
}

/// Fails the test where a list isn't the marked one.
fn check_list(rt: &impl Abort, found: &[Event], marks: &[u8]) {
    same(rt, found.len(), marks.len());
    for (event, mark) in found.iter().zip(marks) {
        same(rt, *event, event_of(*mark));
    }
}

#[test]
fn rows(rt: HostRuntime) -> Result<(), Fail> {
    for row in &ROWS {
        let mut judge = InOrder {
            judged: 0,
            most: 2000,
        };
        let events = list_of(rt.alloc(), row.given)?;
        let left = shorten(&mut judge, row.kind, events)?;
        check_list(&rt, left.as_slice(), row.left);
        same(&rt, judge.judged, row.judged);
    }
    Ok(())
}

/// What a second pass takes.
#[test]
fn two_passes(rt: HostRuntime) -> Result<(), Fail> {
    let mut judge = UnlessAlone {
        judged: 0,
        most: 2000,
    };
    let events = list_of(rt.alloc(), b"02021")?;
    let left = shorten(&mut judge, Wrong::Plain, events)?;
    check_list(&rt, left.as_slice(), b"22001");
    same(&rt, judge.judged, 5);
    Ok(())
}

/// The passes end at once after 2,000 lists; each is taken, and joins two blocks of each processor.
#[test]
fn most_trials(rt: HostRuntime) -> Result<(), Fail> {
    let mut judge = UnlessAlone {
        judged: 0,
        most: 3000,
    };
    let mut events = Vec::new(rt.alloc());
    for _ in 0..2050 {
        events.push(Event::Step(0))?;
        events.push(Event::Step(1))?;
    }
    let left = shorten(&mut judge, Wrong::Plain, events)?;
    same(&rt, judge.judged, 2000);
    same(&rt, left.len(), 4100);
    for (i, event) in left.iter().enumerate() {
        let processor = if i < 2001 {
            0
        } else if i < 4002 {
            1
        } else {
            (i % 2) as u32
        };
        same(&rt, *event, Event::Step(processor));
    }
    Ok(())
}

/// The judge's error comes through.
#[test]
fn judge_fails(rt: HostRuntime) -> Result<(), Fail> {
    let mut judge = InOrder { judged: 0, most: 1 };
    let events = list_of(rt.alloc(), b"1012")?;
    let failed = shorten(&mut judge, Wrong::Racy, events);
    same(&rt, failed.err(), Some(Tired));
    same(&rt, judge.judged, 1);
    Ok(())
}
