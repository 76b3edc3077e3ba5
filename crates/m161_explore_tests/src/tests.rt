//! Explorations of small tables. What is expected was counted by hand.

use crate::long::{Long, Shape};
use crate::table::Table;
use m161_explore::{Answer, begin, explore, go_on};
use m161_progress::Nobody;
use std::test::Fail;

/// From 0 to 1 or 2, and from these to 3; 1 can also be stayed at.
const DIAMOND: Table = Table {
    first: [1, 3, 3, 8, 8, 8, 8, 8],
    second: [2, 1, 8, 8, 8, 8, 8, 8],
    end: 3,
    wrong: 9,
    stop: 9,
};

/// From 0 to 1 or 2, and from 1 to 3; 2 can't be left.
const TRAP: Table = Table {
    first: [1, 3, 2, 8, 8, 8, 8, 8],
    second: [2, 1, 2, 8, 8, 8, 8, 8],
    end: 3,
    wrong: 9,
    stop: 9,
};

/// From each state to the next one, and from the last one to the first by either event.
const RING: Table = Table {
    first: [1, 2, 3, 4, 5, 6, 7, 0],
    second: [8, 8, 8, 8, 8, 8, 8, 0],
    end: 0,
    wrong: 9,
    stop: 9,
};

/// Views that are kept as pieces of 64 words: those of a shape differ in a word of the first, the second or
/// the last of three pieces, or in their number of words alone, where one may have no words, and one may
/// be the beginning of the next up to where a piece ends, or a word before or behind that.
static SHAPES: [Shape; 12] = [
    Shape::Marked(0, 191),
    Shape::Marked(63, 128),
    Shape::Marked(64, 127),
    Shape::Marked(100, 91),
    Shape::Marked(128, 63),
    Shape::Marked(191, 0),
    Shape::Marked(64, 0),
    Shape::Counted(0, false),
    Shape::Counted(61, false),
    Shape::Counted(125, false),
    Shape::Counted(0, true),
    Shape::Counted(63, true),
];

#[test]
fn each_list_comes_to_an_end(rt: HostRuntime) -> Result<(), Fail> {
    assert!(rt;
        matches!(
            explore(rt.alloc(), &DIAMOND, 9)?,
            Answer::Clean { states: 4 }
        )
    );
    assert!(rt;
        matches!(
            explore(rt.alloc(), &DIAMOND, 4)?,
            Answer::Clean { states: 4 }
        )
    );
    Ok(())
}

#[test]
fn an_event_that_is_refused_has_no_verdict(rt: HostRuntime) -> Result<(), Fail> {
    let table = Table {
        wrong: 2,
        ..DIAMOND
    };
    assert!(rt; matches!(explore(rt.alloc(), &table, 9)?, Answer::Clean { states: 4 }));
    Ok(())
}

#[test]
fn the_first_list_with_a_verdict_is_found(rt: HostRuntime) -> Result<(), Fail> {
    let table = Table {
        wrong: 1,
        ..DIAMOND
    };
    match explore(rt.alloc(), &table, 9)? {
        Answer::Found {
            events,
            verdict,
            states,
        } => {
            assert_eq!(rt; events.as_slice(), [0, 1].as_slice());
            assert!(rt; verdict == 1 && states == 4);
        }
        _ => assert!(rt; false),
    }
    Ok(())
}

#[test]
fn a_verdict_comes_before_the_states_behind_it(rt: HostRuntime) -> Result<(), Fail> {
    let table = Table { wrong: 0, ..TRAP };
    match explore(rt.alloc(), &table, 9)? {
        Answer::Found {
            events,
            verdict,
            states,
        } => {
            assert_eq!(rt; events.as_slice(), [1].as_slice());
            assert!(rt; verdict == 0 && states == 2);
        }
        _ => assert!(rt; false),
    }
    Ok(())
}

#[test]
fn the_first_list_that_hangs_is_found(rt: HostRuntime) -> Result<(), Fail> {
    match explore(rt.alloc(), &TRAP, 9)? {
        Answer::Hung { events, states } => {
            assert_eq!(rt; events.as_slice(), [1].as_slice());
            assert!(rt; states == 4);
        }
        _ => assert!(rt; false),
    }
    Ok(())
}

#[test]
fn without_an_end_the_empty_list_hangs(rt: HostRuntime) -> Result<(), Fail> {
    let table = Table { end: 9, ..DIAMOND };
    match explore(rt.alloc(), &table, 9)? {
        Answer::Hung { events, states } => assert!(rt; events.is_empty() && states == 4),
        _ => assert!(rt; false),
    }
    Ok(())
}

#[test]
fn the_limit_leaves_it_open(rt: HostRuntime) -> Result<(), Fail> {
    assert!(rt; matches!(explore(rt.alloc(), &DIAMOND, 3)?, Answer::Open { size: 1 }));
    assert!(rt; matches!(explore(rt.alloc(), &DIAMOND, 1)?, Answer::Open { size: 0 }));
    Ok(())
}

#[test]
fn the_system_stops_it(rt: HostRuntime) -> Result<(), Fail> {
    let table = Table { stop: 3, ..DIAMOND };
    assert!(rt; matches!(explore(rt.alloc(), &table, 9)?, Answer::Ended(0)));
    Ok(())
}

#[test]
fn long_views_are_known_again(rt: HostRuntime) -> Result<(), Fail> {
    for shape in SHAPES.iter() {
        let diamond = Long {
            table: DIAMOND,
            shape: *shape,
        };
        assert!(rt;
            matches!(
                explore(rt.alloc(), &diamond, 9)?,
                Answer::Clean { states: 4 }
            )
        );
    }
    Ok(())
}

#[test]
fn long_views_are_told_apart(rt: HostRuntime) -> Result<(), Fail> {
    for shape in SHAPES.iter() {
        let ring = Long {
            table: RING,
            shape: *shape,
        };
        assert!(rt; matches!(explore(rt.alloc(), &ring, 8)?, Answer::Clean { states: 8 }));
        assert!(rt; matches!(explore(rt.alloc(), &ring, 7)?, Answer::Open { size: 6 }));
    }
    Ok(())
}

#[test]
fn states_with_long_views_are_made_again(rt: HostRuntime) -> Result<(), Fail> {
    for shape in SHAPES.iter() {
        let ring = Long {
            table: Table { wrong: 7, ..RING },
            shape: *shape,
        };
        match explore(rt.alloc(), &ring, 9)? {
            Answer::Found {
                events,
                verdict,
                states,
            } => {
                assert_eq!(rt; events.as_slice(), [0, 0, 0, 0, 0, 0, 0, 1].as_slice());
                assert!(rt; verdict == 7 && states == 8);
            }
            _ => assert!(rt; false),
        }
    }
    Ok(())
}

#[test]
fn in_parts(rt: HostRuntime) -> Result<(), Fail> {
    let mut unfinished = begin(rt.alloc(), &DIAMOND)?;
    assert!(rt; unfinished.states() == 1);
    let None = go_on(rt.alloc(), &DIAMOND, &mut unfinished, 9, 2, &Nobody)? else {
        return Err(Fail::new("an answer behind two states"));
    };
    assert!(rt; unfinished.states() == 4);
    let last = go_on(rt.alloc(), &DIAMOND, &mut unfinished, 9, 9, &Nobody)?;
    assert!(rt; matches!(last, Some(Answer::Clean { states: 4 })));
    Ok(())
}
