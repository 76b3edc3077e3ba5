//! Moves along a list of events. Where they stop was reckoned by hand, from the protocol's page.

use crate::listed::Listed;
use crate::tests::same;
use m161_gdb::{Kind, Motion, StopError, Stops};
use m161_moves::{Access, Reason, StepSeen, backwards, forwards};

/// Two processors: at 1 a store to 80003008, at 2 no Step, at 4 a load from 00400000, which is
/// there, at 6 a Step that fetches nothing, at 7 a load from 80003008.
static EVENTS: [Option<StepSeen>; 9] = [
    Some(StepSeen {
        processor: 0,
        fetched: Some(0x8000_0200),
        access: None,
    }),
    Some(StepSeen {
        processor: 0,
        fetched: Some(0x8000_0204),
        access: Some(Access {
            is_store: true,
            word: 0x3008,
            mapped: None,
        }),
    }),
    None,
    Some(StepSeen {
        processor: 1,
        fetched: Some(0x8000_0200),
        access: None,
    }),
    Some(StepSeen {
        processor: 1,
        fetched: Some(0x8000_0204),
        access: Some(Access {
            is_store: false,
            word: 0x3008,
            mapped: Some(0x40_0000),
        }),
    }),
    Some(StepSeen {
        processor: 0,
        fetched: Some(0x8000_0208),
        access: None,
    }),
    Some(StepSeen {
        processor: 1,
        fetched: None,
        access: None,
    }),
    Some(StepSeen {
        processor: 0,
        fetched: Some(0x8000_0204),
        access: Some(Access {
            is_store: false,
            word: 0x3008,
            mapped: None,
        }),
    }),
    Some(StepSeen {
        processor: 1,
        fetched: Some(0x8000_0208),
        access: None,
    }),
];

const C: Option<Motion> = Some(Motion::Continue);

const S: Option<Motion> = Some(Motion::Step);

/// A move: what stops it, by its kind, its address and its size (0 where nothing does); the mark; what
/// the processors do; whether it goes forwards; from where; where it stops, and why.
type Row = (
    (Kind, u32, u32),
    Option<usize>,
    [Option<Motion>; 2],
    bool,
    usize,
    usize,
    (&'static str, u32, u32),
);

const NOTHING: (Kind, u32, u32) = (Kind::Software, 1, 0);

const FIRST: (Kind, u32, u32) = (Kind::Software, 0x8000_0200, 4);

const THIRD: (Kind, u32, u32) = (Kind::Hardware, 0x8000_0208, 4);

const STORES: (Kind, u32, u32) = (Kind::Write, 0x8000_3008, 4);

const LOADS: (Kind, u32, u32) = (Kind::Read, 0xa000_300b, 1);

const MAPPED: (Kind, u32, u32) = (Kind::Access, 0x40_0003, 8);

const BESIDE: (Kind, u32, u32) = (Kind::Access, 0x8000_3004, 4);

const ACROSS: (Kind, u32, u32) = (Kind::Access, 0x8000_3005, 4);

// What a reason is, its processor and its address.
fn told(reason: Reason) -> (&'static str, u32, u32) {
    match reason {
        Reason::Interrupt => ("interrupt", 0, 0),
        Reason::Mark => ("mark", 0, 0),
        Reason::Step(p) => ("step", p, 0),
        Reason::End => ("end", 0, 0),
        Reason::Begin => ("begin", 0, 0),
        Reason::Break {
            processor,
            address,
            kind,
        } => match kind {
            Kind::Software => ("software", processor, address),
            Kind::Hardware => ("hardware", processor, address),
            _ => ("no breakpoint", processor, address),
        },
        Reason::Touch { processor, watch } => ("touch", processor, watch.address),
    }
}

static ROWS: [Row; 35] = [
    (NOTHING, None, [C, C], true, 0, 9, ("end", 0, 0)),
    (NOTHING, None, [C, C], true, 9, 9, ("end", 0, 0)),
    (NOTHING, None, [C, C], false, 9, 0, ("begin", 0, 0)),
    (NOTHING, None, [C, C], false, 0, 0, ("begin", 0, 0)),
    // a breakpoint where the move begins stops it forwards, and not backwards
    (
        FIRST,
        None,
        [C, C],
        true,
        0,
        0,
        ("software", 0, 0x8000_0200),
    ),
    (
        FIRST,
        None,
        [C, C],
        true,
        1,
        3,
        ("software", 1, 0x8000_0200),
    ),
    (
        FIRST,
        None,
        [C, C],
        false,
        3,
        0,
        ("software", 0, 0x8000_0200),
    ),
    (
        FIRST,
        None,
        [C, C],
        false,
        4,
        3,
        ("software", 1, 0x8000_0200),
    ),
    // nor does one of a processor that isn't resumed
    (
        FIRST,
        None,
        [None, C],
        true,
        0,
        3,
        ("software", 1, 0x8000_0200),
    ),
    (
        FIRST,
        None,
        [C, None],
        false,
        9,
        0,
        ("software", 0, 0x8000_0200),
    ),
    (FIRST, None, [None, C], false, 3, 0, ("begin", 0, 0)),
    (
        THIRD,
        None,
        [C, C],
        true,
        0,
        5,
        ("hardware", 0, 0x8000_0208),
    ),
    (
        THIRD,
        None,
        [None, C],
        true,
        0,
        8,
        ("hardware", 1, 0x8000_0208),
    ),
    (THIRD, None, [None, None], true, 0, 9, ("end", 0, 0)),
    // Steps
    (NOTHING, None, [S, C], true, 0, 1, ("step", 0, 0)),
    (NOTHING, None, [None, S], true, 0, 4, ("step", 1, 0)),
    (NOTHING, None, [S, None], true, 2, 6, ("step", 0, 0)),
    (NOTHING, None, [None, S], true, 5, 7, ("step", 1, 0)),
    (NOTHING, None, [S, None], true, 8, 9, ("end", 0, 0)),
    (NOTHING, None, [S, C], false, 9, 7, ("step", 0, 0)),
    (NOTHING, None, [C, S], false, 7, 6, ("step", 1, 0)),
    (NOTHING, None, [None, S], false, 3, 0, ("begin", 0, 0)),
    // a watch stops before its event in either direction
    (STORES, None, [C, C], true, 0, 1, ("touch", 0, 0x8000_3008)),
    (STORES, None, [C, C], true, 2, 9, ("end", 0, 0)),
    (STORES, None, [C, C], false, 9, 2, ("touch", 0, 0x8000_3008)),
    (STORES, None, [C, C], false, 2, 2, ("touch", 0, 0x8000_3008)),
    (LOADS, None, [C, C], true, 0, 4, ("touch", 1, 0xa000_300b)),
    (
        LOADS,
        None,
        [C, None],
        true,
        0,
        7,
        ("touch", 0, 0xa000_300b),
    ),
    (MAPPED, None, [C, C], true, 0, 4, ("touch", 1, 0x40_0003)),
    (MAPPED, None, [C, C], true, 5, 9, ("end", 0, 0)),
    (BESIDE, None, [C, C], true, 0, 9, ("end", 0, 0)),
    (ACROSS, None, [C, C], false, 7, 5, ("touch", 1, 0x8000_3005)),
    // the mark, which is nothing where the move begins
    (NOTHING, Some(3), [C, C], true, 0, 3, ("mark", 0, 0)),
    (
        FIRST,
        Some(3),
        [C, C],
        true,
        3,
        3,
        ("software", 1, 0x8000_0200),
    ),
    (THIRD, Some(5), [S, C], false, 6, 5, ("mark", 0, 0)),
];

// Moves from a place, where this place is kept.
fn moved(
    rt: &HostRuntime,
    row: &Row,
    kept: usize,
    interrupted: bool,
) -> Result<(usize, (&'static str, u32, u32)), StopError> {
    let mut stops = Stops::none(rt.alloc());
    if row.0.1 != 1 {
        stops.set(row.0.0, row.0.1, row.0.2)?;
    }
    stops.set_mark(row.1);
    stops.set_interrupted(interrupted);
    let mut run = Listed {
        events: &EVENTS,
        at: row.4,
        kept,
    };
    let reason = if row.3 {
        forwards(&mut run, &stops, &row.2)
    } else {
        backwards(&mut run, &stops, &row.2)
    };
    Ok((run.at, told(reason.unwrap_or(Reason::Interrupt))))
}

#[test]
fn moves_by_rows(rt: HostRuntime) -> Result<(), StopError> {
    for row in &ROWS {
        for kept in [0, 2, 5, 9] {
            same(&rt, moved(&rt, row, kept, false)?, (row.5, row.6));
        }
        same(&rt, moved(&rt, row, 5, true)?, (row.4, ("interrupt", 0, 0)));
    }
    Ok(())
}

#[test]
fn steps_back_to_where_they_were(rt: HostRuntime) -> Result<(), StopError> {
    let stops = Stops::none(rt.alloc());
    let mut run = Listed {
        events: &EVENTS,
        at: 0,
        kept: 1,
    };
    for place in [1, 2, 6, 8] {
        let made = forwards(&mut run, &stops, &[S, C]);
        same(&rt, (made, run.at), (Ok(Reason::Step(0)), place));
    }
    for place in [7, 5, 1, 0] {
        let made = backwards(&mut run, &stops, &[S, C]);
        same(&rt, (made, run.at), (Ok(Reason::Step(0)), place));
    }
    Ok(())
}
