//! A conflict of a strict machine.

use super::same;
use super::sessions::Act::Does;
use super::sessions::{Act, Session, check, strict_session};
use m161_debug::StopReason;
use m161_machine::Conflict;
use m161_machine::Event::Step;
use std::process::Abort;
use std::test::Fail;

/// Writes row 5, and then a row 3 that it would overlap: `ori $8, $0, 0x0500`, `mtc0 $8, $0`,
/// `lui $9, 0x0040`, `ori $9, $9, 0x1140`, `mtc0 $9, $10`, `mtc0 $0, $2`, `tlbwi`; and `ori $8, $0,
/// 0x0300`, `mtc0 $8, $0`, `lui $9, 0x0040`, `ori $9, $9, 0x1240`, `mtc0 $9, $10`, `ori $10, $0,
/// 0x0100`, `mtc0 $10, $2`, `tlbwi`.
const CONFLICT: &[u32] = &[
    0x3408_0500,
    0x4088_0000,
    0x3c09_0040,
    0x3529_1140,
    0x4089_5000,
    0x4080_1000,
    0x4200_0002,
    0x3408_0300,
    0x4088_0000,
    0x3c09_0040,
    0x3529_1240,
    0x4089_5000,
    0x340a_0100,
    0x408a_1000,
    0x4200_0002,
];

/// What each of these sessions does, over 20 Steps.
static CASES: [&[Act]; 5] = [
    &[Does("g", 15, "conflict 14 0 3 5\n")],
    &[Does("g 15", 15, "conflict 14 0 3 5\n")],
    &[Does("u t 0", 15, "conflict 14 0 3 5\n")],
    &[Does("s 0 20", 0, "conflict 14 0 3 5\n")],
    &[
        Does("s 0 14", 0, "end 14\n"),
        Does("s 0", 0, "s 0 conflict 3 5\n"),
        Does("s 0", 0, "refused 2 Off\n"),
        Does("l 1", 0, "s 0 conflict 3 5\n"),
    ],
];

/// The machine tells the conflict, is off, and its row 3 is as at boot.
#[inline(never)]
fn check_conflict(rt: &impl Abort, session: &Session) {
    let machine = session.machine();
    let told = Conflict {
        processor: 0,
        row: 3,
        other: 5,
    };
    same(rt, machine.conflict(), Some(told));
    same(rt, machine.is_off(), true);
    assert!(rt; machine.processors() > 0);
    same(rt, machine.row(0, 3).page.number(), 0x80003);
}

#[test]
fn conflict_ends_a_run(rt: HostRuntime) -> Result<(), Fail> {
    let mut session = strict_session(rt.alloc(), CONFLICT)?;
    same(&rt, session.go(&[Step(0); 20]), StopReason::Conflict(14));
    check_conflict(&rt, &session);
    Ok(())
}

#[test]
fn texts_of_a_conflict(rt: HostRuntime) -> Result<(), Fail> {
    for acts in &CASES {
        let mut session = strict_session(rt.alloc(), CONFLICT)?;
        check(&rt, &mut session, &[Step(0); 20], acts)?;
        check_conflict(&rt, &session);
    }
    Ok(())
}
