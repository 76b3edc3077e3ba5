//! Going back to earlier events.

use super::same;
use super::sessions::Act::Does;
use super::sessions::{
    Act, INPUTS, LOOP, SEND, Session, check, kernel_events, kernel_session, left_of, session,
};
use m161_debug::{Event, JumpError, StopReason};
use m161_isa::Reg;
use m161_machine::Event::{Done, Key, Step};
use std::alloc::AllocGlobal;
use std::process::Abort;
use std::test::Fail;

/// What is done to a session of `LOOP`.
enum Move {
    /// Steps of processor 0, up to a stop.
    Steps(u32, StopReason),
    /// Events, up to a stop.
    Go(&'static [Event], StopReason),
    /// It goes back to the state before this event; these events are undone.
    Jump(u64, &'static [Event]),
    /// It doesn't go there.
    Stays(u64, JumpError),
    /// Register 8 and the address of processor 0 are these.
    Place(u32, u32),
}

use Move::{Go, Jump, Place, Stays, Steps};

/// To the end, the middle and the beginning of seven Steps, with a breakpoint of processor 0 at
/// 80000208.
static MOVES: [Move; 18] = [
    Steps(2, StopReason::End(2)),
    Steps(5, StopReason::Break(3)),
    Steps(2, StopReason::End(2)),
    Place(3, 0x8000_0204),
    // the end
    Jump(7, &[]),
    Place(3, 0x8000_0204),
    Stays(8, JumpError::BadArgument),
    // the middle, twice
    Jump(4, &[Step(0); 3]),
    Place(2, 0x8000_0204),
    Jump(4, &[]),
    Place(2, 0x8000_0204),
    Stays(5, JumpError::BadArgument),
    // the breakpoint is still there
    Go(&[Step(0); 7], StopReason::Break(1)),
    // the beginning
    Jump(0, &[Step(0); 5]),
    Place(0, 0x8000_0200),
    Stays(1, JumpError::BadArgument),
    Jump(0, &[]),
    Place(0, 0x8000_0200),
];

/// With a log of five entries.
static DROPPED: [Move; 6] = [
    Steps(5, StopReason::End(5)),
    Jump(5, &[]),
    Steps(1, StopReason::End(1)),
    Stays(7, JumpError::BadArgument),
    Stays(6, JumpError::Dropped),
    Stays(0, JumpError::Dropped),
];

/// The kernel's events from event 59 on, once more.
static AGAIN: [Act; 2] = [Does("u m 3004", 1, "until 0\n"), Does("g", 21, "off 20\n")];

fn check_move(rt: &(impl Abort + AllocGlobal), session: &mut Session, done: &Move) {
    match done {
        Steps(n, stop) => same(rt, session.go_steps(0, *n), *stop),
        Go(events, stop) => same(rt, session.go(events), *stop),
        Jump(k, undone) => check_jump(rt, session, *k, undone),
        Stays(k, error) => check_error(rt, session, *k, *error),
        Place(word, address) => check_place(rt, session, *word, *address),
    }
}

/// Goes back to the state before event `k`; these events are undone.
fn check_jump(rt: &(impl Abort + AllocGlobal), session: &mut Session, k: u64, undone: &[Event]) {
    match session.jump(rt.alloc(), k) {
        Ok(events) => check_events(rt, events.as_slice(), undone),
        Err(error) => same(rt, Some(error), None),
    }
    same(rt, session.machine().made(), k);
    same(rt, session.machine().log_len() as u64, k);
}

fn check_events(rt: &impl Abort, events: &[Event], expected: &[Event]) {
    same(rt, events.len(), expected.len());
    for (event, expected) in events.iter().zip(expected) {
        same(rt, *event, *expected);
    }
}

/// A jump that isn't made.
fn check_error(
    rt: &(impl Abort + AllocGlobal),
    session: &mut Session,
    k: u64,
    expected: JumpError,
) {
    let made = session.machine().made();
    let found = match session.jump(rt.alloc(), k) {
        Ok(_) => None,
        Err(error) => Some(error),
    };
    same(rt, found, Some(expected));
    same(rt, session.machine().made(), made);
}

/// Register 8 and the address of processor 0.
fn check_place(rt: &impl Abort, session: &Session, word: u32, address: u32) {
    assert!(rt; session.machine().processors() > 0);
    same(rt, session.machine().reg(0, Reg::new(8)), word);
    same(rt, session.machine().pc(0), address);
}

/// How many bytes the console has sent, how many typed ones wait, and the byte that it sends.
fn check_console(rt: &impl Abort, session: &Session, sent: usize, waiting: u32, latch: Option<u8>) {
    same(rt, session.machine().output().len(), sent);
    same(rt, session.machine().waiting(), waiting);
    same(rt, session.machine().latch(), latch);
}

#[test]
fn jumps_of_a_loop(rt: HostRuntime) -> Result<(), Fail> {
    let mut session = session(rt.alloc(), LOOP, 1, 100)?;
    same(&rt, session.breakpoint(0, 0x8000_0208), Ok(()));
    for done in &MOVES {
        check_move(&rt, &mut session, done);
    }
    Ok(())
}

#[test]
fn jumps_with_a_dropped_log(rt: HostRuntime) -> Result<(), Fail> {
    let mut session = session(rt.alloc(), LOOP, 1, 5)?;
    for done in &DROPPED {
        check_move(&rt, &mut session, done);
    }
    Ok(())
}

#[test]
fn jumps_over_inputs(rt: HostRuntime) -> Result<(), Fail> {
    let mut session = session(rt.alloc(), SEND, 1, 100)?;
    same(&rt, session.go(INPUTS), StopReason::End(8));
    check_console(&rt, &session, 1, 2, Some(0));
    check_jump(&rt, &mut session, 5, left_of(INPUTS, 5));
    check_console(&rt, &session, 1, 2, None);
    check_jump(&rt, &mut session, 3, &[Done, Key(0x42)]);
    check_console(&rt, &session, 0, 1, Some(0));
    Ok(())
}

#[test]
fn jumps_of_the_kernel(rt: HostRuntime) -> Result<(), Fail> {
    let mut session = kernel_session(rt.alloc())?;
    let events = kernel_events(rt.alloc())?;
    same(&rt, session.go(events.as_slice()), StopReason::Off(80));
    same(&rt, session.machine().is_off(), true);
    check_jump(&rt, &mut session, 60, left_of(events.as_slice(), 60));
    same(&rt, session.machine().is_off(), false);
    same(&rt, session.machine().word(0x3004), Some(2));
    check_jump(&rt, &mut session, 59, &[Step(0)]);
    same(&rt, session.machine().word(0x3004), Some(0));
    check(&rt, &mut session, left_of(events.as_slice(), 59), &AGAIN)
}
