//! Runs that wait for something.

use super::same;
use super::sessions::Act::{Does, Fails};
use super::sessions::{Act, INPUTS, LOOP, SEND, Scene, check_kernel, check_scenes, session};
use m161_debug::CommandError::{BadArgument, BadProcessor, Unknown};
use m161_debug::{Condition, StopReason};
use m161_machine::Event::{Done, Step};
use std::test::Fail;

/// Runs that wait for a register.
static OF_REGISTERS: [Scene; 2] = [
    Scene {
        words: LOOP,
        processors: 2,
        events: &[Step(0); 14],
        acts: &[
            // the first event, and one further on
            Does("u r 0 8", 1, "until 0\n"),
            Does("u r 0 8", 3, "until 2\n"),
            Does("b 0 80000208", 0, "break 0 80000208\n"),
            Does("u r 0 8", 1, "break 1\n"),
            // the breakpoint isn't looked at before the first event
            Does("u r 0 8", 2, "until 1\n"),
            Does("d 0 80000208", 0, "deleted\n"),
            Does("u r 1 8", 7, "end 7\n"),
            Does("u r 0 8", 0, "end 0\n"),
        ],
        made: 14,
    },
    Scene {
        words: LOOP,
        processors: 2,
        events: &[Step(0); 3],
        acts: &[
            // the last event
            Does("s 0 1", 0, "end 1\n"),
            Does("u r 0 8", 3, "until 2\n"),
        ],
        made: 4,
    },
];

/// Runs of the kernel that wait for a word.
static OF_WORDS: [Act; 5] = [
    Does("u m 00003000", 3, "until 2\n"),
    Does("u m 3000", 29, "until 28\n"),
    Does("u m 0x80003004", 28, "until 27\n"),
    Does("u m a0003000", 21, "off 20\n"),
    Does("u m a0003000", 0, "end 0\n"),
];

/// Runs of the kernel that wait for a trap.
static OF_TRAPS: [Act; 3] = [
    Does("u t 1", 18, "until 17\n"),
    Does("u t 1", 18, "until 17\n"),
    Does("u t 0", 45, "off 44\n"),
];

/// Runs of the kernel that wait for a row.
static OF_ROWS: [Act; 4] = [
    Does("u i 1 53", 22, "until 21\n"),
    Does("u i 1 53", 24, "until 23\n"),
    Does("u i 1 17", 22, "until 21\n"),
    Does("u i 0 0", 13, "off 12\n"),
];

/// Runs that wait for the console to send.
static OF_OUTPUT: [Scene; 2] = [
    Scene {
        words: SEND,
        processors: 1,
        events: INPUTS,
        acts: &[Does("u o", 4, "until 3\n"), Does("u o", 4, "end 4\n")],
        made: 8,
    },
    Scene {
        words: LOOP,
        processors: 1,
        events: &[Step(0), Done],
        acts: &[Does("u o", 2, "refused 1 5 NothingSent\n")],
        made: 1,
    },
];

/// Conditions.
static CONDITIONS: [Scene; 1] = [Scene {
    words: LOOP,
    processors: 2,
    events: &[],
    acts: &[
        Does("u m ffc", 0, "end 0\n"),
        Fails("u m 1000", BadArgument),
        Fails("u m 80001000", BadArgument),
        Fails("u m c0000000", BadArgument),
        Fails("u m 202", BadArgument),
        Fails("u m", BadArgument),
        Fails("u m 200 1", BadArgument),
        Does("u t 1", 0, "end 0\n"),
        Fails("u t 2", BadProcessor),
        Fails("u t 4294967296", BadArgument),
        Does("u r 1 31", 0, "end 0\n"),
        Fails("u r 1 32", BadArgument),
        Fails("u r 2 31", BadProcessor),
        Fails("u r 2 32", BadArgument),
        Fails("u r 1", BadArgument),
        Fails("u r 1 031", BadArgument),
        Does("u i 1 63", 0, "end 0\n"),
        Fails("u i 1 64", BadArgument),
        Fails("u i 2 63", BadProcessor),
        Fails("u i 2 64", BadArgument),
        Does("u o", 0, "end 0\n"),
        Fails("u o 0", BadArgument),
        Fails("u o ", BadArgument),
        Fails("u x", BadArgument),
        Fails("u", BadArgument),
        Fails("u ", BadArgument),
        Fails("until", Unknown),
    ],
    made: 0,
}];

#[test]
fn until_a_register(rt: HostRuntime) -> Result<(), Fail> {
    check_scenes(&rt, &OF_REGISTERS)
}

#[test]
fn until_a_word(rt: HostRuntime) -> Result<(), Fail> {
    check_kernel(&rt, &OF_WORDS, 81)
}

#[test]
fn until_a_trap(rt: HostRuntime) -> Result<(), Fail> {
    check_kernel(&rt, &OF_TRAPS, 81)
}

#[test]
fn until_a_row(rt: HostRuntime) -> Result<(), Fail> {
    check_kernel(&rt, &OF_ROWS, 81)
}

#[test]
fn until_the_output(rt: HostRuntime) -> Result<(), Fail> {
    check_scenes(&rt, &OF_OUTPUT)
}

#[test]
fn conditions(rt: HostRuntime) -> Result<(), Fail> {
    check_scenes(&rt, &CONDITIONS)
}

#[test]
fn until_by_its_call(rt: HostRuntime) -> Result<(), Fail> {
    let mut session = session(rt.alloc(), LOOP, 1, 100)?;
    let stop = session.until(Condition::Output, &[Step(0); 3]);
    same(&rt, stop, StopReason::End(3));
    Ok(())
}
