//! Verdicts of lists of events.

use super::kernels::{HELLO, LETTER, LOOP, ONE, WAIT, file_with};
use super::same;
use m161::{Console, Tlb};
use m161_judge::{
    AuditError, BootError, Booted, Conf, Event, Goal, Judged, LinkUnit, Verdict, Watch, judge,
    judge_events,
};
use m161_steplog::read_schedule;
use m161_test_support::kernel::kernel_with;
use std::alloc::{AllocGlobal, Global};
use std::process::Abort;
use std::test::Fail;

/// No branch that waits for the acknowledgement.
const WITHOUT_WAIT: [(u32, u32); 1] = [(0x248, 0)];

/// A run of the sample kernel's variant that doesn't wait: a stale use, and one more Step.
const HASTY: &str = "s 0 11\ns 1 16\ns 0 10\ns 1 2\n";

/// The sample kernel's watch.
const WATCH: Watch = Watch {
    id: 5,
    page: 0x400,
    pte: 0x3000,
    done: 0x3004,
};

// A goal without watches.
fn sends<'a>(output: Option<&'a [u8]>, keys: &'a [u8]) -> Goal<'a> {
    Goal {
        watches: &[],
        never: &[],
        output,
        keys,
    }
}

// The verdict of a schedule on a kernel.
fn verdict_of(
    alloc: Global,
    words: &[u32],
    schedule: &str,
    goal: &Goal,
) -> Result<Option<Judged>, Fail> {
    let file = file_with(alloc, words)?;
    let events = read_schedule(alloc, schedule)?.to_vec(alloc)?;
    Ok(judge::<Tlb, Console>(alloc, &file, ONE, &events, goal)?)
}

fn judged(verdict: Verdict, events: usize) -> Option<Judged> {
    Some(Judged { verdict, events })
}

// Checks the verdict of a schedule on a kernel, without watches and keys.
fn check(
    rt: &(impl Abort + AllocGlobal),
    words: &[u32],
    schedule: &str,
    output: Option<&[u8]>,
    expected: Option<Judged>,
) -> Result<(), Fail> {
    let found = verdict_of(rt.alloc(), words, schedule, &sends(output, b""))?;
    same(rt, found, expected);
    Ok(())
}

/// Behind its nineteenth event the kernel that prints `hi` is off.
const TO_OFF: &str = "s 0 3\no\ns 0 7\no\ns 0 8\n";

#[test]
fn outputs(rt: HostRuntime) -> Result<(), Fail> {
    check(&rt, &HELLO, TO_OFF, Some(b"hi"), None)?;
    check(
        &rt,
        &HELLO,
        TO_OFF,
        Some(b"ho"),
        judged(Verdict::Output, 19),
    )?;
    check(&rt, &HELLO, TO_OFF, None, None)?;
    // what comes behind the switch doesn't matter
    check(
        &rt,
        &HELLO,
        "s 0 3\no\ns 0 7\no\ns 0 9\ns 0 5\nk 41\n",
        Some(b"h"),
        judged(Verdict::Output, 19),
    )
}

// The verdict of a schedule, made on a machine that was booted before, without watches and keys.
fn verdict_from(
    alloc: Global,
    booted: &Booted<Tlb, Console>,
    schedule: &str,
    output: Option<&[u8]>,
) -> Result<Option<Judged>, Fail> {
    let events = read_schedule(alloc, schedule)?.to_vec(alloc)?;
    Ok(judge_events(alloc, booted, &events, &sends(output, b""))?)
}

#[test]
fn lists_of_one_boot(rt: HostRuntime) -> Result<(), Fail> {
    let alloc = rt.alloc();
    let file = file_with(alloc, &HELLO)?;
    let booted = Booted::<Tlb, Console>::new(alloc, &file, ONE)?;
    let found = verdict_from(alloc, &booted, TO_OFF, Some(b"ho"))?;
    same(&rt, found, judged(Verdict::Output, 19));
    // each is made from boot
    let found = verdict_from(alloc, &booted, "s 0 3\n", Some(b"hi"))?;
    same(&rt, found, judged(Verdict::End, 3));
    let found = verdict_from(alloc, &booted, TO_OFF, Some(b"hi"))?;
    same(&rt, found, None);
    // the watch is outside RAM
    let bad = Goal {
        watches: &[WATCH],
        never: &[],
        output: None,
        keys: &[],
    };
    let none: [Event; 0] = [];
    let found = judge_events(alloc, &booted, &none, &bad);
    same(&rt, found, Err(AuditError::BadWatch(0)));
    Ok(())
}

#[test]
fn ends(rt: HostRuntime) -> Result<(), Fail> {
    check(&rt, &LOOP, "s 0 10\n", Some(b""), judged(Verdict::End, 10))?;
    check(&rt, &LOOP, "s 0 10\n", None, None)?;
    check(&rt, &HELLO, "s 0 3\n", Some(b"hi"), judged(Verdict::End, 3))
}

#[test]
fn stuck(rt: HostRuntime) -> Result<(), Fail> {
    let first = judged(Verdict::Stuck, 1);
    check(&rt, &WAIT, "s 0 1\n", None, first)?;
    check(&rt, &WAIT, "s 0 5\n", None, first)?;
    check(&rt, &WAIT, "s 0 5\n", Some(b"h"), first)?;
    // it has sent what is asked for
    check(&rt, &WAIT, "s 0 5\n", Some(b""), None)?;
    // it isn't stuck while the console is sending
    check(&rt, &LETTER, "s 0 9\n", None, None)?;
    check(&rt, &LETTER, "s 0 9\no\n", None, judged(Verdict::Stuck, 10))?;
    check(&rt, &LETTER, "s 0 9\no\n", Some(b"h"), None)
}

#[test]
fn stuck_with_keys(rt: HostRuntime) -> Result<(), Fail> {
    let alloc = rt.alloc();
    let typed = verdict_of(alloc, &WAIT, "s 0 5\nk 41\ns 0 1\n", &sends(None, b"A"))?;
    same(&rt, typed, judged(Verdict::Stuck, 6));
    let untyped = verdict_of(alloc, &WAIT, "s 0 5\n", &sends(None, b"A"))?;
    same(&rt, untyped, None);
    Ok(())
}

#[test]
fn refused(rt: HostRuntime) -> Result<(), Fail> {
    // it would be stuck after the first Step
    check(&rt, &WAIT, "s 0 5\no\n", None, None)?;
    check(&rt, &LOOP, "s 1 1\n", Some(b"h"), None)
}

// The verdict of a run of the sample kernel's variant.
fn hasty(alloc: Global, schedule: &str, watches: &[Watch]) -> Result<Option<Judged>, Fail> {
    let file = kernel_with(alloc, &WITHOUT_WAIT)?;
    let conf = Conf {
        ram: 1_048_576,
        processors: 2,
        log: 1000,
        link: LinkUnit::Word,
        strict: false,
    };
    let events = read_schedule(alloc, schedule)?.to_vec(alloc)?;
    let goal = Goal {
        watches,
        never: &[],
        output: Some(b"h"),
        keys: &[],
    };
    Ok(judge::<Tlb, Console>(alloc, &file, conf, &events, &goal)?)
}

#[test]
fn stale(rt: HostRuntime) -> Result<(), Fail> {
    let alloc = rt.alloc();
    let expected = Verdict::Stale {
        place: 37,
        processor: 1,
        address: 0x0040_0000,
        row: 53,
    };
    same(&rt, hasty(alloc, HASTY, &[WATCH])?, judged(expected, 38));
    same(&rt, hasty(alloc, HASTY, &[])?, judged(Verdict::End, 39));
    // an event is refused behind the stale use
    let refused = "s 0 11\ns 1 16\ns 0 10\ns 1 2\no\n";
    same(&rt, hasty(alloc, refused, &[WATCH])?, None);
    Ok(())
}

#[test]
fn errors(rt: HostRuntime) -> Result<(), Fail> {
    let alloc = rt.alloc();
    let file = file_with(alloc, &WAIT)?;
    let bad = Goal {
        watches: &[WATCH, Watch { id: 64, ..WATCH }],
        never: &[],
        output: None,
        keys: &[],
    };
    let large = Conf { ram: 16384, ..ONE };
    let none: [Event; 0] = [];
    let found = judge::<Tlb, Console>(alloc, &file, large, &none, &bad);
    same(&rt, found, Err(AuditError::BadWatch(1)));
    let wrong = Conf { ram: 1, ..ONE };
    let found = judge::<Tlb, Console>(alloc, &file, wrong, &none, &bad);
    same(&rt, found, Err(AuditError::Boot(BootError::BadConf)));
    let found = judge::<Tlb, Console>(alloc, &file, wrong, &none, &sends(None, b""));
    same(&rt, found, Err(AuditError::Boot(BootError::BadConf)));
    Ok(())
}
