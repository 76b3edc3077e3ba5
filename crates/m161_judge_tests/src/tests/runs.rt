//! Verdicts of driven runs.

use super::kernels::{HELLO, LETTER, LOOP, ONE, WAIT, file_with};
use super::same;
use m161::{Console, Tlb};
use m161_drive::{Cursor, Order, turn};
use m161_judge::{
    Booted, Conf, Event, First, Goal, Judged, JudgedRun, LinkUnit, Policy, StepMemory, Verdict,
    Watch, judge_rest, judge_run,
};
use m161_machine::{Core, PackedEntry};
use m161_test_support::kernel::kernel_with;
use std::alloc::{AllocGlobal, Global};
use std::process::Abort;
use std::test::Fail;

// Drives a kernel in turns of one Step, for at most `n` events.
fn driven(
    alloc: Global,
    words: &[u32],
    keys: &[u8],
    n: u64,
    output: Option<&[u8]>,
) -> Result<JudgedRun, Fail> {
    let file = file_with(alloc, words)?;
    let policy = Policy::new(Order::Turns(1), 100, Some(1000), keys)?;
    let goal = Goal {
        watches: &[],
        never: &[],
        output,
        keys: &[],
    };
    Ok(judge_run::<Tlb, Console>(alloc, &file, ONE, &policy, n, &goal)?)
}

// Checks how many events a run makes, its verdict, and whether it is cut.
fn check(
    rt: &(impl Abort + AllocGlobal),
    words: &[u32],
    n: u64,
    output: Option<&[u8]>,
    expected: (usize, Option<Judged>, bool),
) -> Result<(), Fail> {
    let run = driven(rt.alloc(), words, b"", n, output)?;
    same(rt, (run.events.len(), run.judged, run.is_cut), expected);
    Ok(())
}

fn judged(verdict: Verdict, events: usize) -> Option<Judged> {
    Some(Judged { verdict, events })
}

#[test]
fn outputs(rt: HostRuntime) -> Result<(), Fail> {
    let made = driven(rt.alloc(), &HELLO, b"", 1000, None)?.events.len();
    check(&rt, &HELLO, 1000, Some(b"hi"), (made, None, false))?;
    check(
        &rt,
        &HELLO,
        1000,
        Some(b"ho"),
        (made, judged(Verdict::Output, made), false),
    )
}

#[test]
fn ends(rt: HostRuntime) -> Result<(), Fail> {
    check(&rt, &LOOP, 10, None, (10, None, true))?;
    let end = judged(Verdict::End, 10);
    check(&rt, &LOOP, 10, Some(b""), (10, end, true))?;
    // more events than the log that the machine was given has room for
    check(&rt, &LOOP, 2000, None, (2000, None, true))
}

#[test]
fn stuck(rt: HostRuntime) -> Result<(), Fail> {
    let first = judged(Verdict::Stuck, 1);
    check(&rt, &WAIT, 10, None, (1, first, false))?;
    check(&rt, &WAIT, 1, None, (1, first, false))?;
    check(&rt, &WAIT, 0, None, (0, None, true))?;
    check(&rt, &WAIT, 10, Some(b""), (1, None, false))?;
    check(
        &rt,
        &LETTER,
        10,
        None,
        (5, judged(Verdict::Stuck, 5), false),
    )?;
    check(&rt, &LETTER, 10, Some(b"h"), (5, None, false))?;
    let keys = driven(rt.alloc(), &WAIT, b"AB", 10, None)?;
    same(&rt, keys.judged, judged(Verdict::Stuck, 3));
    let cut = driven(rt.alloc(), &WAIT, b"AB", 2, None)?;
    same(&rt, (cut.judged, cut.is_cut), (None, true));
    Ok(())
}

/// No branch that waits for the acknowledgement.
const WITHOUT_WAIT: [(u32, u32); 1] = [(0x248, 0)];

/// The machine that runs the sample kernel.
const SAMPLE: Conf = Conf {
    ram: 1_048_576,
    processors: 2,
    log: 10_000,
    link: LinkUnit::Word,
    strict: false,
};

/// The sample kernel's watch.
const WATCH: Watch = Watch {
    id: 5,
    page: 0x400,
    pte: 0x3000,
    done: 0x3004,
};

// The verdict of the sample kernel, or a variant of it, under an order.
fn sample(
    alloc: Global,
    changes: &[(u32, u32)],
    order: Order,
    never: &[u32],
) -> Result<JudgedRun, Fail> {
    let file = kernel_with(alloc, changes)?;
    let policy = Policy::new(order, 100, Some(1000), &[])?;
    let goal = Goal {
        watches: &[WATCH],
        never,
        output: None,
        keys: &[],
    };
    Ok(judge_run::<Tlb, Console>(alloc, &file, SAMPLE, &policy, 10_000, &goal)?)
}

// Checks that a run is stale where one is expected, and that the verdict needs the events up to it.
fn check_stale(rt: &impl Abort, run: &JudgedRun, expected: bool) {
    match run.judged {
        Some(
            Judged {
                verdict: Verdict::Stale { place, .. },
                events,
            },
        ) => same(rt, (true, events), (expected, place.saturating_add(1))),
        _ => same(rt, (run.judged, run.is_cut, expected), (None, false, false)),
    }
}

#[test]
fn seeds(rt: HostRuntime) -> Result<(), Fail> {
    let alloc = rt.alloc();
    check_stale(&rt, &sample(alloc, &[], Order::Turns(1), &[])?, false);
    for seed in 0..4 {
        check_stale(&rt, &sample(alloc, &[], Order::Random(seed), &[])?, false);
    }
    for seed in 0..3 {
        let run = sample(alloc, &WITHOUT_WAIT, Order::Random(seed), &[])?;
        check_stale(&rt, &run, seed == 2);
    }
    let order = Order::Priorities {
        seed: 0,
        changes: 2,
        within: 100,
    };
    check_stale(&rt, &sample(alloc, &WITHOUT_WAIT, order, &[])?, true);
    Ok(())
}

// Checks where the sample kernel, by turns of one Step, first reaches one of these addresses.
fn check_reached(
    rt: &(impl Abort + AllocGlobal),
    never: &[u32],
    expected: (usize, u32, u32),
) -> Result<(), Fail> {
    let run = sample(rt.alloc(), &[], Order::Turns(1), never)?;
    let (place, processor, address) = expected;
    let reached = Verdict::Reached {
        place,
        processor,
        address,
    };
    same(rt, run.judged, judged(reached, place.saturating_add(1)));
    Ok(())
}

// `reached-before-fetch`, `reached-by-branch-target`: the places are those of the trace's lines.
#[test]
fn reached(rt: HostRuntime) -> Result<(), Fail> {
    check_reached(&rt, &[0x8000_00ac], (81, 1, 0x8000_00ac))?;
    check_reached(&rt, &[0x8000_0200], (0, 0, 0x8000_0200))?;
    check_reached(&rt, &[0x8000_00ac, 0x8000_0280], (11, 1, 0x8000_0280))?;
    let run = sample(rt.alloc(), &[], Order::Turns(1), &[0x8000_0300, 0])?;
    same(&rt, run.judged, None);
    // a stale use comes first, wherever it is
    let order = Order::Priorities {
        seed: 0,
        changes: 2,
        within: 100,
    };
    let stale = sample(rt.alloc(), &WITHOUT_WAIT, order, &[0x8000_0200])?;
    check_stale(&rt, &stale, true);
    Ok(())
}

/// A run of the sample kernel's variant that was begun.
#[derive(Drop)]
struct Begun {
    core: Core<Tlb, Console>,
    cursor: Cursor,
    events: Vec<Event>,
    steps: StepMemory<Tlb, Console>,
}

// Makes the first events of a run, and keeps of them what it takes to judge the rest.
fn begin(
    alloc: Global,
    booted: &Booted<Tlb, Console>,
    policy: &Policy,
    goal: &Goal,
    first: usize,
) -> Result<Begun, Fail> {
    let mut core = booted.copy_core(alloc)?;
    let mut cursor = Cursor::new(policy, &core);
    let mut events = Vec::new(alloc);
    let mut steps = StepMemory::new(alloc, booted, goal)?;
    let mut entry = [PackedEntry::blank(); 1];
    for _ in 0..first {
        let key = policy.key(cursor.typed());
        if let Ok(_) = turn(&mut core, policy, &mut cursor, key, &mut entry) {
            let made = entry[0];
            events.push(made.entry().event)?;
        }
        steps.go_on(&events, goal)?;
    }
    Ok(Begun {
        core,
        cursor,
        events,
        steps,
    })
}

// The run of the sample kernel's variant that doesn't wait, from its first events on.
fn rest_of(alloc: Global, order: Order, never: &[u32], first: usize) -> Result<JudgedRun, Fail> {
    let file = kernel_with(alloc, &WITHOUT_WAIT)?;
    let booted = Booted::<Tlb, Console>::new(alloc, &file, SAMPLE)?;
    let policy = Policy::new(order, 100, Some(1000), &[])?;
    let goal = Goal {
        watches: &[WATCH],
        never,
        output: None,
        keys: &[],
    };
    let Begun {
        mut core,
        cursor,
        events,
        steps,
    } = begin(alloc, &booted, &policy, &goal, first)?;
    let steps = steps.copy(alloc)?;
    let none = First::none();
    let rest = judge_rest(
        &mut core, &policy, cursor, 10_000, none, events, steps, &goal,
    )?;
    Ok(rest)
}

// Checks that a run has the verdict of the whole, also where it goes on behind what goes wrong.
fn check_rest(rt: &(impl Abort + AllocGlobal), order: Order, never: &[u32]) -> Result<(), Fail> {
    let whole = sample(rt.alloc(), &WITHOUT_WAIT, order, never)?;
    let needed = match whole.judged {
        Some(judged) => judged.events,
        None => 0,
    };
    for first in [
        0,
        needed / 2,
        needed.saturating_sub(1),
        needed,
        needed.saturating_add(9),
    ] {
        let run = rest_of(rt.alloc(), order, never, first)?;
        same(rt, (run.judged, run.is_cut), (whole.judged, whole.is_cut));
        same(rt, run.events.len(), whole.events.len());
    }
    Ok(())
}

// `audit-memory-not-restored`: also where the beginning goes wrong.
#[test]
fn rests(rt: HostRuntime) -> Result<(), Fail> {
    let stale = Order::Priorities {
        seed: 0,
        changes: 2,
        within: 100,
    };
    check_rest(&rt, stale, &[])?;
    check_rest(&rt, stale, &[0x8000_0200])?;
    check_rest(&rt, Order::Turns(1), &[0x8000_00ac])?;
    check_rest(&rt, Order::Turns(1), &[0x8000_0280, 0x8000_00ac])
}
