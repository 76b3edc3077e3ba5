//! What is seen of the run of the sample kernel at its places.

use super::runs::{go_to, refused, replay};
use super::same;
use m161::{Console, Tlb};
use m161_moves::{Activity, Doing, Run};
use m161_replay::{Replay, Target};
use std::alloc::AllocError;
use std::process::Abort;
use std::test::Fail;

// A word of a processor, where there is such a processor and such a number.
fn register(run: &Replay<Tlb, Console>, p: u32, number: u32) -> Option<u32> {
    if p < run.processors() && number < 81 {
        run.register(p, number)
    } else {
        None
    }
}

/// As processors begin: the second one was not started.
static AT_BOOT: [(u32, u32, Option<u32>); 9] = [
    (0, 0, Some(0)),
    (0, 37, Some(0x8000_0200)),
    (0, 38, None),
    (0, 71, None),
    (0, 73, Some(0x3f00)),
    (0, 80, Some(0xa1)),
    (0, 81, None),
    (1, 37, Some(0)),
    (2, 37, None),
];

#[test]
fn registers_at_boot(rt: HostRuntime) -> Result<(), Fail> {
    let run = replay(&rt)?;
    for (p, number, word) in AT_BOOT {
        same(&rt, register(&run, p, number), word);
    }
    same(&rt, (run.processors(), run.count()), (2, 138));
    Ok(())
}

/// Where processor 1 has missed 00400000, and is in its handler, as the kernel's trace tells.
static IN_HANDLER: [(u32, u32, Option<u32>); 8] = [
    (1, 8, Some(0x0801)),
    (1, 32, Some(0)),
    (1, 35, Some(0x0040_0000)),
    (1, 36, Some(0x0000_0008)),
    (1, 37, Some(0x8000_0000)),
    (1, 75, Some(0x1000)),
    (1, 77, Some(0x0040_0140)),
    (1, 79, Some(0x8000_0298)),
];

#[test]
fn registers_after_a_trap(rt: HostRuntime) -> Result<(), Fail> {
    let mut run = replay(&rt)?;
    go_to(&mut run, 24)?;
    for (p, number, word) in IN_HANDLER {
        same(&rt, register(&run, p, number), word);
    }
    Ok(())
}

fn byte(run: &Replay<Tlb, Console>, p: u32, address: u32) -> Option<u8> {
    if p < run.processors() {
        run.byte(p, address)
    } else {
        None
    }
}

/// In kseg0, kseg1, kuseg without a row, at the end of RAM and behind it, in the slots.
static BYTES: [(u32, Option<u8>); 7] = [
    (0x8000_0200, Some(0x3c)),
    (0xa000_0201, Some(0x08)),
    (0x3000, None),
    (0x800f_ffff, Some(0)),
    (0x8010_0000, None),
    (0xbfe0_0000, None),
    (0xffff_ffff, None),
];

#[test]
fn bytes_of_segments(rt: HostRuntime) -> Result<(), Fail> {
    let run = replay(&rt)?;
    for (address, expected) in BYTES {
        same(&rt, byte(&run, 0, address), expected);
    }
    Ok(())
}

/// At 39 processor 1 has a row for 00400000, and processor 0 has none.
#[test]
fn bytes_by_rows(rt: HostRuntime) -> Result<(), Fail> {
    let mut run = replay(&rt)?;
    go_to(&mut run, 39)?;
    for k in 0..4 {
        same(&rt, byte(&run, 1, 0x40_0000 + k), Some(0));
        same(&rt, byte(&run, 0, 0x40_0000 + k), None);
    }
    go_to(&mut run, 91)?;
    same(&rt, byte(&run, 0, 0x8000_300b), Some(0));
    go_to(&mut run, 92)?;
    same(&rt, byte(&run, 0, 0x8000_300b), Some(1));
    go_to(&mut run, 91)?;
    same(&rt, byte(&run, 0, 0x8000_300b), Some(0));
    Ok(())
}

fn doing(run: &Replay<Tlb, Console>, p: u32) -> Option<Doing> {
    if p < run.processors() {
        Some(run.doing(p))
    } else {
        None
    }
}

#[test]
fn what_processors_do(rt: HostRuntime) -> Result<(), Fail> {
    let mut run = replay(&rt)?;
    let mut expected = Doing {
        activity: Activity::Stopped,
        is_user: false,
        in_slot: false,
    };
    same(&rt, doing(&run, 1), Some(expected));
    go_to(&mut run, 134)?;
    expected.activity = Activity::Waiting;
    same(&rt, doing(&run, 1), Some(expected));
    Ok(())
}

// Fails the test where a text is another.
fn check_text(rt: &impl Abort, text: Result<String, AllocError>, expected: &str) {
    match text {
        Ok(text) => same(rt, text.as_str() == expected, true),
        Err(_) => same(rt, expected, "no memory"),
    }
}

#[test]
fn texts_of_places(rt: HostRuntime) -> Result<(), Fail> {
    let mut run = replay(&rt)?;
    check_text(&rt, run.next_text(rt.alloc()), "s 0");
    check_text(&rt, run.schedule_text(rt.alloc()), "");
    check_text(&rt, run.trace_text(rt.alloc(), 1), "");
    go_to(&mut run, 12)?;
    check_text(&rt, run.schedule_text(rt.alloc()), "s 0 11\ns 1\n");
    check_text(
        &rt,
        run.trace_text(rt.alloc(), 2),
        "10 0 80000228 adcd0214 sw $13, 532($14)  cpue=00000003 starts 1\n11 1 80000280 34080140 ori $8, $0, 0x0140  r8=00000140\n",
    );
    go_to(&mut run, 138)?;
    check_text(&rt, run.next_text(rt.alloc()), "off");
    Ok(())
}

#[test]
fn places_at_the_end(rt: HostRuntime) -> Result<(), Fail> {
    let mut run = replay(&rt)?;
    go_to(&mut run, 138)?;
    go_to(&mut run, 133)?;
    check_text(
        &rt,
        run.where_text(rt.alloc()),
        "0 running 80000254 8d0f3010 lw $15, 12304($8)\n1 running 800002b8 42000020 wait\n",
    );
    Ok(())
}

#[test]
fn words_of_memory(rt: HostRuntime) -> Result<(), Fail> {
    let run = replay(&rt)?;
    match run.memory_text(rt.alloc(), 0x8000_0200, 1)? {
        Some(text) => same(&rt, text.as_str() == "00000200 3c088000\n", true),
        None => same(&rt, false, true),
    }
    for (address, number) in [
        (0x8000_0202, 1),
        (0x8000_0200, 0),
        (0x8000_0200, 1025),
        (0x8010_0000, 1),
    ] {
        same(
            &rt,
            run.memory_text(rt.alloc(), address, number)?.is_none(),
            true,
        );
    }
    Ok(())
}

#[test]
fn refused_is_the_end(rt: HostRuntime) -> Result<(), Fail> {
    let mut run = refused(&rt)?;
    check_text(&rt, run.next_text(rt.alloc()), "s 0");
    go_to(&mut run, 1)?;
    check_text(&rt, run.next_text(rt.alloc()), "k 41");
    go_to(&mut run, 3)?;
    same(
        &rt,
        (run.place(), run.is_at_end(), run.count()),
        (2, true, 3),
    );
    check_text(&rt, run.next_text(rt.alloc()), "refused 5 NothingSent");
    same(&rt, run.console(), &[]);
    Ok(())
}
