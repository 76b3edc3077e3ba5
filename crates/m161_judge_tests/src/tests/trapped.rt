//! Traps, counted by processor and code; and notes on those that nobody handles.

use super::kernels::{ONE, file_with};
use super::same;
use m161::Core;
use m161_steplog::read_schedule;
use m161_traps::{Span, Watch, find_traps, look, show_traps, show_unhandled};
use std::alloc::AllocGlobal;
use std::process::Abort;
use std::test::Fail;

// Checks what is told of the traps of a kernel under a schedule.
fn check(
    rt: &(impl Abort + AllocGlobal),
    words: &[u32],
    schedule: &str,
    expected: &str,
) -> Result<(), Fail> {
    let file = file_with(rt.alloc(), words)?;
    let events = read_schedule(rt.alloc(), schedule)?.to_vec(rt.alloc())?;
    let mut core = Core::boot(rt.alloc(), &file, ONE)?;
    let lines = find_traps(rt.alloc(), &mut core, &events)?;
    let text = show_traps(rt.alloc(), &lines)?;
    same(rt, text.as_str(), expected);
    Ok(())
}

/// `lw $9, 1($0)`.
const MISALIGNED: [u32; 1] = [0x8c09_0001];

/// `syscall`.
const SYSTEM_CALL: [u32; 1] = [0x0000_000c];

// From the general vector 96 words of zeros lead to the first word again.
#[test]
fn traps_of_a_code_have_one_line(rt: HostRuntime) -> Result<(), Fail> {
    check(
        &rt,
        &MISALIGNED,
        "s 0 98\n",
        "traps 0 4 AdEL 2 first 0 80000200 00000001\n",
    )?;
    check(
        &rt,
        &SYSTEM_CALL,
        "s 0 97\n",
        "traps 0 8 Sys 1 first 0 80000200 -\n",
    )?;
    check(&rt, &SYSTEM_CALL, "k 41\n", "")
}

#[test]
fn refused_events_have_no_number(rt: HostRuntime) -> Result<(), Fail> {
    check(
        &rt,
        &SYSTEM_CALL,
        "o\nk 41\ns 1 2\ns 0 98\n",
        "traps 0 8 Sys 2 first 1 80000200 -\n",
    )
}

// Checks the notes on the traps of a kernel under a schedule, where its image has these spans in its
// file.
fn check_notes(
    rt: &(impl Abort + AllocGlobal),
    words: &[u32],
    schedule: &str,
    spans: &[Span],
    expected: &str,
) -> Result<(), Fail> {
    let file = file_with(rt.alloc(), words)?;
    let events = read_schedule(rt.alloc(), schedule)?.to_vec(rt.alloc())?;
    let mut core = Core::boot(rt.alloc(), &file, ONE)?;
    let mut watched = Core::boot(rt.alloc(), &file, ONE)?;
    let mut found = None;
    let mut watch = Watch::new();
    for event in &events {
        if found.is_none() {
            found = look(&mut core, *event, spans)?;
        }
        if let Ok(entry) = watched.packed_event(*event) {
            watch.add(&[entry])?;
        }
    }
    let mut text = show_unhandled(rt.alloc(), found)?;
    let trapping = watch.show(rt.alloc())?;
    text.push_str(trapping.as_str())?;
    same(rt, text.as_str(), expected);
    Ok(())
}

const NOTHING_THERE: &str = "s161: note trap 0 0 8 Sys 80000080 (the image has nothing there)\n";

#[test]
fn nothing_is_at_a_vector(rt: HostRuntime) -> Result<(), Fail> {
    check_notes(&rt, &SYSTEM_CALL, "s 0 98\n", &[], NOTHING_THERE)?;
    let word = Span {
        address: 0x8000_0080,
        size: 4,
    };
    check_notes(&rt, &SYSTEM_CALL, "s 0 98\n", &[word], "")?;
    let byte = Span {
        address: 0xa000_0083,
        size: 1,
    };
    check_notes(&rt, &SYSTEM_CALL, "s 0 98\n", &[byte], "")?;
    let beside = [
        Span {
            address: 0x8000_0000,
            size: 128,
        },
        Span {
            address: 0x8000_0084,
            size: 4,
        },
    ];
    check_notes(&rt, &SYSTEM_CALL, "s 0 98\n", &beside, NOTHING_THERE)
}

/// `lui $8, 0x40; mtc0 $8, $12; syscall`: with BEV there is no memory at the vector.
const NO_MEMORY_AT_VECTOR: [u32; 3] = [0x3c08_0040, 0x4088_6000, 0x0000_000c];

#[test]
fn last_steps_trap(rt: HostRuntime) -> Result<(), Fail> {
    check_notes(&rt, &NO_MEMORY_AT_VECTOR, "s 0 4\n", &[], "")?;
    check_notes(
        &rt,
        &NO_MEMORY_AT_VECTOR,
        "s 0 5\nk 41\n",
        &[],
        "s161: note trapping 3 0 6 IBE (its last 3 Steps trapped)\n",
    )
}
