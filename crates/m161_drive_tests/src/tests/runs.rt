//! Runs from their start to their stop.

use super::machines::{Kernel, WAIT, booted, check_end, check_same, make_steps, policy};
use super::same;
use circular_buffer::HeapCircularBuffer;
use m161::Core;
use m161_drive::{Order, PackedEntry, Stop, Unnoted, drive, is_asleep};
use m161_machine::{Conf, LinkUnit};
use m161_test_support::kernel::kernel_file;
use m161_test_support::outcomes::IDLE;
use std::alloc::AllocGlobal;
use std::process::Abort;
use std::test::Fail;

/// Prints `hi`, and polls the console before each byte but the first, and before it switches off.
static HELLO: Kernel = Kernel {
    words: &[
        0x3c08_bfe0, // lui $8, 0xbfe0
        0x3409_0068, // ori $9, $0, 0x0068
        0xad09_0000, // sw $9, 0($8)
        0x8d0a_0004, // lw $10, 4($8)
        0x314a_0002, // andi $10, $10, 0x0002
        0x1140_fffd, // beq $10, $0, to the load
        0, // nop
        0xad00_0004, // sw $0, 4($8)
        0x3409_0069, // ori $9, $0, 0x0069
        0xad09_0000, // sw $9, 0($8)
        0x8d0a_0004, // lw $10, 4($8)
        0x314a_0002, // andi $10, $10, 0x0002
        0x1140_fffd, // beq $10, $0, to the load
        0, // nop
        0x3c0b_bfff, // lui $11, 0xbfff
        0x356b_7c00, // ori $11, $11, 0x7c00
        0xad60_0208, // sw $0, 520($11)
        0, // nop
        0, // nop
    ],
    processors: 1,
};

/// Waits for its timer, with 1000 in Compare.
static TIMER: Kernel = Kernel {
    words: &[
        0x3408_03e8, // ori $8, $0, 0x03e8
        0x4088_5800, // mtc0 $8, $11
        0x3408_8001, // ori $8, $0, 0x8001
        0x4088_6000, // mtc0 $8, $12
        0x4200_0020, // wait
    ],
    processors: 1,
};

/// Starts the second processor, and both wait: the first lets its timer interrupt, which has no
/// time, and the second nothing.
static SLEEPERS: Kernel = Kernel {
    words: &[
        0x3c08_bfff, // lui $8, 0xbfff
        0x3508_8400, // ori $8, $8, 0x8400
        0x3c09_8000, // lui $9, 0x8000
        0x3529_0224, // ori $9, $9, 0x0224
        0xad09_0300, // sw $9, 768($8)
        0x340a_0002, // ori $10, $0, 0x0002
        0xad0a_fa14, // sw $10, -1516($8)
        0x3408_8001, // ori $8, $0, 0x8001
        0x4088_6000, // mtc0 $8, $12
        0x4200_0020, // wait
    ],
    processors: 2,
};

#[test]
fn drive_hello(rt: HostRuntime) -> Result<(), Fail> {
    let mut core = booted(&rt, &HELLO)?;
    let driven = drive(&mut core, &policy(Order::Turns(1))?, 100_000, &mut Unnoted)?;
    same(&rt, driven.stop, Stop::Off);
    same(&rt, driven.made, core.made());
    same(&rt, core.output(), b"hi".as_slice());
    Ok(())
}

/// Drives a kernel on its one processor until so many Steps are made and it stops so.
fn check_waiting(
    rt: &(impl Abort + AllocGlobal),
    kernel: &Kernel,
    made: u64,
    stop: Stop,
) -> Result<(), Fail> {
    let mut core = booted(rt, kernel)?;
    let driven = drive(&mut core, &policy(Order::Turns(1))?, 100_000, &mut Unnoted)?;
    check_end(rt, driven, made, stop);
    Ok(())
}

#[test]
fn drive_stuck(rt: HostRuntime) -> Result<(), Fail> {
    check_waiting(&rt, &WAIT, 1, Stop::Stuck)?;
    check_waiting(&rt, &TIMER, 1004, Stop::Off)
}

/// Fails the test where a Step of a processor isn't idle, or the machine isn't asleep after it.
fn check_idle(rt: &impl Abort, core: &mut Core, p: u32) {
    same(rt, core.step(p), IDLE);
    same(rt, is_asleep(core), true);
}

#[test]
fn asleep(rt: HostRuntime) -> Result<(), Fail> {
    let mut core = booted(&rt, &SLEEPERS)?;
    make_steps(&rt, &mut core, 0, 10);
    // the second one hasn't waited yet
    same(&rt, is_asleep(&core), false);
    make_steps(&rt, &mut core, 1, 1);
    same(&rt, is_asleep(&core), true);
    for _round in 0..1000 {
        check_idle(&rt, &mut core, 0);
        check_idle(&rt, &mut core, 1);
    }
    let driven = drive(&mut core, &policy(Order::Turns(1))?, 100, &mut Unnoted)?;
    check_end(&rt, driven, 0, Stop::Stuck);
    Ok(())
}

/// A machine isn't asleep while a timer runs.
#[test]
fn awake(rt: HostRuntime) -> Result<(), Fail> {
    let mut core = booted(&rt, &TIMER)?;
    make_steps(&rt, &mut core, 0, 5);
    same(&rt, is_asleep(&core), false);
    same(&rt, core.step(0), IDLE);
    same(&rt, is_asleep(&core), false);
    Ok(())
}

/// Makes the events of these entries one by one, which have to be accepted with the entries' outcomes.
fn make_again(rt: &impl Abort, entries: &HeapCircularBuffer<PackedEntry>, core: &mut Core) {
    for made in entries.iter() {
        let entry = made.entry();
        same(rt, core.event(entry.event), Ok(entry.outcome));
    }
}

/// Drives the sample kernel to its end, and makes the same events again.
fn check_again(rt: &(impl Abort + AllocGlobal), order: Order) -> Result<(), Fail> {
    let file = kernel_file(rt.alloc())?;
    let conf = Conf {
        ram: 1_048_576,
        processors: 2,
        log: 1,
        link: LinkUnit::Word,
        strict: false,
    };
    let mut core = Core::boot(rt.alloc(), &file, conf)?;
    let mut entries = HeapCircularBuffer::with_capacity(rt.alloc(), 100_000)?;
    let driven = drive(&mut core, &policy(order)?, 100_000, &mut entries)?;
    check_end(rt, driven, core.made(), Stop::Off);
    same(rt, entries.len() as u64, core.made());
    let mut again = Core::boot(rt.alloc(), &file, conf)?;
    make_again(rt, &entries, &mut again);
    check_same(rt, &core, &again);
    Ok(())
}

#[test]
fn drive_again(rt: HostRuntime) -> Result<(), Fail> {
    check_again(&rt, Order::Turns(1))?;
    check_again(&rt, Order::Turns(5))?;
    check_again(&rt, Order::Random(7))?;
    check_again(
        &rt,
        Order::Priorities {
            seed: 2,
            changes: 2,
            within: 100,
        },
    )
}
