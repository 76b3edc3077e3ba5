//! The orders of Steps.

use super::machines::{Kernel, TWO, booted, check_events, delayed, make_steps, policy};
use m161_drive::{DelayError, Order, OrderError};
use std::alloc::AllocGlobal;
use std::process::Abort;
use std::test::Fail;

/// Starts four more processors where the first one spins, by 10 Steps.
static FIVE: Kernel = Kernel {
    words: &[
        0x3c08_bfff, // lui $8, 0xbfff
        0x3508_8400, // ori $8, $8, 0x8400
        0x3c09_8000, // lui $9, 0x8000
        0x3529_0228, // ori $9, $9, 0x0228
        0xad09_0300, // sw $9, 768($8)
        0xad09_0700, // sw $9, 1792($8)
        0xad09_0b00, // sw $9, 2816($8)
        0xad09_0f00, // sw $9, 3840($8)
        0x340a_001e, // ori $10, $0, 0x001e
        0xad0a_fa14, // sw $10, -1516($8)
        0x1000_ffff, // beq $0, $0, to itself
        0, // nop
    ],
    processors: 5,
};

/// The same, where the four wait after three Steps for good.
static FEWER: Kernel = Kernel {
    words: &[
        0x3c08_bfff, // lui $8, 0xbfff
        0x3508_8400, // ori $8, $8, 0x8400
        0x3c09_8000, // lui $9, 0x8000
        0x3529_0230, // ori $9, $9, 0x0230
        0xad09_0300, // sw $9, 768($8)
        0xad09_0700, // sw $9, 1792($8)
        0xad09_0b00, // sw $9, 2816($8)
        0xad09_0f00, // sw $9, 3840($8)
        0x340a_001e, // ori $10, $0, 0x001e
        0xad0a_fa14, // sw $10, -1516($8)
        0x1000_ffff, // beq $0, $0, to itself
        0, // nop
        0, // nop
        0, // nop
        0x4200_0020, // wait
    ],
    processors: 5,
};

/// Starts the second processor, and both wait for their timers, 5 Steps later.
static TICKING: Kernel = Kernel {
    words: &[
        0x3c08_bfff, // lui $8, 0xbfff
        0x3508_8400, // ori $8, $8, 0x8400
        0x3c09_8000, // lui $9, 0x8000
        0x3529_021c, // ori $9, $9, 0x021c
        0xad09_0300, // sw $9, 768($8)
        0x340a_0002, // ori $10, $0, 0x0002
        0xad0a_fa14, // sw $10, -1516($8)
        0x3408_03e8, // ori $8, $0, 0x03e8
        0x4088_5800, // mtc0 $8, $11
        0x3408_8001, // ori $8, $0, 0x8001
        0x4088_6000, // mtc0 $8, $12
        0x4200_0020, // wait
    ],
    processors: 2,
};

/// Drives a kernel from its start, where these have to be the events.
fn check_order(
    rt: &(impl Abort + AllocGlobal),
    kernel: &Kernel,
    order: Order,
    marks: &[u8],
) -> Result<(), Fail> {
    let mut core = booted(rt, kernel)?;
    check_events(rt, &mut core, &policy(order)?, marks)
}

/// The same from the state on in which the first processor has started the others.
fn check_started(
    rt: &(impl Abort + AllocGlobal),
    kernel: &Kernel,
    steps: u32,
    order: Order,
    marks: &[u8],
) -> Result<(), Fail> {
    let mut core = booted(rt, kernel)?;
    make_steps(rt, &mut core, 0, steps);
    check_events(rt, &mut core, &policy(order)?, marks)
}

#[test]
fn drive_turns(rt: HostRuntime) -> Result<(), Fail> {
    check_order(&rt, &TWO, Order::Turns(1), b"00000001010101010101")?;
    check_order(&rt, &TWO, Order::Turns(2), b"00000000110011001100")?;
    check_order(&rt, &TWO, Order::Turns(7), b"00000001111111000000")?;
    check_started(&rt, &FIVE, 10, Order::Turns(3), b"00011122233344400011")
}

/// A turn of a processor that waits ends early, and nobody's turn is it while timers run.
#[test]
fn drive_waiting_turns(rt: HostRuntime) -> Result<(), Fail> {
    check_started(
        &rt,
        &FEWER,
        10,
        Order::Turns(4),
        b"000011122233344400000000000000",
    )?;
    check_order(
        &rt,
        &TICKING,
        Order::Turns(3),
        b"00000000011100011010101010101010",
    )
}

/// At a delay the ready processor behind the next one makes the Step, and its turn begins. More delays
/// than others are ready pass over all others; where one is ready, and behind the run, none has an effect.
#[test]
fn drive_delays(rt: HostRuntime) -> Result<(), Fail> {
    check_order(&rt, &TWO, delayed(50, &[8])?, b"00000000111111111111")?;
    check_order(&rt, &TWO, delayed(50, &[7, 7])?, b"00000001111111111111")?;
    check_order(&rt, &TWO, delayed(2, &[8])?, b"00000000001100110011")?;
    check_order(
        &rt,
        &TWO,
        delayed(1, &[3, 6, 1000])?,
        b"00000001010101010101",
    )?;
    check_started(&rt, &FIVE, 10, delayed(1, &[1, 1, 3])?, b"0341234012340123")?;
    check_started(&rt, &FIVE, 10, delayed(3, &[4])?, b"0001222333444000")?;
    check_started(&rt, &FIVE, 10, delayed(1, &[0; 7])?, b"4012340123401234")
}

/// Delays that can't be followed.
#[test]
fn bad_delays(rt: HostRuntime) -> Result<(), Fail> {
    assert!(rt; matches!(policy(delayed(0, &[1])?), Err(OrderError::NoTurn)));
    assert!(rt; matches!(delayed(1, &[2, 1]), Err(DelayError::Descending)));
    assert!(rt; matches!(delayed(1, &[0; 65]), Err(DelayError::TooMany)));
    assert!(rt; matches!(delayed(1, &[u32::MAX; 64]), Ok(_)));
    Ok(())
}

/// A seed chooses among two processors, and among five.
fn check_seed(
    rt: &(impl Abort + AllocGlobal),
    seed: u64,
    two: &[u8],
    five: &[u8],
) -> Result<(), Fail> {
    check_started(rt, &TWO, 7, Order::Random(seed), two)?;
    check_started(rt, &FIVE, 10, Order::Random(seed), five)
}

#[test]
fn drive_seed(rt: HostRuntime) -> Result<(), Fail> {
    check_seed(&rt, 0, b"0101110000101001", b"1324331101404123")?;
    check_seed(&rt, 1, b"1011101100001011", b"3042203302112234")?;
    check_seed(&rt, 42, b"1011111111001000", b"3232333244004100")
}

/// A word is drawn for each Step, also of a processor that alone is ready.
#[test]
fn drive_random(rt: HostRuntime) -> Result<(), Fail> {
    check_order(&rt, &TWO, Order::Random(0), b"0000000000101001")?;
    check_order(&rt, &TWO, Order::Random(1), b"0000000100001011")?;
    check_order(&rt, &TWO, Order::Random(42), b"0000000111001000")?;
    check_started(
        &rt,
        &FEWER,
        10,
        Order::Random(0),
        b"132433110240400200000000",
    )
}

/// A seed, how many changes a stretch has and how many Steps, and the Steps that are made.
type Row = (u64, u32, u32, &'static [u8]);

/// Two processors, from the start on.
static TWO_ROWS: [Row; 5] = [
    (0, 2, 10, b"0000000100000000011100001111000110000000"),
    (1, 3, 8, b"0000000110000111110000011110000000001111"),
    (42, 5, 6, b"0000000100100100001111011101111001111000"),
    (7, 2, 100, b"0000000111000000000000000000000000000000"),
    (3, 8, 8, b"0000000100100000010111111000000001000000"),
];

/// Five processors.
static FIVE_ROWS: [Row; 5] = [
    (0, 3, 10, b"1111222433300144444444222222211111300022"),
    (5, 4, 12, b"3333332224400000000124433333444200001111"),
    (9, 64, 16, b"1203442210444444021341334022222202143121"),
    (11, 0, 5, b"1111111111111111111111111111111111111111"),
    (2, 6, 40, b"1111111114444444402222333333333333333333"),
];

/// Five processors, of which four wait after three Steps.
static FEWER_ROWS: [Row; 4] = [
    (0, 3, 10, b"1112444300022330000000000000000000000000"),
    (5, 4, 12, b"3332224440011100000000000000000000000000"),
    (9, 64, 16, b"1203442210400000130000300000000000000000"),
    (11, 0, 5, b"1114442220000000000000000000000000000000"),
];

/// Drives a kernel by priorities, behind so many Steps of the first processor.
fn check_priorities(
    rt: &(impl Abort + AllocGlobal),
    kernel: &Kernel,
    steps: u32,
    rows: &[Row],
) -> Result<(), Fail> {
    for (seed, changes, within, marks) in rows {
        let order = Order::Priorities {
            seed: *seed,
            changes: *changes,
            within: *within,
        };
        check_started(rt, kernel, steps, order, marks)?;
    }
    Ok(())
}

#[test]
fn drive_priorities(rt: HostRuntime) -> Result<(), Fail> {
    check_priorities(&rt, &TWO, 0, &TWO_ROWS)?;
    check_priorities(&rt, &FIVE, 10, &FIVE_ROWS)?;
    check_priorities(&rt, &FEWER, 10, &FEWER_ROWS)
}

#[test]
fn bad_orders(rt: HostRuntime) -> Result<(), Fail> {
    let order = Order::Priorities {
        seed: 0,
        changes: 65,
        within: 0,
    };
    assert!(rt; matches!(policy(order), Err(OrderError::NoStretch)));
    assert!(rt; matches!(policy(Order::Turns(0)), Err(OrderError::NoTurn)));
    Ok(())
}
