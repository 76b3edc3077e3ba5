//! Events that are made at once, and the same events made one by one.

use super::keys::KEYS;
use super::machines::{
    Kernel, READS, SENDS, SENDS_AND_WAITS, TWO, WAIT, booted, check_same, delayed,
};
use super::same;
use m161::Core;
use m161_drive::{Cursor, Order, PackedEntry, Policy, Stop, turn};
use std::alloc::AllocGlobal;
use std::process::Abort;
use std::test::Fail;

/// Switches off by its second Step.
static OFF: Kernel = Kernel {
    words: &[
        0x3c1a_bfff, // lui $26, 0xbfff
        0xaf40_7e08, // sw $0, 32264($26)
    ],
    processors: 1,
};

/// A run by turns, and the same run by one event after the other.
#[derive(Drop)]
struct Pair {
    core: Core,
    cursor: Cursor,
    again: Core,
    one_by_one: Cursor,
}

/// Both runs at their start.
#[inline(never)]
fn start(rt: &impl AllocGlobal, kernel: &Kernel, policy: &Policy) -> Result<Pair, Fail> {
    let core = booted(rt, kernel)?;
    let again = booted(rt, kernel)?;
    Ok(Pair {
        cursor: Cursor::new(policy, &core),
        core,
        one_by_one: Cursor::new(policy, &again),
        again,
    })
}

/// Makes the events that the policy chooses, one by one: they have to have these entries.
fn check_entries(
    rt: &impl Abort,
    core: &mut Core,
    cursor: &mut Cursor,
    policy: &Policy,
    entries: &[PackedEntry],
) {
    for made in entries {
        let entry = made.entry();
        same(rt, cursor.choose(policy, core), Some(entry.event));
        same(rt, core.event(entry.event), Ok(entry.outcome));
        cursor.took(entry.event, core);
    }
}

/// Makes a turn with this many places, 64 at most, and its events one by one. Returns how many, or why
/// there is none.
fn make_turn(
    rt: &impl Abort,
    pair: &mut Pair,
    policy: &Policy,
    places: usize,
) -> Result<usize, Stop> {
    let Pair {
        core,
        cursor,
        again,
        one_by_one,
    } = pair;
    let mut entries = [PackedEntry::blank(); 64];
    let places = places.clamp(1, 64);
    let key = policy.key(cursor.typed());
    let found = turn(core, policy, cursor, key, &mut entries[..places]);
    if let Ok(made) = found {
        check_entries(rt, again, one_by_one, policy, &entries[..made]);
    }
    found
}

/// Makes a turn with this many places, 64 at most: it has to have this many events, or none for this
/// reason.
fn check_turn(
    rt: &impl Abort,
    pair: &mut Pair,
    policy: &Policy,
    places: usize,
    expected: Result<usize, Stop>,
) {
    let found = make_turn(rt, pair, policy, places);
    same(rt, found, expected);
}

/// Makes turns, which have to have these lengths.
fn check_turns(
    rt: &impl Abort,
    pair: &mut Pair,
    policy: &Policy,
    places: usize,
    lengths: &[usize],
) {
    for length in lengths {
        check_turn(rt, pair, policy, places, Ok(*length));
        same(rt, pair.cursor.typed(), pair.one_by_one.typed());
        check_same(rt, &pair.core, &pair.again);
    }
}

/// Makes turns of a kernel from its start, which have to have these lengths.
fn check_kernel(
    rt: &(impl Abort + AllocGlobal),
    kernel: &Kernel,
    policy: &Policy,
    places: usize,
    lengths: &[usize],
) -> Result<(), Fail> {
    let mut pair = start(rt, kernel, policy)?;
    check_turns(rt, &mut pair, policy, places, lengths);
    Ok(())
}

/// A turn of the driver ends 16 choices behind a turn's Steps, with its places, before a byte is sent,
/// before a key is typed, and behind a Step that changes the board.
#[test]
fn turn_lengths(rt: HostRuntime) -> Result<(), Fail> {
    let long = Policy::new(Order::Turns(1000), 5, Some(20), b"ab")?;
    check_kernel(&rt, &SENDS, &long, 64, &[3, 5, 1, 11, 1, 20, 1, 64, 64])?;
    check_kernel(
        &rt,
        &SENDS,
        &long,
        4,
        &[3, 4, 1, 1, 4, 4, 3, 1, 4, 4, 4, 4, 4, 1, 4],
    )?;
    let tens = Policy::new(Order::Turns(10), 24, None, b"ab")?;
    check_kernel(&rt, &SENDS, &tens, 64, &[3, 23, 1, 1, 19, 20])?;
    check_kernel(&rt, &SENDS, &tens, 4, &[3, 4, 4, 4, 4, 4, 4, 1, 4, 4, 4])?;
    let eights = Policy::new(Order::Turns(8), 100, Some(1000), b"")?;
    check_kernel(&rt, &TWO, &eights, 64, &[5, 2, 17, 24])
}

/// A turn is one event where there is one place, and by priorities.
#[test]
fn turns_of_one(rt: HostRuntime) -> Result<(), Fail> {
    let long = Policy::new(Order::Turns(1000), 5, Some(20), b"ab")?;
    check_kernel(&rt, &SENDS, &long, 1, &[1; 60])?;
    let order = Order::Priorities {
        seed: 7,
        changes: 2,
        within: 10,
    };
    let priorities = Policy::new(order, 5, Some(20), b"ab")?;
    check_kernel(&rt, &TWO, &priorities, 64, &[1; 60])
}

/// In turns of one Step and at random 16 choices are made beforehand.
#[test]
fn turns_of_many(rt: HostRuntime) -> Result<(), Fail> {
    let ones = Policy::new(Order::Turns(1), 5, Some(20), b"ab")?;
    check_kernel(&rt, &SENDS, &ones, 64, &[3, 5, 1, 11, 1, 17, 3, 1, 17, 17])?;
    let random = Policy::new(Order::Random(7), 5, Some(20), b"ab")?;
    let mut pair = start(&rt, &TWO, &random)?;
    for _turn in 0..20 {
        let found = make_turn(&rt, &mut pair, &random, 64);
        same(&rt, matches!(found, Ok(1..=17)), true);
        check_same(&rt, &pair.core, &pair.again);
    }
    Ok(())
}

/// With delays a turn of the driver ends before the next one.
#[test]
fn turns_up_to_a_delay(rt: HostRuntime) -> Result<(), Fail> {
    let policy = Policy::new(delayed(8, &[9, 9, 20])?, 100, Some(1000), b"")?;
    check_kernel(&rt, &TWO, &policy, 64, &[5, 2, 2, 11, 24, 24])
}

/// While 256 keys wait, none is due, and a turn goes on.
#[test]
fn turn_with_256_keys(rt: HostRuntime) -> Result<(), Fail> {
    let policy = Policy::new(Order::Turns(1000), 100, Some(0), &KEYS)?;
    let mut pair = start(&rt, &READS, &policy)?;
    check_turns(&rt, &mut pair, &policy, 64, &[1; 256]);
    check_turns(&rt, &mut pair, &policy, 64, &[2, 1, 64]);
    same(&rt, pair.cursor.typed(), 257);
    Ok(())
}

/// Makes turns of a kernel from its start, with these lengths, behind which there is none.
fn check_stop(
    rt: &(impl Abort + AllocGlobal),
    kernel: &Kernel,
    policy: &Policy,
    lengths: &[usize],
    stop: Stop,
) -> Result<(), Fail> {
    let mut pair = start(rt, kernel, policy)?;
    check_turns(rt, &mut pair, policy, 64, lengths);
    check_turn(rt, &mut pair, policy, 64, Err(stop));
    check_same(rt, &pair.core, &pair.again);
    Ok(())
}

/// Where there is no turn, nothing is changed.
#[test]
fn turn_stops(rt: HostRuntime) -> Result<(), Fail> {
    let policy = Policy::new(Order::Turns(1000), 100, None, b"ab")?;
    check_stop(&rt, &OFF, &policy, &[2], Stop::Off)?;
    check_stop(&rt, &WAIT, &policy, &[1, 1, 1], Stop::Stuck)?;
    check_stop(
        &rt,
        &SENDS_AND_WAITS,
        &policy,
        &[3, 1, 1, 1, 1],
        Stop::Stuck,
    )
}
