//! Keys that are typed, and bytes that are sent.

ghost use Rattle.std.specs.Prelude.{◌-◌, ◌<◌, ◌^◌, IfSome};

use super::machines::{
    Kernel, READS, SENDS, SENDS_AND_WAITS, TWO, WAIT, booted, check_events, check_run, event_of,
    make_steps,
};
use super::same;
use m161::Core;
use m161_drive::{Cursor, Order, Policy, Stop};
use std::alloc::AllocGlobal;
use std::process::Abort;
use std::test::Fail;

/// Drives a kernel in turns of one Step, where these have to be the events. A run that waits for
/// good is stuck behind them.
fn check_kernel(
    rt: &(impl Abort + AllocGlobal),
    kernel: &Kernel,
    transfer: u32,
    gap: Option<u32>,
    keys: &[u8],
    marks: &[u8],
    is_stuck: bool,
) -> Result<(), Fail> {
    let mut core = booted(rt, kernel)?;
    let policy = Policy::new(Order::Turns(1), transfer, gap, keys)?;
    let (more, stop) = if is_stuck {
        (100, Stop::Stuck)
    } else {
        (0, Stop::End)
    };
    check_run(rt, &mut core, &policy, marks, more, stop)
}

/// A byte is sent after so many events as the policy says, or where no processor is ready.
#[test]
fn drive_transfer(rt: HostRuntime) -> Result<(), Fail> {
    check_kernel(&rt, &SENDS, 5, None, b"", b"00000000!000", false)?;
    check_kernel(&rt, &SENDS, 1, None, b"", b"0000!000", false)?;
    check_kernel(&rt, &SENDS, 0, None, b"", b"000!000", false)?;
    check_kernel(&rt, &SENDS_AND_WAITS, 100, None, b"", b"0000!", true)?;
    // a key counts as an event, and is typed behind it where both are due
    check_kernel(&rt, &SENDS, 2, Some(4), b"ab", b"0000a!000b0000", false)?;
    check_kernel(&rt, &SENDS, 2, Some(5), b"ab", b"00000!a00000b0", false)
}

/// A byte that is in the latch at the start of a run counts as one that has just come.
#[test]
fn drive_full_latch(rt: HostRuntime) -> Result<(), Fail> {
    let mut core = booted(&rt, &SENDS)?;
    make_steps(&rt, &mut core, 0, 7);
    let policy = Policy::new(Order::Turns(1), 5, None, b"")?;
    check_events(&rt, &mut core, &policy, b"00000!00")?;
    same(&rt, core.output(), b"h".as_slice());
    Ok(())
}

/// With a gap a key is typed after so many events; without one, and also with one, where no
/// processor is ready.
#[test]
fn drive_gap(rt: HostRuntime) -> Result<(), Fail> {
    check_kernel(&rt, &READS, 100, Some(3), b"ab", b"000a000b00", false)?;
    check_kernel(&rt, &READS, 100, Some(0), b"ab", b"ab00000000", false)?;
    check_kernel(&rt, &READS, 100, None, b"ab", b"0000000000", false)?;
    check_kernel(&rt, &WAIT, 100, None, b"ab", b"0ab", true)?;
    check_kernel(&rt, &WAIT, 100, Some(1000), b"ab", b"0ab", true)
}

/// The gap of the first key begins with the run.
#[test]
fn drive_first_gap(rt: HostRuntime) -> Result<(), Fail> {
    let mut core = booted(&rt, &READS)?;
    make_steps(&rt, &mut core, 0, 7);
    let policy = Policy::new(Order::Turns(1), 100, Some(5), b"ab")?;
    check_events(&rt, &mut core, &policy, b"00000a00")
}

/// A key doesn't end a turn.
#[test]
fn drive_turns_with_keys(rt: HostRuntime) -> Result<(), Fail> {
    let mut core = booted(&rt, &TWO)?;
    let policy = Policy::new(Order::Turns(4), 2, Some(9), b"abc")?;
    check_events(&rt, &mut core, &policy, b"000000001a111000011b110000111c")
}

/// 260 keys, all of them `a`.
pub(crate) static KEYS: [u8; 260] = [b'a'; 260];

/// The 257th key comes only once the kernel has taken one.
#[test]
fn drive_257_keys(rt: HostRuntime) -> Result<(), Fail> {
    let mut marks = Vec::new(rt.alloc());
    marks.extend_from_slice(&KEYS[..256])?;
    marks.extend_from_slice(b"00a00")?;
    check_kernel(&rt, &READS, 100, Some(0), &KEYS, marks.as_slice(), false)?;
    let mut waits = Vec::new(rt.alloc());
    waits.extend_from_slice(b"0")?;
    waits.extend_from_slice(&KEYS[..256])?;
    check_kernel(&rt, &WAIT, 100, None, &KEYS, waits.as_slice(), true)
}

/// The next key, where one is wanted.
fn next_key(core: &Core, cursor: &Cursor, policy: &Policy, keys: &Policy) -> Option<u8>
    ensures { IfSome result (λ _. cursor.now.typed < 2 ^ 64 - 1) }
{
    if cursor.wants_key(policy, core) {
        keys.key(cursor.typed())
    } else {
        None
    }
}

/// Makes an event by a cursor's choice, with a key only where one is wanted; it has to be this one.
fn check_choice(
    rt: &impl Abort,
    core: &mut Core,
    cursor: &mut Cursor,
    policy: &Policy,
    keys: &Policy,
    mark: u8,
) {
    let key = next_key(core, cursor, policy, keys);
    let expected = event_of(mark);
    same(rt, cursor.choose_with(policy, core, key), Some(expected));
    same(rt, core.event(expected).is_ok(), true);
    cursor.took(expected, core);
}

/// A caller who has the next key only where one is wanted drives the same run.
#[test]
fn drive_by_hand(rt: HostRuntime) -> Result<(), Fail> {
    let mut core = booted(&rt, &SENDS)?;
    let policy = Policy::new(Order::Turns(1), 2, Some(4), b"")?;
    let keys = Policy::new(Order::Turns(1), 0, None, b"ab")?;
    let mut cursor = Cursor::new(&policy, &core);
    for mark in b"0000a!000b0000" {
        check_choice(&rt, &mut core, &mut cursor, &policy, &keys, *mark);
    }
    same(&rt, cursor.typed(), 2);
    same(&rt, core.waiting(), 2);
    Ok(())
}

/// A policy says what it was made of.
#[test]
fn policy_parts(rt: HostRuntime) -> Result<(), Fail> {
    let policy = Policy::new(Order::Random(3), 5, Some(7), b"ab")?;
    same(&rt, policy.order(), Order::Random(3));
    same(&rt, policy.transfer(), 5);
    same(&rt, policy.gap(), Some(7));
    same(
        &rt,
        (policy.key(0), policy.key(1), policy.key(2)),
        (Some(b'a'), Some(b'b'), None),
    );
    Ok(())
}
