//! Runs of many seeds, up to the first that ends wrong.

ghost use Rattle.std.specs.Prelude.{◌≡◌, None, Some, IfOk};
ghost use Rattle.m161_c.specs.Search.{EndsIn, SearchesAs, TriesAs, TriesBy, is_right, order_at};

use crate::answer::{Goal, OrderNumbers};
use crate::driven::{gap_of, order_number, order_of};
use crate::{ALL_RIGHT, BAD, NO_MEMORY};
use m161::{Core, Refusal};
use m161_drive::{Policy, Stop, Unnoted, drive};
use std::alloc::{AllocError, Global};

fn order_at(order: &OrderNumbers, k: u64) -> OrderNumbers
    ensures { result ≡ order_at order.now k }
{
    OrderNumbers {
        kind: order.kind,
        turns: order.turns,
        seed: order.seed.wrapping_add(k),
        changes: order.changes,
        within: order.within,
        transfer: order.transfer,
        gap: order.gap,
        gaps: order.gaps,
    }
}

fn is_right(core: &Core, goal: &Goal) -> bool
    ensures { result ≡ is_right goal.now core.now.state }
{
    if !core.is_off() {
        return false;
    }
    match core.word(goal.address) {
        Some(word) => word == goal.word,
        None => false,
    }
}

// The state in which a driven run ends.
fn end_of(alloc: Global, core: &Core, policy: &Policy, n: u64) -> Result<Core, AllocError>
    ensures { IfOk result (λ end. EndsIn policy.now n core.now.state end.state) }
{
    let mut end = core.copy(alloc)?;
    let driven = drive(&mut end, policy, n, &mut Unnoted)?;
    match driven.stop {
        Stop::Refused(Refusal::NoMemory) => Err(AllocError),
        Stop::Refused(_) | Stop::Off | Stop::End | Stop::Stuck => Ok(end),
    }
}

fn try_policy(alloc: Global, core: &Core, policy: &Policy, n: u64, goal: &Goal) -> Option<u8>
    ensures { TriesBy None policy.now n goal.now result core.now.state }
{
    match end_of(alloc, core, policy, n) {
        Ok(end) => { if is_right(&end, goal) { None } else { Some(0) } }
        Err(_) => Some(NO_MEMORY),
    }
}

// Tries the run of an order: nothing where it ends right, 0 where it ends wrong, and else why it isn't
// made.
fn try_order(
    alloc: Global,
    core: &Core,
    order: &OrderNumbers,
    keys: &[u8],
    n: u64,
    goal: &Goal,
) -> Option<u8>
    ensures { TriesAs order.now keys.now n goal.now result core.now.state }
{
    let Some(steps) = order_of(order) else {
        return Some(BAD);
    };
    match Policy::new(steps, order.transfer, gap_of(order), keys) {
        Ok(policy) => try_policy(alloc, core, &policy, n, goal),
        Err(error) => Some(order_number(error)),
    }
}

/// Tries the runs of an order with `count` seeds from its own on, each on a copy of a state, up to the
/// first that doesn't end right. Says how many end right before it, and what it is: 0 wrong, or the
/// number of why it isn't made.
pub(crate) fn search(
    alloc: Global,
    core: &Core,
    order: &OrderNumbers,
    keys: &[u8],
    n: u64,
    count: u64,
    goal: &Goal,
) -> (u64, u8)
    ensures { SearchesAs order.now keys.now n count goal.now result.0 result.1 core.now.state }
{
    for k in 0..count {
        let other = try_order(alloc, core, &order_at(order, k), keys, n, goal);
        if let Some(answer) = other {
            return (k, answer);
        }
    }
    (count, ALL_RIGHT)
}
