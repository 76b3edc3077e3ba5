//! Lists of events that hang.

ghost use Rattle.std.specs.Prelude.{◌≡◌, ◌<◌, true, IfOk, MatchBool, MatchOption, option_map};
ghost use Rattle.m161_reach.specs.From.{IsFreeFrom, IsHungFrom, asked_of, no_time, with_known};
ghost use Rattle.m161_reach.specs.Hangs.{GoesAlong, HangFirst, HangsNowhere, IsFirstHang, IsHungAt, IsLeastHang, NeverHang};
ghost use Rattle.m161_reach.specs.Named.{numbers_of};
ghost use Rattle.m161_reach.specs.Reach.{CanBeAsked};
ghost use Rattle.m161_reach.specs.helpers.Onward.{origin_of, says_hung};
ghost use Rattle.m161_reach.specs.helpers.Walk.{HangsAlong};

use crate::judge::is_end_of;
use crate::machines::Machines;
use crate::numbers::numbers_named;
use crate::onward::{Onward, copy_place};
use crate::path::is_free_along;
use crate::place::Place;
use crate::walk::{Walk, walk_along};
use m161_bus::Console;
use m161_explore::{Answer, explore};
use m161_judge::Goal;
use m161_machine::{Core, Event};
use m161_states::{Known, Unknown};
use m161_tlb::Tlb;
use std::alloc::{AllocError, Global};

/// So many events, and more, are no list of a machine, which counts one less.
const MOST_EVENTS: u64 = 9_223_372_036_854_775_807;

// A machine at boot, of whose time nothing is known.
fn untimed<'a, T: Tlb + Drop, D: Console + Drop>(
    alloc: Global,
    boot: &'a Core<T, D>,
    goal: &'a Goal<'a>,
) -> Machines<'a, T, D>
    requires { CanBeAsked boot.now.state goal.now }
    ensures { result ≡ asked_of boot.now.state goal.now }
{
    Machines::new(
        alloc,
        boot,
        goal,
        Known {
            random: 0,
            count: 0,
        },
    )
}

// Whether an exploration for ends says that a state hangs.
fn says_hung(answer: &Answer<(), Unknown>, limit: u32) -> bool
    ensures { result ≡ says_hung limit answer.now }
{
    match answer {
        Answer::Clean { states } => *states <= limit,
        Answer::Hung { states, .. } => *states <= limit,
        Answer::Found { .. } => false,
        Answer::Open { .. } => false,
        Answer::Ended(_) => false,
    }
}

// Whether one path from the state to which these events lead shows that it doesn't hang.
fn is_free_soon<'a, T: Tlb + Drop, D: Console + Drop>(
    alloc: Global,
    boot: &'a Core<T, D>,
    goal: &'a Goal<'a>,
    events: &[u32],
    place: &Place<T, D>,
    limit: u32,
) -> Result<bool, AllocError>
    requires asked { CanBeAsked boot.now.state goal.now }
    requires from { place.now ≡ origin_of (asked_of boot.now.state goal.now) events.now }
    ensures { IfOk result (λ free. free ≡ true → IsFreeFrom (asked_of boot.now.state goal.now) limit place.now) }
{
    let machines = untimed(alloc, boot, goal);
    let mut copy = copy_place(alloc, place)?;
    is_free_along(alloc, &machines, &mut copy, limit)
}

// Whether the state hangs to which these events lead: by a path from it, else by explorations.
fn hangs_from<'a, T: Tlb + Drop, D: Console + Drop>(
    alloc: Global,
    boot: &'a Core<T, D>,
    goal: &'a Goal<'a>,
    events: &[u32],
    place: &Place<T, D>,
    limit: u32,
) -> Result<bool, AllocError>
    requires asked { CanBeAsked boot.now.state goal.now }
    requires some { 0 < limit }
    requires from { place.now ≡ origin_of (asked_of boot.now.state goal.now) events.now }
    ensures { IfOk result (λ hangs. MatchBool hangs
        (IsHungFrom (asked_of boot.now.state goal.now) limit place.now)
        (IsFreeFrom (asked_of boot.now.state goal.now) limit place.now)) }
{
    if is_end_of(goal, place) {
        return Ok(false);
    }
    let free = is_free_soon(alloc, boot, goal, events, place, limit)?;
    if free {
        return Ok(false);
    }
    boot.law();
    let mut known = Known::nothing();
    loop {
        let machines = Machines::new(alloc, boot, goal, known);
        let onward = Onward::new(machines, events, place);
        match explore(alloc, &onward, limit)? {
            Answer::Ended(unknown) => known.insert(unknown.processor, unknown.reads),
            answer => return Ok(says_hung(&answer, limit)),
        }
    }
}

// Whether a list hangs; none where an event isn't accepted, or the machine is over before.
fn hangs_along<'a, T: Tlb + Drop, D: Console + Drop>(
    alloc: Global,
    boot: &'a Core<T, D>,
    goal: &'a Goal<'a>,
    events: &[u32],
    limit: u32,
) -> Result<Option<bool>, AllocError>
    requires asked { CanBeAsked boot.now.state goal.now }
    requires some { 0 < limit }
    ensures { IfOk result (HangsAlong (asked_of boot.now.state goal.now) limit events.now) }
{
    let machines = untimed(alloc, boot, goal);
    let mut place = machines.first(alloc)?;
    match walk_along(&machines, &mut place, events)? {
        Walk::Refused => Ok(None),
        Walk::Over => Ok(None),
        Walk::Went => Ok(Some(hangs_from(alloc, boot, goal, events, &place, limit)?)),
    }
}

// How many of the first events of a list that hangs hang already.
fn least_hang<'a, T: Tlb + Drop, D: Console + Drop>(
    alloc: Global,
    boot: &'a Core<T, D>,
    goal: &'a Goal<'a>,
    events: &[u32],
    limit: u32,
) -> Result<usize, AllocError>
    requires asked { CanBeAsked boot.now.state goal.now }
    requires some { 0 < limit }
    requires goes { GoesAlong (asked_of boot.now.state goal.now) events.now }
    requires hangs { IsHungAt (asked_of boot.now.state goal.now) limit events.now }
    ensures { IfOk result (IsLeastHang (asked_of boot.now.state goal.now) limit events.now) }
{
    let mut low = 0;
    let mut high = events.len();
    while low < high {
        let middle = low + (high - low) / 2;
        let Some(hangs) = hangs_along(alloc, boot, goal, &events[..middle], limit)? else {
            unreachable!()
        };
        if hangs {
            high = middle;
        } else {
            low = middle + 1;
        }
    }
    Ok(high)
}

/// How many of the first events of a list from boot are the least that hang, if the machine is over
/// behind none of its events and the list hangs: by an exploration of the states behind it, up to an end
/// or to one view more than the limit.
///
/// # Errors
/// Memory is refused.
pub fn first_hang<'a, T: Tlb + Drop, D: Console + Drop>(
    alloc: Global,
    boot: &'a Core<T, D>,
    goal: &'a Goal<'a>,
    events: &[u32],
    limit: u32,
) -> Result<Option<usize>, AllocError>
    requires asked { CanBeAsked boot.now.state goal.now }
    requires some { 0 < limit }
    ensures { IfOk result (λ found. MatchOption found
        (HangsNowhere (asked_of boot.now.state goal.now) limit events.now)
        (IsFirstHang (asked_of boot.now.state goal.now) limit events.now)) }
{
    let Some(hangs) = hangs_along(alloc, boot, goal, events, limit)? else {
        return Ok(None);
    };
    if !hangs {
        return Ok(None);
    }
    Ok(Some(least_hang(alloc, boot, goal, events, limit)?))
}

impl<'a, T: Tlb + Drop, D: Console + Drop> Machines<'a, T, D> {
    // The numbers of events, if they are those of a list.
    fn numbers_of(&self, alloc: Global, events: &[Event]) -> Result<Option<Vec<u32>>, AllocError>
        ensures { IfOk result (λ found. option_map (λ numbers. numbers.items) found
            ≡ numbers_of self.now events.now) }
    {
        if events.len() as u64 >= MOST_EVENTS {
            return Ok(None);
        }
        let goal = self.goal;
        numbers_named(alloc, self.width() - 2, goal.keys, events)
    }

    /// How many of these events from boot on are the least that hang, as `first_hang` finds it; none,
    /// too, where they are those of no list: a Step of none of the processors, or a key that isn't the
    /// next. What is known of time makes no difference.
    ///
    /// # Errors
    /// Memory is refused.
    pub fn first_to_hang(
        &self,
        alloc: Global,
        events: &[Event],
        limit: u32,
    ) -> Result<Option<usize>, AllocError>
        requires some { 0 < limit }
        ensures { IfOk result (λ found. MatchOption found
            (NeverHang (with_known no_time self.now) limit events.now)
            (HangFirst (with_known no_time self.now) limit events.now)) }
    {
        let Some(numbers) = self.numbers_of(alloc, events)? else {
            return Ok(None);
        };
        first_hang(alloc, self.boot, self.goal, &numbers, limit)
    }
}
