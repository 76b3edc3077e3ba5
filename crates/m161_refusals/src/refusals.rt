//! Events that are refused.

ghost use Rattle.std.specs.Prelude.{◌≡◌, ◌⊎◌, ◌+◌, ◌<◌, ◌≤◌, ◌^◌, ℕ, List, [], ◌∷◌, ◌++◌, IfOk, Some, replicate};
ghost use Rattle.m161_machine.specs.declared.event.Refusal.{Refusal as RefusalValue};
ghost use Rattle.m161_refusals.specs.Refusals.{refusals_in, told_of};
ghost use Rattle.m161_refusals.specs.helpers.Passing.{IsWithin, Passes};

use m161_bus::Console;
use m161_machine::{Core, Event, Events, Refusal};
use m161_tlb::Tlb;
use std::alloc::AllocError;

/// The events of a list that are refused while the machine is on.
#[derive(Clone, Copy, Debug, PartialEq, Eq)]
pub struct Refusals {
    /// How many, at least one.
    pub count: usize,
    /// The place of the first one in the list, from 0.
    pub place: usize,
    /// Why the first one is refused.
    pub refusal: Refusal,
}

// With one more, behind the others.
fn with_one(found: Option<Refusals>, place: usize, refusal: Refusal) -> Refusals
    requires within { IsWithin place found }
    requires room { place + 1 < 2 ^ 64 }
    ensures more { (rs : List (ℕ × RefusalValue)) → found ≡ told_of rs
        → Some result ≡ told_of (rs ++ (place, refusal) ∷ []) }
    ensures within { result.count ≤ place + 1 }
{
    match found {
        None => Refusals {
            count: 1,
            place,
            refusal,
        },
        Some(told) => Refusals {
            count: told.count + 1,
            place: told.place,
            refusal: told.refusal,
        },
    }
}

// Makes the event at a place.
fn pass<T: Tlb, D: Console>(
    core: &mut Core<T, D>,
    event: Event,
    place: usize,
    found: Option<Refusals>,
) -> Result<Option<Refusals>, AllocError>
    requires within { IsWithin place found }
    requires room { place + 1 < 2 ^ 64 }
    ensures passes { IfOk result (λ now. Passes core.old.state (event ∷ []) place found core.new.state now) }
    ensures within { IfOk result (IsWithin (place + 1)) }
{
    match core.event(event) {
        Ok(_) => Ok(found),
        Err(refusal) => {
            if refusal == Refusal::NoMemory {
                return Err(AllocError);
            }
            if core.is_off() {
                return Ok(found);
            }
            Ok(Some(with_one(found, place, refusal)))
        }
    }
}

// Makes an event some times, from a place on.
fn pass_run<T: Tlb, D: Console>(
    core: &mut Core<T, D>,
    event: Event,
    times: usize,
    place: usize,
    mut found: Option<Refusals>,
) -> Result<Option<Refusals>, AllocError>
    requires within { IsWithin place found }
    requires room { place + times < 2 ^ 64 }
    ensures passes { IfOk result (λ now.
        Passes core.old.state (replicate times event) place found core.new.state now) }
    ensures within { IfOk result (IsWithin (place + times)) }
{
    for made in 0..times {
        found = pass(core, event, place + made, found)?;
    }
    Ok(found)
}

// The lesser of two numbers.
fn least(a: usize, b: usize) -> usize
    ensures at_most { (result ≤ a) × (result ≤ b) }
    ensures one { (result ≡ a) ⊎ (result ≡ b) }
{
    if a < b { a } else { b }
}

/// Makes the first `n` events of a list on a machine, or all where there are fewer, and passes over
/// those that it refuses. Returns how many of them it refuses while it is on, and the first one.
///
/// # Errors
/// Memory was refused, at an event `Done`.
pub fn find_refusals<T: Tlb, D: Console>(
    core: &mut Core<T, D>,
    events: &Events,
    n: usize,
) -> Result<Option<Refusals>, AllocError>
    ensures { IfOk result (λ found. found ≡ refusals_in core.old.state events.now n) }
{
    let mut found = None;
    let mut done = 0;
    let mut left = events.runs();
    while let Some((event, times)) = left.next() {
        let times = least(times as usize, n - done);
        found = pass_run(core, event, times, done, found)?;
        done += times;
    }
    Ok(found)
}
