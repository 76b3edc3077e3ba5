//! The first Step that reaches an address that is never to be reached.

ghost use Rattle.std.specs.Prelude.{◌≡◌, ℕ, ◌<◌, IfOk, IfSome, MatchOption, length};
ghost use Rattle.m161_machine.specs.State.{State};
ghost use Rattle.m161_judge.specs.Memory.{Reaching};
ghost use Rattle.m161_judge.specs.helpers.Reach.{FindsReach, IsReachBy, IsSoughtBelow, Seeks, WouldReach, reach_in};

use crate::walk::make_event;
use m161_audit::AuditError;
use m161_bus::Console;
use m161_machine::{Core, Event, Outcome, fetches_none};
use m161_tlb::Tlb;
use std::alloc::Global;

/// A Step that fetched a word at an address that is never to be reached.
#[derive(Clone, Copy)]
pub(crate) struct Reach {
    /// The event's place in the list, from 0.
    pub place: usize,
    /// The processor.
    pub processor: u32,
    /// The virtual address.
    pub address: u32,
}

// The processor of a Step and the address at which it would fetch a word, if that is one of these.
fn would_reach<T: Tlb, D: Console>(
    core: &Core<T, D>,
    event: Event,
    never: &[u32],
) -> Option<(u32, u32)>
    ensures { MatchOption result
        ((p address : ℕ) → WouldReach never.now core.now.state event p address → ⊥)
        (λ would. WouldReach never.now core.now.state event would.0 would.1) }
{
    let Event::Step(p) = event else {
        return None;
    };
    if p >= core.processors() {
        return None;
    }
    let address = core.pc(p);
    if !never.contains(&address) || core.fetched_word(p, address).is_none() {
        return None;
    }
    Some((p, address))
}

// What the Step at a place reached, by what it would reach if it fetched, and its outcome.
fn reach_by(place: usize, would: Option<(u32, u32)>, outcome: Outcome) -> Option<Reach>
    ensures { IsReachBy place would outcome result }
{
    let (processor, address) = would?;
    if fetches_none(outcome) {
        return None;
    }
    Some(Reach {
        place,
        processor,
        address,
    })
}

/// How far the search for a reach came along a run.
#[derive(Clone, Copy)]
pub(crate) enum Sought {
    /// All events were made, and none is a reach.
    Open,
    /// Later events make no difference: this is the first reach, or an event was refused before any.
    Over(Option<Reach>),
}

impl Sought {
    /// The first reach of the events so far.
    pub(crate) fn first(self) -> Option<Reach>
        ensures { result ≡ reach_in self }
    {
        match self {
            Sought::Open => None,
            Sought::Over(reach) => reach,
        }
    }
}

/// Makes the events from a place on, those before it being made, up to the first that reaches one of
/// these addresses.
pub(crate) fn reach_from<T: Tlb, D: Console>(
    core: &mut Core<T, D>,
    events: &[Event],
    never: &[u32],
    from: usize,
) -> Result<Sought, AuditError>
    ensures found { (s : State) → Reaching never.now s events.now from core.old.state
        → Seeks never.now s events.now result core.new.state }
    ensures within { IfOk result (IsSoughtBelow (length events.now)) }
{
    for place in from..events.len() {
        let would = would_reach(core, events[place], never);
        let Some(outcome) = make_event(core, events[place])? else {
            return Ok(Sought::Over(None));
        };
        if let Some(reach) = reach_by(place, would, outcome) {
            return Ok(Sought::Over(Some(reach)));
        }
    }
    Ok(Sought::Open)
}

/// The first Step of a run from a state that reaches one of these addresses. Without addresses there
/// is none, and nothing is made.
pub(crate) fn find_reach<T: Tlb + Drop, D: Console + Drop>(
    alloc: Global,
    core: &Core<T, D>,
    events: &[Event],
    never: &[u32],
) -> Result<Option<Reach>, AuditError>
    ensures found { FindsReach never.now core.now.state events.now result }
    ensures within { IfOk result (λ reach. IfSome reach (λ r. r.place < length events.now)) }
{
    if never.is_empty() {
        return Ok(None);
    }
    reach_copy(alloc, core, events, never)
}

// The same, of a state that stays as it is.
// For LLVM: where there are no addresses, no room for a machine is cleared.
#[inline(never)]
fn reach_copy<T: Tlb + Drop, D: Console + Drop>(
    alloc: Global,
    core: &Core<T, D>,
    events: &[Event],
    never: &[u32],
) -> Result<Option<Reach>, AuditError>
    ensures found { FindsReach never.now core.now.state events.now result }
    ensures within { IfOk result (λ reach. IfSome reach (λ r. r.place < length events.now)) }
{
    let mut copy = core.copy(alloc)?;
    let sought = reach_from(&mut copy, events, never, 0)?;
    Ok(sought.first())
}
