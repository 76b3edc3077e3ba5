//! What is wrong with an event, or with a state.

ghost use Rattle.std.specs.Prelude.{◌≡◌, ◌<◌, ◌==◌, ◌&&◌, ◌||◌, if◌then◌else◌, length, None};
ghost use Rattle.std.specs.List.{list_any};
ghost use Rattle.m161_cpu.specs.Fetch.{fetched_word};
ghost use Rattle.m161_machine.specs.Fetched.{fetches_none};
ghost use Rattle.m161_machine.specs.State.{processor_at};
ghost use Rattle.m161_machine.specs.Uses.{uses_in};
ghost use Rattle.m161_audit.specs.Stale.{entry_in, is_old};
ghost use Rattle.m161_judge.specs.Judge.{bytes_of};
ghost use Rattle.m161_judge.specs.Verdict.{is_stuck};
ghost use Rattle.m161_states.specs.Verdicts.{conflict_in, has_sent, is_stale_for, is_stuck_in, output_in, reached_at, some_watch, stale_use, stale_via, stuck_in, wrong_in};

use crate::kept::WatchFlags;
use crate::place::Place;
use m161_audit::Watch;
use m161_bus::Console;
use m161_cpu::{Uses, Via};
use m161_drive::is_asleep;
use m161_judge::Goal;
use m161_machine::{Core, Outcome, fetches_none};
use m161_states::EventVerdict;
use m161_tlb::{Row, Tlb};

// Whether a row of the TLB is an old mapping, by the page table's entry.
fn is_old(word: u32, row: &Row) -> bool
    ensures { result ≡ is_old (entry_in word) row.now }
{
    let entry = Row::from_words(0, word);
    !entry.v || entry.frame.number() != row.frame.number() || (!entry.d && row.d)
}

// Whether a use is stale for a watch.
fn is_stale_for<T: Tlb, D: Console>(
    core: &Core<T, D>,
    p: u32,
    via: &Via,
    watch: &Watch,
    kept: WatchFlags,
) -> bool
    requires { p < length core.now.state.processors }
    ensures { result ≡ is_stale_for core.now.state p via.now watch.now kept }
{
    if via.page.number() != watch.page {
        return false;
    }
    if u32::from(via.id.number()) != watch.id {
        return false;
    }
    if !kept.gone_on {
        return false;
    }
    match core.word(watch.pte) {
        Some(word) => is_old(word, &core.row(p, via.row.number())),
        None => false,
    }
}

// Whether a use is stale for one of the watches.
fn is_stale<T: Tlb, D: Console>(
    core: &Core<T, D>,
    p: u32,
    via: &Via,
    watches: &[Watch],
    kept: &[WatchFlags],
) -> bool
    requires place { p < length core.now.state.processors }
    requires kept { length kept.now ≡ length watches.now }
    ensures { result ≡ some_watch (is_stale_for core.now.state p via.now) watches.now kept.now }
{
    for i in 0..watches.len() {
        if is_stale_for(core, p, via, &watches[i], kept[i]) {
            return true;
        }
    }
    false
}

// A use, if there is one and it is stale.
fn stale_via<T: Tlb, D: Console>(
    goal: &Goal,
    place: &Place<T, D>,
    p: u32,
    via: Option<Via>,
) -> Option<EventVerdict>
    requires place { p < length place.now.state.processors }
    requires kept { length place.now.flags ≡ length goal.now.watches }
    ensures { result ≡ stale_via goal.now place.now p via }
{
    match via {
        Some(via) => {
            if is_stale(&place.core, p, &via, goal.watches, &place.kept) {
                Some(EventVerdict::Stale {
                    processor: p,
                    address: via.address,
                    row: via.row.number(),
                })
            } else {
                None
            }
        }
        None => None,
    }
}

/// The stale use of a Step: that of its fetch, else that of its access.
pub fn stale_use<T: Tlb, D: Console>(
    goal: &Goal,
    place: &Place<T, D>,
    p: u32,
    uses: &Uses,
) -> Option<EventVerdict>
    requires place { p < length place.now.state.processors }
    requires kept { length place.now.flags ≡ length goal.now.watches }
    requires uses { uses.now ≡ uses_in p place.now.state }
    ensures { result ≡ stale_use goal.now place.now p }
{
    match stale_via(goal, place, p, uses.fetch) {
        Some(verdict) => Some(verdict),
        None => stale_via(goal, place, p, uses.access),
    }
}

// Whether an address is one of these.
fn is_among(addresses: &[u32], address: u32) -> bool
    ensures { result ≡ list_any (λ a. a == address) addresses.now }
{
    for i in 0..addresses.len() {
        if addresses[i] == address {
            return true;
        }
    }
    false
}

/// What a Step reaches, if it fetches a word.
pub fn within_reach<T: Tlb, D: Console>(
    goal: &Goal,
    place: &Place<T, D>,
    p: u32,
) -> Option<EventVerdict>
    requires { p < length place.now.state.processors }
    ensures { result ≡ reached_at goal.now.never p (processor_at p place.now.state.processors).pc
        (fetched_word place.now.state.memory (processor_at p place.now.state.processors).pc
        (processor_at p place.now.state.processors)) }
{
    let address = place.core.pc(p);
    match place.core.fetched_word(p, address) {
        Some(_word) => {
            if is_among(goal.never, address) {
                Some(EventVerdict::Reached {
                    processor: p,
                    address,
                })
            } else {
                None
            }
        }
        None => None,
    }
}

/// What a Step with this outcome reached, by what it reaches if it fetches a word.
pub fn reached_by(reach: Option<EventVerdict>, outcome: Outcome) -> Option<EventVerdict>
    ensures { result ≡ (if fetches_none outcome then None else reach) }
{
    if fetches_none(outcome) { None } else { reach }
}

// What switched a strict machine off.
fn conflict_in<T: Tlb, D: Console>(core: &Core<T, D>) -> Option<EventVerdict>
    ensures { result ≡ conflict_in core.now.state }
{
    if !core.is_off() {
        return None;
    }
    match core.conflict() {
        Some(conflict) => Some(EventVerdict::Conflict(conflict)),
        None => None,
    }
}

// Whether the console has sent what is asked for.
fn has_sent(output: Option<&[u8]>, agreed: Option<u32>) -> bool
    ensures { result ≡ has_sent (bytes_of output.entry) agreed }
{
    match output {
        Some(bytes) => match agreed {
            Some(n) => n as usize == bytes.len(),
            None => false,
        },
        None => false,
    }
}

// Whether nothing is left to do in a machine's state, if keys are left or not.
fn is_stuck<T: Tlb, D: Console>(core: &Core<T, D>, keys_left: bool) -> bool
    ensures { result ≡ is_stuck keys_left core.now.state }
{
    !core.is_off()
        && core.latch().is_none()
        && (!keys_left || core.waiting() >= 256)
        && is_asleep(core)
}

/// Whether nothing is left to do in a state of the exploration.
pub fn is_stuck_at<T: Tlb, D: Console>(goal: &Goal, place: &Place<T, D>) -> bool
    ensures { result ≡ is_stuck_in goal.now place.now }
{
    is_stuck(&place.core, (place.typed as usize) < goal.keys.len())
}

/// Whether a state is an end.
pub fn is_end_of<T: Tlb, D: Console>(goal: &Goal, place: &Place<T, D>) -> bool
    ensures { result ≡ (place.now.state.board.off
        || (is_stuck_in goal.now place.now && has_sent goal.now.output place.now.agreed)) }
{
    place.core.is_off() || (is_stuck_at(goal, place) && has_sent(goal.output, place.agreed))
}

// Nothing is left to do, and the console hasn't sent what is asked for.
fn stuck_in<T: Tlb, D: Console>(goal: &Goal, place: &Place<T, D>) -> Option<EventVerdict>
    ensures { result ≡ stuck_in goal.now place.now }
{
    if is_stuck_at(goal, place) && !has_sent(goal.output, place.agreed) {
        Some(EventVerdict::Stuck)
    } else {
        None
    }
}

// The machine is off, and the console hasn't sent what is asked for.
fn output_in<T: Tlb, D: Console>(goal: &Goal, place: &Place<T, D>) -> Option<EventVerdict>
    ensures { result ≡ output_in goal.now place.now }
{
    if goal.output.is_some() && place.core.is_off() && !has_sent(goal.output, place.agreed) {
        Some(EventVerdict::Output)
    } else {
        None
    }
}

/// What is wrong with a state.
pub fn wrong_in<T: Tlb, D: Console>(goal: &Goal, place: &Place<T, D>) -> Option<EventVerdict>
    ensures { result ≡ wrong_in goal.now place.now }
{
    match conflict_in(&place.core) {
        Some(verdict) => Some(verdict),
        None => match stuck_in(goal, place) {
            Some(verdict) => Some(verdict),
            None => output_in(goal, place),
        },
    }
}
