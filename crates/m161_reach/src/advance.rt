//! An event, and what it comes to.

ghost use Rattle.std.specs.Prelude.{◌≡◌, ◌<◌, ◌≤◌, ◌^◌, if◌then◌else◌, Err, IfOk, IfSome, is_some, length, option_map, option_to_list, slice_get, None, Some, true};
ghost use Rattle.std.specs.Option.{option_or};
ghost use Rattle.m161_machine.specs.declared.event.Event.TheVariants as events;
ghost use Rattle.m161_machine.specs.declared.event.Refusal.{Refusal};
ghost use Rattle.m161_machine.specs.State.{next as result_of};
ghost use Rattle.m161_alike.specs.declared.known.Known.{Known};
ghost use Rattle.m161_explore.specs.declared.system.Advanced.TheVariants.{Refused};
ghost use Rattle.m161_states.specs.System.{agreed_after, agreed_with, flags_behind, fresh};
ghost use Rattle.m161_states.specs.Verdicts.{reads_next, stop_by, unknown_by, wrong_in};
ghost use Rattle.m161_alike.specs.View.{known_of};
ghost use Rattle.m161_judge.specs.Judge.{bytes_of};
ghost use Rattle.m161_reach.specs.helpers.Advance.{AdvancesBy, Takes, TakesNext, advanced_by, asked};

use crate::judge::{reached_by, stale_use, within_reach, wrong_in};
use crate::kept::{WatchFlags, keep_store};
use crate::place::Place;
use m161_alike::next_reads;
use m161_audit::Watch;
use m161_bus::Console;
use m161_explore::Advanced;
use m161_judge::Goal;
use m161_machine::{Core, Outcome, Refusal, worn};
use m161_states::{EventVerdict, Known, Reads, Unknown, fresh_is_same};
use m161_tlb::Tlb;
use std::alloc::AllocError;

// What a Step of a processor reads, if the machine is on.
fn reads_next<T: Tlb, D: Console>(core: &Core<T, D>, p: u32) -> Reads
    requires { p < length core.now.state.processors }
    ensures { result ≡ reads_next p core.now.state }
{
    if core.is_off() {
        Reads {
            random: false,
            count: false,
        }
    } else {
        next_reads(core, p)
    }
}

/// What a Step of a processor reads that isn't known.
pub fn unknown<T: Tlb, D: Console>(core: &Core<T, D>, known: &Known, p: u32) -> Option<Unknown>
    requires { p < length core.now.state.processors }
    ensures { result ≡ unknown_by (known_of known.now p) p (reads_next p core.now.state) }
{
    core.law();
    let reads = reads_next(core, p);
    let of = known.of(p);
    if (reads.random && !of.random) || (reads.count && !of.count) {
        Some(Unknown {
            processor: p,
            reads,
        })
    } else {
        None
    }
}

// The first of two verdicts.
fn first(verdict: Option<EventVerdict>, other: Option<EventVerdict>) -> Option<EventVerdict>
    ensures { result ≡ option_or verdict other }
{
    match verdict {
        Some(what) => Some(what),
        None => other,
    }
}

// What comes of an accepted event with this verdict.
fn advanced(verdict: Option<EventVerdict>) -> Advanced<EventVerdict, Unknown>
    ensures { result ≡ advanced_by verdict }
{
    match verdict {
        Some(what) => Advanced::Judged(what),
        None => Advanced::Passed,
    }
}

// Keeps of the watches that a word was stored to, if one was.
fn keep_stored(stored: Option<u32>, watches: &[Watch], kept: &mut [WatchFlags])
    requires { length kept.old ≡ length watches.now }
    ensures { kept.new ≡ flags_behind stored watches.now kept.old }
{
    if let Some(word) = stored {
        keep_store(word, watches, kept);
    }
}

// How far the output agrees after one more byte.
fn agreed_with(asked: &[u8], byte: u8, agreed: Option<u32>) -> Option<u32>
    requires { length asked.now < 2 ^ 32 }
    ensures { result ≡ agreed_with asked.now byte agreed }
{
    match agreed {
        Some(n) => {
            let at = n as usize;
            if at < asked.len() && asked[at] == byte {
                Some(n + 1)
            } else {
                None
            }
        }
        None => None,
    }
}

// How far the output agrees after the byte that is sent, if one is.
fn agreed_after(output: Option<&[u8]>, sent: Option<u8>, agreed: Option<u32>) -> Option<u32>
    requires { IfSome (bytes_of output) (λ asked. length asked < 2 ^ 32) }
    ensures { result ≡ agreed_after (bytes_of output.entry) (option_to_list sent) agreed }
{
    match output {
        Some(asked) => match sent {
            Some(byte) => agreed_with(asked, byte, agreed),
            None => agreed,
        },
        None => agreed,
    }
}

/// Makes a Step of a processor, and keeps what it stored. A machine that has accepted all events that
/// it counts makes none: no exploration gets there.
pub fn take_step<T: Tlb, D: Console>(
    goal: &Goal,
    place: &mut Place<T, D>,
    p: u32,
) -> Result<Option<Outcome>, AllocError>
    requires place { p < length place.old.state.processors }
    requires kept { length place.old.flags ≡ length goal.now.watches }
    ensures { IfOk result (Takes goal.now place.old (events.Step p) place.new) }
{
    fresh_is_same();
    if worn(place.core.made()) {
        return Err(AllocError);
    }
    let stored = place.core.uses(p).stored;
    match place.core.step(p) {
        Ok(outcome) => {
            keep_stored(stored, goal.watches, &mut place.kept);
            Ok(Some(outcome))
        }
        Err(_) => Ok(None),
    }
}

/// Whether the console has nothing to send, so that Done is refused.
#[tactic(auto, using(crate::proofs::Refusing::done_refused))]
pub fn refuses_done<T: Tlb, D: Console>(place: &Place<T, D>) -> bool
    ensures { result ≡ true → (refusal : Refusal) × (result_of (fresh place.now.state) events.Done ≡ Err refusal) }
{
    place.core.latch().is_none()
}

/// The console has sent a byte.
pub fn take_done<T: Tlb, D: Console>(
    goal: &Goal,
    place: &mut Place<T, D>,
) -> Result<Option<Outcome>, AllocError>
    requires { IfSome goal.now.output (λ asked. length asked < 2 ^ 32) }
    ensures { IfOk result (Takes goal.now place.old events.Done place.new) }
{
    fresh_is_same();
    if worn(place.core.made()) {
        return Err(AllocError);
    }
    let sent = place.core.latch();
    match place.core.done() {
        Ok(outcome) => {
            place.agreed = agreed_after(goal.output, sent, place.agreed);
            Ok(Some(outcome))
        }
        Err(refusal) => {
            if refusal == Refusal::NoMemory {
                Err(AllocError)
            } else {
                Ok(None)
            }
        }
    }
}

/// Whether no key is left.
pub fn has_no_key<T: Tlb, D: Console>(goal: &Goal, place: &Place<T, D>) -> bool
    ensures { result ≡ true → length goal.now.keys ≤ place.now.typed }
{
    place.typed as usize >= goal.keys.len()
}

/// Types the next key, if one is left.
pub fn take_key<T: Tlb, D: Console>(
    goal: &Goal,
    place: &mut Place<T, D>,
) -> Result<Option<Outcome>, AllocError>
    requires { length goal.now.keys < 2 ^ 32 }
    ensures { IfOk result (TakesNext goal.now place.old
        (option_map (λ byte. events.Key byte) (slice_get goal.now.keys place.old.typed)) place.new) }
{
    fresh_is_same();
    if worn(place.core.made()) {
        return Err(AllocError);
    }
    let at = place.typed as usize;
    if at >= goal.keys.len() {
        return Ok(None);
    }
    match place.core.key(goal.keys[at]) {
        Ok(outcome) => {
            place.typed += 1;
            Ok(Some(outcome))
        }
        Err(_) => Ok(None),
    }
}

// Makes a Step of a processor, of which nothing is unknown.
fn advance_known<T: Tlb, D: Console>(
    goal: &Goal,
    place: &mut Place<T, D>,
    p: u32,
) -> Result<Advanced<EventVerdict, Unknown>, AllocError>
    requires place { p < length place.old.state.processors }
    requires kept { length place.old.flags ≡ length goal.now.watches }
    ensures { IfOk result (λ came. (known : Known)
        → stop_by (asked goal.now known) place.old (Some (events.Step p)) ≡ None
        → AdvancesBy (asked goal.now known) place.old (Some (events.Step p)) place.new came) }
{
    let uses = place.core.uses(p);
    let stale = stale_use(goal, place, p, &uses);
    let reach = within_reach(goal, place, p);
    match take_step(goal, place, p)? {
        Some(outcome) => {
            let with = first(stale, reached_by(reach, outcome));
            Ok(advanced(first(with, wrong_in(goal, place))))
        }
        None => Ok(Advanced::Refused),
    }
}

/// Makes a Step of a processor, if it reads nothing that isn't known.
pub fn advance_step<T: Tlb, D: Console>(
    goal: &Goal,
    known: &Known,
    place: &mut Place<T, D>,
    p: u32,
) -> Result<Advanced<EventVerdict, Unknown>, AllocError>
    requires place { p < length place.old.state.processors }
    requires kept { length place.old.flags ≡ length goal.now.watches }
    ensures { IfOk result (AdvancesBy (asked goal.now known.now) place.old (Some (events.Step p)) place.new) }
{
    match unknown(&place.core, known, p) {
        Some(reason) => Ok(Advanced::Stopped(reason)),
        None => advance_known(goal, place, p),
    }
}

// What comes of an input that was made, or wasn't accepted.
fn advanced_input<T: Tlb, D: Console>(
    goal: &Goal,
    place: &Place<T, D>,
    made: Option<Outcome>,
) -> Advanced<EventVerdict, Unknown>
    ensures { result ≡ (if is_some made then advanced_by (wrong_in goal.now place.now) else Refused) }
{
    match made {
        Some(_outcome) => advanced(wrong_in(goal, place)),
        None => Advanced::Refused,
    }
}

/// The console has sent a byte.
pub fn advance_done<T: Tlb, D: Console>(
    goal: &Goal,
    place: &mut Place<T, D>,
) -> Result<Advanced<EventVerdict, Unknown>, AllocError>
    requires { IfSome goal.now.output (λ bytes. length bytes < 2 ^ 32) }
    ensures { IfOk result (λ came. (known : Known) → AdvancesBy (asked goal.now known) place.old (Some events.Done) place.new came) }
{
    let made = take_done(goal, place)?;
    Ok(advanced_input(goal, place, made))
}

/// Types the next key.
pub fn advance_key<T: Tlb, D: Console>(
    goal: &Goal,
    place: &mut Place<T, D>,
) -> Result<Advanced<EventVerdict, Unknown>, AllocError>
    requires { length goal.now.keys < 2 ^ 32 }
    ensures { IfOk result (λ came. (known : Known) → AdvancesBy (asked goal.now known) place.old
        (option_map (λ byte. events.Key byte) (slice_get goal.now.keys place.old.typed)) place.new came) }
{
    let made = take_key(goal, place)?;
    Ok(advanced_input(goal, place, made))
}
