//! The schedule of a run that goes wrong.

ghost use Rattle.std.specs.Prelude.{◌≡◌, ◌⊎◌, ◌==◌, Bool, IfOk, Some, drop, false, take, true};
ghost use Rattle.m161_shorten.specs.Passes.{Shortens};
ghost use Rattle.m161_shorten.specs.Verdicts.{AreNeeded};
ghost use Rattle.s161_search.specs.helpers.Begun.{BeginsAt, HasKindFrom};
ghost use Rattle.s161_search.specs.helpers.Inputs.{given_of};
ghost use Rattle.m161_reach.specs.declared.told.SearchVerdict.TheVariants as verdicts;
ghost use Rattle.s161_search.specs.Searches.{IsJudgedAt, is_whole};
ghost use Rattle.m161_reach.specs.Told.{told_of};
ghost use Rattle.s161_search.specs.Told.{IsRunToldAt, IsToldAt};
ghost use Rattle.s161_search.specs.helpers.Telling.{Begins, HasHangFrom};
ghost use Rattle.s161_search.specs.helpers.Tried.{ArePrintedWith};

use crate::again::{HUNG, HangJudge, KindJudge, judge_again, rank};
use crate::inputs::Inputs;
use crate::points::copy_events;
use m161::{Console, Tlb};
use m161_judge::{Booted, Judged, Verdict, cut_keeps_verdict, first_is_no_worse, one_verdict};
use m161_machine::Event;
use m161_reach::{Machines, SearchVerdict, Told, cut_keeps_hang};
use m161_shorten::shorten;
use s161_command::SearchTask;
use std::alloc::{AllocError, Global};

/// What is printed of a run that goes wrong.
#[derive(Drop)]
pub(crate) struct Printed {
    /// The verdict of the events.
    pub verdict: SearchVerdict,
    /// The events.
    pub events: Vec<Event>,
}

// Whether all events of a run are printed.
fn is_whole(whole: bool, verdict: SearchVerdict) -> bool
    ensures { result ≡ is_whole whole verdict }
{
    match verdict {
        SearchVerdict::Run(verdict) => match verdict {
            Verdict::Stale { .. }
            | Verdict::Reached { .. }
            | Verdict::Conflict(_)
            | Verdict::Stuck
            | Verdict::Output => whole,
            Verdict::End => true,
        },
        SearchVerdict::Hung => whole,
    }
}

// Cuts events behind the first n, and gives those that were cut off.
fn cut_off(alloc: Global, events: &mut Vec<Event>, n: usize) -> Result<Vec<Event>, AllocError>
    ensures { IfOk result (λ behind. (events.new.items ≡ take n events.old.items) × (behind.items ≡ drop n events.old.items)) }
{
    let from = n.min(events.len());
    let behind = copy_events(alloc, &events[from..])?;
    events.truncate(n);
    Ok(behind)
}

// What the passes leave behind first events, by verdicts of a kind of runs.
fn shorten_by_kind(
    alloc: Global,
    booted: &Booted<Tlb, Console>,
    inputs: &Inputs,
    first: &[Event],
    kind: u8,
    behind: Vec<Event>,
) -> Result<Vec<Event>, AllocError>
    ensures passes { IfOk result (λ left. Shortens (λ k. kind == k) (HasKindFrom booted.now (given_of inputs.now) first.now) behind.items left.items) }
    ensures judged { IfOk result (λ left. (left.items ≡ behind.items)
        ⊎ AreNeeded (λ k. kind == k) (HasKindFrom booted.now (given_of inputs.now) first.now) left.items) }
{
    let mut judge = KindJudge {
        alloc,
        booted,
        inputs,
        first,
    };
    shorten(&mut judge, kind, behind)
}

// What the passes leave of a run that goes wrong by a verdict of its events, but `end`.
fn shorten_judged(
    alloc: Global,
    booted: &Booted<Tlb, Console>,
    task: SearchTask<'_>,
    inputs: &Inputs,
    judged: Judged,
    mut events: Vec<Event>,
) -> Result<Printed, AllocError>
    requires booted { BeginsAt (given_of inputs.now) booted.now }
    requires judged { IsJudgedAt (given_of inputs.now) events.items (Some judged) }
    requires part { is_whole task.whole (verdicts.Run judged.verdict) ≡ false }
    ensures { (cut : Bool) → IfOk result (ArePrintedWith cut task.entry (given_of inputs.now) events.items (told_of judged)) }
{
    // So that the proof knows that what is left has a verdict, and one alone.
    cut_keeps_verdict();
    one_verdict();
    events.truncate(judged.events);
    let behind = cut_off(alloc, &mut events, inputs.first.events.len())?;
    let kind = rank(judged.verdict);
    let left = shorten_by_kind(alloc, booted, inputs, &events, kind, behind)?;
    events.extend_from_slice(&left)?;
    let Some(last) = judge_again(alloc, booted, inputs, &events)? else {
        unreachable!()
    };
    Ok(Printed {
        verdict: SearchVerdict::Run(last.verdict),
        events,
    })
}

// What the passes leave behind first events, by whether they hang.
fn shorten_by_hang(
    alloc: Global,
    booted: &Booted<Tlb, Console>,
    inputs: &Inputs,
    first: &[Event],
    ends: &Machines<'_, Tlb, Console>,
    few: u32,
    behind: Vec<Event>,
) -> Result<Vec<Event>, AllocError>
    ensures passes { IfOk result (λ left. Shortens (λ k. 6 == k) (HasHangFrom booted.now ends.now few (given_of inputs.now) first.now) behind.items left.items) }
    ensures judged { IfOk result (λ left. (left.items ≡ behind.items)
        ⊎ AreNeeded (λ k. 6 == k) (HasHangFrom booted.now ends.now few (given_of inputs.now) first.now) left.items) }
{
    let mut judge = HangJudge {
        alloc,
        booted,
        inputs,
        first,
        ends,
        few,
    };
    shorten(&mut judge, HUNG, behind)
}

// What the passes leave of a run that hangs, by so many of its events.
fn shorten_hung(
    alloc: Global,
    booted: &Booted<Tlb, Console>,
    task: SearchTask<'_>,
    inputs: &Inputs,
    ends: &Machines<'_, Tlb, Console>,
    needs: usize,
    mut events: Vec<Event>,
) -> Result<Printed, AllocError>
    requires begins { Begins (given_of inputs.now) booted.now ends.now }
    requires told { IsToldAt task (given_of inputs.now) events.items (Some (record { verdict = verdicts.Hung; events = needs })) }
    requires part { task.whole ≡ false }
    ensures { IfOk result (ArePrintedWith true task.entry (given_of inputs.now) events.items (record { verdict = verdicts.Hung; events = needs })) }
{
    // So that the proof knows that what is left hangs, too.
    first_is_no_worse();
    cut_keeps_hang();
    events.truncate(needs);
    let behind = cut_off(alloc, &mut events, inputs.first.events.len())?;
    let left = shorten_by_hang(alloc, booted, inputs, &events, ends, task.hung, behind)?;
    events.extend_from_slice(&left)?;
    Ok(Printed {
        verdict: SearchVerdict::Hung,
        events,
    })
}

/// The events of a run that are printed, and their verdict. The run, that is cut or isn't, goes wrong by
/// this verdict.
///
/// # Errors
/// Memory was refused.
pub(crate) fn print_of(
    alloc: Global,
    booted: &Booted<Tlb, Console>,
    task: SearchTask<'_>,
    inputs: &Inputs,
    ends: &Machines<'_, Tlb, Console>,
    cut: bool,
    told: Told,
    events: Vec<Event>,
) -> Result<Printed, AllocError>
    requires begins { Begins (given_of inputs.now) booted.now ends.now }
    requires told { IsRunToldAt cut task (given_of inputs.now) events.items (Some told) }
    ensures { IfOk result (ArePrintedWith cut task.entry (given_of inputs.now) events.items told) }
{
    if is_whole(task.whole, told.verdict) {
        return Ok(Printed {
            verdict: told.verdict,
            events,
        });
    }
    match told.verdict {
        SearchVerdict::Run(verdict) => {
            let judged = Judged {
                verdict,
                events: told.events,
            };
            shorten_judged(alloc, booted, task, inputs, judged, events)
        }
        SearchVerdict::Hung => {
            shorten_hung(alloc, booted, task, inputs, ends, told.events, events)
        }
    }
}
