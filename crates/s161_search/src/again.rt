//! Judging a list of events again, whose run was judged before: only memory can be refused.

ghost use Rattle.std.specs.Prelude.{◌≡◌, ◌++◌, IfOk};
ghost use Rattle.m161_judge.specs.Verdict.{rank};
ghost use Rattle.s161_search.specs.Searches.{hang_behind, judgement_behind, kind_behind};
ghost use Rattle.s161_search.specs.helpers.Begun.{IsJudgedFrom};
ghost use Rattle.s161_search.specs.helpers.Inputs.{given_of};

use crate::inputs::Inputs;
use crate::points::copy_events;
use m161::{Console, Tlb};
use m161_judge::{Booted, Judged, Verdict, judge_events};
use m161_machine::Event;
use m161_reach::{Machines, SearchVerdict, Told, tell};
use m161_shorten::{Judge, Judgement};
use std::alloc::{AllocError, Global};

/// The verdict of a list of events, made from the state at boot.
///
/// # Errors
/// Memory was refused.
pub(crate) fn judge_again(
    alloc: Global,
    booted: &Booted<Tlb, Console>,
    inputs: &Inputs,
    events: &[Event],
) -> Result<Option<Judged>, AllocError>
    ensures { IfOk result (IsJudgedFrom booted.now (given_of inputs.now) events.now) }
{
    match judge_events(alloc, booted, events, &inputs.goal()) {
        Ok(judged) => Ok(judged),
        Err(_) => Err(AllocError),
    }
}

/// The number of a verdict's kind.
pub(crate) fn rank(verdict: Verdict) -> u8
    ensures { result ≡ rank verdict }
{
    match verdict {
        Verdict::Stale { .. } => 0,
        Verdict::Reached { .. } => 1,
        Verdict::Conflict(_) => 2,
        Verdict::Stuck => 3,
        Verdict::Output => 4,
        Verdict::End => 5,
    }
}

/// The number of `hung` among the kinds.
pub(crate) const HUNG: u8 = 6;

// First events, and others behind them.
fn joined(alloc: Global, first: &[Event], events: &[Event]) -> Result<Vec<Event>, AllocError>
    ensures { IfOk result (λ all. all.items ≡ first.now ++ events.now) }
{
    let mut all = copy_events(alloc, first)?;
    all.extend_from_slice(events)?;
    Ok(all)
}

// A verdict of this kind behind so many events, which needs this many of all, if it needs those.
fn judgement_behind(first: usize, kind: u8, needs: usize) -> Option<Judgement<u8>>
    ensures { result ≡ judgement_behind first kind needs }
{
    if needs < first {
        return None;
    }
    Some(Judgement {
        kind,
        needs: needs - first,
    })
}

// The kind of a verdict behind so many events.
fn kind_behind(first: usize, judged: Option<Judged>) -> Option<Judgement<u8>>
    ensures { result ≡ kind_behind first judged }
{
    match judged {
        Some(judged) => judgement_behind(first, rank(judged.verdict), judged.events),
        None => None,
    }
}

// That a list hangs behind so many events, if that is its verdict.
fn hang_behind(first: usize, told: Option<Told>) -> Option<Judgement<u8>>
    ensures { result ≡ hang_behind first told }
{
    match told {
        None => None,
        Some(told) => match told.verdict {
            SearchVerdict::Run(_) => None,
            SearchVerdict::Hung => judgement_behind(first, HUNG, told.events),
        },
    }
}

/// Judges lists of events behind first ones by the kinds of their verdicts.
#[derive(Drop)]
pub(crate) struct KindJudge<'a> {
    /// Where memory comes from.
    pub alloc: Global,
    /// The state at boot.
    pub booted: &'a Booted<Tlb, Console>,
    /// What was read.
    pub inputs: &'a Inputs,
    /// The first events.
    pub first: &'a [Event],
}

impl<'a> Judge for KindJudge<'a> {
    ghost use Rattle.s161_search.specs.helpers.Begun.{HasKindFrom};
    ghost use Rattle.s161_search.specs.helpers.Inputs.{given_of};

    type Kind = u8;

    type Error = AllocError;

    ghost judges = { λ judge. HasKindFrom judge.booted.now (given_of judge.inputs.now) judge.first.now };

    fn judge(&mut self, events: &[Event]) -> Result<Option<Judgement<u8>>, AllocError> {
        let all = joined(self.alloc, self.first, events)?;
        let judged = judge_again(self.alloc, self.booted, self.inputs, &all)?;
        Ok(kind_behind(self.first.len(), judged))
    }
}

/// Judges lists of events behind first ones by whether they hang.
#[derive(Drop)]
pub(crate) struct HangJudge<'a> {
    /// Where memory comes from.
    pub alloc: Global,
    /// The state at boot.
    pub booted: &'a Booted<Tlb, Console>,
    /// What was read.
    pub inputs: &'a Inputs,
    /// The first events.
    pub first: &'a [Event],
    /// What is asked of the states behind a list.
    pub ends: &'a Machines<'a, Tlb, Console>,
    /// How many of them may be looked at.
    pub few: u32,
}

impl<'a> Judge for HangJudge<'a> {
    ghost use Rattle.s161_search.specs.helpers.Inputs.{given_of};
    ghost use Rattle.s161_search.specs.helpers.Telling.{HasHangFrom};

    type Kind = u8;

    type Error = AllocError;

    ghost judges = { λ judge. HasHangFrom judge.booted.now judge.ends.now judge.few (given_of judge.inputs.now) judge.first.now };

    fn judge(&mut self, events: &[Event]) -> Result<Option<Judgement<u8>>, AllocError> {
        let all = joined(self.alloc, self.first, events)?;
        let judged = judge_again(self.alloc, self.booted, self.inputs, &all)?;
        let told = tell(self.alloc, self.ends, self.few, judged, &all)?;
        Ok(hang_behind(self.first.len(), told))
    }
}
