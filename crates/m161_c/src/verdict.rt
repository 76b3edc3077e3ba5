//! The numbers of a verdict.

ghost use Rattle.std.specs.Prelude.{◌≡◌};
ghost use Rattle.m161_c.specs.Judged.{told_numbers};
ghost use Rattle.m161_c.specs.Verdicts.{as_run, run_verdict, search_verdict};

use crate::answer::{Judgement, VerdictNumbers};
use m161_judge::Verdict;
use m161_reach::{SearchVerdict, Told};
use m161_states::EventVerdict;

/// No verdict.
pub(crate) const NONE: VerdictNumbers = VerdictNumbers {
    kind: 0,
    processor: 0,
    address: 0,
    row: 0,
    other: 0,
};

/// No verdict, which needs no events.
pub(crate) const RIGHT: Judgement = Judgement {
    verdict: NONE,
    events: 0,
};

/// Those of a verdict on a run.
pub(crate) fn run_verdict(verdict: Verdict) -> VerdictNumbers
    ensures { result ≡ run_verdict verdict }
{
    match verdict {
        Verdict::Stale {
            place: _,
            processor,
            address,
            row,
        } => VerdictNumbers {
            kind: 1,
            processor,
            address,
            row: u32::from(row),
            ..NONE
        },
        Verdict::Reached {
            place: _,
            processor,
            address,
        } => VerdictNumbers {
            kind: 2,
            processor,
            address,
            ..NONE
        },
        Verdict::Conflict(conflict) => VerdictNumbers {
            kind: 3,
            processor: conflict.processor,
            row: u32::from(conflict.row),
            other: u32::from(conflict.other),
            ..NONE
        },
        Verdict::Stuck => VerdictNumbers { kind: 4, ..NONE },
        Verdict::Output => VerdictNumbers { kind: 5, ..NONE },
        Verdict::End => VerdictNumbers { kind: 6, ..NONE },
    }
}

/// Those of a verdict of a search.
pub(crate) fn search_verdict(verdict: SearchVerdict) -> VerdictNumbers
    ensures { result ≡ search_verdict verdict }
{
    match verdict {
        SearchVerdict::Run(verdict) => run_verdict(verdict),
        SearchVerdict::Hung => VerdictNumbers { kind: 7, ..NONE },
    }
}

/// The same with how many events it needs.
pub(crate) fn told_numbers(told: Option<Told>) -> Judgement
    ensures { result ≡ told_numbers told }
{
    match told {
        Some(told) => Judgement {
            verdict: search_verdict(told.verdict),
            events: told.events as u64,
        },
        None => RIGHT,
    }
}

/// A verdict that an exploration found, as one on a run.
pub(crate) fn as_run(verdict: EventVerdict) -> Verdict
    ensures { result ≡ as_run verdict }
{
    match verdict {
        EventVerdict::Stale {
            processor,
            address,
            row,
        } => Verdict::Stale {
            place: 0,
            processor,
            address,
            row,
        },
        EventVerdict::Reached { processor, address } => Verdict::Reached {
            place: 0,
            processor,
            address,
        },
        EventVerdict::Conflict(conflict) => Verdict::Conflict(conflict),
        EventVerdict::Stuck => Verdict::Stuck,
        EventVerdict::Output => Verdict::Output,
    }
}
