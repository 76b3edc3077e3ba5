//! Trials.

ghost use Rattle.std.specs.Prelude.{◌≡◌, ◌≤◌, ◌<◌, [], ◌∷◌, length, take, IfOk, OnErr};
ghost use Rattle.m161_shorten.specs.Verdicts.{AreSame};
ghost use Rattle.m161_shorten.specs.helpers.Ranges.{pair_trials, swapped, trials_at, IsPair};
ghost use Rattle.m161_shorten.specs.helpers.Tries.{NeedsAs, Tries};

use crate::judge::Judge;
use crate::ranges::{Pair, find_pair, swap_parts};
use m161_machine::Event;

/// What came of trials.
#[derive(Clone, Copy, Debug)]
pub(crate) struct Tried {
    /// Whether one was taken.
    pub taken: bool,
    /// How many were judged.
    pub judged: u32,
}

// How many events the verdict on a list needs, if it has one of the kind.
fn needs<J: Judge>(
    judge: &mut J,
    kind: J::Kind,
    events: &[Event],
) -> Result<Option<usize>, J::Error>
    ensures needs { IfOk result (NeedsAs (J.Kind.eq kind) (J.judges judge.old) events.now) }
    ensures same { AreSame (J.judges judge.old) (J.judges judge.new) }
{
    match judge.judge(events)? {
        Some(judged) if kind == judged.kind => Ok(Some(judged.needs)),
        _ => Ok(None),
    }
}

// Tries the list in which two parts change places.
fn try_swapped<J: Judge>(
    judge: &mut J,
    kind: J::Kind,
    events: &mut Vec<Event>,
    a: usize,
    b: usize,
    c: usize,
) -> Result<Tried, J::Error>
    requires first { a ≤ b }
    requires second { b ≤ c }
    requires within { c ≤ length events.old.items }
    ensures tries { IfOk result (λ tried. Tries (J.Kind.eq kind) (J.judges judge.old) (swapped a b c events.old.items ∷ [])
        events.old.items tried events.new.items) }
    ensures one { IfOk result (λ tried. tried.judged ≡ 1) }
    ensures err { OnErr result (events.new.items ≡ events.old.items) }
    ensures same { AreSame (J.judges judge.old) (J.judges judge.new) }
{
    swap_parts(events, a, b, c);
    match needs(judge, kind, events) {
        Ok(Some(n)) => {
            events.truncate(n);
            Ok(Tried {
                taken: true,
                judged: 1,
            })
        }
        Ok(None) => {
            swap_parts(events, a, a + (c - b), c);
            Ok(Tried {
                taken: false,
                judged: 1,
            })
        }
        Err(error) => {
            swap_parts(events, a, a + (c - b), c);
            Err(error)
        }
    }
}

// Tries the two lists of a pair, as many as may be tried.
fn try_pair<J: Judge>(
    judge: &mut J,
    kind: J::Kind,
    events: &mut Vec<Event>,
    pair: Pair,
    left: u32,
) -> Result<Tried, J::Error>
    requires some { 0 < left }
    requires pair { IsPair pair events.old.items }
    ensures tries { IfOk result (λ tried. Tries (J.Kind.eq kind) (J.judges judge.old) (take left (pair_trials pair events.old.items))
        events.old.items tried events.new.items) }
    ensures few { IfOk result (λ tried. tried.judged ≤ left) }
    ensures err { OnErr result (events.new.items ≡ events.old.items) }
    ensures same { AreSame (J.judges judge.old) (J.judges judge.new) }
{
    let first = try_swapped(judge, kind, events, pair.between, pair.next, pair.behind)?;
    if first.taken || left == 1 {
        return Ok(first);
    }
    let second = try_swapped(judge, kind, events, pair.block, pair.between, pair.next)?;
    Ok(Tried {
        taken: second.taken,
        judged: 2,
    })
}

/// Tries the lists at the block that begins there, as many as may be tried.
pub(crate) fn try_start<J: Judge>(
    judge: &mut J,
    kind: J::Kind,
    events: &mut Vec<Event>,
    start: usize,
    left: u32,
) -> Result<Tried, J::Error>
    requires some { 0 < left }
    requires start { start ≤ length events.old.items }
    ensures tries { IfOk result (λ tried. Tries (J.Kind.eq kind) (J.judges judge.old) (take left (trials_at start events.old.items))
        events.old.items tried events.new.items) }
    ensures few { IfOk result (λ tried. tried.judged ≤ left) }
    ensures err { OnErr result (events.new.items ≡ events.old.items) }
    ensures same { AreSame (J.judges judge.old) (J.judges judge.new) }
{
    match find_pair(events, start) {
        Some(pair) => try_pair(judge, kind, events, pair, left),
        None => Ok(Tried {
            taken: false,
            judged: 0,
        }),
    }
}
