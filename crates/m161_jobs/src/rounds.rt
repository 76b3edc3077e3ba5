//! All trials, round by round.

ghost use Rattle.std.specs.Prelude.{◌≡◌, ℕ, ◌+◌, ◌^◌, ◌<◌, ◌≤◌, IfErr, IfOk};
ghost use Rattle.m161_jobs.specs.Answers.{IsAnswer};
ghost use Rattle.m161_jobs.specs.helpers.Parts.{IsAnswerFrom, IsPart, part_start};

use crate::parts::{first_of, part_start, try_at, try_part};
use crate::trials::{Trials, Tried};
use std::alloc::Global;
use std::thread::{Threads, map_indices};

// How many trials a part has at most in the first round: a trial that goes wrong early ends the search
// soon.
const FIRST: u32 = 16;

// How many it has at most in the last ones: threads cost little then.
const MOST: u32 = 4096;

// A round: so many parts, of so many trials each.
#[derive(Clone, Copy)]
struct Round {
    parts: u32,
    size: u32,
}

impl Round {
    // The next round, where so many trials are left, and a part has no more than `most` of them.
    fn next(left: u32, jobs: u32, most: u32) -> Round
        requires { (0 < left) × (0 < jobs) × (0 < most) }
        ensures { (0 < result.parts) × (0 < result.size) }
    {
        let size = left.div_ceil(jobs).min(most);
        Round {
            parts: left.div_ceil(size).min(jobs),
            size,
        }
    }

    // What its trials are below.
    fn end(self, from: u32, count: u32) -> u32
        requires some { (0 < self.parts) × (0 < self.size) }
        requires left { from < count }
        ensures value { result ≡ part_start from count self.size self.parts }
        ensures more { from < result }
        ensures within { result ≤ count }
    {
        part_start(from, count, self.size, self.parts)
    }

    // Looks at its trials, each part in a thread of its own.
    fn make<R: Threads + Sync, T: Trials>(
        self,
        rt: &R,
        alloc: Global,
        trials: &T,
        from: u32,
        count: u32,
    ) -> Result<Tried<T::Wrong>, T::Error>
        requires has { (n : ℕ) → n < count → T.has trials.now n }
        requires ordered { from ≤ count }
        ensures ok { IfOk result (IsAnswerFrom (T.right trials.now) (T.wrong trials.now) from
            (part_start from count self.size self.parts)) }
        ensures err { IfErr result (T.fails trials.now) }
    {
        let Round { parts, size } = self;
        let found = map_indices(
            rt,
            alloc,
            parts as usize,
            &|i: usize| -> Result<Tried<T::Wrong>, T::Error>
                requires has { (n : ℕ) → n < count → T.has trials.now n }
                requires ordered { from ≤ count }
                requires part { i + 1 < 2 ^ 32 }
                ensures { IsPart (T.right trials.entry.now) (T.wrong trials.entry.now) (T.fails trials.entry.now)
                    (part_start from count size i) (part_start from count size (i + 1)) result }
            { try_at(trials, from, count, size, i) },
        );
        match found {
            Ok(found) => first_of(trials, from, count, size, found),
            Err(_) => Err(trials.refused()),
        }
    }
}

// Looks at the trials in rounds.
fn try_rounds<R: Threads + Sync, T: Trials>(
    rt: &R,
    alloc: Global,
    trials: &T,
    count: u32,
    jobs: u32,
) -> Result<Tried<T::Wrong>, T::Error>
    requires has { (n : ℕ) → n < count → T.has trials.now n }
    requires some { 0 < jobs }
    ensures ok { IfOk result (IsAnswerFrom (T.right trials.now) (T.wrong trials.now) 0 count) }
    ensures err { IfErr result (T.fails trials.now) }
{
    let mut cut = 0;
    let mut from = 0;
    let mut most = FIRST;
    while from < count {
        let round = Round::next(count - from, jobs, most);
        match round.make(rt, alloc, trials, from, count)? {
            Tried::Clean { cut: more } => cut += more,
            Tried::Wrong { place, wrong } => return Ok(Tried::Wrong { place, wrong }),
        }
        from = round.end(from, count);
        most = (most * 2).min(MOST);
    }
    Ok(Tried::Clean { cut })
}

/// Looks at the trials below a number, in so many threads, up to the first that goes wrong. How many
/// threads there are changes nothing in the answer; with one, or 0, none is started and no memory asked
/// for.
///
/// # Errors
/// A trial can't be made, and none with a lower number goes wrong; or memory is refused.
pub fn try_each<R: Threads + Sync, T: Trials>(
    rt: &R,
    alloc: Global,
    trials: &T,
    count: u32,
    jobs: u32,
) -> Result<Tried<T::Wrong>, T::Error>
    requires { (n : ℕ) → n < count → T.has trials.now n }
    ensures ok { IfOk result (IsAnswer (T.right trials.now) (T.wrong trials.now) count) }
    ensures err { IfErr result (T.fails trials.now) }
{
    if jobs <= 1 {
        return try_part(trials, 0, count);
    }
    try_rounds(rt, alloc, trials, count, jobs)
}
