//! The walk over the useful lists of a class in several threads, depth first.

ghost use Rattle.std.specs.Prelude.{◌≡◌, ◌%◌, ◌^◌, if◌then◌else◌, ◌≤◌, ◌+◌, ◌++◌, ◌∷◌, [], ◌<◌, IfErr, IfOk, IfSome, MatchOption, Some, None, ℕ, length, slice_index};
ghost use Rattle.m161_order.specs.Delays.{delays_of};
ghost use Rattle.m161_delays.specs.Lists.{times};
ghost use Rattle.m161_delays.specs.helpers.Last.{last_from};
ghost use Rattle.m161_delays.specs.Runs.{IsUsefulOf, StandsAt};
ghost use Rattle.m161_delays.specs.helpers.Walking.{IsBehind, IsLonger, Walks, with_number};

use crate::last::walk_last;
use crate::runs::Runs;
use crate::search::Class;
use m161_jobs::Tested;
use m161_order::Delays;
use std::alloc::Global;
use std::thread::Threads;

/// How many runs were made, and how many of them were cut, modulo 2^64.
#[derive(Clone, Copy)]
pub(crate) struct Sums {
    /// How many runs.
    pub runs: u64,
    /// How many were cut.
    pub cut: u64,
}

impl Sums {
    /// So many runs more, of which so many are cut.
    pub(crate) fn add(&mut self, runs: u32, cut: u32)
        ensures runs { self.new.runs ≡ (self.old.runs + runs) % 2 ^ 64 }
        ensures cut { self.new.cut ≡ (self.old.cut + cut) % 2 ^ 64 }
    {
        self.runs = self.runs.wrapping_add(u64::from(runs));
        self.cut = self.cut.wrapping_add(u64::from(cut));
    }
}

/// The first list that goes wrong.
#[derive(Drop)]
pub(crate) struct Found<W> {
    /// The list.
    pub delays: Delays,
    /// How its run goes wrong.
    pub wrong: W,
}

/// How many runs are cut, of one.
pub(crate) fn one_if(is_cut: bool) -> u32
    ensures { result ≡ (if is_cut then 1 else 0) }
{
    if is_cut { 1 } else { 0 }
}

// Makes the run of one list, from a point of it on.
fn judge<T: Runs>(
    runs: &T,
    delays: Delays,
    point: &T::Point,
    sums: &mut Sums,
) -> Result<Option<Found<T::Wrong>>, T::Error>
    requires { T.is_on runs.now (delays_of delays) point.now }
    ensures ok { IfOk result (Walks (λ numbers. numbers ≡ delays_of delays) (T.right runs.now) (T.wrong runs.now) sums.old sums.new) }
    ensures err { IfErr result (T.fails runs.now) }
{
    match runs.judge_from(&delays, point)? {
        Tested::Right { is_cut } => {
            sums.add(1, one_if(is_cut));
            Ok(None)
        }
        Tested::Wrong(wrong) => Ok(Some(Found { delays, wrong })),
    }
}

// How many times a number stands in a list.
fn times(numbers: &[u32], number: u32) -> usize
    ensures count { result ≡ times number numbers.now }
    ensures few { result ≤ length numbers.now }
{
    let mut count = 0;
    for other in numbers {
        if *other == number {
            count += 1;
        }
    }
    count
}

/// The least number that may stand behind a list.
pub(crate) fn least_behind(class: Class, delays: &Delays) -> u32
    ensures { result ≡ last_from class.from (delays_of delays.now) }
{
    let numbers = delays.as_slice();
    if numbers.is_empty() {
        class.from
    } else {
        numbers[numbers.len() - 1]
    }
}

/// What the next number is below: it is a place of the run.
pub(crate) fn end_of_places(class: Class, counts: &[u8]) -> u32
    ensures within { (result ≤ length counts.now) × (result ≤ class.within) }
    ensures all { (n : ℕ) → n < class.within → n < length counts.now → n < result }
{
    if counts.len() < class.within as usize {
        counts.len() as u32
    } else {
        class.within
    }
}

/// The list with a number behind the others.
pub(crate) fn with_number(delays: &Delays, number: u32) -> Delays
    requires few { length (delays_of delays.now) < 64 }
    requires least { last_from 0 (delays_of delays.now) ≤ number }
    ensures { delays_of result ≡ with_number (delays_of delays.now) number }
{
    let mut longer = *delays;
    match longer.push(number) {
        Ok(()) => longer,
        Err(_) => unreachable!(),
    }
}

// The same, if it is useful then; `ready` processors are at its place.
fn longer(delays: &Delays, number: u32, ready: u8) -> Option<Delays>
    requires few { length (delays_of delays.now) < 64 }
    requires least { last_from 0 (delays_of delays.now) ≤ number }
    ensures { MatchOption result (ready ≤ times number (delays_of delays.now) + 1)
        (λ longer. (delays_of longer ≡ delays_of delays.now ++ number ∷ [])
        × (times number (delays_of delays.now) + 1 < ready)) }
{
    if usize::from(ready) <= times(delays.as_slice(), number) + 1 {
        return None;
    }
    Some(with_number(delays, number))
}

/// The same by the runs: `counts` are those of the list.
pub(crate) fn useful_longer<T: Runs>(
    _runs: &T,
    class: Class,
    delays: &Delays,
    counts: &[u8],
    number: u32,
) -> Option<Delays>
    requires counts { counts.now ≡ T.offers _runs.now (delays_of delays.now) }
    requires place { number < length counts.now }
    requires within { number < class.within }
    requires least { last_from class.from (delays_of delays.now) ≤ number }
    requires useful { IsUsefulOf class (T.offers _runs.now) (delays_of delays.now) }
    requires few { (length (delays_of delays.now) < class.most) × (class.most ≤ 64) }
    ensures { MatchOption result
        (slice_index (T.offers _runs.now (delays_of delays.now)) number
        ≤ times number (delays_of delays.now) + 1)
        (IsLonger class (T.offers _runs.now) (delays_of delays.now) number) }
{
    longer(delays, number, counts[number as usize])
}

/// Makes the runs of the useful lists that go on behind one with so many numbers more, in their order,
/// up to the first that goes wrong: those that differ in their last number alone in so many threads. Each
/// begins at this point, or further on, at the place of the number before its last one.
///
/// # Errors
/// A run can't be made, or memory is refused.
pub(crate) fn walk<R: Threads + Sync, T: Runs>(
    rt: &R,
    alloc: Global,
    runs: &T,
    class: Class,
    delays: Delays,
    point: &T::Point,
    more: u32,
    jobs: u32,
    sums: &mut Sums,
) -> Result<Option<Found<T::Wrong>>, T::Error>
    requires point { StandsAt (T.is_on runs.now) (delays_of delays) (last_from class.from (delays_of delays)) point.now }
    requires useful { IsUsefulOf class (T.offers runs.now) (delays_of delays) }
    requires room { length (delays_of delays) + more ≤ class.most }
    requires most { class.most ≤ 64 }
    ensures ok { IfOk result (Walks (IsBehind class (T.offers runs.now) (delays_of delays) more)
        (T.right runs.now) (T.wrong runs.now) sums.old sums.new) }
    ensures err { IfErr result (T.fails runs.now) }
{
    if more == 0 {
        return judge(runs, delays, point, sums);
    }
    let mut counts = Vec::new(alloc);
    runs.offers(&delays, &mut counts)?;
    if more == 1 {
        return walk_last(rt, alloc, runs, class, &delays, point, &counts, jobs, sums);
    }
    let mut on = runs.copy(point)?;
    for number in least_behind(class, &delays)..end_of_places(class, &counts) {
        if let Some(longer) = useful_longer(runs, class, &delays, &counts, number) {
            runs.advance(&delays, number, &mut on)?;
            if let Some(found) = walk(rt, alloc, runs, class, longer, &on, more - 1, jobs, sums)? {
                return Ok(Some(found));
            }
        }
    }
    Ok(None)
}
