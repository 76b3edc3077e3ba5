//! The last numbers of lists: lists that differ in them alone are looked at by several threads.

ghost use Rattle.std.specs.Prelude.{◌≡◌, ℕ, ◌≤◌, ◌+◌, ◌<◌, IfErr, IfOk, length};
ghost use Rattle.m161_order.specs.Delays.{delays_of};
ghost use Rattle.m161_delays.specs.Runs.{IsUsefulOf, StandsAt};
ghost use Rattle.m161_delays.specs.helpers.Last.{last_from};
ghost use Rattle.m161_delays.specs.helpers.Walking.{AreNext, IsBehind, Walks};

use crate::runs::Runs;
use crate::search::Class;
use crate::walk::{Found, Sums, end_of_places, least_behind, useful_longer, with_number};
use m161_jobs::{Tested, Trials, Tried, try_each};
use m161_order::Delays;
use std::alloc::{AllocError, Global};
use std::thread::Threads;

// The lists that have one of these numbers behind those of a list, and a point of their runs.
#[derive(Drop)]
struct Batch<'a, T: Runs> {
    runs: &'a T,
    delays: &'a Delays,
    point: &'a T::Point,
    numbers: &'a [u32],
}

impl<'a, T: Runs> Trials for Batch<'a, T> {
    ghost use Rattle.std.specs.Prelude.{ℕ, ◌≤◌, ◌<◌, length, slice_index};
    ghost use Rattle.m161_order.specs.Delays.{delays_of};
    ghost use Rattle.m161_delays.specs.helpers.Last.{last_from};
    ghost use Rattle.m161_delays.specs.helpers.Walking.{with_number};

    type Wrong = T::Wrong;

    type Error = T::Error;

    ghost has = { λ b n. (n < length b.numbers.now) × (length (delays_of b.delays.now) < 64)
        × (last_from 0 (delays_of b.delays.now) ≤ slice_index b.numbers.now n)
        × T.is_on b.runs.now (with_number (delays_of b.delays.now) (slice_index b.numbers.now n)) b.point.now };

    ghost right = { λ b n. T.right b.runs.now (with_number (delays_of b.delays.now) (slice_index b.numbers.now n)) };

    ghost wrong = { λ b n. T.wrong b.runs.now (with_number (delays_of b.delays.now) (slice_index b.numbers.now n)) };

    ghost fails = { λ b. T.fails b.runs.now };

    fn judge(&self, place: u32) -> Result<Tested<T::Wrong>, T::Error> {
        let number = self.numbers[place as usize];
        let longer = with_number(self.delays, number);
        self.runs.judge_from(&longer, self.point)
    }

    fn refused(&self) -> T::Error {
        self.runs.refused()
    }
}

// The numbers that make useful lists behind a list, which has these counts.
fn useful_numbers<T: Runs>(
    alloc: Global,
    runs: &T,
    class: Class,
    delays: &Delays,
    counts: &[u8],
) -> Result<Vec<u32>, AllocError>
    requires counts { counts.now ≡ T.offers runs.now (delays_of delays.now) }
    requires useful { IsUsefulOf class (T.offers runs.now) (delays_of delays.now) }
    requires few { (length (delays_of delays.now) < class.most) × (class.most ≤ 64) }
    ensures { IfOk result (λ numbers. AreNext class (T.offers runs.now) (delays_of delays.now) numbers.items) }
{
    let mut numbers = Vec::new(alloc);
    for number in least_behind(class, delays)..end_of_places(class, counts) {
        if let Some(_longer) = useful_longer(runs, class, delays, counts, number) {
            numbers.push(number)?;
        }
    }
    Ok(numbers)
}

/// Makes the runs of the useful lists that go on behind one, which has these counts, with one number
/// more, in so many threads, up to the first that goes wrong. Each begins at this point.
///
/// # Errors
/// A run can't be made, or memory is refused.
pub(crate) fn walk_last<R: Threads + Sync, T: Runs>(
    rt: &R,
    alloc: Global,
    runs: &T,
    class: Class,
    delays: &Delays,
    point: &T::Point,
    counts: &[u8],
    jobs: u32,
    sums: &mut Sums,
) -> Result<Option<Found<T::Wrong>>, T::Error>
    requires point { StandsAt (T.is_on runs.now) (delays_of delays.now) (last_from class.from (delays_of delays.now)) point.now }
    requires counts { counts.now ≡ T.offers runs.now (delays_of delays.now) }
    requires useful { IsUsefulOf class (T.offers runs.now) (delays_of delays.now) }
    requires few { (length (delays_of delays.now) < class.most) × (class.most ≤ 64) }
    ensures ok { IfOk result (Walks (IsBehind class (T.offers runs.now) (delays_of delays.now) 1)
        (T.right runs.now) (T.wrong runs.now) sums.old sums.new) }
    ensures err { IfErr result (T.fails runs.now) }
{
    let Ok(numbers) = useful_numbers(alloc, runs, class, delays, counts) else {
        return Err(runs.refused());
    };
    let batch = Batch {
        runs,
        delays,
        point,
        numbers: &numbers,
    };
    let count = numbers.len() as u32;
    match try_each(rt, alloc, &batch, count, jobs)? {
        Tried::Clean { cut } => {
            sums.add(count, cut);
            Ok(None)
        }
        Tried::Wrong { place, wrong } => Ok(Some(Found {
            delays: with_number(delays, numbers[place as usize]),
            wrong,
        })),
    }
}
