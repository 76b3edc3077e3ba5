//! The walk over the useful lists of a class in one thread, depth first, from a list on.

ghost use Rattle.std.specs.Prelude.{◌≡◌, ◌<◌, ◌≤◌, ◌+◌, ◌^◌, true, false, IfErr, IfOk, Some, ℕ, length};
ghost use Rattle.m161_order.specs.Delays.{delays_of};
ghost use Rattle.m161_delays.specs.helpers.Last.{last_from};
ghost use Rattle.m161_delays.specs.helpers.Slicing.{GoesAlong, IsBehindFrom, first_of, rest_behind};
ghost use Rattle.m161_delays.specs.Runs.{IsUsefulOf, StandsAt};

use crate::runs::Runs;
use crate::search::Class;
use crate::slice::SliceStop;
use crate::walk::{Sums, end_of_places, least_behind, one_if, useful_longer};
use m161_jobs::Tested;
use m161_order::Delays;
use std::alloc::Global;

// Whether so many runs are all that may be made.
fn is_spent(limit: Option<u64>, runs: u64) -> bool
    ensures yes { result ≡ true → limit ≡ Some runs }
    ensures no { result ≡ false → (most : ℕ) → limit ≡ Some most → runs ≤ most → (runs < most) × (most < 2 ^ 64) }
{
    match limit {
        Some(most) => runs == most,
        None => false,
    }
}

// Makes the run of one list, from a point of it on, if it may.
fn judge_next<T: Runs>(
    runs: &T,
    delays: Delays,
    point: &T::Point,
    limit: Option<u64>,
    sums: &mut Sums,
) -> Result<Option<SliceStop<T::Wrong>>, T::Error>
    requires { T.is_on runs.now (delays_of delays) point.now }
    ensures ok { IfOk result (GoesAlong (λ numbers. numbers ≡ delays_of delays) (T.right runs.now) (T.wrong runs.now)
        limit sums.old sums.new) }
    ensures err { IfErr result (T.fails runs.now) }
{
    if is_spent(limit, sums.runs) {
        return Ok(Some(SliceStop::Next { delays }));
    }
    match runs.judge_from(&delays, point)? {
        Tested::Right { is_cut } => {
            sums.add(1, one_if(is_cut));
            Ok(None)
        }
        Tested::Wrong(wrong) => Ok(Some(SliceStop::Wrong { delays, wrong })),
    }
}

// The least number that may stand behind a list, where the rest of one is to be reached.
fn first_number(class: Class, delays: &Delays, rest: &[u32]) -> u32
    ensures { result ≡ first_of (last_from class.from (delays_of delays.now)) rest.now }
{
    let least = least_behind(class, delays);
    if rest.is_empty() {
        least
    } else {
        least.max(rest[0])
    }
}

// What of the rest of a list is behind a number.
fn rest_behind<'a>(rest: &'a [u32], number: u32) -> &'a [u32]
    ensures { result.now ≡ rest_behind rest.now number }
{
    if !rest.is_empty() && rest[0] == number {
        &rest[1..]
    } else {
        &[]
    }
}

/// Makes the runs of the useful lists that go on behind one with so many numbers more, in their order,
/// from the list on that goes on with this rest: up to the first that goes wrong, or that is one too many.
/// Each begins at this point, or further on, at the place of its last number.
///
/// # Errors
/// A run can't be made, or memory is refused.
pub(crate) fn walk_along<T: Runs>(
    alloc: Global,
    runs: &T,
    class: Class,
    delays: Delays,
    point: &T::Point,
    rest: &[u32],
    more: u32,
    limit: Option<u64>,
    sums: &mut Sums,
) -> Result<Option<SliceStop<T::Wrong>>, T::Error>
    requires point { StandsAt (T.is_on runs.now) (delays_of delays) (last_from class.from (delays_of delays)) point.now }
    requires useful { IsUsefulOf class (T.offers runs.now) (delays_of delays) }
    requires room { length (delays_of delays) + more ≤ class.most }
    requires most { class.most ≤ 64 }
    ensures ok { IfOk result (GoesAlong (IsBehindFrom class (T.offers runs.now) (delays_of delays) more rest.now)
        (T.right runs.now) (T.wrong runs.now) limit sums.old sums.new) }
    ensures err { IfErr result (T.fails runs.now) }
{
    if more == 0 {
        return judge_next(runs, delays, point, limit, sums);
    }
    let mut counts = Vec::new(alloc);
    runs.offers(&delays, &mut counts)?;
    let mut on = runs.copy(point)?;
    for number in first_number(class, &delays, rest)..end_of_places(class, &counts) {
        if let Some(longer) = useful_longer(runs, class, &delays, &counts, number) {
            runs.advance(&delays, number, &mut on)?;
            let left = rest_behind(rest, number);
            let stop = walk_along(alloc, runs, class, longer, &on, left, more - 1, limit, sums)?;
            if let Some(stop) = stop {
                return Ok(Some(stop));
            }
        }
    }
    Ok(None)
}
