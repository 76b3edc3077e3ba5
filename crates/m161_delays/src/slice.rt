//! Slices of a search, in this thread.

ghost use Rattle.std.specs.Prelude.{◌≡◌, ◌≤◌, IfErr, IfOk, length, min};
ghost use Rattle.m161_delays.specs.Search.{Finds};
ghost use Rattle.m161_delays.specs.Slices.{IsSlice, IsUsefulFrom};
ghost use Rattle.m161_delays.specs.helpers.Slicing.{GoesAlong, rest_at};

use crate::alone::walk_along;
use crate::runs::Runs;
use crate::search::{Class, Searched};
use crate::walk::Sums;
use m161_order::Delays;
use std::alloc::Global;

/// Where a slice stops.
#[derive(Drop)]
pub enum SliceStop<W> {
    /// At the first list whose run goes wrong.
    Wrong {
        /// The list.
        delays: Delays,
        /// How its run goes wrong.
        wrong: W,
    },
    /// At the list to go on from: it may make no more runs.
    Next {
        /// The list.
        delays: Delays,
    },
}

/// A slice of a search.
#[derive(Drop)]
pub struct Slice<W> {
    /// How many runs are right before it stops.
    pub runs: u64,
    /// How many of them were cut.
    pub cut: u64,
    /// Where it stops; nowhere where no list of the class is left.
    pub stop: Option<SliceStop<W>>,
}

// The numbers of a list, where lists of its length are looked at.
fn rest_at<'a>(numbers: &'a [u32], long: u32) -> &'a [u32]
    ensures { result.now ≡ rest_at numbers.now long }
{
    if numbers.len() == long as usize {
        numbers
    } else {
        &[]
    }
}

// The length that comes first: the list's own, or 65, which no list of a class has.
fn first_length(from: &[u32]) -> u32
    ensures { result ≡ min (length from.now) 65 }
{
    from.len().min(65) as u32
}

// Goes along the useful lists of a class from one on, up to so many runs, if a limit is given.
fn slice_of<T: Runs>(
    alloc: Global,
    runs: &T,
    class: Class,
    from: &[u32],
    limit: Option<u64>,
) -> Result<Slice<T::Wrong>, T::Error>
    requires { class.most ≤ 64 }
    ensures ok { IfOk result (λ slice. GoesAlong (IsUsefulFrom class (T.offers runs.now) from.now)
        (T.right runs.now) (T.wrong runs.now) limit (record { runs = 0; cut = 0 }) (record { runs = slice.runs; cut = slice.cut }) slice.stop) }
    ensures err { IfErr result (T.fails runs.now) }
{
    let start = runs.start()?;
    let mut sums = Sums { runs: 0, cut: 0 };
    for long in first_length(from)..class.most + 1 {
        let rest = rest_at(from, long);
        let none = Delays::none();
        if let Some(stop) = walk_along(
            alloc, runs, class, none, &start, rest, long, limit, &mut sums,
        )? {
            return Ok(Slice {
                runs: sums.runs,
                cut: sums.cut,
                stop: Some(stop),
            });
        }
    }
    Ok(Slice {
        runs: sums.runs,
        cut: sums.cut,
        stop: None,
    })
}

/// Looks at the useful lists of a class from one on, in their order and in this thread, up to the first
/// whose run goes wrong, and makes at most so many runs that go right. Where lists are left behind these,
/// it says from which one to go on. So slices of at least one run each, from the empty list on, are together
/// what [`search_alone`] looks at.
///
/// # Errors
/// A run can't be made, or memory is refused.
pub fn search_slice<T: Runs>(
    alloc: Global,
    runs: &T,
    class: Class,
    from: &[u32],
    most: u64,
) -> Result<Slice<T::Wrong>, T::Error>
    requires { class.most ≤ 64 }
    ensures ok { IfOk result (IsSlice class (T.offers runs.now) (T.right runs.now) (T.wrong runs.now) from.now most) }
    ensures err { IfErr result (T.fails runs.now) }
{
    slice_of(alloc, runs, class, from, Some(most))
}

/// Looks at the useful lists of a class, in their order and in this thread, up to the first whose run goes
/// wrong.
///
/// # Errors
/// A run can't be made, or memory is refused.
pub fn search_alone<T: Runs>(
    alloc: Global,
    runs: &T,
    class: Class,
) -> Result<Searched<T::Wrong>, T::Error>
    requires { class.most ≤ 64 }
    ensures ok { IfOk result (Finds class (T.offers runs.now) (T.right runs.now) (T.wrong runs.now)) }
    ensures err { IfErr result (T.fails runs.now) }
{
    let Slice {
        runs: right,
        cut,
        stop,
    } = slice_of(alloc, runs, class, &[], None)?;
    match stop {
        None => Ok(Searched::Clean { runs: right, cut }),
        Some(SliceStop::Wrong { delays, wrong }) => Ok(Searched::Wrong { delays, wrong }),
        Some(SliceStop::Next { .. }) => unreachable!(),
    }
}
