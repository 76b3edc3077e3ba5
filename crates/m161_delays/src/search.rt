//! The search.

ghost use Rattle.std.specs.Prelude.{◌≤◌, IfErr, IfOk};
ghost use Rattle.m161_delays.specs.Search.{Finds};

use crate::runs::Runs;
use crate::slice::search_alone;
use crate::walk::{Sums, walk};
use m161_order::Delays;
use std::alloc::Global;
use std::thread::Threads;

/// A class of lists.
#[derive(Clone, Copy, Debug, PartialEq, Eq)]
pub struct Class {
    /// How many numbers a list has at most.
    pub most: u32,
    /// The least number.
    pub from: u32,
    /// What each number is below.
    pub within: u32,
}

/// What a search found.
#[derive(Drop)]
pub enum Searched<W> {
    /// No run goes wrong.
    Clean {
        /// How many useful lists there are, modulo 2^64.
        runs: u64,
        /// How many of their runs were cut, modulo 2^64.
        cut: u64,
    },
    /// The first list whose run goes wrong.
    Wrong {
        /// The list.
        delays: Delays,
        /// How its run goes wrong.
        wrong: W,
    },
}

/// Looks at the useful lists of a class, in their order, up to the first whose run goes wrong. Lists
/// that differ in their last number alone are looked at in so many threads; how many there are changes
/// nothing in the answer.
///
/// # Errors
/// A run can't be made, or memory is refused.
pub fn search_lists<R: Threads + Sync, T: Runs>(
    rt: &R,
    alloc: Global,
    runs: &T,
    class: Class,
    jobs: u32,
) -> Result<Searched<T::Wrong>, T::Error>
    requires { class.most ≤ 64 }
    ensures ok { IfOk result (Finds class (T.offers runs.now) (T.right runs.now) (T.wrong runs.now)) }
    ensures err { IfErr result (T.fails runs.now) }
{
    if jobs < 2 {
        return search_alone(alloc, runs, class);
    }
    let start = runs.start()?;
    let mut sums = Sums { runs: 0, cut: 0 };
    for length in 0..class.most + 1 {
        if let Some(found) = walk(
            rt,
            alloc,
            runs,
            class,
            Delays::none(),
            &start,
            length,
            jobs,
            &mut sums,
        )? {
            return Ok(Searched::Wrong {
                delays: found.delays,
                wrong: found.wrong,
            });
        }
    }
    Ok(Searched::Clean {
        runs: sums.runs,
        cut: sums.cut,
    })
}
