//! The stores of the runs of lists of delays.

ghost use Rattle.std.specs.Prelude.{◌≡◌, ◌≤◌, IfErr, IfOk};
ghost use Rattle.m161_stores.specs.Watches.{AreUnstored};
ghost use Rattle.s161_search.specs.Delays.{class_of};
ghost use Rattle.s161_search.specs.Unstored.{ListsUnstored};
ghost use Rattle.s161_search.specs.helpers.Begun.{BeginsAt, IsStarted};
ghost use Rattle.s161_search.specs.helpers.Delayed.{IsNoMemory};
ghost use Rattle.s161_search.specs.helpers.Inputs.{given_of};

use crate::delays::{DelayedRuns, lists_of};
use crate::orders::run_from;
use crate::points::RunPoint;
use crate::seed_stores::{push_unstored, run_stores};
use m161_audit::Watch;
use m161_delays::{Delays, Runs, Searched, Tested, search_lists};
use m161_stores::Unstored;
use s161_base::fault::Fault;
use s161_command::DelayClass;
use std::thread::Threads;

/// Looks for a store to a word in the runs of lists of delays.
#[derive(Drop)]
struct ListStores<'a, 'b, 'c> {
    runs: &'c DelayedRuns<'a, 'b>,
    word: u32,
}

impl<'a, 'b, 'c> Runs for ListStores<'a, 'b, 'c> {
    ghost use Rattle.std.specs.Prelude.{true, false};
    ghost use Rattle.s161_search.specs.Delays.{offered_by};
    ghost use Rattle.s161_search.specs.helpers.Delayed.{IsNoMemory};
    ghost use Rattle.s161_search.specs.helpers.Inputs.{given_of};
    ghost use Rattle.s161_search.specs.helpers.Offers.{offers_alike};
    ghost use Rattle.s161_search.specs.helpers.Points.{IsPointOf};
    ghost use Rattle.s161_search.specs.helpers.Storing.{ListStoresFrom};

    type Wrong = ();

    type Error = Fault<'a>;

    type Point = RunPoint;

    ghost is_on = { λ r. IsPointOf r.runs.now.basis.now.start.now r.runs.now.basis.now.task (given_of r.runs.now.basis.now.inputs.now) r.runs.now.turns };

    ghost offers = { λ r. offered_by r.runs.now.basis.now.task (given_of r.runs.now.basis.now.inputs.now) r.runs.now.turns r.runs.now.basis.now.start.now.core.value.state };

    ghost right = { λ r numbers is_cut.
        ListStoresFrom r.runs.now.basis.now.booted.now r.runs.now.basis.now.start.now r.runs.now.basis.now.task (given_of r.runs.now.basis.now.inputs.now) r.runs.now.turns r.word numbers false };

    ghost wrong = { λ r numbers found.
        ListStoresFrom r.runs.now.basis.now.booted.now r.runs.now.basis.now.start.now r.runs.now.basis.now.task (given_of r.runs.now.basis.now.inputs.now) r.runs.now.turns r.word numbers true };

    ghost fails = { λ r. IsNoMemory };

    fn offers(&self, delays: &Delays, counts: &mut Vec<u8>) -> Result<(), Fault<'a>> {
        Runs::offers(self.runs, delays, counts)
    }

    fn start(&self) -> Result<RunPoint, Fault<'a>> {
        Runs::start(self.runs)
    }

    fn copy(&self, point: &RunPoint) -> Result<RunPoint, Fault<'a>> {
        Runs::copy(self.runs, point)
    }

    fn advance(&self, delays: &Delays, place: u32, point: &mut RunPoint) -> Result<(), Fault<'a>> {
        Runs::advance(self.runs, delays, place, point)
    }

    fn judge_from(&self, delays: &Delays, point: &RunPoint) -> Result<Tested<()>, Fault<'a>> {
        let basis = self.runs.basis;
        let run = run_from(
            basis.alloc,
            basis.start,
            basis.task,
            basis.inputs,
            self.runs.turns,
            delays,
            point,
        )?;
        if run_stores(basis.alloc, basis.booted, &run, self.word)? {
            Ok(Tested::Wrong(()))
        } else {
            Ok(Tested::Right { is_cut: false })
        }
    }

    fn refused(&self) -> Fault<'a> {
        Fault::Memory
    }

    ghost alike = { λ r. offers_alike r.runs.now.basis.now.task (given_of r.runs.now.basis.now.inputs.now) r.runs.now.turns r.runs.now.basis.now.start.now.core.value.state };
}

// Whether no Step of the runs of the useful lists of a class stores to a word.
fn lists_unstored<'a, R: Threads + Sync>(
    rt: &R,
    runs: &DelayedRuns<'a, '_>,
    class: DelayClass,
    word: u32,
) -> Result<bool, Fault<'a>>
    requires booted { BeginsAt (given_of runs.now.basis.now.inputs.now) runs.now.basis.now.booted.now }
    requires started { IsStarted (given_of runs.now.basis.now.inputs.now) runs.now.basis.now.booted.now runs.now.basis.now.start.now }
    requires few { class.most ≤ 64 }
    ensures ok { IfOk result (ListsUnstored runs.now.basis.now.task (given_of runs.now.basis.now.inputs.now) runs.now.turns (class_of class) word) }
    ensures fault { IfErr result IsNoMemory }
{
    let basis = runs.basis;
    let stores = ListStores { runs, word };
    match search_lists(rt, basis.alloc, &stores, lists_of(class), basis.task.jobs)? {
        Searched::Clean { .. } => Ok(true),
        Searched::Wrong { .. } => Ok(false),
    }
}

// To which words of a watch none stores.
fn watch_by_lists<'a, R: Threads + Sync>(
    rt: &R,
    runs: &DelayedRuns<'a, '_>,
    class: DelayClass,
    watch: &Watch,
) -> Result<Unstored, Fault<'a>>
    requires booted { BeginsAt (given_of runs.now.basis.now.inputs.now) runs.now.basis.now.booted.now }
    requires started { IsStarted (given_of runs.now.basis.now.inputs.now) runs.now.basis.now.booted.now runs.now.basis.now.start.now }
    requires few { class.most ≤ 64 }
    ensures pte { IfOk result (λ unstored.
        ListsUnstored runs.now.basis.now.task (given_of runs.now.basis.now.inputs.now) runs.now.turns (class_of class) watch.now.pte unstored.pte) }
    ensures done { IfOk result (λ unstored.
        ListsUnstored runs.now.basis.now.task (given_of runs.now.basis.now.inputs.now) runs.now.turns (class_of class) watch.now.done unstored.done) }
    ensures fault { IfErr result IsNoMemory }
{
    Ok(Unstored {
        pte: lists_unstored(rt, runs, class, watch.pte)?,
        done: lists_unstored(rt, runs, class, watch.done)?,
    })
}

/// Of each of these watches, to which of its words no Step of the runs of the useful lists of a class
/// stores.
///
/// # Errors
/// Memory was refused.
pub(crate) fn unstored_by_lists<'a, R: Threads + Sync>(
    rt: &R,
    runs: &DelayedRuns<'a, '_>,
    class: DelayClass,
    watches: &[Watch],
) -> Result<Vec<Unstored>, Fault<'a>>
    requires booted { BeginsAt (given_of runs.now.basis.now.inputs.now) runs.now.basis.now.booted.now }
    requires started { IsStarted (given_of runs.now.basis.now.inputs.now) runs.now.basis.now.booted.now runs.now.basis.now.start.now }
    requires few { class.most ≤ 64 }
    ensures ok { IfOk result (λ unstored.
        AreUnstored (ListsUnstored runs.now.basis.now.task (given_of runs.now.basis.now.inputs.now) runs.now.turns (class_of class)) watches.now unstored.items) }
    ensures fault { IfErr result IsNoMemory }
{
    let mut unstored = Vec::new(runs.basis.alloc);
    for i in 0..watches.len() {
        let one = watch_by_lists(rt, runs, class, &watches[i])?;
        push_unstored(&mut unstored, one)?;
    }
    Ok(unstored)
}
