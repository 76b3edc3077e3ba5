//! The stores of the runs of seeds.

ghost use Rattle.std.specs.Prelude.{◌≡◌, ◌++◌, ◌∷◌, [], IfErr, IfOk, OnOk};
ghost use Rattle.m161_stores.specs.Runs.{stores_in};
ghost use Rattle.m161_stores.specs.Watches.{AreUnstored};
ghost use Rattle.s161_search.specs.Unstored.{SeedsUnstored};
ghost use Rattle.s161_search.specs.helpers.Begun.{BeginsAt, IsStarted};
ghost use Rattle.s161_search.specs.helpers.Delayed.{IsNoMemory};
ghost use Rattle.s161_search.specs.helpers.Inputs.{given_of};

use crate::basis::Basis;
use crate::orders::run_order;
use crate::seeds::order_at;
use m161::{Console, Tlb};
use m161_audit::Watch;
use m161_jobs::{Tested, Trials, Tried, try_each};
use m161_judge::{Booted, JudgedRun};
use m161_stores::{Unstored, stores_to};
use s161_base::fault::Fault;
use std::alloc::{AllocError, Global};
use std::thread::Threads;

/// Whether a Step of a run stores to a word, from the state at boot on.
///
/// # Errors
/// Memory was refused.
// For LLVM: a stack frame of its own.
#[inline(never)]
pub(crate) fn run_stores(
    alloc: Global,
    booted: &Booted<Tlb, Console>,
    run: &JudgedRun,
    word: u32,
) -> Result<bool, AllocError>
    ensures { IfOk result (λ is. is ≡ stores_in word booted.now run.now.events.items) }
{
    let mut core = booted.copy_core(alloc)?;
    stores_to(&mut core, &run.events, word)
}

/// Looks for a store to a word in the runs of seeds.
#[derive(Drop)]
struct SeedStores<'a, 'b, 'c> {
    basis: &'c Basis<'a, 'b>,
    word: u32,
}

impl<'a, 'b, 'c> Trials for SeedStores<'a, 'b, 'c> {
    ghost use Rattle.std.specs.Prelude.{true, false};
    ghost use Rattle.s161_search.specs.helpers.Delayed.{IsNoMemory};
    ghost use Rattle.s161_search.specs.helpers.Inputs.{given_of};
    ghost use Rattle.s161_search.specs.helpers.Storing.{SeedStoresFrom};

    type Wrong = ();

    type Error = Fault<'a>;

    ghost has = { λ r k. Unit {0} };

    ghost right = { λ r k is_cut. SeedStoresFrom r.basis.now.booted.now r.basis.now.start.now r.basis.now.task (given_of r.basis.now.inputs.now) r.word k false };

    ghost wrong = { λ r k found. SeedStoresFrom r.basis.now.booted.now r.basis.now.start.now r.basis.now.task (given_of r.basis.now.inputs.now) r.word k true };

    ghost fails = { λ r. IsNoMemory };

    fn judge(&self, place: u32) -> Result<Tested<()>, Fault<'a>> {
        let basis = self.basis;
        let order = order_at(basis.task.drive.order, place);
        let run = run_order(basis.alloc, basis.start, basis.task, basis.inputs, order)?;
        if run_stores(basis.alloc, basis.booted, &run, self.word)? {
            Ok(Tested::Wrong(()))
        } else {
            Ok(Tested::Right { is_cut: false })
        }
    }

    fn refused(&self) -> Fault<'a> {
        Fault::Memory
    }
}

// Whether no Step of the runs of the seeds stores to a word.
fn seeds_unstored<'a, R: Threads + Sync>(
    rt: &R,
    basis: &Basis<'a, '_>,
    word: u32,
) -> Result<bool, Fault<'a>>
    requires booted { BeginsAt (given_of basis.now.inputs.now) basis.now.booted.now }
    requires started { IsStarted (given_of basis.now.inputs.now) basis.now.booted.now basis.now.start.now }
    ensures ok { IfOk result (SeedsUnstored basis.now.task (given_of basis.now.inputs.now) word) }
    ensures fault { IfErr result IsNoMemory }
{
    let task = basis.task;
    let stores = SeedStores { basis, word };
    match try_each(rt, basis.alloc, &stores, task.seeds, task.jobs)? {
        Tried::Clean { .. } => Ok(true),
        Tried::Wrong { .. } => Ok(false),
    }
}

/// One more watch.
///
/// # Errors
/// Memory was refused.
pub(crate) fn push_unstored(
    watches: &mut Vec<Unstored>,
    unstored: Unstored,
) -> Result<(), AllocError>
    ensures { OnOk result (watches.new.items ≡ watches.old.items ++ unstored ∷ []) }
{
    watches.push(unstored)?;
    Ok(())
}

// To which words of a watch none stores.
fn watch_by_seeds<'a, R: Threads + Sync>(
    rt: &R,
    basis: &Basis<'a, '_>,
    watch: &Watch,
) -> Result<Unstored, Fault<'a>>
    requires booted { BeginsAt (given_of basis.now.inputs.now) basis.now.booted.now }
    requires started { IsStarted (given_of basis.now.inputs.now) basis.now.booted.now basis.now.start.now }
    ensures pte { IfOk result (λ unstored. SeedsUnstored basis.now.task (given_of basis.now.inputs.now) watch.now.pte unstored.pte) }
    ensures done { IfOk result (λ unstored. SeedsUnstored basis.now.task (given_of basis.now.inputs.now) watch.now.done unstored.done) }
    ensures fault { IfErr result IsNoMemory }
{
    Ok(Unstored {
        pte: seeds_unstored(rt, basis, watch.pte)?,
        done: seeds_unstored(rt, basis, watch.done)?,
    })
}

/// Of each of these watches, to which of its words no Step of the runs of the seeds stores.
///
/// # Errors
/// Memory was refused.
pub(crate) fn unstored_by_seeds<'a, R: Threads + Sync>(
    rt: &R,
    basis: &Basis<'a, '_>,
    watches: &[Watch],
) -> Result<Vec<Unstored>, Fault<'a>>
    requires booted { BeginsAt (given_of basis.now.inputs.now) basis.now.booted.now }
    requires started { IsStarted (given_of basis.now.inputs.now) basis.now.booted.now basis.now.start.now }
    ensures ok { IfOk result (λ unstored.
        AreUnstored (SeedsUnstored basis.now.task (given_of basis.now.inputs.now)) watches.now unstored.items) }
    ensures fault { IfErr result IsNoMemory }
{
    let mut unstored = Vec::new(basis.alloc);
    for i in 0..watches.len() {
        let one = watch_by_seeds(rt, basis, &watches[i])?;
        push_unstored(&mut unstored, one)?;
    }
    Ok(unstored)
}
