//! The combined results of the workers of a run.

ghost use Rattle.std.specs.Prelude.{◌≡◌, ◌≤◌, ◌<◌, ℕ, IfErr, IfOk, None, length, map, slice_index_or, sum, vec_len};
ghost use Rattle.m161_threads.specs.Runs.{IsOfRun};

use crate::book::Seat;
use crate::worker::Worked;
use m161_cause::Cause;
use std::alloc::Global;
use std::sync::ledger::Ledger;

/// The results of the workers of a run: the seats, and how many Steps each has made.
#[derive(Drop)]
pub(crate) struct Tally<L: Ledger, M: Ledger> {
    pub(crate) seats: Vec<Seat<L, M>>,
    pub(crate) counts: Vec<u32>,
}

/// Combines the results of the workers, if none has stopped early for a cause of its own.
///
/// # Errors
/// The cause of the first worker that has one; or memory was refused.
pub(crate) fn take_apart<L: Ledger, M: Ledger>(
    alloc: Global,
    all: Vec<Worked<L, M>>,
) -> Result<Tally<L, M>, Cause>
    ensures seats { IfOk result (λ t. t.seats.items ≡ map (λ w. w.seat) all.items) }
    ensures counts { IfOk result (λ t. t.counts.items ≡ map (λ w. w.made) all.items) }
    ensures none { IfOk result (λ t. (k : ℕ) (d : _) → k < vec_len all
        → (slice_index_or all.items k d).stop ≡ None) }
    ensures err { IfErr result (λ cause. IsOfRun cause) }
{
    let Ok(mut seats) = Vec::with_capacity(alloc, all.len()) else {
        return Err(Cause::NoMemory);
    };
    let Ok(mut counts) = Vec::with_capacity(alloc, all.len()) else {
        return Err(Cause::NoMemory);
    };
    for worked in all {
        let Worked { seat, made, stop } = worked;
        if let Some(stop) = stop {
            return Err(stop.cause());
        }
        seats.push_reserved(seat);
        counts.push_reserved(made);
    }
    Ok(Tally { seats, counts })
}

/// The sum of at most 32 counts.
pub(crate) fn total(counts: &[u32]) -> u64
    requires { length counts.now ≤ 32 }
    ensures { result ≡ sum counts.now }
{
    let mut total = 0u64;
    for i in 0..counts.len() {
        total += u64::from(counts[i]);
    }
    total
}
