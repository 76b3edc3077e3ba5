//! Workers: a thread for each processor.

ghost use Rattle.std.specs.Prelude.{◌≡◌, ◌+◌, ◌<◌, ◌≤◌, ℕ, None, length, vec_len, slice_index, slice_index_or, IfErr, IfOk};
ghost use Rattle.m161_threads.specs.Runs.{IsOfRun};
ghost use Rattle.m161_threads.specs.Shares.{SeatState};
ghost use Rattle.m161_threads.specs.helpers.Work.{KeepsTask, Works, after_turn, task_of};

use crate::book::{Book, Burst, Seat};
use crate::threaded::Gate;
use m161_bus::Console;
use m161_cause::Cause;
use m161_machine::Refusal;
use m161_tlb::Tlb;
use std::alloc::Global;
use std::hint::spin_loop;
use std::sync::ledger::Ledger;
use std::sync::{Condvar, Mutex, MutexGuard, Wait};
use std::thread;
use std::thread::{Promise, PromisedHandle, Scope, Threads};

/// How many times a worker tries to take the lock of a burst before it sleeps.
const TRIES: u32 = 64;

/// The first pause between two tries, in turns of a loop, and how many times it doubles.
const PAUSE: u32 = 16;

const LONGEST_PAUSE: u32 = 6;

/// The result of a worker: its seat, how many Steps it made, and why it stopped early, unless
/// because the machine is off.
#[derive(Drop)]
pub(crate) struct Worked<L: Ledger, M: Ledger> {
    pub(crate) seat: Seat<L, M>,
    pub(crate) made: u32,
    pub(crate) stop: Option<WorkerStop>,
}

/// The task of a worker: its seat's processor, how many Steps the seat had, and how many more are
/// to be made.
#[derive(Clone, Copy)]
pub(crate) struct Task {
    pub(crate) processor: u32,
    pub(crate) before: u64,
    pub(crate) quota: u32,
}

impl<L: Ledger, M: Ledger> Promise<Worked<L, M>> for Task {
    ghost use Rattle.m161_threads.specs.helpers.Work.{KeepsTask};

    ghost kept_by = { λ t worked. KeepsTask t worked.seat worked.made worked.stop };
}

/// Why a worker stops early.
#[derive(Clone, Copy)]
pub(crate) enum WorkerStop {
    /// The gate returned `false`.
    Held {
        /// The processor.
        p: u32,
        /// How many Steps it had made.
        k: u32,
    },
    /// The machine has accepted as many events as it can count. (No other refusal comes: a seat's
    /// processor is one of the machine's.)
    Worn,
}

impl WorkerStop {
    /// The cause that a run reports.
    pub(crate) fn cause(self) -> Cause
        ensures { IsOfRun result }
    {
        match self {
            WorkerStop::Held { p, k } => Cause::Held { p, k },
            WorkerStop::Worn => Cause::Worn,
        }
    }
}

/// The workers of a run wait here until all of them are started, or one can't be.
#[derive(Drop)]
pub(crate) struct StartLine {
    open: Mutex<bool>,
    opened: Condvar,
}

impl StartLine {
    /// A line at which workers wait.
    pub(crate) fn new() -> StartLine {
        StartLine {
            open: Mutex::new(false),
            opened: Condvar::new(),
        }
    }

    // Waits until it is open.
    fn wait<R: Wait>(&self, rt: &R) {
        let _open = self
            .opened
            .wait_while(rt, self.open.lock(rt), |open| !*open);
    }

    // Lets all workers go.
    fn open<R: Wait>(&self, rt: &R) {
        *self.open.lock(rt) = true;
        self.opened.notify_all();
    }
}

// Lets a time go by that grows with the number of times that the lock was tried.
fn pause(tried: u32) {
    for _ in 0..PAUSE << tried.min(LONGEST_PAUSE) {
        spin_loop();
    }
}

// Takes the lock. A worker that makes bursts first tries so many times, with longer and longer
// pauses: to sleep until the holder lets it go costs both the time of many Steps.
fn take_lock<'b, B, R: Wait>(rt: &R, book: &'b Mutex<B>, tries: u32) -> MutexGuard<'b, B> {
    for tried in 0..tries {
        if let Some(guard) = book.try_lock() {
            return guard;
        }
        pause(tried);
    }
    book.lock(rt)
}

// Takes the lock and makes a burst of at most `most` Steps of a seat's processor.
fn take_turn<L: Ledger, M: Ledger, T: Tlb, D: Console, R: Wait>(
    rt: &R,
    book: &Mutex<Book<L, M, T, D>>,
    seat: &mut Seat<L, M>,
    most: u32,
) -> Burst
    ensures seat { seat.new ≡ after_turn result seat.old }
    ensures within { result.made ≤ most }
    ensures whole { result.refusal ≡ None → result.made ≡ most }
{
    let mut book = take_lock(rt, book, if most > 1 { TRIES } else { 0 });
    let burst = book.step_burst(seat, most);
    if let Some(Refusal::Off) = burst.refusal {
        book.note_off(seat);
    }
    burst
}

// Makes the quota of Steps, in bursts of at most `longest`, unless the gate, a refusal or the power
// switch stops the worker.
fn work<L: Ledger, M: Ledger, T: Tlb, D: Console, R: Wait, G: Gate>(
    rt: &R,
    book: &Mutex<Book<L, M, T, D>>,
    gate: &G,
    seat: Seat<L, M>,
    quota: u32,
    longest: u32,
) -> Worked<L, M>
    requires { 1 ≤ longest }
    ensures { Works seat.processor seat.count quota result.seat result.made result.stop }
{
    let mut seat = seat;
    let p = seat.processor();
    let mut made = 0;
    while made < quota {
        if !gate.pass(p, made) {
            let stop = Some(WorkerStop::Held { p, k: made });
            return Worked { seat, made, stop };
        }
        let burst = take_turn(rt, book, &mut seat, longest.min(quota - made));
        made += burst.made;
        match burst.refusal {
            None => {}
            Some(Refusal::Off) => {
                let stop = None;
                return Worked { seat, made, stop };
            }
            Some(_) => {
                let stop = Some(WorkerStop::Worn);
                return Worked { seat, made, stop };
            }
        }
    }
    Worked {
        seat,
        made,
        stop: None,
    }
}

// The same, once all workers are started.
fn work_from<L: Ledger, M: Ledger, T: Tlb, D: Console, R: Wait, G: Gate>(
    rt: &R,
    book: &Mutex<Book<L, M, T, D>>,
    gate: &G,
    line: &StartLine,
    seat: Seat<L, M>,
    quota: u32,
    longest: u32,
) -> Worked<L, M>
    requires { 1 ≤ longest }
    ensures { Works seat.processor seat.count quota result.seat result.made result.stop }
{
    line.wait(rt);
    work(rt, book, gate, seat, quota, longest)
}

// Starts a worker for each seat, which waits at the line.
fn start_all<'s, E, L, M, T, D, R, G>(
    scope: &Scope<'s, E>,
    rt: &'s R,
    alloc: Global,
    book: &'s Mutex<Book<L, M, T, D>>,
    gate: &'s G,
    line: &'s StartLine,
    seats: Vec<Seat<L, M>>,
    quotas: &[u32],
    longest: u32,
) -> Result<Vec<PromisedHandle<Worked<L, M>, Task>>, Cause>
where
    L: Ledger + Send + Sync + 's,
    M: Ledger + Send + Sync + 's,
    T: Tlb + Send + 's,
    D: Console + Send + 's,
    R: Wait + Sync,
    G: Gate + Sync,
    requires seats { vec_len seats ≡ length quotas.now }
    requires longest { 1 ≤ longest }
    ensures err { IfErr result (λ cause. IsOfRun cause) }
    ensures len { IfOk result (λ v. vec_len v ≡ length quotas.now) }
    ensures each { IfOk result (λ v. (k : ℕ) (d : _) (e : SeatState) → k < length quotas.now
        → (slice_index_or v.items k d).promise
        ≡ task_of (slice_index_or seats.items k e) (slice_index quotas.now k)) }
{
    let mut seats = seats;
    let Ok(mut handles) = Vec::with_capacity(alloc, quotas.len()) else {
        return Err(Cause::NoMemory);
    };
    for i in 0..quotas.len() {
        let quota = quotas[i];
        let seat = seats.remove(0);
        let task = Task {
            processor: seat.processor(),
            before: seat.count(),
            quota,
        };
        let Ok(handle) = scope.spawn_with(
            task,
            move || work_from(rt, book, gate, line, seat, quota, longest),
        ) else {
            return Err(Cause::NoThread);
        };
        handles.push_reserved(handle);
    }
    Ok(handles)
}

// Joins all workers.
fn join_all<L, M, R>(
    rt: &R,
    handles: Vec<PromisedHandle<Worked<L, M>, Task>>,
) -> Result<Vec<Worked<L, M>>, Cause>
where
    L: Ledger,
    M: Ledger,
    R: Threads,
    ensures err { IfErr result (λ cause. IsOfRun cause) }
    ensures len { IfOk result (λ v. vec_len v ≡ vec_len handles) }
    ensures each { IfOk result (λ v. (k : ℕ) (d e : _) → k < vec_len handles
        → KeepsTask (slice_index_or handles.items k e).promise (slice_index_or v.items k d).seat
        (slice_index_or v.items k d).made (slice_index_or v.items k d).stop) }
{
    match thread::join_promised(rt, handles) {
        Ok(all) => Ok(all),
        Err(_) => Err(Cause::NoMemory),
    }
}

/// Runs a worker for each seat, and joins them all. Each holds the lock for at most `longest` Steps
/// at a time, and none makes a Step before all are started, or one can't be.
pub(crate) fn run_workers<L, M, T, D, R, G>(
    rt: &R,
    alloc: Global,
    book: &Mutex<Book<L, M, T, D>>,
    gate: &G,
    line: &StartLine,
    seats: Vec<Seat<L, M>>,
    quotas: &[u32],
    longest: u32,
) -> Result<Vec<Worked<L, M>>, Cause>
where
    L: Ledger + Send + Sync,
    M: Ledger + Send + Sync,
    T: Tlb + Send,
    D: Console + Send,
    R: Threads + Wait + Sync,
    G: Gate + Sync,
    requires seats { vec_len seats ≡ length quotas.now }
    requires longest { 1 ≤ longest }
    ensures err { IfErr result (λ cause. IsOfRun cause) }
    ensures len { IfOk result (λ v. vec_len v ≡ length quotas.now) }
    ensures each { IfOk result (λ v. (k : ℕ) (d : _) (e : SeatState) → k < length quotas.now
        → KeepsTask (task_of (slice_index_or seats.items k e) (slice_index quotas.now k))
        (slice_index_or v.items k d).seat (slice_index_or v.items k d).made
        (slice_index_or v.items k d).stop) }
{
    thread::scope(
        thread::scope_env(),
        rt,
        |scope| -> Result<Vec<Worked<L, M>>, Cause>
            requires seats { vec_len seats ≡ length quotas.now }
            requires longest { 1 ≤ longest }
            ensures err { IfErr result (λ cause. IsOfRun cause) }
            ensures all { IfOk result (λ v. (vec_len v ≡ length quotas.entry.now)
                × ((k : ℕ) (d : _) (e : SeatState) → k < length quotas.entry.now
                → KeepsTask
                (task_of (slice_index_or seats.items k e) (slice_index quotas.entry.now k))
                (slice_index_or v.items k d).seat (slice_index_or v.items k d).made
                (slice_index_or v.items k d).stop)) }
        {
            let started = start_all(scope, rt, alloc, book, gate, line, seats, quotas, longest);
            line.open(rt);
            let handles = started?;
            let all = join_all(rt, handles)?;
            Ok(all)
        },
    )
}
