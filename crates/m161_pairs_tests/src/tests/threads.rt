//! Two processors in threads, and at a locked book.

ghost use Rattle.std.specs.Prelude.{◌≡◌, length};

use super::same;
use m161_bus::Console;
use m161_console::{PlainConsole, RingConsole};
use m161_machine::Event::{Done, Key, Step};
use m161_machine::{Conf, Event, LinkUnit, Machine, Refusal, Tlb};
use m161_steplog::{Comparison, verify};
use m161_test_support::files::file_at;
use m161_test_support::outcomes::{Answer, ENTRY, IDLE, RAN, TAKEN};
use m161_threads::{Gate, Locked, Seat, run};
use m161_tlb_index::Index;
use m161_tlb_scan::Scan;
use std::alloc::{AllocGlobal, Global};
use std::marker::Brand;
use std::process::Abort;
use std::sync::Wait;
use std::sync::ledger::{Blank, Ledger};
use std::test::Fail;
use std::thread::Threads;

/// `beq $0, $0, 0x80000200`, and `nop` in its slot.
const LOOP: [u32; 2] = [0x1000_ffff, 0x0000_0000];

/// A gate that is always open.
#[derive(Drop)]
struct Open;

impl Gate for Open {
    fn pass(&self, _p: u32, _k: u32) -> bool {
        true
    }
}

/// The file of `LOOP`, and its machine of two processors.
fn boot<T: Tlb + Drop, D: Console + Drop>(alloc: Global) -> Result<(Vec<u8>, Machine<T, D>), Fail> {
    let file = file_at(alloc, ENTRY, &LOOP)?;
    let conf = Conf {
        ram: 4096,
        processors: 2,
        log: 200,
        link: LinkUnit::Word,
        strict: false,
    };
    let machine = Machine::boot(alloc, &file, conf)?;
    Ok((file, machine))
}

fn workers_over<T: Tlb + Drop + Send, D: Console + Drop + Send, R>(rt: &R) -> Result<(), Fail>
where
    R: Threads + Wait + Sync + Abort + AllocGlobal,
{
    let (file, machine) = boot::<T, D>(rt.alloc())?;
    match run(rt, rt.alloc(), machine, &[100, 100], &Open) {
        Ok(report) => {
            same(rt, report.counts.as_slice(), [100, 100].as_slice());
            same(rt, report.off, false);
            check_log(rt, &file, &report.machine)
        }
        Err(fault) => Err(Fail::new(fault.cause)),
    }
}

/// Fails the test where a log isn't one of 200 events that a machine of the same file repeats.
fn check_log<T: Tlb + Drop, D: Console + Drop>(
    rt: &(impl Abort + AllocGlobal),
    file: &[u8],
    machine: &Machine<T, D>,
) -> Result<(), Fail> {
    let log = machine.copy_log(rt.alloc())?;
    same(rt, log.len(), 200);
    let verdict = verify::<T, D>(rt.alloc(), file, machine.conf(), &log)?;
    same(rt, verdict, Comparison::Agrees);
    Ok(())
}

#[test]
fn pairs_workers(rt: HostRuntime) -> Result<(), Fail> {
    workers_over::<Scan, PlainConsole, HostRuntime>(&rt)?;
    workers_over::<Scan, RingConsole, HostRuntime>(&rt)?;
    workers_over::<Index, PlainConsole, HostRuntime>(&rt)?;
    workers_over::<Index, RingConsole, HostRuntime>(&rt)
}

/// Events that are made at the book, each with its answer.
static EVENTS: [(Event, Answer); 4] = [
    (Step(0), RAN),
    (Step(1), IDLE),
    (Key(0x41), TAKEN),
    (Done, Err(Refusal::NothingSent)),
];

/// An event at a locked machine's book, a Step at its processor's seat; `None` without a seat.
fn event_in<L: Ledger, M: Ledger, T: Tlb + Drop, D: Console + Drop>(
    rt: &impl Wait,
    locked: &Locked<L, M, T, D>,
    seats: &mut Vec<Seat<L, M>>,
    event: Event,
) -> Option<Answer> {
    let mut book = locked.book().lock(rt);
    match event {
        Step(p) => Some(book.step_in(seats.get_mut(p as usize)?)),
        Key(byte) => Some(book.key_in(byte)),
        Done => Some(book.done_in()),
    }
}

/// Puts a machine behind a lock, makes the events there, and gives the machine back.
fn make_locked<
    L: Ledger,
    M: Ledger,
    T: Tlb + Drop,
    D: Console + Drop,
    R: Wait + Abort + AllocGlobal,
>(rt: &R, steps: Blank, offs: Blank, machine: Machine<T, D>) -> Result<Machine<T, D>, Fail>
    requires steps { (steps.name ≡ L.name) × (steps.parts ≡ L.parts)
        × (L.parts ≡ length machine.state.processors) }
    requires offs { (offs.name ≡ M.name) × (offs.parts ≡ M.parts)
        × (M.parts ≡ length machine.state.processors) }
{
    let (locked, mut seats) = match Locked::<L, M, T, D>::new(rt.alloc(), steps, offs, machine) {
        Ok(parts) => parts,
        Err((_, error)) => return Err(error.into()),
    };
    same(rt, seats.len(), 2);
    for (event, answer) in &EVENTS {
        let found = event_in(rt, &locked, &mut seats, *event);
        same(rt, (*event, found), (*event, Some(*answer)));
    }
    match locked.finish(seats) {
        Ok(machine) => Ok(machine),
        Err(wrong) => Err(Fail::new(wrong.processor)),
    }
}

/// The same with ledgers of its own.
fn make_branded<T: Tlb + Drop, D: Console + Drop, R: Wait + Abort + AllocGlobal>(
    rt: &R,
    machine: Machine<T, D>,
) -> Result<Machine<T, D>, Fail> {
    let steps = Blank::new(u64::from(machine.processors()));
    let offs = Blank::new(u64::from(machine.processors()));
    make_locked::<Brand, Brand, T, D, R>(rt, steps, offs, machine)
}

fn locked_over<T: Tlb + Drop, D: Console + Drop, R: Wait + Abort + AllocGlobal>(
    rt: &R,
) -> Result<(), Fail> {
    let (_, machine) = boot::<T, D>(rt.alloc())?;
    let start = machine.copy_start(rt.alloc())?;
    let machine = make_branded(rt, machine)?;
    same(rt, machine.log_len(), 3);
    assert!(rt; machine.processors() == 2);
    same(rt, (machine.count(0), machine.count(1)), (1, 1));
    same(rt, machine.starts_as(&start), true);
    Ok(())
}

#[test]
fn pairs_locked(rt: HostRuntime) -> Result<(), Fail> {
    locked_over::<Scan, PlainConsole, HostRuntime>(&rt)?;
    locked_over::<Scan, RingConsole, HostRuntime>(&rt)?;
    locked_over::<Index, PlainConsole, HostRuntime>(&rt)?;
    locked_over::<Index, RingConsole, HostRuntime>(&rt)
}
