//! One machine behind a lock, and its processors in threads. Which Step comes first is the host's
//! choice, so a row says only what holds of all interleavings.

ghost use Rattle.std.specs.Prelude.{◌≡◌, length};

use super::left::Left::{Count, Entries, Memory, Output};
use super::left::{Left, check_log, compare, make};
use super::same;
use m161::{Console, Machine, Tlb};
use m161_machine::Event::{Done, Key, Step};
use m161_machine::{Conf, Entry, Event, LinkUnit, Outcome, Refusal, Start};
use m161_test_support::files::file_at;
use m161_test_support::kernel::kernel_file;
use m161_test_support::outcomes::{Answer, ENTRY, IDLE, RAN, TAKEN, Times};
use m161_threads::{Cause, Gate, Report, RunFault, Seat, run};
use std::alloc::Global;
use std::marker::Brand;
use std::process::Abort;
use std::sync::Wait;
use std::sync::atomic::{AtomicBool, AtomicU32, Ordering};
use std::sync::ledger::{Blank, Ledger};
use std::test::Fail;
use std::thread;
use std::thread::Threads;
use std::time::{Clock, Duration};

pub(crate) type Locked<L, M> = m161_threads::Locked<L, M, Tlb, Console>;

/// `beq $0, $0, 0x80000200`, and `nop` in its slot.
pub(crate) const LOOP: [u32; 2] = [0x1000_ffff, 0x0000_0000];

/// `lui $8, 0xbfff`; `sw $0, 32264($8)`.
pub(crate) const POWER_OFF: [u32; 2] = [0x3c08_bfff, 0xad00_7e08];

/// `lui $8, 0xbfe0`; `ori $9, $0, 0x0041`; `sw $9, 0($8)`, to the console's CHAR.
pub(crate) const SEND: [u32; 3] = [0x3c08_bfe0, 0x3409_0041, 0xad09_0000];

/// The file of these words, and its machine.
pub(crate) fn boot(
    alloc: Global,
    words: &[u32],
    processors: u32,
    log: u32,
) -> Result<(Vec<u8>, Machine), Fail> {
    let file = file_at(alloc, ENTRY, words)?;
    let conf = Conf {
        ram: 4096,
        processors,
        log,
        link: LinkUnit::Word,
        strict: false,
    };
    let machine = Machine::boot(alloc, &file, conf)?;
    Ok((file, machine))
}

/// Runs a machine in threads that stays on: the machine, and why there is no report, where there
/// is none. A report has to say that all quotas were made.
pub(crate) fn run_on<R: Threads + Wait + Sync + Abort + AllocGlobal, G: Gate + Sync>(
    rt: &R,
    name: &str,
    machine: Machine,
    quotas: &[u32],
    gate: &G,
) -> (Machine, Option<Cause>) {
    match run(rt, rt.alloc(), machine, quotas, gate) {
        Ok(
            Report {
                machine,
                counts,
                off,
            },
        ) => {
            same(rt, (name, counts.as_slice()), (name, quotas));
            same(rt, (name, off), (name, false));
            (machine, None)
        }
        Err(RunFault { cause, machine }) => (machine, Some(cause)),
    }
}

/// A gate at which each of two processors, before its Step 1, waits for the other one.
#[derive(Drop)]
struct Meeting<'a, R: Clock> {
    clock: &'a R,
    first: AtomicBool,
    second: AtomicBool,
}

impl<R: Clock> Gate for Meeting<'_, R> {
    fn pass(&self, p: u32, k: u32) -> bool {
        if k != 1 {
            return true;
        }
        let (mine, other) = if p == 0 {
            (&self.first, &self.second)
        } else {
            (&self.second, &self.first)
        };
        mine.store(true, Ordering::SeqCst);
        for _ in 0..10_000 {
            if other.load(Ordering::SeqCst) {
                return true;
            }
            thread::sleep(self.clock, Duration::from_millis(1));
        }
        false
    }
}

#[test]
fn two_workers(rt: HostRuntime) -> Result<(), Fail> {
    let name = "two workers at a time";
    let (file, machine) = boot(rt.alloc(), &LOOP, 2, 200)?;
    let gate = Meeting {
        clock: &rt,
        first: AtomicBool::new(false),
        second: AtomicBool::new(false),
    };
    let (machine, cause) = run_on(&rt, name, machine, &[100, 100], &gate);
    same(&rt, cause, None);
    let left = [(0, Count(100)), (1, Count(100)), (0, Entries(200))];
    compare(&rt, name, &machine, &left);
    check_log(&rt, name, &file, &machine)
}

/// A gate that is closed for one Step alone, and notes that it was asked.
#[derive(Drop)]
struct OneClosed {
    step: (u32, u32),
    asked: AtomicU32,
}

/// A gate that is closed for a Step: its processor, and its number.
fn gate_but(step: (u32, u32)) -> OneClosed {
    OneClosed {
        step,
        asked: AtomicU32::new(0),
    }
}

impl Gate for OneClosed {
    fn pass(&self, p: u32, k: u32) -> bool {
        self.asked.fetch_add(1, Ordering::SeqCst);
        (p, k) != self.step
    }
}

/// A run of `LOOP` with quotas, and a gate that is closed for one Step.
struct Limited {
    name: &'static str,
    processors: u32,
    log: u32,
    quotas: &'static [u32],
    closed: (u32, u32),
    /// Why there is no report.
    cause: Option<Cause>,
    /// Whether the gate is asked at all.
    asked: bool,
    left: &'static [(u32, Left)],
}

/// No Step that is made.
const NONE: (u32, u32) = (9, 0);

static LIMITED: [Limited; 4] = [
    Limited {
        name: "one quota for two processors",
        processors: 2,
        log: 16,
        quotas: &[5],
        closed: NONE,
        cause: Some(Cause::BadQuotas),
        asked: false,
        left: &[(0, Count(0)), (1, Count(0)), (0, Entries(0))],
    },
    Limited {
        name: "one processor",
        processors: 1,
        log: 16,
        quotas: &[5],
        closed: NONE,
        cause: None,
        asked: true,
        left: &[(0, Count(5)), (0, Entries(5))],
    },
    Limited {
        name: "quotas of no Steps",
        processors: 2,
        log: 16,
        quotas: &[0, 0],
        closed: NONE,
        cause: None,
        asked: false,
        left: &[(0, Count(0)), (1, Count(0)), (0, Entries(0))],
    },
    Limited {
        name: "a closed gate",
        processors: 2,
        log: 16,
        quotas: &[5, 5],
        closed: (1, 3),
        cause: Some(Cause::Held { p: 1, k: 3 }),
        asked: true,
        left: &[(0, Count(5)), (1, Count(3)), (0, Entries(8))],
    },
];

#[test]
fn quotas(rt: HostRuntime) -> Result<(), Fail> {
    for row in &LIMITED {
        let (file, machine) = boot(rt.alloc(), &LOOP, row.processors, row.log)?;
        let gate = gate_but(row.closed);
        let (machine, cause) = run_on(&rt, row.name, machine, row.quotas, &gate);
        same(&rt, (row.name, cause), (row.name, row.cause));
        let asked = gate.asked.load(Ordering::SeqCst) > 0;
        same(&rt, (row.name, asked), (row.name, row.asked));
        compare(&rt, row.name, &machine, row.left);
        check_log(&rt, row.name, &file, &machine)?;
    }
    Ok(())
}

#[test]
fn causes(rt: HostRuntime) {
    for (cause, name) in [
        (Cause::BadQuotas, "BadQuotas"),
        (Cause::BadBurst, "BadBurst"),
        (Cause::NoMemory, "NoMemory"),
        (Cause::NoThread, "NoThread"),
        (Cause::Held { p: 1, k: 3 }, "Held"),
        (Cause::Worn, "Worn"),
        (Cause::Miscount, "Miscount"),
        (Cause::Swapped, "Swapped"),
    ] {
        same(&rt, cause.name(), name);
    }
}

/// The sample's Steps after which both processors run.
static FIRST_STEPS: [Times; 1] = [(Step(0), 11, RAN)];

/// What the sample leaves where it has switched the machine off.
static SAMPLE_LEFT: [(u32, Left); 1] = [(0, Memory(0x3010, Some(7)))];

#[test]
fn sample_in_threads(rt: HostRuntime) -> Result<(), Fail> {
    let name = "the sample in threads";
    let file = kernel_file(rt.alloc())?;
    let conf = Conf {
        ram: 1_048_576,
        processors: 2,
        log: 65_536,
        link: LinkUnit::Word,
        strict: false,
    };
    let mut machine = Machine::boot(rt.alloc(), &file, conf)?;
    make(&rt, name, &mut machine, &FIRST_STEPS);
    let gate = gate_but(NONE);
    match run(&rt, rt.alloc(), machine, &[2000, 2000], &gate) {
        Ok(report) => {
            if report.off {
                compare(&rt, name, &report.machine, &SAMPLE_LEFT);
            } else {
                same(&rt, report.counts.as_slice(), [2000, 2000].as_slice());
            }
            check_log(&rt, name, &file, &report.machine)
        }
        Err(fault) => Err(Fail::new(fault.cause)),
    }
}

/// Events of a machine of two processors behind a lock, made at its book, each with its answer.
struct Locking {
    name: &'static str,
    words: &'static [u32],
    /// Words that it isn't booted from.
    other: &'static [u32],
    events: &'static [(Event, Answer)],
    log: &'static [Entry],
    left: &'static [(u32, Left)],
}

static LOCKINGS: [Locking; 3] = [
    Locking {
        name: "two Steps and a key",
        words: &LOOP,
        other: &POWER_OFF,
        events: &[
            (Step(0), RAN),
            (Step(1), IDLE),
            (Key(0x41), TAKEN),
            (Done, Err(Refusal::NothingSent)),
        ],
        log: &[
            Entry {
                event: Step(0),
                outcome: Outcome::Ran,
            },
            Entry {
                event: Step(1),
                outcome: Outcome::Idle,
            },
            Entry {
                event: Key(0x41),
                outcome: Outcome::Taken,
            },
        ],
        left: &[(0, Count(1)), (1, Count(1)), (0, Entries(3))],
    },
    Locking {
        name: "a byte sent",
        words: &SEND,
        other: &POWER_OFF,
        events: &[
            (Step(0), RAN),
            (Step(0), RAN),
            (Step(0), RAN),
            (Done, TAKEN),
        ],
        log: &[
            Entry {
                event: Step(0),
                outcome: Outcome::Ran,
            },
            Entry {
                event: Step(0),
                outcome: Outcome::Ran,
            },
            Entry {
                event: Step(0),
                outcome: Outcome::Ran,
            },
            Entry {
                event: Done,
                outcome: Outcome::Taken,
            },
        ],
        left: &[(0, Count(3)), (1, Count(0)), (0, Output(1, Some(0x41)))],
    },
    Locking {
        name: "off",
        words: &POWER_OFF,
        other: &LOOP,
        events: &[
            (Step(0), RAN),
            (Step(0), Ok(Outcome::PoweredOff)),
            (Step(1), Err(Refusal::Off)),
            (Key(0x41), Err(Refusal::Off)),
            (Done, Err(Refusal::Off)),
        ],
        log: &[
            Entry {
                event: Step(0),
                outcome: Outcome::Ran,
            },
            Entry {
                event: Step(0),
                outcome: Outcome::PoweredOff,
            },
        ],
        left: &[(0, Count(2)), (1, Count(0)), (0, Entries(2))],
    },
];

/// An event at a locked machine's book, a Step at its processor's seat; `None` without a seat.
fn event_in<L: Ledger, M: Ledger>(
    rt: &impl Wait,
    locked: &Locked<L, M>,
    seats: &mut Vec<Seat<L, M>>,
    event: Event,
) -> Option<Answer> {
    let mut book = locked.book().lock(rt);
    match event {
        Step(p) => Some(book.step_in(seats.get_mut(p as usize)?)),
        Key(byte) => Some(book.key_in(byte)),
        Done => Some(book.done_in()),
    }
}

/// Fails the test where the seats aren't those of two processors without Steps.
fn check_seats<L: Ledger, M: Ledger>(rt: &impl Abort, seats: &Vec<Seat<L, M>>) {
    same(rt, seats.len(), 2);
    for (seat, processor) in seats.iter().zip(0..2u32) {
        same(rt, (seat.processor(), seat.count()), (processor, 0));
    }
}

/// Puts a machine behind a lock, makes events there, and gives the machine back.
fn make_locked<L: Ledger, M: Ledger, R: Wait + Abort + AllocGlobal>(
    rt: &R,
    steps: Blank,
    offs: Blank,
    machine: Machine,
    row: &Locking,
) -> Result<Machine, Fail>
    requires steps { (steps.name ≡ L.name) × (steps.parts ≡ L.parts)
        × (L.parts ≡ length machine.state.processors) }
    requires offs { (offs.name ≡ M.name) × (offs.parts ≡ M.parts)
        × (M.parts ≡ length machine.state.processors) }
{
    let (locked, mut seats) = match Locked::<L, M>::new(rt.alloc(), steps, offs, machine) {
        Ok(parts) => parts,
        Err((_, error)) => return Err(error.into()),
    };
    check_seats(rt, &seats);
    for (event, answer) in row.events {
        let found = event_in(rt, &locked, &mut seats, *event);
        same(
            rt,
            (row.name, *event, found),
            (row.name, *event, Some(*answer)),
        );
    }
    same(
        rt,
        locked.book().lock(rt).machine().log_len(),
        row.log.len(),
    );
    match locked.finish(seats) {
        Ok(machine) => Ok(machine),
        Err(wrong) => Err(Fail::new(wrong.processor)),
    }
}

/// The same with ledgers of its own.
fn make_branded<R: Wait + Abort + AllocGlobal>(
    rt: &R,
    machine: Machine,
    row: &Locking,
) -> Result<Machine, Fail> {
    let steps = Blank::new(u64::from(machine.processors()));
    let offs = Blank::new(u64::from(machine.processors()));
    make_locked::<Brand, Brand, R>(rt, steps, offs, machine, row)
}

/// What a machine of other words than `LOOP` or of the same was booted from.
fn start_of(alloc: Global, words: &[u32]) -> Result<Start, Fail> {
    let (_, machine) = boot(alloc, words, 2, 16)?;
    Ok(machine.copy_start(alloc)?)
}

#[test]
fn locked_book(rt: HostRuntime) -> Result<(), Fail> {
    for row in &LOCKINGS {
        let (file, machine) = boot(rt.alloc(), row.words, 2, 16)?;
        let start = machine.copy_start(rt.alloc())?;
        let machine = make_branded(&rt, machine, row)?;
        let log = machine.copy_log(rt.alloc())?;
        same(&rt, (row.name, log.as_slice()), (row.name, row.log));
        compare(&rt, row.name, &machine, row.left);
        check_log(&rt, row.name, &file, &machine)?;
        same(&rt, (row.name, machine.starts_as(&start)), (row.name, true));
        let other = start_of(rt.alloc(), row.other)?;
        same(
            &rt,
            (row.name, machine.starts_as(&other)),
            (row.name, false),
        );
    }
    Ok(())
}

#[test]
fn other_starts(rt: HostRuntime) -> Result<(), Fail> {
    let (_, machine) = boot(rt.alloc(), &LOOP, 2, 16)?;
    for (words, is_same) in [(&LOOP, true), (&POWER_OFF, false)] {
        let start = start_of(rt.alloc(), words)?;
        same(&rt, machine.starts_as(&start), is_same);
    }
    Ok(())
}
