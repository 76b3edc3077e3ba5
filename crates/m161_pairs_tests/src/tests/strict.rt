//! Strict machines.

use super::same;
use m161_bus::Console;
use m161_console::{PlainConsole, RingConsole};
use m161_debug::{Session, StopReason};
use m161_machine::Event::Step;
use m161_machine::{Conf, Conflict, Entry, Event, Machine, Outcome, Refusal, Register, Tlb};
use m161_test_support::files::file_at;
use m161_test_support::outcomes::{Answer, ENTRY, RAN, SMALLEST};
use m161_tlb_index::Index;
use m161_tlb_scan::Scan;
use std::alloc::{AllocError, AllocGlobal, Global};
use std::process::Abort;
use std::test::Fail;

/// Writes page 00401 with identifier 5 into row 5, and then page 00401 with identifier 9 into row 3,
/// with the word of the thirteenth instruction in EntryLo.
const fn program(thirteenth: u32) -> [u32; 15] {
    [
        0x3408_0500, // ori $8, $0, 0x0500
        0x4088_0000, // mtc0 $8, $0
        0x3c09_0040, // lui $9, 0x0040
        0x3529_1140, // ori $9, $9, 0x1140
        0x4089_5000, // mtc0 $9, $10
        0x4080_1000, // mtc0 $0, $2
        0x4200_0002, // tlbwi
        0x3408_0300, // ori $8, $0, 0x0300
        0x4088_0000, // mtc0 $8, $0
        0x3c09_0040, // lui $9, 0x0040
        0x3529_1240, // ori $9, $9, 0x1240
        0x4089_5000, // mtc0 $9, $10
        thirteenth,
        0x408a_1000, // mtc0 $10, $2
        0x4200_0002, // tlbwi
    ]
}

/// `ori $10, $0, 0x0100`: the row has G.
const GLOBAL: u32 = 0x340a_0100;

/// `ori $10, $0, 0`: it hasn't.
const PRIVATE: u32 = 0x340a_0000;

/// The conflict of row 3 with row 5.
const CONFLICT: Outcome = Outcome::Conflict { row: 3, other: 5 };

/// Whether the machine is strict, the thirteenth instruction, the fifteenth Step's outcome, and the
/// page of row 3 after it.
static CASES: [(bool, u32, Outcome, u32); 4] = [
    (true, GLOBAL, CONFLICT, 0x8_0003),
    (true, PRIVATE, Outcome::Ran, 0x0_0401),
    (false, GLOBAL, Outcome::Ran, 0x0_0401),
    (false, PRIVATE, Outcome::Ran, 0x0_0401),
];

/// What switches the machine off, and what it answers then to one Step more.
fn end_of(outcome: Outcome) -> (Option<Conflict>, Answer) {
    if outcome == CONFLICT {
        let conflict = Conflict {
            processor: 0,
            row: 3,
            other: 5,
        };
        (Some(conflict), Err(Refusal::Off))
    } else {
        (None, RAN)
    }
}

fn conflict_over<T: Tlb + Drop, D: Console + Drop>(
    rt: &(impl Abort + AllocGlobal),
) -> Result<(), Fail> {
    for (strict, thirteenth, outcome, page) in &CASES {
        let file = file_at(rt.alloc(), ENTRY, &program(*thirteenth))?;
        let conf = Conf {
            strict: *strict,
            ..SMALLEST
        };
        let mut machine: Machine<T, D> = Machine::boot(rt.alloc(), &file, conf)?;
        for _step in 0..14u32 {
            same(rt, machine.step(0), RAN);
        }
        // conflict
        same(rt, machine.step(0), Ok(*outcome));
        assert!(rt; machine.processors() == 1);
        same(rt, machine.row(0, 3).page.number(), *page);
        let (conflict, next) = end_of(*outcome);
        same(rt, machine.conflict(), conflict);
        same(rt, machine.is_off(), conflict.is_some());
        same(rt, machine.step(0), next);
    }
    Ok(())
}

#[test]
fn pairs_conflict(rt: HostRuntime) -> Result<(), Fail> {
    conflict_over::<Scan, PlainConsole>(&rt)?;
    conflict_over::<Scan, RingConsole>(&rt)?;
    conflict_over::<Index, PlainConsole>(&rt)?;
    conflict_over::<Index, RingConsole>(&rt)
}

/// More Steps than the machine makes.
static STEPS: [Event; 20] = [Step(0); 20];

fn stop_over<T: Tlb + Drop, D: Console + Drop>(
    rt: &(impl Abort + AllocGlobal),
) -> Result<(), Fail> {
    let file = file_at(rt.alloc(), ENTRY, &program(GLOBAL))?;
    let conf = Conf {
        strict: true,
        ..SMALLEST
    };
    let machine: Machine<T, D> = Machine::boot(rt.alloc(), &file, conf)?;
    let mut session = Session::new(machine);
    same(rt, session.go(&STEPS), StopReason::Conflict(14));
    let log = session.machine().copy_log(rt.alloc())?;
    let last = Entry {
        event: Step(0),
        outcome: CONFLICT,
    };
    same(rt, (log.len(), log.get(14).copied()), (15, Some(last)));
    Ok(())
}

#[test]
fn pairs_conflict_stops(rt: HostRuntime) -> Result<(), Fail> {
    stop_over::<Scan, PlainConsole>(&rt)?;
    stop_over::<Scan, RingConsole>(&rt)?;
    stop_over::<Index, PlainConsole>(&rt)?;
    stop_over::<Index, RingConsole>(&rt)
}

/// `tlbwr`.
const WRITE_RANDOM: u32 = 0x4200_0006;

/// Five Steps, of which the fifth writes page 00401 with identifier 5, private, into row 59: Random
/// is 63 at the first Step, and one less at each Step after it.
const FIRST: [u32; 5] = [
    0x3c09_0040, // lui $9, 0x0040
    0x3529_1140, // ori $9, $9, 0x1140
    0x4089_5000, // mtc0 $9, $10
    0x4080_1000, // mtc0 $0, $2
    WRITE_RANDOM,
];

/// `nop`.
const NOP: u32 = 0;

/// `ori $9, $9, 0x0080`: identifier 7, where it was 5.
const SEVEN: u32 = 0x3529_0080;

/// `ori $9, $9, 0x0200`: identifier 15, where it was 7.
const FIFTEEN: u32 = 0x3529_0200;

/// `mtc0 $9, $10`: EntryHi.
const HIGH: u32 = 0x4089_5000;

/// `mtc0 $10, $2`: EntryLo.
const LOW: u32 = 0x408a_1000;

/// Words behind `FIRST`, the last of which is a `tlbwr`; its outcome on a strict machine, the row
/// that it is to write, and that row's page after it, on a strict machine and on another one.
struct AtRandom {
    words: &'static [u32],
    outcome: Outcome,
    row: u8,
    pages: (u32, u32),
}

static AT_RANDOM: [AtRandom; 5] = [
    // Step 8 writes another identifier into row 56, and Step 11 a row with G: of the two rows with
    // its page, the lowest is named.
    AtRandom {
        words: &[SEVEN, HIGH, WRITE_RANDOM, GLOBAL, LOW, WRITE_RANDOM],
        outcome: Outcome::Conflict { row: 53, other: 56 },
        row: 53,
        pages: (0x8_0035, 0x0_0401),
    },
    // The same without G: row 59 has another identifier.
    AtRandom {
        words: &[SEVEN, HIGH, NOP, PRIVATE, LOW, WRITE_RANDOM],
        outcome: Outcome::Ran,
        row: 53,
        pages: (0x0_0401, 0x0_0401),
    },
    // A third identifier.
    AtRandom {
        words: &[SEVEN, HIGH, WRITE_RANDOM, FIFTEEN, HIGH, WRITE_RANDOM],
        outcome: Outcome::Ran,
        row: 53,
        pages: (0x0_0401, 0x0_0401),
    },
    // The same identifier again, at once.
    AtRandom {
        words: &[WRITE_RANDOM],
        outcome: Outcome::Conflict { row: 58, other: 59 },
        row: 58,
        pages: (0x8_003a, 0x0_0401),
    },
    // A page of the rows at the start, 80005 with identifier 0: `lui $9, 0x8000`, `ori $9, $9,
    // 0x5000`.
    AtRandom {
        words: &[0x3c09_8000, 0x3529_5000, HIGH, WRITE_RANDOM],
        outcome: Outcome::Conflict { row: 55, other: 5 },
        row: 55,
        pages: (0x8_0037, 0x8_0005),
    },
];

/// A file of `FIRST` and words behind it.
fn file_behind_first(alloc: Global, words: &[u32]) -> Result<Vec<u8>, AllocError> {
    let mut all = Vec::from_slice(alloc, &FIRST)?;
    all.extend_from_slice(words)?;
    file_at(alloc, ENTRY, &all)
}

/// Checks the Step that writes a row at random, the last of so many: its outcome, the machine's
/// end, and what it leaves of the processor, which goes on, ticks and is counted in each case.
fn check_random<T: Tlb + Drop, D: Console + Drop>(
    rt: &impl Abort,
    machine: &mut Machine<T, D>,
    steps: u32,
    outcome: Outcome,
    row: u8,
    page: u32,
) {
    same(rt, machine.step(0), Ok(outcome));
    assert!(rt; machine.processors() == 1);
    assert!(rt; row < 64);
    same(rt, (row, machine.row(0, row).page.number()), (row, page));
    same(rt, machine.pc(0), ENTRY.wrapping_add(steps.wrapping_mul(4)));
    same(rt, machine.count(0), u64::from(steps));
    let next = if row == 8 {
        63
    } else {
        u32::from(row).wrapping_sub(1)
    };
    same(rt, machine.cop(0, Register::Random), next.wrapping_mul(256));
    let conflict = match outcome {
        Outcome::Conflict { row, other } => Some(Conflict {
            processor: 0,
            row,
            other,
        }),
        _ => None,
    };
    same(rt, machine.conflict(), conflict);
    same(rt, machine.is_off(), conflict.is_some());
}

/// Makes all of so many Steps but the last, each of which executes an instruction.
fn run<T: Tlb + Drop, D: Console + Drop>(rt: &impl Abort, machine: &mut Machine<T, D>, steps: u32) {
    for _step in 1..steps {
        same(rt, machine.step(0), RAN);
    }
}

fn random_over<T: Tlb + Drop, D: Console + Drop>(
    rt: &(impl Abort + AllocGlobal),
) -> Result<(), Fail> {
    for case in &AT_RANDOM {
        let file = file_behind_first(rt.alloc(), case.words)?;
        let steps = u32::try_from(case.words.len())?.wrapping_add(5);
        for strict in [true, false] {
            let conf = Conf { strict, ..SMALLEST };
            let mut machine: Machine<T, D> = Machine::boot(rt.alloc(), &file, conf)?;
            run(rt, &mut machine, steps);
            let (outcome, page) = if strict {
                (case.outcome, case.pages.0)
            } else {
                (Outcome::Ran, case.pages.1)
            };
            check_random(rt, &mut machine, steps, outcome, case.row, page);
        }
    }
    Ok(())
}

#[test]
fn pairs_conflict_at_random(rt: HostRuntime) -> Result<(), Fail> {
    random_over::<Scan, PlainConsole>(&rt)?;
    random_over::<Scan, RingConsole>(&rt)?;
    random_over::<Index, PlainConsole>(&rt)?;
    random_over::<Index, RingConsole>(&rt)
}

/// How many `nop` stand between the two `tlbwr`, the outcome of the second, its row, and that row's
/// page after it. Random goes from 8 back to 63, so it is the same again after 56 Steps; and a row
/// doesn't overlap itself.
static ROUNDS: [(u32, Outcome, u8, u32); 3] = [
    (55, Outcome::Ran, 59, 0x0_0401),
    (54, Outcome::Conflict { row: 60, other: 59 }, 60, 0x8_003c),
    (50, Outcome::Conflict { row: 8, other: 59 }, 8, 0x8_0008),
];

fn rounds_over<T: Tlb + Drop, D: Console + Drop>(
    rt: &(impl Abort + AllocGlobal),
) -> Result<(), Fail> {
    for &(nops, outcome, row, page) in &ROUNDS {
        let mut words = Vec::new(rt.alloc());
        for _nop in 0..nops {
            words.push(NOP)?;
        }
        words.push(WRITE_RANDOM)?;
        let file = file_behind_first(rt.alloc(), &words)?;
        let conf = Conf {
            strict: true,
            ..SMALLEST
        };
        let mut machine: Machine<T, D> = Machine::boot(rt.alloc(), &file, conf)?;
        let steps = nops.wrapping_add(6);
        run(rt, &mut machine, steps);
        check_random(rt, &mut machine, steps, outcome, row, page);
    }
    Ok(())
}

#[test]
fn pairs_conflict_around(rt: HostRuntime) -> Result<(), Fail> {
    rounds_over::<Scan, PlainConsole>(&rt)?;
    rounds_over::<Scan, RingConsole>(&rt)?;
    rounds_over::<Index, PlainConsole>(&rt)?;
    rounds_over::<Index, RingConsole>(&rt)
}
