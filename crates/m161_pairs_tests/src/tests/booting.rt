//! Files and configurations that boot or don't, runs, and logs that agree or differ.

use super::same;
use m161_bus::Console;
use m161_console::{PlainConsole, RingConsole};
use m161_machine::{
    BootError, Conf, Entry, Event, LinkUnit, LoadError, Machine, Outcome, Refusal, Tlb,
};
use m161_steplog::{Comparison, verify};
use m161_test_support::DEMO_CONF;
use m161_test_support::files::{PROGRAM, file_at, file_of};
use m161_test_support::outcomes::{Answer, ENTRY, OFF, RAN, SMALLEST};
use m161_tlb_index::Index;
use m161_tlb_scan::Scan;
use std::alloc::{AllocGlobal, Global};
use std::process::Abort;
use std::test::Fail;

/// `lui $8, 0xbfff`; `sw $0, 32264($8)`.
const POWER_OFF: [u32; 2] = [0x3c08_bfff, 0xad00_7e08];

/// Why a file isn't booted, if it isn't.
fn fault_of<T: Tlb + Drop, D: Console + Drop>(
    alloc: Global,
    file: &[u8],
    conf: Conf,
) -> Option<BootError> {
    let booted: Result<Machine<T, D>, BootError> = Machine::boot(alloc, file, conf);
    booted.err()
}

/// How many bytes of the file of `POWER_OFF` are there, of 52 + 32 + 8, and the fault.
static LENGTHS: [(usize, Option<LoadError>); 6] = [
    (0, Some(LoadError::Truncated)),
    (51, Some(LoadError::Truncated)),
    (52, Some(LoadError::BadHeaderTable)),
    (83, Some(LoadError::BadHeaderTable)),
    (91, Some(LoadError::SegmentOutsideFile)),
    (92, None),
];

fn lengths_over<T: Tlb + Drop, D: Console + Drop>(
    rt: &(impl Abort + AllocGlobal),
) -> Result<(), Fail> {
    let file = file_at(rt.alloc(), ENTRY, &POWER_OFF)?;
    for (length, error) in &LENGTHS {
        let front = file.get(..*length);
        same(rt, (*length, front.is_some()), (*length, true));
        let found = fault_of::<T, D>(rt.alloc(), front.unwrap_or(&[]), SMALLEST);
        let expected = match *error {
            Some(error) => Some(BootError::Load(error)),
            None => None,
        };
        same(rt, (*length, found), (*length, expected));
    }
    Ok(())
}

#[test]
fn pairs_boot_files(rt: HostRuntime) -> Result<(), Fail> {
    lengths_over::<Scan, PlainConsole>(&rt)?;
    lengths_over::<Scan, RingConsole>(&rt)?;
    lengths_over::<Index, PlainConsole>(&rt)?;
    lengths_over::<Index, RingConsole>(&rt)
}

/// A configuration, and whether a machine has it.
static SIZES: [(Conf, bool); 7] = [
    (
        Conf {
            ram: 4096,
            processors: 1,
            log: 1,
            link: LinkUnit::Word,
            strict: false,
        },
        true,
    ),
    (
        Conf {
            ram: 4097,
            processors: 1,
            log: 1,
            link: LinkUnit::Word,
            strict: false,
        },
        false,
    ),
    (
        Conf {
            ram: 0,
            processors: 1,
            log: 1,
            link: LinkUnit::Word,
            strict: false,
        },
        false,
    ),
    (
        Conf {
            ram: 16_777_217,
            processors: 1,
            log: 1,
            link: LinkUnit::Word,
            strict: false,
        },
        false,
    ),
    (
        Conf {
            ram: 4096,
            processors: 32,
            log: 1,
            link: LinkUnit::Word,
            strict: false,
        },
        true,
    ),
    (
        Conf {
            ram: 4096,
            processors: 33,
            log: 1,
            link: LinkUnit::Word,
            strict: false,
        },
        false,
    ),
    (
        Conf {
            ram: 4096,
            processors: 1,
            log: 0,
            link: LinkUnit::Word,
            strict: false,
        },
        false,
    ),
];

fn sizes_over<T: Tlb + Drop, D: Console + Drop>(
    rt: &(impl Abort + AllocGlobal),
) -> Result<(), Fail> {
    let file = file_at(rt.alloc(), ENTRY, &POWER_OFF)?;
    for (conf, fits) in &SIZES {
        let found = fault_of::<T, D>(rt.alloc(), &file, *conf);
        let expected = if *fits {
            None
        } else {
            Some(BootError::BadConf)
        };
        same(rt, (*conf, found), (*conf, expected));
    }
    Ok(())
}

#[test]
fn pairs_boot_sizes(rt: HostRuntime) -> Result<(), Fail> {
    sizes_over::<Scan, PlainConsole>(&rt)?;
    sizes_over::<Scan, RingConsole>(&rt)?;
    sizes_over::<Index, PlainConsole>(&rt)?;
    sizes_over::<Index, RingConsole>(&rt)
}

/// Events of `POWER_OFF` on two processors, each with its answer.
static EVENTS: [(Event, Answer); 6] = [
    (Event::Step(0), RAN),
    (Event::Step(0), OFF),
    (Event::Step(9), Err(Refusal::BadProcessor)),
    (Event::Step(0), Err(Refusal::Off)),
    (Event::Key(0x41), Err(Refusal::Off)),
    (Event::Done, Err(Refusal::Off)),
];

fn off_over<T: Tlb + Drop, D: Console + Drop>(rt: &(impl Abort + AllocGlobal)) -> Result<(), Fail> {
    let file = file_at(rt.alloc(), ENTRY, &POWER_OFF)?;
    let conf = Conf {
        ram: 4096,
        processors: 2,
        log: 1,
        link: LinkUnit::Word,
        strict: false,
    };
    let mut machine: Machine<T, D> = Machine::boot(rt.alloc(), &file, conf)?;
    for (event, answer) in &EVENTS {
        let found = machine.event(*event);
        same(rt, (*event, found), (*event, *answer));
    }
    same(rt, machine.made(), 2);
    same(rt, machine.log_len(), 1);
    Ok(())
}

#[test]
fn pairs_off(rt: HostRuntime) -> Result<(), Fail> {
    off_over::<Scan, PlainConsole>(&rt)?;
    off_over::<Scan, RingConsole>(&rt)?;
    off_over::<Index, PlainConsole>(&rt)?;
    off_over::<Index, RingConsole>(&rt)
}

fn demo_over<T: Tlb + Drop, D: Console + Drop>(
    rt: &(impl Abort + AllocGlobal),
) -> Result<(), Fail> {
    let file = file_of(rt.alloc(), &[], &PROGRAM)?;
    let mut machine: Machine<T, D> = Machine::boot(rt.alloc(), &file, DEMO_CONF)?;
    assert!(rt; machine.processors() > 0);
    same(rt, machine.steps(0, 6), (6, None));
    same(rt, machine.pc(0), 0x8000_0218);
    same(rt, machine.word(0x400), Some(0x1234_5677));
    same(rt, machine.step(0), RAN);
    same(rt, machine.pc(0), 0x8000_021c);
    Ok(())
}

#[test]
fn pairs_demo(rt: HostRuntime) -> Result<(), Fail> {
    demo_over::<Scan, PlainConsole>(&rt)?;
    demo_over::<Scan, RingConsole>(&rt)?;
    demo_over::<Index, PlainConsole>(&rt)?;
    demo_over::<Index, RingConsole>(&rt)
}

/// A Step of processor 0 that executes its instruction, and one that switches the machine off.
const STEP: Entry = Entry {
    event: Event::Step(0),
    outcome: Outcome::Ran,
};

const LAST: Entry = Entry {
    event: Event::Step(0),
    outcome: Outcome::PoweredOff,
};

/// Logs of `POWER_OFF`, each with its verdict.
static LOGS: [(&[Entry], Comparison); 4] = [
    (&[], Comparison::Agrees),
    (&[STEP, LAST], Comparison::Agrees),
    (&[STEP, STEP], Comparison::Differs(1)),
    (&[STEP, LAST, STEP], Comparison::Differs(2)),
];

fn verify_over<T: Tlb + Drop, D: Console + Drop>(
    rt: &(impl Abort + AllocGlobal),
) -> Result<(), Fail> {
    let file = file_at(rt.alloc(), ENTRY, &POWER_OFF)?;
    for (log, verdict) in &LOGS {
        let found = verify::<T, D>(rt.alloc(), &file, SMALLEST, log)?;
        same(rt, (log.len(), found), (log.len(), *verdict));
    }
    Ok(())
}

#[test]
fn pairs_verify(rt: HostRuntime) -> Result<(), Fail> {
    verify_over::<Scan, PlainConsole>(&rt)?;
    verify_over::<Scan, RingConsole>(&rt)?;
    verify_over::<Index, PlainConsole>(&rt)?;
    verify_over::<Index, RingConsole>(&rt)
}
