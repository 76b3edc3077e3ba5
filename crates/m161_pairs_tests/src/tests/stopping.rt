//! Breakpoints.

use super::same;
use m161_bus::Console;
use m161_console::{PlainConsole, RingConsole};
use m161_debug::{BreakError, Session, StopReason};
use m161_isa::Reg;
use m161_machine::Event::Step;
use m161_machine::{Conf, Event, LinkUnit, Machine, Tlb};
use m161_test_support::files::file_at;
use m161_test_support::outcomes::ENTRY;
use m161_tlb_index::Index;
use m161_tlb_scan::Scan;
use std::alloc::{AllocGlobal, Global};
use std::process::Abort;
use std::test::Fail;

/// A loop: `addiu $8, $8, 1`, `beq $0, $0, 0x80000200`, `nop`.
const LOOP: [u32; 3] = [0x2508_0001, 0x1000_fffe, 0x0000_0000];

/// Steps of processor 0.
static STEPS: [Event; 7] = [Step(0); 7];

/// Runs of so many Steps with a breakpoint at `ENTRY`, one after the other: the stop, and register 8
/// there.
static RUNS: [(usize, StopReason, u32); 3] = [
    (7, StopReason::Break(3), 1),
    (4, StopReason::Break(3), 2),
    (1, StopReason::End(1), 3),
];

/// A session of `LOOP` on two processors, of which the second is never started.
fn boot<T: Tlb + Drop, D: Console + Drop>(alloc: Global) -> Result<Session<T, D>, Fail> {
    let file = file_at(alloc, ENTRY, &LOOP)?;
    let conf = Conf {
        ram: 4096,
        processors: 2,
        log: 16,
        link: LinkUnit::Word,
        strict: false,
    };
    Ok(Session::new(Machine::boot(alloc, &file, conf)?))
}

fn breakpoints_over<T: Tlb + Drop, D: Console + Drop>(
    rt: &(impl Abort + AllocGlobal),
) -> Result<(), Fail> {
    let mut session = boot::<T, D>(rt.alloc())?;
    same(rt, session.breakpoint(0, ENTRY), Ok(()));
    for (number, stop, value) in &RUNS {
        let events = STEPS.get(..*number).unwrap_or(&[]);
        same(rt, session.go(events), *stop);
        assert!(rt; session.machine().processors() == 2);
        same(rt, session.machine().reg(0, Reg::new(8)), *value);
    }
    same(rt, session.delete(0, ENTRY), true);
    same(rt, session.go(&STEPS), StopReason::End(7));
    Ok(())
}

#[test]
fn pairs_breakpoints(rt: HostRuntime) -> Result<(), Fail> {
    breakpoints_over::<Scan, PlainConsole>(&rt)?;
    breakpoints_over::<Scan, RingConsole>(&rt)?;
    breakpoints_over::<Index, PlainConsole>(&rt)?;
    breakpoints_over::<Index, RingConsole>(&rt)
}

/// A breakpoint alone, of a processor and at an address, and a run of seven Steps: the stop,
/// register 8 there, and the first line of what is shown of processor 0.
struct Alone {
    processor: u32,
    address: u32,
    stop: StopReason,
    value: u32,
    line: &'static str,
}

static ALONE: [Alone; 4] = [
    // Processor 1 makes no Step.
    Alone {
        processor: 1,
        address: ENTRY,
        stop: StopReason::End(7),
        value: 3,
        line: "cpu 0 running pc 80000204\n",
    },
    // The delay slot.
    Alone {
        processor: 0,
        address: 0x8000_0208,
        stop: StopReason::Break(2),
        value: 1,
        line: "cpu 0 running pc 80000208 slot\n",
    },
    // The branch: the first event isn't at it.
    Alone {
        processor: 0,
        address: 0x8000_0204,
        stop: StopReason::Break(1),
        value: 1,
        line: "cpu 0 running pc 80000204\n",
    },
    // No Step comes there.
    Alone {
        processor: 0,
        address: 0x8000_020c,
        stop: StopReason::End(7),
        value: 3,
        line: "cpu 0 running pc 80000204\n",
    },
];

fn alone_over<T: Tlb + Drop, D: Console + Drop>(
    rt: &(impl Abort + AllocGlobal),
) -> Result<(), Fail> {
    for row in &ALONE {
        let mut session = boot::<T, D>(rt.alloc())?;
        same(rt, session.breakpoint(row.processor, row.address), Ok(()));
        same(rt, session.go(&STEPS), row.stop);
        assert!(rt; session.machine().processors() == 2);
        same(rt, session.machine().reg(0, Reg::new(8)), row.value);
        let shown = session.show_regs(0)?;
        same(
            rt,
            (row.line, shown.starts_with(row.line)),
            (row.line, true),
        );
    }
    Ok(())
}

#[test]
fn pairs_breakpoint_alone(rt: HostRuntime) -> Result<(), Fail> {
    alone_over::<Scan, PlainConsole>(&rt)?;
    alone_over::<Scan, RingConsole>(&rt)?;
    alone_over::<Index, PlainConsole>(&rt)?;
    alone_over::<Index, RingConsole>(&rt)
}

/// Breakpoints when 64 are set, of both processors at the words from 80001000 on: what is asked
/// for, and the answer.
static MORE: [((u32, u32), Result<(), BreakError>); 5] = [
    ((0, 0x8000_1080), Err(BreakError::TooMany)),
    ((1, ENTRY), Err(BreakError::TooMany)),
    ((2, 0x8000_1000), Err(BreakError::BadProcessor)),
    // Each of these is set already.
    ((0, 0x8000_1000), Ok(())),
    ((1, 0x8000_107c), Ok(())),
];

fn many_over<T: Tlb + Drop, D: Console + Drop>(
    rt: &(impl Abort + AllocGlobal),
) -> Result<(), Fail> {
    let mut session = boot::<T, D>(rt.alloc())?;
    for k in 0..32u32 {
        for p in 0..2u32 {
            same(rt, session.breakpoint(p, 0x8000_1000 + 4 * k), Ok(()));
        }
    }
    for ((p, address), answer) in &MORE {
        let found = session.breakpoint(*p, *address);
        same(rt, (*p, *address, found), (*p, *address, *answer));
    }
    // The refused ones aren't set.
    same(rt, session.delete(0, 0x8000_1080), false);
    same(rt, session.go(&STEPS), StopReason::End(7));
    // One is deleted, and there is room for one.
    same(rt, session.delete(1, 0x8000_1000), true);
    same(rt, session.breakpoint(0, ENTRY), Ok(()));
    same(rt, session.breakpoint(1, ENTRY), Err(BreakError::TooMany));
    // Step 7, from 0, is at 80000204, and Step 9 at ENTRY.
    same(rt, session.go(&STEPS), StopReason::Break(2));
    Ok(())
}

#[test]
fn pairs_many_breakpoints(rt: HostRuntime) -> Result<(), Fail> {
    many_over::<Scan, PlainConsole>(&rt)?;
    many_over::<Scan, RingConsole>(&rt)?;
    many_over::<Index, PlainConsole>(&rt)?;
    many_over::<Index, RingConsole>(&rt)
}
