//! A small kernel of two processors that moves a page, and its variants that go wrong.

use super::listing::Left::{Cop, Count, Entries, Memory, Pc, Register, TlbRow};
use super::listing::{Left, Stage, check_log, compare, make, make_stages};
use super::same;
use m161_audit::{Finding, Watch, audit_events};
use m161_bus::Console;
use m161_console::{PlainConsole, RingConsole};
use m161_machine::Event::Step;
use m161_machine::{Conf, LinkUnit, Machine, Register as R};
use m161_steplog::read_schedule;
use m161_test_support::kernel::{SCHEDULE, kernel_file, kernel_with};
use m161_test_support::outcomes::{INTERRUPT, LOAD_MISS, OFF, RAN, Times};
use m161_tlb::Tlb;
use m161_tlb_index::Index;
use m161_tlb_scan::Scan;
use std::process::Abort;
use std::test::Fail;

/// What it leaves.
static LEFT: [(u32, Left); 8] = [
    (0, Count(25)),
    (1, Count(56)),
    (0, Entries(81)),
    (0, Memory(0x3010, 7)),
    (0, Memory(0x3000, 0x6600)),
    (1, TlbRow(17, 0x0040_0140, 0x6600)),
    (1, TlbRow(53, 0x8003_5000, 0)),
    (1, TlbRow(18, 0x8001_2000, 0)),
];

fn shootdown_over<T: Tlb + Drop, D: Console + Drop>(
    rt: &(impl Abort + AllocGlobal),
    link: LinkUnit,
) -> Result<(), Fail> {
    let file = kernel_file(rt.alloc())?;
    let conf = Conf {
        ram: 1_048_576,
        processors: 2,
        log: 1000,
        link,
        strict: false,
    };
    let mut machine: Machine<T, D> = Machine::boot(rt.alloc(), &file, conf)?;
    make(rt, "shootdown", &mut machine, &SCHEDULE)?;
    compare(rt, "shootdown", &machine, &LEFT);
    check_log(rt, "shootdown", &file, &machine)
}

#[test]
fn shootdown(rt: HostRuntime) -> Result<(), Fail> {
    for link in [LinkUnit::Word, LinkUnit::Line] {
        shootdown_over::<Scan, PlainConsole>(&rt, link)?;
        shootdown_over::<Scan, RingConsole>(&rt, link)?;
        shootdown_over::<Index, PlainConsole>(&rt, link)?;
        shootdown_over::<Index, RingConsole>(&rt, link)?;
    }
    Ok(())
}

/// A variant of the kernel with a `nop` in place of one of its words: what it does, and where the
/// auditor finds it.
struct Variant {
    name: &'static str,
    /// The physical address of the word.
    at: u32,
    stages: &'static [Stage],
    /// The events of the stages, as a schedule.
    schedule: &'static str,
    /// The first stale use.
    place: usize,
}

/// Without the `tlbwi` of the handler row 53 of processor 1 stays, with the old frame.
static WITHOUT_TLBWI: Variant = Variant {
    name: "sample-without-tlbwi",
    at: 0xa4,
    stages: &[
        Stage {
            events: &[
                (Step(0), 11, RAN),
                (Step(1), 6, RAN),
                (Step(1), 1, LOAD_MISS),
                (Step(1), 9, RAN),
                (Step(0), 6, RAN),
                (Step(1), 2, RAN),
                (Step(1), 1, INTERRUPT),
                (Step(1), 20, RAN),
                (Step(0), 4, RAN),
                (Step(1), 3, RAN),
            ],
            left: &[
                (0, Entries(63)),
                (0, Memory(0x3000, 0x6600)),
                (0, Memory(0x3004, 2)),
                (0, Memory(0x3008, 1)),
                (1, Pc(0x8000_02a0)),
                (1, TlbRow(53, 0x0040_0140, 0x5600)),
                (1, Cop(R::EntryHi, 0x0040_0140)),
            ],
        },
        // The load that misses in the kernel itself: it reads 0 from frame 5, and not 7 from 6.
        Stage {
            events: &[(Step(1), 1, RAN)],
            left: &[
                (0, Entries(64)),
                (0, Memory(0x5000, 0)),
                (0, Memory(0x6000, 7)),
                (1, Pc(0x8000_02a4)),
                (1, Register(11, 0)),
                (1, Cop(R::Random, 0x1400)),
            ],
        },
        // Processor 1 goes on to read 0, and processor 0 to wait for what it reads.
        Stage {
            events: &[(Step(1), 13, RAN), (Step(0), 4, RAN)],
            left: &[
                (0, Entries(81)),
                (0, Count(25)),
                (1, Count(56)),
                (0, Memory(0x3010, 0)),
                (0, Pc(0x8000_0258)),
                (1, Register(11, 0)),
                (1, TlbRow(53, 0x0040_0140, 0x5600)),
                (1, TlbRow(17, 0x8001_1000, 0)),
            ],
        },
    ],
    schedule: "s 0 11\ns 1 16\ns 0 6\ns 1 23\ns 0 4\ns 1 17\ns 0 4\n",
    place: 63,
};

/// Without the branch that waits for the acknowledgement, processor 0 marks the end at once, while
/// the interrupt of processor 1 is pending.
static WITHOUT_WAIT: Variant = Variant {
    name: "sample-clean: the variant that doesn't wait",
    at: 0x248,
    stages: &[
        Stage {
            events: &[
                (Step(0), 11, RAN),
                (Step(1), 6, RAN),
                (Step(1), 1, LOAD_MISS),
                (Step(1), 9, RAN),
                (Step(0), 9, RAN),
            ],
            left: &[
                (0, Entries(36)),
                (0, Memory(0x3000, 0x6600)),
                (0, Memory(0x3004, 0)),
            ],
        },
        Stage {
            events: &[(Step(0), 1, RAN)],
            left: &[
                (0, Memory(0x3004, 2)),
                (0, Memory(0x3008, 0)),
                (0, Pc(0x8000_0254)),
                (1, Pc(0x8000_02a0)),
                (1, Cop(R::Cause, 0x0808)),
                (1, Cop(R::Status, 0)),
            ],
        },
        Stage {
            events: &[(Step(1), 1, RAN)],
            left: &[
                (0, Entries(38)),
                (0, Count(21)),
                (1, Count(17)),
                (1, Register(11, 0)),
                (1, Pc(0x8000_02a4)),
                (1, TlbRow(53, 0x0040_0140, 0x5600)),
            ],
        },
    ],
    schedule: "s 0 11\ns 1 16\ns 0 10\ns 1 1\n",
    place: 37,
};

/// The kernel's watch.
const WATCH: Watch = Watch {
    id: 5,
    page: 0x400,
    pte: 0x3000,
    done: 0x3004,
};

fn variant_over<T: Tlb + Drop, D: Console + Drop>(
    rt: &(impl Abort + AllocGlobal),
    variant: &Variant,
) -> Result<(), Fail> {
    let file = kernel_with(rt.alloc(), &[(variant.at, 0)])?;
    let conf = Conf {
        ram: 1_048_576,
        processors: 2,
        log: 1000,
        link: LinkUnit::Word,
        strict: false,
    };
    let mut machine: Machine<T, D> = Machine::boot(rt.alloc(), &file, conf)?;
    make_stages(rt, variant.name, &mut machine, variant.stages)?;
    check_log(rt, variant.name, &file, &machine)?;
    let events = read_schedule(rt.alloc(), variant.schedule)?;
    let found = audit_events::<T, D>(rt.alloc(), &file, conf, &events, &[WATCH]);
    let stale = Finding::Stale {
        place: variant.place,
        processor: 1,
        address: 0x0040_0000,
        row: 53,
    };
    same(rt, (variant.name, found), (variant.name, Ok(stale)));
    Ok(())
}

/// A variant over each TLB with each console.
fn check_variant(rt: &(impl Abort + AllocGlobal), variant: &Variant) -> Result<(), Fail> {
    variant_over::<Scan, PlainConsole>(rt, variant)?;
    variant_over::<Scan, RingConsole>(rt, variant)?;
    variant_over::<Index, PlainConsole>(rt, variant)?;
    variant_over::<Index, RingConsole>(rt, variant)
}

#[test]
fn stale_row_stays(rt: HostRuntime) -> Result<(), Fail> {
    check_variant(&rt, &WITHOUT_TLBWI)
}

#[test]
fn without_waiting(rt: HostRuntime) -> Result<(), Fail> {
    check_variant(&rt, &WITHOUT_WAIT)
}
