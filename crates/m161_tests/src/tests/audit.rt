//! The auditor on the small kernel and its variants, and the texts of watches.

ghost use Rattle.std.specs.Prelude.{◌≤◌, length};

use super::same;
use m161::{Console, Tlb};
use m161_asm::assemble;
use m161_audit::{
    AuditError, Auditor, BootError, Conf, Event, Finding, LinkUnit, TextFault, Watch, audit,
    audit_events, read_watches,
};
use m161_elf_writer::write;
use m161_machine::Core;
use m161_steplog::read_schedule;
use m161_test_support::kernel::kernel_with;
use std::alloc::Global;
use std::process::Abort;
use std::test::Fail;

const CONF: Conf = Conf {
    ram: 1_048_576,
    processors: 2,
    log: 65_536,
    link: LinkUnit::Word,
    strict: false,
};

/// The kernel's watch.
const WATCH: Watch = Watch {
    id: 5,
    page: 0x400,
    pte: 0x3000,
    done: 0x3004,
};

/// The kernel's schedule.
const SCHEDULE: &str = "s 0 11\ns 1 16\ns 0 6\ns 1 23\ns 0 4\ns 1 17\ns 0 4\n";

/// The schedule of the variant that doesn't wait.
const HASTY: &str = "s 0 11\ns 1 16\ns 0 10\ns 1 1\n";

/// No `tlbwi`: the stale row stays.
const WITHOUT_TLBWI: [(u32, u32); 1] = [(0xa4, 0)];

/// No branch that waits for the acknowledgement.
const WITHOUT_WAIT: [(u32, u32); 1] = [(0x248, 0)];

/// The same, and the image marks the end.
const MARKED: [(u32, u32); 2] = [(0x248, 0), (0x3004, 2)];

// A stale use of the watched page by processor 1.
const fn stale(place: usize) -> Finding {
    Finding::Stale {
        place,
        processor: 1,
        address: 0x0040_0000,
        row: 53,
    }
}

// Checks the finding of a run, over a list of events and over a schedule's, with links to words and
// with links to lines.
fn check(
    rt: &impl Abort,
    alloc: Global,
    changes: &[(u32, u32)],
    schedule: &str,
    watches: &[Watch],
    expected: Result<Finding, AuditError>,
) -> Result<(), Fail> {
    let file = kernel_with(alloc, changes)?;
    let events = read_schedule(alloc, schedule)?;
    let list = events.to_vec(alloc)?;
    for link in [LinkUnit::Word, LinkUnit::Line] {
        let conf = Conf { link, ..CONF };
        let found = audit_events::<Tlb, Console>(alloc, &file, conf, &events, watches);
        same(rt, (link, found), (link, expected));
        let found = audit::<Tlb, Console>(alloc, &file, conf, list.as_slice(), watches);
        same(rt, (link, found), (link, expected));
    }
    Ok(())
}

// What an audit of the first events of a run finds, and of all of them from there on.
fn found_in_parts(
    alloc: Global,
    file: &[u8],
    events: &[Event],
    first: usize,
) -> Result<(Finding, Finding), Fail>
    requires { first ≤ length events.now }
{
    let core = Core::<Tlb, Console>::boot(alloc, file, CONF)?;
    let mut auditor = Auditor::new(alloc, core, &[WATCH])?;
    auditor.audit_on(&events[..first])?;
    let mut copy = auditor.copy(alloc)?;
    copy.audit_on(events)?;
    Ok((auditor.finding(), copy.finding()))
}

// `audit-memory-not-restored`: before the stale use and behind it an audit goes on as one of the whole.
#[test]
fn audit_in_parts(rt: HostRuntime) -> Result<(), Fail> {
    let alloc = rt.alloc();
    let file = kernel_with(alloc, &WITHOUT_WAIT)?;
    let events = read_schedule(alloc, HASTY)?.to_vec(alloc)?;
    let length = events.len();
    for first in 0..length + 1 {
        let before = if first < 38 {
            Finding::Clean
        } else {
            stale(37)
        };
        let found = found_in_parts(alloc, &file, &events, first)?;
        same(&rt, found, (before, stale(37)));
    }
    Ok(())
}

#[test]
fn sample_clean(rt: HostRuntime) -> Result<(), Fail> {
    let alloc = rt.alloc();
    check(&rt, alloc, &[], SCHEDULE, &[WATCH], Ok(Finding::Clean))?;
    check(&rt, alloc, &WITHOUT_WAIT, HASTY, &[WATCH], Ok(stale(37)))
}

#[test]
fn sample_without_tlbwi(rt: HostRuntime) -> Result<(), Fail> {
    let alloc = rt.alloc();
    check(
        &rt,
        alloc,
        &WITHOUT_TLBWI,
        SCHEDULE,
        &[WATCH],
        Ok(stale(63)),
    )
}

#[test]
fn watch_cases(rt: HostRuntime) -> Result<(), Fail> {
    let alloc = rt.alloc();
    let other = Watch { id: 6, ..WATCH };
    check(
        &rt,
        alloc,
        &WITHOUT_WAIT,
        HASTY,
        &[other],
        Ok(Finding::Clean),
    )?;
    check(&rt, alloc, &WITHOUT_WAIT, HASTY, &[], Ok(Finding::Clean))?;
    let late = "s 9\ns 0 11\ns 1 16\ns 0 10\ns 1 1\n";
    check(&rt, alloc, &WITHOUT_WAIT, late, &[WATCH], Ok(stale(38)))?;
    check(&rt, alloc, &MARKED, HASTY, &[WATCH], Ok(stale(37)))?;
    check(
        &rt,
        alloc,
        &WITHOUT_WAIT,
        HASTY,
        &[other, WATCH, WATCH],
        Ok(stale(37)),
    )
}

#[test]
fn many_watches(rt: HostRuntime) -> Result<(), Fail> {
    let alloc = rt.alloc();
    let mut watches = Vec::new(alloc);
    for k in 0..63 {
        watches.push(Watch {
            page: 0x400 + 64 * k,
            id: 6,
            ..WATCH
        })?;
    }
    check(
        &rt,
        alloc,
        &WITHOUT_WAIT,
        HASTY,
        watches.as_slice(),
        Ok(Finding::Clean),
    )?;
    watches.push(WATCH)?;
    check(
        &rt,
        alloc,
        &WITHOUT_WAIT,
        HASTY,
        watches.as_slice(),
        Ok(stale(37)),
    )
}

#[test]
fn audit_errors(rt: HostRuntime) -> Result<(), Fail> {
    let alloc = rt.alloc();
    let bad = [
        Watch { id: 64, ..WATCH },
        Watch {
            page: 0x10_0000,
            ..WATCH
        },
        Watch {
            pte: 0x3001,
            ..WATCH
        },
        Watch {
            done: 0x10_0000,
            ..WATCH
        },
        Watch {
            done: 0x3000,
            ..WATCH
        },
    ];
    for watch in &bad {
        check(
            &rt,
            alloc,
            &[],
            SCHEDULE,
            &[*watch],
            Err(AuditError::BadWatch(0)),
        )?;
        check(
            &rt,
            alloc,
            &[],
            SCHEDULE,
            &[WATCH, *watch, *watch],
            Err(AuditError::BadWatch(1)),
        )?;
    }
    let conf = Conf { ram: 4097, ..CONF };
    let found = audit::<Tlb, Console>(alloc, &[], conf, &[Event::Done], &bad);
    same(&rt, found, Err(AuditError::Boot(BootError::BadConf)));
    Ok(())
}

/// Each of two processors puts the watched page in its row 0, with the old frame. Processor 0 starts
/// processor 1, changes the page's entry in its Step 18 and the mark in Step 19, counted from 0, and
/// jumps to the page, which it fetches from in Step 22. Processor 1 reads the page in its Step 8 and
/// every third one after that.
const CARELESS: &str = "\
        .entry  main
        .org    0x80000200
main:   lui     $8, 0x0040
        ori     $8, $8, 0x0140
        mtc0    $8, $10
        ori     $9, $0, 0x5600
        mtc0    $9, $2
        mtc0    $0, $0
        tlbwi
        lui     $12, 0x0040
        lui     $10, 0x8000
        lui     $13, 0xbfff
        ori     $14, $13, 0x8400
        lui     $15, 0x8000
        ori     $15, $15, 0x0300
        sw      $15, 768($14)
        ori     $14, $13, 0x7c00
        ori     $15, $0, 2
        sw      $15, 532($14)
        ori     $11, $0, 0x6600
        sw      $11, 12288($10)
        sw      $11, 12292($10)
        jr      $12
        nop

        .org    0x80000300
        lui     $8, 0x0040
        ori     $8, $8, 0x0140
        mtc0    $8, $10
        ori     $9, $0, 0x5600
        mtc0    $9, $2
        mtc0    $0, $0
        tlbwi
        lui     $12, 0x0040
again:  lw      $11, 0($12)
        beq     $0, $0, again
        nop
";

// Checks the finding of a run of that image.
fn check_careless(
    rt: &impl Abort,
    alloc: Global,
    schedule: &str,
    watches: &[Watch],
    expected: Finding,
) -> Result<(), Fail> {
    let file = write(alloc, &assemble(alloc, CARELESS)?)?;
    let events = read_schedule(alloc, schedule)?;
    let found = audit_events::<Tlb, Console>(alloc, &file, CONF, &events, watches);
    same(rt, found, Ok(expected));
    Ok(())
}

// A stale use of the watched page through row 0.
const fn stale_by(processor: u32, place: usize) -> Finding {
    Finding::Stale {
        place,
        processor,
        address: 0x0040_0000,
        row: 0,
    }
}

#[test]
fn stale_fetch(rt: HostRuntime) -> Result<(), Fail> {
    let alloc = rt.alloc();
    check_careless(&rt, alloc, "s 0 22\n", &[WATCH], Finding::Clean)?;
    check_careless(&rt, alloc, "s 0 23\n", &[WATCH], stale_by(0, 22))
}

#[test]
fn page_on_two_processors(rt: HostRuntime) -> Result<(), Fail> {
    let alloc = rt.alloc();
    let fetched = "s 0 17\ns 1 9\ns 0 3\ns 1 2\ns 0 3\ns 1 1\n";
    check_careless(&rt, alloc, fetched, &[WATCH], stale_by(0, 33))?;
    let loaded = "s 0 17\ns 1 9\ns 0 3\ns 1 3\ns 0 3\n";
    check_careless(&rt, alloc, loaded, &[WATCH], stale_by(1, 31))?;
    let before_the_mark = "s 0 17\ns 1 9\ns 0 2\ns 1 3\ns 0 1\ns 1 3\n";
    check_careless(&rt, alloc, before_the_mark, &[WATCH], stale_by(1, 34))
}

#[test]
fn overlapping_watches(rt: HostRuntime) -> Result<(), Fail> {
    let alloc = rt.alloc();
    let unmarked = Watch {
        done: 0x3008,
        ..WATCH
    };
    let unchanged = Watch {
        pte: 0x3008,
        ..WATCH
    };
    let changed_after_mark = Watch {
        pte: 0x3004,
        done: 0x3000,
        ..WATCH
    };
    let others = [unmarked, unchanged, changed_after_mark];
    check_careless(&rt, alloc, "s 0 23\n", &others, Finding::Clean)?;
    let last = [unmarked, unchanged, changed_after_mark, WATCH];
    check_careless(&rt, alloc, "s 0 23\n", &last, stale_by(0, 22))?;
    let first = [WATCH, unmarked, unchanged, changed_after_mark];
    check_careless(&rt, alloc, "s 0 23\n", &first, stale_by(0, 22))
}

// Checks what is read of a text.
fn check_text(
    rt: &impl Abort,
    alloc: Global,
    text: &str,
    expected: Result<&[Watch], TextFault>,
) -> Result<(), Fail> {
    match read_watches(alloc, text) {
        Ok(watches) => same(rt, Ok(watches.as_slice()), expected),
        Err(fault) => same(rt, Err(fault), expected),
    }
    Ok(())
}

#[test]
fn watch_texts(rt: HostRuntime) -> Result<(), Fail> {
    let alloc = rt.alloc();
    let line = "w 5 00400 00003000 00003004";
    check_text(&rt, alloc, line, Ok(&[WATCH]))?;
    check_text(&rt, alloc, "", Ok(&[]))?;
    check_text(
        &rt,
        alloc,
        "# two\n\nw 5 00400 00003000 00003004\nw 5 00400 00003000 00003004\n",
        Ok(&[WATCH, WATCH]),
    )?;
    for text in [
        "w 64",
        "w 5 00400 00003000",
        "w 05 00400 00003000 00003004",
        "w 5 00400 0000300A 00003004",
        "w 5 0400 00003000 00003004",
        "w 5 00400 00003000 00003004 ",
        "w 5  00400 00003000 00003004",
        "v 5 00400 00003000 00003004",
        " ",
    ] {
        check_text(&rt, alloc, text, Err(TextFault::Line(1)))?;
    }
    check_text(&rt, alloc, "\n#\nw 5\n", Err(TextFault::Line(3)))
}
