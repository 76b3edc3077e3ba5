//! Links to words, and links to lines of 16 bytes.

use super::listing::Left::{Memory, Register};
use super::listing::{Run, Stage, check_linked, check_run};
use super::processors::{BETWEEN, LINKED, PROCESSORS};
use super::same;
use m161::{Console, Machine, Tlb};
use m161_machine::Event::Step;
use m161_machine::{Conf, Entry, Event, LinkUnit, Outcome};
use m161_steplog::{Comparison, verify};
use m161_test_support::files::file_at;
use m161_test_support::outcomes::{BREAKPOINT, ENTRY, RAN};
use std::test::Fail;

/// Processor 0 links the word at 0x1000, then 1 executes the word at place 13, then 0 an `sc` of 55.
static UNIT: Run = Run {
    name: "link-unit",
    ram: 8_192,
    processors: 2,
    entry: ENTRY,
    base: ENTRY,
    program: &[
        (0x3c08_bfff, "lui $8, 0xbfff"),
        (0x3c09_8000, "lui $9, 0x8000"),
        (0x352c_0230, "ori $12, $9, 0x0230"),
        (0x350a_8400, "ori $10, $8, 0x8400"),
        (0xad4c_0300, "sw $12, 768($10)"),
        (0x340b_0002, "ori $11, $0, 0x0002"),
        (0xad0b_7e14, "sw $11, 32276($8)"),
        (0xc12d_1000, "ll $13, 4096($9)"),
        (0x340e_0055, "ori $14, $0, 0x0055"),
        (0xe12e_1000, "sc $14, 4096($9)"),
        (0x0000_0000, "nop"),
        (0x0000_0000, "nop"),
        (0x3c09_8000, "lui $9, 0x8000"),
        (0xad20_100c, "sw $0, 4108($9)"),
    ],
    stages: &[Stage {
        events: &[(Step(0), 8, RAN)],
        left: &[],
    }],
};

/// The word of processor 1, that of the `sc`, the place that it stores to, and what it gives with
/// links to words and with links to lines.
static UNITS: [(&str, u32, u32, u32, [u32; 2]); 9] = [
    ("sw $0, 4108($9)", 0xad20_100c, 0xe12e_1000, 0x1000, [1, 0]),
    ("sw $0, 4112($9)", 0xad20_1010, 0xe12e_1000, 0x1000, [1, 1]),
    ("sw $0, 4092($9)", 0xad20_0ffc, 0xe12e_1000, 0x1000, [1, 1]),
    ("sb $0, 4111($9)", 0xa120_100f, 0xe12e_1000, 0x1000, [1, 0]),
    ("sw $0, 4096($9)", 0xad20_1000, 0xe12e_1000, 0x1000, [0, 0]),
    ("sc $14, 4100($9)", 0, 0xe12e_1004, 0x1004, [0, 1]),
    ("sc $14, 4108($9)", 0, 0xe12e_100c, 0x100c, [0, 1]),
    ("sc $14, 4112($9)", 0, 0xe12e_1010, 0x1010, [0, 0]),
    ("sc $14, 4092($9)", 0, 0xe12e_0ffc, 0x0ffc, [0, 0]),
];

#[test]
fn link_unit(rt: HostRuntime) -> Result<(), Fail> {
    for &(text, other, last, place, [by_word, by_line]) in &UNITS {
        for (link, given) in [(LinkUnit::Word, by_word), (LinkUnit::Line, by_line)] {
            let stored = if given == 1 { 0x55 } else { 0 };
            let words = [(13, other), (9, last)];
            let events = [(Step(1), 2, RAN), (Step(0), 2, RAN)];
            let left = [(0, Register(14, given)), (0, Memory(place, stored))];
            check_linked(&rt, link, &UNIT, &words, text, &events, &left)?;
        }
    }
    Ok(())
}

/// The rows of several processors that links to lines end otherwise.
static OF_WORDS: [&str; 2] = [
    "a store of the same processor to the next word",
    "sc of another word",
];

#[test]
fn processors_by_line(rt: HostRuntime) -> Result<(), Fail> {
    for run in &PROCESSORS {
        if !OF_WORDS.contains(&run.name) {
            check_run(&rt, LinkUnit::Line, run)?;
        }
    }
    Ok(())
}

/// Whether an instruction stores to the bytes 0x404 to 0x40f: with links to lines it ends the link
/// to the word at 0x400.
fn in_line(word: u32) -> bool {
    let (opcode, offset) = (word >> 26, word & 0xffff);
    (40..=46).contains(&opcode) && (0x404..0x410).contains(&offset)
}

#[test]
fn stores_between_by_line(rt: HostRuntime) -> Result<(), Fail> {
    for &(text, word, given) in &BETWEEN {
        let given = if in_line(word) { 0 } else { given };
        let stored = if given == 1 { 0x55 } else { 0 };
        let events = [(Step(1), 2, RAN), (Step(0), 2, RAN)];
        let left = [(0, Register(14, given)), (0, Memory(0x400, stored))];
        let words = [(13, word)];
        check_linked(&rt, LinkUnit::Line, &LINKED, &words, text, &events, &left)?;
    }
    Ok(())
}

/// Between `ll` and `sc` it stores to the same line, and it traps where the `sc` gives 0.
static REPLAYED: [u32; 8] = [
    0x3c08_8000, // lui $8, 0x8000
    0xc109_1000, // ll $9, 4096($8)
    0xad00_1008, // sw $0, 4104($8)
    0xe109_1000, // sc $9, 4096($8)
    0x1520_0002, // bne $9, $0, 0x8000021c
    0x0000_0000, // nop
    0x0000_000d, // break
    0x0000_0000, // nop
];

#[test]
fn line_replay(rt: HostRuntime) -> Result<(), Fail> {
    let alloc = rt.alloc();
    let file = file_at(alloc, ENTRY, &REPLAYED)?;
    let ran = [Entry {
        event: Event::Step(0),
        outcome: Outcome::Ran,
    }; 7];
    for (link, seventh, verdict) in [
        (LinkUnit::Word, RAN, Comparison::Agrees),
        (LinkUnit::Line, BREAKPOINT, Comparison::Differs(6)),
    ] {
        let conf = Conf {
            ram: 8_192,
            processors: 1,
            log: 16,
            link,
            strict: false,
        };
        let mut machine = Machine::boot(alloc, &file, conf)?;
        for k in 0..6 {
            same(&rt, (link, k, machine.step(0)), (link, k, RAN));
        }
        same(&rt, (link, machine.step(0)), (link, seventh));
        let found = verify::<Tlb, Console>(alloc, &file, conf, &ran)?;
        same(&rt, (link, found), (link, verdict));
        let own = machine.copy_log(alloc)?;
        let found = verify::<Tlb, Console>(alloc, &file, conf, &own)?;
        same(&rt, (link, found), (link, Comparison::Agrees));
    }
    Ok(())
}
