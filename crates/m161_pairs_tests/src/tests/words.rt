//! Words that are no canonical text of an instruction, and a machine of which no event is made.

use super::same;
use m161_bus::Console;
use m161_console::{PlainConsole, RingConsole};
use m161_machine::{Event, Machine, Tlb};
use m161_test_support::files::file_at;
use m161_test_support::outcomes::{Answer, ENTRY, RAN, RESERVED, SMALLEST};
use m161_tlb_index::Index;
use m161_tlb_scan::Scan;
use std::alloc::AllocGlobal;
use std::process::Abort;
use std::test::Fail;

/// The first is executed as `add`, the second traps.
static WORDS: [(u32, Answer); 2] = [(0x0000_0060, RAN), (0xffff_ffff, RESERVED)];

fn words_over<T: Tlb + Drop, D: Console + Drop>(
    rt: &(impl Abort + AllocGlobal),
) -> Result<(), Fail> {
    for (word, answer) in &WORDS {
        let file = file_at(rt.alloc(), ENTRY, &[*word])?;
        let mut machine: Machine<T, D> = Machine::boot(rt.alloc(), &file, SMALLEST)?;
        // disassembled-words, executed
        let found = machine.event(Event::Step(0));
        same(rt, (*word, found), (*word, *answer));
    }
    Ok(())
}

#[test]
fn pairs_words(rt: HostRuntime) -> Result<(), Fail> {
    words_over::<Scan, PlainConsole>(&rt)?;
    words_over::<Scan, RingConsole>(&rt)?;
    words_over::<Index, PlainConsole>(&rt)?;
    words_over::<Index, RingConsole>(&rt)
}

fn start_over<T: Tlb + Drop, D: Console + Drop>(
    rt: &(impl Abort + AllocGlobal),
) -> Result<(), Fail> {
    let file = file_at(rt.alloc(), ENTRY, &[0])?;
    let machine: Machine<T, D> = Machine::boot(rt.alloc(), &file, SMALLEST)?;
    // empty-schedule
    same(rt, machine.made(), 0);
    same(rt, machine.log_len(), 0);
    same(rt, machine.is_off(), false);
    same(rt, machine.output().is_empty(), true);
    if machine.processors() == 1 {
        same(rt, machine.pc(0), ENTRY);
    }
    Ok(())
}

#[test]
fn pairs_without_events(rt: HostRuntime) -> Result<(), Fail> {
    start_over::<Scan, PlainConsole>(&rt)?;
    start_over::<Scan, RingConsole>(&rt)?;
    start_over::<Index, PlainConsole>(&rt)?;
    start_over::<Index, RingConsole>(&rt)
}
