//! Worked rows: a program as a listing, its Steps, and what they leave.
//!
//! A `Worked` row runs on a machine of 4,096 bytes with one processor. All its Steps but the last
//! have to execute an instruction; the last has the outcome that the row names. A `Run` names each
//! event and its answer, on a machine of any size.
//!
//! Both forms run over each TLB with each console. In both a Step that traps or is idle has to leave the general registers, HI and LO of all
//! processors and the memory as they were, and a refused event all that the views show, but for the
//! TLB rows of other processors than 0. The log of each has to agree with another machine of the
//! same file.
//!
//! The words of `programs` are those of GNU as 2.40 for mips-linux-gnu, the others were assembled
//! from their texts without it. A text is for the reader: no test compares it with its word. What
//! they leave is worked out by hand from Kane's descriptions and this project's own rules.

use super::same;
use m161_bus::Console;
use m161_console::{PlainConsole, RingConsole};
use m161_cop0::REGISTERS;
use m161_isa::Reg;
use m161_machine::{
    Conf, Event, Exception, LinkUnit, Machine, Outcome, ProcessorState, Refusal,
    Register as CopRegister,
};
use m161_steplog::{Comparison, verify};
use m161_test_support::files::{file_at, file_from};
use m161_test_support::outcomes::{Answer, ENTRY, RAN, SMALLEST, Times};
use m161_tlb::Tlb;
use m161_tlb_index::Index;
use m161_tlb_scan::Scan;
use std::alloc::Global;
use std::process::Abort;
use std::test::Fail;

/// A worked row of Steps of one processor.
pub(crate) struct Worked {
    pub name: &'static str,
    /// The address of its first word, where the processor starts.
    pub entry: u32,
    /// Its words, each with its assembly text.
    pub program: &'static [(u32, &'static str)],
    /// How many Steps are made.
    pub steps: u32,
    /// What the last of them answers.
    pub last: Answer,
    /// What is left.
    pub left: &'static [Left],
}

/// A worked row of several processors or of other events than Steps of processor 0.
#[derive(Drop)]
pub(crate) struct Run {
    pub name: &'static str,
    /// Bytes of RAM.
    pub ram: u32,
    pub processors: u32,
    /// Where processor 0 starts.
    pub entry: u32,
    /// The address of its first word.
    pub base: u32,
    /// Its words, each with its assembly text.
    pub program: &'static [(u32, &'static str)],
    /// What is done, one after the other.
    pub stages: &'static [Stage],
}

/// Some events, and what is left after them.
pub(crate) struct Stage {
    pub events: &'static [Times],
    /// Each of a processor; memory and the console are the same for all.
    pub left: &'static [(u32, Left)],
}

/// A part of a machine and what is left there.
#[derive(Clone, Copy, Debug, PartialEq)]
pub(crate) enum Left {
    /// A general register, by its number.
    Register(u8, u32),
    Hi(u32),
    Lo(u32),
    Pc(u32),
    /// Whether the present instruction is in a delay slot.
    Slot(bool),
    /// The word at a physical address.
    Memory(u32, u32),
    /// There is no word at a physical address.
    NoMemory(u32),
    /// A register of coprocessor 0.
    Cop(CopRegister, u32),
    /// A row of the TLB: its number, its word in EntryHi and its word in EntryLo.
    TlbRow(u8, u32, u32),
    State(ProcessorState),
    /// How many Steps were made.
    Count(u64),
    /// How many bytes the console has sent, and the last of them.
    Output(usize, Option<u8>),
    /// How many events were accepted.
    Entries(usize),
}

/// Runs rows over each TLB and each console, and fails the test at the first that leaves something
/// else.
pub(crate) fn check(rt: &(impl Abort + AllocGlobal), rows: &[Worked]) -> Result<(), Fail> {
    check_over::<Scan, PlainConsole>(rt, rows)?;
    check_over::<Scan, RingConsole>(rt, rows)?;
    check_over::<Index, PlainConsole>(rt, rows)?;
    check_over::<Index, RingConsole>(rt, rows)
}

fn check_over<T: Tlb + Drop, D: Console + Drop>(
    rt: &(impl Abort + AllocGlobal),
    rows: &[Worked],
) -> Result<(), Fail> {
    for row in rows {
        let words = words_of(rt.alloc(), row.program)?;
        let machine: Machine<T, D> = last_step(
            rt, row.name, row.entry, &words, row.steps, row.last,
        )?;
        for left in row.left {
            same(
                rt,
                (row.name, part_of(rt, &machine, 0, *left)),
                (row.name, *left),
            );
        }
    }
    Ok(())
}

/// The same of rows with events.
pub(crate) fn check_runs(rt: &(impl Abort + AllocGlobal), runs: &[Run]) -> Result<(), Fail> {
    for run in runs {
        check_run(rt, LinkUnit::Word, run)?;
    }
    Ok(())
}

/// The same of one row, with links to words or to lines.
pub(crate) fn check_run(
    rt: &(impl Abort + AllocGlobal),
    link: LinkUnit,
    run: &Run,
) -> Result<(), Fail> {
    check_run_over::<Scan, PlainConsole>(rt, link, run)?;
    check_run_over::<Scan, RingConsole>(rt, link, run)?;
    check_run_over::<Index, PlainConsole>(rt, link, run)?;
    check_run_over::<Index, RingConsole>(rt, link, run)
}

fn check_run_over<T: Tlb + Drop, D: Console + Drop>(
    rt: &(impl Abort + AllocGlobal),
    link: LinkUnit,
    run: &Run,
) -> Result<(), Fail> {
    let words = words_of(rt.alloc(), run.program)?;
    let file = file_from(rt.alloc(), run.entry, run.base, &words)?;
    let mut machine: Machine<T, D> = boot_run(rt.alloc(), link, run, &file)?;
    make_stages(rt, run.name, &mut machine, run.stages)?;
    check_log(rt, run.name, &file, &machine)
}

/// The same of a row with other words at places of its program, and with an end of its own.
pub(crate) fn check_with(
    rt: &(impl Abort + AllocGlobal),
    run: &Run,
    others: &[(usize, u32)],
    text: &str,
    events: &[Times],
    left: &[(u32, Left)],
) -> Result<(), Fail> {
    check_linked(rt, LinkUnit::Word, run, others, text, events, left)
}

/// The same with links to words or to lines.
pub(crate) fn check_linked(
    rt: &(impl Abort + AllocGlobal),
    link: LinkUnit,
    run: &Run,
    others: &[(usize, u32)],
    text: &str,
    events: &[Times],
    left: &[(u32, Left)],
) -> Result<(), Fail> {
    check_linked_over::<Scan, PlainConsole>(rt, link, run, others, text, events, left)?;
    check_linked_over::<Scan, RingConsole>(rt, link, run, others, text, events, left)?;
    check_linked_over::<Index, PlainConsole>(rt, link, run, others, text, events, left)?;
    check_linked_over::<Index, RingConsole>(rt, link, run, others, text, events, left)
}

fn check_linked_over<T: Tlb + Drop, D: Console + Drop>(
    rt: &(impl Abort + AllocGlobal),
    link: LinkUnit,
    run: &Run,
    others: &[(usize, u32)],
    text: &str,
    events: &[Times],
    left: &[(u32, Left)],
) -> Result<(), Fail> {
    let mut words = words_of(rt.alloc(), run.program)?;
    for (place, other) in others {
        if let Some(word) = words.get_mut(*place) {
            *word = *other;
        }
    }
    let file = file_from(rt.alloc(), run.entry, run.base, &words)?;
    let mut machine: Machine<T, D> = boot_run(rt.alloc(), link, run, &file)?;
    make_stages(rt, text, &mut machine, run.stages)?;
    make(rt, text, &mut machine, events)?;
    compare(rt, text, &machine, left);
    check_log(rt, text, &file, &machine)
}

/// Fails the test where a machine's log isn't that of a machine of the same file.
pub(crate) fn check_log<T: Tlb + Drop, D: Console + Drop>(
    rt: &(impl Abort + AllocGlobal),
    name: &str,
    file: &[u8],
    machine: &Machine<T, D>,
) -> Result<(), Fail> {
    let log = machine.copy_log(rt.alloc())?;
    let found = verify::<T, D>(rt.alloc(), file, machine.conf(), &log)?;
    same(rt, (name, found), (name, Comparison::Agrees));
    Ok(())
}

/// The machine of a row, booted from its file.
fn boot_run<T: Tlb + Drop, D: Console + Drop>(
    alloc: Global,
    link: LinkUnit,
    run: &Run,
    file: &[u8],
) -> Result<Machine<T, D>, Fail> {
    let conf = Conf {
        ram: run.ram,
        processors: run.processors,
        log: 1000,
        link,
        strict: false,
    };
    Ok(Machine::boot(alloc, file, conf)?)
}

/// The words of a program.
fn words_of(alloc: Global, program: &[(u32, &str)]) -> Result<Vec<u32>, Fail> {
    let mut words = Vec::new(alloc);
    for (word, _) in program {
        words.push(*word)?;
    }
    Ok(words)
}

/// Makes the events of stages, and compares what each leaves.
pub(crate) fn make_stages<T: Tlb + Drop, D: Console + Drop>(
    rt: &(impl Abort + AllocGlobal),
    name: &str,
    machine: &mut Machine<T, D>,
    stages: &[Stage],
) -> Result<(), Fail> {
    for stage in stages {
        make(rt, name, machine, stage.events)?;
        compare(rt, name, machine, stage.left);
    }
    Ok(())
}

/// Makes events, and fails the test at the first with another answer, or that changes something
/// that it has to leave.
pub(crate) fn make<T: Tlb + Drop, D: Console + Drop>(
    rt: &(impl Abort + AllocGlobal),
    name: &str,
    machine: &mut Machine<T, D>,
    events: &[Times],
) -> Result<(), Fail> {
    for (event, times, answer) in events {
        for _ in 0..*times {
            make_one(rt, name, machine, *event, *answer)?;
        }
    }
    Ok(())
}

/// Makes an event, and fails the test where the answer is another or something changes that has to
/// stay.
fn make_one<T: Tlb + Drop, D: Console + Drop>(
    rt: &(impl Abort + AllocGlobal),
    name: &str,
    machine: &mut Machine<T, D>,
    event: Event,
    answer: Answer,
) -> Result<(), Fail> {
    if !leaves_values(answer) {
        check_answer(rt, name, machine, event, answer);
        return Ok(());
    }
    let values = values_of(rt, machine, answer.is_err())?;
    let memory = Vec::from_slice(rt.alloc(), machine.memory())?;
    check_answer(rt, name, machine, event, answer);
    let place = (name, machine.log_len(), event);
    let after = values_of(rt, machine, answer.is_err())?;
    same(rt, (place, change(&values, &after)), (place, None));
    same(
        rt,
        (place, change(&memory, machine.memory())),
        (place, None),
    );
    Ok(())
}

/// Fails the test where an event is answered otherwise.
fn check_answer<T: Tlb + Drop, D: Console + Drop>(
    rt: &impl Abort,
    name: &str,
    machine: &mut Machine<T, D>,
    event: Event,
    answer: Answer,
) {
    let found = machine.event(event);
    let place = (name, machine.log_len(), event);
    same(rt, (place, found), (place, answer));
}

/// Whether an event with this answer leaves registers and memory.
fn leaves_values(answer: Answer) -> bool {
    match answer {
        Ok(Outcome::Trapped { code: _, vector: _ }) => true,
        Ok(Outcome::Idle) => true,
        Ok(_) => false,
        Err(_) => true,
    }
}

/// The first place where two lists differ, with the item there in each; their lengths where one
/// is longer.
fn change<T: PartialEq + Copy>(before: &[T], after: &[T]) -> Option<(usize, Option<T>, Option<T>)> {
    for (i, (old, new)) in before.iter().zip(after).enumerate() {
        if *old != *new {
            return Some((i, Some(*old), Some(*new)));
        }
    }
    if before.len() != after.len() {
        return Some((before.len().min(after.len()), None, None));
    }
    None
}

/// The general registers, HI and LO of each processor; with `all` whatever else the views show,
/// but for memory and the TLB rows of other processors than 0.
fn values_of<T: Tlb + Drop, D: Console + Drop>(
    rt: &(impl Abort + AllocGlobal),
    machine: &Machine<T, D>,
    all: bool,
) -> Result<Vec<u64>, Fail> {
    let mut values = Vec::new(rt.alloc());
    for p in 0..machine.processors() {
        push_registers(rt, machine, p, &mut values)?;
        if all {
            push_control(rt, machine, p, &mut values)?;
        }
    }
    if all {
        push_rows(rt, machine, &mut values)?;
        values.push(machine.log_len() as u64)?;
        values.push(u64::from(machine.is_off()))?;
        for byte in machine.output() {
            values.push(u64::from(*byte))?;
        }
    }
    Ok(values)
}

/// Appends a processor's general registers, HI and LO.
fn push_registers<T: Tlb + Drop, D: Console + Drop>(
    rt: &impl Abort,
    machine: &Machine<T, D>,
    p: u32,
    values: &mut Vec<u64>,
) -> Result<(), Fail> {
    assert!(rt; p < machine.processors());
    for r in 0..32u8 {
        values.push(u64::from(machine.reg(p, Reg::new(r))))?;
    }
    values.push(u64::from(machine.hi(p)))?;
    values.push(u64::from(machine.lo(p)))?;
    Ok(())
}

/// Appends what else the views show of a processor, but for its TLB.
fn push_control<T: Tlb + Drop, D: Console + Drop>(
    rt: &impl Abort,
    machine: &Machine<T, D>,
    p: u32,
    values: &mut Vec<u64>,
) -> Result<(), Fail> {
    assert!(rt; p < machine.processors());
    for register in &REGISTERS {
        values.push(u64::from(machine.cop(p, *register)))?;
    }
    values.push(u64::from(machine.pc(p)))?;
    values.push(u64::from(machine.in_slot(p)))?;
    values.push(machine.count(p))?;
    values.push(match machine.state(p) {
        ProcessorState::Stopped => 0,
        ProcessorState::Running => 1,
        ProcessorState::Waiting => 2,
    })?;
    Ok(())
}

/// Appends the words of processor 0's TLB rows.
fn push_rows<T: Tlb + Drop, D: Console + Drop>(
    rt: &impl Abort,
    machine: &Machine<T, D>,
    values: &mut Vec<u64>,
) -> Result<(), Fail> {
    assert!(rt; machine.processors() > 0);
    for i in 0..64u8 {
        let row = machine.row(0, i);
        values.push(u64::from(row.entry_hi()))?;
        values.push(u64::from(row.entry_lo()))?;
    }
    Ok(())
}

/// Fails the test where other parts are left.
pub(crate) fn compare<T: Tlb + Drop, D: Console + Drop>(
    rt: &impl Abort,
    name: &str,
    machine: &Machine<T, D>,
    left: &[(u32, Left)],
) {
    for (p, part) in left {
        let place = (name, machine.log_len(), *p);
        same(rt, (place, part_of(rt, machine, *p, *part)), (place, *part));
    }
}

/// What is left at the same part of a machine, of a processor.
pub(crate) fn part_of<T: Tlb + Drop, D: Console + Drop>(
    rt: &impl Abort,
    machine: &Machine<T, D>,
    p: u32,
    part: Left,
) -> Left {
    assert!(rt; p < machine.processors());
    match part {
        Left::Register(r, _) => {
            assert!(rt; r < 32);
            Left::Register(r, machine.reg(p, Reg::new(r)))
        }
        Left::Hi(_) => Left::Hi(machine.hi(p)),
        Left::Lo(_) => Left::Lo(machine.lo(p)),
        Left::Pc(_) => Left::Pc(machine.pc(p)),
        Left::Slot(_) => Left::Slot(machine.in_slot(p)),
        Left::Memory(at, _) | Left::NoMemory(at) => match machine.word(at) {
            Some(word) => Left::Memory(at, word),
            None => Left::NoMemory(at),
        },
        Left::Cop(register, _) => Left::Cop(register, machine.cop(p, register)),
        Left::TlbRow(i, _, _) => {
            assert!(rt; i < 64);
            let row = machine.row(p, i);
            Left::TlbRow(i, row.entry_hi(), row.entry_lo())
        }
        Left::State(_) => Left::State(machine.state(p)),
        Left::Count(_) => Left::Count(machine.count(p)),
        Left::Output(_, _) => {
            Left::Output(machine.output().len(), machine.output().last().copied())
        }
        Left::Entries(_) => Left::Entries(machine.log_len()),
    }
}

/// The smallest machine after `steps` Steps of these words, of which all but the last execute an
/// instruction, and the last has this answer. Its log has to replay.
pub(crate) fn last_step<T: Tlb + Drop, D: Console + Drop>(
    rt: &(impl Abort + AllocGlobal),
    name: &str,
    entry: u32,
    words: &[u32],
    steps: u32,
    last: Answer,
) -> Result<Machine<T, D>, Fail> {
    let file = file_at(rt.alloc(), entry, words)?;
    let mut machine = Machine::boot(rt.alloc(), &file, SMALLEST)?;
    run_steps(rt, &mut machine, steps.saturating_sub(1));
    make_one(rt, name, &mut machine, Event::Step(0), last)?;
    check_log(rt, name, &file, &machine)?;
    Ok(machine)
}

/// Makes `steps` Steps, each of which executes an instruction.
pub(crate) fn run_steps<T: Tlb + Drop, D: Console + Drop>(
    rt: &impl Abort,
    machine: &mut Machine<T, D>,
    steps: u32,
) {
    for _ in 0..steps {
        same(rt, machine.step(0), RAN);
    }
}
