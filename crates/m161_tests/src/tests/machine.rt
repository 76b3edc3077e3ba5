//! Machines by their public calls.

use super::listing::{Left, part_of, run_steps};
use super::same;
use m161::Machine;
use m161_elf::LoadError;
use m161_isa::Reg;
use m161_machine::{
    BootError, Conf, Entry, Event, LinkUnit, Outcome, ProcessorState, Refusal, Register,
};
use m161_test_support::DEMO_CONF as CONF;
use m161_test_support::files::{IMAGE, file_at};
use m161_test_support::outcomes::{ENTRY, RAN};
use std::alloc::Global;
use std::process::Abort;
use std::test::Fail;

/// Entry `i` of the log, if there is one.
fn log_at(machine: &Machine, i: usize) -> Option<Entry> {
    if i < machine.log_len() {
        Some(machine.log_at(i))
    } else {
        None
    }
}

/// A machine and its processor 0, but for its memory, board and coprocessor 0.
#[derive(Clone, Copy, Debug, PartialEq)]
struct Seen {
    state: ProcessorState,
    pc: u32,
    in_slot: bool,
    count: u64,
    hi: u32,
    lo: u32,
    registers: [u32; 32],
    entries: usize,
    is_off: bool,
}

fn look(rt: &impl Abort, machine: &Machine) -> Seen {
    assert!(rt; machine.processors() > 0);
    let mut registers = [0; 32];
    for r in 0..32u8 {
        registers[usize::from(r)] = machine.reg(0, Reg::new(r));
    }
    Seen {
        state: machine.state(0),
        pc: machine.pc(0),
        in_slot: machine.in_slot(0),
        count: machine.count(0),
        hi: machine.hi(0),
        lo: machine.lo(0),
        registers,
        entries: machine.log_len(),
        is_off: machine.is_off(),
    }
}

/// The lines of the README, with the conditions of the last two calls tested before them.
#[test]
fn library_lines(rt: HostRuntime) -> Result<(), Fail> {
    let file = file_at(rt.alloc(), ENTRY, &[0x1000_ffff, 0])?;
    let conf = Conf {
        ram: 1_048_576,
        processors: 2,
        log: 65_536,
        link: LinkUnit::Word,
        strict: false,
    };
    let mut machine: Machine = Machine::boot(rt.alloc(), &file, conf)?;
    let (made, refusal) = machine.steps(0, 1000);
    same(&rt, (made, refusal), (1000, None));
    let outcome = machine.event(Event::Key(b'x'))?;
    same(&rt, outcome, Outcome::Taken);
    assert!(rt; machine.processors() > 0);
    let cause = machine.cop(0, Register::Cause);
    same(&rt, cause, 0);
    assert!(rt; machine.log_len() == 1001);
    let entry = machine.log_at(0);
    same(
        &rt,
        (entry.event, entry.outcome),
        (Event::Step(0), Outcome::Ran),
    );
    Ok(())
}

#[test]
fn demo_six_steps(rt: HostRuntime) -> Result<(), Fail> {
    let mut machine = Machine::boot(rt.alloc(), &IMAGE, Conf { log: 16, ..CONF })?;
    run_steps(&rt, &mut machine, 6);
    let mut registers = [0; 32];
    registers[8] = 0x1234_5678;
    registers[9] = 0xffff_ffff;
    registers[10] = 0x1234_5677;
    registers[11] = 0x8000_0000;
    let six = Seen {
        state: ProcessorState::Running,
        pc: 0x8000_0218,
        in_slot: false,
        count: 6,
        hi: 0,
        lo: 0,
        registers,
        entries: 6,
        is_off: false,
    };
    same(&rt, look(&rt, &machine), six);
    same(&rt, machine.word(0x400), Some(0x1234_5677));

    same(&rt, machine.step(0), RAN);
    for left in [
        Left::Register(12, 0x1234_5677),
        Left::Memory(0x400, 0x1234_5677),
        Left::NoMemory(2),
        Left::NoMemory(0x10_0000),
    ] {
        same(&rt, part_of(&rt, &machine, 0, left), left);
    }
    Ok(())
}

#[test]
fn log_of_a_run(rt: HostRuntime) -> Result<(), Fail> {
    let conf = Conf { log: 8, ..CONF };
    let mut machine = Machine::boot(rt.alloc(), &IMAGE, conf)?;
    same(&rt, (machine.conf(), machine.log_len()), (conf, 0));
    // seven words of the program, and the zeros after them: `nop`
    same(&rt, machine.steps(0, 7), (7, None));
    same(&rt, machine.steps(0, 9), (9, None));
    same(&rt, machine.steps(9, 1), (0, Some(Refusal::BadProcessor)));
    same(&rt, machine.steps(0, 0), (0, None));
    let ran = Entry {
        event: Event::Step(0),
        outcome: Outcome::Ran,
    };
    let log = machine.copy_log(rt.alloc())?;
    same(&rt, (machine.made(), machine.base().made()), (16, 8));
    same(&rt, log.as_slice(), [ran; 8].as_slice());
    same(&rt, log_at(&machine, 7), Some(ran));
    Ok(())
}

#[test]
fn largest_sizes(rt: HostRuntime) -> Result<(), Fail> {
    let conf = Conf {
        ram: 16_777_216,
        processors: 1,
        log: 16_777_216,
        link: LinkUnit::Word,
        strict: false,
    };
    let mut machine = Machine::boot(rt.alloc(), &IMAGE, conf)?;
    same(&rt, machine.steps(0, 7), (7, None));
    let last = Left::Memory(0x00ff_fffc, 0);
    same(&rt, part_of(&rt, &machine, 0, last), last);
    Ok(())
}

#[test]
fn refusals(rt: HostRuntime) {
    for (refusal, number, name) in [
        (Refusal::BadProcessor, 1, "BadProcessor"),
        (Refusal::Off, 2, "Off"),
        (Refusal::Worn, 8, "Worn"),
        (Refusal::KeyFull, 4, "KeyFull"),
        (Refusal::NothingSent, 5, "NothingSent"),
        (Refusal::NoMemory, 6, "NoMemory"),
    ] {
        same(&rt, (refusal.number(), refusal.name()), (number, name));
    }
}

/// Why a machine isn't booted from the first bytes of the demo's image, if it isn't.
fn boot_error(alloc: Global, length: usize, conf: Conf) -> Option<BootError> {
    Machine::boot(alloc, IMAGE.get(..length)?, conf).err()
}

#[test]
fn configuration(rt: HostRuntime) -> Result<(), Fail> {
    let bad = Some(BootError::BadConf);
    let truncated = Some(BootError::Load(LoadError::Truncated));
    for &(ram, processors, log, length, error) in &[
        (4097, 1, 7, 112, bad),
        (1_048_576, 33, 7, 112, bad),
        (1_048_576, 0, 7, 112, bad),
        (1_048_576, 1, 0, 51, bad),
        (1_048_576, 1, 7, 51, truncated),
        (1_048_576, 1, 7, 112, None),
        (1_048_576, 32, 7, 112, None),
    ] {
        let conf = Conf {
            ram,
            processors,
            log,
            link: LinkUnit::Word,
            strict: false,
        };
        let found = boot_error(rt.alloc(), length, conf);
        same(&rt, (conf, length, found), (conf, length, error));
    }

    let mut machine = Machine::boot(rt.alloc(), &IMAGE, Conf { log: 1, ..CONF })?;
    for (p, answer, entries) in [
        (9, Err(Refusal::BadProcessor), 0),
        (0, Ok(Outcome::Ran), 1),
        (0, Ok(Outcome::Ran), 1),
        (9, Err(Refusal::BadProcessor), 1),
    ] {
        let found = machine.step(p);
        same(&rt, (p, found, machine.log_len()), (p, answer, entries));
    }
    machine.replay();
    Ok(())
}

#[test]
fn off_machine(rt: HostRuntime) -> Result<(), Fail> {
    // lui $8, 0xbfff; sw $0, 32264($8)
    let file = file_at(rt.alloc(), ENTRY, &[0x3c08_bfff, 0xad00_7e08])?;
    let conf = Conf {
        ram: 4096,
        processors: 2,
        log: 2,
        link: LinkUnit::Word,
        strict: false,
    };
    let mut machine = Machine::boot(rt.alloc(), &file, conf)?;
    for (event, answer, entries) in [
        (Event::Step(0), Ok(Outcome::Ran), 1),
        (Event::Step(0), Ok(Outcome::PoweredOff), 2),
        (Event::Step(9), Err(Refusal::BadProcessor), 2),
        (Event::Step(0), Err(Refusal::Off), 2),
        (Event::Key(0x41), Err(Refusal::Off), 2),
        (Event::Done, Err(Refusal::Off), 2),
    ] {
        let found = machine.event(event);
        let place = (event, entries);
        same(
            &rt,
            (place, found, machine.log_len()),
            (place, answer, entries),
        );
    }
    Ok(())
}
