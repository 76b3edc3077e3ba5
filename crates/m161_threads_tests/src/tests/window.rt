//! The window of the log: its last entries, and the base from which they lead to the machine.

use super::same;
use m161::{Core, Machine};
use m161_cop0::REGISTERS;
use m161_isa::Reg;
use m161_machine::{Conf, Entry, Event, LinkUnit, Outcome, Refusal, worn};
use m161_steplog::{Mode, TextFault, read_log, write_tail};
use m161_test_support::files::file_at;
use m161_test_support::kernel::{SCHEDULE, kernel_file};
use m161_test_support::outcomes::ENTRY;
use std::process::Abort;
use std::test::Fail;

/// What a processor of a state shows, but for its TLB.
#[derive(Clone, Copy, Debug, PartialEq)]
struct Seen {
    pc: u32,
    in_slot: bool,
    count: u64,
    hi: u32,
    lo: u32,
    registers: [u32; 32],
    cop: [u32; 12],
}

fn look(rt: &impl Abort, core: &Core, p: u32) -> Seen {
    assert!(rt; p < core.processors());
    let mut registers = [0; 32];
    for r in 0..32u8 {
        registers[usize::from(r)] = core.reg(p, Reg::new(r));
    }
    let mut cop = [0; 12];
    for (word, register) in cop.iter_mut().zip(REGISTERS.iter()) {
        *word = core.cop(p, *register);
    }
    Seen {
        pc: core.pc(p),
        in_slot: core.in_slot(p),
        count: core.count(p),
        hi: core.hi(p),
        lo: core.lo(p),
        registers,
        cop,
    }
}

/// Fails the test where two states differ in a view.
fn compare(rt: &impl Abort, one: &Core, other: &Core) {
    same(
        rt,
        (one.made(), one.is_off()),
        (other.made(), other.is_off()),
    );
    same(rt, one.output(), other.output());
    same(rt, one.memory(), other.memory());
    same(rt, one.processors(), other.processors());
    for p in 0..one.processors() {
        same(rt, look(rt, one, p), look(rt, other, p));
        for i in 0..64u8 {
            assert!(rt; p < one.processors() && p < other.processors());
            same(rt, one.row(p, i), other.row(p, i));
        }
    }
}

/// Makes a log's events on its base: with the log's outcomes they lead to this state.
pub(crate) fn check_from(rt: &impl Abort, mut base: Core, log: &[Entry], state: &Core) {
    for entry in log {
        same(rt, base.event(entry.event), Ok(entry.outcome));
    }
    compare(rt, &base, state);
}

/// The same with a copy of a machine's base, and its log.
pub(crate) fn check_base(rt: &(impl Abort + AllocGlobal), machine: &Machine) -> Result<(), Fail> {
    let base = machine.base().copy(rt.alloc())?;
    let log = machine.copy_log(rt.alloc())?;
    check_from(rt, base, &log, machine.core());
    Ok(())
}

/// A log's entry.
fn log_at(machine: &Machine, i: usize) -> Option<Entry> {
    if i < machine.log_len() {
        Some(machine.log_at(i))
    } else {
        None
    }
}

#[test]
fn dropped_entry(rt: HostRuntime) -> Result<(), Fail> {
    // lui $8, 0xbfff; sw $0, 32264($8)
    let file = file_at(rt.alloc(), ENTRY, &[0x3c08_bfff, 0xad00_7e08])?;
    let conf = Conf {
        ram: 4096,
        processors: 1,
        log: 1,
        link: LinkUnit::Word,
        strict: false,
    };
    let mut machine = Machine::boot(rt.alloc(), &file, conf)?;
    same(&rt, machine.step(0), Ok(Outcome::Ran));
    same(&rt, machine.step(0), Ok(Outcome::PoweredOff));
    same(&rt, (machine.made(), machine.log_len()), (2, 1));
    let off = Entry {
        event: Event::Step(0),
        outcome: Outcome::PoweredOff,
    };
    same(&rt, log_at(&machine, 0), Some(off));
    let base = machine.base();
    assert!(&rt; base.processors() > 0);
    same(&rt, (base.pc(0), base.count(0)), (0x8000_0204, 1));
    check_base(&rt, &machine)?;
    // So that the proof knows that only a strict machine's log has conflicts.
    machine.replay();
    let conf = machine.conf();
    let mode = Mode {
        link: conf.link,
        strict: conf.strict,
    };
    let log = machine.copy_log(rt.alloc())?;
    let tail = write_tail(rt.alloc(), mode, base.made(), &log)?;
    same(&rt, tail.as_str(), "m161 tail 2 word 1\ns 0 off\n");
    same(
        &rt,
        read_log(rt.alloc(), tail.as_str()).err(),
        Some(TextFault::Line(1)),
    );
    let base = machine.into_base();
    same(&rt, (base.made(), base.is_off()), (1, false));
    Ok(())
}

/// A machine that has sent a byte: after six events its window of two has dropped the Done.
pub(crate) fn sent_and_dropped(rt: &(impl Abort + AllocGlobal)) -> Result<Machine, Fail> {
    let words = [
        0x3c08_bfe0, // lui $8, 0xbfe0
        0x3409_0041, // ori $9, $0, 0x41
        0xad09_0000, // sw $9, 0($8)
        0x1000_ffff, // beq $0, $0, 0x8000020c
        0,
    ];
    let file = file_at(rt.alloc(), ENTRY, &words)?;
    let conf = Conf {
        ram: 4096,
        processors: 1,
        log: 2,
        link: LinkUnit::Word,
        strict: false,
    };
    let mut machine = Machine::boot(rt.alloc(), &file, conf)?;
    same(rt, machine.done(), Err(Refusal::NothingSent));
    same(rt, machine.steps(0, 3), (3, None));
    same(rt, machine.latch(), Some(0x41));
    same(rt, machine.done(), Ok(Outcome::Taken));
    same(rt, (machine.latch(), machine.base().latch()), (None, None));
    same(rt, machine.steps(0, 2), (2, None));
    Ok(machine)
}

#[test]
fn console_room(rt: HostRuntime) -> Result<(), Fail> {
    let machine = sent_and_dropped(&rt)?;
    same(&rt, (machine.made(), machine.base().made()), (6, 4));
    same(&rt, machine.output(), b"A".as_slice());
    same(&rt, machine.base().output(), b"A".as_slice());
    check_base(&rt, &machine)
}

/// The sample kernel under its schedule with a window of this size: at each place the base and the
/// kept entries give the machine again.
fn windows_of(rt: &(impl Abort + AllocGlobal), file: &[u8], log: u32) -> Result<(), Fail> {
    let conf = Conf {
        ram: 65_536,
        processors: 2,
        log,
        link: LinkUnit::Word,
        strict: false,
    };
    let mut machine = Machine::boot(rt.alloc(), file, conf)?;
    let mut made = 0u64;
    for (event, times, _) in &SCHEDULE {
        for _ in 0..*times {
            made = made.saturating_add(1);
            assert!(rt; machine.event(*event).is_ok());
            same(rt, machine.made(), made);
            same(rt, machine.log_len() as u64, made.min(u64::from(log)));
            check_base(rt, &machine)?;
        }
    }
    same(
        rt,
        machine.base().made(),
        81u64.saturating_sub(u64::from(log)),
    );
    Ok(())
}

#[test]
fn windows_of_one(rt: HostRuntime) -> Result<(), Fail> {
    let file = kernel_file(rt.alloc())?;
    windows_of(&rt, &file, 1)
}

#[test]
fn windows_of_two_and_81(rt: HostRuntime) -> Result<(), Fail> {
    let file = kernel_file(rt.alloc())?;
    windows_of(&rt, &file, 2)?;
    windows_of(&rt, &file, 81)
}

#[test]
fn link_across_a_drop(rt: HostRuntime) -> Result<(), Fail> {
    let words = [
        0x3c08_8000, // lui $8, 0x8000
        0xc109_0400, // ll $9, 1024($8)
        0,
        0,
        0xe109_0400, // sc $9, 1024($8)
    ];
    let file = file_at(rt.alloc(), ENTRY, &words)?;
    let conf = Conf {
        ram: 4096,
        processors: 1,
        log: 1,
        link: LinkUnit::Word,
        strict: false,
    };
    let mut machine = Machine::boot(rt.alloc(), &file, conf)?;
    for _ in 0..5 {
        same(&rt, machine.step(0), Ok(Outcome::Ran));
        check_base(&rt, &machine)?;
    }
    assert!(&rt; machine.processors() > 0);
    same(&rt, machine.reg(0, Reg::new(9)), 1);
    Ok(())
}

#[test]
fn worn_at_last(rt: HostRuntime) {
    same(&rt, worn(9_223_372_036_854_775_806), false);
    same(&rt, worn(9_223_372_036_854_775_807), true);
}

/// Twelve events: Steps, a typed byte, Steps, and the end of a transfer.
static ROUND: [(Event, u32); 4] = [
    (Event::Step(0), 5),
    (Event::Key(0x62), 1),
    (Event::Step(0), 5),
    (Event::Done, 1),
];

/// A kernel that sends what is typed, for 200,000 events with a window of 65,536: the base and the
/// kept entries give the machine again.
#[test]
fn long_run(rt: HostRuntime) -> Result<(), Fail> {
    let words = [
        0x3c08_bfe0, // lui $8, 0xbfe0
        0x8d09_0000, // lw $9, 0($8)
        0xad09_0000, // sw $9, 0($8)
        0x1000_fffd, // beq $0, $0, 0x80000204
        0,
    ];
    let file = file_at(rt.alloc(), ENTRY, &words)?;
    let conf = Conf {
        ram: 4096,
        processors: 1,
        log: 65_536,
        link: LinkUnit::Word,
        strict: false,
    };
    let mut machine = Machine::boot(rt.alloc(), &file, conf)?;
    for round in 1..16_668u32 {
        for (event, times) in &ROUND {
            for _ in 0..*times {
                same(&rt, machine.event(*event).is_ok(), true);
            }
        }
        if round % 4_000 == 0 {
            check_base(&rt, &machine)?;
        }
    }
    same(&rt, (machine.made(), machine.log_len()), (200_004, 65_536));
    same(
        &rt,
        (machine.base().made(), machine.output().len()),
        (134_468, 16_667),
    );
    check_base(&rt, &machine)
}
