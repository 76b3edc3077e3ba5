//! States without a log: each of their public calls once.

use super::same;
use m161::Core;
use m161_isa::Reg;
use m161_machine::Event::{Done, Key, Step};
use m161_machine::{
    BoardWord, BootError, Conf, Entry, Event, LoadError, Outcome, PackedEntry, ProcessorState,
    Refusal, Register, Uses, plan_all,
};
use m161_test_support::DEMO_CONF;
use m161_test_support::files::{IMAGE, file_at};
use m161_test_support::outcomes::{Answer, ENTRY, IDLE, RAN, SMALLEST, TAKEN};
use std::alloc::{AllocGlobal, Global};
use std::process::Abort;
use std::test::Fail;

/// Sends a byte, links processor 0 to the word at 800, and jumps; the last word is in the delay
/// slot.
const SENDS: [u32; 9] = [
    0x3c08_bfe0, // lui $8, 0xbfe0
    0x3409_0068, // ori $9, $0, 0x0068
    0xad09_0000, // sw $9, 0($8)
    0x3c0a_8000, // lui $10, 0x8000
    0xc14b_0800, // ll $11, 2048($10)
    0x012a_0019, // multu $9, $10
    0x0120_0013, // mtlo $9
    0x1000_0002, // beq $0, $0, 0x80000228
    0xad49_0804, // sw $9, 2052($10)
];

/// Waits for the timer, which is far away.
const WAITS: [u32; 5] = [
    0x3408_03e8, // ori $8, $0, 1000
    0x4088_5800, // mtc0 $8, $11
    0x3408_8000, // ori $8, $0, 0x8000
    0x4088_6000, // mtc0 $8, $12
    0x4200_0020, // wait
];

/// `lui $8, 0xbfff`; `sw $0, 32264($8)`.
const POWER_OFF: [u32; 2] = [0x3c08_bfff, 0xad00_7e08];

/// A Step of processor 0 that executed its instruction.
const STEP: Entry = Entry {
    event: Step(0),
    outcome: Outcome::Ran,
};

/// The state of a program of a few words at boot.
fn boot(alloc: Global, words: &[u32]) -> Result<Core, Fail> {
    let file = file_at(alloc, ENTRY, words)?;
    Ok(Core::boot(alloc, &file, SMALLEST)?)
}

/// Why a file isn't booted, if it isn't.
fn fault_of(alloc: Global, file: &[u8], conf: Conf) -> Option<BootError> {
    Core::boot(alloc, file, conf).err()
}

#[test]
fn core_boots(rt: HostRuntime) -> Result<(), Fail> {
    let bad = Conf {
        processors: 33,
        ..DEMO_CONF
    };
    let found = fault_of(rt.alloc(), &IMAGE, bad);
    same(&rt, found, Some(BootError::BadConf));
    let found = fault_of(rt.alloc(), &[], DEMO_CONF);
    same(&rt, found, Some(BootError::Load(LoadError::Truncated)));
    let core = Core::boot(rt.alloc(), &IMAGE, DEMO_CONF)?;
    core.law();
    assert!(rt; core.processors() == 1);
    same(&rt, (core.pc(0), core.made()), (0x8000_0200, 0));
    same(&rt, core.conf(), DEMO_CONF);
    Ok(())
}

#[test]
fn core_steps(rt: HostRuntime) -> Result<(), Fail> {
    let mut core = Core::boot(rt.alloc(), &IMAGE, DEMO_CONF)?;
    same(&rt, core.step(1), Err(Refusal::BadProcessor));
    same(&rt, core.step(0), RAN);
    let mut entries = [PackedEntry::blank(); 5];
    let found = core.steps(1, &mut entries);
    same(&rt, found, (0, Some(Refusal::BadProcessor)));
    same(&rt, core.steps(0, &mut []), (0, None));
    same(&rt, core.steps(0, &mut entries), (5, None));
    for entry in &entries {
        same(&rt, entry.entry(), STEP);
    }
    same(&rt, core.word(0x400), Some(0x1234_5677));
    assert!(rt; core.processors() == 1);
    same(&rt, (core.pc(0), core.made()), (0x8000_0218, 6));
    Ok(())
}

#[test]
fn core_steps_to_the_end(rt: HostRuntime) -> Result<(), Fail> {
    let mut core = boot(rt.alloc(), &POWER_OFF)?;
    let mut entries = [PackedEntry::blank(); 4];
    same(&rt, core.steps(0, &mut entries), (2, Some(Refusal::Off)));
    for (entry, outcome) in entries.iter().zip(&[Outcome::Ran, Outcome::PoweredOff]) {
        let expected = Entry {
            event: Step(0),
            outcome: *outcome,
        };
        same(&rt, entry.entry(), expected);
    }
    same(&rt, (core.is_off(), core.made()), (true, 2));
    same(&rt, core.refusal(0), Some(Refusal::Off));
    same(&rt, core.refusal(1), Some(Refusal::BadProcessor));
    same(&rt, core.refusal_of_done(), Some(Refusal::Off));
    same(&rt, core.conflict(), None);
    Ok(())
}

/// Makes a Step that isn't refused, by the call that tests no refusal.
fn make_one(core: &mut Core) -> Result<(), Refusal> {
    match core.refusal(0) {
        None => {
            core.make(0);
            Ok(())
        }
        Some(refusal) => Err(refusal),
    }
}

#[test]
fn core_makes_steps(rt: HostRuntime) -> Result<(), Fail> {
    let mut core = boot(rt.alloc(), &POWER_OFF)?;
    same(&rt, make_one(&mut core), Ok(()));
    assert!(rt; core.processors() == 1);
    same(&rt, core.reg(0, Reg::new(8)), 0xbfff_0000);
    same(&rt, make_one(&mut core), Ok(()));
    same(&rt, make_one(&mut core), Err(Refusal::Off));
    same(&rt, (core.is_off(), core.made()), (true, 2));
    Ok(())
}

#[test]
fn core_makes_stretches(rt: HostRuntime) -> Result<(), Fail> {
    let mut core = Core::boot(rt.alloc(), &IMAGE, DEMO_CONF)?;
    let mut places = [PackedEntry::blank(); 6];
    plan_all(&mut places, 0);
    assert!(rt; core.processors() == 1);
    assert!(rt; !core.is_off());
    assert!(rt; core.made() == 0);
    let made = core.stretch(&mut places);
    // How many of the six is left open.
    assert!(rt; made >= 1);
    assert!(rt; made <= 6);
    for place in &places {
        same(&rt, place.entry(), STEP);
    }
    same(&rt, core.made(), made as u64);
    assert!(rt; core.processors() == 1);
    same(&rt, core.count(0), made as u64);
    same(&rt, u64::from(core.pc(0)), 0x8000_0200 + 4 * made as u64);
    Ok(())
}

/// Events of `SENDS`, each with its answer.
static EVENTS: [(Event, Answer); 8] = [
    (Step(0), RAN),
    (Done, Err(Refusal::NothingSent)),
    (Step(0), RAN),
    (Step(1), Err(Refusal::BadProcessor)),
    (Step(0), RAN),
    (Key(0x41), TAKEN),
    (Done, TAKEN),
    (Done, Err(Refusal::NothingSent)),
];

/// The entry of an event, or why it is refused.
fn packed(core: &mut Core, event: Event) -> Result<Entry, Refusal> {
    match core.packed_event(event) {
        Ok(made) => Ok(made.entry()),
        Err(refusal) => Err(refusal),
    }
}

/// An answer with its event.
fn entry_of(event: Event, answer: Answer) -> Result<Entry, Refusal> {
    match answer {
        Ok(outcome) => Ok(Entry { event, outcome }),
        Err(refusal) => Err(refusal),
    }
}

#[test]
fn core_events(rt: HostRuntime) -> Result<(), Fail> {
    let mut core = boot(rt.alloc(), &SENDS)?;
    let mut other = boot(rt.alloc(), &SENDS)?;
    for (event, answer) in &EVENTS {
        same(&rt, (*event, core.event(*event)), (*event, *answer));
        let found = packed(&mut other, *event);
        same(&rt, found, entry_of(*event, *answer));
    }
    same(&rt, (core.made(), other.made()), (5, 5));
    same(&rt, core.output(), b"h".as_slice());
    same(&rt, other.output(), b"h".as_slice());
    Ok(())
}

/// Makes Steps, each of which executes an instruction.
fn run(rt: &impl Abort, core: &mut Core, steps: u32) {
    for _step in 0..steps {
        same(rt, core.step(0), RAN);
    }
}

#[test]
fn core_sends(rt: HostRuntime) -> Result<(), Fail> {
    let mut core = boot(rt.alloc(), &SENDS)?;
    same(&rt, core.refusal_of_done(), Some(Refusal::NothingSent));
    same(&rt, core.done(), Err(Refusal::NothingSent));
    run(&rt, &mut core, 3);
    same(&rt, core.refusal_of_done(), None);
    same(&rt, core.latch(), Some(b'h'));
    core.reserve(10)?;
    assert!(rt; core.room() >= 10);
    same(&rt, core.key(b'x'), TAKEN);
    same(&rt, core.done(), TAKEN);
    assert!(rt; core.room() >= 9);
    same(&rt, (core.latch(), core.waiting()), (None, 1));
    same(&rt, core.output(), b"h".as_slice());
    same(&rt, core.board_word(BoardWord::WriteIrq), 2);
    same(&rt, core.board_word(BoardWord::ReadIrq), 2);
    same(&rt, core.made(), 5);
    Ok(())
}

/// What is shown of processor 0 before the last word of `SENDS`.
fn check_processor(rt: &impl Abort, core: &Core) {
    assert!(rt; core.processors() == 1);
    let place = (core.pc(0), core.in_slot(0), core.count(0));
    same(rt, place, (0x8000_0220, true, 8));
    same(rt, core.state(0), ProcessorState::Running);
    same(rt, core.reg(0, Reg::new(9)), 0x68);
    same(rt, (core.hi(0), core.lo(0)), (0x34, 0x68));
    same(rt, core.cop(0, Register::Random), 0x3700);
    let row = core.row(0, 5);
    same(rt, (row.entry_hi(), row.entry_lo()), (0x8000_5000, 0));
    same(rt, core.link(0), Some(0x800));
    same(rt, core.fetched_word(0, 0x8000_0220), Some(0xad49_0804));
    same(rt, core.fetched_word(0, 0x0040_0000), None);
    let uses = Uses {
        fetch: None,
        access: None,
        stored: Some(0x804),
    };
    same(rt, core.uses(0), uses);
    same(rt, (core.rests(0), core.ticks(0)), (false, false));
}

/// What is shown of the machine then.
fn check_machine(rt: &impl Abort, core: &Core) {
    same(rt, core.memory().len(), 4096);
    same(rt, core.word(0x200), Some(0x3c08_bfe0));
    same(rt, (core.word(0x804), core.word(0x1000)), (Some(0), None));
    same(rt, (core.latch(), core.waiting()), (Some(b'h'), 0));
    same(rt, core.output().len(), 0);
    same(rt, core.board_word(BoardWord::Cpue), 1);
    same(rt, (core.made(), core.is_off()), (8, false));
    same(rt, (core.conf(), core.conflict()), (SMALLEST, None));
}

#[test]
fn core_is_copied(rt: HostRuntime) -> Result<(), Fail> {
    let mut core = boot(rt.alloc(), &SENDS)?;
    run(&rt, &mut core, 8);
    check_processor(&rt, &core);
    check_machine(&rt, &core);
    let mut copy = core.copy(rt.alloc())?;
    check_processor(&rt, &copy);
    check_machine(&rt, &copy);
    run(&rt, &mut copy, 1);
    same(&rt, (copy.made(), copy.word(0x804)), (9, Some(0x68)));
    check_processor(&rt, &core);
    check_machine(&rt, &core);
    Ok(())
}

#[test]
fn core_waits(rt: HostRuntime) -> Result<(), Fail> {
    let mut core = boot(rt.alloc(), &WAITS)?;
    run(&rt, &mut core, 5);
    assert!(rt; core.processors() == 1);
    same(&rt, core.state(0), ProcessorState::Waiting);
    same(&rt, (core.rests(0), core.ticks(0)), (true, true));
    same(&rt, core.step(0), IDLE);
    same(&rt, core.made(), 6);
    Ok(())
}
