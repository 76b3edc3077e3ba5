//! Machines that are driven, and how the events that they made are compared.

use super::same;
use m161::Core;
use m161_drive::{DelayError, Delays, Driven, Event, Order, OrderError, Policy, Stop, drive};
use m161_machine::{Conf, LinkUnit};
use m161_test_support::files::file_from;
use m161_test_support::outcomes::ENTRY;
use std::alloc::AllocGlobal;
use std::process::Abort;
use std::test::Fail;

/// Where the first words of a kernel with a handler are.
const HANDLERS: u32 = 0x8000_0080;

/// Switches off.
static HANDLER: [u32; 2] = [
    0x3c1a_bfff, // lui $26, 0xbfff
    0xaf40_7e08, // sw $0, 32264($26)
];

/// A kernel.
pub(crate) struct Kernel {
    /// The words from 80000200 on.
    pub words: &'static [u32],
    pub processors: u32,
}

/// Waits with Status 0.
pub(crate) static WAIT: Kernel = Kernel {
    words: &[0x4200_0020],
    processors: 1,
};

/// Starts the second processor where the first one spins, by 7 Steps.
pub(crate) static TWO: Kernel = Kernel {
    words: &[
        0x3c08_bfff, // lui $8, 0xbfff
        0x3508_8400, // ori $8, $8, 0x8400
        0x3c09_8000, // lui $9, 0x8000
        0x3529_021c, // ori $9, $9, 0x021c
        0xad09_0300, // sw $9, 768($8)
        0x340a_0002, // ori $10, $0, 0x0002
        0xad0a_fa14, // sw $10, -1516($8)
        0x1000_ffff, // beq $0, $0, to itself
        0, // nop
    ],
    processors: 2,
};

/// Writes a byte to the console by its third Step, and spins.
pub(crate) static SENDS: Kernel = Kernel {
    words: &[
        0x3c08_bfe0, // lui $8, 0xbfe0
        0x3409_0068, // ori $9, $0, 0x0068
        0xad09_0000, // sw $9, 0($8)
        0x1000_ffff, // beq $0, $0, to itself
        0, // nop
    ],
    processors: 1,
};

/// Writes a byte to the console by its third Step, and waits for good.
pub(crate) static SENDS_AND_WAITS: Kernel = Kernel {
    words: &[
        0x3c08_bfe0, // lui $8, 0xbfe0
        0x3409_0068, // ori $9, $0, 0x0068
        0xad09_0000, // sw $9, 0($8)
        0x4200_0020, // wait
    ],
    processors: 1,
};

/// Takes a key by its second Step, and spins.
pub(crate) static READS: Kernel = Kernel {
    words: &[
        0x3c08_bfe0, // lui $8, 0xbfe0
        0x8d09_0000, // lw $9, 0($8)
        0x1000_ffff, // beq $0, $0, to itself
        0, // nop
    ],
    processors: 1,
};

/// The state at boot of a machine with a kernel, and with a handler that switches off.
#[inline(never)]
pub(crate) fn booted(rt: &impl AllocGlobal, kernel: &Kernel) -> Result<Core, Fail> {
    let mut image = Vec::new(rt.alloc());
    image.extend_from_slice(&HANDLER)?;
    for _place in 2..96 {
        image.push(0)?;
    }
    image.extend_from_slice(kernel.words)?;
    let file = file_from(rt.alloc(), ENTRY, HANDLERS, image.as_slice())?;
    let conf = Conf {
        ram: 4096,
        processors: kernel.processors,
        log: 1,
        link: LinkUnit::Word,
        strict: false,
    };
    Ok(Core::boot(rt.alloc(), &file, conf)?)
}

/// A policy without keys.
pub(crate) fn policy(order: Order) -> Result<Policy<'static>, OrderError> {
    Policy::new(order, 100, Some(1000), &[])
}

/// The order by turns of so many Steps, with delays at these choices.
pub(crate) fn delayed(turns: u32, numbers: &[u32]) -> Result<Order, DelayError> {
    let mut delays = Delays::none();
    for number in numbers {
        delays.push(*number)?;
    }
    Ok(Order::Delayed { turns, delays })
}

/// The event that a mark stands for: a digit for a Step of that processor, `!` for a byte that is
/// sent, any other for a key.
pub(crate) fn event_of(mark: u8) -> Event {
    if mark == b'!' {
        Event::Done
    } else if mark < b'0' || mark > b'9' {
        Event::Key(mark)
    } else {
        Event::Step(u32::from(mark - b'0'))
    }
}

/// Makes Steps of a processor one by one, of which none may be refused.
pub(crate) fn make_steps(rt: &impl Abort, core: &mut Core, p: u32, steps: u32) {
    for _step in 0..steps {
        same(rt, core.step(p).is_ok(), true);
    }
}

/// Fails the test where a run ended otherwise.
pub(crate) fn check_end(rt: &impl Abort, driven: Driven, made: u64, stop: Stop) {
    same(rt, driven, Driven { made, stop });
}

/// Drives a state, where the run has to make the marked events and to stop so. `more` events are
/// asked for beyond those.
pub(crate) fn check_run(
    rt: &(impl Abort + AllocGlobal),
    core: &mut Core,
    policy: &Policy,
    marks: &[u8],
    more: u32,
    stop: Stop,
) -> Result<(), Fail> {
    let n = marks.len() as u64;
    let mut events = Vec::new(rt.alloc());
    let driven = drive(core, policy, n.saturating_add(u64::from(more)), &mut events)?;
    check_end(rt, driven, n, stop);
    same(rt, events.len(), marks.len());
    for (i, mark) in marks.iter().enumerate() {
        same(rt, events.get(i).copied(), Some(event_of(*mark)));
    }
    Ok(())
}

/// Drives a state for as many events as are marked, which have to be these.
pub(crate) fn check_events(
    rt: &(impl Abort + AllocGlobal),
    core: &mut Core,
    policy: &Policy,
    marks: &[u8],
) -> Result<(), Fail> {
    check_run(rt, core, policy, marks, 0, Stop::End)
}

/// Fails the test where a processor differs in two states.
fn check_same_processor(rt: &impl Abort, core: &Core, other: &Core, p: u32) {
    if p < core.processors() && p < other.processors() {
        same(rt, core.pc(p), other.pc(p));
        same(rt, core.count(p), other.count(p));
        same(rt, core.state(p), other.state(p));
    }
}

/// Fails the test where two states differ in what they show first.
pub(crate) fn check_same(rt: &impl Abort, core: &Core, other: &Core) {
    same(rt, core.made(), other.made());
    same(rt, core.is_off(), other.is_off());
    same(rt, core.latch(), other.latch());
    same(rt, core.waiting(), other.waiting());
    same(rt, core.output(), other.output());
    same(rt, core.memory() == other.memory(), true);
    same(rt, core.processors(), other.processors());
    for p in 0..core.processors() {
        check_same_processor(rt, core, other, p);
    }
}
