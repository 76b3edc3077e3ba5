//! What is left on a machine, whatever the order in which its processors made their Steps.

use super::same;
use m161::{Console, Machine, Tlb};
use m161_steplog::{Comparison, verify};
use m161_test_support::outcomes::Times;
use std::process::Abort;
use std::test::Fail;

/// A part of a machine and what is left there.
#[derive(Clone, Copy, Debug, PartialEq)]
pub(crate) enum Left {
    /// The word at a physical address.
    Memory(u32, Option<u32>),
    /// How many Steps were made.
    Count(u64),
    /// How many bytes the console has sent, and the last of them.
    Output(usize, Option<u8>),
    /// How many events were accepted.
    Entries(usize),
}

/// Fails the test where other parts are left, each of a processor; memory and the console are the
/// same for all.
pub(crate) fn compare(rt: &impl Abort, name: &str, machine: &Machine, left: &[(u32, Left)]) {
    for (p, part) in left {
        let place = (name, machine.log_len(), *p);
        same(rt, (place, part_of(rt, machine, *p, *part)), (place, *part));
    }
}

/// What is left at the same part of a machine, of a processor.
fn part_of(rt: &impl Abort, machine: &Machine, p: u32, part: Left) -> Left {
    assert!(rt; p < machine.processors());
    match part {
        Left::Memory(at, _) => Left::Memory(at, machine.word(at)),
        Left::Count(_) => Left::Count(machine.count(p)),
        Left::Output(_, _) => {
            Left::Output(machine.output().len(), machine.output().last().copied())
        }
        Left::Entries(_) => Left::Entries(machine.log_len()),
    }
}

/// Fails the test where a machine's log isn't that of a machine of the same file.
pub(crate) fn check_log(
    rt: &(impl Abort + AllocGlobal),
    name: &str,
    file: &[u8],
    machine: &Machine,
) -> Result<(), Fail> {
    let log = machine.copy_log(rt.alloc())?;
    let found = verify::<Tlb, Console>(rt.alloc(), file, machine.conf(), &log)?;
    same(rt, (name, found), (name, Comparison::Agrees));
    Ok(())
}

/// Makes events, and fails the test at the first with another answer.
pub(crate) fn make(rt: &impl Abort, name: &str, machine: &mut Machine, events: &[Times]) {
    for (event, times, answer) in events {
        for k in 0..*times {
            same(rt, (name, k, machine.event(*event)), (name, k, *answer));
        }
    }
}
