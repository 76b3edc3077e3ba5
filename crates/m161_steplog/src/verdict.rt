//! The replay of a log on a machine.

ghost use Rattle.m161_machine.specs.History.{boot_fault};
ghost use Rattle.m161_steplog.specs.Verdict.{Verifies};
ghost use Rattle.m161_steplog.specs.helpers.Verdict.{Repeats};

use m161_bus::Console;
use m161_machine::{BootError, Conf, Core, Entry, Machine, Refusal};
use m161_progress::{Listener, Nobody};
use m161_tlb::Tlb;
use std::alloc::Global;

/// Whether the replay of a log has its outcomes.
#[derive(Clone, Copy, Debug, PartialEq, Eq)]
pub enum Comparison {
    /// Each entry's event is accepted, with the entry's outcome.
    Agrees,
    /// The first entry, counted from 0, whose event is refused or has another outcome.
    Differs(usize),
}

// Whether a state accepts an entry's event, with the entry's outcome.
fn repeats<T: Tlb, D: Console>(core: &mut Core<T, D>, entry: Entry) -> Result<bool, BootError>
    ensures { Repeats core.old.state entry core.new.state result }
{
    match core.event(entry.event) {
        Ok(outcome) => Ok(outcome == entry.outcome),
        Err(Refusal::NoMemory) => Err(BootError::NoMemory),
        Err(_) => Ok(false),
    }
}

/// Makes the events of a log on a machine that is booted from a file, over any TLB and any
/// console, and compares the outcomes. The log may be longer than the machine's own has room for.
///
/// # Errors
/// The machine can't be booted; or memory was refused, at the boot or at an event `Done`.
pub fn verify<T: Tlb + Drop, D: Console + Drop>(
    alloc: Global,
    file: &[u8],
    conf: Conf,
    log: &[Entry],
) -> Result<Comparison, BootError>
    ensures { Verifies file.now conf (boot_fault file.now conf) log.now result }
{
    verify_with::<T, D, Nobody>(alloc, file, conf, log, &Nobody)
}

// After so many events a listener is told again.
const TOLD_AFTER: u64 = 4096;

/// The same, while someone listens how many events were made.
///
/// # Errors
/// Those of `verify`.
pub fn verify_with<T: Tlb + Drop, D: Console + Drop, L: Listener>(
    alloc: Global,
    file: &[u8],
    conf: Conf,
    log: &[Entry],
    listener: &L,
) -> Result<Comparison, BootError>
    ensures { Verifies file.now conf (boot_fault file.now conf) log.now result }
{
    let machine: Machine<T, D> = Machine::boot(alloc, file, conf)?;
    let mut core = machine.into_core();
    for (k, entry) in log.iter().enumerate() {
        if !repeats(&mut core, *entry)? {
            return Ok(Comparison::Differs(k));
        }
        let made = k as u64 + 1;
        if made % TOLD_AFTER == 0 {
            listener.reached(made);
        }
    }
    Ok(Comparison::Agrees)
}
