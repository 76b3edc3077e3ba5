//! Runs of the machine.

use m161::{Conf, LinkUnit, Machine};
use m161_isa::Reg;
use std::alloc::Global;

/// A machine that made `steps` Steps of a file, the first one by itself, with a log of this size.
pub(crate) fn run(alloc: Global, image: &[u8], steps: u32, log: u32) -> Option<Machine> {
    let conf = Conf {
        ram: 65_536,
        processors: 1,
        log,
        link: LinkUnit::Word,
        strict: false,
    };
    let mut machine = Machine::boot(alloc, image, conf).ok()?;
    machine.step(0).ok()?;
    let _ = machine.steps(0, steps.saturating_sub(1));
    Some(machine)
}

// The last word of a run, and how many Steps it made.
fn last(machine: &Machine) -> Option<(u32, u64)> {
    if machine.processors() == 0 {
        return None;
    }
    Some((machine.reg(0, Reg::new(17)), machine.count(0)))
}

/// The sums of the last words and of the Steps of some runs, each with a log of this size.
pub(crate) fn runs(
    alloc: Global,
    image: &[u8],
    times: u32,
    steps: u32,
    log: u32,
) -> Option<(u32, u64)> {
    let mut word = 0u32;
    let mut count = 0u64;
    for _ in 0..times {
        let machine = run(alloc, image, steps, log)?;
        let (last, made) = last(&machine)?;
        word = word.wrapping_add(last);
        count = count.saturating_add(made);
    }
    Some((word, count))
}
