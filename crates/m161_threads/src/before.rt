//! A machine before a run.

ghost use Rattle.std.specs.Prelude.{◌≡◌, ◌≤◌, IfOk, IfSome, length, sum, take, true};
ghost use Rattle.m161_machine.specs.State.{counts};
ghost use Rattle.m161_threads.specs.helpers.Runs.{IsLater, past_of};

use m161_bus::Console;
use m161_machine::{Entry, Machine, Start};
use m161_tlb::Tlb;
use std::alloc::{AllocError, Global};
use std::marker::Model;

/// What is kept of a machine before a run: what it was booted from, its log, how many events it
/// has accepted, and how many of them were Steps.
#[derive(Drop)]
pub(crate) struct Before {
    start: Start,
    log: Vec<Entry>,
    made: u64,
    steps: u64,
}

impl Model for Before {
    ghost use Rattle.m161_threads.specs.helpers.Runs.{Past};

    ghost Value = { Past };

    ghost view = { λ b. record { start = b.start; log = b.log.items; made = b.made; counted = b.steps } };
}

impl Before {
    /// What is to be kept of a machine.
    pub(crate) fn of<T: Tlb, D: Console>(
        alloc: Global,
        machine: &Machine<T, D>,
    ) -> Result<Before, AllocError>
        ensures { IfOk result (λ before. before ≡ past_of machine.now) }
    {
        Ok(Before {
            start: machine.copy_start(alloc)?,
            log: machine.copy_log(alloc)?,
            made: machine.made(),
            steps: all_steps(machine),
        })
    }

    /// After how many Steps a machine may be this one: it has the same start, and has accepted so
    /// many events more and counted as many Steps more. As long as it has dropped no entry of its
    /// log, that begins with this log. `None` if it can't be this one.
    pub(crate) fn steps_to<T: Tlb, D: Console>(&self, machine: &Machine<T, D>) -> Option<u64>
        ensures { IfSome result (λ made. IsLater self.now made machine.now) }
    {
        let made = machine.made().checked_sub(self.made)?;
        let steps = all_steps(machine).checked_sub(self.steps)?;
        if steps == made && machine.starts_as(&self.start) && self.goes_on(machine) {
            Some(made)
        } else {
            None
        }
    }

    // Whether a machine's log, unless entries of it were dropped, begins with this log.
    fn goes_on<T: Tlb, D: Console>(&self, machine: &Machine<T, D>) -> bool
        ensures { result ≡ true → machine.now.base.made ≡ 0
            → take (length self.now.log) machine.now.log ≡ self.now.log }
    {
        machine.base().made() > 0
            || machine.log_len() >= self.log.len() && begins_with(machine, self.log.as_slice())
    }
}

// How many Steps all processors of a machine have made.
fn all_steps<T: Tlb, D: Console>(machine: &Machine<T, D>) -> u64
    ensures { result ≡ sum (counts machine.now.state) }
{
    machine.replay();
    let mut steps = 0u64;
    for p in 0..machine.processors() {
        steps += machine.count(p);
    }
    steps
}

// Whether a machine's log begins with these entries.
fn begins_with<T: Tlb, D: Console>(machine: &Machine<T, D>, entries: &[Entry]) -> bool
    requires { length entries.now ≤ length machine.now.log }
    ensures { result ≡ true → take (length entries.now) machine.now.log ≡ entries.now }
{
    for i in 0..entries.len() {
        if !is_same(machine.log_at(i), entries[i]) {
            return false;
        }
    }
    true
}

// Whether two entries are the same.
fn is_same(entry: Entry, other: Entry) -> bool
    ensures { result ≡ true → entry ≡ other }
{
    entry.event == other.event && entry.outcome == other.outcome
}
