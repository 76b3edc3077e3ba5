//! Reading the texts of schedules and logs.

ghost use Rattle.std.specs.Prelude.{IfErr, IfOk};
ghost use Rattle.m161_text.specs.Lines.{lines_of};
ghost use Rattle.m161_steplog.specs.Schedule.{IsSchedule};
ghost use Rattle.s161_base.specs.Machines.{IsLogOf};
ghost use Rattle.s161_base.specs.Texts.{IsLogFault, IsScheduleFault};

use crate::fault::{Fault, fault_of_log, fault_of_schedule};
use crate::machines::LoggedMachine;
use m161_machine::{Entry, Events};
use m161_steplog::{read_log, read_machine, read_schedule};
use std::alloc::Global;

/// The events of a schedule's text.
///
/// # Errors
/// Its first bad line; or memory was refused.
pub fn events_of<'a>(alloc: Global, text: &str) -> Result<Events, Fault<'a>>
    ensures found { IfOk result (λ events. IsSchedule (lines_of text.now) events) }
    ensures fault { IfErr result (IsScheduleFault text.now) }
{
    match read_schedule(alloc, text) {
        Ok(events) => Ok(events),
        Err(error) => Err(fault_of_schedule(error)),
    }
}

/// What a log's text says.
#[derive(Drop)]
pub struct Log {
    /// What it says of its machine.
    pub machine: LoggedMachine,
    /// Its entries, in order.
    pub entries: Vec<Entry>,
}

/// The log of a text.
///
/// # Errors
/// Its first bad line; or memory was refused.
pub fn log_of<'a>(alloc: Global, text: &str) -> Result<Log, Fault<'a>>
    ensures found { IfOk result (λ log. IsLogOf text.now log.machine log.entries.items) }
    ensures fault { IfErr result (IsLogFault text.now) }
{
    match read_log(alloc, text) {
        Ok(log) => Ok(Log {
            machine: LoggedMachine {
                line: read_machine(text),
                mode: log.mode,
            },
            entries: log.entries,
        }),
        Err(error) => Err(fault_of_log(error)),
    }
}
