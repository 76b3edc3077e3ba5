//! The text that `run` prints.

ghost use Rattle.std.specs.Prelude.{◌≡◌, ◌++◌, ◌-◌, ◌<◌, List, length, string_bytes, IfOk, OnOk};
ghost use Rattle.std.specs.List.{All};
ghost use Rattle.m161_machine.specs.History.{FitsMode};
ghost use Rattle.m161_machine.specs.declared.event.Entry.{Entry};
ghost use Rattle.m161_traps.specs.Shown.{trapping_text, unhandled_text};
ghost use Rattle.m161_traps.specs.Watching.{IsWatched};
ghost use Rattle.s161_run.specs.Runs.{output_text, shown_log, started_text, status_of, summary_text, summary_with, told_text};

use crate::events::RunStop;
use crate::log::log_of_run;
use crate::made::Made;
use m161::Core;
use m161_display::show_regs;
use m161_machine::ProcessorState;
use m161_traps::{Trap, Watch, show_unhandled};
use s161_command::Shown;
use std::alloc::{AllocError, Global};

/// A finished run.
#[derive(Drop)]
pub struct Ran {
    /// What it prints.
    pub text: Vec<u8>,
    /// Its notes on traps, which are said on standard error behind all else.
    pub notes: String,
    /// Why it stopped.
    pub stop: RunStop,
}

/// What is shown of a run that ended in this state: the console's output, each started processor, the
/// lines of its traps, and why the events ended, with this text of its log before that line if it is
/// asked for; or the log alone, or the console's bytes alone.
pub(crate) fn summary(
    alloc: Global,
    core: &Core,
    traps: &[u8],
    log: &[u8],
    stop: RunStop,
    shown: Shown,
) -> Result<Vec<u8>, AllocError>
    ensures { IfOk result (λ text. text.items
        ≡ summary_text traps.now log.now core.now.state stop shown) }
{
    match shown {
        Shown::Summary => summary_with(alloc, traps, b"", core, stop),
        Shown::SummaryAndLog => summary_with(alloc, traps, log, core, stop),
        Shown::Log => log.to_vec(alloc),
        Shown::Output => core.output().to_vec(alloc),
    }
}

/// What a run says on standard error: why it stopped, where what it prints doesn't say it.
///
/// # Errors
/// Memory was refused.
pub fn told(alloc: Global, stop: RunStop, shown: Shown) -> Result<String, AllocError>
    ensures { IfOk result (λ text. string_bytes text ≡ told_text stop shown) }
{
    match shown {
        Shown::Summary | Shown::SummaryAndLog => Ok(String::new(alloc)),
        Shown::Log | Shown::Output => format!(in alloc; "{stop}\n"),
    }
}

/// What is printed of a run from a boot of this file, with what is kept of its events, why it stopped,
/// and its notes, with the first trap for which the image has nothing.
///
/// # Errors
/// Memory was refused.
pub(crate) fn finish_run(
    alloc: Global,
    core: &Core,
    made: Made,
    file: &[u8],
    shown: Shown,
    unhandled: Option<Trap>,
) -> Result<Ran, AllocError>
    requires { All (λ (e : Entry). FitsMode core.now.state.conf.strict e.outcome) made.log.items }
    ensures text { IfOk result (λ done. done.text.items ≡ summary_text (string_bytes made.traps)
        (shown_log core.now.state.conf file.now (core.now.state.made - length made.log.items)
        made.log.items) core.now.state made.stop shown) }
    ensures notes { IfOk result (λ done. (entries : List Entry) → IsWatched made.watch entries
        → string_bytes done.notes ≡ unhandled_text unhandled ++ trapping_text entries) }
    ensures stop { IfOk result (λ done. done.stop ≡ made.stop) }
{
    let Made {
        stop,
        log,
        traps,
        watch,
    } = made;
    let log = log_of_run(alloc, core, &log, file, shown)?;
    let text = summary(alloc, core, traps.as_bytes(), log.as_bytes(), stop, shown)?;
    let notes = notes(alloc, unhandled, &watch)?;
    Ok(Ran { text, notes, stop })
}

// The notes of a run on its traps: the first for which the image has nothing, and the processors that
// trap again and again.
fn notes(alloc: Global, unhandled: Option<Trap>, watch: &Watch) -> Result<String, AllocError>
    ensures { IfOk result (λ notes. (entries : List Entry) → IsWatched watch.now entries
        → string_bytes notes ≡ unhandled_text unhandled ++ trapping_text entries) }
{
    let mut notes = show_unhandled(alloc, unhandled)?;
    let trapping = watch.show(alloc)?;
    notes.push_str(trapping.as_str())?;
    Ok(notes)
}

/// The exit status of a run.
pub fn status(stop: RunStop) -> u8
    ensures { result ≡ status_of stop }
{
    match stop {
        RunStop::Off => 0,
        RunStop::Refused(_, _) => 1,
        RunStop::End => 3,
        RunStop::Conflict(_) => 4,
        RunStop::Stuck => 5,
    }
}

// What a machine shows, with the lines of its traps and the text of a log before the last line.
fn summary_with(
    alloc: Global,
    traps: &[u8],
    log: &[u8],
    core: &Core,
    stop: RunStop,
) -> Result<Vec<u8>, AllocError>
    ensures { IfOk result (λ text. text.items
        ≡ summary_with traps.now log.now core.now.state stop) }
{
    let mut text = Vec::new(alloc);
    push_output(&mut text, core.output())?;
    for p in 0..core.processors() {
        push_processor(alloc, &mut text, core, p)?;
    }
    text.extend_from_slice(traps)?;
    text.extend_from_slice(log)?;
    let line = format!(in alloc; "{stop}\n")?;
    text.extend_from_slice(line.as_bytes())?;
    Ok(text)
}

// The bytes that the console has sent, with a line end if they lack one.
fn push_output(text: &mut Vec<u8>, output: &[u8]) -> Result<(), AllocError>
    ensures { OnOk result (text.new.items ≡ text.old.items ++ output_text output.now) }
{
    text.extend_from_slice(output)?;
    if let Some(last) = output.last() {
        if *last != b'\n' {
            text.push(b'\n')?;
        }
    }
    Ok(())
}

// A processor, if it was started.
fn push_processor(alloc: Global, text: &mut Vec<u8>, core: &Core, p: u32) -> Result<(), AllocError>
    requires { p < length core.now.state.processors }
    ensures { OnOk result (text.new.items
        ≡ text.old.items ++ started_text core.now.state p) }
{
    match core.state(p) {
        ProcessorState::Stopped => Ok(()),
        ProcessorState::Running | ProcessorState::Waiting => {
            let shown = show_regs(alloc, core, p)?;
            text.extend_from_slice(shown.as_bytes())
        }
    }
}
