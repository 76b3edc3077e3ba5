//! The events of a text, which is a schedule or a log, and the machine that they are for.

ghost use Rattle.std.specs.Prelude.{◌≡◌, false, true, IfErr, IfOk, None, Some, option_map};
ghost use Rattle.m161_machine.specs.History.{events_of};
ghost use Rattle.m161_text.specs.Lines.{lines_of};
ghost use Rattle.s161_base.specs.Listed.{IsListFault, Lists, ListsAs, ListsFirst, ListsFor, ListsNoFirst, ListsNone, NamesSized, first_plain, is_log};
ghost use Rattle.s161_base.specs.Machines.{asked_conf as conf_over, machine_fault as fault_of_machine};
ghost use Rattle.s161_base.specs.Texts.{IsLogFault, IsScheduleFault};

use crate::fault::Fault;
use crate::machines::{NamedMachine, asked_conf, conf_asked, machine_fault};
use crate::texts::{events_of, log_of};
use m161_machine::{Conf, Entry, Events};
use m161_steplog::read_size;
use m161_text::next_line;
use s161_command::AskedSize;
use std::alloc::{AllocError, Global};

/// The events of a text, and what it says of their machine, if it says something.
#[derive(Drop)]
pub struct Listed {
    pub events: Events,
    pub named: Option<NamedMachine>,
}

/// The events of a text, and the machine that they are for.
#[derive(Drop)]
pub struct Planned {
    pub events: Events,
    pub conf: Conf,
}

/// The events of a text, and what it says of their machine. It is a log where its first line that is no
/// comment begins with `m161 `; else a schedule.
///
/// # Errors
/// The text's first bad line; or memory was refused.
pub fn list_text<'a>(alloc: Global, text: &str) -> Result<Listed, Fault<'a>>
    ensures ok { IfOk result (λ listed. Lists text.now listed.events listed.named) }
    ensures fault { IfErr result (IsListFault text.now) }
{
    if is_log(text) {
        list_log(alloc, text)
    } else {
        list_schedule(alloc, text)
    }
}

// Whether a text is a log, by its first line that is no comment.
#[tactic(auto, unfolding(crate::specs::Listed::is_log))]
fn is_log(text: &str) -> bool
    ensures { result ≡ is_log text.now }
{
    first_plain(text).as_bytes().starts_with(b"m161 ")
}

// The first line that is no comment; the empty line if there is none.
fn first_plain(text: &str) -> &str
    ensures { result.now ≡ first_plain (lines_of text.now) }
{
    let mut rest = text;
    while let Some((line, more)) = next_line(rest) {
        if !line.starts_with('#') {
            return line;
        }
        rest = more;
    }
    ""
}

// The events of these entries.
fn events_made(alloc: Global, entries: &[Entry]) -> Result<Events, AllocError>
    ensures { IfOk result (λ events. events ≡ events_of entries.now) }
{
    let mut events = Events::new(alloc);
    for entry in entries {
        events.push(entry.event)?;
    }
    Ok(events)
}

// The events of a log, and what it says of its machine.
fn list_log<'a>(alloc: Global, text: &str) -> Result<Listed, Fault<'a>>
    ensures ok { IfOk result (λ listed. ListsAs true text.now listed.events listed.named) }
    ensures fault { IfErr result (IsLogFault text.now) }
{
    let log = log_of(alloc, text)?;
    let events = events_made(alloc, &log.entries)?;
    Ok(Listed {
        events,
        named: Some(NamedMachine::Logged(log.machine)),
    })
}

// What a schedule says of its machine.
fn size_in(text: &str) -> Option<NamedMachine>
    ensures { NamesSized text.now result }
{
    match read_size(text) {
        Some(size) => Some(NamedMachine::Sized(size)),
        None => None,
    }
}

// The events of a schedule, and what it says of their machine.
fn list_schedule<'a>(alloc: Global, text: &str) -> Result<Listed, Fault<'a>>
    ensures ok { IfOk result (λ listed. ListsAs false text.now listed.events listed.named) }
    ensures fault { IfErr result (IsScheduleFault text.now) }
{
    let events = events_of(alloc, text)?;
    Ok(Listed {
        events,
        named: size_in(text),
    })
}

// The machine that is asked for over a list of events, unless a log names another one.
fn machine_for<'a>(
    asked: AskedSize,
    file: &[u8],
    named: Option<NamedMachine>,
) -> Result<Conf, Fault<'a>>
    ensures ok { IfOk result (λ conf. (fault_of_machine asked file.now named ≡ None)
        × (conf ≡ conf_over asked named)) }
    ensures fault { IfErr result (λ fault. fault_of_machine asked file.now named ≡ Some fault) }
{
    match machine_fault(asked, file, named) {
        Some(fault) => Err(fault),
        None => Ok(asked_conf(asked, named)),
    }
}

/// The events of a text, and the machine that is asked for over them and an image's file.
///
/// # Errors
/// The text's first bad line; or memory was refused; or the text is a log of another machine, or of
/// another image.
pub fn plan_run<'a>(
    alloc: Global,
    asked: AskedSize,
    file: &[u8],
    text: &str,
) -> Result<Planned, Fault<'a>>
    ensures ok { IfOk result (λ run. ListsFor asked file.now text.now run.events run.conf) }
    ensures fault { IfErr result (ListsNone asked file.now text.now) }
{
    let listed = list_text(alloc, text)?;
    let conf = machine_for(asked, file, listed.named)?;
    Ok(Planned {
        events: listed.events,
        conf,
    })
}

/// The events that come before those of an order, those of this text, and the machine that is asked for
/// over them and an image's file. Without a text none come first, and the machine is as it is asked for.
///
/// # Errors
/// Those of `plan_run`.
pub fn plan_first<'a>(
    alloc: Global,
    asked: AskedSize,
    file: &[u8],
    text: Option<&str>,
) -> Result<Planned, Fault<'a>>
    ensures ok { IfOk result (λ run. ListsFirst asked file.now (option_map (λ t. t.now) text.entry)
        run.events run.conf) }
    ensures fault { IfErr result (ListsNoFirst asked file.now (option_map (λ t. t.now) text.entry)) }
{
    match text {
        Some(text) => plan_run(alloc, asked, file, text),
        None => Ok(Planned {
            events: Events::new(alloc),
            conf: conf_asked(asked),
        }),
    }
}
