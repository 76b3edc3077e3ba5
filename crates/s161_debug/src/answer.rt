//! What a session's lines do.

ghost use Rattle.std.specs.Prelude.{◌≡◌, ◌+◌, ◌-◌, ◌≤◌, [], true, codes, decimal, length, string_bytes, vec_capacity, List, IfNone, IfOk};
ghost use Rattle.m161_text.specs.Lines.{with_line_end};
ghost use Rattle.m161_text.specs.Parts.{◌␣◌};
ghost use Rattle.m161_debug.specs.Commands.{name_of_error};
ghost use Rattle.m161_debug.specs.Jumps.{jump_fault};
ghost use Rattle.m161_machine.specs.declared.event.Event.{Event};
ghost use Rattle.s161_debug.specs.Lines.{asked_by, error_line, is_ahead, name_of_jump_error, Does, DoesCommand, DoesJump, DoesJumpIf, DoesTraceIf, GoesTo, ShowsLast};
ghost use Rattle.s161_debug.specs.Traces.{trace_fault};
ghost use Rattle.s161_debug.specs.helpers.Lines.{printed_by, Jumped};

use crate::ahead::{go_ahead, is_ahead};
use crate::asked::{Asked, asked_by, event_of_jump, number_to_trace};
use crate::debugged::Debugged;
use crate::help::help;
use crate::last::last_lines;
use crate::left::Left;
use m161_debug::{CommandError, JumpError};
use m161_machine::Event;
use std::alloc::{AllocError, Global};

/// What a line prints.
#[derive(Drop)]
pub(crate) enum Reply {
    /// A text that was made for it.
    Made(String),
    /// A text of the program's own, which takes no memory.
    Fixed(&'static str),
}

impl Reply {
    /// Its bytes.
    pub(crate) fn as_bytes(&self) -> &[u8]
        ensures { result.now ≡ printed_by self.now }
    {
        match self {
            Reply::Made(text) => text.as_bytes(),
            Reply::Fixed(text) => text.as_bytes(),
        }
    }
}

/// Does a line. Returns what it prints: where memory is refused, that it was, so that this can't fail.
pub(crate) fn answer(alloc: Global, session: &mut Debugged, line: &str, left: &mut Left) -> Reply
    ensures { Does (asked_by line.now) line.now session.old left.old session.new left.new
        (printed_by result) }
{
    match asked_by(line) {
        Asked::Nothing | Asked::Quit => Reply::Fixed(""),
        Asked::Help => Reply::Fixed(help()),
        Asked::Jump => jump_if_asked(alloc, session, event_of_jump(line), left),
        Asked::Trace => trace_if_asked(alloc, session, number_to_trace(line)),
        Asked::Command => command(alloc, session, line, left),
    }
}

// Does the session's command of a line. Returns what it prints, or the line of its error.
fn command(alloc: Global, session: &mut Debugged, line: &str, left: &mut Left) -> Reply
    ensures { DoesCommand line.now session.old left.old session.new left.new (printed_by result) }
{
    let mut text = String::new(alloc);
    match session.command(line, left.as_slice(), &mut text) {
        Ok(used) => {
            left.use_up(used);
            Reply::Made(text)
        }
        Err(error) => Reply::Fixed(line_of_error(error)),
    }
}

// The line of a command's error.
fn line_of_error(error: CommandError) -> &'static str
    ensures { result.now ≡ error_line (name_of_error error) }
{
    match error {
        CommandError::Unknown => "? Unknown\n",
        CommandError::BadArgument => "? BadArgument\n",
        CommandError::BadProcessor => "? BadProcessor\n",
        CommandError::TooMany => "? TooMany\n",
        CommandError::NoMemory => "? NoMemory\n",
    }
}

// Goes to the state before an event, if there is its number. Returns what that prints.
fn jump_if_asked(
    alloc: Global,
    session: &mut Debugged,
    event: Option<u64>,
    left: &mut Left,
) -> Reply
    ensures { DoesJumpIf event session.old left.old session.new left.new (printed_by result) }
{
    match event {
        Some(k) => jump_to(alloc, session, k, left),
        None => Reply::Fixed(line_of_jump_error(JumpError::BadArgument)),
    }
}

// Goes to the state before event k: on, if it lies ahead; else back. Returns what that prints.
fn jump_to(alloc: Global, session: &mut Debugged, k: u64, left: &mut Left) -> Reply
    ensures { GoesTo (is_ahead k session.old.machine.state.made left.old) k session.old left.old
        session.new left.new (printed_by result) }
{
    if is_ahead(session, k, left) {
        jump_ahead(alloc, session, k, left)
    } else {
        jump(alloc, session, k, left)
    }
}

// Goes on to the state before event k. Returns what that prints.
fn jump_ahead(alloc: Global, session: &mut Debugged, k: u64, left: &mut Left) -> Reply
    requires { is_ahead k session.old.machine.state.made left.old ≡ true }
    ensures { GoesTo true k session.old left.old session.new left.new (printed_by result) }
{
    match go_ahead(alloc, session, k, left) {
        Ok(text) => Reply::Made(text),
        Err(_) => Reply::Fixed(line_of_jump_error(JumpError::NoMemory)),
    }
}

// Goes back to the state before event k. Returns what that prints.
fn jump(alloc: Global, session: &mut Debugged, k: u64, left: &mut Left) -> Reply
    ensures { DoesJump k session.old left.old session.new left.new (printed_by result) }
{
    match go_back(alloc, session, k, left) {
        Ok(text) => Reply::Made(text),
        Err(error) => Reply::Fixed(line_of_jump_error(error)),
    }
}

// Shows the last events, if there is their number. Returns what that prints.
fn trace_if_asked(alloc: Global, session: &Debugged, number: Option<u64>) -> Reply
    ensures { (left : List Event)
        → DoesTraceIf number session.now left session.now left (printed_by result) }
{
    match number {
        Some(n) => trace(alloc, session, n),
        None => Reply::Fixed(line_of_jump_error(JumpError::BadArgument)),
    }
}

// Shows the last n events. Returns what that prints.
fn trace(alloc: Global, session: &Debugged, n: u64) -> Reply
    ensures { (left : List Event) → ShowsLast (trace_fault n session.now.machine) n session.now left
        session.now left (printed_by result) }
{
    match last_lines(alloc, session, n) {
        Ok(text) => Reply::Made(text),
        Err(error) => Reply::Fixed(line_of_jump_error(error)),
    }
}

// The line of a jump's error.
fn line_of_jump_error(error: JumpError) -> &'static str
    ensures { result.now ≡ error_line (name_of_jump_error error) }
{
    match error {
        JumpError::BadArgument => "? BadArgument\n",
        JumpError::Dropped => "? Dropped\n",
        JumpError::NoMemory => "? NoMemory\n",
    }
}

// Goes to the state before event k, and puts the events that are undone before those that are left.
// Returns what that prints. Memory for the text and for all of the events is taken first, since a
// jump can't be taken back.
fn go_back(
    alloc: Global,
    session: &mut Debugged,
    k: u64,
    left: &mut Left,
) -> Result<String, JumpError>
    ensures jumped { Jumped k session.old left.old result session.new left.new }
    ensures text { IfOk result (λ text. string_bytes text ≡ with_line_end (codes "at" ␣ decimal k)) }
{
    if let Some(error) = fault_of(session, k) {
        return Err(error);
    }
    let text = format!(in alloc; "at {k}\n")?;
    let room = room_for(alloc, session, k, left)?;
    let undone = session.jump(alloc, k)?;
    left.put_before(&undone, room);
    Ok(text)
}

// A list with room for the events from event k on, and for those that are left.
fn room_for(
    alloc: Global,
    session: &Debugged,
    k: u64,
    left: &Left,
) -> Result<Vec<Event>, AllocError>
    requires { k ≤ length session.now.machine.log }
    ensures empty { IfOk result (λ events. events.items ≡ []) }
    ensures room { IfOk result (λ events.
        (length session.now.machine.log - k) + length left.now ≤ vec_capacity events) }
{
    let undone = session.machine().log_len() - k as usize;
    match undone.checked_add(left.as_slice().len()) {
        Some(number) => Vec::with_capacity(alloc, number),
        None => Err(AllocError),
    }
}

// Why a session can't go to the state before event k.
fn fault_of(session: &Debugged, k: u64) -> Option<JumpError>
    ensures fault { result ≡ jump_fault k session.now.machine }
    ensures within { IfNone result (k ≤ length session.now.machine.log) }
{
    let machine = session.machine();
    if k > machine.made() {
        Some(JumpError::BadArgument)
    } else if (machine.log_len() as u64) < machine.made() {
        Some(JumpError::Dropped)
    } else {
        None
    }
}
