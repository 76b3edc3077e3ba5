//! What the monitor answers.

ghost use Rattle.std.specs.Prelude.{◌≡◌, ◌<◌, ◌++◌, true, IfErr, IfOk, IfSome, decimal, string_bytes};
ghost use Rattle.m161_server.specs.Monitor.{at_line, error_line, goto_text, help_text, kind_word, memory_or, monitor_text, of_processor, place_line, processor_of, step_word, stop_at, stops_after, stops_at, trace_text, why_line, why_word};
ghost use Rattle.m161_server.specs.Sessions.{standing, IsUnanswered, Monitors};
ghost use Rattle.m161_server.specs.helpers.Kinds.{is_short};
ghost use Rattle.m161_server.specs.Words.{asked_of};

use crate::fault::ServerFault;
use crate::outgoing::shown_packets;
use crate::reply::Reply;
use crate::session::Session;
use crate::target::Target;
use crate::texts::{text, within};
use crate::words::{Asked, asked_of};
use m161_gdb::{Kind, Stops};
use m161_moves::Reason;
use m161_text::push_hex;
use std::alloc::{AllocError, Global};
use std::fmt::Write;

// A line for each word.
const HELP: &str = "\
at                 the place, and the event that comes next
why                why the last move stopped, and where
goto K             has the moves that come stop at place K
where              where the started processors are
regs | regs P      the registers of the general processor, or of processor P
cop0 | cop0 P      its registers of coprocessor 0
tlb | tlb P        its TLB
memory ADDR N      N words of RAM
trace N            the lines of the last N events
output             what the console has shown
schedule           the events before the place
help               prints this
";

// The list of the words.
#[tactic(auto, unfolding(crate::specs::Monitor::help_text))]
fn help() -> &'static str
    ensures { result.now ≡ help_text }
{
    HELP
}

// The line of an error.
fn error_line(alloc: Global, name: &str) -> Result<String, AllocError>
    ensures { IfOk result (λ text. string_bytes text ≡ error_line name.now) }
{
    let mut text = text(alloc, "? ")?;
    text.push_str(name)?;
    text.push_str("\n")?;
    Ok(text)
}

// A number behind a word.
fn numbered(alloc: Global, word: &str, number: usize) -> Result<String, AllocError>
    ensures { IfOk result (λ text. string_bytes text ≡ word.now ++ decimal number) }
{
    let mut text = text(alloc, word)?;
    write!(text, "{number}")?;
    Ok(text)
}

// The place, and what comes next.
fn at_line<T: Target>(alloc: Global, target: &T) -> Result<String, AllocError>
    ensures { IfOk result (λ text. string_bytes text
        ≡ at_line (T.course target.now).scene (T.place target.now)) }
{
    let next = target.next_text(alloc)?;
    let mut text = numbered(alloc, "at ", target.place())?;
    text.push_str(" next ")?;
    text.push_str(&next)?;
    text.push_str("\n")?;
    Ok(text)
}

// The word for a kind of breakpoint or watch.
fn kind_word(kind: Kind) -> &'static str
    ensures { result.now ≡ kind_word kind }
{
    match kind {
        Kind::Software => "break ",
        Kind::Hardware => "break ",
        Kind::Write => "write ",
        Kind::Read => "read ",
        Kind::Access => "access ",
    }
}

// A stop at an address.
fn stop_at(alloc: Global, kind: Kind, processor: u32, address: u32) -> Result<String, AllocError>
    ensures { IfOk result (λ text. string_bytes text ≡ stop_at kind processor address) }
{
    let mut text = text(alloc, kind_word(kind))?;
    write!(text, "{processor}")?;
    text.push_str(" ")?;
    push_hex(&mut text, 8, address)?;
    Ok(text)
}

// A Step.
fn step_word(alloc: Global, processor: u32) -> Result<String, AllocError>
    ensures { IfOk result (λ text. string_bytes text ≡ step_word processor) }
{
    let mut text = text(alloc, "step ")?;
    write!(text, "{processor}")?;
    Ok(text)
}

// Why a run stopped where it stands.
fn why_word<T: Target>(
    alloc: Global,
    target: &T,
    reason: Option<Reason>,
) -> Result<String, AllocError>
    ensures { IfOk result (λ text. string_bytes text
        ≡ why_word (T.course target.now).scene (T.place target.now) reason) }
{
    let Some(reason) = reason else {
        return text(alloc, "start");
    };
    match reason {
        Reason::Interrupt => text(alloc, "interrupt"),
        Reason::Mark => text(alloc, "goto"),
        Reason::Step(processor) => step_word(alloc, processor),
        Reason::End => target.next_text(alloc),
        Reason::Begin => text(alloc, "begin"),
        Reason::Break {
            processor,
            address,
            kind,
        } => stop_at(alloc, kind, processor, address),
        Reason::Touch { processor, watch } => stop_at(alloc, watch.kind, processor, watch.address),
    }
}

// The last stop.
fn why_line<T: Target>(
    alloc: Global,
    target: &T,
    reason: Option<Reason>,
) -> Result<String, AllocError>
    ensures { IfOk result (λ text. string_bytes text
        ≡ why_line (T.course target.now).scene (T.place target.now) reason) }
{
    let mut text = why_word(alloc, target, reason)?;
    text.push_str(" at ")?;
    let place = target.place();
    write!(text, "{place}")?;
    text.push_str("\n")?;
    Ok(text)
}

// The line of a number behind a word.
fn line(alloc: Global, word: &str, number: usize) -> Result<String, AllocError>
    ensures { IfOk result (λ text. string_bytes text ≡ place_line word.now number) }
{
    let mut text = numbered(alloc, word, number)?;
    text.push_str("\n")?;
    Ok(text)
}

// What becomes of the mark.
fn goto_text<T: Target>(alloc: Global, target: &T, k: usize) -> Result<String, AllocError>
    ensures { IfOk result (λ text. string_bytes text
        ≡ goto_text (T.course target.now).scene (T.place target.now) k) }
{
    if k > target.count() {
        return error_line(alloc, "BadArgument");
    }
    if k == target.place() {
        line(alloc, "at ", k)
    } else {
        line(alloc, "goto ", k)
    }
}

// Sets the mark, or takes it away where the run is there.
fn set_mark<T: Target>(target: &T, stops: &mut Stops, k: usize)
    ensures { stops.new ≡ stops_at (T.course target.now).scene (T.place target.now) k stops.old }
{
    if k <= target.count() {
        let mark = if k == target.place() { None } else { Some(k) };
        stops.set_mark(mark);
    }
}

// The processor that is asked for, if there is one.
fn processor<T: Target>(target: &T, session: &Session, asked: Option<u32>) -> Option<u32>
    ensures value { result ≡ processor_of (T.course target.now).scene session.now asked }
    ensures exists { IfSome result (λ p. p < (T.course target.now).scene.processors) }
{
    match asked {
        Some(p) => {
            if p < target.processors() {
                Some(p)
            } else {
                None
            }
        }
        None => Some(within(target, session.general)),
    }
}

// The registers of a processor.
fn registers_text<T: Target>(
    alloc: Global,
    target: &T,
    processor: Option<u32>,
) -> Result<String, AllocError>
    requires { IfSome processor (λ p. p < (T.course target.now).scene.processors) }
    ensures { IfOk result (λ text. string_bytes text
        ≡ of_processor ((T.course target.now).scene.registers_text (T.place target.now)) processor) }
{
    match processor {
        Some(p) => target.registers_text(alloc, p),
        None => error_line(alloc, "BadProcessor"),
    }
}

// Those of its coprocessor.
fn cop0_text<T: Target>(
    alloc: Global,
    target: &T,
    processor: Option<u32>,
) -> Result<String, AllocError>
    requires { IfSome processor (λ p. p < (T.course target.now).scene.processors) }
    ensures { IfOk result (λ text. string_bytes text
        ≡ of_processor ((T.course target.now).scene.cop0_text (T.place target.now)) processor) }
{
    match processor {
        Some(p) => target.cop0_text(alloc, p),
        None => error_line(alloc, "BadProcessor"),
    }
}

// Its TLB.
fn tlb_text<T: Target>(
    alloc: Global,
    target: &T,
    processor: Option<u32>,
) -> Result<String, AllocError>
    requires { IfSome processor (λ p. p < (T.course target.now).scene.processors) }
    ensures { IfOk result (λ text. string_bytes text
        ≡ of_processor ((T.course target.now).scene.tlb_text (T.place target.now)) processor) }
{
    match processor {
        Some(p) => target.tlb_text(alloc, p),
        None => error_line(alloc, "BadProcessor"),
    }
}

// Words of memory.
fn memory_text<T: Target>(
    alloc: Global,
    target: &T,
    address: u32,
    number: u32,
) -> Result<String, AllocError>
    ensures { IfOk result (λ text. string_bytes text
        ≡ memory_or (T.course target.now).scene (T.place target.now) address number) }
{
    match target.memory_text(alloc, address, number)? {
        Some(text) => Ok(text),
        None => error_line(alloc, "BadArgument"),
    }
}

// A copy of what the console has shown.
fn output_text<T: Target>(alloc: Global, target: &T) -> Result<Vec<u8>, AllocError>
    ensures { IfOk result (λ bytes. bytes.items
        ≡ (T.course target.now).scene.console (T.place target.now)) }
{
    let mut bytes = Vec::new(alloc);
    bytes.extend_from_slice(target.console())?;
    Ok(bytes)
}

// The lines of the last events.
fn trace_text<T: Target>(
    alloc: Global,
    target: &T,
    number: u32,
) -> Result<String, ServerFault<T::Error>>
    ensures ok { IfOk result (λ text. string_bytes text
        ≡ trace_text (T.course target.now).scene (T.place target.now) number) }
    ensures err { IfErr result (IsUnanswered (T.fails (T.course target.now))) }
{
    if number < 1 || number > 1_024 {
        return Ok(error_line(alloc, "BadArgument")?);
    }
    match target.trace_text(alloc, number) {
        Ok(text) => Ok(text),
        Err(error) => Err(ServerFault::Run(error)),
    }
}

// The text for what is asked for, if that isn't the console's or a trace's.
fn short_text<T: Target>(
    alloc: Global,
    target: &T,
    session: &Session,
    asked: Asked,
) -> Result<String, AllocError>
    ensures { IfOk result (λ text. is_short asked ≡ true → string_bytes text
        ≡ monitor_text (T.course target.now).scene (T.place target.now) session.now asked) }
{
    match asked {
        Asked::At => at_line(alloc, target),
        Asked::Why => why_line(alloc, target, session.last.reason),
        Asked::Goto(k) => goto_text(alloc, target, k as usize),
        Asked::Where => target.where_text(alloc),
        Asked::Registers(p) => registers_text(alloc, target, processor(target, session, p)),
        Asked::Cop0(p) => cop0_text(alloc, target, processor(target, session, p)),
        Asked::Tlb(p) => tlb_text(alloc, target, processor(target, session, p)),
        Asked::Memory(address, number) => memory_text(alloc, target, address, number),
        Asked::Schedule => target.schedule_text(alloc),
        Asked::Help => text(alloc, help()),
        Asked::Unknown => error_line(alloc, "Unknown"),
        Asked::BadArgument => error_line(alloc, "BadArgument"),
        Asked::Trace(_) => text(alloc, ""),
        Asked::Output => text(alloc, ""),
    }
}

// The text for what is asked for.
fn monitor_text<T: Target>(
    alloc: Global,
    target: &T,
    session: &Session,
    asked: Asked,
) -> Result<Vec<u8>, ServerFault<T::Error>>
    ensures ok { IfOk result (λ bytes. bytes.items
        ≡ monitor_text (T.course target.now).scene (T.place target.now) session.now asked) }
    ensures err { IfErr result (IsUnanswered (T.fails (T.course target.now))) }
{
    match asked {
        Asked::Trace(number) => Ok(trace_text(alloc, target, number)?.into_bytes()),
        Asked::Output => Ok(output_text(alloc, target)?),
        _ => Ok(short_text(alloc, target, session, asked)?.into_bytes()),
    }
}

// What becomes of the stops.
fn stops_after<T: Target>(target: &T, stops: &mut Stops, asked: Asked)
    ensures { stops.new ≡ stops_after (T.course target.now).scene (T.place target.now) asked stops.old }
{
    match asked {
        Asked::Goto(k) => set_mark(target, stops, k as usize),
        _ => {}
    }
}

/// Answers a line.
///
/// # Errors
/// Memory was refused, or the run can't be gone along.
pub(crate) fn monitor<T: Target>(
    alloc: Global,
    target: &T,
    session: &mut Session,
    line: &[u8],
) -> Result<Reply, ServerFault<T::Error>>
    ensures ok { IfOk result (λ reply. Monitors (T.course target.now).scene line.now
        (standing (T.place target.now) session.old) reply (standing (T.place target.now) session.new)) }
    ensures err { IfErr result (IsUnanswered (T.fails (T.course target.now))) }
{
    let asked = asked_of(line);
    let shown = monitor_text(alloc, target, session, asked)?;
    stops_after(target, &mut session.stops, asked);
    let before = shown_packets(alloc, &shown)?;
    let done = text(alloc, "OK")?;
    Ok(Reply::behind(before, done.into_bytes()))
}
