//! The answers to packets.

ghost use Rattle.std.specs.Prelude.{◌≡◌, true, IfErr, IfOk, IfSome};
ghost use Rattle.m161_gdb.specs.declared.packet.Packet.TheVariants as packets;
ghost use Rattle.m161_server.specs.Descriptions.{description};
ghost use Rattle.m161_server.specs.Sessions.{doing_or, general_text, standing, stop_text, told, Answers, IsUnanswered};
ghost use Rattle.m161_server.specs.Texts.{memory_text, part_text, thread_list, threads_text, within, word_or, words_text};
ghost use Rattle.m161_server.specs.helpers.Kinds.{is_still};

use crate::choosing::{choose_control, choose_general, has_thread, ok_or};
use crate::description::description;
use crate::fault::ServerFault;
use crate::monitor::monitor;
use crate::moving::{move_back, move_on, resume};
use crate::registers::{memory_text, part_text, word_or, words_text};
use crate::reply::{Reply, tell};
use crate::session::Session;
use crate::stops::{change, stop_text};
use crate::target::Target;
use crate::texts::{doing_text, push_thread, text, thread_list, threads_text, within};
use m161_gdb::{Motion, Packet, Thread};
use std::alloc::{AllocError, Global};

// What the server has beyond the oldest protocol.
const FEATURES: &str =
    "PacketSize=4000;QStartNoAckMode+;multiprocess-;swbreak+;hwbreak+;vContSupported+;ReverseStep+;ReverseContinue+;qXfer:features:read+;qXfer:threads:read+";

// Chooses the general processor.
fn general<T: Target>(
    alloc: Global,
    target: &T,
    session: &mut Session,
    thread: Thread,
) -> Result<Reply, AllocError>
    ensures { IfOk result (λ reply. Answers (T.course target.now) (packets.General thread)
        (standing (T.place target.now) session.old) reply (standing (T.place target.now) session.new)) }
{
    choose_general(target, session, thread);
    tell(alloc, ok_or("E02", has_thread(target, thread)))
}

// Chooses the processors in control.
fn control<T: Target>(
    alloc: Global,
    target: &T,
    session: &mut Session,
    thread: Thread,
) -> Result<Reply, AllocError>
    ensures { IfOk result (λ reply. Answers (T.course target.now) (packets.Control thread)
        (standing (T.place target.now) session.old) reply (standing (T.place target.now) session.new)) }
{
    choose_control(target, session, thread);
    tell(alloc, ok_or("E02", has_thread(target, thread)))
}

// The general processor.
fn general_text<T: Target>(
    alloc: Global,
    target: &T,
    session: &Session,
) -> Result<Reply, AllocError>
    ensures { IfOk result (λ reply. reply ≡ told (general_text (T.course target.now).scene session.now)) }
{
    let mut text = text(alloc, "QC")?;
    push_thread(&mut text, within(target, session.general))?;
    Ok(Reply::said(alloc, text))
}

// What a processor does.
fn doing_or<T: Target>(alloc: Global, target: &T, processor: u32) -> Result<Reply, AllocError>
    ensures { IfOk result (λ reply. reply
        ≡ told (doing_or (T.course target.now).scene (T.place target.now) processor)) }
{
    if processor < target.processors() {
        Ok(Reply::said(alloc, doing_text(alloc, target.doing(processor))?))
    } else {
        tell(alloc, "E02")
    }
}

// All processors.
fn threads<T: Target>(alloc: Global, target: &T) -> Result<Reply, AllocError>
    ensures { IfOk result (λ reply. reply ≡ told (threads_text (T.course target.now).scene.processors)) }
{
    Ok(Reply::said(alloc, threads_text(alloc, target.processors())?))
}

// The last stop.
fn last_stop<T: Target>(alloc: Global, target: &T, session: &Session) -> Result<Reply, AllocError>
    ensures { IfOk result (λ reply. reply
        ≡ told (stop_text (T.course target.now).scene session.now.last)) }
{
    Ok(Reply::said(alloc, stop_text(alloc, target, session.last)?))
}

// A part of the description.
fn description_part(alloc: Global, from: u32, size: u32) -> Result<Reply, AllocError>
    ensures { IfOk result (λ reply. reply ≡ told (part_text description from size)) }
{
    Ok(Reply::of(alloc, part_text(alloc, description(), from, size)?))
}

// A part of the list of processors.
fn list_part<T: Target>(
    alloc: Global,
    target: &T,
    from: u32,
    size: u32,
) -> Result<Reply, AllocError>
    ensures { IfOk result (λ reply. reply ≡ told (part_text
        (thread_list (T.course target.now).scene (T.place target.now)) from size)) }
{
    let list = thread_list(alloc, target)?;
    Ok(Reply::of(alloc, part_text(alloc, &list, from, size)?))
}

// All words of the general processor.
fn words<T: Target>(alloc: Global, target: &T, session: &Session) -> Result<Reply, AllocError>
    ensures { IfOk result (λ reply. reply ≡ told (words_text (T.course target.now).scene
        (T.place target.now) (within (T.course target.now).scene session.now.general))) }
{
    let general = within(target, session.general);
    Ok(Reply::said(alloc, words_text(alloc, target, general)?))
}

// One of them.
fn word<T: Target>(
    alloc: Global,
    target: &T,
    session: &Session,
    number: u32,
) -> Result<Reply, AllocError>
    ensures { IfOk result (λ reply. reply ≡ told (word_or (T.course target.now).scene
        (T.place target.now) (within (T.course target.now).scene session.now.general) number)) }
{
    let general = within(target, session.general);
    Ok(Reply::said(alloc, word_or(alloc, target, general, number)?))
}

// Bytes of it.
fn memory<T: Target>(
    alloc: Global,
    target: &T,
    session: &Session,
    address: u32,
    size: u32,
) -> Result<Reply, AllocError>
    ensures { IfOk result (λ reply. reply ≡ told (memory_text (T.course target.now).scene
        (T.place target.now) (within (T.course target.now).scene session.now.general) address size)) }
{
    let general = within(target, session.general);
    Ok(Reply::said(alloc, memory_text(alloc, target, general, address, size)?))
}

// Answers a packet that makes no move, and is no line of the monitor.
fn answer_still<T: Target>(
    alloc: Global,
    target: &T,
    session: &mut Session,
    packet: &Packet,
) -> Result<Reply, AllocError>
    ensures { IfOk result (λ reply. is_still packet.now ≡ true → Answers (T.course target.now) packet.now
        (standing (T.place target.now) session.old) reply (standing (T.place target.now) session.new)) }
{
    match packet {
        Packet::Supported => tell(alloc, FEATURES),
        Packet::NoAcknowledgements => tell(alloc, "OK"),
        Packet::LastStop => last_stop(alloc, target, session),
        Packet::General(thread) => general(alloc, target, session, *thread),
        Packet::Control(thread) => control(alloc, target, session, *thread),
        Packet::IsThread(p) => tell(alloc, ok_or("E02", *p < target.processors())),
        Packet::GeneralThread => general_text(alloc, target, session),
        Packet::Threads => threads(alloc, target),
        Packet::MoreThreads => tell(alloc, "l"),
        Packet::ThreadState(p) => doing_or(alloc, target, *p),
        Packet::IsAttached => tell(alloc, "1"),
        Packet::Symbols => tell(alloc, "OK"),
        Packet::Description(from, size) => description_part(alloc, *from, *size),
        Packet::ThreadList(from, size) => list_part(alloc, target, *from, *size),
        Packet::Registers => words(alloc, target, session),
        Packet::Register(number) => word(alloc, target, session, *number),
        Packet::Memory(address, size) => memory(alloc, target, session, *address, *size),
        Packet::Write => tell(alloc, "E05"),
        Packet::Place(what, kind, address, size) => {
            change(alloc, session, *what, *kind, *address, *size)
        }
        Packet::KnownActions => tell(alloc, "vCont;c;C;s;S"),
        Packet::Detach => tell(alloc, "OK"),
        Packet::Kill => Ok(Reply::none(alloc)),
        Packet::Malformed => tell(alloc, "E01"),
        Packet::Unknown => tell(alloc, ""),
        _ => tell(alloc, ""),
    }
}

/// Answers a packet.
///
/// # Errors
/// Memory was refused, or the run can't be gone along. The session isn't used any more then.
pub fn answer<T: Target>(
    alloc: Global,
    target: &mut T,
    session: &mut Session,
    packet: &Packet,
) -> Result<Reply, ServerFault<T::Error>>
    ensures course { T.course target.new ≡ T.course target.old }
    ensures ok { IfOk result (λ reply. Answers (T.course target.old) packet.now
        (standing (T.place target.old) session.old) reply (standing (T.place target.new) session.new)) }
    ensures err { IfErr result (IsUnanswered (T.fails (T.course target.old))) }
{
    match packet {
        Packet::Resume(actions) => resume(alloc, target, session, actions),
        Packet::Continue => move_on(alloc, target, session, Motion::Continue),
        Packet::Step => move_on(alloc, target, session, Motion::Step),
        Packet::ContinueBack => move_back(alloc, target, session, Motion::Continue),
        Packet::StepBack => move_back(alloc, target, session, Motion::Step),
        Packet::Monitor(line) => monitor(alloc, target, session, line.as_slice()),
        _ => Ok(answer_still(alloc, target, session, packet)?),
    }
}
