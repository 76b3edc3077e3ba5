//! Sessions that are read and written.

ghost use Rattle.std.specs.Prelude.{◌≡◌, ◌++◌, ◌∷◌, [], ℕ, List, IfErr, IfOk, not, Option, OnOk};
ghost use Rattle.m161_gdb.specs.declared.frames.Item.{Item};
ghost use Rattle.m161_gdb.specs.Frames.{frame_text, HasRead};
ghost use Rattle.m161_gdb.specs.Links.{HasReceived};
ghost use Rattle.m161_server.specs.Serving.{frame_of, in_order, new_session, packet_in, plus_if, sent_after, Breaks, Ends, WritesAnswer, interrupted};
ghost use Rattle.m161_server.specs.Sessions.{ends, standing};
ghost use Rattle.m161_server.specs.Streams.{streams};
ghost use Rattle.m161_server.specs.helpers.Turns.{Deals, DoesAny, Serves, Serving, Takes, Turn};

use crate::answering::answer;
use crate::fault::ServerFault;
use crate::reply::Reply;
use crate::session::Session;
use crate::streams::{read_byte, send};
use crate::target::Target;
use m161_gdb::{Duty, Item, Link, Packet, Reader, frame, packet_of};
use std::alloc::{AllocError, Global};
use std::io::{Read, Write};

/// What a session keeps: what was read of a frame, the link, and what it knows.
#[derive(Drop)]
pub(crate) struct Talk {
    pub(crate) reader: Reader,
    pub(crate) link: Link,
    pub(crate) session: Session,
}

// The packet that a link's body is; one that is too long is unknown.
fn packet_in(alloc: Global, link: &Link) -> Result<Packet, AllocError>
    ensures { IfOk result (λ packet. packet ≡ packet_in link.now.last) }
{
    match link.body() {
        Some(body) => packet_of(alloc, body),
        None => Ok(Packet::Unknown),
    }
}

// Whether a packet leaves a session open.
fn goes_on(packet: &Packet) -> bool
    ensures { result ≡ not (ends packet.now) }
{
    match packet {
        Packet::Detach => false,
        Packet::Kill => false,
        _ => true,
    }
}

// What stands before the last packet of an answer.
fn front(alloc: Global, acknowledge: bool, before: &[u8]) -> Result<Vec<u8>, AllocError>
    ensures { IfOk result (λ out. out.items ≡ plus_if acknowledge ++ before.now) }
{
    let mut out = Vec::new(alloc);
    if acknowledge {
        out.push(b'+')?;
    }
    out.extend_from_slice(before)?;
    Ok(out)
}

// Appends a packet, and keeps it.
fn push_last(
    alloc: Global,
    link: &mut Link,
    out: &mut Vec<u8>,
    body: &[u8],
) -> Result<(), AllocError>
    ensures out { OnOk result (out.new.items ≡ out.old.items ++ frame_text body.now) }
    ensures sent { OnOk result (link.new.sent.items ≡ frame_text body.now) }
    ensures acknowledging { link.new.acknowledging ≡ link.old.acknowledging }
    ensures last { link.new.last ≡ link.old.last }
{
    let packet = frame(alloc, body)?;
    out.extend_from_slice(&packet)?;
    link.keep_sent(packet);
    Ok(())
}

// The text of an answer, whose last packet is kept.
fn compose(
    alloc: Global,
    link: &mut Link,
    acknowledge: bool,
    reply: &Reply,
) -> Result<Vec<u8>, AllocError>
    ensures text { IfOk result (λ text. text.items
        ≡ plus_if acknowledge ++ reply.now.before ++ frame_of reply.now.last) }
    ensures sent { OnOk result (link.new.sent.items ≡ sent_after reply.now.last link.old.sent.items) }
    ensures acknowledging { link.new.acknowledging ≡ link.old.acknowledging }
    ensures last { link.new.last ≡ link.old.last }
{
    let mut out = front(alloc, acknowledge, reply.before())?;
    match reply.last() {
        Some(body) => push_last(alloc, link, &mut out, body)?,
        None => {}
    }
    Ok(out)
}

// Answers the link's body.
fn answer_body<T: Target, O: Write>(
    alloc: Global,
    target: &mut T,
    link: &mut Link,
    session: &mut Session,
    acknowledge: bool,
    output: &mut O,
) -> Result<bool, ServerFault<T::Error>>
    ensures course { T.course target.new ≡ T.course target.old }
    ensures acknowledging { link.new.acknowledging ≡ link.old.acknowledging }
    ensures last { link.new.last ≡ link.old.last }
    ensures turn { Turn (T.fails (T.course target.old))
        (λ text more. WritesAnswer (T.course target.old) acknowledge (packet_in link.old.last)
        (standing (T.place target.old) session.old) link.old.sent.items text
        (standing (T.place target.new) session.new) link.new.sent.items more)
        (O.contents output.old) (O.contents output.new) result }
{
    let packet = packet_in(alloc, link)?;
    let reply = answer(alloc, target, session, &packet)?;
    let text = compose(alloc, link, acknowledge, &reply)?;
    send(output, text.as_slice())?;
    Ok(goes_on(&packet))
}

// Sets the interrupt flag.
fn interrupt(session: &mut Session)
    ensures { session.new ≡ interrupted session.old }
{
    session.stops.set_interrupted(true);
}

// Does what is to be done about an item.
fn do_duty<T: Target, O: Write>(
    alloc: Global,
    target: &mut T,
    link: &mut Link,
    session: &mut Session,
    duty: Duty,
    output: &mut O,
) -> Result<bool, ServerFault<T::Error>>
    ensures course { T.course target.new ≡ T.course target.old }
    ensures acknowledging { link.new.acknowledging ≡ link.old.acknowledging }
    ensures last { link.new.last ≡ link.old.last }
    ensures turn { Turn (T.fails (T.course target.old))
        (λ text more. DoesAny (T.course target.old) duty link.old.last
        (standing (T.place target.old) session.old) link.old.sent.items text
        (standing (T.place target.new) session.new) link.new.sent.items more)
        (O.contents output.old) (O.contents output.new) result }
{
    match duty {
        Duty::Nothing => Ok(true),
        Duty::Refuse => {
            send(output, b"-")?;
            Ok(true)
        }
        Duty::Resend => {
            send(output, link.sent())?;
            Ok(true)
        }
        Duty::Interrupt => {
            interrupt(session);
            Ok(true)
        }
        Duty::Answer(acknowledge) => answer_body(alloc, target, link, session, acknowledge, output),
    }
}

// Deals with an item.
#[tactic(auto, using(crate::proofs::Dealing::dealt))]
fn do_item<T: Target, O: Write>(
    alloc: Global,
    target: &mut T,
    link: &mut Link,
    session: &mut Session,
    item: Item,
    output: &mut O,
) -> Result<bool, ServerFault<T::Error>>
    ensures course { T.course target.new ≡ T.course target.old }
    ensures deals { (past : List Item) → HasReceived link.old past → Deals (T.fails (T.course target.old))
        (T.course target.old) item past (standing (T.place target.old) session.old) link.old
        (standing (T.place target.new) session.new) link.new (O.contents output.old)
        (O.contents output.new) result }
{
    let duty = link.receive(item);
    do_duty(alloc, target, link, session, duty, output)
}

// Takes a byte.
fn take_byte<T: Target, O: Write>(
    alloc: Global,
    target: &mut T,
    talk: &mut Talk,
    byte: u8,
    output: &mut O,
) -> Result<bool, ServerFault<T::Error>>
    ensures course { T.course target.new ≡ T.course target.old }
    ensures takes { (bytes : List ℕ) (past : List Item) → HasRead talk.old.reader bytes (in_order past) →
        HasReceived talk.old.link past → Takes (T.fails (T.course target.old)) (T.course target.old)
        talk.old talk.new (T.place target.old) (T.place target.new) (bytes ++ byte ∷ []) past
        (O.contents output.old) (O.contents output.new) result }
{
    match talk.reader.push(byte)? {
        Some(item) => do_item(
            alloc,
            target,
            &mut talk.link,
            &mut talk.session,
            item,
            output,
        ),
        None => Ok(true),
    }
}

// Reads a byte, if there is one, and takes it. Returns whether another may follow.
fn turn<T: Target, I: Read, O: Write>(
    alloc: Global,
    target: &mut T,
    talk: &mut Talk,
    input: &mut I,
    output: &mut O,
) -> Result<bool, ServerFault<T::Error>>
    ensures course { T.course target.new ≡ T.course target.old }
    ensures serves { (place : ℕ) (before written : Option (List ℕ)) → Serving (T.course target.old) place before
        written (T.place target.old) talk.old (I.remaining input.old) (O.contents output.old) →
        Serves (T.fails (T.course target.old)) (T.course target.old) place before written
        (T.place target.new) talk.new (I.remaining input.new) (O.contents output.new) result }
{
    let Some(byte) = read_byte(input)? else {
        return Ok(false);
    };
    take_byte(alloc, target, talk, byte, output)
}

/// Serves a client over a run, from the place where it stands: answers what is read, until the input
/// ends, or behind the packet of a client that leaves. Each answer is written and flushed before the
/// next byte is read, and nothing is read behind what ends the session. The run stays the same, and
/// stands at some place then.
///
/// # Errors
/// The input can't be read; the output failed; memory was refused, also for an answer of which nothing
/// is written then; or the run can't be gone along.
pub fn serve<T: Target, I: Read, O: Write>(
    alloc: Global,
    target: &mut T,
    input: &mut I,
    output: &mut O,
) -> Result<(), ServerFault<T::Error>>
    ensures course { T.course target.new ≡ T.course target.old }
    ensures ok { OnOk result (Ends (T.course target.old) (T.place target.old) (streams
        (I.remaining input.old) (I.remaining input.new) (O.contents output.old)
        (O.contents output.new))) }
    ensures err { IfErr result (Breaks (T.fails (T.course target.old)) (T.course target.old)
        (T.place target.old) (streams (I.remaining input.old) (I.remaining input.new)
        (O.contents output.old) (O.contents output.new))) }
{
    let mut talk = Talk {
        reader: Reader::new(alloc),
        link: Link::new(alloc),
        session: Session::new(alloc),
    };
    for _byte in 0..u64::MAX {
        if !turn(alloc, target, &mut talk, input, output)? {
            return Ok(());
        }
    }
    Err(ServerFault::Input)
}
