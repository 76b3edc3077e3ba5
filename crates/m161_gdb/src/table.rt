//! Reading packets.

ghost use Rattle.std.specs.Prelude.{◌≡◌, ◌++◌, IfOk, bytes_eq, unwrap_or};
ghost use Rattle.m161_gdb.specs.declared.packet.Packet.TheVariants as packets;
ghost use Rattle.m161_gdb.specs.helpers.Rows.{short_row};
ghost use Rattle.m161_gdb.specs.Packets.{actions_of, behind_comma, bytes_of, first_row, kind_at, may_stand, memory_at, moves, number_of, of_description, of_lists, of_state, of_texts, of_thread_list, of_threads, packet_of, place_of, place_with, queries, thread_of, two_numbers, with_actions, with_line, with_processor, with_register, with_thread, with_two};

use crate::actions::actions_of;
use crate::body::Body;
use crate::hex::byte_value;
use crate::number::{number_of, thread_of, two_numbers};
use crate::packet::{Change, Kind, Packet, Thread};
use std::alloc::{AllocError, Global};

// How many words `g` answers.
const REGISTERS: u32 = 81;

// Whether a body is this word.
fn is(body: &[u8], word: &[u8]) -> bool
    ensures { result ≡ bytes_eq body.now word.now }
{
    body == word
}

// The packets without arguments that make moves or are a letter.
fn move_packet(body: &[u8]) -> Option<Packet>
    ensures { result ≡ first_row moves body.now }
{
    if is(body, b"?") {
        return Some(Packet::LastStop);
    }
    if is(body, b"g") {
        return Some(Packet::Registers);
    }
    if is(body, b"c") {
        return Some(Packet::Continue);
    }
    if is(body, b"s") {
        return Some(Packet::Step);
    }
    if is(body, b"bc") {
        return Some(Packet::ContinueBack);
    }
    if is(body, b"bs") {
        return Some(Packet::StepBack);
    }
    if is(body, b"D") {
        return Some(Packet::Detach);
    }
    if is(body, b"k") {
        return Some(Packet::Kill);
    }
    None
}

// A choice of processors: the general one, or those that moves resume.
fn general(text: &[u8]) -> Packet
    ensures { result ≡ with_thread packets.General (thread_of text.now) }
{
    match thread_of(text) {
        Some(thread) => Packet::General(thread),
        None => Packet::Malformed,
    }
}

fn control(text: &[u8]) -> Packet
    ensures { result ≡ with_thread packets.Control (thread_of text.now) }
{
    match thread_of(text) {
        Some(thread) => Packet::Control(thread),
        None => Packet::Malformed,
    }
}

// A question about a processor.
fn is_thread(text: &[u8]) -> Packet
    ensures { result ≡ with_processor packets.IsThread (thread_of text.now) }
{
    match thread_of(text) {
        Some(Thread::Processor(p)) => Packet::IsThread(p),
        Some(Thread::Any) => Packet::Malformed,
        None => Packet::Malformed,
    }
}

fn thread_state(text: &[u8]) -> Packet
    ensures { result ≡ with_processor packets.ThreadState (thread_of text.now) }
{
    match thread_of(text) {
        Some(Thread::Processor(p)) => Packet::ThreadState(p),
        Some(Thread::Any) => Packet::Malformed,
        None => Packet::Malformed,
    }
}

// The packets that name a thread.
fn thread_packet(body: &[u8]) -> Option<Packet>
    ensures { result ≡ first_row of_threads body.now }
{
    if let Some(rest) = body.strip_prefix(b"Hg") {
        return Some(general(rest));
    }
    if let Some(rest) = body.strip_prefix(b"Hc") {
        return Some(control(rest));
    }
    if body.strip_prefix(b"H").is_some() {
        return Some(Packet::Malformed);
    }
    if let Some(rest) = body.strip_prefix(b"T") {
        return Some(is_thread(rest));
    }
    if let Some(rest) = body.strip_prefix(b"qThreadExtraInfo,") {
        return Some(thread_state(rest));
    }
    None
}

// The packets without arguments that ask.
fn query_packet(body: &[u8]) -> Option<Packet>
    ensures { result ≡ first_row queries body.now }
{
    if is(body, b"qSupported") {
        return Some(Packet::Supported);
    }
    if is(body, b"QStartNoAckMode") {
        return Some(Packet::NoAcknowledgements);
    }
    if is(body, b"qC") {
        return Some(Packet::GeneralThread);
    }
    if is(body, b"qfThreadInfo") {
        return Some(Packet::Threads);
    }
    if is(body, b"qsThreadInfo") {
        return Some(Packet::MoreThreads);
    }
    if is(body, b"qAttached") {
        return Some(Packet::IsAttached);
    }
    if is(body, b"vCont?") {
        return Some(Packet::KnownActions);
    }
    if is(body, b"vCont") {
        return Some(Packet::Malformed);
    }
    None
}

// A register, or bytes of memory.
fn register(text: &[u8]) -> Packet
    ensures { result ≡ with_register (number_of text.now) }
{
    match number_of(text) {
        Some(number) if number < REGISTERS => Packet::Register(number),
        Some(_) => Packet::Malformed,
        None => Packet::Malformed,
    }
}

fn memory(text: &[u8]) -> Packet
    ensures { result ≡ with_two memory_at (two_numbers text.now) }
{
    match two_numbers(text) {
        Some((_, 0)) => Packet::Malformed,
        Some((address, size)) => Packet::Memory(address, size),
        None => Packet::Malformed,
    }
}

// A kind of breakpoint or watch by its digit.
fn kind_at(digit: u8) -> Option<Kind>
    ensures { result ≡ kind_at digit }
{
    match digit {
        b'0' => Some(Kind::Software),
        b'1' => Some(Kind::Hardware),
        b'2' => Some(Kind::Write),
        b'3' => Some(Kind::Read),
        b'4' => Some(Kind::Access),
        _ => None,
    }
}

// Whether a breakpoint or watch may have this address and length.
fn may_stand(kind: Kind, address: u32, size: u32) -> bool
    ensures { result ≡ may_stand kind address size }
{
    if kind.is_watch() {
        1 <= size && u64::from(address) + u64::from(size) <= 1 << 32
    } else {
        true
    }
}

// Two numbers behind a comma.
fn behind_comma(text: &[u8]) -> Option<(u32, u32)>
    ensures { result ≡ behind_comma text.now }
{
    match text {
        [b',', rest @ ..] => two_numbers(rest),
        _ => None,
    }
}

fn place_with(change: Change, kind: Kind, text: &[u8]) -> Packet
    ensures { result ≡ place_with change kind (behind_comma text.now) }
{
    match behind_comma(text) {
        Some((address, size)) => {
            if may_stand(kind, address, size) {
                Packet::Place(change, kind, address, size)
            } else {
                Packet::Malformed
            }
        }
        None => Packet::Malformed,
    }
}

// A change of a breakpoint or watch.
fn place_of(change: Change, text: &[u8]) -> Packet
    ensures { result ≡ place_of change text.now }
{
    match text {
        [] => Packet::Unknown,
        [digit, rest @ ..] => match kind_at(*digit) {
            Some(kind) => place_with(change, kind, rest),
            None => Packet::Unknown,
        },
    }
}

// The packets of registers, memory, breakpoints and watches.
fn state_packet(body: &[u8]) -> Option<Packet>
    ensures { result ≡ first_row of_state body.now }
{
    if let Some(rest) = body.strip_prefix(b"p") {
        return Some(register(rest));
    }
    if let Some(rest) = body.strip_prefix(b"m") {
        return Some(memory(rest));
    }
    if body.strip_prefix(b"G").is_some() {
        return Some(Packet::Write);
    }
    if body.strip_prefix(b"P").is_some() {
        return Some(Packet::Write);
    }
    if body.strip_prefix(b"M").is_some() {
        return Some(Packet::Write);
    }
    if body.strip_prefix(b"X").is_some() {
        return Some(Packet::Write);
    }
    if let Some(rest) = body.strip_prefix(b"Z") {
        return Some(place_of(Change::Set, rest));
    }
    if let Some(rest) = body.strip_prefix(b"z") {
        return Some(place_of(Change::Delete, rest));
    }
    None
}

// A part of the target's description.
fn description(text: &[u8]) -> Packet
    ensures { result ≡ with_two packets.Description (two_numbers text.now) }
{
    match two_numbers(text) {
        Some((from, most)) => Packet::Description(from, most),
        None => Packet::Malformed,
    }
}

// A part of the list of threads.
fn thread_list(text: &[u8]) -> Packet
    ensures { result ≡ with_two packets.ThreadList (two_numbers text.now) }
{
    match two_numbers(text) {
        Some((from, most)) => Packet::ThreadList(from, most),
        None => Packet::Malformed,
    }
}

// The packets whose rest isn't looked at.
fn text_packet(body: &[u8]) -> Option<Packet>
    ensures { result ≡ first_row of_texts body.now }
{
    if body.strip_prefix(b"qSupported:").is_some() {
        return Some(Packet::Supported);
    }
    if body.strip_prefix(b"qSymbol:").is_some() {
        return Some(Packet::Symbols);
    }
    None
}

// The packets that ask for the target's description.
fn description_packet(body: &[u8]) -> Option<Packet>
    ensures { result ≡ first_row of_description body.now }
{
    if let Some(rest) = body.strip_prefix(b"qXfer:features:read:target.xml:") {
        return Some(description(rest));
    }
    if body.strip_prefix(b"qXfer:features:read:").is_some() {
        return Some(Packet::Malformed);
    }
    None
}

// The packets that ask for the list of threads.
fn list_of_threads_packet(body: &[u8]) -> Option<Packet>
    ensures { result ≡ first_row of_thread_list body.now }
{
    if let Some(rest) = body.strip_prefix(b"qXfer:threads:read::") {
        return Some(thread_list(rest));
    }
    if body.strip_prefix(b"qXfer:threads:read:").is_some() {
        return Some(Packet::Malformed);
    }
    None
}

// Actions.
fn resume(alloc: Global, text: &[u8]) -> Result<Packet, AllocError>
    ensures { IfOk result (λ packet. packet ≡ with_actions (actions_of text.now)) }
{
    match actions_of(alloc, text)? {
        Some(actions) => Ok(Packet::Resume(actions)),
        None => Ok(Packet::Malformed),
    }
}

// The bytes of two hexadecimal digits each.
fn bytes_of(alloc: Global, digits: &[u8]) -> Result<Option<Body>, AllocError>
    ensures { IfOk result (λ line. line ≡ bytes_of digits.now) }
{
    let mut line = Body::empty(alloc);
    let mut rest = digits;
    while let [high, low, behind @ ..] = rest {
        let Some(byte) = byte_value(*high, *low) else {
            return Ok(None);
        };
        line.push(byte)?;
        rest = behind;
    }
    if rest.is_empty() {
        Ok(Some(line))
    } else {
        Ok(None)
    }
}

// A line of the monitor.
fn monitor(alloc: Global, text: &[u8]) -> Result<Packet, AllocError>
    ensures { IfOk result (λ packet. packet ≡ with_line (bytes_of text.now)) }
{
    match bytes_of(alloc, text)? {
        Some(line) => Ok(Packet::Monitor(line)),
        None => Ok(Packet::Malformed),
    }
}

// The packets of lists.
fn list_packet(alloc: Global, body: &[u8]) -> Result<Packet, AllocError>
    ensures { IfOk result
        (λ packet. packet ≡ unwrap_or (first_row of_lists body.now) packets.Unknown) }
{
    if let Some(rest) = body.strip_prefix(b"vCont;") {
        return resume(alloc, rest);
    }
    if let Some(rest) = body.strip_prefix(b"qRcmd,") {
        return monitor(alloc, rest);
    }
    Ok(Packet::Unknown)
}

// The packets that need no memory.
fn short_packet(body: &[u8]) -> Option<Packet>
    ensures { result ≡ short_row body.now }
{
    if let Some(packet) = move_packet(body) {
        return Some(packet);
    }
    if let Some(packet) = query_packet(body) {
        return Some(packet);
    }
    if let Some(packet) = thread_packet(body) {
        return Some(packet);
    }
    if let Some(packet) = state_packet(body) {
        return Some(packet);
    }
    if let Some(packet) = text_packet(body) {
        return Some(packet);
    }
    if let Some(packet) = description_packet(body) {
        return Some(packet);
    }
    list_of_threads_packet(body)
}

/// The packet that a body is.
///
/// # Errors
/// Memory was refused, for the actions of `vCont` or the line of `qRcmd`.
#[tactic(auto, using(crate::proofs::Rows::found_short, crate::proofs::Rows::found_list))]
pub fn packet_of(alloc: Global, body: &[u8]) -> Result<Packet, AllocError>
    ensures { IfOk result (λ packet. packet ≡ packet_of body.now) }
{
    if let Some(packet) = short_packet(body) {
        return Ok(packet);
    }
    list_packet(alloc, body)
}
