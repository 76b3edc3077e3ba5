//! Bodies, and the packets that they are.

use crate::tests::same;
use m161_gdb::{Actions, Change, Kind, Motion, Packet, Thread, packet_of};
use std::alloc::AllocError;

/// A body, and its packet: a name and two numbers.
static ROWS: [(&str, (&str, u32, u32)); 125] = [
    ("qSupported", ("supported", 0, 0)),
    ("qSupported:multiprocess+;swbreak+", ("supported", 0, 0)),
    ("qSupported:", ("supported", 0, 0)),
    ("qSupportedx", ("unknown", 0, 0)),
    ("QStartNoAckMode", ("no acknowledgements", 0, 0)),
    ("QStartNoAckMode2", ("unknown", 0, 0)),
    ("?", ("last stop", 0, 0)),
    ("?0", ("unknown", 0, 0)),
    ("Hg0", ("general", 0, 0)),
    ("Hg-1", ("general", 0, 0)),
    ("Hg1", ("general", 1, 0)),
    ("Hg2", ("general", 1, 1)),
    ("Hg00002", ("general", 1, 1)),
    ("HgFfffFfff", ("general", 1, 0xffff_fffe)),
    ("Hg0ffffffff", ("general", 1, 0xffff_fffe)),
    ("Hg100000000", ("malformed", 0, 0)),
    ("Hg", ("malformed", 0, 0)),
    ("Hg-2", ("malformed", 0, 0)),
    ("Hg-", ("malformed", 0, 0)),
    ("Hg-1 ", ("malformed", 0, 0)),
    ("Hg1g", ("malformed", 0, 0)),
    ("Hc0", ("control", 0, 0)),
    ("Hc1", ("control", 1, 0)),
    ("Hc", ("malformed", 0, 0)),
    ("Hs1", ("malformed", 0, 0)),
    ("H", ("malformed", 0, 0)),
    ("T2", ("is thread", 1, 0)),
    ("Ta", ("is thread", 9, 0)),
    ("T0", ("malformed", 0, 0)),
    ("T-1", ("malformed", 0, 0)),
    ("T", ("malformed", 0, 0)),
    ("T2,", ("malformed", 0, 0)),
    ("qC", ("general thread", 0, 0)),
    ("qCRC:0,4", ("unknown", 0, 0)),
    ("qfThreadInfo", ("threads", 0, 0)),
    ("qsThreadInfo", ("more threads", 0, 0)),
    ("qThreadExtraInfo,2", ("thread state", 1, 0)),
    ("qThreadExtraInfo,0", ("malformed", 0, 0)),
    ("qThreadExtraInfo,-1", ("malformed", 0, 0)),
    ("qThreadExtraInfo,", ("malformed", 0, 0)),
    ("qThreadExtraInfo", ("unknown", 0, 0)),
    ("qAttached", ("is attached", 0, 0)),
    ("qAttached:1", ("unknown", 0, 0)),
    ("qSymbol::", ("symbols", 0, 0)),
    ("qSymbol:", ("symbols", 0, 0)),
    ("qSymbol", ("unknown", 0, 0)),
    (
        "qXfer:features:read:target.xml:0,3fff",
        ("description", 0, 16_383),
    ),
    ("qXfer:features:read:target.xml:0", ("malformed", 0, 0)),
    ("qXfer:features:read:target.xml", ("malformed", 0, 0)),
    ("qXfer:features:read:other.xml:0,10", ("malformed", 0, 0)),
    ("qXfer:features:read::0,10", ("malformed", 0, 0)),
    ("qXfer:features:write:target.xml:0", ("unknown", 0, 0)),
    ("qXfer:threads:read::3FfF,10", ("thread list", 16_383, 16)),
    ("qXfer:threads:read::0,", ("malformed", 0, 0)),
    ("qXfer:threads:read:x:0,10", ("malformed", 0, 0)),
    ("qXfer:memory-map:read::0,10", ("unknown", 0, 0)),
    ("g", ("registers", 0, 0)),
    ("g0", ("unknown", 0, 0)),
    ("p25", ("register", 37, 0)),
    ("p050", ("register", 80, 0)),
    ("p51", ("malformed", 0, 0)),
    ("p", ("malformed", 0, 0)),
    ("p100000000", ("malformed", 0, 0)),
    ("p2x", ("malformed", 0, 0)),
    ("m80003000,8", ("memory", 0x8000_3000, 8)),
    ("mA0003000,ffffffff", ("memory", 0xa000_3000, 0xffff_ffff)),
    ("m0,00000000000004", ("memory", 0, 4)),
    ("m80003000,0", ("malformed", 0, 0)),
    ("m80003000", ("malformed", 0, 0)),
    ("m80003000,", ("malformed", 0, 0)),
    ("m,4", ("malformed", 0, 0)),
    ("m1,2,3", ("malformed", 0, 0)),
    ("m", ("malformed", 0, 0)),
    ("G00", ("write", 0, 0)),
    ("P25=00000000", ("write", 0, 0)),
    ("M80003000,1:00", ("write", 0, 0)),
    ("X80003000,0:", ("write", 0, 0)),
    ("Z0,80000244,4", ("set software", 0x8000_0244, 4)),
    (
        "Z0,ffffffff,ffffffff",
        ("set software", 0xffff_ffff, 0xffff_ffff),
    ),
    ("Z1,80000244,0", ("set hardware", 0x8000_0244, 0)),
    ("Z2,80003008,4", ("set write", 0x8000_3008, 4)),
    ("Z3,ffffffff,1", ("set read", 0xffff_ffff, 1)),
    ("Z4,0,ffffffff", ("set access", 0, 0xffff_ffff)),
    ("z0,80000244,0", ("delete software", 0x8000_0244, 0)),
    ("z4,400004,4", ("delete access", 0x40_0004, 4)),
    ("Z2,80003008,0", ("malformed", 0, 0)),
    ("z2,80003008,0", ("malformed", 0, 0)),
    ("Z3,ffffffff,2", ("malformed", 0, 0)),
    ("Z4,1,ffffffff", ("set access", 1, 0xffff_ffff)),
    ("Z4,2,ffffffff", ("malformed", 0, 0)),
    ("Z0,80000244", ("malformed", 0, 0)),
    ("Z0;80000244,4", ("malformed", 0, 0)),
    ("Z0,80000244,4;X1,00", ("malformed", 0, 0)),
    ("z1", ("malformed", 0, 0)),
    ("Z5,80000244,4", ("unknown", 0, 0)),
    ("z9", ("unknown", 0, 0)),
    ("Z", ("unknown", 0, 0)),
    ("vCont?", ("known actions", 0, 0)),
    ("vCont;c", ("resume", 1, 1)),
    ("vCont;s:2;c", ("resume", 2, 2)),
    ("vCont;C05;S0F:2", ("resume", 2, 1)),
    ("vCont;s:0;c:2", ("resume", 2, 2)),
    ("vCont;s:-1", ("resume", 1, 2)),
    ("vCont;c:1", ("resume", 1, 0)),
    ("vCont", ("malformed", 0, 0)),
    ("vCont;", ("malformed", 0, 0)),
    ("vCont;c;", ("malformed", 0, 0)),
    ("vCont;t", ("malformed", 0, 0)),
    ("vCont;c:", ("malformed", 0, 0)),
    ("vCont;c:1:2", ("malformed", 0, 0)),
    ("vCont;C5", ("malformed", 0, 0)),
    ("vCont;Sxx", ("malformed", 0, 0)),
    ("vContx", ("unknown", 0, 0)),
    ("c", ("continue", 0, 0)),
    ("s", ("step", 0, 0)),
    ("bc", ("continue back", 0, 0)),
    ("bs", ("step back", 0, 0)),
    ("c80000200", ("unknown", 0, 0)),
    ("qRcmd,6174", ("monitor", 2, 0x61)),
    ("qRcmd,", ("monitor", 0, 0)),
    ("qRcmd,6", ("malformed", 0, 0)),
    ("qRcmd,6g", ("malformed", 0, 0)),
    ("D", ("detach", 0, 0)),
    ("k", ("kill", 0, 0)),
    ("vMustReplyEmpty", ("unknown", 0, 0)),
];

fn of_thread(name: &'static str, thread: Thread) -> (&'static str, u32, u32) {
    match thread {
        Thread::Any => (name, 0, 0),
        Thread::Processor(p) => (name, 1, p),
    }
}

fn name_of(change: Change, kind: Kind) -> &'static str {
    match (change, kind) {
        (Change::Set, Kind::Software) => "set software",
        (Change::Set, Kind::Hardware) => "set hardware",
        (Change::Set, Kind::Write) => "set write",
        (Change::Set, Kind::Read) => "set read",
        (Change::Set, Kind::Access) => "set access",
        (Change::Delete, Kind::Software) => "delete software",
        (Change::Delete, Kind::Hardware) => "delete hardware",
        (Change::Delete, Kind::Write) => "delete write",
        (Change::Delete, Kind::Read) => "delete read",
        (Change::Delete, Kind::Access) => "delete access",
    }
}

// How many actions there are, and what processor 1 does by them: 1 goes on, 2 makes a Step.
fn of_actions(actions: &Actions) -> (&'static str, u32, u32) {
    let count = u32::try_from(actions.as_slice().len()).unwrap_or(u32::MAX);
    match actions.motion_of(1) {
        None => ("resume", count, 0),
        Some(Motion::Continue) => ("resume", count, 1),
        Some(Motion::Step) => ("resume", count, 2),
    }
}

// How long a line is, and its first byte.
fn of_line(line: &[u8]) -> (&'static str, u32, u32) {
    let length = u32::try_from(line.len()).unwrap_or(u32::MAX);
    match line {
        [] => ("monitor", length, 0),
        [first, ..] => ("monitor", length, u32::from(*first)),
    }
}

fn of_packet(packet: &Packet) -> (&'static str, u32, u32) {
    match packet {
        Packet::Supported => ("supported", 0, 0),
        Packet::NoAcknowledgements => ("no acknowledgements", 0, 0),
        Packet::LastStop => ("last stop", 0, 0),
        Packet::General(thread) => of_thread("general", *thread),
        Packet::Control(thread) => of_thread("control", *thread),
        Packet::IsThread(p) => ("is thread", *p, 0),
        Packet::GeneralThread => ("general thread", 0, 0),
        Packet::Threads => ("threads", 0, 0),
        Packet::MoreThreads => ("more threads", 0, 0),
        Packet::ThreadState(p) => ("thread state", *p, 0),
        Packet::IsAttached => ("is attached", 0, 0),
        Packet::Symbols => ("symbols", 0, 0),
        Packet::Description(from, most) => ("description", *from, *most),
        Packet::ThreadList(from, most) => ("thread list", *from, *most),
        Packet::Registers => ("registers", 0, 0),
        Packet::Register(number) => ("register", *number, 0),
        Packet::Memory(address, size) => ("memory", *address, *size),
        Packet::Write => ("write", 0, 0),
        Packet::Place(change, kind, address, size) => (name_of(*change, *kind), *address, *size),
        Packet::KnownActions => ("known actions", 0, 0),
        Packet::Resume(actions) => of_actions(actions),
        Packet::Continue => ("continue", 0, 0),
        Packet::Step => ("step", 0, 0),
        Packet::ContinueBack => ("continue back", 0, 0),
        Packet::StepBack => ("step back", 0, 0),
        Packet::Monitor(line) => of_line(line.as_slice()),
        Packet::Detach => ("detach", 0, 0),
        Packet::Kill => ("kill", 0, 0),
        Packet::Malformed => ("malformed", 0, 0),
        Packet::Unknown => ("unknown", 0, 0),
    }
}

#[test]
fn packets_of_bodies(rt: HostRuntime) -> Result<(), AllocError> {
    for row in &ROWS {
        let packet = packet_of(rt.alloc(), row.0.as_bytes())?;
        same(&rt, (row.0, of_packet(&packet)), (row.0, row.1));
    }
    Ok(())
}
