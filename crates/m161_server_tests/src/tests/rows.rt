//! What sessions answer.

use crate::tests::same;
use crate::tests::streams::{Broken, Buffered};
use crate::toy::Toy;
use m161_gdb::frame;
use m161_moves::{Access, StepSeen};
use m161_server::{ServerFault, serve};
use std::alloc::{AllocError, Global};
use std::fmt::Write;
use std::process::Abort;

/// Two processors: at 1 a store to 80003008, at 2 no Step, at 3 a load from 00400000, which is there.
static EVENTS: [Option<StepSeen>; 6] = [
    Some(StepSeen {
        processor: 0,
        fetched: Some(0x8000_0200),
        access: None,
    }),
    Some(StepSeen {
        processor: 1,
        fetched: Some(0x8000_0204),
        access: Some(Access {
            is_store: true,
            word: 0x3008,
            mapped: None,
        }),
    }),
    None,
    Some(StepSeen {
        processor: 0,
        fetched: Some(0x8000_0208),
        access: Some(Access {
            is_store: false,
            word: 0x3008,
            mapped: Some(0x40_0000),
        }),
    }),
    Some(StepSeen {
        processor: 1,
        fetched: Some(0x8000_0208),
        access: None,
    }),
    Some(StepSeen {
        processor: 0,
        fetched: Some(0x8000_020c),
        access: None,
    }),
];

/// The session's end.
#[derive(Clone, Copy, Debug, PartialEq, Eq)]
enum End {
    InOrder,
    Input,
    Output,
    Memory,
    Run,
}

fn end_of(ended: Result<(), ServerFault<()>>) -> End {
    match ended {
        Ok(()) => End::InOrder,
        Err(ServerFault::Input) => End::Input,
        Err(ServerFault::Output) => End::Output,
        Err(ServerFault::Memory) => End::Memory,
        Err(ServerFault::Run(())) => End::Run,
    }
}

/// Bytes that are received, and those that are sent for them.
static RAW: [(&[u8], &[u8]); 14] = [
    (b"$?#3f", b"+$T05thread:1;#d7"),
    (b"$?#3e", b"-"),
    (b"$q$qC#b4", b"+$QC1#c5"),
    (b"$qC#b4$qC#b4+$qC#b4", b"+$QC1#c5+$QC1#c5"),
    (b"$qC#b4--+", b"+$QC1#c5$QC1#c5$QC1#c5"),
    (b"\x03$vCont;c#a8", b"+$T02thread:1;#d4"),
    (
        b"$QStartNoAckMode#b0$qC#00$qC#00-",
        b"+$OK#9a$QC1#c5$QC1#c5",
    ),
    (b"$D#44$qC#b4", b"+$OK#9a"),
    (b"$k#6b$qC#b4", b"+"),
    (b"-", b""),
    (b"", b""),
    (b"$#00", b"+$#00"),
    (b"$qfoo#b5", b"+$#00"),
    // the second flag is used up by the first move
    (
        b"\x03\x03$c#63+$bc#c5",
        b"+$T02thread:1;#d4+$T05replaylog:begin;thread:1;#20",
    ),
];

#[test]
fn raw_bytes(rt: HostRuntime) -> Result<(), AllocError> {
    for row in &RAW {
        let mut toy = Toy {
            events: &EVENTS,
            at: 0,
        };
        let mut input = row.0;
        let mut output = Buffered::new(rt.alloc(), usize::MAX);
        let end = end_of(serve(rt.alloc(), &mut toy, &mut input, &mut output));
        same(
            &rt,
            (row.0, output.bytes() == row.1, end),
            (row.0, true, End::InOrder),
        );
    }
    Ok(())
}

/// A body, and the bodies that are answered.
type Row = (&'static str, &'static [&'static str]);

static START: [Row; 20] = [
    ("?", &["T05thread:1;"]),
    ("qC", &["QC1"]),
    ("qfThreadInfo", &["m1,2"]),
    ("qsThreadInfo", &["l"]),
    ("T2", &["OK"]),
    ("T3", &["E02"]),
    ("Hg3", &["E02"]),
    ("Hg2", &["OK"]),
    ("p25", &["00000000"]),
    ("qThreadExtraInfo,2", &["73746f70706564"]),
    ("qThreadExtraInfo,3", &["E02"]),
    ("Hg0", &["OK"]),
    ("qC", &["QC2"]),
    ("Hg1", &["OK"]),
    ("p25", &["80000200"]),
    ("p26", &["xxxxxxxx"]),
    ("p49", &["00003f00"]),
    ("p50", &["000000a1"]),
    ("p51", &["E01"]),
    ("qfoo", &[""]),
];

static MEMORY: [Row; 17] = [
    ("m80003000,8", &["0000000000000000"]),
    ("ma0003000,2", &["0000"]),
    ("m3000,4", &["E04"]),
    ("m800ffffe,4", &["0000"]),
    ("m80100000,1", &["E04"]),
    ("m80003000,0", &["E01"]),
    ("m80003000", &["E01"]),
    ("mbfe00000,4", &["E04"]),
    ("M80003000,1:00", &["E05"]),
    ("X80003000,0:", &["E05"]),
    ("P25=00000000", &["E05"]),
    ("G00", &["E05"]),
    ("m400000,2", &["E04"]),
    ("Hg2", &["OK"]),
    ("m400000,2", &["0707"]),
    ("m400fff,2", &["07"]),
    ("m3fffff,2", &["E04"]),
];

// Lines of the monitor, behind a `>`, and their texts.
static MONITOR: [Row; 26] = [
    (">at", &[">at 0 next s 0\n", "OK"]),
    (">why", &[">start at 0\n", "OK"]),
    (">schedule", &["OK"]),
    (">goto 3", &[">goto 3\n", "OK"]),
    ("vCont;c", &[">hi", "T02thread:2;"]),
    (">why", &[">goto at 3\n", "OK"]),
    (">goto 3", &[">at 3\n", "OK"]),
    (">goto 7", &[">? BadArgument\n", "OK"]),
    (">output", &[">hi", "OK"]),
    (">where", &[">0 running\n", "OK"]),
    (">regs", &[">regs 1\n", "OK"]),
    (">regs 0", &[">regs 0\n", "OK"]),
    (">regs 01", &[">? BadArgument\n", "OK"]),
    (">tlb 2", &[">? BadProcessor\n", "OK"]),
    (">cop0 1", &[">cop0 1\n", "OK"]),
    (">memory 0x80000200 1", &[">00000200 3c088000\n", "OK"]),
    (">memory 80000200 2", &[">? BadArgument\n", "OK"]),
    (">memory 80000200", &[">? BadArgument\n", "OK"]),
    (">trace 0", &[">? BadArgument\n", "OK"]),
    (">trace 1025", &[">? BadArgument\n", "OK"]),
    (">trace 1024", &[">trace\n", "OK"]),
    (">at 1", &[">? BadArgument\n", "OK"]),
    (">goto", &[">? BadArgument\n", "OK"]),
    (">fly", &[">? Unknown\n", "OK"]),
    (">", &[">? Unknown\n", "OK"]),
    ("qRcmd,6", &["E01"]),
];

static MOVES: [Row; 27] = [
    ("Z0,80000208,4", &["OK"]),
    ("vCont;c", &[">hi", "T05swbreak:;thread:1;"]),
    ("vCont;c", &["T05swbreak:;thread:1;"]),
    ("vCont;c:2", &["T05swbreak:;thread:2;"]),
    ("z0,80000208,0", &["OK"]),
    ("vCont;s:1", &["T05thread:1;"]),
    ("vCont;s:1", &["T05replaylog:end;thread:1;"]),
    ("vCont;c:3", &["E02"]),
    ("vCont;c:2", &["T05replaylog:end;thread:2;"]),
    ("?", &["T05replaylog:end;thread:2;"]),
    ("qC", &["QC2"]),
    ("bs", &["T05thread:2;"]),
    ("Hc1", &["OK"]),
    ("bs", &["T05thread:1;"]),
    ("s", &["T05thread:1;"]),
    ("Hc0", &["OK"]),
    ("Z2,80003008,4", &["OK"]),
    ("bc", &["T05watch:80003008;thread:2;"]),
    ("z2,80003008,4", &["OK"]),
    ("Z3,400002,1", &["OK"]),
    ("c", &["T05rwatch:00400002;thread:1;"]),
    ("z3,400002,1", &["OK"]),
    ("Z1,80000204,4", &["OK"]),
    ("bc", &["T05hwbreak:;thread:2;"]),
    ("bc", &["T05replaylog:begin;thread:1;"]),
    ("Z5,0,4", &[""]),
    ("vCont?", &["vCont;c;C;s;S"]),
];

static TEXTS: [Row; 9] = [
    (
        "qSupported:multiprocess+",
        &[
            "PacketSize=4000;QStartNoAckMode+;multiprocess-;swbreak+;hwbreak+;vContSupported+;ReverseStep+;ReverseContinue+;qXfer:features:read+;qXfer:threads:read+",
        ],
    ),
    ("qXfer:features:read:target.xml:0,9", &["m<?xml ver"]),
    ("qXfer:features:read:target.xml:1158,9", &["m</target>"]),
    ("qXfer:features:read:target.xml:115a,10", &["ltarget>\n"]),
    ("qXfer:features:read:target.xml:1162,10", &["l"]),
    (
        "qXfer:threads:read::0,3fff",
        &[
            "l<?xml version=\"1.0\"?>\n<threads>\n<thread id=\"1\" core=\"0\" name=\"cpu0\">running</thread>\n<thread id=\"2\" core=\"1\" name=\"cpu1\">stopped</thread>\n</threads>\n",
        ],
    ),
    ("qXfer:threads:read::16,9", &["m<threads>"]),
    ("qAttached", &["1"]),
    ("qSymbol::", &["OK"]),
];

// Bytes in hexadecimal, behind a word.
fn in_digits(alloc: Global, word: &str, bytes: &[u8]) -> Result<String, AllocError> {
    let mut text = String::new(alloc);
    text.push_str(word)?;
    for byte in bytes {
        write!(text, "{byte:02x}")?;
    }
    Ok(text)
}

// The frame of a body: of a line behind a `>` in hexadecimal, behind a word.
fn frame_of(alloc: Global, word: &str, body: &str) -> Result<Vec<u8>, AllocError> {
    match body.strip_prefix('>') {
        Some(line) => frame(alloc, in_digits(alloc, word, line.as_bytes())?.as_bytes()),
        None => frame(alloc, body.as_bytes()),
    }
}

// What is received for rows, behind the end of acknowledgements.
fn asked(alloc: Global, rows: &[Row]) -> Result<Vec<u8>, AllocError> {
    let mut bytes = frame(alloc, b"QStartNoAckMode")?;
    for row in rows {
        bytes.extend_from_slice(&frame_of(alloc, "qRcmd,", row.0)?)?;
    }
    Ok(bytes)
}

// What is sent for them.
fn answered(alloc: Global, rows: &[Row]) -> Result<Vec<u8>, AllocError> {
    let mut bytes = Vec::new(alloc);
    bytes.push(b'+')?;
    bytes.extend_from_slice(&frame(alloc, b"OK")?)?;
    for row in rows {
        for body in row.1 {
            bytes.extend_from_slice(&frame_of(alloc, "O", body)?)?;
        }
    }
    Ok(bytes)
}

// Serves bytes, with room for so many. Gives what was sent, and how the session ended.
fn served(alloc: Global, bytes: &[u8], room: usize) -> (Buffered, End) {
    let mut toy = Toy {
        events: &EVENTS,
        at: 0,
    };
    let mut input = bytes;
    let mut output = Buffered::new(alloc, room);
    let end = end_of(serve(alloc, &mut toy, &mut input, &mut output));
    (output, end)
}

fn check(rt: &(impl Abort + AllocGlobal), rows: &[Row]) -> Result<(), AllocError> {
    let alloc = rt.alloc();
    for n in 0..=rows.len() {
        let bytes = asked(alloc, &rows[..n])?;
        let (output, end) = served(alloc, &bytes, usize::MAX);
        let expected = answered(alloc, &rows[..n])?;
        let last = if n == 0 { "" } else { rows[n - 1].0 };
        same(
            rt,
            (n, last, output.bytes() == expected.as_slice(), end),
            (n, last, true, End::InOrder),
        );
    }
    Ok(())
}

#[test]
fn start(rt: HostRuntime) -> Result<(), AllocError> {
    check(&rt, &START)
}

#[test]
fn memory(rt: HostRuntime) -> Result<(), AllocError> {
    check(&rt, &MEMORY)
}

#[test]
fn monitor(rt: HostRuntime) -> Result<(), AllocError> {
    check(&rt, &MONITOR)
}

#[test]
fn moves(rt: HostRuntime) -> Result<(), AllocError> {
    check(&rt, &MOVES)
}

#[test]
fn texts(rt: HostRuntime) -> Result<(), AllocError> {
    check(&rt, &TEXTS)
}

// 81 words, of which 34 have no value.
#[test]
fn all_words(rt: HostRuntime) -> Result<(), AllocError> {
    let (output, end) = served(rt.alloc(), b"$g#67", usize::MAX);
    same(&rt, (output.bytes().len(), end), (653, End::InOrder));
    Ok(())
}

#[test]
fn ends_that_are_failures(rt: HostRuntime) -> Result<(), AllocError> {
    let (output, end) = served(rt.alloc(), b"$qC#b4$qC#b4", 3);
    same(&rt, (output.bytes().len(), end), (0, End::Output));
    let mut toy = Toy {
        events: &EVENTS,
        at: 0,
    };
    let mut input = Broken(b"$qC#b4$q");
    let mut output = Buffered::new(rt.alloc(), usize::MAX);
    let end = end_of(serve(rt.alloc(), &mut toy, &mut input, &mut output));
    same(
        &rt,
        (output.bytes() == b"+$QC1#c5".as_slice(), end),
        (true, End::Input),
    );
    Ok(())
}
