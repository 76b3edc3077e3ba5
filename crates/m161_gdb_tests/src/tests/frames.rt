//! What is sent for what is received, as far as frames go.

use crate::tests::same;
use m161_gdb::{Duty, Item, Link, Reader, frame};
use std::alloc::{AllocError, Global};

/// What is received, and what is sent for it.
static ROWS: [(&str, &str); 18] = [
    ("$?#3f", "+$T05thread:1;#d7"),
    // a wrong sum
    ("$?#3e", "-"),
    // a frame that another one breaks off
    ("$q$qC#b4", "+$QC1#c5"),
    // a body that comes again, and then behind a `+`
    ("$qC#b4$qC#b4+$qC#b4", "+$QC1#c5+$QC1#c5"),
    ("$qC#b4--+", "+$QC1#c5$QC1#c5$QC1#c5"),
    ("\x03$vCont;c#a8", "+$T02thread:1;#d4"),
    // no acknowledgements
    ("$QStartNoAckMode#b0$qC#00$qC#00-", "+$OK#9a$QC1#c5$QC1#c5"),
    ("$D#44$qC#b4", "+$OK#9a"),
    ("$k#6b$qC#b4", "+"),
    // digits of the other case, digits that are none, and a frame that isn't whole
    ("$qC#B4", "+$QC1#c5"),
    ("$qC#zz", "-"),
    ("$qC#b", ""),
    // bytes between frames
    ("x#b4}$qC#b4", "+$QC1#c5"),
    // what stands between a body and the same again is no `+`, unless it is one
    ("$qC#b4\x03-$qC#b5$qC#b4", "+$QC1#c5$QC1#c5-"),
    ("$qC#b4$?#3f$qC#b4", "+$QC1#c5+$T05thread:1;#d7+$QC1#c5"),
    ("-", ""),
    // the empty body, twice
    ("$#00$#00", "+$#00"),
    // bytes in a body that stand elsewhere too
    ("$+-\x03#5b", "+$#00"),
];

// What a session answers a body here.
fn answer(body: &[u8], interrupted: bool) -> &'static [u8] {
    if body == b"?".as_slice() {
        return b"T05thread:1;";
    }
    if body == b"qC".as_slice() {
        return b"QC1";
    }
    if body == b"vCont;c".as_slice() && interrupted {
        return b"T02thread:1;";
    }
    if body == b"QStartNoAckMode".as_slice() || body == b"D".as_slice() {
        return b"OK";
    }
    b""
}

// Receives bytes, up to the end of the session, and says what is sent for them.
fn sent(alloc: Global, bytes: &[u8]) -> Result<Vec<u8>, AllocError> {
    let mut reader = Reader::new(alloc);
    let mut link = Link::new(alloc);
    let mut interrupted = false;
    let mut out = Vec::new(alloc);
    for byte in bytes {
        let Some(item) = reader.push(*byte)? else {
            continue;
        };
        match link.receive(item) {
            Duty::Nothing => {}
            Duty::Refuse => out.push(b'-')?,
            Duty::Resend => out.extend_from_slice(link.sent())?,
            Duty::Interrupt => interrupted = true,
            Duty::Answer(acknowledge) => {
                if acknowledge {
                    out.push(b'+')?;
                }
                let body = link.body().unwrap_or(b"");
                if body == b"k".as_slice() {
                    return Ok(out);
                }
                let ends = body == b"D".as_slice();
                let packet = frame(alloc, answer(body, interrupted))?;
                out.extend_from_slice(&packet)?;
                link.keep_sent(packet);
                if ends {
                    return Ok(out);
                }
            }
        }
    }
    Ok(out)
}

#[test]
fn frames_in_rows(rt: HostRuntime) -> Result<(), AllocError> {
    for row in &ROWS {
        let out = sent(rt.alloc(), row.0.as_bytes())?;
        same(
            &rt,
            (row.0, out.as_slice() == row.1.as_bytes()),
            (row.0, true),
        );
    }
    Ok(())
}

// A frame whose body is this number of letters `a`, with these digits.
fn letters(alloc: Global, number: usize, digits: &[u8]) -> Result<Vec<u8>, AllocError> {
    let mut bytes = Vec::new(alloc);
    bytes.push(b'$')?;
    for _ in 0..number {
        bytes.push(b'a')?;
    }
    bytes.push(b'#')?;
    bytes.extend_from_slice(digits)?;
    Ok(bytes)
}

// How long the body of the last frame is, if it is kept, and whether its sum is right.
fn last_frame(alloc: Global, bytes: &[u8]) -> Result<(Option<usize>, bool), AllocError> {
    let mut reader = Reader::new(alloc);
    let mut last = (None, false);
    for byte in bytes {
        if let Some(Item::Frame { body, right }) = reader.push(*byte)? {
            last = match body {
                Some(body) => (Some(body.as_slice().len()), right),
                None => (None, right),
            };
        }
    }
    Ok(last)
}

// 97, the letter's number, times 16,384 is a multiple of 256.
#[test]
fn frames_of_long_bodies(rt: HostRuntime) -> Result<(), AllocError> {
    for (number, digits, expected) in [
        (16_384, "00", (Some(16_384), true)),
        (16_384, "01", (Some(16_384), false)),
        (16_385, "61", (None, true)),
        (16_385, "62", (None, false)),
        (16_640, "00", (None, true)),
    ] {
        let bytes = letters(rt.alloc(), number, digits.as_bytes())?;
        same(&rt, last_frame(rt.alloc(), &bytes)?, expected);
    }
    Ok(())
}
