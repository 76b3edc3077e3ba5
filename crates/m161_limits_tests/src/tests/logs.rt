//! Logs: one that ends early, and lines that are none of a log.

use super::same;
use m161_steplog::{TextFault, read_log};
use std::alloc::Global;
use std::test::Fail;

/// A log of two Steps, of format 1: lines end at bytes 11, 19 and 27.
const LOG: &str = "m161 log 1\ns 0 ran\ns 0 off\n";

/// The same of format 2: its first line has five bytes more.
const LOG_2: &str = "m161 log 2 word\ns 0 ran\ns 0 off\n";

/// The same of format 3: its first line has twelve bytes more.
const LOG_3: &str = "m161 log 3 word strict\ns 0 ran\ns 0 off\n";

/// How many entries a text has, or its first bad line.
fn entries(alloc: Global, text: &str) -> Result<usize, TextFault> {
    Ok(read_log(alloc, text)?.entries.len())
}

#[test]
fn truncated_log(rt: HostRuntime) {
    for length in 0..=27 {
        let expected = match length {
            10 | 11 => Ok(0),
            18 | 19 => Ok(1),
            26 | 27 => Ok(2),
            0..=9 => Err(TextFault::Line(1)),
            12..=17 => Err(TextFault::Line(2)),
            _ => Err(TextFault::Line(3)),
        };
        let found = entries(rt.alloc(), LOG.get(..length).unwrap_or(""));
        same(&rt, (length, found), (length, expected));
        let found = entries(rt.alloc(), LOG_2.get(..length + 5).unwrap_or(""));
        same(&rt, (length, found), (length, expected));
        let found = entries(rt.alloc(), LOG_3.get(..length + 12).unwrap_or(""));
        same(&rt, (length, found), (length, expected));
    }
}

#[test]
fn lines_of_no_log(rt: HostRuntime) -> Result<(), Fail> {
    for line in [
        "s 00 ran",
        "s 4294967296 ran",
        "s 0 trap 13 80000080",
        "k 4A taken",
        "s 0 ran\r",
        "s 0 conflict 64 5",
        "s 0 conflict 3 64",
        "s 0 conflict 3 3",
        "s 0 conflict 03 5",
        "s 0 conflict 3",
        "k 41 conflict 3 5",
    ] {
        for first in [
            "m161 log 1",
            "m161 log 2 word",
            "m161 log 2 line",
            "m161 log 3 word strict",
            "m161 log 3 line strict",
        ] {
            let text = format!(in rt.alloc(); "{first}\n{line}\n")?;
            let found = entries(rt.alloc(), text.as_str());
            same(&rt, (line, found), (line, Err(TextFault::Line(2))));
        }
    }
    Ok(())
}

#[test]
fn conflict_by_mode(rt: HostRuntime) -> Result<(), Fail> {
    for (first, expected) in [
        ("m161 log 1", Err(TextFault::Line(2))),
        ("m161 log 2 word", Err(TextFault::Line(2))),
        ("m161 log 2 line", Err(TextFault::Line(2))),
        ("m161 log 2 word strict", Err(TextFault::Line(1))),
        ("m161 log 3 word", Err(TextFault::Line(1))),
        ("m161 tail 3 word strict 1", Err(TextFault::Line(1))),
        ("m161 log 3 word strict", Ok(1)),
        ("m161 log 3 line strict", Ok(1)),
    ] {
        let text = format!(in rt.alloc(); "{first}\ns 0 conflict 3 5\n")?;
        let found = entries(rt.alloc(), text.as_str());
        same(&rt, (first, found), (first, expected));
    }
    Ok(())
}
