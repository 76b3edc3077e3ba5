//! Commands that write as they go on: `debug` a line's answer before it reads the next one, `console` a
//! byte before it reads the next key, `trace` in pieces of whole lines.

use super::run::{POWER_OFF, STAND_STILL};
use super::same;
use super::streams::{Memory, OneFile, TwoFiles, all};
use m161_test_support::files::file_at;
use m161_test_support::outcomes::ENTRY;
use s161_progress::Progress;
use s161_work::work::work;
use std::alloc::Global;
use std::io;
use std::io::{ErrorKind, Read, Write};
use std::test::Fail;

/// A reader that gives a byte at a call, and fails where it has no more.
#[derive(Drop)]
struct Broken<'a>(&'a [u8]);

impl Read for Broken<'_> {
    fn read(&mut self, buf: &mut [u8]) -> io::Result<usize> {
        match (self.0.split_first(), buf.first_mut()) {
            (Some((first, rest)), Some(place)) => {
                *place = *first;
                self.0 = rest;
                Ok(1)
            }
            _ => Err(io::Error::from(ErrorKind::BrokenPipe)),
        }
    }
}

/// A writer that keeps what it is given until it is flushed.
#[derive(Drop)]
struct Buffered {
    kept: Vec<u8>,
    flushed: Vec<u8>,
}

impl Buffered {
    fn new(alloc: Global) -> Buffered {
        Buffered {
            kept: Vec::new(alloc),
            flushed: Vec::new(alloc),
        }
    }

    /// How many bytes are out, and whether the text begins with them.
    fn match_text(&self, text: &str) -> (usize, bool) {
        (
            self.flushed.len(),
            text.as_bytes().starts_with(&self.flushed),
        )
    }
}

impl Write for Buffered {
    fn write(&mut self, buf: &[u8]) -> io::Result<usize> {
        self.kept.extend_from_slice(buf)?;
        Ok(buf.len())
    }

    fn flush(&mut self) -> io::Result<()> {
        self.flushed.extend_from_slice(&self.kept)?;
        self.kept.clear();
        Ok(())
    }
}

/// A writer that looks at the size of what it is given, and whether it ends with a line.
#[derive(Drop)]
struct Measured {
    writes: usize,
    greatest: usize,
    lines: bool,
}

impl Write for Measured {
    fn write(&mut self, buf: &[u8]) -> io::Result<usize> {
        self.writes = self.writes.saturating_add(1);
        self.greatest = self.greatest.max(buf.len());
        self.lines = self.lines && buf.ends_with(b"\n");
        Ok(buf.len())
    }

    fn flush(&mut self) -> io::Result<()> {
        Ok(())
    }
}

#[test]
fn answers_before_the_next_line(rt: HostRuntime) -> Result<(), Fail> {
    let image = file_at(rt.alloc(), ENTRY, &POWER_OFF)?;
    let words = ["s161", "debug", "image", "text"];
    let text = "end 1\n? Unknown\noff 0\n";
    let unread = "s161: input (standard input can't be read)\n";
    let noted =
        "s161: note command (there is none of this name; help lists them)\ns161: input (standard input can't be read)\n";
    for &(lines, answers, errors_text) in &[
        ("", 0, unread),
        ("g 1\n", 6, unread),
        ("g 1\nzz\n", 16, noted),
        ("g 1\nzz\ng\n", 22, noted),
    ] {
        let mut files = TwoFiles {
            image: &image,
            text: b"s 0 2\n",
        };
        let mut input = Broken(lines.as_bytes());
        let mut output = Buffered::new(rt.alloc());
        let mut errors = Memory::new(rt.alloc(), usize::MAX, true);
        let status = work(
            &rt,
            &words,
            &mut files,
            &mut input,
            &mut output,
            &mut errors,
            &Progress::new(),
        );
        let found = (
            status,
            output.match_text(text),
            errors.match_text(errors_text),
        );
        same(&rt, found, (1, (answers, true), all(errors_text)));
    }
    Ok(())
}

/// A byte for the console, and then a wait without end: `lui $8, 0xbfe0`, `ori $9, $0, 0x48`,
/// `sw $9, 0($8)`, `wait`.
const SEND_AND_WAIT: [u32; 4] = [0x3c08_bfe0, 0x3409_0048, 0xad09_0000, 0x4200_0020];

#[test]
fn console_bytes_before_the_next_key(rt: HostRuntime) -> Result<(), Fail> {
    let image = file_at(rt.alloc(), ENTRY, &SEND_AND_WAIT)?;
    let mut files = OneFile {
        name: "image",
        bytes: &image,
    };
    let errors_text = "s161: input (standard input can't be read)\n";
    let mut input = Broken(b"");
    let mut output = Buffered::new(rt.alloc());
    let mut errors = Memory::new(rt.alloc(), usize::MAX, true);
    let words = ["s161", "console", "image"];
    let status = work(
        &rt,
        &words,
        &mut files,
        &mut input,
        &mut output,
        &mut errors,
        &Progress::new(),
    );
    let found = (
        status,
        output.match_text("H"),
        errors.match_text(errors_text),
    );
    same(&rt, found, (1, all("H"), all(errors_text)));
    Ok(())
}

#[test]
fn trace_pieces(rt: HostRuntime) -> Result<(), Fail> {
    let image = file_at(rt.alloc(), ENTRY, &STAND_STILL)?;
    let mut files = OneFile {
        name: "image",
        bytes: &image,
    };
    let mut input: &[u8] = b"s 0 4000\n";
    let mut output = Measured {
        writes: 0,
        greatest: 0,
        lines: true,
    };
    let mut errors = Memory::new(rt.alloc(), usize::MAX, true);
    let words = ["s161", "trace", "image"];
    let status = work(
        &rt,
        &words,
        &mut files,
        &mut input,
        &mut output,
        &mut errors,
        &Progress::new(),
    );
    same(&rt, (status, errors.match_text("")), (3, all("")));
    // 4,000 lines of some 40 bytes are more than one piece and fewer than four.
    same(&rt, output.writes >= 2 && output.writes <= 4, true);
    same(&rt, output.greatest <= 65_536, true);
    same(&rt, output.lines, true);
    Ok(())
}
