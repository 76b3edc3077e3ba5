//! Files, readers and writers that a test makes up.

use s161_base::files::FileSource;
use std::alloc::Global;
use std::io;
use std::io::{ErrorKind, Read, Write};

/// A source with no files.
#[derive(Drop)]
pub(crate) struct NoFiles;

impl FileSource for NoFiles {
    fn read(&mut self, _alloc: Global, _name: &str) -> io::Result<Vec<u8>> {
        Err(io::Error::from(ErrorKind::NotFound))
    }
}

/// A writer into memory with room for some bytes; then it fails, or writes none without an error.
#[derive(Drop)]
pub(crate) struct Memory {
    bytes: Vec<u8>,
    room: usize,
    fails: bool,
}

impl Memory {
    pub(crate) fn new(alloc: Global, room: usize, fails: bool) -> Memory {
        Memory {
            bytes: Vec::new(alloc),
            room,
            fails,
        }
    }

    /// How many bytes were written, and whether the text begins with them.
    pub(crate) fn match_text(&self, text: &str) -> (usize, bool) {
        (self.bytes.len(), text.as_bytes().starts_with(&self.bytes))
    }
}

impl Write for Memory {
    fn write(&mut self, buf: &[u8]) -> io::Result<usize> {
        let count = buf.len().min(self.room);
        if count == 0 && self.fails {
            return Err(io::Error::from(ErrorKind::BrokenPipe));
        }
        self.bytes.extend_from_slice(&buf[..count])?;
        self.room -= count;
        Ok(count)
    }

    fn flush(&mut self) -> io::Result<()> {
        Ok(())
    }
}

/// What a run leaves: its exit status, and how much of two texts was written on the streams.
pub(crate) type Left = (u8, (usize, bool), (usize, bool));

/// All of a text, or none.
pub(crate) fn all(text: &str) -> (usize, bool) {
    (text.len(), true)
}

/// Room for every text.
pub(crate) const FREE: [usize; 2] = [usize::MAX, usize::MAX];

/// A source with one file.
#[derive(Drop)]
pub(crate) struct OneFile<'a> {
    pub(crate) name: &'a str,
    pub(crate) bytes: &'a [u8],
}

impl FileSource for OneFile<'_> {
    fn read(&mut self, alloc: Global, name: &str) -> io::Result<Vec<u8>> {
        if name != self.name {
            return Err(io::Error::from(ErrorKind::NotFound));
        }
        Ok(Vec::from_slice(alloc, self.bytes)?)
    }
}

/// A source with the files `image` and `text`.
#[derive(Drop)]
pub(crate) struct TwoFiles<'a> {
    pub(crate) image: &'a [u8],
    pub(crate) text: &'a [u8],
}

impl FileSource for TwoFiles<'_> {
    fn read(&mut self, alloc: Global, name: &str) -> io::Result<Vec<u8>> {
        let bytes = match name {
            "image" => self.image,
            "text" => self.text,
            _ => return Err(io::Error::from(ErrorKind::NotFound)),
        };
        Ok(Vec::from_slice(alloc, bytes)?)
    }
}

/// A source of files, and a reader, that fails at each call.
#[derive(Drop)]
pub(crate) struct Failing(pub(crate) ErrorKind);

impl FileSource for Failing {
    fn read(&mut self, _alloc: Global, _name: &str) -> io::Result<Vec<u8>> {
        Err(io::Error::from(self.0))
    }
}

impl Read for Failing {
    fn read(&mut self, _buf: &mut [u8]) -> io::Result<usize> {
        Err(io::Error::from(self.0))
    }
}

/// A reader that gives a byte at each second call, and is interrupted at the others.
#[derive(Drop)]
pub(crate) struct Slow<'a> {
    rest: &'a [u8],
    interrupts: bool,
}

impl<'a> Slow<'a> {
    pub(crate) fn new(bytes: &'a [u8]) -> Slow<'a> {
        Slow {
            rest: bytes,
            interrupts: false,
        }
    }
}

impl Read for Slow<'_> {
    fn read(&mut self, buf: &mut [u8]) -> io::Result<usize> {
        self.interrupts = !self.interrupts;
        if self.interrupts {
            return Err(io::Error::from(ErrorKind::Interrupted));
        }
        match (self.rest.split_first(), buf.first_mut()) {
            (Some((first, rest)), Some(place)) => {
                *place = *first;
                self.rest = rest;
                Ok(1)
            }
            _ => Ok(0),
        }
    }
}

/// A reader that never ends, and leaves the bytes of the buffer as they are.
#[derive(Drop)]
pub(crate) struct Endless;

impl Read for Endless {
    fn read(&mut self, buf: &mut [u8]) -> io::Result<usize> {
        Ok(buf.len())
    }
}
