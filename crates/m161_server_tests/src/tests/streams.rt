//! Readers and writers that a test makes up.

use std::alloc::Global;
use std::io;
use std::io::{ErrorKind, Read, Write};

/// A reader that fails where it has no more.
#[derive(Drop)]
pub(crate) struct Broken<'a>(pub(crate) &'a [u8]);

impl Read for Broken<'_> {
    fn read(&mut self, buf: &mut [u8]) -> io::Result<usize> {
        match (self.0.split_first(), buf.first_mut()) {
            (Some((first, rest)), Some(place)) => {
                *place = *first;
                self.0 = rest;
                Ok(1)
            }
            _ => Err(io::Error::from(ErrorKind::BrokenPipe)),
        }
    }
}

/// A writer with room for some bytes, that keeps what it is given until it is flushed.
#[derive(Drop)]
pub(crate) struct Buffered {
    kept: Vec<u8>,
    flushed: Vec<u8>,
    room: usize,
}

impl Buffered {
    pub(crate) fn new(alloc: Global, room: usize) -> Buffered {
        Buffered {
            kept: Vec::new(alloc),
            flushed: Vec::new(alloc),
            room,
        }
    }

    /// What is out.
    pub(crate) fn bytes(&self) -> &[u8] {
        &self.flushed
    }
}

impl Write for Buffered {
    fn write(&mut self, buf: &[u8]) -> io::Result<usize> {
        if self.room == 0 {
            return Err(io::Error::from(ErrorKind::BrokenPipe));
        }
        let count = buf.len().min(self.room);
        self.kept.extend_from_slice(&buf[..count])?;
        self.room -= count;
        Ok(count)
    }

    fn flush(&mut self) -> io::Result<()> {
        self.flushed.extend_from_slice(&self.kept)?;
        self.kept.clear();
        Ok(())
    }
}
