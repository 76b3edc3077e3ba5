//! A note for a person at a terminal, who may not know that a command waits for a schedule.

ghost use Rattle.std.specs.Prelude.{◌≡◌, false, Some, option_map, slice_get, string_bytes};
ghost use Rattle.s161_work.specs.Prompts.{is_scheduled};

use std::io;
use std::io::{Read, Write};

// What is said before a schedule is read.
const NOTE: &[u8] = b"s161: note input (a schedule; end it with Ctrl-D)\n";

/// An input, before whose first byte is asked for a note is written, if one is wanted. It is that input:
/// the note is no part of what is read, and where it can't be written nothing else changes.
#[derive(Drop)]
pub struct Prompted<I, E> {
    input: I,
    errors: E,
    is_wanted: bool,
}

impl<I: Read, E: Write> Prompted<I, E> {
    /// An input, and where its note is written, if one is wanted.
    pub fn new(input: I, errors: E, is_wanted: bool) -> Prompted<I, E>
        ensures { result ≡ record { input = input; errors = errors; is_wanted = is_wanted } }
    {
        Prompted {
            input,
            errors,
            is_wanted,
        }
    }

    // Writes the note, once.
    fn prompt(&mut self)
        ensures input { self.new.input ≡ self.old.input }
        ensures once { self.new.is_wanted ≡ false }
    {
        if self.is_wanted {
            let _written = self.errors.write_all(NOTE);
            let _flushed = self.errors.flush();
            self.is_wanted = false;
        }
    }
}

impl<I: Read, E: Write> Read for Prompted<I, E> {
    ghost remaining = { λ prompted. I.remaining prompted.input };

    fn read(&mut self, buf: &mut [u8]) -> io::Result<usize> {
        self.prompt();
        self.input.read(buf)
    }
}

/// Whether these words of a command line, the first of which is the program's name, are those of a command
/// that may read a schedule from standard input.
pub fn reads_schedule(words: &[String]) -> bool
    ensures { result ≡ is_scheduled (option_map string_bytes (slice_get words.now 1)) }
{
    match words.get(1) {
        Some(word) => is_scheduled(word.as_str()),
        None => false,
    }
}

// Whether a word names such a command.
fn is_scheduled(word: &str) -> bool
    ensures { result ≡ is_scheduled (Some word.now) }
{
    word == "run" || word == "trace" || word == "audit"
}
