//! The line of a fault.

ghost use Rattle.std.specs.Prelude.{◌≡◌, ◌<◌, Some, encode_utf8_all};
ghost use Rattle.std.specs.Fmt.{WritesOnOk};
ghost use Rattle.s161_base.specs.FaultLines.{detail_of, fault_head, fault_line, is_marked, quoted, segment_text, shown_name, source_text};
ghost use Rattle.s161_base.specs.helpers.FaultLines.{image_text, place_text, shown_char};

use crate::explained::explanation;
use crate::fault::{Fault, Unloaded};
use m161_asm::AsmError;
use m161_elf::{LoadError, OutsideRam};
use m161_text::{Byte, Word};
use std::fmt;

// A file's name or a word, without the bytes that would end a line or begin an explanation.
#[derive(Drop)]
struct Name<'a>(&'a str);

impl fmt::Display for Name<'_> {
    ghost output = { λ name. Some (shown_name name.0.now) };

    fn fmt<W: fmt::Write>(&self, f: &mut fmt::Formatter<W>) -> fmt::Result {
        let mut rest = self.0.chars();
        while let Some(c) = rest.next() {
            write_char(f, c)?;
        }
        Ok(())
    }
}

// A character of a name.
fn write_char<W: fmt::Write>(f: &mut fmt::Formatter<W>, c: char) -> fmt::Result
    ensures { WritesOnOk W.write_str_gives f.old result (shown_char c) f.new }
{
    if is_marked(c) {
        let byte = Byte(c as u8);
        write!(f, "\\x{byte}")
    } else {
        f.write_char(c)
    }
}

// Whether a character is written by its number.
fn is_marked(c: char) -> bool
    ensures { result ≡ is_marked c }
{
    c < ' ' || c == '\x7f' || c == '(' || c == '\\'
}

// What is read of an image that can't be loaded.
#[derive(Drop)]
struct ImageText(LoadError);

impl fmt::Display for ImageText {
    ghost output = { λ image. Some (image_text image.0) };

    fn fmt<W: fmt::Write>(&self, f: &mut fmt::Formatter<W>) -> fmt::Result {
        let (number, name) = (self.0.number(), self.0.name());
        write!(f, "{number} {name}")
    }
}

// The place of a source's error.
#[derive(Drop)]
struct Place(AsmError);

impl fmt::Display for Place {
    ghost output = { λ place. Some (place_text place.0) };

    fn fmt<W: fmt::Write>(&self, f: &mut fmt::Formatter<W>) -> fmt::Result {
        let (line, column) = (self.0.line, self.0.column);
        write!(f, "{line}:{column}")
    }
}

// What is read of a text that can't be assembled.
#[derive(Drop)]
struct SourceText(AsmError);

impl fmt::Display for SourceText {
    ghost output = { λ source. Some (source_text source.0) };

    fn fmt<W: fmt::Write>(&self, f: &mut fmt::Formatter<W>) -> fmt::Result {
        let place = Place(self.0);
        let (number, name) = (self.0.kind.number(), self.0.kind.name());
        write!(f, "{place} {number} {name}")
    }
}

// The line of a fault, without its explanation.
#[derive(Drop)]
struct Head<'a>(Fault<'a>);

impl fmt::Display for Head<'_> {
    ghost output = { λ head. Some (fault_head head.0) };

    fn fmt<W: fmt::Write>(&self, f: &mut fmt::Formatter<W>) -> fmt::Result {
        match self.0 {
            Fault::File(name, _) => {
                let name = Name(name);
                write!(f, "s161: file {name}")
            }
            Fault::Schedule(n) => write!(f, "s161: schedule line {n}"),
            Fault::Log(n) => write!(f, "s161: log line {n}"),
            Fault::LogMachine => write!(f, "s161: log machine"),
            Fault::LogImage => write!(f, "s161: log image"),
            Fault::Watches(n) => write!(f, "s161: watches line {n}"),
            Fault::Watch(k) => write!(f, "s161: watch {k}"),
            Fault::Never(word) => {
                let word = Name(word);
                write!(f, "s161: never {word}")
            }
            Fault::Touches(word) => {
                let word = Name(word);
                write!(f, "s161: touches {word}")
            }
            Fault::After(k, refusal) => {
                let (number, name) = (refusal.number(), refusal.name());
                write!(f, "s161: after {k} {number} {name}")
            }
            Fault::Conf => write!(f, "s161: conf"),
            Fault::Image(why) => {
                let image = ImageText(why.error());
                write!(f, "s161: image {image}")
            }
            Fault::Source(at) => {
                let source = SourceText(at.error);
                write!(f, "s161: source {source}")
            }
            Fault::Threads(cause) => {
                let name = cause.name();
                write!(f, "s161: threads {name}")
            }
            Fault::Memory => write!(f, "s161: memory"),
            Fault::Input(_) | Fault::Word => write!(f, "s161: input"),
            Fault::Output => write!(f, "s161: output"),
        }
    }
}

// Characters, as those of a file's name are shown.
#[derive(Drop)]
struct Characters<'a>(&'a [char]);

impl fmt::Display for Characters<'_> {
    ghost output = { λ text. Some (shown_name (encode_utf8_all text.0.now)) };

    fn fmt<W: fmt::Write>(&self, f: &mut fmt::Formatter<W>) -> fmt::Result {
        let mut rest = self.0;
        while let [first, behind @ ..] = rest {
            write_char(f, *first)?;
            rest = behind;
        }
        Ok(())
    }
}

// The characters at a source's error.
#[derive(Drop)]
struct Quoted<'a>(&'a [char]);

impl fmt::Display for Quoted<'_> {
    ghost output = { λ at. Some (quoted at.0.now) };

    fn fmt<W: fmt::Write>(&self, f: &mut fmt::Formatter<W>) -> fmt::Result {
        if self.0.is_empty() {
            return write!(f, " at the line's end");
        }
        let text = Characters(self.0);
        write!(f, ": \"{text}\"")
    }
}

// A segment that isn't in RAM, behind the words that name it.
#[derive(Drop)]
struct SegmentText(OutsideRam);

impl fmt::Display for SegmentText {
    ghost output = { λ segment. Some (segment_text segment.0) };

    fn fmt<W: fmt::Write>(&self, f: &mut fmt::Formatter<W>) -> fmt::Result {
        let OutsideRam {
            header,
            size,
            address,
            ram,
        } = self.0;
        let address = Word(address);
        write!(
            f,
            " {header}, {size} bytes from {address} on, not all in RAM of {ram} bytes in kseg0 or kseg1"
        )
    }
}

// What the explanation of a fault ends with.
#[derive(Drop)]
struct Detail<'a>(Fault<'a>);

impl fmt::Display for Detail<'_> {
    ghost output = { λ detail. Some (detail_of detail.0) };

    fn fmt<W: fmt::Write>(&self, f: &mut fmt::Formatter<W>) -> fmt::Result {
        match self.0 {
            Fault::Source(at) => {
                let quoted = Quoted(at.word.characters());
                write!(f, "{quoted}")
            }
            Fault::Image(Unloaded::Segment(segment)) => {
                let segment = SegmentText(segment);
                write!(f, "{segment}")
            }
            _ => Ok(()),
        }
    }
}

impl fmt::Display for Fault<'_> {
    ghost output = { λ fault. Some (fault_line fault) };

    fn fmt<W: fmt::Write>(&self, f: &mut fmt::Formatter<W>) -> fmt::Result {
        let head = Head(*self);
        let detail = Detail(*self);
        match explanation(self) {
            Some(why) => write!(f, "{head} ({why}{detail})"),
            None => write!(f, "{head}"),
        }
    }
}
