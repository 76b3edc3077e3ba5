//! What is wrong, or what was wanted, where a command ends early: a text for each form of a fault's
//! line.

ghost use Rattle.std.specs.Prelude.{◌≡◌, option_map};
ghost use Rattle.s161_base.specs.Explained.{explanation_of, of_cause, of_file, of_image, of_input, of_source, of_unloaded};

use crate::fault::{Fault, Unloaded, Unread};
use m161_asm::ErrorKind;
use m161_cause::Cause;
use m161_elf::LoadError;

/// What is wrong, or what was wanted; `None` where the line of the fault says it all. Of a source's
/// fault and of a segment's the line has more behind it (`put_detail`).
pub fn explanation(fault: &Fault<'_>) -> Option<&'static str>
    ensures { option_map (λ text. text.now) result ≡ explanation_of fault.now }
{
    match *fault {
        Fault::File(_, why) => Some(of_file(why)),
        Fault::Schedule(_) => Some("a line is s P, s P N, k HH, o, blank or # .."),
        Fault::Log(_) => Some(
            "after m161 log 2 word, m161 log 2 line or m161 log 1 a line is s P ran, s P trap CODE VECTOR, s P idle, s P off, k HH taken or o taken; after m161 log 3 word strict or m161 log 3 line strict also s P conflict I J",
        ),
        Fault::LogMachine => Some("an option that is given isn't that of the log's machine"),
        Fault::LogImage => Some("the log is that of another image"),
        Fault::Watches(_) => Some("a line is w ID PAGE PTE DONE, blank or # .."),
        Fault::Watch(_) => Some(
            "its identifier or its page doesn't exist, or its words aren't two words of RAM",
        ),
        Fault::Never(_) => Some(
            "1 to 8 lower case hexadecimal digits, a name of the image's symbols, or NAME+DIGITS",
        ),
        Fault::Touches(_) => Some(
            "1 to 8 lower case hexadecimal digits, a name of the image's symbols, or NAME+DIGITS, of a byte of RAM",
        ),
        Fault::After(_, _) => Some("the machine refuses this event, counted from 0"),
        Fault::Conf => Some(
            "RAM has 1 to 4096 pages of 4096 bytes, there are 1 to 32 processors, and a log has 1 to 16777216 entries",
        ),
        Fault::Image(why) => Some(of_unloaded(why)),
        Fault::Source(at) => Some(of_source(at.error.kind)),
        Fault::Threads(cause) => Some(of_cause(cause)),
        Fault::Input(why) => Some(of_input(why)),
        Fault::Word => Some("a word of the command line isn't UTF-8"),
        Fault::Memory | Fault::Output => None,
    }
}

// Of a file that isn't read.
fn of_file(why: Unread) -> &'static str
    ensures { result.now ≡ of_file why }
{
    match why {
        Unread::Failed => "the file can't be read",
        Unread::TooLong => "at most 402653184 bytes are read",
        Unread::NotUtf8 => "the file isn't UTF-8",
    }
}

// Of standard input that isn't read.
fn of_input(why: Unread) -> &'static str
    ensures { result.now ≡ of_input why }
{
    match why {
        Unread::Failed => "standard input can't be read",
        Unread::TooLong => "at most 402653184 bytes are read",
        Unread::NotUtf8 => "standard input isn't UTF-8",
    }
}

// Of an image that can't be loaded.
fn of_unloaded(why: Unloaded) -> &'static str
    ensures { result.now ≡ of_unloaded why }
{
    match why {
        Unloaded::Load(error) => of_image(error),
        Unloaded::Segment(_) => "program header",
    }
}

// Of an image's file with this fault.
fn of_image(error: LoadError) -> &'static str
    ensures { result.now ≡ of_image error }
{
    match error {
        LoadError::Truncated => "the file is shorter than an ELF header",
        LoadError::NotElf32Big => "a 32-bit big-endian ELF file is wanted",
        LoadError::NotExecutable => "an executable file is wanted, of e_type 2",
        LoadError::NotMips => "a file for MIPS is wanted, of e_machine 8",
        LoadError::BadHeaderTable =>
            "the program headers don't have 32 bytes each, or end past the file's end",
        LoadError::SegmentOutsideFile => "a segment's bytes end past the file's end",
        LoadError::SegmentOutsideRam => "a segment isn't in RAM, by kseg0 or by kseg1",
        LoadError::FileLargerThanMemory => "a segment has more bytes in the file than in memory",
        LoadError::BadEntry => "the entry isn't a multiple of 4 in RAM, by kseg0 or by kseg1",
        LoadError::NoMemory => "memory was refused",
    }
}

// Of a text that can't be assembled.
fn of_source(kind: ErrorKind) -> &'static str
    ensures { result.now ≡ of_source kind }
{
    match kind {
        ErrorKind::BadToken => "these bytes form no token",
        ErrorKind::UnknownWord =>
            "a statement begins with a directive or the name of an instruction",
        ErrorKind::BadOperand => "another operand or mark is wanted",
        ErrorKind::OutOfRange =>
            "a number, an address, or the number of words or segments is outside its range",
        ErrorKind::UnknownLabel => "no line has this label",
        ErrorKind::DoubleLabel => "an earlier line has this label",
        ErrorKind::BranchTooFar => "the branch or the jump doesn't reach its target",
        ErrorKind::Overlap => "an address of the statement is filled already",
        ErrorKind::NoMemory => "memory was refused",
    }
}

// Of a run in threads that has no report.
fn of_cause(cause: Cause) -> &'static str
    ensures { result.now ≡ of_cause cause }
{
    match cause {
        Cause::BadQuotas => "one quota is wanted for each processor",
        Cause::BadBurst => "a burst has 1 to 1024 Steps",
        Cause::NoMemory => "memory was refused",
        Cause::NoThread => "the system refused a thread",
        Cause::Held { p: _, k: _ } => "a processor was held at its gate",
        Cause::Worn => "the machine has accepted as many events as it can count",
        Cause::Miscount => "a processor's count of Steps isn't its thread's",
        Cause::Swapped => "the machine isn't the one that was passed in",
    }
}
