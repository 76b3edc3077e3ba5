//! The machine line of a schedule's text.

ghost use Rattle.std.specs.Prelude.{◌≡◌, ◌++◌, IfOk, Some, string_bytes, decimal};
ghost use Rattle.m161_text.specs.Lines.{with_line_end};
ghost use Rattle.m161_text.specs.Parts.{◌␣◌, Reads, IsWord, Lacks};
ghost use Rattle.m161_text.specs.helpers.Parts.{ReadsBoth};
ghost use Rattle.m161_steplog.specs.Size.{IsMachineSize, NamesSize, link_words, processors_text, size_text, strict_words};
ghost use Rattle.m161_steplog.specs.helpers.Size.{HasWords, IsSizeEnd, mode_words, size_end_text};

use crate::mode::Mode;
use m161_isa::LinkUnit;
use m161_text::{cut_at_space, next_line, parse_decimal};
use std::alloc::{AllocError, Global};
use std::fmt;

/// The machine that a schedule's machine line names.
#[derive(Clone, Copy, Debug, PartialEq, Eq)]
pub struct MachineSize {
    /// The machine's RAM, in bytes.
    pub ram: u32,
    /// The number of its processors.
    pub processors: u32,
    /// What the outcomes of its events hang on.
    pub mode: Mode,
}

// What the line says of links.
fn link_words(link: LinkUnit) -> &'static str
    ensures { result.now ≡ link_words link }
{
    match link {
        LinkUnit::Word => "",
        LinkUnit::Line => " line",
    }
}

// What the line says of a strict machine.
fn strict_words(strict: bool) -> &'static str
    ensures { result.now ≡ strict_words strict }
{
    if strict { " strict" } else { "" }
}

// What the line says of a mode, as text.
#[derive(Drop)]
struct ShownMode(Mode);

impl fmt::Display for ShownMode {
    ghost output = { λ mode. Some (link_words mode.0.link ++ strict_words mode.0.strict) };

    fn fmt<W: fmt::Write>(&self, f: &mut fmt::Formatter<W>) -> fmt::Result {
        let link = link_words(self.0.link);
        let strict = strict_words(self.0.strict);
        write!(f, "{link}{strict}")
    }
}

// The number of processors and the mode, as text.
#[derive(Drop)]
struct ShownEnd(MachineSize);

impl fmt::Display for ShownEnd {
    ghost output = { λ size. Some (processors_text size.0) };

    fn fmt<W: fmt::Write>(&self, f: &mut fmt::Formatter<W>) -> fmt::Result {
        let processors = self.0.processors;
        let mode = ShownMode(self.0.mode);
        write!(f, "{processors}{mode}")
    }
}

// The whole line, as text.
#[derive(Drop)]
struct ShownSize(MachineSize);

impl fmt::Display for ShownSize {
    ghost output = { λ size. Some (size_text size.0) };

    fn fmt<W: fmt::Write>(&self, f: &mut fmt::Formatter<W>) -> fmt::Result {
        let ram = self.0.ram;
        let end = ShownEnd(self.0);
        write!(f, "# machine {ram} {end}")
    }
}

/// The machine line of a schedule's text, with its end: it stands before the text of the schedule.
///
/// # Errors
/// Memory was refused.
pub fn size_line(alloc: Global, size: MachineSize) -> Result<String, AllocError>
    ensures { IfOk result (λ line. string_bytes line ≡ with_line_end (size_text size)) }
{
    let shown = ShownSize(size);
    format!(in alloc; "{shown}\n")
}

// The mode of the words behind the number of processors.
fn parse_words(words: &str) -> Option<Mode>
    ensures { Reads HasWords mode_words words.now result }
{
    match words {
        "line" => Some(Mode {
            link: LinkUnit::Line,
            strict: false,
        }),
        "strict" => Some(Mode {
            link: LinkUnit::Word,
            strict: true,
        }),
        "line strict" => Some(Mode {
            link: LinkUnit::Line,
            strict: true,
        }),
        _ => None,
    }
}

// The number of processors, of a machine without words.
fn parse_plain(text: &str) -> Option<(u32, Mode)>
    requires { Lacks 32 text.now }
    ensures { Reads IsSizeEnd size_end_text text.now result }
{
    let processors = parse_decimal(text)?;
    Some((
        processors,
        Mode {
            link: LinkUnit::Word,
            strict: false,
        },
    ))
}

// The number of processors before a space, and the words behind it.
fn parse_worded(processors: &str, words: &str) -> Option<(u32, Mode)>
    requires { Lacks 32 processors.now }
    ensures { Reads IsSizeEnd size_end_text (processors.now ␣ words.now) result }
{
    let processors = parse_decimal(processors)?;
    let mode = parse_words(words)?;
    Some((processors, mode))
}

// The number of processors, and the mode.
fn parse_size_end(text: &str) -> Option<(u32, Mode)>
    ensures { Reads IsSizeEnd size_end_text text.now result }
{
    match cut_at_space(text) {
        None => parse_plain(text),
        Some((processors, words)) => parse_worded(processors, words),
    }
}

// The RAM, and what follows it.
fn parse_ram(text: &str) -> Option<(u32, (u32, Mode))>
    ensures { ReadsBoth IsWord IsSizeEnd decimal size_end_text text.now result }
{
    let (ram, end) = cut_at_space(text)?;
    let ram = parse_decimal(ram)?;
    let end = parse_size_end(end)?;
    Some((ram, end))
}

// The machine of a line.
fn parse_size(line: &str) -> Option<MachineSize>
    ensures { Reads IsMachineSize size_text line.now result }
{
    let (ram, (processors, mode)) = parse_ram(line.strip_prefix("# machine ")?)?;
    Some(MachineSize {
        ram,
        processors,
        mode,
    })
}

/// The machine of the machine line that a schedule's text begins with; `None` if the first line of the
/// text isn't exactly a machine line. The rest of the text may be anything.
pub fn read_size(text: &str) -> Option<MachineSize>
    ensures { NamesSize text.now result }
{
    let (line, _) = next_line(text)?;
    parse_size(line)
}
