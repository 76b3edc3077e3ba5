//! The machine line of a log's text.

ghost use Rattle.std.specs.Prelude.{◌≡◌, IfOk, string_bytes, decimal};
ghost use Rattle.m161_text.specs.Lines.{with_line_end};
ghost use Rattle.m161_text.specs.Parts.{Reads, IsWord};
ghost use Rattle.m161_text.specs.helpers.Parts.{ReadsBoth};
ghost use Rattle.m161_steplog.specs.Machine.{digest_text, machine_text, first_line, IsDigest, IsMachineLine};
ghost use Rattle.m161_steplog.specs.helpers.Machine.{end_text, IsEnd};

use m161_text::{cut_at_space, next_line, parse_byte, parse_decimal, push_hex};
use std::alloc::{AllocError, Global};

/// What the machine line of a log's text says.
#[derive(Clone, Copy, Debug, PartialEq, Eq)]
pub struct MachineLine {
    /// The machine's RAM, in bytes.
    pub ram: u32,
    /// The number of its processors.
    pub processors: u32,
    /// The SHA-256 digest of the file that it was booted from.
    pub digest: [u8; 32],
}

/// The machine line of a log's text, with its end: it stands before the text of the log. The RAM
/// is in bytes; the digest is the SHA-256 digest of the file that the machine was booted from.
///
/// # Errors
/// Memory was refused.
pub fn machine_line(
    alloc: Global,
    ram: u32,
    processors: u32,
    digest: &[u8; 32],
) -> Result<String, AllocError>
    ensures { IfOk result (λ line. string_bytes line ≡ with_line_end (machine_text
        (record { ram = ram; processors = processors; digest = digest.now }))) }
{
    let mut line = format!(in alloc; "# machine {ram} {processors} ")?;
    for byte in digest {
        push_hex(&mut line, 2, u32::from(*byte))?;
    }
    line.push_str("\n")?;
    Ok(line)
}

// The digest of 64 digits.
fn parse_digest(text: &str) -> Option<[u8; 32]>
    ensures { Reads IsDigest digest_text text.now result }
{
    let mut digest = [0u8; 32];
    let mut rest = text;
    for k in 0..32 {
        let (digits, more) = rest.split_at_checked(2)?;
        digest[k] = parse_byte(digits)?;
        rest = more;
    }
    if rest.is_empty() { Some(digest) } else { None }
}

// The number of processors, and the digest.
fn parse_end(text: &str) -> Option<(u32, [u8; 32])>
    ensures { ReadsBoth IsWord IsDigest decimal digest_text text.now result }
{
    let (processors, digest) = cut_at_space(text)?;
    let processors = parse_decimal(processors)?;
    let digest = parse_digest(digest)?;
    Some((processors, digest))
}

// The RAM, and what follows it.
fn parse_sizes(text: &str) -> Option<(u32, (u32, [u8; 32]))>
    ensures { ReadsBoth IsWord IsEnd decimal end_text text.now result }
{
    let (ram, end) = cut_at_space(text)?;
    let ram = parse_decimal(ram)?;
    let end = parse_end(end)?;
    Some((ram, end))
}

// The machine of a line.
fn parse_machine(line: &str) -> Option<MachineLine>
    ensures { Reads IsMachineLine machine_text line.now result }
{
    let (ram, (processors, digest)) = parse_sizes(line.strip_prefix("# machine ")?)?;
    Some(MachineLine {
        ram,
        processors,
        digest,
    })
}

/// What the machine line says that a log's text begins with; `None` if the first line of the text
/// isn't exactly a machine line. The rest of the text may be anything.
pub fn read_machine(text: &str) -> Option<MachineLine>
    ensures { Reads IsMachineLine machine_text (first_line text.now) result }
{
    let (line, _) = next_line(text)?;
    parse_machine(line)
}
