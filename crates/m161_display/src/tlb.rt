//! The TLB of a processor.

ghost use Rattle.std.specs.Prelude.{◌≡◌, ◌++◌, ◌<◌, length, string_bytes, IfOk, OnOk, Some};
ghost use Rattle.m161_machine.specs.State.{processor_at};
ghost use Rattle.m161_display.specs.Shows.{row_line, row_text, show_tlb_text, two_digits};
ghost use Rattle.m161_text.specs.Lines.{with_line_end};

use m161_bus::Console;
use m161_machine::{Core, Row};
use m161_text::Word;
use m161_tlb::Tlb;
use std::alloc::{AllocError, Global};
use std::fmt;
use std::fmt::Write;

/// A number below 100, shown as two digits.
#[derive(Drop)]
struct TwoDigits(u8);

impl fmt::Display for TwoDigits {
    ghost output = { λ n. Some (two_digits n.0) };

    fn fmt<W: fmt::Write>(&self, f: &mut fmt::Formatter<W>) -> fmt::Result {
        let (tens, ones) = (self.0 / 10, self.0 % 10);
        write!(f, "{tens}{ones}")
    }
}

/// The 64 rows of a processor's TLB, one a line: its number and its words in EntryHi and EntryLo.
///
/// # Errors
/// Memory was refused.
#[tactic(auto, unfolding(crate::specs::Shows::show_tlb_text))]
pub fn show_tlb<T: Tlb, D: Console>(
    alloc: Global,
    core: &Core<T, D>,
    p: u32,
) -> Result<String, AllocError>
    requires { p < length core.now.state.processors }
    ensures { IfOk result (λ text. string_bytes text ≡ show_tlb_text p core.now.state) }
{
    let mut text = String::new(alloc);
    for i in 0..64u8 {
        write_row_of(&mut text, core, p, i)?;
    }
    Ok(text)
}

// The line of row `i`.
fn write_row_of<T: Tlb, D: Console>(
    text: &mut String,
    core: &Core<T, D>,
    p: u32,
    i: u8,
) -> Result<(), AllocError>
    requires processor { p < length core.now.state.processors }
    requires row { i < 64 }
    ensures { OnOk result (string_bytes text.new ≡ string_bytes text.old
        ++ with_line_end (row_line (processor_at p core.now.state.processors).rows i)) }
{
    write_row(text, i, &core.row(p, i))
}

// A line of a number and a row.
fn write_row(text: &mut String, i: u8, row: &Row) -> Result<(), AllocError>
    requires { i < 64 }
    ensures { OnOk result (string_bytes text.new ≡ string_bytes text.old
        ++ with_line_end (row_text i row.now)) }
{
    let (hi, lo) = (Word(row.entry_hi()), Word(row.entry_lo()));
    writeln!(text, "{} {hi} {lo}", TwoDigits(i))
}
