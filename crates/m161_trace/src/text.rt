//! Items as text, each behind a space.

ghost use Rattle.std.specs.Prelude.{◌≡◌, ◌<◌, ◌++◌, ◌∷◌, [], OnOk, codes, slice_index_or, string_bytes};
ghost use Rattle.m161_asm.specs.Tokens.{register_names};
ghost use Rattle.m161_trace.specs.Items.{board, conflict, control, doing, hi, idle, latched, linked, lo, off, register, row, starts, stored, trapped, unlinked, waiting};
ghost use Rattle.m161_text.specs.Parts.{word_text};
ghost use Rattle.m161_trace.specs.Line.{item_text, place_text, ram_place, register_label, value_text};
ghost use Rattle.m161_trace.specs.helpers.Adds.{AddsItem, AddsPart};

use m161_asm::register_name;
use m161_dis::{Naming, Style};
use m161_machine::{BoardWord, Exception, ProcessorState, Register};
use m161_symbols::{Symbols, push_place_behind};
use m161_text::push_hex;
use std::alloc::AllocError;
use std::fmt::Write;

/// A name and a word.
pub(crate) fn push_named(text: &mut String, name: &str, word: u32) -> Result<(), AllocError>
    ensures { OnOk result (AddsPart (string_bytes text.old) (value_text name.now word)
        (string_bytes text.new)) }
{
    text.push(' ')?;
    text.push_str(name)?;
    text.push('=')?;
    push_hex(text, 8, word)
}

/// What the processor is doing.
pub(crate) fn push_doing(text: &mut String, state: ProcessorState) -> Result<(), AllocError>
    ensures { OnOk result (AddsItem (string_bytes text.old) (doing state)
        (string_bytes text.new)) }
{
    match state {
        ProcessorState::Stopped => text.push_str(" state=stopped"),
        ProcessorState::Running => text.push_str(" state=running"),
        ProcessorState::Waiting => text.push_str(" state=waiting"),
    }
}

// The name of a general register.
fn name_of(r: u8) -> &'static str
    requires { r < 32 }
    ensures { result.now ≡ slice_index_or register_names r [] }
{
    register_name(u32::from(r))
}

// A general register, without its word.
fn push_label(text: &mut String, naming: Naming, r: u8) -> Result<(), AllocError>
    requires { r < 32 }
    ensures { OnOk result (AddsPart (string_bytes text.old) (register_label naming r)
        (string_bytes text.new)) }
{
    match naming {
        Naming::Numbers => write!(text, " r{r}"),
        Naming::Names => {
            text.push(' ')?;
            text.push_str(name_of(r))
        }
    }
}

/// A general register.
pub(crate) fn push_register(
    text: &mut String,
    style: &Style,
    r: u8,
    word: u32,
) -> Result<(), AllocError>
    requires { r < 32 }
    ensures { OnOk result (AddsPart (string_bytes text.old) (item_text style.now (register r word))
        (string_bytes text.new)) }
{
    push_label(text, style.registers, r)?;
    text.push('=')?;
    push_hex(text, 8, word)
}

/// HI.
pub(crate) fn push_hi(text: &mut String, word: u32) -> Result<(), AllocError>
    ensures { OnOk result (AddsItem (string_bytes text.old) (hi word)
        (string_bytes text.new)) }
{
    push_named(text, "hi", word)
}

/// LO.
pub(crate) fn push_lo(text: &mut String, word: u32) -> Result<(), AllocError>
    ensures { OnOk result (AddsItem (string_bytes text.old) (lo word)
        (string_bytes text.new)) }
{
    push_named(text, "lo", word)
}

/// A register of coprocessor 0.
pub(crate) fn push_control(text: &mut String, r: Register, word: u32) -> Result<(), AllocError>
    ensures { OnOk result (AddsItem (string_bytes text.old) (control r word)
        (string_bytes text.new)) }
{
    push_named(text, r.name(), word)
}

/// A row of the TLB, as its words in EntryHi and EntryLo.
pub(crate) fn push_row(text: &mut String, i: u8, high: u32, low: u32) -> Result<(), AllocError>
    ensures { OnOk result (AddsItem (string_bytes text.old) (row i high low)
        (string_bytes text.new)) }
{
    write!(text, " tlb {i}=")?;
    push_hex(text, 8, high)?;
    text.push(' ')?;
    push_hex(text, 8, low)
}

/// The place of an address of RAM, with a space before it.
pub(crate) fn push_ram_place(
    text: &mut String,
    symbols: &Symbols,
    at: u32,
) -> Result<(), AllocError>
    ensures { OnOk result (string_bytes text.new
        ≡ string_bytes text.old ++ ram_place symbols.now at) }
{
    if at < 1 << 29 {
        push_place_behind(text, symbols, (1 << 31) + at)
    } else {
        Ok(())
    }
}

// A bracket and an address.
fn push_open(text: &mut String, at: u32) -> Result<(), AllocError>
    ensures { OnOk result (AddsPart (string_bytes text.old) (codes "[" ++ word_text at)
        (string_bytes text.new)) }
{
    text.push_str(" [")?;
    push_hex(text, 8, at)
}

// What stands between an address and its word.
fn push_close(text: &mut String) -> Result<(), AllocError>
    ensures { OnOk result (string_bytes text.new ≡ string_bytes text.old ++ codes "]=") }
{
    text.push_str("]=")
}

/// A word of RAM that was stored to.
pub(crate) fn push_stored(
    text: &mut String,
    style: &Style,
    at: u32,
    word: u32,
) -> Result<(), AllocError>
    ensures { OnOk result (AddsPart (string_bytes text.old) (item_text style.now (stored at word))
        (string_bytes text.new)) }
{
    push_open(text, at)?;
    push_ram_place(text, &style.symbols, at)?;
    push_close(text)?;
    push_hex(text, 8, word)
}

/// The word that the link names.
pub(crate) fn push_linked(text: &mut String, word: u32) -> Result<(), AllocError>
    ensures { OnOk result (AddsItem (string_bytes text.old) (linked word)
        (string_bytes text.new)) }
{
    push_named(text, "link", word)
}

/// A processor whose link ended.
pub(crate) fn push_unlinked(text: &mut String, q: u32) -> Result<(), AllocError>
    ensures { OnOk result (AddsItem (string_bytes text.old) (unlinked q)
        (string_bytes text.new)) }
{
    write!(text, " unlink {q}")
}

/// The byte in the console's latch.
pub(crate) fn push_latched(text: &mut String, byte: u8) -> Result<(), AllocError>
    ensures { OnOk result (AddsItem (string_bytes text.old) (latched byte)
        (string_bytes text.new)) }
{
    text.push_str(" latch=")?;
    push_hex(text, 2, u32::from(byte))
}

/// How many typed bytes wait.
pub(crate) fn push_waiting(text: &mut String, n: u32) -> Result<(), AllocError>
    ensures { OnOk result (AddsItem (string_bytes text.old) (waiting n)
        (string_bytes text.new)) }
{
    write!(text, " waiting={n}")
}

// The name of a word of the board.
fn push_place(text: &mut String, place: BoardWord) -> Result<(), AllocError>
    ensures { OnOk result (AddsPart (string_bytes text.old) (place_text place)
        (string_bytes text.new)) }
{
    match place {
        BoardWord::WriteIrq => text.push_str(" wirq"),
        BoardWord::ReadIrq => text.push_str(" rirq"),
        BoardWord::Irqe => text.push_str(" irqe"),
        BoardWord::Cpue => text.push_str(" cpue"),
        BoardWord::Cirqe(c) => write!(text, " cirqe {c}"),
        BoardWord::Cipi(c) => write!(text, " cipi {c}"),
        BoardWord::Cram(c, k) => write!(text, " cram {c} {k}"),
    }
}

/// A word of the board.
pub(crate) fn push_board(text: &mut String, place: BoardWord, word: u32) -> Result<(), AllocError>
    ensures { OnOk result (AddsItem (string_bytes text.old) (board place word)
        (string_bytes text.new)) }
{
    push_place(text, place)?;
    text.push('=')?;
    push_hex(text, 8, word)
}

/// A trap.
pub(crate) fn push_trapped(
    text: &mut String,
    code: Exception,
    vector: u32,
) -> Result<(), AllocError>
    ensures { OnOk result (AddsItem (string_bytes text.old) (trapped code vector)
        (string_bytes text.new)) }
{
    write!(text, " trap {} ", code.number())?;
    push_hex(text, 8, vector)
}

/// That the Step was idle.
pub(crate) fn push_idle(text: &mut String) -> Result<(), AllocError>
    ensures { OnOk result (AddsItem (string_bytes text.old) idle
        (string_bytes text.new)) }
{
    text.push_str(" idle")
}

/// That the Step switched the machine off.
pub(crate) fn push_off(text: &mut String) -> Result<(), AllocError>
    ensures { OnOk result (AddsItem (string_bytes text.old) off
        (string_bytes text.new)) }
{
    text.push_str(" off")
}

/// That the Step switched the machine off and left this row as it was, which would have overlapped
/// the other one.
pub(crate) fn push_conflict(text: &mut String, row: u8, other: u8) -> Result<(), AllocError>
    ensures { OnOk result (AddsItem (string_bytes text.old) (conflict row other)
        (string_bytes text.new)) }
{
    write!(text, " conflict {row} {other}")
}

/// A processor that was started.
pub(crate) fn push_starts(text: &mut String, q: u32) -> Result<(), AllocError>
    ensures { OnOk result (AddsItem (string_bytes text.old) (starts q)
        (string_bytes text.new)) }
{
    write!(text, " starts {q}")
}
