//! The listing of a file's instructions.

ghost use Rattle.std.specs.Prelude.{◌≡◌, ◌+◌, ◌<◌, ◌≤◌, ◌^◌, ◌++◌, true, length, string_bytes, IfErr, IfOk, OnOk};
ghost use Rattle.m161_elf.specs.Image.{is_in_ram};
ghost use Rattle.m161_ram.specs.Word.{word_at};
ghost use Rattle.m161_display.specs.Shows.{code_line, code_word, listing_text};
ghost use Rattle.m161_text.specs.Lines.{with_line_end};
ghost use Rattle.s161_base.specs.Naming.{style_of};
ghost use Rattle.s161_texts.specs.Listings.{aligned_up, dis_text, span_text, IsListing, IsUnlisted};
ghost use Rattle.s161_texts.specs.helpers.Listings.{AreInRam};

use m161_dis::{Style, push_line_with};
use m161_elf::{Span, load, loads};
use m161_isa::unmapped;
use m161_symbols::push_place_behind;
use m161_text::{Word, push_hex};
use s161_base::fault::Fault;
use s161_base::naming::style_of;
use s161_command::Registers;
use std::alloc::{AllocError, Global};
use std::fmt::Write;

/// The bytes of RAM into which a file is loaded: the most that a machine can have.
const RAM: u32 = 16_777_216;

/// The listing of an image's ELF file: for each segment, in the order of the program headers, a line for
/// each whole word of its part of the file, from its first multiple of 4 on. A line has the
/// address, the word that loading leaves there, and its text; with symbols the places of the address
/// and of a target stand behind them.
///
/// # Errors
/// The first fault of the file; or memory was refused.
pub fn disassembly<'a>(
    alloc: Global,
    name: &str,
    file: &[u8],
    registers: Registers,
    symbols: bool,
) -> Result<String, Fault<'a>>
    ensures ok { IfOk result (λ text.
        IsListing (style_of registers symbols name.now file.now) file.now (string_bytes text)) }
    ensures fault { IfErr result (IsUnlisted file.now) }
{
    let image = load(alloc, file, RAM)?;
    let spans = loads(alloc, file, RAM)?;
    let style = style_of(alloc, registers, symbols, name, file)?;
    Ok(listing(alloc, &style, &image.bytes, &spans)?)
}

/// The length of the shortest line, `80000200 00000000 nop`, with its end.
const SHORTEST: usize = 22;

// Room for the lines of spans, or less.
fn least_room(spans: &[Span]) -> usize {
    let mut room = 0usize;
    for span in spans {
        room = room.saturating_add(span.size as usize / 4 * SHORTEST);
    }
    room
}

// The lines of spans. Room is asked for first: where segments lie over one another a short file may
// have lines for which no memory is there, and that is told before any of them is made.
fn listing(
    alloc: Global,
    style: &Style,
    memory: &[u8],
    spans: &[Span],
) -> Result<String, AllocError>
    requires { AreInRam (length memory.now) spans.now }
    ensures { IfOk result (λ text. string_bytes text ≡ dis_text style.now memory.now spans.now) }
{
    let mut text = String::new(alloc);
    text.reserve(least_room(spans))?;
    for span in spans {
        write_span(&mut text, style, memory, *span)?;
    }
    Ok(text)
}

// The lines of a span.
fn write_span(text: &mut String, style: &Style, memory: &[u8], span: Span) -> Result<(), AllocError>
    requires { is_in_ram (length memory.now) span.address span.size ≡ true }
    ensures { OnOk result (string_bytes text.new
        ≡ string_bytes text.old ++ span_text style.now memory.now span) }
{
    let start = aligned_up(span.address);
    let words = (span.address + span.size).saturating_sub(start) / 4;
    for i in 0..words {
        write_word(text, style, memory, start + 4 * i)?;
    }
    Ok(())
}

// The first multiple of 4 from an address on.
fn aligned_up(address: u32) -> u32
    requires { address + 3 < 2 ^ 32 }
    ensures { result ≡ aligned_up address }
{
    (address + 3) / 4 * 4
}

// The line of an address.
fn write_word(text: &mut String, style: &Style, memory: &[u8], at: u32) -> Result<(), AllocError>
    requires { is_in_ram (length memory.now) at 4 ≡ true }
    ensures { OnOk result (string_bytes text.new
        ≡ string_bytes text.old ++ with_line_end (code_line style.now memory.now at)) }
{
    write_code(text, style, code_at(memory, at), at)
}

// The word at an address in kseg0 or kseg1.
fn code_at(memory: &[u8], at: u32) -> u32
    requires { is_in_ram (length memory.now) at 4 ≡ true }
    ensures { result ≡ code_word memory.now at }
{
    match unmapped(at) {
        Some(physical) => word(memory, physical as usize),
        None => 0,
    }
}

// The word at a physical address.
fn word(memory: &[u8], at: usize) -> u32
    requires { at + 4 ≤ length memory.now }
    ensures { result ≡ word_at memory.now at }
{
    u32::from_be_bytes([memory[at], memory[at + 1], memory[at + 2], memory[at + 3]])
}

// The line of a word at an address.
fn write_code(text: &mut String, style: &Style, word: u32, at: u32) -> Result<(), AllocError>
    ensures { OnOk result (string_bytes text.new
        ≡ string_bytes text.old ++ with_line_end (listing_text style.now at word)) }
{
    push_hex(text, 8, at)?;
    push_place_behind(text, &style.symbols, at)?;
    write!(text, " {} ", Word(word))?;
    push_line_with(text, style, word, at)?;
    text.push_str("\n")
}
