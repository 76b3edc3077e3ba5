//! Instructions in memory.

ghost use Rattle.std.specs.Prelude.{◌≡◌, ◌+◌, ◌*◌, ◌%◌, ◌++◌, true, length, string_bytes, IfOk, OnOk};
ghost use Rattle.m161_elf.specs.Image.{is_in_ram};
ghost use Rattle.m161_display.specs.Shows.{address_text, code_line, code_word, listing_text, show_code_text};
ghost use Rattle.m161_text.specs.Lines.{with_line_end};

use crate::memory::word;
use m161_bus::Console;
use m161_dis::{Style, push_line_with};
use m161_isa::unmapped;
use m161_machine::Core;
use m161_symbols::push_place_behind;
use m161_text::push_hex;
use m161_tlb::Tlb;
use std::alloc::{AllocError, Global};

/// `n` instructions from an address in kseg0 or kseg1 on, one a line: its address with its place, its
/// word, and its text, in this style.
///
/// # Errors
/// Memory was refused.
#[tactic(auto, unfolding(crate::specs::Shows::show_code_text))]
pub fn show_code<T: Tlb, D: Console>(
    alloc: Global,
    core: &Core<T, D>,
    style: &Style,
    address: u32,
    n: u32,
) -> Result<String, AllocError>
    requires aligned { address % 4 ≡ 0 }
    requires inside { is_in_ram (length core.now.state.memory) address (4 * n) ≡ true }
    ensures { IfOk result (λ text. string_bytes text
        ≡ show_code_text style.now address n core.now.state) }
{
    let mut text = String::new(alloc);
    for i in 0..n {
        write_code_at(&mut text, core, style, address + 4 * i)?;
    }
    Ok(text)
}

// The line of an address.
fn write_code_at<T: Tlb, D: Console>(
    text: &mut String,
    core: &Core<T, D>,
    style: &Style,
    at: u32,
) -> Result<(), AllocError>
    requires aligned { at % 4 ≡ 0 }
    requires inside { is_in_ram (length core.now.state.memory) at 4 ≡ true }
    ensures { OnOk result (string_bytes text.new ≡ string_bytes text.old
        ++ with_line_end (code_line style.now core.now.state.memory at)) }
{
    write_code(text, style, code_at(core, at), at)
}

// The word at an address in kseg0 or kseg1.
fn code_at<T: Tlb, D: Console>(core: &Core<T, D>, at: u32) -> u32
    requires aligned { at % 4 ≡ 0 }
    requires inside { is_in_ram (length core.now.state.memory) at 4 ≡ true }
    ensures { result ≡ code_word core.now.state.memory at }
{
    match unmapped(at) {
        Some(physical) => word(core, physical),
        None => 0,
    }
}

/// Appends an address, with its place behind it.
pub(crate) fn write_address(text: &mut String, style: &Style, at: u32) -> Result<(), AllocError>
    ensures { OnOk result (string_bytes text.new ≡ string_bytes text.old
        ++ address_text style.now at) }
{
    push_hex(text, 8, at)?;
    push_place_behind(text, &style.symbols, at)
}

/// Appends the line of an instruction: its address, its word and its text.
pub(crate) fn write_code(
    text: &mut String,
    style: &Style,
    word: u32,
    at: u32,
) -> Result<(), AllocError>
    ensures { OnOk result (string_bytes text.new ≡ string_bytes text.old
        ++ with_line_end (listing_text style.now at word)) }
{
    write_address(text, style, at)?;
    text.push(' ')?;
    push_hex(text, 8, word)?;
    text.push(' ')?;
    push_line_with(text, style, word, at)?;
    text.push('\n')
}
