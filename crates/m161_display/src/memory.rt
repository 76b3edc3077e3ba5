//! Words of memory.

ghost use Rattle.std.specs.Prelude.{◌≡◌, ◌+◌, ◌*◌, ◌%◌, ◌++◌, ◌≤◌, length, string_bytes, IfOk, OnOk};
ghost use Rattle.m161_ram.specs.Word.{word_at};
ghost use Rattle.m161_display.specs.Shows.{memory_line, show_mem_text};
ghost use Rattle.m161_text.specs.Lines.{with_line_end};
ghost use Rattle.m161_text.specs.Parts.{word_text, ◌␣◌};

use m161_bus::Console;
use m161_machine::Core;
use m161_text::Word;
use m161_tlb::Tlb;
use std::alloc::{AllocError, Global};
use std::fmt::Write;

/// `n` words of RAM from a physical address on, one a line.
///
/// # Errors
/// Memory was refused.
#[tactic(auto, unfolding(crate::specs::Shows::show_mem_text))]
pub fn show_mem<T: Tlb, D: Console>(
    alloc: Global,
    core: &Core<T, D>,
    address: u32,
    n: u32,
) -> Result<String, AllocError>
    requires aligned { address % 4 ≡ 0 }
    requires inside { address + 4 * n ≤ length core.now.state.memory }
    ensures { IfOk result (λ text. string_bytes text
        ≡ show_mem_text address n core.now.state) }
{
    // So that the proof knows how large RAM is at most.
    core.law();
    let mut text = String::new(alloc);
    for i in 0..n {
        write_word(&mut text, core, address + 4 * i)?;
    }
    Ok(text)
}

// The line of an address.
fn write_word<T: Tlb, D: Console>(
    text: &mut String,
    core: &Core<T, D>,
    at: u32,
) -> Result<(), AllocError>
    requires aligned { at % 4 ≡ 0 }
    requires inside { at + 4 ≤ length core.now.state.memory }
    ensures { OnOk result (string_bytes text.new ≡ string_bytes text.old
        ++ with_line_end (memory_line core.now.state.memory at)) }
{
    write_words(text, at, word(core, at))
}

/// The word at a physical address of RAM.
pub(crate) fn word<T: Tlb, D: Console>(core: &Core<T, D>, at: u32) -> u32
    requires aligned { at % 4 ≡ 0 }
    requires inside { at + 4 ≤ length core.now.state.memory }
    ensures { result ≡ word_at core.now.state.memory at }
{
    match core.word(at) {
        Some(word) => word,
        None => 0,
    }
}

// A line of two words.
fn write_words(text: &mut String, first: u32, second: u32) -> Result<(), AllocError>
    ensures { OnOk result (string_bytes text.new ≡ string_bytes text.old
        ++ with_line_end (word_text first ␣ word_text second)) }
{
    let (first, second) = (Word(first), Word(second));
    writeln!(text, "{first} {second}")
}
