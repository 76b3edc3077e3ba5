//! Instructions as a processor would fetch them.

ghost use Rattle.std.specs.Prelude.{◌≡◌, ◌+◌, ◌*◌, ◌^◌, ◌++◌, ◌<◌, ◌≤◌, length, string_bytes, IfOk, OnOk};
ghost use Rattle.m161_display.specs.Shows.{fetched_line, fetched_text, show_fetched_text};
ghost use Rattle.m161_text.specs.Lines.{with_line_end};

use crate::code::{write_address, write_code};
use m161_bus::Console;
use m161_dis::Style;
use m161_machine::Core;
use m161_tlb::Tlb;
use std::alloc::{AllocError, Global};

/// `n` instructions from a virtual address on, as processor `p` would fetch them now, by its mode
/// and its TLB, one a line: its address with its place, its word, and its text, in this style. Where
/// the processor can't fetch a word, `-` stands for word and text.
///
/// # Errors
/// Memory was refused.
#[tactic(auto, unfolding(crate::specs::Shows::show_fetched_text))]
pub fn show_fetched<T: Tlb, D: Console>(
    alloc: Global,
    core: &Core<T, D>,
    style: &Style,
    p: u32,
    address: u32,
    n: u32,
) -> Result<String, AllocError>
    requires processor { p < length core.now.state.processors }
    requires inside { address + 4 * n ≤ 2 ^ 32 }
    ensures { IfOk result (λ text. string_bytes text
        ≡ show_fetched_text style.now p address n core.now.state) }
{
    let mut text = String::new(alloc);
    for i in 0..n {
        write_fetched(&mut text, core, style, p, address + 4 * i)?;
    }
    Ok(text)
}

/// Appends the line of the instruction that processor `p` would fetch at an address.
pub(crate) fn write_fetched<T: Tlb, D: Console>(
    text: &mut String,
    core: &Core<T, D>,
    style: &Style,
    p: u32,
    at: u32,
) -> Result<(), AllocError>
    requires { p < length core.now.state.processors }
    ensures { OnOk result (string_bytes text.new ≡ string_bytes text.old
        ++ with_line_end (fetched_line style.now p core.now.state at)) }
{
    write_word_at(text, style, at, core.fetched_word(p, at))
}

// The line of the word that is fetched at an address, or that there is none.
fn write_word_at(
    text: &mut String,
    style: &Style,
    at: u32,
    word: Option<u32>,
) -> Result<(), AllocError>
    ensures { OnOk result (string_bytes text.new ≡ string_bytes text.old
        ++ with_line_end (fetched_text style.now at word)) }
{
    match word {
        Some(word) => write_code(text, style, word, at),
        None => {
            write_address(text, style, at)?;
            text.push_str(" -\n")
        }
    }
}
