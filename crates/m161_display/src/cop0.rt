//! The registers of coprocessor 0.

ghost use Rattle.std.specs.Prelude.{◌≡◌, ◌++◌, ◌<◌, length, slice_get, string_bytes, IfOk, OnOk, Some};
ghost use Rattle.m161_cop0.specs.Registers.{all_registers};
ghost use Rattle.m161_display.specs.Shows.{cop0_line, name_and_word, show_cop0_text};
ghost use Rattle.m161_text.specs.Lines.{with_line_end};

use m161_bus::Console;
use m161_cop0::{REGISTERS, registers_in_order};
use m161_machine::{Core, Register};
use m161_text::Word;
use m161_tlb::Tlb;
use std::alloc::{AllocError, Global};
use std::fmt::Write;

/// A processor's registers of coprocessor 0, one a line, in the order of their numbers: twelve lines.
///
/// # Errors
/// Memory was refused.
#[tactic(auto, unfolding(crate::specs::Shows::show_cop0_text))]
pub fn show_cop0<T: Tlb, D: Console>(
    alloc: Global,
    core: &Core<T, D>,
    p: u32,
) -> Result<String, AllocError>
    requires { p < length core.now.state.processors }
    ensures { IfOk result (λ text. string_bytes text ≡ show_cop0_text p core.now.state) }
{
    let mut text = String::new(alloc);
    for i in 0..12 {
        write_register(&mut text, core, p, register(i))?;
    }
    Ok(text)
}

// The registers by their order.
fn register(i: usize) -> Register
    requires { i < 12 }
    ensures { slice_get all_registers i ≡ Some result }
{
    registers_in_order();
    REGISTERS[i]
}

// A register's line.
fn write_register<T: Tlb, D: Console>(
    text: &mut String,
    core: &Core<T, D>,
    p: u32,
    register: Register,
) -> Result<(), AllocError>
    requires { p < length core.now.state.processors }
    ensures { OnOk result (string_bytes text.new ≡ string_bytes text.old
        ++ with_line_end (cop0_line p core.now.state register)) }
{
    write_named(text, register.name(), core.cop(p, register))
}

// A line of a name and a word.
#[tactic(auto, unfolding(crate::specs::Shows::name_and_word))]
fn write_named(text: &mut String, name: &str, word: u32) -> Result<(), AllocError>
    ensures { OnOk result (string_bytes text.new ≡ string_bytes text.old
        ++ with_line_end (name_and_word name.now word)) }
{
    writeln!(text, "{name} {}", Word(word))
}
