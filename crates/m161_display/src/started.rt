//! Where the processors are.

ghost use Rattle.std.specs.Prelude.{◌≡◌, ◌++◌, ◌<◌, length, decimal, string_bytes, IfOk, OnOk};
ghost use Rattle.m161_machine.specs.State.{processor_at};
ghost use Rattle.m161_display.specs.Shows.{is_started, show_where_text, state_text, where_line, where_text};
ghost use Rattle.m161_text.specs.Lines.{with_line_end};
ghost use Rattle.m161_text.specs.Parts.{◌␣◌};

use crate::fetched::write_fetched;
use crate::regs::ShownState;
use m161_bus::Console;
use m161_dis::Style;
use m161_machine::{BoardWord, Core};
use m161_tlb::Tlb;
use std::alloc::{AllocError, Global};
use std::fmt::Write;

/// Where each started processor is, one a line: its number, what it is doing, its address with its
/// place, and the word and the text of the instruction that it would fetch there, in this style. If
/// it can't fetch there, `-` stands for word and text.
///
/// # Errors
/// Memory was refused.
#[tactic(auto, unfolding(crate::specs::Shows::show_where_text))]
pub fn show_where<T: Tlb, D: Console>(
    alloc: Global,
    core: &Core<T, D>,
    style: &Style,
) -> Result<String, AllocError>
    ensures { IfOk result (λ text. string_bytes text ≡ show_where_text style.now core.now.state) }
{
    let mut text = String::new(alloc);
    for p in 0..core.processors() {
        write_if_started(&mut text, core, style, p)?;
    }
    Ok(text)
}

// The line of a processor, if it was started.
fn write_if_started<T: Tlb, D: Console>(
    text: &mut String,
    core: &Core<T, D>,
    style: &Style,
    p: u32,
) -> Result<(), AllocError>
    requires { p < length core.now.state.processors }
    ensures { OnOk result (string_bytes text.new ≡ string_bytes text.old
        ++ where_text style.now core.now.state p) }
{
    if is_started(core, p) {
        write_place(text, core, style, p)
    } else {
        Ok(())
    }
}

// Whether a processor's bit of CPUE is set.
fn is_started<T: Tlb, D: Console>(core: &Core<T, D>, p: u32) -> bool
    requires { p < length core.now.state.processors }
    ensures { result ≡ is_started core.now.state p }
{
    // So that the proof knows how many processors there are at most.
    core.law();
    (core.board_word(BoardWord::Cpue) >> p) % 2 == 1
}

// The line of a started processor.
fn write_place<T: Tlb, D: Console>(
    text: &mut String,
    core: &Core<T, D>,
    style: &Style,
    p: u32,
) -> Result<(), AllocError>
    requires { p < length core.now.state.processors }
    ensures { OnOk result (string_bytes text.new ≡ string_bytes text.old
        ++ with_line_end (where_line style.now core.now.state p)) }
{
    write!(text, "{p} {} ", ShownState(core.state(p)))?;
    write_fetched(text, core, style, p, core.pc(p))
}
