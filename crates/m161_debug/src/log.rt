//! The end of the log.

ghost use Rattle.std.specs.Prelude.{◌≡◌, ◌++◌, string_bytes, IfOk, OnOk};
ghost use Rattle.m161_steplog.specs.Text.{entry_text};
ghost use Rattle.m161_debug.specs.Shows.{show_log_text};
ghost use Rattle.m161_text.specs.Lines.{with_line_end};

use m161_bus::Console;
use m161_machine::{Entry, Machine};
use m161_steplog::entry_line;
use m161_tlb::Tlb;
use std::alloc::{AllocError, Global};
use std::fmt::Write;

/// The last `n` entries of the log, or all if it has fewer, a line each, the oldest first.
#[tactic(auto, unfolding(crate::specs::Shows::show_log_text))]
pub(crate) fn show_log<T: Tlb, D: Console>(
    alloc: Global,
    machine: &Machine<T, D>,
    n: usize,
) -> Result<String, AllocError>
    ensures { IfOk result (λ text. string_bytes text ≡ show_log_text n machine.now.log) }
{
    let shown = n.min(machine.log_len());
    let first = machine.log_len() - shown;
    let mut text = String::new(alloc);
    for i in 0..shown {
        write_entry(alloc, &mut text, machine.log_at(first + i))?;
    }
    Ok(text)
}

// The line of an entry.
fn write_entry(alloc: Global, text: &mut String, entry: Entry) -> Result<(), AllocError>
    ensures { OnOk result
        (string_bytes text.new ≡ string_bytes text.old ++ with_line_end (entry_text entry)) }
{
    let line = entry_line(alloc, &entry)?;
    writeln!(text, "{line}")
}
