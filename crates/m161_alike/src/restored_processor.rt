//! A processor, made anew from the words of its view.

ghost use Rattle.std.specs.Prelude.{◌≡◌, ◌<◌, ◌≤◌, length, slice_set, take, true};
ghost use Rattle.m161_tlb.specs.Rows.{AreApart};
ghost use Rattle.m161_cpu.specs.Processor.{Processor};
ghost use Rattle.m161_cpu.specs.Restore.{restored_processor};
ghost use Rattle.m161_machine.specs.State.{processor_at};
ghost use Rattle.m161_machine.specs.Restore.{with_processor};
ghost use Rattle.m161_alike.specs.declared.reads.Reads.{Reads};
ghost use Rattle.m161_alike.specs.View.{processor_view};
ghost use Rattle.m161_alike.specs.Restored.{AreWordsOf, control_in, processor_in, row_of_words, rows_in, state_with, with_ticks};

use m161_bus::Console;
use m161_cop0::{CauseParts, Cop0Parts};
use m161_cpu::{ProcessorParts, ProcessorState};
use m161_machine::Core;
use m161_tlb::{Frame, Identifier, Page, Row, Tlb};

/// Makes a processor one whose view has these words, as `write_processor` writes them. All Steps that
/// it made then are the ticks that Random tells, at most 55. Words that are those of no processor are
/// brought within their bounds. Does not allocate.
pub fn read_processor<T: Tlb, D: Console>(core: &mut Core<T, D>, p: u32, words: &[u32])
    requires place { p < length core.old.state.processors }
    requires few { 55 ≤ core.old.state.made }
    requires size { length words.now ≡ 245 }
    requires apart { core.old.state.conf.strict ≡ true → AreApart (rows_in words.now) }
    ensures state { core.new.state ≡ with_processor p
        (restored_processor (processor_in words.now) (rows_in words.now)) core.old.state }
    ensures view { (known : Reads) (q : Processor) → AreWordsOf words.now known q
        → core.new.state ≡ with_processor p (with_ticks (processor_view known q)) core.old.state }
    ensures same { (known : Reads) (q : Processor) → AreWordsOf words.now known q
        → processor_view known (processor_at p core.new.state.processors) ≡ processor_view known q }
    ensures room { core.new.room ≡ core.old.room }
{
    let parts = parts_of(words);
    let rows = rows_of(words);
    core.restore_processor(p, &parts, &rows);
}

// What the words hold beside the rows of the TLB.
fn parts_of(words: &[u32]) -> ProcessorParts
    requires { length words.now ≡ 245 }
    ensures { result ≡ processor_in words.now }
{
    ProcessorParts {
        registers: registers_of(words),
        hi: words[32],
        lo: words[33],
        pc: words[34],
        following: words[35],
        slot: words[36] == 1,
        state: state_of(words[37]),
        control: control_of(words),
    }
}

// The general registers.
fn registers_of(words: &[u32]) -> [u32; 32]
    requires { length words.now ≡ 245 }
    ensures { result ≡ slice_set (take 32 words.now) 0 0 }
{
    let mut registers = [0; 32];
    registers.copy_from_slice(&words[..32]);
    registers[0] = 0;
    registers
}

// What it is doing, by its word.
fn state_of(word: u32) -> ProcessorState
    ensures { result ≡ state_with word }
{
    match word {
        0 => ProcessorState::Stopped,
        1 => ProcessorState::Running,
        _ => ProcessorState::Waiting,
    }
}

// Coprocessor 0.
fn control_of(words: &[u32]) -> Cop0Parts
    requires { length words.now ≡ 245 }
    ensures { result ≡ control_in words.now }
{
    Cop0Parts {
        index: words[38],
        random: (words[39] % 64).max(8) as u8,
        entry_lo: words[40],
        context: words[41],
        bad_vaddr: words[42],
        count: words[43],
        entry_hi: words[44],
        compare: words[45],
        status: words[46],
        epc: words[47],
        cause: CauseParts {
            branch_delay: words[48] == 1,
            unit: (words[49] % 4) as u8,
            code: (words[50] % 256) as u8,
            timer: words[51] == 1,
            software: (words[52] % 4) as u8,
        },
    }
}

// The rows of the TLB.
fn rows_of(words: &[u32]) -> [Row; 64]
    requires { length words.now ≡ 245 }
    ensures { result ≡ rows_in words.now }
{
    let mut rows = [row_of(0, 0, 0); 64];
    for i in 0..64usize {
        rows[i] = row_of(words[53 + 3 * i], words[54 + 3 * i], words[55 + 3 * i]);
    }
    rows
}

// A row of the TLB: its page, its frame, and its identifier with the flags below it.
fn row_of(page: u32, frame: u32, rest: u32) -> Row
    ensures { result ≡ row_of_words page frame rest }
{
    Row {
        page: Page::new(page % (1 << 20)),
        id: Identifier::new((rest / 16 % 64) as u8),
        frame: Frame::new(frame % (1 << 20)),
        n: rest / 8 % 2 == 1,
        d: rest / 4 % 2 == 1,
        v: rest / 2 % 2 == 1,
        g: rest % 2 == 1,
    }
}
