//! A state of which a part is made anew.

ghost use Rattle.std.specs.Prelude.{◌≡◌, ◌+◌, ◌<◌, ◌≤◌, ◌++◌, ◌∷◌, [], length, true};
ghost use Rattle.m161_ram.specs.Word.{with_word};
ghost use Rattle.m161_tlb.specs.Rows.{AreApart};
ghost use Rattle.m161_cop0.specs.Restore.{ticks_to};
ghost use Rattle.m161_cpu.specs.Restore.{IsProcessor, restored_processor};
ghost use Rattle.m161_machine.specs.State.{CountUpTo};
ghost use Rattle.m161_machine.specs.Restore.{with_board_parts, with_made, with_memory, with_place_and_link, with_processor, with_waiting};

use crate::event::Conflict;
use crate::state::Core;
use m161_bus::{Board, BoardParts, Console, PlaceParts};
use m161_cpu::ProcessorParts;
use m161_tlb::{Row, Tlb};

impl<T: Tlb, D: Console> Core<T, D> {
    /// Makes the number of events that were accepted since boot this one. No processor has made more
    /// Steps.
    pub fn recount(&mut self, made: u64)
        requires { CountUpTo made self.old.state.processors }
        ensures state { self.new.state ≡ with_made made self.old.state }
        ensures room { self.new.room ≡ self.old.room }
    {
        self.made = made;
    }

    /// Makes a processor the one that holds this, with these rows of the TLB. On a strict machine no
    /// two of the rows overlap. Does not allocate.
    pub fn restore_processor(&mut self, p: u32, parts: &ProcessorParts, rows: &[Row; 64])
        requires place { p < length self.old.state.processors }
        requires parts { IsProcessor parts.now }
        requires few { ticks_to parts.now.control.random ≤ self.old.state.made }
        requires apart { self.old.state.conf.strict ≡ true → AreApart rows.now }
        ensures state { self.new.state
            ≡ with_processor p (restored_processor parts.now rows.now) self.old.state }
        ensures room { self.new.room ≡ self.old.room }
    {
        self.processors[p as usize].restore(parts, rows);
    }

    /// Makes the board's registers those that hold this, with these waiting bytes, and what switched
    /// a strict machine off. Its console has sent none. Does not allocate.
    pub fn restore_board(&mut self, parts: &BoardParts, waiting: &[u8], conflict: Option<Conflict>)
        requires { length waiting.now ≤ 256 }
        ensures state { self.new.state ≡ with_board_parts parts.now waiting.now conflict self.old.state }
        ensures room { self.old.room ≤ self.new.room }
    {
        self.board.restore(parts);
        type_bytes(&mut self.board, waiting);
        self.started = parts.started;
        self.conflict = conflict;
    }

    /// Makes what the controller keeps for a processor this, and its link one to the unit with this
    /// first byte, or none. Does not allocate.
    pub fn restore_place(&mut self, p: u32, parts: &PlaceParts, link: Option<u32>)
        requires place { p < length self.old.state.processors }
        requires cram { length parts.now.cram ≡ 64 }
        ensures state { self.new.state ≡ with_place_and_link p parts.now link self.old.state }
        ensures room { self.new.room ≡ self.old.room }
    {
        self.board.restore_place(p, parts);
        self.links.restore(p, link);
    }

    /// Makes memory these bytes, of which there are as many. Does not allocate.
    pub fn restore_memory(&mut self, bytes: &[u8])
        requires { length bytes.now ≡ length self.old.state.memory }
        ensures state { self.new.state ≡ with_memory bytes.now self.old.state }
        ensures room { self.new.room ≡ self.old.room }
    {
        self.ram.restore(bytes);
    }

    /// Makes the word at a physical address this one. A link to its unit stays. Does not allocate.
    pub fn restore_word(&mut self, at: u32, word: u32)
        requires { at + 4 ≤ length self.old.state.memory }
        ensures state { self.new.state
            ≡ with_memory (with_word self.old.state.memory at word) self.old.state }
        ensures room { self.new.room ≡ self.old.room }
    {
        self.ram.set_word(at, word);
    }
}

// Types bytes at a console in which none waits.
fn type_bytes<D: Console>(board: &mut Board<D>, bytes: &[u8])
    requires none { board.old.state.console.waiting ≡ [] }
    requires few { length bytes.now ≤ 256 }
    ensures state { board.new.state ≡ with_waiting bytes.now board.old.state }
    ensures room { board.new.room ≡ board.old.room }
    ensures changed { board.new.changed ≡ board.old.changed }
{
    for place in 0..bytes.len() {
        type_byte(board, bytes[place]);
    }
}

// Types a byte at a console in which fewer than 256 wait.
fn type_byte<D: Console>(board: &mut Board<D>, byte: u8)
    requires { length board.old.state.console.waiting < 256 }
    ensures state { board.new.state
        ≡ with_waiting (board.old.state.console.waiting ++ byte ∷ []) board.old.state }
    ensures room { board.new.room ≡ board.old.room }
    ensures changed { board.new.changed ≡ board.old.changed }
{
    let _typed = board.key(byte);
}
