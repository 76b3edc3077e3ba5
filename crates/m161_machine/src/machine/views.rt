//! The views of a machine. Only `copy_log` and `copy_start` allocate.

ghost use Rattle.std.specs.Prelude.{◌≡◌, ◌≢◌, ◌<◌, ◌≤◌, true, false, None, Some, length, slice_get, slice_index, slice_index_or, IfOk};
ghost use Rattle.m161_bus.specs.Board.{IsShown, interrupt_lines, shown_word};
ghost use Rattle.m161_cop0.specs.Control.{read_of};
ghost use Rattle.m161_cop0.specs.Registers.{number_of_register};
ghost use Rattle.m161_cpu.specs.Fetch.{fetched_word};
ghost use Rattle.m161_machine.specs.History.{transfers_of};
ghost use Rattle.m161_machine.specs.State.{processor_at, step_result, word_in};
ghost use Rattle.m161_machine.specs.Resting.{IdleIsRest, rests, ticks};
ghost use Rattle.m161_machine.specs.Uses.{uses_in};

use crate::conf::Conf;
use crate::event::{Conflict, Entry};
use crate::machine::Machine;
use crate::start::Start;
use crate::state::Core;
use m161_bus::{BoardWord, Console};
use m161_cop0::Register;
use m161_cpu::{ProcessorState, Uses};
use m161_isa::Reg;
use m161_tlb::{Row, Tlb};
use std::alloc::{AllocError, Global};

impl<T: Tlb, D: Console> Machine<T, D> {
    /// A general register of a processor.
    pub fn reg(&self, p: u32, register: Reg) -> u32
        requires { p < length self.now.state.processors }
        ensures value { result ≡ slice_index
            (processor_at p self.now.state.processors).registers register }
        ensures zero { register ≡ 0 → result ≡ 0 }
    {
        self.present.reg(p, register)
    }

    /// HI of a processor.
    pub fn hi(&self, p: u32) -> u32
        requires { p < length self.now.state.processors }
        ensures { result ≡ (processor_at p self.now.state.processors).hi }
    {
        self.present.hi(p)
    }

    /// LO of a processor.
    pub fn lo(&self, p: u32) -> u32
        requires { p < length self.now.state.processors }
        ensures { result ≡ (processor_at p self.now.state.processors).lo }
    {
        self.present.lo(p)
    }

    /// The address of a processor's current instruction.
    pub fn pc(&self, p: u32) -> u32
        requires { p < length self.now.state.processors }
        ensures { result ≡ (processor_at p self.now.state.processors).pc }
    {
        self.present.pc(p)
    }

    /// Whether a processor's current instruction is in a delay slot.
    pub fn in_slot(&self, p: u32) -> bool
        requires { p < length self.now.state.processors }
        ensures { result ≡ (processor_at p self.now.state.processors).slot }
    {
        self.present.in_slot(p)
    }

    /// What a processor is doing.
    pub fn state(&self, p: u32) -> ProcessorState
        requires { p < length self.now.state.processors }
        ensures { result ≡ (processor_at p self.now.state.processors).state }
    {
        self.present.state(p)
    }

    /// How many Steps a processor has made, idle ones included.
    pub fn count(&self, p: u32) -> u64
        requires { p < length self.now.state.processors }
        ensures { result ≡ (processor_at p self.now.state.processors).count }
    {
        self.present.count(p)
    }

    /// The word at a physical address; `None` if it is misaligned or outside RAM.
    pub fn word(&self, address: u32) -> Option<u32>
        ensures { result ≡ word_in self.now.state.memory address }
    {
        self.present.word(address)
    }

    /// The state without the log: the same views, and what an event would do to it, by a copy.
    pub fn core(&self) -> &Core<T, D>
        ensures { result.now.state ≡ self.now.state }
    {
        &*self.present
    }

    /// The state at the base of the log: the log's events, made on it, lead to the machine's state.
    /// It is the state at boot while no entry was dropped. Its console has room for all that they
    /// send.
    pub fn base(&self) -> &Core<T, D>
        ensures state { result.now.state ≡ self.now.base }
        ensures room { transfers_of self.now.log ≤ result.now.room }
    {
        &*self.base
    }

    /// How many events were accepted since boot.
    pub fn made(&self) -> u64
        ensures { result ≡ self.now.state.made }
    {
        self.present.made()
    }

    /// How many entries the log has.
    pub fn log_len(&self) -> usize
        ensures { result ≡ length self.now.log }
    {
        self.window.len()
    }

    /// An entry of the log, an accepted event with its outcome; the oldest is the first.
    pub fn log_at(&self, i: usize) -> Entry
        requires { i < length self.now.log }
        ensures { slice_get self.now.log i ≡ Some result }
    {
        self.window.at(i)
    }

    /// The log's entries, oldest first.
    pub fn copy_log(&self, alloc: Global) -> Result<Vec<Entry>, AllocError>
        ensures { IfOk result (λ entries. entries.items ≡ self.now.log) }
    {
        let entries = self.window.to_entries(alloc)?;
        Ok(entries)
    }

    /// What it was booted from: the bytes of its whole RAM as they were loaded, the entry and the
    /// configuration.
    pub fn copy_start(&self, alloc: Global) -> Result<Start, AllocError>
        ensures { IfOk result (λ start. start ≡ self.now.start) }
    {
        Ok(Start {
            bytes: Vec::from_slice(alloc, self.image.bytes.as_slice())?,
            entry: self.image.entry,
            conf: self.conf,
        })
    }

    /// Whether it was booted from exactly this. Does not allocate.
    pub fn starts_as(&self, start: &Start) -> bool
        ensures yes { result ≡ true → self.now.start ≡ start.now }
        ensures no { result ≡ false → self.now.start ≢ start.now }
    {
        self.image.entry == start.entry
            && self.conf == start.conf
            && self.image.bytes.as_slice() == start.bytes.as_slice()
    }

    /// Its configuration.
    pub fn conf(&self) -> Conf
        ensures { result ≡ self.now.start.conf }
    {
        self.conf
    }

    /// A register of coprocessor 0 of a processor. Cause shows the board's lines as they are now.
    pub fn cop(&self, p: u32, register: Register) -> u32
        requires { p < length self.now.state.processors }
        ensures { result ≡ read_of (number_of_register register)
            (interrupt_lines p self.now.state.board)
            (processor_at p self.now.state.processors).control }
    {
        self.present.cop(p, register)
    }

    /// A row of a processor's TLB.
    pub fn row(&self, p: u32, i: u8) -> Row
        requires processor { p < length self.now.state.processors }
        requires row { i < 64 }
        ensures { slice_get (processor_at p self.now.state.processors).rows i ≡ Some result }
    {
        self.present.row(p, i)
    }

    /// The word that a processor would fetch at an address, in its mode and by its TLB, if it can.
    pub fn fetched_word(&self, p: u32, address: u32) -> Option<u32>
        requires { p < length self.now.state.processors }
        ensures { result ≡ fetched_word self.now.state.memory address
            (processor_at p self.now.state.processors) }
    {
        self.present.fetched_word(p, address)
    }

    /// What a Step of a processor uses, if it is the next event: the rows of the TLB through which
    /// it gets physical addresses, and the physical word of RAM that it stores to.
    pub fn uses(&self, p: u32) -> Uses
        requires { p < length self.now.state.processors }
        ensures value { result ≡ uses_in p self.now.state }
        // It is the store that the history of the stores appends.
        ensures stored { result.stored ≡ (step_result p self.now.state).stored }
    {
        self.present.uses(p)
    }

    /// Whether a Step of a processor, if it is the next event, is idle.
    pub fn rests(&self, p: u32) -> bool
        requires { p < length self.now.state.processors }
        ensures value { result ≡ rests p self.now.state }
        ensures idle { IdleIsRest p self.now.state }
    {
        self.present.rests(p)
    }

    /// Whether a processor rests until its timer's interrupt: its idle Steps bring that nearer.
    pub fn ticks(&self, p: u32) -> bool
        requires { p < length self.now.state.processors }
        ensures { result ≡ ticks p self.now.state }
    {
        self.present.ticks(p)
    }

    /// The byte that the console is sending, if it is.
    pub fn latch(&self) -> Option<u8>
        ensures { result ≡ self.now.state.board.console.latch }
    {
        self.present.latch()
    }

    /// How many typed bytes wait to be read.
    pub fn waiting(&self) -> u32
        ensures { result ≡ length self.now.state.board.console.waiting }
    {
        self.present.waiting()
    }

    /// A word of the slots that an event can change, as a processor would read it. Nothing is
    /// changed.
    pub fn board_word(&self, word: BoardWord) -> u32
        requires { IsShown self.now.state.board.processors word }
        ensures { result ≡ shown_word word self.now.state.board }
    {
        self.present.board_word(word)
    }

    /// The first byte of the unit that a processor's link of `ll` is to, if the link is live.
    pub fn link(&self, p: u32) -> Option<u32>
        requires { p < length self.now.state.processors }
        ensures { result ≡ slice_index_or self.now.state.links.live p None }
    {
        self.present.link(p)
    }

    /// The bytes that the console has sent, the first one first.
    pub fn output(&self) -> &[u8]
        ensures { result.now ≡ self.now.state.board.console.output }
    {
        self.present.output()
    }

    /// RAM, from physical address 0 on.
    pub fn memory(&self) -> &[u8]
        ensures { result.now ≡ self.now.state.memory }
    {
        self.present.memory()
    }

    /// How many processors it has.
    pub fn processors(&self) -> u32
        ensures { result ≡ length self.now.state.processors }
    {
        self.conf.processors
    }

    /// What switched a strict machine off: the processor, the row that it was to write, and the
    /// lowest other row that this would have overlapped.
    pub fn conflict(&self) -> Option<Conflict>
        ensures { result ≡ self.now.state.conflict }
    {
        self.present.conflict()
    }

    /// Whether it was switched off.
    pub fn is_off(&self) -> bool
        ensures { result ≡ self.now.state.board.off }
    {
        self.present.is_off()
    }
}
