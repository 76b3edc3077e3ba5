//! What a state shows.

ghost use Rattle.std.specs.Prelude.{◌≡◌, ◌<◌, None, Some, slice_get, slice_index, slice_index_or, length};
ghost use Rattle.m161_bus.specs.Board.{IsShown, interrupt_lines, shown_word};
ghost use Rattle.m161_cop0.specs.Control.{cause_parts_of, read_of};
ghost use Rattle.m161_cop0.specs.Registers.{number_of_register};
ghost use Rattle.m161_cpu.specs.Fetch.{fetched_word};
ghost use Rattle.m161_cpu.specs.Scene.{around, scene};
ghost use Rattle.m161_cpu.specs.Uses.{fetches};
ghost use Rattle.m161_machine.specs.State.{processor_at, step_result, word_in};
ghost use Rattle.m161_machine.specs.Resting.{IdleIsRest, rests, ticks};
ghost use Rattle.m161_machine.specs.Uses.{uses_in};

use crate::conf::Conf;
use crate::event::Conflict;
use crate::state::Core;
use m161_bus::{BoardWord, Console};
use m161_cop0::{CauseParts, Register};
use m161_cpu::{ProcessorState, Uses};
use m161_isa::Reg;
use m161_tlb::{Row, Tlb};

impl<T: Tlb, D: Console> Core<T, D> {
    /// A general register of a processor.
    pub fn reg(&self, p: u32, register: Reg) -> u32
        requires { p < length self.now.state.processors }
        ensures value { result ≡ slice_index
            (processor_at p self.now.state.processors).registers register }
        ensures zero { register ≡ 0 → result ≡ 0 }
    {
        self.processors[p as usize].reg(register)
    }

    /// HI of a processor.
    pub fn hi(&self, p: u32) -> u32
        requires { p < length self.now.state.processors }
        ensures { result ≡ (processor_at p self.now.state.processors).hi }
    {
        self.processors[p as usize].hi()
    }

    /// LO of a processor.
    pub fn lo(&self, p: u32) -> u32
        requires { p < length self.now.state.processors }
        ensures { result ≡ (processor_at p self.now.state.processors).lo }
    {
        self.processors[p as usize].lo()
    }

    /// The address of a processor's current instruction.
    pub fn pc(&self, p: u32) -> u32
        requires { p < length self.now.state.processors }
        ensures { result ≡ (processor_at p self.now.state.processors).pc }
    {
        self.processors[p as usize].pc()
    }

    /// The address of the instruction behind a processor's current one: in a delay slot the branch's
    /// target, if it is taken.
    pub fn following(&self, p: u32) -> u32
        requires { p < length self.now.state.processors }
        ensures { result ≡ (processor_at p self.now.state.processors).following }
    {
        self.processors[p as usize].following()
    }

    /// The parts of Cause of a processor beside the board's lines.
    pub fn cause_parts(&self, p: u32) -> CauseParts
        requires { p < length self.now.state.processors }
        ensures { result ≡ cause_parts_of (processor_at p self.now.state.processors).control }
    {
        self.processors[p as usize].cause_parts()
    }

    /// Whether a Step of a processor, if it is the next event, fetches an instruction: it isn't idle,
    /// and takes no interrupt.
    pub fn fetches(&self, p: u32) -> bool
        requires { p < length self.now.state.processors }
        ensures { result ≡ fetches (scene (processor_at p self.now.state.processors)
            (around p self.now.state.memory self.now.state.board self.now.state.links
            self.now.state.conf.strict)) }
    {
        self.processors[p as usize].fetches(self.board.lines(p))
    }

    /// Whether a processor's current instruction is in a delay slot.
    pub fn in_slot(&self, p: u32) -> bool
        requires { p < length self.now.state.processors }
        ensures { result ≡ (processor_at p self.now.state.processors).slot }
    {
        self.processors[p as usize].in_slot()
    }

    /// What a processor is doing.
    pub fn state(&self, p: u32) -> ProcessorState
        requires { p < length self.now.state.processors }
        ensures { result ≡ (processor_at p self.now.state.processors).state }
    {
        self.processors[p as usize].state()
    }

    /// How many Steps a processor has made, idle ones included.
    pub fn count(&self, p: u32) -> u64
        requires { p < length self.now.state.processors }
        ensures { result ≡ (processor_at p self.now.state.processors).count }
    {
        self.processors[p as usize].count()
    }

    /// The word at a physical address; `None` if it is misaligned or outside RAM.
    pub fn word(&self, address: u32) -> Option<u32>
        ensures { result ≡ word_in self.now.state.memory address }
    {
        if address % 4 == 0 && u64::from(address) + 4 <= u64::from(self.ram.size()) {
            Some(self.ram.word(address))
        } else {
            None
        }
    }

    /// A register of coprocessor 0 of a processor. Cause shows the board's lines as they are now.
    pub fn cop(&self, p: u32, register: Register) -> u32
        requires { p < length self.now.state.processors }
        ensures { result ≡ read_of (number_of_register register)
            (interrupt_lines p self.now.state.board)
            (processor_at p self.now.state.processors).control }
    {
        self.processors[p as usize].cop(register, self.board.lines(p))
    }

    /// A row of a processor's TLB.
    pub fn row(&self, p: u32, i: u8) -> Row
        requires processor { p < length self.now.state.processors }
        requires row { i < 64 }
        ensures { slice_get (processor_at p self.now.state.processors).rows i ≡ Some result }
    {
        self.processors[p as usize].row(i)
    }

    /// The word that a processor would fetch at an address, in its mode and by its TLB, if it can.
    pub fn fetched_word(&self, p: u32, address: u32) -> Option<u32>
        requires { p < length self.now.state.processors }
        ensures { result ≡ fetched_word self.now.state.memory address
            (processor_at p self.now.state.processors) }
    {
        self.processors[p as usize].fetched_word(address, &self.ram)
    }

    /// What a Step of a processor uses, if it is the next event: the rows of the TLB through which
    /// it gets physical addresses, and the physical word of RAM that it stores to.
    #[inline(always)]
    pub fn uses(&self, p: u32) -> Uses
        requires { p < length self.now.state.processors }
        ensures value { result ≡ uses_in p self.now.state }
        // It is the store that the history of the stores appends.
        ensures stored { result.stored ≡ (step_result p self.now.state).stored }
    {
        self.uses_next(p)
    }

    #[inline(always)]
    #[tactic(auto, unfolding(crate::specs::Uses::uses_in))]
    fn uses_next(&self, p: u32) -> Uses
        requires { p < length self.now.state.processors }
        ensures { result ≡ uses_in p self.now.state }
    {
        self.processors[p as usize].uses(p, &self.ram, &self.board, &self.links)
    }

    /// Whether a Step of a processor, if it is the next event, is idle.
    #[tactic(auto, unfolding(crate::specs::Resting::rests))]
    pub fn rests(&self, p: u32) -> bool
        requires { p < length self.now.state.processors }
        ensures value { result ≡ rests p self.now.state }
        ensures idle { IdleIsRest p self.now.state }
    {
        self.processors[p as usize].is_resting(self.board.lines(p))
    }

    /// Whether a processor rests until its timer's interrupt: its idle Steps bring that nearer.
    #[tactic(auto, unfolding(crate::specs::Resting::ticks))]
    pub fn ticks(&self, p: u32) -> bool
        requires { p < length self.now.state.processors }
        ensures { result ≡ ticks p self.now.state }
    {
        self.processors[p as usize].is_ticking(self.board.lines(p))
    }

    /// The byte that the console is sending, if it is.
    pub fn latch(&self) -> Option<u8>
        ensures { result ≡ self.now.state.board.console.latch }
    {
        self.board.latch()
    }

    /// How many typed bytes wait to be read.
    pub fn waiting(&self) -> u32
        ensures { result ≡ length self.now.state.board.console.waiting }
    {
        self.board.waiting()
    }

    /// A typed byte that waits to be read, by its place behind the oldest.
    pub fn waiting_byte(&self, place: u32) -> u8
        requires { place < length self.now.state.board.console.waiting }
        ensures { result ≡ slice_index self.now.state.board.console.waiting place }
    {
        self.board.waiting_byte(place)
    }

    /// A word of the slots that an event can change, as a processor would read it. Nothing is
    /// changed.
    pub fn board_word(&self, word: BoardWord) -> u32
        requires { IsShown self.now.state.board.processors word }
        ensures { result ≡ shown_word word self.now.state.board }
    {
        self.board.word(word)
    }

    /// The first byte of the unit that a processor's link of `ll` is to, if the link is live.
    pub fn link(&self, p: u32) -> Option<u32>
        requires { p < length self.now.state.processors }
        ensures { result ≡ slice_index_or self.now.state.links.live p None }
    {
        self.links.linked_unit(p)
    }

    /// The bytes that the console has sent, the first one first.
    pub fn output(&self) -> &[u8]
        ensures { result.now ≡ self.now.state.board.console.output }
    {
        self.board.output()
    }

    /// RAM, from physical address 0 on.
    pub fn memory(&self) -> &[u8]
        ensures { result.now ≡ self.now.state.memory }
    {
        self.ram.as_bytes()
    }

    /// How many events were accepted since boot.
    pub fn made(&self) -> u64
        ensures { result ≡ self.now.state.made }
    {
        self.made
    }

    /// How many bytes the console can send before memory is needed again.
    pub fn room(&self) -> usize
        ensures { result ≡ self.now.room }
    {
        self.board.room()
    }

    /// The configuration of its machine.
    pub fn conf(&self) -> Conf
        ensures { result ≡ self.now.state.conf }
    {
        self.conf
    }

    /// How many processors it has.
    pub fn processors(&self) -> u32
        ensures { result ≡ length self.now.state.processors }
    {
        self.board.processors()
    }

    /// What switched a strict machine off: the processor, the row that it was to write, and the
    /// lowest other row that this would have overlapped.
    pub fn conflict(&self) -> Option<Conflict>
        ensures { result ≡ self.now.state.conflict }
    {
        self.conflict
    }

    /// Whether it was switched off.
    pub fn is_off(&self) -> bool
        ensures { result ≡ self.now.state.board.off }
    {
        self.board.is_off()
    }
}
