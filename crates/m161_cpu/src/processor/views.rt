//! What a processor shows. In a file of its own, so that a wrong edit can name each line that reads a
//! field.

ghost use Rattle.std.specs.Prelude.{◌≡◌, ◌≢◌, ℕ, true, false, ◌-◌, ◌%◌, ◌<◌, Some, slice_get, slice_index};
ghost use Rattle.m161_cop0.specs.Control.{cause_parts_of, read_of};
ghost use Rattle.m161_cop0.specs.Registers.{number_of_register};
ghost use Rattle.m161_cpu.specs.Resting.{is_resting, is_ticking};

use crate::processor::{Cpu, ProcessorState};
use m161_cop0::{CauseParts, Register};
use m161_isa::Reg;
use m161_tlb::{Row, Tlb};

impl<T: Tlb> Cpu<T> {
    /// A general register.
    pub fn reg(&self, register: Reg) -> u32
        ensures value { result ≡ slice_index self.now.registers register }
        ensures zero { register ≡ 0 → result ≡ 0 }
    {
        self.registers[register.index()]
    }

    /// A register of coprocessor 0. `lines` are the board's lines of this processor, which Cause
    /// shows.
    pub fn cop(&self, register: Register, lines: u32) -> u32
        ensures { result ≡ read_of (number_of_register register) lines self.now.control }
    {
        self.control.read(register.number(), lines)
    }

    /// Whether it executes instructions. Then its next Step isn't idle, whatever the board's lines.
    #[inline(always)]
    #[tactic(auto, unfolding(crate::specs::Resting::is_resting))]
    pub fn is_running(&self) -> bool
        ensures value { result ≡ true → self.now.state ≡ ProcessorState.Running }
        ensures other { result ≡ false → self.now.state ≢ ProcessorState.Running }
        ensures awake { result ≡ true → (lines : ℕ) → is_resting lines self.now ≡ false }
    {
        match self.state {
            ProcessorState::Running => true,
            ProcessorState::Stopped | ProcessorState::Waiting => false,
        }
    }

    /// Whether its next Step is idle. `lines` are the board's lines of this processor.
    #[tactic(auto, unfolding(crate::specs::Resting::is_resting))]
    pub fn is_resting(&self, lines: u32) -> bool
        ensures { result ≡ is_resting lines self.now }
    {
        match self.state {
            ProcessorState::Stopped => true,
            ProcessorState::Running => false,
            ProcessorState::Waiting => !self.control.pending(lines),
        }
    }

    /// Whether it rests until its timer's interrupt. `lines` are the board's lines of this
    /// processor.
    #[tactic(auto, unfolding(crate::specs::Resting::is_ticking))]
    pub fn is_ticking(&self, lines: u32) -> bool
        ensures { result ≡ is_ticking lines self.now }
    {
        match self.state {
            ProcessorState::Stopped | ProcessorState::Running => false,
            ProcessorState::Waiting => {
                !self.control.pending(lines) && self.control.expects_timer()
            }
        }
    }

    /// The law of Random: it is 63 less its ticks modulo 56 (Kane: it counts down from 63 to 8).
    pub fn random_is_by_age(&self)
        ensures { self.now.control.random ≡ 63 - self.now.control.age % 56 }
    {
        let _row = self.control.random_row();
    }

    /// A row of the TLB.
    pub fn row(&self, i: u8) -> Row
        requires { i < 64 }
        ensures { slice_get self.now.rows i ≡ Some result }
    {
        self.tlb.read(i)
    }

    /// HI.
    pub fn hi(&self) -> u32
        ensures { result ≡ self.now.hi }
    {
        self.hi
    }

    /// LO.
    pub fn lo(&self) -> u32
        ensures { result ≡ self.now.lo }
    {
        self.lo
    }

    /// The address of the current instruction.
    pub fn pc(&self) -> u32
        ensures { result ≡ self.now.pc }
    {
        self.pc
    }

    /// The address of the instruction behind the current one: in a delay slot the branch's target, if
    /// it is taken.
    pub fn following(&self) -> u32
        ensures { result ≡ self.now.following }
    {
        self.following
    }

    /// The parts of Cause beside the board's lines.
    pub fn cause_parts(&self) -> CauseParts
        ensures { result ≡ cause_parts_of self.now.control }
    {
        self.control.cause_parts()
    }

    /// Whether the current instruction is in a delay slot.
    pub fn in_slot(&self) -> bool
        ensures { result ≡ self.now.slot }
    {
        self.slot
    }

    /// What it is doing.
    pub fn state(&self) -> ProcessorState
        ensures { result ≡ self.now.state }
    {
        self.state
    }

    /// How many Steps it has made, idle ones included.
    pub fn count(&self) -> u64
        ensures { result ≡ self.now.count }
    {
        self.unticked + self.control.age()
    }
}
