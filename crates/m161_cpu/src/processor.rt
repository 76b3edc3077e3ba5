//! A processor: its registers, its state and the count of its Steps.

ghost use Rattle.std.specs.Prelude.{◌≡◌, ◌+◌, ◌-◌, ◌^◌, ◌<◌, ◌≤◌, ◌%◌, if◌then◌else◌, length, slice_index, Ok, Err};
ghost use Rattle.m161_bus.specs.Board.{interrupt_lines};
ghost use Rattle.m161_cop0.specs.Trap.{IsVector};
ghost use Rattle.m161_cpu.specs.Processor.{stopped_processor, started_processor, with_register, with_hi_lo, with_flow};
ghost use Rattle.m161_cpu.specs.Scene.{Around, scene};
ghost use Rattle.m161_cpu.specs.Fault.{vector, with_trap};
ghost use Rattle.m161_cpu.specs.Step.{step_of, tick};
ghost use Rattle.m161_cpu.specs.helpers.Execute.{idle_or_running};

mod restore;
mod views;

use crate::fault::StepFault;
use crate::kept::Kept;
use m161_alu::HiLoPair;
use m161_cop0::{Cop0, Exception, Trap};
use m161_isa::Reg;
use m161_tlb::Tlb;
pub use restore::ProcessorParts;
use std::marker::Model;

/// What a processor is doing.
#[derive(Clone, Copy, Debug, PartialEq, Eq)]
pub enum ProcessorState {
    /// It was never started.
    Stopped,
    /// It executes instructions.
    Running,
    /// It waits until an interrupt is pending.
    Waiting,
}

/// The outcome of an event.
#[derive(Clone, Copy, Debug, PartialEq, Eq)]
pub enum Outcome {
    /// An instruction was executed.
    Ran,
    /// A trap was entered.
    Trapped {
        /// The exception.
        code: Exception,
        /// The address at which the processor continues.
        vector: u32,
    },
    /// The processor is stopped or waiting: no instruction was executed.
    Idle,
    /// An instruction was executed that switched the machine off.
    PoweredOff,
    /// A `tlbwi` or `tlbwr` of a strict machine didn't write its row, which would have overlapped
    /// another one, and switched the machine off.
    Conflict {
        /// The row that was to be written: 0 to 63.
        row: u8,
        /// The lowest other row that it would overlap: 0 to 63.
        other: u8,
    },
    /// An input of a device was accepted; never the outcome of a Step.
    Taken,
}

/// Where a processor continues after an instruction.
#[derive(Clone, Copy)]
pub(crate) enum Flow {
    /// At the following address.
    Next,
    /// At the following address, a delay slot.
    NotTaken,
    /// At the following address, a delay slot, and then at this one.
    Taken(u32),
}

/// A processor, over any TLB.
#[derive(Drop)]
pub struct Cpu<T: Tlb> {
    registers: [u32; 32],
    hi: u32,
    lo: u32,
    pc: u32,
    following: u32,
    slot: bool,
    state: ProcessorState,
    // The Steps that didn't tick: those before the start.
    unticked: u64,
    pub(crate) control: Cop0,
    pub(crate) tlb: T,
    // Translations that were found. They are no part of the processor's value.
    pub(crate) fetches: Kept,
    pub(crate) loads: Kept,
    pub(crate) stores: Kept,
}

impl<T: Tlb> Model for Cpu<T> {
    ghost use Rattle.std.specs.Prelude.{◌≡◌, ◌+◌, ◌<◌, ◌^◌, length, slice_index};
    ghost use Rattle.m161_cpu.specs.Processor.{Processor};
    ghost use Rattle.m161_cpu.specs.declared.fault.Access.TheVariants.{Fetch, Load, Store};
    ghost use Rattle.m161_cpu.specs.Kept.{AreKept};

    ghost Value = { Processor };

    ghost view = { λ c. record {
      registers = c.registers;
      hi = c.hi;
      lo = c.lo;
      pc = c.pc;
      following = c.following;
      slot = c.slot;
      control = c.control;
      rows = T.rows c.tlb;
      state = c.state;
      count = c.unticked + c.control.age;
    } };

    ghost invariant = { λ c.
        (length c.registers ≡ 32)
        × (slice_index c.registers 0 ≡ 0)
        × (c.unticked + c.control.age < 2 ^ 64)
        × AreKept (T.rows c.tlb) Fetch c.fetches
        × AreKept (T.rows c.tlb) Load c.loads
        × AreKept (T.rows c.tlb) Store c.stores };
}

impl<T: Tlb> Cpu<T> {
    /// A processor that was never started.
    pub fn new() -> Cpu<T>
        ensures { result ≡ stopped_processor }
    {
        Cpu {
            registers: [0; 32],
            hi: 0,
            lo: 0,
            pc: 0,
            following: 0,
            slot: false,
            state: ProcessorState::Stopped,
            unticked: 0,
            control: Cop0::new(),
            tlb: T::empty(),
            fetches: Kept::none(),
            loads: Kept::none(),
            stores: Kept::none(),
        }
    }

    /// A processor in the same state, which looks translations up anew. Does not allocate.
    #[inline(never)]
    pub fn copy(&self) -> Cpu<T>
        ensures { result ≡ self.now }
    {
        Cpu {
            registers: self.registers,
            hi: self.hi,
            lo: self.lo,
            pc: self.pc,
            following: self.following,
            slot: self.slot,
            state: self.state,
            unticked: self.unticked,
            control: self.control.copy(),
            tlb: self.tlb.copy(),
            fetches: Kept::none(),
            loads: Kept::none(),
            stores: Kept::none(),
        }
    }

    /// Starts it at an address, with these words in registers 4 and 29. The count of its Steps
    /// stays.
    pub fn start(&mut self, pc: u32, r4: u32, r29: u32)
        ensures { self.new ≡ started_processor pc r4 r29 self.old.count }
    {
        let count = self.count();
        self.registers = [0; 32];
        self.registers[4] = r4;
        self.registers[29] = r29;
        self.hi = 0;
        self.lo = 0;
        self.pc = pc;
        self.following = pc.wrapping_add(4);
        self.slot = false;
        self.state = ProcessorState::Running;
        self.unticked = count;
        self.control = Cop0::new();
        self.tlb.reset();
        self.fetches = Kept::none();
        self.loads = Kept::none();
        self.stores = Kept::none();
    }

    /// Writes a register; a write to register 0 is lost.
    #[inline(always)]
    pub(crate) fn set_reg(&mut self, register: Reg, word: u32)
        ensures { self.new ≡ with_register register word self.old }
    {
        let r = register.index();
        if r != 0 {
            self.registers[r] = word;
        }
    }

    /// Writes HI and LO.
    #[inline(always)]
    pub(crate) fn set_hi_lo(&mut self, pair: HiLoPair)
        ensures { self.new ≡ with_hi_lo pair self.old }
    {
        self.hi = pair.hi;
        self.lo = pair.lo;
    }

    /// Waits until an interrupt is pending.
    pub(crate) fn wait(&mut self)
        ensures { self.new ≡ record self.old { state = ProcessorState.Waiting } }
    {
        self.state = ProcessorState::Waiting;
    }

    /// Writes a register, and goes on to the next instruction.
    #[inline(always)]
    pub(crate) fn set(&mut self, register: Reg, word: u32)
        ensures { self.new ≡ with_flow Flow.Next (with_register register word self.old) }
    {
        self.set_reg(register, word);
        self.advance(Flow::Next);
    }

    /// The end of a Step of a started processor.
    #[inline(always)]
    pub(crate) fn tick(&mut self)
        requires { self.old.count < 2 ^ 64 - 1 }
        ensures { self.new ≡ tick self.old }
    {
        self.control.tick();
    }

    /// Whether it rests in this Step. `lines` are the board's lines of this processor. A stopped
    /// one only counts; a waiting one ticks, or runs again if an interrupt is pending.
    #[inline(always)]
    #[tactic(auto, unfolding(crate::specs::Step::step_of))]
    pub(crate) fn rests(&mut self, lines: u32) -> bool
        requires { self.old.count < 2 ^ 64 - 1 }
        ensures step { (a : Around) → interrupt_lines a.number a.board ≡ lines
            → step_of (scene self.old a) ≡ idle_or_running result (scene self.new a) }
        ensures counted { self.new.count ≡ self.old.count + (if result then 1 else 0) }
    {
        self.state != ProcessorState::Running && self.rests_elsewhere(lines)
    }

    #[cold]
    #[inline(never)]
    #[tactic(auto, unfolding(crate::specs::Step::step_of))]
    fn rests_elsewhere(&mut self, lines: u32) -> bool
        requires { self.old.count < 2 ^ 64 - 1 }
        ensures step { (a : Around) → interrupt_lines a.number a.board ≡ lines
            → step_of (scene self.old a) ≡ idle_or_running result (scene self.new a) }
        ensures counted { self.new.count ≡ self.old.count + (if result then 1 else 0) }
    {
        match self.state {
            ProcessorState::Stopped => {
                self.unticked += 1;
                true
            }
            ProcessorState::Running => false,
            ProcessorState::Waiting => {
                if self.control.pending(lines) {
                    self.state = ProcessorState::Running;
                    false
                } else {
                    self.tick();
                    true
                }
            }
        }
    }

    /// Enters a trap. Returns the address at which it continues.
    #[cold]
    #[inline(never)]
    pub(crate) fn enter(&mut self, fault: StepFault) -> u32
        ensures processor { self.new ≡ with_trap fault self.old }
        ensures vector { result ≡ vector fault self.old }
        ensures place { IsVector result }
    {
        let trap = Trap {
            code: fault.kind.exception(),
            unit: fault.kind.unit(),
            user_miss: fault.kind.is_user_miss(),
            pc: self.pc,
            slot: self.slot,
            address: fault.address,
        };
        let vector = self.control.enter(trap);
        self.pc = vector;
        self.following = vector + 4;
        self.slot = false;
        vector
    }

    /// Goes on to the next instruction.
    #[inline(always)]
    pub(crate) fn advance(&mut self, flow: Flow)
        ensures { self.new ≡ with_flow flow self.old }
    {
        self.pc = self.following;
        match flow {
            Flow::Next => {
                self.following = self.following.wrapping_add(4);
                self.slot = false;
            }
            Flow::NotTaken => {
                self.following = self.following.wrapping_add(4);
                self.slot = true;
            }
            Flow::Taken(target) => {
                self.following = target;
                self.slot = true;
            }
        }
    }
}
