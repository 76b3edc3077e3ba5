//! A processor made anew from what it holds.

ghost use Rattle.std.specs.Prelude.{◌≡◌};
ghost use Rattle.m161_cpu.specs.Restore.{IsProcessor, restored_processor};

use crate::kept::Kept;
use crate::processor::{Cpu, ProcessorState};
use m161_cop0::Cop0Parts;
use m161_tlb::{Row, Tlb};

/// What a processor holds beside the rows of its TLB.
#[derive(Clone, Copy)]
pub struct ProcessorParts {
    /// The general registers; register 0 is zero.
    pub registers: [u32; 32],
    /// HI.
    pub hi: u32,
    /// LO.
    pub lo: u32,
    /// The address of the current instruction.
    pub pc: u32,
    /// The address of the instruction behind it.
    pub following: u32,
    /// Whether the current instruction is in a delay slot.
    pub slot: bool,
    /// What it is doing.
    pub state: ProcessorState,
    /// Coprocessor 0.
    pub control: Cop0Parts,
}

impl<T: Tlb> Cpu<T> {
    /// Makes it the processor that holds this, with these rows of the TLB. All Steps that it made
    /// are the ticks that Random tells: at most 55. Does not allocate.
    #[cold]
    #[inline(never)]
    pub fn restore(&mut self, parts: &ProcessorParts, rows: &[Row; 64])
        requires { IsProcessor parts.now }
        ensures { self.new ≡ restored_processor parts.now rows.now }
    {
        self.registers = parts.registers;
        self.hi = parts.hi;
        self.lo = parts.lo;
        self.pc = parts.pc;
        self.following = parts.following;
        self.slot = parts.slot;
        self.state = parts.state;
        self.unticked = 0;
        self.control.restore(&parts.control);
        restore_rows(&mut self.tlb, rows);
        self.fetches = Kept::none();
        self.loads = Kept::none();
        self.stores = Kept::none();
    }
}

// Makes the rows of a TLB these.
fn restore_rows<T: Tlb>(tlb: &mut T, rows: &[Row; 64])
    ensures { T.rows tlb.new ≡ rows.now }
{
    tlb.reset();
    for i in 0..64u8 {
        tlb.write(i, rows[i as usize]);
    }
}
