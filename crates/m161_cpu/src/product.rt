//! HI and LO.

ghost use Rattle.std.specs.Prelude.{◌≡◌, ℕ, List};
ghost use Rattle.m161_isa.specs.declared.instr.Instr.TheVariants.{MoveFrom, MoveTo, Multiply};
ghost use Rattle.m161_cpu.specs.helpers.Execute.{ExecutesInProcessor};

use crate::fault::StepFault;
use crate::processor::{Cpu, Flow};
use m161_alu::{HiLoPair, Signedness, div, mult};
use m161_isa::{HiLo, MultiplyOp, Reg};
use m161_tlb::Tlb;

impl<T: Tlb> Cpu<T> {
    /// `mult`, `multu`, `div`, `divu`.
    #[inline(always)]
    #[tactic(auto, unfolding(crate::specs::helpers::Execute::change_by))]
    pub(crate) fn multiply(&mut self, op: MultiplyOp, rs: Reg, rt: Reg) -> Result<(), StepFault>
        ensures { ExecutesInProcessor (Multiply op rs rt) self.old result self.new }
    {
        let s = self.reg(rs);
        let t = self.reg(rt);
        let pair = match op {
            MultiplyOp::Mult => mult(Signedness::Signed, s, t),
            MultiplyOp::Multu => mult(Signedness::Unsigned, s, t),
            MultiplyOp::Div => div(Signedness::Signed, s, t),
            MultiplyOp::Divu => div(Signedness::Unsigned, s, t),
        };
        self.set_hi_lo(pair);
        self.advance(Flow::Next);
        Ok(())
    }

    /// `mfhi` and `mflo`.
    #[inline(always)]
    #[tactic(auto, unfolding(crate::specs::helpers::Execute::change_by))]
    pub(crate) fn move_from(&mut self, from: HiLo, rd: Reg) -> Result<(), StepFault>
        ensures { ExecutesInProcessor (MoveFrom from rd) self.old result self.new }
    {
        let word = match from {
            HiLo::Hi => self.hi(),
            HiLo::Lo => self.lo(),
        };
        self.set(rd, word);
        Ok(())
    }

    /// `mthi` and `mtlo`.
    #[inline(always)]
    #[tactic(auto, unfolding(crate::specs::helpers::Execute::change_by))]
    pub(crate) fn move_to(&mut self, to: HiLo, rs: Reg) -> Result<(), StepFault>
        ensures { ExecutesInProcessor (MoveTo to rs) self.old result self.new }
    {
        let word = self.reg(rs);
        let (hi, lo) = match to {
            HiLo::Hi => (word, self.lo()),
            HiLo::Lo => (self.hi(), word),
        };
        self.set_hi_lo(HiLoPair { hi, lo });
        self.advance(Flow::Next);
        Ok(())
    }
}
