//! Jumps and branches.

ghost use Rattle.std.specs.Prelude.{◌≡◌, ℕ, List};
ghost use Rattle.m161_isa.specs.declared.instr.Instr.TheVariants.{BranchEqual, BranchZero, Jump, JumpAndLinkRegister, JumpRegister};
ghost use Rattle.m161_isa.specs.Address.{branch_target, jump_target};
ghost use Rattle.m161_cpu.specs.Effect.{branch_flow, return_address};
ghost use Rattle.m161_cpu.specs.Processor.{with_register};
ghost use Rattle.m161_cpu.specs.helpers.Execute.{ExecutesInProcessor};

use crate::fault::{FaultKind, StepFault};
use crate::processor::{Cpu, Flow};
use m161_alu::{branch_taken, sign_extend_half};
use m161_isa::{EqualTest, Immediate, JumpOp, Reg, Target, ZeroTest};
use m161_tlb::Tlb;

// Where the processor continues after a branch.
#[inline(always)]
fn branch_flow(taken: bool, target: u32) -> Flow
    ensures { result ≡ branch_flow taken target }
{
    if taken {
        Flow::Taken(target)
    } else {
        Flow::NotTaken
    }
}

impl<T: Tlb> Cpu<T> {
    // The target of a branch at pc.
    #[inline(always)]
    fn branch_target(&self, offset: Immediate) -> u32
        ensures { result ≡ branch_target self.now.pc offset }
    {
        self.pc()
            .wrapping_add(4)
            .wrapping_add(sign_extend_half(offset.half()).wrapping_mul(4))
    }

    // The target of a jump at pc: the upper four bits are those of the next address.
    #[inline(always)]
    fn jump_target(&self, target: Target) -> u32
        ensures { result ≡ jump_target self.now.pc target }
    {
        (self.pc().wrapping_add(4) >> 28 << 28) + 4 * target.field()
    }

    // Puts the return address into a register.
    #[inline(always)]
    fn set_return_address(&mut self, register: Reg)
        ensures { self.new ≡ with_register register (return_address self.old) self.old }
    {
        let address = self.pc().wrapping_add(8);
        self.set_reg(register, address);
    }

    /// `jr`.
    #[inline(always)]
    #[tactic(auto, unfolding(crate::specs::helpers::Execute::change_by))]
    pub(crate) fn jump_register(&mut self, rs: Reg) -> Result<(), StepFault>
        ensures { ExecutesInProcessor (JumpRegister rs) self.old result self.new }
    {
        if self.in_slot() {
            return Err(StepFault::of(FaultKind::ReservedInstruction));
        }
        let target = self.reg(rs);
        self.advance(Flow::Taken(target));
        Ok(())
    }

    /// `jalr`: the target is read before the return address is written.
    #[inline(always)]
    #[tactic(auto, unfolding(crate::specs::helpers::Execute::change_by))]
    pub(crate) fn jump_and_link_register(&mut self, rd: Reg, rs: Reg) -> Result<(), StepFault>
        ensures { ExecutesInProcessor (JumpAndLinkRegister rd rs) self.old result self.new }
    {
        if self.in_slot() {
            return Err(StepFault::of(FaultKind::ReservedInstruction));
        }
        let target = self.reg(rs);
        self.set_return_address(rd);
        self.advance(Flow::Taken(target));
        Ok(())
    }

    /// `j` and `jal`.
    #[inline(always)]
    #[tactic(auto, unfolding(crate::specs::helpers::Execute::change_by))]
    pub(crate) fn jump(&mut self, op: JumpOp, target: Target) -> Result<(), StepFault>
        ensures { ExecutesInProcessor (Jump op target) self.old result self.new }
    {
        if self.in_slot() {
            return Err(StepFault::of(FaultKind::ReservedInstruction));
        }
        let address = self.jump_target(target);
        match op {
            JumpOp::Jump => {}
            JumpOp::JumpAndLink => self.set_return_address(Reg::new(31)),
        }
        self.advance(Flow::Taken(address));
        Ok(())
    }

    /// `beq` and `bne`.
    #[inline(always)]
    #[tactic(auto, unfolding(crate::specs::helpers::Execute::change_by))]
    pub(crate) fn branch_equal(
        &mut self,
        test: EqualTest,
        rs: Reg,
        rt: Reg,
        offset: Immediate,
    ) -> Result<(), StepFault>
        ensures { ExecutesInProcessor (BranchEqual test rs rt offset) self.old result self.new }
    {
        if self.in_slot() {
            return Err(StepFault::of(FaultKind::ReservedInstruction));
        }
        let taken = match test {
            EqualTest::Equal => self.reg(rs) == self.reg(rt),
            EqualTest::NotEqual => self.reg(rs) != self.reg(rt),
        };
        let flow = branch_flow(taken, self.branch_target(offset));
        self.advance(flow);
        Ok(())
    }

    /// Branches on a test against zero; the register is read before a return address is written.
    #[inline(always)]
    #[tactic(auto, unfolding(crate::specs::helpers::Execute::change_by))]
    pub(crate) fn branch_zero(
        &mut self,
        test: ZeroTest,
        rs: Reg,
        offset: Immediate,
    ) -> Result<(), StepFault>
        ensures { ExecutesInProcessor (BranchZero test rs offset) self.old result self.new }
    {
        if self.in_slot() {
            return Err(StepFault::of(FaultKind::ReservedInstruction));
        }
        let flow = branch_flow(branch_taken(test, self.reg(rs)), self.branch_target(offset));
        match test {
            ZeroTest::Less | ZeroTest::GreaterOrEqual | ZeroTest::LessOrEqual | ZeroTest::Greater =>
                {}
            ZeroTest::LessAndLink | ZeroTest::GreaterOrEqualAndLink => self.set_return_address(
                Reg::new(31),
            ),
        }
        self.advance(flow);
        Ok(())
    }
}
