//! Rows that compute a register from registers and immediates.

ghost use Rattle.std.specs.Prelude.{◌≡◌, ◌+◌, ◌*◌, ◌/◌, ◌%◌, ◌^◌, ◌<◌, ◌≤◌, ℕ};
ghost use Rattle.m161_isa.specs.declared.instr.Instr.TheVariants.{Arith, Immediate as ByImmediate, LoadUpper, Shift, ShiftVariable};
ghost use Rattle.m161_cpu.specs.Effect.{write};
ghost use Rattle.m161_cpu.specs.Scene.{Around, result_map, scene};
ghost use Rattle.m161_cpu.specs.helpers.Execute.{change_by, ExecutesInProcessor, Executes, Writes, WritesFrom};

use crate::fault::{FaultKind, StepFault};
use crate::processor::Cpu;
use m161_alu::{Signedness, add_checked, set_on_less, shift, sign_extend_half, sub_checked};
use m161_isa::{Amount, ArithOp, Immediate, ImmediateOp, Reg, ShiftOp};
use m161_tlb::Tlb;

// What a row on two registers writes to a third.
#[inline(always)]
#[tactic(auto, unfolding(crate::specs::helpers::Execute::change_by))]
fn arithmetic(op: ArithOp, s: u32, t: u32) -> Result<u32, StepFault>
    ensures { Writes (Arith op) s t result }
{
    match op {
        ArithOp::Add => add_checked(s, t).ok_or(StepFault::of(FaultKind::Overflow)),
        ArithOp::Addu => Ok(s.wrapping_add(t)),
        ArithOp::Sub => sub_checked(s, t).ok_or(StepFault::of(FaultKind::Overflow)),
        ArithOp::Subu => Ok(s.wrapping_sub(t)),
        ArithOp::And => Ok(s & t),
        ArithOp::Or => Ok(s | t),
        ArithOp::Xor => Ok(s ^ t),
        ArithOp::Nor => Ok(!(s | t)),
        ArithOp::Slt => Ok(u32::from(set_on_less(Signedness::Signed, s, t))),
        ArithOp::Sltu => Ok(u32::from(set_on_less(Signedness::Unsigned, s, t))),
    }
}

// What a row on a register and an immediate writes.
#[inline(always)]
#[tactic(auto, unfolding(crate::specs::helpers::Execute::change_by))]
fn with_immediate(op: ImmediateOp, s: u32, immediate: Immediate) -> Result<u32, StepFault>
    ensures { WritesFrom (λ d a. ByImmediate op d a immediate) s result }
{
    let signed = sign_extend_half(immediate.half());
    let unsigned = u32::from(immediate.half());
    match op {
        ImmediateOp::Addi => add_checked(s, signed).ok_or(StepFault::of(FaultKind::Overflow)),
        ImmediateOp::Addiu => Ok(s.wrapping_add(signed)),
        ImmediateOp::Slti => Ok(u32::from(set_on_less(Signedness::Signed, s, signed))),
        ImmediateOp::Sltiu => Ok(u32::from(set_on_less(Signedness::Unsigned, s, signed))),
        ImmediateOp::Andi => Ok(s & unsigned),
        ImmediateOp::Ori => Ok(s | unsigned),
        ImmediateOp::Xori => Ok(s ^ unsigned),
    }
}

impl<T: Tlb> Cpu<T> {
    /// A shift by an amount.
    #[inline(always)]
    #[tactic(auto, unfolding(crate::specs::helpers::Execute::change_by))]
    pub(crate) fn shift(
        &mut self,
        op: ShiftOp,
        rd: Reg,
        rt: Reg,
        amount: Amount,
    ) -> Result<(), StepFault>
        ensures { ExecutesInProcessor (Shift op rd rt amount) self.old result self.new }
    {
        let word = shift(op, self.reg(rt), amount);
        self.set(rd, word);
        Ok(())
    }

    /// A shift by the last five bits of a register.
    #[inline(always)]
    #[tactic(auto, unfolding(crate::specs::helpers::Execute::change_by))]
    pub(crate) fn shift_variable(
        &mut self,
        op: ShiftOp,
        rd: Reg,
        rt: Reg,
        rs: Reg,
    ) -> Result<(), StepFault>
        ensures { ExecutesInProcessor (ShiftVariable op rd rt rs) self.old result self.new }
    {
        let amount = Amount::new((self.reg(rs) % 32_u32) as u8);
        let word = shift(op, self.reg(rt), amount);
        self.set(rd, word);
        Ok(())
    }

    /// A row on two registers.
    #[inline(always)]
    pub(crate) fn arith(&mut self, op: ArithOp, rd: Reg, rs: Reg, rt: Reg) -> Result<(), StepFault>
        ensures { ExecutesInProcessor (Arith op rd rs rt) self.old result self.new }
    {
        self.set_if(rd, arithmetic(op, self.reg(rs), self.reg(rt)))
    }

    /// A row on a register and an immediate.
    #[inline(always)]
    pub(crate) fn immediate(
        &mut self,
        op: ImmediateOp,
        rt: Reg,
        rs: Reg,
        immediate: Immediate,
    ) -> Result<(), StepFault>
        ensures { ExecutesInProcessor (ByImmediate op rt rs immediate) self.old result self.new }
    {
        self.set_if(rt, with_immediate(op, self.reg(rs), immediate))
    }

    /// `lui`.
    #[inline(always)]
    #[tactic(auto, unfolding(crate::specs::helpers::Execute::change_by))]
    pub(crate) fn load_upper(&mut self, rt: Reg, immediate: Immediate) -> Result<(), StepFault>
        ensures { ExecutesInProcessor (LoadUpper rt immediate) self.old result self.new }
    {
        self.set(rt, u32::from(immediate.half()) << 16);
        Ok(())
    }

    // Writes a register, if there is something to write.
    #[inline(always)]
    fn set_if(&mut self, register: Reg, value: Result<u32, StepFault>) -> Result<(), StepFault>
        ensures { (a : Around) → Executes (result_map (write register) value)
            (scene self.old a) result
            (scene self.new a) }
    {
        let word = value?;
        self.set(register, word);
        Ok(())
    }
}
