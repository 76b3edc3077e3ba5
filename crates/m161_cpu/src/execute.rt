//! The instruction of a word.

ghost use Rattle.std.specs.Prelude.{Some, ◌≡◌, ◌^◌, ◌<◌, ◌≤◌, length};
ghost use Rattle.m161_bus.specs.Board.{IsUsed};
ghost use Rattle.m161_cpu.specs.Scene.{scene_of};
ghost use Rattle.m161_cpu.specs.Step.{change_in, misfit_kind};
ghost use Rattle.m161_cpu.specs.helpers.Execute.{change_by, Performs};

use crate::fault::{FaultKind, StepEnd, StepFault, settled, stopped};
use crate::links::Links;
use crate::processor::Cpu;
use m161_bus::{Board, Console};
use m161_decode::decode_in_step;
use m161_isa::{Coprocessor, Instr};
use m161_ram::Ram;
use m161_tlb::Tlb;

// The fault of a coprocessor that doesn't exist.
fn misfit_kind(unit: Coprocessor) -> FaultKind
    ensures { result ≡ misfit_kind (Some unit) }
{
    match unit {
        Coprocessor::One => FaultKind::Coprocessor1Unusable,
        Coprocessor::Two => FaultKind::Coprocessor2Unusable,
        Coprocessor::Three => FaultKind::Coprocessor3Unusable,
    }
}

impl<T: Tlb> Cpu<T> {
    /// Executes the instruction of a word that may be executed.
    #[inline(always)]
    #[tactic(auto, using(crate::proofs::Decoded::decoded))]
    pub(crate) fn perform<D: Console>(
        &mut self,
        word: u32,
        c: u32,
        ram: &mut Ram,
        board: &mut Board<D>,
        links: &mut Links,
        strict: bool,
    ) -> Result<(), StepEnd>
        requires processor { (c < board.old.state.processors) × (board.old.state.processors ≤ 32) }
        requires ram { length ram.old ≤ 2 ^ 29 }
        ensures change { Performs
            (change_in (scene_of self.old c ram.old board.old.state links.old strict) word)
            (scene_of self.old c ram.old board.old.state links.old strict) result
            (scene_of self.new c ram.new board.new.state links.new strict) }
        ensures board { IsUsed board.old board.new }
        ensures size { length ram.new ≡ length ram.old }
    {
        self.execute(&decode_in_step(word), c, ram, board, links, strict)
    }

    // Executes an instruction of the table.
    #[inline(always)]
    #[tactic(auto, using(crate::proofs::Decoded::misfits))]
    fn execute<D: Console>(
        &mut self,
        instr: &Instr,
        c: u32,
        ram: &mut Ram,
        board: &mut Board<D>,
        links: &mut Links,
        strict: bool,
    ) -> Result<(), StepEnd>
        requires processor { (c < board.old.state.processors) × (board.old.state.processors ≤ 32) }
        requires ram { length ram.old ≤ 2 ^ 29 }
        ensures change { Performs (change_by
            (scene_of self.old c ram.old board.old.state links.old strict) instr.now)
            (scene_of self.old c ram.old board.old.state links.old strict) result
            (scene_of self.new c ram.new board.new.state links.new strict) }
        ensures board { IsUsed board.old board.new }
        ensures size { length ram.new ≡ length ram.old }
    {
        match *instr {
            Instr::Shift { op, rd, rt, amount } => stopped(self.shift(op, rd, rt, amount)),
            Instr::ShiftVariable { op, rd, rt, rs } => stopped(self.shift_variable(op, rd, rt, rs)),
            Instr::Arith { op, rd, rs, rt } => stopped(self.arith(op, rd, rs, rt)),
            Instr::Immediate {
                op,
                rt,
                rs,
                immediate,
            } => stopped(self.immediate(op, rt, rs, immediate)),
            Instr::LoadUpper { rt, immediate } => stopped(self.load_upper(rt, immediate)),
            Instr::Multiply { op, rs, rt } => stopped(self.multiply(op, rs, rt)),
            Instr::MoveFrom { from, rd } => stopped(self.move_from(from, rd)),
            Instr::MoveTo { to, rs } => stopped(self.move_to(to, rs)),
            Instr::JumpRegister { rs } => stopped(self.jump_register(rs)),
            Instr::JumpAndLinkRegister { rd, rs } => stopped(self.jump_and_link_register(rd, rs)),
            Instr::Jump { op, target } => stopped(self.jump(op, target)),
            Instr::BranchZero { test, rs, offset } => stopped(self.branch_zero(test, rs, offset)),
            Instr::BranchEqual {
                test,
                rs,
                rt,
                offset,
            } => stopped(self.branch_equal(test, rs, rt, offset)),
            Instr::Load {
                op,
                rt,
                offset,
                base,
            } => stopped(self.load(op, rt, offset, base, c, ram, board, links)),
            Instr::Store {
                op,
                rt,
                offset,
                base,
            } => self.store(op, rt, offset, base, c, ram, board, links),
            Instr::Plain(op) => settled(self.plain(op, c, links, strict)),
            Instr::MoveFromCop0 { rt, register } => {
                self.read_cop0(rt, register, board.lines(c));
                Ok(())
            }
            Instr::MoveToCop0 { rt, register } => {
                self.write_cop0(rt, register);
                Ok(())
            }
            Instr::Absent(unit) => Err(StepEnd::Fault(StepFault::of(misfit_kind(unit)))),
            Instr::Reserved(_) => Err(StepEnd::Fault(StepFault::of(
                FaultKind::ReservedInstruction,
            ))),
        }
    }
}
