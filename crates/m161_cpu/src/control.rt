//! Coprocessor 0 and the TLB.

ghost use Rattle.std.specs.Prelude.{◌≡◌, ◌≢◌, ◌<◌, ℕ, List, Ok, Some, IfSome};
ghost use Rattle.m161_isa.specs.declared.instr.Instr.TheVariants.{MoveFromCop0, MoveToCop0, Plain};
ghost use Rattle.m161_bus.specs.Board.{BoardState, interrupt_lines};
ghost use Rattle.m161_cpu.specs.Effect.{entry_row, after_probe, row_indexed};
ghost use Rattle.m161_cpu.specs.Processor.{with_control, with_row};
ghost use Rattle.m161_cpu.specs.helpers.Execute.{change_by, ExecutesInProcessor, Executes, Settles, WritesRow};
ghost use Rattle.m161_cpu.specs.Scene.{Around, scene_of, scene};
ghost use Rattle.m161_cpu.specs.Step.{conflict_in};
ghost use Rattle.m161_tlb.specs.Rows.{find_overlap};

use crate::fault::{FaultKind, StepEnd, StepFault};
use crate::links::Links;
use crate::processor::{Cpu, Flow};
use m161_isa::{PlainOp, Reg};
use m161_tlb::{Row, Tlb};

impl<T: Tlb> Cpu<T> {
    /// `mfc0`. `lines` are the board's lines of this processor.
    #[cold]
    #[inline(never)]
    #[tactic(auto, unfolding(crate::specs::helpers::Execute::change_by))]
    pub(crate) fn read_cop0(&mut self, rt: Reg, register: Reg, lines: u32)
        ensures { (a : Around) → interrupt_lines a.number a.board ≡ lines
            → Executes (change_by (scene self.old a) (MoveFromCop0 rt register))
            (scene self.old a) (Ok result)
            (scene self.new a) }
    {
        let word = self.control.read(register, lines);
        self.set(rt, word);
    }

    /// `mtc0`.
    #[cold]
    #[inline(never)]
    #[tactic(auto, unfolding(crate::specs::helpers::Execute::change_by))]
    pub(crate) fn write_cop0(&mut self, rt: Reg, register: Reg)
        ensures { ExecutesInProcessor (MoveToCop0 rt register) self.old (Ok result) self.new }
    {
        let word = self.reg(rt);
        self.control.write(register, word);
        self.advance(Flow::Next);
    }

    /// A row without operands, on a strict machine or not.
    #[inline(always)]
    #[tactic(auto, unfolding(crate::specs::helpers::Execute::change_by))]
    pub(crate) fn plain(
        &mut self,
        op: PlainOp,
        c: u32,
        links: &mut Links,
        strict: bool,
    ) -> Result<(), StepEnd>
        requires { c < 32 }
        ensures { (m : List ℕ) (b : BoardState)
            → Settles (change_by (scene_of self.old c m b links.old strict) (Plain op))
            (scene_of self.old c m b links.old strict) result
            (scene_of self.new c m b links.new strict) }
    {
        let executed = match op {
            PlainOp::Sync => Ok(()),
            PlainOp::Syscall => return Err(StepEnd::Fault(StepFault::of(FaultKind::SystemCall))),
            PlainOp::Break => return Err(StepEnd::Fault(StepFault::of(FaultKind::Breakpoint))),
            PlainOp::Tlbr => {
                self.read_row();
                Ok(())
            }
            PlainOp::Tlbwi => {
                let i = self.control.index_row();
                self.write_row(i, strict)
            }
            PlainOp::Tlbwr => {
                let i = self.control.random_row();
                self.write_row(i, strict)
            }
            PlainOp::Tlbp => {
                self.probe();
                Ok(())
            }
            PlainOp::Rfe => {
                self.control.rfe();
                links.unlink(c);
                Ok(())
            }
            PlainOp::Wait => {
                self.wait();
                Ok(())
            }
        };
        self.advance(Flow::Next);
        executed
    }

    // `tlbr`.
    #[cold]
    #[inline(never)]
    fn read_row(&mut self)
        ensures { self.new ≡ with_control (row_indexed self.old) self.old }
    {
        let row = self.tlb.read(self.control.index_row());
        self.control.set_tlb_row(row.entry_hi(), row.entry_lo());
    }

    // `tlbwi` and `tlbwr`, of the row that they write. On a strict machine another row that this
    // would overlap is a conflict.
    #[cold]
    #[inline(never)]
    fn write_row(&mut self, i: u8, strict: bool) -> Result<(), StepEnd>
        requires { i < 64 }
        ensures { WritesRow (conflict_in strict self.old.rows
            (Some (i, entry_row self.old.control)))
            i (entry_row self.old.control) self.old result self.new }
    {
        if strict {
            if let Some(other) = self.overlapped(i) {
                return Err(StepEnd::Conflict { row: i, other });
            }
        }
        self.replace_row(i);
        Ok(())
    }

    // The lowest row other than row `i` that the row in EntryHi and EntryLo overlaps.
    fn overlapped(&self, i: u8) -> Option<u8>
        ensures lowest { result ≡ find_overlap self.now.rows i (entry_row self.now.control) }
        ensures within { IfSome result (λ j. (j < 64) × (j ≢ i)) }
    {
        let row = Row::from_words(self.control.entry_hi(), self.control.entry_lo());
        self.tlb.overlap(i, row)
    }

    // Writes EntryHi and EntryLo into a row. What was kept of the old row's page and of the new one's
    // needn't hold any more.
    fn replace_row(&mut self, i: u8)
        requires { i < 64 }
        ensures { self.new ≡ with_row i (entry_row self.old.control) self.old }
    {
        let row = Row::from_words(self.control.entry_hi(), self.control.entry_lo());
        let old = self.tlb.read(i).page.number();
        let new = row.page.number();
        self.fetches.forget(old, new);
        self.loads.forget(old, new);
        self.stores.forget(old, new);
        self.tlb.write(i, row);
    }

    // `tlbp`.
    #[cold]
    #[inline(never)]
    fn probe(&mut self)
        ensures { self.new ≡ with_control (after_probe self.old) self.old }
    {
        let row = self
            .tlb
            .find(self.control.entry_hi() >> 12, self.control.identifier());
        self.control.set_probe(row);
    }
}
