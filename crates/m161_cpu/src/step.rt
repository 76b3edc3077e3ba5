//! One Step.

ghost use Rattle.std.specs.Prelude.{◌≡◌, ◌+◌, ◌-◌, ◌^◌, ◌<◌, ◌≤◌, None, length, true};
ghost use Rattle.m161_tlb.specs.Rows.{AreApart};
ghost use Rattle.m161_bus.specs.Board.{IsUsed, interrupt_lines};
ghost use Rattle.m161_cpu.specs.Links.{End, links_after};
ghost use Rattle.m161_cpu.specs.Scene.{scene_of};
ghost use Rattle.m161_cop0.specs.Trap.{IsVector};
ghost use Rattle.m161_cpu.specs.Fault.{exception_of, vector, with_trap};
ghost use Rattle.m161_cpu.specs.declared.processor.Outcome.TheVariants.{Trapped};
ghost use Rattle.m161_cpu.specs.helpers.Execute.{Performs};
ghost use Rattle.m161_cpu.specs.Step.{change_of_step, executable_word, is_unusable, running_step, step_of, tick, IsOfStep, Leaves};

use crate::fault::{Access, FaultKind, StepEnd, StepFault};
use crate::links::Links;
use crate::processor::{Cpu, Outcome};
use m161_bus::{Board, Console};
use m161_ram::Ram;
use m161_tlb::Tlb;

impl<T: Tlb> Cpu<T> {
    /// One Step of processor `c`, on a strict machine or not. Does not allocate.
    #[inline(always)]
    pub fn step<D: Console>(
        &mut self,
        c: u32,
        ram: &mut Ram,
        board: &mut Board<D>,
        links: &mut Links,
        strict: bool,
    ) -> Outcome
        requires processor { c < board.old.state.processors }
        requires ram { length ram.old ≤ 2 ^ 29 }
        requires room { self.old.count < 2 ^ 64 - 1 }
        ensures step { Leaves (step_of (scene_of self.old c ram.old board.old.state links.old strict))
            result (scene_of self.new c ram.new board.new.state links.new strict) }
        ensures counted { self.new.count ≡ self.old.count + 1 }
        ensures size { length ram.new ≡ length ram.old }
        ensures board { IsUsed board.old board.new }
        ensures proper { IsOfStep result }
        // On a strict machine no two rows of its TLB come to overlap.
        ensures apart { strict ≡ true → AreApart self.old.rows → AreApart self.new.rows }
        // A link's unit, a word or a line, never changes.
        ensures unit { links.new.unit ≡ links.old.unit }
    {
        self.rest_or_run(c, ram, board, links, strict)
    }

    #[inline(always)]
    fn rest_or_run<D: Console>(
        &mut self,
        c: u32,
        ram: &mut Ram,
        board: &mut Board<D>,
        links: &mut Links,
        strict: bool,
    ) -> Outcome
        requires processor { c < board.old.state.processors }
        requires ram { length ram.old ≤ 2 ^ 29 }
        requires room { self.old.count < 2 ^ 64 - 1 }
        ensures step { Leaves
            (step_of (scene_of self.old c ram.old board.old.state links.old strict))
            result (scene_of self.new c ram.new board.new.state links.new strict) }
        ensures counted { self.new.count ≡ self.old.count + 1 }
        ensures size { length ram.new ≡ length ram.old }
        ensures board { IsUsed board.old board.new }
        ensures proper { IsOfStep result }
    {
        let lines = board.lines(c);
        if self.rests(lines) {
            return Outcome::Idle;
        }
        self.running_step(c, lines, ram, board, links, strict)
    }

    // One Step of a processor that doesn't rest.
    #[inline(always)]
    fn running_step<D: Console>(
        &mut self,
        c: u32,
        lines: u32,
        ram: &mut Ram,
        board: &mut Board<D>,
        links: &mut Links,
        strict: bool,
    ) -> Outcome
        requires processor { (c < board.old.state.processors) × (board.old.state.processors ≤ 32) }
        requires lines { lines ≡ interrupt_lines c board.old.state }
        requires ram { length ram.old ≤ 2 ^ 29 }
        requires room { self.old.count < 2 ^ 64 - 1 }
        ensures step { Leaves (running_step (scene_of self.old c ram.old board.old.state links.old strict))
            result (scene_of self.new c ram.new board.new.state links.new strict) }
        ensures counted { self.new.count ≡ self.old.count + 1 }
        ensures size { length ram.new ≡ length ram.old }
        ensures board { IsUsed board.old board.new }
        ensures proper { IsOfStep result }
    {
        match self.execute_next(c, lines, ram, board, links, strict) {
            Ok(()) => {
                self.tick();
                Outcome::Ran
            }
            Err(StepEnd::PoweredOff) => {
                self.tick();
                Outcome::PoweredOff
            }
            Err(StepEnd::Conflict { row, other }) => {
                board.switch_off();
                self.tick();
                Outcome::Conflict { row, other }
            }
            Err(StepEnd::Fault(fault)) => self.trap_aside(fault, c, links),
        }
    }

    // For LLVM: a call of `trap`, so that only this function has a stack slot for the fault.
    #[inline(always)]
    fn trap_aside(&mut self, fault: StepFault, c: u32, links: &mut Links) -> Outcome
        requires processor { c < 32 }
        requires room { self.old.count < 2 ^ 64 - 1 }
        ensures outcome { result ≡ Trapped (exception_of fault.kind) (vector fault self.old) }
        ensures processor { self.new ≡ tick (with_trap fault self.old) }
        ensures links { links.new ≡ links_after c End None links.old }
        ensures counted { self.new.count ≡ self.old.count + 1 }
        ensures proper { IsOfStep result }
    {
        let StepFault { kind, address } = fault;
        let vector = self.trap(StepFault { kind, address }, c, links);
        Outcome::Trapped {
            code: kind.exception(),
            vector,
        }
    }

    // Ends a Step that traps. Returns the address at which the processor continues.
    #[cold]
    #[inline(never)]
    fn trap(&mut self, fault: StepFault, c: u32, links: &mut Links) -> u32
        requires processor { c < 32 }
        requires room { self.old.count < 2 ^ 64 - 1 }
        ensures vector { result ≡ vector fault self.old }
        ensures processor { self.new ≡ tick (with_trap fault self.old) }
        ensures links { links.new ≡ links_after c End None links.old }
        ensures counted { self.new.count ≡ self.old.count + 1 }
        ensures place { IsVector result }
    {
        links.unlink(c);
        let vector = self.enter(fault);
        self.tick();
        vector
    }

    // Looks for an interrupt, fetches an instruction and executes it.
    #[inline(always)]
    #[tactic(auto, unfolding(crate::specs::Step::change_of_step))]
    fn execute_next<D: Console>(
        &mut self,
        c: u32,
        lines: u32,
        ram: &mut Ram,
        board: &mut Board<D>,
        links: &mut Links,
        strict: bool,
    ) -> Result<(), StepEnd>
        requires processor { (c < board.old.state.processors) × (board.old.state.processors ≤ 32) }
        requires lines { lines ≡ interrupt_lines c board.old.state }
        requires ram { length ram.old ≤ 2 ^ 29 }
        ensures change { Performs
            (change_of_step (scene_of self.old c ram.old board.old.state links.old strict))
            (scene_of self.old c ram.old board.old.state links.old strict) result
            (scene_of self.new c ram.new board.new.state links.new strict) }
        ensures board { IsUsed board.old board.new }
        ensures size { length ram.new ≡ length ram.old }
    {
        if self.control.interrupts(lines) {
            return Err(StepEnd::Fault(StepFault::of(FaultKind::Interrupt)));
        }
        let word = self.fetch(ram)?;
        self.perform(word, c, ram, board, links, strict)
    }

    // The word at pc, if the processor may execute it. By kseg0 in kernel mode it may execute any.
    #[inline(always)]
    #[tactic(auto, using(crate::proofs::Fetched::in_kernel_mode))]
    fn fetch(&mut self, ram: &Ram) -> Result<u32, StepFault>
        requires ram { length ram.now ≤ 2 ^ 29 }
        ensures same { self.new ≡ self.old }
        ensures word { result ≡ executable_word ram.now self.old }
    {
        match self.direct(4, self.pc(), ram.size()) {
            Some(at) => Ok(ram.word(at)),
            None => self.fetch_mapped(ram),
        }
    }

    // The same by a translation that is kept.
    #[inline(always)]
    fn fetch_mapped(&mut self, ram: &Ram) -> Result<u32, StepFault>
        ensures same { self.new ≡ self.old }
        ensures word { result ≡ executable_word ram.now self.old }
    {
        if let Some(at) = self.kept(Access::Fetch, 4, self.pc(), ram.size()) {
            let word = ram.word(at);
            if !self.is_unusable(word) {
                return Ok(word);
            }
        }
        self.fetch_aside(ram)
    }

    // For LLVM: a call of `fetch_elsewhere`, so that only this function has a stack slot for the
    // result.
    #[inline(always)]
    fn fetch_aside(&mut self, ram: &Ram) -> Result<u32, StepFault>
        ensures same { self.new ≡ self.old }
        ensures word { result ≡ executable_word ram.now self.old }
    {
        let word = self.fetch_elsewhere(ram)?;
        Ok(word)
    }

    #[cold]
    #[inline(never)]
    fn fetch_elsewhere(&mut self, ram: &Ram) -> Result<u32, StepFault>
        ensures same { self.new ≡ self.old }
        ensures word { result ≡ executable_word ram.now self.old }
    {
        let at = self.reach_elsewhere(Access::Fetch, 4, self.pc(), ram.size())?;
        let word = ram.word(at);
        if self.is_unusable(word) {
            return Err(StepFault::of(FaultKind::Coprocessor0Unusable));
        }
        Ok(word)
    }

    // Opcode 16 in user mode without CU0.
    pub(crate) fn is_unusable(&self, word: u32) -> bool
        ensures { result ≡ is_unusable self.now.control word }
    {
        word >> 26 == 16 && !self.control.may_use_cop0()
    }
}
