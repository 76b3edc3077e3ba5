//! Loads and stores.

ghost use Rattle.std.specs.Prelude.{◌≡◌, ◌+◌, ◌-◌, ◌*◌, ◌/◌, ◌%◌, ◌^◌, ◌≤◌, ◌<◌, Bool, length, slice_index, Some, Ok, Err};
ghost use Rattle.m161_isa.specs.declared.instr.Instr.TheVariants.{Load, Store};
ghost use Rattle.m161_bus.specs.Board.{BoardState, IsUsed};
ghost use Rattle.m161_alu.specs.Word.{sign_extended_half};
ghost use Rattle.m161_cpu.specs.Effect.{store_conditional, store_word_at};
ghost use Rattle.m161_cpu.specs.helpers.Execute.{change_by, Executes, FindsWord, Performs};
ghost use Rattle.m161_cpu.specs.Links.{after_store};
ghost use Rattle.m161_cpu.specs.Processor.{with_flow};
ghost use Rattle.m161_cpu.specs.Scene.{scene_of};
ghost use Rattle.m161_cpu.specs.Translation.{read_word};

use crate::fault::{Access, StepEnd, StepFault};
use crate::links::Links;
use crate::processor::{Cpu, Flow};
use crate::translation::bus_error;
use m161_alu::{
    merge_left, merge_right, sign_extend_byte, sign_extend_half, store_left, store_right,
};
use m161_bus::{Board, Console};
use m161_isa::{Immediate, LoadOp, Reg, StoreOp};
use m161_ram::Ram;
use m161_tlb::Tlb;

impl<T: Tlb> Cpu<T> {
    // The address of a load or a store.
    #[inline(always)]
    pub(crate) fn address(&self, offset: Immediate, base: Reg) -> u32
        ensures { result ≡
            (slice_index self.now.registers base + sign_extended_half offset) % 2 ^ 32 }
    {
        self.reg(base).wrapping_add(sign_extend_half(offset.half()))
    }

    /// Loads.
    #[inline(always)]
    #[tactic(auto, unfolding(crate::specs::helpers::Execute::change_by))]
    pub(crate) fn load<D: Console>(
        &mut self,
        op: LoadOp,
        rt: Reg,
        offset: Immediate,
        base: Reg,
        c: u32,
        ram: &Ram,
        board: &mut Board<D>,
        links: &mut Links,
    ) -> Result<(), StepFault>
        requires processor { (c < board.old.state.processors) × (board.old.state.processors ≤ 32) }
        requires ram { length ram.now ≤ 2 ^ 29 }
        ensures load { (strict : Bool) → Executes (change_by (scene_of self.old c ram.now board.old.state links.old strict)
            (Load op rt offset base))
            (scene_of self.old c ram.now board.old.state links.old strict) result
            (scene_of self.new c ram.now board.new.state links.new strict) }
        ensures board { IsUsed board.old board.new }
        ensures off { board.new.state.off ≡ board.old.state.off }
    {
        let address = self.address(offset, base);
        let size = ram.size();
        match op {
            LoadOp::Byte => {
                let at = self.reach(Access::Load, 1, address, size)?;
                self.set(rt, sign_extend_byte(ram.byte(at)));
            }
            LoadOp::ByteUnsigned => {
                let at = self.reach(Access::Load, 1, address, size)?;
                self.set(rt, u32::from(ram.byte(at)));
            }
            LoadOp::Half => {
                let at = self.reach(Access::Load, 2, address, size)?;
                self.set(rt, sign_extend_half(ram.half(at)));
            }
            LoadOp::HalfUnsigned => {
                let at = self.reach(Access::Load, 2, address, size)?;
                self.set(rt, u32::from(ram.half(at)));
            }
            LoadOp::Word => {
                let word = self.read_word(address, c, ram, board)?;
                self.set(rt, word);
            }
            LoadOp::WordLeft => {
                let at = self.reach_word_of(Access::Load, address, size)?;
                self.set(rt, merge_left(ram.word(at), self.reg(rt), address));
            }
            LoadOp::WordRight => {
                let at = self.reach_word_of(Access::Load, address, size)?;
                self.set(rt, merge_right(ram.word(at), self.reg(rt), address));
            }
            LoadOp::Linked => {
                let at = self.reach(Access::Load, 4, address, size)?;
                links.link(c, at);
                self.set(rt, ram.word(at));
            }
        }
        Ok(())
    }

    /// A word of RAM or of the slots.
    #[inline(always)]
    fn read_word<D: Console>(
        &mut self,
        address: u32,
        c: u32,
        ram: &Ram,
        board: &mut Board<D>,
    ) -> Result<u32, StepFault>
        requires processor { c < board.old.state.processors }
        requires ram { length ram.now ≤ 2 ^ 29 }
        ensures same { self.new ≡ self.old }
        ensures word { FindsWord (read_word address self.old c ram.now board.old.state)
            board.old.state result board.new.state }
        ensures board { IsUsed board.old board.new }
        ensures off { board.new.state.off ≡ board.old.state.off }
    {
        match self.place(Access::Load, 4, address, ram.size()) {
            Some(at) => Ok(ram.word(at)),
            None => self.read_word_aside(address, c, ram, board),
        }
    }

    // For LLVM: a call of `read_word_elsewhere`, so that only this function has a stack slot for
    // the result.
    #[inline(always)]
    fn read_word_aside<D: Console>(
        &mut self,
        address: u32,
        c: u32,
        ram: &Ram,
        board: &mut Board<D>,
    ) -> Result<u32, StepFault>
        requires processor { c < board.old.state.processors }
        ensures same { self.new ≡ self.old }
        ensures word { FindsWord (read_word address self.old c ram.now board.old.state)
            board.old.state result board.new.state }
        ensures board { IsUsed board.old board.new }
        ensures off { board.new.state.off ≡ board.old.state.off }
    {
        let word = self.read_word_elsewhere(address, c, ram, board)?;
        Ok(word)
    }

    #[cold]
    #[inline(never)]
    fn read_word_elsewhere<D: Console>(
        &mut self,
        address: u32,
        c: u32,
        ram: &Ram,
        board: &mut Board<D>,
    ) -> Result<u32, StepFault>
        requires processor { c < board.old.state.processors }
        ensures same { self.new ≡ self.old }
        ensures word { FindsWord (read_word address self.old c ram.now board.old.state)
            board.old.state result board.new.state }
        ensures board { IsUsed board.old board.new }
        ensures off { board.new.state.off ≡ board.old.state.off }
    {
        let at = self.translate(Access::Load, 4, address)?;
        if u64::from(at) + 4 <= u64::from(ram.size()) {
            return Ok(ram.word(at));
        }
        match board.read(c, at) {
            Ok(word) => Ok(word),
            Err(_) => Err(bus_error(Access::Load)),
        }
    }

    /// Stores.
    #[inline(always)]
    #[tactic(auto, unfolding(crate::specs::helpers::Execute::change_by))]
    pub(crate) fn store<D: Console>(
        &mut self,
        op: StoreOp,
        rt: Reg,
        offset: Immediate,
        base: Reg,
        c: u32,
        ram: &mut Ram,
        board: &mut Board<D>,
        links: &mut Links,
    ) -> Result<(), StepEnd>
        requires processor { (c < board.old.state.processors) × (board.old.state.processors ≤ 32) }
        requires ram { length ram.old ≤ 2 ^ 29 }
        ensures store { (strict : Bool) → Performs (change_by (scene_of self.old c ram.old board.old.state links.old strict)
            (Store op rt offset base))
            (scene_of self.old c ram.old board.old.state links.old strict) result
            (scene_of self.new c ram.new board.new.state links.new strict) }
        ensures board { IsUsed board.old board.new }
        ensures size { length ram.new ≡ length ram.old }
    {
        let address = self.address(offset, base);
        let size = ram.size();
        let word = self.reg(rt);
        match op {
            StoreOp::Byte => {
                let at = self.reach(Access::Store, 1, address, size)?;
                ram.set_byte(at, (word % 0x100) as u8);
                self.end_store(at / 4 * 4, links);
            }
            StoreOp::Half => {
                let at = self.reach(Access::Store, 2, address, size)?;
                ram.set_half(at, (word % 0x1_0000) as u16);
                self.end_store(at / 4 * 4, links);
            }
            StoreOp::Word => self.store_word(address, word, c, ram, board, links)?,
            StoreOp::WordLeft => {
                let at = self.reach_word_of(Access::Store, address, size)?;
                ram.set_word(at, store_left(ram.word(at), word, address));
                self.end_store(at, links);
            }
            StoreOp::WordRight => {
                let at = self.reach_word_of(Access::Store, address, size)?;
                ram.set_word(at, store_right(ram.word(at), word, address));
                self.end_store(at, links);
            }
            StoreOp::Conditional => {
                let at = self.reach(Access::Store, 4, address, size)?;
                self.store_conditional(at, rt, c, ram, links);
            }
        }
        Ok(())
    }

    // Stores a word if the link is to it, and ends the link.
    #[inline(always)]
    fn store_conditional(&mut self, at: u32, rt: Reg, c: u32, ram: &mut Ram, links: &mut Links)
        requires processor { c < 32 }
        requires within { at + 4 ≤ length ram.old }
        ensures store { (b : BoardState) (strict : Bool) → Executes
            (Ok (store_conditional (scene_of self.old c ram.old b links.old strict) rt
            (slice_index self.old.registers rt) at))
            (scene_of self.old c ram.old b links.old strict) (Ok result)
            (scene_of self.new c ram.new b links.new strict) }
        ensures size { length ram.new ≡ length ram.old }
    {
        let word = self.reg(rt);
        let linked = links.names(c, at);
        if linked {
            ram.set_word(at, word);
            links.store_to(at);
        }
        links.unlink(c);
        self.set(rt, u32::from(linked));
    }

    // Goes on after a store to a word of RAM, which ends the links to it.
    #[inline(always)]
    fn end_store(&mut self, at: u32, links: &mut Links)
        ensures processor { self.new ≡ with_flow Flow.Next self.old }
        ensures links { links.new ≡ after_store (Some at) links.old }
    {
        links.store_to(at);
        self.advance(Flow::Next);
    }

    // Stores a word to RAM or to the slots.
    #[inline(always)]
    fn store_word<D: Console>(
        &mut self,
        address: u32,
        word: u32,
        c: u32,
        ram: &mut Ram,
        board: &mut Board<D>,
        links: &mut Links,
    ) -> Result<(), StepEnd>
        requires processor { c < board.old.state.processors }
        requires ram { length ram.old ≤ 2 ^ 29 }
        ensures store { (strict : Bool) → Performs
            (store_word_at address word (scene_of self.old c ram.old board.old.state links.old strict))
            (scene_of self.old c ram.old board.old.state links.old strict) result
            (scene_of self.new c ram.new board.new.state links.new strict) }
        ensures board { IsUsed board.old board.new }
        ensures size { length ram.new ≡ length ram.old }
    {
        if let Some(at) = self.place(Access::Store, 4, address, ram.size()) {
            ram.set_word(at, word);
            self.end_store(at, links);
            return Ok(());
        }
        // For LLVM: with `?`, so that the common path has no stack slot for the result.
        self.store_word_elsewhere(address, word, c, ram, board, links)?;
        Ok(())
    }

    #[cold]
    #[inline(never)]
    fn store_word_elsewhere<D: Console>(
        &mut self,
        address: u32,
        word: u32,
        c: u32,
        ram: &mut Ram,
        board: &mut Board<D>,
        links: &mut Links,
    ) -> Result<(), StepEnd>
        requires processor { c < board.old.state.processors }
        ensures store { (strict : Bool) → Performs
            (store_word_at address word (scene_of self.old c ram.old board.old.state links.old strict))
            (scene_of self.old c ram.old board.old.state links.old strict) result
            (scene_of self.new c ram.new board.new.state links.new strict) }
        ensures board { IsUsed board.old board.new }
        ensures size { length ram.new ≡ length ram.old }
    {
        let at = self.translate(Access::Store, 4, address)?;
        if u64::from(at) + 4 <= u64::from(ram.size()) {
            ram.set_word(at, word);
            self.end_store(at, links);
            return Ok(());
        }
        let was_on = !board.is_off();
        if board.write(c, at, word).is_err() {
            return Err(StepEnd::Fault(bus_error(Access::Store)));
        }
        self.advance(Flow::Next);
        if was_on && board.is_off() {
            return Err(StepEnd::PoweredOff);
        }
        Ok(())
    }
}
