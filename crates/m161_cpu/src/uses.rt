//! What the next Step uses: the rows of the TLB through which it gets physical addresses, and the
//! word of RAM that it stores to.

ghost use Rattle.std.specs.Prelude.{◌≡◌, ℕ, ◌+◌, ◌<◌, ◌≤◌, ◌^◌, Bool, nat_le, if◌then◌else◌, false, Ok, Some, None, IfSome, length};
ghost use Rattle.m161_isa.specs.declared.instr.Instr.TheVariants as instrs;
ghost use Rattle.m161_isa.specs.Address.{unmapped};
ghost use Rattle.m161_bus.specs.Board.{BoardState, interrupt_lines};
ghost use Rattle.m161_cpu.specs.Scene.{Around, scene, scene_of};
ghost use Rattle.m161_cpu.specs.Translation.{physical_at};
ghost use Rattle.m161_cpu.specs.Uses.{fetches, reference, uses_of, via_of, via_row};
ghost use Rattle.m161_cpu.specs.helpers.Translation.{IsWidth};
ghost use Rattle.m161_cpu.specs.helpers.Uses.{IsFetched, address_by, place_of_store, stores_only, uses_by, uses_fetched, uses_of_word, width_of_load, width_of_store};

use crate::fault::Access;
use crate::links::Links;
use crate::processor::{Cpu, ProcessorState};
use crate::row_number::RowNumber;
use m161_bus::{Board, Console};
use m161_decode::{decode, decode_in_uses};
use m161_isa::{Instr, LoadOp, StoreOp, unmapped};
use m161_ram::Ram;
use m161_tlb::{Identifier, Page, Tlb};

/// A row through which a fetch, a load or a store gets a physical address.
#[derive(Clone, Copy, Debug, PartialEq, Eq)]
pub struct Via {
    /// The row's number.
    pub row: RowNumber,
    /// The page of the virtual address.
    pub page: Page,
    /// The identifier in EntryHi, which needn't be the row's if the row has G.
    pub id: Identifier,
    /// The virtual address.
    pub address: u32,
}

/// What the next Step of a processor uses.
#[derive(Clone, Copy, Debug, PartialEq, Eq)]
pub struct Uses {
    /// The row of its fetch.
    pub fetch: Option<Via>,
    /// The row of its load or store.
    pub access: Option<Via>,
    /// The physical word of RAM that it stores to.
    pub stored: Option<u32>,
}

/// Nothing.
const NOTHING: Uses = Uses {
    fetch: None,
    access: None,
    stored: None,
};

// The width that the address of a load has to be aligned to.
fn load_width(op: LoadOp) -> u32
    ensures value { result ≡ width_of_load op }
    ensures width { IsWidth result }
{
    match op {
        LoadOp::Byte | LoadOp::ByteUnsigned | LoadOp::WordLeft | LoadOp::WordRight => 1,
        LoadOp::Half | LoadOp::HalfUnsigned => 2,
        LoadOp::Word | LoadOp::Linked => 4,
    }
}

// The width that the address of a store has to be aligned to.
fn store_width(op: StoreOp) -> u32
    ensures value { result ≡ width_of_store op }
    ensures width { IsWidth result }
{
    match op {
        StoreOp::Byte | StoreOp::WordLeft | StoreOp::WordRight => 1,
        StoreOp::Half => 2,
        StoreOp::Word | StoreOp::Conditional => 4,
    }
}

// The word of RAM that a store touches, from its physical address.
#[inline(always)]
fn place_of_store(op: StoreOp, at: u32, size: u32, linked: bool) -> Option<u32>
    ensures { result ≡ place_of_store op at size linked }
{
    match op {
        StoreOp::Byte => if_within(at, 1, size, at / 4 * 4),
        StoreOp::Half => if_within(at, 2, size, at / 4 * 4),
        StoreOp::Word => if_within(at, 4, size, at),
        StoreOp::WordLeft | StoreOp::WordRight => if_within(at / 4 * 4, 4, size, at / 4 * 4),
        StoreOp::Conditional => {
            if linked {
                if_within(at, 4, size, at)
            } else {
                None
            }
        }
    }
}

// A word, if the bytes of an access are in RAM.
#[inline(always)]
fn if_within(at: u32, width: u32, size: u32, word: u32) -> Option<u32>
    ensures { result ≡ (if nat_le (at + width) size then Some word else None) }
{
    if u64::from(at) + u64::from(width) <= u64::from(size) {
        Some(word)
    } else {
        None
    }
}

impl<T: Tlb> Cpu<T> {
    /// What the next Step of processor `c` uses, if it is the next event: the rows through which it
    /// gets physical addresses, and the word of RAM that it stores to. Does not allocate.
    #[inline(always)]
    pub fn uses<D: Console>(&self, c: u32, ram: &Ram, board: &Board<D>, links: &Links) -> Uses
        requires processor { c < board.now.state.processors }
        requires ram { length ram.now ≤ 2 ^ 29 }
        ensures { (strict : Bool)
            → result ≡ uses_of (scene_of self.now c ram.now board.now.state links.now strict) }
    {
        if !self.fetches(board.lines(c)) {
            return NOTHING;
        }
        match self.direct_uses(c, ram, links) {
            Some(stored) => Uses {
                fetch: None,
                access: None,
                stored,
            },
            None => self.uses_aside(c, ram, links),
        }
    }

    /// Whether its next Step fetches an instruction: it isn't idle, and takes no interrupt. `lines` are
    /// the board's lines of this processor.
    #[inline(always)]
    pub fn fetches(&self, lines: u32) -> bool
        ensures { (a : Around) → interrupt_lines a.number a.board ≡ lines
            → result ≡ fetches (scene self.now a) }
    {
        match self.state() {
            ProcessorState::Stopped => false,
            ProcessorState::Running => !self.control.interrupts(lines),
            ProcessorState::Waiting => {
                self.control.pending(lines) && !self.control.interrupts(lines)
            }
        }
    }

    // The word that a Step stores to, if it fetches by kseg0 in kernel mode and gets no physical
    // address through a row. `None` stands for each other Step, and for some of these.
    #[inline(always)]
    fn direct_uses(&self, c: u32, ram: &Ram, links: &Links) -> Option<Option<u32>>
        requires processor { c < 32 }
        requires ram { length ram.now ≤ 2 ^ 29 }
        ensures { (b : BoardState) (strict : Bool)
            → IfSome result (λ stored.
            stores_only stored ≡ uses_fetched (scene_of self.now c ram.now b links.now strict)) }
    {
        match self.direct(4, self.pc(), ram.size()) {
            Some(at) => self.direct_uses_of_word(ram.word(at), c, ram, links),
            None => None,
        }
    }

    // The same by the word that was fetched. Below opcode 32 there is neither a load nor a store.
    #[inline(always)]
    fn direct_uses_of_word(
        &self,
        word: u32,
        c: u32,
        ram: &Ram,
        links: &Links,
    ) -> Option<Option<u32>>
        requires processor { c < 32 }
        requires ram { length ram.now ≤ 2 ^ 29 }
        ensures { (b : BoardState) (strict : Bool)
            → IfSome result (λ stored.
            stores_only stored ≡ uses_of_word (scene_of self.now c ram.now b links.now strict) None word) }
    {
        if word >> 26 < 32 {
            return Some(None);
        }
        self.direct_uses_of_instr(&decode_in_uses(word), c, ram, links)
    }

    // The same by the instruction.
    #[inline(always)]
    fn direct_uses_of_instr(
        &self,
        instr: &Instr,
        c: u32,
        ram: &Ram,
        links: &Links,
    ) -> Option<Option<u32>>
        requires processor { c < 32 }
        requires ram { length ram.now ≤ 2 ^ 29 }
        ensures { (b : BoardState) (strict : Bool)
            → IfSome result (λ stored.
            stores_only stored ≡ uses_by (scene_of self.now c ram.now b links.now strict) None instr.now) }
    {
        match *instr {
            Instr::Load {
                op: _,
                rt: _,
                offset,
                base,
            } => match unmapped(self.address(offset, base)) {
                Some(_) => Some(None),
                None => None,
            },
            Instr::Store {
                op,
                rt: _,
                offset,
                base,
            } => self.direct_uses_of_store(op, self.address(offset, base), c, ram, links),
            _ => Some(None),
        }
    }

    // The same of a store.
    #[inline(always)]
    fn direct_uses_of_store(
        &self,
        op: StoreOp,
        address: u32,
        c: u32,
        ram: &Ram,
        links: &Links,
    ) -> Option<Option<u32>>
        requires processor { c < 32 }
        requires ram { length ram.now ≤ 2 ^ 29 }
        ensures { (b : BoardState) (strict : Bool) (rt offset base : ℕ)
            → address_by self.now offset base ≡ address
            → IfSome result (λ stored.
            stores_only stored ≡ uses_by (scene_of self.now c ram.now b links.now strict) None
            (instrs.Store op rt offset base)) }
    {
        match self.direct_store(op, address, ram.size()) {
            Some(at) => Some(place_of_store(op, at, ram.size(), links.names(c, at))),
            None => None,
        }
    }

    // For LLVM: a call of `uses_elsewhere`, so that only this function has a stack slot for the
    // result.
    #[inline(always)]
    fn uses_aside(&self, c: u32, ram: &Ram, links: &Links) -> Uses
        requires processor { c < 32 }
        requires ram { length ram.now ≤ 2 ^ 29 }
        ensures { (b : BoardState) (strict : Bool)
            → result ≡ uses_fetched (scene_of self.now c ram.now b links.now strict) }
    {
        let Uses {
            fetch,
            access,
            stored,
        } = self.uses_elsewhere(c, ram, links);
        Uses {
            fetch,
            access,
            stored,
        }
    }

    // What a Step that fetches uses.
    #[cold]
    #[inline(never)]
    fn uses_elsewhere(&self, c: u32, ram: &Ram, links: &Links) -> Uses
        requires processor { c < 32 }
        requires ram { length ram.now ≤ 2 ^ 29 }
        ensures { (b : BoardState) (strict : Bool)
            → result ≡ uses_fetched (scene_of self.now c ram.now b links.now strict) }
    {
        let (fetch, word) = self.fetched(ram);
        match word {
            Some(word) => self.uses_of_word(fetch, word, c, ram, links),
            None => Uses { fetch, ..NOTHING },
        }
    }

    // The row of a fetch, and the word, if it may be executed.
    #[inline(always)]
    fn fetched(&self, ram: &Ram) -> (Option<Via>, Option<u32>)
        ensures { IsFetched ram.now self.now result }
    {
        let Ok(to) = self.locate(Access::Fetch, 4, self.pc()) else {
            return (None, None);
        };
        let fetch = self.via_row(to.row, self.pc());
        if u64::from(to.at) + 4 > u64::from(ram.size()) {
            return (fetch, None);
        }
        let word = ram.word(to.at);
        if self.is_unusable(word) {
            return (fetch, None);
        }
        (fetch, Some(word))
    }

    // What the instruction of a word uses. Below opcode 32 there is neither a load nor a store.
    #[inline(always)]
    fn uses_of_word(&self, fetch: Option<Via>, word: u32, c: u32, ram: &Ram, links: &Links) -> Uses
        requires processor { c < 32 }
        ensures { (b : BoardState) (strict : Bool)
            → result ≡ uses_of_word (scene_of self.now c ram.now b links.now strict) fetch word }
    {
        if word >> 26 < 32 {
            return Uses { fetch, ..NOTHING };
        }
        self.uses_of_instr(fetch, &decode(word), c, ram, links)
    }

    #[inline(always)]
    fn uses_of_instr(
        &self,
        fetch: Option<Via>,
        instr: &Instr,
        c: u32,
        ram: &Ram,
        links: &Links,
    ) -> Uses
        requires processor { c < 32 }
        ensures { (b : BoardState) (strict : Bool)
            → result ≡ uses_by (scene_of self.now c ram.now b links.now strict) fetch instr.now }
    {
        match *instr {
            Instr::Load {
                op,
                rt: _,
                offset,
                base,
            } => Uses {
                fetch,
                access: self.via(Access::Load, load_width(op), self.address(offset, base)),
                stored: None,
            },
            Instr::Store {
                op,
                rt: _,
                offset,
                base,
            } => self.uses_of_store(fetch, op, self.address(offset, base), c, ram, links),
            _ => Uses { fetch, ..NOTHING },
        }
    }

    // The physical address of a store by kseg0 in kernel mode.
    #[inline(always)]
    fn direct_store(&self, op: StoreOp, address: u32, size: u32) -> Option<u32>
        requires size { size ≤ 2 ^ 29 }
        ensures value { IfSome result
            (λ at. physical_at Access.Store (width_of_store op) address self.now ≡ Ok at) }
        ensures segment { IfSome result (λ at. unmapped address ≡ Some at) }
    {
        match op {
            StoreOp::Byte | StoreOp::WordLeft | StoreOp::WordRight => self.direct(1, address, size),
            StoreOp::Half => self.direct(2, address, size),
            StoreOp::Word | StoreOp::Conditional => self.direct(4, address, size),
        }
    }

    // What a store uses.
    #[inline(always)]
    fn uses_of_store(
        &self,
        fetch: Option<Via>,
        op: StoreOp,
        address: u32,
        c: u32,
        ram: &Ram,
        links: &Links,
    ) -> Uses
        requires processor { c < 32 }
        ensures { (b : BoardState) (strict : Bool) (rt offset base : ℕ)
            → address_by self.now offset base ≡ address
            → result ≡ uses_by (scene_of self.now c ram.now b links.now strict) fetch
            (instrs.Store op rt offset base) }
    {
        let Ok(to) = self.locate(Access::Store, store_width(op), address) else {
            return Uses { fetch, ..NOTHING };
        };
        Uses {
            fetch,
            access: self.via_row(to.row, address),
            stored: place_of_store(op, to.at, ram.size(), links.names(c, to.at)),
        }
    }

    // The row through which a reference gets a physical address.
    #[inline(always)]
    #[tactic(auto, unfolding(crate::specs::Uses::via_of))]
    fn via(&self, access: Access, width: u32, address: u32) -> Option<Via>
        requires { 0 < width }
        ensures { result ≡ via_of self.now (reference access width address) }
    {
        match self.locate(access, width, address) {
            Ok(to) => self.via_row(to.row, address),
            Err(_) => None,
        }
    }

    // A row that gave a physical address. For LLVM: a call of its own writes the padding of a `Via`
    // together with its fields, and the copies of it are of one piece.
    #[inline(never)]
    fn via_row(&self, row: Option<RowNumber>, address: u32) -> Option<Via>
        ensures { result ≡ via_row self.now address row }
    {
        let row = row?;
        Some(Via {
            row,
            page: Page::new(address >> 12),
            id: Identifier::new(self.control.identifier()),
            address,
        })
    }
}
