//! The registers of coprocessor 0.

ghost use Rattle.std.specs.Prelude.{◌≡◌, ◌<◌};
ghost use Rattle.m161_cop0.specs.Control.{control_at_start, read_of, after_write, with_tlb_row, with_probe, internal_ip_of, enabled_im_of};

mod clock;
mod entry;
mod restore;
mod views;

use crate::register::Register;
use m161_isa::Reg;
pub use restore::Cop0Parts;
use std::marker::Model;

/// The bits of Index that a write keeps.
const INDEX_MASK: u32 = 0x8000_3f00;

/// The bits of EntryLo that a write keeps.
const ENTRY_LO_MASK: u32 = 0xffff_ff00;

/// The bits of EntryHi that a write keeps.
const ENTRY_HI_MASK: u32 = 0xffff_ffc0;

/// The bits of Status that a write keeps.
const STATUS_MASK: u32 = 0xf040_ff3f;

/// Index after a probe that found no row.
const NOT_FOUND: u32 = 0x8000_0000;

/// PRId.
const PRID: u32 = 0xa1;

/// The registers of coprocessor 0.
#[derive(Drop)]
pub struct Cop0 {
    index: u32,
    entry_lo: u32,
    context: u32,
    bad_vaddr: u32,
    entry_hi: u32,
    compare: u32,
    status: u32,
    epc: u32,
    branch_delay: bool,
    unit: u8,
    code: u8,
    timer: bool,
    software: u8,
    // The bits of IP that aren't the board's, and IM if IEc is set, else 0; both in Cause's places.
    ip: u32,
    mask: u32,
    // The ticks since the start. Count is the low word of `age + offset`; the tick that makes `age`
    // equal to `fire` raises the timer, if `fire` isn't 0.
    age: u64,
    offset: u32,
    fire: u64,
}

impl Model for Cop0 {
    ghost use Rattle.std.specs.Prelude.{◌≡◌, ◌+◌, ◌-◌, ◌%◌, ◌^◌, ◌<◌};
    ghost use Rattle.m161_cop0.specs.Control.{Control, internal_ip_of, enabled_im_of};
    ghost use Rattle.m161_cop0.specs.Clock.{IsFire};

    ghost Value = { Control };

    ghost view = { λ c. record {
      index = c.index;
      random = 63 - c.age % 56;
      entry_lo = c.entry_lo;
      context = c.context;
      bad_vaddr = c.bad_vaddr;
      count = (c.age + c.offset) % 2 ^ 32;
      entry_hi = c.entry_hi;
      compare = c.compare;
      status = c.status;
      epc = c.epc;
      branch_delay = c.branch_delay;
      unit = c.unit;
      code = c.code;
      timer = c.timer;
      software = c.software;
      age = c.age;
    } };

    ghost invariant = { λ c.
        (c.unit < 4)
        × (c.software < 4)
        × (c.ip ≡ internal_ip_of c.timer c.software)
        × (c.mask ≡ enabled_im_of c.status)
        × IsFire c.age c.offset c.compare c.fire };
}

impl Cop0 {
    /// The registers at a start: all zero except Random and PRId.
    pub fn new() -> Cop0
        ensures { result ≡ control_at_start }
    {
        Cop0 {
            index: 0,
            entry_lo: 0,
            context: 0,
            bad_vaddr: 0,
            entry_hi: 0,
            compare: 0,
            status: 0,
            epc: 0,
            branch_delay: false,
            unit: 0,
            code: 0,
            timer: false,
            software: 0,
            ip: 0,
            mask: 0,
            age: 0,
            offset: 0,
            fire: 0,
        }
    }

    /// The same registers again.
    pub fn copy(&self) -> Cop0
        ensures { result ≡ self.now }
    {
        Cop0 {
            index: self.index,
            entry_lo: self.entry_lo,
            context: self.context,
            bad_vaddr: self.bad_vaddr,
            entry_hi: self.entry_hi,
            compare: self.compare,
            status: self.status,
            epc: self.epc,
            branch_delay: self.branch_delay,
            unit: self.unit,
            code: self.code,
            timer: self.timer,
            software: self.software,
            ip: self.ip,
            mask: self.mask,
            age: self.age,
            offset: self.offset,
            fire: self.fire,
        }
    }

    /// The word of a register, as `mfc0` reads it. `lines` has the board's lines of this processor
    /// in Cause's places: 00000400 the bus, 00000800 the interprocessor interrupt.
    #[tactic(auto, unfolding(crate::specs::Control::read_of))]
    #[inline(never)]
    pub fn read(&self, register: Reg, lines: u32) -> u32
        ensures { result ≡ read_of register lines self.now }
    {
        match Register::from_number(register) {
            Some(Register::Index) => self.index,
            Some(Register::Random) => u32::from(self.random_row()) << 8,
            Some(Register::EntryLo) => self.entry_lo,
            Some(Register::Context) => self.context,
            Some(Register::BadVaddr) => self.bad_vaddr,
            Some(Register::Count) => self.count(),
            Some(Register::EntryHi) => self.entry_hi,
            Some(Register::Compare) => self.compare,
            Some(Register::Status) => self.status,
            Some(Register::Cause) => self.cause(lines),
            Some(Register::Epc) => self.epc,
            Some(Register::Prid) => PRID,
            None => 0,
        }
    }

    /// Writes a register, as `mtc0` does: the bits that the register keeps. A write to Random,
    /// BadVAddr, EPC, PRId or a number without a register is ignored.
    #[tactic(auto, unfolding(crate::specs::Control::after_write))]
    #[cold]
    #[inline(never)]
    pub fn write(&mut self, register: Reg, word: u32)
        ensures registers { self.new ≡ after_write register word self.old }
        ensures age { self.new.age ≡ self.old.age }
    {
        match Register::from_number(register) {
            Some(Register::Index) => self.index = word & INDEX_MASK,
            Some(Register::EntryLo) => self.entry_lo = word & ENTRY_LO_MASK,
            Some(Register::Context) => {
                self.context = word / (1 << 21) * (1 << 21) + self.context % (1 << 21);
            }
            Some(Register::Count) => self.set_clock(word, self.compare),
            Some(Register::EntryHi) => self.entry_hi = word & ENTRY_HI_MASK,
            Some(Register::Compare) => {
                self.set_clock(0, word);
                self.set_ip(false, self.software);
            }
            Some(Register::Status) => self.set_status(word & STATUS_MASK),
            Some(Register::Cause) => self.set_ip(self.timer, ((word >> 8) % 4) as u8),
            Some(Register::Random | Register::BadVaddr | Register::Epc | Register::Prid) => {}
            None => {}
        }
    }

    /// Puts a row's two words into EntryHi and EntryLo, as `tlbr` does.
    #[cold]
    #[inline(never)]
    pub fn set_tlb_row(&mut self, hi_word: u32, lo_word: u32)
        ensures { self.new ≡ with_tlb_row hi_word lo_word self.old }
    {
        self.entry_hi = hi_word;
        self.entry_lo = lo_word;
    }

    /// Puts the row that a probe found into Index, as `tlbp` does; `None` sets only P. Of the row's
    /// number the low six bits are used.
    #[cold]
    #[inline(never)]
    pub fn set_probe(&mut self, row: Option<u8>)
        ensures { self.new ≡ with_probe row self.old }
    {
        self.index = match row {
            Some(row) => u32::from(row % 64) << 8,
            None => NOT_FOUND,
        };
    }

    // Puts a word into Status.
    fn set_status(&mut self, status: u32)
        ensures { self.new ≡ record self.old { status = status } }
    {
        self.status = status;
        self.mask = enabled_im(status);
    }

    // Puts the timer's bit and software's two into IP.
    fn set_ip(&mut self, timer: bool, software: u8)
        requires { software < 4 }
        ensures { self.new ≡ record self.old { timer = timer; software = software } }
    {
        self.timer = timer;
        self.software = software;
        self.ip = internal_ip(timer, software);
    }
}

// IM in Cause's places if IEc is set, else 0.
pub(crate) fn enabled_im(status: u32) -> u32
    ensures { result ≡ enabled_im_of status }
{
    if status % 2 == 1 {
        (status >> 8) % 256 << 8
    } else {
        0
    }
}

// The timer's bit and software's two, in Cause's places.
fn internal_ip(timer: bool, software: u8) -> u32
    requires { software < 4 }
    ensures { result ≡ internal_ip_of timer software }
{
    let timer = if timer { 1 << 15 } else { 0 };
    timer + (u32::from(software) << 8)
}
