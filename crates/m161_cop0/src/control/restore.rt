//! The registers made anew from what they hold.

ghost use Rattle.std.specs.Prelude.{◌≡◌};
ghost use Rattle.m161_cop0.specs.Restore.{HasBounds, restored_control};

use crate::cause::CauseParts;
use crate::control::clock::fire;
use crate::control::{Cop0, enabled_im, internal_ip};

/// What the registers of coprocessor 0 hold.
#[derive(Clone, Copy, Debug, PartialEq, Eq)]
pub struct Cop0Parts {
    /// Index.
    pub index: u32,
    /// Random's row, 8 to 63.
    pub random: u8,
    /// EntryLo.
    pub entry_lo: u32,
    /// Context.
    pub context: u32,
    /// BadVAddr.
    pub bad_vaddr: u32,
    /// Count.
    pub count: u32,
    /// EntryHi.
    pub entry_hi: u32,
    /// Compare.
    pub compare: u32,
    /// Status.
    pub status: u32,
    /// EPC.
    pub epc: u32,
    /// Cause, but for the board's lines.
    pub cause: CauseParts,
}

impl Cop0 {
    /// Makes the registers those that hold this. Random says how often they have ticked: the least
    /// number of ticks from 63 down to it.
    #[cold]
    #[inline(never)]
    pub fn restore(&mut self, parts: &Cop0Parts)
        requires { HasBounds parts.now }
        ensures { self.new ≡ restored_control parts.now }
    {
        let age = u64::from(63 - parts.random);
        let offset = parts.count.wrapping_sub(u32::from(63 - parts.random));
        *self = Cop0 {
            index: parts.index,
            entry_lo: parts.entry_lo,
            context: parts.context,
            bad_vaddr: parts.bad_vaddr,
            entry_hi: parts.entry_hi,
            compare: parts.compare,
            status: parts.status,
            epc: parts.epc,
            branch_delay: parts.cause.branch_delay,
            unit: parts.cause.unit,
            code: parts.cause.code,
            timer: parts.cause.timer,
            software: parts.cause.software,
            ip: internal_ip(parts.cause.timer, parts.cause.software),
            mask: enabled_im(parts.status),
            age,
            offset,
            fire: fire(age, offset, parts.compare),
        };
    }
}
