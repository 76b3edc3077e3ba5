//! What the processor asks of the registers.

ghost use Rattle.std.specs.Prelude.{◌≡◌, ◌-◌, ◌%◌, ◌<◌, ◌≤◌};
ghost use Rattle.m161_cop0.specs.Control.{cause_of, cause_parts_of, expects_timer, identifier_of, im_of, index_row_of, is_interrupted, is_pending, is_user, may_use_cop0};

use crate::cause::CauseParts;
use crate::control::Cop0;

impl Cop0 {
    /// An interrupt is up and not masked by IM, whatever IEc is; so a waiting processor continues.
    /// `lines` is as for `read`.
    #[tactic(auto, unfolding(crate::specs::Control::is_pending))]
    pub fn pending(&self, lines: u32) -> bool
        ensures { result ≡ is_pending lines self.now }
    {
        (self.ip | lines) & im(self.status) != 0
    }

    /// An interrupt is up, not masked by IM, and enabled by IEc. `lines` is as for `read`.
    #[tactic(auto, unfolding(crate::specs::Control::is_pending, crate::specs::Control::is_interrupted))]
    #[inline(always)]
    pub fn interrupts(&self, lines: u32) -> bool
        ensures { result ≡ is_interrupted lines self.now }
    {
        (self.ip | lines) & self.mask != 0
    }

    /// The timer's interrupt passes IM, and Compare isn't zero; so Count will reach it.
    #[tactic(auto, unfolding(crate::specs::Control::expects_timer))]
    pub fn expects_timer(&self) -> bool
        ensures { result ≡ expects_timer self.now }
    {
        (self.status >> 15) % 2 == 1 && self.compare != 0
    }

    /// KUc is set: the processor is in user mode.
    #[tactic(auto, unfolding(crate::specs::Control::is_user))]
    #[inline(always)]
    pub fn is_user(&self) -> bool
        ensures { result ≡ is_user self.now }
    {
        (self.status >> 1) % 2 == 1
    }

    /// Coprocessor 0 may be used: in kernel mode, or if CU0 is set.
    #[tactic(auto, unfolding(crate::specs::Control::may_use_cop0))]
    pub fn may_use_cop0(&self) -> bool
        ensures { result ≡ may_use_cop0 self.now }
    {
        !self.is_user() || (self.status >> 28) % 2 == 1
    }

    /// EntryHi's identifier.
    pub fn identifier(&self) -> u8
        ensures value { result ≡ identifier_of self.now }
        ensures small { result < 64 }
    {
        ((self.entry_hi >> 6) % 64) as u8
    }

    /// Index's row, whatever P is.
    pub fn index_row(&self) -> u8
        ensures value { result ≡ index_row_of self.now }
        ensures small { result < 64 }
    {
        ((self.index >> 8) % 64) as u8
    }

    /// Random's row.
    pub fn random_row(&self) -> u8
        ensures value { result ≡ self.now.random }
        ensures by_age { result ≡ 63 - self.now.age % 56 }
        ensures small { result < 64 }
        ensures large { 8 ≤ result }
    {
        63 - (self.age % 56) as u8
    }

    /// The ticks since the start.
    #[inline(always)]
    pub fn age(&self) -> u64
        ensures { result ≡ self.now.age }
    {
        self.age
    }

    /// The parts of Cause beside the board's lines.
    pub fn cause_parts(&self) -> CauseParts
        ensures { result ≡ cause_parts_of self.now }
    {
        CauseParts {
            branch_delay: self.branch_delay,
            unit: self.unit,
            code: self.code,
            timer: self.timer,
            software: self.software,
        }
    }

    /// BadVAddr.
    pub fn bad_vaddr(&self) -> u32
        ensures { result ≡ self.now.bad_vaddr }
    {
        self.bad_vaddr
    }

    /// EntryHi.
    pub fn entry_hi(&self) -> u32
        ensures { result ≡ self.now.entry_hi }
    {
        self.entry_hi
    }

    /// EntryLo.
    pub fn entry_lo(&self) -> u32
        ensures { result ≡ self.now.entry_lo }
    {
        self.entry_lo
    }

    // Count.
    pub(crate) fn count(&self) -> u32
        ensures { result ≡ self.now.count }
    {
        ((self.age % (1 << 32)) as u32).wrapping_add(self.offset)
    }

    // Cause.
    pub(crate) fn cause(&self, lines: u32) -> u32
        ensures { result ≡ cause_of lines self.now }
    {
        let branch_delay = if self.branch_delay { 1 << 31 } else { 0 };
        let ip = ((self.ip | lines) >> 8) % 256;
        branch_delay + (u32::from(self.unit) << 28) + (ip << 8) + (u32::from(self.code) << 2)
    }
}

// IM in Cause's places.
fn im(status: u32) -> u32
    ensures { result ≡ im_of status }
{
    (status >> 8) % 256 << 8
}
