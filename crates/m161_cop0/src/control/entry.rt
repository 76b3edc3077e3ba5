//! The entry of a trap and the return from it.

ghost use Rattle.std.specs.Prelude.{◌≡◌};
ghost use Rattle.m161_cop0.specs.Trap.{after_trap, epc_of, is_user_miss, after_rfe, unit_of, vector_of, with_address, with_bad_page, IsVector};

use crate::control::Cop0;
use crate::exception::Exception;
use crate::trap::Trap;

impl Cop0 {
    /// Enters a trap: the current pair of Status goes to the previous one and the previous to the
    /// old, EPC and Cause get the place and the reason, and BadVAddr, EntryHi and Context the
    /// address, if the exception has one. Returns the address of the next instruction.
    #[tactic(auto, unfolding(crate::specs::Trap::after_trap))]
    #[cold]
    #[inline(never)]
    pub fn enter(&mut self, trap: Trap) -> u32
        ensures registers { self.new ≡ after_trap trap self.old }
        ensures vector { result ≡ vector_of trap self.old }
        ensures place { IsVector result }
        ensures age { self.new.age ≡ self.old.age }
    {
        let vector = self.vector(&trap);
        let status = self.status;
        self.set_status(status / (1 << 6) * (1 << 6) + (status % (1 << 4) << 2));
        self.epc = if trap.slot {
            trap.pc.wrapping_sub(4)
        } else {
            trap.pc
        };
        self.branch_delay = trap.slot;
        self.unit = match trap.code {
            Exception::CoprocessorUnusable => trap.unit % 4,
            _ => 0,
        };
        self.code = trap.code.number();
        self.note_address(trap.code, trap.address);
        vector
    }

    /// Returns from a trap, as `rfe` does: the previous pair of Status goes to the current one, the
    /// old to the previous, and the old stays.
    #[cold]
    #[inline(never)]
    pub fn rfe(&mut self)
        ensures { self.new ≡ after_rfe self.old }
    {
        let status = self.status;
        self.set_status(status / (1 << 4) * (1 << 4) + (status >> 2) % (1 << 4));
    }

    // The address of the next instruction after a trap.
    #[tactic(auto, unfolding(crate::specs::Trap::vector_of))]
    fn vector(&self, trap: &Trap) -> u32
        ensures value { result ≡ vector_of trap.now self.now }
        ensures place { IsVector result }
    {
        let user_miss = match trap.code {
            Exception::TlbLoad | Exception::TlbStore => trap.user_miss,
            _ => false,
        };
        let boot = (self.status >> 22) % 2 == 1;
        match (boot, user_miss) {
            (false, true) => 0x8000_0000,
            (false, false) => 0x8000_0080,
            (true, true) => 0xbfc0_0100,
            (true, false) => 0xbfc0_0180,
        }
    }

    // Puts the address of a trap into the registers that its exception sets.
    fn note_address(&mut self, exception: Exception, address: u32)
        ensures { self.new ≡ with_address exception address self.old }
    {
        match exception {
            Exception::TlbModified | Exception::TlbLoad | Exception::TlbStore => {
                self.bad_vaddr = address;
                self.entry_hi = address / (1 << 12) * (1 << 12) + self.entry_hi % (1 << 12);
                self.context = self.context / (1 << 21) * (1 << 21)
                    + ((address >> 12) % (1 << 19) << 2);
            }
            Exception::AddressErrorLoad | Exception::AddressErrorStore => {
                self.bad_vaddr = address;
            }
            _ => {}
        }
    }
}
