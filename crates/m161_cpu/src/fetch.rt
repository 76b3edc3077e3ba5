//! What a processor would fetch.

ghost use Rattle.std.specs.Prelude.{◌≡◌, ◌≤◌, ◌^◌, length};
ghost use Rattle.m161_cpu.specs.Fetch.{fetched_word};

use crate::fault::Access;
use crate::processor::Cpu;
use m161_ram::Ram;
use m161_tlb::Tlb;

impl<T: Tlb> Cpu<T> {
    /// The word that it would fetch at an address, in its mode and by its TLB, if it can. Does not
    /// allocate.
    #[tactic(auto, unfolding(crate::specs::Fetch::fetched_word, crate::specs::Translation::physical_at))]
    pub fn fetched_word(&self, address: u32, ram: &Ram) -> Option<u32>
        requires { length ram.now ≤ 2 ^ 29 }
        ensures { result ≡ fetched_word ram.now address self.now }
    {
        let Ok(to) = self.locate(Access::Fetch, 4, address) else {
            return None;
        };
        if u64::from(to.at) + 4 > u64::from(ram.size()) {
            return None;
        }
        Some(ram.word(to.at))
    }
}
