//! What is watched.

ghost use Rattle.std.specs.Prelude.{◌≡◌};
ghost use Rattle.m161_audit.specs.Watch.{is_bad, is_word};

/// A page of an address space, whose shootdown is watched.
#[derive(Clone, Copy, Debug, PartialEq, Eq)]
pub struct Watch {
    /// The identifier of the address space, 0 to 63.
    pub id: u32,
    /// The page, below 2^20.
    pub page: u32,
    /// The physical word with the page table's entry, in EntryLo's form.
    pub pte: u32,
    /// The physical word that is stored to when the shootdown is over.
    pub done: u32,
}

// A physical address is that of a word of RAM.
fn is_word(ram: u32, at: u32) -> bool
    ensures { result ≡ is_word ram at }
{
    at % 4 == 0 && u64::from(at) + 4 <= u64::from(ram)
}

/// Whether a watch can't be watched on a machine with this much RAM.
pub(crate) fn is_bad(ram: u32, watch: &Watch) -> bool
    ensures { result ≡ is_bad ram watch.now }
{
    watch.id > 63
        || watch.page > 0xf_ffff
        || !is_word(ram, watch.pte)
        || !is_word(ram, watch.done)
        || watch.pte == watch.done
}
