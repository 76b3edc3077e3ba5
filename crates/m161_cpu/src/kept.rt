//! Translations that were found, so that the processor needn't look for the row again.
//!
//! ```text
//! place    16, one for each page number modulo 16
//! tag      the page and the identifier as EntryHi has them; ffffffff in a place that keeps nothing
//! change   what is added to an address of the page, modulo 2^32, to get the physical one
//! ```
//!
//! There are three tables: text and data often have the same place, and would displace each other in
//! one. That of stores has only what a store got, so a hit needs no test of D. RAM's bound is tested at
//! each hit, since RAM is no part of the processor.

ghost use Rattle.std.specs.Prelude.{◌≡◌, ℕ, ◌+◌, ◌/◌, ◌^◌, ◌<◌, List, Some, slice_get, slice_set, IfSome};
ghost use Rattle.m161_tlb.specs.declared.row.Row.{Row};
ghost use Rattle.m161_tlb.specs.Rows.{find_row};
ghost use Rattle.m161_cpu.specs.declared.fault.Access.{Access};
ghost use Rattle.m161_cpu.specs.Kept.{AreKept, Gives};
ghost use Rattle.m161_cpu.specs.helpers.Kept.{IsFound, place_of, tag_of};
ghost use Rattle.m161_cpu.specs.helpers.Translation.{IsWidth};

use std::marker::Model;

/// The number of places.
const PLACES: usize = 16;

/// The tag of a place that keeps nothing.
const NO_TAG: u32 = 0xffff_ffff;

/// Translations of one kind of access.
#[derive(Drop)]
pub(crate) struct Kept {
    tags: [u32; 16],
    changes: [u32; 16],
}

impl Model for Kept {
    ghost use Rattle.std.specs.Prelude.{◌≡◌, length};
    ghost use Rattle.m161_cpu.specs.Kept.{Translations};

    ghost Value = { Translations };

    ghost view = { λ t. record { tags = t.tags; changes = t.changes } };

    ghost invariant = { λ t. (length t.tags ≡ 16) × (length t.changes ≡ 16) };
}

impl Kept {
    /// None.
    pub(crate) fn none() -> Kept
        ensures { (rows : List Row) (access : Access) → AreKept rows access result }
    {
        Kept {
            tags: [NO_TAG; PLACES],
            changes: [0; PLACES],
        }
    }

    /// The physical address of an access that is aligned to its width, if its page has the tag of
    /// its place. One comparison tests page, identifier and alignment.
    #[inline(always)]
    pub(crate) fn find(&self, width: u32, address: u32, id: u8) -> Option<u32>
        requires width { IsWidth width }
        requires id { id < 2 ^ 6 }
        ensures { IfSome result (λ at. IsFound self.now width address id at) }
    {
        let place = place_of(address);
        if self.tags[place] == tag_of(address, id) + address % width {
            Some(address.wrapping_add(self.changes[place]))
        } else {
            None
        }
    }

    /// Keeps the translation of an address of kuseg.
    pub(crate) fn keep(&mut self, address: u32, id: u8, at: u32)
        requires kuseg { address < 0x80000000 }
        requires id { id < 2 ^ 6 }
        ensures { (rows : List Row) (access : Access) → AreKept rows access self.old
            → Gives rows access address at (find_row rows (address / 2 ^ 12) id)
            → AreKept rows access self.new }
    {
        let place = place_of(address);
        self.tags[place] = tag_of(address, id);
        self.changes[place] = at.wrapping_sub(address);
    }

    /// Keeps no translation any more that may change where a row of one page is written over by a
    /// row of another.
    pub(crate) fn forget(&mut self, old: u32, new: u32)
        ensures { (rows : List Row) (access : Access) (i : ℕ) (before after : Row)
            → slice_get rows i ≡ Some before → before.page ≡ old → after.page ≡ new
            → AreKept rows access self.old → AreKept (slice_set rows i after) access self.new }
    {
        self.tags[(old % 16) as usize] = NO_TAG;
        self.tags[(new % 16) as usize] = NO_TAG;
    }
}

// The place of an address.
#[inline(always)]
fn place_of(address: u32) -> usize
    ensures value { result ≡ place_of address }
    ensures within { result < 16 }
{
    ((address >> 12) % 16) as usize
}

// The tag of an address and an identifier.
#[inline(always)]
fn tag_of(address: u32, id: u8) -> u32
    requires { id < 2 ^ 6 }
    ensures value { result ≡ tag_of address id }
{
    (address >> 12 << 12) + (u32::from(id) << 6)
}
