//! Links of `ll` and `sc`.

ghost use Rattle.std.specs.Prelude.{◌≡◌, ◌<◌, Some, None, length, slice_index_or};
ghost use Rattle.m161_cpu.specs.Links.{HasBits, after_store, is_to, no_links, unit_of, with_link};

use m161_isa::LinkUnit;
use std::marker::Model;

/// The greatest number of processors of a machine.
const PROCESSORS: usize = 32;

/// No link.
const NONE: [Option<u32>; PROCESSORS] = [None; PROCESSORS];

/// What a link is to, and for each processor the unit of RAM that it is linked to, if its link is
/// live.
#[derive(Drop)]
pub struct Links {
    unit: LinkUnit,
    // The first byte of each processor's unit.
    linked: [Option<u32>; PROCESSORS],
    // A processor whose link is live has its bit here: a store looks at these links alone.
    live: u32,
}

impl Model for Links {
    ghost use Rattle.std.specs.Prelude.{◌≡◌, length};
    ghost use Rattle.m161_cpu.specs.Links.{HasBits, LinkState};

    ghost Value = { LinkState };

    ghost view = { λ l. record { unit = l.unit; live = l.linked } };

    ghost invariant = { λ l. (length l.linked ≡ 32) × HasBits l.linked l.live };
}

// The first byte of the unit that has a physical address.
fn unit_of(unit: LinkUnit, at: u32) -> u32
    ensures { result ≡ unit_of unit at }
{
    match unit {
        LinkUnit::Word => at / 4 * 4,
        LinkUnit::Line => at / 16 * 16,
    }
}

impl Links {
    /// No link, with room for 32 processors. Does not allocate.
    pub fn new(unit: LinkUnit) -> Links
        ensures { result ≡ no_links unit }
    {
        Links {
            unit,
            linked: NONE,
            live: 0,
        }
    }

    /// The same links again.
    pub fn copy(&self) -> Links
        ensures { result ≡ self.now }
    {
        Links {
            unit: self.unit,
            linked: self.linked,
            live: self.live,
        }
    }

    /// Makes a processor's link one to the unit with this first byte, or none. Does not allocate.
    pub fn restore(&mut self, c: u32, link: Option<u32>)
        requires { c < 32 }
        ensures { self.new ≡ with_link c link self.old }
    {
        match link {
            Some(first) => self.link_to_unit(c, first),
            None => self.unlink(c),
        }
    }

    // Links a processor to the unit with this first byte.
    fn link_to_unit(&mut self, c: u32, first: u32)
        requires { c < 32 }
        ensures { self.new ≡ with_link c (Some first) self.old }
    {
        let bit = 1 << c;
        self.linked[c as usize] = Some(first);
        self.live |= bit;
    }

    /// The first byte of the unit that a processor is linked to, if its link is live.
    pub fn linked_unit(&self, c: u32) -> Option<u32>
        requires { c < 32 }
        ensures { result ≡ slice_index_or self.now.live c None }
    {
        self.linked[c as usize]
    }

    /// Whether a processor's link is live and to the unit that has this address.
    pub(crate) fn names(&self, c: u32, at: u32) -> bool
        requires { c < 32 }
        ensures { result ≡ is_to self.now.unit at (slice_index_or self.now.live c None) }
    {
        match self.linked[c as usize] {
            Some(linked) => linked == unit_of(self.unit, at),
            None => false,
        }
    }

    /// Links a processor to the unit that has this address.
    #[cold]
    #[inline(never)]
    pub(crate) fn link(&mut self, c: u32, at: u32)
        requires { c < 32 }
        ensures { self.new ≡ with_link c (Some (unit_of self.old.unit at)) self.old }
    {
        self.linked[c as usize] = Some(unit_of(self.unit, at));
        self.live |= 1 << c;
    }

    /// Ends a processor's link.
    #[cold]
    #[inline(never)]
    pub(crate) fn unlink(&mut self, c: u32)
        requires { c < 32 }
        ensures { self.new ≡ with_link c None self.old }
    {
        self.linked[c as usize] = None;
        self.live &= !(1 << c);
    }

    /// Ends the links to the unit in which something was stored at this address.
    #[inline(always)]
    pub(crate) fn store_to(&mut self, at: u32)
        ensures { self.new ≡ after_store (Some at) self.old }
    {
        if self.live != 0 {
            self.end_links_to(at);
        }
    }

    // The processors whose links are live, one bit each.
    #[inline(always)]
    fn live(&self) -> u32
        ensures bits { HasBits self.now.live result }
        ensures length { length self.now.live ≡ 32 }
    {
        self.live
    }

    // Ends the links to the unit that has this address.
    #[cold]
    #[inline(never)]
    fn end_links_to(&mut self, at: u32)
        ensures { self.new ≡ after_store (Some at) self.old }
    {
        let mut left = self.live();
        while left != 0 {
            let c = left.trailing_zeros();
            if self.names(c, at) {
                self.unlink(c);
            }
            left &= !(1 << c);
        }
    }
}
