//! A set of breakpoints in a fixed table.

ghost use Rattle.std.specs.Prelude.{◌≡◌, ◌<◌, ◌++◌, ◌∷◌, [], length};
ghost use Rattle.m161_debug.specs.Breakpoints.{breakpoint, has, is_same, without_breakpoint};

use std::marker::Model;
use thiserror::Error;

/// The greatest number of breakpoints.
pub(crate) const MOST: usize = 64;

/// A place where a run stops: a processor and an address.
#[derive(Clone, Copy)]
pub(crate) struct Breakpoint {
    pub(crate) processor: u32,
    address: u32,
}

impl Breakpoint {
    /// The place of a processor at an address.
    pub(crate) fn new(processor: u32, address: u32) -> Breakpoint
        ensures { result ≡ breakpoint processor address }
    {
        Breakpoint { processor, address }
    }

    // Whether two places are the same.
    fn is_same(self, other: Breakpoint) -> bool
        ensures { result ≡ is_same self other }
    {
        self.processor == other.processor && self.address == other.address
    }
}

/// Why a breakpoint isn't set. The second is returned only if the first doesn't hold.
#[derive(Clone, Copy, Debug, PartialEq, Eq, Error)]
pub enum BreakError {
    /// There is no such processor.
    #[error("there is no such processor")]
    BadProcessor,
    /// There are 64 other breakpoints.
    #[error("there are 64 other breakpoints")]
    TooMany,
}

/// A set of at most 64 breakpoints. Contracts see it as their list, the oldest first.
#[derive(Drop)]
pub(crate) struct Breakpoints {
    table: [Breakpoint; 64],
    len: usize,
}

impl Model for Breakpoints {
    ghost use Rattle.std.specs.Prelude.{◌≡◌, ◌≤◌, List, length, take};
    ghost use Rattle.m161_debug.specs.declared.breakpoints.Breakpoint.{Breakpoint};

    ghost Value = { List Breakpoint };

    ghost view = { λ b. take b.len b.table };

    ghost invariant = { λ b. (length b.table ≡ 64) × (b.len ≤ 64) };
}

impl Breakpoints {
    /// No breakpoint.
    pub(crate) fn new() -> Breakpoints
        ensures { result ≡ [] }
    {
        Breakpoints {
            table: [Breakpoint::new(0, 0); MOST],
            len: 0,
        }
    }

    /// How many there are.
    pub(crate) fn len(&self) -> usize
        ensures { result ≡ length self.now }
    {
        self.len
    }

    /// Whether a breakpoint is set.
    pub(crate) fn has(&self, breakpoint: Breakpoint) -> bool
        ensures { result ≡ has breakpoint self.now }
    {
        for i in 0..self.len {
            if breakpoint.is_same(self.table[i]) {
                return true;
            }
        }
        false
    }

    /// Adds a breakpoint, after the others.
    pub(crate) fn add(&mut self, breakpoint: Breakpoint)
        requires { length self.old < 64 }
        ensures { self.new ≡ self.old ++ breakpoint ∷ [] }
    {
        self.table[self.len] = breakpoint;
        self.len += 1;
    }

    /// Removes a breakpoint. Returns whether it was set.
    pub(crate) fn remove(&mut self, breakpoint: Breakpoint) -> bool
        ensures result { result ≡ has breakpoint self.old }
        ensures after { self.new ≡ without_breakpoint breakpoint self.old }
    {
        let found = self.has(breakpoint);
        let mut kept = Breakpoints::new();
        for i in 0..self.len {
            if !breakpoint.is_same(self.table[i]) {
                kept.add(self.table[i]);
            }
        }
        *self = kept;
        found
    }
}
