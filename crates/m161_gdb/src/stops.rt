//! What stops moves.

ghost use Rattle.std.specs.Prelude.{◌≡◌, ◌<◌, ◌++◌, ◌∷◌, [], false, not, None, Some, length, MatchResult};
ghost use Rattle.std.specs.List.{filter};
ghost use Rattle.m161_gdb.specs.Stops.{after_delete, after_set, has_breakpoint, has_watch, is_breakpoint, is_same_kind, is_watch_of, no_stops, number_of_kind, with_breakpoint, with_watch, IsRefused};

use crate::packet::Kind;
use std::alloc::Global;
use std::marker::Model;

// How many breakpoints there are at most, and how many watches.
const MOST: usize = 64;

/// A breakpoint.
#[derive(Clone, Copy, Debug, PartialEq, Eq)]
pub struct Breakpoint {
    /// Its kind, which is none of a watch.
    pub kind: Kind,
    /// The address of the word whose fetch it stops.
    pub address: u32,
}

/// A watch.
#[derive(Clone, Copy, Debug, PartialEq, Eq)]
pub struct Watch {
    /// Its kind, which is none of a breakpoint.
    pub kind: Kind,
    /// The address of its first byte.
    pub address: u32,
    /// How many bytes it has.
    pub size: u32,
}

/// Why a breakpoint or watch isn't set.
#[derive(Clone, Copy, Debug, PartialEq, Eq)]
pub enum StopError {
    /// There are 64 breakpoints, or 64 watches, and it is none of them.
    TooMany,
    /// Memory was refused.
    NoMemory,
}

/// What stops moves: breakpoints, watches, the mark and the interrupt flag.
#[derive(Drop)]
pub struct Stops {
    // in the order in which they were set
    breakpoints: Vec<Breakpoint>,
    watches: Vec<Watch>,
    mark: Option<usize>,
    interrupted: bool,
}

// The digit of a kind.
fn number_of_kind(kind: Kind) -> u32
    ensures { result ≡ number_of_kind kind }
{
    match kind {
        Kind::Software => 0,
        Kind::Hardware => 1,
        Kind::Write => 2,
        Kind::Read => 3,
        Kind::Access => 4,
    }
}

// Whether two kinds are the same.
fn is_same_kind(a: Kind, b: Kind) -> bool
    ensures { result ≡ is_same_kind a b }
{
    number_of_kind(a) == number_of_kind(b)
}

impl Breakpoint {
    // Whether it is the one of a kind at an address.
    fn is_of(self, kind: Kind, address: u32) -> bool
        ensures { result ≡ is_breakpoint kind address self }
    {
        is_same_kind(self.kind, kind) && self.address == address
    }
}

impl Watch {
    // Whether it is the one of a kind and a size at an address.
    fn is_of(self, kind: Kind, address: u32, size: u32) -> bool
        ensures { result ≡ is_watch_of kind address size self }
    {
        is_same_kind(self.kind, kind) && self.address == address && self.size == size
    }
}

// Takes a breakpoint away, if it is there.
fn remove_breakpoint(breakpoints: &mut Vec<Breakpoint>, kind: Kind, address: u32)
    ensures { breakpoints.new.items ≡ filter (λ b. not (is_breakpoint kind address b)) breakpoints.old.items }
{
    breakpoints.retain(|breakpoint| !breakpoint.is_of(kind, address));
}

// Takes a watch away, if it is there.
fn remove_watch(watches: &mut Vec<Watch>, kind: Kind, address: u32, size: u32)
    ensures { watches.new.items ≡ filter (λ w. not (is_watch_of kind address size w)) watches.old.items }
{
    watches.retain(|watch| !watch.is_of(kind, address, size));
}

impl Model for Stops {
    ghost use Rattle.m161_gdb.specs.Stops.{StopsValue};

    ghost Value = { StopsValue };

    ghost view = { λ s. record {
      breakpoints = s.breakpoints.items;
      watches = s.watches.items;
      mark = s.mark;
      interrupted = s.interrupted;
    } };
}

impl Stops {
    /// Nothing that stops a move. Does not allocate.
    pub fn none(alloc: Global) -> Stops
        ensures { result ≡ no_stops }
    {
        Stops {
            breakpoints: Vec::new(alloc),
            watches: Vec::new(alloc),
            mark: None,
            interrupted: false,
        }
    }

    /// The breakpoints, in the order in which they were set.
    pub fn breakpoints(&self) -> &[Breakpoint]
        ensures { result.now ≡ self.now.breakpoints }
    {
        self.breakpoints.as_slice()
    }

    /// Whether there is a breakpoint of a kind at an address.
    pub fn has_breakpoint(&self, kind: Kind, address: u32) -> bool
        ensures { result ≡ has_breakpoint self.now.breakpoints kind address }
    {
        let mut rest = self.breakpoints.as_slice();
        while let [breakpoint, behind @ ..] = rest {
            if breakpoint.is_of(kind, address) {
                return true;
            }
            rest = behind;
        }
        false
    }

    // Whether there is a watch of a kind and a size at an address.
    fn has_watch(&self, kind: Kind, address: u32, size: u32) -> bool
        ensures { result ≡ has_watch self.now.watches kind address size }
    {
        let mut rest = self.watches.as_slice();
        while let [watch, behind @ ..] = rest {
            if watch.is_of(kind, address, size) {
                return true;
            }
            rest = behind;
        }
        false
    }

    /// The watches, in the order in which they were set.
    pub fn watches(&self) -> &[Watch]
        ensures { result.now ≡ self.now.watches }
    {
        self.watches.as_slice()
    }

    /// The place where a move stops whatever is there.
    pub fn mark(&self) -> Option<usize>
        ensures { result ≡ self.now.mark }
    {
        self.mark
    }

    /// Sets the mark, or takes it away.
    pub fn set_mark(&mut self, mark: Option<usize>)
        ensures { self.new ≡ record self.old { mark = mark } }
    {
        self.mark = mark;
    }

    /// Whether the next move ends where it begins.
    pub fn is_interrupted(&self) -> bool
        ensures { result ≡ self.now.interrupted }
    {
        self.interrupted
    }

    /// Sets the interrupt flag, or clears it.
    pub fn set_interrupted(&mut self, interrupted: bool)
        ensures { self.new ≡ record self.old { interrupted = interrupted } }
    {
        self.interrupted = interrupted;
    }

    // Sets a breakpoint.
    fn set_breakpoint(&mut self, kind: Kind, address: u32) -> Result<(), StopError>
        ensures { MatchResult result
            (λ _. with_breakpoint kind address self.old ≡ Some self.new)
            (λ e. IsRefused e (with_breakpoint kind address self.old) × (self.new ≡ self.old)) }
    {
        if self.has_breakpoint(kind, address) {
            return Ok(());
        }
        if self.breakpoints.len() >= MOST {
            return Err(StopError::TooMany);
        }
        match self.breakpoints.push(Breakpoint { kind, address }) {
            Ok(()) => Ok(()),
            Err(_) => Err(StopError::NoMemory),
        }
    }

    // Sets a watch.
    fn set_watch(&mut self, kind: Kind, address: u32, size: u32) -> Result<(), StopError>
        ensures { MatchResult result
            (λ _. with_watch kind address size self.old ≡ Some self.new)
            (λ e. IsRefused e (with_watch kind address size self.old) × (self.new ≡ self.old)) }
    {
        if self.has_watch(kind, address, size) {
            return Ok(());
        }
        if self.watches.len() >= MOST {
            return Err(StopError::TooMany);
        }
        match self.watches.push(Watch {
            kind,
            address,
            size,
        }) {
            Ok(()) => Ok(()),
            Err(_) => Err(StopError::NoMemory),
        }
    }

    /// Sets a breakpoint or a watch, behind the others. One that is set already stays where it is. A
    /// breakpoint's size isn't looked at.
    ///
    /// # Errors
    /// There are 64 others; or memory was refused. Nothing is changed then.
    pub fn set(&mut self, kind: Kind, address: u32, size: u32) -> Result<(), StopError>
        ensures { MatchResult result
            (λ _. after_set kind address size self.old ≡ Some self.new)
            (λ e. IsRefused e (after_set kind address size self.old) × (self.new ≡ self.old)) }
    {
        if kind.is_watch() {
            self.set_watch(kind, address, size)
        } else {
            self.set_breakpoint(kind, address)
        }
    }

    /// Takes a breakpoint or a watch away, if it is set. A breakpoint's size isn't looked at.
    pub fn delete(&mut self, kind: Kind, address: u32, size: u32)
        ensures { self.new ≡ after_delete kind address size self.old }
    {
        if kind.is_watch() {
            remove_watch(&mut self.watches, kind, address, size);
        } else {
            remove_breakpoint(&mut self.breakpoints, kind, address);
        }
    }
}
