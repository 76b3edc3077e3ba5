//! Which addresses are filled. Between two `.org` lines they are one run. An `.org` closes it, puts it
//! among the sorted runs, at most 1,024, and finds by binary search the first one that ends above the
//! new address; until the next `.org` only that run's start is compared, in constant time a line.

ghost use Rattle.std.specs.Prelude.{◌≡◌, ◌≤◌, ◌<◌, ◌+◌, ◌*◌, ◌^◌, ℕ, Bool, OnOk, length, drop, false, List, ◌||◌, ◌⊎◌};
ghost use Rattle.m161_asm.specs.helpers.Ground.{InOrder, Splits, IsOrdered, HasFilled, limit_of, meet, meets};

use crate::statement::ReadError;
use std::alloc::Global;

/// A run of addresses: from `start` up to, but not including, `end`.
#[derive(Clone, Copy)]
pub struct AddressRun {
    pub start: u64,
    pub end: u64,
}

/// The runs that lines have filled, by address. The run of the next line began at `start`, below
/// the run at the place `next`, and would meet that at `limit`.
#[derive(Drop)]
pub struct Ground {
    pub runs: Vec<AddressRun>,
    pub next: usize,
    pub start: u64,
    pub limit: u64,
}

// The place of the first run that ends above an address, by binary search.
fn first_above(runs: &[AddressRun], start: u64) -> usize
    requires { InOrder 0 runs.now }
    ensures { Splits start result runs.now }
{
    let mut low = 0;
    let mut high = runs.len();
    while low < high {
        let middle = low + (high - low) / 2;
        if runs[middle].end <= start {
            low = middle + 1;
        } else {
            high = middle;
        }
    }
    low
}

// Where the run at a place begins, or the end of all addresses.
#[tactic(auto, using(crate::proofs::Grounds::limit_some, crate::proofs::Grounds::limit_none))]
fn limit_at(runs: &[AddressRun], place: usize) -> u64
    requires { place ≤ length runs.now }
    ensures { result ≡ limit_of (drop place runs.now) }
{
    if place < runs.len() {
        let run = runs[place];
        run.start
    } else {
        1 << 32
    }
}

impl Ground {
    /// Nothing is filled, and the next line is at `start`.
    pub(crate) fn new(alloc: Global, start: u64) -> Ground
        ensures ordered { IsOrdered result start }
        ensures fills { HasFilled result start (λ a n. false) }
    {
        Ground {
            runs: Vec::new(alloc),
            next: 0,
            start,
            limit: 1 << 32,
        }
    }

    /// Whether one of `size` words at the next line's address is filled.
    pub(crate) fn is_filled(&self, address: u64, size: u64) -> bool
        requires ordered { IsOrdered self.now address }
        requires within { address + 4 * size ≤ 2 ^ 32 }
        ensures value { (filled : ℕ → ℕ → Bool) → HasFilled self.now address filled →
            result ≡ filled address size }
        ensures free { result ≡ false → (size ≡ 0) ⊎ (address + 4 * size ≤ self.now.limit) }
    {
        size > 0 && self.limit < address + 4 * size
    }

    // Ends the run at `end`.
    fn close(&mut self, end: u64) -> Result<(), ReadError>
        requires { IsOrdered self.old end }
        ensures order { OnOk result (InOrder 0 self.new.runs.items) }
        ensures fills { OnOk result ((a n : ℕ) →
            meets self.new.runs.items a n ≡
            (meet self.old.start end a n || meets self.old.runs.items a n)) }
    {
        if self.start < end {
            let run = AddressRun {
                start: self.start,
                end,
            };
            self.runs.insert(self.next, run)?;
        }
        Ok(())
    }

    /// Ends the run at `end`; the next line is at `start`.
    pub(crate) fn reopen(&mut self, end: u64, start: u64) -> Result<(), ReadError>
        requires { IsOrdered self.old end }
        ensures ordered { OnOk result (IsOrdered self.new start) }
        ensures fills { OnOk result ((filled : ℕ → ℕ → Bool) → HasFilled self.old end filled →
            HasFilled self.new start filled) }
    {
        self.close(end)?;
        self.next = first_above(&self.runs, start);
        self.start = start;
        self.limit = limit_at(&self.runs, self.next);
        Ok(())
    }
}
