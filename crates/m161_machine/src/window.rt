//! The window of the log: the entries of the last events.

ghost use Rattle.std.specs.Prelude.{◌≡◌, ◌+◌, ◌<◌, ◌≤◌, ◌^◌, ◌++◌, [], Some, length, take, drop, slice_get, vec_capacity, IfOk};
ghost use Rattle.circular_buffer.specs.Buffer.{buffer};
ghost use Rattle.m161_machine.specs.State.{State};
ghost use Rattle.m161_machine.specs.History.{Leads};
ghost use Rattle.m161_machine.specs.helpers.Window.{Slid};
ghost use Rattle.m161_machine.specs.History.{transfers_of};

use crate::event::Entry;
use crate::packed::{PackedEntry, blanks};
use crate::state::Core;
use circular_buffer::HeapCircularBuffer;
use m161_bus::Console;
use m161_tlb::Tlb;
use std::alloc::{AllocError, Global};
use std::marker::Model;

/// How many entries are appended at once, at most: their room is in the processor's nearest cache.
pub(crate) const AT_ONCE: usize = 256;

/// The entries of the last events, oldest first. Contracts see it as the list of them and the most
/// that it has room for.
#[derive(Drop)]
pub(crate) struct Window {
    entries: HeapCircularBuffer<PackedEntry>,
    // How many of the entries are of `Done`: kept, so that `done` needn't look through the window to
    // know what room the base needs.
    transfers: usize,
    // Room for the entries that are dropped at once (the buffer lends no slice to write to).
    dropped: Vec<PackedEntry>,
}

impl Model for Window {
    ghost use Rattle.std.specs.Prelude.{◌≡◌, length};
    ghost use Rattle.circular_buffer.specs.Buffer.{Buffer};
    ghost use Rattle.m161_machine.specs.declared.event.Entry.{Entry};
    ghost use Rattle.m161_machine.specs.History.{transfers_of};

    ghost Value = { Buffer Entry };

    ghost view = { λ w. w.entries };

    ghost invariant = { λ w.
        (w.transfers ≡ transfers_of w.entries.items) × (length w.dropped.items ≡ 256) };
}

impl Window {
    /// An empty window with room for this many entries.
    pub(crate) fn new(alloc: Global, room: usize) -> Result<Window, AllocError>
        ensures { IfOk result (λ window. window ≡ buffer [] room) }
    {
        Ok(Window {
            entries: HeapCircularBuffer::with_capacity(alloc, room)?,
            transfers: 0,
            dropped: blanks(alloc, AT_ONCE)?,
        })
    }

    /// How many entries there are.
    pub(crate) fn len(&self) -> usize
        ensures value { result ≡ length self.now.items }
        ensures within { (result ≤ self.now.capacity) × (self.now.capacity < 2 ^ 63) }
    {
        self.entries.len()
    }

    /// How many of the entries are of `Done`.
    pub(crate) fn transfers(&self) -> usize
        ensures value { result ≡ transfers_of self.now.items }
        ensures small { result < 2 ^ 63 }
    {
        let _within = self.entries.len();
        self.transfers
    }

    /// An entry; the oldest is the first.
    pub(crate) fn at(&self, i: usize) -> Entry
        requires { i < length self.now.items }
        ensures { slice_get self.now.items i ≡ Some result }
    {
        match self.entries.get(i) {
            Some(kept) => kept.entry(),
            None => unreachable!(),
        }
    }

    /// The entries.
    pub(crate) fn to_entries(&self, alloc: Global) -> Result<Vec<Entry>, AllocError>
        ensures { IfOk result (λ entries. entries.items ≡ self.now.items) }
    {
        let (first, second) = self.entries.as_slices();
        let mut entries = Vec::with_capacity(alloc, self.entries.len())?;
        push_entries(&mut entries, first);
        push_entries(&mut entries, second);
        Ok(entries)
    }

    /// The same window again.
    pub(crate) fn copy(&self, alloc: Global) -> Result<Window, AllocError>
        ensures { IfOk result (λ window. window ≡ self.now) }
    {
        let (first, second) = self.entries.as_slices();
        let mut entries = HeapCircularBuffer::with_capacity(alloc, self.entries.capacity())?;
        let _first = entries.fill_from_slice(first);
        let _second = entries.fill_from_slice(second);
        Ok(Window {
            entries,
            transfers: self.transfers,
            dropped: blanks(alloc, AT_ONCE)?,
        })
    }

    /// Appends entries, `transfers` of them of `Done`. The oldest entries, for which there is no
    /// room then, are dropped, and their events are made on the base. Does not allocate.
    #[inline(always)]
    pub(crate) fn append<T: Tlb, D: Console>(
        &mut self,
        base: &mut Core<T, D>,
        kept: &[PackedEntry],
        transfers: usize,
    )
        requires few { (length kept.now ≤ self.old.capacity) × (length kept.now ≤ 256) }
        requires transfers { transfers ≡ transfers_of kept.now }
        requires accepted { (t : State) × Leads base.old.state self.old.items t }
        requires room { transfers_of self.old.items + transfers ≤ base.old.room }
        ensures slid { Slid base.old.state self.old kept.now base.new.state self.new }
        ensures room { transfers_of self.new.items ≤ base.new.room }
    {
        let lost = (self.entries.len() + kept.len()).saturating_sub(self.entries.capacity());
        self.make_room(base, lost);
        self.push(kept, transfers);
    }

    // Appends entries for which there is room, `transfers` of them of `Done`.
    #[inline(always)]
    fn push(&mut self, kept: &[PackedEntry], transfers: usize)
        requires room { length self.old.items + length kept.now ≤ self.old.capacity }
        requires transfers { transfers ≡ transfers_of kept.now }
        ensures { self.new ≡ buffer (self.old.items ++ kept.now) self.old.capacity }
    {
        let _within = self.entries.capacity();
        self.transfers += transfers;
        let _all = self.entries.fill_from_slice(kept);
    }

    // Drops this many entries, the oldest ones, if any, and makes their events on the base.
    #[inline(always)]
    fn make_room<T: Tlb, D: Console>(&mut self, base: &mut Core<T, D>, number: usize)
        requires number { (number ≤ length self.old.items) × (number ≤ 256) }
        requires accepted { (t : State) × Leads base.old.state self.old.items t }
        requires room { transfers_of self.old.items ≤ base.old.room }
        ensures entries { self.new ≡ buffer (drop number self.old.items) self.old.capacity }
        ensures leads { Leads base.old.state (take number self.old.items) base.new.state }
        ensures room { base.old.room
            ≤ base.new.room + transfers_of (take number self.old.items) }
    {
        if number > 0 {
            self.drop_oldest(base, number);
        }
    }

    // Drops this many entries, the oldest ones, and makes their events on the base.
    #[inline(never)]
    fn drop_oldest<T: Tlb, D: Console>(&mut self, base: &mut Core<T, D>, number: usize)
        requires number { (number ≤ length self.old.items) × (number ≤ 256) }
        requires accepted { (t : State) × Leads base.old.state self.old.items t }
        requires room { transfers_of self.old.items ≤ base.old.room }
        ensures entries { self.new ≡ buffer (drop number self.old.items) self.old.capacity }
        ensures leads { Leads base.old.state (take number self.old.items) base.new.state }
        ensures room { base.old.room
            ≤ base.new.room + transfers_of (take number self.old.items) }
    {
        let Window {
            entries,
            transfers,
            dropped,
        } = self;
        *transfers -= make_oldest(entries, dropped, base, number);
    }

    /// The allocator that it was made with.
    pub(crate) fn allocator(&self) -> Global {
        *self.dropped.allocator()
    }
}

// Moves this many entries, the oldest ones, into the room for them, and makes their events on the
// base. The entries are written over with the same values. Returns how many of them are of `Done`.
fn make_oldest<T: Tlb, D: Console>(
    entries: &mut HeapCircularBuffer<PackedEntry>,
    room: &mut Vec<PackedEntry>,
    base: &mut Core<T, D>,
    number: usize,
) -> usize
    requires number { (number ≤ length entries.old.items) × (number ≤ length room.old.items) }
    requires accepted { (t : State) × Leads base.old.state entries.old.items t }
    requires room { transfers_of entries.old.items ≤ base.old.room }
    ensures entries { entries.new ≡ buffer (drop number entries.old.items) entries.old.capacity }
    ensures leads { Leads base.old.state (take number entries.old.items) base.new.state }
    ensures sent { result ≡ transfers_of (take number entries.old.items) }
    ensures base_room { base.old.room ≤ base.new.room + result }
    ensures length { length room.new.items ≡ length room.old.items }
{
    let (first, _) = room.as_mut_slice().split_at_mut(number);
    let _all = entries.read_into(first);
    base.repeat(first)
}

// Appends stored entries, for which there is room.
fn push_entries(entries: &mut Vec<Entry>, more: &[PackedEntry])
    requires room { length entries.old.items + length more.now ≤ vec_capacity entries.old }
    ensures items { entries.new.items ≡ entries.old.items ++ more.now }
    ensures capacity { vec_capacity entries.new ≡ vec_capacity entries.old }
{
    for kept in more {
        entries.push_reserved(kept.entry());
    }
}
