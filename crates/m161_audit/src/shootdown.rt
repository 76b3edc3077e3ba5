//! How far the shootdowns are.

ghost use Rattle.std.specs.Prelude.{◌≡◌, ℕ, ◌≤◌, ◌<◌, ◌%◌, List, [], false, Some, IfOk, All, length, map, slice_get};
ghost use Rattle.m161_machine.specs.StoreHistory.{stores_after};
ghost use Rattle.m161_audit.specs.Tracking.{progress_after, tracked};
ghost use Rattle.m161_audit.specs.helpers.Progress.{AreInRanges, IsAtMost, IsWithin, after_word, has_gone_on};

use crate::watch::Watch;
use std::alloc::{AllocError, Global};
use std::marker::Model;

/// How far a shootdown is.
#[derive(Clone, Copy, Debug, PartialEq, Eq)]
pub(crate) enum Progress {
    /// The page table's entry wasn't stored to.
    Before,
    /// It was, and after that the mark wasn't.
    Changed,
    /// After the last store to the entry there was one to the mark: the initiator has gone on.
    GoneOn,
}

/// A watch, and how far its shootdown is.
#[derive(Clone, Copy)]
pub(crate) struct Shootdown {
    pub(crate) watch: Watch,
    pub(crate) progress: Progress,
}

// For each remainder of a page by 64, a range of places: that of each shootdown of such a page whose
// initiator has gone on is from the first place on and before the other one.
#[derive(Drop)]
struct Ranges {
    firsts: [usize; 64],
    pasts: [usize; 64],
}

/// The shootdowns of all watches. Contracts see them as their list.
#[derive(Drop)]
pub(crate) struct Shootdowns {
    items: Vec<Shootdown>,
    // All words of the watches are from `low` to `high`, so a store elsewhere changes nothing.
    low: u32,
    high: u32,
    ranges: Ranges,
}

impl Model for Shootdowns {
    ghost use Rattle.std.specs.Prelude.{◌≡◌, List, All, length};
    ghost use Rattle.m161_audit.specs.declared.shootdown.Shootdown.{Shootdown};
    ghost use Rattle.m161_audit.specs.helpers.Progress.{AreInRanges, IsAtMost, IsWithin};

    ghost Value = { List Shootdown };

    ghost view = { λ s. s.items.items };

    ghost invariant = { λ s.
        All (IsWithin s.low s.high) s.items.items
        × AreInRanges s.ranges.firsts s.ranges.pasts s.items.items
        × All (IsAtMost (length s.items.items)) s.ranges.pasts
        × (length s.ranges.firsts ≡ 64)
        × (length s.ranges.pasts ≡ 64) };
}

// The progress after a store to a word.
fn progress_after(watch: &Watch, word: u32, progress: Progress) -> Progress
    ensures { result ≡ progress_after watch.now word progress }
{
    if watch.pte == word {
        return Progress::Changed;
    }
    if watch.done == word {
        return match progress {
            Progress::Before => Progress::Before,
            Progress::Changed | Progress::GoneOn => Progress::GoneOn,
        };
    }
    progress
}

// A shootdown after a store to a word.
fn noted(shootdown: Shootdown, word: u32) -> Shootdown
    ensures { result ≡ after_word word shootdown }
{
    Shootdown {
        watch: shootdown.watch,
        progress: progress_after(&shootdown.watch, word, shootdown.progress),
    }
}

// Notes a store to a word.
fn note_store(items: &mut Vec<Shootdown>, word: u32)
    ensures { items.new.items ≡ map (after_word word) items.old.items }
{
    for i in 0..items.len() {
        items[i] = noted(items[i], word);
    }
}

// Whether the initiator has gone on.
fn has_gone_on(progress: Progress) -> bool
    ensures { result ≡ has_gone_on progress }
{
    match progress {
        Progress::GoneOn => true,
        Progress::Before | Progress::Changed => false,
    }
}

// The ranges of the shootdowns.
fn ranges_of(items: &[Shootdown]) -> Ranges
    ensures ranges { AreInRanges result.firsts result.pasts items.now }
    ensures bounded { All (IsAtMost (length items.now)) result.pasts }
    ensures firsts { length result.firsts ≡ 64 }
    ensures pasts { length result.pasts ≡ 64 }
{
    let mut firsts = [usize::MAX; 64];
    let mut pasts = [0; 64];
    for (i, item) in items.iter().enumerate() {
        if has_gone_on(item.progress) {
            let page = (item.watch.page % 64) as usize;
            firsts[page] = firsts[page].min(i);
            pasts[page] = i + 1;
        }
    }
    Ranges { firsts, pasts }
}

// The shootdowns of watches before any store.
fn from_start(alloc: Global, watches: &[Watch]) -> Result<Vec<Shootdown>, AllocError>
    ensures { IfOk result (λ v. v.items ≡ tracked watches.now []) }
{
    let mut items = Vec::with_capacity(alloc, watches.len())?;
    for watch in watches {
        items.push_reserved(Shootdown {
            watch: *watch,
            progress: Progress::Before,
        });
    }
    Ok(items)
}

// The same shootdowns again.
fn copied(alloc: Global, items: &[Shootdown]) -> Result<Vec<Shootdown>, AllocError>
    ensures { IfOk result (λ copy. copy.items ≡ items.now) }
{
    let mut copy = Vec::with_capacity(alloc, items.len())?;
    copy.extend_from_slice(items)?;
    Ok(copy)
}

// Bounds, and the words of a shootdown.
fn widened(low: u32, high: u32, item: &Shootdown) -> (u32, u32)
    ensures wider { (result.0 ≤ low) × (high ≤ result.1) }
    ensures within { IsWithin result.0 result.1 item.now }
{
    let Watch {
        id: _,
        page: _,
        pte,
        done,
    } = item.watch;
    (low.min(pte).min(done), high.max(pte).max(done))
}

// The least and the greatest word of the watches.
fn bounds(items: &[Shootdown]) -> (u32, u32)
    ensures { All (IsWithin result.0 result.1) items.now }
{
    let mut low = u32::MAX;
    let mut high = 0;
    for item in items {
        (low, high) = widened(low, high, item);
    }
    (low, high)
}

impl Shootdowns {
    /// The shootdowns of watches before any store.
    pub(crate) fn new(alloc: Global, watches: &[Watch]) -> Result<Shootdowns, AllocError>
        ensures { IfOk result (λ shootdowns. shootdowns ≡ tracked watches.now []) }
    {
        let items = from_start(alloc, watches)?;
        let (low, high) = bounds(items.as_slice());
        let ranges = ranges_of(items.as_slice());
        Ok(Shootdowns {
            items,
            low,
            high,
            ranges,
        })
    }

    /// The same shootdowns, as far as these are.
    pub(crate) fn copy(&self, alloc: Global) -> Result<Shootdowns, AllocError>
        ensures { IfOk result (λ copy. copy ≡ self.now) }
    {
        let items = copied(alloc, self.items.as_slice())?;
        let ranges = ranges_of(items.as_slice());
        Ok(Shootdowns {
            items,
            low: self.low,
            high: self.high,
            ranges,
        })
    }

    /// Notes the store of a Step, if there was one.
    #[inline(always)]
    pub(crate) fn note_stored(&mut self, stored: Option<u32>)
        ensures { (watches : List Watch) (stores : List ℕ)
            → self.old ≡ tracked watches stores
            → self.new ≡ tracked watches (stores_after stored stores) }
    {
        match stored {
            Some(word) => self.note(word),
            None => {}
        }
    }

    // Notes a store to a word.
    #[inline(always)]
    fn note(&mut self, word: u32)
        ensures { self.new ≡ map (after_word word) self.old }
    {
        if self.may_be_watched(word) {
            self.note_within(word);
        }
    }

    // Whether a word may be watched. A store to any other one changes nothing.
    #[inline(always)]
    fn may_be_watched(&self, word: u32) -> bool
        ensures { result ≡ false → map (after_word word) self.now ≡ self.now }
    {
        if word < self.low {
            return false;
        }
        if word > self.high {
            return false;
        }
        true
    }

    // Notes a store to a word that may be watched.
    #[cold]
    #[inline(never)]
    fn note_within(&mut self, word: u32)
        ensures { self.new ≡ map (after_word word) self.old }
    {
        let Shootdowns {
            items,
            low: _,
            high: _,
            ranges,
        } = self;
        note_store(items, word);
        *ranges = ranges_of(items.as_slice());
    }

    /// The places, from the first on and before the other one, of the shootdowns whose pages have
    /// the remainder of this page by 64 and whose initiators have gone on.
    #[inline(always)]
    pub(crate) fn range(&self, page: u32) -> (usize, usize)
        ensures within { result.1 ≤ length self.now }
        ensures range { (i : ℕ) (x : Shootdown) → slice_get self.now i ≡ Some x
            → x.watch.page % 64 ≡ page % 64 → x.progress ≡ Progress.GoneOn
            → (result.0 ≤ i) × (i < result.1) }
    {
        let page = (page % 64) as usize;
        (self.ranges.firsts[page], self.ranges.pasts[page])
    }

    /// The shootdowns, one by one.
    pub(crate) fn as_slice(&self) -> &[Shootdown]
        ensures { result.now ≡ self.now }
    {
        self.items.as_slice()
    }
}
