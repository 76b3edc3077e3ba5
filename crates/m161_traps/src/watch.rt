//! What is watched of the entries of a run, whatever its state is: to which vectors there were traps, and
//! which processors' last Steps trapped.

ghost use Rattle.std.specs.Prelude.{◌≡◌, ℕ, ◌*◌, ◌<◌, ◌≤◌, ◌++◌, [], true, false, IfOk, List, None, OnOk, length, slice_index_or, string_bytes, take};
ghost use Rattle.std.specs.List.{All};
ghost use Rattle.m161_cpu.specs.declared.processor.Outcome.TheVariants as outcomes;
ghost use Rattle.m161_machine.specs.declared.event.Entry.{Entry as EntryValue};
ghost use Rattle.m161_traps.specs.Shown.{trapping_text};
ghost use Rattle.m161_traps.specs.Watching.{IsSeen, IsToFile, IsWatched, has_vector};
ghost use Rattle.m161_traps.specs.helpers.Watching.{IsKept, after_entry};

use crate::text::show_trapping;
use crate::trapping::{Trapping, after};
use crate::unhandled::is_in_file;
use m161_cpu::Outcome;
use m161_elf::Span;
use m161_machine::{Entry, Event, PackedEntry};
use std::alloc::{AllocError, Global};

/// The vector of a miss in kuseg.
const MISS: u32 = 0x8000_0000;

/// The vector of all other traps.
const GENERAL: u32 = 0x8000_0080;

/// To which vectors there were traps: to that of misses in kuseg, to that of all others, and to
/// another.
#[derive(Clone, Copy)]
struct Vectors {
    miss: bool,
    general: bool,
    beyond: bool,
}

/// What is watched of the entries of a run.
#[derive(Drop)]
pub struct Watch {
    // of each processor, its last Steps, if they trapped
    tails: [Option<Trapping>; 32],
    // there are none
    quiet: bool,
    vectors: Vectors,
}

// Whether a Step ran, and did no more.
#[inline(always)]
fn has_run(entry: PackedEntry) -> bool
    ensures { result ≡ true → entry.outcome ≡ outcomes.Ran }
{
    match entry.entry().outcome {
        Outcome::Ran => true,
        _ => false,
    }
}

// Whether four Steps ran, and did no more. No branch, so that LLVM makes one test of the four.
#[inline(always)]
fn four_have_run(a: PackedEntry, b: PackedEntry, c: PackedEntry, d: PackedEntry) -> bool
    ensures { result ≡ true → (a.outcome ≡ outcomes.Ran) × (b.outcome ≡ outcomes.Ran)
        × (c.outcome ≡ outcomes.Ran) × (d.outcome ≡ outcomes.Ran) }
{
    has_run(a) & has_run(b) & has_run(c) & has_run(d)
}

// Whether all of these Steps ran, and did no more, for four quarters of this length: so that LLVM looks
// at several entries of each at once.
#[inline(always)]
fn quarters_have_run(entries: &[PackedEntry], quarter: usize) -> bool
    requires { 4 * quarter ≤ length entries.now }
    ensures { result ≡ true → All (λ (e : EntryValue). e.outcome ≡ outcomes.Ran)
        (take (4 * quarter) entries.now) }
{
    let mut all = true;
    for k in 0..quarter {
        all &= four_have_run(
            entries[k],
            entries[quarter + k],
            entries[2 * quarter + k],
            entries[3 * quarter + k],
        );
    }
    all
}

// The same of each, one by one.
#[inline(always)]
fn each_has_run(entries: &[PackedEntry]) -> bool
    ensures { result ≡ true → All (λ (e : EntryValue). e.outcome ≡ outcomes.Ran) entries.now }
{
    let mut all = true;
    for entry in entries {
        all &= has_run(*entry);
    }
    all
}

// The same of all.
#[inline(always)]
fn have_run(entries: &[PackedEntry]) -> bool
    ensures { result ≡ true → All (λ (e : EntryValue). e.outcome ≡ outcomes.Ran) entries.now }
{
    let quarter = entries.len() / 4;
    if !quarters_have_run(entries, quarter) {
        return false;
    }
    each_has_run(&entries[4 * quarter..])
}

// Whether no processor's last Step trapped.
fn are_quiet(tails: &[Option<Trapping>; 32]) -> bool
    ensures { result ≡ true → (p : ℕ) → p < 32 → slice_index_or tails.now p None ≡ None }
{
    for tail in tails {
        if tail.is_some() {
            return false;
        }
    }
    true
}

// Notes an entry in its processor's last Steps.
fn note_step(tails: &mut [Option<Trapping>; 32], entry: Entry) -> Result<(), AllocError>
    ensures { OnOk result ((p : ℕ) → p < 32 → slice_index_or tails.new p None
        ≡ after_entry p entry (slice_index_or tails.old p None)) }
{
    let Event::Step(p) = entry.event else {
        return Ok(());
    };
    if p < 32 {
        tails[p as usize] = after(tails[p as usize], entry.outcome)?;
    }
    Ok(())
}

// Notes the vector of an outcome, if it is a trap's.
fn note_vector(vectors: Vectors, outcome: Outcome) -> Vectors
    ensures seen { IsSeen result outcome }
    ensures kept { (to : ℕ) → has_vector vectors to ≡ true → has_vector result to ≡ true }
{
    let mut vectors = vectors;
    if let Outcome::Trapped { code: _, vector } = outcome {
        match vector {
            MISS => vectors.miss = true,
            GENERAL => vectors.general = true,
            _ => vectors.beyond = true,
        }
    }
    vectors
}

impl Watch {
    /// Of no entries.
    pub fn new() -> Watch
        ensures { IsWatched result [] }
    {
        Watch {
            tails: [None; 32],
            quiet: true,
            vectors: Vectors {
                miss: false,
                general: false,
                beyond: false,
            },
        }
    }

    // Notes entries, one by one.
    fn note_all(&mut self, entries: &[PackedEntry]) -> Result<(), AllocError>
        ensures { OnOk result ((so_far : List EntryValue)
            → IsKept self.old.tails self.old.vectors so_far
            → IsKept self.new.tails self.new.vectors (so_far ++ entries.now)) }
    {
        for packed in entries {
            let entry = packed.entry();
            note_step(&mut self.tails, entry)?;
            self.vectors = note_vector(self.vectors, entry.outcome);
        }
        Ok(())
    }

    /// Adds entries, behind those so far. Where no last Step trapped and all new ones ran, that takes about
    /// a machine instruction for each.
    ///
    /// # Errors
    /// A processor trapped 2^64 times, which no machine does.
    pub fn add(&mut self, entries: &[PackedEntry]) -> Result<(), AllocError>
        ensures { OnOk result ((so_far : List EntryValue)
            → IsWatched self.old so_far → IsWatched self.new (so_far ++ entries.now)) }
    {
        if self.quiet && have_run(entries) {
            return Ok(());
        }
        self.note_all(entries)?;
        self.quiet = are_quiet(&self.tails);
        Ok(())
    }

    /// Whether there may have been a trap to a vector at which an image has no byte in its file, where
    /// these are the spans of its bytes there.
    pub fn leaves_file(&self, spans: &[Span]) -> bool
        ensures { (so_far : List EntryValue) → IsWatched self.now so_far → result ≡ false
            → All (λ (e : EntryValue). IsToFile spans.now e.outcome) so_far }
    {
        let Vectors {
            miss,
            general,
            beyond,
        } = self.vectors;
        (miss && !is_in_file(spans, MISS)) || (general && !is_in_file(spans, GENERAL)) || beyond
    }

    /// The notes on processors whose last three Steps or more trapped.
    ///
    /// # Errors
    /// Memory was refused.
    pub fn show(&self, alloc: Global) -> Result<String, AllocError>
        ensures { IfOk result (λ text. (so_far : List EntryValue) → IsWatched self.now so_far
            → string_bytes text ≡ trapping_text so_far) }
    {
        let text = show_trapping(alloc, &self.tails)?;
        Ok(text)
    }
}
