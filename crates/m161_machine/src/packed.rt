//! The log's entries as they are stored: four bytes each, since every Step writes one.

ghost use Rattle.std.specs.Prelude.{◌≡◌, ℕ, ◌+◌, ◌*◌, ◌/◌, ◌%◌, ◌<◌, ◌≤◌, ◌^◌, IfOk, length, replicate};
ghost use Rattle.m161_cop0.specs.Trap.{IsVector};
ghost use Rattle.m161_cpu.specs.declared.processor.Outcome.TheVariants as outcomes;
ghost use Rattle.m161_cpu.specs.Step.{AreTwoRows, IsOfStep};
ghost use Rattle.m161_machine.specs.declared.event.Event.TheVariants as events;
ghost use Rattle.m161_machine.specs.History.{entry, is_step_of};
ghost use Rattle.m161_machine.specs.Packed.{number_of_vector, outcome_with, place_of, vector_with};
ghost use Rattle.m161_machine.specs.Stretch.{planned};

use crate::event::{Entry, Event};
use m161_cop0::Exception;
use m161_cpu::Outcome;
use std::alloc::{AllocError, Global};
use std::marker::Model;

/// The code of a conflict.
const CONFLICT: u32 = 3;

/// The code of a typed byte.
const KEY: u32 = 62;

/// The code of a byte that was sent.
const DONE: u32 = 63;

/// An entry in the four bytes in which it is stored. Contracts see it as the entry.
#[derive(Clone, Copy)]
pub struct PackedEntry {
    word: u32,
}

impl Model for PackedEntry {
    ghost use Rattle.std.specs.Prelude.{◌≡◌, ◌/◌, ◌%◌, ◌^◌, ◌<◌};
    ghost use Rattle.m161_machine.specs.declared.event.Entry.{Entry};
    ghost use Rattle.m161_machine.specs.Packed.{entry_in_word, word_of_entry};

    ghost Value = { Entry };

    ghost view = { λ k. entry_in_word k.word };

    // the word is that of its entry, the number with the code of a typed byte is a byte, and with
    // that of a conflict there are 23 bits
    ghost invariant = { λ k. (word_of_entry (entry_in_word k.word) ≡ k.word)
        × (k.word % 64 ≡ 62 → k.word / 64 < 256)
        × (k.word % 64 ≡ 3 → k.word < 2 ^ 23) };

    ghost inverse = { λ e. record { word = word_of_entry e } };

    ghost inverse_ok = { λ k h i. record { word = h.0 i } };
}

// The number of a trap's vector.
fn vector_number(vector: u32) -> u32
    requires { IsVector vector }
    ensures small { result < 4 }
    ensures number { result ≡ number_of_vector vector }
    ensures value { vector_with result ≡ vector }
{
    match vector {
        0x8000_0000 => 0,
        0x8000_0080 => 1,
        0xbfc0_0100 => 2,
        _ => 3,
    }
}

// The vector of a number.
fn vector_at(number: u32) -> u32
    ensures { result ≡ vector_with number }
{
    match number {
        0 => 0x8000_0000,
        1 => 0x8000_0080,
        2 => 0xbfc0_0100,
        _ => 0xbfc0_0180,
    }
}

// The code of a Step's outcome, with the rows of a conflict in their places.
#[inline(always)]
fn place(outcome: Outcome) -> u32
    requires { IsOfStep outcome }
    ensures small { (result % 2048 < 62) × (result < 2 ^ 23) }
    ensures place { result ≡ place_of outcome }
    ensures value { outcome_with (result % 64) (result / 2048) ≡ outcome }
{
    match outcome {
        Outcome::Ran => 0,
        other => place_of_other(other),
    }
}

// The code of an outcome other than Ran.
#[cold]
#[inline(never)]
fn place_of_other(outcome: Outcome) -> u32
    requires { IsOfStep outcome }
    ensures small { (result % 2048 < 62) × (result < 2 ^ 23) }
    ensures place { result ≡ place_of outcome }
    ensures value { outcome_with (result % 64) (result / 2048) ≡ outcome }
{
    match outcome {
        Outcome::Ran => 0,
        Outcome::Idle => 1,
        Outcome::PoweredOff => 2,
        Outcome::Conflict { row, other } => place_of_conflict(row, other),
        Outcome::Trapped { code, vector } => place_of_trap(code, vector),
        Outcome::Taken => 0,
    }
}

fn place_of_conflict(row: u8, other: u8) -> u32
    requires { AreTwoRows row other }
    ensures small { (result % 2048 < 62) × (result < 2 ^ 23) }
    ensures place { result ≡ place_of (outcomes.Conflict row other) }
    ensures value { outcome_with (result % 64) (result / 2048) ≡ outcomes.Conflict row other }
{
    (u32::from(row) * 64 + u32::from(other)) * 2048 + CONFLICT
}

fn place_of_trap(code: Exception, vector: u32) -> u32
    requires { IsVector vector }
    ensures small { result < 62 }
    ensures large { 4 ≤ result }
    ensures place { result ≡ place_of (outcomes.Trapped code vector) }
    ensures value { outcome_with (result % 64) (result / 2048) ≡ outcomes.Trapped code vector }
{
    4 + u32::from(code.number()) * 4 + vector_number(vector)
}

// The outcome of a Step with a code and, of a conflict, these rows.
fn outcome_at(code: u32, rows: u32) -> Outcome
    requires code { code < 62 }
    requires rows { code ≡ 3 → rows < 64 * 64 }
    ensures { result ≡ outcome_with code rows }
{
    match code {
        0 => Outcome::Ran,
        1 => Outcome::Idle,
        2 => Outcome::PoweredOff,
        CONFLICT => Outcome::Conflict {
            row: (rows / 64) as u8,
            other: (rows % 64) as u8,
        },
        _ => {
            let trap = code.saturating_sub(4);
            Outcome::Trapped {
                code: Exception::from_number((trap / 4) as u8).unwrap_or(Exception::Interrupt),
                vector: vector_at(trap % 4),
            }
        }
    }
}

impl PackedEntry {
    /// A Step of a processor, and its outcome.
    #[inline(always)]
    pub(crate) fn of_step(p: u32, outcome: Outcome) -> PackedEntry
        requires small { p < 32 }
        requires proper { IsOfStep outcome }
        ensures { result ≡ entry (events.Step p) outcome }
    {
        PackedEntry {
            word: p * 64 + place(outcome),
        }
    }

    /// A typed byte.
    pub(crate) fn of_key(byte: u8) -> PackedEntry
        ensures { result ≡ entry (events.Key byte) outcomes.Taken }
    {
        PackedEntry {
            word: u32::from(byte) * 64 + KEY,
        }
    }

    /// A byte that was sent.
    pub(crate) fn of_done() -> PackedEntry
        ensures { result ≡ entry events.Done outcomes.Taken }
    {
        PackedEntry { word: DONE }
    }

    /// A Step of a processor that is to be made.
    #[inline(always)]
    pub fn planned(p: u32) -> PackedEntry
        requires { p < 32 }
        ensures { result ≡ planned p }
    {
        PackedEntry::of_step(p, Outcome::Ran)
    }

    /// The processor of a Step that is to be made.
    #[inline(always)]
    pub(crate) fn processor(&self) -> u32
        requires { (p : ℕ) × (p < 32) × (self.now ≡ planned p) }
        ensures { self.now ≡ planned result }
    {
        self.word / 64
    }

    /// An entry that is to be written over.
    pub fn blank() -> PackedEntry
        ensures { result ≡ planned 0 }
    {
        PackedEntry::planned(0)
    }

    /// The entry.
    pub fn entry(&self) -> Entry
        ensures { result ≡ self.now }
    {
        match self.word % 64 {
            KEY => Entry {
                event: Event::Key((self.word / 64) as u8),
                outcome: Outcome::Taken,
            },
            DONE => Entry {
                event: Event::Done,
                outcome: Outcome::Taken,
            },
            code => Entry {
                event: Event::Step(self.word / 64 % 32),
                outcome: outcome_at(code, self.word / 2048),
            },
        }
    }

    /// Whether it is of a Step of this processor.
    #[inline(always)]
    pub(crate) fn is_step_of(&self, p: u32) -> bool
        ensures { result ≡ is_step_of p self.now.event }
    {
        self.word % 64 < KEY && self.word / 64 % 32 == p
    }
}

/// Entries that are to be written over.
pub(crate) fn blanks(alloc: Global, number: usize) -> Result<Vec<PackedEntry>, AllocError>
    ensures { IfOk result (λ blanks. length blanks.items ≡ number) }
{
    let mut blanks = Vec::with_capacity(alloc, number)?;
    for _blank in 0..number {
        blanks.push_reserved(PackedEntry::blank());
    }
    Ok(blanks)
}

/// Plans a Step of a processor at each of these places.
#[inline(always)]
pub fn plan_all(places: &mut [PackedEntry], p: u32)
    requires { p < 32 }
    ensures { places.new ≡ replicate (length places.old) (planned p) }
{
    for place in 0..places.len() {
        places[place] = PackedEntry::planned(p);
    }
}
