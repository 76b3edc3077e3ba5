//! What is noted of the events of a run.

ghost use Rattle.std.specs.Prelude.{◌≡◌, ◌+◌, ◌≤◌, ◌++◌, ℕ, List, OnOk, length, vec_capacity};
ghost use Rattle.m161_drive.specs.Drive.{IsNoted};
ghost use Rattle.circular_buffer.specs.Buffer.{keep_last};
ghost use Rattle.m161_machine.specs.declared.event.Entry.{Entry};
ghost use Rattle.m161_machine.specs.History.{events_of};

use circular_buffer::HeapCircularBuffer;
use m161_machine::{Event, PackedEntry};
use std::alloc::AllocError;

/// What keeps something of the entries of a run's events.
pub trait Notes {
    // It has what it keeps of these entries, where it has room for so many.
    ghost has: { ℕ → Self → List Entry → Type 0 };

    /// Adds entries, behind those so far.
    ///
    /// # Errors
    /// Memory was refused.
    fn add(&mut self, entries: &[PackedEntry]) -> Result<(), AllocError>
        ensures { OnOk result (IsNoted has self.old entries.now self.new) };
}

/// Notes nothing.
#[derive(Clone, Copy, Debug, Drop)]
pub struct Unnoted;

impl Notes for Unnoted {
    ghost has = { λ room notes so_far. Unit {0} };

    fn add(&mut self, _entries: &[PackedEntry]) -> Result<(), AllocError> {
        Ok(())
    }
}

/// The last entries, as many as there is room for, as a log keeps them. Contracts see it as the buffer.
impl Notes for HeapCircularBuffer<PackedEntry> {
    ghost has = { λ room last so_far. (last.capacity ≡ room) × (last.items ≡ keep_last room so_far) };

    fn add(&mut self, entries: &[PackedEntry]) -> Result<(), AllocError> {
        // A run whose log isn't shown has no room for it, and spends no time on it.
        if self.capacity() > 0 {
            self.extend_from_slice(entries);
        }
        Ok(())
    }
}

/// The events, one by one.
impl Notes for Vec<Event> {
    ghost has = { λ room events so_far. events.items ≡ events_of so_far };

    fn add(&mut self, entries: &[PackedEntry]) -> Result<(), AllocError> {
        self.reserve(entries.len())?;
        push_events(self, entries);
        Ok(())
    }
}

// Appends the events of these entries, for which there is room.
fn push_events(events: &mut Vec<Event>, entries: &[PackedEntry])
    requires { length events.old.items + length entries.now ≤ vec_capacity events.old }
    ensures { events.new.items ≡ events.old.items ++ events_of entries.now }
{
    for entry in entries {
        events.push_reserved(entry.entry().event);
    }
}
