//! Counting what is done.

use crate::amount::{Amount, Unit};
use m161_progress::Listener;
use std::sync::atomic::{AtomicU64, Ordering};

// No work has begun.
const NOTHING: u64 = 0;

// How many there are isn't known.
const UNKNOWN: u64 = u64::MAX;

/// How far work is. Any thread may count and read; what is read may be a moment old.
#[derive(Drop)]
pub struct Progress {
    // The number of the unit; `NOTHING` before work begins.
    unit: AtomicU64,
    done: AtomicU64,
    // `UNKNOWN` where it isn't known.
    most: AtomicU64,
}

// The number of a unit.
fn number_of(unit: Unit) -> u64 {
    match unit {
        Unit::Runs => 1,
        Unit::States => 2,
        Unit::Events => 3,
    }
}

// The unit of a number.
fn unit_of(number: u64) -> Unit {
    match number {
        1 => Unit::Runs,
        2 => Unit::States,
        _ => Unit::Events,
    }
}

impl Progress {
    /// Of work that hasn't begun.
    pub fn new() -> Progress {
        Progress {
            unit: AtomicU64::new(NOTHING),
            done: AtomicU64::new(0),
            most: AtomicU64::new(UNKNOWN),
        }
    }

    /// Work begins, of which nothing is done. How many there are at most is told where it is known; the
    /// greatest number counts as unknown.
    pub fn begin(&self, unit: Unit, most: Option<u64>) {
        self.done.store(0, Ordering::SeqCst);
        self.most.store(most.unwrap_or(UNKNOWN), Ordering::SeqCst);
        self.unit.store(number_of(unit), Ordering::SeqCst);
    }

    /// So many more are done.
    pub fn add(&self, more: u64) {
        let _before = self.done.fetch_add(more, Ordering::SeqCst);
    }

    /// How much is done, once work has begun.
    pub fn amount(&self) -> Option<Amount> {
        let unit = self.unit.load(Ordering::SeqCst);
        if unit == NOTHING {
            return None;
        }
        let most = self.most.load(Ordering::SeqCst);
        Some(Amount {
            done: self.done.load(Ordering::SeqCst),
            most: if most == UNKNOWN { None } else { Some(most) },
            unit: unit_of(unit),
        })
    }
}

impl Listener for Progress {
    fn reached(&self, number: u64) {
        self.done.store(number, Ordering::SeqCst);
    }
}
