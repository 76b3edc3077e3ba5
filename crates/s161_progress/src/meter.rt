//! Showing how far work is.

ghost use Rattle.std.specs.Prelude.{◌≡◌, IfOk, string_bytes};
ghost use Rattle.s161_progress.specs.helpers.Shown.{shown_text};

use crate::amount::Amount;
use crate::counter::Progress;
use std::alloc::{AllocError, Global};
use std::io::Write;
use std::sync::{Condvar, Mutex, Wait};
use std::time::{Clock, Duration};

/// How it is shown.
#[derive(Clone, Copy, Debug, PartialEq, Eq)]
pub enum Way {
    /// In one line of a terminal: from half a second on, drawn again ten times a second.
    InPlace,
    /// A line a second, each behind the others.
    ByLines,
}

// What a meter has shown by now.
#[derive(Clone, Copy)]
struct Shown {
    // A line stands at the terminal.
    is_drawn: bool,
    // Nothing more is to be shown.
    is_over: bool,
}

/// Shows how far work is, in a thread of its own, until it is ended.
#[derive(Drop)]
pub struct Meter {
    shown: Mutex<Shown>,
    ended: Condvar,
}

// What clears the line of a terminal: back to its start, and everything behind that is erased (ECMA-48, "EL").
const CLEAR: &[u8] = b"\r\x1b[K";

// How long nothing is shown at first.
fn first_wait(way: Way) -> Duration {
    match way {
        Way::InPlace => Duration::from_millis(500),
        Way::ByLines => Duration::from_millis(1000),
    }
}

// How long it is from one to the next.
fn wait_between(way: Way) -> Duration {
    match way {
        Way::InPlace => Duration::from_millis(100),
        Way::ByLines => Duration::from_millis(1000),
    }
}

// What is written to show an amount.
fn shown_text(alloc: Global, way: Way, amount: Amount) -> Result<String, AllocError>
    ensures { IfOk result (λ text. string_bytes text ≡ shown_text way amount) }
{
    match way {
        Way::InPlace => format!(in alloc; "\r{amount}\x1b[K"),
        Way::ByLines => format!(in alloc; "{amount}\n"),
    }
}

// Writes a text at once. Where that fails, nothing is shown.
fn write<E: Write>(errors: &mut E, text: &[u8]) {
    let _written = errors.write_all(text);
    let _flushed = errors.flush();
}

impl Meter {
    /// Of which nothing is shown yet.
    pub fn new() -> Meter {
        Meter {
            shown: Mutex::new(Shown {
                is_drawn: false,
                is_over: false,
            }),
            ended: Condvar::new(),
        }
    }

    /// Shows on this output how far work is, until the meter is ended. Nothing is shown before work
    /// begins, and where the output fails or memory is refused.
    pub fn show<R: AllocGlobal + Wait + Clock, E: Write>(
        &self,
        rt: &R,
        errors: &mut E,
        progress: &Progress,
        way: Way,
    ) {
        if self.is_over_after(rt, first_wait(way)) {
            return;
        }
        for _ in rt.forever() {
            self.draw(rt, errors, progress, way);
            if self.is_over_after(rt, wait_between(way)) {
                return;
            }
        }
    }

    // Whether the meter is ended before this time is over.
    fn is_over_after<R: Wait + Clock>(&self, rt: &R, time: Duration) -> bool {
        let shown = self.shown.lock(rt);
        let (shown, _ended) = self
            .ended
            .wait_timeout_while(rt, shown, time, |shown| !shown.is_over);
        shown.is_over
    }

    // Shows how far work is, if the meter isn't ended.
    fn draw<R: AllocGlobal + Wait, E: Write>(
        &self,
        rt: &R,
        errors: &mut E,
        progress: &Progress,
        way: Way,
    ) {
        let mut shown = self.shown.lock(rt);
        if shown.is_over {
            return;
        }
        let Some(amount) = progress.amount() else {
            return;
        };
        if let Ok(text) = shown_text(rt.alloc(), way, amount) {
            write(errors, text.as_bytes());
            shown.is_drawn = way == Way::InPlace;
        }
    }

    /// Ends the meter, and clears its line on this output. What is written from now on has the line to
    /// itself.
    pub fn end<R: Wait, E: Write>(&self, rt: &R, errors: &mut E) {
        let mut shown = self.shown.lock(rt);
        if shown.is_drawn {
            write(errors, CLEAR);
        }
        shown.is_drawn = false;
        shown.is_over = true;
        self.ended.notify_all();
    }
}
