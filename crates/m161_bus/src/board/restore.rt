//! A board made anew from what it holds.

ghost use Rattle.std.specs.Prelude.{◌≡◌, ◌<◌, ◌≤◌, length};
ghost use Rattle.m161_bus.specs.Board.{with_place};
ghost use Rattle.m161_bus.specs.Restore.{restored_place, with_parts};

use crate::board::{Board, settle};
use crate::console::{Console, ConsoleParts};

/// What a board holds that is no processor's, but for the bytes that wait to be read and those that
/// were sent.
#[derive(Clone, Copy)]
pub struct BoardParts {
    /// IRQE.
    pub irqe: u32,
    /// CPUE: the processors that were started.
    pub started: u32,
    /// Whether the machine was switched off.
    pub off: bool,
    /// The console.
    pub console: ConsoleParts,
}

/// What a board holds for a processor.
#[derive(Clone, Copy)]
pub struct PlaceParts {
    /// CIRQE.
    pub cirqe: u32,
    /// Whether CIPI is raised.
    pub cipi: bool,
    /// CRAM.
    pub cram: [u32; 64],
}

impl<D: Console> Board<D> {
    /// Makes its registers those that hold this, with a console in which no byte waits and which has
    /// sent none. What it holds for processors stays. Does not allocate.
    #[inline(never)]
    pub fn restore(&mut self, parts: &BoardParts)
        ensures state { self.new.state ≡ with_parts parts.now self.old.state }
        ensures room { self.old.room ≤ self.new.room }
        ensures changed { self.new.changed ≡ self.old.changed }
    {
        let Board {
            lines,
            through,
            places,
            irqe,
            started,
            off,
            console,
            changed: _,
            ram: _,
            processors: _,
        } = self;
        *irqe = parts.irqe;
        *started = parts.started;
        *off = parts.off;
        console.restore(&parts.console);
        settle(lines, through, places, parts.irqe, console);
    }

    /// Makes what it holds for processor `p` this. Does not allocate.
    #[inline(never)]
    pub fn restore_place(&mut self, p: u32, parts: &PlaceParts)
        requires place { p < self.old.state.processors }
        requires cram { length parts.now.cram ≡ 64 }
        ensures state { self.new.state ≡ with_place p (restored_place parts.now) self.old.state }
        ensures room { self.new.room ≡ self.old.room }
        ensures changed { self.new.changed ≡ self.old.changed }
    {
        self.places[p as usize].restore(parts);
        self.lines[p as usize] = self.places[p as usize].lines(self.through);
    }
}
