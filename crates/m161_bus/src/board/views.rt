//! What a board shows, and the events of its console.

ghost use Rattle.std.specs.Prelude.{◌≡◌, ◌≢◌, ◌+◌, ◌<◌, ◌≤◌, false, Err, length, slice_index, IsOk, OnOk, OnErr};
ghost use Rattle.m161_bus.specs.Board.{IsShown, KeepsSize, board_done, board_key, interrupt_lines, shown_word, start_words};
ghost use Rattle.m161_bus.specs.declared.console.DoneError.TheVariants.{NoMemory};
ghost use Rattle.m161_bus.specs.Outcome.{LeavesUnlessRefused, LeavesUnlessNoMemory};

use crate::board::{Board, StartWords, settle};
use crate::console::{Console, ConsoleRegister, DoneError, KeyFull};
use crate::register::BoardWord;
use std::alloc::AllocError;

/// Where the processors' places begin in kseg1.
const PLACES_IN_KSEG1: u32 = 0xbfff_8000;

/// Bytes of a processor's place.
const PLACE_SIZE: u32 = 0x400;

impl<D: Console> Board<D> {
    /// The lines of processor `c`, as bits of Cause's IP: 00000400 the bus, 00000800 the
    /// interprocessor interrupt. One load.
    #[tactic(auto, unfolding(crate::specs::Board::interrupt_lines))]
    pub fn lines(&self, c: u32) -> u32
        requires { c < self.now.state.processors }
        ensures lines { result ≡ interrupt_lines c self.now.state }
        ensures few { self.now.state.processors ≤ 32 }
    {
        self.lines[c as usize]
    }

    /// CPUE: bit `c` is set if processor `c` was started.
    pub fn started(&self) -> u32
        ensures { result ≡ self.now.state.started }
    {
        self.started
    }

    /// Whether the machine was switched off.
    pub fn is_off(&self) -> bool
        ensures { result ≡ self.now.state.off }
    {
        self.off
    }

    /// Bytes of RAM.
    pub fn ram(&self) -> u32
        ensures { result ≡ self.now.state.ram }
    {
        self.ram
    }

    /// How many processors there are.
    pub fn processors(&self) -> u32
        ensures value { result ≡ self.now.state.processors }
        ensures limits { (1 ≤ result) × (result ≤ 32) }
    {
        self.processors
    }

    /// How processor `c` begins if CPUE starts it now.
    pub fn start_words(&self, c: u32) -> StartWords
        requires { c < self.now.state.processors }
        ensures { result ≡ start_words c self.now.state }
    {
        let place = &self.places[c as usize];
        StartWords {
            pc: place.cram(0),
            r4: place.cram(1),
            r29: PLACES_IN_KSEG1 + c * PLACE_SIZE + PLACE_SIZE,
        }
    }

    /// The console.
    pub fn console(&self) -> &D
        ensures { D.content result.now ≡ self.now.state.console }
    {
        &self.console
    }

    /// The byte that the console is sending, if it is.
    pub fn latch(&self) -> Option<u8>
        ensures { result ≡ self.now.state.console.latch }
    {
        self.console.latch()
    }

    /// How many typed bytes wait to be read.
    pub fn waiting(&self) -> u32
        ensures { result ≡ length self.now.state.console.waiting }
    {
        self.console.waiting()
    }

    /// A typed byte that waits to be read, by its place behind the oldest.
    pub fn waiting_byte(&self, place: u32) -> u8
        requires { place < length self.now.state.console.waiting }
        ensures { result ≡ slice_index self.now.state.console.waiting place }
    {
        self.console.waiting_byte(place)
    }

    /// A word that an event can change, as a processor would read it. Nothing is changed.
    pub fn word(&self, word: BoardWord) -> u32
        requires { IsShown self.now.state.processors word }
        ensures { result ≡ shown_word word self.now.state }
    {
        match word {
            BoardWord::WriteIrq => self.console.peek(ConsoleRegister::WriteIrq),
            BoardWord::ReadIrq => self.console.peek(ConsoleRegister::ReadIrq),
            BoardWord::Irqe => self.irqe,
            BoardWord::Cpue => self.started,
            BoardWord::Cirqe(p) => self.places[p as usize].cirqe(),
            BoardWord::Cipi(p) => u32::from(self.places[p as usize].cipi()),
            BoardWord::Cram(p, i) => self.places[p as usize].cram(i),
        }
    }

    /// All bytes that the console sent, the first one first.
    pub fn output(&self) -> &[u8]
        ensures { result.now ≡ self.now.state.console.output }
    {
        self.console.output()
    }

    /// Types a byte. Does not allocate.
    pub fn key(&mut self, byte: u8) -> Result<(), KeyFull>
        ensures key { LeavesUnlessRefused (board_key byte self.old.state)
            self.old.state result self.new.state }
        ensures size { KeepsSize self.old.state self.new.state }
        ensures room { self.new.room ≡ self.old.room }
        ensures changed { self.new.changed ≡ self.old.changed }
    {
        let Board {
            lines,
            through,
            places,
            irqe,
            console,
            changed: _,
            ram: _,
            processors: _,
            started: _,
            off: _,
        } = self;
        console.key(byte)?;
        settle(lines, through, places, *irqe, console);
        Ok(())
    }

    /// Sends the byte in the console's latch. Takes at most one byte's room, and allocates only if
    /// there is none.
    pub fn done(&mut self) -> Result<(), DoneError>
        ensures done { LeavesUnlessNoMemory (board_done self.old.state)
            self.old.state result self.new.state }
        ensures size { KeepsSize self.old.state self.new.state }
        ensures room { self.old.room ≤ self.new.room + 1 }
        ensures changed { self.new.changed ≡ self.old.changed }
        ensures succeeds { 1 ≤ self.old.room → result ≢ Err NoMemory }
        ensures err { OnErr result (self.new.room ≡ self.old.room) }
    {
        let Board {
            lines,
            through,
            places,
            irqe,
            console,
            changed: _,
            ram: _,
            processors: _,
            started: _,
            off: _,
        } = self;
        console.done()?;
        settle(lines, through, places, *irqe, console);
        Ok(())
    }

    /// Whether a processor may have changed the state since this was last asked: it wrote a word, or
    /// read CHAR. Where it is false, none has.
    #[inline(always)]
    pub fn changed(&self) -> bool
        ensures { result ≡ self.now.changed }
    {
        self.changed
    }

    /// From now on only further changes count.
    pub fn note_no_change(&mut self)
        ensures { self.new ≡ record self.old { changed = false } }
    {
        self.changed = false;
    }

    /// How many bytes the console can send before memory is needed again.
    pub fn room(&self) -> usize
        ensures { result ≡ self.now.room }
    {
        self.console.room()
    }

    /// Makes room for the console to send this many bytes; allocates only if there is less. After
    /// an error nothing is changed.
    pub fn reserve(&mut self, n: usize) -> Result<(), AllocError>
        ensures state { self.new.state ≡ self.old.state }
        ensures changed { self.new.changed ≡ self.old.changed }
        ensures more { self.old.room ≤ self.new.room }
        ensures ok { OnOk result (n ≤ self.new.room) }
        ensures succeeds { n ≤ self.old.room → IsOk result }
        ensures err { OnErr result (self.new.room ≡ self.old.room) }
    {
        self.console.reserve(n)
    }
}
