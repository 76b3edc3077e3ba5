//! The laws of a console.

ghost use Rattle.std.specs.Prelude.{◌≡◌, ◌≢◌, ℕ, ◌+◌, ◌<◌, ◌≤◌, List, Err, length, slice_index, IfOk, IsOk, OnOk, OnErr};
ghost use Rattle.m161_bus.specs.Console.{ConsoleState, console_at_boot, console_read, after_console_read, console_written, with_key, done_of, is_line_up};
ghost use Rattle.m161_bus.specs.declared.console.DoneError.TheVariants.{NoMemory};
ghost use Rattle.m161_bus.specs.Outcome.{LeavesUnlessRefused, LeavesUnlessNoMemory};
ghost use Rattle.m161_bus.specs.Restore.{restored_console};

use crate::irq::IrqBits;
use std::alloc::{AllocError, Global};
use thiserror::Error;

/// A register of a console.
#[derive(Clone, Copy, Debug, PartialEq, Eq)]
pub enum ConsoleRegister {
    /// The byte that was typed, or that is to be sent.
    Char,
    /// The interrupt bits of sending.
    WriteIrq,
    /// The interrupt bits of typing.
    ReadIrq,
}

/// There are 256 waiting bytes.
#[derive(Clone, Copy, Debug, PartialEq, Eq, Error)]
#[error("256 bytes are waiting")]
pub struct KeyFull;

/// Why no byte was sent. Each is returned only if none above it holds.
#[derive(Clone, Copy, Debug, PartialEq, Eq, Error)]
pub enum DoneError {
    /// The latch is free.
    #[error("nothing was sent")]
    NothingSent,
    /// Memory was refused.
    #[error("out of memory")]
    NoMemory,
}

/// What a console holds beside the bytes that wait to be read and those that were sent.
#[derive(Clone, Copy)]
pub struct ConsoleParts {
    /// The byte that is being sent, if one is.
    pub latch: Option<u8>,
    /// The interrupt bits of sending.
    pub write_irq: IrqBits,
    /// ENABLE of the interrupt bits of typing.
    pub read_enable: bool,
    /// FORCE of the interrupt bits of typing.
    pub read_force: bool,
}

/// A console: bytes that were typed and wait to be read, a latch for the byte that is being sent,
/// and all bytes that were sent. It doesn't ask for `Drop`: with that, each family of crates that takes
/// the machine would get a copy of the loop of Steps. A function that lets a machine go asks for it
/// itself.
pub trait Console {
    ghost content: { Self → ConsoleState };

    // How many bytes can be sent before memory is needed again.
    ghost room: { Self → ℕ };

    /// A console as at boot. Allocates the room for the waiting bytes.
    fn fresh(alloc: Global) -> Result<Self, AllocError>
        ensures { IfOk result (λ console. content console ≡ console_at_boot) };

    /// A console in the same state, with at least the same room. Allocates its room.
    fn copy(&self, alloc: Global) -> Result<Self, AllocError>
        ensures content { IfOk result (λ console. content console ≡ content self.now) }
        ensures room { IfOk result (λ console. room self.now ≤ room console) };

    /// Makes it a console that holds this, in which no byte waits and which has sent none. Does not
    /// allocate.
    fn restore(&mut self, parts: &ConsoleParts)
        ensures content { content self.new ≡ restored_console parts.now }
        ensures room { room self.old ≤ room self.new };

    /// Reads a register; reading CHAR removes the byte. Does not allocate.
    fn read(&mut self, register: ConsoleRegister) -> u32
        ensures word { result ≡ console_read register (content self.old) }
        ensures after { content self.new ≡ after_console_read register (content self.old) }
        ensures room { room self.new ≡ room self.old };

    /// Writes a register. Does not allocate.
    fn write(&mut self, register: ConsoleRegister, word: u32)
        ensures after { content self.new ≡ console_written register word (content self.old) }
        ensures room { room self.new ≡ room self.old };

    /// Adds a waiting byte. Does not allocate.
    fn key(&mut self, byte: u8) -> Result<(), KeyFull>
        ensures key { let old = content self.old in
            LeavesUnlessRefused (with_key byte old) old result (content self.new) }
        ensures room { room self.new ≡ room self.old };

    /// Sends the byte in the latch: it goes to the output. Takes at most one byte's room, and
    /// allocates only if there is none.
    fn done(&mut self) -> Result<(), DoneError>
        ensures done { let old = content self.old in
            LeavesUnlessNoMemory (done_of old) old result (content self.new) }
        ensures room { room self.old ≤ room self.new + 1 }
        ensures succeeds { 1 ≤ room self.old → result ≢ Err NoMemory }
        ensures err { OnErr result (room self.new ≡ room self.old) };

    /// How many bytes can be sent before memory is needed again.
    fn room(&self) -> usize
        ensures { result ≡ room self.now };

    /// Makes room to send this many bytes; allocates only if there is less. After an error nothing
    /// is changed.
    fn reserve(&mut self, n: usize) -> Result<(), AllocError>
        ensures content { content self.new ≡ content self.old }
        ensures more { room self.old ≤ room self.new }
        ensures ok { OnOk result (n ≤ room self.new) }
        ensures succeeds { n ≤ room self.old → IsOk result }
        ensures err { OnErr result (room self.new ≡ room self.old) };

    /// The word that a read of a register would give. Nothing is changed.
    fn peek(&self, register: ConsoleRegister) -> u32
        ensures { result ≡ console_read register (content self.now) };

    /// How many typed bytes wait to be read.
    fn waiting(&self) -> u32
        ensures { result ≡ length (content self.now).waiting };

    /// A byte that waits to be read, by its place behind the oldest.
    fn waiting_byte(&self, place: u32) -> u8
        requires { place < length (content self.now).waiting }
        ensures { result ≡ slice_index (content self.now).waiting place };

    /// Whether the line is up.
    fn line(&self) -> bool
        ensures { result ≡ is_line_up (content self.now) };

    /// The byte that is being sent, if one is.
    fn latch(&self) -> Option<u8>
        ensures { result ≡ (content self.now).latch };

    /// All bytes sent, the first one first.
    fn output(&self) -> &[u8]
        ensures { result.now ≡ (content self.now).output };
}
