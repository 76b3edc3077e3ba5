//! A console whose waiting bytes are in a ring.

ghost use Rattle.std.specs.Prelude.{◌≡◌, drop};
ghost use Rattle.m161_bus.specs.Console.{bytes_wait, oldest};

use crate::port::Port;
use circular_buffer::HeapCircularBuffer;
use m161_bus::{Console, ConsoleParts, ConsoleRegister, DoneError, KeyFull};
use std::alloc::{AllocError, Global};
use std::marker::Model;

/// The greatest number of waiting bytes.
const MOST_WAITING: usize = 256;

/// A console over a ring of its waiting bytes.
#[derive(Drop)]
pub struct RingConsole {
    waiting: HeapCircularBuffer<u8>,
    port: Port,
}

impl Model for RingConsole {
    ghost use Rattle.std.specs.Prelude.{◌≡◌};
    ghost use Rattle.m161_console.specs.Value.{ConsoleValue, with_waiting};

    ghost Value = { ConsoleValue };

    ghost view = { λ c. record {
      content = with_waiting c.waiting.items c.port.content;
      room = c.port.room;
    } };

    ghost invariant = { λ c. c.waiting.capacity ≡ 256 };
}

impl RingConsole {
    /// The oldest waiting byte, or 0.
    fn oldest(&self) -> u32
        ensures { result ≡ oldest self.now.content.waiting }
    {
        match self.waiting.front() {
            Some(byte) => u32::from(*byte),
            None => 0,
        }
    }

    /// Removes the oldest waiting byte and gives it, or gives 0.
    fn take_byte(&mut self) -> u32
        ensures word { result ≡ oldest self.old.content.waiting }
        ensures after { self.new.content
            ≡ record self.old.content { waiting = drop 1 self.old.content.waiting } }
        ensures room { self.new.room ≡ self.old.room }
    {
        match self.waiting.pop_front() {
            Some(byte) => u32::from(byte),
            None => 0,
        }
    }

    /// Whether bytes wait.
    fn waits(&self) -> bool
        ensures { result ≡ bytes_wait self.now.content.waiting }
    {
        !self.waiting.is_empty()
    }
}

impl Console for RingConsole {
    ghost content = { λ c. c.content };

    ghost room = { λ c. c.room };

    fn fresh(alloc: Global) -> Result<RingConsole, AllocError> {
        Ok(RingConsole {
            waiting: HeapCircularBuffer::with_capacity(alloc, MOST_WAITING)?,
            port: Port::fresh(alloc),
        })
    }

    fn copy(&self, alloc: Global) -> Result<RingConsole, AllocError> {
        let (first, second) = self.waiting.as_slices();
        let mut waiting = HeapCircularBuffer::with_capacity(alloc, self.waiting.capacity())?;
        let _first = waiting.fill_from_slice(first);
        let _second = waiting.fill_from_slice(second);
        Ok(RingConsole {
            waiting,
            port: self.port.copy(alloc)?,
        })
    }

    fn restore(&mut self, parts: &ConsoleParts) {
        self.waiting.clear();
        self.port.restore(parts);
    }

    fn read(&mut self, register: ConsoleRegister) -> u32 {
        match register {
            ConsoleRegister::Char => self.take_byte(),
            ConsoleRegister::WriteIrq => self.port.write_irq_word(),
            ConsoleRegister::ReadIrq => self.port.read_irq_word(self.waits()),
        }
    }

    fn write(&mut self, register: ConsoleRegister, word: u32) {
        self.port.write(register, word);
    }

    fn key(&mut self, byte: u8) -> Result<(), KeyFull> {
        if self.waiting.len() >= MOST_WAITING {
            return Err(KeyFull);
        }
        let _one = self.waiting.fill_from_slice(&[byte]);
        Ok(())
    }

    fn done(&mut self) -> Result<(), DoneError> {
        self.port.send()
    }

    fn room(&self) -> usize {
        self.port.room()
    }

    fn reserve(&mut self, n: usize) -> Result<(), AllocError> {
        self.port.reserve(n)
    }

    fn peek(&self, register: ConsoleRegister) -> u32 {
        match register {
            ConsoleRegister::Char => self.oldest(),
            ConsoleRegister::WriteIrq => self.port.write_irq_word(),
            ConsoleRegister::ReadIrq => self.port.read_irq_word(self.waits()),
        }
    }

    fn waiting(&self) -> u32 {
        self.waiting.len() as u32
    }

    fn waiting_byte(&self, place: u32) -> u8 {
        match self.waiting.get(place as usize) {
            Some(byte) => *byte,
            None => 0,
        }
    }

    fn line(&self) -> bool {
        self.port.line(self.waits())
    }

    fn latch(&self) -> Option<u8> {
        self.port.latch()
    }

    fn output(&self) -> &[u8] {
        self.port.output()
    }
}
