//! A console whose waiting bytes are in a vector.

ghost use Rattle.std.specs.Prelude.{◌≡◌, drop};
ghost use Rattle.m161_bus.specs.Console.{bytes_wait, oldest};

use crate::port::Port;
use m161_bus::{Console, ConsoleParts, ConsoleRegister, DoneError, KeyFull};
use std::alloc::{AllocError, Global};
use std::marker::Model;

/// The greatest number of waiting bytes.
const MOST_WAITING: usize = 256;

/// A console over vectors.
#[derive(Drop)]
pub struct PlainConsole {
    waiting: Vec<u8>,
    port: Port,
}

impl Model for PlainConsole {
    ghost use Rattle.std.specs.Prelude.{◌≡◌, ◌≤◌, length, vec_capacity};
    ghost use Rattle.m161_console.specs.Value.{ConsoleValue, with_waiting};

    ghost Value = { ConsoleValue };

    ghost view = { λ c. record {
      content = with_waiting c.waiting.items c.port.content;
      room = c.port.room;
    } };

    ghost invariant = { λ c. (256 ≤ vec_capacity c.waiting) × (length c.waiting.items ≤ 256) };
}

impl PlainConsole {
    /// The oldest waiting byte, or 0.
    fn oldest(&self) -> u32
        ensures { result ≡ oldest self.now.content.waiting }
    {
        match self.waiting.first() {
            Some(byte) => u32::from(*byte),
            None => 0,
        }
    }

    /// Removes the oldest waiting byte and gives it, or gives 0.
    fn take_byte(&mut self) -> u32
        ensures word { result ≡ oldest self.old.content.waiting }
        ensures after { self.new.content
            ≡ record self.old.content { waiting = drop 1 self.old.content.waiting } }
        ensures room { self.new.room ≡ self.old.room }
    {
        if self.waiting.is_empty() {
            return 0;
        }
        u32::from(self.waiting.remove(0))
    }

    /// Whether bytes wait.
    fn waits(&self) -> bool
        ensures { result ≡ bytes_wait self.now.content.waiting }
    {
        !self.waiting.is_empty()
    }
}

impl Console for PlainConsole {
    ghost content = { λ c. c.content };

    ghost room = { λ c. c.room };

    fn fresh(alloc: Global) -> Result<PlainConsole, AllocError> {
        Ok(PlainConsole {
            waiting: Vec::with_capacity(alloc, MOST_WAITING)?,
            port: Port::fresh(alloc),
        })
    }

    fn copy(&self, alloc: Global) -> Result<PlainConsole, AllocError> {
        let mut waiting = Vec::with_capacity(alloc, MOST_WAITING)?;
        waiting.extend_from_slice(self.waiting.as_slice())?;
        Ok(PlainConsole {
            waiting,
            port: self.port.copy(alloc)?,
        })
    }

    fn restore(&mut self, parts: &ConsoleParts) {
        self.waiting.clear();
        self.port.restore(parts);
    }

    fn read(&mut self, register: ConsoleRegister) -> u32 {
        match register {
            ConsoleRegister::Char => self.take_byte(),
            ConsoleRegister::WriteIrq => self.port.write_irq_word(),
            ConsoleRegister::ReadIrq => self.port.read_irq_word(self.waits()),
        }
    }

    fn write(&mut self, register: ConsoleRegister, word: u32) {
        self.port.write(register, word);
    }

    fn key(&mut self, byte: u8) -> Result<(), KeyFull> {
        if self.waiting.len() >= MOST_WAITING {
            return Err(KeyFull);
        }
        self.waiting.push_reserved(byte);
        Ok(())
    }

    fn done(&mut self) -> Result<(), DoneError> {
        self.port.send()
    }

    fn room(&self) -> usize {
        self.port.room()
    }

    fn reserve(&mut self, n: usize) -> Result<(), AllocError> {
        self.port.reserve(n)
    }

    fn peek(&self, register: ConsoleRegister) -> u32 {
        match register {
            ConsoleRegister::Char => self.oldest(),
            ConsoleRegister::WriteIrq => self.port.write_irq_word(),
            ConsoleRegister::ReadIrq => self.port.read_irq_word(self.waits()),
        }
    }

    fn waiting(&self) -> u32 {
        self.waiting.len() as u32
    }

    fn waiting_byte(&self, place: u32) -> u8 {
        self.waiting[place as usize]
    }

    fn line(&self) -> bool {
        self.port.line(self.waits())
    }

    fn latch(&self) -> Option<u8> {
        self.port.latch()
    }

    fn output(&self) -> &[u8] {
        self.port.output()
    }
}
