//! What both consoles have beside their waiting bytes: the latch, the bytes that were sent, and the
//! interrupt bits.

ghost use Rattle.std.specs.Prelude.{◌≡◌, ◌≢◌, ◌+◌, ◌≤◌, ◌||◌, Err, IfOk, IsOk, OnErr, OnOk};
ghost use Rattle.m161_bus.specs.Console.{console_at_boot, console_written, done_of, irq_word, is_up};
ghost use Rattle.m161_bus.specs.Outcome.{LeavesUnlessNoMemory};
ghost use Rattle.m161_bus.specs.declared.console.DoneError.TheVariants.{NoMemory};
ghost use Rattle.m161_bus.specs.Restore.{restored_console};
ghost use Rattle.m161_console.specs.helpers.Port.{read_irq_if};

use m161_bus::{ConsoleParts, ConsoleRegister, DoneError, IrqBits};
use std::alloc::{AllocError, Global};
use std::marker::Model;

/// A console without its waiting bytes. Contracts see it as one in which no byte waits.
#[derive(Drop)]
pub(crate) struct Port {
    latch: Option<u8>,
    sent: Vec<u8>,
    write_irq: IrqBits,
    read_enable: bool,
    read_force: bool,
}

impl Model for Port {
    ghost use Rattle.std.specs.Prelude.{◌-◌, [], length, vec_capacity};
    ghost use Rattle.m161_console.specs.Value.{ConsoleValue};

    ghost Value = { ConsoleValue };

    ghost view = { λ p. record {
      content = record {
        waiting = [];
        latch = p.latch;
        output = p.sent.items;
        write_irq = p.write_irq;
        read_enable = p.read_enable;
        read_force = p.read_force;
      };
      room = vec_capacity p.sent - length p.sent.items;
    } };
}

impl Port {
    /// As at boot. Does not allocate.
    pub(crate) fn fresh(alloc: Global) -> Port
        ensures { result.content ≡ console_at_boot }
    {
        Port {
            latch: None,
            sent: Vec::new(alloc),
            write_irq: IrqBits::from_word(0),
            read_enable: false,
            read_force: false,
        }
    }

    /// The same again, with at least the same room.
    pub(crate) fn copy(&self, alloc: Global) -> Result<Port, AllocError>
        ensures content { IfOk result (λ port. port.content ≡ self.now.content) }
        ensures room { IfOk result (λ port. self.now.room ≤ port.room) }
    {
        let mut sent = Vec::with_capacity(alloc, self.sent.capacity())?;
        sent.extend_from_slice(self.sent.as_slice())?;
        Ok(Port {
            latch: self.latch,
            sent,
            write_irq: self.write_irq,
            read_enable: self.read_enable,
            read_force: self.read_force,
        })
    }

    /// Makes it one that holds this, and has sent no byte. Does not allocate.
    pub(crate) fn restore(&mut self, parts: &ConsoleParts)
        ensures content { self.new.content ≡ restored_console parts.now }
        ensures room { self.old.room ≤ self.new.room }
    {
        self.latch = parts.latch;
        self.sent.clear();
        self.write_irq = parts.write_irq;
        self.read_enable = parts.read_enable;
        self.read_force = parts.read_force;
    }

    // RIRQ as it is read, if bytes wait or if none does: its ACTIVE says that.
    fn read_irq(&self, waits: bool) -> IrqBits
        ensures { result ≡ read_irq_if waits self.now.content }
    {
        IrqBits {
            enable: self.read_enable,
            active: waits,
            force: self.read_force,
        }
    }

    /// RIRQ as a word, if bytes wait or if none does.
    pub(crate) fn read_irq_word(&self, waits: bool) -> u32
        ensures { result ≡ irq_word (read_irq_if waits self.now.content) }
    {
        self.read_irq(waits).word()
    }

    /// WIRQ as a word.
    pub(crate) fn write_irq_word(&self) -> u32
        ensures { result ≡ irq_word self.now.content.write_irq }
    {
        self.write_irq.word()
    }

    /// Whether the line is up, if bytes wait or if none does.
    pub(crate) fn line(&self, waits: bool) -> bool
        ensures { result ≡
            (is_up self.now.content.write_irq || is_up (read_irq_if waits self.now.content)) }
    {
        self.write_irq.is_up() || self.read_irq(waits).is_up()
    }

    /// Writes a register. Does not allocate.
    pub(crate) fn write(&mut self, register: ConsoleRegister, word: u32)
        ensures after { self.new.content ≡ console_written register word self.old.content }
        ensures room { self.new.room ≡ self.old.room }
    {
        match register {
            ConsoleRegister::Char => {
                if self.latch.is_none() {
                    self.latch = Some((word % (1 << 8)) as u8);
                }
            }
            ConsoleRegister::WriteIrq => self.write_irq = IrqBits::from_word(word),
            ConsoleRegister::ReadIrq => {
                let bits = IrqBits::from_word(word);
                self.read_enable = bits.enable;
                self.read_force = bits.force;
            }
        }
    }

    /// Sends the byte in the latch. Allocates only if there is no room for it.
    pub(crate) fn send(&mut self) -> Result<(), DoneError>
        ensures done { LeavesUnlessNoMemory (done_of self.old.content)
            self.old.content result self.new.content }
        ensures room { self.old.room ≤ self.new.room + 1 }
        ensures succeeds { 1 ≤ self.old.room → result ≢ Err NoMemory }
        ensures err { OnErr result (self.new.room ≡ self.old.room) }
    {
        let byte = self.latch.ok_or(DoneError::NothingSent)?;
        if self.sent.reserve(1).is_err() {
            return Err(DoneError::NoMemory);
        }
        self.sent.push_reserved(byte);
        self.latch = None;
        self.write_irq.active = true;
        Ok(())
    }

    /// How many bytes can be sent before memory is needed again.
    pub(crate) fn room(&self) -> usize
        ensures { result ≡ self.now.room }
    {
        self.sent.capacity() - self.sent.len()
    }

    /// Makes room to send this many bytes.
    pub(crate) fn reserve(&mut self, n: usize) -> Result<(), AllocError>
        ensures content { self.new.content ≡ self.old.content }
        ensures more { self.old.room ≤ self.new.room }
        ensures ok { OnOk result (n ≤ self.new.room) }
        ensures succeeds { n ≤ self.old.room → IsOk result }
        ensures err { OnErr result (self.new.room ≡ self.old.room) }
    {
        self.sent.reserve(n)
    }

    /// The byte that is being sent.
    pub(crate) fn latch(&self) -> Option<u8>
        ensures { result ≡ self.now.content.latch }
    {
        self.latch
    }

    /// The bytes that were sent.
    pub(crate) fn output(&self) -> &[u8]
        ensures { result.now ≡ self.now.content.output }
    {
        &self.sent
    }
}
