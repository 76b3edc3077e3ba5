//! The board.

ghost use Rattle.std.specs.Prelude.{◌≡◌, ◌-◌, ◌%◌, ◌^◌, ◌<◌, ◌≤◌, false, true, length, IfOk};
ghost use Rattle.m161_bus.specs.Board.{IsUsed, KeepsLines, NotesChange, ReadsSlot, after_read, board_at_boot, board_read, board_written, irqs_through, irqs_with, slot_word, switched_off, with_slot_word};
ghost use Rattle.m161_bus.specs.Console.{after_console_read, console_read, console_written};
ghost use Rattle.m161_bus.specs.Outcome.{LeavesUnlessRefused};
ghost use Rattle.m161_bus.specs.helpers.Registers.{IsThere};

mod restore;
mod views;

use crate::console::{Console, ConsoleRegister};
use crate::lines::{PLACES, lines_of_all};
use crate::place::Place;
use crate::register::{Register, register_of};
pub use restore::{BoardParts, PlaceParts};
use std::alloc::{AllocError, Global};
use std::marker::Model;
use thiserror::Error;

/// The address isn't that of an aligned word of the slots.
#[derive(Clone, Copy, Debug, PartialEq, Eq, Error)]
#[error("not an aligned word of the slots")]
pub struct BusFault;

/// How a processor begins when CPUE starts it.
#[derive(Clone, Copy, Debug, PartialEq, Eq)]
pub struct StartWords {
    /// Its first address.
    pub pc: u32,
    /// Register 4.
    pub r4: u32,
    /// Register 29: the end of its CRAM in kseg1.
    pub r29: u32,
}

/// The bus with the controller and a console. It keeps the lines of each processor up to date, so
/// that a Step reads them with one load.
#[derive(Drop)]
pub struct Board<D: Console> {
    lines: [u32; PLACES],
    // The bits of IRQS that IRQE lets through: while these stay, only a processor's own registers
    // change its lines.
    through: u32,
    ram: u32,
    processors: u32,
    irqe: u32,
    started: u32,
    off: bool,
    places: [Place; PLACES],
    console: D,
    // Whether a processor may have changed the state since this was last asked. It's no part of the
    // state.
    changed: bool,
}

impl<D: Console> Model for Board<D> {
    ghost use Rattle.std.specs.Prelude.{◌≡◌, ◌≤◌, length};
    ghost use Rattle.m161_bus.specs.Board.{BoardValue, KeepsLines, irqs_through};

    ghost Value = { BoardValue };

    ghost view = { λ b. record {
      state = record {
        ram = b.ram;
        processors = b.processors;
        irqe = b.irqe;
        started = b.started;
        off = b.off;
        places = b.places;
        console = D.content b.console;
      };
      room = D.room b.console;
      changed = b.changed;
    } };

    ghost invariant = { λ b.
        (b.through ≡ irqs_through b.irqe (D.content b.console))
        × KeepsLines b.lines b.through b.places
        × (length b.lines ≡ 32)
        × (length b.places ≡ 32)
        × (1 ≤ b.processors)
        × (b.processors ≤ 32) };
}

// IRQS: the slots whose line is up. Only the console in slot 0 has a line.
fn irqs_of<D: Console>(console: &D) -> u32
    ensures { result ≡ irqs_with (D.content console.now) }
{
    u32::from(console.line())
}

// CPUS: a bit for each processor.
fn cpus_of(processors: u32) -> u32
    requires { (1 ≤ processors) × (processors ≤ 32) }
    ensures { result ≡ 2 ^ processors - 1 }
{
    ((1u64 << processors) - 1) as u32
}

// The lines of every processor, after the console or IRQE changed. They are made anew only if IRQE
// now lets other bits of IRQS through.
pub(crate) fn settle<D: Console>(
    lines: &mut [u32; PLACES],
    through: &mut u32,
    places: &[Place; PLACES],
    irqe: u32,
    console: &D,
)
    requires kept { KeepsLines lines.old through.old places.now }
    requires len { (length lines.old ≡ 32) × (length places.now ≡ 32) }
    ensures through { through.new ≡ irqs_through irqe (D.content console.now) }
    ensures kept { KeepsLines lines.new through.new places.now }
    ensures len { length lines.new ≡ 32 }
{
    let now = irqs_of(console) & irqe;
    if now != *through {
        *through = now;
        *lines = lines_of_all(places, now);
    }
}

impl<D: Console> Board<D> {
    /// A board as at boot. `ram` is in bytes. Does not allocate.
    pub fn new(console: D, ram: u32, processors: u32) -> Board<D>
        requires ram { (4096 ≤ ram) × (ram ≤ 16777216) × (ram % 4096 ≡ 0) }
        requires processors { (1 ≤ processors) × (processors ≤ 32) }
        ensures state { result.state ≡ board_at_boot ram processors (D.content console) }
        ensures room { result.room ≡ D.room console }
        ensures changed { result.changed ≡ false }
    {
        let irqe = u32::MAX;
        let mut places = [Place::at_boot(0); PLACES];
        places[0] = Place::at_boot(u32::MAX);
        let through = irqs_of(&console) & irqe;
        let lines = lines_of_all(&places, through);
        Board {
            lines,
            through,
            ram,
            processors,
            irqe,
            started: 1,
            off: false,
            places,
            console,
            changed: false,
        }
    }

    /// A board in the same state, with at least the same room. Allocates its console's room.
    #[inline(never)]
    pub fn copy(&self, alloc: Global) -> Result<Board<D>, AllocError>
        ensures state { IfOk result (λ board. board.state ≡ self.now.state) }
        ensures room { IfOk result (λ board. self.now.room ≤ board.room) }
        ensures changed { IfOk result (λ board. board.changed ≡ false) }
    {
        let console = self.console.copy(alloc)?;
        Ok(Board {
            lines: self.lines,
            through: self.through,
            ram: self.ram,
            processors: self.processors,
            irqe: self.irqe,
            started: self.started,
            off: self.off,
            places: self.places,
            console,
            changed: false,
        })
    }

    /// The word that processor `c` reads at a physical address; reading CHAR removes a byte. A bus
    /// fault exactly if that isn't the address of an aligned word of the slots. Does not allocate.
    #[tactic(auto, unfolding(crate::specs::Board::board_read))]
    pub fn read(&mut self, c: u32, at: u32) -> Result<u32, BusFault>
        requires processor { c < self.old.state.processors }
        ensures read { ReadsSlot (board_read c at self.old.state)
            self.old.state result self.new.state }
        ensures size { IsUsed self.old self.new }
        ensures off { self.new.state.off ≡ self.old.state.off }
    {
        let register = register_of(at, self.processors).ok_or(BusFault)?;
        Ok(self.read_register(c, register))
    }

    /// Writes a word at a physical address. A bus fault exactly if that isn't the address of an
    /// aligned word of the slots. Does not allocate.
    #[tactic(auto, unfolding(crate::specs::Board::board_written))]
    pub fn write(&mut self, c: u32, at: u32, word: u32) -> Result<(), BusFault>
        requires processor { c < self.old.state.processors }
        ensures write { LeavesUnlessRefused (board_written c at word self.old.state)
            self.old.state result self.new.state }
        ensures size { IsUsed self.old self.new }
    {
        let register = register_of(at, self.processors).ok_or(BusFault)?;
        self.write_register(register, word);
        self.changed = true;
        Ok(())
    }

    /// Switches the machine off, as a write to PWR does. Does not allocate.
    pub fn switch_off(&mut self)
        ensures state { self.new.state ≡ switched_off self.old.state }
        ensures room { self.new.room ≡ self.old.room }
        ensures changed { self.new.changed ≡ true }
    {
        self.off = true;
        self.changed = true;
    }

    // The word that processor `c` reads from a register.
    fn read_register(&mut self, c: u32, register: Register) -> u32
        requires processor { c < self.old.state.processors }
        requires there { IsThere self.old.state.processors register }
        ensures word { result ≡ slot_word c register self.old.state }
        ensures after { self.new.state ≡ after_read register self.old.state }
        ensures off { self.new.state.off ≡ self.old.state.off }
        ensures room { self.new.room ≡ self.old.room }
        ensures noted { NotesChange self.old self.new }
    {
        match register {
            Register::Constant(word) => word,
            Register::Console(register) => self.read_console(register),
            Register::RamSize => self.ram,
            Register::Irqs => irqs_of(&self.console),
            Register::Power => 0,
            Register::Irqe => self.irqe,
            Register::Cpus => cpus_of(self.processors),
            Register::Cpue => self.started,
            Register::SelfBit => {
                let _few = &self.processors;
                1 << c
            }
            Register::Cirqe(p) => self.places[p as usize].cirqe(),
            Register::Cipi(p) => u32::from(self.places[p as usize].cipi()),
            Register::Cram(p, i) => self.places[p as usize].cram(i),
        }
    }

    // Writes a word to a register.
    fn write_register(&mut self, register: Register, word: u32)
        requires { IsThere self.old.state.processors register }
        ensures after { self.new.state ≡ with_slot_word register word self.old.state }
        ensures room { self.new.room ≡ self.old.room }
    {
        match register {
            Register::Constant(_)
            | Register::RamSize
            | Register::Irqs
            | Register::Cpus
            | Register::SelfBit => {}
            Register::Console(register) => self.write_console(register, word),
            Register::Power => self.switch_off(),
            Register::Irqe => self.set_irqe(word),
            Register::Cpue => self.started |= word & cpus_of(self.processors),
            Register::Cirqe(p) => {
                self.places[p as usize].set_cirqe(word);
                self.lines[p as usize] = self.places[p as usize].lines(self.through);
            }
            Register::Cipi(p) => {
                self.places[p as usize].set_cipi(word != 0);
                self.lines[p as usize] = self.places[p as usize].lines(self.through);
            }
            Register::Cram(p, i) => {
                self.places[p as usize].set_cram(i, word);
                self.lines[p as usize] = self.places[p as usize].lines(self.through);
            }
        }
    }

    // Reads a register of the console.
    fn read_console(&mut self, register: ConsoleRegister) -> u32
        ensures word { result ≡ console_read register self.old.state.console }
        ensures after { self.new.state ≡ record self.old.state {
          console = after_console_read register self.old.state.console;
        } }
        ensures room { self.new.room ≡ self.old.room }
        ensures noted { NotesChange self.old self.new }
    {
        let Board {
            lines,
            through,
            places,
            irqe,
            console,
            changed,
            ram: _,
            processors: _,
            started: _,
            off: _,
        } = self;
        let word = console.read(register);
        settle(lines, through, places, *irqe, console);
        *changed = *changed || register == ConsoleRegister::Char;
        word
    }

    // Writes a word to a register of the console.
    fn write_console(&mut self, register: ConsoleRegister, word: u32)
        ensures after { self.new.state ≡ record self.old.state {
          console = console_written register word self.old.state.console;
        } }
        ensures room { self.new.room ≡ self.old.room }
    {
        let Board {
            lines,
            through,
            places,
            irqe,
            console,
            changed: _,
            ram: _,
            processors: _,
            started: _,
            off: _,
        } = self;
        console.write(register, word);
        settle(lines, through, places, *irqe, console);
    }

    // Replaces IRQE.
    fn set_irqe(&mut self, word: u32)
        ensures after { self.new.state ≡ record self.old.state { irqe = word } }
        ensures room { self.new.room ≡ self.old.room }
    {
        let Board {
            lines,
            through,
            places,
            irqe,
            console,
            changed: _,
            ram: _,
            processors: _,
            started: _,
            off: _,
        } = self;
        *irqe = word;
        settle(lines, through, places, word, console);
    }
}
