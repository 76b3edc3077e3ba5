//! The register at an address.

ghost use Rattle.std.specs.Prelude.{ℕ, ◌≡◌, ◌<◌, ◌≤◌, IfSome};
ghost use Rattle.m161_bus.specs.Registers.{console_table, console_configuration, controller_configuration, controller_register, in_table, place_register, register_of};
ghost use Rattle.m161_bus.specs.helpers.Registers.{IsThere};

use crate::console::ConsoleRegister;

/// Where the slots begin.
const SLOTS: u32 = 0x1fe0_0000;

/// Where they end.
const SLOTS_END: u32 = 0x2000_0000;

/// Bytes of a slot.
const SLOT_SIZE: u32 = 0x1_0000;

/// Bytes of a slot's configuration, and of a processor's place.
const PART_SIZE: u32 = 0x400;

/// A word of the slots.
#[derive(Clone, Copy)]
pub(crate) enum Register {
    /// Always reads as this word; a write is ignored.
    Constant(u32),
    /// A register of the console.
    Console(ConsoleRegister),
    /// RAMSZ.
    RamSize,
    /// IRQS.
    Irqs,
    /// PWR.
    Power,
    /// IRQE.
    Irqe,
    /// CPUS.
    Cpus,
    /// CPUE.
    Cpue,
    /// SELF.
    SelfBit,
    /// CIRQE of a processor.
    Cirqe(u32),
    /// CIPI of a processor.
    Cipi(u32),
    /// A word of a processor's CRAM.
    Cram(u32, u32),
}

/// A word of the slots that an event can change, for those who look at it.
#[derive(Clone, Copy, Debug, PartialEq, Eq)]
pub enum BoardWord {
    /// WIRQ of the console.
    WriteIrq,
    /// RIRQ of the console.
    ReadIrq,
    /// IRQE.
    Irqe,
    /// CPUE.
    Cpue,
    /// CIRQE of a processor.
    Cirqe(u32),
    /// CIPI of a processor.
    Cipi(u32),
    /// A word of a processor's CRAM, by its number.
    Cram(u32, u32),
}

/// The register at a physical address, on a board with this number of processors. `None` if that
/// isn't the address of an aligned word of the slots.
#[tactic(auto, unfolding(crate::specs::Registers::register_of))]
pub(crate) fn register_of(at: u32, processors: u32) -> Option<Register>
    requires { processors ≤ 32 }
    ensures value { result ≡ register_of processors at }
    ensures there { IfSome result (IsThere processors) }
{
    if at < SLOTS || at >= SLOTS_END || at % 4 != 0 {
        return None;
    }
    let slot = (at - SLOTS) / SLOT_SIZE;
    let offset = (at - SLOTS) % SLOT_SIZE;
    Some(match slot {
        0 => console_register(offset),
        31 => controller_register(offset, processors),
        _ => Register::Constant(0),
    })
}

// A register of slot 0.
fn console_register(offset: u32) -> Register
    ensures value { result ≡ in_table offset console_table }
    ensures there { (processors : ℕ) → IsThere processors result }
{
    match offset {
        0x0 => Register::Console(ConsoleRegister::Char),
        0x4 => Register::Console(ConsoleRegister::WriteIrq),
        0x8 => Register::Console(ConsoleRegister::ReadIrq),
        _ => Register::Constant(0),
    }
}

// A register of slot 31: of a slot's configuration, or of a processor.
fn controller_register(offset: u32, processors: u32) -> Register
    requires slot { offset < 0x10000 }
    requires limit { processors ≤ 32 }
    ensures value { result ≡ controller_register processors offset }
    ensures there { IsThere processors result }
{
    let part = offset / PART_SIZE;
    let offset = offset % PART_SIZE;
    if part == 0 {
        console_configuration(offset)
    } else if part == 31 {
        own_register(offset)
    } else if part >= 32 && part - 32 < processors {
        place_register(part - 32, offset)
    } else {
        Register::Constant(0)
    }
}

// A word of the console's configuration.
fn console_configuration(offset: u32) -> Register
    ensures value { result ≡ in_table offset console_configuration }
    ensures there { (processors : ℕ) → IsThere processors result }
{
    match offset {
        0x0 => Register::Constant(1),
        0x4 => Register::Constant(4),
        0x8 => Register::Constant(1),
        _ => Register::Constant(0),
    }
}

// A register of the controller's own configuration.
fn own_register(offset: u32) -> Register
    ensures value { result ≡ in_table offset controller_configuration }
    ensures there { (processors : ℕ) → IsThere processors result }
{
    match offset {
        0x0 => Register::Constant(1),
        0x4 => Register::Constant(10),
        0x8 => Register::Constant(1),
        0x200 => Register::RamSize,
        0x204 => Register::Irqs,
        0x208 => Register::Power,
        0x20c => Register::Irqe,
        0x210 => Register::Cpus,
        0x214 => Register::Cpue,
        0x218 => Register::SelfBit,
        _ => Register::Constant(0),
    }
}

// A register of a processor.
fn place_register(p: u32, offset: u32) -> Register
    requires { offset < 0x400 }
    ensures value { result ≡ place_register p offset }
    ensures there { (processors : ℕ) → p < processors → IsThere processors result }
{
    match offset {
        0x0 => Register::Cirqe(p),
        0x4 => Register::Cipi(p),
        0x300.. => Register::Cram(p, (offset - 0x300) / 4),
        _ => Register::Constant(0),
    }
}
