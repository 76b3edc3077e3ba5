//! The bits of the console's two interrupt registers.

ghost use Rattle.std.specs.Prelude.{◌≡◌, ◌<◌};
ghost use Rattle.m161_bus.specs.Console.{irq_bits, irq_word, is_up};

/// Lets the register raise the line.
const ENABLE: u32 = 1;

/// There is a cause to raise it.
const ACTIVE: u32 = 2;

/// Raises it without a cause.
const FORCE: u32 = 4;

/// The bits of one interrupt register of a console.
#[derive(Clone, Copy, Debug, PartialEq, Eq)]
pub struct IrqBits {
    /// ENABLE, 1.
    pub enable: bool,
    /// ACTIVE, 2.
    pub active: bool,
    /// FORCE, 4.
    pub force: bool,
}

impl IrqBits {
    /// The bits of a word; its other bits are ignored.
    pub fn from_word(word: u32) -> IrqBits
        ensures { result ≡ irq_bits word }
    {
        IrqBits {
            enable: word & ENABLE != 0,
            active: word & ACTIVE != 0,
            force: word & FORCE != 0,
        }
    }

    /// The word that a read of the register gives.
    pub fn word(self) -> u32
        ensures { result ≡ irq_word self }
    {
        let enable = if self.enable { ENABLE } else { 0 };
        let active = if self.active { ACTIVE } else { 0 };
        let force = if self.force { FORCE } else { 0 };
        enable + active + force
    }

    /// Whether the register raises the line.
    pub fn is_up(self) -> bool
        ensures { result ≡ is_up self }
    {
        self.enable && (self.active || self.force)
    }
}
