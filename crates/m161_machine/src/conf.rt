//! The size of a machine and its modes, and why a machine isn't booted.

ghost use Rattle.std.specs.Prelude.{◌≡◌};
ghost use Rattle.m161_machine.specs.Conf.{is_within_limits};

use m161_elf::LoadError;
use m161_isa::LinkUnit;
use std::alloc::AllocError;
use thiserror::Error;

/// The size of a machine, and its modes.
#[derive(Clone, Copy, Debug, PartialEq, Eq)]
pub struct Conf {
    /// Bytes of RAM: 4,096 to 16,777,216, a multiple of 4,096.
    pub ram: u32,
    /// Processors: 1 to 32.
    pub processors: u32,
    /// Entries of the log: 1 to 16,777,216.
    pub log: u32,
    /// What `ll` links a processor to.
    pub link: LinkUnit,
    /// Whether it stops where a row of a TLB would overlap another one.
    pub strict: bool,
}

impl Conf {
    /// Whether it is within the limits.
    pub fn is_within_limits(&self) -> bool
        ensures { result ≡ is_within_limits self.now }
    {
        self.ram >= 4096
            && self.ram <= 16_777_216
            && self.ram % 4096 == 0
            && self.processors >= 1
            && self.processors <= 32
            && self.log >= 1
            && self.log <= 16_777_216
    }
}

/// Why a machine isn't booted. Each is returned only if none above it holds.
#[derive(Clone, Copy, Debug, PartialEq, Eq, Error)]
pub enum BootError {
    /// The configuration is outside the limits.
    #[error("the configuration is outside the limits")]
    BadConf,
    /// The file can't be loaded; the error is never `NoMemory`.
    #[error("the image: {0}")]
    Load(LoadError),
    /// Memory was refused.
    #[error("out of memory")]
    NoMemory,
}

impl From<AllocError> for BootError {
    ghost use Rattle.std.specs.Prelude.{◌≡◌};
    ghost use Rattle.m161_machine.specs.declared.conf.BootError.{BootError};

    ghost from_gives = { λ _ result. result ≡ BootError.NoMemory };

    fn from(_error: AllocError) -> BootError {
        BootError::NoMemory
    }
}

impl From<LoadError> for BootError {
    ghost use Rattle.std.specs.Prelude.{◌≡◌, ◌≢◌};
    ghost use Rattle.m161_elf.specs.declared.image.LoadError.{LoadError};
    ghost use Rattle.m161_machine.specs.declared.conf.BootError.{BootError};

    ghost from_gives = { λ error result.
        (error ≡ LoadError.NoMemory → result ≡ BootError.NoMemory)
        × (error ≢ LoadError.NoMemory → result ≡ BootError.Load error) };

    fn from(error: LoadError) -> BootError {
        match error {
            LoadError::NoMemory => BootError::NoMemory,
            fault => BootError::Load(fault),
        }
    }
}
