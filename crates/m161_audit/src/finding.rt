//! What an audit finds.

use m161_machine::BootError;
use std::alloc::AllocError;
use thiserror::Error;

/// What an audit finds.
#[derive(Clone, Copy, Debug, PartialEq, Eq)]
pub enum Finding {
    /// No event of the run is a stale use.
    Clean,
    /// The first event that is one.
    Stale {
        /// Its place in the schedule, from 0.
        place: usize,
        /// The processor.
        processor: u32,
        /// The virtual address.
        address: u32,
        /// The number of the row.
        row: u8,
    },
}

/// Why a run isn't audited.
#[derive(Clone, Copy, Debug, PartialEq, Eq, Error)]
pub enum AuditError {
    /// The machine can't be booted, or memory was refused.
    #[error("{0}")]
    Boot(BootError),
    /// This watch, from 0, is the first that can't be watched.
    #[error("watch {0}")]
    BadWatch(usize),
}

impl From<BootError> for AuditError {
    ghost use Rattle.std.specs.Prelude.{◌≡◌};
    ghost use Rattle.m161_audit.specs.declared.finding.AuditError.{AuditError};

    ghost from_gives = { λ error result. result ≡ AuditError.Boot error };

    fn from(error: BootError) -> AuditError {
        AuditError::Boot(error)
    }
}

impl From<AllocError> for AuditError {
    ghost use Rattle.std.specs.Prelude.{◌≡◌};
    ghost use Rattle.m161_machine.specs.declared.conf.BootError.TheVariants as boots;
    ghost use Rattle.m161_audit.specs.declared.finding.AuditError.{AuditError};

    ghost from_gives = { λ _ result. result ≡ AuditError.Boot boots.NoMemory };

    fn from(_error: AllocError) -> AuditError {
        AuditError::Boot(BootError::NoMemory)
    }
}
