//! The state from which many runs begin.

ghost use Rattle.std.specs.Prelude.{◌≡◌, IfOk};
ghost use Rattle.m161_machine.specs.History.{boot_fault};
ghost use Rattle.m161_judge.specs.Judge.{BootsState};

use m161_audit::AuditError;
use m161_bus::Console;
use m161_machine::{Conf, Core};
use m161_tlb::Tlb;
use std::alloc::{AllocError, Global};
use std::marker::Model;

/// The state of a machine that was just booted, from which many runs begin.
#[derive(Drop)]
pub struct Booted<T: Tlb, D: Console> {
    core: Core<T, D>,
}

impl<T: Tlb, D: Console> Model for Booted<T, D> {
    ghost use Rattle.m161_machine.specs.State.{State};

    ghost Value = { State };

    ghost view = { λ b. b.core.state };
}

impl<T: Tlb + Drop, D: Console + Drop> Booted<T, D> {
    /// The state of a machine that is booted from a file.
    ///
    /// # Errors
    /// The machine can't be booted, or memory was refused.
    pub fn new(alloc: Global, file: &[u8], conf: Conf) -> Result<Booted<T, D>, AuditError>
        ensures { BootsState file.now conf (boot_fault file.now conf) result }
    {
        let core = Core::boot(alloc, file, conf)?;
        Ok(Booted { core })
    }

    /// The state.
    pub(crate) fn core(&self) -> &Core<T, D>
        ensures { result.now.state ≡ self.now }
    {
        &self.core
    }

    /// The same state again, to go on from.
    ///
    /// # Errors
    /// Memory was refused.
    pub fn copy_core(&self, alloc: Global) -> Result<Core<T, D>, AllocError>
        ensures { IfOk result (λ core. core.state ≡ self.now) }
    {
        self.core.copy(alloc)
    }
}
