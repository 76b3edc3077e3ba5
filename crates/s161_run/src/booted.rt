//! Booting an image. Each command that runs one boots it here, or tells an error by `fault_of_boot`, so
//! that a segment that isn't in RAM is told by all of them.

ghost use Rattle.std.specs.Prelude.{IfErr, IfOk};
ghost use Rattle.s161_base.specs.Faults.{BootsIn, BootsTo, IsBootFault};

use m161::{Core, Machine};
use m161_machine::Conf;
use s161_base::fault::{Fault, fault_of_boot};
use std::alloc::Global;

/// Boots a file, with no log: the state alone.
///
/// # Errors
/// The machine's size is outside the limits; or the file can't be loaded, where a segment isn't in RAM
/// with the first such segment; or memory was refused.
// For LLVM: a stack frame of its own.
#[inline(never)]
pub fn boot_core<'a>(alloc: Global, file: &[u8], conf: Conf) -> Result<Core, Fault<'a>>
    ensures ok { IfOk result (λ core. BootsIn file.now conf core.state) }
    ensures fault { IfErr result (IsBootFault file.now conf) }
{
    match Core::boot(alloc, file, conf) {
        Ok(core) => Ok(core),
        Err(error) => Err(fault_of_boot(error, file, conf.ram)),
    }
}

/// Boots a file.
///
/// # Errors
/// Those of `boot_core`.
// For LLVM: a stack frame of its own.
#[inline(never)]
pub fn boot_machine<'a>(alloc: Global, file: &[u8], conf: Conf) -> Result<Machine, Fault<'a>>
    ensures ok { IfOk result (BootsTo file.now conf) }
    ensures fault { IfErr result (IsBootFault file.now conf) }
{
    match Machine::boot(alloc, file, conf) {
        Ok(machine) => Ok(machine),
        Err(error) => Err(fault_of_boot(error, file, conf.ram)),
    }
}
