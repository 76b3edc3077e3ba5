//! A machine at boot, of which something is asked.

ghost use Rattle.std.specs.Prelude.{◌≡◌, IfErr, IfOk};
ghost use Rattle.m161_reach.specs.Reach.{CanBeAsked, IsAtBoot};
ghost use Rattle.m161_c.specs.Explored.{AreAllGood, IsRefused};

use crate::explored::check_watches;
use crate::{BAD, NO_MEMORY};
use m161::{Console, Core, Tlb};
use m161_judge::{Booted, Goal};
use m161_reach::can_be_asked;
use std::alloc::{AllocError, Global};

/// The machine at boot, in a box.
// For LLVM: a stack frame of its own.
#[inline(never)]
pub(crate) fn boot_core(
    alloc: Global,
    booted: &Booted<Tlb, Console>,
) -> Result<Box<Core>, AllocError>
    ensures { IfOk result (λ core. core.value.state ≡ booted.now) }
{
    Ok(Box::new(alloc, booted.copy_core(alloc)?)?)
}

/// The machine at boot, of which this can be asked; or the number of why it can't.
pub(crate) fn asked_core(
    alloc: Global,
    booted: &Booted<Tlb, Console>,
    goal: &Goal,
) -> Result<Box<Core>, u8>
    requires { IsAtBoot booted.now }
    ensures core { IfOk result (λ core. core.value.state ≡ booted.now) }
    ensures good { IfOk result (λ _. AreAllGood booted.now goal.now) }
    ensures asked { IfOk result (λ _. CanBeAsked booted.now goal.now) }
    ensures err { IfErr result (IsRefused booted.now goal.now) }
{
    let Ok(boxed) = boot_core(alloc, booted) else {
        return Err(NO_MEMORY);
    };
    check_watches(alloc, &*boxed, goal.watches)?;
    if can_be_asked(&*boxed, goal) {
        Ok(boxed)
    } else {
        Err(BAD)
    }
}
