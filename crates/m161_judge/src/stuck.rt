//! States in which nothing is left to do.

ghost use Rattle.std.specs.Prelude.{◌≡◌, ◌≢◌, true, false, Some};
ghost use Rattle.m161_judge.specs.Judge.{bytes_of};
ghost use Rattle.m161_judge.specs.Verdict.{is_stuck};

use m161_bus::Console;
use m161_drive::is_asleep;
use m161_machine::Core;
use m161_tlb::Tlb;

/// Whether no policy chooses an event in the machine's state, if keys are left or not.
#[inline(always)]
pub(crate) fn is_stuck<T: Tlb, D: Console>(core: &Core<T, D>, keys_left: bool) -> bool
    ensures { result ≡ is_stuck keys_left core.now.state }
{
    !core.is_off()
        && core.latch().is_none()
        && (!keys_left || core.waiting() >= 256)
        && is_asleep(core)
}

/// Whether the console has sent what is asked for.
pub(crate) fn has_sent<T: Tlb, D: Console>(core: &Core<T, D>, output: Option<&[u8]>) -> bool
    ensures yes { result ≡ true → bytes_of output.entry ≡ Some core.now.state.board.console.output }
    ensures no { result ≡ false → bytes_of output.entry ≢ Some core.now.state.board.console.output }
{
    match output {
        Some(bytes) => core.output() == bytes,
        None => false,
    }
}
