//! What can be asked of a machine.

ghost use Rattle.std.specs.Prelude.{◌≡◌, ◌↔◌, ◌<◌, ◌^◌, IfSome, IsTrue, length};
ghost use Rattle.m161_judge.specs.Judge.{bytes_of};
ghost use Rattle.m161_states.specs.Question.{are_bytes};
ghost use Rattle.m161_reach.specs.Reach.{CanBeAsked, IsAtBoot};

use m161_bus::Console;
use m161_judge::Goal;
use m161_machine::Core;
use m161_tlb::Tlb;

// Whether the number of bytes of the output that is asked for, if any is, fits a word.
fn is_output_short(output: Option<&[u8]>) -> bool
    ensures { IsTrue result ↔ IfSome (bytes_of output.entry) (λ bytes. length bytes < 2 ^ 32) }
{
    match output {
        Some(bytes) => bytes.len() < 1 << 32,
        None => true,
    }
}

// Whether RAM is of whole words.
fn is_whole(ram: &[u8]) -> bool
    ensures { result ≡ are_bytes ram.now }
{
    ram.len() % 4 == 0
}

// Whether the numbers of what is asked fit words.
fn fits_words(goal: &Goal) -> bool
    ensures { IsTrue result ↔ (length goal.now.watches < 2 ^ 31) × (length goal.now.keys < 2 ^ 32)
        × IfSome goal.now.output (λ bytes. length bytes < 2 ^ 32) }
{
    goal.watches.len() < 1 << 31 && goal.keys.len() < 1 << 32 && is_output_short(goal.output)
}

/// Whether this can be asked of a machine at boot: its RAM is of whole words, and the numbers of what
/// is asked fit words.
pub fn can_be_asked<T: Tlb, D: Console>(boot: &Core<T, D>, goal: &Goal) -> bool
    requires { IsAtBoot boot.now.state }
    ensures { IsTrue result ↔ CanBeAsked boot.now.state goal.now }
{
    boot.law();
    is_whole(boot.memory()) && fits_words(goal)
}
