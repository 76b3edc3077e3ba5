//! The laws of what a Step uses. The function does nothing: its contract is the laws.

ghost use Rattle.m161_cpu.specs.UsesLaw.{EffectRefers, StepUses};

/// The laws of what a Step uses. The Step that is made fetches and accesses through the rows that
/// `uses_of` says, or not through a row, and stores into the word that it says, whatever its
/// outcome: also if the fetch or the access then traps for a bus error, or an `sc` finds no link.
/// An instruction with a reference to memory faults if its translation does, and reaches no other
/// address; one without reads no memory, and refers to nothing.
pub fn uses_tell_the_step()
    ensures step { StepUses }
    ensures effects { EffectRefers }
{}
