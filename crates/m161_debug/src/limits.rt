//! Whether the arguments of a command are within its limits.

ghost use Rattle.std.specs.Prelude.{◌≡◌, ◌+◌, ◌*◌, ◌^◌, ◌<◌, ◌≤◌, ◌&&◌, nat_le, length};
ghost use Rattle.m161_debug.specs.Conditions.{has_processor, is_of_kind};
ghost use Rattle.m161_debug.specs.Obeys.{is_fetched, is_span};

use crate::condition::Condition;
use crate::mark::physical_of;
use m161_bus::Console;
use m161_machine::Machine;
use m161_tlb::Tlb;

/// The most Steps that one command makes.
const MOST_STEPS: u32 = 1_000_000;

/// Whether a condition is of this kind of machine, whatever its processor.
pub(crate) fn is_of_kind<T: Tlb, D: Console>(machine: &Machine<T, D>, condition: Condition) -> bool
    ensures { result ≡ is_of_kind condition machine.now.state }
{
    match condition {
        Condition::Memory(address) => machine.word(physical_of(address)).is_some(),
        Condition::Trap(_) => true,
        Condition::Register(_, r) => r < 32,
        Condition::Row(_, i) => i < 64,
        Condition::Output => true,
    }
}

/// Whether the processor of a condition, if it has one, is the machine's.
pub(crate) fn has_processor<T: Tlb, D: Console>(
    machine: &Machine<T, D>,
    condition: Condition,
) -> bool
    ensures { result ≡ has_processor condition machine.now.state }
{
    match condition {
        Condition::Trap(p) | Condition::Register(p, _) | Condition::Row(p, _) => {
            p < machine.processors()
        }
        Condition::Memory(_) | Condition::Output => true,
    }
}

/// Whether so many words can be shown, from such an address on.
pub(crate) fn is_span(address: u32, n: u32) -> bool
    ensures { result ≡ is_span address n }
{
    1 <= n && n <= 1024 && address % 4 == 0
}

/// Whether one command makes so many Steps.
pub(crate) fn is_number_of_steps(n: u32) -> bool
    ensures { result ≡ (nat_le 1 n && nat_le n 1000000) }
{
    1 <= n && n <= MOST_STEPS
}

/// Whether a processor would fetch a word at each of `n` places from an address on; none of them is
/// past ffffffff.
pub(crate) fn are_fetched<T: Tlb, D: Console>(
    machine: &Machine<T, D>,
    p: u32,
    address: u32,
    n: u32,
) -> bool
    requires { (p < length machine.now.state.processors) × (n ≤ 1024) }
    ensures { result ≡ is_fetched p address n machine.now.state }
{
    u64::from(address) + 4 * u64::from(n) <= 0x1_0000_0000
        && each_is_fetched(machine, p, address, n)
}

// The same, where none is past ffffffff.
fn each_is_fetched<T: Tlb, D: Console>(
    machine: &Machine<T, D>,
    p: u32,
    address: u32,
    n: u32,
) -> bool
    requires processor { p < length machine.now.state.processors }
    requires inside { address + 4 * n ≤ 2 ^ 32 }
    ensures { result ≡ is_fetched p address n machine.now.state }
{
    for i in 0..n {
        if machine.fetched_word(p, address + 4 * i).is_none() {
            return false;
        }
    }
    true
}
