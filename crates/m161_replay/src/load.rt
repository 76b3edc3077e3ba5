//! The word that a Step loads, before it is made.

ghost use Rattle.std.specs.Prelude.{◌≡◌, ◌≤◌, ◌<◌, Some, length, option_and_then};
ghost use Rattle.m161_cop0.specs.Control.{Control};
ghost use Rattle.m161_cpu.specs.Step.{is_unusable};
ghost use Rattle.m161_cpu.specs.Translation.{is_misaddressed};
ghost use Rattle.m161_cpu.specs.Uses.{Reference, reference_in, via_of, via_reference};
ghost use Rattle.m161_cpu.specs.UsesLaw.{address_of};
ghost use Rattle.m161_cpu.specs.helpers.Uses.{address_by, width_of_load};
ghost use Rattle.m161_machine.specs.State.{processor_at};
ghost use Rattle.m161_machine.specs.Uses.{uses_in};
ghost use Rattle.m161_replay.specs.Seen.{fetched_next, loaded_next};
ghost use Rattle.m161_replay.specs.helpers.Loads.{IsLoad, direct};
ghost use Rattle.m161_trace.specs.Loads.{loads_by, physical_if, word_around};
ghost use Rattle.m161_trace.specs.helpers.Loads.{IsLoadFrom, IsReached};

use crate::views::is_user;
use m161_alu::sign_extend_half;
use m161_bus::Console;
use m161_cop0::Register;
use m161_cpu::Via;
use m161_decode::decode;
use m161_isa::{Immediate, Instr, LoadOp, Reg, unmapped};
use m161_machine::Core;
use m161_tlb::Tlb;

// Whether a word is of coprocessor 0, which this Status doesn't let be used.
#[tactic(auto, unfolding(m161_cop0::specs::Control::may_use_cop0, m161_cop0::specs::Control::is_user))]
fn is_unusable(word: u32, status: u32) -> bool
    ensures { (c : Control) → c.status ≡ status → result ≡ is_unusable c word }
{
    word >> 26 == 16 && (status >> 1) % 2 == 1 && (status >> 28) % 2 == 0
}

// The width that the address of a load has to be aligned to.
fn width_of_load(op: LoadOp) -> u32
    ensures value { result ≡ width_of_load op }
    ensures some { 1 ≤ result }
{
    match op {
        LoadOp::Byte | LoadOp::ByteUnsigned | LoadOp::WordLeft | LoadOp::WordRight => 1,
        LoadOp::Half | LoadOp::HalfUnsigned => 2,
        LoadOp::Word | LoadOp::Linked => 4,
    }
}

// The address of a load.
fn address<T: Tlb, D: Console>(core: &Core<T, D>, p: u32, offset: Immediate, base: Reg) -> u32
    requires { p < length core.now.state.processors }
    ensures { result ≡ address_by (processor_at p core.now.state.processors) offset base }
{
    core.reg(p, base)
        .wrapping_add(sign_extend_half(offset.half()))
}

// Whether an address isn't aligned to a width, or is a kernel address in user mode.
#[tactic(auto, unfolding(m161_cpu::specs::Translation::is_misaddressed))]
fn is_misaddressed<T: Tlb, D: Console>(core: &Core<T, D>, p: u32, width: u32, address: u32) -> bool
    requires processor { p < length core.now.state.processors }
    requires width { 1 ≤ width }
    ensures { result
        ≡ is_misaddressed width address (processor_at p core.now.state.processors) }
{
    let user = is_user(core, p);
    address % width != 0 || (user && address >= 0x8000_0000)
}

// The physical address of a load that needs no row.
fn direct<T: Tlb, D: Console>(core: &Core<T, D>, p: u32, width: u32, address: u32) -> Option<u32>
    requires processor { p < length core.now.state.processors }
    requires width { 1 ≤ width }
    ensures { result ≡ direct width address (processor_at p core.now.state.processors) }
{
    if is_misaddressed(core, p, width, address) {
        return None;
    }
    unmapped(address)
}

// The physical address of a load that goes through this row.
fn through<T: Tlb, D: Console>(core: &Core<T, D>, p: u32, address: u32, via: Via) -> u32
    requires { p < length core.now.state.processors }
    ensures { (r : Reference) → IsLoadFrom address r
        → (reached : IsReached (processor_at p core.now.state.processors) r (Some via))
        → result ≡ reached.at }
{
    let number = via.row.number();
    let row = core.row(p, number);
    let frame = row.frame.number();
    (frame << 12) + address % (1 << 12)
}

// The physical address of a load, if it has one: through this row, or through none.
fn physical<T: Tlb, D: Console>(
    core: &Core<T, D>,
    p: u32,
    width: u32,
    address: u32,
    via: Option<Via>,
) -> Option<u32>
    requires processor { p < length core.now.state.processors }
    requires width { 1 ≤ width }
    ensures { (r : Reference) → IsLoad width address r
        → via ≡ via_of (processor_at p core.now.state.processors) r
        → result ≡ physical_if (address_of (processor_at p core.now.state.processors) r) }
{
    match via {
        Some(via) => Some(through(core, p, address, via)),
        None => direct(core, p, width, address),
    }
}

// The physical address that the instruction of a word loads from.
fn loads_by<T: Tlb, D: Console>(
    core: &Core<T, D>,
    p: u32,
    word: u32,
    via: Option<Via>,
) -> Option<u32>
    requires processor { p < length core.now.state.processors }
    requires via { via ≡ via_reference (processor_at p core.now.state.processors)
        (reference_in (processor_at p core.now.state.processors) word) }
    ensures { result ≡ loads_by (processor_at p core.now.state.processors) word }
{
    match decode(word) {
        Instr::Load {
            op,
            rt: _,
            offset,
            base,
        } => physical(
            core,
            p,
            width_of_load(op),
            address(core, p, offset, base),
            via,
        ),
        _ => None,
    }
}

// The word that a physical address is in, if RAM is so large.
fn word_around(size: usize, at: Option<u32>) -> Option<u32>
    ensures { result ≡ option_and_then (word_around size) at }
{
    let at = at?;
    let word = at / 4 * 4;
    if u64::from(word) + 4 <= size as u64 {
        Some(word)
    } else {
        None
    }
}

// The physical address that the next Step of processor `p` loads from. It fetches this word; and its
// load or store is through this row.
fn loaded_address<T: Tlb, D: Console>(
    core: &Core<T, D>,
    p: u32,
    word: u32,
    via: Option<Via>,
) -> Option<u32>
    requires processor { p < length core.now.state.processors }
    requires word { fetched_next p core.now.state ≡ Some word }
    requires via { via ≡ (uses_in p core.now.state).access }
    ensures { option_and_then (word_around (length core.now.state.memory)) result
        ≡ loaded_next p core.now.state }
{
    let status = core.cop(p, Register::Status);
    if is_unusable(word, status) {
        return None;
    }
    loads_by(core, p, word, via)
}

/// The word of RAM that the next Step of processor `p` loads from. It fetches this word, if any; and
/// its load or store is through this row.
pub(crate) fn loaded_next<T: Tlb, D: Console>(
    core: &Core<T, D>,
    p: u32,
    fetch: Option<u32>,
    via: Option<Via>,
) -> Option<u32>
    requires processor { p < length core.now.state.processors }
    requires fetch { fetch ≡ fetched_next p core.now.state }
    requires via { via ≡ (uses_in p core.now.state).access }
    ensures { result ≡ loaded_next p core.now.state }
{
    match fetch {
        Some(word) => word_around(core.memory().len(), loaded_address(core, p, word, via)),
        None => None,
    }
}
