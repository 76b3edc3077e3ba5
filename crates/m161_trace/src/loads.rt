//! What a Step loads.

ghost use Rattle.std.specs.Prelude.{◌≡◌, ◌<◌, Ok, Some, length, option_and_then};
ghost use Rattle.m161_cpu.specs.declared.processor.Outcome.TheVariants as outcomes;
ghost use Rattle.m161_cpu.specs.Fetch.{fetched_word};
ghost use Rattle.m161_cpu.specs.Uses.{Reference};
ghost use Rattle.m161_cpu.specs.helpers.Uses.{address_by};
ghost use Rattle.m161_isa.specs.Instr.{rt_of};
ghost use Rattle.m161_machine.specs.declared.event.Event.TheVariants as events;
ghost use Rattle.m161_machine.specs.State.{next, processor_at, step_result};
ghost use Rattle.m161_machine.specs.Uses.{uses_in};
ghost use Rattle.m161_trace.specs.Loads.{load_at, load_by, load_from, load_of, loaded, loaded_address, loads_by, word_around, word_got};
ghost use Rattle.m161_trace.specs.helpers.Adds.{AreAlike};
ghost use Rattle.m161_trace.specs.helpers.Loads.{IsLoadFrom, IsReached, Reaches};

use m161_alu::sign_extend_half;
use m161_bus::Console;
use m161_cpu::{Via, uses_tell_the_step};
use m161_decode::decode;
use m161_isa::{Immediate, Instr, Reg, unmapped};
use m161_machine::{Core, Outcome};
use m161_tlb::Tlb;

/// What a Step loaded.
#[derive(Clone, Copy)]
pub(crate) struct Load {
    /// The physical address of the word that has the bytes.
    pub(crate) at: u32,
    /// That word.
    pub(crate) word: u32,
    /// Whether it is one of RAM, and not of a slot.
    pub(crate) in_ram: bool,
}

// The address of a load.
fn address<T: Tlb, D: Console>(core: &Core<T, D>, p: u32, offset: Immediate, base: Reg) -> u32
    requires { p < length core.now.state.processors }
    ensures { result ≡ address_by (processor_at p core.now.state.processors) offset base }
{
    core.reg(p, base)
        .wrapping_add(sign_extend_half(offset.half()))
}

// The physical address of a load that doesn't trap: through this row, or through none.
fn physical<T: Tlb, D: Console>(
    core: &Core<T, D>,
    p: u32,
    address: u32,
    via: Option<Via>,
) -> Option<u32>
    requires { p < length core.now.state.processors }
    ensures { (r : Reference) → IsLoadFrom address r
        → (reached : IsReached (processor_at p core.now.state.processors) r via)
        → result ≡ Some reached.at }
{
    match via {
        Some(via) => {
            let row = core.row(p, via.row.number());
            Some((row.frame.number() << 12) + address % (1 << 12))
        }
        None => unmapped(address),
    }
}

// The physical address that the instruction of a word loads from, if it doesn't trap.
fn loads_by<T: Tlb, D: Console>(
    core: &Core<T, D>,
    p: u32,
    word: u32,
    via: Option<Via>,
) -> Option<u32>
    requires processor { p < length core.now.state.processors }
    requires reaches { Reaches (processor_at p core.now.state.processors) word via }
    ensures { result ≡ loads_by (processor_at p core.now.state.processors) word }
{
    match decode(word) {
        Instr::Load {
            op: _,
            rt: _,
            offset,
            base,
        } => physical(core, p, address(core, p, offset, base), via),
        _ => None,
    }
}

// The physical address that the next Step of processor `p` loads from. It runs; it fetches this
// word, if any; and its load or store is through this row.
#[tactic(auto, unfolding(crate::specs::Loads::loaded_address))]
fn loaded_address<T: Tlb, D: Console>(
    core: &Core<T, D>,
    p: u32,
    fetch: Option<u32>,
    via: Option<Via>,
) -> Option<u32>
    requires processor { p < length core.now.state.processors }
    requires ran { (step_result p core.now.state).outcome ≡ outcomes.Ran }
    requires fetch { fetch ≡ fetched_word core.now.state.memory
        (processor_at p core.now.state.processors).pc
        (processor_at p core.now.state.processors) }
    requires via { via ≡ (uses_in p core.now.state).access }
    ensures { result ≡ loaded_address p core.now.state outcomes.Ran }
{
    uses_tell_the_step();
    match fetch {
        Some(word) => loads_by(core, p, word, via),
        None => None,
    }
}

/// The word of RAM that a physical address is in, by its first byte's, if RAM is so large.
pub fn word_around(size: usize, at: u32) -> Option<u32>
    ensures { result ≡ word_around size at }
{
    let word = at / 4 * 4;
    if u64::from(word) + 4 <= size as u64 {
        Some(word)
    } else {
        None
    }
}

/// The word of RAM that the next Step of processor `p` loads from. It runs; it fetches this word, if
/// any; and its load or store is through this row.
#[tactic(auto, unfolding(crate::specs::Loads::loaded))]
pub fn loaded<T: Tlb, D: Console>(
    core: &Core<T, D>,
    p: u32,
    fetch: Option<u32>,
    via: Option<Via>,
) -> Option<u32>
    requires processor { p < length core.now.state.processors }
    requires ran { (step_result p core.now.state).outcome ≡ outcomes.Ran }
    requires fetch { fetch ≡ fetched_word core.now.state.memory
        (processor_at p core.now.state.processors).pc
        (processor_at p core.now.state.processors) }
    requires via { via ≡ (uses_in p core.now.state).access }
    ensures { result ≡ loaded p core.now.state outcomes.Ran }
{
    let at = loaded_address(core, p, fetch, via)?;
    word_around(core.memory().len(), at)
}

// The word that a load from a slot got into a register.
fn word_got<T: Tlb, D: Console>(p: u32, r: Reg, after: &Core<T, D>) -> Option<u32>
    requires { p < length after.now.state.processors }
    ensures { result ≡ word_got r (processor_at p after.now.state.processors) }
{
    if r.number() == 0 {
        None
    } else {
        Some(after.reg(p, r))
    }
}

// A load of this word of RAM, or else of what a slot gave, if that went to a register.
fn load_at(at: u32, word: Option<u32>, got: Option<u32>) -> Option<Load>
    ensures { result ≡ load_at at word got }
{
    match word {
        Some(word) => Some(Load {
            at,
            word,
            in_ram: true,
        }),
        None => {
            let word = got?;
            Some(Load {
                at,
                word,
                in_ram: false,
            })
        }
    }
}

// A load from a physical address to a register.
fn load_from<T: Tlb, D: Console>(
    p: u32,
    before: &Core<T, D>,
    after: &Core<T, D>,
    r: Reg,
    at: u32,
) -> Option<Load>
    requires { p < length after.now.state.processors }
    ensures { result ≡ load_from p before.now.state after.now.state r at }
{
    let word = at / 4 * 4;
    load_at(word, before.word(word), word_got(p, r, after))
}

// The register that the instruction of a word loads, if it is a load.
fn target(word: u32) -> Reg
    ensures { result ≡ rt_of word }
{
    Reg::new(((word >> 16) % 32) as u8)
}

// What the instruction of a word loads, from this physical address.
fn load_by<T: Tlb, D: Console>(
    p: u32,
    before: &Core<T, D>,
    after: &Core<T, D>,
    word: u32,
    at: Option<u32>,
) -> Option<Load>
    requires place { p < length after.now.state.processors }
    requires at { at ≡ loads_by (processor_at p before.now.state.processors) word }
    ensures { result ≡ load_by p before.now.state after.now.state word }
{
    let at = at?;
    load_from(p, before, after, target(word), at)
}

// What a Step of processor `p` loads that runs, and fetches this word, if any.
#[tactic(auto, unfolding(crate::specs::Loads::load_of))]
fn load_of_run<T: Tlb, D: Console>(
    p: u32,
    before: &Core<T, D>,
    fetch: Option<u32>,
    after: &Core<T, D>,
) -> Option<Load>
    requires alike { AreAlike p before.now.state after.now.state }
    requires ran { (step_result p before.now.state).outcome ≡ outcomes.Ran }
    requires fetch { fetch ≡ fetched_word before.now.state.memory
        (processor_at p before.now.state.processors).pc
        (processor_at p before.now.state.processors) }
    ensures { result ≡ load_of p before.now.state outcomes.Ran after.now.state }
{
    uses_tell_the_step();
    match fetch {
        Some(word) => {
            let at = loads_by(before, p, word, before.uses(p).access);
            load_by(p, before, after, word, at)
        }
        None => None,
    }
}

/// What a Step of processor `p` loads, which would fetch this word.
#[tactic(auto, unfolding(crate::specs::Loads::load_of))]
pub(crate) fn load_of<T: Tlb, D: Console>(
    p: u32,
    before: &Core<T, D>,
    fetch: Option<u32>,
    outcome: Outcome,
    after: &Core<T, D>,
) -> Option<Load>
    requires accepted { next before.now.state (events.Step p) ≡ Ok (outcome, after.now.state) }
    requires alike { AreAlike p before.now.state after.now.state }
    requires fetch { fetch ≡ fetched_word before.now.state.memory
        (processor_at p before.now.state.processors).pc
        (processor_at p before.now.state.processors) }
    ensures { result ≡ load_of p before.now.state outcome after.now.state }
{
    match outcome {
        Outcome::Ran => load_of_run(p, before, fetch, after),
        Outcome::Trapped { .. }
        | Outcome::Idle
        | Outcome::PoweredOff
        | Outcome::Conflict { .. }
        | Outcome::Taken => None,
    }
}
