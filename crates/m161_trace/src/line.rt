//! The line of an event.

ghost use Rattle.std.specs.Prelude.{◌≡◌, ◌⊎◌, ◌<◌, ◌++◌, List, None, Ok, OnOk, codes, decimal, false, if◌then◌else◌, is_some, length, string_bytes, true};
ghost use Rattle.m161_cpu.specs.Fetch.{fetched_word};
ghost use Rattle.m161_machine.specs.declared.event.Event.TheVariants as events;
ghost use Rattle.m161_machine.specs.Fetched.{fetches_none};
ghost use Rattle.m161_machine.specs.State.{next, processor_at};
ghost use Rattle.m161_machine.specs.Uses.{uses_in};
ghost use Rattle.m161_text.specs.Parts.{◌␣◌, hex_text};
ghost use Rattle.m161_trace.specs.Items.{Item, items, shared_items};
ghost use Rattle.m161_trace.specs.Line.{address_text, behind, behind_load, event_line, event_line_with, instruction_text, load_place, load_text, spaced, step_head, step_line};
ghost use Rattle.m161_trace.specs.Loads.{load_of};
ghost use Rattle.m161_text.specs.Lines.{with_line_end};
ghost use Rattle.m161_trace.specs.helpers.Far.{is_far, is_far_found, is_far_word};
ghost use Rattle.m161_trace.specs.helpers.Near.{IsNear};
ghost use Rattle.m161_trace.specs.helpers.Adds.{Adds, AddsIn, AreAlike};

use crate::loads::{Load, load_of};
use crate::places::{add_common, add_places};
use crate::processor::add_processor;
use crate::shared::{
    add_latch_of, add_links, add_outcome, add_starts_of, add_stored, add_waiting_of,
};
use crate::text::push_ram_place;
use m161_bus::Console;
use m161_decode::row_that_fits;
use m161_dis::{Style, push_line_with};
use m161_isa::Effect;
use m161_machine::{Core, Event, Outcome, fetches_none};
use m161_symbols::{Symbols, push_place_behind};
use m161_text::push_hex;
use m161_tlb::Tlb;
use std::alloc::AllocError;
use std::fmt::Write;

// What changed beside the processor.
fn add_shared<T: Tlb, D: Console>(
    text: &mut String,
    style: &Style,
    p: u32,
    before: &Core<T, D>,
    after: &Core<T, D>,
    stored: Option<u32>,
    far: bool,
) -> Result<(), AllocError>
    requires alike { AreAlike p before.now.state after.now.state }
    requires stored { stored ≡ (uses_in p before.now.state).stored }
    requires near { far ≡ false → IsNear p before.now.state after.now.state }
    ensures { OnOk result (AddsIn style.now (string_bytes text.old)
        (shared_items p before.now.state after.now.state)
        (string_bytes text.new)) }
{
    add_stored(text, style, stored, after)?;
    add_links(text, p, before, after)?;
    add_latch_of(text, before, after)?;
    add_waiting_of(text, before, after)?;
    add_common(text, before, after)?;
    add_places(text, before, after, far)
}

// Whether an instruction may write rows of the TLB or words of the board.
#[tactic(auto, unfolding(crate::specs::helpers::Far::is_far_word))]
fn is_far_word(word: u32) -> bool
    ensures { result ≡ is_far_word word }
{
    match row_that_fits(word) {
        Some(row) => is_far(row.effect()),
        None => false,
    }
}

fn is_far(effect: Effect) -> bool
    ensures { result ≡ is_far effect }
{
    matches!(
        effect,
        Effect::WriteTlbIndexed | Effect::WriteTlbRandom | Effect::LoadWord | Effect::StoreWord
    )
}

// Whether a Step that would fetch this word and stores to this one may write rows or words of the
// board. A store to RAM writes neither.
fn is_far_step(fetch: Option<u32>, stored: Option<u32>) -> bool
    ensures { result ≡ false
        → (is_far_found fetch ≡ false) ⊎ (is_some stored ≡ true) }
{
    let Some(word) = fetch else {
        return false;
    };
    match stored {
        Some(_word) => false,
        None => is_far_word(word),
    }
}

/// The items of a Step of processor `p`, which would fetch this word.
pub(crate) fn add_items<T: Tlb, D: Console>(
    text: &mut String,
    style: &Style,
    p: u32,
    before: &Core<T, D>,
    fetch: Option<u32>,
    outcome: Outcome,
    after: &Core<T, D>,
) -> Result<(), AllocError>
    requires accepted { next before.now.state (events.Step p) ≡ Ok (outcome, after.now.state) }
    requires alike { AreAlike p before.now.state after.now.state }
    requires fetch { fetch ≡ fetched_word before.now.state.memory
        (processor_at p before.now.state.processors).pc
        (processor_at p before.now.state.processors) }
    ensures { OnOk result (AddsIn style.now (string_bytes text.old)
        (items p before.now.state outcome after.now.state)
        (string_bytes text.new)) }
{
    let stored = before.uses(p).stored;
    let far = is_far_step(fetch, stored);
    add_processor(text, style, p, before, after, far)?;
    add_shared(text, style, p, before, after, stored, far)?;
    add_outcome(text, outcome)?;
    add_starts_of(text, before, after)
}

// The word that a Step fetched, if that is this one where it fetched any.
fn fetched(fetch: Option<u32>, outcome: Outcome) -> Option<u32>
    ensures { result ≡ (if fetches_none outcome then None else fetch) }
{
    if fetches_none(outcome) { None } else { fetch }
}

// Appends the address of an instruction with its place behind it.
fn push_address(text: &mut String, style: &Style, at: u32) -> Result<(), AllocError>
    ensures { OnOk result (string_bytes text.new
        ≡ string_bytes text.old ++ address_text style.now at) }
{
    push_hex(text, 8, at)?;
    push_place_behind(text, &style.symbols, at)
}

// Appends the word that was fetched and its text, or that there was none.
fn push_instruction(
    text: &mut String,
    style: &Style,
    at: u32,
    word: Option<u32>,
) -> Result<(), AllocError>
    ensures { OnOk result (string_bytes text.new
        ≡ string_bytes text.old ++ instruction_text style.now at word) }
{
    match word {
        None => text.push_str("-"),
        Some(word) => {
            push_hex(text, 8, word)?;
            text.push(' ')?;
            push_line_with(text, style, word, at)
        }
    }
}

// Appends a Step up to its items.
fn push_step(
    text: &mut String,
    style: &Style,
    number: u64,
    p: u32,
    pc: u32,
    word: Option<u32>,
) -> Result<(), AllocError>
    ensures { OnOk result (string_bytes text.new ≡ string_bytes text.old
        ++ (decimal number ␣ decimal p ␣ address_text style.now pc ␣ instruction_text style.now pc word)) }
{
    write!(text, "{number} {p} ")?;
    push_address(text, style, pc)?;
    text.push(' ')?;
    push_instruction(text, style, pc, word)
}

// Appends a part.
fn push_part(text: &mut String, part: &str) -> Result<(), AllocError>
    ensures { OnOk result (string_bytes text.new ≡ string_bytes text.old ++ part.now) }
{
    text.push_str(part)
}

// Appends items to a line's beginning.
fn push_items(text: &mut String, style: &Style, items: &str) -> Result<(), AllocError>
    ensures { (is : List Item) → items.now ≡ spaced style.now is
        → OnOk result (string_bytes text.new ≡ string_bytes text.old ++ behind style.now is) }
{
    if items.len() == 0 {
        return Ok(());
    }
    push_part(text, " ")?;
    push_part(text, items)
}

// Appends the place of what was loaded, if that is a word of RAM.
fn push_load_place(text: &mut String, symbols: &Symbols, load: Load) -> Result<(), AllocError>
    ensures { OnOk result (string_bytes text.new
        ≡ string_bytes text.old ++ load_place symbols.now load) }
{
    if load.in_ram {
        push_ram_place(text, symbols, load.at)
    } else {
        Ok(())
    }
}

// Appends a load to a line's beginning.
fn push_load(text: &mut String, symbols: &Symbols, load: Load) -> Result<(), AllocError>
    ensures { OnOk result (string_bytes text.new
        ≡ string_bytes text.old ++ (codes "  " ++ load_text symbols.now load)) }
{
    text.push_str("  (")?;
    push_hex(text, 8, load.at)?;
    push_load_place(text, symbols, load)?;
    text.push_str(")=")?;
    push_hex(text, 8, load.word)
}

// Appends a load, if there is one, and items to a line's beginning.
fn push_load_and_items(
    text: &mut String,
    style: &Style,
    load: Option<Load>,
    items: &str,
) -> Result<(), AllocError>
    ensures { (is : List Item) → items.now ≡ spaced style.now is
        → OnOk result (string_bytes text.new
        ≡ string_bytes text.old ++ behind_load style.now load is) }
{
    match load {
        None => push_items(text, style, items),
        Some(load) => {
            push_load(text, &style.symbols, load)?;
            push_part(text, items)
        }
    }
}

// What a Step of processor `p` loads, which would fetch this word, where loads are shown.
fn load_if<T: Tlb, D: Console>(
    loads: bool,
    p: u32,
    before: &Core<T, D>,
    fetch: Option<u32>,
    outcome: Outcome,
    after: &Core<T, D>,
) -> Option<Load>
    requires accepted { next before.now.state (events.Step p) ≡ Ok (outcome, after.now.state) }
    requires alike { AreAlike p before.now.state after.now.state }
    requires fetch { fetch ≡ fetched_word before.now.state.memory
        (processor_at p before.now.state.processors).pc
        (processor_at p before.now.state.processors) }
    ensures { result ≡ (if loads then load_of p before.now.state outcome after.now.state else None) }
{
    if loads {
        load_of(p, before, fetch, outcome, after)
    } else {
        None
    }
}

// The word that processor `p` would fetch.
fn fetch_of<T: Tlb, D: Console>(p: u32, before: &Core<T, D>) -> Option<u32>
    requires { p < length before.now.state.processors }
    ensures { result ≡ fetched_word before.now.state.memory
        (processor_at p before.now.state.processors).pc
        (processor_at p before.now.state.processors) }
{
    before.fetched_word(p, before.pc(p))
}

// Appends a Step of processor `p`, which would fetch this word, up to its items.
fn push_head<T: Tlb, D: Console>(
    text: &mut String,
    style: &Style,
    number: u64,
    p: u32,
    before: &Core<T, D>,
    fetch: Option<u32>,
    outcome: Outcome,
) -> Result<(), AllocError>
    requires place { p < length before.now.state.processors }
    requires fetch { fetch ≡ fetched_word before.now.state.memory
        (processor_at p before.now.state.processors).pc
        (processor_at p before.now.state.processors) }
    ensures { OnOk result (string_bytes text.new ≡ string_bytes text.old
        ++ step_head style.now number p before.now.state outcome) }
{
    push_step(
        text,
        style,
        number,
        p,
        before.pc(p),
        fetched(fetch, outcome),
    )
}

// Writes the items of a Step of processor `p`, which would fetch this word, into a text.
fn fill_items<T: Tlb, D: Console>(
    text: &mut String,
    style: &Style,
    p: u32,
    before: &Core<T, D>,
    fetch: Option<u32>,
    outcome: Outcome,
    after: &Core<T, D>,
) -> Result<(), AllocError>
    requires accepted { next before.now.state (events.Step p) ≡ Ok (outcome, after.now.state) }
    requires alike { AreAlike p before.now.state after.now.state }
    requires fetch { fetch ≡ fetched_word before.now.state.memory
        (processor_at p before.now.state.processors).pc
        (processor_at p before.now.state.processors) }
    ensures { OnOk result (string_bytes text.new
        ≡ spaced style.now (items p before.now.state outcome after.now.state)) }
{
    text.clear();
    add_items(text, style, p, before, fetch, outcome, after)
}

// Appends the line of a Step of processor `p`, without its end.
fn push_step_line<T: Tlb, D: Console>(
    text: &mut String,
    items: &mut String,
    style: &Style,
    loads: bool,
    number: u64,
    p: u32,
    before: &Core<T, D>,
    outcome: Outcome,
    after: &Core<T, D>,
) -> Result<(), AllocError>
    requires { next before.now.state (events.Step p) ≡ Ok (outcome, after.now.state) }
    ensures { OnOk result (string_bytes text.new ≡ string_bytes text.old
        ++ step_line style.now loads number p before.now.state outcome after.now.state) }
{
    let fetch = fetch_of(p, before);
    push_head(text, style, number, p, before, fetch, outcome)?;
    let load = load_if(loads, p, before, fetch, outcome, after);
    fill_items(items, style, p, before, fetch, outcome, after)?;
    push_load_and_items(text, style, load, items.as_str())
}

// Appends the line of a key, without its end.
fn push_key(text: &mut String, number: u64, byte: u8) -> Result<(), AllocError>
    ensures { OnOk result (string_bytes text.new ≡ string_bytes text.old
        ++ (decimal number ␣ codes "k" ␣ hex_text 2 byte)) }
{
    write!(text, "{number} k ")?;
    push_hex(text, 2, u32::from(byte))
}

// Appends the line of a byte that was sent, without its end.
fn push_done(text: &mut String, number: u64) -> Result<(), AllocError>
    ensures { OnOk result (string_bytes text.new ≡ string_bytes text.old
        ++ (decimal number ␣ codes "o")) }
{
    write!(text, "{number} o")
}

/// Writes the line of an event that is accepted, with its end, in place of a text, and what a Step
/// loads where `loads` is true; `items` is room for its items. `number` is the event's in its run.
///
/// # Errors
/// Memory was refused.
#[tactic(auto, unfolding(crate::specs::Line::event_line_with))]
pub(crate) fn write_line_with<T: Tlb, D: Console>(
    text: &mut String,
    items: &mut String,
    style: &Style,
    loads: bool,
    number: u64,
    event: Event,
    before: &Core<T, D>,
    outcome: Outcome,
    after: &Core<T, D>,
) -> Result<(), AllocError>
    requires { next before.now.state event ≡ Ok (outcome, after.now.state) }
    ensures { OnOk result (string_bytes text.new ≡
        with_line_end (event_line_with style.now loads number event before.now.state outcome
        after.now.state)) }
{
    text.clear();
    match event {
        Event::Step(p) => {
            push_step_line(text, items, style, loads, number, p, before, outcome, after)?
        }
        Event::Key(byte) => push_key(text, number, byte)?,
        Event::Done => push_done(text, number)?,
    }
    text.push('\n')
}

/// Writes the line of an event that is accepted, with its end, in place of a text, without what a Step
/// loads; `items` is room for its items. `number` is the event's in its run.
///
/// # Errors
/// Memory was refused.
#[tactic(auto, unfolding(crate::specs::Line::event_line))]
pub fn write_line<T: Tlb, D: Console>(
    text: &mut String,
    items: &mut String,
    style: &Style,
    number: u64,
    event: Event,
    before: &Core<T, D>,
    outcome: Outcome,
    after: &Core<T, D>,
) -> Result<(), AllocError>
    requires { next before.now.state event ≡ Ok (outcome, after.now.state) }
    ensures { OnOk result (string_bytes text.new ≡
        with_line_end (event_line style.now number event before.now.state outcome after.now.state)) }
{
    write_line_with(
        text, items, style, false, number, event, before, outcome, after,
    )
}
