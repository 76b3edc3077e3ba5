//! What a Step changed beside its processor: RAM, links, the console, the board, and the processors
//! that it started.

ghost use Rattle.std.specs.Prelude.{◌≡◌, ◌<◌, ◌≤◌, ◌&&◌, OnOk, None, length, not, slice_index_or, string_bytes};
ghost use Rattle.m161_isa.specs.Bits.{has_bit};
ghost use Rattle.m161_machine.specs.State.{word_in};
ghost use Rattle.m161_trace.specs.Items.{changed, ended_by, latch_items, latched, latched_as, link_items, linked, linked_as, linked_items, outcome_items, start_item, start_items, stored_as, stored_items, unlinked_by, unlinked_item, waiting, waiting_items};
ghost use Rattle.m161_trace.specs.helpers.Adds.{Adds, AddsIn, Have};

use crate::text::{
    push_conflict, push_idle, push_latched, push_linked, push_off, push_starts, push_stored,
    push_trapped, push_unlinked, push_waiting,
};
use m161_bus::Console;
use m161_dis::Style;
use m161_machine::{BoardWord, Core, Outcome};
use m161_tlb::Tlb;
use std::alloc::AllocError;

// The word of RAM at an address, if there is one.
fn add_stored_as(
    text: &mut String,
    style: &Style,
    at: u32,
    word: Option<u32>,
) -> Result<(), AllocError>
    ensures { OnOk result (AddsIn style.now (string_bytes text.old) (stored_as at word)
        (string_bytes text.new)) }
{
    match word {
        None => Ok(()),
        Some(word) => push_stored(text, style, at, word),
    }
}

// The word of RAM at an address, after the Step.
fn add_stored_at<T: Tlb, D: Console>(
    text: &mut String,
    style: &Style,
    at: u32,
    after: &Core<T, D>,
) -> Result<(), AllocError>
    ensures { OnOk result (AddsIn style.now (string_bytes text.old)
        (stored_as at (word_in after.now.state.memory at))
        (string_bytes text.new)) }
{
    add_stored_as(text, style, at, after.word(at))
}

/// The word of RAM that the Step stored to.
pub(crate) fn add_stored<T: Tlb, D: Console>(
    text: &mut String,
    style: &Style,
    stored: Option<u32>,
    after: &Core<T, D>,
) -> Result<(), AllocError>
    ensures { OnOk result (AddsIn style.now (string_bytes text.old) (stored_items stored after.now.state.memory)
        (string_bytes text.new)) }
{
    match stored {
        None => Ok(()),
        Some(at) => add_stored_at(text, style, at, after),
    }
}

// The word that a link names, if it names another.
fn add_changed_link(text: &mut String, before: u32, after: u32) -> Result<(), AllocError>
    ensures { OnOk result (Adds (string_bytes text.old) (changed before after (linked after))
        (string_bytes text.new)) }
{
    if before == after {
        return Ok(());
    }
    push_linked(text, after)
}

// The word that a live link names, if that changed.
fn add_linked_as(text: &mut String, before: Option<u32>, word: u32) -> Result<(), AllocError>
    ensures { OnOk result (Adds (string_bytes text.old) (linked_as before word)
        (string_bytes text.new)) }
{
    match before {
        None => push_linked(text, word),
        Some(old) => add_changed_link(text, old, word),
    }
}

// The word that a link names, if it is live and that changed.
fn add_linked(text: &mut String, before: Option<u32>, after: Option<u32>) -> Result<(), AllocError>
    ensures { OnOk result (Adds (string_bytes text.old) (linked_items before after)
        (string_bytes text.new)) }
{
    match after {
        None => Ok(()),
        Some(word) => add_linked_as(text, before, word),
    }
}

// The word that the link of the processor names in the two states.
fn add_own_link<T: Tlb, D: Console>(
    text: &mut String,
    p: u32,
    before: &Core<T, D>,
    after: &Core<T, D>,
) -> Result<(), AllocError>
    requires { Have p before.now.state after.now.state }
    ensures { OnOk result (Adds (string_bytes text.old)
        (linked_items (slice_index_or before.now.state.links.live p None)
        (slice_index_or after.now.state.links.live p None))
        (string_bytes text.new)) }
{
    add_linked(text, before.link(p), after.link(p))
}

// Processor `q`, whose link was live, if that ended.
fn add_ended(text: &mut String, q: u32, after: Option<u32>) -> Result<(), AllocError>
    ensures { OnOk result (Adds (string_bytes text.old) (ended_by q after)
        (string_bytes text.new)) }
{
    match after {
        None => push_unlinked(text, q),
        Some(_word) => Ok(()),
    }
}

// Processor `q`, if its link ended.
fn add_unlinked_by(
    text: &mut String,
    q: u32,
    before: Option<u32>,
    after: Option<u32>,
) -> Result<(), AllocError>
    ensures { OnOk result (Adds (string_bytes text.old) (unlinked_by q before after)
        (string_bytes text.new)) }
{
    match before {
        None => Ok(()),
        Some(_word) => add_ended(text, q, after),
    }
}

// Processor `q` of the two states, if its link ended.
fn add_unlinked<T: Tlb, D: Console>(
    text: &mut String,
    before: &Core<T, D>,
    after: &Core<T, D>,
    q: u32,
) -> Result<(), AllocError>
    requires { Have q before.now.state after.now.state }
    ensures { OnOk result (Adds (string_bytes text.old)
        (unlinked_item before.now.state.links.live after.now.state.links.live q)
        (string_bytes text.new)) }
{
    add_unlinked_by(text, q, before.link(q), after.link(q))
}

/// The links that changed.
pub(crate) fn add_links<T: Tlb, D: Console>(
    text: &mut String,
    p: u32,
    before: &Core<T, D>,
    after: &Core<T, D>,
) -> Result<(), AllocError>
    requires have { Have p before.now.state after.now.state }
    requires length { length after.now.state.processors ≡ length before.now.state.processors }
    ensures { OnOk result (Adds (string_bytes text.old)
        (link_items p (length before.now.state.processors) before.now.state.links.live
        after.now.state.links.live)
        (string_bytes text.new)) }
{
    add_own_link(text, p, before, after)?;
    for q in 0..before.processors() {
        add_unlinked(text, before, after, q)?;
    }
    Ok(())
}

// The byte in the console's latch, if it is another.
fn add_changed_latch(text: &mut String, before: u8, after: u8) -> Result<(), AllocError>
    ensures { OnOk result (Adds (string_bytes text.old) (changed before after (latched after))
        (string_bytes text.new)) }
{
    if before == after {
        return Ok(());
    }
    push_latched(text, after)
}

// The byte in the console's latch, which is full, if that changed.
fn add_latched_as(text: &mut String, before: Option<u8>, byte: u8) -> Result<(), AllocError>
    ensures { OnOk result (Adds (string_bytes text.old) (latched_as before byte)
        (string_bytes text.new)) }
{
    match before {
        None => push_latched(text, byte),
        Some(old) => add_changed_latch(text, old, byte),
    }
}

// The byte in the console's latch, if there is one and that changed.
fn add_latch(text: &mut String, before: Option<u8>, after: Option<u8>) -> Result<(), AllocError>
    ensures { OnOk result (Adds (string_bytes text.old) (latch_items before after)
        (string_bytes text.new)) }
{
    match after {
        None => Ok(()),
        Some(byte) => add_latched_as(text, before, byte),
    }
}

/// The console's latch in the two states.
pub(crate) fn add_latch_of<T: Tlb, D: Console>(
    text: &mut String,
    before: &Core<T, D>,
    after: &Core<T, D>,
) -> Result<(), AllocError>
    ensures { OnOk result (Adds (string_bytes text.old)
        (latch_items before.now.state.board.console.latch
        after.now.state.board.console.latch)
        (string_bytes text.new)) }
{
    add_latch(text, before.latch(), after.latch())
}

// How many typed bytes wait, if that changed.
fn add_waiting(text: &mut String, before: u32, after: u32) -> Result<(), AllocError>
    ensures { OnOk result (Adds (string_bytes text.old) (changed before after (waiting after))
        (string_bytes text.new)) }
{
    if before == after {
        return Ok(());
    }
    push_waiting(text, after)
}

/// How many typed bytes wait in the two states.
pub(crate) fn add_waiting_of<T: Tlb, D: Console>(
    text: &mut String,
    before: &Core<T, D>,
    after: &Core<T, D>,
) -> Result<(), AllocError>
    ensures { OnOk result (Adds (string_bytes text.old)
        (waiting_items before.now.state.board.console
        after.now.state.board.console)
        (string_bytes text.new)) }
{
    add_waiting(text, before.waiting(), after.waiting())
}

/// What the outcome says.
pub(crate) fn add_outcome(text: &mut String, outcome: Outcome) -> Result<(), AllocError>
    ensures { OnOk result (Adds (string_bytes text.old) (outcome_items outcome)
        (string_bytes text.new)) }
{
    match outcome {
        Outcome::Ran => Ok(()),
        Outcome::Taken => Ok(()),
        Outcome::Trapped { code, vector } => push_trapped(text, code, vector),
        Outcome::Idle => push_idle(text),
        Outcome::PoweredOff => push_off(text),
        Outcome::Conflict { row, other } => push_conflict(text, row, other),
    }
}

// Whether processor `q` is new in CPUE.
fn is_new(before: u32, after: u32, q: u32) -> bool
    requires { q < 32 }
    ensures { result ≡ has_bit after q && not (has_bit before q) }
{
    (after >> q) % 2 == 1 && (before >> q) % 2 != 1
}

// Processor `q`, if it is new in CPUE.
fn add_start(text: &mut String, before: u32, after: u32, q: u32) -> Result<(), AllocError>
    requires { q < 32 }
    ensures { OnOk result (Adds (string_bytes text.old) (start_item before after q)
        (string_bytes text.new)) }
{
    if is_new(before, after, q) {
        push_starts(text, q)
    } else {
        Ok(())
    }
}

// The processors that are new in CPUE: `n` is how many there are.
#[tactic(auto, using(crate::proofs::Nothing::no_starts))]
fn add_starts(text: &mut String, n: u32, before: u32, after: u32) -> Result<(), AllocError>
    requires { n ≤ 32 }
    ensures { OnOk result (Adds (string_bytes text.old) (start_items n before after)
        (string_bytes text.new)) }
{
    if before == after {
        return Ok(());
    }
    for q in 0..n {
        add_start(text, before, after, q)?;
    }
    Ok(())
}

/// The processors that are new in CPUE, of the two states.
pub(crate) fn add_starts_of<T: Tlb, D: Console>(
    text: &mut String,
    before: &Core<T, D>,
    after: &Core<T, D>,
) -> Result<(), AllocError>
    ensures { OnOk result (Adds (string_bytes text.old)
        (start_items (length before.now.state.processors)
        before.now.state.board.started after.now.state.board.started)
        (string_bytes text.new)) }
{
    before.law();
    let started = before.board_word(BoardWord::Cpue);
    add_starts(
        text,
        before.processors(),
        started,
        after.board_word(BoardWord::Cpue),
    )
}
