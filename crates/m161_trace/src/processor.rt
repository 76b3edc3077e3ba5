//! What a Step changed of its processor: its registers, coprocessor 0 and TLB before and after.

ghost use Rattle.std.specs.Prelude.{◌≡◌, ◌<◌, ◌==◌, ◌&&◌, OnOk, Some, false, slice_get, string_bytes};
ghost use Rattle.m161_machine.specs.State.{processor_at};
ghost use Rattle.m161_tlb.specs.Row.{hi_word, lo_word};
ghost use Rattle.m161_trace.specs.Items.{changed, control, control_item, control_items, hi, hi_lo_items, lo, processor_items, register, register_item, register_items, row, row_item, row_item_of, row_items, same_state, shown_registers, state_items};
ghost use Rattle.m161_trace.specs.helpers.Adds.{Adds, AddsIn, AddsItem, Have};
ghost use Rattle.m161_trace.specs.helpers.Near.{IsNear};

use crate::text::{push_control, push_doing, push_hi, push_lo, push_register, push_row};
use m161_bus::Console;
use m161_dis::Style;
use m161_machine::{Core, ProcessorState, Reg, Register, Row};
use m161_tlb::Tlb;
use std::alloc::AllocError;

/// The registers of coprocessor 0 that items show, in the order of their numbers. Random and Count
/// change in each Step, and PRId never does.
static SHOWN: [Register; 9] = [
    Register::Index,
    Register::EntryLo,
    Register::Context,
    Register::BadVaddr,
    Register::EntryHi,
    Register::Compare,
    Register::Status,
    Register::Cause,
    Register::Epc,
];

// Whether a processor does the same.
fn same_state(before: ProcessorState, after: ProcessorState) -> bool
    ensures { result ≡ same_state before after }
{
    match before {
        ProcessorState::Stopped => matches!(after, ProcessorState::Stopped),
        ProcessorState::Running => matches!(after, ProcessorState::Running),
        ProcessorState::Waiting => matches!(after, ProcessorState::Waiting),
    }
}

// What it is doing, if that changed.
fn add_state(
    text: &mut String,
    before: ProcessorState,
    after: ProcessorState,
) -> Result<(), AllocError>
    ensures { OnOk result (Adds (string_bytes text.old) (state_items before after)
        (string_bytes text.new)) }
{
    if same_state(before, after) {
        return Ok(());
    }
    push_doing(text, after)
}

// What it is doing in the two states.
fn add_state_of<T: Tlb, D: Console>(
    text: &mut String,
    p: u32,
    before: &Core<T, D>,
    after: &Core<T, D>,
) -> Result<(), AllocError>
    requires { Have p before.now.state after.now.state }
    ensures { OnOk result (Adds (string_bytes text.old)
        (state_items (processor_at p before.now.state.processors).state
        (processor_at p after.now.state.processors).state)
        (string_bytes text.new)) }
{
    add_state(text, before.state(p), after.state(p))
}

// A register, if it changed.
fn add_changed_register(
    text: &mut String,
    style: &Style,
    r: u8,
    before: u32,
    after: u32,
) -> Result<(), AllocError>
    requires { r < 32 }
    ensures { OnOk result (AddsIn style.now (string_bytes text.old) (changed before after (register r after))
        (string_bytes text.new)) }
{
    if before == after {
        return Ok(());
    }
    push_register(text, style, r, after)
}

// Register `r` of the two states.
fn add_register<T: Tlb, D: Console>(
    text: &mut String,
    style: &Style,
    p: u32,
    before: &Core<T, D>,
    after: &Core<T, D>,
    r: u8,
) -> Result<(), AllocError>
    requires have { Have p before.now.state after.now.state }
    requires register { r < 32 }
    ensures { OnOk result (AddsIn style.now (string_bytes text.old)
        (register_item (processor_at p before.now.state.processors)
        (processor_at p after.now.state.processors) r)
        (string_bytes text.new)) }
{
    let register = Reg::new(r);
    add_changed_register(
        text,
        style,
        r,
        before.reg(p, register),
        after.reg(p, register),
    )
}

// The general registers that changed.
fn add_registers<T: Tlb, D: Console>(
    text: &mut String,
    style: &Style,
    p: u32,
    before: &Core<T, D>,
    after: &Core<T, D>,
) -> Result<(), AllocError>
    requires { Have p before.now.state after.now.state }
    ensures { OnOk result (AddsIn style.now (string_bytes text.old)
        (register_items (processor_at p before.now.state.processors)
        (processor_at p after.now.state.processors))
        (string_bytes text.new)) }
{
    for r in 1..32u8 {
        add_register(text, style, p, before, after, r)?;
    }
    Ok(())
}

// HI, if it changed.
fn add_hi(text: &mut String, before: u32, after: u32) -> Result<(), AllocError>
    ensures { OnOk result (Adds (string_bytes text.old) (changed before after (hi after))
        (string_bytes text.new)) }
{
    if before == after {
        return Ok(());
    }
    push_hi(text, after)
}

// LO, if it changed.
fn add_lo(text: &mut String, before: u32, after: u32) -> Result<(), AllocError>
    ensures { OnOk result (Adds (string_bytes text.old) (changed before after (lo after))
        (string_bytes text.new)) }
{
    if before == after {
        return Ok(());
    }
    push_lo(text, after)
}

// HI of the two states.
fn add_hi_of<T: Tlb, D: Console>(
    text: &mut String,
    p: u32,
    before: &Core<T, D>,
    after: &Core<T, D>,
) -> Result<(), AllocError>
    requires { Have p before.now.state after.now.state }
    ensures { OnOk result (Adds (string_bytes text.old)
        (changed (processor_at p before.now.state.processors).hi (processor_at p after.now.state.processors).hi
        (hi (processor_at p after.now.state.processors).hi))
        (string_bytes text.new)) }
{
    add_hi(text, before.hi(p), after.hi(p))
}

// LO of the two states.
fn add_lo_of<T: Tlb, D: Console>(
    text: &mut String,
    p: u32,
    before: &Core<T, D>,
    after: &Core<T, D>,
) -> Result<(), AllocError>
    requires { Have p before.now.state after.now.state }
    ensures { OnOk result (Adds (string_bytes text.old)
        (changed (processor_at p before.now.state.processors).lo (processor_at p after.now.state.processors).lo
        (lo (processor_at p after.now.state.processors).lo))
        (string_bytes text.new)) }
{
    add_lo(text, before.lo(p), after.lo(p))
}

// HI and LO.
fn add_hi_lo<T: Tlb, D: Console>(
    text: &mut String,
    p: u32,
    before: &Core<T, D>,
    after: &Core<T, D>,
) -> Result<(), AllocError>
    requires { Have p before.now.state after.now.state }
    ensures { OnOk result (Adds (string_bytes text.old)
        (hi_lo_items (processor_at p before.now.state.processors)
        (processor_at p after.now.state.processors))
        (string_bytes text.new)) }
{
    add_hi_of(text, p, before, after)?;
    add_lo_of(text, p, before, after)
}

// A register of coprocessor 0, if it changed.
fn add_changed_control(
    text: &mut String,
    r: Register,
    before: u32,
    after: u32,
) -> Result<(), AllocError>
    ensures { OnOk result (Adds (string_bytes text.old) (changed before after (control r after))
        (string_bytes text.new)) }
{
    if before == after {
        return Ok(());
    }
    push_control(text, r, after)
}

// A register of coprocessor 0 of the two states.
fn add_control<T: Tlb, D: Console>(
    text: &mut String,
    p: u32,
    before: &Core<T, D>,
    after: &Core<T, D>,
    r: Register,
) -> Result<(), AllocError>
    requires { Have p before.now.state after.now.state }
    ensures { OnOk result (Adds (string_bytes text.old)
        (control_item p before.now.state after.now.state r)
        (string_bytes text.new)) }
{
    add_changed_control(text, r, before.cop(p, r), after.cop(p, r))
}

// The registers that items show, by their order.
fn shown(i: usize) -> Register
    requires { i < 9 }
    ensures { slice_get shown_registers i ≡ Some result }
{
    SHOWN[i]
}

// The registers of coprocessor 0 that changed.
fn add_controls<T: Tlb, D: Console>(
    text: &mut String,
    p: u32,
    before: &Core<T, D>,
    after: &Core<T, D>,
) -> Result<(), AllocError>
    requires { Have p before.now.state after.now.state }
    ensures { OnOk result (Adds (string_bytes text.old)
        (control_items p before.now.state after.now.state)
        (string_bytes text.new)) }
{
    for i in 0..9 {
        add_control(text, p, before, after, shown(i))?;
    }
    Ok(())
}

// Whether a row has the same words.
fn same_row(before: &Row, after: &Row) -> bool
    ensures { result ≡ (hi_word before.now == hi_word after.now)
        && (lo_word before.now == lo_word after.now) }
{
    before.entry_hi() == after.entry_hi() && before.entry_lo() == after.entry_lo()
}

// Row `i`, as its words.
fn push_row_words(text: &mut String, i: u8, words: &Row) -> Result<(), AllocError>
    ensures { OnOk result (AddsItem (string_bytes text.old)
        (row i (hi_word words.now) (lo_word words.now))
        (string_bytes text.new)) }
{
    push_row(text, i, words.entry_hi(), words.entry_lo())
}

// Row `i`, if one of its words changed.
fn add_changed_row(text: &mut String, i: u8, before: &Row, after: &Row) -> Result<(), AllocError>
    ensures { OnOk result (Adds (string_bytes text.old) (row_item_of i before.now after.now)
        (string_bytes text.new)) }
{
    if same_row(before, after) {
        return Ok(());
    }
    push_row_words(text, i, after)
}

// Row `i` of the two states.
fn add_row<T: Tlb, D: Console>(
    text: &mut String,
    p: u32,
    before: &Core<T, D>,
    after: &Core<T, D>,
    i: u8,
) -> Result<(), AllocError>
    requires have { Have p before.now.state after.now.state }
    requires row { i < 64 }
    ensures { OnOk result (Adds (string_bytes text.old)
        (row_item (processor_at p before.now.state.processors).rows
        (processor_at p after.now.state.processors).rows i)
        (string_bytes text.new)) }
{
    add_changed_row(text, i, &before.row(p, i), &after.row(p, i))
}

// The rows that changed.
fn add_rows<T: Tlb, D: Console>(
    text: &mut String,
    p: u32,
    before: &Core<T, D>,
    after: &Core<T, D>,
) -> Result<(), AllocError>
    requires { Have p before.now.state after.now.state }
    ensures { OnOk result (Adds (string_bytes text.old)
        (row_items (processor_at p before.now.state.processors).rows
        (processor_at p after.now.state.processors).rows)
        (string_bytes text.new)) }
{
    for i in 0..64u8 {
        add_row(text, p, before, after, i)?;
    }
    Ok(())
}

// The rows that changed; none did unless the Step is far.
#[tactic(auto, using(crate::proofs::Nothing::no_rows))]
fn add_rows_if<T: Tlb, D: Console>(
    text: &mut String,
    p: u32,
    before: &Core<T, D>,
    after: &Core<T, D>,
    far: bool,
) -> Result<(), AllocError>
    requires have { Have p before.now.state after.now.state }
    requires near { far ≡ false → IsNear p before.now.state after.now.state }
    ensures { OnOk result (Adds (string_bytes text.old)
        (row_items (processor_at p before.now.state.processors).rows
        (processor_at p after.now.state.processors).rows)
        (string_bytes text.new)) }
{
    if far {
        add_rows(text, p, before, after)
    } else {
        Ok(())
    }
}

/// The registers of the processor that changed, in the order of a line. `far` says whether its rows
/// can have changed.
pub(crate) fn add_processor<T: Tlb, D: Console>(
    text: &mut String,
    style: &Style,
    p: u32,
    before: &Core<T, D>,
    after: &Core<T, D>,
    far: bool,
) -> Result<(), AllocError>
    requires have { Have p before.now.state after.now.state }
    requires near { far ≡ false → IsNear p before.now.state after.now.state }
    ensures { OnOk result (AddsIn style.now (string_bytes text.old)
        (processor_items p before.now.state after.now.state)
        (string_bytes text.new)) }
{
    add_state_of(text, p, before, after)?;
    add_registers(text, style, p, before, after)?;
    add_hi_lo(text, p, before, after)?;
    add_controls(text, p, before, after)?;
    add_rows_if(text, p, before, after, far)
}
