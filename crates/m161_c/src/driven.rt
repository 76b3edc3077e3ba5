//! Driven runs of a machine, whose events its log keeps.

ghost use Rattle.std.specs.Prelude.{◌≡◌, ◌<◌, ◌≤◌, ◌^◌, None, Some, IfOk, string_bytes};
ghost use Rattle.m161_drive.specs.declared.cursor.Cursor.{Cursor};
ghost use Rattle.m161_c.specs.Driven.{DrivesAs, DrivesOn, TracesOn, gap_in, number_of_order, number_of_stop, order_in};
ghost use Rattle.m161_c.specs.helpers.Turns.{MakesNext, TracesNext};

use crate::answer::OrderNumbers;
use crate::{BAD, OFF, STUCK};
use m161::{Console, Machine, Tlb};
use m161_dis::Style;
use m161_drive::{Cursor, Driven, Order, OrderError, Policy, Stop};
use m161_trace::Tracer;
use std::alloc::{AllocError, Global};

// The order of these numbers, if their kind is one.
pub(crate) fn order_of(order: &OrderNumbers) -> Option<Order>
    ensures { result ≡ order_in order.now }
{
    match order.kind {
        0 => Some(Order::Turns(order.turns)),
        1 => Some(Order::Random(order.seed)),
        2 => Some(Order::Priorities {
            seed: order.seed,
            changes: order.changes,
            within: order.within,
        }),
        _ => None,
    }
}

pub(crate) fn gap_of(order: &OrderNumbers) -> Option<u32>
    ensures { result ≡ gap_in order.now }
{
    if order.gaps { Some(order.gap) } else { None }
}

pub(crate) fn order_number(error: OrderError) -> u8
    ensures { result ≡ number_of_order error }
{
    match error {
        OrderError::NoTurn => 18,
        OrderError::NoStretch => 19,
        OrderError::TooManyChanges => 20,
    }
}

pub(crate) fn stop_number(stop: Stop) -> u8
    ensures { result ≡ number_of_stop stop }
{
    match stop {
        Stop::End => 0,
        Stop::Off => OFF,
        Stop::Stuck => STUCK,
        Stop::Refused(refusal) => refusal.number(),
    }
}

// Makes the next event that the policy chooses; or says why there is none.
fn make_next(machine: &mut Machine, policy: &Policy, cursor: &mut Cursor) -> Option<Stop>
    ensures { MakesNext policy.now cursor.old machine.old result cursor.new machine.new }
{
    if machine.is_off() {
        return Some(Stop::Off);
    }
    let Some(event) = cursor.choose(policy, machine.core()) else {
        return Some(Stop::Stuck);
    };
    match machine.event(event) {
        Ok(_) => {
            cursor.took(event, machine.core());
            None
        }
        Err(refusal) => Some(Stop::Refused(refusal)),
    }
}

// Makes the events that a policy chooses with a new cursor, at most so many.
fn drive(machine: &mut Machine, policy: &Policy, n: u64) -> Driven
    ensures { DrivesOn policy.now n machine.old result machine.new }
{
    machine.replay();
    let mut cursor = Cursor::new(policy, machine.core());
    for made in 0..n {
        let stop = make_next(machine, policy, &mut cursor);
        if let Some(stop) = stop {
            return Driven { made, stop };
        }
    }
    let stop = if machine.is_off() {
        Stop::Off
    } else {
        Stop::End
    };
    Driven { made: n, stop }
}

/// Makes the events that an order chooses, at most so many. Returns how many, and the number of why no
/// more were.
pub(crate) fn drive_by(
    machine: &mut Machine,
    order: &OrderNumbers,
    keys: &[u8],
    n: u64,
) -> (u64, u8)
    ensures { DrivesAs order.now keys.now n result.0 result.1 machine.old machine.new }
{
    let Some(steps) = order_of(order) else {
        return (0, BAD);
    };
    match Policy::new(steps, order.transfer, gap_of(order), keys) {
        Ok(policy) => {
            let driven = drive(machine, &policy, n);
            (driven.made, stop_number(driven.stop))
        }
        Err(error) => (0, order_number(error)),
    }
}

// A tracer of a machine in its state.
fn tracer_of(alloc: Global, machine: &Machine) -> Result<Tracer<Tlb, Console>, AllocError>
    ensures { IfOk result (λ tracer. tracer ≡ machine.now.state) }
{
    let core = machine.core().copy(alloc)?;
    Ok(Tracer::new(alloc, core))
}

// The same with the event's line, which is appended.
fn trace_next(
    machine: &mut Machine,
    policy: &Policy,
    cursor: &mut Cursor,
    tracer: &mut Tracer<Tlb, Console>,
    style: &Style,
    loads: bool,
    text: &mut String,
) -> Result<Option<Stop>, AllocError>
    requires { tracer.old ≡ machine.old.state }
    ensures step { IfOk result (λ _. tracer.new ≡ machine.new.state) }
    ensures turn { IfOk result (λ stop. TracesNext style.now loads policy.now cursor.old machine.old
        (string_bytes text.old) stop cursor.new machine.new (string_bytes text.new)) }
{
    if machine.is_off() {
        return Ok(Some(Stop::Off));
    }
    let Some(event) = cursor.choose(policy, machine.core()) else {
        return Ok(Some(Stop::Stuck));
    };
    let number = machine.made();
    match machine.event(event) {
        Ok(outcome) => {
            cursor.took(event, machine.core());
            tracer.line_with(machine, event, outcome, number, style, loads, text)?;
            Ok(None)
        }
        Err(refusal) => Ok(Some(Stop::Refused(refusal))),
    }
}

/// Makes the events that a policy chooses with a new cursor, at most so many, and appends their lines,
/// with what their Steps load if that is asked for.
///
/// # Errors
/// Memory was refused; the machine and the text are of no use then.
pub(crate) fn trace(
    alloc: Global,
    machine: &mut Machine,
    policy: &Policy,
    style: &Style,
    loads: bool,
    n: u64,
    text: &mut String,
) -> Result<Driven, AllocError>
    ensures { IfOk result (λ driven. TracesOn style.now loads policy.now n machine.old driven machine.new
        (string_bytes text.old) (string_bytes text.new)) }
{
    machine.replay();
    let mut tracer = tracer_of(alloc, machine)?;
    let mut cursor = Cursor::new(policy, machine.core());
    for made in 0..n {
        let stop = trace_next(
            machine,
            policy,
            &mut cursor,
            &mut tracer,
            style,
            loads,
            text,
        )?;
        if let Some(stop) = stop {
            return Ok(Driven { made, stop });
        }
    }
    let stop = if machine.is_off() {
        Stop::Off
    } else {
        Stop::End
    };
    Ok(Driven { made: n, stop })
}
