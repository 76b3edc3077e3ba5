//! Changes of what stops moves, and the texts of stops.

ghost use Rattle.std.specs.Prelude.{◌≡◌, ◌++◌, IfOk, MatchResult, OnOk, Some, None, ℕ, string_bytes};
ghost use Rattle.m161_gdb.specs.Stops.{IsRefused};
ghost use Rattle.m161_server.specs.helpers.Turns.{IsChanged};
ghost use Rattle.m161_server.specs.Sessions.{break_text, changed_stops, kind_text, reason_text, signal_text, stop_head, stop_text, touch_text, Changes, standing};

use crate::reply::{Reply, tell};
use crate::session::{LastStop, Session};
use crate::target::Target;
use crate::texts::{push_thread, text, within};
use m161_gdb::{Change, Kind, StopError, Stops};
use m161_moves::Reason;
use m161_text::push_hex;
use std::alloc::{AllocError, Global};

// How a reply to a move begins.
fn signal_text(reason: Reason) -> &'static str
    ensures { result.now ≡ signal_text reason }
{
    match reason {
        Reason::Interrupt => "T02",
        Reason::Mark => "T02",
        Reason::Step(_) => "T05",
        Reason::End => "T05",
        Reason::Begin => "T05",
        Reason::Break { .. } => "T05",
        Reason::Touch { .. } => "T05",
    }
}

// The word for a kind of breakpoint or watch.
fn kind_text(kind: Kind) -> &'static str
    ensures { result.now ≡ kind_text kind }
{
    match kind {
        Kind::Software => "swbreak:",
        Kind::Hardware => "hwbreak:",
        Kind::Write => "watch:",
        Kind::Read => "rwatch:",
        Kind::Access => "awatch:",
    }
}

// The text of a watch that was touched.
fn touch_text(alloc: Global, kind: Kind, address: u32) -> Result<String, AllocError>
    ensures { IfOk result (λ text. string_bytes text ≡ touch_text kind address) }
{
    let mut text = text(alloc, kind_text(kind))?;
    push_hex(&mut text, 8, address)?;
    text.push_str(";")?;
    Ok(text)
}

// The text of a breakpoint.
fn break_text(alloc: Global, kind: Kind) -> Result<String, AllocError>
    ensures { IfOk result (λ text. string_bytes text ≡ break_text kind) }
{
    let mut text = text(alloc, kind_text(kind))?;
    text.push_str(";")?;
    Ok(text)
}

// The text of a reason.
fn reason_text(alloc: Global, reason: Reason) -> Result<String, AllocError>
    ensures { IfOk result (λ text. string_bytes text ≡ reason_text reason) }
{
    match reason {
        Reason::Interrupt => text(alloc, ""),
        Reason::Mark => text(alloc, ""),
        Reason::Step(_) => text(alloc, ""),
        Reason::End => text(alloc, "replaylog:end;"),
        Reason::Begin => text(alloc, "replaylog:begin;"),
        Reason::Break { kind, .. } => break_text(alloc, kind),
        Reason::Touch { watch, .. } => touch_text(alloc, watch.kind, watch.address),
    }
}

// How a stop begins.
fn stop_head(alloc: Global, reason: Option<Reason>) -> Result<String, AllocError>
    ensures { IfOk result (λ text. string_bytes text ≡ stop_head reason) }
{
    let Some(reason) = reason else {
        return text(alloc, "T05");
    };
    let behind = reason_text(alloc, reason)?;
    let mut text = text(alloc, signal_text(reason))?;
    text.push_str(&behind)?;
    Ok(text)
}

/// The reply to a move, or `?`.
///
/// # Errors
/// Memory was refused.
pub(crate) fn stop_text<T: Target>(
    alloc: Global,
    target: &T,
    last: LastStop,
) -> Result<String, AllocError>
    ensures { IfOk result (λ text. string_bytes text ≡ stop_text (T.course target.now).scene last) }
{
    let mut text = stop_head(alloc, last.reason)?;
    text.push_str("thread:")?;
    push_thread(&mut text, within(target, last.processor))?;
    text.push_str(";")?;
    Ok(text)
}

// Changes the stops; says whether that was done.
fn change_stops(
    stops: &mut Stops,
    change: Change,
    kind: Kind,
    address: u32,
    size: u32,
) -> Result<bool, AllocError>
    ensures { IfOk result (λ done. IsChanged (changed_stops change kind address size stops.old) done stops.old stops.new) }
{
    match change {
        Change::Set => match stops.set(kind, address, size) {
            Ok(()) => Ok(true),
            Err(StopError::TooMany) => Ok(false),
            Err(StopError::NoMemory) => Err(AllocError),
        },
        Change::Delete => {
            stops.delete(kind, address, size);
            Ok(true)
        }
    }
}

/// Sets a breakpoint or a watch, or takes it away.
///
/// # Errors
/// Memory was refused.
pub(crate) fn change(
    alloc: Global,
    session: &mut Session,
    change: Change,
    kind: Kind,
    address: u32,
    size: u32,
) -> Result<Reply, AllocError>
    ensures { IfOk result (λ reply. (place : ℕ) → Changes
        (changed_stops change kind address size session.old.stops) (standing place session.old) reply
        (standing place session.new)) }
{
    if change_stops(&mut session.stops, change, kind, address, size)? {
        tell(alloc, "OK")
    } else {
        tell(alloc, "E03")
    }
}
