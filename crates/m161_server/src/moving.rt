//! Moves along a run.

ghost use Rattle.std.specs.Prelude.{◌≡◌, ◌<◌, ◌^◌, IfErr, IfOk, drop, length, max};
ghost use Rattle.m161_server.specs.Sessions.{has_threads, moved, standing, stops_behind, MovesBack, MovesOn, Resumes, Settles, chosen_by, chosen_of, IsUnanswered};

use crate::choosing::{chosen_by, chosen_of, has_threads};
use crate::fault::ServerFault;
use crate::outgoing::shown_packets;
use crate::reply::{Reply, tell};
use crate::session::{LastStop, Session};
use crate::stops::stop_text;
use crate::target::Target;
use m161_gdb::{Actions, Motion, Stops};
use m161_moves::{Reason, backwards, forwards, thread_of};
use std::alloc::{AllocError, Global};

// What is left of the stops behind one.
fn stops_behind(stops: &mut Stops, reason: Reason)
    ensures { stops.new ≡ stops_behind reason stops.old }
{
    match reason {
        Reason::Interrupt => stops.set_interrupted(false),
        Reason::Mark => stops.set_mark(None),
        Reason::Step(_) => {}
        Reason::End => {}
        Reason::Begin => {}
        Reason::Break { .. } => {}
        Reason::Touch { .. } => {}
    }
}

// What a session knows behind a move.
fn moved<T: Target>(target: &T, session: &mut Session, chosen: &[Option<Motion>], reason: Reason)
    requires { length chosen.now < 2 ^ 32 }
    ensures { session.new ≡ moved (T.course target.now) chosen.now (T.place target.now) reason session.old }
{
    let processor = thread_of(target, chosen, reason);
    stops_behind(&mut session.stops, reason);
    session.general = processor;
    session.shown = session.shown.max(target.console().len());
    session.last = LastStop {
        reason: Some(reason),
        processor,
    };
}

// What the console has shown since it was told last.
fn unshown(console: &[u8], shown: usize) -> &[u8]
    ensures { result.now ≡ drop shown console.now }
{
    let (_, rest) = console.split_at(shown.min(console.len()));
    rest
}

// The answer to a move that stopped.
fn settle<T: Target>(
    alloc: Global,
    target: &T,
    session: &mut Session,
    chosen: &[Option<Motion>],
    reason: Reason,
) -> Result<Reply, AllocError>
    requires { length chosen.now < 2 ^ 32 }
    ensures { IfOk result (λ reply. Settles (T.course target.now) chosen.now (T.place target.now) reason
        session.old reply session.new) }
{
    let before = shown_packets(alloc, unshown(target.console(), session.shown))?;
    moved(target, session, chosen, reason);
    let body = stop_text(alloc, target, session.last)?;
    Ok(Reply::behind(before, body.into_bytes()))
}

// Moves forwards.
fn go_on<T: Target>(
    alloc: Global,
    target: &mut T,
    session: &mut Session,
    chosen: &[Option<Motion>],
) -> Result<Reply, ServerFault<T::Error>>
    requires { length chosen.now < 2 ^ 32 }
    ensures course { T.course target.new ≡ T.course target.old }
    ensures ok { IfOk result (λ reply. MovesOn (T.course target.old) chosen.now
        (standing (T.place target.old) session.old) reply (standing (T.place target.new) session.new)) }
    ensures err { IfErr result (IsUnanswered (T.fails (T.course target.old))) }
{
    let reason = match forwards(target, &session.stops, chosen) {
        Ok(reason) => reason,
        Err(error) => return Err(ServerFault::Run(error)),
    };
    Ok(settle(alloc, target, session, chosen, reason)?)
}

// Moves backwards.
fn go_back<T: Target>(
    alloc: Global,
    target: &mut T,
    session: &mut Session,
    chosen: &[Option<Motion>],
) -> Result<Reply, ServerFault<T::Error>>
    requires { length chosen.now < 2 ^ 32 }
    ensures course { T.course target.new ≡ T.course target.old }
    ensures ok { IfOk result (λ reply. MovesBack (T.course target.old) chosen.now
        (standing (T.place target.old) session.old) reply (standing (T.place target.new) session.new)) }
    ensures err { IfErr result (IsUnanswered (T.fails (T.course target.old))) }
{
    let reason = match backwards(target, &session.stops, chosen) {
        Ok(reason) => reason,
        Err(error) => return Err(ServerFault::Run(error)),
    };
    Ok(settle(alloc, target, session, chosen, reason)?)
}

/// Moves forwards by a packet without actions.
///
/// # Errors
/// Memory was refused, or the run can't be gone along.
pub(crate) fn move_on<T: Target>(
    alloc: Global,
    target: &mut T,
    session: &mut Session,
    motion: Motion,
) -> Result<Reply, ServerFault<T::Error>>
    ensures course { T.course target.new ≡ T.course target.old }
    ensures ok { IfOk result (λ reply. MovesOn (T.course target.old)
        (chosen_by (T.course target.old).scene session.old motion)
        (standing (T.place target.old) session.old) reply (standing (T.place target.new) session.new)) }
    ensures err { IfErr result (IsUnanswered (T.fails (T.course target.old))) }
{
    let chosen = chosen_by(alloc, target, session, motion)?;
    go_on(alloc, target, session, &chosen)
}

/// And backwards.
///
/// # Errors
/// Memory was refused, or the run can't be gone along.
pub(crate) fn move_back<T: Target>(
    alloc: Global,
    target: &mut T,
    session: &mut Session,
    motion: Motion,
) -> Result<Reply, ServerFault<T::Error>>
    ensures course { T.course target.new ≡ T.course target.old }
    ensures ok { IfOk result (λ reply. MovesBack (T.course target.old)
        (chosen_by (T.course target.old).scene session.old motion)
        (standing (T.place target.old) session.old) reply (standing (T.place target.new) session.new)) }
    ensures err { IfErr result (IsUnanswered (T.fails (T.course target.old))) }
{
    let chosen = chosen_by(alloc, target, session, motion)?;
    go_back(alloc, target, session, &chosen)
}

// Moves forwards by actions.
fn move_by<T: Target>(
    alloc: Global,
    target: &mut T,
    session: &mut Session,
    actions: &Actions,
) -> Result<Reply, ServerFault<T::Error>>
    ensures course { T.course target.new ≡ T.course target.old }
    ensures ok { IfOk result (λ reply. MovesOn (T.course target.old)
        (chosen_of (T.course target.old).scene actions.now)
        (standing (T.place target.old) session.old) reply (standing (T.place target.new) session.new)) }
    ensures err { IfErr result (IsUnanswered (T.fails (T.course target.old))) }
{
    let chosen = chosen_of(alloc, target, actions)?;
    go_on(alloc, target, session, &chosen)
}

/// Moves forwards by actions, if there is each processor that they name.
///
/// # Errors
/// Memory was refused, or the run can't be gone along.
pub(crate) fn resume<T: Target>(
    alloc: Global,
    target: &mut T,
    session: &mut Session,
    actions: &Actions,
) -> Result<Reply, ServerFault<T::Error>>
    ensures course { T.course target.new ≡ T.course target.old }
    ensures ok { IfOk result (λ reply. Resumes (has_threads (T.course target.old).scene actions.now)
        (T.course target.old) actions.now (standing (T.place target.old) session.old) reply
        (standing (T.place target.new) session.new)) }
    ensures err { IfErr result (IsUnanswered (T.fails (T.course target.old))) }
{
    if has_threads(target, actions) {
        move_by(alloc, target, session, actions)
    } else {
        Ok(tell(alloc, "E02")?)
    }
}
