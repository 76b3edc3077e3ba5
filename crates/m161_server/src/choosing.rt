//! The processors that packets choose.

ghost use Rattle.std.specs.Prelude.{◌≡◌, ◌<◌, ◌^◌, IfOk, length};
ghost use Rattle.m161_server.specs.Sessions.{chosen_by, chosen_of, has_thread, has_threads, ok_or, with_control, with_general, told};

use crate::session::Session;
use crate::target::Target;
use crate::texts::within;
use m161_gdb::{Action, Actions, Motion, Thread, motions_by_actions, motions_by_control};
use std::alloc::{AllocError, Global};

/// Whether there is a processor; any is fine.
pub(crate) fn has_thread<T: Target>(target: &T, thread: Thread) -> bool
    ensures { result ≡ has_thread (T.course target.now).scene thread }
{
    match thread {
        Thread::Any => true,
        Thread::Processor(p) => p < target.processors(),
    }
}

// Whether there is each that actions name.
fn are_threads<T: Target>(target: &T, actions: &[Action]) -> bool
    ensures { result ≡ has_threads (T.course target.now).scene actions.now }
{
    let mut rest = actions;
    while let [action, behind @ ..] = rest {
        if !has_thread(target, action.thread) {
            return false;
        }
        rest = behind;
    }
    true
}

/// The same of the actions of a packet.
pub(crate) fn has_threads<T: Target>(target: &T, actions: &Actions) -> bool
    ensures { result ≡ has_threads (T.course target.now).scene actions.now }
{
    are_threads(target, actions.as_slice())
}

/// `OK`, or an error.
pub(crate) fn ok_or(error: &'static str, done: bool) -> &'static str
    ensures { result.now ≡ ok_or error.now done }
{
    if done { "OK" } else { error }
}

/// Chooses the general processor, if there is this one.
pub(crate) fn choose_general<T: Target>(target: &T, session: &mut Session, thread: Thread)
    ensures { session.new ≡ with_general (T.course target.now).scene thread session.old }
{
    match thread {
        Thread::Any => {}
        Thread::Processor(p) => {
            if p < target.processors() {
                session.general = p;
            }
        }
    }
}

/// Chooses the processors in control, if there are these.
pub(crate) fn choose_control<T: Target>(target: &T, session: &mut Session, thread: Thread)
    ensures { session.new ≡ with_control (T.course target.now).scene thread session.old }
{
    if has_thread(target, thread) {
        session.control = thread;
    }
}

/// What the processors do by actions.
///
/// # Errors
/// Memory was refused.
#[tactic(auto, using(crate::proofs::Loops::tabulated))]
pub(crate) fn chosen_of<T: Target>(
    alloc: Global,
    target: &T,
    actions: &Actions,
) -> Result<Vec<Option<Motion>>, AllocError>
    ensures chosen { IfOk result (λ chosen. chosen.items
        ≡ chosen_of (T.course target.now).scene actions.now) }
    ensures few { IfOk result (λ chosen. length chosen.items < 2 ^ 32) }
{
    motions_by_actions(alloc, actions, target.processors())
}

/// And without actions.
///
/// # Errors
/// Memory was refused.
#[tactic(auto, using(crate::proofs::Loops::tabulated))]
pub(crate) fn chosen_by<T: Target>(
    alloc: Global,
    target: &T,
    session: &Session,
    motion: Motion,
) -> Result<Vec<Option<Motion>>, AllocError>
    ensures chosen { IfOk result (λ chosen. chosen.items
        ≡ chosen_by (T.course target.now).scene session.now motion) }
    ensures few { IfOk result (λ chosen. length chosen.items < 2 ^ 32) }
{
    let general = within(target, session.general);
    motions_by_control(alloc, session.control, general, motion, target.processors())
}
