//! Reading the actions of a packet that resumes processors.

ghost use Rattle.std.specs.Prelude.{◌≡◌, IfOk};
ghost use Rattle.m161_gdb.specs.Packets.{action_of, actions_of, motion_alone, motion_by_signal, motion_of};

use crate::hex::byte_value;
use crate::number::{cut, thread_of};
use crate::packet::{Action, Actions, Motion, Thread};
use std::alloc::{AllocError, Global};

// The motion of a letter alone.
fn motion_alone(letter: u8) -> Option<Motion>
    ensures { result ≡ motion_alone letter }
{
    match letter {
        b'c' => Some(Motion::Continue),
        b's' => Some(Motion::Step),
        _ => None,
    }
}

// The motion of a letter that has a signal.
fn motion_by_signal(letter: u8) -> Option<Motion>
    ensures { result ≡ motion_by_signal letter }
{
    match letter {
        b'C' => Some(Motion::Continue),
        b'S' => Some(Motion::Step),
        _ => None,
    }
}

// A motion.
fn motion_of(text: &[u8]) -> Option<Motion>
    ensures { result ≡ motion_of text.now }
{
    if text.len() == 1 {
        return motion_alone(text[0]);
    }
    if text.len() == 3 && byte_value(text[1], text[2]).is_some() {
        return motion_by_signal(text[0]);
    }
    None
}

// An action.
fn action_of(text: &[u8]) -> Option<Action>
    ensures { result ≡ action_of text.now }
{
    match cut(text, b':') {
        Some((front, behind)) => {
            let motion = motion_of(front)?;
            let thread = thread_of(behind)?;
            Some(Action { motion, thread })
        }
        None => {
            let motion = motion_of(text)?;
            Some(Action {
                motion,
                thread: Thread::Any,
            })
        }
    }
}

/// Actions with semicolons between; `None` if one of them can't be read.
///
/// # Errors
/// Memory was refused.
#[tactic(auto, using(crate::proofs::Cutting::nothing_before, crate::proofs::Cutting::read_more, crate::proofs::Cutting::read_none, crate::proofs::Cutting::read_last, crate::proofs::Cutting::read_no_last))]
pub(crate) fn actions_of(alloc: Global, text: &[u8]) -> Result<Option<Actions>, AllocError>
    ensures { IfOk result (λ actions. actions ≡ actions_of text.now) }
{
    let mut actions = Actions::empty(alloc);
    let mut rest = text;
    while let Some((part, behind)) = cut(rest, b';') {
        let Some(action) = action_of(part) else {
            return Ok(None);
        };
        actions.push(action)?;
        rest = behind;
    }
    let Some(action) = action_of(rest) else {
        return Ok(None);
    };
    actions.push(action)?;
    Ok(Some(actions))
}
