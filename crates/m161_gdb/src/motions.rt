//! What processors do by a packet that resumes them.

ghost use Rattle.std.specs.Prelude.{◌≡◌, IfOk};
ghost use Rattle.m161_gdb.specs.Motions.{motion_by_control, tabulate};
ghost use Rattle.m161_gdb.specs.Packets.{first_naming};

use crate::packet::{Actions, Motion, Thread};
use std::alloc::{AllocError, Global};

/// What each processor does by actions, from processor 0 on; nothing where it isn't resumed.
///
/// # Errors
/// Memory was refused.
#[tactic(auto, using(crate::proofs::Tabulating::one_more))]
pub fn motions_by_actions(
    alloc: Global,
    actions: &Actions,
    processors: u32,
) -> Result<Vec<Option<Motion>>, AllocError>
    ensures { IfOk result (λ chosen. chosen.items
        ≡ tabulate (λ p. first_naming p actions.now) processors) }
{
    let mut chosen = Vec::new(alloc);
    for p in 0..processors {
        chosen.push(actions.motion_of(p))?;
    }
    Ok(chosen)
}

// What a processor does by a packet without actions.
fn motion_by_control(
    control: Thread,
    general: u32,
    motion: Motion,
    processor: u32,
) -> Option<Motion>
    ensures { result ≡ motion_by_control control general motion processor }
{
    match (control, motion) {
        (Thread::Any, Motion::Continue) => Some(Motion::Continue),
        (Thread::Any, Motion::Step) => {
            if processor == general {
                Some(Motion::Step)
            } else {
                Some(Motion::Continue)
            }
        }
        (Thread::Processor(p), _) => { if processor == p { Some(motion) } else { None } }
    }
}

/// What each processor does by a packet without actions, from processor 0 on; nothing where it isn't
/// resumed. All are, or the one in control alone; a Step is made by the one in control, or else by the
/// general one.
///
/// # Errors
/// Memory was refused.
#[tactic(auto, using(crate::proofs::Tabulating::one_more))]
pub fn motions_by_control(
    alloc: Global,
    control: Thread,
    general: u32,
    motion: Motion,
    processors: u32,
) -> Result<Vec<Option<Motion>>, AllocError>
    ensures { IfOk result (λ chosen. chosen.items
        ≡ tabulate (motion_by_control control general motion) processors) }
{
    let mut chosen = Vec::new(alloc);
    for p in 0..processors {
        chosen.push(motion_by_control(control, general, motion, p))?;
    }
    Ok(chosen)
}
