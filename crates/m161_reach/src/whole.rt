//! The whole exploration of a machine.

ghost use Rattle.std.specs.Prelude.{◌<◌, IfOk};
ghost use Rattle.m161_explore.specs.Answers.{Answers};
ghost use Rattle.m161_reach.specs.Reach.{CanBeAsked, HasEnded, IsLearnt, question_of, rules_of};

use crate::machines::Machines;
use m161_bus::Console;
use m161_explore::{Answer, explore_with};
use m161_judge::Goal;
use m161_machine::Core;
use m161_progress::{Listener, Nobody};
use m161_states::{EventVerdict, Known, Unknown};
use m161_tlb::Tlb;
use std::alloc::{AllocError, Global};

/// What an exploration of a machine found.
#[derive(Drop)]
pub struct Exploration {
    /// What was known of time: the states are told apart by it.
    pub known: Known,
    /// What holds of all lists of events.
    pub answer: Answer<EventVerdict, Unknown>,
}

/// Explores all states of a machine at boot, as long as they are no more than the limit. At first
/// nothing is known of time; where a Step reads of it, that is known from then on, and the exploration
/// begins anew, so it never ends for what isn't known.
///
/// # Errors
/// Memory is refused.
pub fn explore_machine<'a, T: Tlb + Drop, D: Console + Drop>(
    alloc: Global,
    boot: &'a Core<T, D>,
    goal: &'a Goal<'a>,
    limit: u32,
) -> Result<Exploration, AllocError>
    requires asked { CanBeAsked boot.now.state goal.now }
    requires some { 0 < limit }
    ensures answers { IfOk result (λ found.
        Answers (rules_of (question_of boot.now.state goal.now found.known)) limit found.answer) }
    ensures whole { IfOk result (λ found. HasEnded found.answer → ⊥) }
    ensures learnt { IfOk result (λ found. IsLearnt (question_of boot.now.state goal.now found.known)) }
{
    explore_machine_with(alloc, boot, goal, limit, &Nobody)
}

/// The same, while someone listens how far it is.
///
/// # Errors
/// Memory is refused.
pub fn explore_machine_with<'a, T: Tlb + Drop, D: Console + Drop, L: Listener>(
    alloc: Global,
    boot: &'a Core<T, D>,
    goal: &'a Goal<'a>,
    limit: u32,
    listener: &L,
) -> Result<Exploration, AllocError>
    requires asked { CanBeAsked boot.now.state goal.now }
    requires some { 0 < limit }
    ensures answers { IfOk result (λ found.
        Answers (rules_of (question_of boot.now.state goal.now found.known)) limit found.answer) }
    ensures whole { IfOk result (λ found. HasEnded found.answer → ⊥) }
    ensures learnt { IfOk result (λ found. IsLearnt (question_of boot.now.state goal.now found.known)) }
{
    boot.law();
    let mut known = Known::nothing();
    loop {
        let machines = Machines::new(alloc, boot, goal, known);
        match explore_with(alloc, &machines, limit, listener)? {
            Answer::Ended(unknown) => known.insert(unknown.processor, unknown.reads),
            answer => return Ok(Exploration { known, answer }),
        }
    }
}
