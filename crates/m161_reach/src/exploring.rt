//! The exploration of a machine in parts.

ghost use Rattle.std.specs.Prelude.{◌≡◌, ◌<◌, ℕ, IfOk, length};
ghost use Rattle.m161_explore.specs.Unfinished.{IsAtStart};
ghost use Rattle.m161_reach.specs.Exploring.{GoesOnExploring, IsExploring};
ghost use Rattle.m161_reach.specs.Reach.{CanBeAsked};

use crate::hand::Hand;
use crate::machines::Machines;
use m161_bus::Console;
use m161_explore::{Answer, Unfinished, begin, go_on};
use m161_judge::Goal;
use m161_machine::Core;
use m161_progress::Listener;
use m161_states::{EventVerdict, Known, Unknown};
use m161_tlb::Tlb;
use std::alloc::{AllocError, Global};
use std::marker::Model;

/// An exploration of a machine that has no answer yet. It holds the states that it found, neither the
/// machine at boot nor what is asked of it: these are given to each part of it again.
#[derive(Drop)]
pub struct Exploring<T: Tlb, D: Console> {
    known: Known,
    unfinished: Unfinished<Hand<T, D>>,
}

impl<T: Tlb, D: Console> Model for Exploring<T, D> {
    ghost use Rattle.m161_reach.specs.Exploring.{Exploring};

    ghost Value = { Exploring };

    ghost view = { λ e. record { known = e.known; unfinished = e.unfinished } };
}

impl<T: Tlb, D: Console> Exploring<T, D> {
    /// How many different states were found, by what is known of time.
    pub fn states(&self) -> usize
        ensures { result ≡ length self.now.unfinished.graph.keys }
    {
        self.unfinished.states()
    }
}

/// Begins the exploration of a machine at boot: nothing is known of time, and the first state is found.
///
/// # Errors
/// Memory is refused.
pub fn begin_machine<'a, T: Tlb + Drop, D: Console + Drop>(
    alloc: Global,
    boot: &'a Core<T, D>,
    goal: &'a Goal<'a>,
) -> Result<Exploring<T, D>, AllocError>
    requires { CanBeAsked boot.now.state goal.now }
    ensures exploring { IfOk result (λ exploring.
        (limit : ℕ) → 0 < limit → IsExploring boot.now.state goal.now limit exploring) }
    ensures start { IfOk result (λ exploring. IsAtStart exploring.unfinished) }
{
    let known = Known::nothing();
    let unfinished = begin(alloc, &Machines::new(alloc, boot, goal, known))?;
    Ok(Exploring { known, unfinished })
}

/// Goes on with it: tries all events of so many states more, and gives the answer once it is known, which
/// is that of `explore_machine` with this limit. Where a Step reads of time what isn't known, that is known
/// from then on, and the states are looked for anew. Behind the answer, or where memory was refused, it
/// can't go on.
///
/// # Errors
/// Memory is refused.
pub fn go_on_machine<'a, T: Tlb + Drop, D: Console + Drop, L: Listener>(
    alloc: Global,
    boot: &'a Core<T, D>,
    goal: &'a Goal<'a>,
    exploring: &mut Exploring<T, D>,
    limit: u32,
    number: u32,
    listener: &L,
) -> Result<Option<Answer<EventVerdict, Unknown>>, AllocError>
    requires asked { CanBeAsked boot.now.state goal.now }
    requires some { 0 < limit }
    requires exploring { IsExploring boot.now.state goal.now limit exploring.old }
    ensures { IfOk result (GoesOnExploring boot.now.state goal.now limit number exploring.old exploring.new) }
{
    boot.law();
    let machines = Machines::new(alloc, boot, goal, exploring.known);
    match go_on(
        alloc,
        &machines,
        &mut exploring.unfinished,
        limit,
        number,
        listener,
    )? {
        Some(Answer::Ended(unknown)) => {
            exploring.known.insert(unknown.processor, unknown.reads);
            let machines = Machines::new(alloc, boot, goal, exploring.known);
            exploring.unfinished = begin(alloc, &machines)?;
            Ok(None)
        }
        answer => Ok(answer),
    }
}
