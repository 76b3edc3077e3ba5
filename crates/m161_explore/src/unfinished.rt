//! An exploration in parts.
ghost use Rattle.std.specs.Prelude.{◌≡◌, ℕ, ◌<◌, IfOk, length};
ghost use Rattle.m161_explore.specs.Unfinished.{GoesOn, IsAtStart, IsUnfinished};

use super::graph::{Graph, start_alone};
use super::search::search;
use super::system::System;
use super::whole::{Answer, answer_of};
use m161_progress::Listener;
use std::alloc::{AllocError, Global};

/// An exploration that has no answer yet: the states that it found.
#[derive(Drop)]
pub struct Unfinished<St> {
    state: St,
    words: Vec<u32>,
    here: Vec<u32>,
    graph: Graph,
    // Of so many states, the first ones, all events were tried.
    tried: u32,
}

impl<St> Unfinished<St> {
    /// How many different states were found.
    pub fn states(&self) -> usize
        ensures { result ≡ length self.now.graph.keys }
    {
        self.graph.keys.len()
    }
}

/// Begins an exploration: the first state is found.
///
/// # Errors
/// Memory is refused.
pub fn begin<S: System>(alloc: Global, system: &S) -> Result<Unfinished<S::State>, AllocError>
    ensures unfinished { IfOk result (λ unfinished.
        (limit : ℕ) → 0 < limit → IsUnfinished (S.rules system.now) (S.is_valid system.now) (S.is_ready system.now) limit unfinished) }
    ensures start { IfOk result IsAtStart }
{
    let mut state = system.start(alloc)?;
    let mut words = Vec::new(alloc);
    system.encode(&mut state, &mut words)?;
    let graph = start_alone(alloc, &words)?;
    Ok(Unfinished {
        state,
        words,
        here: Vec::new(alloc),
        graph,
        tried: 0,
    })
}

/// Goes on with an exploration: tries all events of so many states more, and gives the answer once it is
/// known. There may be as many states as the limit, which is that of each call. What an exploration is
/// behind its answer, or where memory was refused, is not said: another one is begun then.
///
/// # Errors
/// Memory is refused.
pub fn go_on<S: System, L: Listener>(
    alloc: Global,
    system: &S,
    unfinished: &mut Unfinished<S::State>,
    limit: u32,
    number: u32,
    listener: &L,
) -> Result<Option<Answer<S::Verdict, S::Reason>>, AllocError>
    requires { IsUnfinished (S.rules system.now) (S.is_valid system.now) (S.is_ready system.now) limit unfinished.old }
    ensures { IfOk result (GoesOn (S.rules system.now) (S.is_valid system.now) (S.is_ready system.now) limit number unfinished.old unfinished.new) }
{
    let first = unfinished.tried;
    let end = first.saturating_add(number);
    match search(
        alloc,
        system,
        &mut unfinished.state,
        &mut unfinished.words,
        &mut unfinished.here,
        &mut unfinished.graph,
        first,
        end,
        limit,
        listener,
    )? {
        Some(outcome) => Ok(Some(answer_of(
            alloc,
            system,
            &mut unfinished.state,
            &unfinished.graph,
            outcome,
            limit,
        )?)),
        None => {
            unfinished.tried = end;
            Ok(None)
        }
    }
}
