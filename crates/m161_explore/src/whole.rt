//! The whole exploration.
ghost use Rattle.std.specs.Prelude.{◌≡◌, ℕ, ◌+◌, ◌<◌, ◌≤◌, ◌^◌, IfOk, OnOk, length};
ghost use Rattle.m161_explore.specs.Answers.{Answers};
ghost use Rattle.m161_explore.specs.Search.{IsBefore};
ghost use Rattle.m161_explore.specs.helpers.Visit.{AreEnds, Finds};

use super::ends::{first_unflagged, spread_all};
use super::graph::{Graph, path_to, trail_of};
use super::search::Outcome;
use super::system::System;
use super::unfinished::{begin, go_on};
use m161_progress::{Listener, Nobody};
use std::alloc::{AllocError, Global};

/// What an exploration found.
#[derive(Drop)]
pub enum Answer<V, R> {
    /// No list has a verdict, and each can be continued to an end.
    Clean {
        /// How many different views the lists have.
        states: u32,
    },
    /// The first list that has a verdict.
    Found {
        /// The list.
        events: Vec<u32>,
        /// Its verdict.
        verdict: V,
        /// How many different views the lists before it have.
        states: u32,
    },
    /// No list has a verdict, and some can't be continued to an end.
    Hung {
        /// The first list that can't.
        events: Vec<u32>,
        /// How many different views the lists have.
        states: u32,
    },
    /// There are more different views than were allowed.
    Open {
        /// Up to this number of events no list has a verdict.
        size: usize,
    },
    /// The system ended the exploration for this reason.
    Ended(R),
}

/// Of each state that was found, whether it is an end.
fn ends_of<S: System>(
    alloc: Global,
    system: &S,
    state: &mut S::State,
    graph: &Graph,
) -> Result<Vec<bool>, AllocError>
    requires ready { S.is_ready system.now state.old }
    requires before { IsBefore (S.rules system.now) (S.is_valid system.now) graph.now.keys graph.now.nodes.items graph.now.links.items (length graph.now.keys) }
    ensures { IfOk result (λ ends.
        AreEnds (S.rules system.now) (S.is_valid system.now) graph.now.keys ends.items) }
{
    let mut ends = Vec::new(alloc);
    let mut words = Vec::new(alloc);
    for at in 0..graph.keys.len() {
        graph.keys.get(at, &mut words)?;
        system.restore(state, &words)?;
        ends.push(system.is_end(state))?;
    }
    Ok(ends)
}

/// What is said of a system whose states were all found.
fn judge<S: System>(
    alloc: Global,
    system: &S,
    state: &mut S::State,
    graph: &Graph,
    limit: u32,
) -> Result<Answer<S::Verdict, S::Reason>, AllocError>
    requires ready { S.is_ready system.now state.old }
    requires before { IsBefore (S.rules system.now) (S.is_valid system.now) graph.now.keys graph.now.nodes.items graph.now.links.items (length graph.now.keys) }
    requires few { length graph.now.keys ≤ limit }
    ensures { IfOk result (Answers (S.rules system.now) limit) }
{
    let mut flags = ends_of(alloc, system, state, graph)?;
    spread_all(system.width(), &graph.links, &mut flags);
    let states = graph.keys.len() as u32;
    match first_unflagged(&flags) {
        None => Ok(Answer::Clean { states }),
        Some(at) => Ok(Answer::Hung {
            events: path_to(alloc, &graph.nodes, at as u32)?,
            states,
        }),
    }
}

/// What a search says of the system.
pub(crate) fn answer_of<S: System>(
    alloc: Global,
    system: &S,
    state: &mut S::State,
    graph: &Graph,
    outcome: Outcome<S::Verdict, S::Reason>,
    limit: u32,
) -> Result<Answer<S::Verdict, S::Reason>, AllocError>
    requires ready { S.is_ready system.now state.old }
    requires finds { Finds (S.rules system.now) (S.is_valid system.now) limit graph.now.keys graph.now.nodes.items graph.now.links.items outcome }
    requires few { length graph.now.keys ≤ limit }
    ensures { IfOk result (Answers (S.rules system.now) limit) }
{
    match outcome {
        Outcome::Whole => judge(alloc, system, state, graph, limit),
        Outcome::WrongFrom(from, event, verdict) => {
            let mut events = path_to(alloc, &graph.nodes, from)?;
            events.push(event)?;
            Ok(Answer::Found {
                events,
                verdict,
                states: graph.keys.len() as u32,
            })
        }
        Outcome::TooMany(from) => Ok(Answer::Open {
            size: trail_of(alloc, &graph.nodes, from)?.len(),
        }),
        Outcome::StoppedFor(reason) => Ok(Answer::Ended(reason)),
    }
}

/// Explores all states of a system, as long as they are no more than the limit.
///
/// # Errors
/// Memory is refused.
pub fn explore<S: System>(
    alloc: Global,
    system: &S,
    limit: u32,
) -> Result<Answer<S::Verdict, S::Reason>, AllocError>
    requires { 0 < limit }
    ensures { IfOk result (Answers (S.rules system.now) limit) }
{
    explore_with(alloc, system, limit, &Nobody)
}

/// The same, while someone listens how far it is.
///
/// # Errors
/// Memory is refused.
pub fn explore_with<S: System, L: Listener>(
    alloc: Global,
    system: &S,
    limit: u32,
    listener: &L,
) -> Result<Answer<S::Verdict, S::Reason>, AllocError>
    requires { 0 < limit }
    ensures { IfOk result (Answers (S.rules system.now) limit) }
{
    let mut unfinished = begin(alloc, system)?;
    loop {
        if let Some(answer) = go_on(alloc, system, &mut unfinished, limit, limit, listener)? {
            return Ok(answer);
        }
    }
}
