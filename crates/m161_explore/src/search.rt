//! The search, a state after the other.
ghost use Rattle.std.specs.Prelude.{◌≡◌, ℕ, ◌+◌, ◌<◌, ◌≤◌, IfOk, OnOk, length};
ghost use Rattle.m161_explore.specs.Views.{view_at};
ghost use Rattle.m161_explore.specs.Search.{IsBefore};
ghost use Rattle.m161_explore.specs.helpers.Visit.{AreRefused, FindsBefore, HasPassed, HasRefused, IsAt, Visits};

use super::graph::{Graph, Node};
use super::system::{Advanced, System};
use super::views::{Entry, Views};
use m161_progress::Listener;
use std::alloc::{AllocError, Global};

/// How it goes on after an event.
#[derive(Drop)]
pub enum Visit<V, R> {
    Went,
    /// This event has this verdict.
    FoundWrong(u32, V),
    /// This event leads to a state too many.
    Full,
    /// The system stopped for this reason.
    StoppedBy(R),
}

/// How a search ends.
#[derive(Drop)]
pub enum Outcome<V, R> {
    /// All states were found, and no event has a verdict.
    Whole,
    /// Of this state this event has this verdict.
    WrongFrom(u32, u32, V),
    /// From this state an event leads to a state too many.
    TooMany(u32),
    /// The system stopped for this reason.
    StoppedFor(R),
}

/// Goes on behind an event that was accepted: the state behind it is known, or new.
fn arrive<S: System>(
    alloc: Global,
    system: &S,
    state: &mut S::State,
    words: &mut Vec<u32>,
    graph: &mut Graph,
    from: u32,
    event: u32,
    limit: u32,
) -> Result<Visit<S::Verdict, S::Reason>, AllocError>
    requires ready { S.is_ready system.now state.old }
    requires at { IsAt (S.rules system.now) (S.is_valid system.now) graph.old.keys graph.old.nodes.items graph.old.links.items from event }
    requires few { length graph.old.keys ≤ limit }
    requires passed { HasPassed (S.rules system.now) (S.is_valid system.now) graph.old.keys from event (S.seen state.old) }
    ensures ready { OnOk result (S.is_ready system.now state.new) }
    ensures few { OnOk result (length graph.new.keys ≤ limit) }
    ensures same { OnOk result (view_at graph.new.keys from ≡ view_at graph.old.keys from) }
    ensures visits { IfOk result (Visits (S.rules system.now) (S.is_valid system.now) limit graph.new.keys graph.new.nodes.items graph.new.links.items from (event + 1)) }
{
    words.clear();
    system.encode(state, words)?;
    let count = graph.keys.len();
    let entry = graph.keys.enter(alloc, words, limit)?;
    match entry {
        Entry::Known(known) => {
            graph.links.push(known as u32 + 1)?;
            Ok(Visit::Went)
        }
        Entry::New => {
            graph.links.push(count as u32 + 1)?;
            graph.nodes.push(Node {
                parent: from,
                event,
            })?;
            Ok(Visit::Went)
        }
        Entry::Full => Ok(Visit::Full),
    }
}

/// Tries an event of the state with this number, whose view is here.
fn try_event<S: System>(
    alloc: Global,
    system: &S,
    state: &mut S::State,
    words: &mut Vec<u32>,
    graph: &mut Graph,
    here: &[u32],
    from: u32,
    event: u32,
    limit: u32,
) -> Result<Visit<S::Verdict, S::Reason>, AllocError>
    requires ready { S.is_ready system.now state.old }
    requires at { IsAt (S.rules system.now) (S.is_valid system.now) graph.old.keys graph.old.nodes.items graph.old.links.items from event }
    requires event { event < (S.rules system.now).width }
    requires few { length graph.old.keys ≤ limit }
    requires here { here.now ≡ view_at graph.old.keys from }
    ensures ready { OnOk result (S.is_ready system.now state.new) }
    ensures few { OnOk result (length graph.new.keys ≤ limit) }
    ensures here { OnOk result (here.now ≡ view_at graph.new.keys from) }
    ensures visits { IfOk result (Visits (S.rules system.now) (S.is_valid system.now) limit graph.new.keys graph.new.nodes.items graph.new.links.items from (event + 1)) }
{
    system.restore(state, here)?;
    let advanced = system.advance(state, event)?;
    match advanced {
        Advanced::Stopped(reason) => Ok(Visit::StoppedBy(reason)),
        Advanced::Judged(verdict) => Ok(Visit::FoundWrong(event, verdict)),
        Advanced::Refused => {
            graph.links.push(0)?;
            Ok(Visit::Went)
        }
        Advanced::Passed => arrive(alloc, system, state, words, graph, from, event, limit),
    }
}

/// Tries so many events of the state with this number, whose view is here.
fn try_events<S: System>(
    alloc: Global,
    system: &S,
    state: &mut S::State,
    words: &mut Vec<u32>,
    graph: &mut Graph,
    here: &[u32],
    from: u32,
    number: u32,
    limit: u32,
) -> Result<Visit<S::Verdict, S::Reason>, AllocError>
    requires ready { S.is_ready system.now state.old }
    requires at { IsAt (S.rules system.now) (S.is_valid system.now) graph.old.keys graph.old.nodes.items graph.old.links.items from 0 }
    requires number { number ≤ (S.rules system.now).width }
    requires few { length graph.old.keys ≤ limit }
    requires here { here.now ≡ view_at graph.old.keys from }
    ensures ready { OnOk result (S.is_ready system.now state.new) }
    ensures few { OnOk result (length graph.new.keys ≤ limit) }
    ensures here { OnOk result (here.now ≡ view_at graph.new.keys from) }
    ensures visits { IfOk result (Visits (S.rules system.now) (S.is_valid system.now) limit graph.new.keys graph.new.nodes.items graph.new.links.items from number) }
{
    for event in 0..number {
        match try_event(alloc, system, state, words, graph, here, from, event, limit)? {
            Visit::Went => {}
            Visit::FoundWrong(wrong, verdict) => return Ok(Visit::FoundWrong(wrong, verdict)),
            Visit::Full => return Ok(Visit::Full),
            Visit::StoppedBy(reason) => return Ok(Visit::StoppedBy(reason)),
        }
    }
    Ok(Visit::Went)
}

/// How many events of a state come before the last ones that it is known to refuse.
fn events_to_try<S: System>(system: &S, state: &S::State) -> u32
    requires ready { S.is_ready system.now state.now }
    requires valid { S.is_valid system.now (S.seen state.now) }
    ensures within { result ≤ (S.rules system.now).width }
    ensures refused { AreRefused (S.rules system.now) (S.seen state.now) result }
{
    for event in (0..system.width()).rev() {
        if !system.refuses(state, event) {
            return event + 1;
        }
    }
    0
}

/// Notes that the other events of the state with this number, from one on, are refused.
fn note_refused<S: System>(
    system: &S,
    keys: &Views,
    nodes: &[Node],
    links: &mut Vec<u32>,
    from: u32,
    number: u32,
) -> Result<(), AllocError>
    requires at { IsAt (S.rules system.now) (S.is_valid system.now) keys.now nodes.now links.old.items from number }
    requires number { number ≤ (S.rules system.now).width }
    requires refused { HasRefused (S.rules system.now) (S.is_valid system.now) (view_at keys.now from) number }
    ensures { OnOk result (IsAt (S.rules system.now) (S.is_valid system.now) keys.now nodes.now links.new.items from (S.rules system.now).width) }
{
    for _event in number..system.width() {
        links.push(0)?;
    }
    Ok(())
}

/// Tries all events of the state with this number.
fn expand<S: System>(
    alloc: Global,
    system: &S,
    state: &mut S::State,
    words: &mut Vec<u32>,
    here: &mut Vec<u32>,
    graph: &mut Graph,
    from: u32,
    limit: u32,
) -> Result<Visit<S::Verdict, S::Reason>, AllocError>
    requires ready { S.is_ready system.now state.old }
    requires at { IsAt (S.rules system.now) (S.is_valid system.now) graph.old.keys graph.old.nodes.items graph.old.links.items from 0 }
    requires few { length graph.old.keys ≤ limit }
    ensures ready { OnOk result (S.is_ready system.now state.new) }
    ensures few { OnOk result (length graph.new.keys ≤ limit) }
    ensures visits { IfOk result (Visits (S.rules system.now) (S.is_valid system.now) limit graph.new.keys graph.new.nodes.items graph.new.links.items from (S.rules system.now).width) }
{
    graph.keys.get(from as usize, here)?;
    system.restore(state, here)?;
    let number = events_to_try(system, state);
    match try_events(
        alloc, system, state, words, graph, here, from, number, limit,
    )? {
        Visit::Went => {
            note_refused(
                system,
                &graph.keys,
                &graph.nodes,
                &mut graph.links,
                from,
                number,
            )?;
            Ok(Visit::Went)
        }
        Visit::FoundWrong(wrong, verdict) => Ok(Visit::FoundWrong(wrong, verdict)),
        Visit::Full => Ok(Visit::Full),
        Visit::StoppedBy(reason) => Ok(Visit::StoppedBy(reason)),
    }
}

/// Tries all events of the states from one on, before another one.
/// `None` where there are states behind these.
pub fn search<S: System, L: Listener>(
    alloc: Global,
    system: &S,
    state: &mut S::State,
    words: &mut Vec<u32>,
    here: &mut Vec<u32>,
    graph: &mut Graph,
    first: u32,
    end: u32,
    limit: u32,
    listener: &L,
) -> Result<Option<Outcome<S::Verdict, S::Reason>>, AllocError>
    requires ready { S.is_ready system.now state.old }
    requires before { IsBefore (S.rules system.now) (S.is_valid system.now) graph.old.keys graph.old.nodes.items graph.old.links.items first }
    requires few { length graph.old.keys ≤ limit }
    requires order { first ≤ end }
    ensures ready { OnOk result (S.is_ready system.now state.new) }
    ensures few { OnOk result (length graph.new.keys ≤ limit) }
    ensures finds { IfOk result (FindsBefore (S.rules system.now) (S.is_valid system.now) limit graph.new.keys graph.new.nodes.items graph.new.links.items end) }
{
    for from in first..end {
        if from as usize == graph.keys.len() {
            return Ok(Some(Outcome::Whole));
        }
        listener.reached(graph.keys.len() as u64);
        match expand(alloc, system, state, words, here, graph, from, limit)? {
            Visit::Went => {}
            Visit::FoundWrong(event, verdict) => return Ok(Some(Outcome::WrongFrom(
                from, event, verdict,
            ))),
            Visit::Full => return Ok(Some(Outcome::TooMany(from))),
            Visit::StoppedBy(reason) => return Ok(Some(Outcome::StoppedFor(reason))),
        }
    }
    if end as usize == graph.keys.len() {
        Ok(Some(Outcome::Whole))
    } else {
        Ok(None)
    }
}
