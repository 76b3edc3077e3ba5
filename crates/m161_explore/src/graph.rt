//! The states that were found, and how.
ghost use Rattle.std.specs.Prelude.{◌≡◌, ℕ, ◌<◌, List, [], ◌∷◌, length, reverse, IfOk};
ghost use Rattle.m161_explore.specs.helpers.Trails.{AreEarlier, IsTrail};

use super::views::Views;
use std::alloc::{AllocError, Global};

/// How a state was found: by an event from an earlier one.
#[derive(Clone, Copy)]
pub struct Node {
    pub parent: u32,
    pub event: u32,
}

/// The states by number: their views, and how they were found.
#[derive(Drop)]
pub struct Graph {
    pub keys: Views,
    pub nodes: Vec<Node>,
    /// For each state and event, one more than the number of the next state, or 0.
    pub links: Vec<u32>,
}

/// The start alone.
pub fn start_alone(alloc: Global, words: &[u32]) -> Result<Graph, AllocError>
    ensures keys { IfOk result (λ graph. graph.keys ≡ words.now ∷ []) }
    ensures nodes { IfOk result (λ graph. graph.nodes.items ≡ record { parent = 0; event = 0 } ∷ []) }
    ensures links { IfOk result (λ graph. graph.links.items ≡ []) }
{
    let mut keys = Views::new(alloc)?;
    keys.push(alloc, words)?;
    let mut nodes = Vec::new(alloc);
    nodes.push(Node {
        parent: 0,
        event: 0,
    })?;
    Ok(Graph {
        keys,
        nodes,
        links: Vec::new(alloc),
    })
}

/// The events from the start to a state, the last one first.
pub fn trail_of(alloc: Global, nodes: &[Node], from: u32) -> Result<Vec<u32>, AllocError>
    requires earlier { AreEarlier nodes.now }
    requires within { from < length nodes.now }
    ensures { IfOk result (λ events. IsTrail nodes.now from events.items) }
{
    let mut events = Vec::new(alloc);
    let mut here = from;
    while here != 0 {
        let node = nodes[here as usize];
        events.push(node.event)?;
        here = node.parent;
    }
    Ok(events)
}

/// The events from the start to a state.
pub fn path_to(alloc: Global, nodes: &[Node], from: u32) -> Result<Vec<u32>, AllocError>
    requires earlier { AreEarlier nodes.now }
    requires within { from < length nodes.now }
    ensures { IfOk result (λ path. (trail : List ℕ) × IsTrail nodes.now from trail × (path.items ≡ reverse trail)) }
{
    let mut events = trail_of(alloc, nodes, from)?;
    events.reverse();
    Ok(events)
}
