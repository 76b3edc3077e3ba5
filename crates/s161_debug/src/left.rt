//! The events that are left for a session.

ghost use Rattle.std.specs.Prelude.{◌≡◌, ◌+◌, ◌≤◌, ◌++◌, [], drop, length, vec_capacity};

use m161_machine::Event;
use std::marker::Model;

/// The events that are left for a session. Contracts see them as their list.
#[derive(Drop)]
pub(crate) struct Left {
    events: Vec<Event>,
    // how many of them are used up
    used: usize,
}

impl Model for Left {
    ghost use Rattle.std.specs.Prelude.{◌≤◌, List, drop, length};
    ghost use Rattle.m161_machine.specs.declared.event.Event.{Event};

    ghost Value = { List Event };

    ghost view = { λ left. drop left.used left.events.items };

    ghost invariant = { λ left. left.used ≤ length left.events.items };
}

impl Left {
    pub(crate) fn new(events: Vec<Event>) -> Left
        ensures { result ≡ events.items }
    {
        Left { events, used: 0 }
    }

    pub(crate) fn as_slice(&self) -> &[Event]
        ensures { result.now ≡ self.now }
    {
        &self.events[self.used..]
    }

    /// Uses up this number of them, or all if there are fewer.
    pub(crate) fn use_up(&mut self, number: usize)
        ensures { self.new ≡ drop number self.old }
    {
        self.used = used_after(&self.events, self.used, number);
    }

    /// Puts events before them, into a list that has room for all.
    pub(crate) fn put_before(&mut self, first: &[Event], room: Vec<Event>)
        requires empty { room.items ≡ [] }
        requires room { length first.now + length self.old ≤ vec_capacity room }
        ensures { self.new ≡ first.now ++ self.old }
    {
        self.events = joined(first, self.as_slice(), room);
        self.used = 0;
    }
}

// How many events are used up once this number more are, or all.
fn used_after(events: &[Event], used: usize, number: usize) -> usize
    requires { used ≤ length events.now }
    ensures within { result ≤ length events.now }
    ensures left { drop result events.now ≡ drop number (drop used events.now) }
{
    let left = events.len() - used;
    if number < left {
        used + number
    } else {
        events.len()
    }
}

// Two lists of events, one after the other, in a list that has room for both.
fn joined(first: &[Event], others: &[Event], room: Vec<Event>) -> Vec<Event>
    requires empty { room.items ≡ [] }
    requires room { length first.now + length others.now ≤ vec_capacity room }
    ensures { result.items ≡ first.now ++ others.now }
{
    let mut events = room;
    let _first = events.extend_from_slice(first);
    let _others = events.extend_from_slice(others);
    events
}
