//! The events of a run.

ghost use Rattle.std.specs.Prelude.{◌≡◌, count_by};
ghost use Rattle.m161_judge.specs.Verdict.{is_key};

use m161_machine::Event;

fn is_key(event: Event) -> bool
    ensures { result ≡ is_key event }
{
    match event {
        Event::Key(_) => true,
        Event::Step(_) | Event::Done => false,
    }
}

/// How many of the events are keys.
pub(crate) fn count_keys(events: &[Event]) -> usize
    ensures { result ≡ count_by is_key events.now }
{
    let mut count = 0;
    for event in events {
        if is_key(*event) {
            count += 1;
        }
    }
    count
}
