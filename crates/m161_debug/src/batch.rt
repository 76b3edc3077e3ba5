//! Events that are run over.

ghost use Rattle.std.specs.Prelude.{◌≡◌, ◌<◌, length, slice_get, Some};
ghost use Rattle.m161_debug.specs.helpers.Batch.{events_in};

use m161_machine::Event;

/// Events in order: those of a list, or so many Steps of one processor.
#[derive(Clone, Copy)]
pub(crate) enum Batch<'a> {
    Listed(&'a [Event]),
    Steps(u32, u32),
}

impl<'a> Batch<'a> {
    /// How many they are.
    pub(crate) fn len(self) -> usize
        ensures { result ≡ length (events_in self.entry) }
    {
        match self {
            Batch::Listed(events) => events.len(),
            Batch::Steps(_, n) => n as usize,
        }
    }

    /// The event of a place.
    pub(crate) fn at(self, k: usize) -> Event
        requires { k < length (events_in self) }
        ensures { slice_get (events_in self.entry) k ≡ Some result }
    {
        match self {
            Batch::Listed(events) => events[k],
            Batch::Steps(p, _) => Event::Step(p),
        }
    }
}
