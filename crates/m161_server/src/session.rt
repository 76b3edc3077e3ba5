//! What a session knows beside the place of its run.

ghost use Rattle.std.specs.Prelude.{◌≡◌};
ghost use Rattle.m161_server.specs.Serving.{new_session};

use m161_gdb::{Stops, Thread};
use m161_moves::Reason;
use std::alloc::Global;

/// Why and by which processor the last move stopped; no reason before the first move.
#[derive(Clone, Copy, Debug)]
pub struct LastStop {
    /// Why.
    pub reason: Option<Reason>,
    /// The processor.
    pub processor: u32,
}

/// What a session knows beside the place of its run, its link and what was read.
#[derive(Drop)]
pub struct Session {
    /// What stops moves.
    pub stops: Stops,
    /// The general processor.
    pub general: u32,
    /// The processors that moves without actions resume.
    pub control: Thread,
    /// How many of the console's bytes the client was told.
    pub shown: usize,
    /// The last stop.
    pub last: LastStop,
}

impl Session {
    /// What it knows before the first packet. Does not allocate.
    pub fn new(alloc: Global) -> Session
        ensures { result ≡ new_session }
    {
        Session {
            stops: Stops::none(alloc),
            general: 0,
            control: Thread::Any,
            shown: 0,
            last: LastStop {
                reason: None,
                processor: 0,
            },
        }
    }
}
