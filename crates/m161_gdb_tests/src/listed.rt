//! Runs that are a list of events.

ghost use Rattle.std.specs.Prelude.{◌≡◌, ◌≤◌, length};
ghost use Rattle.m161_gdb_tests.specs.Courses.{course_of};
ghost use Rattle.m161_moves.specs.Threads.{last_processor};

use m161_moves::{Run, StepSeen};

/// A run, which goes back to a place that it has kept or else to its beginning.
#[derive(Clone, Copy, Drop, Debug)]
pub struct Listed {
    /// Its events: what they are, if they are Steps.
    pub events: &'static [Option<StepSeen>],
    /// Where it stands, if the list is as long.
    pub at: usize,
    /// The place that it has kept.
    pub kept: usize,
}

// The processor of the last Step before a place.
fn last_before(events: &[Option<StepSeen>], place: usize) -> u32
    requires { place ≤ length events.now }
    ensures { result ≡ last_processor (course_of events.now) place }
{
    let mut last = 0;
    for k in 0..place {
        if let Some(step) = events[k] {
            last = step.processor;
        }
    }
    last
}

impl Run for Listed {
    ghost use Rattle.std.proofs.Common.{rules};
    ghost use Rattle.std.specs.Prelude.{length, min};
    ghost use Rattle.m161_gdb_tests.specs.Courses.{course_of};

    type Error = ();

    ghost course = { λ run. course_of run.events.now };

    ghost place = { λ run. min run.at (length run.events.now) };

    ghost fails = { λ course error. Unit {0} };

    fn place(&self) -> usize {
        self.at.min(self.events.len())
    }

    fn is_at_end(&self) -> bool {
        self.at >= self.events.len()
    }

    fn next_step(&self) -> Option<StepSeen> {
        self.events[self.at]
    }

    fn last_processor(&self) -> u32 {
        last_before(self.events, self.place())
    }

    fn advance(&mut self) -> Result<(), ()> {
        self.at += 1;
        Ok(())
    }

    fn go_back(&mut self, to: usize) -> Result<(), ()> {
        self.at = if self.kept <= to { self.kept } else { 0 };
        Ok(())
    }

    ghost within = { λ run. Prim.search rules };
}
