//! The search for a reach at a place of a run.

ghost use Rattle.std.specs.Prelude.{◌≡◌, ◌^◌, ◌-◌, ◌<◌, [], IfOk, IfSome, Some};
ghost use Rattle.m161_judge.specs.Memory.{IsReachOf};
ghost use Rattle.m161_judge.specs.helpers.Reach.{IsSoughtBelow, reach_in};
ghost use Rattle.m161_judge.specs.helpers.Steps.{ReachesOn};

use crate::reach::{Reach, Sought, reach_from};
use m161_audit::AuditError;
use m161_bus::Console;
use m161_machine::{Core, Event};
use m161_tlb::Tlb;
use std::alloc::{AllocError, Global};
use std::marker::Model;

/// The search for a reach at a place of a run: what it keeps of the events before.
#[derive(Drop)]
pub(crate) struct Seeker<T: Tlb, D: Console> {
    core: Core<T, D>,
    // How many events were looked at.
    made: usize,
    sought: Sought,
}

impl<T: Tlb, D: Console> Model for Seeker<T, D> {
    ghost use Rattle.std.specs.Prelude.{◌^◌, ◌-◌};
    ghost use Rattle.m161_judge.specs.Memory.{ReachMemory};
    ghost use Rattle.m161_judge.specs.helpers.Reach.{IsSoughtBelow};

    ghost Value = { ReachMemory };

    ghost view = { λ r. record {
      core = r.core.state;
      made = r.made;
      sought = r.sought;
    } };

    ghost invariant = { λ r. IsSoughtBelow (2 ^ 64 - 1) r.sought };
}

impl<T: Tlb + Drop, D: Console + Drop> Seeker<T, D> {
    /// The search before the first event of a run from a state on.
    // For LLVM: a machine that is given back by value.
    #[inline(never)]
    pub(crate) fn new(core: Core<T, D>) -> Seeker<T, D>
        ensures { result ≡ record { core = core.state; made = 0; sought = Sought.Open } }
    {
        Seeker {
            core,
            made: 0,
            sought: Sought::Open,
        }
    }

    /// The same search at the same place again, to go on from.
    ///
    /// # Errors
    /// Memory was refused.
    // For LLVM: a machine that is given back by value.
    #[inline(never)]
    pub(crate) fn copy(&self, alloc: Global) -> Result<Seeker<T, D>, AllocError>
        ensures { IfOk result (λ copy. copy ≡ self.now) }
    {
        let core = self.core.copy(alloc)?;
        Ok(Seeker {
            core,
            made: self.made,
            sought: self.sought,
        })
    }
}

impl<T: Tlb, D: Console> Seeker<T, D> {
    /// Goes on along a run. These are all of its events so far, of which the first were looked at before.
    ///
    /// # Errors
    /// Memory was refused, at an event `Done`. The search is no good then.
    pub(crate) fn go_on(&mut self, events: &[Event], never: &[u32]) -> Result<(), AuditError>
        ensures { ReachesOn never.now events.now (Some self.old) result (Some self.new) }
    {
        match self.sought {
            Sought::Open => self.seek_on(events, never),
            Sought::Over(_) => {
                self.made = events.len();
                Ok(())
            }
        }
    }

    // The same, where the search isn't over.
    fn seek_on(&mut self, events: &[Event], never: &[u32]) -> Result<(), AuditError>
        requires { self.old.sought ≡ Sought.Open }
        ensures { ReachesOn never.now events.now (Some self.old) result (Some self.new) }
    {
        let Seeker { core, made, sought } = self;
        *sought = reach_from(core, events, never, *made)?;
        *made = events.len();
        Ok(())
    }

    /// The first reach so far.
    pub(crate) fn reach(&self) -> Option<Reach>
        ensures reach { result ≡ reach_in self.now.sought }
        ensures within { IfSome result (λ r. r.place < 2 ^ 64 - 1) }
    {
        self.sought.first()
    }
}
