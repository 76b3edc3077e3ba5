//! Audits that go on where another one came.

ghost use Rattle.std.specs.Prelude.{◌≡◌, ◌^◌, ◌-◌, IfOk, List};
ghost use Rattle.m161_machine.specs.declared.event.Event.{Event as EventValue};
ghost use Rattle.m161_machine.specs.StoreHistory.{StoreState};
ghost use Rattle.m161_audit.specs.declared.watch.Watch.{Watch as WatchValue};
ghost use Rattle.m161_audit.specs.Going.{Starts, GoesOn, IsMemoryOf};
ghost use Rattle.m161_audit.specs.Stale.{IsBelow, IsFinding};

use crate::finding::{AuditError, Finding};
use crate::run::{find_from, first_bad};
use crate::shootdown::Shootdowns;
use crate::watch::Watch;
use m161_bus::Console;
use m161_machine::{Core, Event};
use m161_tlb::Tlb;
use std::alloc::{AllocError, Global};
use std::marker::Model;

/// An audit at a place of a run: what it keeps of the events before.
#[derive(Drop)]
pub struct Auditor<T: Tlb, D: Console> {
    core: Core<T, D>,
    shootdowns: Shootdowns,
    // How many events were audited.
    audited: usize,
    finding: Finding,
}

impl<T: Tlb, D: Console> Model for Auditor<T, D> {
    ghost use Rattle.std.specs.Prelude.{◌^◌, ◌-◌};
    ghost use Rattle.m161_audit.specs.Going.{Memory};
    ghost use Rattle.m161_audit.specs.Stale.{IsBelow};

    ghost Value = { Memory };

    ghost view = { λ a. record {
      core = a.core.state;
      shootdowns = a.shootdowns;
      audited = a.audited;
      finding = a.finding;
    } };

    ghost invariant = { λ a. IsBelow (2 ^ 64 - 1) a.finding };
}

impl<T: Tlb + Drop, D: Console + Drop> Auditor<T, D> {
    /// An audit before the first event of a run from a state on. What was stored before doesn't count.
    ///
    /// # Errors
    /// The first bad watch; or memory was refused.
    // For LLVM: a machine that is given back by value.
    #[inline(never)]
    pub fn new(
        alloc: Global,
        core: Core<T, D>,
        watches: &[Watch],
    ) -> Result<Auditor<T, D>, AuditError>
        ensures { Starts core.state watches.now result }
    {
        if let Some(k) = first_bad(core.conf().ram, watches) {
            return Err(AuditError::BadWatch(k));
        }
        let shootdowns = Shootdowns::new(alloc, watches)?;
        Ok(Auditor {
            core,
            shootdowns,
            audited: 0,
            finding: Finding::Clean,
        })
    }

    /// The same audit at the same place again, to go on from.
    ///
    /// # Errors
    /// Memory was refused.
    // For LLVM: a machine that is given back by value.
    #[inline(never)]
    pub fn copy(&self, alloc: Global) -> Result<Auditor<T, D>, AllocError>
        ensures { IfOk result (λ copy. copy ≡ self.now) }
    {
        let core = self.core.copy(alloc)?;
        let shootdowns = self.shootdowns.copy(alloc)?;
        Ok(Auditor {
            core,
            shootdowns,
            audited: self.audited,
            finding: self.finding,
        })
    }
}

impl<T: Tlb, D: Console> Auditor<T, D> {
    /// Goes on along a run. These are all of its events so far, of which the first were audited before.
    ///
    /// # Errors
    /// Memory was refused, at an event `Done`. The audit is no good then.
    pub fn audit_on(&mut self, events: &[Event]) -> Result<(), AuditError>
        ensures { GoesOn events.now self.old result self.new }
    {
        match self.finding {
            Finding::Clean => self.find_on(events),
            Finding::Stale { .. } => Ok(()),
        }
    }

    // The same, where no stale use was found.
    fn find_on(&mut self, events: &[Event]) -> Result<(), AuditError>
        requires { self.old.finding ≡ Finding.Clean }
        ensures { GoesOn events.now self.old result self.new }
    {
        let Auditor {
            core,
            shootdowns,
            audited,
            finding,
        } = self;
        *finding = find_from(core, events, *audited, shootdowns)?;
        *audited = events.len();
        Ok(())
    }

    /// What was found so far.
    pub fn finding(&self) -> Finding
        ensures found { result ≡ self.now.finding }
        ensures within { IsBelow (2 ^ 64 - 1) result }
    {
        self.finding
    }
}
