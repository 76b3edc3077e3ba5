//! What judging keeps of the Steps of a run, at a place of it.

ghost use Rattle.std.specs.Prelude.{◌≡◌, ◌^◌, ◌-◌, ◌<◌, ℕ, [], IfErr, IfOk, IfSome, List, option_map};
ghost use Rattle.m161_machine.specs.declared.event.Event.{Event as EventValue};
ghost use Rattle.m161_machine.specs.State.{State};
ghost use Rattle.m161_audit.specs.Stale.{IsBelow};
ghost use Rattle.m161_audit.specs.Watch.{AreGood};
ghost use Rattle.m161_judge.specs.Judge.{IsUnjudged};
ghost use Rattle.m161_judge.specs.Memory.{IsAuditOf, IsKeptOf, IsReachOf, KeepsOn, StartsSteps};
ghost use Rattle.m161_judge.specs.Verdict.{Criteria};
ghost use Rattle.m161_judge.specs.helpers.Steps.{AuditsOn, ReachesOn, finding_of, reach_of};
ghost use Rattle.m161_judge.specs.helpers.Walk.{IsJudgedOfSteps};

use crate::booted::Booted;
use crate::goal::Goal;
use crate::reach::Reach;
use crate::seeker::Seeker;
use crate::steps::first_of_steps;
use crate::verdict::Judged;
use m161_audit::{AuditError, Auditor, Finding, Watch};
use m161_bus::Console;
use m161_machine::Event;
use m161_tlb::Tlb;
use std::alloc::{AllocError, Global};
use std::marker::Model;

/// What judging keeps of the Steps of a run, at a place of it: what the audit knows there, and the search
/// for an address that is never to be reached. Without watches and addresses it is nothing.
#[derive(Drop)]
pub struct StepMemory<T: Tlb, D: Console> {
    // In boxes, since a memory is given from call to call.
    audit: Option<Box<Auditor<T, D>>>,
    reach: Option<Box<Seeker<T, D>>>,
}

impl<T: Tlb, D: Console> Model for StepMemory<T, D> {
    ghost use Rattle.std.specs.Prelude.{option_map};
    ghost use Rattle.m161_judge.specs.Memory.{StepsMemory};

    ghost Value = { StepsMemory };

    ghost view = { λ m. record {
      audit = option_map (λ b. b.value) m.audit;
      reach = option_map (λ b. b.value) m.reach;
    } };
}

// An audit on the heap.
fn boxed<T: Tlb + Drop, D: Console + Drop>(
    alloc: Global,
    auditor: Auditor<T, D>,
) -> Result<Box<Auditor<T, D>>, AllocError>
    ensures { IfOk result (λ b. b.value ≡ auditor) }
{
    Ok(Box::new(alloc, auditor)?)
}

// The audit before the first event; none without watches.
fn start_audit<T: Tlb + Drop, D: Console + Drop>(
    alloc: Global,
    booted: &Booted<T, D>,
    watches: &[Watch],
) -> Result<Option<Box<Auditor<T, D>>>, AuditError>
    ensures good { IfOk result (λ _. (k : ℕ) → AreGood booted.now.conf.ram watches.now k) }
    ensures ok { IfOk result (λ audit. IsAuditOf watches.now booted.now [] (option_map (λ b. b.value) audit)) }
    ensures err { IfErr result (IsUnjudged booted.now.conf watches.now) }
{
    if watches.is_empty() {
        return Ok(None);
    }
    let core = booted.copy_core(alloc)?;
    let auditor = Auditor::new(alloc, core, watches)?;
    Ok(Some(boxed(alloc, auditor)?))
}

// The search for a reach before the first event; none without addresses.
fn start_reach<T: Tlb + Drop, D: Console + Drop>(
    alloc: Global,
    booted: &Booted<T, D>,
    never: &[u32],
) -> Result<Option<Box<Seeker<T, D>>>, AllocError>
    ensures { IfOk result (λ reach. IsReachOf never.now booted.now [] (option_map (λ b. b.value) reach)) }
{
    if never.is_empty() {
        return Ok(None);
    }
    let core = booted.copy_core(alloc)?;
    let seeker = Seeker::new(core);
    Ok(Some(Box::new(alloc, seeker)?))
}

// The same audit again.
fn copy_audit<T: Tlb + Drop, D: Console + Drop>(
    alloc: Global,
    audit: &Option<Box<Auditor<T, D>>>,
) -> Result<Option<Box<Auditor<T, D>>>, AllocError>
    ensures { IfOk result (λ copy. option_map (λ b. b.value) copy ≡ option_map (λ b. b.value) audit.now) }
{
    match audit {
        Some(auditor) => Ok(Some(boxed(alloc, auditor.copy(alloc)?)?)),
        None => Ok(None),
    }
}

// The same search for a reach again.
fn copy_reach<T: Tlb + Drop, D: Console + Drop>(
    alloc: Global,
    reach: &Option<Box<Seeker<T, D>>>,
) -> Result<Option<Box<Seeker<T, D>>>, AllocError>
    ensures { IfOk result (λ copy. option_map (λ b. b.value) copy ≡ option_map (λ b. b.value) reach.now) }
{
    match reach {
        Some(seeker) => Ok(Some(Box::new(alloc, seeker.copy(alloc)?)?)),
        None => Ok(None),
    }
}

// The audit goes on along a run.
fn audit_on<T: Tlb, D: Console>(
    audit: &mut Option<Box<Auditor<T, D>>>,
    events: &[Event],
) -> Result<(), AuditError>
    ensures { AuditsOn events.now (option_map (λ b. b.value) audit.old) result (option_map (λ b. b.value) audit.new) }
{
    match audit {
        Some(auditor) => auditor.audit_on(events),
        None => Ok(()),
    }
}

// The search for a reach goes on along a run.
fn reach_on<T: Tlb, D: Console>(
    reach: &mut Option<Box<Seeker<T, D>>>,
    events: &[Event],
    never: &[u32],
) -> Result<(), AuditError>
    ensures { ReachesOn never.now events.now (option_map (λ b. b.value) reach.old) result (option_map (λ b. b.value) reach.new) }
{
    match reach {
        Some(seeker) => seeker.go_on(events, never),
        None => Ok(()),
    }
}

// What the audit found; without one nothing is.
fn finding_of<T: Tlb, D: Console>(audit: &Option<Box<Auditor<T, D>>>) -> Finding
    ensures found { result ≡ finding_of (option_map (λ b. b.value) audit.now) }
    ensures within { IsBelow (2 ^ 64 - 1) result }
{
    match audit {
        Some(auditor) => auditor.finding(),
        None => Finding::Clean,
    }
}

// The first reach, if there is one.
fn reach_of<T: Tlb, D: Console>(reach: &Option<Box<Seeker<T, D>>>) -> Option<Reach>
    ensures reach { result ≡ reach_of (option_map (λ b. b.value) reach.now) }
    ensures within { IfSome result (λ r. r.place < 2 ^ 64 - 1) }
{
    match reach {
        Some(seeker) => seeker.reach(),
        None => None,
    }
}

impl<T: Tlb + Drop, D: Console + Drop> StepMemory<T, D> {
    /// What is kept before the first event of a run.
    ///
    /// # Errors
    /// The first bad watch; or memory was refused.
    pub fn new(
        alloc: Global,
        booted: &Booted<T, D>,
        goal: &Goal,
    ) -> Result<StepMemory<T, D>, AuditError>
        ensures { StartsSteps goal.now booted.now result }
    {
        let audit = start_audit(alloc, booted, goal.watches)?;
        let reach = start_reach(alloc, booted, goal.never)?;
        Ok(StepMemory { audit, reach })
    }

    /// The same at the same place again, to go on from.
    ///
    /// # Errors
    /// Memory was refused.
    pub fn copy(&self, alloc: Global) -> Result<StepMemory<T, D>, AllocError>
        ensures { IfOk result (λ copy. copy ≡ self.now) }
    {
        let audit = copy_audit(alloc, &self.audit)?;
        let reach = copy_reach(alloc, &self.reach)?;
        Ok(StepMemory { audit, reach })
    }
}

impl<T: Tlb, D: Console> StepMemory<T, D> {
    /// Goes on along a run. These are all of its events so far, of which the first were looked at before,
    /// by the same goal.
    ///
    /// # Errors
    /// Memory was refused, at an event `Done`. The memory is no good then.
    pub fn go_on(&mut self, events: &[Event], goal: &Goal) -> Result<(), AuditError>
        ensures { KeepsOn goal.now events.now self.old result self.new }
    {
        let StepMemory { audit, reach } = self;
        audit_on(audit, events)?;
        reach_on(reach, events, goal.never)
    }

    /// The first verdict of the events so far that one Step gives.
    pub(crate) fn verdict(&self) -> Option<Judged>
        ensures { (goal : Criteria) (s : State) (events : List EventValue)
            → IsKeptOf goal s events self.now → IsJudgedOfSteps goal s events result }
    {
        first_of_steps(finding_of(&self.audit), reach_of(&self.reach))
    }
}
