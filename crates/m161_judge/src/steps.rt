//! The verdicts that one Step gives, which come before all others.

ghost use Rattle.std.specs.Prelude.{◌≡◌, ◌<◌, ◌-◌, ◌^◌, IfOk, IfSome, List, option_map};
ghost use Rattle.m161_machine.specs.declared.event.Event.{Event as EventValue};
ghost use Rattle.m161_machine.specs.State.{State};
ghost use Rattle.m161_judge.specs.Verdict.{Criteria};
ghost use Rattle.m161_audit.specs.Audit.{AuditsState};
ghost use Rattle.m161_audit.specs.Stale.{IsBelow};
ghost use Rattle.m161_judge.specs.helpers.Walk.{Joins, JoinsSteps, JudgesSteps, judged_reach};

use crate::goal::Goal;
use crate::reach::{Reach, find_reach};
use crate::verdict::{Judged, Verdict};
use m161_audit::{AuditError, Finding, Watch, audit_core};
use m161_bus::Console;
use m161_machine::{Core, Event};
use m161_tlb::Tlb;
use std::alloc::Global;

// The first stale use of a run from a state. Without watches there is none, and nothing is made.
fn find_stale<T: Tlb + Drop, D: Console + Drop>(
    alloc: Global,
    core: &Core<T, D>,
    events: &[Event],
    watches: &[Watch],
) -> Result<Finding, AuditError>
    ensures found { AuditsState core.now.state events.now watches.now result }
    ensures within { IfOk result (IsBelow (2 ^ 64 - 1)) }
{
    if watches.is_empty() {
        return Ok(Finding::Clean);
    }
    audit_copy(alloc, core, events, watches)
}

// The first stale use of a run from a state, which stays as it is.
// For LLVM: where there are no watches, no room for a machine is cleared.
#[inline(never)]
fn audit_copy<T: Tlb + Drop, D: Console + Drop>(
    alloc: Global,
    core: &Core<T, D>,
    events: &[Event],
    watches: &[Watch],
) -> Result<Finding, AuditError>
    ensures found { AuditsState core.now.state events.now watches.now result }
    ensures within { IfOk result (IsBelow (2 ^ 64 - 1)) }
{
    let mut copy = core.copy(alloc)?;
    audit_core(alloc, &mut copy, events, watches)
}

// The verdict of a reach.
fn reached(reach: Option<Reach>) -> Option<Judged>
    requires { IfSome reach (λ r. r.place < 2 ^ 64 - 1) }
    ensures { result ≡ option_map judged_reach reach }
{
    match reach {
        Some(reach) => Some(Judged {
            verdict: Verdict::Reached {
                place: reach.place,
                processor: reach.processor,
                address: reach.address,
            },
            events: reach.place + 1,
        }),
        None => None,
    }
}

/// The first verdict of Steps: that of a finding, or else that of the first reach.
pub(crate) fn first_of_steps(finding: Finding, reach: Option<Reach>) -> Option<Judged>
    requires finding { IsBelow (2 ^ 64 - 1) finding }
    requires reach { IfSome reach (λ r. r.place < 2 ^ 64 - 1) }
    ensures { (goal : Criteria) (s : State) (events : List EventValue)
        → JoinsSteps goal s events finding reach result }
{
    match finding {
        Finding::Clean => reached(reach),
        Finding::Stale {
            place,
            processor,
            address,
            row,
        } => Some(Judged {
            verdict: Verdict::Stale {
                place,
                processor,
                address,
                row,
            },
            events: place + 1,
        }),
    }
}

/// The first verdict of a run from a state that one Step gives: a stale use, or the reach of an
/// address.
///
/// # Errors
/// The first bad watch; or memory was refused.
pub(crate) fn judge_steps<T: Tlb + Drop, D: Console + Drop>(
    alloc: Global,
    core: &Core<T, D>,
    events: &[Event],
    goal: &Goal,
) -> Result<Option<Judged>, AuditError>
    ensures { JudgesSteps goal.now core.now.state events.now result }
{
    let finding = find_stale(alloc, core, events, goal.watches)?;
    let reach = find_reach(alloc, core, events, goal.never)?;
    Ok(first_of_steps(finding, reach))
}

/// The first verdict: that of Steps, or else the first one behind those.
pub(crate) fn first_verdict(of_steps: Option<Judged>, beside: Option<Judged>) -> Option<Judged>
    ensures { (goal : Criteria) (s : State) (events : List EventValue)
        → Joins goal s events of_steps beside result }
{
    of_steps.or(beside)
}
