//! The verdict of a search on the events that a machine has made.

ghost use Rattle.std.specs.Prelude.{◌≡◌, Err, IfErr, IfOk, Ok, Some};
ghost use Rattle.m161_judge.specs.Judge.{bytes_of};
ghost use Rattle.m161_machine.specs.History.{boot_fault};
ghost use Rattle.m161_c.specs.Explored.{criteria_of};
ghost use Rattle.m161_c.specs.Hung.{TellsBooted, TellsFrom, TellsVerdict, HungAs};
ghost use Rattle.m161_reach.specs.Told.{AsksEnds, IsTold};
ghost use Rattle.m161_c.specs.helpers.Booting.{IsBooted};

use crate::answer::{Judgement, WatchNumbers};
use crate::asked::asked_core;
use crate::explored::watches_of;
use crate::judged::{audit_number, events_made, has_all};
use crate::session::Session;
use crate::verdict::told_numbers;
use crate::{DROPPED, NO_MEMORY, NOTHING};
use m161::{Conf, Console, Event, Machine, Tlb};
use m161_judge::{Booted, Goal, judge_events};
use m161_reach::{Machines, Told, ends_of, tell};
use m161_states::Known;
use std::alloc::{AllocError, Global};

// Judges events from boot.
fn tell_events(
    alloc: Global,
    booted: &Booted<Tlb, Console>,
    ends: &Machines<'_, Tlb, Console>,
    few: u32,
    events: &[Event],
    goal: &Goal,
) -> Result<Option<Told>, AllocError>
    requires booted { IsBooted booted.now }
    requires asks { AsksEnds goal.now booted.now ends.now }
    ensures { IfOk result (IsTold few goal.now booted.now events.now) }
{
    let Ok(judged) = judge_events(alloc, booted, events, goal) else {
        return Err(AllocError);
    };
    tell(alloc, ends, few, judged, events)
}

// The same, where it can be asked.
fn tell_from(
    alloc: Global,
    booted: &Booted<Tlb, Console>,
    few: u32,
    events: &[Event],
    goal: &Goal,
) -> Result<Option<Told>, u8>
    requires { IsBooted booted.now }
    ensures ok { IfOk result (λ told. TellsFrom few goal.now booted.now events.now (Ok told)) }
    ensures err { IfErr result (λ why. TellsFrom few goal.now booted.now events.now (Err why)) }
{
    let core = asked_core(alloc, booted, goal)?;
    let ends_goal = ends_of(goal);
    let ends = Machines::new(alloc, &*core, &ends_goal, Known::nothing());
    match tell_events(alloc, booted, &ends, few, events, goal) {
        Ok(told) => Ok(told),
        Err(_) => Err(NO_MEMORY),
    }
}

// The same on a machine that is booted from a file.
fn tell_booted(
    alloc: Global,
    file: &[u8],
    conf: Conf,
    few: u32,
    events: &[Event],
    goal: &Goal,
) -> Result<Option<Told>, u8>
    ensures ok { IfOk result (λ told. TellsBooted (boot_fault file.now conf) file.now conf few goal.now events.now (Ok told)) }
    ensures err { IfErr result (λ why. TellsBooted (boot_fault file.now conf) file.now conf few goal.now events.now (Err why)) }
{
    match Booted::new(alloc, file, conf) {
        Ok(booted) => tell_from(alloc, &booted, few, events, goal),
        Err(error) => Err(audit_number(error)),
    }
}

// Tells a verdict, if there is one; or says why that isn't known.
fn tell_result(told: Result<Option<Told>, u8>, judgement: &mut Judgement) -> u8
    ensures { TellsVerdict told result judgement.old judgement.new }
{
    match told {
        Ok(told) => {
            *judgement = told_numbers(told);
            0
        }
        Err(answer) => answer,
    }
}

impl Session {
    pub(crate) fn hung(
        &self,
        alloc: Global,
        file: &[u8],
        few: u32,
        keys: &[u8],
        watches: &[WatchNumbers],
        never: &[u32],
        output: Option<&[u8]>,
        judgement: &mut Judgement,
    ) -> u8
        ensures { HungAs self.now.machine file.now few (criteria_of keys.now watches.now never.now (bytes_of output.entry))
            result judgement.old judgement.new }
    {
        match &self.machine {
            Some(machine) => hung(
                alloc, machine, file, few, keys, watches, never, output, judgement,
            ),
            None => NOTHING,
        }
    }
}

// Judges the events of a machine, as made on one of its size that is booted from a file, and tells the
// verdict; or answers with the number of why not.
fn hung(
    alloc: Global,
    machine: &Machine,
    file: &[u8],
    few: u32,
    keys: &[u8],
    watches: &[WatchNumbers],
    never: &[u32],
    output: Option<&[u8]>,
    judgement: &mut Judgement,
) -> u8
    ensures { HungAs (Some machine.now) file.now few (criteria_of keys.now watches.now never.now (bytes_of output.entry))
        result judgement.old judgement.new }
{
    if !has_all(machine) {
        return DROPPED;
    }
    let Ok(events) = events_made(alloc, machine) else {
        return NO_MEMORY;
    };
    let Ok(watches) = watches_of(alloc, watches) else {
        return NO_MEMORY;
    };
    let goal = Goal {
        watches: &watches,
        never,
        output,
        keys,
    };
    let told = tell_booted(alloc, file, machine.conf(), few, &events, &goal);
    tell_result(told, judgement)
}
