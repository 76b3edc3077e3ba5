//! An exploration in slices.

ghost use Rattle.std.specs.Prelude.{◌≡◌, ◌<◌, ℕ, IfErr, IfOk, option_map};
ghost use Rattle.m161_judge.specs.Judge.{bytes_of};
ghost use Rattle.m161_machine.specs.History.{boot_state};
ghost use Rattle.m161_reach.specs.Reach.{IsAtBoot};
ghost use Rattle.m161_c.specs.Begun.{IsFresh, unfinished};
ghost use Rattle.m161_c.specs.Explores.{BeginsAs, SlicesAs};
ghost use Rattle.m161_c.specs.Explored.{IsRefused, IsUnexplored, criteria_of};
ghost use Rattle.m161_c.specs.helpers.Begun.{Comes, IsBegunOf};

use crate::answer::{Exploration, WatchNumbers};
use crate::explored::{check_goal, prepare, tell};
use crate::session::Session;
use crate::verdict::NONE;
use crate::{MORE, NO_MEMORY, NOTHING};
use m161::{Console, Core, Machine, Tlb};
use m161_audit::Watch;
use m161_judge::Goal;
use m161_progress::Nobody;
use m161_reach::{Exploring, begin_machine, go_on_machine};
use std::alloc::{AllocError, Global};
use std::marker::Model;

/// An exploration that was begun, with all that it needs to go on.
#[derive(Drop)]
pub struct Begun {
    boot: Core,
    keys: Vec<u8>,
    watches: Vec<Watch>,
    never: Vec<u32>,
    output: Option<Vec<u8>>,
    limit: u32,
    exploring: Exploring<Tlb, Console>,
}

impl Model for Begun {
    ghost use Rattle.std.specs.Prelude.{option_map};
    ghost use Rattle.m161_c.specs.Begun.{Begun, IsBegun};

    ghost Value = { Begun };

    ghost view = { λ b. record {
      boot = b.boot.state;
      goal = record {
        watches = b.watches.items;
        never = b.never.items;
        output = option_map (λ bytes. bytes.items) b.output;
        keys = b.keys.items;
      };
      limit = b.limit;
      exploring = b.exploring;
    } };

    ghost invariant = { λ b. IsBegun (record {
      boot = b.boot.state;
      goal = record {
        watches = b.watches.items;
        never = b.never.items;
        output = option_map (λ bytes. bytes.items) b.output;
        keys = b.keys.items;
      };
      limit = b.limit;
      exploring = b.exploring;
    }) };
}

// Begins the exploration of a machine at boot.
fn begin_boot(alloc: Global, boot: &Core, goal: &Goal) -> Result<Exploring<Tlb, Console>, u8>
    requires boot { IsAtBoot boot.now.state }
    ensures ok { IfOk result (IsBegunOf boot.now.state goal.now) }
    ensures err { IfErr result (IsRefused boot.now.state goal.now) }
{
    match check_goal(alloc, boot, goal) {
        Ok(()) => match begin_machine(alloc, boot, goal) {
            Ok(exploring) => Ok(exploring),
            Err(_) => Err(NO_MEMORY),
        },
        Err(answer) => Err(answer),
    }
}

// The bytes again, if there are some.
fn copy_output(alloc: Global, output: Option<&[u8]>) -> Result<Option<Vec<u8>>, AllocError>
    ensures { IfOk result (λ copied. option_map (λ bytes. bytes.items) copied ≡ bytes_of output.entry) }
{
    match output {
        Some(bytes) => Ok(Some(Vec::from_slice(alloc, bytes)?)),
        None => Ok(None),
    }
}

// An exploration that was begun of a machine at boot, with copies of what is asked.
fn keep(
    alloc: Global,
    boot: Core,
    limit: u32,
    goal: &Goal,
    exploring: Exploring<Tlb, Console>,
) -> Result<Begun, AllocError>
    requires boot { IsAtBoot boot.state }
    requires some { 0 < limit }
    requires begun { IsBegunOf boot.state goal.now exploring }
    ensures { IfOk result (IsFresh boot.state limit goal.now) }
{
    Ok(Begun {
        boot,
        keys: Vec::from_slice(alloc, goal.keys)?,
        watches: Vec::from_slice(alloc, goal.watches)?,
        never: Vec::from_slice(alloc, goal.never)?,
        output: copy_output(alloc, goal.output)?,
        limit,
        exploring,
    })
}

/// Begins the exploration of a machine from boot; or the number of why it isn't explored.
pub(crate) fn begin(
    alloc: Global,
    machine: &Machine,
    limit: u32,
    keys: &[u8],
    watches: &[WatchNumbers],
    never: &[u32],
    output: Option<&[u8]>,
) -> Result<Begun, u8>
    ensures ok { IfOk result (IsFresh (boot_state machine.now.start) limit
        (criteria_of keys.now watches.now never.now (bytes_of output.entry))) }
    ensures err { IfErr result (IsUnexplored (boot_state machine.now.start) limit
        (criteria_of keys.now watches.now never.now (bytes_of output.entry))) }
{
    let (boot, watches) = match prepare(alloc, machine, limit, watches) {
        Ok(prepared) => prepared,
        Err(answer) => return Err(answer),
    };
    let goal = Goal {
        watches: &watches,
        never,
        output,
        keys,
    };
    match begin_boot(alloc, &boot, &goal) {
        Ok(exploring) => match keep(alloc, boot, limit, &goal, exploring) {
            Ok(begun) => Ok(begun),
            Err(_) => Err(NO_MEMORY),
        },
        Err(answer) => Err(answer),
    }
}

// The bytes, if there are some.
fn slice_of<'a>(output: &'a Option<Vec<u8>>) -> Option<&'a [u8]>
    ensures { bytes_of result ≡ option_map (λ bytes. bytes.items) output.now }
{
    match output {
        Some(bytes) => Some(bytes.as_slice()),
        None => None,
    }
}

/// What a slice of an exploration came to.
#[derive(Drop)]
pub(crate) enum Slice {
    /// There is no answer yet.
    More(Begun),
    /// This is the answer, with the numbers of the events of its list.
    Answered(Exploration, Vec<u8>),
}

/// Goes on with an exploration: all events of so many states more are tried.
pub(crate) fn go_on(alloc: Global, begun: Begun, number: u32) -> Result<Slice, AllocError>
    ensures { IfOk result (Comes begun number) }
{
    let Begun {
        boot,
        keys,
        watches,
        never,
        output,
        limit,
        mut exploring,
    } = begun;
    let asked = slice_of(&output);
    let goal = Goal {
        watches: &watches,
        never: &never,
        output: asked,
        keys: &keys,
    };
    match go_on_machine(alloc, &boot, &goal, &mut exploring, limit, number, &Nobody)? {
        Some(answer) => {
            let (found, events) = tell(alloc, answer)?;
            Ok(Slice::Answered(found, events))
        }
        None => Ok(Slice::More(Begun {
            boot,
            keys,
            watches,
            never,
            output,
            limit,
            exploring,
        })),
    }
}

impl Begun {
    /// How many states were found, as the numbers of an exploration that has no answer yet.
    fn unfinished(&self) -> Exploration
        ensures { result ≡ unfinished self.now }
    {
        Exploration {
            kind: 4,
            states: self.exploring.states() as u32,
            events: 0,
            verdict: NONE,
        }
    }
}

impl Session {
    pub(crate) fn begin(
        &mut self,
        alloc: Global,
        limit: u32,
        keys: &[u8],
        watches: &[WatchNumbers],
        never: &[u32],
        output: Option<&[u8]>,
    ) -> u8
        ensures { BeginsAs limit (criteria_of keys.now watches.now never.now (bytes_of output.entry))
            result self.old self.new }
    {
        let Some(machine) = &self.machine else {
            return NOTHING;
        };
        match begin(alloc, machine, limit, keys, watches, never, output) {
            Ok(begun) => {
                self.exploring = Some(begun);
                0
            }
            Err(answer) => answer,
        }
    }

    pub(crate) fn go_on(&mut self, alloc: Global, number: u32, found: &mut Exploration) -> u8
        ensures { SlicesAs number result found.old found.new self.old self.new }
    {
        let Some(begun) = self.exploring.take() else {
            return NOTHING;
        };
        match go_on(alloc, begun, number) {
            Ok(Slice::Answered(what, events)) => {
                *found = what;
                self.bytes = events;
                0
            }
            Ok(Slice::More(begun)) => {
                *found = begun.unfinished();
                self.exploring = Some(begun);
                MORE
            }
            Err(_) => NO_MEMORY,
        }
    }
}
