//! The exploration of a machine's states.

ghost use Rattle.std.specs.Prelude.{◌≡◌, ◌<◌, ◌++◌, ◌∷◌, [], IfErr, IfOk, OnOk, ℕ, length, map};
ghost use Rattle.m161_audit.specs.Watch.{AreGood};
ghost use Rattle.m161_judge.specs.Judge.{bytes_of};
ghost use Rattle.m161_machine.specs.History.{boot_state};
ghost use Rattle.m161_reach.specs.Reach.{HasEnded, IsAtBoot};
ghost use Rattle.m161_c.specs.Explored.{AreAllGood, IsExplored, IsRefused, IsUnexplored, Tells, criteria_of, watch_of};
ghost use Rattle.m161_c.specs.helpers.Explored.{IsExplorable, IsFound, IsUnprepared, IsUnwatched};

use crate::answer::{Exploration, VerdictNumbers, WatchNumbers};
use crate::verdict::{NONE, as_run, run_verdict};
use crate::{BAD, BAD_WATCH, NO_MEMORY};
use m161::{Core, Machine};
use m161_audit::{AuditError, Watch, audit_core};
use m161_explore::Answer;
use m161_judge::Goal;
use m161_reach::{Exploration as Explored, can_be_asked, explore_machine};
use m161_states::{EventVerdict, Unknown};
use std::alloc::{AllocError, Global};

fn watch_of(numbers: &WatchNumbers) -> Watch
    ensures { result ≡ watch_of numbers.now }
{
    Watch {
        id: numbers.id,
        page: numbers.page,
        pte: numbers.pte,
        done: numbers.done,
    }
}

// Adds a watch behind the others.
fn push_watch(watches: &mut Vec<Watch>, watch: Watch) -> Result<(), AllocError>
    ensures { OnOk result (watches.new.items ≡ watches.old.items ++ watch ∷ []) }
{
    watches.push(watch)?;
    Ok(())
}

/// The watches of these numbers.
pub(crate) fn watches_of(alloc: Global, numbers: &[WatchNumbers]) -> Result<Vec<Watch>, AllocError>
    ensures { IfOk result (λ watches. watches.items ≡ map watch_of numbers.now) }
{
    let mut watches = Vec::new(alloc);
    for watch in numbers {
        push_watch(&mut watches, watch_of(watch))?;
    }
    Ok(watches)
}

/// Looks whether a watch is bad: the audit of no event says so. Else the number of why that isn't known.
pub(crate) fn check_watches(alloc: Global, core: &Core, watches: &[Watch]) -> Result<(), u8>
    ensures ok { IfOk result (λ _. (k : ℕ) → AreGood core.now.state.conf.ram watches.now k) }
    ensures err { IfErr result (IsUnwatched core.now.state.conf.ram watches.now) }
{
    let Ok(mut core) = core.copy(alloc) else {
        return Err(NO_MEMORY);
    };
    match audit_core(alloc, &mut core, &[], watches) {
        Ok(_) => Ok(()),
        Err(AuditError::BadWatch(_)) => Err(BAD_WATCH),
        Err(AuditError::Boot(_)) => Err(NO_MEMORY),
    }
}

// Looks whether what is asked fits its words, where no watch is bad.
fn check_fits(boot: &Core, goal: &Goal) -> Result<(), u8>
    requires boot { IsAtBoot boot.now.state }
    requires good { AreAllGood boot.now.state goal.now }
    ensures ok { IfOk result (λ _. IsExplorable boot.now.state goal.now) }
    ensures err { IfErr result (IsRefused boot.now.state goal.now) }
{
    if !can_be_asked(boot, goal) {
        return Err(BAD);
    }
    Ok(())
}

/// Looks whether a machine at boot can be explored: no watch is bad, and what is asked fits its words. Else
/// the number of why that isn't so, or isn't known.
pub(crate) fn check_goal(alloc: Global, boot: &Core, goal: &Goal) -> Result<(), u8>
    requires boot { IsAtBoot boot.now.state }
    ensures ok { IfOk result (λ _. IsExplorable boot.now.state goal.now) }
    ensures err { IfErr result (IsRefused boot.now.state goal.now) }
{
    match check_watches(alloc, boot, goal.watches) {
        Ok(()) => check_fits(boot, goal),
        Err(answer) => Err(answer),
    }
}

// Explores a machine at boot.
fn explore_boot(alloc: Global, boot: &Core, limit: u32, goal: &Goal) -> Result<Explored, u8>
    requires boot { IsAtBoot boot.now.state }
    requires some { 0 < limit }
    ensures ok { IfOk result (IsFound boot.now.state limit goal.now) }
    ensures err { IfErr result (IsRefused boot.now.state goal.now) }
{
    match check_goal(alloc, boot, goal) {
        Ok(()) => match explore_machine(alloc, boot, goal, limit) {
            Ok(found) => Ok(found),
            Err(_) => Err(NO_MEMORY),
        },
        Err(answer) => Err(answer),
    }
}

// Adds a byte behind the others.
fn push_byte(bytes: &mut Vec<u8>, byte: u8) -> Result<(), AllocError>
    ensures { OnOk result (bytes.new.items ≡ bytes.old.items ++ byte ∷ []) }
{
    bytes.push(byte)?;
    Ok(())
}

// The numbers of events as bytes. No machine has so many processors that one has no byte.
fn bytes_from(alloc: Global, events: &[u32]) -> Result<Vec<u8>, AllocError>
    ensures { IfOk result (λ bytes. bytes.items ≡ events.now) }
{
    let mut bytes = Vec::new(alloc);
    for event in events {
        let Ok(byte) = u8::try_from(*event) else {
            return Err(AllocError);
        };
        push_byte(&mut bytes, byte)?;
    }
    Ok(bytes)
}

// A list that was found, with its verdict, if it has one.
fn tell_list(
    alloc: Global,
    kind: u32,
    states: u32,
    events: &[u32],
    verdict: VerdictNumbers,
) -> Result<(Exploration, Vec<u8>), AllocError>
    ensures { IfOk result (λ told.
        (told.0 ≡ record { kind = kind; states = states; events = length events.now; verdict = verdict })
        × (told.1.items ≡ events.now)) }
{
    let bytes = bytes_from(alloc, events)?;
    let found = Exploration {
        kind,
        states,
        events: events.len() as u64,
        verdict,
    };
    Ok((found, bytes))
}

/// An answer as numbers, and the numbers of the events of its list.
pub(crate) fn tell(
    alloc: Global,
    answer: Answer<EventVerdict, Unknown>,
) -> Result<(Exploration, Vec<u8>), AllocError>
    requires { HasEnded answer → ⊥ }
    ensures { IfOk result (λ told. Tells answer told.0 told.1.items) }
{
    match answer {
        Answer::Clean { states } => tell_list(alloc, 0, states, &[], NONE),
        Answer::Found {
            events,
            verdict,
            states,
        } => tell_list(alloc, 1, states, &events, run_verdict(as_run(verdict))),
        Answer::Hung { events, states } => tell_list(alloc, 2, states, &events, NONE),
        Answer::Open { size } => Ok((
            Exploration {
                kind: 3,
                states: 0,
                events: size as u64,
                verdict: NONE,
            },
            Vec::new(alloc),
        )),
        Answer::Ended(_) => unreachable!(),
    }
}

// Explores a machine at boot, and tells what was found.
fn tell_boot(
    alloc: Global,
    boot: &Core,
    limit: u32,
    goal: &Goal,
) -> Result<(Exploration, Vec<u8>), u8>
    requires boot { IsAtBoot boot.now.state }
    requires some { 0 < limit }
    ensures ok { IfOk result (λ told. IsExplored boot.now.state limit goal.now told.0 told.1.items) }
    ensures err { IfErr result (IsRefused boot.now.state goal.now) }
{
    match explore_boot(alloc, boot, limit, goal) {
        Ok(found) => match tell(alloc, found.answer) {
            Ok(told) => Ok(told),
            Err(_) => Err(NO_MEMORY),
        },
        Err(answer) => Err(answer),
    }
}

/// The machine at boot again, and the watches of these numbers, for an exploration of at most so many states;
/// or the number of why there is none.
pub(crate) fn prepare(
    alloc: Global,
    machine: &Machine,
    limit: u32,
    watches: &[WatchNumbers],
) -> Result<(Core, Vec<Watch>), u8>
    ensures ok { IfOk result (λ prepared. (0 < limit) × (prepared.0.state ≡ boot_state machine.now.start)
        × (prepared.1.items ≡ map watch_of watches.now)) }
    ensures err { IfErr result (IsUnprepared limit) }
{
    if limit == 0 {
        return Err(BAD);
    }
    let Ok(watches) = watches_of(alloc, watches) else {
        return Err(NO_MEMORY);
    };
    let Ok(boot) = machine.boot_again(alloc) else {
        return Err(NO_MEMORY);
    };
    Ok((boot.into_core(), watches))
}

/// Explores a machine from boot, and tells what was found, with the numbers of the events of its list;
/// or the number of why it isn't explored.
pub(crate) fn explore(
    alloc: Global,
    machine: &Machine,
    limit: u32,
    keys: &[u8],
    watches: &[WatchNumbers],
    never: &[u32],
    output: Option<&[u8]>,
) -> Result<(Exploration, Vec<u8>), u8>
    ensures ok { IfOk result (λ told. IsExplored (boot_state machine.now.start) limit
        (criteria_of keys.now watches.now never.now (bytes_of output.entry)) told.0 told.1.items) }
    ensures err { IfErr result (IsUnexplored (boot_state machine.now.start) limit
        (criteria_of keys.now watches.now never.now (bytes_of output.entry))) }
{
    let (boot, watches) = match prepare(alloc, machine, limit, watches) {
        Ok(prepared) => prepared,
        Err(answer) => return Err(answer),
    };
    let goal = Goal {
        watches: &watches,
        never,
        output,
        keys,
    };
    tell_boot(alloc, &boot, limit, &goal)
}
