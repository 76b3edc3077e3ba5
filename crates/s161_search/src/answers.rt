//! What an exploration prints.

ghost use Rattle.std.specs.Prelude.{◌≡◌, ◌≢◌, ◌<◌, ◌≤◌, ◌++◌, ◌-◌, ◌∷◌, [], ℕ, IfOk, OnOk, Some, length, option_map, string_bytes};
ghost use Rattle.m161_states.specs.System.{event_named, typed_after};
ghost use Rattle.m161_text.specs.Lines.{with_line_end};
ghost use Rattle.m161_reach.specs.Named.{events_named};
ghost use Rattle.m161_reach.specs.Reach.{HasEnded};
ghost use Rattle.s161_search.specs.Explores.{PrintsAnswer, at_place, limit_of, open_text, states_text};
ghost use Rattle.s161_search.specs.Texts.{found_text};

use crate::texts::{clean_line, found_lines};
use m161_explore::Answer;
use m161_judge::Verdict;
use m161_machine::{Conf, Event};
use m161_reach::SearchVerdict;
use m161_states::{EventVerdict, Unknown};
use s161_base::finished::Finished;
use s161_command::ExploreTask;
use std::alloc::{AllocError, Global};
use std::fmt;

// An event by its number, where so many keys are typed, and how many are typed behind it.
fn event_named(processors: u32, keys: &[u8], typed: usize, number: u32) -> Option<(Event, usize)>
    ensures { result ≡ option_map (λ e. (e, typed_after e typed)) (event_named processors keys.now typed number) }
{
    if number < processors {
        return Some((Event::Step(number), typed));
    }
    if number == processors {
        return Some((Event::Done, typed));
    }
    if typed >= keys.len() {
        return None;
    }
    Some((Event::Key(keys[typed]), typed + 1))
}

// Adds an event behind the others.
fn push_event(events: &mut Vec<Event>, event: Event) -> Result<(), AllocError>
    ensures { OnOk result (events.new.items ≡ events.old.items ++ event ∷ []) }
{
    events.push(event)?;
    Ok(())
}

// The events of a list of their numbers.
fn events_named(
    alloc: Global,
    processors: u32,
    keys: &[u8],
    numbers: &[u32],
) -> Result<Vec<Event>, AllocError>
    ensures { IfOk result (λ events. events.items ≡ events_named processors keys.now 0 numbers.now) }
{
    let mut events = Vec::new(alloc);
    let mut typed = 0;
    for number in numbers {
        let Some((event, behind)) = event_named(processors, keys, typed, *number) else {
            return Ok(events);
        };
        push_event(&mut events, event)?;
        typed = behind;
    }
    Ok(events)
}

// A verdict of the last event of a list, with the event's place.
fn at_place(place: usize, verdict: EventVerdict) -> Verdict
    ensures { result ≡ at_place place verdict }
{
    match verdict {
        EventVerdict::Stale {
            processor,
            address,
            row,
        } => Verdict::Stale {
            place,
            processor,
            address,
            row,
        },
        EventVerdict::Reached { processor, address } => Verdict::Reached {
            place,
            processor,
            address,
        },
        EventVerdict::Conflict(conflict) => Verdict::Conflict(conflict),
        EventVerdict::Stuck => Verdict::Stuck,
        EventVerdict::Output => Verdict::Output,
    }
}

// The line that tells how many states were found before.
fn states_line(alloc: Global, states: u32) -> Result<String, AllocError>
    ensures { IfOk result (λ line. string_bytes line ≡ with_line_end (states_text states)) }
{
    format!(in alloc; "# states {states}\n")
}

// That there are more states than this, as text.
#[derive(Drop)]
struct ShownOpen {
    limit: u32,
    size: usize,
}

impl fmt::Display for ShownOpen {
    ghost output = { λ shown. Some (open_text shown.limit shown.size) };

    fn fmt<W: fmt::Write>(&self, f: &mut fmt::Formatter<W>) -> fmt::Result {
        let limit = self.limit;
        let size = self.size;
        write!(f, "open {limit} {size}")
    }
}

// The line where there are more states than this.
fn open_line(alloc: Global, limit: u32, size: usize) -> Result<String, AllocError>
    ensures { IfOk result (λ line. string_bytes line ≡ with_line_end (open_text limit size)) }
{
    let shown = ShownOpen { limit, size };
    format!(in alloc; "{shown}\n")
}

// The schedule of a list that goes wrong.
fn wrong_lines(
    alloc: Global,
    conf: Conf,
    states: u32,
    verdict: SearchVerdict,
    events: &[Event],
) -> Result<String, AllocError>
    ensures { IfOk result (λ lines. string_bytes lines ≡ found_text conf (states_text states) verdict events.now) }
{
    let line = states_line(alloc, states)?;
    found_lines(alloc, conf, line, verdict, events)
}

// A text and an exit status.
fn finished(text: String, status: u8) -> Finished
    ensures text { result.text.items ≡ string_bytes text }
    ensures status { result.status ≡ status }
{
    Finished {
        text: text.into_bytes(),
        status,
    }
}

/// How many states there may be.
pub(crate) fn limit_of(task: ExploreTask<'_>) -> u32
    ensures value { result ≡ limit_of task.entry }
    ensures some { 0 < result }
{
    if task.states == 0 { 1 } else { task.states }
}

/// What is printed of an answer, and the exit status.
///
/// # Errors
/// Memory was refused.
pub(crate) fn print_answer(
    alloc: Global,
    conf: Conf,
    limit: u32,
    keys: &[u8],
    answer: Answer<EventVerdict, Unknown>,
) -> Result<Finished, AllocError>
    requires { HasEnded answer → ⊥ }
    ensures prints { IfOk result (λ done. PrintsAnswer conf limit keys.now answer done.text.items done.status) }
    ensures within { IfOk result (λ done. (done.status ≤ 6) × (done.status ≢ 2)) }
{
    match answer {
        Answer::Clean { states } => Ok(finished(clean_line(alloc, u64::from(states), 0)?, 0)),
        Answer::Found {
            events,
            verdict,
            states,
        } => {
            let verdict = SearchVerdict::Run(at_place(events.len().saturating_sub(1), verdict));
            let events = events_named(alloc, conf.processors, keys, &events)?;
            Ok(finished(wrong_lines(alloc, conf, states, verdict, &events)?, 4))
        }
        Answer::Hung { events, states } => {
            let events = events_named(alloc, conf.processors, keys, &events)?;
            Ok(finished(
                wrong_lines(alloc, conf, states, SearchVerdict::Hung, &events)?,
                4,
            ))
        }
        Answer::Open { size: most } => Ok(finished(open_line(alloc, limit, most)?, 6)),
        Answer::Ended(_) => unreachable!(),
    }
}
