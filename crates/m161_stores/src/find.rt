//! Looking for a store.

ghost use Rattle.std.specs.Prelude.{◌≡◌, ◌<◌, IfOk};
ghost use Rattle.m161_explore.specs.Answers.{Answers};
ghost use Rattle.m161_reach.specs.Reach.{CanBeAsked, question_of, rules_of};
ghost use Rattle.m161_stores.specs.Stores.{TellsStores};
ghost use Rattle.m161_stores.specs.helpers.Storing.{says_unstored, states_again, storing_rules};

use crate::storing::{Sight, Storing};
use m161_bus::Console;
use m161_explore::{Answer, explore};
use m161_judge::Goal;
use m161_machine::Core;
use m161_reach::{Exploration, Machines};
use m161_states::{EventVerdict, Known, Unknown};
use m161_tlb::Tlb;
use std::alloc::{AllocError, Global};

// How many states may be looked at behind this answer, if there is anything to be said.
fn states_again(limit: u32, answer: &Answer<EventVerdict, Unknown>) -> Option<u32>
    ensures { result ≡ states_again limit answer.now }
{
    match answer {
        Answer::Clean { states } | Answer::Hung { states, .. } => Some(*states),
        Answer::Open { .. } => Some(limit),
        Answer::Found { .. } | Answer::Ended(_) => None,
    }
}

// Whether an answer says that no Step stores to the word.
fn says_unstored(answer: &Answer<Sight, Unknown>) -> bool
    ensures { result ≡ says_unstored answer.now }
{
    match answer {
        Answer::Found { verdict, .. } => match verdict {
            Sight::Store => false,
            Sight::Wrong(_) => true,
        },
        Answer::Clean { .. } | Answer::Hung { .. } | Answer::Open { .. } => true,
        Answer::Ended(_) => false,
    }
}

// Explores a machine for a store.
fn find_store<'a, T: Tlb + Drop, D: Console + Drop>(
    alloc: Global,
    boot: &'a Core<T, D>,
    goal: &'a Goal<'a>,
    known: Known,
    word: u32,
    limit: u32,
) -> Result<Answer<Sight, Unknown>, AllocError>
    requires asked { CanBeAsked boot.now.state goal.now }
    requires some { 0 < limit }
    ensures { IfOk result (Answers (storing_rules (question_of boot.now.state goal.now known) word) limit) }
{
    let machines = Machines::new(alloc, boot, goal, known);
    let storing = Storing { machines, word };
    explore(alloc, &storing, limit)
}

/// Whether no Step of a machine at boot stores to a word of RAM, in the lists of events of which an
/// exploration's answer is: the machine is explored once more, with as much of time being known, up to
/// as many states or the first such Step. Where a list has a verdict, nothing is said.
///
/// # Errors
/// Memory is refused.
pub fn is_unstored<'a, T: Tlb + Drop, D: Console + Drop>(
    alloc: Global,
    boot: &'a Core<T, D>,
    goal: &'a Goal<'a>,
    limit: u32,
    found: &Exploration,
    word: u32,
) -> Result<bool, AllocError>
    requires asked { CanBeAsked boot.now.state goal.now }
    requires some { 0 < limit }
    requires answers { Answers (rules_of (question_of boot.now.state goal.now found.now.known)) limit found.now.answer }
    ensures { IfOk result (TellsStores (question_of boot.now.state goal.now found.now.known) found.now.answer word) }
{
    match states_again(limit, &found.answer) {
        Some(states) => {
            let again = find_store(alloc, boot, goal, found.known, word, states)?;
            Ok(says_unstored(&again))
        }
        None => Ok(false),
    }
}
