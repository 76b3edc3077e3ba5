//! The words of watches.

ghost use Rattle.std.specs.Prelude.{◌<◌, IfOk};
ghost use Rattle.m161_explore.specs.Answers.{Answers};
ghost use Rattle.m161_reach.specs.Reach.{CanBeAsked, question_of, rules_of};
ghost use Rattle.m161_stores.specs.Stores.{TellsStores};
ghost use Rattle.m161_stores.specs.Watches.{AreUnstored};

use crate::find::is_unstored;
use m161_audit::Watch;
use m161_bus::Console;
use m161_judge::Goal;
use m161_machine::Core;
use m161_reach::Exploration;
use m161_tlb::Tlb;
use std::alloc::{AllocError, Global};

/// To which words of a watch no Step stores.
#[derive(Clone, Copy, Debug, PartialEq, Eq)]
pub struct Unstored {
    /// None to that of the page table's entry.
    pub pte: bool,
    /// None to that which marks the end.
    pub done: bool,
}

// The same of one watch.
fn unstored_of<'a, T: Tlb + Drop, D: Console + Drop>(
    alloc: Global,
    boot: &'a Core<T, D>,
    goal: &'a Goal<'a>,
    limit: u32,
    found: &Exploration,
    watch: &Watch,
) -> Result<Unstored, AllocError>
    requires asked { CanBeAsked boot.now.state goal.now }
    requires some { 0 < limit }
    requires answers { Answers (rules_of (question_of boot.now.state goal.now found.now.known)) limit found.now.answer }
    ensures pte { IfOk result (λ unstored.
        TellsStores (question_of boot.now.state goal.now found.now.known) found.now.answer watch.now.pte unstored.pte) }
    ensures done { IfOk result (λ unstored.
        TellsStores (question_of boot.now.state goal.now found.now.known) found.now.answer watch.now.done unstored.done) }
{
    Ok(Unstored {
        pte: is_unstored(alloc, boot, goal, limit, found, watch.pte)?,
        done: is_unstored(alloc, boot, goal, limit, found, watch.done)?,
    })
}

/// Of each watch of what is asked, to which of its words no Step stores, in the lists of events of which an
/// exploration's answer is.
///
/// # Errors
/// Memory is refused.
pub fn unstored_watches<'a, T: Tlb + Drop, D: Console + Drop>(
    alloc: Global,
    boot: &'a Core<T, D>,
    goal: &'a Goal<'a>,
    limit: u32,
    found: &Exploration,
) -> Result<Vec<Unstored>, AllocError>
    requires asked { CanBeAsked boot.now.state goal.now }
    requires some { 0 < limit }
    requires answers { Answers (rules_of (question_of boot.now.state goal.now found.now.known)) limit found.now.answer }
    ensures { IfOk result (λ unstored.
        AreUnstored (TellsStores (question_of boot.now.state goal.now found.now.known) found.now.answer)
        goal.now.watches unstored.items) }
{
    let watches = goal.watches;
    let mut unstored = Vec::new(alloc);
    for i in 0..watches.len() {
        unstored.push(unstored_of(alloc, boot, goal, limit, found, &watches[i])?)?;
    }
    Ok(unstored)
}
