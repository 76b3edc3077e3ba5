//! The passes over the blocks of a list.

ghost use Rattle.std.specs.Prelude.{◌≡◌, ◌⊎◌, ◌≤◌, ◌<◌, false, nat_lt, length, IfOk, OnOk};
ghost use Rattle.m161_shorten.specs.Blocks.{blocks};
ghost use Rattle.m161_shorten.specs.Passes.{first_place, MakesTrials, Shortens};
ghost use Rattle.m161_shorten.specs.Verdicts.{AreNeeded, AreSame, KeepsCut, NeedsAll};
ghost use Rattle.m161_shorten.specs.helpers.Tries.{Moves};

use crate::judge::Judge;
use crate::ranges::{block_end, start_of};
use crate::trial::try_start;
use m161_machine::Event;
use std::marker::Model;

/// The most lists that are judged.
const MOST_TRIALS: u32 = 2_000;

// Where the passes are.
#[derive(Drop)]
struct Passes {
    events: Vec<Event>,
    // the block at which lists are tried next, and where it begins
    block: usize,
    start: usize,
    // whether one was taken in this pass
    taken: bool,
    // how many may still be tried
    left: u32,
}

impl Model for Passes {
    ghost use Rattle.m161_shorten.specs.Passes.{Place};
    ghost use Rattle.m161_shorten.specs.helpers.Ranges.{IsStart};

    ghost Value = { Place };

    ghost view = { λ s. record {
      events = s.events.items;
      block = s.block;
      taken = s.taken;
      left = s.left;
    } };

    ghost invariant = { λ s. IsStart s.block s.events.items s.start };
}

impl Passes {
    fn new(events: Vec<Event>) -> Passes
        ensures { result ≡ first_place events.items }
    {
        Passes {
            events,
            block: 0,
            start: 0,
            taken: false,
            left: MOST_TRIALS,
        }
    }

    // Whether the list has the block.
    fn has_block(&self) -> bool
        ensures { result ≡ nat_lt self.now.block (length (blocks self.now.events)) }
    {
        self.start < self.events.len()
    }

    // Makes the trials at the block.
    fn try_block<J: Judge>(&mut self, judge: &mut J, kind: J::Kind) -> Result<(), J::Error>
        requires left { 0 < self.old.left }
        requires some { self.old.block < length (blocks self.old.events) }
        ensures tried { OnOk result (MakesTrials (J.Kind.eq kind) (J.judges judge.old) self.old self.new) }
        ensures same { AreSame (J.judges judge.old) (J.judges judge.new) }
    {
        let tried = try_start(judge, kind, &mut self.events, self.start, self.left)?;
        self.left -= tried.judged;
        if tried.taken {
            self.taken = true;
            self.start = start_of(&self.events, self.block);
        } else {
            self.start = block_end(&self.events, self.start);
            self.block += 1;
        }
        Ok(())
    }

    // Begins another pass.
    fn begin(&mut self)
        ensures { self.new ≡ record self.old { block = 0; taken = false } }
    {
        self.block = 0;
        self.start = 0;
        self.taken = false;
    }

    // Goes on to the next place; false if there is none.
    #[tactic(auto, unfolding(crate::specs::Passes::GoesTo))]
    fn go_on<J: Judge>(&mut self, judge: &mut J, kind: J::Kind) -> Result<bool, J::Error>
        ensures moves { IfOk result (λ more. Moves (J.Kind.eq kind) (J.judges judge.old) self.old more self.new) }
        ensures same { AreSame (J.judges judge.old) (J.judges judge.new) }
    {
        if self.left == 0 {
            return Ok(false);
        }
        if self.has_block() {
            self.try_block(judge, kind)?;
            return Ok(true);
        }
        if !self.taken {
            return Ok(false);
        }
        self.begin();
        Ok(true)
    }
}

/// Joins blocks of a list of events for as long as its verdict stays of a kind, in passes over the
/// blocks (`Shortens`), at most 2,000 lists in all. The list itself isn't judged: `kind` is for the
/// caller to know, who has cut the list behind its verdict.
///
/// # Errors
/// A list couldn't be judged. The events are lost.
pub fn shorten<J: Judge>(
    judge: &mut J,
    kind: J::Kind,
    events: Vec<Event>,
) -> Result<Vec<Event>, J::Error>
    ensures passes { IfOk result (λ shorter. Shortens (J.Kind.eq kind) (J.judges judge.old)
        events.items shorter.items) }
    // Either nothing was taken, or the events are what the verdict on a list that was judged needs.
    ensures judged { IfOk result (λ shorter. (shorter.items ≡ events.items)
        ⊎ AreNeeded (J.Kind.eq kind) (J.judges judge.old) shorter.items) }
    ensures blocks { IfOk result (λ shorter. length (blocks shorter.items) ≤ length (blocks events.items)) }
    ensures events { IfOk result (λ shorter. length shorter.items ≤ length events.items) }
    // A list that goes wrong at its end still does.
    ensures needed { IfOk result (λ shorter. KeepsCut (J.Kind.eq kind) (J.judges judge.old)
        → NeedsAll (J.Kind.eq kind) (J.judges judge.old) events.items
        → NeedsAll (J.Kind.eq kind) (J.judges judge.old) shorter.items) }
    ensures same { AreSame (J.judges judge.old) (J.judges judge.new) }
{
    let mut passes = Passes::new(events);
    loop {
        if !passes.go_on(judge, kind)? {
            return Ok(passes.events);
        }
    }
}
