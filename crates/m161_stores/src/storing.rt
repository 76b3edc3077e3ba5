//! Machines as a system that is explored for a store.

ghost use Rattle.std.specs.Prelude.{◌≡◌, ◌==◌};
ghost use Rattle.m161_stores.specs.Runs.{is_word};
ghost use Rattle.m161_stores.specs.helpers.Storing.{sight_of};

use m161_bus::Console;
use m161_explore::{Advanced, System};
use m161_reach::{Hand, Machines};
use m161_states::{EventVerdict, Unknown};
use m161_tlb::Tlb;
use std::alloc::{AllocError, Global};

/// What ends an exploration for a store.
#[derive(Clone, Copy, Debug, PartialEq, Eq)]
pub enum Sight {
    /// The Step stores to the word.
    Store,
    /// It doesn't, and this is wrong with the event.
    Wrong(EventVerdict),
}

/// Machines, and the word.
#[derive(Drop)]
pub struct Storing<'a, T: Tlb, D: Console> {
    pub machines: Machines<'a, T, D>,
    pub word: u32,
}

/// Whether a store is one to this word.
pub fn is_word(word: u32, stored: Option<u32>) -> bool
    ensures { result ≡ is_word word stored }
{
    match stored {
        Some(other) => other == word,
        None => false,
    }
}

// What an event comes to, by what it comes to for the machine.
fn sight_of(stores: bool, came: Advanced<EventVerdict, Unknown>) -> Advanced<Sight, Unknown>
    ensures { result ≡ sight_of stores came }
{
    match came {
        Advanced::Refused => Advanced::Refused,
        Advanced::Passed => {
            if stores {
                Advanced::Judged(Sight::Store)
            } else {
                Advanced::Passed
            }
        }
        Advanced::Judged(what) => {
            if stores {
                Advanced::Judged(Sight::Store)
            } else {
                Advanced::Judged(Sight::Wrong(what))
            }
        }
        Advanced::Stopped(reason) => Advanced::Stopped(reason),
    }
}

impl<'a, T: Tlb + Drop, D: Console + Drop> System for Storing<'a, T, D> {
    ghost use Rattle.m161_states.specs.System.{Explored};
    ghost use Rattle.m161_reach.specs.Reach.{IsMet};
    ghost use Rattle.m161_reach.specs.Hand.{InHand, IsReady};
    ghost use Rattle.m161_stores.specs.helpers.Storing.{storing_rules};
    ghost use Rattle.m161_stores.specs.helpers.Met.{alike_end, alike_next, alike_stop, alike_verdict, met_next, met_start};

    type State = Hand<T, D>;

    type Verdict = Sight;

    type Reason = Unknown;

    ghost Seen = { Explored };

    ghost seen = { λ (h : InHand). h.place };

    ghost rules = { λ m. storing_rules m.machines m.word };

    ghost is_valid = { λ m. IsMet m.machines };

    ghost is_ready = { λ m. IsReady m.machines };

    fn width(&self) -> u32 {
        self.machines.width()
    }

    fn start(&self, alloc: Global) -> Result<Hand<T, D>, AllocError> {
        self.machines.first_in_hand(alloc)
    }

    fn refuses(&self, state: &Hand<T, D>, event: u32) -> bool {
        System::refuses(&self.machines, state, event)
    }

    fn advance(
        &self,
        state: &mut Hand<T, D>,
        event: u32,
    ) -> Result<Advanced<Sight, Unknown>, AllocError> {
        let stored = self.machines.stores_to(state, event);
        let came = Machines::advance(&self.machines, state, event)?;
        Ok(sight_of(is_word(self.word, stored), came))
    }

    fn encode(&self, state: &mut Hand<T, D>, words: &mut Vec<u32>) -> Result<(), AllocError> {
        self.machines.write(state, words)
    }

    fn restore(&self, state: &mut Hand<T, D>, words: &[u32]) -> Result<(), AllocError> {
        Machines::restore(&self.machines, state, words)
    }

    fn is_end(&self, state: &Hand<T, D>) -> bool {
        System::is_end(&self.machines, state)
    }

    ghost valid_start = { λ m. met_start m.machines m.word };

    ghost valid_next = { λ m. met_next m.machines m.word };

    ghost alike_stop = { λ m. alike_stop m.machines m.word };

    ghost alike_next = { λ m. alike_next m.machines m.word };

    ghost alike_verdict = { λ m. alike_verdict m.machines m.word };

    ghost alike_end = { λ m. alike_end m.machines m.word };
}
