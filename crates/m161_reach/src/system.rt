//! Machines as a system that is explored.

use crate::hand::Hand;
use crate::machines::Machines;
use m161_bus::Console;
use m161_explore::{Advanced, System};
use m161_states::{EventVerdict, Unknown};
use m161_tlb::Tlb;
use std::alloc::{AllocError, Global};

impl<'a, T: Tlb + Drop, D: Console + Drop> System for Machines<'a, T, D> {
    ghost use Rattle.m161_states.specs.System.{Explored};
    ghost use Rattle.m161_reach.specs.Reach.{IsMet, rules_of};
    ghost use Rattle.m161_reach.specs.Hand.{InHand, IsReady};
    ghost use Rattle.m161_reach.specs.Met.{alike_end, alike_next, alike_stop, alike_verdict, met_next, met_start};

    type State = Hand<T, D>;

    type Verdict = EventVerdict;

    type Reason = Unknown;

    ghost Seen = { Explored };

    ghost seen = { λ (h : InHand). h.place };

    ghost rules = { rules_of };

    ghost is_valid = { IsMet };

    ghost is_ready = { IsReady };

    fn width(&self) -> u32 {
        Machines::width(self)
    }

    fn start(&self, alloc: Global) -> Result<Hand<T, D>, AllocError> {
        self.first_in_hand(alloc)
    }

    fn refuses(&self, state: &Hand<T, D>, event: u32) -> bool {
        Machines::refuses(self, &state.place, event)
    }

    fn advance(
        &self,
        state: &mut Hand<T, D>,
        event: u32,
    ) -> Result<Advanced<EventVerdict, Unknown>, AllocError> {
        Machines::advance(self, state, event)
    }

    fn encode(&self, state: &mut Hand<T, D>, words: &mut Vec<u32>) -> Result<(), AllocError> {
        self.write(state, words)
    }

    fn restore(&self, state: &mut Hand<T, D>, words: &[u32]) -> Result<(), AllocError> {
        Machines::restore(self, state, words)
    }

    fn is_end(&self, state: &Hand<T, D>) -> bool {
        self.ends_at(&state.place)
    }

    ghost valid_start = { met_start };

    ghost valid_next = { met_next };

    ghost alike_stop = { alike_stop };

    ghost alike_next = { alike_next };

    ghost alike_verdict = { alike_verdict };

    ghost alike_end = { alike_end };
}
