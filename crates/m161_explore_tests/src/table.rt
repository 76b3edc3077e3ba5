//! A system that is a table.

ghost use Rattle.std.specs.Prelude.{◌≡◌};
ghost use Rattle.m161_explore_tests.specs.Table.{place_behind};

use m161_explore::{Advanced, System};
use std::alloc::{AllocError, Global};

/// Eight states, of which 0 is the first, with two events each.
#[derive(Clone, Copy)]
pub struct Table {
    /// Where the event 0 of each state leads: 8 for nowhere.
    pub first: [u32; 8],
    /// Where the event 1 of each state leads.
    pub second: [u32; 8],
    /// The state that is an end.
    pub end: u32,
    /// The state whose event 1 has a verdict, where it is accepted.
    pub wrong: u32,
    /// The state whose events stop the exploration.
    pub stop: u32,
}

/// Where an event of a state leads.
pub fn behind(table: &Table, state: u32, event: u32) -> u32
    ensures { result ≡ place_behind table.now state event }
{
    let at = state as usize;
    if at >= 8 {
        return 8;
    }
    if event == 0 {
        table.first[at]
    } else {
        table.second[at]
    }
}

impl System for Table {
    ghost use Rattle.std.specs.Prelude.{◌≡◌, ℕ, ◌==◌, refl};
    ghost use Rattle.std.proofs.Common.{ap, sym, ◌∙◌};
    ghost use Rattle.m161_explore_tests.specs.Table.{next_of, same_place, stop_of, table_rules, verdict_of};

    type State = u32;

    /// The state whose event it is.
    type Verdict = u32;

    /// The event.
    type Reason = u32;

    ghost Seen = { ℕ };

    ghost seen = { λ s. s };

    ghost rules = { table_rules };

    ghost is_valid = { λ m s. Unit {0} };

    ghost is_ready = { λ m s. Unit {0} };

    fn width(&self) -> u32 {
        2
    }

    fn start(&self, _alloc: Global) -> Result<u32, AllocError> {
        Ok(0)
    }

    fn refuses(&self, state: &u32, event: u32) -> bool {
        *state != self.stop && behind(self, *state, event) >= 8
    }

    fn advance(&self, state: &mut u32, event: u32) -> Result<Advanced<u32, u32>, AllocError> {
        let at = *state;
        if at == self.stop {
            return Ok(Advanced::Stopped(event));
        }
        let next = behind(self, at, event);
        if next >= 8 {
            return Ok(Advanced::Refused);
        }
        if at == self.wrong && event == 1 {
            return Ok(Advanced::Judged(at));
        }
        *state = next;
        Ok(Advanced::Passed)
    }

    fn encode(&self, state: &mut u32, words: &mut Vec<u32>) -> Result<(), AllocError> {
        words.push(*state)?;
        Ok(())
    }

    fn restore(&self, state: &mut u32, words: &[u32]) -> Result<(), AllocError> {
        if words.len() == 1 {
            *state = words[0];
        }
        Ok(())
    }

    fn is_end(&self, state: &u32) -> bool {
        *state == self.end
    }

    ghost valid_start = { λ m. tt };

    ghost valid_next = { λ m s t e v h. tt };

    ghost alike_stop = { λ m s t e p q h. ap (λ x. stop_of m x e) (same_place s t h) };

    ghost alike_next = { λ m s t u e p q h g n. (u, ap (λ x. next_of m x e) (sym (same_place s t h)) ∙ n, refl) };

    ghost alike_verdict = { λ m s t e p q h g. ap (λ x. verdict_of m x e) (same_place s t h) };

    ghost alike_end = { λ m s t p q h. ap (λ x. x == m.end) (same_place s t h) };
}
