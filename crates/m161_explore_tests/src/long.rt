//! A table whose states have long views.

ghost use Rattle.std.specs.Prelude.{◌≡◌, ℕ, ◌<◌, ◌++◌, OnOk, replicate};
ghost use Rattle.m161_explore_tests.specs.Long.{count_of, view_of};

use crate::table::{Table, behind};
use m161_explore::{Advanced, System};
use std::alloc::{AllocError, Global};

/// How a view shows its state.
#[derive(Clone, Copy)]
pub enum Shape {
    /// By a word, with so many others before it, and so many behind it.
    Marked(u8, u8),
    /// By the number of words: so many for the state 0, and for each further state 64 more, or 1 more.
    Counted(u8, bool),
}

/// The table, and its views.
#[derive(Clone, Copy)]
pub struct Long {
    pub table: Table,
    pub shape: Shape,
}

/// How many words a view has that shows its state by their number.
fn count_of(first: u8, whole: bool, state: u32) -> usize
    requires { state < 8 }
    ensures { result ≡ count_of first whole state }
{
    if whole {
        usize::from(first) + 64 * state as usize
    } else {
        usize::from(first) + state as usize
    }
}

/// Writes so many words that are all alike.
fn write_sevens(count: usize, words: &mut Vec<u32>) -> Result<(), AllocError>
    ensures { OnOk result (words.new.items ≡ words.old.items ++ replicate count 7) }
{
    for _ in 0..count {
        words.push(7)?;
    }
    Ok(())
}

/// Writes the words of a view.
fn write_view(shape: Shape, state: u32, words: &mut Vec<u32>) -> Result<(), AllocError>
    requires { state < 8 }
    ensures { OnOk result (words.new.items ≡ words.old.items ++ view_of shape state) }
{
    match shape {
        Shape::Marked(before, after) => {
            write_sevens(usize::from(before), words)?;
            words.push(state)?;
            write_sevens(usize::from(after), words)?;
            Ok(())
        }
        Shape::Counted(first, whole) => {
            write_sevens(count_of(first, whole, state), words)?;
            Ok(())
        }
    }
}

/// The state with a view.
fn read_view(shape: Shape, words: &[u32]) -> u32
    requires { (s : ℕ) × (s < 8) × (view_of shape s ≡ words.now) }
    ensures below { result < 8 }
    ensures is { view_of shape result ≡ words.now }
{
    match shape {
        Shape::Marked(before, _) => words[usize::from(before)],
        Shape::Counted(first, true) => ((words.len() - usize::from(first)) / 64) as u32,
        Shape::Counted(first, false) => (words.len() - usize::from(first)) as u32,
    }
}

impl System for Long {
    ghost use Rattle.std.specs.Prelude.{◌≡◌, ℕ, ◌<◌, ◌==◌, refl};
    ghost use Rattle.std.proofs.Common.{ap, sym, ◌∙◌};
    ghost use Rattle.m161_explore_tests.specs.Long.{long_rules, next_below, same_view, zero_below};
    ghost use Rattle.m161_explore_tests.specs.Table.{next_of, stop_of, verdict_of};

    type State = u32;

    /// The state whose event it is.
    type Verdict = u32;

    /// The event.
    type Reason = u32;

    ghost Seen = { ℕ };

    ghost seen = { λ s. s };

    ghost rules = { long_rules };

    ghost is_valid = { λ m s. s < 8 };

    ghost is_ready = { λ m s. Unit {0} };

    fn width(&self) -> u32 {
        2
    }

    fn start(&self, _alloc: Global) -> Result<u32, AllocError> {
        Ok(0)
    }

    fn refuses(&self, state: &u32, event: u32) -> bool {
        *state != self.table.stop && behind(&self.table, *state, event) >= 8
    }

    fn advance(&self, state: &mut u32, event: u32) -> Result<Advanced<u32, u32>, AllocError> {
        let at = *state;
        if at == self.table.stop {
            return Ok(Advanced::Stopped(event));
        }
        let next = behind(&self.table, at, event);
        if next >= 8 {
            return Ok(Advanced::Refused);
        }
        if at == self.table.wrong && event == 1 {
            return Ok(Advanced::Judged(at));
        }
        *state = next;
        Ok(Advanced::Passed)
    }

    fn encode(&self, state: &mut u32, words: &mut Vec<u32>) -> Result<(), AllocError> {
        write_view(self.shape, *state, words)
    }

    fn restore(&self, state: &mut u32, words: &[u32]) -> Result<(), AllocError> {
        *state = read_view(self.shape, words);
        Ok(())
    }

    fn is_end(&self, state: &u32) -> bool {
        *state == self.table.end
    }

    ghost valid_start = { λ m. zero_below };

    ghost valid_next = { λ m s t e v h. next_below m s t e h };

    ghost alike_stop = { λ m s t e p q h. ap (λ x. stop_of m.table x e) (same_view m.shape s t h) };

    ghost alike_next = { λ m s t u e p q h g n. (u, ap (λ x. next_of m.table x e) (sym (same_view m.shape s t h)) ∙ n, refl) };

    ghost alike_verdict = { λ m s t e p q h g. ap (λ x. verdict_of m.table x e) (same_view m.shape s t h) };

    ghost alike_end = { λ m s t p q h. ap (λ x. x == m.table.end) (same_view m.shape s t h) };
}
