//! Several Steps in a row.

ghost use Rattle.std.specs.Prelude.{◌≡◌, ◌-◌, ◌<◌, ◌≤◌, ◌^◌, false, length, drop, take, MatchOption, Err};
ghost use Rattle.m161_machine.specs.declared.event.Event.TheVariants as events;
ghost use Rattle.m161_machine.specs.State.{KeepsSizes, next};
ghost use Rattle.m161_machine.specs.History.{events_of};
ghost use Rattle.m161_machine.specs.Stretch.{Advances, ArePlanned, IsStretch};

use crate::event::Refusal;
use crate::packed::PackedEntry;
use crate::state::Core;
use m161_bus::Console;
use m161_tlb::Tlb;

impl<T: Tlb, D: Console> Core<T, D> {
    /// Makes Steps of a processor, one after the other, and writes an entry into each place, until
    /// each has one or a Step is refused. Returns how many were made, and the refusal. The same as
    /// this many calls of `step`, in less time.
    pub fn steps(&mut self, p: u32, entries: &mut [PackedEntry]) -> (usize, Option<Refusal>)
        ensures advances { Advances p self.old.state (take result.0 entries.new) self.new.state }
        ensures end { MatchOption result.1 (result.0 ≡ length entries.old)
            (λ r. (result.0 < length entries.old) × (next self.new.state (events.Step p) ≡ Err r)) }
        ensures length { length entries.new ≡ length entries.old }
        ensures sizes { KeepsSizes self.old.state self.new.state }
        ensures room { self.new.room ≡ self.old.room }
    {
        if entries.is_empty() {
            return (0, None);
        }
        if let Some(refusal) = self.refusal(p) {
            return (0, Some(refusal));
        }
        let most = self.before_worn(entries.len());
        let (first, _) = entries.split_at_mut(most);
        let made = self.advance(p, first);
        if made == entries.len() {
            (made, None)
        } else if self.is_off() {
            (made, Some(Refusal::Off))
        } else {
            (made, Some(Refusal::Worn))
        }
    }

    /// Makes the Steps that these places name, one after the other, and writes each one's entry into
    /// its place: at least one, and none behind the first that isn't plain. Returns how many were
    /// made. The places behind them stay as they were.
    pub fn stretch(&mut self, places: &mut [PackedEntry]) -> usize
        requires planned { ArePlanned (length self.old.state.processors) places.old }
        requires some { 1 ≤ length places.old }
        requires on { self.old.state.board.off ≡ false }
        requires few { self.old.state.made < 2 ^ 63 - 1 }
        ensures stretch { IsStretch self.old.state (take result places.new) self.new.state }
        ensures steps { events_of (take result places.new) ≡ events_of (take result places.old) }
        ensures behind { drop result places.new ≡ drop result places.old }
        ensures some { (1 ≤ result) × (result ≤ length places.old) }
        ensures length { length places.new ≡ length places.old }
        ensures sizes { KeepsSizes self.old.state self.new.state }
        ensures room { self.new.room ≡ self.old.room }
    {
        let most = self.before_worn(places.len());
        let (first, _) = places.split_at_mut(most);
        self.make_planned(first, true)
    }
}
