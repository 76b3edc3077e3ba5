//! The choice of the next event.

ghost use Rattle.std.specs.Prelude.{◌≡◌, ◌≢◌, ◌⊎◌, ◌+◌, ◌-◌, ◌<◌, ◌≤◌, ◌^◌, IfSome, MatchOption, slice_get, length, Some};
ghost use Rattle.m161_order.specs.Delays.{delays_of};
ghost use Rattle.m161_drive.specs.declared.orders.OrderState.TheVariants.{ByDelays};
ghost use Rattle.m161_drive.specs.Delayed.{DelayState};
ghost use Rattle.m161_drive.specs.GoingOn.{IsWithLeft};
ghost use Rattle.m161_drive.specs.Choice.{chosen, chosen_with, cursor_at, filled_after, gap_is_over, key_is_due, next_step, since_filled, taken, transfer_ends, wants_key};
ghost use Rattle.m161_drive.specs.helpers.Drive.{AreUnsent, IsPlan, IsUntyped, LeavesRoom, MayGoOnBy, with_more_steps};

use crate::orders::OrderState;
use crate::policy::Policy;
use crate::ready::{next_ticking, some_ready};
use m161_bus::Console;
use m161_machine::{Core, Event, PackedEntry};
use m161_order::Delays;
use m161_tlb::Tlb;

/// What a policy has to know of the run so far. The policy and the machine are those that it was
/// made for, each time.
#[derive(Drop)]
pub struct Cursor {
    // How many keys were chosen.
    typed: usize,
    // How many events the machine had accepted at the last key, or at the start.
    keyed: u64,
    // How many it had accepted when the byte in the latch came there, if there is one.
    filled: Option<u64>,
    // The processor of the last Step.
    last: Option<u32>,
    order: OrderState,
}

// When the byte in the latch came there, if there is one.
#[inline(always)]
fn filled_after(latch: Option<u8>, filled: Option<u64>, made: u64) -> Option<u64>
    ensures { result ≡ filled_after latch filled made }
{
    match latch {
        Some(_) => match filled {
            Some(at) => Some(at),
            None => Some(made),
        },
        None => None,
    }
}

impl Cursor {
    /// A new cursor, for a run from a state on. It has typed no key. A byte that is in
    /// the latch has just come there.
    pub fn new<T: Tlb, D: Console>(policy: &Policy, core: &Core<T, D>) -> Cursor
        ensures { result ≡ cursor_at policy.now core.now.state }
    {
        core.law();
        let made = core.made();
        Cursor {
            typed: 0,
            keyed: made,
            filled: filled_after(core.latch(), None, made),
            last: None,
            order: OrderState::start(policy.order(), core.processors()),
        }
    }

    /// The same cursor with these delays, seen from the next choice; none if the order has no delays.
    pub fn with_left(&self, left: Delays) -> Option<Cursor>
        ensures { MatchOption result ((d : DelayState) → self.now.order ≢ ByDelays d)
            (λ cursor. IsWithLeft self.now (delays_of left) cursor) }
    {
        match self.order.with_left(left) {
            Some(order) => Some(Cursor {
                typed: self.typed,
                keyed: self.keyed,
                filled: self.filled,
                last: self.last,
                order,
            }),
            None => None,
        }
    }

    /// How many keys it has chosen.
    pub fn typed(&self) -> usize
        ensures { result ≡ self.now.typed }
    {
        self.typed
    }

    // How many events were accepted after the one that filled the latch.
    fn since_filled<T: Tlb, D: Console>(&self, core: &Core<T, D>) -> u64
        ensures { result ≡ since_filled self.now.filled core.now.state }
    {
        match self.filled {
            Some(at) => core.made().saturating_sub(at),
            None => 0,
        }
    }

    // Whether the byte in the latch is sent now.
    #[inline(always)]
    fn transfer_ends<T: Tlb, D: Console>(&self, policy: &Policy, core: &Core<T, D>) -> bool
        ensures { result ≡ transfer_ends policy.now self.now core.now.state }
    {
        core.latch().is_some()
            && (self.since_filled(core) >= u64::from(policy.transfer()) || !some_ready(core))
    }

    // Whether so many events were accepted after the last key as the policy wants.
    fn gap_is_over<T: Tlb, D: Console>(&self, policy: &Policy, core: &Core<T, D>) -> bool
        ensures { result ≡ gap_is_over policy.now.gap self.now core.now.state }
    {
        match policy.gap() {
            Some(gap) => core.made().saturating_sub(self.keyed) >= u64::from(gap),
            None => false,
        }
    }

    // Whether there is room for a key, and it is time for one.
    fn key_is_due<T: Tlb, D: Console>(&self, policy: &Policy, core: &Core<T, D>) -> bool
        ensures { result ≡ key_is_due policy.now self.now core.now.state }
    {
        core.waiting() < 256 && (self.gap_is_over(policy, core) || !some_ready(core))
    }

    /// Whether a key is the next event, if there is a key.
    pub fn wants_key<T: Tlb, D: Console>(&self, policy: &Policy, core: &Core<T, D>) -> bool
        ensures { result ≡ wants_key policy.now self.now core.now.state }
    {
        !self.transfer_ends(policy, core) && self.key_is_due(policy, core)
    }

    // The next Step, if a processor is ready or ticking.
    #[inline(always)]
    fn next_step<T: Tlb, D: Console>(&mut self, core: &Core<T, D>) -> Option<Event>
        ensures event { result ≡ (next_step self.old core.now.state).0 }
        ensures after { self.new ≡ (next_step self.old core.now.state).1 }
    {
        if let Some(p) = self.order.choose(self.last, core) {
            self.last = Some(p);
            return Some(Event::Step(p));
        }
        match next_ticking(core, self.last) {
            Some(p) => {
                self.order.interrupt();
                self.last = Some(p);
                Some(Event::Step(p))
            }
            None => None,
        }
    }

    /// The event that the policy chooses in a state, if the next key is this one. None
    /// if there is nothing to do: the run is stuck. Of the same choice made again an order at random
    /// has another outcome, since its words are drawn.
    #[inline(always)]
    #[tactic(auto, unfolding(crate::specs::Choice::chosen_with))]
    pub fn choose_with<T: Tlb, D: Console>(
        &mut self,
        policy: &Policy,
        core: &Core<T, D>,
        key: Option<u8>,
    ) -> Option<Event>
        requires { IfSome key (λ _. self.old.typed < 2 ^ 64 - 1) }
        ensures event { result ≡ (chosen_with policy.now key self.old core.now.state).0 }
        ensures after { self.new ≡ (chosen_with policy.now key self.old core.now.state).1 }
    {
        if self.transfer_ends(policy, core) {
            return Some(Event::Done);
        }
        if let Some(byte) = key {
            if self.key_is_due(policy, core) {
                self.typed += 1;
                return Some(Event::Key(byte));
            }
        }
        self.next_step(core)
    }

    /// The event that the policy chooses in a state, by its own keys.
    #[inline(always)]
    pub fn choose<T: Tlb, D: Console>(
        &mut self,
        policy: &Policy,
        core: &Core<T, D>,
    ) -> Option<Event>
        ensures event { result ≡ (chosen policy.now self.old core.now.state).0 }
        ensures after { self.new ≡ (chosen policy.now self.old core.now.state).1 }
    {
        let key = policy.key(self.typed);
        self.choose_with(policy, core, key)
    }

    /// The chosen event was accepted, and led to this state.
    #[inline(always)]
    pub fn took<T: Tlb, D: Console>(&mut self, event: Event, core: &Core<T, D>)
        ensures { self.new ≡ taken event core.now.state self.old }
    {
        if let Event::Key(_) = event {
            self.keyed = core.made();
        }
        self.filled = filled_after(core.latch(), self.filled, core.made());
    }

    // How many Steps may come before a byte is sent; 0 where that isn't known.
    fn until_sent<T: Tlb, D: Console>(&self, policy: &Policy, core: &Core<T, D>) -> u64
        ensures { (result ≡ 0) ⊎ AreUnsent policy.now self.now core.now.state result }
    {
        match core.latch() {
            Some(_) => match self.filled {
                Some(_) => u64::from(policy.transfer()).saturating_sub(self.since_filled(core)),
                None => 0,
            },
            None => match self.filled {
                Some(_) => 0,
                None => u64::MAX,
            },
        }
    }

    // How many Steps may come before this key is typed; 0 where that isn't known.
    fn until_typed<T: Tlb, D: Console>(
        &self,
        policy: &Policy,
        core: &Core<T, D>,
        key: Option<u8>,
    ) -> u64
        ensures { (result ≡ 0)
            ⊎ IsUntyped key policy.now.gap self.now core.now.state result }
    {
        let Some(_) = key else {
            return u64::MAX;
        };
        match policy.gap() {
            Some(gap) => {
                if core.waiting() < 256 {
                    u64::from(gap).saturating_sub(core.made().saturating_sub(self.keyed))
                } else {
                    u64::MAX
                }
            }
            None => u64::MAX,
        }
    }

    // Behind the choice of a Step: of how many events, this one the first of them, and of so many at
    // most, each is a Step, as long as the board stays as it is and some processor is ready.
    #[inline(always)]
    fn steps_at_once<T: Tlb, D: Console>(
        &self,
        policy: &Policy,
        core: &Core<T, D>,
        key: Option<u8>,
        most: usize,
    ) -> usize
        requires { 1 ≤ most }
        ensures some { (1 ≤ result) × (result ≤ most) }
        ensures room { (result ≡ 1) ⊎ LeavesRoom policy.now key self.now core.now.state result }
    {
        let free = self
            .until_sent(policy, core)
            .min(self.until_typed(policy, core, key))
            .min(most as u64);
        if free == 0 { 1 } else { free as usize }
    }

    /// Behind the choice of a Step of processor `p`: plans it, and those that are chosen behind it as
    /// long as each is plain, into the first places. Returns how many.
    #[inline(always)]
    pub(crate) fn plan<T: Tlb, D: Console>(
        &self,
        policy: &Policy,
        core: &Core<T, D>,
        key: Option<u8>,
        p: u32,
        places: &mut [PackedEntry],
    ) -> usize
        requires some { 1 ≤ length places.old }
        requires small { p < 32 }
        ensures plan { IsPlan self.now.order p core.now.state result places.new }
        ensures room { (result ≡ 1) ⊎ LeavesRoom policy.now key self.now core.now.state result }
        ensures some { (1 ≤ result) × (result ≤ length places.old) }
        ensures length { length places.new ≡ length places.old }
    {
        let most = self.steps_at_once(policy, core, key, places.len());
        let (first, _) = places.split_at_mut(most);
        self.order.plan(core, p, first)
    }

    /// The chosen Step was accepted, and so were this many planned ones behind it, the last of them of
    /// processor `last`; they led to this state.
    #[inline(always)]
    pub(crate) fn took_steps<T: Tlb, D: Console>(
        &mut self,
        more: usize,
        last: u32,
        core: &Core<T, D>,
    )
        requires { MayGoOnBy more self.old.order }
        ensures { self.new ≡ with_more_steps more last core.now.state self.old }
    {
        self.order.go_on(more);
        self.last = Some(last);
        self.filled = filled_after(core.latch(), self.filled, core.made());
    }
}
