//! The orders, as a run goes on.

ghost use Rattle.std.specs.Prelude.{◌≡◌, ◌≢◌, ◌<◌, ◌≤◌, length, MatchOption, None, Some};
ghost use Rattle.m161_order.specs.Delays.{delays_of};
ghost use Rattle.m161_drive.specs.Delayed.{DelayState};
ghost use Rattle.m161_drive.specs.helpers.Left.{HasLeft};
ghost use Rattle.m161_drive.specs.Orders.{by_order, by_words, interrupted, one_of, order_at_start};
ghost use Rattle.m161_drive.specs.Words.{after_words};
ghost use Rattle.m161_drive.specs.declared.orders.OrderState.TheVariants.{AtRandom, ByDelays};
ghost use Rattle.m161_drive.specs.helpers.Drive.{IsPlan, MayGoOnBy, MayPlanBehind, PlansBehind, gone_on};
ghost use Rattle.m161_order.specs.Order.{order_fault};

use crate::delayed::DelayedTurns;
use crate::ranking::Ranking;
use crate::ready::{is_ready, list_ready};
use crate::turns::{CHOICES, Turns};
use crate::words::{below, seeded};
use m161_bus::Console;
use m161_machine::{Core, PackedEntry};
use m161_order::{Delays, Order};
use m161_tlb::Tlb;
use rand_pcg::Pcg32;

/// An order, with what it has to know of the run so far.
#[derive(Drop)]
pub(crate) enum OrderState {
    /// In turns.
    InTurns(Turns),
    /// In turns, with delays.
    ByDelays(DelayedTurns),
    /// By the words to come.
    AtRandom(Pcg32),
    /// By priorities.
    ByPriority(Ranking),
}

// One of these processors, by the next word.
#[inline(always)]
fn one_of(generator: &mut Pcg32, processors: &[u8]) -> u32
    requires { (1 ≤ length processors.now) × (length processors.now ≤ 32) }
    ensures { (Some result, generator.new) ≡ one_of processors.now generator.old }
{
    let place = below(generator, processors.len() as u32);
    u32::from(processors[place as usize])
}

// A ready processor by the next word; no word is drawn if none is ready.
fn by_words<T: Tlb, D: Console>(generator: &mut Pcg32, core: &Core<T, D>) -> Option<u32>
    ensures { (result, generator.new) ≡ by_words generator.old core.now.state }
{
    // For LLVM: room of this function, since bytes that were just written would be slow to copy.
    let mut processors = [0; 32];
    let count = list_ready(core, &mut processors);
    if count == 0 {
        return None;
    }
    Some(one_of(generator, &processors[..count]))
}

// Plans the Steps behind one of processor `p`, by words that aren't drawn yet. Returns how many.
fn plan_by_words<T: Tlb, D: Console>(
    generator: &Pcg32,
    core: &Core<T, D>,
    p: u32,
    places: &mut [PackedEntry],
) -> usize
    ensures { PlansBehind (AtRandom generator.now) p core.now.state places.old result places.new }
{
    core.law();
    let mut processors = [0; 32];
    let count = list_ready(core, &mut processors);
    let Ok(mut words) = generator.clone() else {
        return 0;
    };
    if count == 0 {
        return 0;
    }
    let most = places.len().min(CHOICES);
    for place in 0..most {
        places[place] = PackedEntry::planned(one_of(&mut words, &processors[..count]));
    }
    most
}

// Draws so many words.
#[inline(always)]
fn pass_words(generator: &mut Pcg32, number: usize)
    ensures { generator.new ≡ after_words number generator.old }
{
    for word in 0..number {
        let _below = below(generator, 1);
    }
}

impl OrderState {
    /// An order at the start of a run on so many processors.
    pub(crate) fn start(order: Order, processors: u32) -> OrderState
        requires limits { order_fault order ≡ None }
        requires processors { processors ≤ 32 }
        ensures { result ≡ order_at_start order processors }
    {
        match order {
            Order::Turns(steps) => OrderState::InTurns(Turns { steps, made: 0 }),
            Order::Delayed { turns, delays } => {
                OrderState::ByDelays(DelayedTurns::start(turns, delays))
            }
            Order::Random(seed) => OrderState::AtRandom(seeded(seed)),
            Order::Priorities {
                seed,
                changes,
                within,
            } => OrderState::ByPriority(Ranking::new(seed, changes, within, processors)),
        }
    }

    /// The same order with these delays, seen from the next choice; none if it has no delays.
    pub(crate) fn with_left(&self, left: Delays) -> Option<OrderState>
        ensures { MatchOption result ((d : DelayState) → self.now ≢ ByDelays d)
            (λ order. HasLeft self.now (delays_of left) order) }
    {
        match self {
            OrderState::ByDelays(delayed) => Some(OrderState::ByDelays(delayed.with_left(left))),
            OrderState::InTurns(_) | OrderState::AtRandom(_) | OrderState::ByPriority(_) => None,
        }
    }

    /// The next processor, if one is ready.
    #[inline(always)]
    pub(crate) fn choose<T: Tlb, D: Console>(
        &mut self,
        last: Option<u32>,
        core: &Core<T, D>,
    ) -> Option<u32>
        ensures { (result, self.new) ≡ by_order self.old last core.now.state }
    {
        match self {
            OrderState::InTurns(turns) => turns.choose(last, core),
            OrderState::ByDelays(delayed) => delayed.choose(last, core),
            OrderState::AtRandom(generator) => by_words(generator, core),
            OrderState::ByPriority(ranking) => ranking.choose(core),
        }
    }

    /// A Step is made that it didn't choose.
    pub(crate) fn interrupt(&mut self)
        ensures { self.new ≡ interrupted self.old }
    {
        match self {
            OrderState::InTurns(turns) => turns.made = 0,
            OrderState::ByDelays(delayed) => delayed.interrupt(),
            OrderState::AtRandom(_) | OrderState::ByPriority(_) => {}
        }
    }

    /// Plans a Step of processor `p`, which was just chosen, and those that follow it as long as the
    /// same processors are ready. Returns how many.
    #[inline(always)]
    pub(crate) fn plan<T: Tlb, D: Console>(
        &self,
        core: &Core<T, D>,
        p: u32,
        places: &mut [PackedEntry],
    ) -> usize
        requires some { 1 ≤ length places.old }
        requires small { p < 32 }
        ensures plan { IsPlan self.now p core.now.state result places.new }
        ensures some { (1 ≤ result) × (result ≤ length places.old) }
        ensures length { length places.new ≡ length places.old }
    {
        let (first, rest) = places.split_at_mut(1);
        first[0] = PackedEntry::planned(p);
        if is_ready(core, p) {
            1 + self.plan_behind(core, p, rest)
        } else {
            1
        }
    }

    // Plans the Steps behind one of a ready processor, which was just chosen. Returns how many.
    #[inline(always)]
    fn plan_behind<T: Tlb, D: Console>(
        &self,
        core: &Core<T, D>,
        p: u32,
        places: &mut [PackedEntry],
    ) -> usize
        requires { MayPlanBehind p core.now.state }
        ensures { PlansBehind self.now p core.now.state places.old result places.new }
    {
        match self {
            OrderState::InTurns(turns) => turns.plan(core, p, places),
            OrderState::ByDelays(delayed) => delayed.plan(core, p, places),
            OrderState::AtRandom(generator) => plan_by_words(generator, core, p, places),
            OrderState::ByPriority(_) => 0,
        }
    }

    /// Goes on by so many Steps.
    #[inline(always)]
    pub(crate) fn go_on(&mut self, more: usize)
        requires { MayGoOnBy more self.old }
        ensures { self.new ≡ gone_on more self.old }
    {
        match self {
            OrderState::InTurns(turns) => turns.go_on(more),
            OrderState::ByDelays(delayed) => delayed.go_on(more),
            OrderState::AtRandom(generator) => pass_words(generator, more),
            OrderState::ByPriority(_) => {}
        }
    }
}
