//! Steps in turns, with delays.

ghost use Rattle.std.specs.Prelude.{◌≡◌, true};
ghost use Rattle.m161_order.specs.Delays.{delays_of};
ghost use Rattle.m161_drive.specs.declared.orders.OrderState.TheVariants.{ByDelays};
ghost use Rattle.m161_drive.specs.Delayed.{passed};
ghost use Rattle.m161_drive.specs.Orders.{by_delays};
ghost use Rattle.m161_drive.specs.Ready.{is_ready};
ghost use Rattle.m161_drive.specs.helpers.Drive.{MayGoOnBy, MayPlanBehind, PlansBehind, gone_on};

use crate::ready::list_ready_from;
use crate::turns::Turns;
use m161_bus::Console;
use m161_machine::{Core, PackedEntry};
use m161_order::Delays;
use m161_tlb::Tlb;
use std::marker::Model;

/// The order by turns, with delays.
#[derive(Drop)]
pub(crate) struct DelayedTurns {
    turns: Turns,
    // Those that are left, seen from the next choice.
    left: Delays,
}

impl Model for DelayedTurns {
    ghost use Rattle.m161_order.specs.Delays.{delays_of};
    ghost use Rattle.m161_drive.specs.Delayed.{DelayState};

    ghost Value = { DelayState };

    ghost view = { λ d. record { turns = d.turns; left = delays_of d.left } };
}

// The ready processor that is so many behind a ready one in cyclic order, or the last of them.
fn passed<T: Tlb, D: Console>(core: &Core<T, D>, number: u32, p: u32) -> u32
    requires { is_ready core.now.state p ≡ true }
    ensures { result ≡ passed number p core.now.state }
{
    if number == 0 {
        return p;
    }
    let mut processors = [0; 32];
    let count = list_ready_from(core, p, &mut processors);
    let place = (number as usize).min(count - 1);
    u32::from(processors[place])
}

impl DelayedTurns {
    /// Turns of so many Steps, at their start.
    pub(crate) fn start(steps: u32, delays: Delays) -> DelayedTurns
        ensures { result ≡ record { turns = record { steps = steps; made = 0 }; left = delays_of delays } }
    {
        DelayedTurns {
            turns: Turns { steps, made: 0 },
            left: delays,
        }
    }

    /// The same turns with these delays, seen from the next choice.
    pub(crate) fn with_left(&self, left: Delays) -> DelayedTurns
        ensures { result ≡ record self.now { left = delays_of left } }
    {
        DelayedTurns {
            turns: self.turns,
            left,
        }
    }

    /// The next processor, if one is ready.
    pub(crate) fn choose<T: Tlb, D: Console>(
        &mut self,
        last: Option<u32>,
        core: &Core<T, D>,
    ) -> Option<u32>
        ensures { (result, self.new) ≡ by_delays self.old last core.now.state }
    {
        match self.turns.choose(last, core) {
            Some(p) => {
                let chosen = passed(core, self.left.due(), p);
                if p != chosen {
                    self.turns.made = 1;
                }
                self.left.pass(1);
                Some(chosen)
            }
            None => None,
        }
    }

    /// A Step is made that it didn't choose.
    pub(crate) fn interrupt(&mut self)
        ensures { self.new ≡ record self.old { turns = record self.old.turns { made = 0 } } }
    {
        self.turns.made = 0;
    }

    /// Plans the Steps behind one of a ready processor, which was just chosen, up to the next delay.
    /// Returns how many.
    pub(crate) fn plan<T: Tlb, D: Console>(
        &self,
        core: &Core<T, D>,
        p: u32,
        places: &mut [PackedEntry],
    ) -> usize
        requires { MayPlanBehind p core.now.state }
        ensures { PlansBehind (ByDelays self.now) p core.now.state places.old result places.new }
    {
        let most = (self.left.until_due() as usize).min(places.len());
        let (first, _) = places.split_at_mut(most);
        self.turns.plan(core, p, first)
    }

    /// Goes on by so many Steps.
    pub(crate) fn go_on(&mut self, more: usize)
        requires { MayGoOnBy more (ByDelays self.old) }
        ensures { ByDelays self.new ≡ gone_on more (ByDelays self.old) }
    {
        self.turns.go_on(more);
        self.left.pass(more as u64);
    }
}
