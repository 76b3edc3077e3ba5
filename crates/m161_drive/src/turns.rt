//! Steps in turns.

ghost use Rattle.std.specs.Prelude.{◌≡◌, ◌≤◌, true};
ghost use Rattle.m161_drive.specs.declared.orders.OrderState.TheVariants.{InTurns};
ghost use Rattle.m161_drive.specs.Orders.{begun, by_turns, goes_on};
ghost use Rattle.m161_drive.specs.Ready.{is_ready};
ghost use Rattle.m161_drive.specs.helpers.Drive.{MayGoOnBy, MayPlanBehind, PlansBehind, gone_on};

use crate::ready::{is_ready, next_ready};
use m161_bus::Console;
use m161_machine::{Core, PackedEntry, plan_all};
use m161_tlb::Tlb;

/// So many choices at most are made before their time, since a Step that isn't plain makes those behind
/// it useless.
pub(crate) const CHOICES: usize = 16;

/// The order by turns.
#[derive(Clone, Copy, Debug)]
pub(crate) struct Turns {
    /// How many Steps a turn has.
    pub steps: u32,
    /// How many Steps the turn has had, 0 between turns. It's the last processor's.
    pub made: u32,
}

impl Turns {
    // Whether the last processor goes on with its turn.
    #[inline(always)]
    fn goes_on<T: Tlb, D: Console>(&self, last: Option<u32>, core: &Core<T, D>) -> bool
        ensures { result ≡ goes_on self.now last core.now.state }
    {
        match last {
            Some(p) => self.made > 0 && self.made < self.steps && is_ready(core, p),
            None => false,
        }
    }

    /// The next processor, if one is ready.
    #[inline(always)]
    pub(crate) fn choose<T: Tlb, D: Console>(
        &mut self,
        last: Option<u32>,
        core: &Core<T, D>,
    ) -> Option<u32>
        ensures { (result, self.new) ≡ by_turns self.old last core.now.state }
    {
        if self.goes_on(last, core) {
            self.made += 1;
            return last;
        }
        match next_ready(core, last) {
            Some(p) => {
                self.made = 1;
                Some(p)
            }
            None => None,
        }
    }

    /// Plans the Steps behind one of a ready processor, which was just chosen: the rest of its turn,
    /// and Steps of the turns that follow. Returns how many.
    #[inline(always)]
    pub(crate) fn plan<T: Tlb, D: Console>(
        &self,
        core: &Core<T, D>,
        p: u32,
        places: &mut [PackedEntry],
    ) -> usize
        requires { MayPlanBehind p core.now.state }
        ensures { PlansBehind (InTurns self.now) p core.now.state places.old result places.new }
    {
        if self.made == 0 || self.made > self.steps {
            return 0;
        }
        let rest = ((self.steps - self.made) as usize).min(places.len());
        let (turn, others) = places.split_at_mut(rest);
        plan_all(turn, p);
        let ended = Turns {
            steps: self.steps,
            made: self.steps,
        };
        rest + ended.plan_others(core, p, others)
    }

    // Plans the Steps behind the last one of a turn.
    fn plan_others<T: Tlb, D: Console>(
        &self,
        core: &Core<T, D>,
        p: u32,
        places: &mut [PackedEntry],
    ) -> usize
        requires ready { is_ready core.now.state p ≡ true }
        requires ended { (1 ≤ self.now.made) × (self.now.made ≡ self.now.steps) }
        ensures { PlansBehind (InTurns self.now) p core.now.state places.old result places.new }
    {
        core.law();
        let mut turns = *self;
        let mut last = p;
        let most = places.len().min(CHOICES);
        let mut planned = 0;
        while planned < most {
            match turns.choose(Some(last), core) {
                Some(next) => {
                    places[planned] = PackedEntry::planned(next);
                    last = next;
                    planned += 1;
                }
                None => return planned,
            }
        }
        planned
    }

    /// Goes on by so many Steps.
    #[inline(always)]
    pub(crate) fn go_on(&mut self, more: usize)
        requires { MayGoOnBy more (InTurns self.old) }
        ensures { InTurns self.new ≡ gone_on more (InTurns self.old) }
    {
        if more > 0 {
            let steps = u64::from(self.steps);
            let behind = u64::from(self.made) - 1 + more as u64 % steps;
            self.made = (behind % steps) as u32 + 1;
        }
    }
}
