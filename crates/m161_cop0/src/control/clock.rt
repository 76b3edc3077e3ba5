//! Random, Count and the timer, computed from the number of ticks, without work at each tick.

ghost use Rattle.std.specs.Prelude.{◌≡◌, ◌+◌, ◌-◌, ◌^◌, ◌<◌, true};
ghost use Rattle.m161_cop0.specs.Clock.{is_due, after_tick, IsFire};

use crate::control::{Cop0, internal_ip};

impl Cop0 {
    /// The end of a Step: Random falls by one, from 8 back to 63. Count rises by one; if it then
    /// equals a Compare that isn't zero, it becomes 0 and the timer's bit is set.
    #[tactic(auto, unfolding(crate::specs::Clock::after_tick))]
    #[inline(always)]
    pub fn tick(&mut self)
        requires { self.old.age < 2 ^ 64 - 1 }
        ensures registers { self.new ≡ after_tick self.old }
        ensures age { self.new.age ≡ self.old.age + 1 }
    {
        let age = self.age + 1;
        if age == self.fire {
            self.raise_timer();
        } else {
            self.age = age;
        }
    }

    // The tick that brings Count to Compare.
    #[tactic(auto, unfolding(crate::specs::Clock::after_tick))]
    #[cold]
    #[inline(never)]
    fn raise_timer(&mut self)
        requires age { self.old.age < 2 ^ 64 - 1 }
        requires due { is_due self.old ≡ true }
        ensures { self.new ≡ after_tick self.old }
    {
        self.age += 1;
        self.offset = 0u32.wrapping_sub((self.age % (1 << 32)) as u32);
        self.fire = fire(self.age, self.offset, self.compare);
        self.timer = true;
        self.ip = internal_ip(true, self.software);
    }

    // Puts words into Count and Compare.
    pub(crate) fn set_clock(&mut self, count: u32, compare: u32)
        ensures { self.new ≡ record self.old { count = count; compare = compare } }
    {
        self.compare = compare;
        self.offset = count.wrapping_sub((self.age % (1 << 32)) as u32);
        self.fire = fire(self.age, self.offset, compare);
    }
}

// The age at which a tick brings Count to Compare; 0 if Compare is zero or that age doesn't fit.
pub(crate) fn fire(age: u64, offset: u32, compare: u32) -> u64
    ensures { IsFire age offset compare result }
{
    if compare == 0 {
        return 0;
    }
    let count = ((age % (1 << 32)) as u32).wrapping_add(offset);
    let wait = u64::from(compare.wrapping_sub(count).wrapping_sub(1)) + 1;
    age.checked_add(wait).unwrap_or(0)
}
