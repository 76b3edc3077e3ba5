//! Steps by priorities.

ghost use Rattle.std.specs.Prelude.{◌≡◌, ℕ, ◌+◌, ◌-◌, ◌<◌, ◌≤◌, nat_lt, length, take, count_by, slice_index, Some, IfSome};
ghost use Rattle.std.specs.List.{insert, remove};
ghost use Rattle.m161_drive.specs.Orders.{by_priority};
ghost use Rattle.m161_drive.specs.Priorities.{after_fall, after_step_at, highest, last_point, moved, priorities_at_start, shuffled, with_stretch};
ghost use Rattle.m161_drive.specs.Words.{after_words, draws};
ghost use Rattle.m161_drive.specs.helpers.Places.{AreFrom};

use crate::ready::is_ready;
use crate::words::{below, seeded};
use m161_bus::Console;
use m161_machine::Core;
use m161_tlb::Tlb;
use rand_pcg::Pcg32;
use std::marker::Model;

/// The order by priorities.
#[derive(Drop)]
pub(crate) struct Ranking {
    generator: Pcg32,
    within: u32,
    made: u32,
    // How many points there are; the places behind them aren't used.
    changes: usize,
    points: [u32; 64],
    // The processors, the one of the lowest priority first.
    processors: [u32; 32],
    // The first `down` of them fell in this stretch, after the points of these numbers; the places
    // behind these numbers aren't used.
    fallen: [u32; 32],
    down: usize,
    // So many processors the machine had at the start, and only the first `used` places have one of
    // them.
    number: u32,
    used: usize,
}

impl Model for Ranking {
    ghost use Rattle.std.specs.Prelude.{◌≡◌, ◌<◌, ◌≤◌, length, take};
    ghost use Rattle.m161_drive.specs.Priorities.{PriorityState};
    ghost use Rattle.m161_drive.specs.helpers.Places.{AreFrom};

    ghost Value = { PriorityState };

    ghost view = { λ r. record {
      generator = r.generator;
      within = r.within;
      made = r.made;
      points = take r.changes r.points;
      processors = r.processors;
      fallen = take r.down r.fallen;
    } };

    ghost invariant = { λ r.
        (r.changes ≤ 64) × (length r.points ≡ 64) × (length r.processors ≡ 32)
        × (length r.fallen ≡ 32) × (r.down ≤ 32) × (r.made < r.within)
        × (r.used ≤ 32) × AreFrom r.number r.used r.processors };
}

// The first 32 numbers.
const IN_ORDER: [u32; 32] = [
    0, 1, 2, 3, 4, 5, 6, 7, 8, 9, 10, 11, 12, 13, 14, 15, 16, 17, 18, 19, 20, 21, 22, 23, 24, 25,
    26, 27, 28, 29, 30, 31,
];

// Swaps each place from this one down to the second with one that isn't above it.
fn shuffle(processors: &mut [u32; 32], generator: &mut Pcg32, last: u32)
    requires { last < 32 }
    ensures order { processors.new ≡ shuffled last processors.old generator.old }
    ensures after { generator.new ≡ after_words last generator.old }
{
    let mut i = last;
    while i > 0 {
        let other = below(generator, i + 1);
        processors.swap(i as usize, other as usize);
        i -= 1;
    }
}

// The place behind the last one that has a number below this.
fn used_places(processors: &[u32; 32], number: u32) -> usize
    ensures within { result ≤ 32 }
    ensures others { AreFrom number result processors.now }
{
    let mut used = 32;
    while used > 0 && processors[used - 1] >= number {
        used -= 1;
    }
    used
}

// Draws the points of a stretch.
fn draw_points(points: &mut [u32; 64], changes: usize, generator: &mut Pcg32, within: u32)
    requires { changes ≤ 64 }
    ensures points { take changes points.new ≡ draws changes within generator.old }
    ensures after { generator.new ≡ after_words changes generator.old }
    ensures length { length points.new ≡ 64 }
{
    for j in 0..changes {
        points[j] = below(generator, within);
    }
}

// How many of the numbers are less than this one.
fn less_than(numbers: &[u32], number: u32) -> usize
    ensures value { result ≡ count_by (λ other. nat_lt other number) numbers.now }
    ensures within { result ≤ length numbers.now }
{
    let mut count = 0;
    for other in numbers {
        if *other < number {
            count += 1;
        }
    }
    count
}

// Takes the number at a place out: those behind it move forward by one place, and the last place
// isn't used from then on.
fn take_out(numbers: &mut [u32; 32], place: usize)
    requires { place < 32 }
    ensures value { take 31 numbers.new ≡ remove numbers.old place }
    ensures length { length numbers.new ≡ 32 }
{
    numbers.copy_within(place + 1..32, place);
}

// Puts a number in at a place: those from there on move back by one place, the last of which wasn't
// used.
fn put_in(numbers: &mut [u32; 32], place: usize, number: u32)
    requires { place < 32 }
    ensures value { numbers.new ≡ insert (take 31 numbers.old) place number }
    ensures length { length numbers.new ≡ 32 }
{
    numbers.copy_within(place..31, place + 1);
    numbers[place] = number;
}

// Takes the number at a place out of the first `count`, if it's one of them. Returns how many are
// left.
fn take_out_of(numbers: &mut [u32; 32], count: usize, place: usize) -> usize
    requires count { count ≤ 32 }
    requires place { place < 32 }
    ensures value { take result numbers.new ≡ remove (take count numbers.old) place }
    ensures within { result < 32 }
    ensures length { length numbers.new ≡ 32 }
{
    if place < count {
        take_out(numbers, place);
        count - 1
    } else {
        count
    }
}

// Moves the number at a place to another.
fn move_to(numbers: &mut [u32; 32], from: usize, to: usize)
    requires from { from < 32 }
    requires to { to < 32 }
    ensures value { numbers.new ≡ moved from to numbers.old }
    ensures others { (k : ℕ) → from < k → to < k
        → slice_index numbers.new k ≡ slice_index numbers.old k }
    ensures length { length numbers.new ≡ 32 }
{
    let number = numbers[from];
    take_out(numbers, from);
    put_in(numbers, to, number);
}

// The number of the last of these points that is this Step.
fn last_point(points: &[u32], step: u32) -> Option<usize>
    ensures value { result ≡ last_point step points.now }
    ensures within { IfSome result (λ j. j < length points.now) }
{
    let mut last = None;
    for (j, point) in points.iter().enumerate() {
        if *point == step {
            last = Some(j);
        }
    }
    last
}

impl Ranking {
    /// The order at the start of a run on so many processors.
    pub(crate) fn new(seed: u64, changes: u32, within: u32, processors: u32) -> Ranking
        requires changes { changes ≤ 64 }
        requires within { 1 ≤ within }
        requires processors { processors ≤ 32 }
        ensures { result ≡ priorities_at_start seed changes within processors }
    {
        let mut generator = seeded(seed);
        let mut order = IN_ORDER;
        shuffle(&mut order, &mut generator, processors.saturating_sub(1));
        let used = used_places(&order, processors);
        let mut ranking = Ranking {
            generator,
            within,
            made: 0,
            changes: changes as usize,
            points: [0; 64],
            processors: order,
            fallen: [0; 32],
            down: 0,
            number: processors,
            used,
        };
        ranking.begin_stretch();
        ranking
    }

    // Begins a new stretch. The processors keep their order.
    fn begin_stretch(&mut self)
        ensures { self.new ≡ with_stretch (length self.old.points) self.old }
    {
        let Ranking {
            generator,
            within,
            made,
            changes,
            points,
            processors: _,
            fallen: _,
            down,
            number: _,
            used: _,
        } = self;
        draw_points(points, *changes, generator, *within);
        *made = 0;
        *down = 0;
    }

    // How many of the places may have a processor of the machine.
    fn places<T: Tlb, D: Console>(&self, core: &Core<T, D>) -> usize
        ensures within { result ≤ 32 }
        ensures others { AreFrom (length core.now.state.processors) result self.now.processors }
    {
        if core.processors() <= self.number {
            self.used
        } else {
            32
        }
    }

    // The place of the ready processor of the highest priority.
    fn highest<T: Tlb, D: Console>(&self, core: &Core<T, D>) -> Option<usize>
        ensures value { result ≡ highest self.now core.now.state }
        ensures within { IfSome result (λ k. k < 32) }
    {
        let mut k = self.places(core);
        while k > 0 {
            k -= 1;
            if is_ready(core, self.processors[k]) {
                return Some(k);
            }
        }
        None
    }

    // The processor at a place falls after the point of this number. One that falls again may move
    // back.
    fn fall(&mut self, place: usize, point: u32)
        requires { place < 32 }
        ensures { self.new ≡ after_fall place (Some point) self.old }
    {
        let others = take_out_of(&mut self.fallen, self.down, place);
        let to = less_than(&self.fallen[..others], point);
        put_in(&mut self.fallen, to, point);
        self.down = others + 1;
        move_to(&mut self.processors, place, to);
        self.used = self.used.max(place + 1).max(to + 1);
    }

    // Counts the Step of the processor at a place, which may fall after it.
    fn count_step(&mut self, place: usize)
        requires { place < 32 }
        ensures { self.new ≡ after_step_at place self.old }
    {
        if let Some(j) = last_point(&self.points[..self.changes], self.made) {
            self.fall(place, j as u32);
        }
        if self.made + 1 == self.within {
            self.begin_stretch();
        } else {
            self.made += 1;
        }
    }

    /// The next processor, if one is ready.
    pub(crate) fn choose<T: Tlb, D: Console>(&mut self, core: &Core<T, D>) -> Option<u32>
        ensures { (result, self.new) ≡ by_priority self.old core.now.state }
    {
        match self.highest(core) {
            Some(place) => {
                let p = self.processors[place];
                self.count_step(place);
                Some(p)
            }
            None => None,
        }
    }
}
