//! Blocks as ranges of a list of events.

ghost use Rattle.std.specs.Prelude.{◌≡◌, ◌+◌, ◌<◌, ◌≤◌, [], take, drop, length, IfSome, MatchOption};
ghost use Rattle.m161_shorten.specs.helpers.Ranges.{
  block_len,
  find_step,
  first_step,
  from_before,
  leading,
  pair_trials,
  swapped,
  trials_at,
  IsPair,
  IsStart,
};

use m161_machine::Event;

/// A block and the next one of its processor: where the block begins, the events between begin, the
/// next one begins, and the events behind it begin.
#[derive(Clone, Copy, Debug)]
pub(crate) struct Pair {
    /// The block.
    pub block: usize,
    /// Between.
    pub between: usize,
    /// The next one.
    pub next: usize,
    /// Behind it.
    pub behind: usize,
}

// How many Steps of a processor are the first events.
fn leading(events: &[Event], p: u32) -> usize
    ensures value { result ≡ leading p events.now }
    ensures within { result ≤ length events.now }
{
    for (k, event) in events.iter().enumerate() {
        match event {
            Event::Step(q) => {
                if p != *q {
                    return k;
                }
            }
            _ => return k,
        }
    }
    events.len()
}

// How many events the first block has.
fn block_len(events: &[Event]) -> usize
    ensures value { result ≡ block_len events.now }
    ensures within { result ≤ length events.now }
{
    match events.split_first() {
        Some((Event::Step(p), rest)) => 1 + leading(rest, *p),
        Some(_) => 1,
        None => 0,
    }
}

/// Where the block ends that begins there.
pub(crate) fn block_end(events: &[Event], start: usize) -> usize
    requires { start ≤ length events.now }
    ensures value { result ≡ start + block_len (drop start events.now) }
    ensures within { result ≤ length events.now }
{
    start + block_len(&events[start..])
}

/// Where a block begins, or the list ends if it doesn't have so many.
pub(crate) fn start_of(events: &[Event], block: usize) -> usize
    ensures { IsStart block events.now result }
{
    let mut start = 0;
    for _ in 0..block {
        start = block_end(events, start);
    }
    start
}

// Where the first Step of a processor is, if no Key and no Done comes before it.
fn find_step(events: &[Event], p: u32) -> Option<usize>
    ensures value { result ≡ find_step p events.now }
    ensures within { IfSome result (λ k. k < length events.now) }
{
    for (k, event) in events.iter().enumerate() {
        match event {
            Event::Step(q) => {
                if p == *q {
                    return Some(k);
                }
            }
            _ => return None,
        }
    }
    None
}

// The same from a place on.
fn find_step_from(events: &[Event], start: usize, p: u32) -> Option<usize>
    requires { start ≤ length events.now }
    ensures value { result ≡ from_before start (find_step p (drop start events.now)) }
    ensures within { IfSome result (λ k. start ≤ k × k < length events.now) }
{
    match find_step(&events[start..], p) {
        Some(k) => Some(start + k),
        None => None,
    }
}

// The processor of the first event, if that is a Step.
fn first_step(events: &[Event]) -> Option<u32>
    ensures { result ≡ first_step events.now }
{
    match events.split_first() {
        Some((Event::Step(p), _)) => Some(*p),
        _ => None,
    }
}

// The pair of a block of Steps.
fn find_pair_of(events: &[Event], start: usize, p: u32) -> Option<Pair>
    requires start { start ≤ length events.now }
    requires step { first_step (drop start events.now) ≡ Some p }
    ensures within { IfSome result (λ pair. IsPair pair events.now) }
    ensures trials { MatchOption result (trials_at start events.now ≡ [])
        (λ pair. trials_at start events.now ≡ pair_trials pair events.now) }
{
    let between = block_end(events, start);
    match find_step_from(events, between, p) {
        Some(next) => Some(Pair {
            block: start,
            between,
            next,
            behind: block_end(events, next),
        }),
        None => None,
    }
}

/// The block that begins there, and the next one of its processor.
pub(crate) fn find_pair(events: &[Event], start: usize) -> Option<Pair>
    requires { start ≤ length events.now }
    ensures within { IfSome result (λ pair. IsPair pair events.now) }
    ensures trials { MatchOption result (trials_at start events.now ≡ [])
        (λ pair. trials_at start events.now ≡ pair_trials pair events.now) }
{
    match first_step(&events[start..]) {
        Some(p) => find_pair_of(events, start, p),
        None => None,
    }
}

// Two parts change places: from a to b, and from b to c.
fn swap_in(events: &mut [Event], a: usize, b: usize, c: usize)
    requires first { a ≤ b }
    requires second { b ≤ c }
    requires within { c ≤ length events.old }
    ensures { events.new ≡ swapped a b c events.old }
{
    events[a..c].rotate_left(b - a);
}

/// Two parts change places: from a to b, and from b to c.
pub(crate) fn swap_parts(events: &mut Vec<Event>, a: usize, b: usize, c: usize)
    requires first { a ≤ b }
    requires second { b ≤ c }
    requires within { c ≤ length events.old.items }
    ensures { events.new.items ≡ swapped a b c events.old.items }
{
    swap_in(events.as_mut_slice(), a, b, c);
}
