//! Judges that run no machine.

ghost use Rattle.std.specs.Prelude.{◌≡◌, ◌+◌, ◌<◌, ◌^◌, length};
ghost use Rattle.m161_shorten_tests.specs.Judges.{begins, beside, goes_wrong, in_order, is_step, kind_of, seen_after};

use crate::wrong::{Tired, Wrong};
use m161_shorten::{Event, Judge, Judgement};

fn seen_after(seen: u8, event: Event) -> u8
    ensures { result ≡ seen_after seen event }
{
    match event {
        Event::Step(p) => {
            if p == 0 {
                1
            } else if p == 1 && seen > 0 {
                2
            } else {
                seen
            }
        }
        _ => seen,
    }
}

fn goes_wrong(seen: u8, event: Event) -> bool
    ensures { result ≡ goes_wrong seen event }
{
    match event {
        Event::Step(p) => p == 2 && seen > 0,
        _ => false,
    }
}

fn kind_of(seen: u8) -> Wrong
    ensures { result ≡ kind_of seen }
{
    if seen == 2 { Wrong::Racy } else { Wrong::Plain }
}

fn in_order(seen: u8, place: usize, events: &[Event]) -> Option<Judgement<Wrong>>
    requires { place + length events.now < 2 ^ 64 }
    ensures { result ≡ in_order seen place events.now }
{
    match events.split_first() {
        Some((first, rest)) => {
            if goes_wrong(seen, *first) {
                Some(Judgement {
                    kind: kind_of(seen),
                    needs: place + 1,
                })
            } else {
                in_order(seen_after(seen, *first), place + 1, rest)
            }
        }
        None => None,
    }
}

/// Its verdict is at the first Step of processor 2 behind one of processor 0: racy if one of
/// processor 1 came behind the last of processor 0, else plain.
#[derive(Drop, Debug)]
pub struct InOrder {
    /// How many lists it has judged.
    pub judged: u32,
    /// How many it judges.
    pub most: u32,
}

impl Judge for InOrder {
    ghost use Rattle.std.specs.Prelude.{◌≡◌};
    ghost use Rattle.m161_shorten_tests.specs.Judges.{in_order};

    type Kind = Wrong;

    type Error = Tired;

    ghost judges = { λ judge es verdict. verdict ≡ in_order 0 0 es };

    fn judge(&mut self, events: &[Event]) -> Result<Option<Judgement<Wrong>>, Tired> {
        if self.judged >= self.most {
            return Err(Tired);
        }
        self.judged += 1;
        Ok(in_order(0, 0, events))
    }
}

fn is_step(event: Event, p: u32) -> bool
    ensures { result ≡ is_step p event }
{
    match event {
        Event::Step(q) => p == q,
        _ => false,
    }
}

fn begins(events: &[Event], p: u32) -> bool
    ensures { result ≡ begins p events.now }
{
    match events.split_first() {
        Some((first, _)) => is_step(*first, p),
        None => false,
    }
}

fn beside(events: &[Event], p: u32, q: u32) -> bool
    ensures { result ≡ beside p q events.now }
{
    match events.split_first() {
        Some((first, rest)) => {
            let here = is_step(*first, p) && begins(rest, q);
            here || beside(rest, p, q)
        }
        None => false,
    }
}

/// Its verdict is plain, and needs all events, unless two Steps of processor 0 are side by side and
/// none stands before one of processor 1.
#[derive(Drop, Debug)]
pub struct UnlessAlone {
    /// How many lists it has judged.
    pub judged: u32,
    /// How many it judges.
    pub most: u32,
}

impl Judge for UnlessAlone {
    ghost use Rattle.std.specs.Prelude.{◌≡◌};
    ghost use Rattle.m161_shorten_tests.specs.Judges.{unless_alone};

    type Kind = Wrong;

    type Error = Tired;

    ghost judges = { λ judge es verdict. verdict ≡ unless_alone es };

    fn judge(&mut self, events: &[Event]) -> Result<Option<Judgement<Wrong>>, Tired> {
        if self.judged >= self.most {
            return Err(Tired);
        }
        self.judged += 1;
        let alone = beside(events, 0, 0) && !beside(events, 0, 1);
        if alone {
            return Ok(None);
        }
        Ok(Some(Judgement {
            kind: Wrong::Plain,
            needs: events.len(),
        }))
    }
}
