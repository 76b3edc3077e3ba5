//! The driven side of the benchmarks: events that a policy chooses, and the same Steps by hand.
//!
//! ```text
//! m161_bench_drive EVENTS WAY    makes EVENTS events on two processors, from the boot on; WAY is
//!                                `hand`, a Step of each processor in turn; `alone`, Steps of one
//!                                processor; `turns`, `random` or `priorities`, by that order
//! m161_bench_drive EVENTS seeds  makes EVENTS events, 10,000 for each seed of an order at random, from
//!                                the boot on, and judges each run; `watched`, with a watch
//! ```
//!
//! Standard output gets the number of events, and standard error the nanoseconds.
#![tactic(auto)]

mod image;
mod ways;

use crate::image::image;
use crate::ways::{Took, Way, make};
use m161_drive::Order;
use std::env;
use std::process::ExitCode;

// The way of a word.
fn way_of(word: &str) -> Option<Way> {
    match word {
        "hand" => Some(Way::ByHand),
        "alone" => Some(Way::Alone),
        "turns" => Some(Way::Driven(Order::Turns(1))),
        "random" => Some(Way::Driven(Order::Random(7))),
        "seeds" => Some(Way::Judged(false)),
        "watched" => Some(Way::Judged(true)),
        "priorities" => Some(Way::Driven(Order::Priorities {
            seed: 7,
            changes: 2,
            within: 1_000,
        })),
        _ => None,
    }
}

// The number of events and the way of the arguments.
fn arguments(rt: &HostRuntime) -> Option<(u32, Way)> {
    let mut words = env::args(rt).ok()?.skip(1);
    let events = words.next()?.parse().ok()?;
    let word = words.next()?;
    Some((events, way_of(word.as_str())?))
}

// Makes the events and prints the result; `None` if something fails.
fn measure(rt: &HostRuntime, events: u32, way: Way) -> Option<()> {
    let image = image(rt.alloc())?;
    let Took {
        events,
        nanoseconds,
    } = make(rt, image.as_slice(), way, events)?;
    println!(rt; "{events}").ok()?;
    eprintln!(rt; "{nanoseconds}").ok()
}

fn main(rt: HostRuntime) -> ExitCode {
    let Some((events, way)) = arguments(&rt) else {
        return ExitCode::from(2);
    };
    ExitCode::from(if measure(&rt, events, way).is_some() {
        0
    } else {
        1
    })
}
