//! Which ready processor makes the next Step, as a policy says it.

ghost use Rattle.std.specs.Prelude.{◌≡◌};
ghost use Rattle.m161_order.specs.Order.{order_fault};

use crate::delays::Delays;
use thiserror::Error;

/// An order of the Steps of ready processors.
#[derive(Clone, Copy, Debug, PartialEq, Eq)]
pub enum Order {
    /// So many Steps of each in turn, at least 1.
    Turns(u32),
    /// In turns, but that ready processors are passed over at some choices (delay-bounded scheduling;
    /// Emmi, Qadeer and Rakamarić 2011).
    Delayed {
        /// How many Steps a turn has, at least 1.
        turns: u32,
        /// The numbers of these choices.
        delays: Delays,
    },
    /// One at random, by the words of this seed.
    Random(u64),
    /// The one of the highest priority. The priorities are drawn at the start, and change at Steps
    /// that are drawn in each stretch of Steps.
    Priorities {
        /// The seed of the words.
        seed: u64,
        /// How many times in a stretch a priority changes, at most 64.
        changes: u32,
        /// How many Steps a stretch has, at least 1.
        within: u32,
    },
}

/// Why an order can't be followed. Each is returned only if none above it holds.
#[derive(Clone, Copy, Debug, PartialEq, Eq, Error)]
pub enum OrderError {
    /// A turn of no Steps.
    #[error("a turn has at least 1 Step")]
    NoTurn,
    /// A stretch of no Steps.
    #[error("a stretch has at least 1 Step")]
    NoStretch,
    /// More than 64 changes in a stretch.
    #[error("a stretch has at most 64 changes")]
    TooManyChanges,
}

impl Order {
    /// The first of its numbers that is outside its limits.
    pub fn fault(self) -> Option<OrderError>
        ensures { result ≡ order_fault self }
    {
        match self {
            Order::Turns(steps)
            | Order::Delayed {
                turns: steps,
                delays: _,
            } => {
                if steps == 0 {
                    return Some(OrderError::NoTurn);
                }
            }
            Order::Random(_) => {}
            Order::Priorities {
                seed: _,
                changes,
                within,
            } => {
                if within == 0 {
                    return Some(OrderError::NoStretch);
                }
                if changes > 64 {
                    return Some(OrderError::TooManyChanges);
                }
            }
        }
        None
    }
}
