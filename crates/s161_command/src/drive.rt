//! The options of a driven run.

ghost use Rattle.std.specs.Prelude.{◌≡◌, true, None, MatchOption, codes, option_map};
ghost use Rattle.clap.specs.Words.{first_of, found_of, rows_of};
ghost use Rattle.s161_command.specs.Delays.{IsBadDelays};
ghost use Rattle.s161_command.specs.Drives.{AsksDrive, Clashes, IsBadGap, IsGap, IsGivenOrder, IsOrder, IsSearched, IsSeeded, changes_without_seed, delayed_without_turns, delays_and_seeds, events_by_default, file_and_order, gap_by_default, go_together, half_priorities, has_order, has_pace, has_seed, is_driven, lacks_events, lacks_order, lacks_runs, order_in_threads, pace_without_order, shows_twice, traps_unshown, turns_without_delays, two_orders};
ghost use Rattle.s161_command.specs.Numbers.{is_given};
ghost use Rattle.s161_command.specs.helpers.Settings.{HasSettings};

use crate::delays::delays_in;
use crate::given::{is_given, is_set, long_given, number_given, text_given};
use crate::settings::Settings;
use clap::ArgMatches;
use m161_order::{Order, OrderError};
use thiserror::Error;

/// What a driven run is asked for.
#[derive(Clone, Copy)]
pub struct Drive<'a> {
    /// Which ready processor makes the next Step.
    pub order: Order,
    /// The most events that are made.
    pub events: u64,
    /// A byte in the console's latch is sent once so many events were accepted after the one that
    /// put it there.
    pub transfer: u32,
    /// A key is typed once so many events were accepted after the last one; without, only where no
    /// processor is ready.
    pub gap: Option<u32>,
    /// The name of the file whose bytes are typed, if there is one.
    pub keys: Option<&'a str>,
    /// The name of the schedule's or the log's file whose events come before those of the order, if
    /// there is one.
    pub after: Option<&'a str>,
}

/// How a command takes an order.
#[derive(Clone, Copy, Debug, PartialEq, Eq)]
pub enum OrderUse {
    /// `run` and `trace`: without one no policy chooses the events.
    Optional,
    /// `schedule`: one is wanted.
    Needed,
    /// `console`: without one it is that of turns of one Step.
    Assumed,
    /// `search`: it is one at random or by priorities, with each seed from `--from` on, or one by
    /// turns with `--delays`.
    Seeded,
    /// `debug`: one is wanted, or a file of events, and not both.
    OrFile,
}

/// Why options that clap takes can't be followed.
#[derive(Clone, Copy, Debug, PartialEq, Eq, Error)]
pub enum Clash {
    #[error("--turns and --random are two orders, and a run has one")]
    TwoOrders,
    #[error("--delays takes the place of --seeds and of --changes: give one of them")]
    DelaysAndSeeds,
    #[error("runs are wanted: --seeds N or --delays D")]
    NoRuns,
    #[error("--turns needs --delays, whose runs are by turns")]
    TurnsWithoutDelays,
    #[error("--changes and --within need each other")]
    HalfPriorities,
    #[error("--changes needs --random, whose seed draws the priorities")]
    ChangesWithoutSeed,
    #[error("--delayed needs --turns, whose processors it passes over")]
    DelayedWithoutTurns,
    #[error("an order is wanted: --turns N or --random SEED")]
    NoOrder,
    #[error("--events, --transfer, --keys, --gap and --after need an order: --turns N or --random SEED")]
    PaceWithoutOrder,
    #[error("--threads and --burst leave the order to the host: --turns and --random are for runs without threads")]
    OrderInThreads,
    #[error("--show-log prints the log too, --only-log the log alone, --only-output the console's bytes alone: give one of them")]
    ShownTwice,
    #[error("--traps prints lines behind the registers, which --only-log and --only-output leave out")]
    TrapsUnshown,
    #[error("--traps with --threads needs a log of each Step: --log N, of at least those of a thread times the processors")]
    FewEntries,
    #[error("the file and the order both give the events: give one of them")]
    FileAndOrder,
    #[error("events are wanted: a schedule's or a log's file, or --turns N or --random SEED")]
    NoEvents,
    #[error("{0}")]
    BadOrder(OrderError),
    #[error("--gap is a number of events, 0 to 4294967295, or none")]
    BadGap,
    #[error("--delayed is 1 to 64 numbers, 0 to 4294967295 and ascending, with commas between them alone")]
    BadDelays,
    #[error("--delays is a number, 0 to 64, and --from beside it that of a choice, 0 to 4294967295")]
    BadClass,
    #[error("--never is given at most 64 times")]
    ManyNever,
    #[error("--link is word, or line, the aligned 16 bytes")]
    BadLink,
}

/// Whether an order is given.
pub(crate) fn has_order<'a>(given: &ArgMatches<'a>) -> bool
    ensures { result ≡ has_order (rows_of (found_of given.now)) }
{
    is_given(given, "turns") || is_given(given, "random")
}

// Whether an option is given that only a driven run has.
fn has_pace<'a>(given: &ArgMatches<'a>) -> bool
    ensures { result ≡ has_pace (rows_of (found_of given.now)) }
{
    is_given(given, "events")
        || is_given(given, "transfer")
        || is_given(given, "keys")
        || is_given(given, "gap")
        || is_given(given, "after")
}

fn two_orders<'a>(given: &ArgMatches<'a>) -> bool
    ensures { result ≡ two_orders (rows_of (found_of given.now)) }
{
    is_given(given, "turns") && is_given(given, "random")
}

fn half_priorities<'a>(given: &ArgMatches<'a>) -> bool
    ensures { result ≡ half_priorities (rows_of (found_of given.now)) }
{
    let changes = is_given(given, "changes");
    let within = is_given(given, "within");
    (changes && !within) || (within && !changes && !is_given(given, "delays"))
}

fn delays_and_seeds<'a>(given: &ArgMatches<'a>) -> bool
    ensures { result ≡ delays_and_seeds (rows_of (found_of given.now)) }
{
    is_given(given, "delays") && (is_given(given, "seeds") || is_given(given, "changes"))
}

fn lacks_runs<'a>(given: &ArgMatches<'a>, orders: OrderUse) -> bool
    ensures { result ≡ lacks_runs orders (rows_of (found_of given.now)) }
{
    match orders {
        OrderUse::Seeded => !is_given(given, "delays") && !is_given(given, "seeds"),
        OrderUse::Optional | OrderUse::Needed | OrderUse::Assumed | OrderUse::OrFile => false,
    }
}

fn turns_without_delays<'a>(given: &ArgMatches<'a>, orders: OrderUse) -> bool
    ensures { result ≡ turns_without_delays orders (rows_of (found_of given.now)) }
{
    match orders {
        OrderUse::Seeded => is_given(given, "turns") && !is_given(given, "delays"),
        OrderUse::Optional | OrderUse::Needed | OrderUse::Assumed | OrderUse::OrFile => false,
    }
}

// Whether priorities have a seed.
fn has_seed<'a>(given: &ArgMatches<'a>, orders: OrderUse) -> bool
    ensures { result ≡ has_seed orders (rows_of (found_of given.now)) }
{
    match orders {
        OrderUse::Seeded => true,
        OrderUse::Optional | OrderUse::Needed | OrderUse::Assumed | OrderUse::OrFile => {
            is_given(given, "random")
        }
    }
}

// Whether the run is a driven one.
fn is_driven<'a>(given: &ArgMatches<'a>, orders: OrderUse) -> bool
    ensures { result ≡ is_driven orders (rows_of (found_of given.now)) }
{
    match orders {
        OrderUse::Optional | OrderUse::Needed | OrderUse::OrFile => has_order(given),
        OrderUse::Assumed | OrderUse::Seeded => true,
    }
}

fn changes_without_seed<'a>(given: &ArgMatches<'a>, orders: OrderUse) -> bool
    ensures { result ≡ changes_without_seed orders (rows_of (found_of given.now)) }
{
    is_given(given, "changes") && !has_seed(given, orders)
}

fn delayed_without_turns<'a>(given: &ArgMatches<'a>) -> bool
    ensures { result ≡ delayed_without_turns (rows_of (found_of given.now)) }
{
    is_given(given, "delayed") && !is_given(given, "turns")
}

fn lacks_order<'a>(given: &ArgMatches<'a>, orders: OrderUse) -> bool
    ensures { result ≡ lacks_order orders (rows_of (found_of given.now)) }
{
    match orders {
        OrderUse::Needed => !has_order(given),
        OrderUse::Optional | OrderUse::Assumed | OrderUse::Seeded | OrderUse::OrFile => false,
    }
}

// Whether a file and an order both give the events.
fn file_and_order<'a>(given: &ArgMatches<'a>, orders: OrderUse) -> bool
    ensures { result ≡ file_and_order orders (rows_of (found_of given.now)) }
{
    match orders {
        OrderUse::OrFile => is_given(given, "file") && has_order(given),
        OrderUse::Optional | OrderUse::Needed | OrderUse::Assumed | OrderUse::Seeded => false,
    }
}

// Whether neither of them does.
fn lacks_events<'a>(given: &ArgMatches<'a>, orders: OrderUse) -> bool
    ensures { result ≡ lacks_events orders (rows_of (found_of given.now)) }
{
    match orders {
        OrderUse::OrFile => !is_given(given, "file") && !has_order(given),
        OrderUse::Optional | OrderUse::Needed | OrderUse::Assumed | OrderUse::Seeded => false,
    }
}

fn pace_without_order<'a>(given: &ArgMatches<'a>, orders: OrderUse) -> bool
    ensures { result ≡ pace_without_order orders (rows_of (found_of given.now)) }
{
    has_pace(given) && !is_driven(given, orders)
}

fn order_in_threads<'a>(given: &ArgMatches<'a>) -> bool
    ensures { result ≡ order_in_threads (rows_of (found_of given.now)) }
{
    has_order(given) && (is_given(given, "threads") || is_given(given, "burst"))
}

fn shows_twice<'a>(given: &ArgMatches<'a>) -> bool
    ensures { result ≡ shows_twice (rows_of (found_of given.now)) }
{
    let shows_log = is_set(given, "show-log");
    let only_log = is_set(given, "only-log");
    let only_output = is_set(given, "only-output");
    (shows_log && only_log) || (shows_log && only_output) || (only_log && only_output)
}

fn traps_unshown<'a>(given: &ArgMatches<'a>) -> bool
    ensures { result ≡ traps_unshown (rows_of (found_of given.now)) }
{
    is_set(given, "traps") && (is_set(given, "only-log") || is_set(given, "only-output"))
}

/// Why the options don't go together, if so. Judged here and not by rules of clap, whose contract is
/// exact only without rules between arguments.
pub(crate) fn clash_of<'a>(given: &ArgMatches<'a>, orders: OrderUse) -> Option<Clash>
    ensures { MatchOption result (go_together orders (rows_of (found_of given.now)) ≡ true)
        (λ clash. Clashes orders (rows_of (found_of given.now)) clash) }
{
    if two_orders(given) {
        return Some(Clash::TwoOrders);
    }
    if delays_and_seeds(given) {
        return Some(Clash::DelaysAndSeeds);
    }
    if lacks_runs(given, orders) {
        return Some(Clash::NoRuns);
    }
    if turns_without_delays(given, orders) {
        return Some(Clash::TurnsWithoutDelays);
    }
    if half_priorities(given) {
        return Some(Clash::HalfPriorities);
    }
    if changes_without_seed(given, orders) {
        return Some(Clash::ChangesWithoutSeed);
    }
    if delayed_without_turns(given) {
        return Some(Clash::DelayedWithoutTurns);
    }
    if lacks_order(given, orders) {
        return Some(Clash::NoOrder);
    }
    if pace_without_order(given, orders) {
        return Some(Clash::PaceWithoutOrder);
    }
    if order_in_threads(given) {
        return Some(Clash::OrderInThreads);
    }
    if shows_twice(given) {
        return Some(Clash::ShownTwice);
    }
    if traps_unshown(given) {
        return Some(Clash::TrapsUnshown);
    }
    if file_and_order(given, orders) {
        return Some(Clash::FileAndOrder);
    }
    if lacks_events(given, orders) {
        return Some(Clash::NoEvents);
    }
    None
}

// The order with the seed of this option.
fn seeded_order<'a>(given: &ArgMatches<'a>, name: &str) -> Order
    ensures { IsSeeded name.now (rows_of (found_of given.now)) result }
{
    let seed = long_given(given, name, 0);
    if is_given(given, "changes") {
        return Order::Priorities {
            seed,
            changes: number_given(given, "changes", 0),
            within: number_given(given, "within", 1),
        };
    }
    Order::Random(seed)
}

// The order by turns; nothing where its delays aren't a list.
fn order_by_turns<'a>(given: &ArgMatches<'a>) -> Option<Order>
    requires { is_given (codes "turns") (rows_of (found_of given.now)) ≡ true }
    ensures { MatchOption result
        (IsBadDelays (first_of (codes "delayed") (rows_of (found_of given.now))))
        (IsGivenOrder (rows_of (found_of given.now))) }
{
    let turns = number_given(given, "turns", 1);
    match text_given(given, "delayed") {
        None => Some(Order::Turns(turns)),
        Some(text) => match delays_in(text) {
            Some(delays) => Some(Order::Delayed { turns, delays }),
            None => None,
        },
    }
}

// The order that is given; nothing where its delays aren't a list.
fn given_order<'a>(given: &ArgMatches<'a>) -> Option<Order>
    ensures { MatchOption result
        (IsBadDelays (first_of (codes "delayed") (rows_of (found_of given.now))))
        (IsGivenOrder (rows_of (found_of given.now))) }
{
    if is_given(given, "turns") {
        return order_by_turns(given);
    }
    Some(seeded_order(given, "random"))
}

// The order of the runs of `search`: by turns with `--delays`, else by the seeds.
fn searched_order<'a>(given: &ArgMatches<'a>) -> Order
    ensures { IsSearched (is_given (codes "delays") (rows_of (found_of given.now)))
        (rows_of (found_of given.now)) result }
{
    if is_given(given, "delays") {
        return Order::Turns(number_given(given, "turns", 50));
    }
    seeded_order(given, "from")
}

/// The order; nothing where its delays aren't a list.
pub(crate) fn order_of<'a>(given: &ArgMatches<'a>, orders: OrderUse) -> Option<Order>
    ensures { MatchOption result
        (IsBadDelays (first_of (codes "delayed") (rows_of (found_of given.now))))
        (IsOrder orders (rows_of (found_of given.now))) }
{
    match orders {
        OrderUse::Seeded => Some(searched_order(given)),
        OrderUse::Optional | OrderUse::Needed | OrderUse::OrFile => given_order(given),
        OrderUse::Assumed => {
            if has_order(given) {
                given_order(given)
            } else {
                Some(Order::Turns(1))
            }
        }
    }
}

// A gap: a number, or `none`.
fn gap_of(text: Option<&str>, default: Option<u32>) -> Option<Option<u32>>
    ensures { MatchOption result (IsBadGap (option_map (λ s. s.now) text.entry))
        (IsGap default (option_map (λ s. s.now) text.entry)) }
{
    match text {
        None => Some(default),
        Some("none") => Some(None),
        Some(number) => match number.parse::<u32>() {
            Ok(gap) => Some(Some(gap)),
            Err(_) => None,
        },
    }
}

// The gap where none is given.
fn gap_by_default(orders: OrderUse) -> Option<u32>
    ensures { result ≡ gap_by_default orders }
{
    match orders {
        OrderUse::Assumed => None,
        OrderUse::Optional | OrderUse::Needed | OrderUse::Seeded | OrderUse::OrFile => Some(1_000),
    }
}

/// The gap of the options; nothing where it is neither a number nor `none`.
pub(crate) fn gap_given<'a>(given: &ArgMatches<'a>, orders: OrderUse) -> Option<Option<u32>>
    ensures { MatchOption result
        (IsBadGap (first_of (codes "gap") (rows_of (found_of given.now))))
        (IsGap (gap_by_default orders) (first_of (codes "gap") (rows_of (found_of given.now)))) }
{
    gap_of(text_given(given, "gap"), gap_by_default(orders))
}

// The most events where their number isn't given.
fn events_by_default(orders: OrderUse) -> u64
    ensures { result ≡ events_by_default orders }
{
    match orders {
        OrderUse::Optional | OrderUse::Needed | OrderUse::OrFile => 1_000_000,
        OrderUse::Assumed => u64::MAX,
        OrderUse::Seeded => 100_000,
    }
}

/// What a driven run is asked for.
pub(crate) fn drive_given<'a>(
    given: &ArgMatches<'a>,
    orders: OrderUse,
    settings: Settings,
) -> Drive<'a>
    requires { HasSettings orders (rows_of (found_of given.now)) settings }
    ensures { AsksDrive orders (rows_of (found_of given.now)) result }
{
    Drive {
        order: settings.order,
        events: long_given(given, "events", events_by_default(orders)),
        transfer: number_given(given, "transfer", 100),
        gap: settings.gap,
        keys: text_given(given, "keys"),
        after: text_given(given, "after"),
    }
}
