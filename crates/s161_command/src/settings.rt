//! The options of a command that may be wrong though clap takes them. Found first, as a small value that
//! is copied, so that tasks are read by functions without a fault: each way out of a function costs the
//! prover more, the more is alive there.

ghost use Rattle.std.specs.Prelude.{◌≡◌, MatchResult};
ghost use Rattle.clap.specs.Words.{found_of, rows_of};
ghost use Rattle.s161_command.specs.Commands.{ClashesAs, ClashesPlainly, order_use};
ghost use Rattle.s161_command.specs.Drives.{Clashes};
ghost use Rattle.s161_command.specs.helpers.Settings.{HasPlainSettings, HasSettings, HasSettingsIf};

use crate::class::{DelayClass, class_given};
use crate::drive::{Clash, OrderUse, clash_of, gap_given, order_of};
use crate::link::link_if_given;
use crate::repeated::has_too_many;
use clap::ArgMatches;
use m161_isa::LinkUnit;
use m161_order::Order;

/// What these options say, where it can be followed.
#[derive(Clone, Copy)]
pub(crate) struct Settings {
    /// The order; turns of one Step where the command takes none.
    pub(crate) order: Order,
    /// Which delays the runs of `search` may have, in place of seeds.
    pub(crate) delays: Option<DelayClass>,
    /// After how many events a key is typed, if there is a number.
    pub(crate) gap: Option<u32>,
    /// What `ll` links a processor to, if it is given.
    pub(crate) link: Option<LinkUnit>,
}

/// How the command of this name takes an order, if it takes one.
pub(crate) fn order_use(name: &str) -> Option<OrderUse>
    ensures { result ≡ order_use name.now }
{
    match name {
        "run" => Some(OrderUse::Optional),
        "schedule" => Some(OrderUse::Needed),
        "console" => Some(OrderUse::Assumed),
        "search" => Some(OrderUse::Seeded),
        "trace" => Some(OrderUse::Optional),
        "debug" => Some(OrderUse::OrFile),
        "gdb" => Some(OrderUse::OrFile),
        _ => None,
    }
}

// The settings of a command that takes an order in this way.
fn settings_with_order<'a>(given: &ArgMatches<'a>, orders: OrderUse) -> Result<Settings, Clash>
    ensures { MatchResult result (HasSettings orders (rows_of (found_of given.now)))
        (λ clash. Clashes orders (rows_of (found_of given.now)) clash) }
{
    if let Some(clash) = clash_of(given, orders) {
        return Err(clash);
    }
    let Some(order) = order_of(given, orders) else {
        return Err(Clash::BadDelays);
    };
    if let Some(error) = order.fault() {
        return Err(Clash::BadOrder(error));
    }
    let Some(delays) = class_given(given) else {
        return Err(Clash::BadClass);
    };
    if has_too_many(given, "never") {
        return Err(Clash::ManyNever);
    }
    let Some(gap) = gap_given(given, orders) else {
        return Err(Clash::BadGap);
    };
    match link_if_given(given) {
        Some(link) => Ok(Settings {
            order,
            delays,
            gap,
            link,
        }),
        None => Err(Clash::BadLink),
    }
}

// The settings of a command that takes no order.
fn settings_without_order<'a>(given: &ArgMatches<'a>) -> Result<Settings, Clash>
    ensures { MatchResult result (HasPlainSettings (rows_of (found_of given.now)))
        (ClashesPlainly (rows_of (found_of given.now))) }
{
    if has_too_many(given, "never") {
        return Err(Clash::ManyNever);
    }
    match link_if_given(given) {
        Some(link) => Ok(Settings {
            order: Order::Turns(1),
            delays: None,
            gap: None,
            link,
        }),
        None => Err(Clash::BadLink),
    }
}

/// The settings of a command that takes an order in this way, or none.
///
/// # Errors
/// The options don't go together, or what one of them says can't be followed.
pub(crate) fn settings_given<'a>(
    given: &ArgMatches<'a>,
    orders: Option<OrderUse>,
) -> Result<Settings, Clash>
    ensures { MatchResult result (HasSettingsIf orders (rows_of (found_of given.now)))
        (λ clash. ClashesAs orders (rows_of (found_of given.now)) clash) }
{
    match orders {
        Some(orders) => settings_with_order(given, orders),
        None => settings_without_order(given),
    }
}
