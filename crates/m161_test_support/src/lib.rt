//! What the tests of several crates share: files, a kernel, and the answers of events. It is used by
//! tests alone.
#![tactic(auto)]

pub mod files;
pub mod kernel;
pub mod outcomes;

use m161_machine::{Conf, LinkUnit};

/// The size of the machine that the built-in image runs on.
pub const DEMO_CONF: Conf = Conf {
    ram: 1_048_576,
    processors: 1,
    log: 7,
    link: LinkUnit::Word,
    strict: false,
};
