//! Tests of how lists of events are shortened, with judges that look at the order of Steps alone.
#![tactic(auto)]

pub mod judges;
#[cfg(test)]
mod tests;
pub mod wrong;
