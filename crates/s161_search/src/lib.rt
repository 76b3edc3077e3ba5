//! The commands that look for what goes wrong: `audit`, which finds stale uses of the TLB in a run;
//! `search`, which looks for a seed or a list of delays whose run goes wrong, and prints its schedule,
//! shortened; and `explore`, which looks at every state that any order of events can reach.
#![tactic(auto)]

mod again;
mod answers;
pub mod audit;
mod basis;
mod delays;
pub mod explore;
mod found;
mod inputs;
mod list_stores;
mod never;
mod notes;
mod orders;
mod points;
pub mod search;
mod seed_stores;
mod seeds;
mod start;
mod texts;
pub mod watches;
