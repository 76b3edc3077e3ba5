//! The commands that run a machine: `demo`; `run`, under a schedule, by a policy or in threads;
//! `replay`, which runs it again by its log; `schedule`, which prints the events of a run by an order;
//! and `console`, where the bytes of standard input are the keys of a driven run, and what its console
//! sends goes to standard output.
#![tactic(auto)]

pub mod behind;
pub mod booted;
pub mod console;
pub mod demo;
pub mod driven;
pub mod events;
pub mod inputs;
mod keys;
pub mod laws;
mod log;
mod made;
pub mod policy;
pub mod replay;
pub mod run;
pub mod schedule;
mod serving;
pub mod summary;
pub mod threaded;
mod unhandled;
