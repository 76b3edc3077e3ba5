//! What the commands of the program share: the fault that ends one, what a finished one prints, files
//! and standard streams, the built-in sample, the texts of schedules and logs, and the machine that a
//! log names.
#![tactic(auto)]

pub mod excerpt;
pub mod explained;
pub mod fault;
pub mod files;
pub mod finished;
pub mod input;
mod laws;
mod line;
pub mod listed;
pub mod machines;
pub mod naming;
mod pieces;
pub mod report;
pub mod sample;
pub mod sizes;
pub mod streams;
pub mod texts;

pub use laws::faults_stay_on_a_line;
