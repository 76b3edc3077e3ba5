//! What the runs of a search are made over.

use crate::inputs::Inputs;
use crate::start::Start;
use m161::{Console, Tlb};
use m161_judge::Booted;
use m161_reach::Machines;
use s161_command::SearchTask;
use s161_progress::Progress;
use std::alloc::Global;

/// What the runs of a search are made over.
#[derive(Drop)]
pub(crate) struct Basis<'a, 'b> {
    /// Where memory comes from.
    pub alloc: Global,
    /// The state at boot.
    pub booted: &'b Booted<Tlb, Console>,
    /// Where the runs begin.
    pub start: &'b Start,
    /// What is searched.
    pub task: SearchTask<'a>,
    /// What was read.
    pub inputs: &'b Inputs,
    /// What is asked of the states behind a run.
    pub ends: &'b Machines<'b, Tlb, Console>,
    /// Who counts the runs.
    pub progress: &'b Progress,
}
