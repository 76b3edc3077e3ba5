//! The command line of the program: its definition for clap, and the task that its words ask for.
#![tactic(auto)]

mod argument;
mod asked;
mod class;
mod command;
mod delays;
mod drive;
mod given;
mod help;
mod lines;
mod link;
mod options;
mod repeated;
mod settings;
mod task;

pub use class::DelayClass;
pub use command::{never_words, parse};
pub use drive::{Clash, Drive, OrderUse};
pub use m161_order::{Order, OrderError};
pub use task::{
    AskedSize, AssemblyTask, ConsoleTask, DebugTask, DrivenTask, ExploreTask, FilesTask, GdbTask,
    ListingTask, Registers, Rejection, ReplayTask, RunTask, ScheduleTask, SearchTask, Shown, Size,
    Source, Task, ThreadsTask, TraceTask,
};
