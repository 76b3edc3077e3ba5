//! What is wrong with a list.

use thiserror::Error;

/// The kinds of the judges' verdicts.
#[derive(Clone, Copy, Debug, PartialEq, Eq)]
pub enum Wrong {
    /// Without a Step of processor 1 between.
    Plain,
    /// With one.
    Racy,
}

/// The judge has judged as many lists as it may.
#[derive(Clone, Copy, Debug, PartialEq, Eq, Error)]
#[error("no more lists are judged")]
pub struct Tired;
