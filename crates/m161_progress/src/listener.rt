//! Listeners.

/// Is told how far work is, which goes on the same whoever listens.
pub trait Listener {
    /// So many are done by now, of what the work counts: events, or states. Where work begins anew, so do
    /// the numbers.
    fn reached(&self, number: u64);
}

/// Listens to nothing.
#[derive(Clone, Copy, Debug, PartialEq, Eq)]
pub struct Nobody;

impl Listener for Nobody {
    fn reached(&self, _number: u64) {}
}
