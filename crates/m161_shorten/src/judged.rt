//! Verdicts, as far as they matter here.

/// A verdict on a list of events.
#[derive(Clone, Copy, Debug, PartialEq, Eq)]
pub struct Judgement<K> {
    /// Of which kind it is.
    pub kind: K,
    /// How many of the events it needs, from the first on.
    pub needs: usize,
}
