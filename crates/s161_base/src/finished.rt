//! What a finished command leaves.

ghost use Rattle.std.specs.Prelude.{◌≡◌};

/// The text that a finished command prints, and its exit status.
#[derive(Drop)]
pub struct Finished {
    pub text: Vec<u8>,
    pub status: u8,
}

impl Finished {
    /// A command that has nothing to tell but its text: its exit status is 0.
    pub fn done(text: Vec<u8>) -> Self
        ensures text { result.text ≡ text }
        ensures status { result.status ≡ 0 }
    {
        Finished { text, status: 0 }
    }
}
