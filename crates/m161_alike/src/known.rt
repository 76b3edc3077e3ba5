//! A set of what is known of time.

ghost use Rattle.std.specs.Prelude.{◌≡◌, ◌≢◌, ◌↔◌, ◌<◌, ◌||◌, ℕ, IsTrue};
ghost use Rattle.m161_isa.specs.Bits.{has_bit};
ghost use Rattle.m161_alike.specs.Reads.{AreWithin, no_reads};
ghost use Rattle.m161_alike.specs.View.{joined, known_of};

use crate::reads::Reads;

/// A set of pairs of a processor and a register of its time. Bit p of a word stands for processor p.
#[derive(Clone, Copy, Debug, PartialEq, Eq)]
pub struct Known {
    /// The processors of which Random is known.
    pub random: u32,
    /// The processors of which Count is known.
    pub count: u32,
}

impl Known {
    /// The empty set.
    pub fn nothing() -> Known
        ensures { (p : ℕ) → known_of result p ≡ no_reads }
    {
        Known {
            random: 0,
            count: 0,
        }
    }

    /// What is known of a processor.
    pub fn of(&self, p: u32) -> Reads
        requires { p < 32 }
        ensures { result ≡ known_of self.now p }
    {
        Reads {
            random: has_bit(self.random, p),
            count: has_bit(self.count, p),
        }
    }

    /// Whether all of this is known of a processor.
    pub fn contains(&self, p: u32, read: Reads) -> bool
        requires { p < 32 }
        ensures { IsTrue result ↔ AreWithin read (known_of self.now p) }
    {
        (has_bit(self.random, p) || !read.random) && (has_bit(self.count, p) || !read.count)
    }

    /// Adds this of a processor.
    pub fn insert(&mut self, p: u32, read: Reads)
        requires { p < 32 }
        ensures same { known_of self.new p ≡ joined read (known_of self.old p) }
        ensures others { (q : ℕ) → q < 32 → q ≢ p → known_of self.new q ≡ known_of self.old q }
    {
        self.random = with_bit(self.random, p, read.random);
        self.count = with_bit(self.count, p, read.count);
    }
}

// Whether bit `p` of a word is set.
fn has_bit(word: u32, p: u32) -> bool
    requires { p < 32 }
    ensures { result ≡ has_bit word p }
{
    (word >> p) % 2 == 1
}

// A word, with bit `p` set too if asked for.
fn with_bit(word: u32, p: u32, set: bool) -> u32
    requires { p < 32 }
    ensures same { has_bit result p ≡ (set || has_bit word p) }
    ensures others { (q : ℕ) → q < 32 → q ≢ p → has_bit result q ≡ has_bit word q }
{
    if set { word | (1 << p) } else { word }
}
